ghost use Rattle.std.specs.Prelude.{◌≡◌, ◌-◌, ◌≤◌, [], ◌∷◌, ◌++◌, IfOk, OnErr, OnOk, is_some, length, map, take};
ghost use Rattle.std.specs.Option.{option_map};
ghost use Rattle.type_rules.specs.Accesses.{find_var};
ghost use Rattle.type_rules.specs.Flow.{give, with_value};
ghost use Rattle.type_tables.specs.Tables.{IsIndexOf, place_from};
ghost use Rattle.type_tables.specs.Variables.{known_names, var_view, set_flags, with_flags, and_flags, give_last};

use crate::flags::Flags;
use crate::table::NameTable;
use rp_value::Memory;
use std::alloc::Global;
use std::marker::Model;
use type_rules::Kind;

/// A variable.
#[derive(Clone, Copy)]
pub struct VarItem<'a> {
    pub name: &'a [u8],
    pub kind: Kind,
    /// It has a value on every path to this place.
    pub set: bool,
    /// A parameter, a variable of a pattern or a quantified one.
    pub fixed: bool,
}

/// A variable, without whether it has a value.
#[derive(Clone, Copy)]
struct Known<'a> {
    name: &'a [u8],
    kind: Kind,
    fixed: bool,
}

/// So many are looked through for a name, which takes less time than to hash it.
const FEW: usize = 8;

/// The place of the first of a few variables that has the name.
fn first_place(items: &[Known], name: &[u8]) -> Option<u32>
    requires { length items.now ≤ 8 }
    ensures { result ≡ place_from 0 (known_names items.now) name.now }
{
    let mut place: u32 = 0;
    for item in items {
        if item.name == name {
            return Some(place);
        }
        place += 1;
    }
    None
}

/// The place of the first variable that has the name, with the table of them.
fn place_in(items: &[Known], places: &NameTable, name: &[u8]) -> Option<u32>
    requires { IsIndexOf places.now (known_names items.now) }
    ensures { result ≡ place_from 0 (known_names items.now) name.now }
{
    if items.len() <= FEW {
        first_place(items, name)
    } else {
        places.number(name)
    }
}

/// The variables in sight. Many are found by a hash. Of two of one name the first is found.
#[derive(Drop)]
pub struct Vars<'a> {
    items: Vec<Known<'a>>,
    /// Which of them have a value on every path to this place.
    set: Flags,
    places: NameTable<'a>,
}

impl<'a> Model for Vars<'a> {
    ghost use Rattle.std.specs.Prelude.{List};
    ghost use Rattle.type_rules.specs.Accesses.{Var};
    ghost use Rattle.type_tables.specs.Variables.{vars_seen, ArePlaces};

    ghost Value = { List Var };

    ghost view = { λ it. vars_seen it.items.items it.set };

    ghost invariant = { λ it. ArePlaces it.items.items it.set it.places };
}

impl<'a> Vars<'a> {
    /// No variables. It takes no memory.
    pub fn new(alloc: Global) -> Vars<'a>
        ensures { result ≡ [] }
    {
        Vars {
            items: Vec::new(alloc),
            set: Flags::new(alloc),
            places: NameTable::new(alloc),
        }
    }

    pub fn len(&self) -> usize
        ensures { result ≡ length self.now }
    {
        self.items.as_slice().len()
    }

    /// The place of the variable that the name stands for.
    pub fn place(&self, name: &[u8]) -> Option<u32>
        ensures { result ≡ place_from 0 (map (λ v. v.name) self.now) name.now }
    {
        place_in(self.items.as_slice(), &self.places, name)
    }

    pub fn find(&self, name: &[u8]) -> Option<VarItem<'a>>
        ensures { option_map var_view result ≡ find_var self.now name.now }
    {
        let items = self.items.as_slice();
        let place = place_in(items, &self.places, name)? as usize;
        let known = items.get(place)?;
        Some(VarItem {
            name: known.name,
            kind: known.kind,
            set: self.set.has(place),
            fixed: known.fixed,
        })
    }

    /// Whether a variable in sight has the name.
    pub fn is_var(&self, name: &[u8]) -> bool
        ensures { result ≡ is_some (find_var self.now name.now) }
    {
        place_in(self.items.as_slice(), &self.places, name).is_some()
    }

    /// One more.
    pub fn push(&mut self, var: VarItem<'a>) -> Result<(), Memory>
        ensures ok { OnOk result (self.new ≡ self.old ++ var_view var.entry ∷ []) }
        ensures err { OnErr result (self.new ≡ self.old) }
    {
        let Ok(place) = u32::try_from(self.items.len()) else {
            return Err(Memory);
        };
        self.items.push(Known {
            name: var.name,
            kind: var.kind,
            fixed: var.fixed,
        })?;
        if self.set.push(var.set).is_err() {
            let _ = self.items.pop();
            return Err(Memory);
        }
        if self.places.add(var.name, place).is_err() {
            let _ = self.items.pop();
            self.set.truncate(place as usize);
            return Err(Memory);
        }
        Ok(())
    }

    /// Takes out the last, if there is one.
    fn pop(&mut self)
        ensures { self.new ≡ take (length self.old - 1) self.old }
    {
        if let Some(var) = self.items.pop() {
            let place = self.items.len();
            self.set.truncate(place);
            self.places.remove(var.name, place as u32);
        }
    }

    /// Takes out all but the first `len`.
    pub fn truncate(&mut self, len: usize)
        ensures { self.new ≡ take len self.old }
    {
        let over = self.len().saturating_sub(len);
        for _gone in 0..over {
            self.pop();
        }
    }

    /// The variable of this name has a value now.
    pub fn give(&mut self, name: &[u8])
        ensures { self.new ≡ give name.now self.old }
    {
        if let Some(place) = place_in(self.items.as_slice(), &self.places, name) {
            self.set.put(place as usize, true);
        }
    }

    /// The last variable has a value now.
    pub fn give_last(&mut self)
        ensures { self.new ≡ give_last self.old }
    {
        let len = self.items.as_slice().len();
        if len > 0 {
            self.set.put(len - 1, true);
        }
    }

    /// Which of them have a value on every path to here.
    pub fn flags(&self, alloc: Global) -> Result<Flags, Memory>
        ensures { IfOk result (λ flags. flags ≡ set_flags self.now) }
    {
        self.set.copy(alloc)
    }

    /// The variables of these flags have a value where those are true, and none where they are false.
    pub fn restore(&mut self, flags: &Flags)
        ensures { self.new ≡ with_flags self.old flags.now }
    {
        self.set.merge(flags, false);
    }

    /// Those keep their values that have one by these flags too.
    pub fn join(&mut self, flags: &Flags)
        ensures { self.new ≡ and_flags self.old flags.now }
    {
        self.set.merge(flags, true);
    }

    /// All have a value, since no path comes here.
    pub fn give_all(&mut self)
        ensures { self.new ≡ map with_value self.old }
    {
        self.set.fill();
    }
}
