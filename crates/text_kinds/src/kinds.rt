//! The datatypes of a text by their numbers.

ghost use Rattle.std.specs.Prelude.{◌≡◌, ◌<◌, ◌+◌, ◌++◌, ◌∷◌, [], ℕ, IfOk, None, Some, flat_map, length, position, unwrap_or};
ghost use Rattle.std.specs.List.{position_from};
ghost use Rattle.type_rules.specs.Kinds.{bool_kind};
ghost use Rattle.type_rules.specs.Names.{Names, same_name};
ghost use Rattle.text_names.specs.Declarations.{names_view};
ghost use Rattle.type_rules.specs.Matches as spec;
ghost use Rattle.type_terms.specs.Views.{cases_view};
ghost use Rattle.desugaring.specs.Appearances.{same_kind};
ghost use Rattle.desugaring.specs.Tables.{cons_of};
ghost use Rattle.text_kinds.specs.Numbered.{con_place, has_kind, numbered};
ghost use Rattle.text_kinds.specs.Seen.{kinds_view};
ghost use Rattle.text_kinds.specs.means.Rows as rows;
ghost use Rattle.text_kinds.specs.means.Rows.{numbers_in};

use crate::numbers::Numbers;
use crate::table::KindTable;
use rp_value::{List, Memory};
use std::alloc::Global;
use text_names::TextNames;
use type_rules::{Base, Kind};
use type_terms::{Cases, cases_of};

/// The place of what may stand under `Maybe`s. The declared types come last.
pub(crate) fn place_of(base: Base) -> Option<usize>
    ensures { result ≡ rows.place_of base }
{
    match base {
        Base::Bool => Some(0),
        Base::Int => Some(1),
        Base::Text => Some(2),
        Base::Call => Some(3),
        Base::Invocation => Some(4),
        Base::Operation => Some(5),
        Base::Info => Some(6),
        Base::Outcome => Some(7),
        Base::Declared(number) => Some(8 + number as usize),
        Base::Unknown => None,
        Base::Open => None,
    }
}

/// How many places there are besides those of declared types.
const UNDECLARED: usize = 8;

/// How many constructors a type has; none where it isn't a datatype.
pub fn con_count(names: &TextNames, kind: Kind) -> usize
    ensures { result ≡ length (cons_of (names_view names.now) kind) }
{
    match cases_of(names, kind) {
        Some(Cases::Bool) => 2,
        Some(Cases::Maybe(_)) => 2,
        Some(Cases::Declared(cons)) => cons.as_slice().len(),
        None => 0,
    }
}

/// Which of two names it is.
fn one_of(first: &[u8], second: &[u8], name: &[u8]) -> Option<u32>
    ensures { result ≡ position_from (λ x. same_name x name.now) 0 (first.now ∷ second.now ∷ []) }
{
    if first == name {
        Some(0)
    } else if second == name {
        Some(1)
    } else {
        None
    }
}

/// The place of a constructor among those of its type.
fn place_in(cases: Cases, name: &[u8]) -> Option<u32>
    ensures { (n : Names) → result ≡ position_from (λ c. same_name c.name name.now) 0 (cases_view n cases.entry) }
{
    match cases {
        Cases::Bool => one_of(b"false", b"true", name),
        Cases::Maybe(_) => one_of(b"none", b"some", name),
        Cases::Declared(cons) => cons.number(name),
    }
}

/// The place of a type's constructor among those of the type.
fn con_in(names: &TextNames, kind: Kind, name: &[u8]) -> Option<u32>
    ensures { result ≡ position_from (λ c. same_name c.name name.now) 0
        (unwrap_or (spec.cases_of (names_view names.now) kind) []) }
{
    match cases_of(names, kind) {
        Some(cases) => place_in(cases, name),
        None => None,
    }
}

fn own_at(own: &[Option<Numbers>], place: usize) -> Option<Numbers>
    ensures { result ≡ rows.own_at own.now place }
{
    match own.get(place) {
        Some(numbers) => *numbers,
        None => None,
    }
}

fn maybe_at(maybes: &[List<Numbers>], place: usize, many: usize) -> Option<Numbers>
    ensures { result ≡ rows.maybe_at maybes.now place many }
{
    match maybes.get(place) {
        Some(row) => row.as_slice().get(many).copied(),
        None => None,
    }
}

fn found_in(
    own: &[Option<Numbers>],
    maybes: &[List<Numbers>],
    place: usize,
    many: u32,
) -> Option<Numbers>
    ensures { result ≡ rows.found_in own.now maybes.now place many }
{
    if many == 0 {
        own_at(own, place)
    } else {
        maybe_at(maybes, place, many as usize - 1)
    }
}

/// A sum that is known to be below an end.
fn sum_below(first: u32, place: u32, _end: u32) -> u32
    requires { first + place < _end }
    ensures { result ≡ first + place }
{
    first + place
}

/// So many places without a number.
#[tactic(auto, using(crate::proofs::RowsKept::own_none))]
fn no_numbers(alloc: Global, places: usize) -> Result<Vec<Option<Numbers>>, Memory>
    ensures { IfOk result (λ own. (place : ℕ) → rows.own_at own.items place ≡ None) }
{
    let mut own = Vec::new(alloc);
    for _place in 0..places {
        own.push(None)?;
    }
    Ok(own)
}

/// So many empty rows.
#[tactic(auto, using(crate::proofs::RowsKept::maybes_none))]
fn no_rows(alloc: Global, places: usize) -> Result<Vec<List<Numbers>>, Memory>
    ensures { IfOk result (λ maybes. (place many : ℕ) → rows.maybe_at maybes.items place many ≡ None) }
{
    let mut maybes = Vec::new(alloc);
    for _place in 0..places {
        maybes.push(List::new(alloc))?;
    }
    Ok(maybes)
}

impl<'n, 'a> KindTable<'n, 'a> {
    /// `Bool` alone, which is datatype 0.
    pub fn new(alloc: Global, names: &'n TextNames<'a>) -> Result<KindTable<'n, 'a>, Memory>
        ensures { IfOk result (λ table. kinds_view table ≡ numbered (names_view names.now) (bool_kind ∷ [])) }
    {
        let places = UNDECLARED + names.type_count() as usize;
        let own = no_numbers(alloc, places)?;
        let maybes = no_rows(alloc, places)?;
        let mut table = KindTable {
            names,
            kinds: List::new(alloc),
            cons: 0,
            own,
            maybes,
        };
        table.add_own(Base::Bool)?;
        Ok(table)
    }

    pub fn names(&self) -> &'n TextNames<'a>
        ensures { result.now ≡ self.now.names.now }
    {
        self.names
    }

    pub fn as_slice(&self) -> &[Kind]
        ensures { result.now ≡ self.now.kinds }
    {
        self.kinds.as_slice()
    }

    /// The numbers of a datatype and of its first constructor.
    fn numbers(&self, kind: Kind) -> Option<Numbers>
        ensures { result ≡ numbers_in (names_view self.now.names.now) 0 0 self.now.kinds kind }
    {
        match place_of(kind.base) {
            Some(place) => {
                found_in(
                    self.own.as_slice(),
                    self.maybes.as_slice(),
                    place,
                    kind.maybes,
                )
            }
            None => None,
        }
    }

    pub(crate) fn has(&self, kind: Kind) -> bool
        ensures { result ≡ has_kind self.now.kinds kind }
    {
        self.numbers(kind).is_some()
    }

    /// The number of a datatype.
    pub fn number(&self, kind: Kind) -> Option<u32>
        ensures { result ≡ position (same_kind kind) self.now.kinds }
    {
        match self.numbers(kind) {
            Some(numbers) => Some(numbers.number),
            None => None,
        }
    }

    /// The number of the datatype's constructor of this name.
    pub fn con_number(&self, kind: Kind, name: &[u8]) -> Option<u32>
        ensures { result ≡ con_place (kinds_view self.now) kind name.now }
    {
        match self.numbers(kind) {
            Some(numbers) => match con_in(self.names, kind, name) {
                Some(place) => Some(sum_below(numbers.first, place, self.cons)),
                None => None,
            },
            None => None,
        }
    }
}
