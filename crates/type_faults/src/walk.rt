ghost use Rattle.std.specs.Prelude.{◌≡◌, [], ◌∷◌, ◌++◌, List, OnOk, take};
ghost use Rattle.type_rules.specs.Names.{Name};
ghost use Rattle.type_rules.specs.Flow as flow;
ghost use Rattle.type_tables.specs.Variables.{give_last, var_view};
ghost use Rattle.type_judges.specs.Places.{scope_view};
ghost use Rattle.type_faults.specs.Walks.{Turns, names_at, scope_at, stand_of};
ghost use Rattle.text_names.specs.Declarations.{names_view};

use rp_value::Memory;
use std::alloc::Global;
use text_names::TextNames;
use type_judges::Scope;
use type_rules::Fault;
use type_tables::{Flags, Later, VarItem, Vars};

/// The first fault of some places, or `Err`, after which nothing is said of the walk.
pub(crate) type Found = Result<Option<Fault>, Memory>;

/// Where a walk over a text stands.
#[derive(Drop)]
pub(crate) struct Walk<'n, 'a> {
    pub(crate) alloc: Global,
    pub(crate) names: &'n TextNames<'a>,
    /// The variables in sight.
    pub(crate) vars: Vars<'a>,
    /// Some path comes here.
    pub(crate) live: bool,
    /// The variables that are declared later in this or an enclosing block.
    pub(crate) later: Later<'a>,
    /// The number of the declaration.
    pub(crate) decl: u32,
    /// The words on calls and invocations may stand here. Where they mayn't, the queries that are
    /// used here are marked.
    pub(crate) words: bool,
    /// The queries that procedures use, directly or through queries, by their declarations.
    pub(crate) used: Flags,
}

impl<'n, 'a> Walk<'n, 'a> {
    /// Before a walk from the last declaration to the first.
    pub(crate) fn new(alloc: Global, names: &'n TextNames<'a>) -> Walk<'n, 'a>
        ensures names { names_at result ≡ names_view names.now }
        ensures later { result.later ≡ [] }
        ensures used { result.used ≡ [] }
    {
        Walk {
            alloc,
            names,
            vars: Vars::new(alloc),
            live: true,
            later: Later::new(alloc),
            decl: 0,
            words: false,
            used: Flags::new(alloc),
        }
    }

    /// What is known where the walk stands.
    pub(crate) fn scope(&self) -> Scope<'_, 'a>
        ensures scope { (later : List Name) → scope_view result later ≡ scope_at later (stand_of self.now) }
        ensures names { names_view result.names.now ≡ names_at self.now }
        ensures later { result.later.now ≡ self.now.later }
    {
        Scope {
            names: self.names,
            vars: &self.vars,
            later: &self.later,
            decl: self.decl,
            words: self.words,
        }
    }

    /// A variable comes in sight.
    pub(crate) fn bring(&mut self, var: VarItem<'a>) -> Result<(), Memory>
        ensures { OnOk result (Turns self.old self.new (λ p. record p.sight {
          vars = p.sight.vars ++ var_view var.entry ∷ [];
        })) }
    {
        self.vars.push(var)?;
        Ok(())
    }

    /// All variables but the first `len` are out of sight.
    pub(crate) fn back_to(&mut self, len: usize)
        ensures { Turns self.old self.new (λ p. record p.sight { vars = take len p.sight.vars }) }
    {
        self.vars.truncate(len);
    }

    /// The variable of this name has a value now.
    pub(crate) fn give(&mut self, name: &[u8])
        ensures { Turns self.old self.new (λ p. record p.sight { vars = flow.give name.now p.sight.vars }) }
    {
        self.vars.give(name);
    }

    /// The last variable has a value now.
    pub(crate) fn give_last(&mut self)
        ensures { Turns self.old self.new (λ p. record p.sight { vars = give_last p.sight.vars }) }
    {
        self.vars.give_last();
    }
}
