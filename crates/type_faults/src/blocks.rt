//! What statements do to the variables: which have values, and which are declared later.

ghost use Rattle.std.specs.Prelude.{◌≡◌, ◌||◌, ◌++◌, [], IfOk, List, None, OnOk};
ghost use Rattle.std.specs.Option.{option_map};
ghost use Rattle.rp_ast.specs.View as tree;
ghost use Rattle.type_rules.specs.Names.{Name};
ghost use Rattle.type_rules.specs.Flow.{dead};
ghost use Rattle.type_rules.specs.StmtSites as spec;
ghost use Rattle.type_tables.specs.Counts.{IsCounted};
ghost use Rattle.type_faults.specs.Flows.{IsFlowOf, joined, restored};
ghost use Rattle.type_faults.specs.Walks.{Lowers, Raises, Turns, Walks, listed, own_names, sight_of};

use crate::walk::Walk;
use rp_ast::{Ident, StmtForm, StmtNode};
use rp_value::Memory;
use type_tables::Flags;

/// Which variables have a value on every path to a place, and whether some path comes to it.
#[derive(Drop)]
pub(crate) struct Flow {
    pub(crate) set: Flags,
    pub(crate) live: bool,
}

/// The variable that a statement itself declares.
#[tactic(auto, using(rp_ast::proofs::StmtViews::stmt_views))]
fn declared_in(stmt: &StmtNode) -> Option<&Ident>
    ensures { listed (option_map (λ name. name.now.text) result) ≡ own_names (tree.stmt_view stmt.now) }
{
    match &stmt.what {
        StmtForm::Var(name, _, _) => Some(name),
        _ => None,
    }
}

fn either(a: bool, b: bool) -> bool
    ensures { result ≡ (a || b) }
{
    a || b
}

impl<'n, 'a> Walk<'n, 'a> {
    /// How the flow is here.
    pub(crate) fn flow(&self) -> Result<Flow, Memory>
        ensures { IfOk result (λ now. IsFlowOf now (sight_of self.now)) }
    {
        Ok(Flow {
            set: self.vars.flags(self.alloc)?,
            live: self.live,
        })
    }

    /// Goes back to where the flow was this.
    pub(crate) fn restore(&mut self, flow: &Flow)
        ensures { Turns self.old self.new (λ p. restored flow.now p.sight) }
    {
        self.vars.restore(&flow.set);
        self.live = flow.live;
    }

    /// Two ways meet: the one that was walked last, and the one with this flow.
    pub(crate) fn join(&mut self, flow: &Flow)
        ensures { Turns self.old self.new (λ p. joined flow.now p.sight) }
    {
        self.vars.join(&flow.set);
        self.live = either(self.live, flow.live);
    }

    /// No path goes on. Every variable has a value on every path.
    pub(crate) fn end(&mut self)
        ensures { Turns self.old self.new (λ p. dead p.sight) }
    {
        self.vars.give_all();
        self.live = false;
    }

    /// The variable that a statement itself declares is declared later.
    fn raise(&mut self, stmt: &'a StmtNode) -> Result<(), Memory>
        ensures { OnOk result (Raises self.old self.new (own_names (tree.stmt_view stmt.now))) }
    {
        match declared_in(stmt) {
            Some(name) => {
                self.later.raise(name.text.as_slice())?;
                Ok(())
            }
            None => Ok(()),
        }
    }

    /// It is declared later no more.
    fn lower(&mut self, stmt: &StmtNode)
        ensures { Lowers self.old self.new (own_names (tree.stmt_view stmt.now)) }
    {
        match declared_in(stmt) {
            Some(name) => self.later.lower(name.text.as_slice()),
            None => {}
        }
    }

    /// The variables of these statements are declared later.
    fn raise_each(&mut self, stmts: &'a [StmtNode]) -> Result<(), Memory>
        ensures { OnOk result (Raises self.old self.new (spec.declared_in (tree.stmts_view stmts.now))) }
    {
        for stmt in stmts {
            self.raise(stmt)?;
        }
        Ok(())
    }

    /// Before statements, whose variables are declared later.
    pub(crate) fn raise_all(&mut self, stmts: &'a [StmtNode]) -> Result<(), Memory>
        ensures { (later : List Name) → IsCounted self.old.later later
            → OnOk result (Walks (spec.declared_in (tree.stmts_view stmts.now) ++ later) self.old self.new None
            (λ p. []) (λ p. p.sight)) }
    {
        self.raise_each(stmts)?;
        Ok(())
    }

    /// At a statement, whose own variable is declared later no more.
    pub(crate) fn pass(&mut self, stmt: &StmtNode)
        ensures { (later : List Name) → IsCounted self.old.later (own_names (tree.stmt_view stmt.now) ++ later)
            → Walks later self.old self.new None (λ p. []) (λ p. p.sight) }
    {
        self.lower(stmt);
    }
}
