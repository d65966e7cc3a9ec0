//! The queries that are used where words on calls mayn't stand.

ghost use Rattle.std.specs.Prelude.{◌≡◌, ◌∷◌, [], List, OnOk};
ghost use Rattle.std.specs.Option.{option_map};
ghost use Rattle.rp_ast.specs.View as tree;
ghost use Rattle.type_rules.specs.Names.{Name, Names};
ghost use Rattle.type_rules.specs.Accesses.{access_of as spec_access_of};
ghost use Rattle.type_rules.specs.TextSites.{used_by, used_in};
ghost use Rattle.type_terms.specs.Views.{access_view};
ghost use Rattle.type_faults.specs.Walks.{Marks, accessed_in, names_at, numbered, scope_at, stand_of};

use crate::walk::Walk;
use rp_ast::{AccessNode, ExprForm, ExprNode};
use rp_value::Memory;
use type_terms::{Access, access_of};

/// The query that is used, by its declaration's number.
fn used_decl(what: Access) -> Option<u32>
    ensures { (n : Names) → numbered result ≡ used_by (access_view n what.entry) }
{
    match what {
        Access::UseOf(decl, _) => Some(decl),
        Access::Unknown
        | Access::Misfit(_)
        | Access::Variable(_)
        | Access::Constructor(_, _)
        | Access::Procedure(_)
        | Access::Returned(_)
        | Access::Member(_) => None,
    }
}

/// The access that an expression is.
#[tactic(auto, using(rp_ast::proofs::ExprViews::expr_views))]
fn accessed(e: &ExprNode) -> Option<&AccessNode>
    ensures { option_map (λ access. tree.access_view access.now) result ≡ accessed_in (tree.expr_view e.now) }
{
    match &e.what {
        ExprForm::Access(access) => Some(access.get()),
        _ => None,
    }
}

impl<'n, 'a> Walk<'n, 'a> {
    /// Marks a query, where words on calls mayn't stand.
    fn mark_one(&mut self, decl: u32) -> Result<(), Memory>
        ensures { OnOk result (Marks self.old self.new (decl ∷ [])) }
    {
        if self.words {
            return Ok(());
        }
        self.used.mark(decl)?;
        Ok(())
    }

    /// The same, if there is one.
    fn mark(&mut self, decl: Option<u32>) -> Result<(), Memory>
        ensures { OnOk result (Marks self.old self.new (numbered decl)) }
    {
        match decl {
            Some(decl) => self.mark_one(decl),
            None => Ok(()),
        }
    }

    /// Marks the query that an access uses.
    pub(crate) fn mark_access(&mut self, access: &AccessNode) -> Result<(), Memory>
        ensures { OnOk result (Marks self.old self.new (used_by (spec_access_of (names_at self.old) self.old.vars
            (tree.access_view access.now)))) }
    {
        if self.words {
            return Ok(());
        }
        let what = access_of(self.names, &self.vars, access)?;
        self.mark(used_decl(what))
    }

    /// Marks the query that an expression itself uses.
    pub(crate) fn mark_expr(&mut self, e: &ExprNode) -> Result<(), Memory>
        ensures { (later : List Name) → OnOk result (Marks self.old self.new (used_in (names_at self.old)
            (scope_at later (stand_of self.old)) (tree.expr_view e.now))) }
    {
        match accessed(e) {
            Some(access) => self.mark_access(access),
            None => self.mark(None),
        }
    }
}
