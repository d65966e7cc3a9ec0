//! One look at a place: where it tells that no rule is broken there, none of them is asked.

ghost use Rattle.std.specs.Prelude.{◌≡◌, IfOk, List, true};
ghost use Rattle.rp_ast.specs.View as tree;
ghost use Rattle.type_rules.specs.Names.{Name};
ghost use Rattle.type_rules.specs.Accesses.{find_var};
ghost use Rattle.type_rules.specs.Faults.{judged};
ghost use Rattle.type_rules.specs.Sites.{Site};
ghost use Rattle.type_rules.specs.Typing.{is_plain};
ghost use Rattle.type_tables.specs.Counts.{IsCounted};
ghost use Rattle.type_judges.specs.Meant as meant;
ghost use Rattle.type_judges.specs.Places.{want_view};
ghost use Rattle.type_faults.specs.RightPlaces as spec;
ghost use Rattle.type_faults.specs.Walks.{names_at, scope_at, stand_of};

use crate::walk::{Found, Walk};
use rp_ast::{AccessNode, ExprForm, ExprNode};
use type_judges::{Want, judge_place};
use type_rules::Kind;
use type_tables::{BOOL_KIND, INT_KIND, fits};

/// Whether a type is asked, and this is another.
fn is_other(asked: Option<Kind>, kind: Kind) -> bool
    ensures { result ≡ meant.is_other asked kind }
{
    match asked {
        Some(asked) => !fits(asked, kind),
        None => false,
    }
}

/// Whether a place takes this type, a plain term or not.
fn takes(want: Want, kind: Kind, plain: bool) -> bool
    ensures { result ≡ spec.takes (want_view want) kind plain }
{
    let other = is_other(want.asked, kind);
    want.rule != 18 && !other && (plain || !want.plain)
}

/// Whether a place takes what has a type of its own.
fn takes_own(want: Want, own: Option<Kind>, plain: bool) -> bool
    ensures { result ≡ spec.takes_own (want_view want) own plain }
{
    match own {
        Some(kind) => takes(want, kind, plain),
        None => false,
    }
}

/// The type of operators that may stand anywhere, whatever their operands are.
#[tactic(auto, using(rp_ast::proofs::ExprViews::expr_views))]
fn operator_kind(e: &ExprNode) -> Option<Kind>
    ensures { result ≡ spec.operator_kind (tree.expr_view e.now) }
{
    match &e.what {
        ExprForm::Implies(_, _) => Some(BOOL_KIND),
        ExprForm::Or(_) => Some(BOOL_KIND),
        ExprForm::And(_) => Some(BOOL_KIND),
        ExprForm::Not(_) => Some(BOOL_KIND),
        ExprForm::Compare(_, _, _) => Some(BOOL_KIND),
        ExprForm::Plus(_, _) => Some(INT_KIND),
        ExprForm::Minus(_, _) => Some(INT_KIND),
        _ => None,
    }
}

impl<'n, 'a> Walk<'n, 'a> {
    /// The type of a variable that has a value.
    fn read_kind(&self, name: &[u8]) -> Option<Kind>
        ensures { result ≡ spec.read_kind (find_var self.now.vars name.now) }
    {
        match self.vars.find(name) {
            Some(var) => if var.set { Some(var.kind) } else { None },
            None => None,
        }
    }

    /// Of an access that is such a variable, with nothing behind its name.
    #[tactic(auto, using(rp_ast::proofs::ExprViews::expr_views))]
    fn variable_kind(&self, access: &AccessNode) -> Option<Kind>
        ensures { result ≡ spec.variable_kind self.now.vars (tree.access_view access.now) }
    {
        match access.steps.as_slice().first() {
            Some(_) => None,
            None => match &access.args {
                Some(_) => None,
                None => self.read_kind(access.root.text.as_slice()),
            },
        }
    }

    /// Of an expression in which nothing stands.
    #[tactic(auto, using(rp_ast::proofs::ExprViews::expr_views))]
    fn leaf_kind(&self, e: &ExprNode) -> Option<Kind>
        ensures { result ≡ spec.leaf_kind self.now.vars (tree.expr_view e.now) }
    {
        match &e.what {
            ExprForm::Int(_) => Some(INT_KIND),
            ExprForm::Truth(_) => Some(BOOL_KIND),
            ExprForm::Access(access) => self.variable_kind(access.get()),
            _ => None,
        }
    }

    /// Whether it is a variable with a value, or a written value, and its place takes it.
    pub(crate) fn is_right_leaf(&self, want: Want, e: &ExprNode) -> bool
        ensures { result ≡ spec.takes_own (want_view want) (spec.leaf_kind self.now.vars (tree.expr_view e.now)) true }
    {
        takes_own(want, self.leaf_kind(e), true)
    }

    /// The first fault of an expression itself. Whether it is a plain term is told by what stands in it.
    pub(crate) fn own_fault(&self, want: Want, e: &ExprNode, plain: bool) -> Found
        ensures { (later : List Name) → IsCounted self.now.later later
            → plain ≡ is_plain (names_at self.now) self.now.vars (tree.expr_view e.now)
            → IfOk result (λ fault. fault ≡ judged (names_at self.now)
            (Site.place (scope_at later (stand_of self.now)) (want_view want) (tree.expr_view e.now))) }
    {
        if takes_own(want, operator_kind(e), plain) {
            return Ok(None);
        }
        let fault = judge_place(&self.scope(), want, e, plain)?;
        Ok(fault)
    }
}
