//! Types of expressions.

ghost use Rattle.std.specs.Prelude.{◌≡◌, IfOk};
ghost use Rattle.rp_ast.specs.View.{expr_view};
ghost use Rattle.type_rules.specs.Typing as spec;
ghost use Rattle.text_names.specs.Declarations.{names_view};

use crate::access::{access_kind, access_of};
use rp_ast::{ExprForm, ExprNode};
use rp_value::Memory;
use text_names::TextNames;
use type_rules::{Base, Kind};
use type_tables::{
    BOOL_KIND, INT_KIND, UNKNOWN_KIND, Vars, called_kind, inside, maybe_of, plain_kind,
};

/// The type of a `none` whose place asks no type.
const UNASKED: Kind = Kind {
    base: Base::Open,
    maybes: 1,
};

/// A `none` has the type that its place asks, where that is a `Maybe`. Where another is asked the
/// `none` is the fault, and its type breaks nothing further.
fn none_kind(asked: Option<Kind>) -> Kind
    ensures { result ≡ spec.none_kind asked }
{
    match asked {
        Some(kind) => if kind.maybes == 0 { UNKNOWN_KIND } else { kind },
        None => UNASKED,
    }
}

/// What the place inside `some` asks, where that of `some` asks this.
pub fn asked_inside(asked: Option<Kind>) -> Option<Kind>
    ensures { result ≡ spec.asked_inside asked }
{
    match asked {
        Some(kind) => inside(kind),
        None => None,
    }
}

/// The type of an expression whose place asks a type, or none. It is that of its outermost form,
/// whatever its parts are.
#[tactic(auto, using(rp_ast::proofs::ExprViews::expr_views))]
pub fn type_of<'a>(
    names: &TextNames<'a>,
    vars: &Vars<'a>,
    asked: Option<Kind>,
    e: &ExprNode,
) -> Result<Kind, Memory>
    ensures { IfOk result (λ kind. kind
        ≡ spec.type_of (names_view names.now) vars.now asked (expr_view e.now)) }
{
    match &e.what {
        ExprForm::Implies(_, _) => Ok(BOOL_KIND),
        ExprForm::Or(_) => Ok(BOOL_KIND),
        ExprForm::And(_) => Ok(BOOL_KIND),
        ExprForm::Not(_) => Ok(BOOL_KIND),
        ExprForm::Forall(_, _) => Ok(BOOL_KIND),
        ExprForm::Exists(_, _) => Ok(BOOL_KIND),
        ExprForm::Compare(_, _, _) => Ok(BOOL_KIND),
        ExprForm::Plus(_, _) => Ok(INT_KIND),
        ExprForm::Minus(_, _) => Ok(INT_KIND),
        ExprForm::Int(_) => Ok(INT_KIND),
        ExprForm::Str(_) => Ok(plain_kind(Base::Text)),
        ExprForm::Truth(_) => Ok(BOOL_KIND),
        ExprForm::NoneWord => Ok(none_kind(asked)),
        ExprForm::SomeOf(held) => {
            let kind = type_of(names, vars, asked_inside(asked), held.get())?;
            maybe_of(kind)
        }
        ExprForm::Unreturned => Ok(plain_kind(Base::Outcome)),
        ExprForm::Tx => Ok(plain_kind(Base::Operation)),
        ExprForm::Call(word, _) => Ok(called_kind(*word)),
        ExprForm::Match(_, _) => Ok(BOOL_KIND),
        ExprForm::Access(access) => {
            let what = access_of(names, vars, access.get())?;
            access_kind(names, what)
        }
    }
}
