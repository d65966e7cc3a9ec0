//! Sums and differences, into which literals are taken.

ghost use Rattle.std.specs.Prelude.{◌≡◌, IfOk};
ghost use Rattle.rp_lang.specs.Views.{expr_view};
ghost use Rattle.desugaring.specs.Values as values;

use rp_lang::Expr;
use rp_value::{Boxed, Memory};

/// A literal is taken into the other operand.
#[tactic(auto, using(rp_lang::proofs::ExprViews::expr_views))]
pub(crate) fn sum(a: Boxed<Expr>, b: Boxed<Expr>) -> Expr
    ensures { expr_view result ≡ values.sum (expr_view a) (expr_view b) }
{
    if let Expr::Int(n) = b.get() {
        let n = *n;
        return Expr::Plus(a, n);
    }
    if let Expr::Int(n) = a.get() {
        let n = *n;
        return Expr::Plus(b, n);
    }
    Expr::Add(a, b)
}

/// A literal that is taken off is taken into the other operand.
#[tactic(auto, using(rp_lang::proofs::ExprViews::expr_views))]
pub(crate) fn difference(a: Boxed<Expr>, b: Boxed<Expr>) -> Result<Expr, Memory>
    ensures { IfOk result (λ made. expr_view made ≡ values.difference (expr_view a) (expr_view b)) }
{
    if let Expr::Int(n) = b.get() {
        return match n.checked_neg() {
            Some(negated) => Ok(Expr::Plus(a, negated)),
            None => Err(Memory),
        };
    }
    Ok(Expr::Sub(a, b))
}
