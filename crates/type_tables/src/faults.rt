ghost use Rattle.std.specs.Prelude.{◌≡◌};
ghost use Rattle.type_rules.specs.Faults as spec;
ghost use Rattle.type_rules.specs.Rules as rules;

use rp_span::Span;
use type_rules::Fault;

/// Whether a fault comes before another.
fn is_before(a: Fault, b: Fault) -> bool
    ensures { result ≡ spec.is_before a b }
{
    a.span.from < b.span.from
        || (a.span.from == b.span.from
            && (a.rule < b.rule || (a.rule == b.rule && a.span.to < b.span.to)))
}

/// The first of two faults.
pub fn sooner(a: Option<Fault>, b: Option<Fault>) -> Option<Fault>
    ensures { result ≡ spec.sooner a b }
{
    match a {
        None => b,
        Some(x) => match b {
            None => a,
            Some(y) => if is_before(y, x) { b } else { a },
        },
    }
}

/// The first of a rule's fault, where it is broken, and another.
pub fn note(rule: u8, at: Option<Span>, best: Option<Fault>) -> Option<Fault>
    ensures { result ≡ spec.sooner (spec.marked rule at) best }
{
    match at {
        None => best,
        Some(span) => sooner(Some(Fault { rule, span }), best),
    }
}

/// A place, where a rule is broken at it.
pub fn when(broken: bool, at: Span) -> Option<Span>
    ensures { result ≡ rules.when broken at }
{
    if broken { Some(at) } else { None }
}
