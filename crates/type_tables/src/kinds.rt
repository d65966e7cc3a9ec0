//! Types, and when one fits where another is asked.

ghost use Rattle.std.specs.Prelude.{◌≡◌, IfOk};
ghost use Rattle.type_rules.specs.Kinds as spec;

use rp_value::Memory;
use type_rules::{Base, Kind};

pub const BOOL_KIND: Kind = Kind {
    base: Base::Bool,
    maybes: 0,
};

pub const INT_KIND: Kind = Kind {
    base: Base::Int,
    maybes: 0,
};

/// The type of what hangs on an unknown name.
pub const UNKNOWN_KIND: Kind = Kind {
    base: Base::Unknown,
    maybes: 0,
};

pub fn plain_kind(base: Base) -> Kind
    ensures { result ≡ spec.plain_kind base }
{
    Kind { base, maybes: 0 }
}

/// `Maybe` of a type.
pub fn maybe_of(kind: Kind) -> Result<Kind, Memory>
    ensures { IfOk result (λ made. made ≡ spec.maybe_of kind) }
{
    match kind.maybes.checked_add(1) {
        Some(maybes) => Ok(Kind {
            base: kind.base,
            maybes,
        }),
        None => Err(Memory),
    }
}

pub fn is_unknown(base: Base) -> bool
    ensures { result ≡ spec.is_unknown base }
{
    matches!(base, Base::Unknown)
}

pub fn is_open(base: Base) -> bool
    ensures { result ≡ spec.is_open base }
{
    matches!(base, Base::Open)
}

/// Whether it stands for any type.
pub fn is_any(base: Base) -> bool
    ensures { result ≡ spec.is_any base }
{
    is_unknown(base) || is_open(base)
}

/// What a `Maybe` type is of; of an unknown type an unknown one.
pub fn inside(kind: Kind) -> Option<Kind>
    ensures { result ≡ spec.inside kind }
{
    if kind.maybes > 0 {
        return Some(Kind {
            base: kind.base,
            maybes: kind.maybes - 1,
        });
    }
    if is_unknown(kind.base) {
        Some(kind)
    } else {
        None
    }
}

fn same_base(a: Base, b: Base) -> bool
    ensures { result ≡ spec.same_base a b }
{
    match (a, b) {
        (Base::Bool, Base::Bool) => true,
        (Base::Int, Base::Int) => true,
        (Base::Text, Base::Text) => true,
        (Base::Declared(a), Base::Declared(b)) => a == b,
        (Base::Call, Base::Call) => true,
        (Base::Invocation, Base::Invocation) => true,
        (Base::Operation, Base::Operation) => true,
        (Base::Info, Base::Info) => true,
        (Base::Outcome, Base::Outcome) => true,
        _ => false,
    }
}

/// Whether some type is both.
pub fn fits(a: Kind, b: Kind) -> bool
    ensures { result ≡ spec.fits a b }
{
    if is_any(a.base) {
        is_any(b.base) || a.maybes <= b.maybes
    } else if is_any(b.base) {
        b.maybes <= a.maybes
    } else {
        same_base(a.base, b.base) && a.maybes == b.maybes
    }
}

/// Whether it is what a type of data is under its `Maybe`s. An unknown one breaks nothing further.
pub fn is_ordinary_base(base: Base) -> bool
    ensures { result ≡ spec.is_ordinary_base base }
{
    match base {
        Base::Call | Base::Invocation | Base::Operation | Base::Info | Base::Outcome => false,
        Base::Bool | Base::Int | Base::Text | Base::Declared(_) | Base::Unknown | Base::Open =>
            true,
    }
}
