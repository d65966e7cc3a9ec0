//! The constructors of the types that a `match` goes over.

ghost use Rattle.std.specs.Prelude.{◌≡◌, ◌&&◌, [], IfOk, List, drop, length, map, slice_get};
ghost use Rattle.std.specs.Option.{option_map, option_map_or};
ghost use Rattle.rp_ast.specs.View.{con_view};
ghost use Rattle.type_rules.specs.Names.{Name, Names, is_among};
ghost use Rattle.type_rules.specs.Matches as spec;
ghost use Rattle.type_rules.specs.Matches.{first_kind};
ghost use Rattle.type_rules.specs.Rules as rules;
ghost use Rattle.type_terms.specs.Views.{IsTableOf, cases_view, fields_of};
ghost use Rattle.text_names.specs.Declarations.{names_view};

use crate::access::param_kind;
use rp_ast::ConNode;
use rp_value::Memory;
use text_names::{ConList, TextNames, TypeSort};
use type_rules::{Base, Kind};
use type_tables::{NameTable, UNKNOWN_KIND, is_open};

/// The constructors of a datatype, `Bool` and the `Maybe` types among them.
#[derive(Clone, Copy)]
pub enum Cases<'n, 'a> {
    Bool,
    /// Of `Maybe` of this type.
    Maybe(Kind),
    Declared(&'n ConList<'a>),
}

/// A constructor, with what it holds.
#[derive(Clone, Copy)]
pub enum Case<'a> {
    /// Nothing.
    Bare,
    /// One value of this type.
    Holding(Kind),
    Con(&'a ConNode),
}

fn declared_cases<'n, 'a>(names: &'n TextNames<'a>, number: u32) -> Option<Cases<'n, 'a>>
    ensures { option_map (cases_view (names_view names.now)) result
        ≡ spec.declared_cases (names_view names.now) (slice_get (names_view names.now).types number) }
{
    match names.type_at(number) {
        Some(item) => match &item.sort {
            TypeSort::Datatype(cons) => Some(Cases::Declared(cons)),
            TypeSort::Id | TypeSort::Opaque => None,
        },
        None => None,
    }
}

fn base_cases<'n, 'a>(names: &'n TextNames<'a>, base: Base) -> Option<Cases<'n, 'a>>
    ensures { option_map (cases_view (names_view names.now)) result
        ≡ spec.base_cases (names_view names.now) base }
{
    match base {
        Base::Bool => Some(Cases::Bool),
        Base::Declared(number) => declared_cases(names, number),
        Base::Int
        | Base::Text
        | Base::Call
        | Base::Invocation
        | Base::Operation
        | Base::Info
        | Base::Outcome
        | Base::Unknown
        | Base::Open => None,
    }
}

/// The constructors of a type, where it is known and a datatype. Of the type of a `none` of which no
/// type is asked there are none.
pub fn cases_of<'n, 'a>(names: &'n TextNames<'a>, kind: Kind) -> Option<Cases<'n, 'a>>
    ensures { option_map (cases_view (names_view names.now)) result
        ≡ spec.cases_of (names_view names.now) kind }
{
    if kind.maybes == 0 {
        return base_cases(names, kind.base);
    }
    let held = kind.maybes - 1;
    if is_open(kind.base) && held == 0 {
        return None;
    }
    Some(Cases::Maybe(Kind {
        base: kind.base,
        maybes: held,
    }))
}

/// The first constructor of this name.
pub fn find_case<'n, 'a>(cases: Cases<'n, 'a>, name: &[u8]) -> Option<Case<'a>>
    ensures { (n : Names) → option_map (fields_of n) result ≡ option_map (λ case. case.fields)
        (spec.find_case (cases_view n cases.entry) name.now) }
{
    match cases {
        Cases::Bool => if name == b"false".as_slice() || name == b"true".as_slice() {
            Some(Case::Bare)
        } else {
            None
        },
        Cases::Maybe(held) => if name == b"none".as_slice() {
            Some(Case::Bare)
        } else if name == b"some".as_slice() {
            Some(Case::Holding(held))
        } else {
            None
        },
        Cases::Declared(cons) => match cons.named(name) {
            Some(con) => Some(Case::Con(con)),
            None => None,
        },
    }
}

/// How many values a constructor holds.
fn case_takes(case: Case) -> usize
    ensures { (n : Names) → result ≡ length (fields_of n case.entry) }
{
    match case {
        Case::Bare => 0,
        Case::Holding(_) => 1,
        Case::Con(con) => con.fields.len(),
    }
}

fn field_of(names: &TextNames, case: Case, place: usize) -> Result<Kind, Memory>
    ensures { IfOk result (λ kind. kind
        ≡ first_kind (drop place (fields_of (names_view names.now) case.entry))) }
{
    match case {
        Case::Bare => Ok(UNKNOWN_KIND),
        Case::Holding(kind) => Ok(if place == 0 { kind } else { UNKNOWN_KIND }),
        Case::Con(con) => param_kind(names, con.fields.as_slice(), place),
    }
}

/// The type of a constructor's value, by its place. One for which there is no field has no known type.
pub fn case_field(names: &TextNames, case: Option<Case>, place: usize) -> Result<Kind, Memory>
    ensures { IfOk result (λ kind. kind
        ≡ first_kind (drop place (option_map_or (fields_of (names_view names.now)) case.entry []))) }
{
    match case {
        Some(case) => field_of(names, case, place),
        None => Ok(UNKNOWN_KIND),
    }
}

/// Whether it is a constructor of the type that holds so many values. Where no type is known, any may be one.
pub fn is_case(cases: Option<Cases>, name: &[u8], many: usize) -> bool
    ensures { (n : Names) → result ≡ rules.is_case name.now many (option_map (cases_view n) cases.entry) }
{
    match cases {
        Some(cases) => match find_case(cases, name) {
            Some(case) => case_takes(case) == many,
            None => false,
        },
        None => true,
    }
}

fn is_arm(arms: &NameTable, name: &[u8]) -> bool
    ensures { (names : List Name) → IsTableOf arms.now names → result ≡ is_among name.now names }
{
    arms.number(name).is_some()
}

fn has_every_con(arms: &NameTable, cons: &[ConNode]) -> bool
    ensures { (n : Names) (names : List Name) → IsTableOf arms.now names
        → result ≡ rules.has_every_case names (map (spec.con_case n) (map con_view cons.now)) }
{
    for con in cons {
        if !is_arm(arms, con.name.text.as_slice()) {
            return false;
        }
    }
    true
}

fn has_both(arms: &NameTable, one: &[u8], other: &[u8]) -> bool
    ensures { (names : List Name) → IsTableOf arms.now names
        → result ≡ (is_among one.now names && is_among other.now names) }
{
    is_arm(arms, one) && is_arm(arms, other)
}

/// Whether each constructor of the type is among the arms. Where no type is known, none is missing.
pub fn is_complete(arms: &NameTable, cases: Option<Cases>) -> bool
    ensures { (n : Names) (names : List Name) → IsTableOf arms.now names
        → result ≡ rules.is_complete names (option_map (cases_view n) cases.entry) }
{
    match cases {
        Some(Cases::Bool) => has_both(arms, b"false", b"true"),
        Some(Cases::Maybe(_)) => has_both(arms, b"none", b"some"),
        Some(Cases::Declared(cons)) => has_every_con(arms, cons.as_slice()),
        None => true,
    }
}
