//! The first faults of matches, patterns, atomic blocks and returns.

ghost use Rattle.std.specs.Prelude.{◌≡◌, List};
ghost use Rattle.std.specs.Option.{option_map};
ghost use Rattle.rp_ast.specs.View as tree;
ghost use Rattle.type_rules.specs.declared.kind.Kind.{Kind};
ghost use Rattle.type_rules.specs.Names.{Name, Names};
ghost use Rattle.type_rules.specs.Sites.{Site};
ghost use Rattle.type_rules.specs.Rules as spec;
ghost use Rattle.type_rules.specs.Matches.{cases_of};
ghost use Rattle.type_rules.specs.Faults.{judged};
ghost use Rattle.type_terms.specs.Views.{IsTableOf, cases_view};
ghost use Rattle.type_judges.specs.Places.{leaving_view};
ghost use Rattle.text_names.specs.Declarations.{names_view};

use crate::rule_uses::is_declared;
use rp_ast::Ident;
use rp_span::Span;
use text_names::TextNames;
use type_rules::Fault;
use type_tables::{NameTable, note, when};
use type_terms::{Cases, is_case, is_complete};

/// The first fault of the word `match` on a term of a type with these constructors.
pub fn judge_arms(at: Span, arms: &NameTable, cases: Option<Cases>) -> Option<Fault>
    ensures { (n : Names) (names : List Name) (kind : Kind) → IsTableOf arms.now names
        → option_map (cases_view n) cases.entry ≡ cases_of n kind
        → result ≡ judged n (Site.arms at kind names) }
{
    note(18, when(!is_complete(arms, cases), at), None)
}

/// Words, which no text declares.
fn is_con_word(name: &[u8]) -> bool
    ensures { result ≡ spec.is_con_word name.now }
{
    name == b"none".as_slice()
        || name == b"some".as_slice()
        || name == b"true".as_slice()
        || name == b"false".as_slice()
}

/// The first fault of a pattern for a term of a type with these constructors, behind the arms of
/// those before it. It has so many variables.
pub fn judge_pattern(
    names: &TextNames,
    cases: Option<Cases>,
    before: &NameTable,
    con: &Ident,
    many: usize,
) -> Option<Fault>
    ensures { (arms : List Name) (kind : Kind) → IsTableOf before.now arms
        → option_map (cases_view (names_view names.now)) cases.entry ≡ cases_of (names_view names.now) kind
        → result ≡ judged (names_view names.now) (Site.pattern kind arms (tree.ident_view con.now) many) }
{
    let name = con.text.as_slice();
    let again = before.number(name).is_some();
    let nowhere = !is_con_word(name) && !is_declared(names, con);
    let best = note(
        18,
        when(again || !is_case(cases, name, many), con.span),
        None,
    );
    note(4, when(nowhere, con.span), best)
}

/// The first fault of the word `atomic`, inside of another or not.
pub fn judge_opens(inside: bool, at: Span) -> Option<Fault>
    ensures { (n : Names) → result ≡ judged n (Site.opens inside at) }
{
    note(19, when(inside, at), None)
}

/// Where a `return` stands.
#[derive(Clone, Copy)]
pub struct Leaving {
    pub inside_atomic: bool,
    pub last_in_block: bool,
    pub has_value: bool,
    pub has_result: bool,
}

fn may_leave(leaving: Leaving) -> bool
    ensures { result ≡ spec.may_leave (leaving_view leaving) }
{
    !leaving.inside_atomic && leaving.last_in_block && leaving.has_value == leaving.has_result
}

/// The first fault of the word `return`.
pub fn judge_leaves(leaving: Leaving, at: Span) -> Option<Fault>
    ensures { (n : Names) → result ≡ judged n (Site.leaves (leaving_view leaving) at) }
{
    note(20, when(!may_leave(leaving), at), None)
}

/// The first fault of a procedure's closing brace: whether some path comes to it, and whether the
/// procedure has a result.
pub fn judge_closes(live: bool, has_result: bool, at: Span) -> Option<Fault>
    ensures { (n : Names) → result ≡ judged n (Site.closes live has_result at) }
{
    note(20, when(live && has_result, at), None)
}
