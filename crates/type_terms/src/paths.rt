//! Where a path from a root leads: to an operation or a query of the replicated type that it reaches.

ghost use Rattle.std.specs.Prelude.{◌≡◌, IfOk};
ghost use Rattle.std.specs.Option.{option_map};
ghost use Rattle.rp_ast.specs.View.{ident_view, step_view, steps_view};
ghost use Rattle.rp_grammar.specs.Trees.{StepTree};
ghost use Rattle.type_rules.specs.Names.{Names};
ghost use Rattle.type_rules.specs.Accesses.{find_var};
ghost use Rattle.type_rules.specs.Paths as spec;
ghost use Rattle.type_rules.specs.ExprSites.{way_from as way_begun};
ghost use Rattle.text_names.specs.Views.{part_view};
ghost use Rattle.type_terms.specs.Members.{member_view};
ghost use Rattle.type_terms.specs.Views.{way_view};
ghost use Rattle.text_names.specs.Declarations.{names_view};

use crate::members::{Member, member_of};
use crate::starts::start;
use rp_ast::{AccessStep, Ident};
use rp_span::Span;
use rp_value::Memory;
use text_names::{Declared, Part, TextNames};
use type_rules::Kind;
use type_tables::{UNKNOWN_KIND, Vars};

/// How far a path has come.
#[derive(Clone, Copy)]
pub enum Way<'a> {
    /// To a root or a part of it.
    Came(Part<'a>),
    Member(Member<'a>),
    /// To a step that doesn't fit, where it begins.
    Misfit(Span),
}

/// The token at which a step begins.
fn step_start(step: &AccessStep) -> Result<Span, Memory>
    ensures { IfOk result (λ span. span ≡ spec.step_start (step_view step.now)) }
{
    match step {
        AccessStep::Dot(name) => Ok(name.span),
        AccessStep::Returned(at) => Ok(*at),
        AccessStep::Key(key) => start(key),
    }
}

/// The operation or query of this name that a part has itself.
fn member_in<'a>(part: Part<'a>, name: &[u8]) -> Option<Member<'a>>
    ensures { (n : Names) → option_map (member_view n) result
        ≡ spec.member_of n (part_view part.entry) name.now }
{
    match part.crdt() {
        Some(crdt) => member_of(crdt, name),
        None => None,
    }
}

/// To a field of a struct, or else to an operation or a query.
fn past_dot<'a>(part: Part<'a>, name: &Ident) -> Way<'a>
    ensures { (n : Names) → way_view n result
        ≡ spec.step_from n (part_view part.entry) (StepTree.dot (ident_view name.now)) }
{
    let text = name.text.as_slice();
    match part.field(text) {
        Some(field) => Way::Came(field),
        None => match member_in(part, text) {
            Some(member) => Way::Member(member),
            None => Way::Misfit(name.span),
        },
    }
}

fn step_from<'a>(part: Part<'a>, step: &AccessStep) -> Result<Way<'a>, Memory>
    ensures { (n : Names) → IfOk result (λ way. way_view n way
        ≡ spec.step_from n (part_view part.entry) (step_view step.now)) }
{
    match step {
        AccessStep::Dot(name) => Ok(past_dot(part, name)),
        AccessStep::Returned(at) => Ok(Way::Misfit(*at)),
        AccessStep::Key(key) => match part.held() {
            Some(held) => Ok(Way::Came(held)),
            None => Ok(Way::Misfit(start(key)?)),
        },
    }
}

/// One step further. Behind an operation or a query no step fits.
pub fn stepped<'a>(way: Way<'a>, step: &AccessStep) -> Result<Way<'a>, Memory>
    ensures { (n : Names) → IfOk result (λ next. way_view n next
        ≡ spec.stepped n (way_view n way.entry) (step_view step.now)) }
{
    match way {
        Way::Came(part) => step_from(part, step),
        Way::Member(_) => Ok(Way::Misfit(step_start(step)?)),
        Way::Misfit(at) => Ok(Way::Misfit(at)),
    }
}

pub(crate) fn walked<'a>(way: Way<'a>, steps: &[AccessStep]) -> Result<Way<'a>, Memory>
    ensures { (n : Names) → IfOk result (λ end. way_view n end
        ≡ spec.walked n (way_view n way.entry) (steps_view steps.now)) }
{
    let mut way = way;
    for step in steps {
        way = stepped(way, step)?;
    }
    Ok(way)
}

/// The type of a key that is asked there.
pub fn key_kind(names: &TextNames, way: Way) -> Result<Kind, Memory>
    ensures { IfOk result (λ kind. kind
        ≡ spec.key_kind (names_view names.now) (way_view (names_view names.now) way.entry)) }
{
    match way {
        Way::Came(part) => match part.keys() {
            Some(keys) => names.kind_of(keys),
            None => Ok(UNKNOWN_KIND),
        },
        Way::Member(_) => Ok(UNKNOWN_KIND),
        Way::Misfit(_) => Ok(UNKNOWN_KIND),
    }
}

/// Where a path from this name begins.
pub fn way_from<'a>(names: &TextNames<'a>, vars: &Vars, root: &Ident) -> Way<'a>
    ensures { way_view (names_view names.now) result
        ≡ way_begun (names_view names.now) (find_var vars.now root.now.text) (ident_view root.now) }
{
    let name = root.text.as_slice();
    if vars.is_var(name) {
        return Way::Misfit(root.span);
    }
    match names.item_named(name) {
        Some(item) => match item.what {
            Declared::Root(part) => Way::Came(part),
            Declared::Query(_) | Declared::Proc(_) | Declared::Con(_, _) => Way::Misfit(root.span),
        },
        None => Way::Misfit(root.span),
    }
}
