//! What an access is: a variable, a constructor, a use of a query, a procedure, or an operation or a
//! query of the store.

ghost use Rattle.std.specs.Prelude.{◌≡◌, IfOk, length, drop};
ghost use Rattle.rp_ast.specs.View as tree;
ghost use Rattle.rp_grammar.specs.Trees.{StepTrees};
ghost use Rattle.type_rules.specs.Names.{Names};
ghost use Rattle.type_rules.specs.Kinds.{param_kinds};
ghost use Rattle.type_rules.specs.Accesses as spec;
ghost use Rattle.type_rules.specs.Matches.{first_kind};
ghost use Rattle.text_names.specs.Views.{declared_view};
ghost use Rattle.type_terms.specs.Views.{access_view, way_view};
ghost use Rattle.type_terms.specs.Meanings.{access_by, meaning_view};
ghost use Rattle.text_names.specs.Declarations.{names_view};

use crate::meaning::{Meaning, meaning_of};
use crate::members::{Member, member_arg, member_kind, member_takes};
use crate::paths::{Way, walked};
use rp_ast::{AccessNode, AccessStep, ConNode, ExprNode, Ident, Param, ProcNode, QueryNode};
use rp_span::Span;
use rp_value::{List, Memory};
use text_names::{Declared, Item, TextNames};
use type_rules::{Base, Kind};
use type_tables::{UNKNOWN_KIND, VarItem, Vars, plain_kind};

#[derive(Clone, Copy)]
pub enum Access<'a> {
    /// Its name stands for nothing.
    Unknown,
    /// The path doesn't fit, from there on.
    Misfit(Span),
    Variable(VarItem<'a>),
    /// With the number of its type.
    Constructor(u32, &'a ConNode),
    /// A query of the text, with the number of its declaration.
    UseOf(u32, &'a QueryNode),
    Procedure(&'a ProcNode),
    /// The outcome of a procedure.
    Returned(&'a ProcNode),
    Member(Member<'a>),
}

/// Of a name that takes no path.
fn alone<'a>(root: &Ident, steps: &[AccessStep], what: Access<'a>) -> Access<'a>
    ensures { (n : Names) → access_view n result
        ≡ spec.alone (tree.ident_view root.now) (tree.steps_view steps.now) (access_view n what.entry) }
{
    match steps.first() {
        Some(_) => Access::Misfit(root.span),
        None => what,
    }
}

/// Past the name of a procedure only `returned` fits, as the last step.
#[tactic(auto, using(rp_ast::proofs::ExprViews::expr_views))]
fn past_proc<'a>(
    root: &Ident,
    proc: &'a ProcNode,
    step: &AccessStep,
    rest: &[AccessStep],
) -> Access<'a>
    ensures { (n : Names) → access_view n result
        ≡ spec.of_proc (tree.ident_view root.now) (tree.proc_view proc.now)
        (StepTrees.more_steps (tree.step_view step.now) (tree.steps_view rest.now)) }
{
    match step {
        AccessStep::Returned(_) => match rest.first() {
            Some(_) => Access::Misfit(root.span),
            None => Access::Returned(proc),
        },
        AccessStep::Dot(_) => Access::Misfit(root.span),
        AccessStep::Key(_) => Access::Misfit(root.span),
    }
}

fn of_proc<'a>(root: &Ident, proc: &'a ProcNode, steps: &[AccessStep]) -> Access<'a>
    ensures { (n : Names) → access_view n result
        ≡ spec.of_proc (tree.ident_view root.now) (tree.proc_view proc.now) (tree.steps_view steps.now) }
{
    match steps.split_first() {
        Some((step, rest)) => past_proc(root, proc, step, rest),
        None => Access::Procedure(proc),
    }
}

/// A path that ends too early doesn't fit from its root on.
fn of_way<'a>(root: &Ident, way: Way<'a>) -> Access<'a>
    ensures { (n : Names) → access_view n result
        ≡ spec.of_way (tree.ident_view root.now) (way_view n way.entry) }
{
    match way {
        Way::Came(_) => Access::Misfit(root.span),
        Way::Member(member) => Access::Member(member),
        Way::Misfit(at) => Access::Misfit(at),
    }
}

fn of_item<'a>(root: &Ident, steps: &[AccessStep], item: Item<'a>) -> Result<Access<'a>, Memory>
    ensures { (n : Names) → IfOk result (λ what. access_view n what
        ≡ spec.of_declared n (tree.ident_view root.now) (tree.steps_view steps.now)
        item.entry.decl (declared_view item.entry.what)) }
{
    match item.what {
        Declared::Root(part) => {
            let way = walked(Way::Came(part), steps)?;
            Ok(of_way(root, way))
        }
        Declared::Query(query) => Ok(alone(root, steps, Access::UseOf(item.decl, query))),
        Declared::Proc(proc) => Ok(of_proc(root, proc, steps)),
        Declared::Con(number, con) => Ok(alone(root, steps, Access::Constructor(number, con))),
    }
}

/// What an access is whose root's name stands for this.
#[tactic(auto, using(rp_ast::proofs::ExprViews::expr_views))]
pub fn access_by<'a>(meaning: Meaning<'a>, access: &AccessNode) -> Result<Access<'a>, Memory>
    ensures { (n : Names) → IfOk result (λ what. access_view n what
        ≡ access_by n (meaning_view meaning.entry) (tree.access_view access.now)) }
{
    let root = &access.root;
    let steps = access.steps.as_slice();
    match meaning {
        Meaning::Variable(var) => Ok(alone(root, steps, Access::Variable(var))),
        Meaning::Declared(item) => of_item(root, steps, item),
        Meaning::Nothing => Ok(Access::Unknown),
    }
}

/// What an access is.
pub fn access_of<'a>(
    names: &TextNames<'a>,
    vars: &Vars<'a>,
    access: &AccessNode,
) -> Result<Access<'a>, Memory>
    ensures { IfOk result (λ what. access_view (names_view names.now) what
        ≡ spec.access_of (names_view names.now) vars.now (tree.access_view access.now)) }
{
    let meaning = meaning_of(names, vars, &access.root);
    access_by(meaning, access)
}

/// The type of an access.
pub fn access_kind(names: &TextNames, what: Access) -> Result<Kind, Memory>
    ensures { IfOk result (λ kind. kind
        ≡ spec.access_kind (names_view names.now) (access_view (names_view names.now) what.entry)) }
{
    match what {
        Access::Unknown => Ok(UNKNOWN_KIND),
        Access::Misfit(_) => Ok(UNKNOWN_KIND),
        Access::Variable(var) => Ok(var.kind),
        Access::Constructor(number, _) => Ok(plain_kind(Base::Declared(number))),
        Access::UseOf(_, query) => names.kind_of(&query.result),
        Access::Procedure(_) => Ok(plain_kind(Base::Info)),
        Access::Returned(_) => Ok(plain_kind(Base::Outcome)),
        Access::Member(member) => member_kind(names, member),
    }
}

/// The type of an argument, by its place among these parameters.
pub(crate) fn param_kind(names: &TextNames, params: &[Param], place: usize) -> Result<Kind, Memory>
    ensures { IfOk result (λ kind. kind
        ≡ first_kind (drop place (param_kinds (names_view names.now) (tree.params_view params.now)))) }
{
    match params.get(place) {
        Some(param) => names.kind_of(&param.ty),
        None => Ok(UNKNOWN_KIND),
    }
}

/// What the outcome of a procedure takes.
fn returned_arg(names: &TextNames, proc: &ProcNode, place: usize) -> Result<Kind, Memory>
    ensures { IfOk result (λ kind. kind ≡ first_kind (drop place (spec.result_args (names_view names.now)
        (tree.optional tree.type_view proc.now.result)))) }
{
    match &proc.result {
        Some(ty) => if place == 0 {
            names.kind_of(ty)
        } else {
            Ok(UNKNOWN_KIND)
        },
        None => Ok(UNKNOWN_KIND),
    }
}

/// The type of an argument, by its place. One too many has no known type.
pub fn arg_kind(names: &TextNames, what: Access, place: usize) -> Result<Kind, Memory>
    ensures { IfOk result (λ kind. kind
        ≡ first_kind (drop place (spec.args_of (names_view names.now) (access_view
        (names_view names.now) what.entry)))) }
{
    match what {
        Access::Unknown => Ok(UNKNOWN_KIND),
        Access::Misfit(_) => Ok(UNKNOWN_KIND),
        Access::Variable(_) => Ok(UNKNOWN_KIND),
        Access::Constructor(_, con) => param_kind(names, con.fields.as_slice(), place),
        Access::UseOf(_, query) => param_kind(names, query.params.as_slice(), place),
        Access::Procedure(proc) => param_kind(names, proc.params.as_slice(), place),
        Access::Returned(proc) => returned_arg(names, proc, place),
        Access::Member(member) => member_arg(names, member, place),
    }
}

#[tactic(auto, using(crate::proofs::Found::bare_is))]
fn is_bare(args: &Option<List<ExprNode>>) -> bool
    ensures { result ≡ spec.is_bare (tree.args_view args.now) }
{
    args.is_none()
}

#[tactic(auto, using(crate::proofs::Found::count_is))]
fn has_args(many: usize, args: &Option<List<ExprNode>>) -> bool
    ensures { result ≡ spec.has_args many (tree.args_view args.now) }
{
    match args {
        Some(args) => args.len() == many,
        None => false,
    }
}

fn con_args_fit(many: usize, args: &Option<List<ExprNode>>) -> bool
    ensures { result ≡ spec.con_args_fit many (tree.args_view args.now) }
{
    if many == 0 {
        is_bare(args)
    } else {
        has_args(many, args)
    }
}

/// How many arguments the outcome of a procedure takes.
fn returned_takes(proc: &ProcNode) -> usize
    ensures { (n : Names) → result
        ≡ length (spec.result_args n (tree.optional tree.type_view proc.now.result)) }
{
    match &proc.result {
        Some(_) => 1,
        None => 0,
    }
}

/// Whether the parentheses and the number of arguments are right.
pub fn args_fit(what: Access, args: &Option<List<ExprNode>>) -> bool
    ensures { (n : Names) → result ≡ spec.args_fit n (access_view n what.entry) (tree.args_view args.now) }
{
    match what {
        Access::Unknown => true,
        Access::Misfit(_) => true,
        Access::Variable(_) => is_bare(args),
        Access::Constructor(_, con) => con_args_fit(con.fields.len(), args),
        Access::UseOf(_, query) => has_args(query.params.len(), args),
        Access::Procedure(proc) => has_args(proc.params.len(), args),
        Access::Returned(proc) => has_args(returned_takes(proc), args),
        Access::Member(member) => has_args(member_takes(member), args),
    }
}
