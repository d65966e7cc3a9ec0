//! What invariants and procedures become.

ghost use Rattle.std.specs.Prelude.{◌≡◌, false, true, IfOk, IsErrOf, OnOk, Some, option_map};
ghost use Rattle.rp_ast.specs.View as tree;
ghost use Rattle.rp_lang.specs.Programs.{Inv, Proc};
ghost use Rattle.rp_lang.specs.Sizes.{sts_count};
ghost use Rattle.rp_lang.specs.Views.{inv_view, proc_view};
ghost use Rattle.type_rules.specs.Kinds.{kind_of};
ghost use Rattle.desugaring.specs.Programs as spec;
ghost use Rattle.desugaring.specs.Programs.{InvTree, ProcDecl as SpecProc};
ghost use Rattle.text_tables.specs.Seen.{tables_view};
ghost use Rattle.lower_exprs.specs.Making.{AreMeasuredIn};
ghost use Rattle.lower_exprs.specs.declared.stop.Stop.TheVariants as stop;
ghost use Rattle.lower_procs.specs.Heads.{IsHead};
ghost use Rattle.lower_procs.specs.Noting.{IsPassedBy, is_large_in};
ghost use Rattle.lower_procs.specs.Whole.{inv_in, inv_passing, inv_tree, proc_in, proc_passing, proc_tree};

use crate::stmts::claimed;
use crate::writer::{Frame, Writer};
use lower_exprs::{Maker, Passed, Stop, Work, as_formula};
use rp_ast::{ExprNode, Ident, ProcNode, TypeNode};
use rp_lang::{InvDecl, ProcDecl};
use rp_span::Span;
use rp_value::{Bytes, List, Memory, Ty, copy_bytes};
use std::alloc::Global;
use text_tables::Tables;
use type_rules::Kind;
use type_terms::brace_of;

/// An invariant without a name is called by its number, behind a `#`.
fn invariant_name(alloc: Global, number: u32, name: &Option<Ident>) -> Result<Bytes, Memory>
    ensures { IfOk result (λ text. text ≡ spec.inv_name number (tree.optional tree.ident_view name.now)) }
{
    match name {
        Some(name) => copy_bytes(alloc, name.text.as_slice()),
        None => {
            let text = format!(in alloc; "#{number}")?;
            copy_bytes(alloc, text.as_bytes())
        }
    }
}

/// What an invariant becomes, which has this number among the invariants, from 1 on.
pub fn invariant<'a>(
    work: Work<'_, '_, 'a>,
    passed: &mut Passed,
    number: u32,
    at: Span,
    name: &'a Option<Ident>,
    e: &'a ExprNode,
) -> Result<InvDecl, Stop>
    ensures made { (d : InvTree) (wanted : Inv) → d ≡ inv_tree number at
        (tree.optional tree.ident_view name.now) (tree.expr_view e.now)
        → AreMeasuredIn work.entry → inv_in work.entry d ≡ Some wanted
        → work.entry.building ≡ true → IfOk result (λ inv. inv_view inv ≡ wanted) }
    ensures passed { (d : InvTree) (wanted : Inv) → d ≡ inv_tree number at
        (tree.optional tree.ident_view name.now) (tree.expr_view e.now)
        → AreMeasuredIn work.entry → inv_in work.entry d ≡ Some wanted
        → OnOk result (IsPassedBy work.entry passed.old (inv_passing wanted) passed.new) }
    ensures small { (d : InvTree) (wanted : Inv) → d ≡ inv_tree number at
        (tree.optional tree.ident_view name.now) (tree.expr_view e.now)
        → AreMeasuredIn work.entry → inv_in work.entry d ≡ Some wanted
        → work.entry.building ≡ true → OnOk result (inv_passing wanted (is_large_in work.entry.cons.now) ≡ false) }
    ensures nodes { (d : InvTree) (wanted : Inv) → d ≡ inv_tree number at
        (tree.optional tree.ident_view name.now) (tree.expr_view e.now)
        → AreMeasuredIn work.entry → inv_in work.entry d ≡ Some wanted
        → IsErrOf result stop.Nodes → inv_passing wanted (is_large_in work.entry.cons.now) ≡ true }
{
    let name = invariant_name(work.alloc, number, name)?;
    let mut maker = Maker::new(work, *passed);
    let made = claimed(&mut maker, e)?;
    *passed = maker.passed;
    Ok(InvDecl {
        name,
        at,
        body: as_formula(made.value),
    })
}

/// The type of a procedure's result.
fn result_ty(tables: &Tables, ty: &Option<TypeNode>) -> Result<Option<Ty>, Memory>
    ensures { IfOk result (λ made. spec.result_ty (tables_view tables.now) (tree.optional tree.type_view ty.now)
        ≡ Some made) }
{
    match ty {
        Some(ty) => {
            let made = tables.written(ty)?;
            Ok(Some(made))
        }
        None => Ok(None),
    }
}

fn result_kind(tables: &Tables, ty: &Option<TypeNode>) -> Result<Option<Kind>, Memory>
    ensures { IfOk result (λ kind. kind ≡ option_map (kind_of (tables_view tables.now).names)
        (tree.optional tree.type_view ty.now)) }
{
    match ty {
        Some(ty) => {
            let kind = tables.names().kind_of(ty)?;
            Ok(Some(kind))
        }
        None => Ok(None),
    }
}

/// What stands in front of a procedure's block.
#[derive(Drop)]
pub(crate) struct Head {
    pub(crate) name: Bytes,
    pub(crate) params: List<Ty>,
    pub(crate) result: Option<Ty>,
    pub(crate) frame: Frame,
}

fn head_of(work: Work, proc: &ProcNode) -> Result<Head, Memory>
    ensures { IfOk result (λ head. IsHead (tables_view work.entry.tables.now) (tree.proc_view proc.now) head) }
{
    let name = copy_bytes(work.alloc, proc.name.text.as_slice())?;
    let params = work.tables.params(work.alloc, proc.params.as_slice())?;
    let result = result_ty(work.tables, &proc.result)?;
    let kind = result_kind(work.tables, &proc.result)?;
    let frame = Frame {
        result: kind,
        inside_atomic: false,
    };
    Ok(Head {
        name,
        params,
        result,
        frame,
    })
}

/// What a procedure becomes.
pub fn procedure<'a>(
    work: Work<'_, '_, 'a>,
    passed: &mut Passed,
    at: Span,
    proc: &'a ProcNode,
) -> Result<ProcDecl, Stop>
    ensures made { (d : SpecProc) (wanted : Proc) → d ≡ proc_tree at (tree.proc_view proc.now)
        → AreMeasuredIn work.entry → proc_in work.entry d ≡ Some wanted
        → work.entry.building ≡ true → IfOk result (λ made. proc_view made ≡ wanted) }
    ensures count { (d : SpecProc) (wanted : Proc) → d ≡ proc_tree at (tree.proc_view proc.now)
        → AreMeasuredIn work.entry → proc_in work.entry d ≡ Some wanted
        → IfOk result (λ made. sts_count (proc_view made).body ≡ sts_count wanted.body) }
    ensures passed { (d : SpecProc) (wanted : Proc) → d ≡ proc_tree at (tree.proc_view proc.now)
        → AreMeasuredIn work.entry → proc_in work.entry d ≡ Some wanted
        → OnOk result (IsPassedBy work.entry passed.old (proc_passing wanted) passed.new) }
    ensures small { (d : SpecProc) (wanted : Proc) → d ≡ proc_tree at (tree.proc_view proc.now)
        → AreMeasuredIn work.entry → proc_in work.entry d ≡ Some wanted
        → work.entry.building ≡ true → OnOk result (proc_passing wanted (is_large_in work.entry.cons.now) ≡ false) }
    ensures nodes { (d : SpecProc) (wanted : Proc) → d ≡ proc_tree at (tree.proc_view proc.now)
        → AreMeasuredIn work.entry → proc_in work.entry d ≡ Some wanted
        → IsErrOf result stop.Nodes → proc_passing wanted (is_large_in work.entry.cons.now) ≡ true }
{
    let head = head_of(work, proc)?;
    let mut writer = Writer::new(work, *passed);
    writer.declare_params(proc.params.as_slice())?;
    let body = writer.block(head.frame, &proc.body)?;
    *passed = writer.maker.passed;
    Ok(ProcDecl {
        name: head.name,
        at,
        end: brace_of(&proc.body),
        params: head.params,
        result: head.result,
        slots: writer.slots,
        body,
    })
}
