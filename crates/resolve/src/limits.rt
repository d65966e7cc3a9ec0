//! The limits on programs that are told before anything is built.

ghost use Rattle.std.specs.Prelude.{◌≡◌, ◌∷◌, [], ℕ, None, IfOk, drop, map, take};
ghost use Rattle.std.specs.List.{list_any};
ghost use Rattle.rp_ast.specs.View.{decls_view};
ghost use Rattle.rp_lang.specs.Programs.{Prog};
ghost use Rattle.rp_lang.specs.Sizes.{sts_count};
ghost use Rattle.rp_lang.specs.Views.{proc_view};
ghost use Rattle.rp_lang.specs.declared.limit.LimitName.TheVariants as name;
ghost use Rattle.type_rules.specs.Queries.{names_of};
ghost use Rattle.desugaring.specs.Limits as spec;
ghost use Rattle.desugaring.specs.Limits.{limits, is_deep, some_expression};
ghost use Rattle.text_tables.specs.Seen.{tables_view};
ghost use Rattle.lower_exprs.specs.declared.values.Work.{Work as SpecWork};
ghost use Rattle.resolve.specs.Adds.{Adds, nothing};
ghost use Rattle.resolve.specs.Tested as tested;
ghost use Rattle.resolve.specs.Tested.{HasTables, IsProgramFor, first_in};

use crate::decls::Declared;
use lower_exprs::Work;
use rp_ast::Decl;
use rp_lang::{LimitName, ProcDecl, count_all};
use rp_value::Memory;
use std::alloc::Global;
use text_tables::{Tables, has_long_path};

fn is_past(limit: LimitName, count: u64) -> bool
    ensures { result ≡ spec.is_past limit count }
{
    count > limit.number()
}

/// The limit that was found before, or this one, where it is passed.
fn or_limit(found: Option<LimitName>, limit: LimitName, is_passed: bool) -> Option<LimitName>
    ensures { result ≡ tested.or_limit found limit is_passed }
{
    match found {
        Some(found) => Some(found),
        None => { if is_passed { Some(limit) } else { None } }
    }
}

fn has_long_procedure(procs: &[ProcDecl]) -> bool
    ensures { result ≡ list_any (λ proc. spec.is_past name.Statements (sts_count proc.body)) (map proc_view procs.now) }
{
    for proc in procs {
        let count = count_all(proc.body.as_slice());
        if is_past(LimitName::Statements, count) {
            return true;
        }
    }
    false
}

/// The limits on how deep expressions are, and on types.
fn limit_of_types(
    alloc: Global,
    tables: &Tables,
    blank: &Declared,
) -> Result<Option<LimitName>, Memory>
    ensures { (w : SpecWork) (p : Prog) → HasTables (tables_view tables.now) p → Adds w nothing p.invs p.procs blank.now
        → IfOk result (λ found. found ≡ first_in None (take 3 (limits p))) }
{
    let few_parts = tables.has_few_parts(alloc)?;
    let deep = is_past(LimitName::Depth, blank.passed.depth);
    let found = or_limit(None, LimitName::Depth, deep);
    let few_types = tables.has_few_types();
    let found = or_limit(found, LimitName::Types, !few_types);
    Ok(or_limit(found, LimitName::ValueParts, !few_parts))
}

/// Those on replicated objects.
fn limit_of_objects(
    tables: &Tables,
    decls: &[Decl],
    found: Option<LimitName>,
) -> Result<Option<LimitName>, Memory>
    ensures { (p : Prog) → HasTables (tables_view tables.now) p → (tables_view tables.now).names ≡ names_of (decls_view decls.now)
        → IfOk result (λ now. now ≡ first_in found (take 3 (drop 3 (limits p)))) }
{
    let long_path = has_long_path(decls)?;
    let many_roots = is_past(LimitName::Roots, tables.root_count() as u64);
    let found = or_limit(found, LimitName::Roots, many_roots);
    let many_ops = is_past(LimitName::Operations, tables.op_count() as u64);
    let found = or_limit(found, LimitName::Operations, many_ops);
    Ok(or_limit(found, LimitName::PathDepth, long_path))
}

/// Those on procedures and invariants.
fn limit_of_code(blank: &Declared, found: Option<LimitName>) -> Option<LimitName>
    ensures { (w : SpecWork) (p : Prog) → w.cons.now ≡ p.cons → Adds w nothing p.invs p.procs blank.now
        → result ≡ first_in found (take 4 (drop 6 (limits p))) }
{
    let many_procs = is_past(LimitName::Procedures, blank.procs.len() as u64);
    let found = or_limit(found, LimitName::Procedures, many_procs);
    let many_invs = is_past(LimitName::Invariants, blank.invs.len() as u64);
    let found = or_limit(found, LimitName::Invariants, many_invs);
    let long = has_long_procedure(blank.procs.as_slice());
    let found = or_limit(found, LimitName::Statements, long);
    let many_binders = is_past(LimitName::Quantifiers, blank.passed.binders);
    or_limit(found, LimitName::Quantifiers, many_binders)
}

/// The first limit but the last that the program passes, in the order of their tests. The last is that
/// on nodes.
pub(crate) fn limit_before_nodes(
    work: Work,
    decls: &[Decl],
    blank: &Declared,
) -> Result<Option<LimitName>, Memory>
    ensures { (p : Prog) → IsProgramFor work.entry (decls_view decls.now) p → Adds work.entry nothing p.invs p.procs blank.now
        → IfOk result (λ found. found ≡ first_in None (take 10 (limits p))) }
{
    let found = limit_of_types(work.alloc, work.tables, blank)?;
    let found = limit_of_objects(work.tables, decls, found)?;
    Ok(limit_of_code(blank, found))
}
