ghost use Rattle.std.specs.Prelude.{◌≡◌, ℕ, None, Some, true, IfOk, IsErrOf, List as Items, map, take};
ghost use Rattle.rp_span.specs.declared.Span.{Span as SpecSpan};
ghost use Rattle.rp_grammar.specs.Texts.{IsText};
ghost use Rattle.rp_ast.specs.View.{ast_view, decls_view};
ghost use Rattle.rp_lang.specs.Programs.{Prog};
ghost use Rattle.rp_lang.specs.ProgramView.{program_view};
ghost use Rattle.rp_lang.specs.WellFormed.{is_well_formed};
ghost use Rattle.rp_lang.specs.declared.limit.LimitName.{LimitName as SpecLimit};
ghost use Rattle.type_rules.specs.Faults.{IsFirstFault, IsLawful};
ghost use Rattle.type_rules.specs.Queries as rules;
ghost use Rattle.desugaring.specs.Limits.{HasProgram, PassesLimit, first_limit, limits};
ghost use Rattle.desugaring.specs.Tables.{tables_of};
ghost use Rattle.text_names.specs.Declarations.{names_view};
ghost use Rattle.text_names.specs.Parts.{crdt_in, roots_seen, trees_of};
ghost use Rattle.text_tables.specs.Seen.{tables_view};
ghost use Rattle.resolve.specs.Adds.{Adds, nothing};
ghost use Rattle.resolve.specs.Tested.{HasTables, IsDeclaredIn, IsProgramFor, first_in};
ghost use Rattle.resolve.specs.declared.program.TypeErr.TheVariants as err;

use crate::decls::{Declared, declare_all};
use crate::limits::limit_before_nodes;
use lawful::programs_are_well_formed;
use lawful_programs::texts_have_programs;
use lower_exprs::{Stop, Work, are_sound};
use reading::lower_queries;
use rp_ast::{Ast, Decl, DeclForm};
use rp_lang::{LimitName, Program};
use rp_span::Span;
use rp_value::{ConTable, Memory};
use std::alloc::Global;
use text_names::{Roots, TextNames};
use text_tables::{Members, Tables, members_of, roots_of};
use type_faults::first_fault;
use type_terms::names_of;

/// Why a text is no program.
#[derive(Clone, Copy)]
pub enum TypeErr {
    /// The first broken type rule.
    Rule { rule: u8, span: Span },
    /// The first limit that the program passes.
    Limit(LimitName),
    Memory,
}

impl From<Memory> for TypeErr {
    ghost use Rattle.std.specs.Prelude.{◌≡◌};
    ghost use Rattle.resolve.specs.declared.program.TypeErr.TheVariants as err;

    ghost from_gives = { λ _ e. e ≡ err.Memory };

    fn from(_error: Memory) -> TypeErr {
        TypeErr::Memory
    }
}

/// What the declarations of a program declare that passes no limit, where it passes none before that
/// on nodes.
fn within_nodes<'a>(work: Work<'_, '_, 'a>, decls: &'a [Decl]) -> Result<Declared, TypeErr>
    ensures program { (p : Prog) → IsProgramFor work.entry (decls_view decls.now) p → IfOk result (IsDeclaredIn p) }
    ensures none { (p : Prog) → IsProgramFor work.entry (decls_view decls.now) p → None ≡ first_in None (take 10 (limits p))
        → IfOk result (λ _. first_limit p ≡ None) }
    ensures limit { (p : Prog) (l : SpecLimit) → IsProgramFor work.entry (decls_view decls.now) p
        → None ≡ first_in None (take 10 (limits p)) → IsErrOf result (err.Limit l) → first_limit p ≡ Some l }
    ensures no_rule { (rule : ℕ) (span : SpecSpan) → IsErrOf result (err.Rule rule span) → ⊥ }
{
    let whole = Work {
        building: true,
        ..work
    };
    match declare_all(whole, decls) {
        Ok(whole) => Ok(whole),
        Err(Stop::Nodes) => Err(TypeErr::Limit(LimitName::Nodes)),
        Err(Stop::Memory) => Err(TypeErr::Memory),
    }
}

/// What the declarations of a program declare that passes no limit. The limits are told before anything is
/// built, since uses of queries may make much of a short text.
fn told_first<'a>(work: Work<'_, '_, 'a>, decls: &'a [Decl]) -> Result<Declared, TypeErr>
    ensures program { (p : Prog) → IsProgramFor work.entry (decls_view decls.now) p → IfOk result (IsDeclaredIn p) }
    ensures none { (p : Prog) → IsProgramFor work.entry (decls_view decls.now) p
        → IfOk result (λ _. first_limit p ≡ None) }
    ensures limit { (p : Prog) (l : SpecLimit) → IsProgramFor work.entry (decls_view decls.now) p
        → IsErrOf result (err.Limit l) → first_limit p ≡ Some l }
    ensures no_rule { (rule : ℕ) (span : SpecSpan) → IsErrOf result (err.Rule rule span) → ⊥ }
{
    let first = Work {
        building: false,
        ..work
    };
    // Nothing is built, so nothing is too large.
    let Ok(blank) = declare_all(first, decls) else {
        return Err(TypeErr::Memory);
    };
    match limit_before_nodes(first, decls, &blank)? {
        Some(limit) => Err(TypeErr::Limit(limit)),
        None => within_nodes(work, decls),
    }
}

/// What was declared, where the program passes no limit before that on nodes.
fn unless_passed(work: Work, decls: &[Decl], made: Declared) -> Result<Declared, TypeErr>
    ensures made { IfOk result (λ kept. kept ≡ made) }
    ensures none { (p : Prog) → IsProgramFor work.entry (decls_view decls.now) p → Adds work.entry nothing p.invs p.procs made
        → IfOk result (λ _. None ≡ first_in None (take 10 (limits p))) }
    ensures limit { (p : Prog) (l : SpecLimit) → IsProgramFor work.entry (decls_view decls.now) p
        → Adds work.entry nothing p.invs p.procs made → IsErrOf result (err.Limit l) → first_limit p ≡ Some l }
    ensures no_rule { (rule : ℕ) (span : SpecSpan) → IsErrOf result (err.Rule rule span) → ⊥ }
{
    let found = limit_before_nodes(work, decls, &made)?;
    match found {
        Some(limit) => Err(TypeErr::Limit(limit)),
        None => Ok(made),
    }
}

/// What the declarations of a program declare that passes no limit, built in one walk.
fn built_first<'a>(work: Work<'_, '_, 'a>, decls: &'a [Decl]) -> Result<Declared, TypeErr>
    ensures program { (p : Prog) → IsProgramFor work.entry (decls_view decls.now) p → IfOk result (IsDeclaredIn p) }
    ensures none { (p : Prog) → IsProgramFor work.entry (decls_view decls.now) p
        → IfOk result (λ _. first_limit p ≡ None) }
    ensures limit { (p : Prog) (l : SpecLimit) → IsProgramFor work.entry (decls_view decls.now) p
        → IsErrOf result (err.Limit l) → first_limit p ≡ Some l }
    ensures no_rule { (rule : ℕ) (span : SpecSpan) → IsErrOf result (err.Rule rule span) → ⊥ }
{
    let whole = Work {
        building: true,
        ..work
    };
    match declare_all(whole, decls) {
        Ok(made) => unless_passed(whole, decls, made),
        Err(Stop::Nodes) => told_first(work, decls),
        Err(Stop::Memory) => Err(TypeErr::Memory),
    }
}

/// Some declaration is a query. No answer hangs on it, only how often the declarations are walked.
fn declares_query(decls: &[Decl]) -> bool {
    for decl in decls {
        if matches!(decl.what, DeclForm::Query(_)) {
            return true;
        }
    }
    false
}

/// What the declarations of a program declare that passes no limit.
fn within_limits<'a>(work: Work<'_, '_, 'a>, decls: &'a [Decl]) -> Result<Declared, TypeErr>
    ensures program { (p : Prog) → IsProgramFor work.entry (decls_view decls.now) p → IfOk result (IsDeclaredIn p) }
    ensures none { (p : Prog) → IsProgramFor work.entry (decls_view decls.now) p
        → IfOk result (λ _. first_limit p ≡ None) }
    ensures limit { (p : Prog) (l : SpecLimit) → IsProgramFor work.entry (decls_view decls.now) p
        → IsErrOf result (err.Limit l) → first_limit p ≡ Some l }
    ensures no_rule { (rule : ℕ) (span : SpecSpan) → IsErrOf result (err.Rule rule span) → ⊥ }
{
    // Without queries what is built is about as large as its text.
    if declares_query(decls) {
        told_first(work, decls)
    } else {
        built_first(work, decls)
    }
}

/// The program with these constructors, invariants and procedures, and the other tables of the text.
fn with_tables(
    alloc: Global,
    tables: &Tables,
    decls: &[Decl],
    cons: ConTable,
    declared: Declared,
) -> Result<Program, Memory>
    requires names { (tables_view tables.now).names ≡ rules.names_of (decls_view decls.now) }
    requires well_formed { (p : Prog) × HasTables (tables_view tables.now) p × (cons ≡ p.cons)
        × IsDeclaredIn p declared × (is_well_formed p ≡ true) }
    ensures { (p : Prog) → HasTables (tables_view tables.now) p → cons ≡ p.cons → IsDeclaredIn p declared
        → IfOk result (λ made. program_view made ≡ p) }
{
    let types = tables.type_table(alloc)?;
    let roots = roots_of(alloc, tables, decls)?;
    let Members { ops, queries } = members_of(alloc, tables, decls)?;
    let Declared { invs, procs, .. } = declared;
    Ok(Program {
        types,
        cons,
        roots,
        ops,
        queries,
        invs,
        procs,
    })
}

/// The program of a lawful text with these tables. Bodies that aren't sound stand in no lawful text.
fn program_by<'a>(
    alloc: Global,
    tables: &Tables<'_, 'a>,
    decls: &'a [Decl],
) -> Result<Program, TypeErr>
    requires text { (bytes : Items ℕ) × IsText bytes (decls_view decls.now) }
    requires lawful { IsLawful (decls_view decls.now) }
    requires tables { tables_view tables.now ≡ tables_of (decls_view decls.now) }
    ensures program { IfOk result (λ p. HasProgram (decls_view decls.now) (program_view p)) }
    ensures limit { (l : SpecLimit) → IsErrOf result (err.Limit l) → PassesLimit (decls_view decls.now) l }
    ensures no_rule { (rule : ℕ) (span : SpecSpan) → IsErrOf result (err.Rule rule span) → ⊥ }
{
    texts_have_programs();
    programs_are_well_formed();
    let bodies = lower_queries(alloc, tables, decls)?;
    let cons = tables.con_table(alloc)?;
    if !are_sound(&cons, &bodies) {
        return Err(TypeErr::Memory);
    }
    let work = Work {
        alloc,
        tables,
        bodies: &bodies,
        cons: &cons,
        building: false,
    };
    let declared = within_limits(work, decls)?;
    let program = with_tables(alloc, tables, decls, cons, declared)?;
    Ok(program)
}

/// The program of a lawful text with these names.
fn program_of_names<'a>(
    alloc: Global,
    names: &TextNames<'a>,
    decls: &'a [Decl],
) -> Result<Program, TypeErr>
    requires text { (bytes : Items ℕ) × IsText bytes (decls_view decls.now) }
    requires lawful { IsLawful (decls_view decls.now) }
    requires names { names_view names.now ≡ rules.names_of (decls_view decls.now) }
    ensures program { IfOk result (λ p. HasProgram (decls_view decls.now) (program_view p)) }
    ensures limit { (l : SpecLimit) → IsErrOf result (err.Limit l) → PassesLimit (decls_view decls.now) l }
    ensures no_rule { (rule : ℕ) (span : SpecSpan) → IsErrOf result (err.Rule rule span) → ⊥ }
{
    let tables = Tables::of(alloc, names, decls)?;
    program_by(alloc, &tables, decls)
}

/// The program of a lawful text that has these names, by its tree.
fn lawful_program<'a>(
    alloc: Global,
    names: &TextNames<'a>,
    ast: &'a Ast,
) -> Result<Program, TypeErr>
    requires text { (bytes : Items ℕ) × IsText bytes (ast_view ast.now) }
    requires lawful { IsLawful (ast_view ast.now) }
    requires names { names_view names.now ≡ rules.names_of (ast_view ast.now) }
    ensures program { IfOk result (λ p. HasProgram (ast_view ast.now) (program_view p)) }
    ensures limit { (l : SpecLimit) → IsErrOf result (err.Limit l) → PassesLimit (ast_view ast.now) l }
    ensures no_rule { (rule : ℕ) (span : SpecSpan) → IsErrOf result (err.Rule rule span) → ⊥ }
{
    program_of_names(alloc, names, ast.decls.as_slice())
}

/// Which program a text is that has these names.
fn with_names<'a>(alloc: Global, names: &TextNames<'a>, ast: &'a Ast) -> Result<Program, TypeErr>
    requires text { (bytes : Items ℕ) × IsText bytes (ast_view ast.now) }
    requires names { names_view names.now ≡ rules.names_of (ast_view ast.now) }
    ensures program { IfOk result (λ p. HasProgram (ast_view ast.now) (program_view p)) }
    ensures rule { (rule : ℕ) (span : SpecSpan) → IsErrOf result (err.Rule rule span)
        → IsFirstFault (ast_view ast.now) (Some (record { rule = rule; span = span })) }
    ensures limit { (l : SpecLimit) → IsErrOf result (err.Limit l) → PassesLimit (ast_view ast.now) l }
{
    match first_fault(alloc, names, ast)? {
        Some(fault) => Err(TypeErr::Rule {
            rule: fault.rule,
            span: fault.span,
        }),
        None => lawful_program(alloc, names, ast),
    }
}

/// Which program a text is that has these roots.
fn with_roots<'r, 'a>(alloc: Global, roots: &'r Roots<'a>, ast: &'r Ast) -> Result<Program, TypeErr>
    requires text { (bytes : Items ℕ) × IsText bytes (ast_view ast.now) }
    requires roots { roots_seen (trees_of roots.now.parts.items) roots.now.places ≡ map crdt_in (ast_view ast.now) }
    ensures program { IfOk result (λ p. HasProgram (ast_view ast.now) (program_view p)) }
    ensures rule { (rule : ℕ) (span : SpecSpan) → IsErrOf result (err.Rule rule span)
        → IsFirstFault (ast_view ast.now) (Some (record { rule = rule; span = span })) }
    ensures limit { (l : SpecLimit) → IsErrOf result (err.Limit l) → PassesLimit (ast_view ast.now) l }
{
    let names = names_of(alloc, &*roots, ast)?;
    with_names(alloc, &names, ast)
}

/// Which program a text is. `Rule` is the first broken type rule, `Limit` the first limit that the
/// program passes in the order of their tests, where no rule is broken. `Memory` is want of memory.
pub fn resolve(alloc: Global, ast: &Ast) -> Result<Program, TypeErr>
    requires { (bytes : Items ℕ) × IsText bytes (ast_view ast.now) }
    ensures program { IfOk result (λ p. HasProgram (ast_view ast.now) (program_view p)) }
    ensures rule { (rule : ℕ) (span : SpecSpan) → IsErrOf result (err.Rule rule span)
        → IsFirstFault (ast_view ast.now) (Some (record { rule = rule; span = span })) }
    ensures limit { (l : SpecLimit) → IsErrOf result (err.Limit l) → PassesLimit (ast_view ast.now) l }
{
    let roots = Roots::of(alloc, ast.decls.as_slice())?;
    with_roots(alloc, &roots, &*ast)
}
