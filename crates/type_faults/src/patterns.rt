//! Patterns.

ghost use Rattle.std.specs.Prelude.{◌≡◌, ◌∷◌, ◌++◌, [], IfOk, List, OnOk};
ghost use Rattle.std.specs.Option.{option_map, option_map_or};
ghost use Rattle.rp_ast.specs.View as tree;
ghost use Rattle.type_rules.specs.declared.kind.Kind.{Kind as TheKind};
ghost use Rattle.type_rules.specs.Names.{Name, Names};
ghost use Rattle.type_rules.specs.Sites.{Site};
ghost use Rattle.type_rules.specs.Matches.{bound_sites, bound_var, case_named as case_in, cases_of, with_bound};
ghost use Rattle.type_rules.specs.ExprSites.{arm_names, pattern_sites};
ghost use Rattle.type_rules.specs.StmtSites.{arm_names as block_arm_names};
ghost use Rattle.type_rules.specs.Flow.{in_pattern};
ghost use Rattle.type_tables.specs.Counts.{IsCounted};
ghost use Rattle.type_tables.specs.Tables.{number_in, with_first};
ghost use Rattle.type_terms.specs.Views.{IsTableOf, cases_view, fields_of};
ghost use Rattle.type_faults.specs.Walks.{Walks, names_at};
ghost use Rattle.text_names.specs.Declarations.{names_view};

use crate::walk::{Found, Walk};
use rp_ast::{BlockArm, ExprArm, Ident, PatternNode};
use rp_value::Memory;
use std::alloc::Global;
use type_judges::{judge_declares, judge_pattern};
use type_rules::Kind;
use type_tables::{NameTable, VarItem, sooner};
use type_terms::{Case, Cases, case_field, find_case};

impl<'n, 'a> Walk<'n, 'a> {
    /// A variable of a pattern, or a quantified one, comes in sight.
    pub(crate) fn bind(&mut self, name: &'a Ident, kind: Kind) -> Found
        ensures { (later : List Name) → IsCounted self.old.later later
            → IfOk result (λ fault. Walks later self.old self.new fault
            (λ p. Site.declares p.sight.vars (tree.ident_view name.now) ∷ [])
            (λ p. record p.sight { vars = p.sight.vars ++ bound_var (tree.ident_view name.now) kind ∷ [] })) }
    {
        let fault = judge_declares(self.names, &self.vars, name);
        self.bring(VarItem {
            name: name.text.as_slice(),
            kind,
            set: true,
            fixed: true,
        })?;
        Ok(fault)
    }

    /// The variables of a pattern of this constructor come in sight.
    fn bind_all(&mut self, case: Option<Case>, vars: &'a [Ident]) -> Found
        ensures { (later : List Name) → IsCounted self.old.later later
            → IfOk result (λ fault. Walks later self.old self.new fault
            (λ p. bound_sites p.sight.vars (tree.idents_view vars.now) (option_map_or (fields_of p.names) case.entry []))
            (λ p. record p.sight {
              vars = with_bound p.sight.vars (tree.idents_view vars.now)
                  (option_map_or (fields_of p.names) case.entry []);
            })) }
    {
        let mut best = None;
        for (place, var) in vars.iter().enumerate() {
            let kind = case_field(self.names, case, place)?;
            best = sooner(best, self.bind(var, kind)?);
        }
        Ok(best)
    }

    /// A pattern for a term of a type with these constructors, behind the arms of those before.
    /// Its variables come in sight.
    pub(crate) fn pattern(
        &mut self,
        cases: Option<Cases>,
        before: &NameTable,
        pattern: &'a PatternNode,
    ) -> Found
        ensures { (later : List Name) (kind : TheKind) (arms : List Name) → IsCounted self.old.later later
            → option_map (cases_view (names_at self.old)) cases.entry ≡ cases_of (names_at self.old) kind
            → IsTableOf before.now arms
            → IfOk result (λ fault. Walks later self.old self.new fault
            (λ p. pattern_sites p.names p.sight.vars kind arms (tree.pattern_view pattern.now))
            (λ p. in_pattern p.names p.sight kind (tree.pattern_view pattern.now))) }
    {
        let vars = pattern.vars.as_slice();
        let fault = judge_pattern(self.names, cases, before, &pattern.con, vars.len());
        let case = case_named(cases, pattern.con.text.as_slice());
        let below = self.bind_all(case, vars)?;
        Ok(sooner(fault, below))
    }
}

/// The first constructor of this name, where there are constructors.
fn case_named<'a>(cases: Option<Cases<'_, 'a>>, name: &[u8]) -> Option<Case<'a>>
    ensures { (n : Names) → option_map (fields_of n) result
        ≡ option_map (λ case. case.fields) (case_in (option_map (cases_view n) cases.entry) name.now) }
{
    match cases {
        Some(cases) => find_case(cases, name),
        None => None,
    }
}

/// Puts the constructor of an arm to those before it.
pub(crate) fn add_arm<'a>(arms: &mut NameTable<'a>, pattern: &'a PatternNode) -> Result<(), Memory>
    ensures { OnOk result (number_in arms.new ≡ with_first (number_in arms.old) pattern.now.con.text 0) }
{
    arms.add(pattern.con.text.as_slice(), 0)?;
    Ok(())
}

/// The constructors of arms.
pub(crate) fn arm_table<'a>(alloc: Global, arms: &'a [ExprArm]) -> Result<NameTable<'a>, Memory>
    ensures { IfOk result (λ table. IsTableOf table (arm_names (tree.expr_arms_view arms.now))) }
{
    let mut table = NameTable::new(alloc);
    for arm in arms {
        add_arm(&mut table, &arm.pattern)?;
    }
    Ok(table)
}

/// The constructors of arms of statements.
pub(crate) fn block_arm_table<'a>(
    alloc: Global,
    arms: &'a [BlockArm],
) -> Result<NameTable<'a>, Memory>
    ensures { IfOk result (λ table. IsTableOf table (block_arm_names (tree.block_arms_view arms.now))) }
{
    let mut table = NameTable::new(alloc);
    for arm in arms {
        add_arm(&mut table, &arm.pattern)?;
    }
    Ok(table)
}
