//! Arms of `match` expressions.

ghost use Rattle.std.specs.Prelude.{◌≡◌, IfOk, OnOk};
ghost use Rattle.rp_ast.specs.View as tree;
ghost use Rattle.type_rules.specs.Matches.{pattern_kinds, pattern_name, pattern_vars};
ghost use Rattle.text_tables.specs.Seen.{tables_view};
ghost use Rattle.query_bodies.specs.Views.{claim_arms_view, claim_view};
ghost use Rattle.query_laws.specs.Sight.{SaysArms, SaysClaim, under_pattern};
ghost use Rattle.reading.specs.Reads.{Reads, under_vars};

use crate::forms::push_arm;
use crate::reader::Reader;
use query_bodies::{Claim, ClaimArm};
use rp_ast::{ExprArm, PatternNode};
use rp_value::{Boxed, List, Memory};
use type_rules::Kind;

impl<'t, 'n, 'a> Reader<'t, 'n, 'a> {
    /// The variables of a pattern come in sight, for a term of this type.
    fn bind_all(&mut self, kind: Kind, pattern: &'a PatternNode) -> Result<(), Memory>
        ensures { OnOk result (self.new ≡ under_vars self.old (pattern_vars (tree.pattern_view pattern.now))
            (pattern_kinds (tables_view self.old.tables.now).names kind (pattern_name (tree.pattern_view pattern.now)))) }
    {
        let vars = pattern.vars.as_slice();
        for (place, var) in vars.iter().enumerate() {
            let field = self.field(kind, pattern.con.text.as_slice(), place)?;
            self.bind_level(var, field)?;
        }
        Ok(())
    }

    /// The body of an arm for a term of this type.
    #[cycle(reading)]
    fn arm_body(&mut self, kind: Kind, arm: &'a ExprArm) -> Result<Boxed<Claim>, Memory>
        ensures { IfOk result (λ made. Reads self.old self.new (λ s. SaysClaim
            (under_pattern s kind (tree.pattern_view arm.now.pattern)) (tree.expr_view arm.now.body)
            (claim_view made))) }
    {
        let len = self.vars.len();
        let binders = self.binders;
        self.bind_all(kind, &arm.pattern)?;
        let claim = self.claim(&arm.body)?;
        self.unbind(len, binders);
        Ok(claim)
    }

    /// Arms for a term of this type.
    #[cycle(reading)]
    pub(crate) fn arms(&mut self, kind: Kind, arms: &'a [ExprArm]) -> Result<List<ClaimArm>, Memory>
        ensures { IfOk result (λ made. Reads self.old self.new (λ s. SaysArms s kind (tree.expr_arms_view arms.now)
            (claim_arms_view made))) }
    {
        let mut made = List::new(self.alloc);
        for arm in arms {
            let con = self
                .tables
                .con_number(kind, arm.pattern.con.text.as_slice())?;
            let body = self.arm_body(kind, arm)?;
            push_arm(&mut made, con, arm.pattern.vars.count(), body)?;
        }
        Ok(made)
    }
}
