//! The first faults of expressions.

ghost use Rattle.std.specs.Prelude.{◌≡◌, ◌∷◌, ◌++◌, [], codes, false, true, IfOk, List};
ghost use Rattle.std.specs.Option.{option_map};
ghost use Rattle.rp_ast.specs.View as tree;
ghost use Rattle.type_rules.specs.declared.kind.Kind.{Kind as TheKind};
ghost use Rattle.type_rules.specs.Names.{Name};
ghost use Rattle.type_rules.specs.Sites.{Site};
ghost use Rattle.rp_grammar.specs.Trees.{ExprForm as FormTree};
ghost use Rattle.type_rules.specs.Typing.{is_plain, is_plain_form};
ghost use Rattle.type_rules.specs.Starts.{word_at as spec_word_at};
ghost use Rattle.type_rules.specs.Flow.{in_pattern};
ghost use Rattle.type_rules.specs.Matches.{cases_of as spec_cases_of};
ghost use Rattle.type_rules.specs.ExprSites as spec;
ghost use Rattle.type_tables.specs.Counts.{IsCounted};
ghost use Rattle.type_terms.specs.Views.{IsTableOf, cases_view};
ghost use Rattle.type_judges.specs.Places.{want_view};
ghost use Rattle.type_faults.specs.Walks.{Follows, Walks, names_at, scope_at, seeing, stand_of};

use crate::patterns::{add_arm, arm_table};
use crate::told::{Term, Told, both, claim, nothing, sum};
use crate::walk::{Found, Walk};
use rp_ast::{CallWord, CompareOp, ExprArm, ExprForm, ExprNode, Param};
use rp_span::Span;
use rp_value::Memory;
use type_judges::{
    Want, argument, bool_operand, bool_whole, held, int_operand, judge_arms, judge_written,
    left_want, matched, right_want, word_arg,
};
use type_rules::{Fault, Kind, Role};
use type_tables::{NameTable, is_plain_word, sooner};
use type_terms::{Cases, cases_of, type_of, word_at};

/// What the sides of a comparison are asked.
#[derive(Clone, Copy)]
struct Wants {
    left: Want,
    right: Want,
}

impl<'n, 'a> Walk<'n, 'a> {
    /// What the sides of a comparison are asked.
    fn side_wants(&self, op: CompareOp, left: &ExprNode, right: &ExprNode) -> Result<Wants, Memory>
        ensures left { IfOk result (λ wants. want_view wants.left ≡ spec.left_want (names_at self.now) self.now.vars op
            (tree.expr_view left.now) (tree.expr_view right.now)) }
        ensures right { IfOk result (λ wants. want_view wants.right ≡ spec.right_want (names_at self.now) self.now.vars op
            (tree.expr_view left.now) (tree.expr_view right.now)) }
    {
        Ok(Wants {
            left: left_want(self.names, &self.vars, op, left, right)?,
            right: right_want(self.names, &self.vars, op, left, right)?,
        })
    }

    /// A quantified variable comes in sight.
    fn quantify(&mut self, param: &'a Param) -> Found
        ensures { (later : List Name) → IsCounted self.old.later later
            → IfOk result (λ fault. Walks later self.old self.new fault
            (λ p. spec.quantified_sites (scope_at later p) (tree.param_view param.now))
            (λ p. record p.sight { vars = p.sight.vars ++ spec.quantified_var p.names (tree.param_view param.now) ∷ [] })) }
    {
        let kind = self.names.kind_of(&param.ty)?;
        let written = judge_written(self.names, self.decl, Role::Quantified, &param.ty)?;
        let declared = self.bind(&param.name, kind)?;
        Ok(sooner(declared, written))
    }

    /// The word `match` on a term of a type with these constructors.
    fn match_word(&self, at: Span, cases: Option<Cases<'n, 'a>>, arms: &'a [ExprArm]) -> Found
        ensures { (later : List Name) (kind : TheKind) → IsCounted self.now.later later
            → option_map (cases_view (names_at self.now)) cases.entry ≡ spec_cases_of (names_at self.now) kind
            → IfOk result (λ fault. Walks later self.now self.now fault
            (λ p. Site.arms (spec_word_at (codes "match") at) kind (spec.arm_names (tree.expr_arms_view arms.now)) ∷ [])
            (λ p. p.sight)) }
    {
        let all = arm_table(self.alloc, arms)?;
        let word = word_at(b"match", at)?;
        Ok(judge_arms(word, &all, cases))
    }

    /// The first fault of an expression, and whether it is a plain term.
    #[cycle(exprs)]
    pub(crate) fn term(&mut self, want: Want, e: &'a ExprNode) -> Term
        ensures { (later : List Name) → IsCounted self.old.later later
            → IfOk result (λ told. Walks later self.old self.new told.fault
            (λ p. spec.expr_sites p.names (scope_at later p) (want_view want) (tree.expr_view e.now)) (λ p. p.sight)
            × (told.plain ≡ is_plain (names_at self.old) self.old.vars (tree.expr_view e.now))) }
    {
        if self.is_right_leaf(want, e) {
            return Ok(nothing());
        }
        self.mark_expr(e)?;
        let below = self.below(want, e)?;
        let here = self.own_fault(want, e, below.plain)?;
        Ok(Told {
            fault: sooner(here, below.fault),
            plain: below.plain,
        })
    }

    /// The first fault of an expression.
    #[cycle(exprs)]
    pub(crate) fn expr(&mut self, want: Want, e: &'a ExprNode) -> Found
        ensures { (later : List Name) → IsCounted self.old.later later
            → IfOk result (λ fault. Walks later self.old self.new fault
            (λ p. spec.expr_sites p.names (scope_at later p) (want_view want) (tree.expr_view e.now)) (λ p. p.sight)) }
    {
        let told = self.term(want, e)?;
        Ok(told.fault)
    }

    /// That of an expression which stands behind other places.
    #[cycle(exprs)]
    fn behind(&mut self, best: Option<Fault>, want: Want, e: &'a ExprNode) -> Found
        ensures { (later : List Name) → IsCounted self.old.later later
            → IfOk result (λ fault. Follows later self.old self.new best fault
            (λ p. spec.expr_sites p.names (scope_at later p) (want_view want) (tree.expr_view e.now)) (λ p. p.sight)) }
    {
        let own = self.expr(want, e)?;
        Ok(sooner(best, own))
    }

    /// The first fault below the expression itself.
    #[cycle(exprs)]
    fn below(&mut self, want: Want, e: &'a ExprNode) -> Term
        ensures { (later : List Name) → IsCounted self.old.later later
            → IfOk result (λ told. Walks later self.old self.new told.fault
            (λ p. spec.form_sites p.names (scope_at later p) (want_view want) e.now.span (tree.expr_form_view e.now.what))
            (λ p. p.sight)
            × (told.plain ≡ is_plain_form (names_at self.old) self.old.vars (tree.expr_form_view e.now.what))) }
    {
        match &e.what {
            ExprForm::Implies(left, right) => {
                let first = self.expr(bool_operand(), left.get())?;
                let last = self.behind(first, bool_operand(), right.get())?;
                Ok(claim(last))
            }
            ExprForm::Or(operands) => {
                let fault = self.operands(operands.as_slice())?;
                Ok(claim(fault))
            }
            ExprForm::And(operands) => {
                let fault = self.operands(operands.as_slice())?;
                Ok(claim(fault))
            }
            ExprForm::Not(operand) => {
                let fault = self.expr(bool_operand(), operand.get())?;
                Ok(claim(fault))
            }
            ExprForm::Forall(param, body) => {
                let fault = self.quantified(body.get(), param.get())?;
                Ok(claim(fault))
            }
            ExprForm::Exists(param, body) => {
                let fault = self.quantified(body.get(), param.get())?;
                Ok(claim(fault))
            }
            ExprForm::Compare(op, left, right) => {
                let wants = self.side_wants(*op, left.get(), right.get())?;
                let first = self.expr(wants.left, left.get())?;
                let last = self.behind(first, wants.right, right.get())?;
                Ok(claim(last))
            }
            ExprForm::Plus(left, right) => {
                let first = self.term(int_operand(), left.get())?;
                let last = self.term(int_operand(), right.get())?;
                Ok(sum(first, last))
            }
            ExprForm::Minus(left, right) => {
                let first = self.term(int_operand(), left.get())?;
                let last = self.term(int_operand(), right.get())?;
                Ok(sum(first, last))
            }
            ExprForm::Int(_)
            | ExprForm::Str(_)
            | ExprForm::Truth(_)
            | ExprForm::NoneWord
            | ExprForm::Unreturned
            | ExprForm::Tx => Ok(nothing()),
            ExprForm::SomeOf(inside) => self.term(held(want.asked), inside.get()),
            ExprForm::Call(word, args) => self.word(*word, args.as_slice()),
            ExprForm::Match(term, arms) => {
                let kind = type_of(self.names, &self.vars, None, term.get())?;
                let first = self.expr(matched(), term.get())?;
                let fault = self.arms(first, e.span, kind, arms.as_slice())?;
                Ok(claim(fault))
            }
            ExprForm::Access(access) => self.access(access.get()),
        }
    }

    /// The operands of a chain.
    #[cycle(exprs)]
    fn operands(&mut self, operands: &'a [ExprNode]) -> Found
        ensures { (later : List Name) → IsCounted self.old.later later
            → IfOk result (λ fault. Walks later self.old self.new fault
            (λ p. spec.operand_sites p.names (scope_at later p) (tree.exprs_view operands.now)) (λ p. p.sight)) }
    {
        let mut best = None;
        for operand in operands {
            best = sooner(best, self.expr(bool_operand(), operand)?);
        }
        Ok(best)
    }

    /// The body of a quantifier, with its variable.
    #[cycle(exprs)]
    fn quantified(&mut self, body: &'a ExprNode, param: &'a Param) -> Found
        ensures { (later : List Name) → IsCounted self.old.later later
            → IfOk result (λ fault. Walks later self.old self.new fault
            (λ p. spec.quantified_sites (scope_at later p) (tree.param_view param.now) ++ spec.expr_sites p.names
            (spec.with_var (scope_at later p) (spec.quantified_var p.names (tree.param_view param.now))) spec.bool_operand
            (tree.expr_view body.now)) (λ p. p.sight)) }
    {
        let len = self.vars.len();
        let here = self.quantify(param)?;
        let below = self.expr(bool_operand(), body)?;
        self.back_to(len);
        Ok(sooner(here, below))
    }

    /// The arguments of a word. All are asked the same type, and one too many none.
    #[cycle(exprs)]
    fn word(&mut self, word: CallWord, args: &'a [ExprNode]) -> Term
        ensures { (later : List Name) → IsCounted self.old.later later
            → IfOk result (λ told. Walks later self.old self.new told.fault
            (λ p. spec.arg_sites p.names (scope_at later p) false (spec.word_args p.names p.sight.vars word
            (tree.exprs_view args.now)) (tree.exprs_view args.now)) (λ p. p.sight)
            × (told.plain ≡ is_plain_form (names_at self.old) self.old.vars (FormTree.call word (tree.exprs_view args.now)))) }
    {
        let mut best = None;
        let mut plain = is_plain_word(word);
        for (place, arg) in args.iter().enumerate() {
            let kind = word_arg(self.names, &self.vars, word, args, place)?;
            let told = self.term(argument(false, kind), arg)?;
            best = sooner(best, told.fault);
            plain = both(plain, told.plain);
        }
        Ok(Told { fault: best, plain })
    }

    /// The word `match` and the arms on a term of this type, behind the term.
    #[cycle(exprs)]
    fn arms(&mut self, best: Option<Fault>, at: Span, kind: Kind, arms: &'a [ExprArm]) -> Found
        ensures { (later : List Name) → IsCounted self.old.later later
            → IfOk result (λ fault. Follows later self.old self.new best fault
            (λ p. Site.arms (spec_word_at (codes "match") at) kind (spec.arm_names (tree.expr_arms_view arms.now))
            ∷ spec.arm_sites p.names (scope_at later p) kind [] (tree.expr_arms_view arms.now)) (λ p. p.sight)) }
    {
        let cases = cases_of(self.names, kind);
        let word = self.match_word(at, cases, arms)?;
        let below = self.each_arm(arms, cases)?;
        Ok(sooner(best, sooner(word, below)))
    }

    #[cycle(exprs)]
    fn each_arm(&mut self, arms: &'a [ExprArm], cases: Option<Cases<'n, 'a>>) -> Found
        ensures { (later : List Name) (kind : TheKind) → IsCounted self.old.later later
            → option_map (cases_view (names_at self.old)) cases.entry ≡ spec_cases_of (names_at self.old) kind
            → IfOk result (λ fault. Walks later self.old self.new fault
            (λ p. spec.arm_sites p.names (scope_at later p) kind [] (tree.expr_arms_view arms.now)) (λ p. p.sight)) }
    {
        let mut best = None;
        let mut before = NameTable::new(self.alloc);
        for arm in arms {
            best = sooner(best, self.arm(arm, cases, &before)?);
            add_arm(&mut before, &arm.pattern)?;
        }
        Ok(best)
    }

    #[cycle(exprs)]
    fn arm(&mut self, arm: &'a ExprArm, cases: Option<Cases<'n, 'a>>, before: &NameTable) -> Found
        ensures { (later : List Name) (kind : TheKind) (names : List Name) → IsCounted self.old.later later
            → option_map (cases_view (names_at self.old)) cases.entry ≡ spec_cases_of (names_at self.old) kind
            → IsTableOf before.now names
            → IfOk result (λ fault. Walks later self.old self.new fault
            (λ p. spec.pattern_sites p.names p.sight.vars kind names (tree.pattern_view arm.now.pattern)
            ++ spec.expr_sites p.names (scope_at later (seeing p (in_pattern p.names p.sight kind
            (tree.pattern_view arm.now.pattern)))) spec.bool_whole (tree.expr_view arm.now.body)) (λ p. p.sight)) }
    {
        let len = self.vars.len();
        let here = self.pattern(cases, before, &arm.pattern)?;
        let below = self.expr(bool_whole(), &arm.body)?;
        self.back_to(len);
        Ok(sooner(here, below))
    }
}
