//! The datatypes that expressions bring: types of quantified variables, and what `some` makes.

ghost use Rattle.std.specs.Prelude.{◌≡◌, ◌++◌, ◌∷◌, [], IfOk, OnOk, Some, take};
ghost use Rattle.rp_ast.specs.View as tree;
ghost use Rattle.rp_grammar.specs.Trees.{ParamTree};
ghost use Rattle.type_rules.specs.Names.{param_type};
ghost use Rattle.type_rules.specs.Kinds.{bool_kind, kind_of};
ghost use Rattle.type_rules.specs.ExprSites as spec;
ghost use Rattle.std.specs.Option.{option_map_or};
ghost use Rattle.type_rules.specs.Matches.{bound_var, pattern_kinds};
ghost use Rattle.text_names.specs.Declarations.{names_view};
ghost use Rattle.type_terms.specs.Views.{access_view, fields_of, way_view};
ghost use Rattle.type_rules.specs.Accesses.{args_of};
ghost use Rattle.desugaring.specs.Appearances.{parts};
ghost use Rattle.text_kinds.specs.Numbered.{numbered};
ghost use Rattle.text_kinds.specs.Seen.{kinds_view};
ghost use Rattle.text_kinds.specs.means.Brought as means;
ghost use Rattle.text_kinds.specs.means.Walked.{seen};
ghost use Rattle.text_kinds.specs.means.Brought.{behind_pattern, seeing, sought};

use crate::table::KindTable;
use rp_ast::{
    AccessNode, AccessStep, CallWord, CompareOp, ExprArm, ExprForm, ExprNode, Ident, Param,
    PatternNode,
};
use rp_value::Memory;
use std::alloc::Global;
use text_names::TextNames;
use type_judges::{left_want, right_want, word_arg};
use type_rules::Kind;
use type_tables::{BOOL_KIND, INT_KIND, VarItem, Vars};
use type_terms::{
    Access, Case, Way, access_of, arg_kind, asked_inside, case_field, cases_of, find_case,
    key_kind, stepped, type_of, way_from,
};

/// The constructor of a type that a name stands for.
fn case_of<'n, 'a>(names: &'n TextNames<'a>, kind: Kind, name: &[u8]) -> Option<Case<'a>>
    ensures { option_map_or (fields_of (names_view names.now)) result [] ≡ pattern_kinds (names_view names.now) kind name.now }
{
    match cases_of(names, kind) {
        Some(cases) => find_case(cases, name),
        None => None,
    }
}

/// Looks for datatypes, in the order of the text.
#[derive(Drop)]
pub(crate) struct Seeker<'n, 'a> {
    /// Those in sight. Whether they have values tells nothing here.
    pub(crate) vars: Vars<'a>,
    pub(crate) kinds: KindTable<'n, 'a>,
}

impl<'n, 'a> Seeker<'n, 'a> {
    pub(crate) fn new(alloc: Global, names: &'n TextNames<'a>) -> Result<Seeker<'n, 'a>, Memory>
        ensures vars { IfOk result (λ seeker. seeker.vars ≡ []) }
        ensures kinds { IfOk result (λ seeker. kinds_view seeker.kinds ≡ numbered (names_view names.now) (bool_kind ∷ [])) }
    {
        let kinds = KindTable::new(alloc, names)?;
        Ok(Seeker {
            vars: Vars::new(alloc),
            kinds,
        })
    }

    /// A variable comes in sight.
    pub(crate) fn bind(&mut self, name: &'a Ident, kind: Kind) -> Result<(), Memory>
        ensures { OnOk result (seen self.new ≡ seeing (seen self.old) (self.old.vars
            ++ bound_var (tree.ident_view name.now) kind ∷ [])) }
    {
        self.vars.push(VarItem {
            name: name.text.as_slice(),
            kind,
            set: true,
            fixed: true,
        })
    }

    /// The variables of a pattern for a term of this type come in sight.
    pub(crate) fn bind_all(&mut self, kind: Kind, pattern: &'a PatternNode) -> Result<(), Memory>
        ensures { OnOk result (seen self.new ≡ seeing (seen self.old)
            (behind_pattern (names_view self.old.kinds.names.now) self.old.vars kind
            (tree.pattern_view pattern.now))) }
    {
        let names = self.kinds.names();
        let case = case_of(names, kind, pattern.con.text.as_slice());
        for (place, var) in pattern.vars.as_slice().iter().enumerate() {
            let field = case_field(names, case, place)?;
            self.bind(var, field)?;
        }
        Ok(())
    }

    /// The variables behind the first so many go out of sight.
    pub(crate) fn leave(&mut self, len: usize)
        ensures { seen self.new ≡ seeing (seen self.old) (take len self.old.vars) }
    {
        self.vars.truncate(len);
    }

    /// What the sides of a comparison are asked.
    fn sides_asked(
        &self,
        op: CompareOp,
        left: &ExprNode,
        right: &ExprNode,
    ) -> Result<(Option<Kind>, Option<Kind>), Memory>
        ensures left { IfOk result (λ asked. asked.0 ≡ (spec.left_want (names_view self.now.kinds.names.now)
            self.now.vars op (tree.expr_view left.now) (tree.expr_view right.now)).asked) }
        ensures right { IfOk result (λ asked. asked.1 ≡ (spec.right_want (names_view self.now.kinds.names.now)
            self.now.vars op (tree.expr_view left.now) (tree.expr_view right.now)).asked) }
    {
        let names = self.kinds.names();
        let first = left_want(names, &self.vars, op, left, right)?;
        let second = right_want(names, &self.vars, op, left, right)?;
        Ok((first.asked, second.asked))
    }

    /// Adds what an expression brings whose place asks this type.
    #[cycle(exprs)]
    pub(crate) fn expr(&mut self, asked: Option<Kind>, e: &'a ExprNode) -> Result<(), Memory>
        ensures { OnOk result (seen self.new ≡ sought (seen self.old)
            (means.expr_brings (names_view self.old.kinds.names.now) self.old.vars asked
            (tree.expr_view e.now))) }
    {
        match &e.what {
            ExprForm::Implies(left, right) => {
                self.expr(Some(BOOL_KIND), left.get())?;
                self.expr(Some(BOOL_KIND), right.get())
            }
            ExprForm::Or(operands) => self.operands(operands.as_slice()),
            ExprForm::And(operands) => self.operands(operands.as_slice()),
            ExprForm::Not(operand) => self.expr(Some(BOOL_KIND), operand.get()),
            ExprForm::Forall(param, body) => self.quantified(param.get(), body.get()),
            ExprForm::Exists(param, body) => self.quantified(param.get(), body.get()),
            ExprForm::Compare(op, left, right) => {
                let (first, second) = self.sides_asked(*op, left.get(), right.get())?;
                self.expr(first, left.get())?;
                self.expr(second, right.get())
            }
            ExprForm::Plus(left, right) => {
                self.expr(Some(INT_KIND), left.get())?;
                self.expr(Some(INT_KIND), right.get())
            }
            ExprForm::Minus(left, right) => {
                self.expr(Some(INT_KIND), left.get())?;
                self.expr(Some(INT_KIND), right.get())
            }
            ExprForm::Int(_) => Ok(()),
            ExprForm::Str(_) => Ok(()),
            ExprForm::Truth(_) => Ok(()),
            ExprForm::NoneWord => Ok(()),
            ExprForm::Unreturned => Ok(()),
            ExprForm::Tx => Ok(()),
            ExprForm::SomeOf(inside) => {
                let kind = type_of(self.kinds.names(), &self.vars, asked, e)?;
                self.kinds.add(kind)?;
                self.expr(asked_inside(asked), inside.get())
            }
            ExprForm::Call(word, args) => self.word(*word, args.as_slice()),
            ExprForm::Match(term, arms) => {
                let kind = type_of(self.kinds.names(), &self.vars, None, term.get())?;
                self.expr(None, term.get())?;
                self.arms(kind, arms.as_slice())
            }
            ExprForm::Access(access) => self.access(access.get()),
        }
    }

    /// The operands of a chain.
    #[cycle(exprs)]
    fn operands(&mut self, operands: &'a [ExprNode]) -> Result<(), Memory>
        ensures { OnOk result (seen self.new ≡ sought (seen self.old)
            (means.operands_bring (names_view self.old.kinds.names.now) self.old.vars
            (tree.exprs_view operands.now))) }
    {
        for operand in operands {
            self.expr(Some(BOOL_KIND), operand)?;
        }
        Ok(())
    }

    #[cycle(exprs)]
    fn quantified(&mut self, param: &'a Param, body: &'a ExprNode) -> Result<(), Memory>
        ensures { (p : ParamTree) → p ≡ tree.param_view param.now
            → OnOk result (seen self.new ≡ sought (seen self.old) (parts (names_view self.old.kinds.names.now)
            (kind_of (names_view self.old.kinds.names.now) (param_type p)) ++ means.expr_brings
            (names_view self.old.kinds.names.now)
            (self.old.vars ++ spec.quantified_var (names_view self.old.kinds.names.now) p ∷ []) (Some bool_kind)
            (tree.expr_view body.now))) }
    {
        let len = self.vars.len();
        let kind = self.kinds.names().kind_of(&param.ty)?;
        self.kinds.add(kind)?;
        self.bind(&param.name, kind)?;
        self.expr(Some(BOOL_KIND), body)?;
        self.leave(len);
        Ok(())
    }

    /// The arguments of a word.
    #[cycle(exprs)]
    fn word(&mut self, word: CallWord, args: &'a [ExprNode]) -> Result<(), Memory>
        ensures { OnOk result (seen self.new ≡ sought (seen self.old)
            (means.args_bring (names_view self.old.kinds.names.now) self.old.vars
            (spec.word_args (names_view self.old.kinds.names.now) self.old.vars word (tree.exprs_view args.now))
            (tree.exprs_view args.now))) }
    {
        for (place, arg) in args.iter().enumerate() {
            let kind = word_arg(self.kinds.names(), &self.vars, word, args, place)?;
            self.expr(Some(kind), arg)?;
        }
        Ok(())
    }

    /// The arms for a term of this type.
    #[cycle(exprs)]
    fn arms(&mut self, kind: Kind, arms: &'a [ExprArm]) -> Result<(), Memory>
        ensures { OnOk result (seen self.new ≡ sought (seen self.old)
            (means.arms_bring (names_view self.old.kinds.names.now) self.old.vars kind
            (tree.expr_arms_view arms.now))) }
    {
        for arm in arms {
            self.arm(kind, arm)?;
        }
        Ok(())
    }

    #[cycle(exprs)]
    fn arm(&mut self, kind: Kind, arm: &'a ExprArm) -> Result<(), Memory>
        ensures { OnOk result (seen self.new ≡ sought (seen self.old)
            (means.arm_brings (names_view self.old.kinds.names.now) self.old.vars kind
            (tree.expr_arm_view arm.now))) }
    {
        let len = self.vars.len();
        self.bind_all(kind, &arm.pattern)?;
        self.expr(Some(BOOL_KIND), &arm.body)?;
        self.leave(len);
        Ok(())
    }

    /// The keys and the arguments of an access.
    #[cycle(exprs)]
    pub(crate) fn access(&mut self, access: &'a AccessNode) -> Result<(), Memory>
        ensures { OnOk result (seen self.new ≡ sought (seen self.old)
            (means.access_brings (names_view self.old.kinds.names.now) self.old.vars
            (tree.access_view access.now))) }
    {
        let names = self.kinds.names();
        let what = access_of(names, &self.vars, access)?;
        let way = way_from(names, &self.vars, &access.root);
        self.keys(way, access.steps.as_slice())?;
        match &access.args {
            Some(args) => self.args(what, args.as_slice()),
            None => Ok(()),
        }
    }

    /// The keys of the steps that go on from there.
    #[cycle(exprs)]
    fn keys(&mut self, way: Way<'a>, steps: &'a [AccessStep]) -> Result<(), Memory>
        ensures { OnOk result (seen self.new ≡ sought (seen self.old)
            (means.steps_bring (names_view self.old.kinds.names.now) self.old.vars
            (way_view (names_view self.old.kinds.names.now) way.entry) (tree.steps_view steps.now))) }
    {
        let mut way = way;
        for step in steps {
            self.key(way, step)?;
            way = stepped(way, step)?;
        }
        Ok(())
    }

    #[cycle(exprs)]
    fn key(&mut self, way: Way<'a>, step: &'a AccessStep) -> Result<(), Memory>
        ensures { OnOk result (seen self.new ≡ sought (seen self.old)
            (means.key_brings (names_view self.old.kinds.names.now) self.old.vars
            (way_view (names_view self.old.kinds.names.now) way.entry) (tree.step_view step.now))) }
    {
        match step {
            AccessStep::Dot(_) => Ok(()),
            AccessStep::Returned(_) => Ok(()),
            AccessStep::Key(key) => {
                let kind = key_kind(self.kinds.names(), way)?;
                self.expr(Some(kind), key)
            }
        }
    }

    /// The arguments of what is called.
    #[cycle(exprs)]
    fn args(&mut self, what: Access<'a>, args: &'a [ExprNode]) -> Result<(), Memory>
        ensures { OnOk result (seen self.new ≡ sought (seen self.old)
            (means.args_bring (names_view self.old.kinds.names.now) self.old.vars
            (args_of (names_view self.old.kinds.names.now) (access_view (names_view self.old.kinds.names.now) what.entry))
            (tree.exprs_view args.now))) }
    {
        for (place, arg) in args.iter().enumerate() {
            let kind = arg_kind(self.kinds.names(), what, place)?;
            self.expr(Some(kind), arg)?;
        }
        Ok(())
    }
}
