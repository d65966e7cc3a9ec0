//! What expressions say.

ghost use Rattle.std.specs.Prelude.{◌≡◌, IfOk, Some};
ghost use Rattle.rp_ast.specs.View as tree;
ghost use Rattle.type_rules.specs.ExprSites as wants;
ghost use Rattle.type_rules.specs.Kinds as kinds;
ghost use Rattle.type_rules.specs.Typing.{asked_inside as asked_in, type_of as the_type_of};
ghost use Rattle.desugaring.specs.Expressions.{word_none, word_some};
ghost use Rattle.desugaring.specs.Tables as spec;
ghost use Rattle.text_tables.specs.Seen.{tables_view};
ghost use Rattle.query_bodies.specs.Views.{body_view, claim_view, term_view};
ghost use Rattle.query_laws.specs.Sight.{Says, SaysClaim, SaysTerm, under_quantifier};
ghost use Rattle.reading.specs.Reads.{Reads};

use crate::forms::{
    as_claim, as_term, bare, compared, difference, each_of, for_all, for_some, holding, implied,
    matched, negated, number, one_of, sum, text, truth, tx, unreturned, word_of,
};
use crate::reader::Reader;
use query_bodies::{Body, Claim, Term};
use rp_ast::{CompareOp, ExprForm, ExprNode, Param};
use rp_value::{Boxed, Memory};
use type_judges::{left_want, right_want};
use type_rules::Kind;
use type_tables::{BOOL_KIND, INT_KIND, maybe_of};
use type_terms::{asked_inside, type_of};

/// What the sides of a comparison are asked.
#[derive(Clone, Copy)]
struct Asked {
    left: Option<Kind>,
    right: Option<Kind>,
}

impl<'t, 'n, 'a> Reader<'t, 'n, 'a> {
    /// What an expression says whose place asks this type.
    #[cycle(reading)]
    pub fn body(&mut self, asked: Option<Kind>, e: &'a ExprNode) -> Result<Body, Memory>
        ensures { IfOk result (λ made. Reads self.old self.new (λ s. Says s asked (tree.expr_view e.now)
            (body_view made))) }
    {
        match &e.what {
            ExprForm::Implies(left, right) => {
                let left = self.claim(left.get())?;
                let right = self.claim(right.get())?;
                implied(self.alloc, left, right)
            }
            ExprForm::Or(operands) => {
                let claims = self.claims(operands.as_slice())?;
                one_of(self.alloc, claims)
            }
            ExprForm::And(operands) => {
                let claims = self.claims(operands.as_slice())?;
                each_of(self.alloc, claims)
            }
            ExprForm::Not(operand) => {
                let claim = self.claim(operand.get())?;
                negated(self.alloc, claim)
            }
            ExprForm::Forall(param, body) => {
                let param = param.get();
                let ty = self.tables.written(&param.ty)?;
                let claim = self.quantified(body.get(), param)?;
                for_all(self.alloc, ty, claim)
            }
            ExprForm::Exists(param, body) => {
                let param = param.get();
                let ty = self.tables.written(&param.ty)?;
                let claim = self.quantified(body.get(), param)?;
                for_some(self.alloc, ty, claim)
            }
            ExprForm::Compare(op, left, right) => {
                let first = left.get();
                let second = right.get();
                let asked = self.sides(*op, first, second)?;
                let left = self.term(asked.left, first)?;
                let right = self.term(asked.right, second)?;
                compared(self.alloc, *op, left, right)
            }
            ExprForm::Call(word, args) => {
                let terms = self.word_args(*word, args.as_slice())?;
                word_of(self.alloc, *word, terms)
            }
            ExprForm::Match(term, arms) => {
                let term = term.get();
                let kind = type_of(self.names(), &self.vars, None, term)?;
                let on = self.term(None, term)?;
                let made = self.arms(kind, arms.as_slice())?;
                matched(self.alloc, on, made)
            }
            ExprForm::Access(access) => self.access(access.get()),
            _ => self.plain(asked, e),
        }
    }

    /// An expression that is a term whatever its parts are.
    #[cycle(reading)]
    fn plain(&mut self, asked: Option<Kind>, e: &'a ExprNode) -> Result<Body, Memory>
        ensures { IfOk result (λ made. Reads self.old self.new (λ s. Says s asked (tree.expr_view e.now)
            (body_view made))) }
    {
        match &e.what {
            ExprForm::Plus(left, right) => {
                let left = self.term(Some(INT_KIND), left.get())?;
                let right = self.term(Some(INT_KIND), right.get())?;
                sum(self.alloc, left, right)
            }
            ExprForm::Minus(left, right) => {
                let left = self.term(Some(INT_KIND), left.get())?;
                let right = self.term(Some(INT_KIND), right.get())?;
                difference(self.alloc, left, right)
            }
            ExprForm::Int(n) => number(self.alloc, n.get()),
            ExprForm::Str(bytes) => text(self.alloc, bytes.as_slice()),
            ExprForm::Truth(value) => truth(self.alloc, *value),
            ExprForm::NoneWord => {
                let con = self.none_con(asked, e)?;
                bare(self.alloc, con)
            }
            ExprForm::SomeOf(inside) => {
                let inside = inside.get();
                let con = self.some_con(asked, inside)?;
                let field = self.term(asked_inside(asked), inside)?;
                holding(self.alloc, con, field)
            }
            ExprForm::Unreturned => unreturned(self.alloc),
            ExprForm::Tx => tx(self.alloc),
            _ => Err(Memory),
        }
    }

    /// The number of the `none` of this type. `Err` is that there is none.
    fn none_con(&self, asked: Option<Kind>, e: &ExprNode) -> Result<u32, Memory>
        ensures { IfOk result (λ con. spec.con_number (tables_view self.now.tables.now)
            (the_type_of (tables_view self.now.tables.now).names self.now.vars asked (tree.expr_view e.now)) word_none
            ≡ Some con) }
    {
        let kind = type_of(self.names(), &self.vars, asked, e)?;
        self.tables.con_number(kind, b"none")
    }

    /// The number of the `some` that holds this expression. `Err` is that there is none.
    fn some_con(&self, asked: Option<Kind>, inside: &ExprNode) -> Result<u32, Memory>
        ensures { IfOk result (λ con. spec.con_number (tables_view self.now.tables.now)
            (kinds.maybe_of (the_type_of (tables_view self.now.tables.now).names self.now.vars (asked_in asked)
            (tree.expr_view inside.now))) word_some
            ≡ Some con) }
    {
        let held = type_of(self.names(), &self.vars, asked_inside(asked), inside)?;
        let kind = maybe_of(held)?;
        self.tables.con_number(kind, b"some")
    }

    /// What the sides of a comparison are asked.
    fn sides(&self, op: CompareOp, left: &ExprNode, right: &ExprNode) -> Result<Asked, Memory>
        ensures left { IfOk result (λ asked. asked.left ≡ (wants.left_want (tables_view self.now.tables.now).names
            self.now.vars op (tree.expr_view left.now) (tree.expr_view right.now)).asked) }
        ensures right { IfOk result (λ asked. asked.right ≡ (wants.right_want (tables_view self.now.tables.now).names
            self.now.vars op (tree.expr_view left.now) (tree.expr_view right.now)).asked) }
    {
        let first = left_want(self.names(), &self.vars, op, left, right)?;
        let second = right_want(self.names(), &self.vars, op, left, right)?;
        Ok(Asked {
            left: first.asked,
            right: second.asked,
        })
    }

    /// A plain term.
    #[cycle(reading)]
    pub fn term(&mut self, asked: Option<Kind>, e: &'a ExprNode) -> Result<Boxed<Term>, Memory>
        ensures { IfOk result (λ made. Reads self.old self.new (λ s. SaysTerm s asked (tree.expr_view e.now)
            (term_view made))) }
    {
        let body = self.body(asked, e)?;
        as_term(body)
    }

    /// A formula.
    #[cycle(reading)]
    pub fn claim(&mut self, e: &'a ExprNode) -> Result<Boxed<Claim>, Memory>
        ensures { IfOk result (λ made. Reads self.old self.new (λ s. SaysClaim s (tree.expr_view e.now)
            (claim_view made))) }
    {
        let body = self.body(Some(BOOL_KIND), e)?;
        as_claim(self.alloc, body)
    }

    /// The body of a quantifier, with its variable.
    #[cycle(reading)]
    fn quantified(&mut self, body: &'a ExprNode, param: &'a Param) -> Result<Boxed<Claim>, Memory>
        ensures { IfOk result (λ made. Reads self.old self.new (λ s. SaysClaim
            (under_quantifier s (tree.param_view param.now)) (tree.expr_view body.now) (claim_view made))) }
    {
        let len = self.vars.len();
        let binders = self.binders;
        let kind = self.names().kind_of(&param.ty)?;
        self.bind_level(&param.name, kind)?;
        let claim = self.claim(body)?;
        self.unbind(len, binders);
        Ok(claim)
    }
}
