//! Operands of chains, and arguments of words.

ghost use Rattle.std.specs.Prelude.{IfOk};
ghost use Rattle.rp_ast.specs.View as tree;
ghost use Rattle.type_rules.specs.ExprSites as wants;
ghost use Rattle.desugaring.specs.Callees.{vars_of};
ghost use Rattle.query_bodies.specs.Views.{claims_view, terms_view};
ghost use Rattle.query_laws.specs.Sight.{SaysClaims, SaysTerms};
ghost use Rattle.reading.specs.Reads.{Reads};

use crate::forms::push_boxed;
use crate::reader::Reader;
use query_bodies::{Claim, Term};
use rp_ast::{CallWord, ExprNode};
use rp_value::{List, Memory};
use type_judges::word_arg;

impl<'t, 'n, 'a> Reader<'t, 'n, 'a> {
    /// Formulas one after another.
    #[cycle(reading)]
    pub(crate) fn claims(&mut self, operands: &'a [ExprNode]) -> Result<List<Claim>, Memory>
        ensures { IfOk result (λ made. Reads self.old self.new (λ s. SaysClaims s (tree.exprs_view operands.now)
            (claims_view made))) }
    {
        let mut claims = List::new(self.alloc);
        for operand in operands {
            let claim = self.claim(operand)?;
            push_boxed(&mut claims, claim)?;
        }
        Ok(claims)
    }

    /// The arguments of a word.
    #[cycle(reading)]
    pub(crate) fn word_args(
        &mut self,
        word: CallWord,
        args: &'a [ExprNode],
    ) -> Result<List<Term>, Memory>
        ensures { IfOk result (λ made. Reads self.old self.new (λ s. SaysTerms s
            (wants.word_args s.tables.names (vars_of s.vars) word (tree.exprs_view args.now))
            (tree.exprs_view args.now) (terms_view made))) }
    {
        let mut terms = List::new(self.alloc);
        for (place, arg) in args.iter().enumerate() {
            let kind = word_arg(self.names(), &self.vars, word, args, place)?;
            let term = self.term(Some(kind), arg)?;
            push_boxed(&mut terms, term)?;
        }
        Ok(terms)
    }
}
