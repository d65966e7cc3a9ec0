//! The first faults inside declarations.

ghost use Rattle.std.specs.Prelude.{◌≡◌, ◌∷◌, ◌++◌, ℕ, [], false, true, IfOk, List, Option};
ghost use Rattle.std.specs.Option.{option_map};
ghost use Rattle.rp_ast.specs.View as tree;
ghost use Rattle.rp_grammar.specs.Trees.{Ident, DeclForm as DeclTree};
ghost use Rattle.type_rules.specs.Kinds.{kind_of};
ghost use Rattle.type_rules.specs.DeclSites.{frame_for, proc_sites, query_sites, result_sites, sight_for};
ghost use Rattle.type_rules.specs.Flow.{after_block};
ghost use Rattle.type_rules.specs.Queries as queries;
ghost use Rattle.type_rules.specs.Faults.{first};
ghost use Rattle.type_rules.specs.Sites.{Site};
ghost use Rattle.type_rules.specs.Starts.{brace_of as brace_at};
ghost use Rattle.type_rules.specs.StmtSites.{block_sites, is_there};
ghost use Rattle.type_tables.specs.Counts.{IsCounted};
ghost use Rattle.type_tables.specs.Marks.{IsMarked};
ghost use Rattle.type_faults.specs.Texts.{Enters, inner_from};
ghost use Rattle.type_faults.specs.Walks.{Walks, names_at};

use crate::stmts::Frame;
use crate::walk::{Found, Walk};
use rp_ast::{Decl, DeclForm, ExprNode, ProcNode, QueryNode, TypeNode};
use rp_value::{List, Memory};
use type_judges::{asks, bool_whole, judge_closes, judge_written};
use type_rules::{Kind, Role};
use type_tables::sooner;
use type_terms::brace_of;

impl<'n, 'a> Walk<'n, 'a> {
    /// What stands inside a query, with nothing in sight before.
    fn query(&mut self, query: &'a QueryNode) -> Found
        ensures { IsCounted self.old.later [] → self.old.vars ≡ []
            → IfOk result (λ fault. Walks [] self.old self.new fault
            (λ p. query_sites p.names p.decl p.words (tree.query_view query.now))
            (λ p. record p.sight { vars = queries.param_vars p.names (tree.params_view query.now.params) })) }
    {
        let params = self.params(Role::QueryParam, query.params.as_slice())?;
        let written = judge_written(self.names, self.decl, Role::QueryResult, &query.result)?;
        let kind = self.names.kind_of(&query.result)?;
        let body = self.expr(asks(21, kind), &query.body)?;
        Ok(sooner(params, sooner(written, body)))
    }

    /// What stands inside a query, in which words on calls may stand where no procedure uses it.
    fn used_query(&mut self, query: &'a QueryNode) -> Found
        ensures { (behind : List ℕ) → IsMarked self.old.used behind → IsCounted self.old.later [] → self.old.vars ≡ []
            → IfOk result (λ fault. Enters behind self.old.decl self.old self.new fault
            (DeclTree.query (tree.query_view query.now))) }
    {
        self.words = !self.used.has(self.decl as usize);
        self.query(query)
    }

    /// What stands inside an invariant.
    fn invariant(&mut self, truth: &'a ExprNode) -> Found
        ensures { (behind : List ℕ) (name : Option Ident) → IsMarked self.old.used behind → IsCounted self.old.later []
            → self.old.vars ≡ [] → IfOk result (λ fault. Enters behind self.old.decl self.old self.new fault
            (DeclTree.invariant name (tree.expr_view truth.now))) }
    {
        self.words = true;
        self.expr(bool_whole(), truth)
    }

    /// The type of a procedure's result.
    fn result_kind(&self, ty: &'a Option<TypeNode>) -> Result<Option<Kind>, Memory>
        ensures { IfOk result (λ kind. kind ≡ option_map (kind_of (names_at self.now)) (tree.optional tree.type_view ty.now)) }
    {
        match ty {
            Some(ty) => {
                let kind = self.names.kind_of(ty)?;
                Ok(Some(kind))
            }
            None => Ok(None),
        }
    }

    fn written_result(&self, ty: &'a Option<TypeNode>) -> Found
        ensures { IfOk result (λ fault. fault ≡ first (names_at self.now) (result_sites self.now.decl
            (tree.optional tree.type_view ty.now))) }
    {
        match ty {
            Some(ty) => judge_written(self.names, self.decl, Role::Variable, ty),
            None => Ok(None),
        }
    }

    /// The body of a procedure, and its closing brace.
    fn body(&mut self, proc: &'a ProcNode) -> Found
        ensures { IsCounted self.old.later [] → self.old.words ≡ false
            → IfOk result (λ fault. Walks [] self.old self.new fault
            (λ p. block_sites p.names (frame_for p.names p.decl (tree.optional tree.type_view proc.now.result)) p.sight
            (tree.block_view proc.now.body)
            ++ Site.closes (after_block p.names p.sight (tree.block_view proc.now.body)).live
            (is_there (tree.optional tree.type_view proc.now.result)) (brace_at (tree.block_view proc.now.body)) ∷ [])
            (λ p. after_block p.names p.sight (tree.block_view proc.now.body))) }
    {
        let frame = Frame {
            result: self.result_kind(&proc.result)?,
            inside_atomic: false,
        };
        let body = self.block(frame, &proc.body)?;
        let close = judge_closes(self.live, proc.result.is_some(), brace_of(&proc.body));
        Ok(sooner(body, close))
    }

    /// What stands inside a procedure, with nothing in sight before.
    fn parts(&mut self, proc: &'a ProcNode) -> Found
        ensures { IsCounted self.old.later [] → self.old.vars ≡ [] → self.old.live ≡ true → self.old.words ≡ false
            → IfOk result (λ fault. Walks [] self.old self.new fault
            (λ p. proc_sites p.names p.decl (tree.proc_view proc.now))
            (λ p. after_block p.names (sight_for p.names (tree.params_view proc.now.params)) (tree.block_view proc.now.body))) }
    {
        let params = self.params(Role::Variable, proc.params.as_slice())?;
        let written = self.written_result(&proc.result)?;
        let body = self.body(proc)?;
        Ok(sooner(params, sooner(written, body)))
    }

    fn procedure(&mut self, proc: &'a ProcNode) -> Found
        ensures { (behind : List ℕ) → IsMarked self.old.used behind → IsCounted self.old.later [] → self.old.vars ≡ []
            → IfOk result (λ fault. Enters behind self.old.decl self.old self.new fault
            (DeclTree.proc (tree.proc_view proc.now))) }
    {
        self.words = false;
        self.live = true;
        self.parts(proc)
    }

    /// What stands inside the declaration of this number. Those behind it were walked before.
    fn inner(&mut self, decl: u32, form: &'a DeclForm) -> Found
        ensures { (behind : List ℕ) → IsMarked self.old.used behind → IsCounted self.old.later []
            → IfOk result (λ fault. Enters behind decl self.old self.new fault (tree.decl_form_view form.now)) }
    {
        self.decl = decl;
        self.vars.truncate(0);
        match form {
            DeclForm::IdType(_) => Ok(None),
            DeclForm::Opaque(_) => Ok(None),
            DeclForm::Datatype(_, cons) => self.cons(cons.as_slice()),
            DeclForm::Crdt(_, crdt) => self.crdt(crdt),
            DeclForm::Query(query) => self.used_query(query),
            DeclForm::Invariant(_, truth) => self.invariant(truth),
            DeclForm::Proc(proc) => self.procedure(proc),
        }
    }

    /// What stands inside the declarations of a text, from the last to the first, so that which queries
    /// procedures use is known when a query is reached.
    pub(crate) fn decls(&mut self, decls: &'a List<Decl>) -> Found
        ensures { IsMarked self.old.used [] → IsCounted self.old.later []
            → IfOk result (λ fault. fault ≡ first (names_at self.old) (inner_from (names_at self.old) 0 (tree.decls_view decls.now))) }
    {
        let mut best = None;
        let count = decls.count();
        for behind in 0..count {
            let number = count - behind - 1;
            let decl = decls.get(number as usize);
            let own = self.inner(number, &decl.what)?;
            best = sooner(own, best);
        }
        Ok(best)
    }
}
