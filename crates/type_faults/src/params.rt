//! The first faults of parameters, fields and types.

ghost use Rattle.std.specs.Prelude.{◌≡◌, ◌∷◌, ◌++◌, [], IfOk, List, map};
ghost use Rattle.rp_ast.specs.View as tree;
ghost use Rattle.type_rules.specs.Names.{Name, param_name};
ghost use Rattle.type_rules.specs.Sites.{Site};
ghost use Rattle.type_rules.specs.Queries as queries;
ghost use Rattle.type_rules.specs.DeclSites.{con_sites, crdt_sites, declares_all, fields_sites, param_sites, written_all};
ghost use Rattle.type_rules.specs.Faults.{first};
ghost use Rattle.type_tables.specs.Counts.{IsCounted};
ghost use Rattle.type_faults.specs.Walks.{Walks, names_at};

use crate::names::{fields_differ, params_differ};
use crate::walk::{Found, Walk};
use rp_ast::{ConNode, CrdtForm, CrdtNode, FieldNode, Param};
use type_judges::{judge_declares, judge_written};
use type_rules::Role;
use type_tables::sooner;
use type_terms::param_var;

impl<'n, 'a> Walk<'n, 'a> {
    fn written(&self, role: Role, params: &'a [Param]) -> Found
        ensures { IfOk result (λ fault. fault ≡ first (names_at self.now) (written_all self.now.decl role
            (tree.params_view params.now))) }
    {
        let mut best = None;
        for param in params {
            best = sooner(best, judge_written(self.names, self.decl, role, &param.ty)?);
        }
        Ok(best)
    }

    /// A parameter comes in sight as a variable.
    fn bring_param(&mut self, param: &'a Param) -> Found
        ensures { (later : List Name) → IsCounted self.old.later later
            → IfOk result (λ fault. Walks later self.old self.new fault
            (λ p. Site.declares p.sight.vars (param_name (tree.param_view param.now)) ∷ [])
            (λ p. record p.sight { vars = p.sight.vars ++ queries.param_var p.names (tree.param_view param.now) ∷ [] })) }
    {
        let fault = judge_declares(self.names, &self.vars, &param.name);
        let var = param_var(self.names, param)?;
        self.bring(var)?;
        Ok(fault)
    }

    /// Parameters come in sight as variables.
    fn bring_all(&mut self, params: &'a [Param]) -> Found
        ensures { (later : List Name) → IsCounted self.old.later later
            → IfOk result (λ fault. Walks later self.old self.new fault
            (λ p. declares_all p.names p.sight.vars (tree.params_view params.now))
            (λ p. record p.sight { vars = p.sight.vars ++ queries.param_vars p.names (tree.params_view params.now) })) }
    {
        let mut best = None;
        for param in params {
            best = sooner(best, self.bring_param(param)?);
        }
        Ok(best)
    }

    /// The parameters of a query or a procedure, which come in sight, where nothing is.
    pub(crate) fn params(&mut self, role: Role, params: &'a [Param]) -> Found
        ensures { (later : List Name) → IsCounted self.old.later later → self.old.vars ≡ []
            → IfOk result (λ fault. Walks later self.old self.new fault
            (λ p. param_sites p.names p.decl role (tree.params_view params.now))
            (λ p. record p.sight { vars = queries.param_vars p.names (tree.params_view params.now) })) }
    {
        let named = params_differ(self.alloc, params)?;
        let declared = self.bring_all(params)?;
        let written = self.written(role, params)?;
        Ok(sooner(named, sooner(declared, written)))
    }

    /// The fields of constructors.
    pub(crate) fn cons(&self, cons: &'a [ConNode]) -> Found
        ensures { IfOk result (λ fault. fault ≡ first (names_at self.now) (con_sites self.now.decl (map tree.con_view cons.now))) }
    {
        let mut best = None;
        for con in cons {
            best = sooner(best, self.con(con)?);
        }
        Ok(best)
    }

    fn con(&self, con: &'a ConNode) -> Found
        ensures { IfOk result (λ fault. fault ≡ first (names_at self.now) (con_sites self.now.decl (tree.con_view con.now ∷ []))) }
    {
        let fields = con.fields.as_slice();
        let named = params_differ(self.alloc, fields)?;
        let written = self.written(Role::Field, fields)?;
        Ok(sooner(named, written))
    }

    /// A replicated type.
    #[cycle(crdts)]
    pub(crate) fn crdt(&self, crdt: &'a CrdtNode) -> Found
        ensures { IfOk result (λ fault. fault ≡ first (names_at self.now) (crdt_sites self.now.decl (tree.crdt_view crdt.now))) }
    {
        match &crdt.what {
            CrdtForm::SetAw(ty) => judge_written(self.names, self.decl, Role::Field, ty),
            CrdtForm::SetRw(ty) => judge_written(self.names, self.decl, Role::Field, ty),
            CrdtForm::Reg(ty) => judge_written(self.names, self.decl, Role::Field, ty),
            CrdtForm::MvReg(ty) => judge_written(self.names, self.decl, Role::Field, ty),
            CrdtForm::Counter => Ok(None),
            CrdtForm::MapUw(keys, held) => {
                let here = judge_written(self.names, self.decl, Role::Field, keys)?;
                let below = self.crdt(held.get())?;
                Ok(sooner(here, below))
            }
            CrdtForm::MapDw(keys, held) => {
                let here = judge_written(self.names, self.decl, Role::Field, keys)?;
                let below = self.crdt(held.get())?;
                Ok(sooner(here, below))
            }
            CrdtForm::Struct(fields) => {
                let named = fields_differ(self.alloc, fields.as_slice())?;
                let below = self.fields(fields.as_slice())?;
                Ok(sooner(named, below))
            }
        }
    }

    #[cycle(crdts)]
    fn fields(&self, fields: &'a [FieldNode]) -> Found
        ensures { IfOk result (λ fault. fault ≡ first (names_at self.now) (fields_sites self.now.decl (tree.fields_view fields.now))) }
    {
        let mut best = None;
        for field in fields {
            best = sooner(best, self.crdt(&field.crdt)?);
        }
        Ok(best)
    }
}
