//! The datatypes that statements and declarations bring.

ghost use Rattle.std.specs.Prelude.{◌≡◌, ◌++◌, [], IfOk, OnOk, Some};
ghost use Rattle.std.specs.Option.{option_map};
ghost use Rattle.rp_ast.specs.View as tree;
ghost use Rattle.type_rules.specs.Accesses.{find_var};
ghost use Rattle.type_rules.specs.Kinds.{kind_of};
ghost use Rattle.type_rules.specs.Queries.{param_vars};
ghost use Rattle.type_rules.specs.StmtSites.{result_kind, var_kind};
ghost use Rattle.desugaring.specs.Appearances.{parts};
ghost use Rattle.text_names.specs.Declarations.{names_view};
ghost use Rattle.text_kinds.specs.Numbered.{with_kinds};
ghost use Rattle.text_kinds.specs.Seen.{kinds_view};
ghost use Rattle.text_kinds.specs.means.Brought as means;
ghost use Rattle.text_kinds.specs.means.Walked.{seen};
ghost use Rattle.text_kinds.specs.means.Brought.{seeing, sought};

use crate::appearances::Seeker;
use rp_ast::{
    Block, BlockArm, DeclForm, ElseNode, ExprNode, Ident, Param, ProcNode, QueryNode, StmtForm,
    StmtNode, TypeNode,
};
use rp_value::Memory;
use type_rules::{Base, Kind};
use type_tables::{BOOL_KIND, UNKNOWN_KIND, plain_kind};
use type_terms::type_of;

impl<'n, 'a> Seeker<'n, 'a> {
    /// Adds what stands in a type that the text writes, and answers the type.
    fn written(&mut self, ty: &TypeNode) -> Result<Kind, Memory>
        ensures kind { IfOk result (λ kind. kind ≡ kind_of (names_view self.old.kinds.names.now) (tree.type_view ty.now)) }
        ensures sought { OnOk result (seen self.new ≡ sought (seen self.old) (parts (names_view self.old.kinds.names.now)
            (kind_of (names_view self.old.kinds.names.now) (tree.type_view ty.now)))) }
    {
        let kind = self.kinds.names().kind_of(ty)?;
        self.kinds.add(kind)?;
        Ok(kind)
    }

    /// A value, if there is one, that goes where this type is asked.
    fn value(&mut self, kind: Kind, value: &'a Option<ExprNode>) -> Result<(), Memory>
        ensures { OnOk result (seen self.new ≡ sought (seen self.old)
            (means.value_brings (names_view self.old.kinds.names.now) self.old.vars kind
            (tree.optional tree.expr_view value.now))) }
    {
        match value {
            Some(value) => self.expr(Some(kind), value),
            None => Ok(()),
        }
    }

    /// A variable's declaration.
    fn variable(
        &mut self,
        name: &'a Ident,
        ty: &'a TypeNode,
        value: &'a Option<ExprNode>,
    ) -> Result<(), Memory>
        ensures { OnOk result (seen self.new ≡ seeing (sought (seen self.old) (parts (names_view self.old.kinds.names.now)
            (kind_of (names_view self.old.kinds.names.now) (tree.type_view ty.now))
            ++ means.value_brings (names_view self.old.kinds.names.now)
            (means.with_variable (names_view self.old.kinds.names.now) self.old.vars (tree.ident_view name.now)
            (tree.type_view ty.now))
            (kind_of (names_view self.old.kinds.names.now) (tree.type_view ty.now)) (tree.optional tree.expr_view value.now)))
            (means.with_variable (names_view self.old.kinds.names.now) self.old.vars (tree.ident_view name.now)
            (tree.type_view ty.now))) }
    {
        let kind = self.written(ty)?;
        self.bind(name, kind)?;
        self.value(kind, value)
    }

    fn assigned(&mut self, name: &'a Ident, value: &'a ExprNode) -> Result<(), Memory>
        ensures { OnOk result (seen self.new ≡ sought (seen self.old)
            (means.expr_brings (names_view self.old.kinds.names.now) self.old.vars
            (Some (var_kind (find_var self.old.vars name.now.text))) (tree.expr_view value.now))) }
    {
        let kind = match self.vars.find(name.text.as_slice()) {
            Some(var) => var.kind,
            None => UNKNOWN_KIND,
        };
        self.expr(Some(kind), value)
    }

    /// Adds what a statement brings, in a procedure with this result.
    #[cycle(stmts)]
    fn stmt(&mut self, kind: Kind, stmt: &'a StmtNode) -> Result<(), Memory>
        ensures { OnOk result (seen self.new ≡ seeing (sought (seen self.old)
            (means.stmt_brings (names_view self.old.kinds.names.now) self.old.vars
            kind (tree.stmt_view stmt.now))) (means.vars_behind (names_view self.old.kinds.names.now) self.old.vars
            (tree.stmt_view stmt.now))) }
    {
        match &stmt.what {
            StmtForm::Var(name, ty, value) => self.variable(name, ty, value),
            StmtForm::New(_, _) => Ok(()),
            StmtForm::Assign(name, value) => self.assigned(name, value),
            StmtForm::Access(access) => self.access(access),
            StmtForm::If(condition, body, otherwise) => {
                self.expr(Some(BOOL_KIND), condition)?;
                self.block(kind, body)?;
                match otherwise {
                    Some(otherwise) => self.otherwise(kind, otherwise),
                    None => Ok(()),
                }
            }
            StmtForm::Match(term, arms) => {
                let own = type_of(self.kinds.names(), &self.vars, None, term)?;
                self.expr(None, term)?;
                self.block_arms(kind, own, arms.as_slice())
            }
            StmtForm::Atomic(body) => self.block(kind, body),
            StmtForm::Assert(condition) => self.expr(Some(BOOL_KIND), condition),
            StmtForm::Return(value) => self.value(kind, value),
        }
    }

    #[cycle(stmts)]
    fn otherwise(&mut self, kind: Kind, otherwise: &'a ElseNode) -> Result<(), Memory>
        ensures { OnOk result (seen self.new ≡ sought (seen self.old)
            (means.else_brings (names_view self.old.kinds.names.now) self.old.vars kind
            (tree.else_view otherwise.now))) }
    {
        match otherwise {
            ElseNode::Block(block) => self.block(kind, block),
            ElseNode::If(stmt) => {
                let len = self.vars.len();
                self.stmt(kind, stmt.get())?;
                self.leave(len);
                Ok(())
            }
        }
    }

    /// The variables that a block declares go out of sight behind it.
    #[cycle(stmts)]
    fn block(&mut self, kind: Kind, block: &'a Block) -> Result<(), Memory>
        ensures { OnOk result (seen self.new ≡ sought (seen self.old)
            (means.block_brings (names_view self.old.kinds.names.now) self.old.vars kind
            (tree.block_view block.now))) }
    {
        let len = self.vars.len();
        self.stmts(kind, block.stmts.as_slice())?;
        self.leave(len);
        Ok(())
    }

    #[cycle(stmts)]
    fn stmts(&mut self, kind: Kind, stmts: &'a [StmtNode]) -> Result<(), Memory>
        ensures { OnOk result (seen self.new ≡ seeing (sought (seen self.old)
            (means.stmts_bring (names_view self.old.kinds.names.now) self.old.vars
            kind (tree.stmts_view stmts.now))) (means.stmts_behind (names_view self.old.kinds.names.now) self.old.vars
            (tree.stmts_view stmts.now))) }
    {
        for stmt in stmts {
            self.stmt(kind, stmt)?;
        }
        Ok(())
    }

    /// The arms for a term of this own type.
    #[cycle(stmts)]
    fn block_arms(&mut self, kind: Kind, own: Kind, arms: &'a [BlockArm]) -> Result<(), Memory>
        ensures { OnOk result (seen self.new ≡ sought (seen self.old)
            (means.block_arms_bring (names_view self.old.kinds.names.now) self.old.vars kind
            own (tree.block_arms_view arms.now))) }
    {
        for arm in arms {
            self.block_arm(kind, own, arm)?;
        }
        Ok(())
    }

    #[cycle(stmts)]
    fn block_arm(&mut self, kind: Kind, own: Kind, arm: &'a BlockArm) -> Result<(), Memory>
        ensures { OnOk result (seen self.new ≡ sought (seen self.old)
            (means.block_arm_brings (names_view self.old.kinds.names.now) self.old.vars kind
            own (tree.block_arm_view arm.now))) }
    {
        let len = self.vars.len();
        self.bind_all(own, &arm.pattern)?;
        self.block(kind, &arm.body)?;
        self.leave(len);
        Ok(())
    }

    /// Parameters come in sight, with what their types bring.
    pub(crate) fn params(&mut self, params: &'a [Param]) -> Result<(), Memory>
        ensures { self.old.vars ≡ [] → OnOk result (seen self.new ≡ seeing (sought (seen self.old)
            (means.params_bring (names_view self.old.kinds.names.now) (tree.params_view params.now)))
            (param_vars (names_view self.old.kinds.names.now) (tree.params_view params.now))) }
    {
        for param in params {
            let kind = self.written(&param.ty)?;
            self.bind(&param.name, kind)?;
        }
        Ok(())
    }

    pub(crate) fn query(&mut self, query: &'a QueryNode) -> Result<(), Memory>
        ensures { self.old.vars ≡ [] → OnOk result (kinds_view self.new.kinds
            ≡ with_kinds (means.query_brings (names_view self.old.kinds.names.now) (tree.query_view query.now))
            (kinds_view self.old.kinds)) }
    {
        self.params(query.params.as_slice())?;
        let kind = self.written(&query.result)?;
        self.expr(Some(kind), &query.body)
    }

    /// The type of a procedure's result; where it has none, an unknown one.
    fn result(&mut self, ty: &'a Option<TypeNode>) -> Result<Kind, Memory>
        ensures kind { IfOk result (λ kind. kind ≡ result_kind (option_map (kind_of (names_view self.old.kinds.names.now))
            (tree.optional tree.type_view ty.now))) }
        ensures sought { OnOk result (seen self.new ≡ sought (seen self.old)
            (means.result_brings (names_view self.old.kinds.names.now)
            (tree.optional tree.type_view ty.now))) }
    {
        match ty {
            Some(ty) => self.written(ty),
            None => Ok(UNKNOWN_KIND),
        }
    }

    pub(crate) fn proc(&mut self, proc: &'a ProcNode) -> Result<(), Memory>
        ensures { self.old.vars ≡ [] → OnOk result (kinds_view self.new.kinds
            ≡ with_kinds (means.proc_brings (names_view self.old.kinds.names.now) (tree.proc_view proc.now))
            (kinds_view self.old.kinds)) }
    {
        self.params(proc.params.as_slice())?;
        let kind = self.result(&proc.result)?;
        self.block(kind, &proc.body)
    }

    /// Adds what a declaration brings, before which so many types are declared.
    pub(crate) fn decl(&mut self, types: u32, decl: &'a DeclForm) -> Result<(), Memory>
        ensures { self.old.vars ≡ [] → OnOk result (kinds_view self.new.kinds
            ≡ with_kinds (means.decl_brings (names_view self.old.kinds.names.now) types (tree.decl_form_view decl.now))
            (kinds_view self.old.kinds)) }
    {
        match decl {
            DeclForm::IdType(_) => Ok(()),
            DeclForm::Opaque(_) => Ok(()),
            DeclForm::Datatype(_, _) => self.kinds.add(plain_kind(Base::Declared(types))),
            DeclForm::Crdt(_, crdt) => self.kinds.add_crdt(crdt),
            DeclForm::Query(query) => self.query(query),
            DeclForm::Invariant(_, e) => self.expr(Some(BOOL_KIND), e),
            DeclForm::Proc(proc) => self.proc(proc),
        }
    }
}
