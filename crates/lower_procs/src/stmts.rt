//! What statements without blocks become.

ghost use Rattle.std.specs.Prelude.{◌≡◌, ◌∷◌, [], IfOk, IsErrOf, OnOk, Some, length, reverse};
ghost use Rattle.rp_grammar.specs.Trees.{StmtForm as FormTree, StmtTree};
ghost use Rattle.rp_ast.specs.View as tree;
ghost use Rattle.rp_lang.specs.Exprs.{also_ex, no_ex};
ghost use Rattle.rp_lang.specs.Views.{expr_view, exprs_view, stmts_view};
ghost use Rattle.type_rules.specs.Names.{text_of};
ghost use Rattle.desugaring.specs.Statements as spec;
ghost use Rattle.query_bodies.specs.Terms as te;
ghost use Rattle.query_bodies.specs.Terms.{also_te, no_te, said_term};
ghost use Rattle.query_bodies.specs.Views.{body_view, term_view, terms_view};
ghost use Rattle.lower_exprs.specs.Making.{value_view};
ghost use Rattle.lower_exprs.specs.declared.stop.Stop.TheVariants as stop;
ghost use Rattle.lower_procs.specs.Writing.{ArePast, HaveSlots, IsPast, MakesTerms, NotesValue, SomeIsPast, Turns, Writes, assignment_in, behind, claim_in, generation_in, sight_in, stmt_in};

use crate::pieces::{assigned, is_apart, is_plain, put, put_return};
use crate::writer::{Frame, Writer};
use lower_exprs::{Made, Maker, Stop, Value, as_formula, as_term};
use query_bodies::{Body, Term};
use rp_ast::{AccessNode, ExprNode, Ident, TypeNode};
use rp_lang::{Expr, Stmt, StmtKind};
use rp_span::Span;
use rp_value::{Boxed, List, Memory, Ty};
use std::alloc::Global;
use type_rules::{Base, Kind};
use type_tables::plain_kind;

/// What an expression becomes as a formula.
pub(crate) fn claimed<'a>(maker: &mut Maker<'_, '_, 'a>, e: &'a ExprNode) -> Result<Made, Stop>
    ensures made { IfOk result (λ made. Turns maker.old (claim_in maker.old (tree.expr_view e.now)) made) }
    ensures notes { OnOk result (NotesValue maker.old (claim_in maker.old (tree.expr_view e.now)) maker.new) }
    ensures nodes { IsErrOf result stop.Nodes → IsPast maker.old (claim_in maker.old (tree.expr_view e.now)) }
{
    let claim = maker.reader.claim(e)?;
    let body = Body::Claim(claim);
    maker.made(&body)
}

/// An operation with its arguments.
#[derive(Drop)]
struct Applied {
    op: u32,
    args: List<Term>,
}

/// What is an operation. `Err` is that it is none.
fn operation(body: Body) -> Result<Applied, Memory>
    ensures { IfOk result (λ made. body_view body ≡ said_term (te.OpTerm made.op (terms_view made.args))) }
{
    match body {
        Body::Term(term) => match term.into_inner() {
            Term::OpTerm(op, args) => Ok(Applied { op, args }),
            _ => Err(Memory),
        },
        Body::Claim(_) => Err(Memory),
    }
}

/// From the last to the first.
fn turned<T: Drop>(alloc: Global, items: List<T>) -> Result<List<T>, Memory>
    ensures { IfOk result (λ made. made ≡ reverse items) }
{
    let mut items = items;
    let mut made = List::new(alloc);
    while let Some(item) = items.pop() {
        made.push(item)?;
    }
    Ok(made)
}

/// A term by itself.
fn made_arg(maker: &mut Maker, arg: Term) -> Result<Expr, Stop>
    ensures made { IfOk result (λ made. MakesTerms maker.old (also_te (term_view arg) no_te) maker.new
        (also_ex (expr_view made) no_ex)) }
    ensures nodes { IsErrOf result stop.Nodes → SomeIsPast maker.old (also_te (term_view arg) no_te) }
{
    let boxed = Boxed::new(maker.work.alloc, arg)?;
    let body = Body::Term(boxed);
    let made = maker.made(&body)?;
    let e = as_term(made.value)?;
    Ok(e)
}

/// Each argument of an operation is an expression of its own.
fn made_args(maker: &mut Maker, args: List<Term>) -> Result<List<Expr>, Stop>
    ensures made { IfOk result (λ made. MakesTerms maker.old (terms_view args) maker.new (exprs_view made)) }
    ensures nodes { IsErrOf result stop.Nodes → SomeIsPast maker.old (terms_view args) }
{
    let alloc = maker.work.alloc;
    let mut turned = turned(alloc, args)?;
    let mut made = List::new(alloc);
    while let Some(arg) = turned.pop() {
        let e = made_arg(maker, arg)?;
        made.push(e)?;
    }
    Ok(made)
}

impl<'t, 'n, 'a> Writer<'t, 'n, 'a> {
    /// Puts a value into a hidden slot of this type, where it stands apart in a block of its own.
    pub(crate) fn hide(
        &mut self,
        apart: bool,
        at: Span,
        kind: Kind,
        value: Value,
        out: &mut List<Stmt>,
    ) -> Result<u32, Memory>
        ensures number { IfOk result (λ slot. slot ≡ length self.old.slots) }
        ensures put { OnOk result (stmts_view out.new ≡ spec.append (stmts_view out.old)
            (spec.one_st (spec.set_apart apart at (spec.assigned at (length self.old.slots)
            (value_view value))))) }
        ensures slots { OnOk result (HaveSlots self.old (kind ∷ []) self.new) }
        ensures maker { OnOk result (self.new.maker ≡ self.old.maker) }
    {
        let slot = self.slots.count();
        put(self.maker.work.alloc, apart, at, assigned(slot, value), out)?;
        self.slot(kind)
    }

    /// `x = e`.
    pub(crate) fn assign(
        &mut self,
        frame: Frame,
        at: Span,
        name: &Ident,
        value: &'a ExprNode,
        out: &mut List<Stmt>,
    ) -> Result<(), Stop>
        ensures writes { OnOk result (Writes self.old
            (assignment_in self.old frame at (tree.ident_view name.now) (tree.expr_view value.now))
            self.old.maker.reader (stmts_view out.old) self.new (stmts_view out.new)) }
        ensures nodes { IsErrOf result stop.Nodes → ArePast self.old
            (assignment_in self.old frame at (tree.ident_view name.now) (tree.expr_view value.now)) }
    {
        let slot = self.slot_of(name)?;
        let kind = self.kind_of(name)?;
        let made = self.maker.value(Some(kind), value)?;
        let apart = is_apart(frame, &made);
        let what = assigned(slot, made.value);
        put(self.maker.work.alloc, apart, at, what, out)?;
        Ok(())
    }

    /// A variable, and its value if it has one.
    pub(crate) fn var(
        &mut self,
        frame: Frame,
        at: Span,
        name: &'a Ident,
        ty: &TypeNode,
        value: &'a Option<ExprNode>,
        out: &mut List<Stmt>,
    ) -> Result<(), Stop>
        ensures writes { OnOk result (Writes self.old (stmt_in self.old frame (StmtTree.node at
            (FormTree.var (tree.ident_view name.now) (tree.type_view ty.now) (tree.optional tree.expr_view value.now))))
            (behind (length self.old.slots) self.old.maker.reader (StmtTree.node at
            (FormTree.var (tree.ident_view name.now) (tree.type_view ty.now) (tree.optional tree.expr_view value.now))))
            (stmts_view out.old) self.new (stmts_view out.new)) }
        ensures nodes { IsErrOf result stop.Nodes → ArePast self.old (stmt_in self.old frame (StmtTree.node at
            (FormTree.var (tree.ident_view name.now) (tree.type_view ty.now) (tree.optional tree.expr_view value.now)))) }
    {
        let kind = self.maker.reader.names().kind_of(ty)?;
        let _slot = self.declare(name, kind)?;
        match value {
            Some(value) => self.assign(frame, at, name, value, out),
            None => Ok(()),
        }
    }

    /// The number of an id type.
    fn id_number(&self, id: &Ident) -> Result<u32, Memory>
        ensures { IfOk result (λ number. spec.id_named (sight_in self.now).tables (text_of (tree.ident_view id.now))
            ≡ Some number) }
    {
        let tables = self.maker.reader.tables;
        let Some(number) = tables.names().type_number(id.text.as_slice()) else {
            return Err(Memory);
        };
        let kind = plain_kind(Base::Declared(number));
        match tables.ty_of(kind)? {
            Ty::Atom(atom) => Ok(atom),
            _ => Err(Memory),
        }
    }

    /// A new id for a variable.
    pub(crate) fn generate(
        &self,
        at: Span,
        name: &Ident,
        id: &Ident,
        out: &mut List<Stmt>,
    ) -> Result<(), Memory>
        ensures { OnOk result (Writes self.now
            (generation_in self.now at (tree.ident_view name.now) (tree.ident_view id.now))
            self.now.maker.reader (stmts_view out.old) self.now (stmts_view out.new)) }
    {
        let slot = self.slot_of(name)?;
        let number = self.id_number(id)?;
        let what = StmtKind::New(slot, number);
        out.push(Stmt { at, what })
    }

    /// An operation, which outside `atomic` is an atomic block of its own.
    pub(crate) fn operate(
        &mut self,
        frame: Frame,
        at: Span,
        access: &'a AccessNode,
        out: &mut List<Stmt>,
    ) -> Result<(), Stop>
        ensures writes { OnOk result (Writes self.old
            (stmt_in self.old frame (StmtTree.node at (FormTree.access (tree.access_view access.now))))
            self.old.maker.reader (stmts_view out.old) self.new (stmts_view out.new)) }
        ensures nodes { IsErrOf result stop.Nodes → ArePast self.old
            (stmt_in self.old frame (StmtTree.node at (FormTree.access (tree.access_view access.now)))) }
    {
        let said = self.maker.reader.access(access)?;
        let applied = operation(said)?;
        let op = applied.op;
        let terms = made_args(&mut self.maker, applied.args)?;
        let what = StmtKind::Operate(op, terms);
        let apart = !frame.inside_atomic;
        put(self.maker.work.alloc, apart, at, what, out)?;
        Ok(())
    }

    /// An assertion.
    pub(crate) fn assert(
        &mut self,
        frame: Frame,
        at: Span,
        condition: &'a ExprNode,
        out: &mut List<Stmt>,
    ) -> Result<(), Stop>
        ensures writes { OnOk result (Writes self.old
            (stmt_in self.old frame (StmtTree.node at (FormTree.assert (tree.expr_view condition.now))))
            self.old.maker.reader (stmts_view out.old) self.new (stmts_view out.new)) }
        ensures nodes { IsErrOf result stop.Nodes → ArePast self.old
            (stmt_in self.old frame (StmtTree.node at (FormTree.assert (tree.expr_view condition.now)))) }
    {
        let made = claimed(&mut self.maker, condition)?;
        let apart = is_apart(frame, &made);
        let what = StmtKind::Assert(as_formula(made.value));
        put(self.maker.work.alloc, apart, at, what, out)?;
        Ok(())
    }

    /// A `return` with a value. What reads the store, and what is no plain term, goes through a hidden slot.
    fn leave_with(
        &mut self,
        frame: Frame,
        at: Span,
        value: &'a ExprNode,
        out: &mut List<Stmt>,
    ) -> Result<(), Stop>
        ensures writes { OnOk result (Writes self.old
            (stmt_in self.old frame (StmtTree.node at (FormTree.return (Some (tree.expr_view value.now)))))
            self.old.maker.reader (stmts_view out.old) self.new (stmts_view out.new)) }
        ensures nodes { IsErrOf result stop.Nodes → ArePast self.old
            (stmt_in self.old frame (StmtTree.node at (FormTree.return (Some (tree.expr_view value.now))))) }
    {
        let Some(kind) = frame.result else {
            return Err(Stop::Memory);
        };
        let made = self.maker.value(Some(kind), value)?;
        if is_plain(&made) {
            let e = as_term(made.value)?;
            put_return(at, e, out)?;
            Ok(())
        } else {
            let slot = self.hide(made.reads, at, kind, made.value, out)?;
            put_return(at, Expr::Slot(slot), out)?;
            Ok(())
        }
    }

    /// A `return`.
    pub(crate) fn leave(
        &mut self,
        frame: Frame,
        at: Span,
        value: &'a Option<ExprNode>,
        out: &mut List<Stmt>,
    ) -> Result<(), Stop>
        ensures writes { OnOk result (Writes self.old
            (stmt_in self.old frame (StmtTree.node at (FormTree.return (tree.optional tree.expr_view value.now))))
            self.old.maker.reader (stmts_view out.old) self.new (stmts_view out.new)) }
        ensures nodes { IsErrOf result stop.Nodes → ArePast self.old
            (stmt_in self.old frame (StmtTree.node at (FormTree.return (tree.optional tree.expr_view value.now)))) }
    {
        match value {
            Some(value) => self.leave_with(frame, at, value, out),
            None => {
                let what = StmtKind::Return(None);
                out.push(Stmt { at, what })?;
                Ok(())
            }
        }
    }
}
