//! Statements as text, a line each.

use crate::out::Out;
use crate::piece::Piece;
use rp_lang::{Stmt, StmtArm, StmtKind};
use rp_value::Memory;

impl<'a> Out<'a> {
    /// A slot and what is put into it.
    fn put_into(&mut self, word: &'a [u8], slot: u32, what: Piece<'a>) -> Result<(), Memory> {
        self.next(&[Piece::Named(word, slot), Piece::Text(b" = "), what])
    }

    fn behind(&mut self, word: &'a [u8], what: Piece<'a>) -> Result<(), Memory> {
        self.next(&[Piece::Text(word), what])
    }

    fn head(&mut self, what: &'a StmtKind) -> Result<(), Memory> {
        match what {
            StmtKind::Put(slot, e) => self.put_into(b"put s", *slot, Piece::Expr(e)),
            StmtKind::Decide(slot, f) => self.put_into(b"decide s", *slot, Piece::Formula(f)),
            StmtKind::New(slot, ty) => self.next(&[
                Piece::Named(b"new s", *slot),
                Piece::Named(b" a", *ty),
            ]),
            StmtKind::Operate(op, args) => self.node(b"operate o", *op, args.as_slice()),
            StmtKind::If(f, _, _) => self.behind(b"if ", Piece::Formula(f)),
            StmtKind::Match(on, _) => self.behind(b"match ", Piece::Expr(on)),
            StmtKind::Atomic(_) => self.next(&[Piece::Text(b"atomic")]),
            StmtKind::Assert(f) => self.behind(b"assert ", Piece::Formula(f)),
            StmtKind::Return(None) => self.next(&[Piece::Text(b"return")]),
            StmtKind::Return(Some(e)) => self.behind(b"return ", Piece::Expr(e)),
        }
    }

    /// The first line of a statement.
    fn line(&mut self, depth: u32, stmt: &'a Stmt) -> Result<(), Memory> {
        self.indent(depth)?;
        self.next(&[Piece::At(stmt.at)])?;
        self.head(&stmt.what)?;
        self.finish()
    }

    fn else_line(&mut self, depth: u32) -> Result<(), Memory> {
        self.indent(depth)?;
        self.put(b"else\n")
    }

    fn arm_line(&mut self, depth: u32, con: u32, slots: &'a [u32]) -> Result<(), Memory> {
        self.indent(depth)?;
        self.next(&[
            Piece::Named(b"arm c", con),
            Piece::Numbers(b" s", slots),
            Piece::Text(b"\n"),
        ])?;
        self.finish()
    }

    #[cycle(stmts_out)]
    fn arm(&mut self, depth: u32, arm: &'a StmtArm) -> Result<(), Memory> {
        self.arm_line(depth, arm.con, arm.slots.as_slice())?;
        self.stmts(depth.saturating_add(1), arm.body.as_slice())
    }

    #[cycle(stmts_out)]
    fn stmt(&mut self, depth: u32, stmt: &'a Stmt) -> Result<(), Memory> {
        let inside = depth.saturating_add(1);
        self.line(depth, stmt)?;
        match &stmt.what {
            StmtKind::If(_, then_, else_) => {
                self.stmts(inside, then_.as_slice())?;
                if else_.is_empty() {
                    return Ok(());
                }
                self.else_line(depth)?;
                self.stmts(inside, else_.as_slice())
            }
            StmtKind::Match(_, arms) => {
                for arm in arms.as_slice() {
                    self.arm(inside, arm)?;
                }
                Ok(())
            }
            StmtKind::Atomic(body) => self.stmts(inside, body.as_slice()),
            _ => Ok(()),
        }
    }

    #[cycle(stmts_out)]
    pub fn stmts(&mut self, depth: u32, stmts: &'a [Stmt]) -> Result<(), Memory> {
        for stmt in stmts {
            self.stmt(depth, stmt)?;
        }
        Ok(())
    }
}
