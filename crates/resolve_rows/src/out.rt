//! Text that is put together from a list of what is still to be put, so nothing here calls itself.

use crate::piece::Piece;
use rp_span::Span;
use rp_value::{Memory, Ty};
use std::alloc::Global;

/// The text so far, and what is still to be put, the next one last.
#[derive(Drop)]
pub struct Out<'a> {
    alloc: Global,
    bytes: Vec<u8>,
    waiting: Vec<Piece<'a>>,
}

impl<'a> Out<'a> {
    pub fn new(alloc: Global) -> Out<'a> {
        Out {
            alloc,
            bytes: Vec::new(alloc),
            waiting: Vec::new(alloc),
        }
    }

    pub fn into_bytes(self) -> Vec<u8> {
        self.bytes
    }

    pub fn put(&mut self, bytes: &[u8]) -> Result<(), Memory> {
        self.bytes.extend_from_slice(bytes)?;
        Ok(())
    }

    /// These pieces come before all that waits.
    pub fn next(&mut self, pieces: &[Piece<'a>]) -> Result<(), Memory> {
        let count = pieces.len();
        for behind in 0..count {
            self.waiting.push(pieces[count - 1 - behind])?;
        }
        Ok(())
    }

    /// Puts all that waits.
    pub fn finish(&mut self) -> Result<(), Memory> {
        for _ in 0..u64::MAX {
            let Some(piece) = self.waiting.pop() else {
                return Ok(());
            };
            self.step(piece)?;
        }
        Ok(())
    }

    /// Puts the piece, or has its parts come next.
    fn step(&mut self, piece: Piece<'a>) -> Result<(), Memory> {
        match piece {
            Piece::Text(bytes) => self.put(bytes),
            Piece::Number(number) => self.number(number),
            Piece::Named(word, number) => self.named(word, number),
            Piece::Numbers(word, numbers) => self.numbers(word, numbers),
            Piece::Ty(ty) => self.ty(ty),
            Piece::Tys(tys) => self.tys(tys),
            Piece::Returned(ty) => self.returned(ty),
            Piece::At(at) => self.at(at),
            Piece::Expr(e) => self.expr(e),
            Piece::Args(args) => self.args(args),
            Piece::MoreExprs(exprs) => self.more_exprs(exprs),
            Piece::Formula(f) => self.formula(f),
            Piece::MoreFormulas(formulas) => self.more_formulas(formulas),
            Piece::Arms(arms) => self.arms(arms),
            Piece::Crdt(crdt) => self.crdt(crdt),
            Piece::MoreFields(fields) => self.more_fields(fields),
            Piece::Path(path) => self.path(path),
            Piece::Atoms(n, atoms) => self.atoms(n, atoms),
            Piece::Datatypes(n, datatypes) => self.datatypes(n, datatypes),
            Piece::Cons(n, cons) => self.cons(n, cons),
            Piece::Roots(n, roots) => self.roots(n, roots),
            Piece::Ops(n, ops) => self.ops(n, ops),
            Piece::Queries(n, queries) => self.queries(n, queries),
        }
    }

    fn number(&mut self, number: i128) -> Result<(), Memory> {
        let text = format!(in self.alloc; "{number}")?;
        self.put(text.as_bytes())
    }

    pub fn named(&mut self, word: &[u8], number: u32) -> Result<(), Memory> {
        self.put(word)?;
        self.number(number as i128)
    }

    fn numbers(&mut self, word: &'a [u8], numbers: &'a [u32]) -> Result<(), Memory> {
        match numbers.split_first() {
            Some((first, rest)) => self.next(&[
                Piece::Named(word, *first),
                Piece::Numbers(word, rest),
            ]),
            None => Ok(()),
        }
    }

    fn ty(&mut self, ty: Ty) -> Result<(), Memory> {
        match ty {
            Ty::Int => self.put(b"Int"),
            Ty::Str => self.put(b"String"),
            Ty::Atom(n) => self.named(b"a", n),
            Ty::Datatype(n) => self.named(b"d", n),
            Ty::Call => self.put(b"call"),
            Ty::Inv => self.put(b"invocation"),
            Ty::Operation => self.put(b"operation"),
            Ty::Info => self.put(b"info"),
            Ty::Outcome => self.put(b"outcome"),
        }
    }

    fn tys(&mut self, tys: &'a [Ty]) -> Result<(), Memory> {
        match tys.split_first() {
            Some((first, rest)) => self.next(&[
                Piece::Text(b" "),
                Piece::Ty(*first),
                Piece::Tys(rest),
            ]),
            None => Ok(()),
        }
    }

    fn returned(&mut self, ty: Option<Ty>) -> Result<(), Memory> {
        match ty {
            Some(ty) => self.next(&[Piece::Text(b" -> "), Piece::Ty(ty)]),
            None => Ok(()),
        }
    }

    fn at(&mut self, at: Span) -> Result<(), Memory> {
        self.next(&[
            Piece::Named(b" @", at.from),
            Piece::Named(b"..", at.to),
            Piece::Text(b"\n"),
        ])
    }

    /// So many pairs of blanks.
    pub fn indent(&mut self, depth: u32) -> Result<(), Memory> {
        for _level in 0..depth {
            self.put(b"  ")?;
        }
        Ok(())
    }
}
