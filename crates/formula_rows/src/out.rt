//! Text that is put together from a list of what is still to be put, so nothing here calls itself.

use crate::piece::Piece;
use rp_lang::Program;
use rp_value::Memory;
use std::alloc::Global;

/// The text so far, and what is still to be put, the next one last.
#[derive(Drop)]
pub struct Out<'a> {
    alloc: Global,
    pub program: &'a Program,
    bytes: Vec<u8>,
    waiting: Vec<Piece<'a>>,
}

impl<'a> Out<'a> {
    pub fn new(alloc: Global, program: &'a Program) -> Out<'a> {
        Out {
            alloc,
            program,
            bytes: Vec::new(alloc),
            waiting: Vec::new(alloc),
        }
    }

    pub fn into_bytes(self) -> Vec<u8> {
        self.bytes
    }

    pub fn put(&mut self, bytes: &[u8]) -> Result<(), Memory> {
        self.bytes.extend_from_slice(bytes)?;
        Ok(())
    }

    pub fn number(&mut self, number: i128) -> Result<(), Memory> {
        let text = format!(in self.alloc; "{number}")?;
        self.put(text.as_bytes())
    }

    pub fn named(&mut self, word: &[u8], number: u32) -> Result<(), Memory> {
        self.put(word)?;
        self.number(number as i128)
    }

    /// These pieces come before all that waits.
    pub fn next(&mut self, pieces: &[Piece<'a>]) -> Result<(), Memory> {
        let count = pieces.len();
        for behind in 0..count {
            self.waiting.push(pieces[count - 1 - behind])?;
        }
        Ok(())
    }

    /// Puts a line of these pieces.
    pub fn line(&mut self, pieces: &[Piece<'a>]) -> Result<(), Memory> {
        self.next(pieces)?;
        for _ in 0..u64::MAX {
            let Some(piece) = self.waiting.pop() else {
                break;
            };
            self.step(piece)?;
        }
        self.put(b"\n")
    }

    /// Puts the piece, or has its parts come next.
    fn step(&mut self, piece: Piece<'a>) -> Result<(), Memory> {
        match piece {
            Piece::Text(bytes) => self.put(bytes),
            Piece::Number(number) => self.number(number),
            Piece::Variable(n) => self.named(b"x", n),
            Piece::Sort(n) => self.sort(n),
            Piece::Sorts(word, sorts) => self.sorts(word, sorts),
            Piece::Con(n) => self.con(n),
            Piece::Cons(word, cons) => self.cons(word, cons),
            Piece::Fun(n) => self.fun(n),
            Piece::Rel(n) => self.rel(n),
            Piece::Path(path) => self.path(path),
            Piece::Term(t, bound) => self.term(t, bound),
            Piece::Terms(word, terms, bound) => self.terms(word, terms, bound),
            Piece::Atom(atom, bound) => self.atom(atom, bound),
            Piece::Formula(f, bound) => self.formula(f, bound),
            Piece::Formulas(word, formulas, bound) => self.formulas(word, formulas, bound),
        }
    }

    fn sorts(&mut self, word: &'a [u8], sorts: &'a [u32]) -> Result<(), Memory> {
        match sorts.split_first() {
            Some((first, rest)) => self.next(&[
                Piece::Text(word),
                Piece::Sort(*first),
                Piece::Sorts(word, rest),
            ]),
            None => Ok(()),
        }
    }

    fn cons(&mut self, word: &'a [u8], cons: &'a [u32]) -> Result<(), Memory> {
        match cons.split_first() {
            Some((first, rest)) => self.next(&[
                Piece::Text(word),
                Piece::Con(*first),
                Piece::Cons(word, rest),
            ]),
            None => Ok(()),
        }
    }
}
