//! Terms and formulas as text.

use crate::out::Out;
use crate::piece::Piece;
use rp_logic::{Atom, Fml, Term};
use rp_value::Memory;

/// The name of the variable of the n-th quantifier around, from 0 for the innermost, where so many are bound.
fn variable<'a>(bound: u32, n: u32) -> Piece<'a> {
    Piece::Variable(bound.saturating_sub(n).saturating_sub(1))
}

impl<'a> Out<'a> {
    /// A symbol with its arguments, if it has any.
    fn applied(&mut self, symbol: Piece<'a>, args: &'a [Term], bound: u32) -> Result<(), Memory> {
        match args.split_first() {
            Some((first, rest)) => self.next(&[
                symbol,
                Piece::Text(b"("),
                Piece::Term(first, bound),
                Piece::Terms(b", ", rest, bound),
                Piece::Text(b")"),
            ]),
            None => self.next(&[symbol]),
        }
    }

    pub fn term(&mut self, t: &'a Term, bound: u32) -> Result<(), Memory> {
        match t {
            Term::Var(n) => self.next(&[variable(bound, *n)]),
            Term::Const(n) => if *n == 0 {
                self.put(b"self")
            } else {
                self.named(b"constant ", *n)
            },
            Term::Fn(f, args) => self.applied(Piece::Fun(*f), args.as_slice(), bound),
            Term::Int(n) => self.number(*n),
            Term::Str(bytes) => self.next(&[
                Piece::Text(b"\""),
                Piece::Text(bytes.as_slice()),
                Piece::Text(b"\""),
            ]),
            Term::Con(con, args) => self.applied(Piece::Con(*con), args.as_slice(), bound),
            Term::Sel(con, i, part) => self.next(&[
                Piece::Term(part.get(), bound),
                Piece::Text(b"."),
                Piece::Con(*con),
                Piece::Text(b"."),
                Piece::Number(*i as i128),
            ]),
            Term::Plus(part, n) => self.next(&[
                Piece::Text(b"("),
                Piece::Term(part.get(), bound),
                Piece::Text(b" + "),
                Piece::Number(*n),
                Piece::Text(b")"),
            ]),
        }
    }

    pub fn terms(&mut self, word: &'a [u8], terms: &'a [Term], bound: u32) -> Result<(), Memory> {
        match terms.split_first() {
            Some((first, rest)) => self.next(&[
                Piece::Text(word),
                Piece::Term(first, bound),
                Piece::Terms(word, rest, bound),
            ]),
            None => Ok(()),
        }
    }

    pub fn atom(&mut self, atom: &'a Atom, bound: u32) -> Result<(), Memory> {
        match atom {
            Atom::Equal(a, b) => self.next(&[
                Piece::Term(a, bound),
                Piece::Text(b" = "),
                Piece::Term(b, bound),
            ]),
            Atom::Le { a, b, k } => self.next(&[
                Piece::Term(a, bound),
                Piece::Text(b" <= "),
                Piece::Term(b, bound),
                Piece::Text(b" + "),
                Piece::Number(*k),
            ]),
            Atom::Rel(rel, args) => self.applied(Piece::Rel(*rel), args.as_slice(), bound),
        }
    }

    /// Formulas joined by a word, in parentheses, or what none of them make.
    fn joined(
        &mut self,
        word: &'a [u8],
        none: &'a [u8],
        formulas: &'a [Fml],
        bound: u32,
    ) -> Result<(), Memory> {
        match formulas.split_first() {
            Some((first, rest)) => self.next(&[
                Piece::Text(b"("),
                Piece::Formula(first, bound),
                Piece::Formulas(word, rest, bound),
                Piece::Text(b")"),
            ]),
            None => self.put(none),
        }
    }

    fn quantified(
        &mut self,
        word: &'a [u8],
        sort: u32,
        body: &'a Fml,
        bound: u32,
    ) -> Result<(), Memory> {
        self.next(&[
            Piece::Text(word),
            Piece::Variable(bound),
            Piece::Text(b": "),
            Piece::Sort(sort),
            Piece::Text(b". "),
            Piece::Formula(body, bound.saturating_add(1)),
        ])
    }

    pub fn formula(&mut self, f: &'a Fml, bound: u32) -> Result<(), Memory> {
        match f {
            Fml::And(parts) => self.joined(b" and ", b"true", parts.as_slice(), bound),
            Fml::Or(parts) => self.joined(b" or ", b"false", parts.as_slice(), bound),
            Fml::All(sort, body) => self.quantified(b"all ", *sort, body.get(), bound),
            Fml::Ex(sort, body) => self.quantified(b"some ", *sort, body.get(), bound),
            Fml::Lit(true, atom) => self.atom(atom, bound),
            Fml::Lit(false, atom) => self.next(&[Piece::Text(b"not "), Piece::Atom(atom, bound)]),
        }
    }

    pub fn formulas(
        &mut self,
        word: &'a [u8],
        formulas: &'a [Fml],
        bound: u32,
    ) -> Result<(), Memory> {
        match formulas.split_first() {
            Some((first, rest)) => self.next(&[
                Piece::Text(word),
                Piece::Formula(first, bound),
                Piece::Formulas(word, rest, bound),
            ]),
            None => Ok(()),
        }
    }
}
