//! Terms and formulas as text.

use crate::out::Out;
use crate::piece::Piece;
use rp_lang::{Arm, Expr, Formula};
use rp_value::{Memory, Ty};

impl<'a> Out<'a> {
    pub fn args(&mut self, args: &'a [Expr]) -> Result<(), Memory> {
        match args.split_first() {
            Some((first, rest)) => self.next(&[
                Piece::Text(b"("),
                Piece::Expr(first),
                Piece::MoreExprs(rest),
                Piece::Text(b")"),
            ]),
            None => Ok(()),
        }
    }

    pub fn more_exprs(&mut self, exprs: &'a [Expr]) -> Result<(), Memory> {
        match exprs.split_first() {
            Some((first, rest)) => self.next(&[
                Piece::Text(b", "),
                Piece::Expr(first),
                Piece::MoreExprs(rest),
            ]),
            None => Ok(()),
        }
    }

    /// A number with its arguments.
    pub fn node(&mut self, word: &'a [u8], number: u32, args: &'a [Expr]) -> Result<(), Memory> {
        self.next(&[Piece::Named(word, number), Piece::Args(args)])
    }

    /// An opening word with its one part.
    fn over(&mut self, word: &'a [u8], part: Piece<'a>) -> Result<(), Memory> {
        self.next(&[Piece::Text(word), part, Piece::Text(b")")])
    }

    /// An opening word with its two parts.
    fn both(&mut self, word: &'a [u8], a: Piece<'a>, b: Piece<'a>) -> Result<(), Memory> {
        self.next(&[
            Piece::Text(word),
            a,
            Piece::Text(b", "),
            b,
            Piece::Text(b")"),
        ])
    }

    fn of_two(&mut self, word: &'a [u8], a: &'a Expr, b: &'a Expr) -> Result<(), Memory> {
        self.both(word, Piece::Expr(a), Piece::Expr(b))
    }

    pub fn expr(&mut self, e: &'a Expr) -> Result<(), Memory> {
        match e {
            Expr::Slot(n) => self.named(b"s", *n),
            Expr::Bound(n) => self.named(b"b", *n),
            Expr::Int(n) => self.next(&[Piece::Number(*n)]),
            Expr::Str(bytes) => self.next(&[
                Piece::Text(b"\""),
                Piece::Text(bytes.as_slice()),
                Piece::Text(b"\""),
            ]),
            Expr::Con(n, args) => self.node(b"c", *n, args.as_slice()),
            Expr::Plus(e, n) => self.both(b"plus(", Piece::Expr(e.get()), Piece::Number(*n)),
            Expr::Add(a, b) => self.of_two(b"add(", a.get(), b.get()),
            Expr::Sub(a, b) => self.of_two(b"sub(", a.get(), b.get()),
            Expr::Query(n, args) => self.node(b"q", *n, args.as_slice()),
            Expr::OpOf(e) => self.over(b"op(", Piece::Expr(e.get())),
            Expr::OpTerm(n, args) => self.node(b"o", *n, args.as_slice()),
            Expr::OriginOf(e) => self.over(b"origin(", Piece::Expr(e.get())),
            Expr::InfoOf(e) => self.over(b"info(", Piece::Expr(e.get())),
            Expr::InfoTerm(n, args) => self.node(b"p", *n, args.as_slice()),
            Expr::ResultOf(e) => self.over(b"result(", Piece::Expr(e.get())),
            Expr::ResultTerm(n, None) => self.named(b"r", *n),
            Expr::ResultTerm(n, Some(value)) => self.next(&[
                Piece::Named(b"r", *n),
                Piece::Text(b"("),
                Piece::Expr(value.get()),
                Piece::Text(b")"),
            ]),
            Expr::Unreturned => self.put(b"unreturned"),
        }
    }

    pub fn more_formulas(&mut self, formulas: &'a [Formula]) -> Result<(), Memory> {
        match formulas.split_first() {
            Some((first, rest)) => self.next(&[
                Piece::Text(b", "),
                Piece::Formula(first),
                Piece::MoreFormulas(rest),
            ]),
            None => Ok(()),
        }
    }

    /// An opening word with formulas.
    fn joined(&mut self, word: &'a [u8], formulas: &'a [Formula]) -> Result<(), Memory> {
        match formulas.split_first() {
            Some((first, rest)) => self.next(&[
                Piece::Text(word),
                Piece::Formula(first),
                Piece::MoreFormulas(rest),
                Piece::Text(b")"),
            ]),
            None => self.next(&[Piece::Text(word), Piece::Text(b")")]),
        }
    }

    pub fn arms(&mut self, arms: &'a [Arm]) -> Result<(), Memory> {
        match arms.split_first() {
            Some((first, rest)) => self.next(&[
                Piece::Named(b", c", first.con),
                Piece::Text(b": "),
                Piece::Formula(&first.body),
                Piece::Arms(rest),
            ]),
            None => Ok(()),
        }
    }

    fn quantified(&mut self, word: &'a [u8], ty: Ty, f: &'a Formula) -> Result<(), Memory> {
        self.both(word, Piece::Ty(ty), Piece::Formula(f))
    }

    pub fn formula(&mut self, f: &'a Formula) -> Result<(), Memory> {
        match f {
            Formula::And(parts) => self.joined(b"and(", parts.as_slice()),
            Formula::Or(parts) => self.joined(b"or(", parts.as_slice()),
            Formula::Not(f) => self.over(b"not(", Piece::Formula(f.get())),
            Formula::Implies(a, b) => self.both(
                b"implies(",
                Piece::Formula(a.get()),
                Piece::Formula(b.get()),
            ),
            Formula::All(ty, f) => self.quantified(b"all(", *ty, f.get()),
            Formula::Any(ty, f) => self.quantified(b"any(", *ty, f.get()),
            Formula::Holds(e) => self.over(b"holds(", Piece::Expr(e)),
            Formula::Equal(a, b) => self.of_two(b"eq(", a, b),
            Formula::Less(a, b) => self.of_two(b"lt(", a, b),
            Formula::AtMost(a, b) => self.of_two(b"le(", a, b),
            Formula::Visible(e) => self.over(b"visible(", Piece::Expr(e)),
            Formula::Before(a, b) => self.of_two(b"before(", a, b),
            Formula::Same(a, b) => self.of_two(b"same(", a, b),
            Formula::Match(on, arms) => self.next(&[
                Piece::Text(b"match("),
                Piece::Expr(on),
                Piece::Arms(arms.as_slice()),
                Piece::Text(b")"),
            ]),
        }
    }
}
