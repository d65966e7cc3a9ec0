//! Terms and formulas of words. Each word stands before the words of its parts, so a text is read from its last word
//! to its first, and a word finds its parts read.
use rp_logic::{Atom, Fml, Term};
use rp_value::{Boxed, List, Memory, copy_bytes};
use std::alloc::Global;

/// What was read and isn't a part of something yet, the leftmost on top.
#[derive(Drop)]
pub(crate) struct Reader {
    pub(crate) terms: List<Term>,
    pub(crate) formulas: List<Fml>,
    /// Whether each word is one that the notation has, with its parts behind it.
    pub(crate) is_read: bool,
}

impl Reader {
    pub(crate) fn new(alloc: Global) -> Reader {
        Reader {
            terms: List::new(alloc),
            formulas: List::new(alloc),
            is_read: true,
        }
    }

    /// What the words of a text are.
    pub(crate) fn of(alloc: Global, text: &str) -> Result<Reader, Memory> {
        let mut reader = Reader::new(alloc);
        for word in text.rsplit(' ') {
            if !word.is_empty() && !reader.takes_term(alloc, word)? {
                reader.take_formula(alloc, word)?;
            }
        }
        Ok(reader)
    }

    /// Takes a word that begins a term, if it is one.
    fn takes_term(&mut self, alloc: Global, word: &str) -> Result<bool, Memory> {
        let term = if let Some(n) = word.strip_prefix("x") {
            Term::Var(self.number(n))
        } else if let Some(c) = word.strip_prefix("c") {
            Term::Const(self.number(c))
        } else if let Some(text) = word.strip_prefix("'") {
            Term::Str(copy_bytes(alloc, text.as_bytes())?)
        } else if let Some(numbers) = word.strip_prefix("f") {
            let (f, count) = self.two_numbers(numbers);
            Term::Fn(f, self.some_terms(alloc, count)?)
        } else if let Some(numbers) = word.strip_prefix("K") {
            let (con, count) = self.two_numbers(numbers);
            Term::Con(con, self.some_terms(alloc, count)?)
        } else if let Some(numbers) = word.strip_prefix("S") {
            let (con, i) = self.two_numbers(numbers);
            Term::Sel(con, i, Boxed::new(alloc, self.term())?)
        } else if let Some(n) = word.strip_prefix("+") {
            let n = self.whole(n);
            Term::Plus(Boxed::new(alloc, self.term())?, n)
        } else if let Some(n) = word.strip_prefix("#") {
            Term::Int(self.whole(n))
        } else {
            return Ok(false);
        };
        self.terms.push(term)?;
        Ok(true)
    }

    /// Takes a word that begins a formula.
    fn take_formula(&mut self, alloc: Global, word: &str) -> Result<(), Memory> {
        let formula = if word == "=" {
            let a = self.term();
            Fml::Lit(true, Atom::Equal(a, self.term()))
        } else if let Some(k) = word.strip_prefix("<=") {
            let k = self.whole(k);
            let a = self.term();
            let b = self.term();
            Fml::Lit(true, Atom::Le { a, b, k })
        } else if let Some(numbers) = word.strip_prefix("R") {
            let (r, count) = self.two_numbers(numbers);
            Fml::Lit(true, Atom::Rel(r, self.some_terms(alloc, count)?))
        } else if word == "not" {
            self.denied_literal()
        } else if let Some(count) = word.strip_prefix("and/") {
            let count = self.number(count);
            Fml::And(self.some_formulas(alloc, count)?)
        } else if let Some(count) = word.strip_prefix("or/") {
            let count = self.number(count);
            Fml::Or(self.some_formulas(alloc, count)?)
        } else if let Some(sort) = word.strip_prefix("all") {
            let sort = self.number(sort);
            Fml::All(sort, Boxed::new(alloc, self.formula())?)
        } else if let Some(sort) = word.strip_prefix("some") {
            let sort = self.number(sort);
            Fml::Ex(sort, Boxed::new(alloc, self.formula())?)
        } else {
            self.is_read = false;
            return Ok(());
        };
        self.formulas.push(formula)
    }

    pub(crate) fn term(&mut self) -> Term {
        match self.terms.pop() {
            Some(t) => t,
            None => {
                self.is_read = false;
                Term::Int(0)
            },
        }
    }

    pub(crate) fn some_terms(&mut self, alloc: Global, count: u32) -> Result<List<Term>, Memory> {
        let mut terms = List::new(alloc);
        for _ in 0..count {
            terms.push(self.term())?;
        }
        Ok(terms)
    }

    pub(crate) fn formula(&mut self) -> Fml {
        match self.formulas.pop() {
            Some(f) => f,
            None => {
                self.is_read = false;
                Fml::Lit(true, Atom::Equal(Term::Int(0), Term::Int(0)))
            },
        }
    }

    fn some_formulas(&mut self, alloc: Global, count: u32) -> Result<List<Fml>, Memory> {
        let mut formulas = List::new(alloc);
        for _ in 0..count {
            formulas.push(self.formula())?;
        }
        Ok(formulas)
    }

    /// The negation of a literal.
    fn denied_literal(&mut self) -> Fml {
        match self.formula() {
            Fml::Lit(sign, atom) => Fml::Lit(!sign, atom),
            other => {
                self.is_read = false;
                other
            },
        }
    }

    /// The atoms of all literals that were read.
    pub(crate) fn atoms(&mut self, alloc: Global) -> Result<List<Atom>, Memory> {
        let mut atoms = List::new(alloc);
        for _ in 0..self.formulas.count() {
            match self.formula() {
                Fml::Lit(sign, atom) => {
                    self.is_read = self.is_read && sign;
                    atoms.push(atom)?;
                },
                _ => self.is_read = false,
            }
        }
        Ok(atoms)
    }

    pub(crate) fn number(&mut self, text: &str) -> u32 {
        match text.parse::<u32>() {
            Ok(n) => n,
            Err(_) => {
                self.is_read = false;
                0
            },
        }
    }

    /// Two numbers with a mark between them.
    fn two_numbers(&mut self, text: &str) -> (u32, u32) {
        let (first, second) = text.split_once('/').unwrap_or((text, "."));
        (self.number(first), self.number(second))
    }

    /// The numbers between spaces or commas.
    pub(crate) fn numbers(&mut self, alloc: Global, text: &str) -> Result<List<u32>, Memory> {
        let mut numbers = List::new(alloc);
        for word in text.split([' ', ',']) {
            if !word.is_empty() {
                numbers.push(self.number(word))?;
            }
        }
        Ok(numbers)
    }

    /// A number of 128 bits. The least and the greatest have names.
    fn whole(&mut self, text: &str) -> i128 {
        match text {
            "min" => i128::MIN,
            "max" => i128::MAX,
            _ => match text.parse::<i128>() {
                Ok(n) => n,
                Err(_) => {
                    self.is_read = false;
                    0
                },
            },
        }
    }
}
