//! Rows: what is given, and what is wanted of it.
use crate::reader::Reader;
use crate::signature::{is_same_signature, signature_of};
use refute_check::{CheckErr, are_well_sorted, check};
use refute_defs::{Node, RuleUse, Tree};
use rp_logic::{Fml, Sig, Term, negate, substitute};
use rp_value::{List, Memory};
use std::alloc::Global;

/// What a row gives.
#[derive(Drop)]
struct Row {
    terms: List<Term>,
    formulas: List<Fml>,
    tree: Tree,
    is_read: bool,
}

impl Row {
    /// Takes a line: `term` and a term, `formula` and a formula, or `node` and a node of the tree.
    fn take(&mut self, alloc: Global, line: &str) -> Result<(), Memory> {
        let (head, rest) = line.split_once(' ').unwrap_or((line, ""));
        if head == "node" {
            return self.take_node(alloc, rest);
        }
        let mut read = Reader::of(alloc, rest)?;
        match head {
            "term" => self.terms.push(read.term())?,
            "formula" => self.formulas.push(read.formula())?,
            _ => read.is_read = false,
        }
        let is_whole = read.terms.is_empty() && read.formulas.is_empty();
        self.is_read = self.is_read && read.is_read && is_whole;
        Ok(())
    }

    /// A rule with, where it has them, its places behind `at`, its terms and atoms behind `on`, and its number behind
    /// `pick`. Or a leaf of a search.
    fn take_node(&mut self, alloc: Global, line: &str) -> Result<(), Memory> {
        match line {
            "unvisited" => return self.tree.nodes.push(Node::Unvisited),
            "current" => return self.tree.nodes.push(Node::Current),
            _ => {},
        }
        let (line, pick) = line.split_once(" pick ").unwrap_or((line, "0"));
        let (line, on) = line.split_once(" on ").unwrap_or((line, ""));
        let (rule, at) = line.split_once(" at ").unwrap_or((line, ""));
        let mut read = Reader::of(alloc, on)?;
        let places = read.numbers(alloc, at)?;
        let count = read.terms.count();
        let terms = read.some_terms(alloc, count)?;
        let atoms = read.atoms(alloc)?;
        let pick = read.number(pick);
        let rule = match rule.parse::<u8>() {
            Ok(rule) => rule,
            Err(_) => {
                read.is_read = false;
                0
            },
        };
        self.is_read = self.is_read && read.is_read;
        self.tree.nodes.push(Node::Rule(RuleUse {
            rule,
            places,
            terms,
            atoms,
            pick,
        }))
    }

    /// Whether the answer to what is given is the wanted one.
    fn gives(&self, alloc: Global, sig: &Sig, wanted: &str) -> Result<bool, Memory> {
        match (wanted, self.formulas.as_slice()) {
            ("well sorted", _) => Ok(are_well_sorted(sig, &self.formulas)),
            ("not well sorted", _) => Ok(!are_well_sorted(sig, &self.formulas)),
            ("copies", _) => self.are_copied(alloc, sig),
            ("equal", [f, g]) => Ok(f.same(g)),
            ("unequal", [f, g]) => Ok(!f.same(g)),
            ("negation", [f, g]) => Ok(negate(alloc, f)?.same(g)),
            ("instance", [f, g]) => match self.terms.as_slice() {
                [t] => Ok(substitute(alloc, f, t)?.same(g)),
                _ => Ok(false),
            },
            _ => Ok(
                are_well_sorted(sig, &self.formulas)
                    && says(check(alloc, sig, &self.formulas, &self.tree), wanted),
            ),
        }
    }

    /// Whether copies of the signature and of each term and formula are equal to them.
    fn are_copied(&self, alloc: Global, sig: &Sig) -> Result<bool, Memory> {
        let mut are_equal = is_same_signature(&sig.copy(alloc)?, sig);
        for t in self.terms.as_slice() {
            are_equal = t.copy(alloc)?.same(t) && are_equal;
        }
        for f in self.formulas.as_slice() {
            are_equal = f.copy(alloc)?.same(f) && are_equal;
        }
        Ok(are_equal)
    }
}

/// Whether the words say the verdict: `accepted`, or the number and the rule of a bad node.
fn says(verdict: Result<(), CheckErr>, words: &str) -> bool {
    match verdict {
        Ok(()) => words == "accepted",
        Err(CheckErr::Bad { node, rule }) => match words.split_once(" by ") {
            Some((first, second)) => first.parse::<u32>() == Ok(node)
                && second.parse::<u8>() == Ok(rule),
            None => false,
        },
        Err(CheckErr::Memory) => false,
    }
}

/// Whether a row over the signature is met. Its last line is the one that is wanted.
pub(crate) fn is_met(alloc: Global, symbols: &str, row: &str) -> Result<bool, Memory> {
    let Some((lines, wanted)) = row.split_once("\nwants ") else {
        return Ok(false);
    };
    let wanted = wanted.trim();
    let (sig, is_read) = signature_of(alloc, symbols)?;
    let Some(sig) = sig else {
        return Ok(is_read && wanted == "no signature");
    };
    let mut row = Row {
        terms: List::new(alloc),
        formulas: List::new(alloc),
        tree: Tree {
            nodes: List::new(alloc),
        },
        is_read,
    };
    for line in lines.split('\n').skip(1) {
        row.take(alloc, line)?;
    }
    Ok(row.gives(alloc, &sig, wanted)? && row.is_read)
}
