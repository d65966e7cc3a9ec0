//! Signatures of words: a word for each symbol.
use crate::reader::Reader;
use rp_logic::{FnDecl, LogicCon, Sig, Sort};
use rp_value::{List, Memory};
use std::alloc::Global;

/// The symbols that were declared.
#[derive(Drop)]
struct Symbols {
    sorts: List<Sort>,
    consts: List<u32>,
    fns: List<FnDecl>,
    rels: List<List<u32>>,
    cons: List<LogicCon>,
    numbers: Reader,
}

impl Symbols {
    /// Takes the word of a symbol. A function and a constructor have their sort and, behind a colon, the sorts of
    /// their arguments.
    fn declare(&mut self, alloc: Global, word: &str) -> Result<(), Memory> {
        let (head, args) = word.split_once(':').unwrap_or((word, ""));
        let args = self.numbers.numbers(alloc, args)?;
        if word == "plain" {
            self.sorts.push(Sort::Plain)
        } else if word == "int" {
            self.sorts.push(Sort::Int)
        } else if word == "str" {
            self.sorts.push(Sort::Str)
        } else if head == "data" {
            self.sorts.push(Sort::Datatype(args))
        } else if let Some(sort) = head.strip_prefix("c") {
            self.consts.push(self.numbers.number(sort))
        } else if let Some(sort) = head.strip_prefix("f") {
            let result = self.numbers.number(sort);
            self.fns.push(FnDecl { args, result })
        } else if let Some(sort) = head.strip_prefix("K") {
            let sort = self.numbers.number(sort);
            self.cons.push(LogicCon { sort, args })
        } else {
            self.numbers.is_read = self.numbers.is_read && head == "R";
            self.rels.push(args)
        }
    }
}

/// The signature of the symbols of a text, if they make one, and whether each word is a symbol.
pub(crate) fn signature_of(alloc: Global, text: &str) -> Result<(Option<Sig>, bool), Memory> {
    let mut symbols = Symbols {
        sorts: List::new(alloc),
        consts: List::new(alloc),
        fns: List::new(alloc),
        rels: List::new(alloc),
        cons: List::new(alloc),
        numbers: Reader::new(alloc),
    };
    for word in text.split(' ') {
        if !word.is_empty() {
            symbols.declare(alloc, word)?;
        }
    }
    let is_read = symbols.numbers.is_read;
    let sig = Sig::new(
        symbols.sorts,
        symbols.consts,
        symbols.fns,
        symbols.rels,
        symbols.cons,
    );
    Ok((sig, is_read))
}

/// Whether the parts of the signatures are equal.
pub(crate) fn is_same_signature(a: &Sig, b: &Sig) -> bool {
    let same_sorts = a.sorts.len() == b.sorts.len()
        && a.sorts
            .as_slice()
            .iter()
            .zip(b.sorts.as_slice())
            .all(|(s, t)| is_same_sort(s, t));
    let same_fns = a.fns.len() == b.fns.len()
        && a.fns.as_slice().iter().zip(b.fns.as_slice()).all(|(f, g)| f.result == g.result
            && f.args.as_slice() == g.args.as_slice());
    let same_rels = a.rels.len() == b.rels.len()
        && a.rels
            .as_slice()
            .iter()
            .zip(b.rels.as_slice())
            .all(|(r, s)| r.as_slice() == s.as_slice());
    let same_cons = a.cons.len() == b.cons.len()
        && a.cons.as_slice().iter().zip(b.cons.as_slice()).all(|(c, d)| c.sort == d.sort
            && c.args.as_slice() == d.args.as_slice());
    same_sorts && same_fns && same_rels && same_cons && a.consts.as_slice() == b.consts.as_slice()
}

fn is_same_sort(a: &Sort, b: &Sort) -> bool {
    match (a, b) {
        (Sort::Plain, Sort::Plain) | (Sort::Int, Sort::Int) | (Sort::Str, Sort::Str) => true,
        (Sort::Datatype(cons), Sort::Datatype(others)) => cons.as_slice() == others.as_slice(),
        _ => false,
    }
}
