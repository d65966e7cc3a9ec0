ghost use Rattle.std.specs.Prelude.{◌≡◌, ◌↔◌, ◌<◌, ℕ, [], ◌∷◌, ◌++◌, length, slice_get, map, Some, IfOk, OnOk, OnErr, IsTrue, MatchOption};
ghost use Rattle.std.specs.Option.{option_map};
ghost use Rattle.rp_logic.specs.Terms.{Tm};
ghost use Rattle.rp_logic.specs.Views.{term_view, terms_view};
ghost use Rattle.rp_terms.specs.Symbols.{symbol_of, arguments, listed};
ghost use Rattle.rp_terms.specs.means.Built.{IsNode};
ghost use Rattle.rp_terms.specs.Numbered.{AreDifferent, HasNoNumber, AreNumbersOf, Adds, AddsAll, AddsFirst, parts_of, parts_of_each};
ghost use Rattle.rp_terms.specs.means.Hash.{term_hash};

use crate::hash::{hash_of, mix, symbol_hash};
use crate::hashes::Hashes;
use crate::node::Node;
use crate::symbol::Symbol;
use rp_logic::Term;
use rp_value::{Boxed, List, Memory, copy_bytes};
use std::alloc::Global;
use std::marker::Model;

/// Terms by their numbers: each term once, numbered from 0 in the order in which they came, and with it all terms that
/// stand in it. Contracts see it as the list of its terms.
#[derive(Drop)]
pub struct Bank {
    alloc: Global,
    nodes: List<Node>,
    hashes: Hashes,
}

impl Model for Bank {
    ghost use Rattle.std.specs.Prelude.{List};
    ghost use Rattle.rp_logic.specs.Terms.{Tm};
    ghost use Rattle.rp_terms.specs.means.Built.{terms_of, AreBuilt};
    ghost use Rattle.std.specs.Coded.{coded_list};
    ghost use Rattle.rp_terms.specs.means.TermCodes.{coded_tm};

    ghost Value = { List Tm };

    ghost coded = { coded_list coded_tm };

    ghost view = { λ b. terms_of b.nodes };

    ghost invariant = { λ b. AreBuilt b.nodes b.hashes };
}

impl Bank {
    /// The bank without a term. It takes no memory.
    pub fn new(alloc: Global) -> Bank
        ensures { result ≡ [] }
    {
        Bank {
            alloc,
            nodes: List::new(alloc),
            hashes: Hashes::new(alloc),
        }
    }

    /// How many terms have a number.
    pub fn count(&self) -> u32
        ensures length { result ≡ length self.now }
        ensures few { length self.now < 4294967295 }
        ensures different { AreDifferent self.now }
    {
        self.nodes.count()
    }

    /// The node of the term with the number.
    fn node(&self, id: u32) -> &Node
        requires { id < length self.now }
        ensures { (t : Tm) × (slice_get self.now id ≡ Some t) × IsNode self.now id result.now t }
    {
        self.nodes.get(id as usize)
    }

    /// The symbol of the term with the number. It takes no memory.
    pub fn symbol(&self, id: u32) -> &Symbol
        requires { id < length self.now }
        ensures { option_map symbol_of (slice_get self.now id) ≡ Some result.now }
    {
        &self.node(id).symbol
    }

    /// The numbers of the term's arguments, in order, each below its own. It takes no memory.
    pub fn parts(&self, id: u32) -> &List<u32>
        requires { id < length self.now }
        ensures numbers { (t : Tm) → slice_get self.now id ≡ Some t → AreNumbersOf self.now result.now (arguments t) }
        ensures earlier { (k p : ℕ) → slice_get result.now k ≡ Some p → p < id }
    {
        &self.node(id).parts
    }

    /// The number of the term. It takes no memory.
    pub fn find(&self, t: &Term) -> Option<u32>
        ensures { MatchOption result (HasNoNumber self.now (term_view t.now)) (λ id. slice_get self.now id ≡ Some (term_view t.now)) }
    {
        let mut at = self.hashes.last(hash_of(t));
        'chain: while let Some(id) = at {
            if self.is_at(id, t) {
                return Some(id);
            }
            at = self.hashes.before(id);
        }
        None
    }

    /// Whether the term has this number.
    #[cycle(is_at)]
    fn is_at(&self, id: u32, t: &Term) -> bool
        requires { id < length self.now }
        ensures { IsTrue result ↔ (slice_get self.now id ≡ Some (term_view t.now)) }
    {
        let node = self.node(id);
        if !node.symbol.is_of(t) {
            return false;
        }
        match t {
            Term::Var(_) => true,
            Term::Const(_) => true,
            Term::Int(_) => true,
            Term::Str(_) => true,
            Term::Fn(_, args) => self.are_at(node.parts.as_slice(), args.as_slice()),
            Term::Con(_, args) => self.are_at(node.parts.as_slice(), args.as_slice()),
            Term::Sel(_, _, a) => self.is_at(*node.parts.get(0), a.get()),
            Term::Plus(a, _) => self.is_at(*node.parts.get(0), a.get()),
        }
    }

    /// Whether the terms have these numbers.
    #[cycle(is_at)]
    fn are_at(&self, ids: &[u32], terms: &[Term]) -> bool
        requires { (k p : ℕ) → slice_get ids.now k ≡ Some p → p < length self.now }
        ensures { IsTrue result ↔ AreNumbersOf self.now ids.now (listed (terms_view terms.now)) }
    {
        if ids.len() != terms.len() {
            return false;
        }
        for i in 0..ids.len() {
            if !self.is_at(ids[i], &terms[i]) {
                return false;
            }
        }
        true
    }

    /// The term with the number.
    #[cycle(read)]
    pub fn read(&self, alloc: Global, id: u32) -> Result<Term, Memory>
        requires { id < length self.now }
        ensures { IfOk result (λ t. slice_get self.now id ≡ Some (term_view t)) }
    {
        let node = self.node(id);
        match &node.symbol {
            Symbol::Var(n) => Ok(Term::Var(*n)),
            Symbol::Const(c) => Ok(Term::Const(*c)),
            Symbol::Int(n) => Ok(Term::Int(*n)),
            Symbol::Str(bytes) => Ok(Term::Str(copy_bytes(alloc, bytes.as_slice())?)),
            Symbol::Fn(f) => Ok(Term::Fn(*f, self.read_all(alloc, id, node.parts.as_slice())?)),
            Symbol::Con(c) => Ok(Term::Con(*c, self.read_all(alloc, id, node.parts.as_slice())?)),
            Symbol::Sel(c, i) => {
                let t = self.read(alloc, *node.parts.get(0))?;
                Ok(Term::Sel(*c, *i, Boxed::new(alloc, t)?))
            },
            Symbol::Plus(n) => {
                let t = self.read(alloc, *node.parts.get(0))?;
                Ok(Term::Plus(Boxed::new(alloc, t)?, *n))
            },
        }
    }

    /// The terms with the numbers, each of them below a bound.
    #[cycle(read)]
    fn read_all(&self, alloc: Global, bound: u32, ids: &[u32]) -> Result<List<Term>, Memory>
        requires within { bound < length self.now }
        requires earlier { (k p : ℕ) → slice_get ids.now k ≡ Some p → p < bound }
        ensures { IfOk result (λ terms. AreNumbersOf self.now ids.now (listed (terms_view terms))) }
    {
        let mut terms = List::new(alloc);
        for id in ids {
            terms.push(self.read(alloc, *id)?)?;
        }
        Ok(terms)
    }

    /// The number of the term. A term without one gets the next, behind the terms that stand in it. Where memory is
    /// wanting, only the first of these were added.
    #[cycle(intern)]
    pub fn intern(&mut self, t: &Term) -> Result<u32, Memory>
        ensures number { IfOk result (λ id. slice_get self.new id ≡ Some (term_view t.now)) }
        ensures ok { OnOk result (AddsAll self.old (parts_of (term_view t.now)) self.new) }
        ensures err { OnErr result (AddsFirst self.old (parts_of (term_view t.now)) self.new) }
    {
        match t {
            Term::Var(_) => self.number(t, List::new(self.alloc)),
            Term::Const(_) => self.number(t, List::new(self.alloc)),
            Term::Int(_) => self.number(t, List::new(self.alloc)),
            Term::Str(_) => self.number(t, List::new(self.alloc)),
            Term::Fn(_, args) => {
                let parts = self.intern_all(args.as_slice())?;
                self.number(t, parts)
            },
            Term::Con(_, args) => {
                let parts = self.intern_all(args.as_slice())?;
                self.number(t, parts)
            },
            Term::Sel(_, _, a) => {
                let part = self.intern(a.get())?;
                self.number_over(t, part)
            },
            Term::Plus(a, _) => {
                let part = self.intern(a.get())?;
                self.number_over(t, part)
            },
        }
    }

    /// The numbers of the terms.
    #[cycle(intern)]
    fn intern_all(&mut self, terms: &[Term]) -> Result<List<u32>, Memory>
        ensures numbers { IfOk result (λ ids. AreNumbersOf self.new ids (listed (terms_view terms.now))) }
        ensures ok { OnOk result (AddsAll self.old (parts_of_each (terms_view terms.now)) self.new) }
        ensures err { OnErr result (AddsFirst self.old (parts_of_each (terms_view terms.now)) self.new) }
    {
        let mut ids = List::new(self.alloc);
        for t in terms {
            let id = self.intern(t)?;
            ids.push(id)?;
        }
        Ok(ids)
    }

    /// The number of a term over one argument, which has this number.
    fn number_over(&mut self, t: &Term, part: u32) -> Result<u32, Memory>
        requires { AreNumbersOf self.old (part ∷ []) (arguments (term_view t.now)) }
        ensures number { IfOk result (λ id. slice_get self.new id ≡ Some (term_view t.now)) }
        ensures ok { OnOk result (Adds self.old (term_view t.now) self.new) }
        ensures err { OnErr result (self.new ≡ self.old) }
    {
        let mut parts = List::new(self.alloc);
        parts.push(part)?;
        self.number(t, parts)
    }

    /// The number of a term over arguments with these numbers.
    fn number(&mut self, t: &Term, parts: List<u32>) -> Result<u32, Memory>
        requires { AreNumbersOf self.old parts (arguments (term_view t.now)) }
        ensures number { IfOk result (λ id. slice_get self.new id ≡ Some (term_view t.now)) }
        ensures ok { OnOk result (Adds self.old (term_view t.now) self.new) }
        ensures err { OnErr result (self.new ≡ self.old) }
    {
        let hash = self.hash_over(t, parts.as_slice());
        match self.known(hash, t, &parts) {
            Some(id) => Ok(id),
            None => self.add(hash, t, parts),
        }
    }

    /// The hash of a term over arguments with these numbers.
    fn hash_over(&self, t: &Term, parts: &[u32]) -> u64
        requires { AreNumbersOf self.now parts.now (arguments (term_view t.now)) }
        ensures { result ≡ term_hash (term_view t.now) }
    {
        let mut hash = symbol_hash(t);
        for part in parts {
            hash = mix(hash, self.hashes.get(*part));
        }
        hash
    }

    /// The number of a term over arguments with these numbers, where it has one.
    fn known(&self, hash: u64, t: &Term, parts: &List<u32>) -> Option<u32>
        requires hashed { hash ≡ term_hash (term_view t.now) }
        requires numbers { AreNumbersOf self.now parts.now (arguments (term_view t.now)) }
        ensures { MatchOption result (HasNoNumber self.now (term_view t.now)) (λ id. slice_get self.now id ≡ Some (term_view t.now)) }
    {
        let mut at = self.hashes.last(hash);
        'chain: while let Some(id) = at {
            if self.is_node(id, t, parts) {
                return Some(id);
            }
            at = self.hashes.before(id);
        }
        None
    }

    /// Whether the term over arguments with these numbers has this number.
    fn is_node(&self, id: u32, t: &Term, parts: &List<u32>) -> bool
        requires within { id < length self.now }
        requires numbers { AreNumbersOf self.now parts.now (arguments (term_view t.now)) }
        ensures { IsTrue result ↔ (slice_get self.now id ≡ Some (term_view t.now)) }
    {
        let _ = &self.alloc;
        let node = self.node(id);
        if !node.symbol.is_of(t) {
            return false;
        }
        node.parts == *parts
    }

    /// Gives the next number to a term without one, over arguments with these numbers.
    fn add(&mut self, hash: u64, t: &Term, parts: List<u32>) -> Result<u32, Memory>
        requires hashed { hash ≡ term_hash (term_view t.now) }
        requires numbers { AreNumbersOf self.old parts (arguments (term_view t.now)) }
        requires unknown { HasNoNumber self.old (term_view t.now) }
        ensures number { IfOk result (λ id. slice_get self.new id ≡ Some (term_view t.now)) }
        ensures ok { OnOk result (self.new ≡ self.old ++ term_view t.now ∷ []) }
        ensures err { OnErr result (self.new ≡ self.old) }
    {
        let symbol = Symbol::of(self.alloc, t)?;
        let id = self.nodes.count();
        self.nodes.push(Node { symbol, parts })?;
        match self.hashes.push(hash) {
            Ok(()) => Ok(id),
            Err(_) => {
                let _gone = self.nodes.pop();
                Err(Memory)
            },
        }
    }
}
