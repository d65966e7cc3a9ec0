ghost use Rattle.std.specs.Prelude.{◌≡◌, ◌↔◌, IfOk, IsTrue};
ghost use Rattle.rp_logic.specs.Views.{term_view};
ghost use Rattle.rp_terms.specs.Symbols.{symbol_of};

use rp_logic::Term;
use rp_value::{Bytes, Memory, copy_bytes};
use std::alloc::Global;

/// A term without its arguments.
#[derive(Drop)]
pub enum Symbol {
    Var(u32),
    Const(u32),
    Fn(u32),
    Int(i128),
    Str(Bytes),
    Con(u32),
    /// The constructor, and which of its arguments is taken.
    Sel(u32, u32),
    Plus(i128),
}

#[tactic(auto, using(rp_logic::proofs::TermViews::term_views))]
impl Symbol {
    /// The symbol of a term.
    pub fn of(alloc: Global, t: &Term) -> Result<Symbol, Memory>
        ensures { IfOk result (λ symbol. symbol ≡ symbol_of (term_view t.now)) }
    {
        match t {
            Term::Var(n) => Ok(Symbol::Var(*n)),
            Term::Const(c) => Ok(Symbol::Const(*c)),
            Term::Fn(f, _) => Ok(Symbol::Fn(*f)),
            Term::Int(n) => Ok(Symbol::Int(*n)),
            Term::Str(bytes) => Ok(Symbol::Str(copy_bytes(alloc, bytes.as_slice())?)),
            Term::Con(c, _) => Ok(Symbol::Con(*c)),
            Term::Sel(c, i, _) => Ok(Symbol::Sel(*c, *i)),
            Term::Plus(_, n) => Ok(Symbol::Plus(*n)),
        }
    }

    /// Whether this is the symbol of the term. It takes no memory.
    pub fn is_of(&self, t: &Term) -> bool
        ensures { IsTrue result ↔ (self.now ≡ symbol_of (term_view t.now)) }
    {
        match (self, t) {
            (Symbol::Var(m), Term::Var(n)) => m == n,
            (Symbol::Const(c), Term::Const(d)) => c == d,
            (Symbol::Fn(f), Term::Fn(g, _)) => f == g,
            (Symbol::Int(m), Term::Int(n)) => m == n,
            (Symbol::Str(a), Term::Str(b)) => a == b,
            (Symbol::Con(c), Term::Con(d, _)) => c == d,
            (Symbol::Sel(c, i), Term::Sel(d, j, _)) => c == d && i == j,
            (Symbol::Plus(m), Term::Plus(_, n)) => m == n,
            _ => false,
        }
    }
}
