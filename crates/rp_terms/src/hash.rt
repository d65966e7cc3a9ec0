ghost use Rattle.std.specs.Prelude.{◌≡◌, ◌%◌, ◌^◌, unsigned_abs};
ghost use Rattle.rp_logic.specs.Views.{term_view, terms_view};
ghost use Rattle.rp_terms.specs.Symbols.{symbol_of};
ghost use Rattle.rp_terms.specs.means.Hash as spec;
ghost use Rattle.rp_terms.specs.means.Hash.{mixed, mixed_all, term_hash, terms_hash};

use rp_logic::Term;

/// A hash with one more number. The second product keeps it from being a sum, in which the order of symbols in nested
/// terms would be lost.
#[tactic(auto, unfolding(crate::specs::means::Hash::mixed))]
pub fn mix(hash: u64, word: u64) -> u64
    ensures { result ≡ mixed hash word }
{
    let sum = hash
        .wrapping_mul(11_400_714_819_323_198_485)
        .wrapping_add(word);
    let odd = sum.wrapping_mul(2).wrapping_add(1);
    sum.wrapping_mul(odd)
}

fn low_word(n: i128) -> u64
    ensures { result ≡ unsigned_abs n % 2 ^ 64 }
{
    (n.unsigned_abs() % 18_446_744_073_709_551_616) as u64
}

fn mix_bytes(hash: u64, bytes: &[u8]) -> u64
    ensures { result ≡ mixed_all hash bytes.now }
{
    let mut mixed = hash;
    for b in bytes {
        mixed = mix(mixed, *b as u64);
    }
    mixed
}

/// The hash of the term's symbol, with which that of the term begins.
#[tactic(auto, using(rp_logic::proofs::TermViews::term_views))]
pub fn symbol_hash(t: &Term) -> u64
    ensures { result ≡ spec.symbol_hash (symbol_of (term_view t.now)) }
{
    match t {
        Term::Var(n) => mix(1, *n as u64),
        Term::Const(c) => mix(2, *c as u64),
        Term::Fn(f, _) => mix(3, *f as u64),
        Term::Int(n) => mix(4, low_word(*n)),
        Term::Str(bytes) => mix_bytes(5, bytes.as_slice()),
        Term::Con(c, _) => mix(6, *c as u64),
        Term::Sel(c, i, _) => mix(mix(7, *c as u64), *i as u64),
        Term::Plus(_, n) => mix(8, low_word(*n)),
    }
}

/// The hash of a term.
#[cycle(hash)]
#[tactic(auto, using(rp_logic::proofs::TermViews::term_views))]
pub fn hash_of(t: &Term) -> u64
    ensures { result ≡ term_hash (term_view t.now) }
{
    match t {
        Term::Var(_) => symbol_hash(t),
        Term::Const(_) => symbol_hash(t),
        Term::Int(_) => symbol_hash(t),
        Term::Str(_) => symbol_hash(t),
        Term::Fn(_, args) => hash_all(symbol_hash(t), args.as_slice()),
        Term::Con(_, args) => hash_all(symbol_hash(t), args.as_slice()),
        Term::Sel(_, _, a) => mix(symbol_hash(t), hash_of(a.get())),
        Term::Plus(a, _) => mix(symbol_hash(t), hash_of(a.get())),
    }
}

#[cycle(hash)]
fn hash_all(hash: u64, terms: &[Term]) -> u64
    ensures { result ≡ terms_hash hash (terms_view terms.now) }
{
    let mut mixed = hash;
    for t in terms {
        mixed = mix(mixed, hash_of(t));
    }
    mixed
}
