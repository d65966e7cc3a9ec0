ghost use Rattle.std.specs.Prelude.{◌≡◌, ◌↔◌, IfOk, IsTrue};

use crate::atom::Atom;
use rp_value::{Boxed, List, Memory};
use std::alloc::Global;

/// A formula, with negation at its literals alone. Formulas may nest as deep as the stack allows.
#[derive(Drop)]
pub enum Fml {
    And(List<Fml>),
    /// The disjunction. That of nothing is false.
    Or(List<Fml>),
    /// For all elements of the sort. It binds one variable.
    All(u32, Boxed<Fml>),
    /// For some element of the sort. It binds one variable.
    Ex(u32, Boxed<Fml>),
    /// The atom, or where the sign is `false` its negation.
    Lit(bool, Atom),
}

impl Fml {
    /// Whether the formulas are equal. It takes no memory.
    #[cycle(same_formula)]
    pub fn same(&self, other: &Fml) -> bool
        ensures { IsTrue result ↔ (self.now ≡ other.now) }
    {
        match (self, other) {
            (Fml::And(a), Fml::And(b)) => same_formulas(a.as_slice(), b.as_slice()),
            (Fml::Or(a), Fml::Or(b)) => same_formulas(a.as_slice(), b.as_slice()),
            (Fml::All(s, a), Fml::All(t, b)) => s == t && a.get().same(b.get()),
            (Fml::Ex(s, a), Fml::Ex(t, b)) => s == t && a.get().same(b.get()),
            (Fml::Lit(s, a), Fml::Lit(t, b)) => s == t && a.same(b),
            _ => false,
        }
    }

    /// An equal formula.
    #[cycle(copy_formula)]
    pub fn copy(&self, alloc: Global) -> Result<Fml, Memory>
        ensures { IfOk result (λ copy. copy ≡ self.now) }
    {
        match self {
            Fml::And(parts) => Ok(Fml::And(copy_formulas(alloc, parts.as_slice())?)),
            Fml::Or(parts) => Ok(Fml::Or(copy_formulas(alloc, parts.as_slice())?)),
            Fml::All(s, body) => Ok(Fml::All(*s, Boxed::new(alloc, body.get().copy(alloc)?)?)),
            Fml::Ex(s, body) => Ok(Fml::Ex(*s, Boxed::new(alloc, body.get().copy(alloc)?)?)),
            Fml::Lit(sign, atom) => Ok(Fml::Lit(*sign, atom.copy(alloc)?)),
        }
    }
}

#[cycle(same_formula)]
fn same_formulas(a: &[Fml], b: &[Fml]) -> bool
    ensures { IsTrue result ↔ (a.now ≡ b.now) }
{
    if a.len() != b.len() {
        return false;
    }
    for i in 0..a.len() {
        if !a[i].same(&b[i]) {
            return false;
        }
    }
    true
}

/// The list of equal formulas.
#[cycle(copy_formula)]
pub fn copy_formulas(alloc: Global, formulas: &[Fml]) -> Result<List<Fml>, Memory>
    ensures { IfOk result (λ copies. copies ≡ formulas.now) }
{
    let mut copies = List::new(alloc);
    for formula in formulas {
        copies.push(formula.copy(alloc)?)?;
    }
    Ok(copies)
}
