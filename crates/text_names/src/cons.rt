ghost use Rattle.std.specs.Prelude.{◌≡◌, IfOk, map};
ghost use Rattle.std.specs.Option.{option_map};
ghost use Rattle.rp_ast.specs.View.{con_view};
ghost use Rattle.type_tables.specs.Tables.{IsIndexOf, place_from};
ghost use Rattle.text_names.specs.Cons.{con_named};

use rp_ast::ConNode;
use rp_value::{List, Memory};
use std::alloc::Global;
use type_tables::NameTable;

/// The constructors of a datatype, each found by its name. Of two of one name the first is found.
#[derive(Drop)]
pub struct ConList<'a> {
    cons: &'a List<ConNode>,
    numbers: NameTable<'a>,
    ghost found: { IsIndexOf numbers (map (λ con. con.name.text) cons.now) },
}

impl<'a> ConList<'a> {
    pub fn new(alloc: Global, cons: &'a List<ConNode>) -> Result<ConList<'a>, Memory>
        ensures { IfOk result (λ list. list.cons.now ≡ cons.now) }
    {
        let mut numbers = NameTable::new(alloc);
        for number in 0..cons.count() {
            let con = cons.get(number as usize);
            numbers.add(con.name.text.as_slice(), number)?;
        }
        Ok(ConList { cons, numbers })
    }

    pub fn as_slice(&self) -> &'a [ConNode]
        ensures { result.now ≡ self.now.cons.now }
    {
        self.cons.as_slice()
    }

    /// The number of the first constructor of this name.
    pub fn number(&self, name: &[u8]) -> Option<u32>
        ensures { result ≡ place_from 0 (map (λ con. con.name.text) self.now.cons.now) name.now }
    {
        self.numbers.number(name)
    }

    /// The first constructor of this name.
    pub fn named(&self, name: &[u8]) -> Option<&'a ConNode>
        ensures { option_map (λ con. con_view con.now) result
            ≡ con_named (map con_view self.now.cons.now) name.now }
    {
        let number = self.numbers.number(name)? as usize;
        let con = self.cons.as_slice().get(number)?;
        Some(con)
    }
}
