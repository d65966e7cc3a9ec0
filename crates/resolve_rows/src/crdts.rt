//! Replicated types as text.

use crate::out::Out;
use crate::piece::Piece;
use rp_lang::{Crdt, Field};
use rp_value::{Memory, Ty};

impl<'a> Out<'a> {
    fn over_type(&mut self, word: &'a [u8], ty: Ty) -> Result<(), Memory> {
        self.next(&[Piece::Text(word), Piece::Ty(ty), Piece::Text(b"]")])
    }

    fn map(&mut self, word: &'a [u8], keys: Ty, held: &'a Crdt) -> Result<(), Memory> {
        self.next(&[
            Piece::Text(word),
            Piece::Ty(keys),
            Piece::Text(b", "),
            Piece::Crdt(held),
            Piece::Text(b"]"),
        ])
    }

    fn field(&mut self, word: &'a [u8], field: &'a Field, end: Piece<'a>) -> Result<(), Memory> {
        self.next(&[
            Piece::Text(word),
            Piece::Text(field.name.as_slice()),
            Piece::Text(b": "),
            Piece::Crdt(&field.crdt),
            end,
        ])
    }

    fn fields(&mut self, fields: &'a [Field]) -> Result<(), Memory> {
        match fields.split_first() {
            Some((first, rest)) => self.field(b"{ ", first, Piece::MoreFields(rest)),
            None => self.put(b"{ }"),
        }
    }

    pub fn more_fields(&mut self, fields: &'a [Field]) -> Result<(), Memory> {
        match fields.split_first() {
            Some((first, rest)) => self.field(b", ", first, Piece::MoreFields(rest)),
            None => self.put(b" }"),
        }
    }

    pub fn crdt(&mut self, crdt: &'a Crdt) -> Result<(), Memory> {
        match crdt {
            Crdt::SetAw(ty) => self.over_type(b"SetAw[", *ty),
            Crdt::SetRw(ty) => self.over_type(b"SetRw[", *ty),
            Crdt::Reg(ty) => self.over_type(b"Reg[", *ty),
            Crdt::MvReg(ty) => self.over_type(b"MvReg[", *ty),
            Crdt::Counter => self.put(b"Counter"),
            Crdt::MapUw(keys, held) => self.map(b"MapUw[", *keys, held.get()),
            Crdt::MapDw(keys, held) => self.map(b"MapDw[", *keys, held.get()),
            Crdt::Struct(fields) => self.fields(fields.as_slice()),
        }
    }
}
