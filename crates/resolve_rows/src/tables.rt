//! The tables of a program as text, a line a thing.

use crate::out::Out;
use crate::piece::Piece;
use rp_lang::{InvDecl, OpDecl, OpKind, PathStep, ProcDecl, Program, QueryDecl, QueryKind, Root};
use rp_value::{AtomType, ConDecl, DataDecl, Memory};

fn op_name(kind: OpKind) -> &'static [u8] {
    match kind {
        OpKind::Tx => b"tx",
        OpKind::Add => b"add",
        OpKind::Remove => b"remove",
        OpKind::Assign => b"assign",
        OpKind::Increment => b"increment",
        OpKind::Delete => b"delete",
    }
}

fn query_name(kind: QueryKind) -> &'static [u8] {
    match kind {
        QueryKind::Contains => b"contains",
        QueryKind::HasKey => b"has_key",
        QueryKind::GetReg => b"get_reg",
        QueryKind::GetSum => b"get_sum",
    }
}

impl<'a> Out<'a> {
    fn inv(&mut self, inv: &'a InvDecl) -> Result<(), Memory> {
        self.next(&[
            Piece::Text(b"invariant "),
            Piece::Text(inv.name.as_slice()),
            Piece::Text(b": "),
            Piece::Formula(&inv.body),
            Piece::At(inv.at),
        ])?;
        self.finish()
    }

    fn proc(&mut self, n: u32, proc: &'a ProcDecl) -> Result<(), Memory> {
        self.next(&[
            Piece::Named(b"proc p", n),
            Piece::Text(b" "),
            Piece::Text(proc.name.as_slice()),
            Piece::Text(b":"),
            Piece::Tys(proc.params.as_slice()),
            Piece::Returned(proc.result),
            Piece::At(proc.at),
            Piece::Text(b"  slots"),
            Piece::Tys(proc.slots.as_slice()),
            Piece::Text(b" end"),
            Piece::At(proc.end),
        ])?;
        self.finish()?;
        self.stmts(1, proc.body.as_slice())
    }

    /// All tables of a program.
    pub fn program(&mut self, p: &'a Program) -> Result<(), Memory> {
        self.next(&[
            Piece::Atoms(0, p.types.atoms.as_slice()),
            Piece::Datatypes(0, p.types.datatypes.as_slice()),
            Piece::Cons(0, p.cons.cons.as_slice()),
            Piece::Roots(0, p.roots.as_slice()),
            Piece::Ops(0, p.ops.as_slice()),
            Piece::Queries(0, p.queries.as_slice()),
        ])?;
        self.finish()?;
        for inv in p.invs.as_slice() {
            self.inv(inv)?;
        }
        for (n, proc) in p.procs.as_slice().iter().enumerate() {
            self.proc(n as u32, proc)?;
        }
        Ok(())
    }

    pub fn atoms(&mut self, n: u32, atoms: &'a [AtomType]) -> Result<(), Memory> {
        match atoms.split_first() {
            Some((first, rest)) => self.next(&[
                Piece::Named(atom_word(first.is_id), n),
                Piece::Text(b" "),
                Piece::Text(first.name.as_slice()),
                Piece::Text(b"\n"),
                Piece::Atoms(n.saturating_add(1), rest),
            ]),
            None => Ok(()),
        }
    }

    pub fn datatypes(&mut self, n: u32, datatypes: &'a [DataDecl]) -> Result<(), Memory> {
        match datatypes.split_first() {
            Some((first, rest)) => self.next(&[
                Piece::Named(b"data d", n),
                Piece::Text(b" "),
                Piece::Text(first.name.as_slice()),
                Piece::Numbers(b" c", first.cons.as_slice()),
                Piece::Text(b"\n"),
                Piece::Datatypes(n.saturating_add(1), rest),
            ]),
            None => Ok(()),
        }
    }

    pub fn cons(&mut self, n: u32, cons: &'a [ConDecl]) -> Result<(), Memory> {
        match cons.split_first() {
            Some((first, rest)) => self.next(&[
                Piece::Named(b"con c", n),
                Piece::Text(b" "),
                Piece::Text(first.name.as_slice()),
                Piece::Named(b" of d", first.of),
                Piece::Tys(first.fields.as_slice()),
                Piece::Text(b"\n"),
                Piece::Cons(n.saturating_add(1), rest),
            ]),
            None => Ok(()),
        }
    }

    pub fn path(&mut self, path: &'a [PathStep]) -> Result<(), Memory> {
        match path.split_first() {
            Some((PathStep::Field(n), rest)) => self.next(&[
                Piece::Named(b".", *n),
                Piece::Path(rest),
            ]),
            Some((PathStep::Key(ty), rest)) => self.next(&[
                Piece::Text(b"["),
                Piece::Ty(*ty),
                Piece::Text(b"]"),
                Piece::Path(rest),
            ]),
            None => Ok(()),
        }
    }

    /// An operation, and those behind it.
    fn op(&mut self, n: u32, op: &'a OpDecl, rest: Piece<'a>) -> Result<(), Memory> {
        if let OpKind::Tx = op.kind {
            return self.next(&[Piece::Named(b"op o", n), Piece::Text(b" tx\n"), rest]);
        }
        self.next(&[
            Piece::Named(b"op o", n),
            Piece::Named(b" root", op.root),
            Piece::Path(op.path.as_slice()),
            Piece::Text(b" "),
            Piece::Text(op_name(op.kind)),
            Piece::Tys(op.args.as_slice()),
            Piece::Text(b"\n"),
            rest,
        ])
    }

    pub fn ops(&mut self, n: u32, ops: &'a [OpDecl]) -> Result<(), Memory> {
        match ops.split_first() {
            Some((first, rest)) => self.op(n, first, Piece::Ops(n.saturating_add(1), rest)),
            None => Ok(()),
        }
    }

    pub fn queries(&mut self, n: u32, queries: &'a [QueryDecl]) -> Result<(), Memory> {
        match queries.split_first() {
            Some((first, rest)) => self.next(&[
                Piece::Named(b"query q", n),
                Piece::Named(b" root", first.root),
                Piece::Path(first.path.as_slice()),
                Piece::Text(b" "),
                Piece::Text(query_name(first.kind)),
                Piece::Tys(first.args.as_slice()),
                Piece::Returned(Some(first.result)),
                Piece::Text(b"\n"),
                Piece::Queries(n.saturating_add(1), rest),
            ]),
            None => Ok(()),
        }
    }

    pub fn roots(&mut self, n: u32, roots: &'a [Root]) -> Result<(), Memory> {
        match roots.split_first() {
            Some((first, rest)) => self.next(&[
                Piece::Named(b"root", n),
                Piece::Text(b" "),
                Piece::Text(first.name.as_slice()),
                Piece::Text(b": "),
                Piece::Crdt(&first.crdt),
                Piece::Text(b"\n"),
                Piece::Roots(n.saturating_add(1), rest),
            ]),
            None => Ok(()),
        }
    }
}

fn atom_word(is_id: bool) -> &'static [u8] {
    if is_id { b"id a" } else { b"type a" }
}
