//! Names for the numbers of sorts, constructors, functions and relations.

use crate::out::Out;
use crate::piece::Piece;
use rp_lang::{OpDecl, OpKind, PathStep, QueryDecl, QueryKind};
use rp_value::Memory;

const SETS: [&[u8]; 9] = [
    b"old",
    b"new",
    b"was",
    b"there",
    b"before",
    b"stamped_before",
    b"same",
    b"snapshot",
    b"part",
];

const FUNCTIONS: [&[u8]; 7] = [
    b"operation",
    b"origin",
    b"record",
    b"old_outcome",
    b"new_outcome",
    b"plus",
    b"minus",
];

fn op_word(kind: OpKind) -> &'static [u8] {
    match kind {
        OpKind::Tx => b"tx",
        OpKind::Add => b".add",
        OpKind::Remove => b".remove",
        OpKind::Assign => b".assign",
        OpKind::Increment => b".increment",
        OpKind::Delete => b".delete",
    }
}

fn query_word(kind: QueryKind) -> &'static [u8] {
    match kind {
        QueryKind::Contains => b".contains",
        QueryKind::HasKey => b".has_key",
        QueryKind::GetReg => b".get",
        QueryKind::GetSum => b".sum",
    }
}

/// The thing of a number, where the first of its kind has this number.
fn found<T>(things: &[T], first: usize, number: u32) -> Option<&T> {
    let number = number as usize;
    if number < first {
        return None;
    }
    things.get(number - first)
}

impl<'a> Out<'a> {
    pub fn path(&mut self, path: &'a [PathStep]) -> Result<(), Memory> {
        match path.split_first() {
            Some((PathStep::Field(n), rest)) => self.next(&[
                Piece::Text(b"."),
                Piece::Number(*n as i128),
                Piece::Path(rest),
            ]),
            Some((PathStep::Key(_), rest)) => self.next(&[Piece::Text(b"[]"), Piece::Path(rest)]),
            None => Ok(()),
        }
    }

    /// What stands at the path, with a word behind it.
    fn at_path(&mut self, root: u32, path: &'a [PathStep], word: &'a [u8]) -> Result<(), Memory> {
        let roots = self.program.roots.as_slice();
        let name: &'a [u8] = match roots.get(root as usize) {
            Some(root) => root.name.as_slice(),
            None => b"?",
        };
        self.next(&[Piece::Text(name), Piece::Path(path), Piece::Text(word)])
    }

    fn op(&mut self, op: &'a OpDecl) -> Result<(), Memory> {
        if let OpKind::Tx = op.kind {
            return self.put(b"tx");
        }
        self.at_path(op.root, op.path.as_slice(), op_word(op.kind))
    }

    fn query(&mut self, query: &'a QueryDecl) -> Result<(), Memory> {
        self.at_path(query.root, query.path.as_slice(), query_word(query.kind))
    }

    pub fn sort(&mut self, n: u32) -> Result<(), Memory> {
        let atoms = self.program.types.atoms.as_slice();
        let datatypes = self.program.types.datatypes.as_slice();
        let behind = 4 + atoms.len() + datatypes.len();
        if let Some(atom) = found(atoms, 2, n) {
            return self.put(atom.name.as_slice());
        }
        if let Some(datatype) = found(datatypes, 4 + atoms.len(), n) {
            return self.put(datatype.name.as_slice());
        }
        match n as usize {
            0 => self.put(b"Call"),
            1 => self.put(b"Invocation"),
            n => if n == 2 + atoms.len() {
                self.put(b"Int")
            } else if n == 3 + atoms.len() {
                self.put(b"String")
            } else if n == behind {
                self.put(b"Operation")
            } else if n == behind + 1 {
                self.put(b"Record")
            } else {
                self.put(b"Outcome")
            },
        }
    }

    pub fn con(&mut self, n: u32) -> Result<(), Memory> {
        let cons = self.program.cons.cons.as_slice();
        let ops = self.program.ops.as_slice();
        let procs = self.program.procs.as_slice();
        let infos = cons.len() + ops.len();
        if let Some(con) = found(cons, 0, n) {
            return self.put(con.name.as_slice());
        }
        if let Some(op) = found(ops, cons.len(), n) {
            return self.op(op);
        }
        if let Some(proc) = found(procs, infos, n) {
            self.put(b"invoked_")?;
            return self.put(proc.name.as_slice());
        }
        match found(procs, infos + procs.len() + 1, n) {
            Some(proc) => {
                self.put(b"returned_")?;
                self.put(proc.name.as_slice())
            }
            None => self.put(b"unreturned"),
        }
    }

    /// The n-th of the queries that give a value.
    fn value(&mut self, n: usize) -> Result<(), Memory> {
        let mut left = n;
        for query in self.program.queries.as_slice() {
            if program_sigs::is_get(query.kind) {
                if left == 0 {
                    return self.query(query);
                }
                left -= 1;
            }
        }
        self.put(b"?")
    }

    fn values(&self) -> usize {
        let mut count: usize = 0;
        for query in self.program.queries.as_slice() {
            if program_sigs::is_get(query.kind) {
                count = count.saturating_add(1);
            }
        }
        count
    }

    /// The function of the values of a query at a view.
    fn value_fun(&mut self, n: usize) -> Result<(), Memory> {
        let count = self.values();
        if count == 0 {
            return self.put(b"?");
        }
        self.put(b"at_view_")?;
        self.number((n / count) as i128)?;
        self.put(b"_")?;
        self.value(n % count)
    }

    pub fn fun(&mut self, n: u32) -> Result<(), Memory> {
        match FUNCTIONS.get(n as usize) {
            Some(name) => self.put(name),
            None => self.value_fun((n as usize).saturating_sub(FUNCTIONS.len())),
        }
    }

    /// The n-th of the relations of identifiers, three of each type, or how far it is behind them.
    fn id_rel(&mut self, n: usize) -> Result<Option<usize>, Memory> {
        let mut left = n;
        for atom in self.program.types.atoms.as_slice() {
            if atom.is_id {
                if left < 3 {
                    self.put(atom.name.as_slice())?;
                    self.put(match left {
                        0 => b"_in_operation",
                        1 => b"_in_arguments",
                        _ => b"_in_result",
                    })?;
                    return Ok(None);
                }
                left -= 3;
            }
        }
        Ok(Some(left))
    }

    pub fn rel(&mut self, n: u32) -> Result<(), Memory> {
        if let Some(name) = SETS.get(n as usize) {
            return self.put(name);
        }
        match self.id_rel((n as usize).saturating_sub(SETS.len()))? {
            None => Ok(()),
            Some(view) => {
                self.put(if view % 2 == 0 { b"seen_" } else { b"read_" })?;
                self.number((view / 2) as i128)
            }
        }
    }
}
