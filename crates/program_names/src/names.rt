//! What names mean.
ghost use Rattle.std.specs.Prelude.{◌≡◌, map, IfOk};
ghost use Rattle.std.specs.List.{position_from};
ghost use Rattle.rp_lang.specs.ProgramView.{program_view};
ghost use Rattle.rp_lang.specs.Views.{proc_view};
ghost use Rattle.program_names.specs.Called as spec;
ghost use Rattle.program_names.specs.means.Found.{Finds, FindsMade};

use crate::tables::{atom_table, con_table, made_tables, proc_table};
use rp_lang::Program;
use rp_value::{Memory, Ty};
use std::alloc::Global;
use type_tables::NameTable;

/// A program with its names, each found by a hash.
#[derive(Drop)]
pub struct Names<'a> {
    pub program: &'a Program,
    atoms: NameTable<'a>,
    procs: NameTable<'a>,
    cons: NameTable<'a>,
    /// For each datatype its constructors.
    made: Vec<NameTable<'a>>,
    ghost atoms_found: { Finds spec.atom_is_called program.now.types.atoms atoms },
    ghost procs_found: { Finds spec.proc_is_called (map proc_view program.now.procs) procs },
    ghost cons_found: { Finds spec.con_is_called program.now.cons.cons cons },
    ghost made_found: { FindsMade program.now.cons.cons made.items },
}

impl<'a> Names<'a> {
    pub fn new(alloc: Global, program: &'a Program) -> Result<Names<'a>, Memory>
        ensures { IfOk result (λ names. names.program.now ≡ program.now) }
    {
        let atoms = atom_table(alloc, &program.types.atoms)?;
        let procs = proc_table(alloc, &program.procs)?;
        let cons = con_table(alloc, &program.cons.cons)?;
        let made = made_tables(alloc, &program.cons.cons)?;
        Ok(Names {
            program,
            atoms,
            procs,
            cons,
            made,
        })
    }

    /// The first id or opaque type of the name.
    pub fn atom_called(&self, name: &[u8]) -> Option<u32>
        ensures { result ≡ spec.atom_called (program_view self.now.program.now) name.now }
    {
        self.atoms.number(name)
    }

    /// The first procedure of the name.
    pub fn proc_called(&self, name: &[u8]) -> Option<u32>
        ensures { result ≡ spec.proc_called (program_view self.now.program.now) name.now }
    {
        self.procs.number(name)
    }

    /// The first constructor of the name that makes the datatype.
    fn con_of(&self, d: u32, name: &[u8]) -> Option<u32>
        ensures { result ≡ position_from (spec.con_makes d name.now) 0 self.now.program.now.cons.cons }
    {
        let d = d as usize;
        if d < self.made.len() {
            let table = &self.made[d];
            table.number(name)
        } else {
            None
        }
    }

    /// The constructor of the name that makes this type, if one is asked.
    fn con_making(&self, asked: Option<Ty>, name: &[u8]) -> Option<u32>
        ensures { result ≡ spec.con_making (program_view self.now.program.now) asked name.now }
    {
        match asked {
            Some(Ty::Datatype(d)) => self.con_of(d, name),
            Some(Ty::Int) => None,
            Some(Ty::Str) => None,
            Some(Ty::Atom(_)) => None,
            Some(Ty::Call) => None,
            Some(Ty::Inv) => None,
            Some(Ty::Operation) => None,
            Some(Ty::Info) => None,
            Some(Ty::Outcome) => None,
            None => None,
        }
    }

    /// The constructor that the name means at a place that asks this type, if it asks one.
    pub fn con_meant(&self, asked: Option<Ty>, name: &[u8]) -> Option<u32>
        ensures { result ≡ spec.con_meant (program_view self.now.program.now) asked name.now }
    {
        match self.con_making(asked, name) {
            Some(con) => Some(con),
            None => self.cons.number(name),
        }
    }
}
