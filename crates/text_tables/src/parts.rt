//! The limit on the parts of types.

ghost use Rattle.std.specs.Prelude.{◌≡◌, ◌+◌, ◌&&◌, IfOk, Some, map, min, nat_le};
ghost use Rattle.rp_value.specs.declared.tables.ConTable.{ConTable as SpecCons};
ghost use Rattle.rp_ast.specs.View.{con_view, params_view};
ghost use Rattle.rp_lang.specs.Types as types;
ghost use Rattle.type_rules.specs.Kinds.{param_kinds};
ghost use Rattle.type_rules.specs.Matches.{con_case};
ghost use Rattle.type_terms.specs.Views.{cases_view};
ghost use Rattle.desugaring.specs.Tables.{con_table, type_table};
ghost use Rattle.text_tables.specs.Seen.{tables_view};
ghost use Rattle.text_tables.specs.means.Limited as means;

use crate::tables::Tables;
use rp_ast::{ConNode, Param};
use rp_lang::LimitName;
use rp_value::{List, Memory, Ty};
use std::alloc::Global;
use type_rules::Kind;
use type_terms::{Cases, cases_of};

/// The sum, or one more than the limit where it is more.
fn plus(a: u64, b: u64) -> u64
    ensures { result ≡ min (a + b) 1001 }
{
    a.saturating_add(b).min(1001)
}

/// Whether these are few too.
fn is_few(before: bool, parts: u64) -> bool
    ensures { result ≡ (before && nat_le parts 1000) }
{
    before && parts <= LimitName::ValueParts.number()
}

impl<'n, 'a> Tables<'n, 'a> {
    /// The parts of a type, where those of the datatypes before are these. `Err` is that it is a later
    /// datatype, or none.
    fn parts_of(&self, before: &[u64], kind: Kind) -> Result<u64, Memory>
        ensures { IfOk result (λ parts. means.parts_told (tables_view self.now) before.now kind ≡ Some parts) }
    {
        match self.find_ty(kind) {
            Some(Ty::Datatype(number)) => match before.get(number as usize) {
                Some(parts) => Ok(*parts),
                None => Err(Memory),
            },
            Some(_) => Ok(1),
            None => Err(Memory),
        }
    }

    /// With the parts of these fields.
    fn with_field_parts(&self, before: &[u64], parts: u64, fields: &[Param]) -> Result<u64, Memory>
        ensures { IfOk result (λ more. means.sum_told (tables_view self.now) before.now parts
            (param_kinds (tables_view self.now).names (params_view fields.now)) ≡ Some more) }
    {
        let mut sum = parts;
        for field in fields {
            let kind = self.names().kind_of(&field.ty)?;
            let more = self.parts_of(before, kind)?;
            sum = plus(sum, more);
        }
        Ok(sum)
    }

    fn con_parts(&self, before: &[u64], cons: &[ConNode]) -> Result<u64, Memory>
        ensures { IfOk result (λ sum. means.sum_told (tables_view self.now) before.now 1
            (means.fields_of (map (con_case (tables_view self.now).names) (map con_view cons.now))) ≡ Some sum) }
    {
        let mut sum = 1;
        for con in cons {
            sum = self.with_field_parts(before, sum, con.fields.as_slice())?;
        }
        Ok(sum)
    }

    fn cases_parts(&self, before: &[u64], cases: Cases) -> Result<u64, Memory>
        ensures { IfOk result (λ parts. means.sum_told (tables_view self.now) before.now 1
            (means.fields_of (cases_view (tables_view self.now).names cases.entry)) ≡ Some parts) }
    {
        match cases {
            Cases::Bool => Ok(1),
            Cases::Maybe(held) => {
                let more = self.parts_of(before, held)?;
                Ok(plus(1, more))
            }
            Cases::Declared(cons) => self.con_parts(before, cons.as_slice()),
        }
    }

    /// The parts of a datatype, where those of the datatypes before are these.
    fn datatype_parts(&self, before: &[u64], kind: &Kind) -> Result<u64, Memory>
        ensures { IfOk result (λ parts. means.sum_told (tables_view self.now) before.now 1
            (means.inside (tables_view self.now).names kind.now) ≡ Some parts) }
    {
        match cases_of(self.names(), *kind) {
            Some(cases) => self.cases_parts(before, cases),
            None => Ok(1),
        }
    }

    /// Whether each datatype has few parts. `Err` is also that one stands before a datatype inside it.
    pub fn has_few_parts(&self, alloc: Global) -> Result<bool, Memory>
        ensures { (cons : SpecCons) → con_table (tables_view self.now) ≡ Some cons → IfOk result (λ few. few
            ≡ types.are_within_parts (type_table (tables_view self.now)) cons 0
            (type_table (tables_view self.now)).datatypes) }
    {
        let mut before: List<u64> = List::new(alloc);
        let mut few = true;
        for kind in self.kinds.as_slice() {
            let parts = self.datatype_parts(before.as_slice(), kind)?;
            before.push(parts)?;
            few = is_few(few, parts);
        }
        Ok(few)
    }
}
