//! Values at a place of a text.
ghost use Rattle.std.specs.Prelude.{◌≡◌, ◌≤◌, [], ℕ, Option, length, Some, None, IfOk, IsErrOf};
ghost use Rattle.rp_value.specs.Values.{Val};
ghost use Rattle.schedule_fmt.specs.means.Readers.{prog};
ghost use Rattle.schedule_fmt.specs.means.Reading as spec;
ghost use Rattle.schedule_fmt.specs.Views.{Added, value_at, args_at};
ghost use Rattle.schedule_fmt.specs.declared.stop.Stop.TheVariants as stop;

use crate::bytes::{name_end, next_is, rest};
use crate::names::{asked_at, longest_name};
use crate::numbers::{int, short_number};
use crate::reader::Reader;
use crate::stop::Stop;
use crate::strings::string;
use program_names::con_fields;
use rp_value::{List, Ty, Value};
use std::alloc::Global;

/// The most constructors that may stand inside each other.
const DEPTH: u32 = 1_000;

/// Adds what was read to the values, and gives the place behind its text.
#[inline(always)]
fn added(read: Result<(Value, usize), Stop>, values: &mut List<Value>) -> Result<usize, Stop>
    ensures found { (o : Option (Val × ℕ)) → IfOk read (λ r. o ≡ Some (value_at r))
        → IfOk result (Added o values.old values.new) }
    ensures none { IsErrOf result stop.Absent → IsErrOf read stop.Absent }
{
    let (value, to) = read?;
    values.push(value)?;
    Ok(to)
}

/// An empty list with room for a value of each field, or for one where there is none.
fn room_for(alloc: Global, fields: &[Ty]) -> Result<List<Value>, Stop>
    ensures empty { IfOk result (λ args. args ≡ []) }
    ensures none { IsErrOf result stop.Absent → ⊥ }
{
    match Vec::with_capacity(alloc, fields.len().max(1)) {
        Ok(room) => Ok(List::from_vec(room)),
        Err(_) => Err(Stop::Memory),
    }
}

impl<'n, 'a> Reader<'n, 'a> {
    #[inline(always)]
    fn int_value(&self, at: usize) -> Result<(Value, usize), Stop>
        ensures found { IfOk result (λ r. spec.int_value self.now.text.now at ≡ Some (value_at r)) }
        ensures none { IsErrOf result stop.Absent → spec.int_value self.now.text.now at ≡ None }
    {
        match int(self.text, at) {
            Some((n, to)) => Ok((Value::Int(n), to)),
            None => Err(Stop::Absent),
        }
    }

    fn string_value(&self, at: usize) -> Result<(Value, usize), Stop>
        ensures found { IfOk result (λ r. spec.string_value self.now.text.now at ≡ Some (value_at r)) }
        ensures none { IsErrOf result stop.Absent → spec.string_value self.now.text.now at ≡ None }
    {
        let (bytes, to) = string(self.alloc, self.text, at)?;
        Ok((Value::Str(bytes), to))
    }

    /// The id or opaque value, whose type's name ends at `to`, before a `#`.
    fn atom(&self, at: usize, to: usize) -> Result<(Value, usize), Stop>
        requires ordered { at ≤ to }
        requires within { to ≤ length self.now.text.now }
        ensures found { IfOk result (λ r. spec.atom (prog self.now) self.now.text.now at to ≡ Some (value_at r)) }
        ensures none { IsErrOf result stop.Absent
            → spec.atom (prog self.now) self.now.text.now at to ≡ None }
    {
        let Some(ty) = self.names.atom_called(&self.text[at..to]) else {
            return Err(Stop::Absent);
        };
        match short_number(self.text, to + 1) {
            Some((num, to)) => Ok((Value::Atom { ty, num }, to)),
            None => Err(Stop::Absent),
        }
    }

    /// Adds the value at a place that asks this type, if it asks one, with at most so many constructors inside each other.
    /// What is read goes to its list at once, and isn't handed up.
    #[cycle(value)]
    fn value(
        &self,
        asked: Option<Ty>,
        at: usize,
        depth: u32,
        values: &mut List<Value>,
    ) -> Result<usize, Stop>
        ensures found { IfOk result
            (Added (spec.value (prog self.now) self.now.text.now depth asked at) values.old values.new) }
        ensures none { IsErrOf result stop.Absent
            → spec.value (prog self.now) self.now.text.now depth asked at ≡ None }
    {
        if next_is(b'"', self.text, at) {
            return added(self.string_value(at + 1), values);
        }
        match name_end(self.text, at) {
            None => added(self.int_value(at), values),
            Some(to) => if next_is(b'#', self.text, to) {
                added(self.atom(at, to), values)
            } else {
                self.con(asked, at, to, depth, values)
            },
        }
    }

    /// Adds the constructor with its arguments, whose name ends at `to`.
    #[cycle(value)]
    fn con(
        &self,
        asked: Option<Ty>,
        at: usize,
        to: usize,
        depth: u32,
        values: &mut List<Value>,
    ) -> Result<usize, Stop>
        requires ordered { at ≤ to }
        requires within { to ≤ length self.now.text.now }
        ensures found { IfOk result
            (Added (spec.con_within (prog self.now) self.now.text.now depth asked at to) values.old values.new) }
        ensures none { IsErrOf result stop.Absent
            → spec.con_within (prog self.now) self.now.text.now depth asked at to ≡ None }
    {
        if depth == 0 {
            return Err(Stop::Absent);
        }
        let Some(con) = self.names.con_meant(asked, &self.text[at..to]) else {
            return Err(Stop::Absent);
        };
        if !next_is(b'(', self.text, to) {
            values.push(Value::Con {
                con,
                args: List::new(self.alloc),
            })?;
            return Ok(to);
        }
        let (args, end) = self.args(con_fields(self.names.program, con), to + 1, depth - 1)?;
        values.push(Value::Con { con, args })?;
        Ok(end)
    }

    /// The arguments of a constructor behind its opening parenthesis, at places that ask the types of its fields.
    #[cycle(value)]
    fn args(&self, fields: &[Ty], from: usize, depth: u32) -> Result<(List<Value>, usize), Stop>
        ensures found { IfOk result
            (λ r. spec.args_by (spec.value (prog self.now) self.now.text.now depth) self.now.text.now fields.now from
            ≡ Some (args_at r)) }
        ensures none { IsErrOf result stop.Absent
            → spec.args_by (spec.value (prog self.now) self.now.text.now depth) self.now.text.now fields.now from
            ≡ None }
    {
        let mut args = room_for(self.alloc, fields)?;
        let mut at = from;
        for i in 0..self.text.len() {
            let to = self.value(asked_at(fields, i), at, depth, &mut args)?;
            if next_is(b')', self.text, to) {
                return Ok((args, to + 1));
            }
            if !next_is(b',', self.text, to) {
                return Err(Stop::Absent);
            }
            at = to + 1;
        }
        Err(Stop::Absent)
    }

    /// Adds the value at a place that asks this type, if it asks one.
    #[tactic(auto, unfolding(crate::specs::means::Reading::whole_value))]
    pub(crate) fn add_value(
        &self,
        asked: Option<Ty>,
        at: usize,
        values: &mut List<Value>,
    ) -> Result<usize, Stop>
        ensures found { IfOk result
            (Added (spec.whole_value (prog self.now) self.now.text.now asked at) values.old values.new) }
        ensures none { IsErrOf result stop.Absent
            → spec.whole_value (prog self.now) self.now.text.now asked at ≡ None }
    {
        self.value(asked, at, DEPTH, values)
    }

    /// The value at a place that asks this type, if it asks one.
    pub(crate) fn whole_value(&self, asked: Option<Ty>, at: usize) -> Result<(Value, usize), Stop>
        ensures found { IfOk result
            (λ r. spec.whole_value (prog self.now) self.now.text.now asked at ≡ Some (value_at r)) }
        ensures none { IsErrOf result stop.Absent
            → spec.whole_value (prog self.now) self.now.text.now asked at ≡ None }
    {
        let mut values = List::new(self.alloc);
        let to = self.add_value(asked, at, &mut values)?;
        match values.pop() {
            Some(value) => Ok((value, to)),
            None => Err(Stop::Memory),
        }
    }

    /// The longest constructor without arguments.
    fn bare(&self, asked: Option<Ty>, at: usize) -> Result<(Value, usize), Stop>
        requires within { at ≤ length self.now.text.now }
        ensures found { IfOk result
            (λ r. spec.bare (prog self.now) self.now.text.now asked at ≡ Some (value_at r)) }
        ensures none { IsErrOf result stop.Absent
            → spec.bare (prog self.now) self.now.text.now asked at ≡ None }
    {
        let bytes = rest(self.text, at);
        let size = longest_name(self.names.program, bytes);
        if size == 0 {
            return Err(Stop::Absent);
        }
        match self.names.con_meant(asked, &self.text[at..at + size]) {
            Some(con) => Ok((
                Value::Con {
                    con,
                    args: List::new(self.alloc),
                },
                at + size,
            )),
            None => Err(Stop::Absent),
        }
    }

    /// The longest value at a place that asks this type, if it asks one.
    pub(crate) fn longest_value(&self, asked: Option<Ty>, at: usize) -> Result<(Value, usize), Stop>
        requires within { at ≤ length self.now.text.now }
        ensures found { IfOk result
            (λ r. spec.longest_value (prog self.now) self.now.text.now asked at ≡ Some (value_at r)) }
        ensures none { IsErrOf result stop.Absent
            → spec.longest_value (prog self.now) self.now.text.now asked at ≡ None }
    {
        match self.whole_value(asked, at) {
            Ok(found) => Ok(found),
            Err(Stop::Absent) => self.bare(asked, at),
            Err(Stop::Memory) => Err(Stop::Memory),
        }
    }
}
