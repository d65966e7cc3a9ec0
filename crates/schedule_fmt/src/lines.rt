//! Lines of a schedule: the steps.
ghost use Rattle.std.specs.Prelude.{◌≡◌, ◌≤◌, Some, None, IfOk, IsErrOf};
ghost use Rattle.schedule_fmt.specs.means.Readers.{prog};
ghost use Rattle.schedule_fmt.specs.means.Reading as spec;
ghost use Rattle.schedule_fmt.specs.Views.{label_view, label_at, values_at};
ghost use Rattle.schedule_fmt.specs.declared.stop.Stop.TheVariants as stop;

use crate::bytes::{ends, name_end, next_is, word};
use crate::names::asked_at;
use crate::numbers::{number, short_number};
use crate::reader::Reader;
use crate::stop::Stop;
use program_names::params_of;
use rp_lang::Step;
use rp_value::{List, Ty, Value};

/// The greatest stamp.
const STAMP: u64 = 18_446_744_073_709_551_615;

impl<'n, 'a> Reader<'n, 'a> {
    /// The number below 2^32 at the place.
    fn inv(&self, at: usize) -> Result<(u32, usize), Stop>
        ensures found { IfOk result (λ r. spec.number 4294967295 self.now.text.now at ≡ Some r) }
        ensures none { IsErrOf result stop.Absent → spec.number 4294967295 self.now.text.now at ≡ None }
    {
        match short_number(self.text, at) {
            Some(found) => Ok(found),
            None => Err(Stop::Absent),
        }
    }

    fn stamp(&self, at: usize) -> Result<(u64, usize), Stop>
        ensures found { IfOk result (λ r. spec.number 18446744073709551615 self.now.text.now at ≡ Some r) }
        ensures none { IsErrOf result stop.Absent → spec.number 18446744073709551615 self.now.text.now at ≡ None }
    {
        match number(self.text, at, STAMP) {
            Some(found) => Ok(found),
            None => Err(Stop::Absent),
        }
    }

    /// The place behind the word.
    fn behind(&self, w: &[u8], at: usize) -> Result<usize, Stop>
        ensures found { IfOk result (λ to. spec.word w.now self.now.text.now at ≡ Some to) }
        ensures none { IsErrOf result stop.Absent → spec.word w.now self.now.text.now at ≡ None }
    {
        match word(w, self.text, at) {
            Some(to) => Ok(to),
            None => Err(Stop::Absent),
        }
    }

    /// Numbers, each behind a space, strictly ascending.
    fn numbers(&self, from: usize) -> Result<(List<u32>, usize), Stop>
        ensures found { IfOk result (λ r. spec.numbers self.now.text.now from ≡ Some r) }
        ensures none { IsErrOf result stop.Absent → spec.numbers self.now.text.now from ≡ None }
    {
        let mut numbers = List::new(self.alloc);
        let mut least: u64 = 0;
        let mut at = from;
        for _i in 0..self.text.len() {
            if !next_is(b' ', self.text, at) {
                return Ok((numbers, at));
            }
            let (n, to) = self.inv(at + 1)?;
            if u64::from(n) < least {
                return Err(Stop::Absent);
            }
            numbers.push(n)?;
            least = u64::from(n) + 1;
            at = to;
        }
        Ok((numbers, at))
    }

    /// Values, each behind a space, at places that ask these types.
    fn values(&self, tys: &[Ty], from: usize) -> Result<(List<Value>, usize), Stop>
        ensures found { IfOk result
            (λ r. spec.values (prog self.now) self.now.text.now tys.now from ≡ Some (values_at r)) }
        ensures none { IsErrOf result stop.Absent
            → spec.values (prog self.now) self.now.text.now tys.now from ≡ None }
    {
        let mut values = List::new(self.alloc);
        let mut at = from;
        for i in 0..self.text.len() {
            if !next_is(b' ', self.text, at) {
                return Ok((values, at));
            }
            at = self.add_value(asked_at(tys, i), at + 1, &mut values)?;
        }
        Ok((values, at))
    }

    fn invoke(&self, at: usize) -> Result<(Step, usize), Stop>
        ensures found { IfOk result
            (λ r. spec.invoke (prog self.now) self.now.text.now at ≡ Some (label_at r)) }
        ensures none { IsErrOf result stop.Absent
            → spec.invoke (prog self.now) self.now.text.now at ≡ None }
    {
        let Some(to) = name_end(self.text, at) else {
            return Err(Stop::Absent);
        };
        let Some(proc) = self.names.proc_called(&self.text[at..to]) else {
            return Err(Stop::Absent);
        };
        let (args, end) = self.values(params_of(self.names.program, proc), to)?;
        Ok((Step::Invoke { proc, args }, end))
    }

    fn begin(&self, at: usize) -> Result<(Step, usize), Stop>
        ensures found { IfOk result (λ r. spec.begin self.now.text.now at ≡ Some (label_at r)) }
        ensures none { IsErrOf result stop.Absent → spec.begin self.now.text.now at ≡ None }
    {
        let (inv, at) = self.inv(at)?;
        let at = self.behind(b" stamp ", at)?;
        let (stamp, at) = self.stamp(at)?;
        let at = self.behind(b" sees", at)?;
        let (sees, at) = self.numbers(at)?;
        Ok((Step::Begin { inv, stamp, sees }, at))
    }

    fn op(&self, at: usize) -> Result<(Step, usize), Stop>
        ensures found { IfOk result (λ r. spec.op self.now.text.now at ≡ Some (label_at r)) }
        ensures none { IsErrOf result stop.Absent → spec.op self.now.text.now at ≡ None }
    {
        let (inv, at) = self.inv(at)?;
        let at = self.behind(b" stamp ", at)?;
        let (stamp, at) = self.stamp(at)?;
        Ok((Step::Op { inv, stamp }, at))
    }

    fn new_id(&self, at: usize) -> Result<(Step, usize), Stop>
        ensures found { IfOk result
            (λ r. spec.new (prog self.now) self.now.text.now at ≡ Some (label_at r)) }
        ensures none { IsErrOf result stop.Absent
            → spec.new (prog self.now) self.now.text.now at ≡ None }
    {
        let (inv, at) = self.inv(at)?;
        let at = self.behind(b" ", at)?;
        let (id, at) = self.whole_value(None, at)?;
        Ok((Step::New { inv, id }, at))
    }

    fn check(&self, at: usize) -> Result<(Step, usize), Stop>
        ensures found { IfOk result (λ r. spec.check self.now.text.now at ≡ Some (label_at r)) }
        ensures none { IsErrOf result stop.Absent → spec.check self.now.text.now at ≡ None }
    {
        let (sees, at) = self.numbers(at)?;
        Ok((Step::Check { sees }, at))
    }

    /// The step at the front of the line that says an invocation alone.
    fn short_step(&self) -> Result<(Step, usize), Stop>
        ensures found { IfOk result (λ r. spec.short_label self.now.text.now ≡ Some (label_at r)) }
        ensures none { IsErrOf result stop.Absent → spec.short_label self.now.text.now ≡ None }
    {
        if let Some(at) = word(b"local ", self.text, 0) {
            let (inv, at) = self.inv(at)?;
            return Ok((Step::Local { inv }, at));
        }
        if let Some(at) = word(b"commit ", self.text, 0) {
            let (inv, at) = self.inv(at)?;
            return Ok((Step::Commit { inv }, at));
        }
        if let Some(at) = word(b"return ", self.text, 0) {
            let (inv, at) = self.inv(at)?;
            return Ok((Step::Return { inv }, at));
        }
        if let Some(at) = word(b"fail ", self.text, 0) {
            let (inv, at) = self.inv(at)?;
            return Ok((Step::Fail { inv }, at));
        }
        Err(Stop::Absent)
    }

    /// The step at the front of the line.
    fn front_step(&self) -> Result<(Step, usize), Stop>
        ensures found { IfOk result
            (λ r. spec.front_label (prog self.now) self.now.text.now ≡ Some (label_at r)) }
        ensures none { IsErrOf result stop.Absent
            → spec.front_label (prog self.now) self.now.text.now ≡ None }
    {
        if let Some(at) = word(b"invoke ", self.text, 0) {
            return self.invoke(at);
        }
        if let Some(at) = word(b"begin ", self.text, 0) {
            return self.begin(at);
        }
        if let Some(at) = word(b"op ", self.text, 0) {
            return self.op(at);
        }
        if let Some(at) = word(b"new ", self.text, 0) {
            return self.new_id(at);
        }
        if let Some(at) = word(b"check", self.text, 0) {
            return self.check(at);
        }
        self.short_step()
    }

    /// The step that the whole line is.
    #[tactic(auto, unfolding(crate::specs::means::Reading::label))]
    pub(crate) fn step(&self) -> Result<Step, Stop>
        ensures found { IfOk result (λ s. spec.label (prog self.now) self.now.text.now ≡ Some (label_view s)) }
        ensures none { IsErrOf result stop.Absent
            → spec.label (prog self.now) self.now.text.now ≡ None }
    {
        let (step, to) = self.front_step()?;
        if !ends(self.text, to) {
            return Err(Stop::Absent);
        }
        Ok(step)
    }
}
