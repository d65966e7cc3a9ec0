// Why a step is refused: each test, and the first that applies.
ghost use Rattle.std.specs.Prelude.{◌≡◌, ◌<◌, ℕ, IfOk, [], ◌∷◌, Some, None, length, map, option_map, option_and_then};
ghost use Rattle.std.specs.List.Sorted.{IsStrictlyIncreasing};
ghost use Rattle.rp_value.specs.ValueView.{value_view};
ghost use Rattle.rp_lang.specs.Programs.{Prog};
ghost use Rattle.rp_lang.specs.ProgramView.{program_view};
ghost use Rattle.event_machine.specs.Machine as spec;
ghost use Rattle.event_machine.specs.States as seen;
ghost use Rattle.code_points.specs.ActionView.{action_view};
ghost use Rattle.machine_state.specs.means.Refusals as refusals;
ghost use Rattle.machine_state.specs.StateView.{state_view};
ghost use Rattle.step_labels.specs.StepLabels.{label_view};
ghost use Rattle.machine_state.specs.StepView.{why_view};
ghost use Rattle.machine_state.specs.Fits.{Fits, StepFits};

use crate::state::State;
use machine_tests::{
    are_of, greatest_stamp, has_atom, has_stamp, least_open, missing, outside, unknown,
};
use rp_lang::{Action, Program, Refusal, Step};
use rp_value::{Memory, Value};
use std::alloc::Global;

/// The invocation that the step names.
fn named(step: &Step) -> Option<u32>
    ensures { result ≡ spec.named (label_view step.now) }
{
    match step {
        Step::Begin { inv, .. } => Some(*inv),
        Step::Op { inv, .. } => Some(*inv),
        Step::Local { inv } => Some(*inv),
        Step::New { inv, .. } => Some(*inv),
        Step::Commit { inv } => Some(*inv),
        Step::Return { inv } => Some(*inv),
        Step::Fail { inv } => Some(*inv),
        Step::Invoke { .. } => None,
        Step::Check { .. } => None,
    }
}

/// The action of the step's kind.
fn action_of(step: &Step) -> Option<Action>
    ensures { option_map action_view result ≡ spec.action_of (label_view step.now) }
{
    match step {
        Step::Begin { .. } => Some(Action::Begin),
        Step::Op { .. } => Some(Action::Op),
        Step::Local { .. } => Some(Action::Local),
        Step::New { .. } => Some(Action::New),
        Step::Commit { .. } => Some(Action::Commit),
        Step::Return { .. } => Some(Action::Return),
        Step::Invoke { .. } => None,
        Step::Fail { .. } => None,
        Step::Check { .. } => None,
    }
}

fn number(action: Action) -> u8
    ensures { result ≡ refusals.action_number (action_view action) }
{
    match action {
        Action::Begin => 0,
        Action::Op => 1,
        Action::Local => 2,
        Action::New => 3,
        Action::Commit => 4,
        Action::Return => 5,
    }
}

/// Whether the actions are one.
#[tactic(auto, using(crate::proofs::RefusalLemmas::same_number))]
fn is_same(a: Action, b: Action) -> bool
    ensures { result ≡ spec.is_same (action_view a) (action_view b) }
{
    number(a) == number(b)
}

/// Whether this type is asked.
fn is_type(ty: u32, asked: Option<u32>) -> bool
    ensures { result ≡ refusals.is_type ty asked }
{
    match asked {
        Some(asked) => ty == asked,
        None => false,
    }
}

/// Where the next action is another one.
fn another_point(action: Option<Action>, next: Action) -> Option<Refusal>
    ensures { (inv : seen.Invocation) → spec.next_action inv.left ≡ action_view next
        → option_map why_view result
        ≡ spec.first_why (option_and_then (refusals.another_point inv) (option_map action_view action) ∷ []) }
{
    match action {
        Some(action) => if is_same(action, next) {
            None
        } else {
            Some(Refusal::WrongPoint(next))
        },
        None => None,
    }
}

impl<'p> State<'p> {
    /// Where the invocation can't do the action: there is none, it isn't running, or it does something else next.
    fn not_at(&self, p: &Program, i: u32, action: Option<Action>) -> Option<Refusal>
        requires { Fits p.now self.now }
        ensures why { option_map why_view result
            ≡ refusals.not_at (state_view (program_view p.now) self.now) i (option_map action_view action) }
        ensures within { result ≡ None → i < length self.now.runs }
    {
        if i >= self.runs.count() {
            return Some(Refusal::NoInvocation(i));
        }
        if !self.is_running(i) {
            return Some(Refusal::NotRunning(i));
        }
        another_point(action, self.next_of(p, i))
    }

    /// The refusals of an Invoke.
    fn refused_invoke(
        &self,
        alloc: Global,
        p: &Program,
        proc: u32,
        args: &[Value],
    ) -> Result<Option<Refusal>, Memory>
        requires fits { Fits p.now self.now }
        requires within { proc < length p.now.procs }
        ensures { IfOk result (λ why. option_map why_view why
            ≡ refusals.behind (program_view p.now) (state_view (program_view p.now) self.now)
            (seen.Invoke proc (map value_view args.now))) }
    {
        if !are_of(args, p, p.procs.get(proc as usize).params.as_slice()) {
            return Ok(Some(Refusal::BadArgs));
        }
        match unknown(args, p, self.known.as_slice()) {
            Some(id) => return Ok(Some(Refusal::UnknownId(id.copy(alloc)?))),
            None => (),
        }
        match outside(args, self.universe) {
            Some(value) => Ok(Some(Refusal::OutOfUniverse(value.copy(alloc)?))),
            None => Ok(None),
        }
    }

    /// The refusals of a New, where the id type that is asked is this.
    #[tactic(auto, using(rp_value::proofs::ValueViews::value_views))]
    fn refused_atom(&self, asked: Option<u32>, ty: u32, num: u32) -> Option<Refusal>
        ensures { (p : Prog) → option_map why_view result ≡ refusals.refused_atom (state_view p self.now) asked ty num }
    {
        if !is_type(ty, asked) {
            return Some(Refusal::BadArgs);
        }
        if has_atom(self.generated.as_slice(), ty, num) {
            return Some(Refusal::NotFresh(Value::Atom { ty, num }));
        }
        if num < self.universe {
            None
        } else {
            Some(Refusal::OutOfUniverse(Value::Atom { ty, num }))
        }
    }

    /// The refusals of a New, where there is such an invocation.
    fn refused_new(&self, p: &Program, i: u32, id: &Value) -> Option<Refusal>
        requires fits { Fits p.now self.now }
        requires within { i < length self.now.runs }
        ensures { option_map why_view result
            ≡ refusals.behind (program_view p.now) (state_view (program_view p.now) self.now) (seen.New i (value_view id.now)) }
    {
        match id {
            Value::Atom { ty, num } => self.refused_atom(self.new_of(p, i), *ty, *num),
            Value::Int(_) => Some(Refusal::BadArgs),
            Value::Str(_) => Some(Refusal::BadArgs),
            Value::Con { .. } => Some(Refusal::BadArgs),
            Value::Call(_) => Some(Refusal::BadArgs),
            Value::Inv(_) => Some(Refusal::BadArgs),
        }
    }

    /// Why these transactions can't be seen by one that saw the earlier ones.
    fn unseeable(&self, p: &Program, sees: &[u32], earlier: &[u32]) -> Option<Refusal>
        requires fits { Fits p.now self.now }
        requires sees { IsStrictlyIncreasing sees.now }
        requires earlier { IsStrictlyIncreasing earlier.now }
        ensures { option_map why_view result
            ≡ refusals.unseeable (state_view (program_view p.now) self.now) sees.now earlier.now }
    {
        match least_open(self.committed.as_slice(), sees) {
            Some(tx) => return Some(Refusal::NotCommitted(tx)),
            None => (),
        }
        match missing(&self.history, self.owners.count(), sees, earlier) {
            Some(tx) => Some(Refusal::NotClosed(tx)),
            None => None,
        }
    }

    /// Why a call can't have the stamp, whose past is the calls of these transactions and of the open one.
    fn bad_stamp(&self, stamp: u64, sees: &[u32], tx: Option<u32>) -> Option<Refusal>
        requires { IsStrictlyIncreasing sees.now }
        ensures { (p : Prog) → option_map why_view result ≡ refusals.bad_stamp (state_view p self.now) stamp sees.now tx }
    {
        if has_stamp(&self.history, stamp) {
            return Some(Refusal::StampUsed(stamp));
        }
        let greatest = greatest_stamp(&self.history, sees, tx);
        if greatest <= stamp {
            None
        } else {
            Some(Refusal::StampLow(greatest))
        }
    }

    /// The refusals of a Begin, where there is such an invocation.
    fn refused_begin(&self, p: &Program, i: u32, stamp: u64, sees: &[u32]) -> Option<Refusal>
        requires fits { Fits p.now self.now }
        requires within { i < length self.now.runs }
        requires sees { IsStrictlyIncreasing sees.now }
        ensures { option_map why_view result
            ≡ refusals.behind (program_view p.now) (state_view (program_view p.now) self.now) (seen.Begin i stamp sees.now) }
    {
        match self.unseeable(p, sees, self.runs.get(i).seen.as_slice()) {
            Some(why) => Some(why),
            None => self.bad_stamp(stamp, sees, None),
        }
    }

    /// The refusals of an Op, where there is such an invocation.
    fn refused_op(&self, p: &Program, i: u32, stamp: u64) -> Option<Refusal>
        requires fits { Fits p.now self.now }
        requires within { i < length self.now.runs }
        ensures { option_map why_view result
            ≡ refusals.behind (program_view p.now) (state_view (program_view p.now) self.now) (seen.Op i stamp) }
    {
        let run = self.runs.get(i);
        self.bad_stamp(stamp, run.seen.as_slice(), run.tx)
    }

    /// The refusals of a Check.
    fn refused_check(&self, p: &Program, sees: &[u32]) -> Option<Refusal>
        requires fits { Fits p.now self.now }
        requires sees { IsStrictlyIncreasing sees.now }
        ensures { option_map why_view result
            ≡ refusals.behind (program_view p.now) (state_view (program_view p.now) self.now) (seen.Check sees.now) }
    {
        self.unseeable(p, sees, &[])
    }

    /// The refusals of a step from bad arguments on, where there is the invocation that it names.
    fn refused_behind(
        &self,
        alloc: Global,
        p: &Program,
        step: &Step,
    ) -> Result<Option<Refusal>, Memory>
        requires fits { Fits p.now self.now }
        requires step { StepFits p.now step.now }
        requires within { (i : ℕ) → spec.named (label_view step.now) ≡ Some i → i < length self.now.runs }
        ensures { IfOk result (λ why. option_map why_view why
            ≡ refusals.behind (program_view p.now) (state_view (program_view p.now) self.now) (label_view step.now)) }
    {
        match step {
            Step::Invoke { proc, args } => self.refused_invoke(alloc, p, *proc, args.as_slice()),
            Step::Begin { inv, stamp, sees } => Ok(self.refused_begin(
                p,
                *inv,
                *stamp,
                sees.as_slice(),
            )),
            Step::Op { inv, stamp } => Ok(self.refused_op(p, *inv, *stamp)),
            Step::New { inv, id } => Ok(self.refused_new(p, *inv, id)),
            Step::Check { sees } => Ok(self.refused_check(p, sees.as_slice())),
            Step::Local { .. } => Ok(None),
            Step::Commit { .. } => Ok(None),
            Step::Return { .. } => Ok(None),
            Step::Fail { .. } => Ok(None),
        }
    }

    /// Why the step is refused: the first test that applies.
    pub fn refusal(
        &self,
        alloc: Global,
        p: &Program,
        step: &Step,
    ) -> Result<Option<Refusal>, Memory>
        requires fits { Fits p.now self.now }
        requires step { StepFits p.now step.now }
        ensures { IfOk result (λ why. option_map why_view why
            ≡ spec.refusal (program_view p.now) (state_view (program_view p.now) self.now) (label_view step.now)) }
    {
        match named(step) {
            Some(inv) => match self.not_at(p, inv, action_of(step)) {
                Some(why) => Ok(Some(why)),
                None => self.refused_behind(alloc, p, step),
            },
            None => self.refused_behind(alloc, p, step),
        }
    }
}
