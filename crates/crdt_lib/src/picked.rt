// Calls that decide a query, as a list of their numbers, so that a candidate is compared with each of them alone.
ghost use Rattle.std.specs.Prelude.{◌≡◌, ◌<◌, ◌≤◌, ◌&&◌, not, length, take, All};
ghost use Rattle.rp_value.specs.ValueView.{value_view};
ghost use Rattle.crdt_defs.specs.Calls.{calls_view};
ghost use Rattle.crdt_defs.specs.Histories.{some_call};
ghost use Rattle.crdt_defs.specs.Snapshots.{bit};
ghost use Rattle.crdt_defs.specs.Doing as spec;
ghost use Rattle.crdt_defs.specs.Meaning.{among, is_before_one, one_stays};
ghost use Rattle.crdt_lib.specs.means.Picked.{listed};

use crate::history::{History, MOST};
use crate::row::{does_here, is_here};
use rp_lang::{OpDecl, OpKind};
use rp_value::Value;

/// Puts those of `counted` that do this with x into the front of the list, and says how many there are.
pub(crate) fn pick(
    h: &History,
    ops: &[OpDecl],
    counted: &[bool],
    kind: OpKind,
    x: &Value,
    list: &mut [u32],
) -> usize
    requires from { length counted.now ≡ length h.now }
    requires room { length list.old ≡ 16384 }
    ensures room { length list.new ≡ 16384 }
    ensures few { result ≤ 16384 }
    ensures calls { All (λ d. d < length h.now) (take result list.new) }
    ensures picked { listed (take result list.new) ≡ among (calls_view h.now) (bit counted.now) (spec.does ops.now kind (value_view x.now)) }
{
    let mut picked = 0;
    for c in 0..h.len() {
        if does_here(h, ops, counted, kind, x, c) {
            list[picked] = c;
            picked += 1;
        }
    }
    picked
}

/// Puts those of `counted` that are of this kind into the front of the list, and says how many there are.
pub(crate) fn pick_kind(
    h: &History,
    ops: &[OpDecl],
    counted: &[bool],
    kind: OpKind,
    list: &mut [u32],
) -> usize
    requires from { length counted.now ≡ length h.now }
    requires room { length list.old ≡ 16384 }
    ensures room { length list.new ≡ 16384 }
    ensures few { result ≤ 16384 }
    ensures calls { All (λ d. d < length h.now) (take result list.new) }
    ensures picked { listed (take result list.new) ≡ among (calls_view h.now) (bit counted.now) (spec.is_of ops.now kind) }
{
    let mut picked = 0;
    for c in 0..h.len() {
        if is_here(h, ops, counted, kind, c) {
            list[picked] = c;
            picked += 1;
        }
    }
    picked
}

/// Whether there is a call in the list.
pub(crate) fn is_any(h: &History, calls: &[u32]) -> bool
    requires { All (λ d. d < length h.now) calls.now }
    ensures { result ≡ some_call (calls_view h.now) (listed calls.now) }
{
    !calls.is_empty()
}

/// Whether c is before some call of the list.
fn is_before(h: &History, calls: &[u32], c: u32) -> bool
    requires { All (λ d. d < length h.now) calls.now }
    ensures { result ≡ is_before_one (calls_view h.now) (listed calls.now) c }
{
    for d in calls {
        if h.before(c, *d) {
            return true;
        }
    }
    false
}

/// Whether c counts, does this with x, and is before no call of the list.
fn stays(
    h: &History,
    ops: &[OpDecl],
    counted: &[bool],
    kind: OpKind,
    x: &Value,
    calls: &[u32],
    c: u32,
) -> bool
    requires from { length counted.now ≡ length h.now }
    requires calls { All (λ d. d < length h.now) calls.now }
    requires at_c { c < length h.now }
    ensures { result ≡ (among (calls_view h.now) (bit counted.now) (spec.does ops.now kind (value_view x.now)) c && not (is_before_one (calls_view h.now) (listed calls.now) c)) }
{
    does_here(h, ops, counted, kind, x, c) && !is_before(h, calls, c)
}

/// Whether some call of `counted` that does this with x is before no call of the list.
#[tactic(auto, using(crdt_defs::proofs::BelowLemmas::any_more))]
pub(crate) fn any_stays(
    h: &History,
    ops: &[OpDecl],
    counted: &[bool],
    kind: OpKind,
    x: &Value,
    calls: &[u32],
) -> bool
    requires from { length counted.now ≡ length h.now }
    requires calls { All (λ d. d < length h.now) calls.now }
    ensures { result ≡ one_stays (calls_view h.now) (among (calls_view h.now) (bit counted.now) (spec.does ops.now kind (value_view x.now))) (listed calls.now) }
{
    for c in 0..h.len() {
        if stays(h, ops, counted, kind, x, calls, c) {
            return true;
        }
    }
    false
}
