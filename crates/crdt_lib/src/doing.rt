// What a call does.
ghost use Rattle.std.specs.Prelude.{◌≡◌, ◌≤◌, ◌&&◌, length, slice_get, map, take, nat_eq};
ghost use Rattle.rp_value.specs.ValueView.{value_view};
ghost use Rattle.crdt_defs.specs.SameValues.{same_val, value_is};
ghost use Rattle.crdt_defs.specs.Calls.{call_view};
ghost use Rattle.crdt_defs.specs.Doing as spec;

use crdt_defs::CallRec;
use rp_lang::{OpDecl, OpKind, PathStep};
use rp_value::Value;

fn is_key(step: PathStep) -> bool
    ensures { result ≡ spec.is_key step }
{
    match step {
        PathStep::Key(_) => true,
        PathStep::Field(_) => false,
    }
}

/// How many steps of the path are keys.
pub fn keys_in(path: &[PathStep]) -> usize
    ensures keys { result ≡ spec.keys_in path.now }
    ensures few { result ≤ length path.now }
{
    let mut keys = 0;
    for step in path {
        if is_key(*step) {
            keys += 1;
        }
    }
    keys
}

/// How many of the first `depth` steps are keys.
fn keys_before(path: &[PathStep], depth: usize) -> usize
    ensures { result ≡ spec.keys_in (take depth path.now) }
{
    if depth < path.len() {
        keys_in(&path[..depth])
    } else {
        keys_in(path)
    }
}

pub(crate) fn same_kind(a: OpKind, b: OpKind) -> bool
    ensures { result ≡ spec.same_kind a b }
{
    match a {
        OpKind::Tx => matches!(b, OpKind::Tx),
        OpKind::Add => matches!(b, OpKind::Add),
        OpKind::Remove => matches!(b, OpKind::Remove),
        OpKind::Assign => matches!(b, OpKind::Assign),
        OpKind::Increment => matches!(b, OpKind::Increment),
        OpKind::Delete => matches!(b, OpKind::Delete),
    }
}

fn same(a: &Value, b: &Value) -> bool
    ensures { result ≡ same_val (value_view a.now) (value_view b.now) }
{
    a.same(b)
}

/// Whether there is an argument i, and it is x.
#[tactic(auto, using(crdt_defs::proofs::SameLemmas::arg_seen))]
fn arg_is(args: &[Value], i: usize, x: &Value) -> bool
    ensures { result ≡ value_is (value_view x.now) (slice_get (map value_view args.now) i) }
{
    match args.get(i) {
        Some(arg) => same(x, arg),
        None => false,
    }
}

pub(crate) fn on_root(ops: &[OpDecl], root: u32, call: &CallRec) -> bool
    ensures { result ≡ spec.on_root ops.now root (call_view call.now) }
{
    match ops.get(call.op as usize) {
        Some(op) => op.root == root,
        None => false,
    }
}

/// Whether the call is an operation of this kind.
pub(crate) fn is_of(ops: &[OpDecl], kind: OpKind, call: &CallRec) -> bool
    ensures { result ≡ spec.is_of ops.now kind (call_view call.now) }
{
    match ops.get(call.op as usize) {
        Some(op) => same_kind(op.kind, kind),
        None => false,
    }
}

/// Whether the operation's own argument is x.
fn own_is(op: &OpDecl, args: &[Value], x: &Value) -> bool
    ensures { result ≡ value_is (value_view x.now) (slice_get (map value_view args.now) (spec.keys_in op.now.path)) }
{
    arg_is(args, keys_in(op.path.as_slice()), x)
}

/// Whether the call is an operation of this kind, with x as its own argument.
pub(crate) fn does(ops: &[OpDecl], kind: OpKind, x: &Value, call: &CallRec) -> bool
    ensures { result ≡ spec.does ops.now kind (value_view x.now) (call_view call.now) }
{
    match ops.get(call.op as usize) {
        Some(op) => same_kind(op.kind, kind) && own_is(op, call.args.as_slice(), x),
        None => false,
    }
}

fn step_is_field(path: &[PathStep], depth: usize, n: u32) -> bool
    ensures { result ≡ spec.is_field n (slice_get path.now depth) }
{
    match path.get(depth) {
        Some(PathStep::Field(m)) => n == *m,
        Some(PathStep::Key(_)) => false,
        None => false,
    }
}

fn step_is_key(path: &[PathStep], depth: usize) -> bool
    ensures { result ≡ spec.is_some_key (slice_get path.now depth) }
{
    match path.get(depth) {
        Some(step) => is_key(*step),
        None => false,
    }
}

/// Whether the call's path goes on to the field n after `depth` steps.
pub(crate) fn goes_to_field(ops: &[OpDecl], depth: usize, n: u32, call: &CallRec) -> bool
    ensures { result ≡ spec.goes_to_field ops.now depth n (call_view call.now) }
{
    match ops.get(call.op as usize) {
        Some(op) => step_is_field(op.path.as_slice(), depth, n),
        None => false,
    }
}

/// Whether the path's step behind the first `depth` ones is the key k.
fn key_is(path: &[PathStep], args: &[Value], depth: usize, k: &Value) -> bool
    ensures { result ≡ (spec.is_some_key (slice_get path.now depth) && value_is (value_view k.now) (slice_get (map value_view args.now) (spec.keys_in (take depth path.now)))) }
{
    step_is_key(path, depth) && arg_is(args, keys_before(path, depth), k)
}

/// Whether the call's path goes on to the key k after `depth` steps.
pub(crate) fn goes_to_key(ops: &[OpDecl], depth: usize, k: &Value, call: &CallRec) -> bool
    ensures { result ≡ spec.goes_to_key ops.now depth (value_view k.now) (call_view call.now) }
{
    match ops.get(call.op as usize) {
        Some(op) => key_is(op.path.as_slice(), call.args.as_slice(), depth, k),
        None => false,
    }
}

fn has_depth(ops: &[OpDecl], depth: usize, call: &CallRec) -> bool
    ensures { result ≡ spec.op_is ops.now (λ op. nat_eq (length op.path) depth) (call_view call.now) }
{
    match ops.get(call.op as usize) {
        Some(op) => op.path.len() == depth,
        None => false,
    }
}

/// Whether the call deletes the key k of the map at the end of a path of `depth` steps.
pub(crate) fn deletes(ops: &[OpDecl], depth: usize, k: &Value, call: &CallRec) -> bool
    ensures { result ≡ spec.deletes ops.now depth (value_view k.now) (call_view call.now) }
{
    has_depth(ops, depth, call) && does(ops, OpKind::Delete, k, call)
}
