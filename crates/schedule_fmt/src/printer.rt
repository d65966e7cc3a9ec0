//! Texts of values and steps.
ghost use Rattle.std.specs.Prelude.{◌≡◌, ◌++◌, [], ◌∷◌, ◌==◌, if◌then◌else◌, codes, decimal, map, OnOk};
ghost use Rattle.std.specs.Fmt.{signed_decimal};
ghost use Rattle.rp_value.specs.ValueView.{value_view, values_view};
ghost use Rattle.rp_lang.specs.ProgramView.{program_view};
ghost use Rattle.schedule_fmt.specs.Texts as spec;
ghost use Rattle.schedule_fmt.specs.Views.{label_view};

use program_names::{atom_name, con_name, proc_name};
use rp_lang::{Program, Step};
use rp_value::{Memory, Value};

fn put(out: &mut Vec<u8>, text: &[u8]) -> Result<(), Memory>
    ensures { OnOk result (out.new.items ≡ out.old.items ++ text.now) }
{
    out.extend_from_slice(text)?;
    Ok(())
}

fn put_number(out: &mut Vec<u8>, n: u64) -> Result<(), Memory>
    ensures { OnOk result (out.new.items ≡ out.old.items ++ decimal n) }
{
    let mut digits = itoa::Buffer::new();
    put(out, digits.format(n).as_bytes())
}

fn put_int(out: &mut Vec<u8>, n: i128) -> Result<(), Memory>
    ensures { OnOk result (out.new.items ≡ out.old.items ++ signed_decimal n) }
{
    let mut digits = itoa::Buffer::new();
    let text = digits.format(n);
    put(out, text.as_bytes())
}

/// A byte of a string.
fn put_byte(out: &mut Vec<u8>, b: u8) -> Result<(), Memory>
    ensures { OnOk result (out.new.items ≡ out.old.items ++ spec.written b) }
{
    if b == b'\n' {
        return put(out, b"\\n");
    }
    if b == b'"' || b == b'\\' {
        out.push(b'\\')?;
    }
    out.push(b)?;
    Ok(())
}

fn put_escaped(out: &mut Vec<u8>, bytes: &[u8]) -> Result<(), Memory>
    ensures { OnOk result (out.new.items ≡ out.old.items ++ spec.escape bytes.now) }
{
    for b in bytes {
        put_byte(out, *b)?;
    }
    Ok(())
}

#[tactic(auto, using(crate::proofs::Appends::appends))]
fn put_string(out: &mut Vec<u8>, bytes: &[u8]) -> Result<(), Memory>
    ensures { OnOk result (out.new.items ≡ out.old.items ++ spec.string_text bytes.now) }
{
    out.push(b'"')?;
    put_escaped(out, bytes)?;
    out.push(b'"')?;
    Ok(())
}

#[tactic(auto, using(crate::proofs::Appends::appends))]
fn put_atom(out: &mut Vec<u8>, p: &Program, ty: u32, num: u32) -> Result<(), Memory>
    ensures { OnOk result (out.new.items ≡ out.old.items ++ spec.atom_text (program_view p.now) ty num) }
{
    put(out, atom_name(p, ty))?;
    out.push(b'#')?;
    put_number(out, num as u64)
}

#[cycle(put_value)]
#[tactic(auto, using(rp_value::proofs::ValueViews::value_views, crate::proofs::Appends::appends))]
pub(crate) fn put_value(out: &mut Vec<u8>, value: &Value, p: &Program) -> Result<(), Memory>
    ensures { OnOk result (out.new.items ≡ out.old.items ++ spec.value_text (program_view p.now) (value_view value.now)) }
{
    match value {
        Value::Int(n) => put_int(out, *n),
        Value::Str(bytes) => put_string(out, bytes.as_slice()),
        Value::Atom { ty, num } => put_atom(out, p, *ty, *num),
        Value::Con { con, args } => put_con(out, *con, args.as_slice(), p),
        Value::Call(_) => put(out, &[]),
        Value::Inv(_) => put(out, &[]),
    }
}

/// A constructor with its arguments.
#[cycle(put_value)]
#[tactic(auto, using(crate::proofs::Appends::appends))]
fn put_con(out: &mut Vec<u8>, con: u32, args: &[Value], p: &Program) -> Result<(), Memory>
    ensures { OnOk result (out.new.items ≡ out.old.items
        ++ (spec.con_name (program_view p.now) con ++ spec.args_text (program_view p.now) (values_view args.now))) }
{
    put(out, con_name(p, con))?;
    put_args(out, args, p)
}

/// What stands before an argument.
fn opening(i: usize) -> u8
    ensures { result ≡ (if i == 0 then 40 else 44) }
{
    if i == 0 { b'(' } else { b',' }
}

/// What stands behind so many arguments.
fn put_closing(out: &mut Vec<u8>, args: usize) -> Result<(), Memory>
    ensures { OnOk result (out.new.items ≡ out.old.items ++ (if args == 0 then [] else 41 ∷ [])) }
{
    if args == 0 {
        put(out, &[])
    } else {
        put(out, b")")
    }
}

/// The arguments of a constructor, in parentheses if there are any.
#[cycle(put_value)]
fn put_args(out: &mut Vec<u8>, args: &[Value], p: &Program) -> Result<(), Memory>
    ensures { OnOk result (out.new.items ≡ out.old.items ++ spec.args_text (program_view p.now) (values_view args.now)) }
{
    for (i, arg) in args.iter().enumerate() {
        out.push(opening(i))?;
        put_value(out, arg, p)?;
    }
    put_closing(out, args.len())
}

/// Each value behind a space.
fn put_values(out: &mut Vec<u8>, p: &Program, values: &[Value]) -> Result<(), Memory>
    ensures { OnOk result (out.new.items ≡ out.old.items ++ spec.values_text (program_view p.now) (values_view values.now)) }
{
    for value in values {
        out.push(b' ')?;
        put_value(out, value, p)?;
    }
    Ok(())
}

/// Each number behind a space.
fn put_numbers(out: &mut Vec<u8>, numbers: &[u32]) -> Result<(), Memory>
    ensures { OnOk result (out.new.items ≡ out.old.items ++ spec.numbers_text numbers.now) }
{
    for n in numbers {
        out.push(b' ')?;
        put_number(out, *n as u64)?;
    }
    Ok(())
}

#[tactic(auto, using(crate::proofs::Appends::appends))]
fn put_invoke(out: &mut Vec<u8>, p: &Program, proc: u32, args: &[Value]) -> Result<(), Memory>
    ensures { OnOk result (out.new.items ≡ out.old.items ++ spec.invoke_text (program_view p.now) proc (values_view args.now)) }
{
    put(out, b"invoke ")?;
    put(out, proc_name(p, proc))?;
    put_values(out, p, args)
}

#[tactic(auto, using(crate::proofs::Appends::appends))]
fn put_begin(out: &mut Vec<u8>, inv: u32, stamp: u64, sees: &[u32]) -> Result<(), Memory>
    ensures { OnOk result (out.new.items ≡ out.old.items ++ spec.begin_text inv stamp sees.now) }
{
    put(out, b"begin ")?;
    put_number(out, inv as u64)?;
    put(out, b" stamp ")?;
    put_number(out, stamp)?;
    put(out, b" sees")?;
    put_numbers(out, sees)
}

#[tactic(auto, using(crate::proofs::Appends::appends))]
fn put_op(out: &mut Vec<u8>, inv: u32, stamp: u64) -> Result<(), Memory>
    ensures { OnOk result (out.new.items ≡ out.old.items ++ spec.op_text inv stamp) }
{
    put(out, b"op ")?;
    put_number(out, inv as u64)?;
    put(out, b" stamp ")?;
    put_number(out, stamp)
}

#[tactic(auto, using(crate::proofs::Appends::appends))]
fn put_new(out: &mut Vec<u8>, p: &Program, inv: u32, id: &Value) -> Result<(), Memory>
    ensures { OnOk result (out.new.items ≡ out.old.items ++ spec.new_text (program_view p.now) inv (value_view id.now)) }
{
    put(out, b"new ")?;
    put_number(out, inv as u64)?;
    out.push(b' ')?;
    put_value(out, id, p)
}

/// A word with a space behind it, and a number.
#[tactic(auto, using(crate::proofs::Appends::appends))]
fn put_numbered(out: &mut Vec<u8>, word: &[u8], n: u32) -> Result<(), Memory>
    ensures { OnOk result (out.new.items ≡ out.old.items ++ (word.now ++ decimal n)) }
{
    put(out, word)?;
    put_number(out, n as u64)
}

#[tactic(auto, using(crate::proofs::Appends::appends))]
fn put_check(out: &mut Vec<u8>, sees: &[u32]) -> Result<(), Memory>
    ensures { OnOk result (out.new.items ≡ out.old.items ++ spec.check_text sees.now) }
{
    put(out, b"check")?;
    put_numbers(out, sees)
}

fn put_step(out: &mut Vec<u8>, p: &Program, step: &Step) -> Result<(), Memory>
    ensures { OnOk result (out.new.items ≡ out.old.items ++ spec.label_text (program_view p.now) (label_view step.now)) }
{
    match step {
        Step::Invoke { proc, args } => put_invoke(out, p, *proc, args.as_slice()),
        Step::Begin { inv, stamp, sees } => put_begin(out, *inv, *stamp, sees.as_slice()),
        Step::Op { inv, stamp } => put_op(out, *inv, *stamp),
        Step::Local { inv } => put_numbered(out, b"local ", *inv),
        Step::New { inv, id } => put_new(out, p, *inv, id),
        Step::Commit { inv } => put_numbered(out, b"commit ", *inv),
        Step::Return { inv } => put_numbered(out, b"return ", *inv),
        Step::Fail { inv } => put_numbered(out, b"fail ", *inv),
        Step::Check { sees } => put_check(out, sees.as_slice()),
    }
}

fn put_steps(out: &mut Vec<u8>, p: &Program, steps: &[Step]) -> Result<(), Memory>
    ensures { OnOk result (out.new.items ≡ out.old.items ++ spec.labels_text (program_view p.now) (map label_view steps.now)) }
{
    for step in steps {
        put_step(out, p, step)?;
        out.push(b'\n')?;
    }
    Ok(())
}

/// The text of a schedule with this universe and these steps.
#[tactic(auto, using(crate::proofs::Appends::appends))]
pub(crate) fn put_schedule(
    out: &mut Vec<u8>,
    p: &Program,
    universe: u32,
    steps: &[Step],
) -> Result<(), Memory>
    ensures { OnOk result (out.new.items ≡ out.old.items
        ++ spec.schedule_text (program_view p.now) (spec.sched universe (map label_view steps.now))) }
{
    put(out, b"repliss-schedule 1\nuniverse ")?;
    put_number(out, universe as u64)?;
    out.push(b'\n')?;
    put_steps(out, p, steps)?;
    Ok(())
}
