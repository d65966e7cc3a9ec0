//! The numbers of the functions of queries' values.
ghost use Rattle.std.specs.Prelude.{◌≡◌, ◌≤◌, ◌+◌, ◌*◌, ◌-◌, if◌then◌else◌, take, IfOk};
ghost use Rattle.rp_lang.specs.ProgramView.{program_view};
ghost use Rattle.rp_symbols.specs.Numbers as spec;

use crate::functions::is_get;
use crate::numbers::plus;
use rp_lang::{Program, QueryDecl};
use rp_value::{AtomType, Memory};

/// The product, where it fits.
fn times(a: u32, b: u32) -> Result<u32, Memory>
    ensures { IfOk result (λ n. n ≡ a * b) }
{
    match a.checked_mul(b) {
        Some(n) => Ok(n),
        None => Err(Memory),
    }
}

/// The number, and one more where that counts.
fn counted(n: u32, counts: bool) -> Result<u32, Memory>
    ensures { IfOk result (λ m. m ≡ n + (if counts then 1 else 0)) }
{
    if counts { plus(n, 1) } else { Ok(n) }
}

/// How many types of identifiers there are.
fn ids(atoms: &[AtomType]) -> Result<u32, Memory>
    ensures { IfOk result (λ n. n ≡ spec.ids atoms.now) }
{
    let mut count = 0;
    for atom in atoms {
        count = counted(count, atom.is_id)?;
    }
    Ok(count)
}

/// How many of the queries give a value.
fn gets(queries: &[QueryDecl]) -> Result<u32, Memory>
    ensures { IfOk result (λ n. n ≡ spec.gets queries.now) }
{
    let mut count = 0;
    for query in queries {
        count = counted(count, is_get(query.kind))?;
    }
    Ok(count)
}

/// How many of the queries before this one give a value.
fn gets_before(queries: &[QueryDecl], query: u32) -> Result<u32, Memory>
    ensures { IfOk result (λ n. n ≡ spec.gets (take query queries.now)) }
{
    if (query as usize) < queries.len() {
        gets(&queries[..query as usize])
    } else {
        gets(queries)
    }
}

/// The place of a view relation behind those of identifiers.
fn place_behind(p: &Program, view: u32) -> Result<u32, Memory>
    requires { 9 ≤ view }
    ensures { IfOk result (λ n. n ≡ view - 9 - 3 * spec.ids (program_view p.now).types.atoms + 3) }
{
    let ids = times(3, ids(p.types.atoms.as_slice())?)?;
    plus((view - 9).saturating_sub(ids), 3)
}

/// The place of a view relation among the views.
pub fn view_place(p: &Program, view: u32) -> Result<u32, Memory>
    ensures { IfOk result (λ n. n ≡ spec.view_place (program_view p.now) view) }
{
    if view < 1 {
        Ok(0)
    } else if view < 8 {
        Ok(1)
    } else if view < 9 {
        Ok(2)
    } else {
        place_behind(p, view)
    }
}

/// The function of what a query gives at a view.
pub fn val_fn(p: &Program, view: u32, query: u32) -> Result<u32, Memory>
    ensures { IfOk result (λ n. n ≡ spec.val_fn (program_view p.now) view query) }
{
    let queries = p.queries.as_slice();
    let before = times(view_place(p, view)?, gets(queries)?)?;
    let first = plus(7, before)?;
    plus(first, gets_before(queries, query)?)
}
