//! Work for a benchmark of the checker of refutations: `check_bench NODES REPEATS` makes a closed
//! tree of about so many nodes, of all rules, and checks it so many times. It prints how many nodes
//! the tree has and how many times it was accepted; how long it takes is measured outside.
#![tactic(auto)]

mod given;
mod grown;

use given::{given, signature};
use grown::grown;
use refute_check::{are_well_sorted, check};
use refute_defs::Tree;
use rp_logic::{Fml, Sig};
use rp_value::{List, Memory};
use std::alloc::Global;
use std::env;
use std::process::ExitCode;

/// 1 where the tree is accepted.
fn accepted(alloc: Global, sig: &Sig, given: &List<Fml>, tree: &Tree) -> u32 {
    if !are_well_sorted(sig, given) {
        return 0;
    }
    match check(alloc, sig, given, tree) {
        Ok(()) => 1,
        Err(_) => 0,
    }
}

/// How many of the repeats accept the tree.
fn check_often(alloc: Global, sig: &Sig, given: &List<Fml>, tree: &Tree, repeats: u32) -> u32 {
    let mut times: u32 = 0;
    for _ in 0..repeats {
        times = times.wrapping_add(accepted(alloc, sig, given, tree));
    }
    times
}

/// The number of nodes, and how many times the tree was accepted.
fn measured(alloc: Global, nodes: u32, repeats: u32) -> Result<(u32, u32), Memory> {
    let Some(sig) = signature(alloc)? else {
        return Ok((0, 0));
    };
    let given = given(alloc)?;
    let tree = grown(alloc, nodes)?;
    let times = check_often(alloc, &sig, &given, &tree, repeats);
    Ok((tree.nodes.count(), times))
}

/// The two words behind the program's name.
fn asked(rt: &HostRuntime) -> Option<(u32, u32)> {
    let Ok(words) = env::args(rt) else {
        return None;
    };
    let mut words = words.skip(1);
    let nodes = words.next()?.parse::<u32>().ok()?;
    let repeats = words.next()?.parse::<u32>().ok()?;
    Some((nodes, repeats))
}

fn main(rt: HostRuntime) -> ExitCode {
    let Some((nodes, repeats)) = asked(&rt) else {
        return ExitCode::from(2);
    };
    match measured(rt.alloc(), nodes, repeats) {
        Ok((count, times)) => match println!(rt; "{count} {times}") {
            Ok(()) => ExitCode::from(0),
            Err(_) => ExitCode::from(4),
        },
        Err(Memory) => ExitCode::from(5),
    }
}
