//! One day of a shop: a manager takes over, a transaction is carried through all its phases, another reads what it left, single keys are written fast, a second manager takes
//! over while a commit is under way, and the housekeeper raises the floor and sweeps. The same calls run on a shelf with a sheet and on chains with a strip, and every
//! answer is printed.
#![tactic(auto)]

mod day;

use day::{DAY, OPENING};
use host::{CommitTableKind, StoreKind, run_on};
use model::Answer;

/// Prints each call with its answer, and counts the answers that are equal.
fn show(rt: &HostRuntime, first: &[Answer<i64>], second: &[Answer<i64>]) -> anyhow::Result<usize> {
    let mut equal = 0usize;
    for ((call, one), other) in DAY.iter().zip(first.iter()).zip(second.iter()) {
        println!(rt; "{call}: {one}")?;
        if one == other {
            equal = equal.saturating_add(1);
        } else {
            println!(rt; "  on chains and strip: {other}")?;
        }
    }
    Ok(equal)
}

fn main(rt: HostRuntime) -> anyhow::Result<()> {
    let heap = rt.alloc();
    let (shelf, sheet) = (StoreKind::Shelf, CommitTableKind::Sheet);
    let (chains, strip) = (StoreKind::Chains, CommitTableKind::Strip);
    let first = run_on(heap, shelf, sheet, &OPENING, 0, &DAY)?;
    let second = run_on(heap, chains, strip, &OPENING, 0, &DAY)?;
    let equal = show(&rt, first.as_slice(), second.as_slice())?;
    let calls = DAY.len();
    println!(rt; "{equal} of {calls} answers are equal on both")?;
    Ok(())
}
