//! What each call of a shelf and of chains costs at 256, 1,024 and 4,096 records. Without an argument it runs the calls once and prints checksums, which are the same
//! for both stores; with the argument `time` it repeats them and prints nanoseconds per call, and how they grow from one size to the next.
#![tactic(auto)]

mod work;

use chains::{ChainsMemory, Node};
use model::{Record, Refusal};
use shelf::ShelfMemory;
use std::{env, io};
use version_store::VersionStore;
use work::{Measured, measure};

/// Each size, with how often the calls are repeated for it when they are timed.
const SIZES: [(usize, u64); 3] = [(256, 2048), (1024, 512), (4096, 128)];

/// The calls on a store, or why it was not made.
fn measured<S: VersionStore<Value = i64> + Drop>(
    rt: &HostRuntime,
    made: Result<S, Refusal>,
    rounds: Option<u64>,
) -> io::Result<Measured> {
    match made {
        Ok(mut store) => measure(rt, &mut store, rounds),
        Err(why) => {
            println!(rt; "{why}")?;
            Ok(Measured::default())
        }
    }
}

/// What each call cost on both stores.
#[derive(Clone, Copy)]
struct Pair {
    shelf: Measured,
    chains: Measured,
}

/// One line: a call's cost on both stores in nanoseconds, and in hundredths of its cost at the smallest size.
fn line<F: Fn(&Measured) -> u64>(
    rt: &HostRuntime,
    name: &str,
    now: &Pair,
    least: &Pair,
    cost: F,
) -> io::Result<()>
    requires { F.IsAlwaysCallable cost }
{
    let (shelf, chains) = (cost(&now.shelf), cost(&now.chains));
    let shelf_growth = shelf.wrapping_mul(100) / cost(&least.shelf).max(1);
    let chains_growth = chains.wrapping_mul(100) / cost(&least.chains).max(1);
    println!(rt;
        "  {name}: shelf {shelf} ns ({shelf_growth} %), chains {chains} ns ({chains_growth} %)"
    )
}

fn report(rt: &HostRuntime, now: &Pair, least: &Pair) -> io::Result<()> {
    line(rt, "newest, found", now, least, |cost| cost.newest)?;
    line(rt, "put, new", now, least, |cost| cost.put_new)?;
    line(rt, "put, replacing", now, least, |cost| cost.put_over)?;
    line(rt, "mark", now, least, |cost| cost.mark)?;
    line(rt, "drop", now, least, |cost| cost.dropped)
}

/// The calls on both stores at one size.
fn at_size(rt: &HostRuntime, size: usize, rounds: Option<u64>) -> io::Result<Pair> {
    let heap = rt.alloc();
    let unused = Record {
        key: 0,
        version: 0,
        number: None,
        value: 0i64,
    };
    let mut records = vec![in heap; unused; size]?;
    let mut index = vec![in heap; 0u16; size]?;
    let mut nodes = vec![in heap; Node::blank(); size]?;
    let shelf = ShelfMemory::lent(records.as_mut_slice(), index.as_mut_slice());
    let shelf = measured(rt, shelf.map(|memory| memory.shelf()), rounds)?;
    let chains = ChainsMemory::lent(nodes.as_mut_slice());
    let chains = measured(rt, chains.map(|memory| memory.chains()), rounds)?;
    Ok(Pair { shelf, chains })
}

fn run(rt: &HostRuntime, timed: bool) -> io::Result<()> {
    let mut least: Option<Pair> = None;
    for (size, often) in SIZES {
        let rounds = if timed { Some(often) } else { None };
        let now = at_size(rt, size, rounds)?;
        let shelf_sum = now.shelf.sum;
        let chains_sum = now.chains.sum;
        let same = shelf_sum == chains_sum;
        println!(rt; "{size} records: shelf {shelf_sum}, chains {chains_sum}, the same: {same}")?;
        if timed {
            report(rt, &now, least.get_or_insert(now))?;
        }
    }
    Ok(())
}

fn main(rt: HostRuntime) -> io::Result<()> {
    let timed = env::args(&rt)?.any(|word| word.as_str() == "time");
    run(&rt, timed)
}
