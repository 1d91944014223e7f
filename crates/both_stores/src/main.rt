//! One task on a shelf and on chains, with counts and with price cards. Each store writes down what its calls answered; the program prints it once and says
//! that both wrote the same, or prints both.
#![tactic(auto)]

mod task;

use chains::{ChainsMemory, Node};
use model::{PriceCard, Record, Refusal};
use shelf::ShelfMemory;
use std::alloc::{AllocError, Global};
use std::{fmt, io};
use task::run;
use version_store::VersionStore;

/// What the task wrote down on the store, or why the store was not made.
fn written<S: VersionStore + Drop>(
    heap: Global,
    made: Result<S, Refusal>,
    values: (S::Value, S::Value),
) -> Result<String, AllocError>
where
    S::Value: fmt::Debug,
{
    match made {
        Ok(mut store) => run(heap, &mut store, values.0, values.1),
        Err(why) => format!(in heap; "refused: {why}\n"),
    }
}

fn compare(
    rt: &HostRuntime,
    title: &str,
    places: usize,
    shelf: &str,
    chains: &str,
) -> io::Result<()> {
    println!(rt; "{title}, {places} places")?;
    print!(rt; "{shelf}")?;
    if shelf == chains {
        return println!(rt; "shelf and chains say the same");
    }
    println!(rt; "the chains differ:")?;
    print!(rt; "{chains}")
}

/// The task on a shelf and on chains with so many places, with two values of one kind.
fn on_both<V: Copy + fmt::Debug>(
    rt: &HostRuntime,
    title: &str,
    places: usize,
    values: (V, V),
) -> io::Result<()> {
    let heap = rt.alloc();
    let unused = Record {
        key: 0,
        version: 0,
        number: None,
        value: values.0,
    };
    let mut records = vec![in heap; unused; places]?;
    let mut index = vec![in heap; 0u16; places]?;
    let mut nodes = vec![in heap; Node::blank(); places]?;
    let shelf = ShelfMemory::lent(records.as_mut_slice(), index.as_mut_slice());
    let on_shelf = written(heap, shelf.map(|memory| memory.shelf()), values)?;
    let chains = ChainsMemory::lent(nodes.as_mut_slice());
    let on_chains = written(heap, chains.map(|memory| memory.chains()), values)?;
    compare(rt, title, places, on_shelf.as_str(), on_chains.as_str())
}

const DEAR: PriceCard = PriceCard {
    cents: 1999,
    tax_class: 2,
    first_day: 20100,
};

const CHEAP: PriceCard = PriceCard {
    cents: 999,
    tax_class: 2,
    first_day: 20200,
};

fn main(rt: HostRuntime) -> io::Result<()> {
    for places in [0, 1, 8, 4096, 4097] {
        on_both(&rt, "counts", places, (-5i64, 12))?;
    }
    for places in [1, 8, 4096] {
        on_both(&rt, "price cards", places, (DEAR, CHEAP))?;
    }
    Ok(())
}
