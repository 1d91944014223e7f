//! Keeps the outcomes of a few transactions on a sheet and on a strip, and prints what both answer and the strip's bytes.
#![tactic(auto)]

mod both;
mod text;

use both::Both;
use commit_table::CommitTable;
use model::CommitEntry;
use std::io;
use strip::making::capacity_of;
use strip::{ENTRY, HEADER, StripMemory};
use table::{Entry, Sheet};
use text::{Dropped, Found, Placed};

/// Ids and numbers are whole steps: multiples of this.
const STEP: u64 = 1048576;

fn place<A: CommitTable, B: CommitTable>(
    rt: &HostRuntime,
    both: &mut Both<A, B>,
    id: u64,
    entry: CommitEntry,
) -> io::Result<()> {
    let (on_sheet, on_strip) = both.place(id, entry);
    let (a, b) = (Placed(on_sheet), Placed(on_strip));
    println!(rt; "place {id} {entry}: sheet {a}, strip {b}")
}

fn look<A: CommitTable, B: CommitTable>(
    rt: &HostRuntime,
    both: &Both<A, B>,
    id: u64,
) -> io::Result<()> {
    let (on_sheet, on_strip) = both.look_up(id);
    let (a, b) = (Found(on_sheet), Found(on_strip));
    println!(rt; "look up {id}: sheet {a}, strip {b}")
}

fn drop_at<A: CommitTable, B: CommitTable>(
    rt: &HostRuntime,
    both: &mut Both<A, B>,
    id: u64,
) -> io::Result<()> {
    let (on_sheet, on_strip) = both.drop_entry(id);
    let (a, b) = (Dropped(on_sheet), Dropped(on_strip));
    println!(rt; "drop {id}: sheet {a}, strip {b}")
}

fn count<A: CommitTable, B: CommitTable>(rt: &HostRuntime, both: &Both<A, B>) -> io::Result<()> {
    let (m, n) = both.count();
    let (p, q) = both.free_places();
    println!(rt; "count: sheet {m} and {p} free, strip {n} and {q} free")
}

/// The outcomes are placed, looked up, placed again, placed until full, and dropped.
fn keep_outcomes<A: CommitTable, B: CommitTable>(
    rt: &HostRuntime,
    both: &mut Both<A, B>,
) -> io::Result<()> {
    place(rt, both, 3 * STEP, CommitEntry::Committed(5 * STEP))?;
    place(rt, both, STEP, CommitEntry::Aborted)?;
    place(rt, both, 2 * STEP, CommitEntry::Committed(6 * STEP))?;
    count(rt, both)?;
    look(rt, both, 2 * STEP)?;
    look(rt, both, STEP)?;
    look(rt, both, 4 * STEP)?;
    place(rt, both, STEP, CommitEntry::Committed(7 * STEP))?;
    place(rt, both, 4 * STEP, CommitEntry::Committed(8 * STEP))?;
    place(rt, both, 9 * STEP, CommitEntry::Aborted)?;
    count(rt, both)?;
    drop_at(rt, both, 3 * STEP)?;
    drop_at(rt, both, 3 * STEP)?;
    look(rt, both, 3 * STEP)?;
    count(rt, both)
}

fn show_line(rt: &HostRuntime, bytes: &[u8]) -> io::Result<()> {
    for byte in bytes.iter() {
        print!(rt; "{byte:02x}")?;
    }
    println!(rt; "")
}

/// A line for the header, then one for each place.
fn show_bytes(rt: &HostRuntime, bytes: &[u8]) -> io::Result<()> {
    let Some((header, places)) = bytes.split_at_checked(HEADER) else {
        return show_line(rt, bytes);
    };
    show_line(rt, header)?;
    for place in places.chunks(ENTRY) {
        show_line(rt, place)?;
    }
    Ok(())
}

fn show_capacity(rt: &HostRuntime, length: usize) -> io::Result<()> {
    match capacity_of(length) {
        Ok(capacity) => println!(rt; "{length} bytes: capacity {capacity}"),
        Err(refusal) => println!(rt; "{length} bytes: refusal {refusal}"),
    }
}

fn main(rt: HostRuntime) -> io::Result<()> {
    for length in [39, 40, 112, 113, 48016, 48040] {
        show_capacity(&rt, length)?;
    }
    let unused = Entry {
        tag: 0,
        value: CommitEntry::Aborted,
    };
    let mut cells = [unused; 4];
    let mut bytes = [0xff; 112];
    let sheet = match Sheet::over(&mut cells) {
        Ok(sheet) => sheet,
        Err(refusal) => return println!(rt; "sheet: refusal {refusal}"),
    };
    let strip = match StripMemory::check(&mut bytes) {
        Ok(memory) => memory.strip(),
        Err(refusal) => return println!(rt; "strip: refusal {refusal}"),
    };
    let mut both = Both::over(sheet, strip);
    keep_outcomes(&rt, &mut both)?;
    show_bytes(&rt, both.b.bytes())
}
