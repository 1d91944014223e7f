//! Longer runs with expected answers, each on both version stores and both commit tables: a line for each run and a total. A departure is printed with its run, its line, what was
//! expected and what came. A last run has price cards for values.
#![tactic(auto)]

mod cards;
mod parsing;
mod runs;

use cards::CARDS;
use host::{CommitTableKind, StoreKind, run_on};
use model::{Answer, Call};
use parsing::TraceLine;
use runs::{RUNS, Run};
use std::alloc::Global;
use std::fs;

/// A version store and a commit table.
type Pair = (StoreKind, CommitTableKind);

const PAIRS: [Pair; 4] = [
    (StoreKind::Shelf, CommitTableKind::Sheet),
    (StoreKind::Shelf, CommitTableKind::Strip),
    (StoreKind::Chains, CommitTableKind::Sheet),
    (StoreKind::Chains, CommitTableKind::Strip),
];

fn calls_of(heap: Global, text: &str) -> anyhow::Result<Vec<Call<i64>>> {
    let mut calls = Vec::new(heap);
    for line in text.lines() {
        calls.push(line.parse::<TraceLine>()?.0)?;
    }
    Ok(calls)
}

/// Whether the answer is the expected line. A read's line also has the number under which its value stood, which a read does not answer.
fn is_expected(call: &Call<i64>, shown: &str, expected: &str) -> bool {
    match (call, expected.strip_prefix(shown)) {
        (_, None) => false,
        (Call::Read { .. }, Some(rest)) => rest.is_empty() || rest.starts_with(' '),
        (_, Some(rest)) => rest.is_empty(),
    }
}

/// How many answers are not the expected lines; each is printed.
fn departures(
    rt: &HostRuntime,
    name: &str,
    calls: &[Call<i64>],
    answers: &[Answer<i64>],
    expected: &str,
) -> anyhow::Result<usize> {
    let heap = rt.alloc();
    let mut wrong = 0usize;
    for (i, ((call, answer), wanted)) in calls
        .iter()
        .zip(answers.iter())
        .zip(expected.lines())
        .enumerate()
    {
        let shown = format!(in heap; "{answer}")?;
        if !is_expected(call, shown.as_str(), wanted) {
            let line = i.saturating_add(1);
            println!(rt; "{name} line {line}: {call}: expected {wanted}, got {shown}")?;
            wrong = wrong.saturating_add(1);
        }
    }
    Ok(wrong)
}

fn departures_everywhere(
    rt: &HostRuntime,
    run: &Run,
    calls: &[Call<i64>],
    expected: &str,
) -> anyhow::Result<usize> {
    let mut wrong = 0usize;
    for (store, commits) in PAIRS {
        let answers = run_on(rt.alloc(), store, commits, &run.opening, 0, calls)?;
        let more = departures(rt, run.name, calls, answers.as_slice(), expected)?;
        wrong = wrong.saturating_add(more);
    }
    Ok(wrong)
}

fn replay(rt: &HostRuntime, run: &Run) -> anyhow::Result<usize> {
    let heap = rt.alloc();
    let name = run.name;
    let trace = fs::read_to_string(rt, format!(in heap; "runs/{name}.trace")?.as_str())?;
    let expected = fs::read_to_string(rt, format!(in heap; "runs/{name}.out")?.as_str())?;
    let calls = calls_of(heap, trace.as_str())?;
    let wrong = departures_everywhere(rt, run, calls.as_slice(), expected.as_str())?;
    let lines = expected.lines().count();
    let count = calls.len();
    println!(rt;
        "{name}: {count} calls, {lines} expected lines, on both stores and both commit tables: {wrong} departures"
    )?;
    Ok(wrong)
}

fn show_cards(rt: &HostRuntime) -> anyhow::Result<()> {
    let heap = rt.alloc();
    let (shelf, sheet) = (StoreKind::Shelf, CommitTableKind::Sheet);
    let (chains, strip) = (StoreKind::Chains, CommitTableKind::Strip);
    let first = run_on(heap, shelf, sheet, &runs::LARGE, cards::FILLER, &CARDS)?;
    let second = run_on(heap, chains, strip, &runs::LARGE, cards::FILLER, &CARDS)?;
    for ((call, one), other) in CARDS.iter().zip(first.iter()).zip(second.iter()) {
        println!(rt; "{call}: {one} | {other}")?;
    }
    Ok(())
}

fn main(rt: HostRuntime) -> anyhow::Result<()> {
    let mut wrong = 0usize;
    for run in RUNS.iter() {
        wrong = wrong.saturating_add(replay(&rt, run)?);
    }
    let runs = RUNS.len();
    println!(rt; "{runs} runs, {wrong} departures")?;
    println!(rt; "price cards, on shelf and sheet | on chains and strip:")?;
    show_cards(&rt)
}
