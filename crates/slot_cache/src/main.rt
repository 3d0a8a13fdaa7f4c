//! A cache of small objects, each in a page of a zone. Whoever hands out huge pages beside it asks for a whole pageblock again and again. The same
//! requests are made without rounds of compaction and with them. Prints what became of them.
#![tactic(auto)]

mod blocks;
mod cache;
mod clock;
mod keys;
mod object;
mod traffic;
mod trouble;

use blocks::Rounds;
use std::io;
use traffic::{Outcome, run};
use trouble::Trouble;

fn main(rt: HostRuntime) -> io::Result<()> {
    show(&rt, "without rounds", run(rt.alloc(), Rounds::Never))?;
    show(&rt, "with rounds", run(rt.alloc(), Rounds::AsNeeded))
}

fn show<R: Print>(rt: &R, how: &str, outcome: Result<Outcome, Trouble>) -> io::Result<()> {
    match outcome {
        Ok(outcome) => show_outcome(rt, how, &outcome),
        Err(trouble) => println!(rt; "{how}: failed: {trouble}"),
    }
}

fn show_outcome<R: Print>(rt: &R, how: &str, outcome: &Outcome) -> io::Result<()> {
    let Outcome {
        requests,
        hits,
        evictions,
        moves,
        ..
    } = outcome;
    println!(rt; "{how}: {requests} requests, {hits} hits, {evictions} evictions, {moves} moves")?;
    show_blocks(rt, how, outcome)
}

/// What became of the pageblocks that were asked for, and of the objects.
fn show_blocks<R: Print>(rt: &R, how: &str, outcome: &Outcome) -> io::Result<()> {
    let Outcome {
        asked,
        got,
        objects,
        ..
    } = outcome;
    println!(rt; "{how}: {got} of {asked} pageblocks were got")?;
    println!(rt;
        "{how}: at each hit, and of {objects} objects at the end, each word was as it was stored"
    )
}
