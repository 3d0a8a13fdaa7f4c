//! Clients of 64 pages in a zone, at rest and beside rounds that move the pages, beside the same calls in an array under a plain mutex.

mod array;
mod crowd;
mod moving;
mod outcome;
mod runs;

use crate::Runtime;
use array::rate_of_array;
use outcome::{Outcome, Spread};
use runs::{Plan, Work, run};
use std::alloc::Global;
use std::io;
use std::marker::Brand;
use zone_core::Blanks;

const COUNTS: [u32; 3] = [1, 2, 4];

const ROOMS: [usize; 3] = [1, 8, 64];

/// How many calls of clients beside rounds stand in the journal as they were answered.
pub fn show_settled<R: Runtime>(rt: &R, alloc: Global) -> io::Result<()> {
    for count in COUNTS {
        let settled = make_calls(rt, alloc, count, 8).settled;
        println!(rt; "clients {count} calls {settled}")?;
    }
    Ok(())
}

/// How many thousands of calls 1, 2 and 4 clients make in a second, the best of so many times, and how long a load takes beside
/// rounds, by the room of their queues.
pub fn show_times<R: Runtime>(rt: &R, alloc: Global, times: u32) -> io::Result<()> {
    show_rates(rt, alloc, times)?;
    show_waits(rt, alloc)
}

/// Thousands of calls in a second: in an array, of a zone at rest, and beside rounds.
fn show_rates<R: Runtime>(rt: &R, alloc: Global, times: u32) -> io::Result<()> {
    println!(rt; "clients array rest rounds moved")?;
    for count in COUNTS {
        let Rates {
            array,
            rest,
            rounds,
            moved,
        } = best_rates(rt, alloc, count, times);
        println!(rt; "{count:>7} {array:>5} {rest:>4} {rounds:>6} {moved:>5}")?;
    }
    Ok(())
}

/// Nanoseconds that a load takes beside rounds.
fn show_waits<R: Runtime>(rt: &R, alloc: Global) -> io::Result<()> {
    println!(rt; "room median 99th greatest")?;
    for room in ROOMS {
        let Spread {
            median,
            high,
            greatest,
        } = make_loads(rt, alloc, room).times;
        println!(rt; "{room:>4} {median:>6} {high:>4} {greatest:>8}")?;
    }
    Ok(())
}

/// Thousands of calls in a second, and the most pages that were moved meanwhile.
#[derive(Clone, Copy)]
struct Rates {
    array: u64,
    rest: u64,
    rounds: u64,
    moved: u64,
}

/// The best of so many times.
fn best_rates<R: Runtime>(rt: &R, alloc: Global, count: u32, times: u32) -> Rates {
    let mut best = Rates {
        array: 0,
        rest: 0,
        rounds: 0,
        moved: 0,
    };
    for _time in 0..times {
        let beside = make_calls(rt, alloc, count, 8);
        best = Rates {
            array: best
                .array
                .max(rate_of_array(rt, count as usize).unwrap_or(0)),
            rest: best.rest.max(make_calls(rt, alloc, count, 0).rate()),
            rounds: best.rounds.max(beside.rate()),
            moved: best.moved.max(beside.moved),
        };
    }
    best
}

/// What clients do beside rounds whose queues have so much room, or at rest where they have none.
fn make_calls<R: Runtime>(rt: &R, alloc: Global, clients: u32, room: usize) -> Outcome {
    let plan = Plan {
        clients,
        work: Work::Calls,
        room,
    };
    outcome_of(rt, alloc, plan)
}

/// How long loads take beside rounds whose queues have so much room.
fn make_loads<R: Runtime>(rt: &R, alloc: Global, room: usize) -> Outcome {
    let plan = Plan {
        clients: 1,
        work: Work::Loads,
        room,
    };
    outcome_of(rt, alloc, plan)
}

fn outcome_of<R: Runtime>(rt: &R, alloc: Global, plan: Plan) -> Outcome {
    run::<Brand, Brand, R>(rt, alloc, plan, Blanks::new()).unwrap_or(Outcome::NOTHING)
}
