use crate::pool::Pool;
use crate::tally::Tally;
use crate::trouble::Trouble;
use std::alloc::Global;
use zone_core::ZoneSize;

/// How many times large buffers are asked for.
const TURNS: u32 = 100;

/// For so many pageblocks of the zone one large buffer is asked for.
const OF_PAGEBLOCKS: u32 = 8;

/// Transactions while large buffers are in use, and as many again before the next are asked for.
const TRANSACTIONS: u32 = 10_000;

/// What came of a run.
#[derive(Clone, Copy)]
pub struct Outcome {
    pub tally: Tally,
    /// How many calls of the zone were made, without those of rounds.
    pub calls: u64,
    /// How many records the journal of the zone has.
    pub records: u64,
    /// How many times a buffer was moved.
    pub moved: u64,
}

/// Opens and fills a pool, takes all turns, and looks at the buffers that are left.
pub fn run(alloc: Global, size: ZoneSize) -> Result<Outcome, Trouble> {
    let mut pool = Pool::open(alloc, size)?;
    pool.fill()?;
    for _ in 0..TURNS {
        turn(&mut pool, size.blocks / OF_PAGEBLOCKS)?;
    }
    pool.see_left()?;
    outcome_of(&mut pool)
}

/// Transactions before and after the large buffers are given back, and the requests for the next.
fn turn(pool: &mut Pool, large: u32) -> Result<(), Trouble> {
    pool.serve(TRANSACTIONS)?;
    pool.give_back()?;
    pool.serve(TRANSACTIONS)?;
    for _ in 0..large {
        pool.ask_pinned()?;
    }
    Ok(())
}

fn outcome_of(pool: &mut Pool) -> Result<Outcome, Trouble> {
    Ok(Outcome {
        tally: pool.tally,
        moved: pool.buffers.moved()?,
        calls: pool.buffers.calls(),
        records: pool.buffers.records(),
    })
}
