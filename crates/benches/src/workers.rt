//! Rounds and the emptying of runs by workers, over a zone in its caller's memory, beside the same work on one thread.

mod filled;
mod hands;

use crate::Runtime;
use crate::times::nanos_since;
use anyhow::{Context, Result};
use filled::{kept, memory_of, opened, taken_back};
use hands::{Hands, Work, by_one, cheapest, do_work, runs_at};
use row_core::Row;
use std::alloc::Global;
use std::time::Instant;
use zone_core::BareZone;

/// The pageblocks of a zone in which the work is shown, and not how long it takes.
const FEW: u32 = 2;

const HANDS: [Hands; 4] = [
    Hands::One,
    Hands::Workers(1),
    Hands::Workers(2),
    Hands::Workers(4),
];

/// What comes of each work. It is the same whoever does it.
pub fn show_doings<R: Runtime>(rt: &R, alloc: Global) -> Result<()> {
    show_all(rt, alloc, FEW, false)
}

/// The same in a zone of so many pageblocks, and how long it takes.
pub fn show_times<R: Runtime>(rt: &R, alloc: Global, blocks: u32) -> Result<()> {
    show_all(rt, alloc, blocks, true)
}

/// The same where one thread does it, or so many workers.
pub fn show_part<R: Runtime>(rt: &R, alloc: Global, part: &str, blocks: u32) -> Result<()> {
    let hands = Hands::named(part).context("wanted: one, or 1 to 64 workers")?;
    show_both(rt, alloc, memory_of(alloc, blocks)?, blocks, hands, true)?;
    Ok(())
}

fn show_all<R: Runtime>(rt: &R, alloc: Global, blocks: u32, timed: bool) -> Result<()> {
    let mut memory = memory_of(alloc, blocks)?;
    for hands in HANDS {
        memory = show_both(rt, alloc, memory, blocks, hands, timed)?;
    }
    Ok(())
}

fn show_both<R: Runtime>(
    rt: &R,
    alloc: Global,
    memory: Row,
    blocks: u32,
    hands: Hands,
    timed: bool,
) -> Result<Row> {
    let zone = opened(alloc, memory, blocks)?;
    let memory = show(rt, alloc, zone, Work::Round, hands, timed)?;
    let zone = opened(alloc, memory, blocks)?;
    show(rt, alloc, zone, Work::Emptying, hands, timed)
}

/// Work that is refused is shown so, and then one thread does it. The memory of the zone comes back.
fn show<R: Runtime>(
    rt: &R,
    alloc: Global,
    zone: BareZone<512>,
    work: Work,
    hands: Hands,
    timed: bool,
) -> Result<Row> {
    let firsts = cheapest(alloc, &zone).context("out of memory")?;
    let runs = runs_at(alloc, &firsts).context("out of memory")?;
    let start = Instant::now(rt)?;
    let (mut zone, done) = do_work(rt, alloc, zone, &firsts, runs, work, hands);
    let nanos = nanos_since(rt, &start)?;
    if let Err(error) = done {
        println!(rt; "{work:?} by {hands:?}: refused, {error}")?;
        show_zone(rt, &mut zone, work, hands)?;
        by_one(&mut zone, &firsts, work);
    }
    show_zone(rt, &mut zone, work, hands)?;
    if timed {
        let micros = nanos / 1000;
        let each = nanos / zone.ended().max(1);
        println!(rt; "{work:?} by {hands:?}: {micros} us, {each} ns a page")?;
    }
    taken_back(zone)
}

fn show_zone<R: Print>(rt: &R, zone: &mut BareZone<512>, work: Work, hands: Hands) -> Result<()> {
    let moved = zone.ended();
    let kept = kept(zone);
    let info = zone.info();
    println!(rt;
        "{work:?} by {hands:?}: moved {moved}, pages {}, moving {}, free {}, held {}, kept {kept}",
        info.pages, info.moving, info.free, info.held
    )?;
    Ok(())
}
