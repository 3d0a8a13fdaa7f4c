//! Rounds over a zone whose lower half is full, beside the same work of the zone on one thread and without queues.

mod alone;
mod timed;

use crate::Runtime;
use crate::settings::{SETTINGS, Setting};
use crate::times::Times;
use std::alloc::Global;
use std::io;
use std::marker::Brand;
use timed::{Work, time};
use zone_core::Blanks;

/// What the rounds move, which doesn't depend on the schedule.
pub fn show_moves<R: Runtime>(rt: &R, alloc: Global) -> io::Result<()> {
    for setting in SETTINGS {
        let moved = best(rt, alloc, Work::Rounds(setting), 1)?.pages;
        show_moved(rt, setting, moved)?;
    }
    Ok(())
}

fn show_moved<R: Print>(rt: &R, setting: Setting, moved: u64) -> io::Result<()> {
    let Setting { threads, capacity } = setting;
    println!(rt; "copiers {threads} room {capacity} moved {moved}")
}

/// Microseconds a round, nanoseconds a page, and how many hundredths of the zone's work alone that is.
pub fn show_times<R: Runtime>(rt: &R, alloc: Global, times: u32) -> io::Result<()> {
    let alone = best(rt, alloc, Work::Alone, times)?;
    let (whole, each) = (alone.whole / 1000, alone.each());
    println!(rt; "copiers room us ns/page percent us/empty")?;
    println!(rt; "     -    - {whole:>4} {each:>5}     100")?;
    for setting in SETTINGS {
        let round = best(rt, alloc, Work::Rounds(setting), times)?;
        show_round(rt, setting, round, alone)?;
    }
    Ok(())
}

fn show_round<R: Print>(rt: &R, setting: Setting, round: Times, alone: Times) -> io::Result<()> {
    let Setting { threads, capacity } = setting;
    let percent = round.whole.saturating_mul(100) / alone.whole.max(1);
    let (whole, each, empty) = (round.whole / 1000, round.each(), round.empty / 1000);
    println!(rt; "{threads:>6} {capacity:>4} {whole:>4} {each:>5} {percent:>7} {empty:>8}")
}

/// Does the work of the zone alone so many times, or only fills the zone for it.
pub fn show_part<R: Runtime>(rt: &R, alloc: Global, part: &str, times: u32) -> anyhow::Result<()> {
    let work = match part {
        "alone" => Work::Alone,
        "filled" => Work::Filling,
        _ => anyhow::bail!("wanted: alone or filled"),
    };
    let pages = best(rt, alloc, work, times)?.pages;
    println!(rt; "{pages} pages")?;
    Ok(())
}

/// The best of so many times.
fn best<R: Runtime>(rt: &R, alloc: Global, work: Work, times: u32) -> io::Result<Times> {
    let mut best = Times::NONE;
    for _time in 0..times {
        let once = time::<Brand, R>(rt, alloc, work, Blanks::new())?;
        best = best.or(once);
    }
    Ok(best)
}
