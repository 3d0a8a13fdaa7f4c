//! Guests of one to four blocks of 2 MiB come to a host, fill them, and leave, while the host's own pages of 4 KiB lie between them. The
//! same guests come three times: to a host that hands out blocks only where they are free, to one that moves pages when a block is asked
//! for, and to one that keeps blocks ready. Prints how many guests got their blocks and how much of what was stored was still there, and
//! on standard error how long the requests took. With `--frames N` the zone has N frames, and there are as many more guests and pages.
#![tactic(auto)]

mod block;
mod host;
mod options;
mod plan;
mod small_pages;
mod supply;
mod tally;

use anyhow::Result;
use host::Host;
use options::{WANTED, size_asked};
use std::alloc::Global;
use std::process::ExitCode;
use std::time::{Clock, Duration};
use std::{env, io};
use supply::Supply;
use tally::Tally;
use zone_core::ZoneSize;

/// The words of a small page: 4 KiB.
const WORDS: usize = 512;

/// The exit statuses of a run that can't be made, and of words that are wrong.
const FAILED: u8 = 1;

const REFUSED: u8 = 2;

fn main(rt: HostRuntime) -> io::Result<ExitCode> {
    let Some(size) = size_asked(env::args(&rt)) else {
        eprintln!(rt; "vm_pool: {WANTED}")?;
        return Ok(ExitCode::from(REFUSED));
    };
    match run_all(&rt, rt.alloc(), size) {
        Ok(()) => Ok(ExitCode::SUCCESS),
        Err(error) => {
            eprintln!(rt; "vm_pool: {error}")?;
            Ok(ExitCode::from(FAILED))
        }
    }
}

/// Lets the guests come for each way to get blocks.
fn run_all<R: Clock + Print + io::Eprint>(rt: &R, alloc: Global, size: ZoneSize) -> Result<()> {
    run(rt, alloc, size, "where free", Supply::Free)?;
    run(rt, alloc, size, "reserved", Supply::Reserved)?;
    run(rt, alloc, size, "kept ready", Supply::kept(alloc)?)
}

/// Lets the guests come to a host that has a zone of this size, and shows what came of it.
fn run<R: Clock + Print + io::Eprint>(
    rt: &R,
    alloc: Global,
    size: ZoneSize,
    how: &str,
    supply: Supply,
) -> Result<()> {
    let mut host = Host::open(alloc, size, supply)?;
    host.pass_days(rt, alloc)?;
    show_tally(rt, how, &host.tally)?;
    Ok(show_latencies(rt, how, &host.latencies)?)
}

fn show_tally<R: Print>(rt: &R, how: &str, tally: &Tally) -> io::Result<()> {
    let Tally {
        guests,
        block_words,
        page_words,
        blocks,
        moved,
    } = tally;
    println!(rt; "{how}: {guests} guests got their blocks")?;
    println!(rt; "{how}: {block_words} words of blocks were there when their guests left")?;
    println!(rt; "{how}: {page_words} words of small pages were there when these were unmapped")?;
    let each = moved.checked_div(*blocks).unwrap_or(0);
    println!(rt; "{how}: {moved} pages were moved for {blocks} blocks, {each} for each")
}

/// How long the requests for a block took, in microseconds.
fn show_latencies<R: io::Eprint>(rt: &R, how: &str, latencies: &[Duration]) -> io::Result<()> {
    let (median, high) = (percentile(latencies, 50), percentile(latencies, 90));
    let (higher, most) = (percentile(latencies, 99), percentile(latencies, 100));
    eprintln!(rt;
        "{how}: a request takes {median:.1} us at the median, {high:.1} at the 90th percentile, {higher:.1} at the 99th and {most:.1} at most"
    )
}

/// What so many of a hundred requests took at most, in microseconds. The shortest come first.
fn percentile(latencies: &[Duration], percent: usize) -> f64 {
    let place = latencies.len().saturating_sub(1).saturating_mul(percent) / 100;
    let latency = latencies.get(place).copied().unwrap_or(Duration::ZERO);
    latency.as_secs_f64() * 1e6
}
