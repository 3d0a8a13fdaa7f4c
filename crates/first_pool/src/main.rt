//! A first pool: two pages stand in two pageblocks, a round of compaction moves them together, and the pageblock that became whole is
//! handed out as a huge page. What was stored in a page before the round is loaded after it. This is done on one thread, and then with
//! copiers on threads.
#![tactic(auto)]

mod compacting;
mod numbers;
mod one_thread;

use compacting::{Seen, compact_two_pages};
use one_thread::compact_on_one_thread;
use std::io;
use std::marker::Brand;
use zone_core::Blanks;

fn main(rt: HostRuntime) -> anyhow::Result<()> {
    let (loaded, first) = compact_on_one_thread(rt.alloc())?;
    println!(rt;
        "on one thread: loaded {loaded}, handed out from frame {}",
        first.get()
    )?;
    let seen = compact_two_pages::<Brand, HostRuntime>(&rt, rt.alloc(), Blanks::new())?;
    show(&rt, &seen)?;
    Ok(())
}

/// Writes what was seen of the round on threads.
fn show(rt: &impl Print, seen: &Seen) -> io::Result<()> {
    println!(rt; "before: {} whole pageblocks", seen.before)?;
    println!(rt; "moved: {} pages", seen.moved)?;
    println!(rt; "after: {} whole pageblock", seen.after)?;
    println!(rt; "loaded: {}", seen.loaded)?;
    println!(rt; "handed out: pageblock {}", seen.huge)
}
