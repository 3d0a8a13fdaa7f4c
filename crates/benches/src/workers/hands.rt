//! Who does work on a zone, and how.

ghost use Rattle.std.specs.Prelude.{◌≡◌, ◌<◌, ◌≤◌};

use crate::Runtime;
use frame_core::{FrameNo, Order};
use std::alloc::Global;
use std::collections::VecDeque;
use std::marker::Brand;
use worker_threads::{NoGate, Round, Runs, RunsIdentity, WorkError, compact_alone, empty_alone};
use zone_core::BareZone;

/// What is done: a round, or the cheapest half of the pageblocks is emptied.
#[derive(Clone, Copy, Debug)]
pub enum Work {
    Round,
    Emptying,
}

/// Who does it: one thread, or so many workers, 1 to 64.
#[derive(Clone, Copy, Debug)]
pub enum Hands {
    One,
    Workers(usize),
}

impl Hands {
    /// Those that the word `one` names, or a number of workers, 1 to 64.
    pub fn named(word: &str) -> Option<Hands> {
        if word == "one" {
            return Some(Hands::One);
        }
        let workers = word.parse::<usize>().ok()?;
        (1..=64)
            .contains(&workers)
            .then_some(Hands::Workers(workers))
    }
}

/// The first frames of the cheapest half of the pageblocks.
pub fn cheapest(alloc: Global, zone: &BareZone<512>) -> Option<Vec<FrameNo>> {
    let count = zone.blocks() as usize / 2;
    let mut firsts = Vec::from_elem(alloc, FrameNo::in_any_zone(0)?, count).ok()?;
    zone.cheapest_runs(Order::of_pageblock(), &mut firsts)?;
    Some(firsts)
}

/// The same as workers take them.
pub fn runs_at(alloc: Global, firsts: &[FrameNo]) -> Option<Runs> {
    let mut left = VecDeque::new(alloc);
    for first in firsts.iter() {
        left.push_back(*first).ok()?;
    }
    Some(Runs::new(Order::of_pageblock(), left))
}

/// One thread does the work.
pub fn by_one(zone: &mut BareZone<512>, firsts: &[FrameNo], work: Work) {
    match work {
        Work::Round => {
            zone.compact();
        }
        Work::Emptying => {
            // First the free frames of all runs are claimed.
            empty_each(zone, firsts, 0);
            empty_each(zone, firsts, 512);
        }
    }
}

/// Moves at most so many pages out of each run.
fn empty_each(zone: &mut BareZone<512>, firsts: &[FrameNo], most: u32) {
    for first in firsts.iter() {
        let _moved = zone.empty_some(*first, Order::of_pageblock(), most);
    }
}

/// Does the work. Where it is refused, the zone comes back with the work undone.
pub fn do_work<R: Runtime>(
    rt: &R,
    alloc: Global,
    mut zone: BareZone<512>,
    firsts: &[FrameNo],
    runs: Runs,
    work: Work,
    hands: Hands,
) -> (BareZone<512>, Result<(), WorkError>) {
    match hands {
        Hands::One => {
            by_one(&mut zone, firsts, work);
            (zone, Ok(()))
        }
        Hands::Workers(threads) => {
            let threads = threads.max(1).min(64);
            let (zone, done) = by_workers::<Brand, R>(rt, alloc, zone, runs, work, threads);
            (zone, done.and(Ok(())))
        }
    }
}

fn by_workers<K: RunsIdentity + Send + Sync, R: Runtime>(
    rt: &R,
    alloc: Global,
    zone: BareZone<512>,
    runs: Runs,
    work: Work,
    threads: usize,
) -> (BareZone<512>, Result<Round, WorkError>)
    requires zone { zone ≡ K.start }
    requires runs { runs ≡ K.runs }
    requires threads { (0 < threads) × (threads ≤ 64) }
{
    match work {
        Work::Round => compact_alone::<K, 512, NoGate, R>(rt, alloc, zone, threads, &NoGate),
        Work::Emptying => empty_alone::<K, 512, NoGate, R>(rt, alloc, zone, runs, threads, &NoGate),
    }
}
