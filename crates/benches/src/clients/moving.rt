//! Rounds that go on as long as clients do.

use super::crowd::PAGES;
use crate::Runtime;
use crate::opening::{FRAMES, page};
use client_core::Client;
use round_core::{NoGate, SharedZone, ZoneIdentity, compact};
use std::alloc::Global;
use std::sync::Wait;
use std::sync::atomic::{AtomicBool, Ordering};
use zone_core::{Opening, SeatsIn};

const COPIERS: usize = 2;

/// Frees the frames after the pages of the clients, and moves the pages there by a round, again and again, until the clients have
/// ended or the pages stand at the top. How many pages were moved. No round is run where the queues have no room.
pub fn run_rounds<K: ZoneIdentity + Send + Sync, Z: Opening + Send + Sync, R: Runtime>(
    rt: &R,
    alloc: Global,
    shared: &SharedZone<K, Z>,
    seats: &mut SeatsIn<Z>,
    keeper: &mut Client,
    cap: usize,
    ended: &AtomicBool,
) -> Option<u64> {
    let mut moved = 0u64;
    if cap == 0 || cap > 64 {
        return Some(moved);
    }
    for round in 1..FRAMES / PAGES {
        if ended.load(Ordering::SeqCst) {
            break;
        }
        free(rt, shared, keeper, round * PAGES)?;
        let round = compact(rt, alloc, shared, seats, COPIERS, cap, &NoGate).ok()?;
        moved = moved.saturating_add(round.moved);
    }
    Some(moved)
}

/// Frees as many frames as the clients have pages, from this one on.
fn free<K: ZoneIdentity, Z: Opening, R: Wait>(
    rt: &R,
    shared: &SharedZone<K, Z>,
    keeper: &mut Client,
    first: u32,
) -> Option<()> {
    for number in first..first.saturating_add(PAGES) {
        keeper.unmap(rt, shared, page(number)?).ok()?;
    }
    Some(())
}
