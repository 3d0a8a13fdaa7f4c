//! Runs of clients, each over a zone that is opened for it: a page of clients in each of its lowest frames, and pages that don't move in
//! all others.

ghost use Rattle.std.specs.Prelude.{◌≡◌};
ghost use Rattle.zone_core.specs.Books.{AreFor};

use super::crowd::{PAGES, time_calls, time_loads};
use super::moving::run_rounds;
use super::outcome::{Outcome, Spread};
use crate::Runtime;
use crate::opening::{FRAMES, Opened, open, page};
use bitflags::Flags;
use client_core::{Client, settle_clients};
use frame_core::{ClientNo, FrameNo, PageFlags};
use round_core::{SharedZone, ZoneIdentity};
use std::alloc::Global;
use std::sync::Wait;
use std::sync::atomic::{AtomicBool, Ordering};
use std::thread::join;
use zone_core::{Blanks, Opening, SeatsIn};

/// What clients do.
#[derive(Clone, Copy)]
pub enum Work {
    /// Each makes its calls, and the time of all calls together is taken.
    Calls,
    /// The first loads, and the time of each load is taken.
    Loads,
}

/// A run that is wanted.
#[derive(Clone, Copy)]
pub struct Plan {
    pub clients: u32,
    pub work: Work,
    /// The room of the queues of the rounds beside them. Where they have none, the zone is at rest.
    pub room: usize,
}

/// Opens zone 0 and runs clients over it. The first client maps the pages that the others use.
pub fn run<K: ZoneIdentity + Send + Sync, Z: Opening + Send + Sync, R: Runtime>(
    rt: &R,
    alloc: Global,
    plan: Plan,
    blanks: Blanks,
) -> Option<Outcome>
    requires identity { (K.number ≡ 0) × (K.blocks ≡ 8) }
    requires blanks { AreFor blanks Z.isolated Z.rounds Z.moved Z.back }
{
    let mut clients = clients(alloc, plan.clients)?;
    let Opened { zone, mut seats } = open::<Z>(alloc, blanks)?;
    let shared = SharedZone::<K, Z>::new(zone);
    work_and_settle(rt, alloc, &shared, &mut seats, &mut clients, plan)
}

/// Lets clients work, and compares the receipts of all clients with the journal.
fn work_and_settle<K: ZoneIdentity + Send + Sync, Z: Opening + Send + Sync, R: Runtime>(
    rt: &R,
    alloc: Global,
    shared: &SharedZone<K, Z>,
    seats: &mut SeatsIn<Z>,
    clients: &mut [Client],
    plan: Plan,
) -> Option<Outcome> {
    let (keeper, crowd) = clients.split_first_mut()?;
    map_all(rt, shared, keeper)?;
    let (times, moved) = work_beside_rounds(rt, alloc, shared, seats, keeper, crowd, plan)?;
    let settled = receipts_of(crowd);
    settle(rt, shared, clients)?;
    Some(Outcome {
        times,
        settled,
        moved,
    })
}

/// Compares the receipts of clients with the journal.
fn settle<K: ZoneIdentity, Z: Opening, R: Wait>(
    rt: &R,
    shared: &SharedZone<K, Z>,
    clients: &[Client],
) -> Option<()> {
    settle_clients(shared.lock(rt).zone(), clients).ok()
}

/// The client 0, and so many more.
fn clients(alloc: Global, more: u32) -> Option<Vec<Client>> {
    let mut clients = Vec::new(alloc);
    for number in 0..more.saturating_add(1) {
        clients
            .push(Client::new(alloc, ClientNo::new(number)?))
            .ok()?;
    }
    Some(clients)
}

/// Maps a page to each frame.
fn map_all<K: ZoneIdentity, Z: Opening, R: Wait>(
    rt: &R,
    shared: &SharedZone<K, Z>,
    keeper: &mut Client,
) -> Option<()> {
    for number in 0..FRAMES {
        let flags = if number < PAGES {
            PageFlags::empty()
        } else {
            PageFlags::UNMOVABLE
        };
        let frame = FrameNo::new(number)?;
        keeper.map_at(rt, shared, page(number)?, flags, frame).ok()?;
    }
    Some(())
}

/// Lets clients work beside rounds. The times that were taken, and how many pages the rounds moved.
fn work_beside_rounds<K: ZoneIdentity + Send + Sync, Z: Opening + Send + Sync, R: Runtime>(
    rt: &R,
    alloc: Global,
    shared: &SharedZone<K, Z>,
    seats: &mut SeatsIn<Z>,
    keeper: &mut Client,
    crowd: &mut [Client],
    plan: Plan,
) -> Option<(Spread, u64)> {
    let flag = AtomicBool::new(false);
    let ended = &flag;
    let (times, moved) = join(
        rt,
        move || -> Option<Spread> {
            let times = take_times(rt, alloc, shared, crowd, plan.work);
            ended.store(true, Ordering::SeqCst);
            times
        },
        move || -> Option<u64> { run_rounds(rt, alloc, shared, seats, keeper, plan.room, ended) },
    );
    Some((times?, moved?))
}

/// Lets clients work. The times that were taken.
fn take_times<K: ZoneIdentity + Send + Sync, Z: Opening + Send + Sync, R: Runtime>(
    rt: &R,
    alloc: Global,
    shared: &SharedZone<K, Z>,
    clients: &mut [Client],
    work: Work,
) -> Option<Spread> {
    match work {
        Work::Calls => Some(Spread::of_one(time_calls(rt, shared, clients)?)),
        Work::Loads => Spread::of(&mut time_loads(rt, alloc, shared, clients.first_mut()?)?),
    }
}

/// How many receipts clients have together.
fn receipts_of(clients: &[Client]) -> usize {
    let mut receipts = 0usize;
    for client in clients {
        receipts = receipts.saturating_add(client.receipts().len());
    }
    receipts
}
