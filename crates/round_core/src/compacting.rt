ghost use Rattle.std.specs.Prelude.{◌≡◌, ◌≢◌, ◌+◌, ◌*◌, ◌<◌, ◌≤◌, ◌↔◌, true, None, Some, IsOk, IfOk, IfErr, OnOk, vec_len};
ghost use Rattle.round_core.specs.Counts.{AreCounted, CountsNoLess};
ghost use Rattle.round_core.specs.Rounds.{IsRound, IsRefusedEarly, IsUnlimited, IsWant};
ghost use Rattle.round_core.specs.Runs.{CanRun, AreJoined, IsLentBack, IsRunOrNot};
ghost use Rattle.round_core.specs.Scanning.{HasMore};
ghost use Rattle.round_core.specs.Settling.{IsAnswered, IsRoundRun, IsSettled, answer_between};

use crate::crew::{RoundRun, Site};
use crate::error::RoundError;
use crate::gate::Gate;
use crate::keeping::Keeping;
use crate::memory::{CopierResults, Memory, reserve};
use crate::plan::Plan;
use crate::round::{Round, Stop};
use crate::shared_zone::KeptIn;
use frame_core::Serial;
use hand_core::settle;
use std::alloc::Global;
use std::sync::Wait;
use std::thread;
use std::thread::Threads;
use zone_core::{Audit, Opening, SeatsIn, ZoneError};

/// Moves what can be moved, with 1 to 4 copiers, over queues with room for `cap` pages and for `cap` copies, 1 to 64. Under one hold of
/// the lock as many pages are isolated as a queue has room for, or as there are in a batch for each copier where that is more. A
/// batch has up to eight pages, and no more than a queue has room for. At most as many copies are committed under one hold. The list of
/// a copier has room for the serials of half the zone's frames. What can fail for want of memory or of a thread fails before the first
/// page is isolated.
///
/// Refused as Broken where `audit` refuses, before anything else; as Memory or NoWorker, and then no round was begun; as Stranger where
/// the zone refused a copy, or a page that was to be put back; as Broken where an end of a queue was gone, a copier's list had no place for a page, or the audit after the
/// round refuses.
pub fn compact<
    K: Keeping + Send + Sync,
    Z: Opening + Send + Sync,
    G: Gate,
    R: Threads + Wait + Sync,
>(
    rt: &R,
    alloc: Global,
    shared: &KeptIn<K, Z>,
    seats: &mut SeatsIn<Z>,
    copiers: usize,
    cap: usize,
    gate: &G,
) -> Result<Round, RoundError>
    requires copiers { (0 < copiers) × (copiers ≤ 4) }
    requires cap { (0 < cap) × (cap ≤ 64) }
    requires begins { K.begins_at seats.old.scan.count }
    ensures stops { IfOk result (λ r. K.stops_at seats.new.scan.count r.stopped) }
    ensures unlimited { IsUnlimited result }
    ensures none_back { OnOk result (K.unpinned → seats.new.ends.back ≡ seats.old.ends.back) }
    // It had as many copiers as were asked for: each has its list.
    ensures lists { IfOk result (λ r. vec_len r.by_copier ≡ copiers) }
    ensures round { IfOk result (λ r. IsRound seats.old.scan seats.new.scan seats.old.ends seats.new.ends r) }
    ensures early { IsRefusedEarly seats.old.scan seats.new.scan seats.old.ends seats.new.ends result }
{
    let plan = Plan {
        alloc,
        copiers,
        cap,
        most: None,
    };
    run_whole(rt, shared, seats, plan, gate)
}

/// Runs a round as `compact` does that isolates `most` pages at most. The list of a copier has room for so many serials, or for those of
/// half the zone's frames where these are fewer. Refused as `compact` is.
pub fn compact_at_most<
    K: Keeping + Send + Sync,
    Z: Opening + Send + Sync,
    G: Gate,
    R: Threads + Wait + Sync,
>(
    rt: &R,
    alloc: Global,
    shared: &KeptIn<K, Z>,
    seats: &mut SeatsIn<Z>,
    copiers: usize,
    cap: usize,
    most: u32,
    gate: &G,
) -> Result<Round, RoundError>
    requires copiers { (0 < copiers) × (copiers ≤ 4) }
    requires cap { (0 < cap) × (cap ≤ 64) }
    requires most { 0 < most }
    requires begins { K.begins_at seats.old.scan.count }
    // It isolates no more pages than it may, and stops as Most exactly where it isolated so many.
    ensures most { IfOk result (λ r. r.count ≤ most) }
    ensures exact { IfOk result (λ r. (r.stopped ≡ Stop.Most) ↔ (r.count ≡ most)) }
    ensures stops { IfOk result (λ r. r.stopped ≢ Stop.Most → K.stops_at seats.new.scan.count r.stopped) }
    ensures none_back { OnOk result (K.unpinned → seats.new.ends.back ≡ seats.old.ends.back) }
    // It had as many copiers as were asked for: each has its list.
    ensures lists { IfOk result (λ r. vec_len r.by_copier ≡ copiers) }
    ensures round { IfOk result (λ r. IsRound seats.old.scan seats.new.scan seats.old.ends seats.new.ends r) }
    ensures early { IsRefusedEarly seats.old.scan seats.new.scan seats.old.ends seats.new.ends result }
{
    let plan = Plan {
        alloc,
        copiers,
        cap,
        most: Some(most),
    };
    run_whole(rt, shared, seats, plan, gate)
}

/// Runs a round between two audits under the lock.
fn run_whole<K: Keeping + Send + Sync, Z: Opening + Send + Sync, G: Gate, R: Threads + Wait + Sync>(
    rt: &R,
    shared: &KeptIn<K, Z>,
    seats: &mut SeatsIn<Z>,
    plan: Plan,
    gate: &G,
) -> Result<Round, RoundError>
    requires most { HasMore plan.most }
    requires begins { K.begins_at seats.old.scan.count }
    ensures { IsAnswered K.stops_at K.unpinned plan.most plan.copiers seats.old.scan seats.new.scan seats.old.ends seats.new.ends result }
{
    let Ok(before) = audit(rt, shared, seats) else {
        return Err(RoundError::Broken);
    };
    let settled = run_round(rt, shared, seats, before.isolated, plan, gate);
    let after = audit(rt, shared, seats);
    round_between(&before, settled, after)
}

/// Audits the zone under the lock, with its seats.
fn audit<K: Keeping, Z: Opening, R: Wait>(
    rt: &R,
    shared: &KeptIn<K, Z>,
    seats: &mut SeatsIn<Z>,
) -> Result<Audit, ZoneError>
    ensures counts { IfOk result (AreCounted seats.old.scan seats.old.ends) }
    ensures whole { OnOk result (seats.old.ends.parts ≡ 64) }
    ensures exact { 64 ≤ seats.old.ends.parts → (IsOk result ↔ (seats.old.ends.moved + seats.old.ends.back ≡ seats.old.scan.count)) }
    ensures most { 64 ≤ seats.old.ends.parts → seats.old.ends.moved + seats.old.ends.back ≤ seats.old.scan.count }
    ensures same { (seats.new.scan ≡ seats.old.scan) × (seats.new.ends ≡ seats.old.ends) }
{
    let mut room = shared.lock(rt);
    room.zone.audit(&mut seats.scan, &mut seats.ends)
}

/// What is known of a round after its hand-over was settled.
#[derive(Drop)]
pub(crate) struct Settlement {
    base: Serial,
    by_copier: Vec<Vec<Serial>>,
    stopped: Stop,
}

/// The answer of a round, by what was settled and by the audits before and after it.
pub(crate) fn round_between(
    before: &Audit,
    settled: Result<Settlement, RoundError>,
    after: Result<Audit, ZoneError>,
) -> Result<Round, RoundError>
    requires { IfOk after (CountsNoLess before.now) }
    ensures { result ≡ answer_between before.now settled after }
{
    let settled = settled?;
    let after = after.or(Err(RoundError::Broken))?;
    Ok(Round {
        base: settled.base,
        count: after.isolated - before.isolated,
        moved: after.moved - before.moved,
        back: after.back - before.back,
        by_copier: settled.by_copier,
        stopped: settled.stopped,
    })
}

/// Runs a round whose first page has the serial `base`, and settles its hand-over.
pub(crate) fn run_round<
    K: Keeping + Send + Sync,
    Z: Opening + Send + Sync,
    G: Gate,
    R: Threads + Wait + Sync,
>(
    rt: &R,
    shared: &KeptIn<K, Z>,
    seats: &mut SeatsIn<Z>,
    base: Serial,
    plan: Plan,
    gate: &G,
) -> Result<Settlement, RoundError>
    requires base { base ≡ seats.old.scan.count }
    requires whole { seats.old.ends.parts ≡ 64 }
    requires most { HasMore plan.most }
    requires begins { K.begins_at seats.old.scan.count }
    ensures { IsRoundRun K.stops_at K.unpinned plan.most plan.copiers seats.old.scan seats.new.scan seats.old.ends seats.new.ends result }
{
    let all = 256 * shared.blocks();
    let serials = plan.most.unwrap_or(all).min(all) as usize;
    let Ok(memory) = reserve(rt, base, serials, plan) else {
        return Err(RoundError::Memory);
    };
    let Some(ran) = in_scope(rt, shared, seats, memory, gate) else {
        return Err(RoundError::NoWorker);
    };
    settle_round(ran)
}

/// Runs the threads of a round in a scope of their own. None where one of them can't be started.
fn in_scope<K: Keeping + Send + Sync, Z: Opening + Send + Sync, G: Gate, R: Threads + Wait + Sync>(
    rt: &R,
    shared: &KeptIn<K, Z>,
    seats: &mut SeatsIn<Z>,
    memory: Memory,
    gate: &G,
) -> Option<RoundRun>
    requires { CanRun K.begins_at seats.old.scan seats.old.ends memory }
    ensures { IsRunOrNot K.stops_at K.unpinned memory.pages.left (vec_len memory.copier_parts.takers) seats.old.scan seats.new.scan seats.old.ends seats.new.ends result }
{
    let lent = &mut *seats;
    let (lent, ran) = thread::scope(
        thread::scope_env(),
        rt,
        move |scope| -> (&mut SeatsIn<Z>, Option<RoundRun>)
            requires { CanRun K.begins_at lent.now.scan lent.now.ends memory }
            ensures { IsLentBack lent.entry.ghost_name result.0.ghost_name × IsRunOrNot K.stops_at K.unpinned memory.pages.left (vec_len memory.copier_parts.takers) lent.entry.now.scan result.0.now.scan lent.entry.now.ends result.0.now.ends result.1 }
        {
            let site = Site {
                scope,
                rt,
                shared,
                gate,
            };
            let ran = site.run(lent, memory);
            (lent, ran)
        },
    );
    let _ = lent;
    ran
}

/// Settles the hand-over of a round that ran.
fn settle_round(ran: RoundRun) -> Result<Settlement, RoundError>
    requires { AreJoined ran.giver ran.joined }
    ensures settled { IfOk result (IsSettled ran) }
    ensures late { IfErr result (λ error. IsWant error → ⊥) }
{
    let stopped = stop_of(&ran)?;
    let RoundRun { giver, joined, .. } = ran;
    let CopierResults { takers, lists, .. } = joined;
    let Ok(settled) = settle(giver, takers) else {
        return Err(RoundError::Broken);
    };
    Ok(Settlement {
        base: settled.base,
        by_copier: lists,
        stopped,
    })
}

/// Why the scanner stopped. Refused as Stranger where the zone refused a copy or a page that was to be put back, and as Broken where
/// some thread didn't come to its end.
fn stop_of(ran: &RoundRun) -> Result<Stop, RoundError>
    ensures stop { IfOk result (λ stop. ran.now.stop ≡ Some stop) }
    ensures whole { OnOk result (ran.now.joined.whole ≡ true) }
    ensures late { IfErr result (λ error. IsWant error → ⊥) }
{
    if let Some(serial) = ran.stranger {
        return Err(RoundError::Stranger(serial));
    }
    match ran.stop {
        Some(stop) if ran.joined.whole => Ok(stop),
        _ => Err(RoundError::Broken),
    }
}
