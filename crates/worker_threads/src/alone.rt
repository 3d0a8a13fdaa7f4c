//! Work on a zone that nobody else has: a round, or the emptying of runs.

ghost use Rattle.std.specs.Prelude.{◌≡◌, ◌<◌, ◌≤◌, Some, IfOk, OnOk, IsOk};
ghost use Rattle.state_core.specs.Valid.{IsValidZone};
ghost use Rattle.worker_threads.specs.Emptied.{KeepsEmptied, StopsEmptied, WasEmptied};
ghost use Rattle.worker_threads.specs.EmptyingLaws.{emptying_commits, emptying_finds_none, emptying_starts, emptying_takes, fills_left, goes_on_left, stops_left};
ghost use Rattle.worker_threads.specs.AloneLaws.{round_begins, round_commits, round_fills, round_finds_none, round_goes_on, round_stops, round_takes};
ghost use Rattle.worker_threads.specs.Alone.{KeepsRound, StopsAlone, stop_by_hand, unlent};
ghost use Rattle.worker_threads.specs.Working.{IsOnlyRound};
ghost use Rattle.worker_threads.specs.declared.work.Work.TheVariants.{Compact, Empty};
ghost use Rattle.zone_core.specs.Alone.{IsAtRest};
ghost use Rattle.zone_core.specs.ByHand.{by_hand};
ghost use Rattle.zone_core.specs.Outcome.{IsSame};
ghost use Rattle.zone_core.specs.ZoneIdentity.{HasIdentity};

use crate::compacting::run;
use crate::compacting_zone::CompactingZone;
use crate::error::WorkError;
use crate::gate::Gate;
use crate::identity::{MemoryIdentity, RunsIdentity, StartIdentity};
use crate::keeping::Keeping;
use crate::round::Round;
use crate::runs::Runs;
use crate::work::Work;
use std::alloc::Global;
use std::marker::PhantomData;
use std::sync::Wait;
use std::thread::Threads;
use zone_core::{BareZone, ZoneError};

/// What the lock keeps of a zone that nobody else has: what its first round comes to. No client may make calls, and rounds are all the work.
struct Alone<K> {
    of: PhantomData<K>,
}

impl<K: StartIdentity> MemoryIdentity for Alone<K> {
    ghost number = { K.start.number };

    ghost blocks = { K.start.blocks };

    ghost memory = { K.start.memory };
}

impl<K: StartIdentity> Keeping for Alone<K> {
    ghost keeps = { λ work rounds z. KeepsRound (unlent K.start) work rounds (unlent z) };

    ghost stops_at = { λ work. StopsAlone (unlent K.start) };

    ghost allows = { λ client. ⊥ };

    ghost works = { λ work. work ≡ Compact };

    ghost begins = { λ work next rounds z is law none keeps. round_begins (unlent K.start) work next rounds z is law keeps };

    ghost takes = { λ work rounds z m begun law accepted found keeps. round_takes (unlent K.start) work rounds z m begun law accepted found keeps };

    ghost finds_none = { λ work rounds z begun law accepted none keeps. round_finds_none (unlent K.start) work rounds z keeps };

    ghost stops = { λ work rounds z law accepted none keeps. round_stops (unlent K.start) work rounds z accepted none keeps };

    ghost fills = { λ work rounds z error law refused keeps. round_fills (unlent K.start) work rounds z error refused keeps };

    ghost goes_on = { λ work rounds z m stop begun law accepted found keeps. round_goes_on (unlent K.start) work rounds z m stop law accepted found keeps };

    ghost commits = { λ work rounds z page serial source target law at keeps. round_commits (unlent K.start) work rounds z page serial source target law at keeps };

    ghost calls = { λ W work rounds z client call never law accepted keeps. absurd never };
}

/// What the lock keeps of a zone that nobody else has: what the emptying of its runs comes to. No client may make calls, and this is all the
/// work.
struct Emptying<K> {
    of: PhantomData<K>,
}

impl<K: RunsIdentity> MemoryIdentity for Emptying<K> {
    ghost number = { K.start.number };

    ghost blocks = { K.start.blocks };

    ghost memory = { K.start.memory };
}

impl<K: RunsIdentity> Keeping for Emptying<K> {
    ghost keeps = { λ work rounds z. KeepsEmptied (unlent K.start) K.runs work rounds (unlent z) };

    ghost stops_at = { StopsEmptied (unlent K.start) K.runs };

    ghost allows = { λ client. ⊥ };

    ghost works = { λ work. work ≡ Empty K.runs };

    ghost begins = { λ work next rounds z is law none keeps. emptying_starts (unlent K.start) K.runs work next rounds z is law none keeps };

    ghost takes = { λ work rounds z m begun law accepted found keeps. emptying_takes (unlent K.start) K.runs work rounds z m begun accepted found keeps };

    ghost finds_none = { λ work rounds z begun law accepted none keeps. emptying_finds_none (unlent K.start) K.runs work rounds z begun none keeps };

    ghost stops = { λ work rounds z law accepted none keeps. stops_left (unlent K.start) K.runs work rounds z none };

    ghost fills = { λ work rounds z error law refused keeps. fills_left (unlent K.start) K.runs work rounds z error refused keeps };

    ghost goes_on = { λ work rounds z m stop begun law accepted found keeps stopped. goes_on_left (unlent K.start) K.runs work rounds z m stop found stopped };

    ghost commits = { λ work rounds z page serial source target law at keeps. emptying_commits (unlent K.start) K.runs work rounds z page serial source target law at keeps };

    ghost calls = { λ W work rounds z client call never law accepted keeps. absurd never };
}

/// Runs one round over a zone that nobody else uses meanwhile, with so many workers, 1 to 64, and hands the zone back. `K` has the zone as it
/// is now.
///
/// Refused as Busy where a page is moving, else as OwnMemory where the zone lies in memory of its own, else as `compact` is.
pub fn compact_alone<
    K: StartIdentity + Send + Sync,
    const W: usize,
    G: Gate,
    R: Threads + Wait + Sync,
>(
    rt: &R,
    alloc: Global,
    zone: BareZone<W>,
    workers: usize,
    gate: &G,
) -> (BareZone<W>, Result<Round, WorkError>)
    requires workers { (0 < workers) × (workers ≤ 64) }
    requires start { zone ≡ K.start }
    // In every schedule the zone is the one after a round by hand, but for the order in which moves ended, and for whose words are lent.
    ensures exact { OnOk result.1 (IsSame (by_hand (unlent K.start)) (unlent result.0)) }
    // The round stopped as that one does.
    ensures stopped { IfOk result.1 (λ round. round.stopped ≡ Some (stop_by_hand (unlent K.start))) }
    ensures identity { HasIdentity K.start.number K.start.blocks result.0 }
{
    work_alone::<Alone<K>, W, G, R>(rt, alloc, zone, Work::Compact, workers, gate)
}

/// Empties runs of a zone that nobody else uses meanwhile, as `empty` does, with so many workers, 1 to 64, and hands the zone back. `K` has the
/// zone as it is now, and the runs.
///
/// Refused as Range where no block of this order can begin at one of the frames, else as `compact_alone` is.
pub fn empty_alone<
    K: RunsIdentity + Send + Sync,
    const W: usize,
    G: Gate,
    R: Threads + Wait + Sync,
>(
    rt: &R,
    alloc: Global,
    zone: BareZone<W>,
    runs: Runs,
    workers: usize,
    gate: &G,
) -> (BareZone<W>, Result<Round, WorkError>)
    requires workers { (0 < workers) × (workers ≤ 64) }
    requires start { zone ≡ K.start }
    requires runs { runs ≡ K.runs }
    // In every schedule the zone is the one after one thread emptied the runs, page by page, but for the order in which moves ended, and for
    // whose words are lent.
    ensures exact { IfOk result.1 (λ round. WasEmptied (unlent K.start) K.runs (unlent result.0) round.stopped) }
    ensures identity { HasIdentity K.start.number K.start.blocks result.0 }
{
    if !runs.are_blocks(&zone) {
        return (zone, Err(WorkError::Range));
    }
    work_alone::<Emptying<K>, W, G, R>(rt, alloc, zone, Work::Empty(runs), workers, gate)
}

/// Does work on a zone that nobody else has, and hands the zone back.
fn work_alone<A: Keeping + Send + Sync, const W: usize, G: Gate, R: Threads + Wait + Sync>(
    rt: &R,
    alloc: Global,
    zone: BareZone<W>,
    work: Work,
    workers: usize,
    gate: &G,
) -> (BareZone<W>, Result<Round, WorkError>)
    requires workers { (0 < workers) × (workers ≤ 64) }
    requires may { A.works work }
    requires identity { HasIdentity A.number A.blocks zone }
    requires memory { zone.memory ≡ A.memory }
    requires keeps { A.keeps Compact 0 zone }
    ensures rested { OnOk result.1 (IsAtRest zone.entry) }
    ensures first { IfOk result.1 (IsOnlyRound A.keeps A.stops_at result.0) }
    ensures identity { HasIdentity A.number A.blocks result.0 }
    ensures valid { OnOk result.1 (IsValidZone result.0) }
{
    if zone.audit().is_err() {
        return (zone, Err(WorkError::Busy));
    }
    let shared = match CompactingZone::<A, W>::new(alloc, zone, workers) {
        Ok(shared) => shared,
        Err((error, zone)) => return (zone, Err(refused(error))),
    };
    let done = run(rt, alloc, &shared, work, workers, gate);
    let (zone, round) = shared.into_room().into_first();
    (zone, done.and(round.ok_or(WorkError::Broken)))
}

/// Why work is refused whose zone can't be shared.
fn refused(error: ZoneError) -> WorkError {
    match error {
        ZoneError::OwnMemory => WorkError::OwnMemory,
        _ => WorkError::Memory,
    }
}
