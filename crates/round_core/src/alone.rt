ghost use Rattle.std.specs.Prelude.{◌≡◌, ◌+◌, ◌<◌, ◌≤◌, true, None, IfOk, OnOk, vec_len};
ghost use Rattle.frame_core.specs.Moves.{isolated};
ghost use Rattle.zone_core.specs.ByHand.{by_hand};
ghost use Rattle.zone_core.specs.Fingers.{IsSameInRound};
ghost use Rattle.zone_core.specs.Outcome.{IsSame};
ghost use Rattle.zone_core.specs.Seats.{audit_refusal};
ghost use Rattle.round_core.specs.Kept.{LockInvariant};
ghost use Rattle.round_core.specs.Rounds.{IsRound, IsRefusedEarly, IsBroken, IsUnlimited, stop_by_hand};
ghost use Rattle.round_core.specs.Scanning.{HasMore};
ghost use Rattle.round_core.specs.Settling.{IsRoundRun};
ghost use Rattle.state_core.specs.Packed.{IsPacked};
ghost use Rattle.state_core.specs.Pairs.{is_calm};
ghost use Rattle.state_core.specs.ZoneState.{is_quiet};
ghost use Rattle.zone_core.specs.ZoneIdentity.{HasIdentity};

use crate::compacting::{Settlement, round_between, run_round};
use crate::error::RoundError;
use crate::gate::Gate;
use crate::keeping::Keeping;
use crate::plan::Plan;
use crate::round::{Round, Stop};
use crate::shared_zone::KeptIn;
use frame_core::Serial;
use std::alloc::Global;
use std::marker::Brand;
use std::sync::Wait;
use std::thread::Threads;
use zone_core::{Opening, SeatsIn, ZoneIn};

/// Runs one round over a zone that nobody else uses meanwhile, and hands the zone back with the round's answer. Its
/// conditions and its refusals are those of `compact`.
pub fn compact_alone<Z: Opening + Send + Sync, G: Gate, R: Threads + Wait + Sync>(
    rt: &R,
    alloc: Global,
    mut zone: ZoneIn<Z>,
    seats: &mut SeatsIn<Z>,
    copiers: usize,
    cap: usize,
    gate: &G,
) -> (ZoneIn<Z>, Result<Round, RoundError>)
    requires copiers { (0 < copiers) × (copiers ≤ 4) }
    requires cap { (0 < cap) × (cap ≤ 64) }
    // In every schedule the zone is the one after a round by hand, but for the order in which moves ended.
    ensures exact { OnOk result.1 (IsSame (by_hand zone) result.0) }
    // Where it isolated a page, its fingers stand where that round leaves them.
    ensures fingers { IfOk result.1 (λ r. 0 < r.count → IsSameInRound (by_hand zone) result.0) }
    // And it is quiet exactly where it began calm.
    ensures quiet { IfOk result.1 (λ r. 0 < r.count → is_quiet result.0 ≡ is_calm zone) }
    // As many pages were isolated, each of them was moved, and the round stopped as that one does.
    ensures count { IfOk result.1 (λ r. isolated zone.records + r.count ≡ isolated (by_hand zone).records) }
    ensures none_back { IfOk result.1 (λ r. r.back ≡ 0) }
    ensures stopped { IfOk result.1 (λ r. r.stopped ≡ stop_by_hand zone) }
    ensures unlimited { IsUnlimited result.1 }
    // An audit of the zone passes.
    ensures passes { OnOk result.1 (audit_refusal result.0 seats.new.ends ≡ None) }
    // Where nothing was stuck and the scanners met, the zone is packed.
    ensures packed { IfOk result.1 (λ r. r.stopped ≡ Stop.Met → is_calm zone ≡ true → IsPacked result.0) }
    // It had as many copiers as were asked for: each has its list.
    ensures lists { IfOk result.1 (λ r. vec_len r.by_copier ≡ copiers) }
    // Where the seats were whole and no round was begun, the zone is as before.
    ensures unbegun { ¬ (IsBroken seats.old.scan seats.old.ends) → seats.new.scan.rounds ≡ seats.old.scan.rounds → IsSame zone result.0 }
    ensures kept { LockInvariant result.0 }
    ensures identity { HasIdentity zone.number zone.blocks result.0 }
    ensures round { IfOk result.1 (λ r. IsRound seats.old.scan seats.new.scan seats.old.ends seats.new.ends r) }
    ensures early { IsRefusedEarly seats.old.scan seats.new.scan seats.old.ends seats.new.ends result.1 }
{
    let Ok(before) = zone.audit(&mut seats.scan, &mut seats.ends) else {
        return (zone, Err(RoundError::Broken));
    };
    let plan = Plan {
        alloc,
        copiers,
        cap,
        most: None,
    };
    let (mut zone, settled) = run_shared::<Brand, Z, G, R>(
        rt,
        zone,
        seats,
        before.isolated,
        plan,
        gate,
    );
    let after = zone.audit(&mut seats.scan, &mut seats.ends);
    (zone, round_between(&before, settled, after))
}

/// Runs a round over a zone with the number and the pageblocks that the type names, as `run_round` does.
fn run_shared<
    K: Keeping + Send + Sync,
    Z: Opening + Send + Sync,
    G: Gate,
    R: Threads + Wait + Sync,
>(
    rt: &R,
    zone: ZoneIn<Z>,
    seats: &mut SeatsIn<Z>,
    base: Serial,
    plan: Plan,
    gate: &G,
) -> (ZoneIn<Z>, Result<Settlement, RoundError>)
    requires base { base ≡ seats.old.scan.count }
    requires whole { seats.old.ends.parts ≡ 64 }
    requires most { HasMore plan.most }
    requires begins { K.begins_at seats.old.scan.count }
    requires identity { HasIdentity K.number K.blocks zone }
    requires keeps { K.keeps zone }
    requires told { K.told zone.records ≡ None }
    ensures keeps { K.keeps result.0 }
    ensures kept { LockInvariant result.0 }
    ensures identity { HasIdentity K.number K.blocks result.0 }
    ensures ran { IsRoundRun K.stops_at K.unpinned plan.most plan.copiers seats.old.scan seats.new.scan seats.old.ends seats.new.ends result.1 }
{
    let shared = KeptIn::<K, Z>::new(zone);
    let settled = run_round(rt, &shared, seats, base, plan, gate);
    (shared.into_zone(), settled)
}
