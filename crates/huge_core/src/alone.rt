ghost use Rattle.std.specs.Prelude.{◌≡◌, ◌<◌, ◌≤◌, ◌↔◌, Some, All, IfErr, OnOk, OnErr};
ghost use Rattle.arrayvec.specs.ArrayVec.{array_vec_len};
ghost use Rattle.huge_core.specs.ByHand.{HasFilled, IsReservedByHand};
ghost use Rattle.huge_core.specs.Reserving.{HasRun, IsGot};
ghost use Rattle.zone_core.specs.Alone.{IsAtRest};
ghost use Rattle.round_core.specs.Kept.{LockInvariant};
ghost use Rattle.state_core.specs.HandingOut.{take_order_refusal};
ghost use Rattle.state_core.specs.Valid.{IsValidZone};
ghost use Rattle.zone_core.specs.ZoneIdentity.{HasIdentity};

use crate::collector::{Collector, idle_stop};
use crate::huge::Huge;
use crate::report::{Report, Stop};
use arrayvec::ArrayVec;
use frame_core::Order;
use round_core::{Gate, compact_alone};
use std::alloc::Global;
use std::sync::Wait;
use std::thread::Threads;
use zone_core::{Opening, SeatsIn, ZoneError, ZoneIn};

/// Runs one reservation over a zone that nobody else uses meanwhile, and hands the zone back with what was reserved. It is
/// asked for 1 to 8 blocks.
pub fn reserve_alone<Z: Opening + Send + Sync, G: Gate, R: Threads + Wait + Sync>(
    rt: &R,
    alloc: Global,
    collector: &Collector,
    mut zone: ZoneIn<Z>,
    seats: &mut SeatsIn<Z>,
    n: usize,
    gate: &G,
) -> (ZoneIn<Z>, Report)
    requires n { (0 < n) × (n ≤ 8) }
    // In every schedule it did what a reservation by hand does, where no page was moving before.
    ensures exact { IsAtRest zone → IsReservedByHand collector.now n zone result.0 result.1 }
    ensures kept { LockInvariant result.0 }
    ensures identity { HasIdentity zone.number zone.blocks result.0 }
    ensures got { All (IsGot collector.now.order) result.1.got.items }
    ensures most { array_vec_len result.1.got ≤ n }
    ensures enough { (result.1.stop ≡ Stop.Enough) ↔ (array_vec_len result.1.got ≡ n) }
    ensures rounds { HasRun collector.now seats.old.scan seats.new.scan seats.old.ends seats.new.ends result.1 }
{
    let mut got = ArrayVec::new();
    let mut rounds = 0;
    let stop = loop {
        let Err(error) = fill_alone(&mut zone, collector.order, n, &mut got) else {
            break Stop::Enough;
        };
        if let ZoneError::JournalFull = error {
            break Stop::JournalFull;
        }
        if rounds == collector.rounds {
            break Stop::Rounds;
        }
        let (after, result) = compact_alone(
            rt,
            alloc,
            zone,
            seats,
            collector.copiers,
            collector.cap,
            gate,
        );
        zone = after;
        match result {
            Ok(round) => {
                rounds += 1;
                if round.moved == 0 {
                    break idle_stop(round.stopped);
                }
            }
            Err(error) => break Stop::Refused(error),
        }
    };
    (zone, Report { got, rounds, stop })
}

/// Takes free blocks of an order until there are `n`, or until the zone refuses one. It is called with fewer.
fn fill_alone<Z: Opening>(
    zone: &mut ZoneIn<Z>,
    order: Order,
    n: usize,
    got: &mut ArrayVec<Option<Huge>, 8>,
) -> Result<(), ZoneError>
    requires n { n ≤ 8 }
    requires fewer { array_vec_len got.old < n }
    requires got { All (IsGot order) got.old.items }
    // It took the blocks that a reservation by hand takes.
    ensures filled { HasFilled order n zone.old zone.new got.old.items got.new.items }
    ensures rest { IsAtRest zone.old → IsAtRest zone.new }
    ensures valid { IsValidZone zone.new }
    ensures identity { HasIdentity zone.old.number zone.old.blocks zone.new }
    ensures got { All (IsGot order) got.new.items }
    ensures ok { OnOk result (array_vec_len got.new ≡ n) }
    ensures err { OnErr result (array_vec_len got.new < n) }
    ensures refused { IfErr result (λ error. take_order_refusal zone.new order ≡ Some error) }
    // An order is 3 to 9.
    ensures low { 3 ≤ order }
    ensures high { order ≤ 9 }
{
    while got.len() < n {
        got.push(Some(Huge::take(zone, order)?));
    }
    Ok(())
}
