//! What C calls to get several blocks at once.

ghost use Rattle.std.specs.Prelude.{◌≡◌, ◌<◌, length, IsTrue, None, Some, IfOk, OnErr};
ghost use Rattle.std.specs.FinMap as map;
ghost use Rattle.std.specs.Result.{result_err};
ghost use Rattle.compactd_c.specs.Answers.{answer_of};
ghost use Rattle.compactd_c.specs.Emptied.{IsReserved};
ghost use Rattle.compactd_c.specs.Ranges.{is_order, ranged};
ghost use Rattle.fewest_core.specs.Reservation.{reserve_refusal, reserved};
ghost use Rattle.state_core.specs.ZoneState.{ZoneState};

use crate::calls::told;
use crate::pool::Pool;
use crate::zone::Zone;
use frame_core::{FixedVec, FrameNo, Order};
use state_core::ZoneError;
use std::alloc::Global;

/// Hands out as many blocks of an order as `firsts` has places, and gets their first frames and how many pages were moved for it. The
/// cheapest open runs are emptied for that, the lowest first of equals: no list of moves that makes so many runs free is shorter. Their
/// pages go, the lowest first, each to the highest free frame of an unmarked pageblock outside of these runs. The latest round isn't quiet
/// after the first of them.
///
/// Refused as RANGE where the order is out of its range, and as MEMORY where there isn't enough for a list of the blocks. Refused as
/// NO_BLOCK where fewer runs are open, and where fewer frames of unmarked pageblocks are free than the blocks have. Refused as
/// JOURNAL_FULL, or as CLOSED.
#[unsafe(no_mangle)]
pub extern "C" fn compactd_reserve(
    alloc: Global,
    pool: &mut Pool,
    order: u32,
    firsts: &mut [u32],
    moved: &mut u32,
) -> u32
    ensures answer { ¬ (result ≡ 14) → result ≡ answer_of pool.old.zone (λ z. ranged (is_order order) (reserve_refusal z (length firsts.old) order)) }
    ensures memory { result ≡ 14 → ¬ (pool.old.zone ≡ None) × IsTrue (is_order order) }
    ensures reserved { (old new : ZoneState) → pool.old.zone ≡ Some old → pool.new.zone ≡ Some new → result ≡ 0 → IsReserved order firsts.new old new moved.new }
    ensures open { result ≡ 0 → ¬ (pool.new.zone ≡ None) }
    ensures count { length firsts.new ≡ length firsts.old }
    ensures kept { ¬ (result ≡ 0) → (pool.new.zone ≡ pool.old.zone) × (firsts.new ≡ firsts.old) × (moved.new ≡ moved.old) }
{
    let zone = open_zone!(pool);
    let answer = reserve(alloc, zone, order, firsts);
    told(answer, moved)
}

/// The same of a zone. The list of its blocks is there for this call alone.
fn reserve(alloc: Global, zone: &mut Zone, order: u32, firsts: &mut [u32]) -> Result<u32, ZoneError>
    ensures refused { ¬ (result ≡ Err ZoneError.Memory) → result_err result ≡ ranged (is_order order) (reserve_refusal zone.old (length firsts.old) order) }
    ensures memory { result ≡ Err ZoneError.Memory → IsTrue (is_order order) }
    ensures err { OnErr result ((zone.new ≡ zone.old) × (firsts.new ≡ firsts.old)) }
    ensures ok { IfOk result (IsReserved order firsts.new zone.old zone.new) }
    ensures count { length firsts.new ≡ length firsts.old }
{
    let order = Order::new(order).ok_or(ZoneError::Range)?;
    let Some(lowest) = FrameNo::in_any_zone(0) else {
        unreachable!();
    };
    let mut frames = FixedVec::filled(alloc, lowest, firsts.len())?;
    let pages = zone.reserve(order, &mut frames)?;
    write_numbers(&frames, firsts);
    Ok(pages)
}

/// Writes the numbers of frames.
pub(crate) fn write_numbers(frames: &[FrameNo], numbers: &mut [u32])
    requires { length frames.now ≡ length numbers.old }
    ensures { numbers.new ≡ frames.now }
{
    for (place, frame) in frames.iter().enumerate() {
        numbers[place] = frame.get();
    }
}
