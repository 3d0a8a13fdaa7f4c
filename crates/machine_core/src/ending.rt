//! Ends of moves that a world's end seat counts.

ghost use Rattle.std.specs.Prelude.{◌≡◌, ◌+◌, ◌≤◌, [], ◌∷◌, length, Some};
ghost use Rattle.std.specs.VecDeque.{deque_capacity};
ghost use Rattle.frame_core.specs.Moves.{page_of};
ghost use Rattle.state_core.specs.Valid.{IsValidZone};
ghost use Rattle.state_core.specs.Ending.{IsOwnCopy};
ghost use Rattle.frame_core.specs.Serials.{serials_of};
ghost use Rattle.machine_core.specs.Carried.{AreOwn};
ghost use Rattle.zone_core.specs.Seats.{seat_ended};
ghost use Rattle.machine_core.specs.World.{IsRising, finished_as, finished_in, all_put_back};

use crate::finished::Finished;
use frame_core::{CopiedOf, IsolatedOf};
use std::collections::VecDeque;
use zone_core::{EndSeatIn, Opening, ZoneInOf};

/// Ends the move of a page of the zone with the page's copy.
pub(crate) fn finish_in<const W: usize, Z: Opening>(
    zone: &mut ZoneInOf<W, Z>,
    ends: &mut EndSeatIn<Z>,
    copy: CopiedOf<W>,
) -> Finished
    requires valid { IsValidZone zone.old }
    requires own { IsOwnCopy zone.old copy }
    ensures finished { result ≡ finished_as zone.old copy.entry.serial }
    ensures zone { zone.new ≡ finished_in zone.old copy.entry.serial }
    ensures seat { ends.new ≡ seat_ended ends.old result.ended }
{
    let serial = copy.serial();
    let Ok(ended) = zone.commit(ends, copy) else {
        unreachable!();
    };
    Finished { serial, ended }
}

/// Ends the move of a page of the zone that wasn't copied.
fn put_back_in<const W: usize, Z: Opening>(
    zone: &mut ZoneInOf<W, Z>,
    ends: &mut EndSeatIn<Z>,
    page: IsolatedOf<W>,
)
    requires valid { IsValidZone zone.old }
    requires own { IsOwnCopy zone.old page }
    ensures zone { zone.new ≡ all_put_back zone.old (page.entry.serial ∷ []) }
    ensures valid { IsValidZone zone.new }
    ensures page { page_of zone.old.records page.entry.serial ≡ Some page.entry.page.number }
    ensures seat { ends.new ≡ record ends.old { back = ends.old.back + 1 } }
{
    let Ok(()) = zone.put_back(ends, page) else {
        unreachable!();
    };
}

/// Ends the moves of pages of the zone that weren't copied, in order, and answers how many there are.
pub(crate) fn put_all_back_in<const W: usize, Z: Opening>(
    zone: &mut ZoneInOf<W, Z>,
    ends: &mut EndSeatIn<Z>,
    waiting: &mut VecDeque<IsolatedOf<W>>,
) -> u32
    requires valid { IsValidZone zone.old }
    requires own { AreOwn zone.old waiting.old.items }
    requires rising { IsRising (serials_of waiting.old.items) }
    requires few { length waiting.old.items ≤ 16777216 }
    ensures count { result ≡ length waiting.old.items }
    ensures zone { zone.new ≡ all_put_back zone.old (serials_of waiting.old.items) }
    ensures blocks { zone.new.blocks ≡ zone.old.blocks }
    ensures waiting { waiting.new.items ≡ [] }
    ensures capacity { deque_capacity waiting.new ≡ deque_capacity waiting.old }
    ensures seat { ends.new ≡ record ends.old { back = ends.old.back + length waiting.old.items } }
{
    let mut count = 0;
    while let Some(page) = waiting.pop_front() {
        put_back_in(zone, ends, page);
        count += 1;
    }
    count
}
