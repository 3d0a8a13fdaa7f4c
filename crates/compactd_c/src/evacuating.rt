//! What C calls to empty a run of frames.

ghost use Rattle.std.specs.Prelude.{◌≡◌, ◌+◌, ◌/◌, ◌^◌, IsTrue, Some};
ghost use Rattle.compactd_c.specs.Answers.{IsCall, IsTold};
ghost use Rattle.compactd_c.specs.Ranges.{is_block, ranged};
ghost use Rattle.fewest_core.specs.Evacuation.{evacuate_refusal, evacuated, IsCarriedOut};
ghost use Rattle.fewest_core.specs.FewestMoves.{cost};
ghost use Rattle.frame_core.specs.Moves.{moved as pages_moved};
ghost use Rattle.state_core.specs.HandingOut.{is_run};
ghost use Rattle.state_core.specs.ZoneState.{ZoneState};

use crate::calls::told;
use crate::pool::Pool;

/// Empties a run of 2^order frames, which is aligned to its size, and gets how many pages went out of it. Each page goes to the highest
/// free frame of an unmarked pageblock outside of the run, the lowest page first, and is copied once. The latest round isn't quiet after
/// the first of them.
///
/// Refused as RANGE where a number is out of its range or no block of this order can begin at the frame. Refused as NO_BLOCK where a frame
/// of the run is in a marked pageblock, handed out, or of a page that is moving, pinned or unmovable, and where fewer frames are free
/// outside of the run, in unmarked pageblocks, than the run has pages. Refused as JOURNAL_FULL, or as CLOSED.
#[unsafe(no_mangle)]
pub extern "C" fn compactd_evacuate(pool: &mut Pool, first: u32, order: u32, moved: &mut u32) -> u32
    ensures call { IsCall (λ z. ranged (is_block first order) (evacuate_refusal z first order)) (λ z. evacuated z first (2 ^ order)) pool.old.zone pool.new.zone result }
    ensures moved { IsTold (λ z moved. moved ≡ cost z (2 ^ order) (first / 2 ^ order)) pool.old.zone result moved.old moved.new }
    // The records of the zone that it leaves have so many moves more.
    ensures records { (z : ZoneState) → pool.old.zone ≡ Some z → result ≡ 0 → pages_moved (evacuated z first (2 ^ order)).records ≡ pages_moved z.records + moved.new }
    // All frames of the run are free, and the pages are as they were, but for the frames of those that went.
    ensures empty { (z : ZoneState) → pool.new.zone ≡ Some z → result ≡ 0 → IsTrue (is_run z order first) }
    ensures carried { (old new : ZoneState) → pool.old.zone ≡ Some old → pool.new.zone ≡ Some new → result ≡ 0 → IsCarriedOut first (2 ^ order) old new }
{
    let zone = open_zone!(pool);
    told(zone.evacuate(first, order), moved)
}
