//! What C calls to empty a run of frames in steps: it is claimed, emptied, and handed out or dropped.

ghost use Rattle.std.specs.Prelude.{◌≡◌, ◌/◌, ◌^◌, ℕ, true, false, Some};
ghost use Rattle.std.specs.FinMap as map;
ghost use Rattle.compactd_c.specs.Answers.{IsCall, IsTold};
ghost use Rattle.compactd_c.specs.Emptied.{IsEmptied};
ghost use Rattle.compactd_c.specs.Ranges.{is_block, ranged};
ghost use Rattle.fewest_core.specs.Claims.{claim_refusal, claimed_taken, drop_refusal, step_refusal, stepped, take_claimed_refusal};
ghost use Rattle.fewest_core.specs.Evacuation.{is_in_run};
ghost use Rattle.fewest_core.specs.FewestMoves.{cost};
ghost use Rattle.state_core.specs.Claiming.{run_claimed, run_dropped};
ghost use Rattle.state_core.specs.ZoneState.{ZoneState, is_free};

use crate::calls::{number, numbered, told};
use crate::pool::Pool;

/// Claims the free frames of a run of 2^order frames, which is aligned to its size, so that no page comes there, and gets how many pages
/// the run has. The latest round isn't quiet any more.
///
/// Refused as RANGE where a number is out of its range or no block of this order can begin at the frame. Refused as NO_BLOCK where a frame
/// of the run is in a marked pageblock, handed out, claimed already, or of a page that is moving, pinned or unmovable. Refused as CLOSED.
#[unsafe(no_mangle)]
pub extern "C" fn compactd_claim(pool: &mut Pool, first: u32, order: u32, pages: &mut u32) -> u32
    ensures call { IsCall (λ z. ranged (is_block first order) (claim_refusal z first order)) (run_claimed first (2 ^ order)) pool.old.zone pool.new.zone result }
    ensures pages { IsTold (λ z pages. pages ≡ cost z (2 ^ order) (first / 2 ^ order)) pool.old.zone result pages.old pages.new }
    // No frame of the run is free then.
    ensures shut { (z : ZoneState) → pool.new.zone ≡ Some z → result ≡ 0 → (frame : ℕ) → is_in_run first (2 ^ order) frame ≡ true → is_free z frame ≡ false }
{
    let zone = open_zone!(pool);
    told(zone.claim(first, order), pages)
}

/// A step: claims the frames of a run that are free, and moves at most `most` pages out of it, the lowest first, each to the highest free
/// frame of an unmarked pageblock. The frames that they leave are claimed too. Gets how many pages were moved, and how many frames of the
/// run aren't claimed yet. Pages that are pinned, moving or unmovable stay. The latest round isn't quiet any more.
///
/// Refused as RANGE where a number is out of its range or no block of this order can begin at the frame. Refused as JOURNAL_FULL, or as
/// CLOSED.
#[unsafe(no_mangle)]
pub extern "C" fn compactd_empty_some(
    pool: &mut Pool,
    first: u32,
    order: u32,
    most: u32,
    moved: &mut u32,
    unclaimed: &mut u32,
) -> u32
    ensures call { IsCall (λ z. ranged (is_block first order) (step_refusal z first order most)) (λ z. stepped first (2 ^ order) z most) pool.old.zone pool.new.zone result }
    ensures emptied { (old new : ZoneState) → pool.old.zone ≡ Some old → pool.new.zone ≡ Some new → result ≡ 0 → IsEmptied first order most old new (record { moved = moved.new; unclaimed = unclaimed.new }) }
    ensures kept { ¬ (result ≡ 0) → (moved.new ≡ moved.old) × (unclaimed.new ≡ unclaimed.old) }
{
    let zone = open_zone!(pool);
    match zone.empty_some(first, order, most) {
        Ok(step) => {
            *moved = step.moved;
            *unclaimed = step.unclaimed;
            0
        }
        Err(error) => number(error),
    }
}

/// Hands out a run whose frames are all claimed.
///
/// Refused as RANGE where a number is out of its range or no block of this order can begin at the frame. Refused as JOURNAL_FULL, as
/// NO_BLOCK where a frame of the run isn't claimed, or as CLOSED.
#[unsafe(no_mangle)]
pub extern "C" fn compactd_take_claimed(pool: &mut Pool, first: u32, order: u32) -> u32
    ensures call { IsCall (λ z. ranged (is_block first order) (take_claimed_refusal z first order)) (λ z. claimed_taken z first order) pool.old.zone pool.new.zone result }
    ensures taken { (z : ZoneState) → pool.new.zone ≡ Some z → result ≡ 0 → map.get z.handed_out first ≡ Some order }
{
    let zone = open_zone!(pool);
    numbered(zone.take_claimed(first, order))
}

/// Drops the claims of the frames of a run, which are free then. The latest round isn't quiet any more.
///
/// Refused as RANGE where a number is out of its range or no block of this order can begin at the frame, or as CLOSED.
#[unsafe(no_mangle)]
pub extern "C" fn compactd_drop_claim(pool: &mut Pool, first: u32, order: u32) -> u32
    ensures call { IsCall (λ z. ranged (is_block first order) (drop_refusal z first order)) (run_dropped first (2 ^ order)) pool.old.zone pool.new.zone result }
{
    let zone = open_zone!(pool);
    numbered(zone.drop_claim(first, order))
}
