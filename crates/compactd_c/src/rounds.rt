//! What C calls to run rounds, and to make the moves of a round itself.

ghost use Rattle.std.specs.Prelude.{◌≡◌, ◌+◌, ◌≤◌, ◌↔◌, false, if◌then◌else◌, is_some, nat_eq, IsTrue, None, Some};
ghost use Rattle.compactd_c.specs.Answers.{IsCall};
ghost use Rattle.compactd_c.specs.Carried.{is_carried};
ghost use Rattle.compactd_c.specs.Rounds.{IsCompacted};
ghost use Rattle.frame_core.specs.Moves.{moved as pages_moved};
ghost use Rattle.frame_core.specs.declared.record.Cause.{Cause};
ghost use Rattle.state_core.specs.Ending.{put_back_to_source};
ghost use Rattle.state_core.specs.Isolating.{isolate_refusal};
ghost use Rattle.state_core.specs.Rounds.{round_begun};
ghost use Rattle.state_core.specs.ZoneState.{ZoneState};
ghost use Rattle.state_core.specs.declared.error.ZoneError.{ZoneError};
ghost use Rattle.zone_core.specs.OneThread.{moved_at_most, all_moved};

use crate::calls::{MET, number, numbered};
use crate::carrying::MovingPage;
use crate::pool::Pool;
use state_core::ZoneError;
use zone_core::Answered;

/// Runs a whole round on the thread that calls, and tells whether its scanners met; else the journal had no room for a
/// further move.
///
/// Refused as CLOSED.
#[unsafe(no_mangle)]
pub extern "C" fn compactd_compact(pool: &mut Pool, met: &mut bool) -> u32
    ensures call { IsCall (λ z. None) (λ z. all_moved (round_begun z)) pool.old.zone pool.new.zone result }
    ensures met { (z : ZoneState) → pool.new.zone ≡ Some z → IsTrue met.new → IsCompacted z }
    ensures full { (z : ZoneState) → pool.new.zone ≡ Some z → (met.new ≡ false) ↔ (isolate_refusal z ≡ Some ZoneError.JournalFull) }
    ensures kept { ¬ (result ≡ 0) → met.new ≡ met.old }
{
    let zone = open_zone!(pool);
    *met = zone.compact();
    0
}

/// Moves the next pages of the round that was begun last, so many at most, as `compactd_compact` moves them. Gets how many were moved,
/// and why no more were: 0 where they are as many as were asked for, and else MET or JOURNAL_FULL.
///
/// Refused as CLOSED.
#[unsafe(no_mangle)]
pub extern "C" fn compactd_move_pages(
    pool: &mut Pool,
    most: u32,
    moved: &mut u32,
    stopped: &mut u32,
) -> u32
    ensures call { IsCall (λ z. None) (moved_at_most most) pool.old.zone pool.new.zone result }
    ensures moved { (z : ZoneState) → pool.old.zone ≡ Some z → (moved.new ≤ most) × (pages_moved (moved_at_most most z).records ≡ pages_moved z.records + moved.new) }
    ensures stopped { (z : ZoneState) → pool.new.zone ≡ Some z → stopped.new ≡ (if nat_eq moved.new most then 0 else if is_some (isolate_refusal z) then 2 else 53) }
    ensures met { (z : ZoneState) → pool.new.zone ≡ Some z → stopped.new ≡ 53 → IsCompacted z }
    ensures kept { ¬ (result ≡ 0) → (moved.new ≡ moved.old) × (stopped.new ≡ stopped.old) }
{
    let zone = open_zone!(pool);
    let slice = zone.move_pages(most);
    *moved = slice.moved;
    *stopped = match slice.last {
        Answered::Page => 0,
        Answered::Met => MET,
        Answered::JournalFull => number(ZoneError::JournalFull),
    };
    0
}

/// Begins a round whose pages C carries itself, or that it makes in slices.
///
/// Refused as CLOSED.
#[unsafe(no_mangle)]
pub extern "C" fn compactd_begin_round(pool: &mut Pool) -> u32
    ensures call { IsCall (λ z. None) round_begun pool.old.zone pool.new.zone result }
{
    let zone = open_zone!(pool);
    zone.begin_round();
    0
}

/// Ends the move of a page that wasn't copied, by its serial and its number: it is in its old frame afterwards.
///
/// Refused as STRANGER where no such page is moving, or as CLOSED.
#[unsafe(no_mangle)]
pub extern "C" fn compactd_put_back(pool: &mut Pool, page: &MovingPage) -> u32
    ensures closed { pool.old.zone ≡ None → result ≡ 51 }
    ensures own { (z : ZoneState) → pool.old.zone ≡ Some z → (result ≡ 0) ↔ IsTrue (is_carried z page.now.number page.now.serial) }
    ensures stranger { (z : ZoneState) → pool.old.zone ≡ Some z → ¬ (result ≡ 0) → result ≡ 13 }
    ensures zone { (z : ZoneState) → pool.old.zone ≡ Some z → result ≡ 0 → pool.new.zone ≡ Some (put_back_to_source z page.now.serial page.now.number Cause.NotCopied) }
    ensures kept { ¬ (result ≡ 0) → pool.new.zone ≡ pool.old.zone }
{
    let zone = open_zone!(pool);
    numbered(zone.put_back(page.serial, page.number))
}
