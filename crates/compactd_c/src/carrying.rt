//! What C calls to make the moves of a round itself: it isolates a page, copies its words, and brings them back.

ghost use Rattle.std.specs.Prelude.{◌≡◌, ◌↔◌, true, length, IsTrue, None, Some};
ghost use Rattle.compactd_c.specs.Answers.{left, IsTold};
ghost use Rattle.compactd_c.specs.Carried.{IsOwn, moving_page_of, words_of, isolate_number, isolate_refused, commit_refused};
ghost use Rattle.frame_core.specs.Moves.{out};
ghost use Rattle.state_core.specs.Ending.{committed, ended_as};
ghost use Rattle.state_core.specs.ErrorNumber.{number_of};
ghost use Rattle.state_core.specs.Isolating.{next_state};
ghost use Rattle.state_core.specs.Packed.{IsPacked};
ghost use Rattle.state_core.specs.Pairs.{HaveMet, next_pair};
ghost use Rattle.state_core.specs.ZoneState.{ZoneState, is_quiet};

use crate::calls::{MET, number as number_for, told};
use crate::pool::Pool;
use state_core::Ended;

/// A page that is moving. C has its words beside it.
#[repr(C)]
#[derive(Clone, Copy)]
pub struct MovingPage {
    /// The number of its isolation.
    pub serial: u64,
    /// Its number in the zone.
    pub number: u32,
    /// 1 is unmovable, 2 is dirty.
    pub flags: u32,
    pub reserved: [u64; 2],
}

/// Isolates the next page of a round, and copies its words. It is moving from here on. There have to be as many words as a page has.
///
/// Refused as RANGE where they are more or fewer, as JOURNAL_FULL, as MET where the scanners have met, or as CLOSED.
#[unsafe(no_mangle)]
pub extern "C" fn compactd_isolate(pool: &mut Pool, page: &mut MovingPage, words: &mut [u64]) -> u32
    ensures closed { pool.old.zone ≡ None → result ≡ 51 }
    ensures answer { (z : ZoneState) → pool.old.zone ≡ Some z → result ≡ isolate_number z (length words.old) }
    ensures zone { pool.new.zone ≡ left pool.old.zone (λ z. isolate_refused z (length words.old)) (λ z. next_state z (next_pair z)) }
    ensures page { (z : ZoneState) → pool.old.zone ≡ Some z → result ≡ 0 → moving_page_of z (next_pair z) ≡ Some page.new }
    ensures words { (z : ZoneState) → pool.old.zone ≡ Some z → result ≡ 0 → words.new ≡ words_of z (next_pair z) words.old }
    ensures met { (z : ZoneState) → pool.old.zone ≡ Some z → result ≡ 53 → HaveMet z }
    // Where nothing was in the way and the scanners met, the zone is packed.
    ensures packed { (z : ZoneState) → pool.new.zone ≡ Some z → result ≡ 53 → is_quiet z ≡ true → length (out z.records) ≡ 0 → IsPacked z }
    ensures kept { ¬ (result ≡ 0) → (page.new ≡ page.old) × (words.new ≡ words.old) }
{
    let zone = open_zone!(pool);
    let answer = zone.isolate(words);
    match answer {
        Ok(Some(isolated)) => {
            *page = isolated;
            0
        }
        Ok(None) => MET,
        Err(error) => number_for(error),
    }
}

/// Ends the move of a page that C copied, by its serial, its number and its words: it is in its new frame afterwards, or in its old one
/// where it has a pin. Tells whether it was moved.
///
/// Refused as RANGE where the words are more or fewer than a page has, as STRANGER where they aren't those of a page that is moving
/// under this serial, or as CLOSED.
#[unsafe(no_mangle)]
pub extern "C" fn compactd_commit(
    pool: &mut Pool,
    page: &MovingPage,
    words: &[u64],
    moved: &mut bool,
) -> u32
    ensures closed { pool.old.zone ≡ None → result ≡ 51 }
    ensures own { (z : ZoneState) → pool.old.zone ≡ Some z → (result ≡ 0) ↔ IsOwn z page.now.serial page.now.number words.now }
    ensures refused { (z : ZoneState) → pool.old.zone ≡ Some z → ¬ (result ≡ 0) → result ≡ number_of (commit_refused z (length words.now)) }
    ensures zone { (z : ZoneState) → pool.old.zone ≡ Some z → result ≡ 0 → pool.new.zone ≡ Some (committed z page.now.serial page.now.number) }
    ensures moved { IsTold (λ z moved. IsTrue moved ↔ (ended_as z page.now.number ≡ Ended.Moved)) pool.old.zone result moved.old moved.new }
    ensures kept { ¬ (result ≡ 0) → pool.new.zone ≡ pool.old.zone }
{
    let zone = open_zone!(pool);
    let answer = zone.commit(page.serial, page.number, words);
    told(answer.map(|ended| ended == Ended::Moved), moved)
}
