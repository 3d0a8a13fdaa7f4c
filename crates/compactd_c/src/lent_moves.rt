//! What C calls to copy the pages of a round, or of a run that is emptied, itself: it gets the words of both frames of a move, and brings them
//! back.

ghost use Rattle.std.specs.Prelude.{◌≡◌, ◌↔◌, ◌^◌, ◌<◌, true, length, IsTrue, None, Some, IfNone, IfSome, OnSome};
ghost use Rattle.compactd_c.specs.Answers.{left, IsTold};
ghost use Rattle.compactd_c.specs.LentMoves.{end_move_refusal, lend_move_number, move_of, send_number, send_refused, HasItsWords, HasNone, HasCopied, HasNumbers, Holds, IsBroughtBack};
ghost use Rattle.fewest_core.specs.Sending.{next_move_from, next_sent, sent_committed};
ghost use Rattle.frame_core.specs.Moves.{out};
ghost use Rattle.state_core.specs.Claiming.{is_claimed};
ghost use Rattle.state_core.specs.Ending.{ended_as};
ghost use Rattle.state_core.specs.LentMoves.{lend_move_refusal, lent_committed, lent_put_back, next_lent};
ghost use Rattle.state_core.specs.Packed.{IsPacked};
ghost use Rattle.state_core.specs.Pairs.{HaveMet, next_pair};
ghost use Rattle.state_core.specs.ZoneState.{ZoneState, is_quiet};
ghost use Rattle.zone_core.specs.LentMoves.{LendsNext, SendsNext};

use crate::calls::{MET, number, numbered, told};
use crate::memory::taken;
use crate::pool::Pool;
use row_core::{HeldWords, Row};
use state_core::{Ended, ZoneError};
use zone_core::LentMove;

/// The number that says that no page of a run goes.
const NONE_LEFT: u32 = 55;

/// The move of a page whose words C has: those of the frame that it leaves, and those of the one that it goes to.
#[repr(C)]
#[derive(Drop)]
pub struct HeldMove {
    /// The number of its isolation.
    pub serial: u64,
    /// Its number in the zone.
    pub page: u32,
    /// The frame that it leaves.
    pub source: u32,
    /// The frame that it goes to.
    pub target: u32,
    pub reserved: u32,
    /// The words of the first, which C only reads.
    pub from: HeldWords,
    /// The words of the second.
    pub to: HeldWords,
}

impl HeldMove {
    /// A move whose words are lent, of which there are some.
    pub(crate) fn of(lent: LentMove) -> HeldMove
        requires { 0 < length lent.from.words }
        ensures { move_of result ≡ Some lent }
    {
        let (way, from, to) = lent.into_parts();
        HeldMove {
            serial: way.serial,
            page: way.page.get(),
            source: way.source.get(),
            target: way.target.get(),
            reserved: 0,
            from: HeldWords::of(from),
            to: HeldWords::of(to),
        }
    }

    /// Takes the words of both frames, if they are there, and as many of each.
    pub(crate) fn take(&mut self) -> Option<(Row, Row)>
        ensures some { IfSome result (λ rows. (self.old.from.row ≡ Some rows.0) × (self.old.to.row ≡ Some rows.1)) }
        ensures even { IfSome result (λ rows. (length rows.0.words ≡ length rows.1.words) × (0 < length rows.0.words)) }
        ensures taken { OnSome result (HasNone self.new) }
        ensures none { IfNone result ((z : ZoneState) → end_move_refusal (move_of self.old) z ≡ Some ZoneError.Range) }
        ensures words { IfNone result ((self.new.from.row ≡ self.old.from.row) × (self.new.to.row ≡ self.old.to.row)) }
        ensures numbers { HasNumbers self.old self.new }
    {
        let from = taken(&mut self.from)?;
        let Some(to) = taken(&mut self.to) else {
            self.from = HeldWords::of(from);
            return None;
        };
        if from.len() != to.len() {
            self.put(from, to);
            return None;
        }
        Some((from, to))
    }

    /// Gives C the words of both frames, of which there are some.
    pub(crate) fn put(&mut self, from: Row, to: Row)
        requires { (0 < length from.words) × (0 < length to.words) }
        ensures words { (self.new.from.row ≡ Some from) × (self.new.to.row ≡ Some to) }
        ensures numbers { HasNumbers self.old self.new }
    {
        self.from = HeldWords::of(from);
        self.to = HeldWords::of(to);
    }
}

/// Isolates the next page of a round, and lends the words of the frame that it leaves and of the one that it goes to. It is moving from here
/// on, and its move ends when `compactd_commit_lent` or `compactd_put_back_lent` takes both back. Nothing is copied.
///
/// Refused as JOURNAL_FULL, as OWN_MEMORY where the pool lies in memory of its own, as MET where the scanners have met, or as CLOSED.
#[unsafe(no_mangle)]
pub extern "C" fn compactd_lend_move(pool: &mut Pool, lent: &mut HeldMove) -> u32
    ensures closed { pool.old.zone ≡ None → result ≡ 51 }
    ensures answer { (z : ZoneState) → pool.old.zone ≡ Some z → result ≡ lend_move_number z }
    ensures zone { pool.new.zone ≡ left pool.old.zone lend_move_refusal (λ z. next_lent z (next_pair z)) }
    ensures lent { (z z_new : ZoneState) → pool.old.zone ≡ Some z → pool.new.zone ≡ Some z_new → result ≡ 0 → Holds (LendsNext z z_new) (Some lent.new) }
    ensures met { (z : ZoneState) → pool.old.zone ≡ Some z → result ≡ 53 → HaveMet z }
    // Where nothing was in the way and the scanners met, the zone is packed.
    ensures packed { (z : ZoneState) → pool.new.zone ≡ Some z → result ≡ 53 → is_quiet z ≡ true → length (out z.records) ≡ 0 → IsPacked z }
    ensures kept { ¬ (result ≡ 0) → lent.new ≡ lent.old }
{
    let zone = open_zone!(pool);
    match zone.lend_move() {
        Ok(Some(held)) => {
            *lent = held;
            0
        }
        Ok(None) => MET,
        Err(error) => number(error),
    }
}

/// Isolates the lowest page of a run that may go, outside of a round, and lends the words of both frames of its move, as `compactd_lend_move`
/// does. It goes to the highest free frame of an unmarked pageblock. `compactd_commit_and_claim` ends its move, and `compactd_put_back_lent`
/// where it is to stay. The latest round isn't quiet any more.
///
/// Refused as RANGE where a number is out of its range or no block of this order can begin at the frame. Refused as JOURNAL_FULL, as
/// OWN_MEMORY where the pool lies in memory of its own, as NONE_LEFT where no page of the run may go or no frame is free for one, or as CLOSED.
#[unsafe(no_mangle)]
pub extern "C" fn compactd_lend_move_from(
    pool: &mut Pool,
    first: u32,
    order: u32,
    lent: &mut HeldMove,
) -> u32
    ensures closed { pool.old.zone ≡ None → result ≡ 51 }
    ensures answer { (z : ZoneState) → pool.old.zone ≡ Some z → result ≡ send_number first order z }
    ensures zone { pool.new.zone ≡ left pool.old.zone (send_refused first order) (λ z. next_sent z (next_move_from first (2 ^ order) z)) }
    ensures lent { (z z_new : ZoneState) → pool.old.zone ≡ Some z → pool.new.zone ≡ Some z_new → result ≡ 0 → Holds (SendsNext first (2 ^ order) z z_new) (Some lent.new) }
    ensures kept { ¬ (result ≡ 0) → lent.new ≡ lent.old }
{
    let zone = open_zone!(pool);
    match zone.lend_move_from(first, order) {
        Ok(Some(held)) => {
            *lent = held;
            0
        }
        Ok(None) => NONE_LEFT,
        Err(error) => number(error),
    }
}

/// Takes the words of a move back that C copied, and ends it: the page is in its new frame afterwards, or in its old one where it has a
/// pin. Tells whether it was moved. Nothing is compared.
///
/// Refused as RANGE where words are missing or are more of one frame, as STRANGER where the zone hasn't lent the words of such a move, or as
/// CLOSED.
#[unsafe(no_mangle)]
pub extern "C" fn compactd_commit_lent(
    pool: &mut Pool,
    lent: &mut HeldMove,
    moved: &mut bool,
) -> u32
    requires { HasCopied lent.old pool.old.zone }
    ensures back { IsBroughtBack lent_committed pool.old.zone pool.new.zone lent.old lent.new result }
    ensures moved { IsTold (λ z moved. IsTrue moved ↔ (ended_as z lent.old.page ≡ Ended.Moved)) pool.old.zone result moved.old moved.new }
{
    let zone = open_zone!(pool);
    let ended = zone.commit_lent(lent);
    told(ended.map(|ended| ended == Ended::Moved), moved)
}

/// Takes the words of a move back that C copied, and ends it as `compactd_commit_lent` does. The frame that the page left is claimed, so that
/// no page comes there; one that has a pin is in it, and it isn't claimed. Tells whether the page was moved; then the latest round isn't quiet
/// any more.
///
/// Refused as `compactd_commit_lent` is.
#[unsafe(no_mangle)]
pub extern "C" fn compactd_commit_and_claim(
    pool: &mut Pool,
    lent: &mut HeldMove,
    moved: &mut bool,
) -> u32
    requires { HasCopied lent.old pool.old.zone }
    ensures back { IsBroughtBack sent_committed pool.old.zone pool.new.zone lent.old lent.new result }
    ensures moved { IsTold (λ z moved. IsTrue moved ↔ (ended_as z lent.old.page ≡ Ended.Moved)) pool.old.zone result moved.old moved.new }
    ensures claimed { (z : ZoneState) → pool.new.zone ≡ Some z → result ≡ 0 → moved.new ≡ true → is_claimed z lent.old.source ≡ true }
{
    let zone = open_zone!(pool);
    let ended = zone.commit_and_claim(lent);
    told(ended.map(|ended| ended == Ended::Moved), moved)
}

/// Takes the words of a move back that isn't to be made, and ends it: the page is in its old frame afterwards, with its words.
///
/// Refused as `compactd_commit_lent` is.
#[unsafe(no_mangle)]
pub extern "C" fn compactd_put_back_lent(pool: &mut Pool, lent: &mut HeldMove) -> u32
    requires rows { (z : ZoneState) → pool.old.zone ≡ Some z → HasItsWords lent.old z }
    ensures back { IsBroughtBack lent_put_back pool.old.zone pool.new.zone lent.old lent.new result }
{
    let zone = open_zone!(pool);
    numbered(zone.put_back_lent(lent))
}
