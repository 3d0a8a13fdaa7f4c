//! A zone in memory of its caller, which lends the words of moving pages.

ghost use Rattle.std.specs.Prelude.{◌≡◌, ◌≢◌, ◌^◌, ◌<◌, ℕ, true, length, None, Some, IfErr, IfOk, IfSome, OnErr, OnOk};
ghost use Rattle.std.specs.FinMap as map;
ghost use Rattle.std.specs.Result.{result_err};
ghost use Rattle.compactd_c.specs.LentMoves.{end_move_refusal, held_ended, move_of, send_refused, HasItsWords, HasNone, HasNumbers, Holds, IsCopied, IsKept};
ghost use Rattle.fewest_core.specs.Sending.{next_move_from, next_sent, sent_committed};
ghost use Rattle.frame_core.specs.Moves.{out};
ghost use Rattle.state_core.specs.Claiming.{is_claimed};
ghost use Rattle.state_core.specs.Ending.{ended_as};
ghost use Rattle.state_core.specs.LentMoves.{lend_move_refusal, lent_committed, lent_put_back, next_lent};
ghost use Rattle.state_core.specs.Packed.{IsPacked};
ghost use Rattle.state_core.specs.Pairs.{HaveMet, next_pair};
ghost use Rattle.state_core.specs.ZoneState.{is_quiet};
ghost use Rattle.state_core.specs.declared.placement.Placement.TheVariants.{Moving};
ghost use Rattle.zone_core.specs.LentMoves.{LendsNext, SendsNext};

use super::{Kind, Zone, page_no};
use crate::lent_moves::HeldMove;
use crate::ranges::block;
use frame_core::FrameNo;
use state_core::{Ended, Next, Stranger, ZoneError};
use zone_core::{BareZone, CopiedMove, LentMove};
use zone_tables::Move;

impl Zone {
    /// Isolates the next page of a round, and lends the words of both frames of its move, if there is such a page.
    pub(crate) fn lend_move(&mut self) -> Result<Option<HeldMove>, ZoneError>
        ensures refused { result_err result ≡ lend_move_refusal self.old }
        ensures err { OnErr result (self.new ≡ self.old) }
        ensures ok { OnOk result (self.new ≡ next_lent self.old (next_pair self.old)) }
        ensures lent { IfOk result (Holds (LendsNext self.old self.new)) }
        ensures met { result ≡ Ok None → HaveMet self.old }
        ensures packed { result ≡ Ok None → is_quiet self.new ≡ true → length (out self.new.records) ≡ 0 → IsPacked self.new }
    {
        of_zone!(&mut self.kind, zone => match zone.lend_move() {
            Ok(Next::Page(lent)) => Ok(Some(HeldMove::of(lent))),
            Ok(Next::Met) => Ok(None),
            Err(error) => Err(error),
        })
    }

    /// Isolates the next page of a run, and lends the words of both frames of its move, if there is such a page.
    pub(crate) fn lend_move_from(
        &mut self,
        first: u32,
        order: u32,
    ) -> Result<Option<HeldMove>, ZoneError>
        ensures refused { result_err result ≡ send_refused first order self.old }
        ensures err { OnErr result (self.new ≡ self.old) }
        ensures ok { OnOk result (self.new ≡ next_sent self.old (next_move_from first (2 ^ order) self.old)) }
        ensures lent { IfOk result (Holds (SendsNext first (2 ^ order) self.old self.new)) }
    {
        let (first, order) = block(first, order).ok_or(ZoneError::Range)?;
        of_zone!(&mut self.kind, zone => match zone.lend_move_from(first, order) {
            Ok(Next::Page(lent)) => Ok(Some(HeldMove::of(lent))),
            Ok(Next::Met) => Ok(None),
            Err(error) => Err(error),
        })
    }

    /// Takes the words of a move back that were copied, and ends it.
    pub(crate) fn commit_lent(&mut self, held: &mut HeldMove) -> Result<Ended, ZoneError>
        requires copied { IsCopied held.old }
        requires rows { HasItsWords held.old self.old }
        ensures refused { result_err result ≡ end_move_refusal (move_of held.old) self.old }
        ensures err { OnErr result ((self.new ≡ self.old) × IsKept held.old held.new) }
        ensures ok { OnOk result (self.new ≡ held_ended lent_committed (move_of held.old) self.old) }
        ensures taken { OnOk result (HasNone held.new) }
        ensures ended { IfOk result (λ ended. ended ≡ ended_as self.old held.old.page) }
    {
        of_zone!(&mut self.kind, zone => {
            let lent = bring(zone, held)?;
            match zone.commit_lent(CopiedMove::of(lent)) {
                Ok(ended) => Ok(ended),
                Err(Stranger(copied)) => Err(hand_back(held, copied.into_lent())),
            }
        })
    }

    /// Takes the words of a move back that were copied, ends it, and claims the frame that its page left.
    pub(crate) fn commit_and_claim(&mut self, held: &mut HeldMove) -> Result<Ended, ZoneError>
        requires copied { IsCopied held.old }
        requires rows { HasItsWords held.old self.old }
        ensures refused { result_err result ≡ end_move_refusal (move_of held.old) self.old }
        ensures err { OnErr result ((self.new ≡ self.old) × IsKept held.old held.new) }
        ensures ok { OnOk result (self.new ≡ held_ended sent_committed (move_of held.old) self.old) }
        ensures taken { OnOk result (HasNone held.new) }
        ensures ended { IfOk result (λ ended. ended ≡ ended_as self.old held.old.page) }
        ensures claimed { result ≡ Ok Ended.Moved → is_claimed self.new held.old.source ≡ true }
    {
        of_zone!(&mut self.kind, zone => {
            let lent = bring(zone, held)?;
            match zone.commit_and_claim(CopiedMove::of(lent)) {
                Ok(ended) => Ok(ended),
                Err(Stranger(copied)) => Err(hand_back(held, copied.into_lent())),
            }
        })
    }

    /// Takes the words of a move back that isn't to be made, and ends it.
    pub(crate) fn put_back_lent(&mut self, held: &mut HeldMove) -> Result<(), ZoneError>
        requires rows { HasItsWords held.old self.old }
        ensures refused { result_err result ≡ end_move_refusal (move_of held.old) self.old }
        ensures err { OnErr result ((self.new ≡ self.old) × IsKept held.old held.new) }
        ensures ok { OnOk result (self.new ≡ held_ended lent_put_back (move_of held.old) self.old) }
        ensures taken { OnOk result (HasNone held.new) }
    {
        of_zone!(&mut self.kind, zone => {
            let lent = bring(zone, held)?;
            match zone.put_back_lent(lent) {
                Ok(()) => Ok(()),
                Err(Stranger(lent)) => Err(hand_back(held, lent)),
            }
        })
    }
}

/// The move that C brings back, if the zone may have such a move.
fn bring<const W: usize>(zone: &BareZone<W>, held: &mut HeldMove) -> Result<LentMove, ZoneError>
    ensures refused { IfErr result (λ error. end_move_refusal (move_of held.old) zone.now ≡ Some error) }
    ensures kept { OnErr result (IsKept held.old held.new) }
    ensures ok { IfOk result (λ lent. move_of held.old ≡ Some lent) }
    ensures even { IfOk result (λ lent. (length lent.from.words ≡ length lent.to.words) × (0 < length lent.from.words)) }
    ensures taken { OnOk result (HasNone held.new) }
    ensures numbers { HasNumbers held.old held.new }
{
    let Some((from, to)) = held.take() else {
        return Err(ZoneError::Range);
    };
    let Some(way) = way_of(zone, held) else {
        held.put(from, to);
        return Err(ZoneError::Stranger);
    };
    Ok(LentMove::of(way, from, to))
}

/// Gives C the words again of a move that the zone hasn't lent, and tells why.
fn hand_back(held: &mut HeldMove, lent: LentMove) -> ZoneError
    requires { (0 < length lent.from.words) × (0 < length lent.to.words) }
    ensures error { result ≡ ZoneError.Stranger }
    ensures words { (held.new.from.row ≡ Some lent.from) × (held.new.to.row ≡ Some lent.to) }
    ensures numbers { HasNumbers held.old held.new }
{
    let (_, from, to) = lent.into_parts();
    held.put(from, to);
    ZoneError::Stranger
}

/// The move with these numbers, if the zone may have such a move.
fn way_of<const W: usize>(zone: &BareZone<W>, held: &HeldMove) -> Option<Move>
    ensures some { IfSome result (λ way. way ≡ record { page = held.now.page; serial = held.now.serial; source = held.now.source; target = held.now.target }) }
    ensures none { result ≡ None → ¬ (map.get zone.now.placement held.now.page ≡ Some (Moving held.now.serial held.now.source held.now.target)) }
{
    Some(Move {
        page: page_no(zone, held.page)?,
        serial: held.serial,
        source: frame_no(zone, held.source)?,
        target: frame_no(zone, held.target)?,
    })
}

/// The number of a frame, if the zone has it.
fn frame_no<const W: usize>(zone: &BareZone<W>, number: u32) -> Option<FrameNo>
    ensures number { IfSome result (λ frame. frame ≡ number) }
    ensures none { result ≡ None → (page serial source target : ℕ) → map.get zone.now.placement page ≡ Some (Moving serial source target) → (number ≢ source) × (number ≢ target) }
{
    if number >= 512 * zone.blocks() {
        return None;
    }
    FrameNo::in_any_zone(number)
}
