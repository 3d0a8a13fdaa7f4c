//! Steps over a zone in memory of its caller, whose pages are copied without the zone: the words of the two frames of a moving page are lent
//! as rows, and its move ends when both come back. The page is the next one of a round, or the next one of a run that is emptied.

ghost use Rattle.std.specs.Prelude.{◌≡◌, ◌^◌, ◌<◌, ◌↔◌, true, false, length, IsOk, IfErr, IfOk, OnErr, OnOk};
ghost use Rattle.std.specs.Result.{result_err};
ghost use Rattle.fewest_core.specs.Sending.{next_move_from, next_sent, send_refusal, sent_committed};
ghost use Rattle.frame_core.specs.Moves.{out};
ghost use Rattle.state_core.specs.Ending.{IsSettled, ended_as};
ghost use Rattle.state_core.specs.LentMoves.{IsCopiedMove, IsLentMove, LentEnds, is_lent_move, lend_move_refusal, lent_committed, lent_put_back, next_lent};
ghost use Rattle.state_core.specs.Packed.{IsPacked};
ghost use Rattle.state_core.specs.Pairs.{HaveMet, next_pair};
ghost use Rattle.state_core.specs.Valid.{IsValidZone};
ghost use Rattle.state_core.specs.ZoneState.{frame_count, is_quiet};
ghost use Rattle.zone_core.specs.LentMoves.{HaveWords, LendsNext, SendsNext, SentEnds};
ghost use Rattle.zone_core.specs.ZoneIdentity.{HasIdentity};

use crate::bare::BareZone;
use frame_core::{Cause, FrameNo, Order};
use state_core::{Ended, Next, Stranger, ZoneError};
use zone_tables::{CopiedMove, LentMove};

impl<const W: usize> BareZone<W> {
    /// Isolates the page that `isolate_next` would, and lends the words of its frame and of the one that it goes to. The page is moving
    /// from here on, and its move ends when both come back: neither `commit` nor `put_back` takes it. Where the answer is dropped, it is
    /// moving for ever.
    ///
    /// Refused as JournalFull where `isolate_next` is, or as OwnMemory.
    #[inline(always)]
    pub fn lend_move(&mut self) -> Result<Next<LentMove>, ZoneError>
        ensures refused { result_err result ≡ lend_move_refusal self.old }
        ensures err { OnErr result (self.new ≡ self.old) }
        ensures lent { IfOk result (LendsNext self.old self.new) }
        ensures count { IfOk result (HaveWords W) }
        ensures ok { OnOk result (self.new ≡ next_lent self.old (next_pair self.old)) }
        ensures met { result ≡ Ok Next.Met → HaveMet self.old }
        // Where the scanners of a quiet round meet and no page is out, the zone is packed.
        ensures packed { result ≡ Ok Next.Met → is_quiet self.new ≡ true → length (out self.new.records) ≡ 0 → IsPacked self.new }
        ensures identity { HasIdentity self.old.number self.old.blocks self.new }
        ensures valid { IsValidZone self.new }
    {
        let found = self.next_pair()?;
        if self.owns_memory() {
            return Err(ZoneError::OwnMemory);
        }
        let Some(pair) = found else {
            return Ok(Next::Met);
        };
        Ok(Next::Page(self.tables.lend_move(pair)))
    }

    /// Ends the move of a page whose words were lent and copied, which is all that is left to do: the page is in its new frame
    /// afterwards, or in its old one where it has a pin. The move is handed back unless it is one of this zone, and still lent. Its words
    /// aren't compared: nobody wrote those that the page left.
    #[inline(always)]
    pub fn commit_lent(&mut self, copied: CopiedMove) -> Result<Ended, Stranger<CopiedMove>>
        requires rows { is_lent_move self.old copied ≡ true → IsCopiedMove self.old copied }
        ensures own { IsOk result ↔ (is_lent_move self.old copied ≡ true) }
        ensures back { IfErr result (λ stranger. stranger.0 ≡ copied) }
        ensures err { OnErr result (self.new ≡ self.old) }
        ensures ended { IfOk result (λ ended. ended ≡ ended_as self.old copied.page) }
        ensures ok { OnOk result (self.new ≡ lent_committed self.old copied) }
        // Of a moved page the target holds it and the source is free; of one put back it is the other way round.
        ensures settled { IfOk result (LentEnds self.old self.new copied) }
        // The frame that it left is one of the zone.
        ensures within { OnOk result (copied.source < frame_count self.old) }
        // In a quiet round each commit moves its page, and no commit makes a pair.
        ensures moves { IfOk result (λ ended. is_quiet self.old ≡ true → ended ≡ Ended.Moved) }
        ensures met { OnOk result (is_quiet self.old ≡ true → HaveMet self.old → HaveMet self.new) }
        ensures once { OnOk result (is_lent_move self.new copied ≡ false) }
        ensures identity { HasIdentity self.old.number self.old.blocks self.new }
        ensures valid { IsValidZone self.new }
    {
        if !self.tables.has_lent(copied.lent()) {
            return Err(Stranger(copied));
        }
        if self.tables.has_pin(copied.lent().way().page) {
            self.tables.go_back_lent(copied.into_lent(), Cause::Pinned);
            return Ok(Ended::Back);
        }
        self.tables.arrive_lent(copied);
        Ok(Ended::Moved)
    }

    /// Ends the move of a page whose words were lent, and that isn't to be moved: the page is in its old frame afterwards. The move is
    /// handed back unless it is one of this zone, and still lent.
    pub fn put_back_lent(&mut self, lent: LentMove) -> Result<(), Stranger<LentMove>>
        requires rows { is_lent_move self.old lent ≡ true → IsLentMove self.old lent }
        ensures own { IsOk result ↔ (is_lent_move self.old lent ≡ true) }
        ensures back { IfErr result (λ stranger. stranger.0 ≡ lent) }
        ensures err { OnErr result (self.new ≡ self.old) }
        ensures ok { OnOk result (self.new ≡ lent_put_back self.old lent) }
        ensures settled { OnOk result (IsSettled self.old self.new lent.page lent.source lent.target) }
        ensures once { OnOk result (is_lent_move self.new lent ≡ false) }
        ensures identity { HasIdentity self.old.number self.old.blocks self.new }
        ensures valid { IsValidZone self.new }
    {
        if !self.tables.has_lent(&lent) {
            return Err(Stranger(lent));
        }
        self.tables.go_back_lent(lent, Cause::NotCopied);
        Ok(())
    }

    /// Isolates the lowest page of a run that may go, outside of a round, and lends the words of its frame and of the one that it goes to,
    /// as `lend_move` does. It goes to the highest free frame of an unmarked pageblock, which may lie in the run itself where the run's free
    /// frames aren't claimed. `commit_and_claim` ends its move, and `put_back_lent` where it is to stay. The latest round isn't quiet any
    /// more, unless the answer is `Met`: then no page of the run may go, or there is no frame for one.
    ///
    /// Refused as Range where no block of this order can begin at the frame, else as JournalFull where `isolate_next` is, else as OwnMemory.
    pub fn lend_move_from(
        &mut self,
        first: FrameNo,
        order: Order,
    ) -> Result<Next<LentMove>, ZoneError>
        ensures refused { result_err result ≡ send_refusal self.old first order }
        ensures err { OnErr result (self.new ≡ self.old) }
        ensures lent { IfOk result (SendsNext first (2 ^ order) self.old self.new) }
        ensures count { IfOk result (HaveWords W) }
        ensures ok { OnOk result (self.new ≡ next_sent self.old (next_move_from first (2 ^ order) self.old)) }
        ensures identity { HasIdentity self.old.number self.old.blocks self.new }
        ensures valid { IsValidZone self.new }
    {
        if !self.tables.has_block(first, order) {
            return Err(ZoneError::Range);
        }
        if !self.tables.has_room_for_two() {
            return Err(ZoneError::JournalFull);
        }
        if self.owns_memory() {
            return Err(ZoneError::OwnMemory);
        }
        let Some(source) = self.tables.next_to_go(first, order) else {
            return Ok(Next::Met);
        };
        let Some(target) = self.tables.highest_vacant() else {
            return Ok(Next::Met);
        };
        let Some(page) = self.tables.holder(source) else {
            unreachable!();
        };
        Ok(Next::Page(self.tables.send(page, source, target)))
    }

    /// Ends the move of a page as `commit_lent` does, and claims the frame that it left, so that no page comes there. A page that has a pin
    /// is in its old frame afterwards, which isn't claimed. The latest round isn't quiet any more where the page was moved. The move is
    /// handed back unless it is one of this zone, and still lent.
    pub fn commit_and_claim(&mut self, copied: CopiedMove) -> Result<Ended, Stranger<CopiedMove>>
        requires rows { is_lent_move self.old copied ≡ true → IsCopiedMove self.old copied }
        ensures own { IsOk result ↔ (is_lent_move self.old copied ≡ true) }
        ensures back { IfErr result (λ stranger. stranger.0 ≡ copied) }
        ensures err { OnErr result (self.new ≡ self.old) }
        ensures ended { IfOk result (λ ended. ended ≡ ended_as self.old copied.page) }
        ensures ok { OnOk result (self.new ≡ sent_committed self.old copied) }
        // Of a moved page the target holds it and the source is claimed; one put back is in its source, and the target is free.
        ensures settled { IfOk result (SentEnds self.old self.new copied) }
        ensures once { OnOk result (is_lent_move self.new copied ≡ false) }
        ensures identity { HasIdentity self.old.number self.old.blocks self.new }
        ensures valid { IsValidZone self.new }
    {
        let source = copied.lent().way().source;
        let ended = self.commit_lent(copied)?;
        if ended == Ended::Moved {
            self.tables.claim(source);
        }
        Ok(ended)
    }
}
