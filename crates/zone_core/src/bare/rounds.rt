//! The steps of rounds: pages are isolated, and their moves end.

ghost use Rattle.std.specs.Prelude.{◌≡◌, ◌+◌, ◌↔◌, true, false, length, nat_lt, Some, None, if◌then◌else◌, IsOk, IfOk, IfErr, IfSome, IfNone, OnOk, OnErr};
ghost use Rattle.std.specs.Result.{result_err};
ghost use Rattle.frame_core.specs.Moves.{moved, out, put_back};
ghost use Rattle.state_core.specs.Ending.{is_own, IsOwnCopy, Ends, ended_as, committed, put_back_to_source};
ghost use Rattle.state_core.specs.Isolating.{isolate_refusal, next_answer, next_state, Scans};
ghost use Rattle.state_core.specs.Valid.{IsValidZone};
ghost use Rattle.state_core.specs.Packed.{IsPacked};
ghost use Rattle.state_core.specs.Pairs.{HaveMet, IsPair, is_calm, next_pair};
ghost use Rattle.state_core.specs.Rounds.{round_begun};
ghost use Rattle.state_core.specs.ZoneState.{is_quiet};
ghost use Rattle.zone_core.specs.Counted.{IsCounted};
ghost use Rattle.zone_core.specs.OneThread.{last_for, moved_next};
ghost use Rattle.zone_core.specs.Seats.{IsFollowed};
ghost use Rattle.zone_core.specs.ZoneIdentity.{HasIdentity};

use crate::bare::BareZone;
use crate::seats::Answered;
use frame_core::{Cause, CopiedOf, IsolatedOf};
use state_core::{Audit, Ended, Next, Pair, Stranger, ZoneError};

impl<const W: usize> BareZone<W> {
    /// Begins a round: the migrate finger is set to the bottom of the zone, and the free finger above its top. A round may begin
    /// while pages are moving, but then it isn't quiet.
    pub fn begin_round(&mut self)
        ensures zone { self.new ≡ round_begun self.old }
        ensures quiet { is_quiet self.new ≡ is_calm self.old }
        ensures identity { HasIdentity self.old.number self.old.blocks self.new }
        ensures valid { IsValidZone self.new }
    {
        self.tables.begin_round();
    }

    /// Isolates the page of the lowest source and notes the highest free frame above it as its target, both in unmarked pageblocks
    /// between the fingers. The page is moving from here on.
    ///
    /// Refused as JournalFull unless the journal has at least two places more than pages are moving.
    #[inline(always)]
    pub fn isolate_next(&mut self) -> Result<Next<IsolatedOf<W>>, ZoneError>
        ensures refused { result_err result ≡ isolate_refusal self.old }
        ensures err { OnErr result (self.new ≡ self.old) }
        ensures answer { IfOk result (λ next. next ≡ next_answer self.old (next_pair self.old)) }
        ensures ok { OnOk result (self.new ≡ next_state self.old (next_pair self.old)) }
        // The page is the one of the pair, and where there is no pair the answer is `Met`.
        ensures pair { IfOk result (λ next. Scans self.old self.new next) }
        // Where the scanners of a quiet round meet and no page is out, the zone is packed.
        ensures packed { result ≡ Ok Next.Met → is_quiet self.new ≡ true → length (out self.new.records) ≡ 0 → IsPacked self.new }
        // A page is never given the highest serial.
        ensures followed { IfOk result IsFollowed }
        ensures identity { HasIdentity self.old.number self.old.blocks self.new }
        ensures valid { IsValidZone self.new }
    {
        let Some(pair) = self.next_pair()? else {
            return Ok(Next::Met);
        };
        let page = self.tables.isolate(pair);
        Ok(Next::Page(page))
    }

    /// The page of the lowest source, with this frame and its target, or none where the scanners have met.
    ///
    /// Refused as `isolate_next` is.
    #[inline(always)]
    pub(crate) fn next_pair(&self) -> Result<Option<Pair>, ZoneError>
        ensures refused { result_err result ≡ isolate_refusal self.now }
        ensures pair { IfOk result (λ found. found ≡ next_pair self.now) }
        ensures is_pair { IfOk result (λ found. IfSome found (λ pair. IsPair self.now pair.page pair.source pair.target)) }
        ensures none { IfOk result (λ found. IfNone found (HaveMet self.now)) }
    {
        if !self.tables.has_room_for_two() {
            return Err(ZoneError::JournalFull);
        }
        Ok(self.tables.next_pair())
    }

    /// Moves the page that would be isolated next: it is isolated, its words are copied from its frame into its target, and its move ends.
    /// Answers why no page was moved, if none was: `Met`, or `JournalFull` where `isolate_next` is refused.
    #[inline(always)]
    pub(crate) fn move_next(&mut self) -> Option<Answered>
        ensures moved { IfNone result (moved_next self.old ≡ Some self.new) }
        ensures count { IfNone result (moved self.new.records ≡ moved self.old.records + 1) }
        ensures none { IfSome result (λ last. moved_next self.old ≡ None) }
        ensures stays { IfSome result (λ last. self.new ≡ self.old) }
        ensures last { IfSome result (λ last. last ≡ last_for (isolate_refusal self.old)) }
        ensures met { result ≡ Some Answered.Met → HaveMet self.new }
        ensures identity { HasIdentity self.old.number self.old.blocks self.new }
        ensures valid { IsValidZone self.new }
    {
        match self.next_pair() {
            Ok(Some(pair)) => {
                let way = self.tables.begin_move(pair);
                self.tables.carry(&way);
                None
            }
            Ok(None) => Some(Answered::Met),
            Err(_) => Some(Answered::JournalFull),
        }
    }

    /// Ends the move of a page with its copy: the page is in its new frame afterwards, or in its old one where it has a pin. A
    /// copy is handed back unless its page is moving in this zone under its serial and has the same words.
    #[inline(always)]
    pub fn commit(&mut self, copied: CopiedOf<W>) -> Result<Ended, Stranger<CopiedOf<W>>>
        ensures own { IsOk result ↔ IsOwnCopy self.old copied.entry }
        ensures back { IfErr result (λ stranger. stranger.0 ≡ copied.entry) }
        ensures err { OnErr result (self.new ≡ self.old) }
        ensures ended { IfOk result (λ ended. ended ≡ ended_as self.old copied.entry.page.number) }
        ensures ok { OnOk result (self.new ≡ committed self.old copied.entry.serial copied.entry.page.number) }
        // Of a moved page the target holds it and the source is free; of one put back it is the other way round.
        ensures settled { IfOk result (λ ended. Ends self.old self.new copied.entry ended) }
        // In a quiet round each commit moves its page, and no commit makes a pair.
        ensures moves { IfOk result (λ ended. is_quiet self.old ≡ true → ended ≡ Ended.Moved) }
        ensures met { OnOk result (is_quiet self.old ≡ true → HaveMet self.old → HaveMet self.new) }
        ensures once { OnOk result (is_own self.new copied.entry ≡ false) }
        ensures identity { HasIdentity self.old.number self.old.blocks self.new }
        ensures valid { IsValidZone self.new }
    {
        let Some(way) = self.tables.find_move(copied.serial(), copied.page()) else {
            return Err(Stranger(copied));
        };
        if !self.tables.has_words(&way, copied.page()) {
            return Err(Stranger(copied));
        }
        if self.tables.has_pin(way.page) {
            self.tables.go_back(&way, Cause::Pinned);
            return Ok(Ended::Back);
        }
        self.tables.arrive(&way, copied.page());
        Ok(Ended::Moved)
    }

    /// Ends the move of a page that wasn't copied: the page is in its old frame afterwards. A page is handed back unless it is
    /// moving in this zone under its serial.
    pub fn put_back(&mut self, isolated: IsolatedOf<W>) -> Result<(), Stranger<IsolatedOf<W>>>
        ensures own { IsOk result ↔ (is_own self.old isolated.entry ≡ true) }
        ensures back { IfErr result (λ stranger. stranger.0 ≡ isolated.entry) }
        ensures err { OnErr result (self.new ≡ self.old) }
        ensures ok { OnOk result (self.new ≡ put_back_to_source self.old isolated.entry.serial isolated.entry.page.number Cause.NotCopied) }
        ensures settled { OnOk result (Ends self.old self.new isolated.entry Ended.Back) }
        ensures once { OnOk result (is_own self.new isolated.entry ≡ false) }
        ensures identity { HasIdentity self.old.number self.old.blocks self.new }
        ensures valid { IsValidZone self.new }
    {
        let Some(way) = self.tables.find_move(isolated.serial(), isolated.page()) else {
            return Err(Stranger(isolated));
        };
        self.tables.go_back(&way, Cause::NotCopied);
        Ok(())
    }

    /// How many moves have ended: those of pages that were moved, and those of pages that were put back.
    pub fn ended(&self) -> u64
        ensures { result ≡ moved self.now.records + put_back self.now.records }
    {
        self.tables.ended()
    }

    /// The counts of pages isolated, moved and put back.
    ///
    /// Refused as Out where a page is moving.
    pub fn audit(&self) -> Result<Audit, ZoneError>
        ensures refused { result_err result ≡ (if nat_lt 0 (length (out self.now.records)) then Some ZoneError.Out else None) }
        ensures ok { IfOk result (λ audit. IsCounted self.now audit) }
    {
        self.tables.counted().ok_or(ZoneError::Out)
    }
}
