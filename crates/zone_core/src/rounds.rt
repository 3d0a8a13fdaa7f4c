//! The calls that the seats count: rounds begin, pages are isolated, their moves end, and audits.

ghost use Rattle.std.specs.Prelude.{◌≡◌, ◌+◌, ◌≤◌, ◌↔◌, true, false, length, Some, IsOk, IfOk, IfErr, OnOk, OnErr};
ghost use Rattle.state_core.specs.Valid.{IsValidZone};
ghost use Rattle.frame_core.specs.Moves.{isolated, moved, out, put_back};
ghost use Rattle.state_core.specs.Rounds.{round_begun};
ghost use Rattle.state_core.specs.Isolating.{isolate_refusal, next_answer, next_state, Scans};
ghost use Rattle.state_core.specs.Ending.{is_own, IsOwnCopy, Ends, ended_as, committed, put_back_to_source};
ghost use Rattle.zone_core.specs.ZoneIdentity.{HasIdentity};
ghost use Rattle.zone_core.specs.Seats.{IsFollowed, seat_begun, seat_full, seat_noted, seat_ended, audit_refusal, IsAudited};
ghost use Rattle.state_core.specs.Packed.{IsPacked};
ghost use Rattle.state_core.specs.Pairs.{HaveMet, is_calm, next_pair};
ghost use Rattle.std.specs.Result.{result_err};
ghost use Rattle.state_core.specs.ZoneState.{is_quiet};

use crate::opening::{EndSeatIn, Opening, ScanSeatIn, ZoneInOf};
use crate::seats::Answered;
use frame_core::{Cause, CopiedOf, IsolatedOf};
use state_core::{Audit, Ended, Next, Stranger, ZoneError};

impl<const W: usize, Z: Opening> ZoneInOf<W, Z> {
    /// Begins a round: the migrate finger is set to the bottom of the zone, and the free finger above its top. The seat
    /// counts the round. A round may begin while pages are moving, but then it isn't quiet.
    pub fn begin_round(&mut self, seat: &mut ScanSeatIn<Z>)
        ensures zone { self.new ≡ round_begun self.old }
        ensures seat { seat.new ≡ seat_begun seat.old }
        ensures quiet { is_quiet self.new ≡ is_calm self.old }
        ensures serial { seat.old.count ≡ isolated self.old.records }
        ensures identity { HasIdentity self.old.number self.old.blocks self.new }
        ensures valid { IsValidZone self.new }
    {
        seat.tell(&mut self.isolated);
        self.bare.begin_round();
        seat.begin(&mut self.isolated);
    }

    /// Shows that the seat has counted the pages that were isolated, and changes nothing.
    pub fn show_count(&mut self, seat: &mut ScanSeatIn<Z>)
        ensures serial { seat.old.count ≡ isolated self.old.records }
        ensures same { (self.new ≡ self.old) × (seat.new ≡ seat.old) }
        ensures valid { IsValidZone self.new }
    {
        seat.tell(&mut self.isolated);
    }

    /// Isolates the page of the lowest source and notes the highest free frame above it as its target, both in unmarked pageblocks
    /// between the fingers. The page is moving from here on. The seat counts it, and notes each answer.
    ///
    /// Refused as JournalFull unless the journal has at least two places more than pages are moving. The seat notes
    /// this too.
    #[inline(always)]
    pub fn isolate_next(
        &mut self,
        seat: &mut ScanSeatIn<Z>,
    ) -> Result<Next<IsolatedOf<W>>, ZoneError>
        ensures refused { result_err result ≡ isolate_refusal self.old }
        ensures err { OnErr result (self.new ≡ self.old) }
        ensures answer { IfOk result (λ next. next ≡ next_answer self.old (next_pair self.old)) }
        ensures ok { OnOk result (self.new ≡ next_state self.old (next_pair self.old)) }
        // The page is the one of the pair, and where there is no pair the answer is `Met`.
        ensures pair { IfOk result (λ next. Scans self.old self.new next) }
        // Where the scanners of a quiet round meet and no page is out, the zone is packed.
        ensures packed { result ≡ Ok Next.Met → is_quiet self.new ≡ true → length (out self.new.records) ≡ 0 → IsPacked self.new }
        ensures serial { seat.old.count ≡ isolated self.old.records }
        // A page is never given the highest serial.
        ensures followed { IfOk result IsFollowed }
        ensures seat { IfOk result (λ next. seat.new ≡ seat_noted seat.old next) }
        ensures full { OnErr result (seat.new ≡ seat_full seat.old) }
        ensures identity { HasIdentity self.old.number self.old.blocks self.new }
        ensures valid { IsValidZone self.new }
    {
        seat.tell(&mut self.isolated);
        let answer = self.bare.isolate_next();
        match &answer {
            Ok(Next::Page(_)) => seat.count(&mut self.isolated),
            Ok(Next::Met) => seat.note(&mut self.isolated, Answered::Met),
            Err(_) => seat.note(&mut self.isolated, Answered::JournalFull),
        }
        answer
    }

    /// Ends the move of a page with its copy: the page is in its new frame afterwards, or in its old one where it has a pin.
    /// The seat counts it. A copy is handed back unless its page is moving in this zone under its serial and has the same
    /// words.
    #[inline(always)]
    pub fn commit(
        &mut self,
        seat: &mut EndSeatIn<Z>,
        copied: CopiedOf<W>,
    ) -> Result<Ended, Stranger<CopiedOf<W>>>
        ensures own { IsOk result ↔ IsOwnCopy self.old copied.entry }
        ensures back { IfErr result (λ stranger. stranger.0 ≡ copied.entry) }
        ensures err { OnErr result ((self.new ≡ self.old) × (seat.new ≡ seat.old)) }
        ensures ended { IfOk result (λ ended. ended ≡ ended_as self.old copied.entry.page.number) }
        ensures ok { OnOk result (self.new ≡ committed self.old copied.entry.serial copied.entry.page.number) }
        // Of a moved page the target holds it and the source is free; of one put back it is the other way round.
        ensures settled { IfOk result (λ ended. Ends self.old self.new copied.entry ended) }
        // In a quiet round each commit moves its page, and no commit makes a pair.
        ensures moves { IfOk result (λ ended. is_quiet self.old ≡ true → ended ≡ Ended.Moved) }
        ensures met { OnOk result (is_quiet self.old ≡ true → HaveMet self.old → HaveMet self.new) }
        ensures once { OnOk result (is_own self.new copied.entry ≡ false) }
        ensures seat { IfOk result (λ ended. seat.new ≡ seat_ended seat.old ended) }
        ensures identity { HasIdentity self.old.number self.old.blocks self.new }
        ensures valid { IsValidZone self.new }
    {
        let ended = self.bare.commit(copied)?;
        match ended {
            Ended::Moved => seat.count_moved(&mut self.moved),
            Ended::Back => seat.count_back(&mut self.back),
        }
        Ok(ended)
    }

    /// Ends the move of a page that wasn't copied: the page is in its old frame afterwards. The seat counts it. A page is
    /// handed back unless it is moving in this zone under its serial.
    pub fn put_back(
        &mut self,
        seat: &mut EndSeatIn<Z>,
        isolated: IsolatedOf<W>,
    ) -> Result<(), Stranger<IsolatedOf<W>>>
        ensures own { IsOk result ↔ (is_own self.old isolated.entry ≡ true) }
        ensures back { IfErr result (λ stranger. stranger.0 ≡ isolated.entry) }
        ensures err { OnErr result ((self.new ≡ self.old) × (seat.new ≡ seat.old)) }
        ensures ok { OnOk result (self.new ≡ put_back_to_source self.old isolated.entry.serial isolated.entry.page.number Cause.NotCopied) }
        ensures settled { OnOk result (Ends self.old self.new isolated.entry Ended.Back) }
        ensures once { OnOk result (is_own self.new isolated.entry ≡ false) }
        ensures seat { OnOk result (seat.new ≡ record seat.old { back = seat.old.back + 1 }) }
        ensures identity { HasIdentity self.old.number self.old.blocks self.new }
        ensures valid { IsValidZone self.new }
    {
        self.bare.put_back(isolated)?;
        seat.count_back(&mut self.back);
        Ok(())
    }

    /// The counts of pages isolated, moved and put back, which are those of the two seats.
    ///
    /// Refused as Missing where a part of the end seat is missing, else as Out where a page is moving.
    pub fn audit(
        &mut self,
        scan: &mut ScanSeatIn<Z>,
        ends: &mut EndSeatIn<Z>,
    ) -> Result<Audit, ZoneError>
        ensures refused { result_err result ≡ audit_refusal self.old ends.old }
        ensures ok { IfOk result (λ audit. IsAudited self.old scan.old ends.old audit) }
        ensures whole { OnOk result (ends.new.parts ≡ 64) }
        // The seats alone tell whether an audit with a whole end seat passes: its counts have to add up to that of the scan seat.
        ensures exact { 64 ≤ ends.old.parts → (IsOk result ↔ (ends.old.moved + ends.old.back ≡ scan.old.count)) }
        ensures most { 64 ≤ ends.old.parts → ends.old.moved + ends.old.back ≤ scan.old.count }
        ensures same { self.new ≡ self.old }
        ensures seats { (scan.new ≡ scan.old) × (ends.new ≡ ends.old) }
        // Where the last answer of a quiet round was that the scanners met, the zone is packed.
        ensures packed { OnOk result (is_quiet self.new ≡ true → scan.old.last ≡ Some Answered.Met → IsPacked self.new) }
        ensures serial { scan.old.count ≡ isolated self.old.records }
        ensures valid { IsValidZone self.new }
    {
        scan.tell(&mut self.isolated);
        ends.tell(&mut self.moved, &mut self.back);
        if !ends.is_whole() {
            return Err(ZoneError::Missing);
        }
        self.bare.audit()
    }
}
