//! What workers do.

ghost use Rattle.std.specs.Prelude.{◌≡◌, ◌↔◌, true, false, is_none, IfErr, IfOk, IsOk, IsTrue, OnErr, OnOk};
ghost use Rattle.std.specs.Result.{result_err};
ghost use Rattle.state_core.specs.Ending.{ended_as};
ghost use Rattle.state_core.specs.LentMoves.{IsCopiedMove, is_lent_move};
ghost use Rattle.state_core.specs.Pairs.{HaveMet};
ghost use Rattle.state_core.specs.Valid.{IsValidZone};
ghost use Rattle.state_core.specs.ZoneState.{frame_count, is_quiet};
ghost use Rattle.worker_threads.specs.Work.{AreRuns, Lends, next_move, next_sent, none_found, page_ended, work_begun, work_left, work_refusal};
ghost use Rattle.zone_core.specs.LentMoves.{HaveWords};
ghost use Rattle.zone_core.specs.ZoneIdentity.{HasIdentity};

use crate::round::Stop;
use crate::runs::Runs;
use zone_core::{BareZone, CopiedMove, Ended, LentMove, Next, Stranger, ZoneError};

/// What the workers of a zone do.
#[derive(Drop)]
pub(crate) enum Work {
    /// They make a round.
    Compact,
    /// They empty runs.
    Empty(Runs),
}

impl Work {
    /// Whether a block can begin at each of its runs.
    pub(crate) fn fits<const W: usize>(&self, zone: &BareZone<W>) -> bool
        ensures { IsTrue result ↔ AreRuns (frame_count zone.now) self.now }
    {
        match self {
            Work::Compact => true,
            Work::Empty(runs) => runs.are_blocks(zone),
        }
    }

    /// Begins it: a round begins, or the free frames of the runs are claimed.
    pub(crate) fn begin<const W: usize>(&self, zone: &mut BareZone<W>)
        requires runs { AreRuns (frame_count zone.old) self.now }
        ensures begun { zone.new ≡ work_begun self.now zone.old }
        ensures identity { HasIdentity zone.old.number zone.old.blocks zone.new }
        ensures valid { IsValidZone zone.old → IsValidZone zone.new }
    {
        match self {
            Work::Compact => zone.begin_round(),
            Work::Empty(runs) => runs.claim(zone),
        }
    }

    /// Isolates the page that is next, and lends the words of both its frames.
    pub(crate) fn lend_next<const W: usize>(
        &mut self,
        zone: &mut BareZone<W>,
    ) -> Result<Next<LentMove>, ZoneError>
        requires runs { AreRuns (frame_count zone.old) self.old }
        requires given { is_none zone.old.memory ≡ false }
        ensures refused { result_err result ≡ work_refusal self.old zone.old }
        ensures err { OnErr result ((zone.new ≡ zone.old) × (self.new ≡ self.old)) }
        ensures lent { IfOk result (Lends (next_move self.old zone.old) zone.old zone.new) }
        ensures count { IfOk result (HaveWords W) }
        ensures ok { OnOk result (zone.new ≡ next_sent self.old zone.old (next_move self.old zone.old)) }
        ensures left { OnOk result (self.new ≡ work_left self.old zone.old) }
        ensures identity { HasIdentity zone.old.number zone.old.blocks zone.new }
        ensures valid { IsValidZone zone.old → IsValidZone zone.new }
    {
        match self {
            Work::Compact => zone.lend_move(),
            Work::Empty(runs) => runs.lend_next(zone),
        }
    }

    /// Ends the move of a page whose words were lent and copied. The frame that a page of a run left is claimed.
    pub(crate) fn commit<const W: usize>(
        &self,
        zone: &mut BareZone<W>,
        copied: CopiedMove,
    ) -> Result<Ended, Stranger<CopiedMove>>
        requires rows { is_lent_move zone.old copied ≡ true → IsCopiedMove zone.old copied }
        ensures own { IsOk result ↔ (is_lent_move zone.old copied ≡ true) }
        ensures back { IfErr result (λ stranger. stranger.0 ≡ copied) }
        ensures err { OnErr result (zone.new ≡ zone.old) }
        ensures ended { IfOk result (λ ended. ended ≡ ended_as zone.old copied.page) }
        ensures ok { OnOk result (zone.new ≡ page_ended self.now zone.old copied.serial copied.page copied.source) }
        // In a quiet round no commit makes a pair.
        ensures met { OnOk result (IsValidZone zone.old → is_quiet zone.old ≡ true → HaveMet zone.old → is_quiet zone.new ≡ true → HaveMet zone.new) }
        ensures identity { HasIdentity zone.old.number zone.old.blocks zone.new }
        ensures valid { IsValidZone zone.old → IsValidZone zone.new }
    {
        match self {
            Work::Compact => zone.commit_lent(copied),
            Work::Empty(_) => zone.commit_and_claim(copied),
        }
    }

    /// Why no more pages are isolated, where there is none.
    pub(crate) fn none_found(&self) -> Stop
        ensures { result ≡ none_found self.now }
    {
        match self {
            Work::Compact => Stop::Met,
            Work::Empty(_) => Stop::NoneLeft,
        }
    }
}
