//! Evacuations: the pages of a run of frames go out of it, and then all of its frames are free.

ghost use Rattle.std.specs.Prelude.{◌≡◌, ◌+◌, ◌/◌, ◌^◌, true, nat_le, IsTrue, IfOk, OnOk, OnErr};
ghost use Rattle.std.specs.Result.{result_err};
ghost use Rattle.fewest_core.specs.Evacuation.{evacuate_refusal, evacuated, is_in_run, spare_frames, IsCarriedOut};
ghost use Rattle.fewest_core.specs.FewestMoves.{cost, is_open};
ghost use Rattle.frame_core.specs.Moves.{moved};
ghost use Rattle.state_core.specs.HandingOut.{has_block, is_run};
ghost use Rattle.state_core.specs.Valid.{IsValidZone};
ghost use Rattle.zone_core.specs.ZoneIdentity.{HasIdentity};

use crate::bare::BareZone;
use frame_core::{FrameNo, Order};
use state_core::ZoneError;

impl<const W: usize> BareZone<W> {
    /// Empties a run of frames, and answers how many pages went out of it. Each page goes to the highest free frame of an unmarked
    /// pageblock outside of the run, the lowest page first, and is copied once, from frame to frame. From the first of them on the latest
    /// round isn't quiet any more; it may go on between its fingers.
    ///
    /// Refused as Range where no block of this order can begin at the frame. Refused as NoBlock where a frame of the run is in a marked
    /// pageblock, handed out, or of a page that is moving, pinned or unmovable, and where fewer frames are free outside of the run, in
    /// unmarked pageblocks, than the run has pages. Else refused as JournalFull unless the journal has two places for each of these
    /// pages, besides one for each page that is moving.
    pub fn evacuate(&mut self, first: FrameNo, order: Order) -> Result<u32, ZoneError>
        ensures refused { result_err result ≡ evacuate_refusal self.old first order }
        ensures err { OnErr result (self.new ≡ self.old) }
        ensures pages { IfOk result (λ pages. pages ≡ cost self.old (2 ^ order) (first / 2 ^ order)) }
        ensures ok { OnOk result (self.new ≡ evacuated self.old first (2 ^ order)) }
        ensures moved { IfOk result (λ pages. moved self.new.records ≡ moved self.old.records + pages) }
        // All frames of the run are free, and the pages are as they were, but for the frames of those that went.
        ensures empty { OnOk result (IsTrue (is_run self.new order first)) }
        ensures carried { OnOk result (IsCarriedOut first (2 ^ order) self.old self.new) }
        ensures identity { HasIdentity self.old.number self.old.blocks self.new }
        ensures valid { IsValidZone self.new }
    {
        let pages = self.pages_to_go(first, order)?;
        self.clear(order, &[first]);
        Ok(pages)
    }

    /// How many pages go out of a run, or why its evacuation is refused.
    fn pages_to_go(&self, first: FrameNo, order: Order) -> Result<u32, ZoneError>
        ensures refused { result_err result ≡ evacuate_refusal self.now first order }
        ensures pages { IfOk result (λ pages. pages ≡ cost self.now (2 ^ order) (first / 2 ^ order)) }
        ensures valid { IsValidZone self.now }
    {
        if !self.tables.has_block(first, order) {
            return Err(ZoneError::Range);
        }
        let Some(pages) = self.tables.pages_of(first, order) else {
            return Err(ZoneError::NoBlock);
        };
        if !self.has_spare_frames(first, order) {
            return Err(ZoneError::NoBlock);
        }
        if !self.tables.has_room_for_moves(pages) {
            return Err(ZoneError::JournalFull);
        }
        Ok(pages)
    }

    /// Whether as many frames may take a page of an open run as it has pages. Then as many are free in all, in unmarked pageblocks, as it
    /// has frames.
    fn has_spare_frames(&self, first: FrameNo, order: Order) -> bool
        requires block { IsTrue (has_block self.now order first) }
        requires open { is_open self.now (2 ^ order) (first / 2 ^ order) ≡ true }
        ensures { result ≡ nat_le (cost self.now (2 ^ order) (first / 2 ^ order)) (spare_frames first (2 ^ order) self.now) }
    {
        self.tables.vacant() >= order.frames()
    }
}

/// Whether a frame is in a run.
pub(crate) fn is_in_run(first: FrameNo, order: Order, frame: FrameNo) -> bool
    ensures { result ≡ is_in_run first (2 ^ order) frame }
{
    first.get() <= frame.get() && frame.get() < first.get() + order.frames()
}
