//! Evacuation in steps: a run is claimed, emptied some pages at a time while other calls go on, and handed out.

ghost use Rattle.std.specs.Prelude.{◌≡◌, ◌+◌, ◌/◌, ◌^◌, ◌≤◌, ℕ, true, false, Some, None, if◌then◌else◌, IfOk, OnOk, OnErr, IsTrue};
ghost use Rattle.std.specs.FinMap as map;
ghost use Rattle.std.specs.Result.{result_err};
ghost use Rattle.fewest_core.specs.Claims.{claim_refusal, claimed_frames, claimed_taken, drop_refusal, pages_gone, step_refusal, stepped, take_claimed_refusal};
ghost use Rattle.fewest_core.specs.Evacuation.{has_room_for_moves, is_in_run, IsCarriedOut};
ghost use Rattle.fewest_core.specs.FewestMoves.{cost};
ghost use Rattle.frame_core.specs.Moves.{moved};
ghost use Rattle.state_core.specs.Claiming.{is_claimed, run_claimed, run_dropped, with_apart};
ghost use Rattle.state_core.specs.HandingOut.{has_block};
ghost use Rattle.state_core.specs.Valid.{IsValidZone};
ghost use Rattle.state_core.specs.ZoneState.{is_free};
ghost use Rattle.zone_core.specs.Stepping.{is_unfinished, IsStepping};
ghost use Rattle.zone_core.specs.ZoneIdentity.{HasIdentity};

use crate::bare::BareZone;
use crate::bare::reserving::frame_no;
use frame_core::{FrameNo, Order};
use state_core::ZoneError;

impl<const W: usize> BareZone<W> {
    /// Maps unmovable pages apart from the others from now on, or no longer. Apart, such a page goes to a pageblock that has one, and where
    /// none of these has a free frame to the emptiest. Any other page goes to a pageblock that has none, one that isn't whole before one
    /// that is, and where none of these has a free frame to the lowest one. Targets of moves are chosen as before.
    pub fn set_apart(&mut self, apart: bool)
        ensures apart { self.new ≡ with_apart self.old apart }
        ensures valid { IsValidZone self.new }
    {
        self.tables.set_apart(apart);
    }

    /// Claims the free frames of a run, so that no page comes there, and answers how many pages the run has. `empty_some` moves these
    /// pages out, `take_claimed` hands the run out, and `drop_claim` gives the frames back. The latest round isn't quiet any more.
    ///
    /// Refused as Range where no block of this order can begin at the frame. Refused as NoBlock where a frame of the run is in a marked
    /// pageblock, handed out, claimed, or of a page that is moving, pinned or unmovable.
    pub fn claim(&mut self, first: FrameNo, order: Order) -> Result<u32, ZoneError>
        ensures refused { result_err result ≡ claim_refusal self.old first order }
        ensures err { OnErr result (self.new ≡ self.old) }
        ensures pages { IfOk result (λ pages. pages ≡ cost self.old (2 ^ order) (first / 2 ^ order)) }
        ensures ok { OnOk result (self.new ≡ run_claimed first (2 ^ order) self.old) }
        // No frame of the run is free from now on.
        ensures shut { OnOk result ((frame : ℕ) → is_in_run first (2 ^ order) frame ≡ true → is_free self.new frame ≡ false) }
        ensures identity { HasIdentity self.old.number self.old.blocks self.new }
        ensures valid { IsValidZone self.new }
    {
        if !self.tables.has_block(first, order) {
            return Err(ZoneError::Range);
        }
        let Some(pages) = self.tables.pages_of(first, order) else {
            return Err(ZoneError::NoBlock);
        };
        self.claim_free(first, order);
        Ok(pages)
    }

    /// A step of an evacuation: claims the free frames of a run, and moves at most so many pages out of it, the lowest page first. Each goes
    /// to the highest free frame of an unmarked pageblock, and the frame that it leaves is claimed. Answers how many pages were moved: fewer
    /// than `most` where no page is left in the run that can move, or no frame that one could go to. A page that is pinned, moving or
    /// unmovable stays, and a later step may move it. No step's work is undone, since no page comes to a claimed frame. A mark on the run's
    /// pageblock, made after its claim, keeps no step from it.
    ///
    /// Refused as Range where no block of this order can begin at the frame. Else refused as JournalFull unless the journal has two places
    /// for each page that the step might move, besides one for each page that is moving.
    pub fn empty_some(&mut self, first: FrameNo, order: Order, most: u32) -> Result<u32, ZoneError>
        ensures refused { result_err result ≡ step_refusal self.old first order most }
        ensures err { OnErr result (self.new ≡ self.old) }
        ensures ok { OnOk result (self.new ≡ stepped first (2 ^ order) self.old most) }
        ensures moved { IfOk result (λ pages. moved self.new.records ≡ moved self.old.records + pages) }
        ensures most { IfOk result (λ pages. pages ≤ most) }
        ensures shut { OnOk result ((frame : ℕ) → is_in_run first (2 ^ order) frame ≡ true → is_free self.new frame ≡ false) }
        // What is claimed stays so, and the pages are as they were, but for the frames of those that went.
        ensures kept { OnOk result ((frame : ℕ) → is_claimed self.old frame ≡ true → is_claimed self.new frame ≡ true) }
        ensures carried { OnOk result (IsCarriedOut first (2 ^ order) self.old self.new) }
        ensures identity { HasIdentity self.old.number self.old.blocks self.new }
        ensures valid { IsValidZone self.new }
    {
        if !self.tables.has_block(first, order) {
            return Err(ZoneError::Range);
        }
        let pages = most.min(self.tables.pages_to_go(first, order));
        if !self.tables.has_room_for_moves(pages) {
            return Err(ZoneError::JournalFull);
        }
        self.claim_free(first, order);
        Ok(self.move_out(first, order, pages))
    }

    /// Whether a step of `empty_some` would do something for a run: a frame of it is free, or a page of it may go and there is a frame for
    /// it. Where it wouldn't, pages that are pinned, moving or unmovable are all that is left in the run, or nothing is, or all frames of
    /// unmarked pageblocks are taken. False where no block of this order can begin at the frame.
    pub fn is_unfinished(&self, first: FrameNo, order: Order) -> bool
        ensures { result ≡ is_unfinished self.now first order }
    {
        self.tables.has_block(first, order)
            && (self.tables.free_in_run(first, order) > 0
                || self.tables.pages_to_go(first, order) > 0
                    && self.tables.highest_vacant().is_some())
    }

    /// How many frames of a run are claimed, or none where no block of this order can begin at the frame.
    pub fn claimed_frames(&self, first: FrameNo, order: Order) -> Option<u32>
        ensures { result ≡ (if has_block self.now order first then Some (claimed_frames first (2 ^ order) self.now) else None) }
    {
        if !self.tables.has_block(first, order) {
            return None;
        }
        Some(self.tables.claimed_frames(first, order))
    }

    /// Hands out a run whose frames are all claimed. Then it is a block as `take_order` hands one out.
    ///
    /// Refused as Range where no block of this order can begin at the frame, as JournalFull, or as NoBlock where a frame of the run isn't
    /// claimed.
    pub fn take_claimed(&mut self, first: FrameNo, order: Order) -> Result<(), ZoneError>
        ensures refused { result_err result ≡ take_claimed_refusal self.old first order }
        ensures err { OnErr result (self.new ≡ self.old) }
        ensures ok { OnOk result (self.new ≡ claimed_taken self.old first order) }
        ensures taken { OnOk result (map.get self.new.handed_out first ≡ Some order) }
        ensures identity { HasIdentity self.old.number self.old.blocks self.new }
        ensures valid { IsValidZone self.new }
    {
        if !self.tables.has_block(first, order) {
            return Err(ZoneError::Range);
        }
        if !self.tables.has_room() {
            return Err(ZoneError::JournalFull);
        }
        if self.tables.claimed_frames(first, order) < order.frames() {
            return Err(ZoneError::NoBlock);
        }
        self.tables.drop_run(first, order);
        self.tables.hand_out(first, order);
        Ok(())
    }

    /// Drops the claims of the frames of a run: those that were claimed are free. The latest round isn't quiet any more.
    ///
    /// Refused as Range where no block of this order can begin at the frame.
    pub fn drop_claim(&mut self, first: FrameNo, order: Order) -> Result<(), ZoneError>
        ensures refused { result_err result ≡ drop_refusal self.old first order }
        ensures err { OnErr result (self.new ≡ self.old) }
        ensures ok { OnOk result (self.new ≡ run_dropped first (2 ^ order) self.old) }
        ensures identity { HasIdentity self.old.number self.old.blocks self.new }
        ensures valid { IsValidZone self.new }
    {
        if !self.tables.has_block(first, order) {
            return Err(ZoneError::Range);
        }
        self.drop_claims(first, order);
        Ok(())
    }

    /// Claims the free frames of a run.
    fn claim_free(&mut self, first: FrameNo, order: Order)
        requires { IsTrue (has_block self.old order first) }
        ensures claimed { self.new ≡ run_claimed first (2 ^ order) self.old }
        ensures valid { IsValidZone self.new }
    {
        self.tables.forget_round();
        for offset in 0..order.frames() {
            let frame = frame_no(first.get() + offset);
            if self.tables.is_free(frame) {
                self.tables.claim(frame);
            }
        }
    }

    /// Drops the claims of the frames of a run.
    fn drop_claims(&mut self, first: FrameNo, order: Order)
        requires { IsTrue (has_block self.old order first) }
        ensures dropped { self.new ≡ run_dropped first (2 ^ order) self.old }
        ensures valid { IsValidZone self.new }
    {
        self.tables.forget_round();
        for offset in 0..order.frames() {
            let frame = frame_no(first.get() + offset);
            if self.tables.is_claimed(frame) {
                self.tables.drop_claim(frame);
            }
        }
    }

    /// Moves so many pages out of a run, no frame of which is free, or as many as there are frames for, the lowest page first. Each goes to
    /// the highest free frame of an unmarked pageblock, and the frame that it leaves is claimed. Answers how many went.
    fn move_out(&mut self, first: FrameNo, order: Order, pages: u32) -> u32
        requires shut { (frame : ℕ) → is_in_run first (2 ^ order) frame ≡ true → is_free self.old frame ≡ false }
        requires block { IsTrue (has_block self.old order first) }
        requires room { IsTrue (has_room_for_moves self.old pages) }
        ensures gone { self.new ≡ pages_gone first (2 ^ order) self.old pages }
        ensures stepping { IsStepping first (2 ^ order) self.old self.new result }
        ensures most { result ≤ pages }
        ensures valid { IsValidZone self.new }
    {
        let mut moved = 0;
        while moved < pages {
            let Some(source) = self.tables.next_to_go(first, order) else {
                return moved;
            };
            let Some(target) = self.tables.highest_vacant() else {
                return moved;
            };
            let Some(page) = self.tables.holder(source) else {
                unreachable!();
            };
            self.tables.move_page(page, source, target);
            self.tables.claim(source);
            moved += 1;
        }
        moved
    }
}
