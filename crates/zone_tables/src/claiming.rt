//! Claims: free frames that are kept for a block, and what a step of an evacuation looks for.

ghost use Rattle.std.specs.Prelude.{◌≡◌, ◌^◌, ◌<◌, true, None, IsTrue};
ghost use Rattle.fewest_core.specs.Claims.{claimed_frames, highest_vacant, next_to_go, pages_to_go};
ghost use Rattle.state_core.specs.Claiming.{claimed_at, dropped_at, is_claimed, run_dropped};
ghost use Rattle.state_core.specs.HandingOut.{has_block};
ghost use Rattle.state_core.specs.Valid.{IsValidZone};
ghost use Rattle.state_core.specs.ZoneState.{frame_count, is_free};

use crate::zone::ZoneTables;
use frame_core::{FrameNo, Order};

impl<const W: usize> ZoneTables<W> {
    /// Whether a frame is claimed.
    pub fn is_claimed(&self, frame: FrameNo) -> bool
        requires { frame < frame_count self.now }
        ensures { result ≡ is_claimed self.now frame }
    {
        self.claimed.contains(frame.get())
    }

    /// How many frames of a run are claimed.
    pub fn claimed_frames(&self, first: FrameNo, order: Order) -> u32
        requires { IsTrue (has_block self.now order first) }
        ensures { result ≡ claimed_frames first (2 ^ order) self.now }
    {
        self.claimed.count_run(first.get(), order.get())
    }

    /// Forgets how the latest round began, so that it isn't quiet any more. It may go on.
    pub fn forget_round(&mut self)
        ensures step { self.new ≡ record self.old { round = None } }
        ensures valid { IsValidZone self.new }
    {
        self.history.forget_round();
    }

    /// Claims a free frame.
    pub fn claim(&mut self, frame: FrameNo)
        requires within { frame < frame_count self.old }
        requires free { is_free self.old frame ≡ true }
        ensures step { self.new ≡ claimed_at self.old frame }
        ensures valid { IsValidZone self.new }
    {
        self.frames.hold_frame(frame);
        self.claimed.insert(frame.get());
        self.history.forget_round();
    }

    /// Drops the claim of a frame, which is free then.
    pub fn drop_claim(&mut self, frame: FrameNo)
        requires { is_claimed self.old frame ≡ true }
        ensures step { self.new ≡ dropped_at self.old frame }
        ensures valid { IsValidZone self.new }
    {
        self.frames.release_frame(frame);
        self.claimed.remove(frame.get());
        self.history.forget_round();
    }

    /// Drops the claims of a run whose frames are all claimed.
    pub fn drop_run(&mut self, first: FrameNo, order: Order)
        requires block { IsTrue (has_block self.old order first) }
        requires claimed { claimed_frames first (2 ^ order) self.old ≡ 2 ^ order }
        ensures step { self.new ≡ run_dropped first (2 ^ order) self.old }
        ensures valid { IsValidZone self.new }
    {
        self.frames.release(first, order);
        self.claimed.remove_run(first.get(), order.get());
        self.history.forget_round();
    }

    /// How many pages of a run may be taken from their frames, in whatever pageblock.
    pub fn pages_to_go(&self, first: FrameNo, order: Order) -> u32
        requires { IsTrue (has_block self.now order first) }
        ensures { result ≡ pages_to_go first (2 ^ order) self.now }
    {
        self.frames.movable_in_run(first, order)
    }

    /// The lowest frame of a run with a page that may be taken from it, if there is one.
    pub fn next_to_go(&self, first: FrameNo, order: Order) -> Option<FrameNo>
        requires { IsTrue (has_block self.now order first) }
        ensures { result ≡ next_to_go first (2 ^ order) self.now }
    {
        let first = first.get();
        self.frames.next_movable(first, first + order.frames())
    }

    /// The highest free frame of an unmarked pageblock, if there is one.
    pub fn highest_vacant(&self) -> Option<FrameNo>
        ensures { result ≡ highest_vacant self.now }
    {
        self.last_vacant(self.frames.len())
    }
}
