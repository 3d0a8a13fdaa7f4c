//! Handing blocks out, and taking them back.

ghost use Rattle.std.specs.Prelude.{◌≡◌, ◌≤◌, false, IsTrue, IfSome};
ghost use Rattle.std.specs.FinMap as map;
ghost use Rattle.std.specs.FinSet as set;
ghost use Rattle.frame_core.specs.Below.{count_below};
ghost use Rattle.state_core.specs.HandingOut.{has_block, is_order, is_run, lowest_run, block_taken, block_given};
ghost use Rattle.state_core.specs.Valid.{IsValidZone};
ghost use Rattle.state_core.specs.ZoneState.{frame_count, has_room};

use crate::zone::ZoneTables;
use frame_core::{FrameNo, Order, Record};

impl<const W: usize> ZoneTables<W> {
    /// Whether a block of this order may begin at a frame: it is aligned, and all of it is in the zone.
    pub fn has_block(&self, first: FrameNo, order: Order) -> bool
        ensures { result ≡ has_block self.now order first }
    {
        let frames = order.frames();
        let first = first.get();
        first / frames * frames == first && first + frames <= 512 * self.size.blocks
    }

    /// Whether a block of this order is handed out from this first frame on.
    pub fn is_handed_out(&self, first: FrameNo, order: Order) -> bool
        ensures { result ≡ is_order (map.get self.now.handed_out first) order }
    {
        match self.handed_out.order(first) {
            Some(held) => held == order,
            None => false,
        }
    }

    /// The first frame of the lowest free block of an order, if there is one.
    pub fn find_run(&self, order: Order) -> Option<FrameNo>
        ensures lowest { result ≡ lowest_run self.now order }
        ensures run { IfSome result (λ first. IsTrue (is_run self.now order first)) }
    {
        self.frames.first_run(order)
    }

    /// How many free blocks of an order there are, 0 to 9. It looks at a word of a set for each 64 blocks of the order, and where the order
    /// is below 3 at a word for each 64 frames.
    pub fn count_runs(&self, order: u32) -> u32
        requires { order ≤ 9 }
        ensures count { result ≡ count_below (is_run self.now order) (frame_count self.now) }
        ensures few { result ≤ 16777216 }
    {
        self.frames.count_runs(order)
    }

    /// Hands out a free block.
    #[inline(always)]
    pub fn hand_out(&mut self, first: FrameNo, order: Order)
        requires room { IsTrue (has_room self.old) }
        requires run { IsTrue (is_run self.old order first) }
        ensures step { self.new ≡ block_taken self.old first order }
        ensures valid { IsValidZone self.new }
    {
        self.frames.hold(first, order);
        self.handed_out.take(first, order);
        self.cleared.hand_out(first);
        self.history.note(Record::TakeHuge {
            frame: first,
            order,
        });
    }

    /// Takes back a block that was handed out.
    #[inline(always)]
    pub fn take_back(&mut self, first: FrameNo, order: Order)
        requires room { IsTrue (has_room self.old) }
        requires held { IsTrue (is_order (map.get self.old.handed_out first) order) }
        requires here { set.contains self.old.lent first ≡ false }
        ensures step { self.new ≡ block_given self.old first order }
        ensures valid { IsValidZone self.new }
    {
        self.frames.release(first, order);
        self.handed_out.give(first);
        self.history.note(Record::GiveHuge {
            frame: first,
            order,
        });
    }
}
