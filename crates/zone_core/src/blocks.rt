ghost use Rattle.std.specs.Prelude.{◌≡◌, ◌*◌, ◌^◌, Some, IsTrue, IfOk, OnOk, OnErr};
ghost use Rattle.std.specs.Result.{result_err};
ghost use Rattle.frame_core.specs.Below.{lowest};
ghost use Rattle.state_core.specs.Clear.{IsClear};
ghost use Rattle.state_core.specs.HandingOut.{is_run, lowest_run, take_order_refusal, give_order_refusal, block_taken, block_given};
ghost use Rattle.state_core.specs.Valid.{IsValidZone};
ghost use Rattle.state_core.specs.Marking.{mark_refusal, unmark_refusal, block_marked, block_unmarked};
ghost use Rattle.state_core.specs.ZoneState.{is_whole};
ghost use Rattle.zone_core.specs.ZoneIdentity.{HasIdentity};

use crate::opening::{Opening, ZoneInOf};
use frame_core::{BlockNo, FrameNo, Order, block_of, first_frame};
use state_core::ZoneError;

impl<const W: usize, Z: Opening> ZoneInOf<W, Z> {
    /// Hands out the lowest free block of an order, 3 to 9, and answers its first frame. The block has 2^order frames, of
    /// which no page has one, and its first frame is a multiple of 2^order. Marks don't count here.
    ///
    /// Refused as JournalFull, or as NoBlock where no such block is free.
    pub fn take_order(&mut self, order: Order) -> Result<FrameNo, ZoneError>
        ensures refused { result_err result ≡ take_order_refusal self.old order }
        ensures err { OnErr result (self.new ≡ self.old) }
        ensures first { IfOk result (λ first. lowest_run self.old order ≡ Some first) }
        ensures ok { IfOk result (λ first. self.new ≡ block_taken self.old first order) }
        // Each of the block's frames was free, and no address or page has one of them.
        ensures run { IfOk result (λ first. IsTrue (is_run self.old order first)) }
        ensures clear { IfOk result (λ first. IsClear self.new first (2 ^ order)) }
        ensures identity { HasIdentity self.old.number self.old.blocks self.new }
        ensures valid { IsValidZone self.new }
    {
        self.bare.take_order(order)
    }

    /// Takes back a block that was handed out, by its first frame and its order. All of its frames are free again.
    ///
    /// Refused as Range where the zone has no such block, as JournalFull, as NotHuge where the block isn't handed out, or as Lent.
    pub fn give_order(&mut self, first: FrameNo, order: Order) -> Result<(), ZoneError>
        ensures refused { result_err result ≡ give_order_refusal self.old first order }
        ensures err { OnErr result (self.new ≡ self.old) }
        ensures ok { OnOk result (self.new ≡ block_given self.old first order) }
        ensures run { OnOk result (IsTrue (is_run self.new order first)) }
        ensures identity { HasIdentity self.old.number self.old.blocks self.new }
        ensures valid { IsValidZone self.new }
    {
        self.bare.give_order(first, order)
    }

    /// Hands out the lowest pageblock whose 512 frames are all free, and answers its number.
    ///
    /// Refused as JournalFull, or as NoBlock where no pageblock is whole.
    pub fn take_huge(&mut self) -> Result<BlockNo, ZoneError>
        ensures refused { result_err result ≡ take_order_refusal self.old 9 }
        ensures err { OnErr result (self.new ≡ self.old) }
        ensures block { IfOk result (λ block. lowest_run self.old 9 ≡ Some (512 * block)) }
        ensures whole { IfOk result (λ block. lowest (is_whole self.old) self.old.blocks ≡ Some block) }
        ensures ok { IfOk result (λ block. self.new ≡ block_taken self.old (512 * block) 9) }
        ensures clear { IfOk result (λ block. IsClear self.new (512 * block) 512) }
        ensures identity { HasIdentity self.old.number self.old.blocks self.new }
        ensures valid { IsValidZone self.new }
    {
        let first = self.take_order(Order::of_pageblock())?;
        Ok(block_of(first))
    }

    /// Takes back a pageblock that was handed out as one block.
    ///
    /// Refused as Range where the zone has no such pageblock, as JournalFull, as NotHuge where the pageblock isn't handed out, or as
    /// Lent.
    pub fn give_huge(&mut self, block: BlockNo) -> Result<(), ZoneError>
        ensures refused { result_err result ≡ give_order_refusal self.old (512 * block) 9 }
        ensures err { OnErr result (self.new ≡ self.old) }
        ensures ok { OnOk result (self.new ≡ block_given self.old (512 * block) 9) }
        ensures whole { OnOk result (IsTrue (is_whole self.new block)) }
        ensures identity { HasIdentity self.old.number self.old.blocks self.new }
        ensures valid { IsValidZone self.new }
    {
        self.give_order(first_frame(block), Order::of_pageblock())
    }

    /// Marks a pageblock: the scanners take no frame of it, neither as a source nor as a target.
    ///
    /// Refused as Range where the zone has no such pageblock, as JournalFull, or as Marked.
    pub fn mark(&mut self, block: BlockNo) -> Result<(), ZoneError>
        ensures refused { result_err result ≡ mark_refusal self.old block }
        ensures err { OnErr result (self.new ≡ self.old) }
        ensures ok { OnOk result (self.new ≡ block_marked self.old block) }
        ensures identity { HasIdentity self.old.number self.old.blocks self.new }
        ensures valid { IsValidZone self.new }
    {
        self.bare.mark(block)
    }

    /// Takes the mark of a pageblock off.
    ///
    /// Refused as Range where the zone has no such pageblock, as JournalFull, or as NotMarked.
    pub fn unmark(&mut self, block: BlockNo) -> Result<(), ZoneError>
        ensures refused { result_err result ≡ unmark_refusal self.old block }
        ensures err { OnErr result (self.new ≡ self.old) }
        ensures ok { OnOk result (self.new ≡ block_unmarked self.old block) }
        ensures identity { HasIdentity self.old.number self.old.blocks self.new }
        ensures valid { IsValidZone self.new }
    {
        self.bare.unmark(block)
    }
}
