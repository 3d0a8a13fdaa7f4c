//! Reading and writing the words of blocks that a `Zone` handed out.

ghost use Rattle.std.specs.Prelude.{◌≡◌, ◌*◌, ◌^◌, ℕ, List, length, IsTrue, IfOk, OnOk, OnErr};
ghost use Rattle.std.specs.FinMap as map;
ghost use Rattle.std.specs.Fn.{FnOnceTakesAtMut, FnOnceReturnsAtMut};
ghost use Rattle.std.specs.Result.{result_err};
ghost use Rattle.state_core.specs.Contents.{contents_refusal, contents_of, contents_from, contents_written};
ghost use Rattle.state_core.specs.HandingOut.{is_order};
ghost use Rattle.state_core.specs.Valid.{IsValidZone};
ghost use Rattle.state_core.specs.Pairs.{HaveMet};
ghost use Rattle.zone_core.specs.ZoneIdentity.{HasIdentity};

use crate::opening::{Opening, ZoneInOf};
use frame_core::{FrameNo, Order};
use state_core::ZoneError;

impl<const W: usize, Z: Opening> ZoneInOf<W, Z> {
    /// Reads words of a block that is handed out, from one on, into `values`. The block is named by its first frame and its
    /// order.
    ///
    /// A word has 64 bits. A block of an order has the words of its 2^order frames, one frame after the other: the words 0 to
    /// 2^order * W - 1. What was written there stays until the block is given back, and a fresh block reads as zeros. That is
    /// this project's own rule: the kernel clears a huge page before it is handed out. No record is written, and a full journal
    /// refuses nothing.
    ///
    /// Refused as NotHuge where no block of this order is handed out from this frame on, as Range where the words go past
    /// its last one, or as Lent.
    pub fn read_block(
        &mut self,
        first: FrameNo,
        order: Order,
        from: usize,
        values: &mut [u64],
    ) -> Result<(), ZoneError>
        ensures refused { result_err result ≡ contents_refusal self.old first order from (length values.old) }
        ensures err { OnErr result ((self.new ≡ self.old) × (values.new ≡ values.old)) }
        ensures values { OnOk result (values.new ≡ contents_from self.old first from (length values.old)) }
        ensures ok { OnOk result (self.new ≡ self.old) }
        ensures met { OnOk result (HaveMet self.old → HaveMet self.new) }
        ensures identity { HasIdentity self.old.number self.old.blocks self.new }
        ensures valid { IsValidZone self.new }
    {
        self.bare.read_block(first, order, from, values)
    }

    /// Writes words of a block that is handed out, from one on. No page and no other block changes.
    ///
    /// Refused as NotHuge where no block of this order is handed out from this frame on, as Range where the words go past
    /// its last one, or as Lent.
    pub fn write_block(
        &mut self,
        first: FrameNo,
        order: Order,
        from: usize,
        values: &[u64],
    ) -> Result<(), ZoneError>
        ensures refused { result_err result ≡ contents_refusal self.old first order from (length values.now) }
        ensures err { OnErr result (self.new ≡ self.old) }
        ensures ok { OnOk result (self.new ≡ contents_written self.old first from values.now) }
        ensures met { OnOk result (HaveMet self.old → HaveMet self.new) }
        ensures identity { HasIdentity self.old.number self.old.blocks self.new }
        ensures valid { IsValidZone self.new }
    {
        self.bare.write_block(first, order, from, values)
    }

    /// Lends all words of a block that is handed out to `change`, as one slice, and gives what it answers. The slice has the
    /// words that `read_block` reads, and what `change` leaves there is written as by `write_block`.
    ///
    /// Refused as NotHuge where no block of this order is handed out from this frame on, or as Lent. Then `change` isn't called.
    pub fn with_block<R, F: FnOnce(&mut [u64]) -> R>(
        &mut self,
        first: FrameNo,
        order: Order,
        change: F,
    ) -> Result<R, ZoneError>
        requires { IsTrue (is_order (map.get self.old.handed_out first) order) → length (contents_of self.old first) ≡ 2 ^ order * self.old.page_size → FnOnceTakesAtMut F.FnOnce change (contents_of self.old first) }
        ensures refused { result_err result ≡ contents_refusal self.old first order 0 0 }
        ensures err { OnErr result (self.new ≡ self.old) }
        ensures ok { IfOk result (λ answer. (words : List ℕ) × (length words ≡ 2 ^ order * self.old.page_size) × FnOnceReturnsAtMut F.FnOnce change (contents_of self.old first) answer words × (self.new ≡ contents_written self.old first 0 words)) }
        ensures met { OnOk result (HaveMet self.old → HaveMet self.new) }
        ensures identity { HasIdentity self.old.number self.old.blocks self.new }
        ensures valid { IsValidZone self.new }
    {
        self.bare.with_block(first, order, change)
    }
}
