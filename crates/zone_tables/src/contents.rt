//! Reading and writing the words of blocks that are handed out.

ghost use Rattle.std.specs.Prelude.{◌≡◌, ◌+◌, ◌*◌, ◌^◌, ◌≤◌, ℕ, List, false, length, nat_le, IsTrue};
ghost use Rattle.std.specs.FinMap as map;
ghost use Rattle.std.specs.FinSet as set;
ghost use Rattle.std.specs.Fn.{FnOnceTakesAtMut, FnOnceReturnsAtMut};
ghost use Rattle.state_core.specs.Contents.{contents_of, contents_from, contents_written};
ghost use Rattle.state_core.specs.HandingOut.{is_order};
ghost use Rattle.state_core.specs.Valid.{IsValidZone};

use crate::zone::ZoneTables;
use frame_core::{FrameNo, Order};

impl<const W: usize> ZoneTables<W> {
    /// Whether a block that is handed out has this many words from one on.
    pub fn has_words_from(&self, first: FrameNo, order: Order, from: usize, count: usize) -> bool
        requires held { IsTrue (is_order (map.get self.now.handed_out first) order) }
        ensures has { result ≡ nat_le (from + count) (2 ^ order * self.now.page_size) }
        ensures within { IsTrue result → from + count ≤ 2 ^ order * W }
    {
        let words = order.frames() as u128 * self.words.page_words() as u128;
        from as u128 + count as u128 <= words
    }

    /// Reads words of a block that is handed out, from one on, as many as there is room for.
    pub fn read_block(&mut self, first: FrameNo, order: Order, from: usize, values: &mut [u64])
        requires held { IsTrue (is_order (map.get self.old.handed_out first) order) }
        requires here { set.contains self.old.lent first ≡ false }
        requires within { from + length values.old ≤ 2 ^ order * W }
        ensures values { values.new ≡ contents_from self.old first from (length values.old) }
        ensures step { self.new ≡ self.old }
        ensures valid { IsValidZone self.new }
    {
        self.cleared.clear(&mut self.words, first, order);
        let block = self.words.block(first, order.frames());
        values.copy_from_slice(&block[from..from + values.len()]);
    }

    /// Lends the words of a block that is handed out to `change`, and gives what it answers.
    pub fn with_block<R, F: FnOnce(&mut [u64]) -> R>(
        &mut self,
        first: FrameNo,
        order: Order,
        change: F,
    ) -> R
        requires held { IsTrue (is_order (map.get self.old.handed_out first) order) }
        requires here { set.contains self.old.lent first ≡ false }
        requires callable { FnOnceTakesAtMut F.FnOnce change (contents_of self.old first) }
        ensures changed { (words : List ℕ) × (length words ≡ 2 ^ order * self.old.page_size) × FnOnceReturnsAtMut F.FnOnce change (contents_of self.old first) result words × (self.new ≡ contents_written self.old first 0 words) }
        ensures valid { IsValidZone self.new }
    {
        self.cleared.clear(&mut self.words, first, order);
        self.words.with_block(first, order.frames(), change)
    }

    /// Writes words of a block that is handed out, from one on.
    pub fn write_block(&mut self, first: FrameNo, order: Order, from: usize, values: &[u64])
        requires held { IsTrue (is_order (map.get self.old.handed_out first) order) }
        requires here { set.contains self.old.lent first ≡ false }
        requires within { from + length values.now ≤ 2 ^ order * W }
        ensures step { self.new ≡ contents_written self.old first from values.now }
        ensures valid { IsValidZone self.new }
    {
        self.cleared.clear(&mut self.words, first, order);
        self.words.store_block(first, order.frames(), from, values);
    }
}
