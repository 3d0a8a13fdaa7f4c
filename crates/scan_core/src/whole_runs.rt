//! The blocks of each order whose frames are all in a set.

ghost use Rattle.std.specs.Prelude.{◌≡◌, ℕ, ◌+◌, ◌*◌, ◌/◌, ◌^◌, ◌<◌, ◌≤◌, ◌&&◌, ◌||◌, Bool, true, not, nat_eq, nat_lt, IfOk, IfSome};
ghost use Rattle.std.specs.FinSet as set;
ghost use Rattle.frame_core.specs.Below.{count_below, lowest};
ghost use Rattle.frame_core.specs.Order.{is_aligned};
ghost use Rattle.scan_core.specs.FrameSet.{is_run_of};
ghost use Rattle.scan_core.specs.FreeRuns.{free_in_run, IsNextWith};
ghost use Rattle.scan_core.specs.WholeRuns.{Empties, Fills, HasWholeRuns, IsOpen};

use frame_core::Order;
use number_set::NumberSet;
use std::alloc::{AllocError, Global};

/// The blocks of the orders 3 to 9 whose frames are all in a set of frames, each by a number.
///
/// The numbers are those of a heap: the pageblocks are numbered from `blocks` on, and block `n` has the halves `2 * n` and `2 * n + 1`.
/// So the blocks of each order stand together, in the order of their frames, and one set has room for those of all orders.
///
/// A frame that comes into the set or goes out of it looks at the eight frames that it stands with. Only where these are all in does it
/// look at blocks: at one of each order, up to the first that isn't whole.
#[derive(Drop)]
pub(crate) struct WholeRuns {
    pub(crate) numbers: NumberSet,
    pub(crate) blocks: u32,
}

impl WholeRuns {
    /// The blocks of the set of all frames of this many pageblocks, or an error where there is no memory for them.
    pub(crate) fn full(alloc: Global, blocks: u32) -> Result<Self, AllocError>
        requires some { 0 < blocks }
        requires room { 512 * blocks ≤ 16777216 }
        ensures open { IfOk result (λ runs. IsOpen runs) }
        ensures blocks { IfOk result (λ runs. runs.blocks ≡ blocks) }
        ensures whole { IfOk result (λ runs. HasWholeRuns runs (λ frame. nat_lt frame (512 * blocks))) }
    {
        let numbers = NumberSet::filled(alloc, 128 * blocks)?;
        Ok(WholeRuns { numbers, blocks })
    }

    /// A frame has come into the set of these numbers.
    #[inline(always)]
    pub(crate) fn insert_frame(&mut self, numbers: &NumberSet, frame: u32)
        requires open { IsOpen self.old }
        requires within { frame < 512 * self.old.blocks }
        requires room { 512 * self.old.blocks ≤ numbers.now.bound }
        ensures open { IsOpen self.new }
        ensures blocks { self.new.blocks ≡ self.old.blocks }
        ensures whole { (p : ℕ → Bool) → HasWholeRuns self.old p → ((k : ℕ) → set.contains numbers.now.members k ≡ (nat_eq k frame || p k)) → HasWholeRuns self.new (set.contains numbers.now.members) }
    {
        let first = frame / 8 * 8;
        if numbers.has_run(first, 3) {
            self.insert(first, 3);
        }
    }

    /// A frame is about to go out of the set of these numbers.
    #[inline(always)]
    pub(crate) fn remove_frame(&mut self, numbers: &NumberSet, frame: u32)
        requires open { IsOpen self.old }
        requires within { frame < 512 * self.old.blocks }
        requires room { 512 * self.old.blocks ≤ numbers.now.bound }
        ensures open { IsOpen self.new }
        ensures blocks { self.new.blocks ≡ self.old.blocks }
        ensures whole { (r : ℕ → Bool) → HasWholeRuns self.old (set.contains numbers.now.members) → ((k : ℕ) → r k ≡ (not (nat_eq k frame) && set.contains numbers.now.members k)) → HasWholeRuns self.new r }
    {
        let first = frame / 8 * 8;
        if numbers.has_run(first, 3) {
            self.remove(first, 3);
        }
    }

    /// Puts in a block whose frames are all in the set now, the blocks in it, and each larger block that is whole with it.
    #[inline(never)]
    pub(crate) fn insert(&mut self, first: u32, order: u32)
        requires open { IsOpen self.old }
        requires order { (3 ≤ order) × (order ≤ 9) }
        requires aligned { is_aligned order first ≡ true }
        requires within { first < 512 * self.old.blocks }
        ensures open { IsOpen self.new }
        ensures blocks { self.new.blocks ≡ self.old.blocks }
        ensures whole { (p r : ℕ → Bool) → HasWholeRuns self.old p → Fills p r first (2 ^ order) → HasWholeRuns self.new r }
    {
        let mut number = (512 * self.blocks + first) / 8;
        let mut halvings = order - 3;
        while number >= self.blocks {
            self.numbers.insert_run(number, halvings);
            number /= 2;
            halvings = halvings.saturating_sub(1);
            if !self.has_halves(number) {
                return;
            }
        }
    }

    /// Takes out a block whose frames were all in the set, the blocks in it, and each larger block with it.
    #[inline(never)]
    pub(crate) fn remove(&mut self, first: u32, order: u32)
        requires open { IsOpen self.old }
        requires order { (3 ≤ order) × (order ≤ 9) }
        requires aligned { is_aligned order first ≡ true }
        requires within { first < 512 * self.old.blocks }
        ensures open { IsOpen self.new }
        ensures blocks { self.new.blocks ≡ self.old.blocks }
        ensures whole { (p r : ℕ → Bool) → HasWholeRuns self.old p → Empties p r first (2 ^ order) → HasWholeRuns self.new r }
    {
        let mut number = (512 * self.blocks + first) / 8;
        let mut halvings = order - 3;
        while number >= self.blocks {
            self.numbers.remove_run(number, halvings);
            number /= 2;
            halvings = halvings.saturating_sub(1);
            if !self.numbers.contains(number) {
                return;
            }
        }
    }

    /// Whether both halves of a block are whole.
    #[inline(always)]
    fn has_halves(&self, number: u32) -> bool
        requires open { IsOpen self.now }
        requires within { number < 64 * self.now.blocks }
        ensures { result ≡ (set.contains self.now.numbers.members (2 * number) && set.contains self.now.numbers.members (2 * number + 1)) }
    {
        self.numbers.contains(2 * number) && self.numbers.contains(2 * number + 1)
    }

    /// The first frame of the lowest block of this order, if there is one. However many blocks there are, it looks at two words of each
    /// level of the numbers at most.
    pub(crate) fn first(&self, order: Order) -> Option<u32>
        requires { IsOpen self.now }
        ensures { (p : ℕ → Bool) → HasWholeRuns self.now p → result ≡ lowest (is_run_of p order) (512 * self.now.blocks) }
    {
        let frames = order.frames();
        let run = self.next(order, 0)?;
        Some(run * frames)
    }

    /// The lowest block of this order from one on, by its number among all blocks of the order, if there is one. It looks at two words of
    /// each level of the numbers at most.
    pub(crate) fn next(&self, order: Order, from: u32) -> Option<u32>
        requires { IsOpen self.now }
        ensures next { (p : ℕ → Bool) → HasWholeRuns self.now p → IsNextWith (free_in_run p order) (512 * self.now.blocks / 2 ^ order) from (2 ^ order) result }
        ensures within { IfSome result (λ run. run < 512 * self.now.blocks / 2 ^ order) }
    {
        let runs = 512 * self.blocks / order.frames();
        if from >= runs {
            return None;
        }
        let number = self.numbers.at_or_after(runs + from)?;
        let run = number - runs;
        if run >= runs {
            return None;
        }
        Some(run)
    }

    /// How many blocks of this order there are. For each 64 blocks of the order, whole or not, it looks at a word of the numbers.
    pub(crate) fn count(&self, order: Order) -> u32
        requires { IsOpen self.now }
        ensures { (p : ℕ → Bool) → HasWholeRuns self.now p → result ≡ count_below (is_run_of p order) (512 * self.now.blocks) }
    {
        let runs = 512 * self.blocks / order.frames();
        self.numbers.count_from(runs, runs)
    }
}
