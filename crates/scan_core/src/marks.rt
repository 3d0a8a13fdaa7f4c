//! The marks of pageblocks.

ghost use Rattle.std.specs.Prelude.{◌≡◌, ◌<◌, ◌≤◌, false, length, replicate, slice_index_or, slice_set, IfOk};
ghost use Rattle.frame_core.specs.Below.{count_below};
ghost use Rattle.scan_core.specs.Frames.{true_at};

use frame_core::FixedVec;
use std::alloc::{AllocError, Global};
use std::marker::Model;

/// Whether each pageblock is marked, and how many are.
#[derive(Drop)]
pub struct Marks {
    marked: FixedVec<bool>,
    count: u32,
}

impl Model for Marks {
    ghost use Rattle.std.specs.Prelude.{◌≡◌, ◌≤◌, Bool, List, length};
    ghost use Rattle.frame_core.specs.Below.{count_below};
    ghost use Rattle.scan_core.specs.Frames.{true_at};

    ghost Value = { List Bool };

    ghost view = { λ m. m.marked.items };

    ghost invariant = { λ m. (m.count ≡ count_below (true_at m.marked.items) (length m.marked.items)) × (length m.marked.items ≤ 32768) };
}

impl Marks {
    /// The marks of this many pageblocks, none of which is marked, or an error where there is no memory for them.
    pub fn none(alloc: Global, blocks: u32) -> Result<Self, AllocError>
        requires { blocks ≤ 32768 }
        ensures { IfOk result (λ marks. marks ≡ replicate blocks false) }
    {
        let marked = FixedVec::filled(alloc, false, blocks as usize)?;
        Ok(Marks { marked, count: 0 })
    }

    /// Whether a pageblock is marked.
    #[inline(always)]
    pub fn is_marked(&self, block: u32) -> bool
        requires { block < length self.now }
        ensures { result ≡ true_at self.now block }
    {
        self.marked[block as usize]
    }

    /// Marks a pageblock, or takes its mark off.
    pub fn set(&mut self, block: u32, marked: bool)
        requires { block < length self.old }
        ensures marked { self.new ≡ slice_set self.old block marked }
        ensures len { length self.new ≡ length self.old }
    {
        self.count -= u32::from(self.is_marked(block));
        self.count += u32::from(marked);
        self.marked[block as usize] = marked;
    }

    /// How many pageblocks are marked.
    pub(crate) fn count(&self) -> u32
        ensures { result ≡ count_below (true_at self.now) (length self.now) }
    {
        self.count
    }
}
