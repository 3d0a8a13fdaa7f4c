//! Counts of frames, one for each pageblock.

ghost use Rattle.std.specs.Prelude.{◌≡◌, ◌+◌, ◌<◌, ◌≤◌, ◌&&◌, not, length, replicate, slice_index, IfOk};
ghost use Rattle.frame_core.specs.Below.{count_below, some_below, sum_below};
ghost use Rattle.scan_core.specs.Frames.{true_at};
ghost use Rattle.scan_core.specs.FrameCounts.{is_all_counted, is_some_counted, unmarked_count, with_fewer, with_more, IsFullest};
ghost use Rattle.scan_core.specs.FreeRuns.{IsNextWith};

use crate::marks::Marks;
use frame_core::FixedVec;
use std::alloc::{AllocError, Global};
use std::marker::Model;

/// How many frames of each pageblock are counted, of how many pageblocks some frame is, and of how many all 512 are.
#[derive(Drop)]
pub(crate) struct FrameCounts {
    counts: FixedVec<u32>,
    some: u32,
    whole: u32,
}

impl Model for FrameCounts {
    ghost use Rattle.std.specs.Prelude.{ℕ, List};
    ghost use Rattle.scan_core.specs.FrameCountsInside.{IsTallied};

    ghost Value = { List ℕ };

    ghost view = { λ c. c.counts.items };

    ghost invariant = { IsTallied };
}

impl FrameCounts {
    /// The counts of pageblocks in each of which no frame is counted, or an error where there is no memory for them.
    pub(crate) fn empty(alloc: Global, blocks: u32) -> Result<Self, AllocError>
        requires { blocks ≤ 32768 }
        ensures { IfOk result (λ counts. counts ≡ replicate blocks 0) }
    {
        let counts = FixedVec::filled(alloc, 0, blocks as usize)?;
        Ok(FrameCounts {
            counts,
            some: 0,
            whole: 0,
        })
    }

    /// The counts of pageblocks in each of which all frames are counted, or an error where there is no memory for them.
    pub(crate) fn full(alloc: Global, blocks: u32) -> Result<Self, AllocError>
        requires { blocks ≤ 32768 }
        ensures { IfOk result (λ counts. counts ≡ replicate blocks 512) }
    {
        let counts = FixedVec::filled(alloc, 512, blocks as usize)?;
        Ok(FrameCounts {
            counts,
            some: blocks,
            whole: blocks,
        })
    }

    /// How many pageblocks there are.
    #[inline]
    pub(crate) fn len(&self) -> u32
        ensures len { result ≡ length self.now }
        ensures few { result ≤ 32768 }
    {
        self.counts.len() as u32
    }

    /// How many frames of a pageblock are counted.
    #[inline(always)]
    pub(crate) fn get(&self, block: u32) -> u32
        requires { block < length self.now }
        ensures count { result ≡ slice_index self.now block }
        ensures most { result ≤ 512 }
    {
        self.counts[block as usize]
    }

    /// Counts more frames in a pageblock. There may be 512 in it at most.
    #[inline(always)]
    pub(crate) fn more(&mut self, block: u32, frames: u32)
        requires within { block < length self.old }
        requires some { 0 < frames }
        requires most { slice_index self.old block + frames ≤ 512 }
        ensures { self.new ≡ with_more self.old block frames }
    {
        let before = self.get(block);
        let count = before + frames;
        self.counts[block as usize] = count;
        if before == 0 {
            self.some += 1;
        }
        if count == 512 {
            self.whole += 1;
        }
    }

    /// Counts fewer frames in a pageblock. At least as many have to be counted.
    #[inline(always)]
    pub(crate) fn fewer(&mut self, block: u32, frames: u32)
        requires within { block < length self.old }
        requires some { 0 < frames }
        requires counted { frames ≤ slice_index self.old block }
        ensures { self.new ≡ with_fewer self.old block frames }
    {
        let before = self.get(block);
        let count = before - frames;
        self.counts[block as usize] = count;
        if count == 0 {
            self.some -= 1;
        }
        if before == 512 {
            self.whole -= 1;
        }
    }

    /// Whether some frame is counted in a pageblock that isn't marked. It looks at the pageblocks only where as many are marked as have a
    /// counted frame.
    pub(crate) fn has_some_unmarked(&self, marks: &Marks) -> bool
        requires { length self.now ≤ length marks.now }
        ensures { result ≡ some_below (λ block. not (true_at marks.now block) && is_some_counted self.now block) (length self.now) }
    {
        if self.some == 0 {
            return false;
        }
        self.some > marks.count() || self.finds_some_unmarked(marks)
    }

    /// Whether a look at all pageblocks finds one that isn't marked, of which some frame is counted.
    fn finds_some_unmarked(&self, marks: &Marks) -> bool
        requires { length self.now ≤ length marks.now }
        ensures { result ≡ some_below (λ block. not (true_at marks.now block) && is_some_counted self.now block) (length self.now) }
    {
        for block in 0..self.len() {
            if self.is_counted_unmarked(block, marks) {
                return true;
            }
        }
        false
    }

    /// Whether a pageblock isn't marked and a frame of it is counted.
    fn is_counted_unmarked(&self, block: u32, marks: &Marks) -> bool
        requires within { block < length self.now }
        requires marks { block < length marks.now }
        ensures { result ≡ (not (true_at marks.now block) && is_some_counted self.now block) }
    {
        !marks.is_marked(block) && self.get(block) > 0
    }

    /// How many frames are counted in pageblocks that aren't marked.
    pub(crate) fn count_unmarked(&self, marks: &Marks) -> u32
        requires { length self.now ≤ length marks.now }
        ensures { result ≡ sum_below (unmarked_count marks.now self.now) (length self.now) }
    {
        let mut frames = 0;
        for block in 0..self.len() {
            frames += self.unmarked_count(block, marks);
        }
        frames
    }

    /// How many frames of a pageblock are counted, or none where it is marked.
    fn unmarked_count(&self, block: u32, marks: &Marks) -> u32
        requires within { block < length self.now }
        requires marks { block < length marks.now }
        ensures count { result ≡ unmarked_count marks.now self.now block }
        ensures most { result ≤ 512 }
    {
        if marks.is_marked(block) {
            return 0;
        }
        self.get(block)
    }

    /// How many pageblocks have all of their 512 frames counted.
    #[inline(always)]
    pub(crate) fn whole(&self) -> u32
        ensures { result ≡ count_below (is_all_counted self.now) (length self.now) }
    {
        self.whole
    }

    /// The pageblock with the most counted frames, the lowest of equals. It looks at the count of each pageblock.
    pub(crate) fn fullest(&self) -> u32
        requires { 0 < length self.now }
        ensures { IsFullest self.now (length self.now) result }
    {
        let mut fullest = 0;
        for block in 1..self.len() {
            if self.get(block) > self.get(fullest) {
                fullest = block;
            }
        }
        fullest
    }

    /// The lowest pageblock from one on with at least so many counted frames, if there is one. It looks at the count of each pageblock up to
    /// that one.
    #[inline]
    pub(crate) fn next_with(&self, from: u32, least: u32) -> Option<u32>
        ensures { IsNextWith (slice_index self.now) (length self.now) from least result }
    {
        for block in from..self.len() {
            if self.get(block) >= least {
                return Some(block);
            }
        }
        None
    }
}
