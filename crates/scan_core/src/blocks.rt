//! Counts of frames, one for each pageblock.

ghost use Rattle.std.specs.Prelude.{◌≡◌, ℕ, ◌+◌, ◌-◌, ◌<◌, ◌≤◌, length, slice_get, slice_index, slice_set, Some};
ghost use Rattle.frame_core.specs.Below.{count_below, lowest};
ghost use Rattle.scan_core.specs.Frames.{blocks_of, free_in_block, is_whole};
ghost use Rattle.scan_core.specs.BlockCounts.{CountsFree};
ghost use Rattle.scan_core.specs.FrameCounts.{is_all_counted};

use crate::lists::is_free;
use frame_core::{BlockNo, FrameState};
use std::marker::Model;

/// How many frames of each of eight pageblocks are counted: the free ones, or the members of a set.
#[derive(Drop)]
pub struct BlockCounts {
    counts: [u32; 8],
}

impl Model for BlockCounts {
    ghost use Rattle.std.specs.Prelude.{◌≡◌, ℕ, List, length};

    ghost Value = { List ℕ };

    ghost view = { λ c. c.counts };

    ghost invariant = { λ c. length c.counts ≡ 8 };
}

impl BlockCounts {
    /// Counts of 0 for each pageblock.
    pub fn new() -> Self
        ensures len { length result ≡ 8 }
        ensures none { (block : ℕ) → block < 8 → slice_get result block ≡ Some 0 }
    {
        BlockCounts { counts: [0; 8] }
    }

    /// How many frames of each pageblock are free in a list of frame states.
    pub fn of(frames: &[FrameState]) -> Self
        ensures { CountsFree result frames.now }
    {
        let mut counts = [0; 8];
        for block in 0..8 {
            counts[block] = free_in_block(frames, block);
        }
        BlockCounts { counts }
    }

    /// How many frames of a pageblock are counted.
    pub fn get(&self, block: BlockNo) -> u32
        requires { block < 8 }
        ensures { result ≡ slice_index self.now block }
    {
        self.counts[block.get() as usize]
    }

    /// Counts this many more frames in a pageblock. There may be 512 in it at most.
    pub fn more(&mut self, block: BlockNo, frames: u32)
        requires block { block < 8 }
        requires most { slice_index self.old block + frames ≤ 512 }
        ensures { self.new ≡ slice_set self.old block (slice_index self.old block + frames) }
    {
        self.counts[block.get() as usize] += frames;
    }

    /// Counts this many fewer frames in a pageblock. At least as many have to be counted.
    pub fn fewer(&mut self, block: BlockNo, frames: u32)
        requires block { block < 8 }
        requires least { frames ≤ slice_index self.old block }
        ensures { self.new ≡ slice_set self.old block (slice_index self.old block - frames) }
    {
        self.counts[block.get() as usize] -= frames;
    }

    /// How many pageblocks have all of their 512 frames counted. Compiled by itself it compares the eight counts at once, which it
    /// doesn't where it is inlined.
    #[inline(never)]
    pub fn whole(&self) -> u32
        ensures count { result ≡ count_below (is_all_counted self.now) 8 }
    {
        let mut whole = 0;
        for block in 0..8 {
            if self.counts[block] == 512 {
                whole += 1;
            }
        }
        whole
    }

    /// The lowest pageblock that has all of its frames counted, if there is one.
    pub fn first(&self) -> Option<BlockNo>
        ensures lowest { result ≡ lowest (is_all_counted self.now) 8 }
    {
        for block in 0..8_u32 {
            if self.counts[block as usize] == 512 {
                return BlockNo::new(block);
            }
        }
        None
    }
}

/// How many pageblocks have only free frames, in a list of 4,096 frame states at most. The counts of the list give the answer.
pub fn whole_blocks(frames: &[FrameState]) -> u32
    requires { length frames.now ≤ 4096 }
    ensures { result ≡ count_below (is_whole frames.now) (blocks_of frames.now) }
{
    BlockCounts::of(frames).whole()
}

/// The lowest pageblock that has only free frames, if there is one, in a list of 4,096 frame states at most. The counts
/// of the list give the answer.
pub fn first_whole(frames: &[FrameState]) -> Option<BlockNo>
    requires { length frames.now ≤ 4096 }
    ensures { result ≡ lowest (is_whole frames.now) (blocks_of frames.now) }
{
    BlockCounts::of(frames).first()
}

/// How many frames of a pageblock are free.
fn free_in_block(frames: &[FrameState], block: usize) -> u32
    requires { block < 8 }
    ensures count { result ≡ free_in_block frames.now block }
{
    let first = 512 * block;
    let mut count = 0;
    for k in 0..512 {
        if let Some(state) = frames.get(first + k) {
            if is_free(state) {
                count += 1;
            }
        }
    }
    count
}
