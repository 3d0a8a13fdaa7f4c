//! Which blocks were cleared since they were handed out.

ghost use Rattle.std.specs.Prelude.{◌≡◌, ◌+◌, ◌^◌, ◌<◌, ◌≤◌, true, false, length, replicate, slice_set, IfOk};
ghost use Rattle.std.specs.List.{All};
ghost use Rattle.zone_tables.specs.Contents.{words_held};
ghost use Rattle.scan_core.specs.Frames.{true_at};
ghost use Rattle.frame_core.specs.LentWords.{IsHere, LentStays};
ghost use Rattle.frame_core.specs.Words.{HasBlock};

use frame_core::{FixedVec, FrameNo, Order, WordsOf};
use std::alloc::{AllocError, Global};
use std::marker::Model;

/// Whether the words of each block were cleared since it was handed out, by its first frame. A block is cleared when it is first
/// read or written, so that handing it out writes no word.
#[derive(Drop)]
pub struct Cleared {
    blocks: FixedVec<bool>,
}

impl Model for Cleared {
    ghost use Rattle.std.specs.Prelude.{Bool, List};

    ghost Value = { List Bool };

    ghost view = { λ z. z.blocks.items };
}

impl Cleared {
    /// A list for this many frames, or an error where there is no memory for it. No other call takes memory.
    pub fn open(alloc: Global, frames: u32) -> Result<Self, AllocError>
        ensures { IfOk result (λ cleared. cleared ≡ replicate frames false) }
    {
        let blocks = FixedVec::filled(alloc, false, frames as usize)?;
        Ok(Cleared { blocks })
    }

    /// Notes that a block is handed out, whose frames may still have words of pages.
    pub fn hand_out(&mut self, first: FrameNo)
        requires { first < length self.old }
        ensures { self.new ≡ slice_set self.old first false }
    {
        self.blocks[first.get() as usize] = false;
    }

    /// Sets the words of a block to 0, unless that was done since it was handed out.
    pub fn clear<const W: usize>(&mut self, words: &mut WordsOf<W>, first: FrameNo, order: Order)
        requires listed { first < length self.old }
        requires within { first + 2 ^ order ≤ length words.old.rows }
        requires here { IsHere words.old first (2 ^ order) }
        ensures noted { self.new ≡ slice_set self.old first true }
        ensures words { HasBlock words.old.rows words.new.rows first (2 ^ order) (words_held W words.old.rows (true_at self.old first) first order) }
        ensures sized { All (λ row. length row ≡ W) words.old.rows → All (λ row. length row ≡ W) words.new.rows }
        ensures lent { LentStays words.old words.new }
    {
        let first_place = first.get() as usize;
        if !self.blocks[first_place] {
            words.blank_block(first, order.frames());
            self.blocks[first_place] = true;
        }
    }
}
