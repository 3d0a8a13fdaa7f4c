//! A block of 2 MiB, and what a guest keeps in it.

use crate::WORDS;
use anyhow::Result;
use zone_core::{BareZone, FrameNo, Order};

/// The frames of a block.
const FRAMES: usize = 512;

/// A block that is handed out.
#[derive(Clone, Copy)]
pub struct Block {
    /// Its first frame.
    pub first: FrameNo,
    /// Which of the blocks that were handed out it is, from 1.
    pub number: u64,
}

impl Block {
    /// How many words it has.
    pub const WORDS: u64 = (FRAMES * WORDS) as u64;

    /// Writes all of its words.
    pub fn fill(&self, zone: &mut BareZone<WORDS>) -> Result<()> {
        for frame in 0..FRAMES {
            let words = self.words_of(frame);
            zone.write_block(self.first, Order::of_pageblock(), frame * WORDS, &words)?;
        }
        Ok(())
    }

    /// Reads all of its words. The answer is how many are as `fill` has written them.
    pub fn count_right(&self, zone: &mut BareZone<WORDS>) -> Result<u64> {
        let mut right = 0u64;
        let mut words = [0; WORDS];
        for frame in 0..FRAMES {
            zone.read_block(self.first, Order::of_pageblock(), frame * WORDS, &mut words)?;
            let written = self.words_of(frame);
            let same = words
                .iter()
                .zip(&written)
                .filter(|(one, other)| one == other);
            right = right.saturating_add(same.count() as u64);
        }
        Ok(right)
    }

    /// What is written in one of its frames. No two words of two blocks or of two places are alike, and none is zero, as those of a fresh
    /// block are.
    fn words_of(&self, frame: usize) -> [u64; WORDS] {
        let first = self.number << 18 | (frame as u64) << 9;
        let mut words = [first; WORDS];
        for (at, word) in words.iter_mut().enumerate() {
            *word = first | at as u64;
        }
        words
    }
}
