//! Draws from a fixed seed.

ghost use Rattle.std.specs.Prelude.{◌<◌, IfOk};

use crate::file::{WORDS, block_at};
use crate::trouble::Trouble;
use rand_core::Rng;
use rand_pcg::Pcg32;
use zone_core::{VPage, WordOf};

#[derive(Drop)]
pub struct Draws {
    words: Pcg32,
}

impl Draws {
    pub fn new() -> Self {
        Draws {
            words: Pcg32::new(2, 7),
        }
    }

    /// A block of a file that has so many.
    pub fn block(&mut self, blocks: usize) -> Result<VPage, Trouble> {
        block_at(self.place(blocks)?)
    }

    /// A word of a block that isn't its header.
    pub fn word(&mut self) -> Result<WordOf<WORDS>, Trouble> {
        let at = 1 + self.words.next_u32() % (WORDS as u32 - 1);
        WordOf::new(at).ok_or(Trouble::Range)
    }

    /// A place in a list of this length, which must have an item.
    pub fn place(&mut self, length: usize) -> Result<usize, Trouble>
        ensures { IfOk result (λ place. place < length) }
    {
        let draw = self.words.next_u32() as usize;
        draw.checked_rem(length).ok_or(Trouble::Range)
    }
}
