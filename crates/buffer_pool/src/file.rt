//! The file whose blocks the buffers hold: what each block should contain.

use crate::trouble::Trouble;
use std::alloc::Global;
use zone_core::VPage;

/// The words of a block: 4 KiB.
pub const WORDS: usize = 512;

/// How many blocks the file has for each pageblock of the zone.
const BLOCKS_FOR_EACH: usize = 450;

/// How many times each block was changed. The first word of a block is this count, its header. No other word ever changes, so it can be
/// computed. Each block is mapped at the virtual page of its number.
#[derive(Drop)]
pub struct File {
    changes: Vec<u64>,
}

impl File {
    /// A file for a zone with so many pageblocks. It was never changed.
    pub fn new(alloc: Global, pageblocks: u32) -> Result<Self, Trouble> {
        let blocks = (pageblocks as usize).saturating_mul(BLOCKS_FOR_EACH);
        Ok(File {
            changes: vec![in alloc; 0; blocks]?,
        })
    }

    /// How many blocks the file has.
    pub fn blocks(&self) -> usize {
        self.changes.len()
    }

    /// The header of a block.
    pub fn header(&self, block: VPage) -> Result<u64, Trouble> {
        let changes = self.changes.get(block.get() as usize);
        changes.copied().ok_or(Trouble::Range)
    }

    /// Notes one more change of a block. The answer is its new header.
    pub fn change(&mut self, block: VPage) -> Result<u64, Trouble> {
        let changes = self.changes.get_mut(block.get() as usize);
        let changes = changes.ok_or(Trouble::Range)?;
        *changes = changes.saturating_add(1);
        Ok(*changes)
    }

    /// All words of a block.
    pub fn content(&self, block: VPage) -> Result<[u64; WORDS], Trouble> {
        let mut words = [self.header(block)?; WORDS];
        for (at, word) in words.iter_mut().enumerate().skip(1) {
            *word = word_of(block, at as u32);
        }
        Ok(words)
    }
}

/// The block of this number.
pub fn block_at(number: usize) -> Result<VPage, Trouble> {
    let number = u32::try_from(number).ok().and_then(VPage::in_any_zone);
    number.ok_or(Trouble::Range)
}

/// A word of a block after its header. No two of them are alike, in one block or in two.
pub fn word_of(block: VPage, at: u32) -> u64 {
    u64::from(block.get()) * 512 + u64::from(at)
}
