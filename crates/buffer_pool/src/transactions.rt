use crate::file::{WORDS, word_of};
use crate::pool::Pool;
use crate::trouble::Trouble;
use zone_core::{VPage, WordOf, ZoneError};

impl Pool {
    /// Makes so many transactions.
    pub fn serve(&mut self, transactions: u32) -> Result<(), Trouble> {
        for _ in 0..transactions {
            self.transact()?;
        }
        Ok(())
    }

    /// Changes a block that is drawn, while its buffer is pinned.
    fn transact(&mut self) -> Result<(), Trouble> {
        let block = self.draws.block(self.file.blocks())?;
        let word = self.draws.word()?;
        self.pin(block)?;
        let is_right = self.change(block, word)?;
        self.buffers.unpin(block)?;
        self.tally.transactions.note(is_right);
        Ok(())
    }

    /// Pins the buffer of a block. A block that has none is brought in, in place of another.
    fn pin(&mut self, block: VPage) -> Result<(), Trouble> {
        match self.buffers.pin(block) {
            Err(ZoneError::Unmapped) => self.pin_anew(block),
            pinned => Ok(pinned?),
        }
    }

    fn pin_anew(&mut self, block: VPage) -> Result<(), Trouble> {
        self.evict()?;
        self.bring_in(block)?;
        self.buffers.pin(block)?;
        Ok(())
    }

    /// Loads the header of a block and one more word, and stores the next header. The answer is whether the loads gave what was
    /// stored.
    fn change(&mut self, block: VPage, word: WordOf<WORDS>) -> Result<bool, Trouble> {
        let header = self.buffers.load_header(block)?;
        let value = self.buffers.load(block, word)?;
        let is_right = header == self.file.header(block)? && value == word_of(block, word.get());
        let next = self.file.change(block)?;
        self.buffers.store_header(block, next)?;
        Ok(is_right)
    }
}
