//! The pool: which blocks of the file have a buffer.

use crate::buffers::Buffers;
use crate::draws::Draws;
use crate::file::{File, block_at};
use crate::tally::Tally;
use crate::trouble::Trouble;
use std::alloc::Global;
use zone_core::{FrameNo, VPage, ZoneSize};

/// Of so many blocks one has no buffer, once the pool is filled.
const OF_BLOCKS: usize = 36;

#[derive(Drop)]
pub struct Pool {
    pub buffers: Buffers,
    pub file: File,
    /// The blocks that have a buffer.
    resident: Vec<VPage>,
    pub draws: Draws,
    /// The first frames of the large buffers that are in use.
    pub large: Vec<FrameNo>,
    pub tally: Tally,
}

impl Pool {
    /// A pool without buffers, in a zone of this size.
    pub fn open(alloc: Global, size: ZoneSize) -> Result<Self, Trouble> {
        let buffers = Buffers::open(alloc, size)?;
        Ok(Pool {
            buffers,
            file: File::new(alloc, size.blocks)?,
            resident: Vec::new(alloc),
            draws: Draws::new(),
            large: Vec::new(alloc),
            tally: Tally::default(),
        })
    }

    /// Brings the whole file in, and then evicts some of its blocks: free frames are left all over the zone.
    pub fn fill(&mut self) -> Result<(), Trouble> {
        let blocks = self.file.blocks();
        for number in 0..blocks {
            self.bring_in(block_at(number)?)?;
        }
        for _ in 0..blocks / OF_BLOCKS {
            self.evict()?;
        }
        Ok(())
    }

    /// Brings a block into a fresh buffer.
    pub fn bring_in(&mut self, block: VPage) -> Result<(), Trouble> {
        self.buffers.map(block)?;
        self.buffers.write(block, &self.file.content(block)?)?;
        self.resident.push(block)?;
        Ok(())
    }

    /// Evicts a block that is drawn, and sees whether its buffer held what was stored.
    pub fn evict(&mut self) -> Result<(), Trouble> {
        let slot = self.draws.place(self.resident.len())?;
        let block = self.resident.swap_remove(slot);
        let holds = self.buffers.holds(block, &self.file.content(block)?)?;
        self.tally.evicted.note(holds);
        self.buffers.unmap(block)?;
        Ok(())
    }

    /// A block that is drawn among those that have a buffer.
    pub fn draw_resident(&mut self) -> Result<VPage, Trouble> {
        let slot = self.draws.place(self.resident.len())?;
        Ok(self.resident[slot])
    }

    /// Reads the buffers that are left, and sees how many hold what was stored.
    pub fn see_left(&mut self) -> Result<(), Trouble> {
        for block in &self.resident {
            let holds = self.buffers.holds(*block, &self.file.content(*block)?)?;
            self.tally.left.note(holds);
        }
        Ok(())
    }
}
