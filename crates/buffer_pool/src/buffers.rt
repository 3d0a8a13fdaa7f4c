//! The buffers: pages of a zone, by the blocks that they hold. Each call of the zone is counted.

use crate::file::WORDS;
use crate::trouble::Trouble;
use std::alloc::Global;
use zone_core::{
    Address, BareZone, ClientNo, FrameNo, Look, Order, SpaceNo, VPage, WordOf, ZoneError, ZoneNo,
    ZoneSize,
};

#[derive(Drop)]
pub struct Buffers {
    zone: BareZone<WORDS>,
    client: ClientNo,
    space: SpaceNo,
    /// The word that is the header of a block.
    first: WordOf<WORDS>,
    calls: u64,
}

impl Buffers {
    /// No buffers, in a zone of this size whose journal is unrecorded.
    pub fn open(alloc: Global, size: ZoneSize) -> Result<Self, Trouble> {
        let client = ClientNo::new(0).ok_or(Trouble::Range)?;
        let space = SpaceNo::new(0).ok_or(Trouble::Range)?;
        let first = WordOf::new(0).ok_or(Trouble::Range)?;
        let number = ZoneNo::new(0).ok_or(Trouble::Range)?;
        Ok(Buffers {
            zone: BareZone::open_sized(alloc, number, size, None)?,
            client,
            space,
            first,
            calls: 0,
        })
    }

    /// Makes a fresh buffer for a block.
    pub fn map(&mut self, block: VPage) -> Result<(), ZoneError> {
        self.count();
        let address = self.address(block);
        let unmovable = false;
        let _mapped = self.zone.map(self.client, address, unmovable)?;
        Ok(())
    }

    /// Gives the buffer of a block up.
    pub fn unmap(&mut self, block: VPage) -> Result<(), ZoneError> {
        self.count();
        let address = self.address(block);
        self.zone.unmap(self.client, address)
    }

    /// Pins the buffer of a block: no round moves it then.
    pub fn pin(&mut self, block: VPage) -> Result<(), ZoneError> {
        self.count();
        let address = self.address(block);
        self.zone.pin(self.client, address)
    }

    /// Takes a pin off the buffer of a block.
    pub fn unpin(&mut self, block: VPage) -> Result<(), ZoneError> {
        self.count();
        let address = self.address(block);
        self.zone.unpin(self.client, address)
    }

    /// Loads a word of a block.
    pub fn load(&mut self, block: VPage, word: WordOf<WORDS>) -> Result<u64, ZoneError> {
        self.count();
        let address = self.address(block);
        self.zone.load(self.client, address, word)
    }

    /// Loads the header of a block.
    pub fn load_header(&mut self, block: VPage) -> Result<u64, ZoneError> {
        self.load(block, self.first)
    }

    /// Stores the header of a block.
    pub fn store_header(&mut self, block: VPage, header: u64) -> Result<(), ZoneError> {
        self.count();
        let address = self.address(block);
        self.zone.store(self.client, address, self.first, header)
    }

    /// Reads all words of a block by one call. Whether they are these.
    pub fn holds(&mut self, block: VPage, content: &[u64; WORDS]) -> Result<bool, ZoneError> {
        self.count();
        let address = self.address(block);
        let mut words = [0; WORDS];
        self.zone
            .read(self.client, address, self.first, &mut words)?;
        Ok(words == *content)
    }

    /// Writes all words of a block by one call.
    pub fn write(&mut self, block: VPage, content: &[u64; WORDS]) -> Result<(), ZoneError> {
        self.count();
        let address = self.address(block);
        self.zone.write(self.client, address, self.first, content)
    }

    /// Where the buffer of a block is.
    pub fn look(&mut self, block: VPage) -> Result<Look, ZoneError> {
        self.count();
        let address = self.address(block);
        self.zone.look(address)
    }

    /// Hands out a large buffer of 2 MiB: the lowest whole pageblock, by its first frame.
    pub fn take_large(&mut self) -> Result<FrameNo, ZoneError> {
        self.count();
        self.zone.take_order(Order::of_pageblock())
    }

    /// Takes a large buffer back.
    pub fn give_large(&mut self, large: FrameNo) -> Result<(), ZoneError> {
        self.count();
        self.zone.give_order(large, Order::of_pageblock())
    }

    /// Runs a round on this thread.
    pub fn compact(&mut self) {
        self.zone.compact();
    }

    /// How many times a buffer was moved so far.
    pub fn moved(&mut self) -> Result<u64, ZoneError> {
        self.count();
        Ok(self.zone.audit()?.moved)
    }

    /// How many records the journal has.
    pub fn records(&self) -> u64 {
        self.zone.journal().len()
    }

    /// How many calls of the zone were made so far, without those of rounds.
    pub fn calls(&self) -> u64 {
        self.calls
    }

    /// The address under which a block is mapped.
    fn address(&self, block: VPage) -> Address {
        Address {
            space: self.space,
            vpage: block,
        }
    }

    fn count(&mut self) {
        self.calls = self.calls.saturating_add(1);
    }
}
