//! The whole pageblocks that are asked for beside the cache.

use crate::cache::Cache;
use crate::trouble::Trouble;
use zone_core::{FrameNo, Order, ZoneError};

/// How many frames the cache leaves free when a pageblock is asked for: one in eight more than a pageblock has.
const ROOM: u32 = 576;

/// When rounds of compaction are run.
#[derive(Clone, Copy)]
pub enum Rounds {
    Never,
    /// Where no pageblock is whole.
    AsNeeded,
}

impl Cache {
    /// Evicts objects to make room for a pageblock, hands one out, and tells its first frame. None where no pageblock is whole then.
    pub fn take_pageblock(&mut self, rounds: Rounds) -> Result<Option<FrameNo>, Trouble> {
        self.make_room(ROOM)?;
        if matches!(rounds, Rounds::AsNeeded) {
            self.make_whole();
        }
        match self.zone.take_order(Order::of_pageblock()) {
            Ok(first) => Ok(Some(first)),
            Err(ZoneError::NoBlock) => Ok(None),
            Err(error) => Err(Trouble::Zone(error)),
        }
    }

    /// Runs a round where no pageblock is whole.
    fn make_whole(&mut self) {
        if self.zone.info().whole == 0 {
            self.zone.compact();
        }
    }

    /// Takes a pageblock back that was handed out.
    pub fn give_pageblock(&mut self, first: FrameNo) -> Result<(), Trouble> {
        self.zone.give_order(first, Order::of_pageblock())?;
        Ok(())
    }

    /// How many pages rounds have moved.
    pub fn moves(&mut self) -> Result<u64, Trouble> {
        Ok(self.zone.audit()?.moved)
    }
}
