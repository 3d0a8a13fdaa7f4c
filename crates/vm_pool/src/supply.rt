//! Where a host gets the blocks that its guests ask for.

use crate::WORDS;
use anyhow::Result;
use keeper_core::{Keeper, Step};
use std::alloc::{AllocError, Global};
use zone_core::{BareZone, FrameNo, Order, ZoneError};

/// How many blocks a keeper has ready.
const READY: usize = 2;

/// The pages that one step of a keeper moves at most.
const PAGES_OF_A_STEP: u32 = 32;

/// The most steps between two requests. A keeper rests before: for a block it takes one step to claim a run and at most sixteen to empty it.
const STEPS: u32 = 64;

/// A way to get blocks.
#[derive(Drop)]
pub enum Supply {
    /// A block is handed out only where one is free. No page is moved for it.
    Free,
    /// The pages of the cheapest run are moved away when a block is asked for.
    Reserved,
    /// They were moved away before.
    Kept(Keeper),
}

impl Supply {
    /// A keeper's supply, in a zone where it has claimed no run yet.
    pub fn kept(alloc: Global) -> Result<Self, AllocError> {
        let keeper = Keeper::open(alloc, Order::of_pageblock(), READY)?;
        Ok(Supply::Kept(keeper))
    }

    /// Hands out a block, by its first frame.
    pub fn take(&mut self, zone: &mut BareZone<WORDS>) -> Result<FrameNo, ZoneError> {
        match self {
            Supply::Free => zone.take_order(Order::of_pageblock()),
            Supply::Reserved => reserve(zone),
            Supply::Kept(keeper) => Ok(keeper.take(zone)?.first),
        }
    }

    /// Does what can be done now for the requests to come: a keeper makes steps until it rests.
    pub fn prepare(&mut self, zone: &mut BareZone<WORDS>) -> Result<(), ZoneError> {
        let Supply::Kept(keeper) = self else {
            return Ok(());
        };
        for _step in 0..STEPS {
            if keeper.step(zone, PAGES_OF_A_STEP)? == Step::Rested {
                return Ok(());
            }
        }
        Ok(())
    }
}

/// Reserves one block.
fn reserve(zone: &mut BareZone<WORDS>) -> Result<FrameNo, ZoneError> {
    let mut firsts = [FrameNo::in_any_zone(0).ok_or(ZoneError::Range)?];
    let _moved = zone.reserve(Order::of_pageblock(), &mut firsts)?;
    Ok(firsts[0])
}
