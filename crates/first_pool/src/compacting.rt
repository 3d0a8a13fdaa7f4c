ghost use Rattle.zone_core.specs.Books.{AreFor};

use crate::numbers::{address, client, frame, word, zone_number};
use anyhow::Result;
use bitflags::Flags;
use round_core::{NoGate, compact_alone};
use std::alloc::Global;
use std::sync::Wait;
use std::thread::Threads;
use zone_core::{Address, Blanks, BlockNo, FrameNo, Opening, PageFlags, Seats, SeatsIn, ZoneIn};

/// Opens a zone with a journal of 1,000 places. `Z` names this opening: no seat of another one fits the zone.
fn open<Z: Opening>(
    alloc: Global,
    pageblocks: u32,
    blanks: Blanks,
) -> Result<(ZoneIn<Z>, SeatsIn<Z>)>
    requires blanks { AreFor blanks Z.isolated Z.rounds Z.moved Z.back }
{
    let opened = ZoneIn::<Z>::open(alloc, zone_number(0)?, pageblocks, 1000, blanks);
    let (zone, scan, ends) = opened?;
    Ok((zone, Seats { scan, ends }))
}

/// What was seen of the zone.
#[derive(Clone, Copy)]
pub struct Seen {
    /// The whole pageblocks before the round and after it.
    pub before: u32,
    pub after: u32,
    /// The pages that the round moved.
    pub moved: u64,
    /// The word that was stored before the round, loaded after it.
    pub loaded: u64,
    /// The pageblock that was handed out.
    pub huge: u32,
}

/// Maps a page in each of two pageblocks, and stores 7 in a word of the lower one. The answer is the number of whole pageblocks.
fn map_two_pages<Z: Opening>(zone: &mut ZoneIn<Z>) -> Result<u32> {
    map_page(zone, address(0, 10)?, frame(0)?)?;
    map_page(zone, address(0, 11)?, frame(512)?)?;
    zone.store(client(0)?, address(0, 10)?, word(3)?, 7)?;
    Ok(zone.info().whole)
}

/// Maps a fresh page in a frame.
fn map_page<Z: Opening>(zone: &mut ZoneIn<Z>, address: Address, frame: FrameNo) -> Result<()> {
    zone.map_at(client(0)?, address, PageFlags::empty(), frame)?;
    Ok(())
}

/// Brings two pages together in one pageblock, by a round of two copiers, and takes the other pageblock.
pub fn compact_two_pages<Z: Opening + Send + Sync, R: Threads + Wait + Sync>(
    rt: &R,
    alloc: Global,
    blanks: Blanks,
) -> Result<Seen>
    requires blanks { AreFor blanks Z.isolated Z.rounds Z.moved Z.back }
{
    let (mut zone, mut seats) = open::<Z>(alloc, 2, blanks)?;
    let before = map_two_pages(&mut zone)?;
    let (mut zone, round) = compact_alone(rt, alloc, zone, &mut seats, 2, 8, &NoGate);
    let moved = round?.moved;
    see(&mut zone, before, moved)
}

/// What is seen of the zone after the round.
fn see<Z: Opening>(zone: &mut ZoneIn<Z>, before: u32, moved: u64) -> Result<Seen> {
    let after = zone.info().whole;
    let (loaded, huge) = take_pageblock(zone)?;
    Ok(Seen {
        before,
        after,
        moved,
        loaded,
        huge: huge.get(),
    })
}

/// Loads the word that was stored, and takes the lowest whole pageblock.
fn take_pageblock<Z: Opening>(zone: &mut ZoneIn<Z>) -> Result<(u64, BlockNo)> {
    let loaded = zone.load(client(0)?, address(0, 10)?, word(3)?)?;
    Ok((loaded, zone.take_huge()?))
}
