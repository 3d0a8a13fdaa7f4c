//! The work of the zone alone, on one thread and without queues.

ghost use Rattle.zone_core.specs.Books.{AreFor};

use crate::opening::{Opened, open, page};
use crate::times::{Times, nanos_since};
use bitflags::Flags;
use frame_core::{ClientNo, PageFlags};
use std::alloc::Global;
use std::io;
use std::time::{Clock, Instant};
use zone_core::{Blanks, Ended, Next, Opening, SeatsIn, ZoneIn};

/// As many pages as half of the zone has frames.
const PAGES: u32 = 2048;

/// A zone whose lower half is full.
pub fn half_full<Z: Opening>(alloc: Global, blanks: Blanks) -> Option<Opened<Z>>
    requires blanks { AreFor blanks Z.isolated Z.rounds Z.moved Z.back }
{
    let mut opening = open::<Z>(alloc, blanks)?;
    map_pages(&mut opening.zone)?;
    Some(opening)
}

/// Maps a page to each frame of the lower half.
fn map_pages<Z: Opening>(zone: &mut ZoneIn<Z>) -> Option<()> {
    let client = ClientNo::new(0)?;
    for number in 0..PAGES {
        let _frame = zone.map(client, page(number)?, PageFlags::empty()).ok()?;
    }
    Some(())
}

/// How long it takes to move what can be moved.
pub fn time_moves<Z: Opening, R: Clock>(
    rt: &R,
    zone: &mut ZoneIn<Z>,
    seats: &mut SeatsIn<Z>,
) -> io::Result<Times> {
    let start = Instant::now(rt)?;
    let pages = move_all(zone, seats);
    Ok(Times::of(pages, nanos_since(rt, &start)?))
}

/// Moves what can be moved. How many pages that were.
fn move_all<Z: Opening>(zone: &mut ZoneIn<Z>, seats: &mut SeatsIn<Z>) -> u64 {
    let mut moved = 0u64;
    zone.begin_round(&mut seats.scan);
    for _frame in 0..4096 {
        if !move_next(zone, seats) {
            break;
        }
        moved = moved.saturating_add(1);
    }
    moved
}

/// Moves the next page, if there is one.
fn move_next<Z: Opening>(zone: &mut ZoneIn<Z>, seats: &mut SeatsIn<Z>) -> bool {
    let Ok(Next::Page(page)) = zone.isolate_next(&mut seats.scan) else {
        return false;
    };
    let copy = page.copy_into_new();
    matches!(zone.commit(&mut seats.ends, copy), Ok(Ended::Moved))
}
