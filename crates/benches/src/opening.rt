//! A zone of eight pageblocks.

ghost use Rattle.std.specs.Prelude.{IfSome};
ghost use Rattle.zone_core.specs.Books.{AreFor};
ghost use Rattle.zone_core.specs.ZoneIdentity.{HasIdentity};

use frame_core::{Address, SpaceNo, VPage, ZoneNo};
use std::alloc::Global;
use zone_core::{Blanks, Opening, Seats, SeatsIn, ZoneIn};

/// Its pageblocks.
pub const BLOCKS: u32 = 8;

/// Its frames.
pub const FRAMES: u32 = 4096;

/// The places of its journal.
pub const PLACES: u32 = 65536;

/// A zone with its seats.
#[derive(Drop)]
pub struct Opened<Z: Opening> {
    pub zone: ZoneIn<Z>,
    pub seats: SeatsIn<Z>,
}

/// Opens zone 0. It has no pages.
pub fn open<Z: Opening>(alloc: Global, blanks: Blanks) -> Option<Opened<Z>>
    requires blanks { AreFor blanks Z.isolated Z.rounds Z.moved Z.back }
    ensures identity { IfSome result (λ opening. HasIdentity 0 8 opening.zone) }
{
    let number = ZoneNo::new(0)?;
    let opened = ZoneIn::<Z>::open(alloc, number, BLOCKS, PLACES, blanks);
    let (zone, scan, ends) = opened.ok()?;
    let seats = Seats { scan, ends };
    Some(Opened { zone, seats })
}

/// The address of a page.
pub fn page(number: u32) -> Option<Address> {
    Some(Address {
        space: SpaceNo::new(0)?,
        vpage: VPage::new(number)?,
    })
}
