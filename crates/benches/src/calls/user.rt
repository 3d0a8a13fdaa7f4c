ghost use Rattle.std.specs.Prelude.{◌≤◌};

use crate::opening::{PLACES, page};
use frame_core::{Address, ClientNo, WordOf, ZoneNo};
use std::alloc::Global;
use zone_core::BareZone;

/// The stores that a kept journal has places for, besides the map of their page.
const KEPT_STORES: u32 = PLACES - 1;

/// The pages of 512 words that it has places for.
const KEPT_WRITES: u32 = 127;

/// What becomes of the records of a zone's journal.
#[derive(Clone, Copy)]
pub enum Journal {
    Unrecorded,
    Kept,
}

/// A zone, and who stores to a word of its one page and loads it.
#[derive(Drop)]
pub struct User<const W: usize> {
    zone: BareZone<W>,
    client: ClientNo,
    address: Address,
    word: WordOf<W>,
}

impl<const W: usize> User<W> {
    /// Opens a zone of this many pageblocks and maps the page. The word is the first.
    pub fn open(alloc: Global, journal: Journal, blocks: u32) -> Option<User<W>>
        requires { W ≤ 65536 }
    {
        let mut user = User {
            client: ClientNo::new(0)?,
            address: page(0)?,
            word: WordOf::new(0)?,
            zone: journal.open(alloc, blocks)?,
        };
        let unmovable = false;
        let mapped = user.zone.map(user.client, user.address, unmovable);
        mapped.is_ok().then_some(user)
    }

    /// Stores as many values as a kept journal has places for, one after the other. How many were accepted.
    pub fn store_all(&mut self) -> u32 {
        let mut stored = 0u32;
        for value in 0..KEPT_STORES {
            let value = u64::from(value);
            let call = self.zone.store(self.client, self.address, self.word, value);
            stored = stored.saturating_add(u32::from(call.is_ok()));
        }
        stored
    }

    /// Writes all words of the page, again and again. How many words were accepted.
    pub fn write_all(&mut self) -> u32
        requires { W ≤ 65536 }
    {
        let values = [5; W];
        let mut written = 0u32;
        for _write in 0..KEPT_WRITES {
            let call = self
                .zone
                .write(self.client, self.address, self.word, &values);
            written = written.saturating_add(u32::from(call.is_ok()));
        }
        written.saturating_mul(W as u32)
    }

    /// Stores this number of values and loads each. How many loads gave what was stored.
    pub fn use_all(&mut self, values: u32) -> u32 {
        let mut same = 0u32;
        for value in 0..values {
            same = same.saturating_add(u32::from(self.keeps(u64::from(value))));
        }
        same
    }

    /// Whether a load gives the value that was just stored.
    fn keeps(&mut self, value: u64) -> bool {
        let User {
            zone,
            client,
            address,
            word,
        } = self;
        zone.store(*client, *address, *word, value).is_ok()
            && zone.load(*client, *address, *word) == Ok(value)
    }
}

impl Journal {
    fn open<const W: usize>(self, alloc: Global, blocks: u32) -> Option<BareZone<W>>
        requires { W ≤ 65536 }
    {
        let number = ZoneNo::new(0)?;
        let opened = match self {
            Journal::Unrecorded => BareZone::open_unrecorded(alloc, number, blocks),
            Journal::Kept => BareZone::open(alloc, number, blocks, PLACES),
        };
        opened.ok()
    }
}
