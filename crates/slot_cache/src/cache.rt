//! The cache: objects that are requested, put in, evicted and pinned.

ghost use Rattle.std.specs.Prelude.{◌≡◌, IfOk, IfSome};
ghost use Rattle.slot_cache.specs.Object.{object_of};

use crate::clock::Clock;
use crate::keys::{KEYS, address_of};
use crate::object::{Object, length_of, object_of};
use crate::trouble::Trouble;
use std::alloc::Global;
use zone_core::{BareZone, ClientNo, WordNo, ZoneError, ZoneNo};

const BLOCKS: u32 = 8;

/// How many objects are pinned at once, at most.
const PINNED: u32 = 2;

/// A cache in a zone: each object that is there stands in a slot, a page of its own, whose address tells the key of the object.
#[derive(Drop)]
pub struct Cache {
    pub(crate) zone: BareZone<8>,
    clock: Clock,
    client: ClientNo,
    first: WordNo,
    pub hits: u32,
    pub evictions: u32,
}

impl Cache {
    /// A cache with no object, over a zone whose journal takes no memory.
    pub fn open(alloc: Global) -> Result<Self, Trouble> {
        let number = ZoneNo::new(0).ok_or(Trouble::Range)?;
        let client = ClientNo::new(0).ok_or(Trouble::Range)?;
        let first = WordNo::new(0).ok_or(Trouble::Range)?;
        let clock = Clock::new(alloc)?;
        Ok(Cache {
            zone: BareZone::open_unrecorded(alloc, number, BLOCKS)?,
            clock,
            client,
            first,
            hits: 0,
            evictions: 0,
        })
    }

    /// Uses the object of a key. It is put in if it isn't there.
    pub fn request(&mut self, key: u32) -> Result<(), Trouble> {
        if self.find(key)?.is_some() {
            self.hits = self.hits.saturating_add(1);
        } else {
            self.put(key)?;
        }
        self.clock.note_use(key);
        Ok(())
    }

    /// The object of a key, where it is in the cache.
    ///
    /// Refused as Changed where another one stands in its slot.
    pub fn find(&mut self, key: u32) -> Result<Option<Object>, Trouble>
        ensures own { IfOk result (λ found. IfSome found (λ object. object ≡ object_of key)) }
    {
        let mut object = [0; 8];
        match self
            .zone
            .read(self.client, address_of(key)?, self.first, &mut object)
        {
            Ok(()) if object == object_of(key) => Ok(Some(object)),
            Ok(()) => Err(Trouble::Changed),
            Err(ZoneError::Unmapped) => Ok(None),
            Err(error) => Err(Trouble::Zone(error)),
        }
    }

    /// Puts the object of a key in, as many words as it has. Where there is no room, another one is evicted.
    fn put(&mut self, key: u32) -> Result<(), Trouble> {
        self.make_room(1)?;
        let (address, object) = (address_of(key)?, object_of(key));
        let unmovable = false;
        self.zone.map(self.client, address, unmovable)?;
        let words = &object[..length_of(key)];
        self.zone.write(self.client, address, self.first, words)?;
        Ok(())
    }

    /// Evicts objects until so many frames are free.
    pub fn make_room(&mut self, frames: u32) -> Result<(), Trouble> {
        for _frame in self.zone.info().free..frames {
            self.evict()?;
        }
        Ok(())
    }

    /// Evicts an object that wasn't used lately. Those that are pinned stay.
    fn evict(&mut self) -> Result<(), Trouble> {
        for _passed in 0..=PINNED {
            if self.evict_next()? {
                return Ok(());
            }
        }
        Err(Trouble::Stuck)
    }

    /// Evicts the next object that wasn't used lately. False where it is pinned.
    fn evict_next(&mut self) -> Result<bool, Trouble> {
        let key = self.clock.next_unused().ok_or(Trouble::Stuck)?;
        match self.zone.unmap(self.client, address_of(key)?) {
            Ok(()) => {
                self.clock.note_eviction(key);
                self.evictions = self.evictions.saturating_add(1);
                Ok(true)
            }
            Err(ZoneError::Pinned) => Ok(false),
            Err(error) => Err(Trouble::Zone(error)),
        }
    }

    /// Pins the object of a key: it stays where it is.
    pub fn pin(&mut self, key: u32) -> Result<(), Trouble> {
        self.zone.pin(self.client, address_of(key)?)?;
        Ok(())
    }

    /// Takes a pin off the object of a key.
    pub fn unpin(&mut self, key: u32) -> Result<(), Trouble> {
        self.zone.unpin(self.client, address_of(key)?)?;
        Ok(())
    }

    /// How many objects are in the cache.
    pub fn count(&mut self) -> Result<u32, Trouble> {
        let mut count = 0u32;
        for key in 0..KEYS {
            count = count.saturating_add(u32::from(self.find(key)?.is_some()));
        }
        Ok(count)
    }
}
