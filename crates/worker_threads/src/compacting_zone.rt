//! A zone under one lock, which workers compact.

ghost use Rattle.std.specs.Prelude.{◌≡◌, ◌<◌, ◌≤◌, None, Err, true, false, IfOk, IfErr, OnOk, is_none, replicate};
ghost use Rattle.state_core.specs.Valid.{IsValidZone};
ghost use Rattle.worker_threads.specs.declared.work.Work.TheVariants.{Compact};
ghost use Rattle.zone_core.specs.ZoneIdentity.{HasIdentity};

use crate::SLICE;
use crate::keeping::{Keeping, Open};
use crate::room::{KeptHalf, Room};
use crate::round::Round;
use std::alloc::{AllocError, Global};
use std::sync::{Mutex, MutexGuard, Wait};
use zone_core::{BareZone, ZoneError};

/// A zone in memory of its caller under one lock, which workers compact.
pub struct CompactingZone<K: Keeping, const W: usize> {
    room: Mutex<Room<K, W>>,
    blocks: u32,
    ghost identity: { blocks ≡ K.blocks },
    ghost in_range: { (0 < blocks) × (blocks ≤ 32768) },
}

// Written out, so that the crates above have nothing to prove of its parts.
impl<K: Keeping, const W: usize> Drop for CompactingZone<K, W> {
    fn drop(self) {
        let CompactingZone {
            room: _room,
            blocks: _,
        } = self;
    }
}

/// Such a zone that anyone may use: its lock keeps nothing more than that of every one.
pub type OpenZone<K, const W: usize> = CompactingZone<Open<K>, W>;

impl<K: Keeping, const W: usize> CompactingZone<K, W> {
    /// Puts a zone under a lock, for so many workers, 1 to 64. Its number, its pageblocks and its memory are those of `K`.
    ///
    /// Refused as OwnMemory where the zone lies in memory of its own, else as Memory where there isn't enough. A refusal hands the zone back.
    pub fn new(
        alloc: Global,
        zone: BareZone<W>,
        workers: usize,
    ) -> Result<Self, (ZoneError, BareZone<W>)>
        requires identity { HasIdentity K.number K.blocks zone }
        requires memory { zone.memory ≡ K.memory }
        requires keeps { K.keeps Compact 0 zone }
        requires workers { (0 < workers) × (workers ≤ 64) }
        ensures own { is_none K.memory ≡ true → result ≡ Err (ZoneError.OwnMemory, zone.entry) }
        ensures full { is_none K.memory ≡ false → IfErr result (λ back. back ≡ (ZoneError.Memory, zone.entry)) }
        // A zone that is shared is valid.
        ensures valid { OnOk result (IsValidZone zone.entry) }
    {
        if zone.owns_memory() {
            return Err((ZoneError::OwnMemory, zone));
        }
        let Ok(kept) = free_places(alloc, workers * SLICE) else {
            return Err((ZoneError::Memory, zone));
        };
        let blocks = zone.blocks();
        Ok(CompactingZone {
            room: Mutex::new(Room::new(zone, kept)),
            blocks,
        })
    }

    /// How many pageblocks the zone has, 1 to 32,768.
    pub fn blocks(&self) -> u32
        ensures blocks { result ≡ K.blocks }
        ensures range { (0 < result) × (result ≤ 32768) }
    {
        self.blocks
    }

    /// Waits for the lock, and lends what is under it as long as the guard lives.
    pub fn lock<R: Wait>(&self, rt: &R) -> MutexGuard<'_, Room<K, W>> {
        self.room.lock(rt)
    }

    /// What is under the lock, as its last holder left it.
    pub(crate) fn into_room(self) -> Room<K, W> {
        let CompactingZone { room, blocks: _ } = self;
        room.into_inner()
    }

    /// Takes the zone out, as the last holder of the lock left it, with what the latest round did.
    pub fn into_parts(self) -> (BareZone<W>, Round)
        ensures identity { HasIdentity K.number K.blocks result.0 }
        ensures memory { result.0.memory ≡ K.memory }
    {
        self.into_room().into_parts()
    }
}

/// So many free places.
fn free_places(alloc: Global, count: usize) -> Result<Vec<Option<KeptHalf>>, AllocError>
    ensures { IfOk result (λ kept. kept.items ≡ replicate count None) }
{
    let mut kept = Vec::with_capacity(alloc, count)?;
    for _place in 0..count {
        kept.push_reserved(None);
    }
    Ok(kept)
}
