ghost use Rattle.std.specs.Prelude.{◌≡◌, ◌<◌, ◌≤◌};

use crate::keeping::{Keeping, Open};
use hand_core::Stub;
use hand_core::patience::{TRIES, pause};
use std::marker::{Model, PhantomData};
use std::ops::{Deref, DerefMut};
use std::sync::ledger::Ledger;
use std::sync::{Condvar, Mutex, MutexGuard, Wait};
use zone_core::{IsolatedPages, MovedPages, PagesBack, Zone};

/// What is under the lock: a zone, and the stub of its client's receipts where they are kept. Where threads wait for the end of a move,
/// it has how many had ended when the first of them began to wait.
#[derive(Drop)]
pub struct Room<K: Keeping, I: Ledger, M: Ledger, B: Ledger> {
    pub zone: Zone<I, M, B>,
    pub stub: Option<Stub>,
    ended_before: Option<u64>,
    of: PhantomData<K>,
}

impl<K: Keeping, I: Ledger, M: Ledger, B: Ledger> Model for Room<K, I, M, B> {
    ghost use Rattle.std.specs.Prelude.{◌≡◌};
    ghost use Rattle.state_core.specs.ZoneCode.{coded_zone};
    ghost use Rattle.state_core.specs.Valid.{IsValidZone};
    ghost use Rattle.state_core.specs.ZoneState.{ZoneState};
    ghost use Rattle.zone_core.specs.ZoneIdentity.{HasIdentity};

    ghost Value = { ZoneState };

    ghost coded = { coded_zone };

    ghost view = { λ r. r.zone };

    ghost invariant = { λ r. IsValidZone r.zone × HasIdentity K.number K.blocks r.zone × K.keeps r.zone × (K.told r.zone.records ≡ r.stub) };
}

impl<K: Keeping, I: Ledger, M: Ledger, B: Ledger> Room<K, I, M, B> {
    ghost use Rattle.round_core.specs.Kept.{LockInvariant};
    ghost use Rattle.zone_core.specs.ZoneIdentity.{HasIdentity};

    /// The zone, to be read, as whoever takes the lock finds it.
    pub fn zone(&self) -> &Zone<I, M, B>
        ensures zone { result.now ≡ self.now }
        ensures kept { LockInvariant self.now }
        ensures identity { HasIdentity K.number K.blocks self.now }
        ensures keeps { K.keeps self.now }
    {
        &self.zone
    }

    /// Wakes the threads that wait for the end of a move, if one has ended since they began to.
    fn tell_ended(&mut self, ended: &Condvar)
        ensures { self.new ≡ self.old }
    {
        if let Some(before) = self.ended_before
            && before != self.zone.ended()
        {
            self.ended_before = None;
            ended.notify_all();
        }
    }

    /// Notes that a thread waits for the end of a move.
    fn await_end(&mut self)
        ensures { self.new ≡ self.old }
    {
        if self.ended_before.is_none() {
            self.ended_before = Some(self.zone.ended());
        }
    }
}

/// The lock of a zone, as long as it is held, and the zone under it. Whoever waits for the end of a move is woken when a lock is given
/// back under which one has ended.
pub struct ZoneGuard<'a, K: Keeping, I: Ledger, M: Ledger, B: Ledger> {
    room: MutexGuard<'a, Room<K, I, M, B>>,
    ended: &'a Condvar,
}

impl<K: Keeping, I: Ledger, M: Ledger, B: Ledger> Deref for ZoneGuard<'_, K, I, M, B> {
    type Target = Room<K, I, M, B>;

    fn deref(&self) -> &Room<K, I, M, B> {
        &self.room
    }
}

impl<K: Keeping, I: Ledger, M: Ledger, B: Ledger> DerefMut for ZoneGuard<'_, K, I, M, B> {
    fn deref_mut(&mut self) -> &mut Room<K, I, M, B> {
        &mut self.room
    }
}

impl<K: Keeping, I: Ledger, M: Ledger, B: Ledger> Drop for ZoneGuard<'_, K, I, M, B> {
    fn drop(self) {
        let ZoneGuard { mut room, ended } = self;
        room.tell_ended(ended);
    }
}

impl<K: Keeping, I: Ledger, M: Ledger, B: Ledger> ZoneGuard<'_, K, I, M, B> {
    /// Waits, without the lock, until a move has ended. It may return earlier, so the caller has to look again.
    pub fn wait_for_end<R: Wait>(self, rt: &R) -> Self {
        let ZoneGuard { mut room, ended } = self;
        room.tell_ended(ended);
        room.await_end();
        ZoneGuard {
            room: ended.wait(rt, room),
            ended,
        }
    }
}

/// A zone under one lock, which keeps what `K` says of it.
pub struct KeptZone<K: Keeping, I: Ledger, M: Ledger, B: Ledger> {
    room: Mutex<Room<K, I, M, B>>,
    ended: Condvar,
    blocks: u32,
    ghost identity: { blocks ≡ K.blocks },
    ghost in_range: { (0 < blocks) × (blocks ≤ 32768) },
}

// Written out, so that the crates above have nothing to prove of its parts.
impl<K: Keeping, I: Ledger, M: Ledger, B: Ledger> Drop for KeptZone<K, I, M, B> {
    fn drop(self) {
        let KeptZone {
            room: _room,
            ended: _ended,
            blocks: _,
        } = self;
    }
}

/// What is under the lock of a zone that `Z` names.
pub type RoomIn<K, Z> = Room<K, IsolatedPages<Z>, MovedPages<Z>, PagesBack<Z>>;

/// A zone that `Z` names under one lock, which keeps what `K` says of it.
pub type KeptIn<K, Z> = KeptZone<K, IsolatedPages<Z>, MovedPages<Z>, PagesBack<Z>>;

/// A zone that `Z` names under one lock that anyone may use: it keeps nothing but that the zone is valid.
pub type SharedZone<K, Z> = KeptIn<Open<K>, Z>;

impl<K: Keeping, I: Ledger, M: Ledger, B: Ledger> KeptZone<K, I, M, B> {
    ghost use Rattle.std.specs.Prelude.{None};
    ghost use Rattle.round_core.specs.Kept.{LockInvariant};
    ghost use Rattle.zone_core.specs.ZoneIdentity.{HasIdentity};

    /// Puts a zone under a lock. Its number and its pageblocks are those of `K`.
    pub fn new(zone: Zone<I, M, B>) -> Self
        requires identity { HasIdentity K.number K.blocks zone }
        requires keeps { K.keeps zone }
        requires told { K.told zone.records ≡ None }
    {
        Self::with_stub(zone, None)
    }

    /// Puts a zone under a lock, with the stub of its client's receipts where they are kept.
    pub fn with_stub(zone: Zone<I, M, B>, stub: Option<Stub>) -> Self
        requires identity { HasIdentity K.number K.blocks zone }
        requires keeps { K.keeps zone }
        requires told { K.told zone.records ≡ stub }
    {
        let blocks = zone.blocks();
        let room = Room {
            zone,
            stub,
            ended_before: None,
            of: PhantomData,
        };
        KeptZone {
            room: Mutex::new(room),
            ended: Condvar::new(),
            blocks,
        }
    }

    /// Takes the zone out, as the last holder of the lock left it.
    pub fn into_zone(self) -> Zone<I, M, B>
        ensures kept { LockInvariant result }
        ensures identity { HasIdentity K.number K.blocks result }
        ensures keeps { K.keeps result }
    {
        let (zone, _) = self.into_parts();
        zone
    }

    /// Takes the zone out with the stub, as the last holder of the lock left them.
    pub fn into_parts(self) -> (Zone<I, M, B>, Option<Stub>)
        ensures kept { LockInvariant result.0 }
        ensures identity { HasIdentity K.number K.blocks result.0 }
        ensures keeps { K.keeps result.0 }
        ensures told { K.told result.0.records ≡ result.1 }
    {
        let KeptZone {
            room,
            ended: _ended,
            blocks: _,
        } = self;
        let Room { zone, stub, .. } = room.into_inner();
        (zone, stub)
    }

    /// How many pageblocks the zone has, 1 to 32,768.
    pub fn blocks(&self) -> u32
        ensures blocks { result ≡ K.blocks }
        ensures range { (0 < result) × (result ≤ 32768) }
    {
        self.blocks
    }

    /// Waits for the lock, and lends the zone as long as the guard lives. What is known of the zone is what `Room::zone` says.
    pub fn lock<R: Wait>(&self, rt: &R) -> ZoneGuard<'_, K, I, M, B> {
        ZoneGuard {
            room: self.lock_room(rt),
            ended: &self.ended,
        }
    }

    /// Waits for the lock. It tries for a while before it sleeps.
    fn lock_room<R: Wait>(&self, rt: &R) -> MutexGuard<'_, Room<K, I, M, B>> {
        for tries in 0..TRIES {
            if let Some(room) = self.room.try_lock() {
                return room;
            }
            pause(tries);
        }
        self.room.lock(rt)
    }
}
