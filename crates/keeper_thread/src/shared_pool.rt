//! A zone under one lock, with its keeper.

ghost use Rattle.std.specs.Prelude.{◌≡◌, ◌<◌, IfOk, IfErr};
ghost use Rattle.keeper_thread.specs.Taking.{WasRefused, WasTaken};
ghost use Rattle.keeper_thread.specs.Working.{IsWithin};

use crate::guard::{Calling, CallingGuard};
use crate::identity::KeeperIdentity;
use crate::room::Room;
use crate::work::Work;
use keeper_core::{Keeper, Taken};
use std::sync::{Condvar, Mutex, Wait};
use zone_core::{BareZone, ZoneError};

/// A zone under one lock, with its keeper, whose thread makes steps whenever it is woken.
pub struct SharedPool<K: KeeperIdentity, const W: usize> {
    room: Mutex<Room<K, W>>,
    called: Condvar,
}

// Written out, so that the crates above have nothing to prove of its parts.
impl<K: KeeperIdentity, const W: usize> Drop for SharedPool<K, W> {
    fn drop(self) {
        let SharedPool {
            room: _room,
            called: _called,
        } = self;
    }
}

impl<K: KeeperIdentity, const W: usize> SharedPool<K, W> {
    /// Puts a zone under a lock, with a keeper whose steps move at most `most` pages each. `K` has that keeper's order, how many blocks it
    /// keeps ready, and `most`. The keeper is awake.
    pub fn new(zone: BareZone<W>, keeper: Keeper, most: u32) -> Self
        requires keeper { (keeper.order ≡ K.order) × (keeper.ready ≡ K.ready) }
        requires most { (most ≡ K.most) × (0 < most) }
    {
        SharedPool {
            room: Mutex::new(Room::new(zone, keeper, most)),
            called: Condvar::new(),
        }
    }

    /// Waits for the lock, and lends what is under it as long as the guard lives.
    pub fn lock<R: Wait>(&self, rt: &R) -> CallingGuard<'_, Room<K, W>> {
        CallingGuard::new(self.room.lock(rt), &self.called)
    }

    /// Hands out a block, as `Room::take` does, and wakes the keeper.
    ///
    /// Refused as `Keeper::take` is. A refusal changes nothing.
    pub fn take<R: Wait>(&self, rt: &R) -> Result<Taken, ZoneError>
        ensures ok { IfOk result (λ taken. WasTaken K.order taken) }
        ensures refused { IfErr result (λ error. WasRefused K.order error) }
    {
        self.lock(rt).take()
    }

    /// Wakes the keeper.
    pub fn wake<R: Wait>(&self, rt: &R) {
        self.lock(rt).wake();
    }

    /// Tells the keeper's thread to end. It ends after the step that it makes, and one that is started later ends at once.
    pub fn stop<R: Wait>(&self, rt: &R) {
        self.lock(rt).stop();
    }

    /// Takes the zone and the keeper out, as the last holder of the lock left them, with what the keeper's thread did.
    pub fn into_parts(self) -> (BareZone<W>, Keeper, Work)
        ensures keeper { (result.1.order ≡ K.order) × (result.1.ready ≡ K.ready) }
        ensures within { IsWithin K.most result.2 }
    {
        let SharedPool {
            room,
            called: _called,
        } = self;
        room.into_inner().into_parts()
    }

    /// The body of the keeper's thread: it sleeps until the keeper is woken, and then makes a step under each hold of the lock until the
    /// keeper sleeps again. It ends when it is told to, and answers what was done so far.
    pub fn run<R: Wait>(&self, rt: &R) -> Work
        ensures { IsWithin K.most result }
    {
        for _ in rt.forever() {
            let mut room = self
                .called
                .wait_while(rt, self.room.lock(rt), |room| !room.is_calling());
            if room.is_stopping() {
                return room.work();
            }
            // What a refusal says is counted.
            let _ = room.step();
        }
        unreachable!()
    }
}
