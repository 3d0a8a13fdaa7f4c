//! A zone behind a pointer, which C keeps.

ghost use Rattle.std.specs.Prelude.{◌≡◌, Option, Some, None};
ghost use Rattle.std.specs.Option.{MatchOption};
ghost use Rattle.state_core.specs.ZoneState.{ZoneState};
ghost use Rattle.compactd_c.specs.Owned.{pool_owns, pool_coded};

mod unboxed;

use crate::zone::Zone;
use std::alloc::Global;
use std::marker::Model;
use std::mem::replace;
use std::ptr::null_mut;
use unboxed::Unboxed;

/// A zone, or none.
#[repr(C)]
pub struct Pool {
    at: *mut u8,
    pub ghost zone: { Option ZoneState } by { pool_coded },
}

impl Model for Pool {
    ghost also_owns = { λ p. pool_owns p.at p.zone };
}

// A pool may go from one thread of C to another.
unsafe impl Send for Pool {}

impl Pool {
    ghost use Rattle.compactd_c.specs.Lent.{LendsZone};
    ghost use types.Logic.{sem};

    /// The zone of an open pool. It stays where it is, and the handle isn't written.
    pub fn zone(&mut self) -> Option<&mut Zone>
        ensures* lends { sem 𝓛 (LendsZone self.entry result) }
        ensures zone { MatchOption result (self.old.zone ≡ None) (λ zone. self.old.zone ≡ Some zone.now) }
    {
        if self.at.is_null() {
            return None;
        }
        unsafe { Some(&mut *(self.at as *mut Zone)) }
    }

    /// Takes the zone out, and leaves the pool closed.
    pub fn take(&mut self, alloc: Global) -> Option<Box<Zone>>
        ensures zone { MatchOption result (self.old.zone ≡ None) (λ zone. self.old.zone ≡ Some zone.value) }
        ensures closed { self.new.zone ≡ None }
    {
        replace(self, Pool::closed()).into_zone(alloc)
    }

    /// Puts a zone into a closed pool.
    pub fn put(&mut self, alloc: Global, zone: Box<Zone>)
        requires { self.old.zone ≡ None }
        ensures { self.new.zone ≡ Some zone.value }
    {
        match replace(self, Pool::holding(Unboxed::of(zone))).into_zone(alloc) {
            None => {}
            Some(_) => unreachable!(),
        }
    }

    fn closed() -> Pool
        ensures { result.zone ≡ None }
    {
        Pool { at: null_mut() }
    }

    fn holding(zone: Unboxed<Zone>) -> Pool
        ensures { result.zone ≡ Some zone.value }
    {
        let Unboxed { at } = zone;
        Pool { at: at as *mut u8 }
    }

    fn into_zone(self, alloc: Global) -> Option<Box<Zone>>
        ensures { MatchOption result (self.zone ≡ None) (λ zone. self.zone ≡ Some zone.value) }
    {
        let Pool { at } = self;
        if at.is_null() {
            return None;
        }
        let zone = unsafe { Box::from_raw(alloc, at as *mut Zone) };
        Some(zone)
    }
}
