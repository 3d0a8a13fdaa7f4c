//! A page that is pinned while a worker copies it.

use super::pages::{PAGES, address, assert_ends, assert_kept, client, frame_of, thinned};
use super::{Runtime, Shared, TURNS, Trial, adds_up, tries};
use std::process::Abort;
use std::sync::{Mutex, Wait};
use std::thread;
use std::thread::yield_now;
use worker_threads::{Gate, MemoryIdentity, Open, Room, compact};
use zone_core::{Look, ZoneAnswer, ZoneCallOf};

/// Keeps each worker from copying its pages until another thread has made a call under the lock.
#[derive(Drop)]
struct Waits<'a, R: Wait + Abort> {
    rt: &'a R,
    is_pinned: &'a Mutex<bool>,
}

impl<R: Wait + Abort + Sync> Gate for Waits<'_, R> {
    fn copies(&self, _worker: usize, _pages: usize) {
        for _turn in 0..TURNS {
            if *self.is_pinned.lock(self.rt) {
                return;
            }
            yield_now();
        }
        panic!(self.rt; "the lock isn't free while pages are copied")
    }
}

/// A page that is pinned between its isolation and its copy stays where it was, and no other does.
pub fn pin_while_copied<K: MemoryIdentity + Send + Sync, R: Runtime>(rt: &R, shared: &Shared<K>) {
    let is_pinned = &Mutex::new(false);
    let gate = &Waits { rt, is_pinned };
    let (round, page) = thread::join(
        rt,
        || compact(rt, rt.alloc(), shared, 2, gate),
        || pin_one(rt, shared, is_pinned),
    );
    let round = round.ok().expect(rt, "a round");
    assert!(rt; adds_up(round) && round.back == 1, "one is put back");
    // Before the round each page had the frame of its number.
    assert!(rt;
        frame_of(rt, shared.lock(rt).zone(), page) == page,
        "it stays"
    );
}

/// Pins a moving page, once there is one.
fn pin_one<K: MemoryIdentity, R: Runtime>(
    rt: &R,
    shared: &Shared<K>,
    is_pinned: &Mutex<bool>,
) -> u32 {
    for _turn in 0..TURNS {
        let pinned = try_pin(rt, &mut shared.lock(rt));
        if let Some(page) = pinned {
            *is_pinned.lock(rt) = true;
            return page;
        }
        yield_now();
    }
    panic!(rt; "no page moves")
}

/// Pins the first moving page, if there is one.
fn try_pin<K: MemoryIdentity>(rt: &impl Abort, room: &mut Room<Open<K>, 8>) -> Option<u32> {
    for page in 0..PAGES {
        let look = room.zone().look(address(rt, page));
        if matches!(&look, Ok(Look::Moving { .. })) {
            let address = address(rt, page);
            let made = room.make(client(rt, 0), ZoneCallOf::Pin { address });
            assert!(rt; made == Ok(ZoneAnswer::Done), "a moving page can be pinned");
            return Some(page);
        }
    }
    None
}

#[test]
fn a_page_is_put_back_that_is_pinned_while_it_is_copied(rt: HostRuntime) {
    let mut zone = tries(&rt, thinned::<8, HostRuntime>(&rt, None), Trial::Pins);
    assert_kept(&rt, &mut zone, 1);
    assert_ends(&rt, zone);
}
