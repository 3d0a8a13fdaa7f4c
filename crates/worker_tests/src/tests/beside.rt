//! Clients beside workers.

use super::crews::{Meanwhile, with_workers};
use super::pages::{address, assert_ends, client, first_word, frame_of, opened};
use super::{Runtime, Shared, TURNS, Trial, adds_up, tries};
use std::collections::VecDeque;
use std::sync::{Mutex, Wait};
use std::thread;
use std::thread::yield_now;
use worker_threads::{Crew, MemoryIdentity, Runs, Stop};
use zone_core::{FrameNo, Order, ZoneAnswer, ZoneCallOf, ZoneError};

/// How many pages each of the four clients has.
const PAGES: u32 = 64;

/// How often each client uses each of its pages: together they make a million calls.
const TIMES: u64 = 1_450;

/// Clients use their pages while a crew works.
pub fn use_beside<K: MemoryIdentity + Send + Sync, R: Runtime>(
    rt: &R,
    shared: &Shared<K>,
    meanwhile: Meanwhile,
) {
    with_workers(rt, shared, &Crew::new(), meanwhile);
}

/// The rounds of a crew while four clients use their pages.
pub fn use_and_compact<K: MemoryIdentity + Send + Sync, R: Runtime>(
    rt: &R,
    shared: &Shared<K>,
    crew: &Crew,
) {
    let at_work = &Mutex::new(4u32);
    let (moved, ((), ())) = thread::join(
        rt,
        || make_rounds(rt, shared, crew, at_work),
        || {
            thread::join(
                rt,
                || use_both(rt, shared, 0, at_work),
                || use_both(rt, shared, 2, at_work),
            )
        },
    );
    assert!(rt; moved != 0, "pages were moved beside the clients");
}

/// A crew empties runs, again and again, while two clients use their pages.
pub fn use_and_empty<K: MemoryIdentity + Send + Sync, R: Runtime>(
    rt: &R,
    shared: &Shared<K>,
    crew: &Crew,
) {
    let at_work = &Mutex::new(2u32);
    let (moved, ()) = thread::join(
        rt,
        || empty_again(rt, shared, crew),
        || use_both(rt, shared, 0, at_work),
    );
    assert!(rt; moved != 0, "pages were moved beside the clients");
}

/// Empties runs each time that the first client has used its pages fifty times more. How many pages went out of them.
fn empty_again<K: MemoryIdentity, R: Runtime>(rt: &R, shared: &Shared<K>, crew: &Crew) -> u64 {
    let (mut emptied, mut moved) = (0u64, 0u64);
    for _turn in 0..TURNS {
        if emptied == 24 {
            return moved;
        }
        if times_used(rt, shared) / 50 > emptied {
            let runs = runs_in_use(rt, shared);
            let done = crew.empty(rt, shared, runs).ok().expect(rt, "the work");
            assert!(rt; adds_up(done) && done.stopped == Some(Stop::NoneLeft));
            moved = moved.saturating_add(done.moved);
            emptied = emptied.wrapping_add(1);
        }
        yield_now();
    }
    panic!(rt; "the first client doesn't go on")
}

/// How often the first client has used a page that it never unmaps, as the word in it says.
fn times_used<K: MemoryIdentity, R: Runtime>(rt: &R, shared: &Shared<K>) -> u64 {
    let (address, word) = (address(rt, place_of(0, 2)), first_word(rt));
    let load = ZoneCallOf::Load { address, word };
    match shared.lock(rt).make(client(rt, 2), load) {
        Ok(ZoneAnswer::Value(value)) => value / 256,
        _ => 0,
    }
}

/// Runs of 16 frames in which four pages are, of both clients.
fn runs_in_use<K: MemoryIdentity, R: Runtime>(rt: &R, shared: &Shared<K>) -> Runs {
    let room = shared.lock(rt);
    let mut left = VecDeque::new(rt.alloc());
    for (who, page) in [(0, 2), (1, 18), (0, 34), (1, 50)] {
        let number = frame_of(rt, room.zone(), place_of(who, page)) / 16 * 16;
        let first = FrameNo::in_any_zone(number).expect(rt, "the page is there");
        left.push_back(first).ok().expect(rt, "memory");
    }
    Runs::new(Order::new(4).expect(rt, "an order"), left)
}

/// This client and the next one use their pages.
fn use_both<K: MemoryIdentity + Send + Sync, R: Runtime>(
    rt: &R,
    shared: &Shared<K>,
    first: u32,
    at_work: &Mutex<u32>,
) {
    thread::join(
        rt,
        || use_pages(rt, shared, first, at_work),
        || use_pages(rt, shared, first.wrapping_add(1), at_work),
    );
}

/// Rounds one after the other, as long as clients are at work. How many pages they moved.
fn make_rounds<K: MemoryIdentity, R: Runtime>(
    rt: &R,
    shared: &Shared<K>,
    crew: &Crew,
    at_work: &Mutex<u32>,
) -> u64 {
    let mut moved = 0u64;
    for _round in 0..TURNS {
        if *at_work.lock(rt) == 0 {
            return moved;
        }
        let round = crew.compact(rt, shared).ok().expect(rt, "a round");
        assert!(rt; adds_up(round) && round.stopped == Some(Stop::Met));
        moved = moved.saturating_add(round.moved);
    }
    panic!(rt; "the clients don't end")
}

/// A client uses its pages, again and again.
fn use_pages<K: MemoryIdentity, R: Runtime>(
    rt: &R,
    shared: &Shared<K>,
    who: u32,
    at_work: &Mutex<u32>,
) {
    for page in 0..PAGES {
        map(rt, shared, who, place_of(who, page));
    }
    for time in 0..TIMES {
        for page in 0..PAGES {
            use_page(rt, shared, who, page, time);
        }
    }
    let mut at_work = at_work.lock(rt);
    *at_work = at_work.wrapping_sub(1);
}

/// A client finds in a page what it stored there last, and stores something else.
fn use_page<K: MemoryIdentity, R: Runtime>(
    rt: &R,
    shared: &Shared<K>,
    who: u32,
    page: u32,
    time: u64,
) {
    let place = place_of(who, page);
    let before = time.wrapping_mul(256).wrapping_add(u64::from(place));
    let (address, word) = (address(rt, place), first_word(rt));
    if time != 0 {
        let loaded = call(rt, shared, who, &ZoneCallOf::Load { address, word });
        assert!(rt; loaded == ZoneAnswer::Value(before), "a word is lost");
    }
    change(rt, shared, who, place, time);
    store(rt, shared, who, place, before.wrapping_add(256));
}

/// Each client has every fourth place.
fn place_of(who: u32, page: u32) -> u32 {
    page.wrapping_mul(4).wrapping_add(who)
}

fn store<K: MemoryIdentity, R: Runtime>(
    rt: &R,
    shared: &Shared<K>,
    who: u32,
    place: u32,
    value: u64,
) {
    let (address, word) = (address(rt, place), first_word(rt));
    let stores = ZoneCallOf::Store {
        address,
        word,
        value,
    };
    call(rt, shared, who, &stores);
}

fn map<K: MemoryIdentity, R: Runtime>(rt: &R, shared: &Shared<K>, who: u32, place: u32) {
    let address = address(rt, place);
    let unmovable = false;
    call(rt, shared, who, &ZoneCallOf::Map { address, unmovable });
}

/// Every fourth page is pinned in every second turn, and every fourth is mapped anew.
fn change<K: MemoryIdentity, R: Runtime>(
    rt: &R,
    shared: &Shared<K>,
    who: u32,
    place: u32,
    time: u64,
) {
    let address = address(rt, place);
    match place / 4 % 4 {
        0 if time % 2 == 0 => {
            call(rt, shared, who, &ZoneCallOf::Pin { address });
        }
        0 => {
            call(rt, shared, who, &ZoneCallOf::Unpin { address });
        }
        1 => {
            call(rt, shared, who, &ZoneCallOf::Unmap { address });
            map(rt, shared, who, place);
        }
        _ => {}
    }
}

/// Makes a call until the page isn't moving. Nothing else is a reason to refuse it.
fn call<K: MemoryIdentity, R: Runtime>(
    rt: &R,
    shared: &Shared<K>,
    who: u32,
    call: &ZoneCallOf<8>,
) -> ZoneAnswer {
    for _turn in 0..TURNS {
        let made = shared.lock(rt).make(client(rt, who), *call);
        match made {
            Ok(answer) => return answer,
            Err(error) => assert!(rt; error == ZoneError::Moving, "it is refused"),
        }
        yield_now();
    }
    panic!(rt; "the page moves for ever")
}

#[test]
fn clients_find_what_they_stored_beside_workers(rt: HostRuntime) {
    let zone = tries(&rt, opened::<8, HostRuntime>(&rt, None), Trial::IsUsed);
    assert!(&rt; zone.info().pages == 4 * PAGES && zone.info().moving == 0);
    assert_ends(&rt, zone);
}

#[test]
fn clients_find_what_they_stored_while_runs_are_emptied(rt: HostRuntime) {
    let zone = opened::<8, HostRuntime>(&rt, None);
    let zone = tries(&rt, zone, Trial::IsUsedAndEmptied);
    assert!(&rt; zone.info().pages == 2 * PAGES && zone.info().moving == 0);
    assert!(&rt; zone.info().held != 0, "frames of the runs are claimed");
    assert_ends(&rt, zone);
}
