//! Blocks that are kept ready beside clients.

use super::pages::{PAGES, is_clear, use_page};
use super::{Meanwhile, Opening, Pool, Runtime, assert_adds_up, tries};
use frame_core::{FrameNo, Order};
use keeper_thread::{KeeperIdentity, SLICE, STACK_SIZE};
use std::process::Abort;
use std::thread;
use zone_core::BareZone;

const ORDER: u32 = 3;

const FRAMES: u32 = 8;

const WORDS: usize = 64;

/// How many blocks it keeps ready.
const READY: usize = 4;

/// A client uses its pages, again and again.
fn use_pages<K: KeeperIdentity, R: Runtime>(rt: &R, pool: &Pool<K>, who: u32) {
    for turn in 0..50 {
        for page in 0..PAGES {
            use_page(rt, pool, who, page, turn);
        }
    }
}

/// A block is aligned, no page is in it, and each of its words is this.
fn assert_is(rt: &impl Abort, zone: &mut BareZone<8>, first: FrameNo, word: u64) {
    let order = Order::new(ORDER).expect(rt, "an order");
    let mut words = [9; WORDS];
    zone.read_block(first, order, 0, &mut words)
        .expect(rt, "a block");
    assert!(rt; words == [word; WORDS], "the words of a block");
    assert!(rt; first.get() % FRAMES == 0, "a block is aligned");
    assert!(rt; is_clear(rt, zone, first, FRAMES), "no page is in a block");
}

/// Takes a block, which is blank, and fills it. How many pages were moved for it.
fn take_and_fill<K: KeeperIdentity, R: Runtime>(rt: &R, pool: &Pool<K>) -> (FrameNo, u32) {
    let taken = pool.take(rt).expect(rt, "a block");
    let mut room = pool.lock(rt);
    assert_is(rt, room.zone_mut(), taken.first, 0);
    let order = Order::new(ORDER).expect(rt, "an order");
    room.zone_mut()
        .write_block(taken.first, order, 0, &[1; WORDS])
        .expect(rt, "a block");
    (taken.first, taken.pages)
}

/// Gives a block back, which still is as it was filled.
fn give<K: KeeperIdentity, R: Runtime>(rt: &R, pool: &Pool<K>, first: FrameNo) {
    let mut room = pool.lock(rt);
    assert_is(rt, room.zone_mut(), first, 1);
    let order = Order::new(ORDER).expect(rt, "an order");
    room.zone_mut()
        .give_order(first, order)
        .expect(rt, "a block");
}

/// Takes blocks, and gives each back after it took another one. How many pages were moved for those that weren't ready.
fn take_blocks<K: KeeperIdentity, R: Runtime>(rt: &R, pool: &Pool<K>) -> u64 {
    let (mut held, pages) = take_and_fill(rt, pool);
    assert!(rt; pages == 0, "the first block is ready");
    let mut sum = 0u64;
    for _block in 0..50 {
        let (first, pages) = take_and_fill(rt, pool);
        sum = sum.saturating_add(u64::from(pages));
        give(rt, pool, held);
        held = first;
    }
    give(rt, pool, held);
    sum
}

/// Two clients use their pages while blocks are taken. How many pages were moved for blocks that weren't ready.
pub fn use_and_take<K: KeeperIdentity + Send + Sync, R: Runtime>(rt: &R, pool: &Pool<K>) -> u64 {
    let (sum, ((), ())) = thread::join(
        rt,
        || take_blocks(rt, pool),
        || thread::join(rt, || use_pages(rt, pool, 0), || use_pages(rt, pool, 1)),
    );
    sum
}

#[test]
fn blocks_are_kept_ready_beside_clients(rt: HostRuntime) {
    let opening = Opening {
        blocks: 2,
        places: None,
        pages: 2 * PAGES,
        order: ORDER,
        ready: READY,
        stack_size: STACK_SIZE,
    };
    let outcome = tries(&rt, opening, SLICE, Meanwhile::UseAndTake);
    assert_adds_up(&rt, &outcome, u64::from(SLICE));
    assert!(&rt;
        outcome.joined == Some(outcome.work),
        "the thread told what it did"
    );
    assert!(&rt; outcome.work.wakes != 0, "a take wakes the keeper");
    assert!(&rt; outcome.keeper.lacks() == 0, "as many are kept as before");
}
