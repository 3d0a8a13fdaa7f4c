//! A zone in memory of its caller: the words of its blocks and pages are lent, written through their row, and come back.

ghost use Rattle.std.specs.Prelude.{◌≡◌};

use super::{address, client, order, word};
use frame_core::{Address, ClientNo, FrameNo, Order, ZoneNo};
use row_core::{Ground, Row};
use std::process::Abort;
use zone_core::{BareZone, ZoneError, ZoneSize};

/// The words of a pageblock whose pages have 8.
pub(super) const WORDS: usize = 512 * 8;

/// A row of memory whose words aren't 0.
#[tactic(auto, using(row_core::proofs::Lists::part_here))]
pub(super) fn memory(rt: &(impl Abort + AllocGlobal), words: usize) -> Row {
    let mut ground = Ground::open(rt.alloc(), words).expect(rt, "memory");
    let mut row = ground.lend(0, words);
    row.words_mut().fill(7);
    row
}

/// A zone of so many pageblocks in this memory.
pub(super) fn open_in(
    rt: &(impl Abort + AllocGlobal),
    blocks: u32,
    memory: Row,
) -> Result<BareZone<8>, (ZoneError, Row)> {
    let number = ZoneNo::new(3).expect(rt, "a zone");
    let size = ZoneSize::of_blocks(blocks);
    BareZone::open_in(rt.alloc(), number, size, None, memory, false)
}

/// While the words of a block are lent, no call reads or writes them, and the block isn't taken back.
fn assert_lent(rt: &impl Abort, zone: &mut BareZone<8>, first: FrameNo, order: Order)
    ensures { zone.new ≡ zone.old }
{
    assert!(rt; !zone.lends_none());
    let mut words = [0; 2];
    let refused = Err(ZoneError::Lent);
    assert!(rt; zone.read_block(first, order, 0, &mut words) == refused);
    assert!(rt; zone.write_block(first, order, 0, &words) == refused);
    assert!(rt; zone.give_order(first, order) == refused);
    assert!(rt; zone.lend_block(first, order).err() == Some(ZoneError::Lent));
}

/// A block of 64 words is lent and comes back with what was left in it.
fn lend_one(rt: &impl Abort, zone: &mut BareZone<8>) {
    let order = order(rt, 3);
    let first = zone.take_order(order).expect(rt, "a block");
    let mut row = zone.lend_block(first, order).expect(rt, "its words");
    assert!(rt; row.words().iter().all(|word| *word == 0));
    assert!(rt; row.len() == 64);
    assert_lent(rt, zone, first, order);
    row.words_mut().fill(9);
    assert!(rt; zone.take_block_back(first, order, row).is_ok());
    assert!(rt; zone.lends_none());
    let mut words = [0; 64];
    assert!(rt; zone.read_block(first, order, 0, &mut words).is_ok());
    assert!(rt; words == [9; 64]);
    assert!(rt; zone.give_order(first, order).is_ok());
}

/// While the words of a page are lent, no call reads or writes them, and the page keeps its only pin and its address.
fn assert_page_lent(rt: &impl Abort, zone: &mut BareZone<8>, client: ClientNo, address: &Address)
    ensures { zone.new ≡ zone.old }
{
    assert!(rt; !zone.lends_none());
    let from = word(rt, 0);
    let mut words = [0; 2];
    let refused = Err(ZoneError::Lent);
    assert!(rt; zone.load(client, *address, from).err() == Some(ZoneError::Lent));
    assert!(rt; zone.store(client, *address, from, 1) == refused);
    assert!(rt; zone.read(client, *address, from, &mut words) == refused);
    assert!(rt; zone.write(client, *address, from, &words) == refused);
    assert!(rt; zone.unpin(client, *address) == refused);
    assert!(rt; zone.unmap(client, *address) == Err(ZoneError::Pinned));
    assert!(rt; zone.lend_page(*address).err() == Some(ZoneError::Lent));
}

/// A page with a pin is lent and comes back with what was left in it.
fn lend_page(rt: &impl Abort, zone: &mut BareZone<8>, client: ClientNo, address: &Address) {
    let stored = [1, 2, 3, 4, 5, 6, 7, 8];
    assert!(rt; zone.map(client, *address, false).is_ok());
    assert!(rt; zone.write(client, *address, word(rt, 0), &stored).is_ok());
    assert!(rt; zone.lend_page(*address).err() == Some(ZoneError::NotPinned));
    assert!(rt; zone.pin(client, *address).is_ok());
    let mut row = zone.lend_page(*address).expect(rt, "its words");
    assert!(rt; row.words() == stored.as_slice());
    assert_page_lent(rt, zone, client, address);
    row.words_mut().fill(9);
    assert!(rt; zone.take_page_back(client, *address, row).is_ok());
    assert!(rt; zone.lends_none());
    assert!(rt; zone.load(client, *address, word(rt, 3)) == Ok(9));
    assert!(rt; zone.unpin(client, *address).is_ok());
}

#[test]
fn a_zone_lends_the_words_of_a_block(rt: HostRuntime) {
    match open_in(&rt, 1, memory(&rt, WORDS)) {
        Ok(mut zone) => lend_one(&rt, &mut zone),
        Err(_) => panic!(&rt; "no zone"),
    }
}

#[test]
fn a_zone_lends_the_words_of_a_page(rt: HostRuntime) {
    match open_in(&rt, 1, memory(&rt, WORDS)) {
        Ok(mut zone) => lend_page(&rt, &mut zone, client(&rt), &address(&rt, (0, 9))),
        Err(_) => panic!(&rt; "no zone"),
    }
}

#[test]
fn memory_of_another_size_is_refused(rt: HostRuntime) {
    match open_in(&rt, 2, memory(&rt, WORDS)) {
        Ok(_) => panic!(&rt; "a zone"),
        Err((error, row)) => {
            assert!(&rt; error == ZoneError::Range);
            assert!(&rt; row.words().iter().all(|word| *word == 7));
        }
    }
}

#[test]
fn memory_of_its_own_is_not_lent(rt: HostRuntime) {
    let number = ZoneNo::new(3).expect(&rt, "a zone");
    let mut zone = BareZone::<8>::open(rt.alloc(), number, 1, 64).expect(&rt, "a zone");
    let order = order(&rt, 3);
    let first = zone.take_order(order).expect(&rt, "a block");
    assert!(&rt; zone.owns_memory());
    assert!(&rt; zone.lend_block(first, order).err() == Some(ZoneError::OwnMemory));
    assert!(&rt; zone.lend_move().err() == Some(ZoneError::OwnMemory));
    assert!(&rt; zone.give_order(first, order).is_ok());
}
