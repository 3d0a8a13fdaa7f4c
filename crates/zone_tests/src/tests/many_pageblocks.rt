//! Zones of 1, 9, 512 and 4,096 pageblocks without a journal, and what they have at their upper end. What they keep of their frames is
//! what walks find.

ghost use Rattle.std.specs.Prelude.{◌<◌, ◌≤◌};

use super::answers::{Answer, Shown, assert_answer};
use super::calls::{Call, Name, PAGE, told, value_of};
use super::counts::assert_frames;
use super::{address, block, client, frame, order};
use frame_core::ZoneNo;
use std::process::Abort;
use zone_core::{Answered, BareZone, ZoneError};

/// The lowest run of each order beside a page in frame 0.
const LOWEST_RUNS: &[(Call, Answer)] = &[
    (Call::Map(PAGE), Answer::Frame(0)),
    (Call::TakeOrder(3), Answer::Frame(8)),
    (Call::TakeOrder(4), Answer::Frame(16)),
    (Call::TakeOrder(5), Answer::Frame(32)),
    (Call::TakeOrder(6), Answer::Frame(64)),
    (Call::TakeOrder(7), Answer::Frame(128)),
    (Call::TakeOrder(8), Answer::Frame(256)),
];

fn opened(rt: &(impl Abort + AllocGlobal), blocks: u32) -> BareZone<1> {
    let number = ZoneNo::new(3).expect(rt, "a zone");
    BareZone::<1>::open_unrecorded(rt.alloc(), number, blocks).expect(rt, "a zone")
}

pub fn plays(rt: &impl Abort, zone: &mut BareZone<1>, name: &str, rows: &[(Call, Answer)]) {
    for (number, row) in rows.iter().enumerate() {
        let (call, want) = *row;
        let answer = zone.make(client(rt), value_of(rt, call));
        assert_answer(rt, told(call, answer), want, name, number);
    }
}

/// The frame of a page.
pub fn frame_of<const W: usize>(rt: &impl Abort, zone: &BareZone<W>, name: Name) -> u32 {
    match zone.look(address(rt, name)).shown() {
        Answer::At { frame, .. } => frame,
        _ => panic!(rt; "there is no page"),
    }
}

fn uses_the_last_frame(rt: &(impl Abort + AllocGlobal), blocks: u32)
    requires { (0 < blocks) × (blocks ≤ 4096) }
{
    let mut zone = opened(rt, blocks);
    let last = 512 * blocks - 1;
    let rows = [
        (
            Call::MapAt(PAGE, last + 1),
            Answer::Refused(ZoneError::Range),
        ),
        (Call::MapAt(PAGE, last), Answer::Done),
        (Call::Store(PAGE, 0, 7), Answer::Done),
        (Call::Load(PAGE, 0), Answer::Value(7)),
        (Call::Pin(PAGE), Answer::Done),
        (Call::Mark(blocks), Answer::Refused(ZoneError::Range)),
        (Call::Mark(blocks - 1), Answer::Done),
    ];
    plays(rt, &mut zone, "the last frame", &rows);
    assert!(rt; frame_of(rt, &zone, PAGE) == last);
    assert!(rt; zone.marked(block(rt, blocks - 1)) == Some(true));
    assert_frames(rt, zone.frames(), zone.info());
}

/// When all pageblocks are handed out, the last one is given back and has room for a smaller block and a page.
fn hands_out_each_pageblock(rt: &(impl Abort + AllocGlobal), blocks: u32)
    requires { (0 < blocks) × (blocks ≤ 4096) }
{
    let mut zone = opened(rt, blocks);
    for number in 0..blocks {
        assert!(rt; zone.take_order(order(rt, 9)).shown() == Answer::Frame(512 * number));
    }
    let first = 512 * (blocks - 1);
    let rows = [
        (Call::TakeOrder(3), Answer::Refused(ZoneError::NoBlock)),
        (Call::Map(PAGE), Answer::Refused(ZoneError::NoFrame)),
        (Call::GiveOrder(first, 9), Answer::Done),
        (Call::TakeOrder(3), Answer::Frame(first)),
        (Call::Map(PAGE), Answer::Frame(first + 8)),
    ];
    plays(rt, &mut zone, "each pageblock", &rows);
    assert_frames(rt, zone.frames(), zone.info());
}

/// A round moves a page from frame 0 to the last frame and stays quiet, up to an evacuation of the last eight frames, which moves the page to
/// the one below them.
fn moves_a_page(rt: &(impl Abort + AllocGlobal), blocks: u32)
    requires { (0 < blocks) × (blocks ≤ 4096) }
{
    let mut zone = opened(rt, blocks);
    let last = 512 * blocks - 1;
    assert!(rt; zone.map(client(rt), address(rt, PAGE), false).is_ok());
    assert!(rt; zone.compact() == Answered::Met && frame_of(rt, &zone, PAGE) == last);
    assert!(rt; zone.quiet());
    assert!(rt; zone.evacuate(frame(rt, last - 7), order(rt, 3)) == Ok(1));
    assert!(rt; !zone.quiet());
    assert!(rt; frame_of(rt, &zone, PAGE) == last - 8);
    assert_frames(rt, zone.frames(), zone.info());
}

fn tries_zone(rt: &(impl Abort + AllocGlobal), blocks: u32)
    requires { (0 < blocks) × (blocks ≤ 4096) }
{
    uses_the_last_frame(rt, blocks);
    plays(rt, &mut opened(rt, blocks), "the lowest runs", LOWEST_RUNS);
    hands_out_each_pageblock(rt, blocks);
    moves_a_page(rt, blocks);
}

#[test]
fn zones_have_many_pageblocks(rt: HostRuntime) {
    tries_zone(&rt, 1);
    tries_zone(&rt, 9);
    tries_zone(&rt, 512);
    tries_zone(&rt, 4096);
}

#[test]
fn zones_of_other_sizes_are_refused(rt: HostRuntime) {
    let number = ZoneNo::new(3).expect(&rt, "a zone");
    for blocks in [0, 32_769, u32::MAX] {
        let opened = BareZone::<1>::open_unrecorded(rt.alloc(), number, blocks);
        assert!(rt; opened.err() == Some(ZoneError::Range));
    }
    let kept = BareZone::<1>::open(rt.alloc(), number, 9, 64);
    assert!(rt; kept.err() == Some(ZoneError::Range));
}
