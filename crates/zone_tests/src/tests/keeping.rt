//! Blocks that are kept ready, beside calls with the same zone.

use super::answers::{Answer, assert_answer};
use super::calls::{Call, Name, told, value_of};
use super::many_pageblocks::frame_of;
use super::{client, order};
use frame_core::ZoneNo;
use keeper_core::{Keeper, Step};
use std::process::Abort;
use zone_core::{BareZone, ZoneError};

/// What a keeper answers, with plain numbers: the first frame of a run, and how many pages.
#[derive(Clone, Copy, PartialEq, Eq)]
enum Kept {
    Emptied(u32, u32),
    Claimed(u32, u32),
    Rested,
    Taken(u32, u32),
    Refused(ZoneError),
}

#[derive(Clone, Copy)]
enum Row {
    Call(Call, Answer),
    FrameOf(Name, u32),
    /// A step of so many pages at most.
    Step(u32, Kept),
    Take(Kept),
}

/// Two runs of 8 frames are left, of which one has two pages and the other one has one.
const TWO_RUNS: &[Row] = &[
    Row::Call(Call::TakeOrder(8), Answer::Frame(0)),
    Row::Call(Call::TakeOrder(7), Answer::Frame(256)),
    Row::Call(Call::TakeOrder(6), Answer::Frame(384)),
    Row::Call(Call::TakeOrder(5), Answer::Frame(448)),
    Row::Call(Call::TakeOrder(4), Answer::Frame(480)),
    Row::Call(Call::MapAt((0, 0), 497), Answer::Done),
    Row::Call(Call::MapAt((0, 1), 498), Answer::Done),
    Row::Call(Call::MapAt((0, 2), 505), Answer::Done),
    Row::Call(Call::Store((0, 2), 7, 5), Answer::Done),
];

/// The cheaper run is claimed and emptied, and no page comes there. It is handed out, and the other one is claimed.
const KEPT: &[Row] = &[
    Row::Step(1, Kept::Claimed(504, 1)),
    Row::Call(Call::Map((0, 3)), Answer::Frame(496)),
    Row::Step(1, Kept::Emptied(504, 1)),
    Row::FrameOf((0, 2), 503),
    Row::Step(1, Kept::Rested),
    Row::Take(Kept::Taken(504, 0)),
    Row::Step(1, Kept::Claimed(496, 4)),
    // Its pages have nowhere to go.
    Row::Step(1, Kept::Rested),
    Row::Take(Kept::Refused(ZoneError::NoBlock)),
    Row::Call(Call::GiveOrder(504, 3), Answer::Done),
    Row::Step(2, Kept::Emptied(496, 2)),
    Row::FrameOf((0, 3), 511),
    Row::FrameOf((0, 0), 510),
    // A page that is pinned waits.
    Row::Call(Call::Pin((0, 1)), Answer::Done),
    Row::Step(2, Kept::Emptied(496, 1)),
    Row::FrameOf((0, 2), 509),
    Row::Step(2, Kept::Rested),
    Row::Call(Call::Unpin((0, 1)), Answer::Done),
    Row::Step(2, Kept::Emptied(496, 1)),
    Row::FrameOf((0, 1), 508),
    Row::Call(Call::Load((0, 2), 7), Answer::Value(5)),
    Row::Take(Kept::Taken(496, 0)),
    Row::Step(2, Kept::Claimed(504, 4)),
];

/// A page of a claimed run that is unmapped leaves a frame, which the next step claims, though no page moves.
const UNMAPPED: &[Row] = &[
    Row::Step(1, Kept::Claimed(504, 1)),
    Row::Call(Call::Unmap((0, 2)), Answer::Done),
    Row::Step(1, Kept::Emptied(504, 0)),
    Row::Step(1, Kept::Rested),
    Row::Take(Kept::Taken(504, 0)),
];

/// Where no block is ready, the cheapest run that is open is emptied and handed out. That which was claimed isn't.
const NOT_READY: &[Row] = &[
    Row::Step(1, Kept::Claimed(504, 1)),
    Row::Take(Kept::Refused(ZoneError::NoBlock)),
    Row::Call(Call::GiveOrder(480, 4), Answer::Done),
    Row::Take(Kept::Taken(480, 0)),
    Row::Take(Kept::Taken(488, 0)),
    Row::Step(1, Kept::Emptied(504, 1)),
    Row::Take(Kept::Taken(504, 0)),
];

fn opened(rt: &(impl Abort + AllocGlobal)) -> BareZone<8> {
    let number = ZoneNo::new(3).expect(rt, "a zone");
    BareZone::<8>::open(rt.alloc(), number, 1, 64).expect(rt, "a zone")
}

fn step(keeper: &mut Keeper, zone: &mut BareZone<8>, most: u32) -> Kept {
    match keeper.step(zone, most) {
        Ok(step) => shown(step),
        Err(error) => Kept::Refused(error),
    }
}

fn shown(step: Step) -> Kept {
    match step {
        Step::Emptied { first, pages } => Kept::Emptied(first.get(), pages),
        Step::Claimed { first, pages } => Kept::Claimed(first.get(), pages),
        Step::Rested => Kept::Rested,
    }
}

fn take(keeper: &mut Keeper, zone: &mut BareZone<8>) -> Kept {
    match keeper.take(zone) {
        Ok(taken) => Kept::Taken(taken.first.get(), taken.pages),
        Err(error) => Kept::Refused(error),
    }
}

fn assert_kept(rt: &impl Abort, kept: Kept, want: Kept, name: &str, number: usize) {
    assert!(rt; kept == want, "{name}, step {number}");
}

fn plays(rt: &impl Abort, keeper: &mut Keeper, zone: &mut BareZone<8>, name: &str, rows: &[Row]) {
    for (number, row) in rows.iter().enumerate() {
        match *row {
            Row::Call(call, want) => {
                let answer = told(call, zone.make(client(rt), value_of(rt, call)));
                assert_answer(rt, answer, want, name, number);
            }
            Row::FrameOf(page, want) => {
                assert!(rt; frame_of(rt, zone, page) == want, "{name}, step {number}");
            }
            Row::Step(most, want) => assert_kept(rt, step(keeper, zone, most), want, name, number),
            Row::Take(want) => assert_kept(rt, take(keeper, zone), want, name, number),
        }
    }
}

#[test]
fn a_block_is_kept_ready(rt: HostRuntime) {
    let cases = [
        ("kept", KEPT),
        ("an unmapped page", UNMAPPED),
        ("not ready", NOT_READY),
    ];
    for (name, rows) in cases {
        let mut zone = opened(&rt);
        let mut keeper = Keeper::open(rt.alloc(), order(&rt, 3), 1).expect(&rt, "a keeper");
        plays(&rt, &mut keeper, &mut zone, "two runs", TWO_RUNS);
        plays(&rt, &mut keeper, &mut zone, name, rows);
        keeper.close(&mut zone);
        assert!(rt;
            zone.info().held % 8 == 0,
            "{name}: the claims of it were dropped"
        );
    }
}

/// A keeper of two blocks claims two runs, and no third one.
#[test]
fn as_many_blocks_are_kept_as_it_wants(rt: HostRuntime) {
    let mut zone = opened(&rt);
    let mut keeper = Keeper::open(rt.alloc(), order(&rt, 9), 2).expect(&rt, "a keeper");
    assert!(rt; keeper.lacks() == 2, "two are wanted");
    assert!(rt;
        step(&mut keeper, &mut zone, 32) == Kept::Claimed(0, 0),
        "the one pageblock"
    );
    assert!(rt;
        step(&mut keeper, &mut zone, 32) == Kept::Rested,
        "no other is open"
    );
    assert!(rt;
        keeper.lacks() == 1 && keeper.claims().len() == 1,
        "one is lacking"
    );
    keeper.close(&mut zone);
    assert!(rt; zone.info().free == 512, "all frames are free again");
}
