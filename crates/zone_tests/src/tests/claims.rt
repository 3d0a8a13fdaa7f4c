//! Runs that are claimed, emptied in steps, and handed out or dropped, and unmovable pages that are mapped apart from the others.

use super::answers::{Answer, Shown, assert_answer};
use super::calls::{Call, Name, told, value_of};
use super::many_pageblocks::frame_of;
use super::{client, frame, order};
use frame_core::ZoneNo;
use std::process::Abort;
use zone_core::{BareZone, ZoneError};

/// A step with a zone. The run is that of the frames 0 to 7.
#[derive(Clone, Copy)]
enum Step {
    Call(Call),
    FrameOf(Name),
    Claim,
    /// Moves at most so many pages out of the run.
    EmptySome(u32),
    /// How many frames of the run are claimed.
    Claimed,
    TakeClaimed,
    DropClaim,
    SetApart(bool),
}

type Row = (Step, Answer);

/// The run has three pages, and five frames that are free.
const THREE_PAGES: &[Row] = &[
    (Step::Call(Call::MapAt((0, 0), 1)), Answer::Done),
    (Step::Call(Call::MapAt((0, 1), 4)), Answer::Done),
    (Step::Call(Call::MapAt((0, 2), 6)), Answer::Done),
    (Step::Call(Call::Store((0, 1), 7, 5)), Answer::Done),
    (Step::Claimed, Answer::Value(0)),
    (Step::Claim, Answer::Value(3)),
    (Step::Claimed, Answer::Value(5)),
];

/// No page comes to a claimed frame, and once the run is empty it is handed out.
const EMPTIED: &[Row] = &[
    (Step::Call(Call::Map((0, 3))), Answer::Frame(8)),
    (
        Step::Call(Call::MapAt((0, 4), 0)),
        Answer::Refused(ZoneError::NoFrame),
    ),
    (Step::Claim, Answer::Refused(ZoneError::NoBlock)),
    (Step::TakeClaimed, Answer::Refused(ZoneError::NoBlock)),
    (Step::EmptySome(2), Answer::Value(2)),
    (Step::FrameOf((0, 0)), Answer::Frame(511)),
    (Step::FrameOf((0, 1)), Answer::Frame(510)),
    (Step::FrameOf((0, 2)), Answer::Frame(6)),
    (Step::Claimed, Answer::Value(7)),
    (Step::EmptySome(2), Answer::Value(1)),
    (Step::FrameOf((0, 2)), Answer::Frame(509)),
    (Step::Claimed, Answer::Value(8)),
    (Step::EmptySome(2), Answer::Value(0)),
    (Step::Call(Call::Load((0, 1), 7)), Answer::Value(5)),
    (Step::TakeClaimed, Answer::Done),
    (Step::Claimed, Answer::Value(0)),
    (
        Step::Call(Call::MapAt((0, 4), 0)),
        Answer::Refused(ZoneError::NoFrame),
    ),
    (Step::Call(Call::GiveOrder(0, 3)), Answer::Done),
    (Step::Call(Call::Map((0, 4))), Answer::Frame(0)),
];

/// A page that is pinned after the claim waits in the run until it is unpinned.
const PINNED: &[Row] = &[
    (Step::Call(Call::Pin((0, 0))), Answer::Done),
    (Step::EmptySome(8), Answer::Value(2)),
    (Step::FrameOf((0, 0)), Answer::Frame(1)),
    (Step::FrameOf((0, 1)), Answer::Frame(511)),
    (Step::FrameOf((0, 2)), Answer::Frame(510)),
    (Step::Claimed, Answer::Value(7)),
    (Step::TakeClaimed, Answer::Refused(ZoneError::NoBlock)),
    (Step::Call(Call::Unpin((0, 0))), Answer::Done),
    (Step::EmptySome(8), Answer::Value(1)),
    (Step::FrameOf((0, 0)), Answer::Frame(509)),
    (Step::Claimed, Answer::Value(8)),
];

/// A page that is unmapped after the claim leaves a frame, and the next step claims it.
const UNMAPPED: &[Row] = &[
    (Step::Call(Call::Unmap((0, 1))), Answer::Done),
    (Step::Claimed, Answer::Value(5)),
    (Step::EmptySome(1), Answer::Value(1)),
    (Step::FrameOf((0, 0)), Answer::Frame(511)),
    (Step::Claimed, Answer::Value(7)),
    (
        Step::Call(Call::MapAt((0, 3), 4)),
        Answer::Refused(ZoneError::NoFrame),
    ),
];

/// After the claim is dropped, pages come to the frames that were claimed.
const DROPPED: &[Row] = &[
    (Step::EmptySome(1), Answer::Value(1)),
    (Step::DropClaim, Answer::Done),
    (Step::Claimed, Answer::Value(0)),
    (Step::Call(Call::Map((0, 3))), Answer::Frame(0)),
    (Step::Call(Call::MapAt((0, 4), 1)), Answer::Done),
    (Step::Claim, Answer::Value(4)),
];

/// Of two pageblocks the second has the unmovable pages, until one is mapped where they aren't kept apart.
const TWO_PAGEBLOCKS: &[Row] = &[
    (Step::SetApart(true), Answer::Done),
    (Step::Call(Call::Map((0, 0))), Answer::Frame(0)),
    (Step::Call(Call::MapUnmovable((0, 1))), Answer::Frame(512)),
    (Step::Call(Call::Map((0, 2))), Answer::Frame(1)),
    (Step::Call(Call::MapUnmovable((0, 3))), Answer::Frame(513)),
    (Step::SetApart(false), Answer::Done),
    (Step::Call(Call::MapUnmovable((0, 4))), Answer::Frame(2)),
    (Step::SetApart(true), Answer::Done),
    (Step::Call(Call::MapUnmovable((0, 5))), Answer::Frame(3)),
    (Step::Call(Call::Map((0, 6))), Answer::Frame(4)),
    (Step::Call(Call::Unmap((0, 4))), Answer::Done),
    (Step::Call(Call::Unmap((0, 5))), Answer::Done),
    (Step::Call(Call::MapUnmovable((0, 7))), Answer::Frame(514)),
    (Step::Call(Call::Map((0, 8))), Answer::Frame(2)),
];

/// A page that isn't unmovable goes to a whole pageblock before it goes beside one that is.
const UNMOVABLE_FIRST: &[Row] = &[
    (Step::SetApart(true), Answer::Done),
    (Step::Call(Call::MapUnmovable((0, 0))), Answer::Frame(0)),
    (Step::Call(Call::Map((0, 1))), Answer::Frame(512)),
    (Step::Call(Call::MapUnmovable((0, 2))), Answer::Frame(1)),
    (Step::Call(Call::Map((0, 3))), Answer::Frame(513)),
];

/// Eight frames are left of one pageblock beside blocks of 504 frames.
const APART: &[Row] = &[
    (Step::Call(Call::TakeOrder(8)), Answer::Frame(0)),
    (Step::Call(Call::TakeOrder(7)), Answer::Frame(256)),
    (Step::Call(Call::TakeOrder(6)), Answer::Frame(384)),
    (Step::Call(Call::TakeOrder(5)), Answer::Frame(448)),
    (Step::Call(Call::TakeOrder(4)), Answer::Frame(480)),
    (Step::Call(Call::TakeOrder(3)), Answer::Frame(496)),
    (Step::SetApart(true), Answer::Done),
    (Step::Call(Call::MapUnmovable((0, 0))), Answer::Frame(504)),
    (Step::Call(Call::Map((0, 1))), Answer::Frame(505)),
    (Step::Call(Call::MapUnmovable((0, 2))), Answer::Frame(506)),
    (Step::Call(Call::Map((0, 3))), Answer::Frame(507)),
    (Step::SetApart(false), Answer::Done),
    (Step::Call(Call::MapUnmovable((0, 4))), Answer::Frame(508)),
    (Step::SetApart(true), Answer::Done),
    (Step::Call(Call::MapUnmovable((0, 5))), Answer::Frame(509)),
    (Step::Call(Call::Map((0, 6))), Answer::Frame(510)),
    (Step::Call(Call::MapUnmovable((0, 7))), Answer::Frame(511)),
    (
        Step::Call(Call::MapUnmovable((0, 8))),
        Answer::Refused(ZoneError::NoFrame),
    ),
    (
        Step::Call(Call::Map((0, 8))),
        Answer::Refused(ZoneError::NoFrame),
    ),
];

fn opened(rt: &(impl Abort + AllocGlobal), blocks: u32) -> BareZone<8> {
    let number = ZoneNo::new(3).expect(rt, "a zone");
    BareZone::<8>::open(rt.alloc(), number, blocks, 64).expect(rt, "a zone")
}

fn answer_of(rt: &impl Abort, zone: &mut BareZone<8>, step: Step) -> Answer {
    let first = frame(rt, 0);
    let order = order(rt, 3);
    match step {
        Step::Call(call) => told(call, zone.make(client(rt), value_of(rt, call))),
        Step::FrameOf(name) => Answer::Frame(frame_of(rt, zone, name)),
        Step::Claim => zone.claim(first, order).shown(),
        Step::EmptySome(most) => zone.empty_some(first, order, most).shown(),
        Step::Claimed => zone
            .claimed_frames(first, order)
            .expect(rt, "a run")
            .shown(),
        Step::TakeClaimed => zone.take_claimed(first, order).shown(),
        Step::DropClaim => zone.drop_claim(first, order).shown(),
        Step::SetApart(apart) => zone.set_apart(apart).shown(),
    }
}

fn plays(rt: &impl Abort, zone: &mut BareZone<8>, name: &str, rows: &[Row]) {
    for (number, row) in rows.iter().enumerate() {
        let (step, want) = *row;
        assert_answer(rt, answer_of(rt, zone, step), want, name, number);
    }
}

#[test]
fn a_claimed_run_is_emptied_in_steps(rt: HostRuntime) {
    let cases = [
        ("an emptied run", EMPTIED),
        ("a pinned page", PINNED),
        ("an unmapped page", UNMAPPED),
        ("a dropped claim", DROPPED),
    ];
    for (name, rows) in cases {
        let mut zone = opened(&rt, 1);
        plays(&rt, &mut zone, "three pages", THREE_PAGES);
        plays(&rt, &mut zone, name, rows);
    }
}

#[test]
fn unmovable_pages_are_mapped_apart(rt: HostRuntime) {
    plays(&rt, &mut opened(&rt, 1), "one pageblock", APART);
    plays(&rt, &mut opened(&rt, 2), "two pageblocks", TWO_PAGEBLOCKS);
    plays(
        &rt,
        &mut opened(&rt, 2),
        "an unmovable page first",
        UNMOVABLE_FIRST,
    );
}
