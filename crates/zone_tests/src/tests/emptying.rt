//! Runs of frames that are emptied by an evacuation or a reservation, and what is told of free runs, a slice of a round and a moving page.

use super::answers::Answer;
use super::calls::Call;
use super::many_pageblocks::{frame_of, plays};
use super::{address, frame, order};
use frame_core::ZoneNo;
use std::process::Abort;
use zone_core::{BareZone, ZoneError};

/// Of the four runs of 128 frames the first one has three pages, the next one a pinned page, the third one a page, and the last one two.
/// Eight records are of it.
const FOUR_RUNS: &[(Call, Answer)] = &[
    (Call::MapAt((0, 0), 0), Answer::Done),
    (Call::MapAt((0, 1), 1), Answer::Done),
    (Call::MapAt((0, 2), 2), Answer::Done),
    (Call::MapAt((0, 3), 130), Answer::Done),
    (Call::MapAt((0, 4), 300), Answer::Done),
    (Call::MapAt((0, 5), 400), Answer::Done),
    (Call::MapAt((0, 6), 401), Answer::Done),
    (Call::Pin((0, 3)), Answer::Done),
];

const FRAMES: [u32; 7] = [0, 1, 2, 130, 300, 400, 401];

/// How many places the journal has, what the call answers, and the frames of the seven pages then.
struct Row {
    places: u32,
    answer: Result<u32, ZoneError>,
    frames: [u32; 7],
}

/// The last run is evacuated.
const EVACUATIONS: [Row; 2] = [
    Row {
        places: 12,
        answer: Ok(2),
        frames: [0, 1, 2, 130, 300, 383, 382],
    },
    Row {
        places: 11,
        answer: Err(ZoneError::JournalFull),
        frames: FRAMES,
    },
];

/// The first frames of the runs that are reserved. Frame 7 stays where it was written before and the reservation is refused.
const RESERVATIONS: [(&'static [u32], Row); 4] = [
    (
        &[256],
        Row {
            places: 11,
            answer: Ok(1),
            frames: [0, 1, 2, 130, 511, 400, 401],
        },
    ),
    (
        &[256, 384],
        Row {
            places: 64,
            answer: Ok(3),
            frames: [0, 1, 2, 130, 255, 254, 253],
        },
    ),
    (
        &[256, 384, 0],
        Row {
            places: 64,
            answer: Ok(6),
            frames: [255, 254, 253, 130, 252, 251, 250],
        },
    ),
    (
        &[7],
        Row {
            places: 10,
            answer: Err(ZoneError::JournalFull),
            frames: FRAMES,
        },
    ),
];

/// The first frame of the cheapest run of an order, and how many pages it has.
const CHEAPEST_RUNS: [(u32, Option<(u32, u32)>); 4] = [
    (3, Some((8, 0))),
    (7, Some((256, 1))),
    (8, Some((256, 3))),
    (9, None),
];

/// Of four pageblocks the first one has three pages, the next one a pinned page, the third one a page, and the last one two.
const FOUR_PAGEBLOCKS: &[(Call, Answer)] = &[
    (Call::MapAt((0, 0), 0), Answer::Done),
    (Call::MapAt((0, 1), 1), Answer::Done),
    (Call::MapAt((0, 2), 2), Answer::Done),
    (Call::MapAt((0, 3), 600), Answer::Done),
    (Call::MapAt((0, 4), 1100), Answer::Done),
    (Call::MapAt((0, 5), 1600), Answer::Done),
    (Call::MapAt((0, 6), 1601), Answer::Done),
    (Call::Pin((0, 3)), Answer::Done),
];

/// Of the four runs of 128 frames the first one has a page, and the next one a pinned page. The other two are free.
const TWO_FREE_RUNS: &[(Call, Answer)] = &[
    (Call::MapAt((0, 0), 5), Answer::Done),
    (Call::MapAt((0, 1), 130), Answer::Done),
    (Call::Pin((0, 1)), Answer::Done),
];

/// A zone with so many pageblocks, the order of the runs that are reserved in it, their first frames, and how many pages are moved.
struct Picked {
    blocks: u32,
    zone: &'static [(Call, Answer)],
    order: u32,
    firsts: &'static [u32],
    moved: u32,
}

const PICKED: [Picked; 2] = [
    Picked {
        blocks: 4,
        zone: FOUR_PAGEBLOCKS,
        order: 9,
        firsts: &[1024, 1536, 0],
        moved: 6,
    },
    Picked {
        blocks: 1,
        zone: TWO_FREE_RUNS,
        order: 7,
        firsts: &[256, 384, 0],
        moved: 1,
    },
];

fn opened(rt: &(impl Abort + AllocGlobal), blocks: u32, places: u32) -> BareZone<1> {
    let number = ZoneNo::new(3).expect(rt, "a zone");
    BareZone::<1>::open(rt.alloc(), number, blocks, places).expect(rt, "a zone")
}

/// A zone with these four runs.
fn four_runs(rt: &(impl Abort + AllocGlobal), places: u32) -> BareZone<1> {
    let mut zone = opened(rt, 1, places);
    plays(rt, &mut zone, "four runs", FOUR_RUNS);
    zone
}

/// A call on this zone was answered as the row says, and its pages are in those frames.
fn assert_emptied(rt: &impl Abort, zone: &BareZone<1>, row: &Row, answer: Result<u32, ZoneError>) {
    assert!(rt; answer == row.answer);
    for (number, want) in (0..7u32).zip(row.frames.iter()) {
        assert!(rt; frame_of(rt, zone, (0, number)) == *want);
    }
}

#[test]
fn an_evacuation_empties_a_run(rt: HostRuntime) {
    for row in EVACUATIONS.iter() {
        let mut zone = four_runs(&rt, row.places);
        let answer = zone.evacuate(frame(&rt, 384), order(&rt, 7));
        assert_emptied(&rt, &zone, row, answer);
    }
}

#[test]
fn the_cheapest_run_has_the_fewest_pages(rt: HostRuntime) {
    let zone = four_runs(&rt, 64);
    for (number, want) in CHEAPEST_RUNS.iter() {
        let run = zone.cheapest_run(order(&rt, *number));
        assert!(rt; run.map(|run| (run.first.get(), run.pages)) == *want);
    }
}

#[test]
fn a_reservation_empties_the_cheapest_runs(rt: HostRuntime) {
    for (wanted, row) in RESERVATIONS.iter() {
        let mut zone = four_runs(&rt, row.places);
        let mut firsts = vec![in rt.alloc(); frame(&rt, 7); wanted.len()].expect(&rt, "memory");
        let answer = zone.reserve(order(&rt, 7), firsts.as_mut_slice());
        assert_emptied(&rt, &zone, row, answer);
        for (first, want) in firsts.iter().zip(wanted.iter()) {
            assert!(rt; first.get() == *want);
        }
    }
}

/// Higher runs come before lower ones, and one that isn't open lies between them.
#[test]
fn runs_are_picked_in_the_order_of_their_pages(rt: HostRuntime) {
    for row in PICKED.iter() {
        let mut zone = opened(&rt, row.blocks, 64);
        plays(&rt, &mut zone, "runs to pick from", row.zone);
        let mut firsts = vec![in rt.alloc(); frame(&rt, 7); row.firsts.len()].expect(&rt, "memory");
        let answer = zone.reserve(order(&rt, row.order), firsts.as_mut_slice());
        assert!(rt; answer == Ok(row.moved));
        for (first, want) in firsts.iter().zip(row.firsts.iter()) {
            assert!(rt; first.get() == *want);
        }
    }
}

/// Beside a page in frame 0 there is a free run of each order but the largest.
#[test]
fn free_runs_lie_in_no_larger_one(rt: HostRuntime) {
    let mut zone = opened(&rt, 1, 64);
    plays(
        &rt,
        &mut zone,
        "a page",
        &[(Call::Map((0, 0)), Answer::Frame(0))],
    );
    for order in 0..9u32 {
        assert!(rt; zone.free_runs(order) == Some(1));
    }
    assert!(rt; zone.free_runs(9) == Some(0));
}

/// Of two pages one is moved, and the other is isolated and found by the lower one of its addresses.
#[test]
fn a_round_is_made_in_slices(rt: HostRuntime) {
    let rows = [
        (Call::Map((0, 0)), Answer::Frame(0)),
        (Call::Map((0, 1)), Answer::Frame(1)),
        (Call::Share((0, 1), (0, 2)), Answer::Done),
    ];
    let mut zone = opened(&rt, 1, 64);
    plays(&rt, &mut zone, "two pages", &rows);
    zone.begin_round();
    assert!(rt; zone.move_pages(1).moved == 1);
    assert!(rt; frame_of(&rt, &zone, (0, 0)) == 511);
    assert!(rt; zone.isolate_next().is_ok());
    let moving = zone.next_moving(frame(&rt, 1)).expect(&rt, "a moving page");
    assert!(rt; moving.source.get() == 1);
    assert!(rt; moving.address == address(&rt, (0, 1)));
}
