//! Zones with other numbers of addresses than a script's.

use super::answers::{Answer, assert_answer};
use super::calls::{Call, told, value_of};
use super::client;
use frame_core::ZoneNo;
use std::process::Abort;
use zone_core::{BareZone, ZoneError, ZoneSize};

/// Three spaces of 70,000 virtual pages.
const SIZE: ZoneSize = ZoneSize {
    blocks: 9,
    spaces: 3,
    vpages: 70_000,
};

/// The last address of such a zone, the first of its last space, and three that it hasn't.
const LAST: (u32, u32) = (2, 69_999);

const OTHER: (u32, u32) = (2, 0);

const PAST_THE_SPACE: (u32, u32) = (0, 70_000);

const PAST_THE_SPACES: (u32, u32) = (3, 0);

const HIGHEST: (u32, u32) = (255, 16_777_215);

const ROWS: &[(Call, Answer)] = &[
    (Call::Map(LAST), Answer::Frame(0)),
    (Call::MapAt(OTHER, 4607), Answer::Done),
    (Call::Map(PAST_THE_SPACE), Answer::Refused(ZoneError::Range)),
    (
        Call::Map(PAST_THE_SPACES),
        Answer::Refused(ZoneError::Range),
    ),
    (Call::MapAt(HIGHEST, 1), Answer::Refused(ZoneError::Range)),
    (
        Call::Pin(PAST_THE_SPACES),
        Answer::Refused(ZoneError::Unmapped),
    ),
    (Call::Unmap(HIGHEST), Answer::Refused(ZoneError::Unmapped)),
    (
        Call::Share(LAST, PAST_THE_SPACE),
        Answer::Refused(ZoneError::Range),
    ),
    (
        Call::Share(PAST_THE_SPACE, (1, 0)),
        Answer::Refused(ZoneError::Unmapped),
    ),
    (Call::Share(LAST, (1, 0)), Answer::Done),
    (Call::Store((1, 0), 0, 7), Answer::Done),
    (
        Call::Load(PAST_THE_SPACE, 0),
        Answer::Refused(ZoneError::Unmapped),
    ),
    (Call::Load(LAST, 0), Answer::Value(7)),
    (Call::Load(OTHER, 0), Answer::Value(0)),
    (Call::Unmap(LAST), Answer::Done),
    (Call::Load(LAST, 0), Answer::Refused(ZoneError::Unmapped)),
    (Call::Load((1, 0), 0), Answer::Value(7)),
];

fn number(rt: &impl Abort) -> ZoneNo {
    ZoneNo::new(3).expect(rt, "a zone")
}

fn plays(rt: &(impl Abort + AllocGlobal), name: &str, places: Option<u32>) {
    let mut zone = BareZone::<1>::open_sized(rt.alloc(), number(rt), SIZE, places).expect(rt, name);
    assert!(rt; zone.size() == SIZE);
    for (number, row) in ROWS.iter().enumerate() {
        let (call, want) = *row;
        let answer = zone.make(client(rt), value_of(rt, call));
        assert_answer(rt, told(call, answer), want, name, number);
    }
}

#[test]
fn zones_have_the_addresses_that_they_are_opened_with(rt: HostRuntime) {
    plays(&rt, "no journal", None);
    plays(&rt, "a journal", Some(9));
}

fn is_refused(rt: &(impl Abort + AllocGlobal), size: ZoneSize, places: Option<u32>) -> bool {
    let opened = BareZone::<1>::open_sized(rt.alloc(), number(rt), size, places);
    opened.err() == Some(ZoneError::Range)
}

#[test]
fn sizes_out_of_range_are_refused(rt: HostRuntime) {
    for blocks in [0, 32_769] {
        assert!(rt; is_refused(&rt, ZoneSize { blocks, ..SIZE }, None));
    }
    for spaces in [0, 257] {
        assert!(rt; is_refused(&rt, ZoneSize { spaces, ..SIZE }, None));
    }
    for vpages in [0, 16_777_217, u32::MAX] {
        assert!(rt; is_refused(&rt, ZoneSize { vpages, ..SIZE }, None));
    }
    let too_many = ZoneSize {
        blocks: 1,
        spaces: 256,
        vpages: 262_145,
    };
    assert!(rt; is_refused(&rt, too_many, None));
    for places in [0, 65_537] {
        assert!(rt; is_refused(&rt, SIZE, Some(places)));
    }
}
