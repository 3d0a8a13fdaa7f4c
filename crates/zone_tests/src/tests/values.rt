//! A call that is a value does what the method of its name does, and a client may make it where it names an address.

use super::answers::Answer;
use super::calls::{Call, value_of};
use super::trial::{Case, Size, tries};
use super::world::{CallForm, Row, Step};
use zone_core::{ClientCall, ZoneError};

/// Calls on a zone of one pageblock that was just opened, each with its answer. Each that is accepted has one record, and it names the
/// client.
pub const ROWS: &[Row<'static>] = &[
    (Step::Call(Call::Map((0, 0))), Answer::Frame(0)),
    (Step::Call(Call::MapUnmovable((0, 1))), Answer::Frame(1)),
    (Step::Call(Call::MapAt((1, 0), 7)), Answer::Done),
    (
        Step::Call(Call::MapAt((1, 1), 7)),
        Answer::Refused(ZoneError::NoFrame),
    ),
    (Step::Call(Call::Store((0, 0), 3, 5)), Answer::Done),
    (Step::Call(Call::Load((0, 0), 3)), Answer::Value(5)),
    (Step::Call(Call::Share((0, 0), (2, 0))), Answer::Done),
    (Step::Call(Call::Unmap((0, 0))), Answer::Done),
    (
        Step::Call(Call::Load((0, 0), 3)),
        Answer::Refused(ZoneError::Unmapped),
    ),
    (Step::Call(Call::Pin((2, 0))), Answer::Done),
    (
        Step::Call(Call::Unmap((2, 0))),
        Answer::Refused(ZoneError::Pinned),
    ),
    (Step::Call(Call::Unpin((2, 0))), Answer::Done),
    (Step::Call(Call::TakeOrder(3)), Answer::Frame(8)),
    (Step::Call(Call::GiveOrder(8, 3)), Answer::Done),
    (
        Step::Call(Call::GiveOrder(8, 3)),
        Answer::Refused(ZoneError::NotHuge),
    ),
    (Step::Call(Call::Mark(0)), Answer::Done),
    (
        Step::Call(Call::Mark(0)),
        Answer::Refused(ZoneError::Marked),
    ),
    (Step::Call(Call::Unmark(0)), Answer::Done),
    (
        Step::Call(Call::Unmark(0)),
        Answer::Refused(ZoneError::NotMarked),
    ),
    (Step::Record(4), Answer::Loaded(2, (0, 0), 3, 5)),
    (Step::Journal, Answer::Value(13)),
];

#[test]
fn calls_that_are_values_do_what_the_methods_do(rt: HostRuntime) {
    for (name, form) in [("methods", CallForm::Method), ("values", CallForm::Value)] {
        tries(&rt, &Case::of_world(name, Size::Eight, form, ROWS));
    }
}

#[test]
fn a_client_may_make_calls_that_name_an_address(rt: HostRuntime) {
    for (call, may_make) in [
        (Call::Map((0, 0)), true),
        (Call::Unpin((0, 0)), true),
        (Call::TakeOrder(3), false),
        (Call::GiveOrder(8, 3), false),
        (Call::Mark(0), false),
        (Call::Unmark(0), false),
    ] {
        assert!(rt; ClientCall::new(value_of(&rt, call)).is_some() == may_make);
    }
}
