//! What a zone keeps of its addresses, frames and counts is what walks find.

use super::answers::Answer;
use super::calls::Call;
use super::counts::{assert_counts, assert_pages};
use super::lists::{assert_lists, walked};
use super::trial::{Case, Size, Trial, tries};
use super::values::ROWS;
use super::world::{CallForm, Row, Step};
use std::process::Abort;
use zone_core::{Ended, Opening, ZoneError, ZoneInOf};

const MOVING: Answer = Answer::Refused(ZoneError::Moving);

/// Calls on a zone of one pageblock that was just opened, each with its answer.
const CASES: [(&'static str, &'static [Row<'static>]); 5] = [
    ("calls that are made as values too", ROWS),
    (
        "a page has four addresses at most",
        &[
            (Step::Call(Call::Map((0, 0))), Answer::Frame(0)),
            (Step::Call(Call::Share((0, 0), (1, 9))), Answer::Done),
            (Step::Call(Call::Store((1, 9), 2, 5)), Answer::Done),
            (Step::Call(Call::Load((0, 0), 2)), Answer::Value(5)),
            (Step::Call(Call::Share((0, 0), (2, 0))), Answer::Done),
            (Step::Call(Call::Share((0, 0), (3, 0))), Answer::Done),
            (
                Step::Call(Call::Share((0, 0), (4, 0))),
                Answer::Refused(ZoneError::ShareFull),
            ),
        ],
    ),
    (
        "a page is pinned while it moves",
        &[
            (Step::Call(Call::Map((0, 0))), Answer::Frame(0)),
            (Step::Call(Call::Store((0, 0), 1, 8)), Answer::Done),
            (Step::Scan, Answer::Serial(0)),
            (Step::Call(Call::Load((0, 0), 1)), MOVING),
            (
                Step::Look((0, 0)),
                Answer::Moving {
                    serial: 0,
                    pins: 0,
                    maps: 1,
                },
            ),
            (Step::Take(1), Answer::Serial(0)),
            (Step::Call(Call::Pin((0, 0))), Answer::Done),
            (Step::Copy(1), Answer::Done),
            (Step::Finish(1), Answer::Finished(0, Ended::Back)),
            (Step::Call(Call::Load((0, 0), 1)), Answer::Value(8)),
            (
                Step::Look((0, 0)),
                Answer::At {
                    frame: 0,
                    dirty: true,
                    unmovable: false,
                    pins: 1,
                    maps: 1,
                },
            ),
        ],
    ),
    (
        "pages are taken in order and ended in the other",
        &[
            (Step::Call(Call::Map((0, 0))), Answer::Frame(0)),
            (Step::Call(Call::Map((0, 1))), Answer::Frame(1)),
            (Step::Scan, Answer::Serial(0)),
            (Step::Scan, Answer::Serial(1)),
            (Step::Scan, Answer::Met),
            (Step::Take(1), Answer::Serial(0)),
            (Step::Take(2), Answer::Serial(1)),
            (Step::Take(3), Answer::NotInHand),
            (Step::Copy(2), Answer::Done),
            (Step::Finish(2), Answer::Finished(1, Ended::Moved)),
            (Step::Copy(1), Answer::Done),
            (Step::Finish(1), Answer::Finished(0, Ended::Moved)),
            (Step::Shut, Answer::Value(0)),
        ],
    ),
    (
        "each address of a page moves with it",
        &[
            (Step::Call(Call::Map((0, 0))), Answer::Frame(0)),
            (Step::Call(Call::Share((0, 0), (0, 1))), Answer::Done),
            (Step::Call(Call::Share((0, 0), (0, 2))), Answer::Done),
            (Step::Call(Call::Share((0, 0), (7, 4095))), Answer::Done),
            (Step::Scan, Answer::Serial(0)),
            (Step::Call(Call::Share((0, 0), (0, 3))), MOVING),
            (Step::Call(Call::Load((7, 4095), 0)), MOVING),
            (Step::Call(Call::Unmap((0, 1))), MOVING),
            (Step::Take(1), Answer::Serial(0)),
            (Step::Copy(1), Answer::Done),
            (Step::Finish(1), Answer::Finished(0, Ended::Moved)),
            (Step::Call(Call::Unmap((0, 1))), Answer::Done),
            (
                Step::Look((7, 4095)),
                Answer::At {
                    frame: 511,
                    dirty: false,
                    unmovable: false,
                    pins: 0,
                    maps: 3,
                },
            ),
        ],
    ),
];

/// The lists, counts and sets of a zone are what one walk over all its entries finds.
pub fn assert_kept<const W: usize, Z: Opening>(
    rt: &(impl Abort + AllocGlobal),
    zone: &ZoneInOf<W, Z>,
) {
    let (tables, frames) = (zone.tables(), zone.frames());
    let lists = walked(rt, tables, frames.len());
    assert_lists(rt, tables, frames, &lists);
    assert_pages(rt, zone, &lists);
    assert_counts(rt, frames, zone.journal(), zone.info());
}

#[test]
fn lists_are_what_walks_find(rt: HostRuntime) {
    for (name, rows) in CASES {
        let form = CallForm::MethodBesideWalks;
        tries(&rt, &Case::of_world(name, Size::Eight, form, rows));
    }
}

#[test]
fn drawn_calls_keep_what_walks_find(rt: HostRuntime) {
    tries(&rt, &Case("drawn calls", Size::Eight, Trial::Drawn));
}
