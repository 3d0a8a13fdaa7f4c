//! Pages that are moved by hand, by the calls of a zone and of its two seats.

use super::answers::Answer;
use super::calls::{Call, PAGE};
use super::trial::{Case, Size, tries};
use super::zone::{Part, Step};
use zone_core::{Ended, ZoneError};

/// A page moves with eight different words. A copy with another last word is handed back, and the seat doesn't count it.
const MOVES_ITS_WORDS: &[Part<'static>] = &[Part {
    times: 1,
    rows: &[
        (
            Step::Write(0, &[21, u64::MAX, 1, 2, 3, 5, 8, 13]),
            Answer::Done,
        ),
        (Step::Isolate, Answer::Page),
        (Step::SetWord(7, 14), Answer::Value(13)),
        (Step::Commit, Answer::Stranger),
        (Step::SetWord(7, 13), Answer::Value(14)),
        (Step::Commit, Answer::Finished(0, Ended::Moved)),
        (Step::Call(Call::Load(PAGE, 0)), Answer::Value(21)),
        (Step::Call(Call::Load(PAGE, 1)), Answer::Value(u64::MAX)),
        (Step::Call(Call::Load(PAGE, 2)), Answer::Value(1)),
        (Step::Call(Call::Load(PAGE, 3)), Answer::Value(2)),
        (Step::Call(Call::Load(PAGE, 4)), Answer::Value(3)),
        (Step::Call(Call::Load(PAGE, 5)), Answer::Value(5)),
        (Step::Call(Call::Load(PAGE, 6)), Answer::Value(8)),
        (Step::Call(Call::Load(PAGE, 7)), Answer::Value(13)),
        (Step::Audit, Answer::Audited(1, 1, 0)),
    ],
}];

/// A round on one thread moves three pages to the highest frames, each with its word. The next one stops after a page, since the journal
/// is full.
const RUNS_A_ROUND: &[Part<'static>] = &[Part {
    times: 1,
    rows: &[
        (Step::Call(Call::Map((0, 1))), Answer::Frame(1)),
        (Step::Call(Call::Map((0, 2))), Answer::Frame(2)),
        (Step::Call(Call::Store(PAGE, 1, 5)), Answer::Done),
        (Step::Call(Call::Store((0, 1), 2, 6)), Answer::Done),
        (Step::Call(Call::Store((0, 2), 3, 7)), Answer::Done),
        (Step::Compact, Answer::Met),
        (Step::Audit, Answer::Audited(3, 3, 0)),
        (Step::Call(Call::Load(PAGE, 1)), Answer::Value(5)),
        (Step::Call(Call::Load((0, 1), 2)), Answer::Value(6)),
        (Step::Call(Call::Load((0, 2), 3)), Answer::Value(7)),
        (Step::Call(Call::Unmap((0, 2))), Answer::Done),
        (Step::Call(Call::MapAt((0, 2), 509)), Answer::Done),
        (Step::Call(Call::Map((0, 3))), Answer::Frame(0)),
        (Step::Call(Call::Map((0, 4))), Answer::Frame(1)),
        (Step::Compact, Answer::Refused(ZoneError::JournalFull)),
        (Step::Audit, Answer::Audited(4, 4, 0)),
    ],
}];

/// Pages of another zone, under another serial or with another number are strangers, and so is the page once it has ended. It is one under
/// this serial when it moves again.
const REFUSES_STRANGERS: &[Part<'static>] = &[Part {
    times: 1,
    rows: &[
        (Step::Isolate, Answer::Page),
        (Step::Audit, Answer::Refused(ZoneError::Out)),
        (Step::Stranger(2, 0, 0), Answer::Stranger),
        (Step::Stranger(3, 0, 1), Answer::Stranger),
        (Step::Stranger(3, 1, 0), Answer::Stranger),
        (Step::Stranger(3, 4095, 0), Answer::Stranger),
        (Step::PutBack, Answer::Done),
        (Step::Stranger(3, 0, 0), Answer::Stranger),
        (Step::Audit, Answer::Audited(1, 0, 1)),
        (Step::Isolate, Answer::Page),
        (Step::Stranger(3, 0, 0), Answer::Stranger),
        (Step::PutBack, Answer::Done),
        (Step::Audit, Answer::Audited(2, 0, 2)),
    ],
}];

/// An unmovable page stays. A page that gets its number is moved again after it was put back.
const TAKES_A_NUMBER_AGAIN: &[Part<'static>] = &[Part {
    times: 1,
    rows: &[
        (Step::Call(Call::Unmap(PAGE)), Answer::Done),
        (Step::Call(Call::MapUnmovable(PAGE)), Answer::Frame(0)),
        (Step::Isolate, Answer::Met),
        (Step::Call(Call::Unmap(PAGE)), Answer::Done),
        (Step::Call(Call::Map(PAGE)), Answer::Frame(0)),
        (Step::Isolate, Answer::Page),
        (Step::PutBack, Answer::Done),
        (Step::Isolate, Answer::Page),
        (Step::PutBack, Answer::Done),
    ],
}];

/// An end seat is split into 64 parts, each of which counts. The audit is refused while one is missing.
const SPLITS_ITS_SEAT: &[Part<'static>] = &[
    Part {
        times: 63,
        rows: &[(Step::Split, Answer::Done)],
    },
    Part {
        times: 1,
        rows: &[
            (Step::Split, Answer::NoPart),
            (Step::Isolate, Answer::Page),
            (Step::Swap, Answer::Done),
            (Step::PutBack, Answer::Done),
            (Step::Swap, Answer::Done),
        ],
    },
    Part {
        times: 62,
        rows: &[(Step::Join, Answer::Done)],
    },
    Part {
        times: 1,
        rows: &[
            (Step::Audit, Answer::Refused(ZoneError::Missing)),
            (Step::Join, Answer::Done),
            (Step::Audit, Answer::Audited(1, 0, 1)),
        ],
    },
];

/// The largest journal has room for 32,767 moves after the page's map, and then for a load.
const FILLS_ITS_JOURNAL: &[Part<'static>] = &[
    Part {
        times: 32767,
        rows: &[(Step::Isolate, Answer::Page), (Step::PutBack, Answer::Done)],
    },
    Part {
        times: 1,
        rows: &[
            (Step::Isolate, Answer::Refused(ZoneError::JournalFull)),
            (Step::Call(Call::Load(PAGE, 0)), Answer::Value(0)),
            (
                Step::Call(Call::Load(PAGE, 0)),
                Answer::Refused(ZoneError::JournalFull),
            ),
            (Step::Journal, Answer::Value(65536)),
        ],
    },
];

/// A round that began with a page that may be moved is quiet, after a load too, up to a mark or a pin. A page has 255 pins at most.
const TAKES_PINS: &[Part<'static>] = &[
    Part {
        times: 1,
        rows: &[
            (Step::Quiet, Answer::Is(false)),
            (Step::Round, Answer::Done),
            (Step::Quiet, Answer::Is(true)),
            (Step::Call(Call::Load(PAGE, 0)), Answer::Value(0)),
            (Step::Quiet, Answer::Is(true)),
            (Step::Call(Call::Mark(0)), Answer::Done),
            (Step::Quiet, Answer::Is(false)),
            (Step::Call(Call::Unmark(0)), Answer::Done),
            (Step::Round, Answer::Done),
            (Step::Quiet, Answer::Is(true)),
        ],
    },
    Part {
        times: 255,
        rows: &[
            (Step::Call(Call::Pin(PAGE)), Answer::Done),
            (Step::Quiet, Answer::Is(false)),
        ],
    },
    Part {
        times: 1,
        rows: &[(
            Step::Call(Call::Pin(PAGE)),
            Answer::Refused(ZoneError::PinFull),
        )],
    },
];

#[test]
fn moves_are_made_and_ended(rt: HostRuntime) {
    for (name, places, parts) in [
        ("a page moves with its words", 64, MOVES_ITS_WORDS),
        ("a round on one thread", 21, RUNS_A_ROUND),
        ("strangers are refused", 64, REFUSES_STRANGERS),
        ("a number is used again", 64, TAKES_A_NUMBER_AGAIN),
        ("a seat is split", 4, SPLITS_ITS_SEAT),
        ("a journal is filled", 65536, FILLS_ITS_JOURNAL),
        ("a page takes pins", 512, TAKES_PINS),
    ] {
        tries(&rt, &Case::of_zone(name, Size::Eight, places, parts));
    }
}
