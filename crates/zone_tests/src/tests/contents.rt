//! The words of blocks that are handed out.

use super::answers::Answer;
use super::calls::{Call, PAGE};
use super::trial::{Case, Size, tries};
use super::zone::{Block, Part, Step};
use zone_core::{Ended, ZoneError};

/// The lowest block of order 3 beside a page in frame 0. It has 64 words.
const BLOCK: Block = (8, 3);

/// The block after it.
const NEXT: Block = (16, 3);

/// A fresh block is zeros, and what is written in it stays while a page is stored to and moved and another is mapped. Once the block
/// is given back, a page that is mapped there is zeros, and so is the block when it is handed out anew.
const KEEPS_A_BLOCK: &[Part<'static>] = &[Part {
    times: 1,
    rows: &[
        (Step::Call(Call::TakeOrder(3)), Answer::Frame(8)),
        (Step::ReadBlock(BLOCK, 0, &[0; 64]), Answer::Done),
        (Step::WriteBlock(BLOCK, 0, &[7; 40]), Answer::Done),
        (Step::WriteBlock(BLOCK, 40, &[9; 24]), Answer::Done),
        (Step::Call(Call::Store(PAGE, 7, 5)), Answer::Done),
        (Step::Isolate, Answer::Page),
        (Step::Commit, Answer::Finished(0, Ended::Moved)),
        (Step::Call(Call::Map((7, 10))), Answer::Frame(0)),
        (Step::ReadBlock(BLOCK, 0, &[7; 40]), Answer::Done),
        (Step::ReadBlock(BLOCK, 40, &[9; 24]), Answer::Done),
        (Step::Call(Call::GiveOrder(8, 3)), Answer::Done),
        (Step::Call(Call::Unmap(PAGE)), Answer::Done),
        (Step::Call(Call::MapAt(PAGE, 8)), Answer::Done),
        (Step::Read(0, &[0; 8]), Answer::Done),
        (Step::Call(Call::Unmap(PAGE)), Answer::Done),
        (Step::Call(Call::TakeOrder(3)), Answer::Frame(8)),
        (Step::ReadBlock(BLOCK, 0, &[0; 64]), Answer::Done),
    ],
}];

/// A block's words are lent as one slice. What is left there stays, and the next block has none of it.
const LENDS_A_BLOCK: &[Part<'static>] = &[Part {
    times: 1,
    rows: &[
        (Step::Call(Call::TakeOrder(3)), Answer::Frame(8)),
        (Step::Lend(BLOCK, 7, 5), Answer::Value(64)),
        (Step::Call(Call::TakeOrder(3)), Answer::Frame(16)),
        (Step::ReadBlock(NEXT, 0, &[0; 64]), Answer::Done),
        (Step::Lend(NEXT, 2, 3), Answer::Value(64)),
        (Step::ReadBlock(BLOCK, 0, &[7; 63]), Answer::Done),
        (Step::ReadBlock(BLOCK, 63, &[5]), Answer::Done),
        (Step::Call(Call::GiveOrder(8, 3)), Answer::Done),
        (Step::Lend(BLOCK, 9, 9), Answer::Refused(ZoneError::NotHuge)),
    ],
}];

/// Each refusal, after which the block is as it was. A full journal refuses nothing.
const REFUSES_CALLS_OF_A_BLOCK: &[Part<'static>] = &[Part {
    times: 1,
    rows: &[
        (Step::Call(Call::TakeOrder(3)), Answer::Frame(8)),
        (
            Step::WriteBlock(BLOCK, 63, &[7; 2]),
            Answer::Refused(ZoneError::Range),
        ),
        (
            Step::ReadBlock(BLOCK, 63, &[7; 2]),
            Answer::Refused(ZoneError::Range),
        ),
        (
            Step::ReadBlock(BLOCK, usize::MAX, &[7; 2]),
            Answer::Refused(ZoneError::Range),
        ),
        (
            Step::WriteBlock((8, 4), 0, &[7; 2]),
            Answer::Refused(ZoneError::NotHuge),
        ),
        (
            Step::ReadBlock(NEXT, 0, &[7; 2]),
            Answer::Refused(ZoneError::NotHuge),
        ),
        (Step::ReadBlock(BLOCK, 0, &[0; 64]), Answer::Done),
        (Step::WriteBlock(BLOCK, 63, &[7]), Answer::Done),
        (Step::ReadBlock(BLOCK, 63, &[7]), Answer::Done),
    ],
}];

#[test]
fn blocks_keep_their_words(rt: HostRuntime) {
    for (name, places, parts) in [
        ("a block keeps its words", 64, KEEPS_A_BLOCK),
        ("a block is lent", 64, LENDS_A_BLOCK),
        ("calls of a block are refused", 2, REFUSES_CALLS_OF_A_BLOCK),
    ] {
        tries(&rt, &Case::of_zone(name, Size::Eight, places, parts));
    }
}
