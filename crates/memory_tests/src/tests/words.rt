//! Words of frames are lent.

ghost use Rattle.std.specs.Prelude.{◌⊎◌, ◌+◌, ◌<◌, ◌≤◌, length};
ghost use Rattle.frame_core.specs.LentWords.{NoneLent};

use frame_core::{FrameNo, WordNo, Words};
use std::process::Abort;

/// A block is lent and written through its row, while a word of a frame beside it is stored. Then its row comes back.
fn lend_one(
    rt: &impl Abort,
    words: &mut Words,
    first: FrameNo,
    frames: u32,
    beside: FrameNo,
    word: WordNo,
)
    requires block { first + frames ≤ length words.old.rows }
    requires some { 0 < frames }
    requires frame { beside < length words.old.rows }
    requires apart { (beside < first) ⊎ (first + frames ≤ beside) }
    requires here { NoneLent words.old }
{
    let mut row = words.lend_block(first, frames);
    assert!(rt; words.is_lent(first), "the block is lent");
    assert!(rt; !words.is_lent(beside), "the frame beside it isn't");
    row.words_mut().fill(7);
    words.store(beside, word, 9);
    assert!(rt; !words.lends_none(), "some are lent");
    words.take_block_back(first, frames, row);
    assert!(rt; words.lends_none(), "none is lent");
    assert!(rt;
        words.block(first, frames).first() == Some(&7),
        "the first word"
    );
    assert!(rt;
        words.block(first, frames).last() == Some(&7),
        "the last word"
    );
    assert!(rt; words.load(beside, word) == 9, "the word beside it");
}

#[test]
fn a_lent_block_comes_back(rt: HostRuntime) {
    let mut words = Words::open(rt.alloc(), 6).expect(&rt, "memory");
    let first = FrameNo::new(2).expect(&rt, "a frame");
    let beside = FrameNo::new(4).expect(&rt, "a frame");
    let word = WordNo::new(7).expect(&rt, "a word");
    lend_one(&rt, &mut words, first, 2, beside, word);
}
