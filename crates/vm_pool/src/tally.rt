use std::fmt::{self, Display, Formatter};

/// How many of some came out as they should.
#[derive(Clone, Copy, Default)]
pub struct Score {
    right: u64,
    all: u64,
}

impl Score {
    /// Notes some more, and how many of them came out as they should.
    pub fn add(&mut self, right: u64, all: u64) {
        self.right = self.right.saturating_add(right);
        self.all = self.all.saturating_add(all);
    }
}

impl Display for Score {
    fn fmt<W: fmt::Write>(&self, f: &mut Formatter<W>) -> fmt::Result {
        write!(f, "{} of {}", self.right, self.all)
    }
}

/// What is counted while a host is seen.
#[derive(Clone, Copy, Default)]
pub struct Tally {
    /// Guests that came, and those that got their blocks.
    pub guests: Score,
    /// Words that guests wrote into their blocks, and those that were there when they left.
    pub block_words: Score,
    /// Words that were stored in small pages, and those that were there when the pages were unmapped.
    pub page_words: Score,
    /// Blocks that were handed out.
    pub blocks: u64,
    /// Pages that were moved.
    pub moved: u64,
}
