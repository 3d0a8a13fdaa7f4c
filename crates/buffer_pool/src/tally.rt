use std::fmt::{self, Display, Formatter};

/// How often something was tried, and how often it came out as it should.
#[derive(Clone, Copy, Default)]
pub struct Score {
    right: u32,
    tried: u32,
}

impl Score {
    /// Notes one more try.
    pub fn note(&mut self, is_right: bool) {
        self.tried = self.tried.saturating_add(1);
        self.right = self.right.saturating_add(u32::from(is_right));
    }
}

impl Display for Score {
    fn fmt<W: fmt::Write>(&self, f: &mut Formatter<W>) -> fmt::Result {
        write!(f, "{} of {}", self.right, self.tried)
    }
}

/// What is counted in a run.
#[derive(Clone, Copy, Default)]
pub struct Tally {
    /// Transactions, and those that loaded what was stored.
    pub transactions: Score,
    /// Buffers that were evicted, and those that held what was stored.
    pub evicted: Score,
    /// Buffers at the end, and those that held what was stored.
    pub left: Score,
    /// Buffers that were pinned during a request, and those that stayed in their frames.
    pub pinned: Score,
    /// Requests for a large buffer, and those that got one.
    pub large: Score,
    /// Rounds that were run for them.
    pub rounds: u32,
}
