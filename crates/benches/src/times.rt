use std::io;
use std::time::{Clock, Instant};

/// How long a round took.
#[derive(Clone, Copy)]
pub struct Times {
    /// The pages that were moved, or those of a zone that was only filled.
    pub pages: u64,
    /// Nanoseconds that moving them took.
    pub whole: u64,
    /// Nanoseconds that a round with nothing to move took.
    pub empty: u64,
}

impl Times {
    /// Nothing was moved.
    pub const NONE: Times = Times {
        pages: 0,
        whole: u64::MAX,
        empty: u64::MAX,
    };

    /// So many pages were moved in so many nanoseconds.
    pub fn of(pages: u64, whole: u64) -> Times {
        Times {
            pages,
            whole,
            ..Times::NONE
        }
    }

    /// The better of each.
    pub fn or(self, other: Times) -> Times {
        Times {
            pages: self.pages.max(other.pages),
            whole: self.whole.min(other.whole),
            empty: self.empty.min(other.empty),
        }
    }

    /// Nanoseconds for each page that was moved.
    pub fn each(&self) -> u64 {
        self.whole / self.pages.max(1)
    }
}

pub fn nanos_since(rt: &impl Clock, start: &Instant) -> io::Result<u64> {
    let time = start.elapsed(rt)?;
    Ok(
        time.as_secs()
            .saturating_mul(1_000_000_000)
            .saturating_add(u64::from(time.subsec_nanos())),
    )
}

/// How many thousands of calls that is in a second.
pub fn thousands(calls: usize, nanos: u64) -> u64 {
    (calls as u64).saturating_mul(1_000_000) / nanos.max(1)
}
