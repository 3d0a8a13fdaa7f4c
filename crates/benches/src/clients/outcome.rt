//! What comes of a run of clients.

use crate::times::thousands;

/// What came of a run.
#[derive(Clone, Copy)]
pub struct Outcome {
    /// The times that were taken.
    pub times: Spread,
    /// Calls that stand in the journal as they were answered.
    pub settled: usize,
    /// Pages that the rounds moved.
    pub moved: u64,
}

impl Outcome {
    pub const NOTHING: Outcome = Outcome {
        times: Spread {
            median: 0,
            high: 0,
            greatest: 0,
        },
        settled: 0,
        moved: 0,
    };

    /// Thousands of calls in a second, where the time of all calls was taken.
    pub fn rate(&self) -> u64 {
        thousands(self.settled, self.times.greatest)
    }
}

/// Of times in nanoseconds: the one in the middle, the one that a hundredth is above, and the greatest.
#[derive(Clone, Copy)]
pub struct Spread {
    pub median: u64,
    pub high: u64,
    pub greatest: u64,
}

impl Spread {
    pub fn of_one(nanos: u64) -> Spread {
        Spread {
            median: nanos,
            high: nanos,
            greatest: nanos,
        }
    }

    pub fn of(nanos: &mut [u64]) -> Option<Spread> {
        nanos.sort_unstable();
        let last = nanos.len().checked_sub(1)?;
        Some(Spread {
            median: *nanos.get(last / 2)?,
            high: *nanos.get(last - last / 100)?,
            greatest: *nanos.get(last)?,
        })
    }
}
