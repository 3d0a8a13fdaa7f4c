use round_core::Point;
use std::sync::atomic::{AtomicU64, Ordering};

/// Six numbers that threads add to: one for each point, or for each thread of a round.
#[derive(Drop)]
pub struct Tally {
    numbers: [AtomicU64; 6],
}

impl Tally {
    pub fn zeros() -> Tally {
        Tally {
            numbers: [
                AtomicU64::new(0),
                AtomicU64::new(0),
                AtomicU64::new(0),
                AtomicU64::new(0),
                AtomicU64::new(0),
                AtomicU64::new(0),
            ],
        }
    }

    /// Adds to a number, and tells what it was before.
    pub fn add(&self, at: usize, more: u64) -> u64 {
        match self.numbers.get(at) {
            Some(number) => number.fetch_add(more, Ordering::SeqCst),
            None => 0,
        }
    }

    /// The number of a point.
    pub fn of(&self, point: Point) -> u64 {
        self.number(point as usize)
    }

    pub fn number(&self, at: usize) -> u64 {
        match self.numbers.get(at) {
            Some(number) => number.load(Ordering::SeqCst),
            None => 0,
        }
    }
}
