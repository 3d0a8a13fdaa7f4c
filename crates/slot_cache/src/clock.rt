//! Which object goes where there is no room: the one that a clock's hand finds unused.

use crate::keys::KEYS;
use std::alloc::{AllocError, Global};

/// What the clock knows of a key.
#[derive(Clone, Copy, Drop)]
enum Mark {
    /// Its object isn't in the cache.
    Absent,
    /// The hand has passed it since it was used.
    Unused,
    Used,
}

/// The keys in a ring, and a hand that goes round it.
#[derive(Drop)]
pub struct Clock {
    marks: Vec<Mark>,
    hand: u32,
}

impl Clock {
    /// A clock of a cache that has no object.
    pub fn new(alloc: Global) -> Result<Self, AllocError> {
        let marks = vec![in alloc; Mark::Absent; KEYS as usize]?;
        Ok(Clock { marks, hand: 0 })
    }

    /// The object of a key is used.
    pub fn note_use(&mut self, key: u32) {
        self.set(key, Mark::Used);
    }

    /// The object of a key isn't in the cache any more.
    pub fn note_eviction(&mut self, key: u32) {
        self.set(key, Mark::Absent);
    }

    /// The next key whose object wasn't used since the hand passed it. None where no object is in the cache.
    pub fn next_unused(&mut self) -> Option<u32> {
        for _step in 0..2 * KEYS {
            let key = self.hand;
            self.hand = key.saturating_add(1) % KEYS;
            match self.mark(key) {
                Mark::Absent => {}
                Mark::Unused => return Some(key),
                Mark::Used => self.set(key, Mark::Unused),
            }
        }
        None
    }

    fn mark(&self, key: u32) -> Mark {
        match self.marks.get(key as usize) {
            Some(mark) => *mark,
            None => Mark::Absent,
        }
    }

    fn set(&mut self, key: u32, mark: Mark) {
        if let Some(place) = self.marks.get_mut(key as usize) {
            *place = mark;
        }
    }
}
