//! The traffic: requests of readers, and pageblocks that are asked for and given back between them.

use crate::blocks::Rounds;
use crate::cache::Cache;
use crate::keys::Keys;
use crate::trouble::Trouble;
use std::alloc::Global;
use zone_core::FrameNo;

/// How often a pageblock is asked for.
const ASKED: u32 = 1000;

/// The requests before a pageblock is asked for, and as many again before it is given back.
const REQUESTS: u32 = 5000;

/// How many requests a slow reader has an object pinned for.
const PINNED_FOR: u32 = 64;

/// What became of the requests.
#[derive(Clone, Copy)]
pub struct Outcome {
    pub requests: u32,
    /// Requests of objects that were there.
    pub hits: u32,
    pub evictions: u32,
    /// The pages that rounds moved.
    pub moves: u64,
    /// The pageblocks that were asked for.
    pub asked: u32,
    /// Those that were handed out.
    pub got: u32,
    /// The objects at the end.
    pub objects: u32,
}

/// A cache and who uses it.
#[derive(Drop)]
struct Traffic {
    cache: Cache,
    keys: Keys,
    /// The key of the object that a slow reader has pinned.
    pinned: Option<u32>,
    requests: u32,
    got: u32,
}

/// Opens a cache, and lets readers use it while pageblocks are asked for and given back.
pub fn run(alloc: Global, rounds: Rounds) -> Result<Outcome, Trouble> {
    let mut traffic = Traffic::new(Cache::open(alloc)?);
    traffic.pass_all(rounds)
}

impl Traffic {
    fn new(cache: Cache) -> Self {
        Traffic {
            cache,
            keys: Keys::new(),
            pinned: None,
            requests: 0,
            got: 0,
        }
    }

    /// Makes all requests, and asks for all pageblocks.
    fn pass_all(&mut self, rounds: Rounds) -> Result<Outcome, Trouble> {
        for _asked in 0..ASKED {
            self.pass(rounds)?;
        }
        self.outcome()
    }

    /// Makes requests before a pageblock is asked for and after that.
    fn pass(&mut self, rounds: Rounds) -> Result<(), Trouble> {
        self.request_all()?;
        let first = self.cache.take_pageblock(rounds)?;
        self.request_all()?;
        self.give_back(first)
    }

    /// Requests objects.
    fn request_all(&mut self) -> Result<(), Trouble> {
        for number in 0..REQUESTS {
            self.request(number)?;
        }
        self.requests = self.requests.saturating_add(REQUESTS);
        Ok(())
    }

    /// Requests an object. A slow reader pins it now and then.
    fn request(&mut self, number: u32) -> Result<(), Trouble> {
        let key = self.keys.draw();
        self.cache.request(key)?;
        if number % PINNED_FOR == 0 {
            self.pin(key)?;
        }
        Ok(())
    }

    /// Pins the object that the slow reader reads now, and unpins the one before.
    fn pin(&mut self, key: u32) -> Result<(), Trouble> {
        self.cache.pin(key)?;
        if let Some(before) = self.pinned.replace(key) {
            self.cache.unpin(before)?;
        }
        Ok(())
    }

    /// Counts a pageblock that was handed out, and gives it back.
    fn give_back(&mut self, first: Option<FrameNo>) -> Result<(), Trouble> {
        if let Some(first) = first {
            self.got = self.got.saturating_add(1);
            self.cache.give_pageblock(first)?;
        }
        Ok(())
    }

    fn outcome(&mut self) -> Result<Outcome, Trouble> {
        let moves = self.cache.moves()?;
        let objects = self.cache.count()?;
        Ok(Outcome {
            requests: self.requests,
            hits: self.cache.hits,
            evictions: self.cache.evictions,
            moves,
            asked: ASKED,
            got: self.got,
            objects,
        })
    }
}
