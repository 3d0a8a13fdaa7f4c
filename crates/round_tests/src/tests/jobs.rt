use super::calls::{Answer, Call};
use super::gates::{Until, Watch};
use super::opening::Shared;
use client_core::Client;
use round_core::{Point, ZoneIdentity};
use std::process::Abort;
use std::sync::Wait;
use zone_core::Opening;

/// What a client does on a thread of its own, beside rounds.
#[derive(Clone, Copy)]
pub enum Job {
    /// Makes a call once a copy is made, and speaks when it is answered.
    Calls(Call, Answer),
    /// Does so, but speaks before too.
    SpeaksAndCalls(Call, Answer),
    /// Waits under the lock until no page is moving, once a copy is made, and speaks before and after.
    WaitsByHand,
    /// Stores to this word of a page and loads it, 200 times.
    StoresAndLoads(u32, u32),
    /// Makes 5,000 calls on these two words of 64 pages.
    UsesWords(u32, u32),
    /// Writes all words of page 0 and reads them, 100 times. What is written is this number or up to 99 more.
    WritesAndReads(u64),
    /// Uses all words of so many pages, with receipts that are unrecorded.
    UsesPagesUnrecorded(u32),
}

/// A store or a load of one of two words of one of 64 pages, drawn from a seed. A load answers what was stored there last.
fn drawn(seed: u32, first: u32, second: u32, last: &mut [u64; 128]) -> (Call, Answer) {
    let choice = seed / 1024 % 256;
    let place = choice / 2;
    let at = place / 2;
    let word = if place % 2 == 0 { first } else { second };
    if choice % 2 == 0 {
        last[place as usize] = u64::from(seed);
        (Call::Store(at, word, u64::from(seed)), Answer::Done)
    } else {
        (Call::Load(at, word), Answer::Value(last[place as usize]))
    }
}

impl<Z: Opening + ZoneIdentity + Send + Sync> Shared<Z> {
    /// Waits until no page is moving. It speaks while it has the lock, which it lets go only as it sleeps.
    fn wait_by_hand<R: Wait>(&self, rt: &R, watch: &Watch) {
        let mut room = self.zone.lock(rt);
        watch.speak();
        for _ in rt.forever() {
            if room.zone().info().moving == 0 {
                return;
            }
            room = room.wait_for_end(rt);
        }
        unreachable!()
    }

    /// Makes calls that are drawn, one after the other.
    fn use_words<R: Wait + Abort>(&self, rt: &R, client: &mut Client, first: u32, second: u32) {
        let mut last = [0; 128];
        let mut seed = second;
        for _ in 0..5000 {
            seed = seed.wrapping_mul(1664525).wrapping_add(1013904223);
            self.play(rt, client, &[drawn(seed, first, second, &mut last)]);
        }
    }

    /// Writes all words of page 0 and reads them. A read finds the words of one write.
    fn write_and_read<R: Wait + Abort>(&self, rt: &R, client: &mut Client, own: u64) {
        for turn in 0..100 {
            let write = Call::Write(0, 0, own.saturating_add(turn));
            self.play(rt, client, &[(write, Answer::Done)]);
            let Answer::Values(words) = self.made(rt, client, Call::Read(0, 0)) else {
                panic!(rt; "the words can be read");
            };
            assert!(rt; words == [words[0]; 8]);
        }
    }

    /// Stores to a word of a page and loads it.
    fn store_and_load<R: Wait + Abort>(&self, rt: &R, client: &mut Client, at: u32, word: u32) {
        for value in 0..200 {
            let table = [
                (Call::Store(at, word, value), Answer::Done),
                (Call::Load(at, word), Answer::Value(value)),
            ];
            self.play(rt, client, &table);
        }
    }

    /// A client does its job.
    pub fn work<R: Wait + Abort>(&self, rt: &R, watch: &Watch, client: &mut Client, job: Job) {
        match job {
            Job::Calls(call, answer) => {
                watch.assert_comes_to(rt, Until::COPIED);
                self.play(rt, client, &[(call, answer)]);
                watch.speak();
            }
            Job::SpeaksAndCalls(call, answer) => {
                watch.assert_comes_to(rt, Until::COPIED);
                watch.speak();
                self.play(rt, client, &[(call, answer)]);
                watch.speak();
            }
            Job::WaitsByHand => {
                watch.assert_comes_to(rt, Until::COPIED);
                self.wait_by_hand(rt, watch);
                watch.speak();
            }
            Job::StoresAndLoads(at, word) => self.store_and_load(rt, client, at, word),
            Job::UsesWords(first, second) => self.use_words(rt, client, first, second),
            Job::WritesAndReads(own) => self.write_and_read(rt, client, own),
            Job::UsesPagesUnrecorded(pages) => self.use_pages_unrecorded(rt, pages),
        }
    }
}
