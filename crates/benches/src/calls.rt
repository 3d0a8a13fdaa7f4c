//! Stores and loads of a zone whose journal is unrecorded, and stores, one by one and in bulk, beside those of zones whose journals are
//! kept.

ghost use Rattle.std.specs.Prelude.{◌≤◌};

mod user;

use crate::opening::BLOCKS;
use crate::times::nanos_since;
use std::alloc::Global;
use std::io;
use std::time::{Clock, Instant};
use user::{Journal, User};

/// Stores and loads by turns, so many of each, of a zone whose journal is unrecorded, and writes how many loads gave what was stored.
/// The first line is written after the first two calls: then the memory of the program can be looked at.
pub fn show_calls<R: Print>(rt: &R, alloc: Global, values: u32) -> io::Result<()> {
    match User::open(alloc, Journal::Unrecorded, BLOCKS) {
        Some(mut user) => show_same(rt, &mut user, values),
        None => Ok(()),
    }
}

fn show_same<R: Print>(rt: &R, user: &mut User<8>, values: u32) -> io::Result<()> {
    show_true(rt, user, 1)?;
    show_true(rt, user, values)
}

fn show_true<R: Print>(rt: &R, user: &mut User<8>, values: u32) -> io::Result<()> {
    println!(rt; "true {} of {values}", user.use_all(values))
}

/// How words are stored.
#[derive(Clone, Copy)]
enum Stores {
    /// Each by a call, in a page of eight.
    Single,
    /// All of a page of 512 by a call.
    Bulk,
}

/// How many words took how many nanoseconds to store.
#[derive(Clone, Copy)]
struct Timed {
    words: u32,
    nanos: u64,
}

impl Timed {
    const NOTHING: Timed = Timed { words: 0, nanos: 0 };

    fn and(self, more: Timed) -> Timed {
        Timed {
            words: self.words.saturating_add(more.words),
            nanos: self.nanos.saturating_add(more.nanos),
        }
    }

    /// Picoseconds for each word.
    fn each(&self) -> u64 {
        self.nanos.saturating_mul(1000) / u64::from(self.words.max(1))
    }
}

/// Picoseconds that a store takes, and a word that is written in bulk, where the journal is unrecorded and where it is kept, by turns:
/// a kept journal is full after each turn.
pub fn show_times<R: Print + Clock>(rt: &R, alloc: Global, turns: u32) -> io::Result<()> {
    show_both(rt, alloc, "stores", Stores::Single, turns)?;
    show_both(rt, alloc, "words", Stores::Bulk, turns)
}

fn show_both<R: Print + Clock>(
    rt: &R,
    alloc: Global,
    name: &str,
    stores: Stores,
    turns: u32,
) -> io::Result<()> {
    let (mut unrecorded, mut kept) = (Timed::NOTHING, Timed::NOTHING);
    for _turn in 0..turns {
        unrecorded = unrecorded.and(time(rt, alloc, Journal::Unrecorded, stores)?);
        kept = kept.and(time(rt, alloc, Journal::Kept, stores)?);
    }
    show_each(rt, name, unrecorded, kept)
}

fn show_each<R: Print>(rt: &R, name: &str, unrecorded: Timed, kept: Timed) -> io::Result<()> {
    let (unrecorded_each, kept_each) = (unrecorded.each(), kept.each());
    println!(rt;
        "{name} {} unrecorded {unrecorded_each} kept {kept_each}",
        unrecorded.words
    )
}

/// How long it takes to store as many words as a kept journal has places for.
fn time<R: Clock>(rt: &R, alloc: Global, journal: Journal, stores: Stores) -> io::Result<Timed> {
    match stores {
        Stores::Single => time_in::<8, R>(rt, alloc, journal, BLOCKS, stores),
        Stores::Bulk => time_in::<512, R>(rt, alloc, journal, 1, stores),
    }
}

/// How long that takes in a zone that is opened for it.
fn time_in<const W: usize, R: Clock>(
    rt: &R,
    alloc: Global,
    journal: Journal,
    blocks: u32,
    stores: Stores,
) -> io::Result<Timed>
    requires { W ≤ 65536 }
{
    match User::<W>::open(alloc, journal, blocks) {
        Some(mut user) => time_stores(rt, &mut user, stores),
        None => Ok(Timed::NOTHING),
    }
}

fn time_stores<const W: usize, R: Clock>(
    rt: &R,
    user: &mut User<W>,
    stores: Stores,
) -> io::Result<Timed>
    requires { W ≤ 65536 }
{
    let start = Instant::now(rt)?;
    let words = match stores {
        Stores::Single => user.store_all(),
        Stores::Bulk => user.write_all(),
    };
    let nanos = nanos_since(rt, &start)?;
    Ok(Timed { words, nanos })
}
