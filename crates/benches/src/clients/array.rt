//! The same stores and loads in an array under a plain mutex.

use super::crowd::{CALLS, PAGES};
use crate::Runtime;
use crate::times::{nanos_since, thousands};
use std::sync::{Mutex, Wait};
use std::thread::for_each_mut;
use std::time::Instant;

/// Eight words for each page.
type Array = Mutex<[u64; 512]>;

/// How many thousands of stores and loads so many threads make in a second, at most four.
pub fn rate_of_array<R: Runtime>(rt: &R, count: usize) -> Option<u64> {
    let array = Mutex::new([0; 512]);
    let mut words = [0, 1, 2, 3];
    let words = words.get_mut(..count)?;
    let start = Instant::now(rt).ok()?;
    use_all(rt, &array, words);
    let nanos = nanos_since(rt, &start).ok()?;
    Some(thousands(count.saturating_mul(CALLS as usize), nanos))
}

/// Lets a thread use each of these words of the pages, of which there are at most four.
fn use_all<R: Runtime>(rt: &R, array: &Array, words: &mut [u32]) {
    for_each_mut(rt, words, 4, &|_, word| use_pages(rt, array, *word));
}

/// Stores to a word of each page and loads it, by turns.
fn use_pages<R: Wait>(rt: &R, array: &Array, word: u32) {
    for turn in 0..CALLS / 2 {
        let at = (turn % PAGES).saturating_mul(8).saturating_add(word) as usize;
        store(rt, array, at, u64::from(turn));
        load(rt, array, at);
    }
}

fn store<R: Wait>(rt: &R, array: &Array, at: usize, value: u64) {
    if let Some(word) = array.lock(rt).get_mut(at) {
        *word = value;
    }
}

fn load<R: Wait>(rt: &R, array: &Array, at: usize) -> Option<u64> {
    array.lock(rt).get(at).copied()
}
