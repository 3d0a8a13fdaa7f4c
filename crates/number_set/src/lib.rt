//! Sets of numbers below 16,777,216.
//!
//! A [`NumberSet`] is a tree of words of 64 bits. The lowest level has a bit for each number. Each level above it has a bit for
//! each word of the level below, which says whether that word has a number, and the first level is one word. So a search looks
//! at two words of each level at most, however far the next number is.
//!
//! A contract sees the `members` of a set, and the `bound` below which it has room for numbers.
#![tactic(auto)]

mod number_set;
mod one_level;
mod two_levels;
mod upper_levels;
mod word;
mod words;

pub use number_set::NumberSet;
