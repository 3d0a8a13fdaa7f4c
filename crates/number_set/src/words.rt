//! The words of one level of a set. Bit `b` of word `w` says whether the level has the number `64 * w + b`.

ghost use Rattle.std.specs.Prelude.{◌≡◌, ◌↔◌, ℕ, ◌+◌, ◌-◌, ◌*◌, ◌/◌, ◌%◌, ◌^◌, ◌<◌, ◌≤◌, ◌&&◌, ◌||◌, not, nat_eq, nat_lt, length, replicate, slice_index, true, IfOk, IsTrue, MatchOption, IfSome, if◌then◌else◌};
ghost use Rattle.std.specs.List.{list_all, slice_range};
ghost use Rattle.number_set.specs.Bits.{has_number, is_filled};
ghost use Rattle.number_set.specs.Finds.{IsFirstIn, IsFirstOutside, IsLastIn, IsNext, IsPrevious, NoneAboveIn, NoneBelowIn};
ghost use Rattle.number_set.specs.Runs.{begins_run, count_in_run, in_run};

use crate::word::{
    bit_from, highest_bit, low_bits, lowest_bit, next_bit, previous_bit, run_bits, run_starts,
};
use std::alloc::{AllocError, Global};

/// This many words without a number, or an error where there is no memory for them.
pub(crate) fn open(alloc: Global, count: u32) -> Result<Vec<u64>, AllocError>
    ensures { IfOk result (λ words. words.items ≡ replicate count 0) }
{
    Vec::from_elem(alloc, 0u64, count as usize)
}

/// Whether the level has a number.
#[inline(always)]
pub(crate) fn contains(words: &[u64], number: u32) -> bool
    requires { number < 64 * length words.now }
    ensures { result ≡ has_number words.now number }
{
    words[(number / 64) as usize] >> (number % 64) & 1 == 1
}

/// Puts a number in, and answers whether it is the first one of its word.
#[inline(always)]
pub(crate) fn insert(words: &mut [u64], number: u32) -> bool
    requires { number < 64 * length words.old }
    ensures was_empty { result ≡ not (is_filled words.old (number / 64)) }
    ensures numbers { (n : ℕ) → has_number words.new n ≡ (nat_eq n number || has_number words.old n) }
    ensures filled { (word : ℕ) → is_filled words.new word ≡ (nat_eq word (number / 64) || is_filled words.old word) }
    ensures as_long { length words.new ≡ length words.old }
{
    let word = (number / 64) as usize;
    let had = words[word];
    words[word] = had | 1 << (number % 64);
    had == 0
}

/// Takes a number out, and answers whether its word has none now.
#[inline(always)]
pub(crate) fn remove(words: &mut [u64], number: u32) -> bool
    requires { number < 64 * length words.old }
    ensures numbers { (n : ℕ) → has_number words.new n ≡ (not (nat_eq n number) && has_number words.old n) }
    ensures filled { (word : ℕ) → is_filled words.new word ≡ (not (result && nat_eq word (number / 64)) && is_filled words.old word) }
    ensures as_long { length words.new ≡ length words.old }
{
    let word = (number / 64) as usize;
    let left = words[word] & !(1 << (number % 64));
    words[word] = left;
    left == 0
}

/// Puts in the 2^order numbers from `first` upwards. `first` is a multiple of 2^order. The answer is false only where their
/// word had a number before.
#[inline(always)]
pub(crate) fn insert_run(words: &mut [u64], first: u32, order: u32) -> bool
    requires order { order ≤ 9 }
    requires aligned { first % 2 ^ order ≡ 0 }
    requires within { first + 2 ^ order ≤ 64 * length words.old }
    ensures numbers { (n : ℕ) → has_number words.new n ≡ (in_run first (2 ^ order) n || has_number words.old n) }
    ensures filled { (word : ℕ) → is_filled words.new word ≡ ((result && in_run (first / 64) (2 ^ (order - 6)) word) || is_filled words.old word) }
    ensures as_long { length words.new ≡ length words.old }
{
    if order > 6 {
        write_run(words, first / 64, 1 << (order - 6), u64::MAX);
        return true;
    }
    let word = (first / 64) as usize;
    let before = words[word];
    words[word] = before | run_bits(first % 64, order);
    before == 0
}

/// Takes them out, and answers whether their words have no number now.
#[inline(always)]
pub(crate) fn remove_run(words: &mut [u64], first: u32, order: u32) -> bool
    requires order { order ≤ 9 }
    requires aligned { first % 2 ^ order ≡ 0 }
    requires within { first + 2 ^ order ≤ 64 * length words.old }
    ensures numbers { (n : ℕ) → has_number words.new n ≡ (not (in_run first (2 ^ order) n) && has_number words.old n) }
    ensures filled { (word : ℕ) → is_filled words.new word ≡ (not (result && in_run (first / 64) (2 ^ (order - 6)) word) && is_filled words.old word) }
    ensures as_long { length words.new ≡ length words.old }
{
    if order > 6 {
        write_run(words, first / 64, 1 << (order - 6), 0);
        return true;
    }
    let word = (first / 64) as usize;
    let after = words[word] & !run_bits(first % 64, order);
    words[word] = after;
    after == 0
}

/// Whether the level has them all.
#[inline(always)]
pub(crate) fn has_run(words: &[u64], first: u32, order: u32) -> bool
    requires order { order ≤ 9 }
    requires aligned { first % 2 ^ order ≡ 0 }
    requires within { first + 2 ^ order ≤ 64 * length words.now }
    ensures { IsTrue result ↔ ((n : ℕ) → in_run first (2 ^ order) n ≡ true → has_number words.now n ≡ true) }
{
    if order > 6 {
        return are_full(words, first / 64, 1 << (order - 6));
    }
    let bits = run_bits(first % 64, order);
    words[(first / 64) as usize] & bits == bits
}

/// How many of them the level has.
#[inline(always)]
pub(crate) fn count_run(words: &[u64], first: u32, order: u32) -> u32
    requires order { order ≤ 9 }
    requires aligned { first % 2 ^ order ≡ 0 }
    requires within { first + 2 ^ order ≤ 64 * length words.now }
    ensures { result ≡ count_in_run (has_number words.now) first (2 ^ order) }
{
    if order > 6 {
        return count_words(words, first / 64, 1 << (order - 6));
    }
    let bits = run_bits(first % 64, order);
    (words[(first / 64) as usize] & bits).count_ones()
}

/// How many of `count` numbers from `first` upwards the level has.
pub(crate) fn count_from(words: &[u64], first: u32, count: u32) -> u32
    requires within { first + count ≤ 64 * length words.now }
    requires few { 64 * length words.now < 2 ^ 32 }
    ensures { result ≡ count_in_run (has_number words.now) first count }
{
    let end = first + count;
    let in_words = count_words(words, first / 64, end / 64 - first / 64);
    in_words + count_below(words, end) - count_below(words, first)
}

/// How many numbers below another one the word of that one has.
#[inline(always)]
fn count_below(words: &[u64], number: u32) -> u32
    requires { number ≤ 64 * length words.now }
    ensures { result ≡ count_in_run (has_number words.now) (64 * (number / 64)) (number % 64) }
{
    if number % 64 == 0 {
        return 0;
    }
    (words[(number / 64) as usize] & low_bits(number % 64)).count_ones()
}

/// How many runs of 2^order numbers the level has, each from a multiple of 2^order on. Order is 2 at most.
#[inline(never)]
pub(crate) fn count_runs(words: &[u64], order: u32) -> u32
    requires order { order ≤ 2 }
    requires few { 64 * length words.now < 2 ^ 32 }
    ensures { result ≡ count_in_run (begins_run (has_number words.now) order) 0 (64 * length words.now) }
{
    let mut sum = 0;
    for word in 0..words.len() {
        sum += run_starts(words[word], order).count_ones();
    }
    sum
}

/// Puts in all numbers below a bound.
pub(crate) fn insert_below(words: &mut [u64], bound: u32)
    requires { bound ≤ 64 * length words.old }
    ensures numbers { (n : ℕ) → has_number words.new n ≡ (nat_lt n bound || has_number words.old n) }
    ensures filled { (word : ℕ) → is_filled words.new word ≡ (nat_lt word ((bound + 63) / 64) || is_filled words.old word) }
    ensures as_long { length words.new ≡ length words.old }
{
    write_run(words, 0, bound / 64, u64::MAX);
    if bound % 64 != 0 {
        words[(bound / 64) as usize] |= low_bits(bound % 64);
    }
}

/// Writes the same bits to each of `count` words, from a first one upwards.
#[inline(never)]
fn write_run(words: &mut [u64], first: u32, count: u32, bits: u64)
    requires { first + count ≤ length words.old }
    ensures words { (word : ℕ) → slice_index words.new word ≡ (if in_run first count word then bits else slice_index words.old word) }
    ensures as_long { length words.new ≡ length words.old }
{
    let first = first as usize;
    words[first..first + count as usize].fill(bits);
}

/// Whether each of `count` words, from a first one upwards, has all its numbers.
#[inline(always)]
fn are_full(words: &[u64], first: u32, count: u32) -> bool
    requires { first + count ≤ length words.now }
    ensures { result ≡ list_all (λ bits. nat_eq bits (2 ^ 64 - 1)) (slice_range words.now first (first + count)) }
{
    let first = first as usize;
    let run = &words[first..first + count as usize];
    run.iter().all(|bits| *bits == u64::MAX)
}

/// How many numbers `count` words have, from a first one upwards.
#[inline(never)]
fn count_words(words: &[u64], first: u32, count: u32) -> u32
    requires within { first + count ≤ length words.now }
    requires few { 64 * count < 2 ^ 32 }
    ensures { result ≡ count_in_run (has_number words.now) (64 * first) (64 * count) }
{
    let first = first as usize;
    let mut sum = 0;
    for word in 0..count as usize {
        sum += words[first + word].count_ones();
    }
    sum
}

/// The lowest number of a word that has one.
#[inline(always)]
pub(crate) fn first_in(words: &[u64], word: u32) -> u32
    requires filled { is_filled words.now word ≡ true }
    requires fits { 64 * word + 63 < 2 ^ 32 }
    ensures { IsFirstIn (has_number words.now) word result }
{
    64 * word + lowest_bit(words[word as usize])
}

/// The highest number of a word that has one.
#[inline(always)]
pub(crate) fn last_in(words: &[u64], word: u32) -> u32
    requires filled { is_filled words.now word ≡ true }
    requires fits { 64 * word + 63 < 2 ^ 32 }
    ensures { IsLastIn (has_number words.now) word result }
{
    64 * word + highest_bit(words[word as usize])
}

/// The lowest number above another one in the same word, if there is one.
#[inline(always)]
pub(crate) fn next_in_word(words: &[u64], number: u32) -> Option<u32>
    requires { number < 64 * length words.now }
    ensures next { MatchOption result (NoneAboveIn (has_number words.now) number) (IsNext (has_number words.now) number) }
    ensures same_word { IfSome result (λ n. n / 64 ≡ number / 64) }
{
    let word = number / 64;
    let bit = next_bit(words[word as usize], number % 64)?;
    Some(64 * word + bit)
}

/// The highest number below another one in the same word, if there is one.
#[inline(always)]
pub(crate) fn previous_in_word(words: &[u64], number: u32) -> Option<u32>
    requires { number < 64 * length words.now }
    ensures previous { MatchOption result (NoneBelowIn (has_number words.now) number) (IsPrevious (has_number words.now) number) }
    ensures same_word { IfSome result (λ n. n / 64 ≡ number / 64) }
{
    let word = number / 64;
    let bit = previous_bit(words[word as usize], number % 64)?;
    Some(64 * word + bit)
}

/// The lowest number from one on and below an end that no level of three has, if there is one.
#[inline(never)]
pub(crate) fn first_outside(
    first: &[u64],
    second: &[u64],
    third: &[u64],
    from: u32,
    end: u32,
) -> Option<u32>
    requires few { end ≤ 16777216 }
    requires first { end ≤ 64 * length first.now }
    requires second { end ≤ 64 * length second.now }
    requires third { end ≤ 64 * length third.now }
    ensures { IsFirstOutside (has_number first.now) (has_number second.now) (has_number third.now) from end result }
{
    for word in from / 64..(end + 63) / 64 {
        if let Some(found) = outside_in_word(first, second, third, from.max(64 * word)) {
            if found >= end {
                return None;
            }
            return Some(found);
        }
    }
    None
}

/// The lowest number from one on in the same word that no level of three has, if there is one.
#[inline(always)]
fn outside_in_word(first: &[u64], second: &[u64], third: &[u64], number: u32) -> Option<u32>
    requires first { number < 64 * length first.now }
    requires second { number < 64 * length second.now }
    requires third { number < 64 * length third.now }
    ensures { IsFirstOutside (has_number first.now) (has_number second.now) (has_number third.now) number (64 * (number / 64) + 64) result }
{
    let word = number / 64;
    let index = word as usize;
    let outside = !(first[index] | second[index] | third[index]);
    let bit = bit_from(outside, number % 64)?;
    Some(64 * word + bit)
}
