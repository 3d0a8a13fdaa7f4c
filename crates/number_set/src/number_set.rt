//! Sets of numbers below a bound that is chosen when a set is opened.

ghost use Rattle.std.specs.Prelude.{◌≡◌, ◌↔◌, ℕ, ◌+◌, ◌%◌, ◌^◌, ◌<◌, ◌≤◌, ◌&&◌, ◌||◌, not, nat_lt, true, IsTrue, MatchOption, IfOk, IfSome};
ghost use Rattle.std.specs.FinSet as set;
ghost use Rattle.number_set.specs.Finds.{IsFirst, IsFirstOutside, IsFrom, IsLast, IsNext, IsPrevious, NoneAbove, NoneAtAll, NoneBelow, NoneFrom};
ghost use Rattle.number_set.specs.Numbers.{room_for};
ghost use Rattle.number_set.specs.Runs.{begins_run, count_in_run, in_run};

use crate::upper_levels::UpperLevels;
use crate::words;
use std::alloc::{AllocError, Global};
use std::marker::Model;

/// A set of numbers below a bound, which is 16,777,216 at most, in four levels of words. Each call for a number looks at two
/// words of each level at most, and each call for a run at its words, which are eight at most, and at one word of each level
/// above. The set knows its lowest word that has a number: `first` looks at that word alone, and a call that empties it looks
/// at one word of each level above for the next.
#[derive(Drop)]
pub struct NumberSet {
    words: Vec<u64>,
    /// The lowest of `words` that has a number, or the count of `words` where none has.
    lowest: u32,
    above: UpperLevels,
}

impl Model for NumberSet {
    ghost use Rattle.std.specs.Prelude.{◌≡◌, ◌≤◌, length};
    ghost use Rattle.number_set.specs.Bits.{is_filled};
    ghost use Rattle.number_set.specs.Finds.{StartsAt};
    ghost use Rattle.number_set.specs.Levels.{Summarizes};
    ghost use Rattle.number_set.specs.Numbers.{Numbers, coded_numbers, numbers_in};

    ghost Value = { Numbers };

    ghost coded = { coded_numbers };

    ghost view = { λ s. numbers_in s.words.items };

    ghost invariant = { λ s. (length s.words.items ≤ s.above.bound) × (s.above.bound ≤ 262144) × Summarizes s.above.members s.words.items × StartsAt (is_filled s.words.items) (length s.words.items) s.lowest };
}

impl NumberSet {
    /// An empty set with room for the numbers below a bound, or an error where there is no memory for it. Only this call and
    /// `filled` take memory.
    pub fn open(alloc: Global, bound: u32) -> Result<Self, AllocError>
        requires { bound ≤ 16777216 }
        ensures empty { IfOk result (λ s. s.members ≡ set.empty) }
        ensures bound { IfOk result (λ s. s.bound ≡ room_for bound) }
        ensures enough { IfOk result (λ s. bound ≤ s.bound) }
    {
        let count = (bound + 63) / 64;
        Ok(NumberSet {
            words: words::open(alloc, count)?,
            lowest: count,
            above: UpperLevels::open(alloc, count)?,
        })
    }

    /// The set of all numbers below a bound, or an error where there is no memory for it. It is filled word by word.
    pub fn filled(alloc: Global, bound: u32) -> Result<Self, AllocError>
        requires { bound ≤ 16777216 }
        ensures all { IfOk result (λ s. (number : ℕ) → set.contains s.members number ≡ nat_lt number bound) }
        ensures bound { IfOk result (λ s. s.bound ≡ room_for bound) }
        ensures enough { IfOk result (λ s. bound ≤ s.bound) }
    {
        let mut set = Self::open(alloc, bound)?;
        set.insert_below(bound);
        Ok(set)
    }

    /// Whether a number is a member.
    #[inline]
    pub fn contains(&self, number: u32) -> bool
        requires { number < self.now.bound }
        ensures { result ≡ set.contains self.now.members number }
    {
        words::contains(&self.words, number)
    }

    /// Puts a number in.
    #[inline]
    pub fn insert(&mut self, number: u32)
        requires { number < self.old.bound }
        ensures { self.new ≡ record self.old { members = set.insert self.old.members number } }
    {
        if words::insert(&mut self.words, number) {
            self.above.insert(number / 64);
            self.lowest = self.lowest.min(number / 64);
        }
    }

    /// Takes a number out.
    #[inline]
    pub fn remove(&mut self, number: u32)
        requires { number < self.old.bound }
        ensures { self.new ≡ record self.old { members = set.remove self.old.members number } }
    {
        if words::remove(&mut self.words, number) {
            self.above.remove(number / 64);
            if number / 64 == self.lowest {
                self.lowest = self.above.first_or(self.words.len() as u32);
            }
        }
    }

    /// Puts in the 2^order numbers from `first` upwards. `first` is a multiple of 2^order, and order is 9 at most.
    #[inline]
    pub fn insert_run(&mut self, first: u32, order: u32)
        requires order { order ≤ 9 }
        requires aligned { first % 2 ^ order ≡ 0 }
        requires within { first + 2 ^ order ≤ self.old.bound }
        ensures run { (number : ℕ) → set.contains self.new.members number ≡ (in_run first (2 ^ order) number || set.contains self.old.members number) }
        ensures bound { self.new.bound ≡ self.old.bound }
    {
        if words::insert_run(&mut self.words, first, order) {
            self.above.insert_run(first / 64, order.saturating_sub(6));
            self.lowest = self.lowest.min(first / 64);
        }
    }

    /// Takes out the 2^order numbers from `first` upwards. `first` is a multiple of 2^order, and order is 9 at most.
    #[inline]
    pub fn remove_run(&mut self, first: u32, order: u32)
        requires order { order ≤ 9 }
        requires aligned { first % 2 ^ order ≡ 0 }
        requires within { first + 2 ^ order ≤ self.old.bound }
        ensures run { (number : ℕ) → set.contains self.new.members number ≡ (not (in_run first (2 ^ order) number) && set.contains self.old.members number) }
        ensures bound { self.new.bound ≡ self.old.bound }
    {
        if words::remove_run(&mut self.words, first, order) {
            self.above.remove_run(first / 64, order.saturating_sub(6));
            if first / 64 <= self.lowest {
                self.lowest = self.above.first_or(self.words.len() as u32);
            }
        }
    }

    /// Whether the 2^order numbers from `first` upwards are all members. `first` is a multiple of 2^order, and order is 9 at most.
    #[inline]
    pub fn has_run(&self, first: u32, order: u32) -> bool
        requires order { order ≤ 9 }
        requires aligned { first % 2 ^ order ≡ 0 }
        requires within { first + 2 ^ order ≤ self.now.bound }
        ensures { IsTrue result ↔ ((number : ℕ) → in_run first (2 ^ order) number ≡ true → set.contains self.now.members number ≡ true) }
    {
        words::has_run(&self.words, first, order)
    }

    /// How many of the 2^order numbers from `first` upwards are members. `first` is a multiple of 2^order, and order is 9 at most.
    #[inline]
    pub fn count_run(&self, first: u32, order: u32) -> u32
        requires order { order ≤ 9 }
        requires aligned { first % 2 ^ order ≡ 0 }
        requires within { first + 2 ^ order ≤ self.now.bound }
        ensures { result ≡ count_in_run (set.contains self.now.members) first (2 ^ order) }
    {
        words::count_run(&self.words, first, order)
    }

    /// How many of `count` numbers from `first` upwards are members. For each 64 of them it looks at a word.
    pub fn count_from(&self, first: u32, count: u32) -> u32
        requires { first + count ≤ self.now.bound }
        ensures { result ≡ count_in_run (set.contains self.now.members) first count }
    {
        words::count_from(&self.words, first, count)
    }

    /// How many runs of 2^order numbers are members, each from a multiple of 2^order on. Order is 2 at most. It looks at each word.
    pub fn count_runs(&self, order: u32) -> u32
        requires { order ≤ 2 }
        ensures { result ≡ count_in_run (begins_run (set.contains self.now.members) order) 0 self.now.bound }
    {
        words::count_runs(&self.words, order)
    }

    /// The lowest number of the set, if it has one.
    #[inline]
    pub fn first(&self) -> Option<u32>
        ensures first { MatchOption result (NoneAtAll (set.contains self.now.members)) (IsFirst (set.contains self.now.members)) }
        ensures within { IfSome result (λ n. n < self.now.bound) }
    {
        if self.lowest as usize >= self.words.len() {
            return None;
        }
        Some(words::first_in(&self.words, self.lowest))
    }

    /// The highest number of the set, if it has one.
    #[inline]
    pub fn last(&self) -> Option<u32>
        ensures last { MatchOption result (NoneAtAll (set.contains self.now.members)) (IsLast (set.contains self.now.members)) }
        ensures within { IfSome result (λ n. n < self.now.bound) }
    {
        let Some(word) = self.above.last() else {
            return None;
        };
        Some(words::last_in(&self.words, word))
    }

    /// The lowest number of the set above another one, if it has one.
    #[inline]
    pub fn after(&self, number: u32) -> Option<u32>
        requires { number < self.now.bound }
        ensures next { MatchOption result (NoneAbove (set.contains self.now.members) number) (IsNext (set.contains self.now.members) number) }
        ensures within { IfSome result (λ n. n < self.now.bound) }
    {
        if let Some(found) = words::next_in_word(&self.words, number) {
            return Some(found);
        }
        let Some(word) = self.above.after(number / 64) else {
            return None;
        };
        Some(words::first_in(&self.words, word))
    }

    /// The highest number of the set below another one, if it has one.
    #[inline]
    pub fn before(&self, number: u32) -> Option<u32>
        requires { number < self.now.bound }
        ensures previous { MatchOption result (NoneBelow (set.contains self.now.members) number) (IsPrevious (set.contains self.now.members) number) }
        ensures within { IfSome result (λ n. n < self.now.bound) }
    {
        if let Some(found) = words::previous_in_word(&self.words, number) {
            return Some(found);
        }
        let Some(word) = self.above.before(number / 64) else {
            return None;
        };
        Some(words::last_in(&self.words, word))
    }

    /// The lowest number of the set from one on, if it has one.
    #[inline]
    pub fn at_or_after(&self, number: u32) -> Option<u32>
        requires { number < self.now.bound }
        ensures next { MatchOption result (NoneFrom (set.contains self.now.members) number) (IsFrom (set.contains self.now.members) number) }
        ensures within { IfSome result (λ n. n < self.now.bound) }
    {
        if self.contains(number) {
            return Some(number);
        }
        self.after(number)
    }

    /// The lowest number from one on and below an end that is a member of none of three sets, if there is one. For each 64 numbers it
    /// looks at a word of each set.
    pub fn first_outside(&self, second: &Self, third: &Self, from: u32, end: u32) -> Option<u32>
        requires first { end ≤ self.now.bound }
        requires second { end ≤ second.now.bound }
        requires third { end ≤ third.now.bound }
        ensures { IsFirstOutside (set.contains self.now.members) (set.contains second.now.members) (set.contains third.now.members) from end result }
    {
        words::first_outside(&self.words, &second.words, &third.words, from, end)
    }

    /// Puts in all numbers below a bound.
    fn insert_below(&mut self, bound: u32)
        requires { bound ≤ self.old.bound }
        ensures numbers { (number : ℕ) → set.contains self.new.members number ≡ (nat_lt number bound || set.contains self.old.members number) }
        ensures bound { self.new.bound ≡ self.old.bound }
    {
        words::insert_below(&mut self.words, bound);
        self.above.insert_below((bound + 63) / 64);
        self.lowest = self.above.first_or(self.words.len() as u32);
    }
}
