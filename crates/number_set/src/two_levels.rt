//! Sets of numbers below 4,096.

ghost use Rattle.std.specs.Prelude.{◌≡◌, ◌↔◌, ℕ, ◌+◌, ◌%◌, ◌^◌, ◌<◌, ◌≤◌, ◌&&◌, ◌||◌, not, nat_lt, true, IsTrue, MatchOption, IfSome};
ghost use Rattle.std.specs.FinSet as set;
ghost use Rattle.number_set.specs.Finds.{IsFirst, IsLast, IsNext, IsPrevious, NoneAtAll, NoneAbove, NoneBelow};
ghost use Rattle.number_set.specs.Runs.{in_run};

use crate::one_level::OneLevel;
use crate::words;
use std::marker::Model;

/// A set of numbers below 4,096: 64 words, and above them the set of those that have a number.
#[derive(Drop)]
pub(crate) struct TwoLevels {
    words: [u64; 64],
    above: OneLevel,
}

impl Model for TwoLevels {
    ghost use Rattle.std.specs.Prelude.{◌≡◌, length};
    ghost use Rattle.std.specs.Ordering.{nat_cmp};
    ghost use Rattle.std.specs.FinSet as set;
    ghost use Rattle.std.specs.Coded.{coded_ℕ};
    ghost use Rattle.number_set.specs.Levels.{Summarizes};
    ghost use Rattle.number_set.specs.Numbers.{numbers_of};

    ghost Value = { set.FinSet nat_cmp };

    ghost coded = { set.code coded_ℕ };

    ghost view = { λ s. numbers_of s.words };

    ghost invariant = { λ s. (length s.words ≡ 64) × Summarizes s.above s.words };
}

impl TwoLevels {
    /// The empty set.
    pub(crate) fn new() -> Self
        ensures { result ≡ set.empty }
    {
        TwoLevels {
            words: [0; 64],
            above: OneLevel::new(),
        }
    }

    /// Whether a number is a member.
    #[inline]
    pub(crate) fn contains(&self, number: u32) -> bool
        requires { number < 4096 }
        ensures { result ≡ set.contains self.now number }
    {
        words::contains(&self.words, number)
    }

    /// Puts a number in.
    #[inline]
    pub(crate) fn insert(&mut self, number: u32)
        requires { number < 4096 }
        ensures { self.new ≡ set.insert self.old number }
    {
        if words::insert(&mut self.words, number) {
            self.above.insert(number / 64);
        }
    }

    /// Takes a number out.
    #[inline]
    pub(crate) fn remove(&mut self, number: u32)
        requires { number < 4096 }
        ensures { self.new ≡ set.remove self.old number }
    {
        if words::remove(&mut self.words, number) {
            self.above.remove(number / 64);
        }
    }

    /// Puts in the 2^order numbers from `first` upwards. `first` is a multiple of 2^order, and order is 9 at most.
    #[inline]
    pub(crate) fn insert_run(&mut self, first: u32, order: u32)
        requires order { order ≤ 9 }
        requires aligned { first % 2 ^ order ≡ 0 }
        requires within { first + 2 ^ order ≤ 4096 }
        ensures { (number : ℕ) → set.contains self.new number ≡ (in_run first (2 ^ order) number || set.contains self.old number) }
    {
        if words::insert_run(&mut self.words, first, order) {
            self.above.insert_run(first / 64, order.saturating_sub(6));
        }
    }

    /// Takes them out.
    #[inline]
    pub(crate) fn remove_run(&mut self, first: u32, order: u32)
        requires order { order ≤ 9 }
        requires aligned { first % 2 ^ order ≡ 0 }
        requires within { first + 2 ^ order ≤ 4096 }
        ensures { (number : ℕ) → set.contains self.new number ≡ (not (in_run first (2 ^ order) number) && set.contains self.old number) }
    {
        if words::remove_run(&mut self.words, first, order) {
            self.above.remove_run(first / 64, order.saturating_sub(6));
        }
    }

    /// Whether they are all members.
    #[inline]
    pub(crate) fn has_run(&self, first: u32, order: u32) -> bool
        requires order { order ≤ 9 }
        requires aligned { first % 2 ^ order ≡ 0 }
        requires within { first + 2 ^ order ≤ 4096 }
        ensures { IsTrue result ↔ ((number : ℕ) → in_run first (2 ^ order) number ≡ true → set.contains self.now number ≡ true) }
    {
        words::has_run(&self.words, first, order)
    }

    /// Puts in all numbers below a bound.
    pub(crate) fn insert_below(&mut self, bound: u32)
        requires { bound ≤ 4096 }
        ensures { (number : ℕ) → set.contains self.new number ≡ (nat_lt number bound || set.contains self.old number) }
    {
        words::insert_below(&mut self.words, bound);
        self.above.insert_below((bound + 63) / 64);
    }

    /// The lowest number of the set, if it has one.
    #[inline]
    pub(crate) fn first(&self) -> Option<u32>
        ensures first { MatchOption result (NoneAtAll (set.contains self.now)) (IsFirst (set.contains self.now)) }
        ensures within { IfSome result (λ n. n < 4096) }
    {
        let Some(word) = self.above.first() else {
            return None;
        };
        Some(words::first_in(&self.words, word))
    }

    /// The highest number of the set, if it has one.
    #[inline]
    pub(crate) fn last(&self) -> Option<u32>
        ensures last { MatchOption result (NoneAtAll (set.contains self.now)) (IsLast (set.contains self.now)) }
        ensures within { IfSome result (λ n. n < 4096) }
    {
        let Some(word) = self.above.last() else {
            return None;
        };
        Some(words::last_in(&self.words, word))
    }

    /// The lowest number of the set above another one, if it has one.
    #[inline]
    pub(crate) fn after(&self, number: u32) -> Option<u32>
        requires { number < 4096 }
        ensures next { MatchOption result (NoneAbove (set.contains self.now) number) (IsNext (set.contains self.now) number) }
        ensures within { IfSome result (λ n. n < 4096) }
    {
        if let Some(found) = words::next_in_word(&self.words, number) {
            return Some(found);
        }
        let Some(word) = self.above.after(number / 64) else {
            return None;
        };
        Some(words::first_in(&self.words, word))
    }

    /// The highest number of the set below another one, if it has one.
    #[inline]
    pub(crate) fn before(&self, number: u32) -> Option<u32>
        requires { number < 4096 }
        ensures previous { MatchOption result (NoneBelow (set.contains self.now) number) (IsPrevious (set.contains self.now) number) }
        ensures within { IfSome result (λ n. n < 4096) }
    {
        if let Some(found) = words::previous_in_word(&self.words, number) {
            return Some(found);
        }
        let Some(word) = self.above.before(number / 64) else {
            return None;
        };
        Some(words::last_in(&self.words, word))
    }
}
