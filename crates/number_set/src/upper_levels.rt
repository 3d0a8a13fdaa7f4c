//! The levels of a set above its fourth one.

ghost use Rattle.std.specs.Prelude.{◌≡◌, ◌↔◌, ℕ, ◌+◌, ◌%◌, ◌^◌, ◌<◌, ◌≤◌, ◌&&◌, ◌||◌, not, nat_lt, true, IsTrue, MatchOption, IfOk, IfSome};
ghost use Rattle.std.specs.FinSet as set;
ghost use Rattle.number_set.specs.Finds.{IsFirst, IsLast, IsNext, IsPrevious, NoneAtAll, NoneAbove, NoneBelow, StartsAt};
ghost use Rattle.number_set.specs.Runs.{in_run};
ghost use Rattle.number_set.specs.Numbers.{room_for};

use crate::two_levels::TwoLevels;
use crate::words;
use std::alloc::{AllocError, Global};
use std::marker::Model;

/// The first three levels of a set: words, and above them the set of those that have a number.
#[derive(Drop)]
pub(crate) struct UpperLevels {
    words: Vec<u64>,
    above: TwoLevels,
}

impl Model for UpperLevels {
    ghost use Rattle.std.specs.Prelude.{◌≡◌, ◌≤◌, length};
    ghost use Rattle.number_set.specs.Levels.{Summarizes};
    ghost use Rattle.number_set.specs.Numbers.{Numbers, coded_numbers, numbers_in};

    ghost Value = { Numbers };

    ghost coded = { coded_numbers };

    ghost view = { λ s. numbers_in s.words.items };

    ghost invariant = { λ s. (length s.words.items ≤ 4096) × Summarizes s.above s.words.items };
}

impl UpperLevels {
    /// Empty levels with room for the numbers below a bound, or an error where there is no memory for them.
    pub(crate) fn open(alloc: Global, bound: u32) -> Result<Self, AllocError>
        requires { bound ≤ 262144 }
        ensures empty { IfOk result (λ s. s.members ≡ set.empty) }
        ensures bound { IfOk result (λ s. s.bound ≡ room_for bound) }
        ensures enough { IfOk result (λ s. bound ≤ s.bound) }
        ensures most { IfOk result (λ s. s.bound ≤ 262144) }
    {
        Ok(UpperLevels {
            words: words::open(alloc, (bound + 63) / 64)?,
            above: TwoLevels::new(),
        })
    }

    /// Whether a number is a member.
    #[inline]
    pub(crate) fn contains(&self, number: u32) -> bool
        requires { number < self.now.bound }
        ensures { result ≡ set.contains self.now.members number }
    {
        words::contains(&self.words, number)
    }

    /// Puts a number in.
    #[inline]
    pub(crate) fn insert(&mut self, number: u32)
        requires { number < self.old.bound }
        ensures { self.new ≡ record self.old { members = set.insert self.old.members number } }
    {
        if words::insert(&mut self.words, number) {
            self.above.insert(number / 64);
        }
    }

    /// Takes a number out.
    #[inline]
    pub(crate) fn remove(&mut self, number: u32)
        requires { number < self.old.bound }
        ensures { self.new ≡ record self.old { members = set.remove self.old.members number } }
    {
        if words::remove(&mut self.words, number) {
            self.above.remove(number / 64);
        }
    }

    /// Puts in the 2^order numbers from `first` upwards. `first` is a multiple of 2^order, and order is 9 at most.
    #[inline(never)]
    pub(crate) fn insert_run(&mut self, first: u32, order: u32)
        requires order { order ≤ 9 }
        requires aligned { first % 2 ^ order ≡ 0 }
        requires within { first + 2 ^ order ≤ self.old.bound }
        ensures run { (number : ℕ) → set.contains self.new.members number ≡ (in_run first (2 ^ order) number || set.contains self.old.members number) }
        ensures bound { self.new.bound ≡ self.old.bound }
    {
        if words::insert_run(&mut self.words, first, order) {
            self.above.insert_run(first / 64, order.saturating_sub(6));
        }
    }

    /// Takes them out.
    #[inline(never)]
    pub(crate) fn remove_run(&mut self, first: u32, order: u32)
        requires order { order ≤ 9 }
        requires aligned { first % 2 ^ order ≡ 0 }
        requires within { first + 2 ^ order ≤ self.old.bound }
        ensures run { (number : ℕ) → set.contains self.new.members number ≡ (not (in_run first (2 ^ order) number) && set.contains self.old.members number) }
        ensures bound { self.new.bound ≡ self.old.bound }
    {
        if words::remove_run(&mut self.words, first, order) {
            self.above.remove_run(first / 64, order.saturating_sub(6));
        }
    }

    /// Whether they are all members.
    #[inline]
    pub(crate) fn has_run(&self, first: u32, order: u32) -> bool
        requires order { order ≤ 9 }
        requires aligned { first % 2 ^ order ≡ 0 }
        requires within { first + 2 ^ order ≤ self.now.bound }
        ensures { IsTrue result ↔ ((number : ℕ) → in_run first (2 ^ order) number ≡ true → set.contains self.now.members number ≡ true) }
    {
        words::has_run(&self.words, first, order)
    }

    /// Puts in all numbers below a bound.
    pub(crate) fn insert_below(&mut self, bound: u32)
        requires { bound ≤ self.old.bound }
        ensures numbers { (number : ℕ) → set.contains self.new.members number ≡ (nat_lt number bound || set.contains self.old.members number) }
        ensures bound { self.new.bound ≡ self.old.bound }
    {
        words::insert_below(&mut self.words, bound);
        self.above.insert_below((bound + 63) / 64);
    }

    /// The lowest number of the set, if it has one.
    #[inline]
    pub(crate) fn first(&self) -> Option<u32>
        ensures first { MatchOption result (NoneAtAll (set.contains self.now.members)) (IsFirst (set.contains self.now.members)) }
        ensures within { IfSome result (λ n. n < self.now.bound) }
    {
        let Some(word) = self.above.first() else {
            return None;
        };
        Some(words::first_in(&self.words, word))
    }

    /// The lowest number of the set, or another one where it has none.
    #[inline(never)]
    pub(crate) fn first_or(&self, other: u32) -> u32
        ensures { StartsAt (set.contains self.now.members) other result }
    {
        self.first().unwrap_or(other)
    }

    /// The highest number of the set, if it has one.
    #[inline]
    pub(crate) fn last(&self) -> Option<u32>
        ensures last { MatchOption result (NoneAtAll (set.contains self.now.members)) (IsLast (set.contains self.now.members)) }
        ensures within { IfSome result (λ n. n < self.now.bound) }
    {
        let Some(word) = self.above.last() else {
            return None;
        };
        Some(words::last_in(&self.words, word))
    }

    /// The lowest number of the set above another one, if it has one.
    #[inline]
    pub(crate) fn after(&self, number: u32) -> Option<u32>
        requires { number < self.now.bound }
        ensures next { MatchOption result (NoneAbove (set.contains self.now.members) number) (IsNext (set.contains self.now.members) number) }
        ensures within { IfSome result (λ n. n < self.now.bound) }
    {
        if let Some(found) = words::next_in_word(&self.words, number) {
            return Some(found);
        }
        let Some(word) = self.above.after(number / 64) else {
            return None;
        };
        Some(words::first_in(&self.words, word))
    }

    /// The highest number of the set below another one, if it has one.
    #[inline]
    pub(crate) fn before(&self, number: u32) -> Option<u32>
        requires { number < self.now.bound }
        ensures previous { MatchOption result (NoneBelow (set.contains self.now.members) number) (IsPrevious (set.contains self.now.members) number) }
        ensures within { IfSome result (λ n. n < self.now.bound) }
    {
        if let Some(found) = words::previous_in_word(&self.words, number) {
            return Some(found);
        }
        let Some(word) = self.above.before(number / 64) else {
            return None;
        };
        Some(words::last_in(&self.words, word))
    }
}
