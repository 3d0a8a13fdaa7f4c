//! Sets of numbers below 64.

ghost use Rattle.std.specs.Prelude.{◌≡◌, ℕ, ◌+◌, ◌^◌, ◌<◌, ◌≤◌, ◌&&◌, ◌||◌, not, nat_lt, MatchOption, IfSome};
ghost use Rattle.std.specs.FinSet as set;
ghost use Rattle.number_set.specs.Finds.{IsFirst, IsLast, IsNext, IsPrevious, NoneAtAll, NoneAbove, NoneBelow};
ghost use Rattle.number_set.specs.Runs.{in_run};

use crate::word::{highest_bit, low_bits, lowest_bit, next_bit, previous_bit, run_bits};
use std::marker::Model;

/// A set of numbers below 64: the bits of one word.
#[derive(Drop)]
pub(crate) struct OneLevel {
    bits: u64,
}

impl Model for OneLevel {
    ghost use Rattle.std.specs.Prelude.{◌^◌, ◌<◌};
    ghost use Rattle.std.specs.Ordering.{nat_cmp};
    ghost use Rattle.std.specs.FinSet as set;
    ghost use Rattle.std.specs.Coded.{coded_ℕ};
    ghost use Rattle.number_set.specs.Bits.{has_bit};
    ghost use Rattle.number_set.specs.Numbers.{gathered};

    ghost Value = { set.FinSet nat_cmp };

    ghost coded = { set.code coded_ℕ };

    ghost view = { λ s. gathered (has_bit s.bits) 64 };

    ghost invariant = { λ s. s.bits < 2 ^ 64 };
}

impl OneLevel {
    /// The empty set.
    pub(crate) fn new() -> Self
        ensures { result ≡ set.empty }
    {
        OneLevel { bits: 0 }
    }

    /// Puts a number in.
    #[inline(always)]
    pub(crate) fn insert(&mut self, number: u32)
        requires { number < 64 }
        ensures { self.new ≡ set.insert self.old number }
    {
        self.bits |= 1 << number;
    }

    /// Takes a number out.
    #[inline(always)]
    pub(crate) fn remove(&mut self, number: u32)
        requires { number < 64 }
        ensures { self.new ≡ set.remove self.old number }
    {
        self.bits &= !(1 << number);
    }

    /// Puts in the 2^order numbers from `first` upwards.
    #[inline(always)]
    pub(crate) fn insert_run(&mut self, first: u32, order: u32)
        requires order { order ≤ 6 }
        requires within { first + 2 ^ order ≤ 64 }
        ensures { (number : ℕ) → set.contains self.new number ≡ (in_run first (2 ^ order) number || set.contains self.old number) }
    {
        self.bits |= run_bits(first, order);
    }

    /// Takes them out.
    #[inline(always)]
    pub(crate) fn remove_run(&mut self, first: u32, order: u32)
        requires order { order ≤ 6 }
        requires within { first + 2 ^ order ≤ 64 }
        ensures { (number : ℕ) → set.contains self.new number ≡ (not (in_run first (2 ^ order) number) && set.contains self.old number) }
    {
        self.bits &= !run_bits(first, order);
    }

    /// Puts in all numbers below a bound.
    pub(crate) fn insert_below(&mut self, bound: u32)
        requires { bound ≤ 64 }
        ensures { (number : ℕ) → set.contains self.new number ≡ (nat_lt number bound || set.contains self.old number) }
    {
        if bound != 0 {
            self.bits |= low_bits(bound);
        }
    }

    /// The lowest number of the set, if it has one.
    #[inline(always)]
    pub(crate) fn first(&self) -> Option<u32>
        ensures first { MatchOption result (NoneAtAll (set.contains self.now)) (IsFirst (set.contains self.now)) }
        ensures within { IfSome result (λ n. n < 64) }
    {
        if self.bits == 0 {
            return None;
        }
        Some(lowest_bit(self.bits))
    }

    /// The highest number of the set, if it has one.
    #[inline(always)]
    pub(crate) fn last(&self) -> Option<u32>
        ensures last { MatchOption result (NoneAtAll (set.contains self.now)) (IsLast (set.contains self.now)) }
        ensures within { IfSome result (λ n. n < 64) }
    {
        if self.bits == 0 {
            return None;
        }
        Some(highest_bit(self.bits))
    }

    /// The lowest number of the set above another one, if it has one.
    #[inline(always)]
    pub(crate) fn after(&self, number: u32) -> Option<u32>
        requires { number < 64 }
        ensures next { MatchOption result (NoneAbove (set.contains self.now) number) (IsNext (set.contains self.now) number) }
        ensures within { IfSome result (λ n. n < 64) }
    {
        next_bit(self.bits, number)
    }

    /// The highest number of the set below another one, if it has one.
    #[inline(always)]
    pub(crate) fn before(&self, number: u32) -> Option<u32>
        requires { number < 64 }
        ensures previous { MatchOption result (NoneBelow (set.contains self.now) number) (IsPrevious (set.contains self.now) number) }
        ensures within { IfSome result (λ n. n < 64) }
    {
        previous_bit(self.bits, number)
    }
}
