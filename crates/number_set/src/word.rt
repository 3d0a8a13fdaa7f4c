//! The bits of one word.

ghost use Rattle.std.specs.Prelude.{◌≡◌, ℕ, ◌+◌, ◌^◌, ◌<◌, ◌≤◌, nat_lt, MatchOption, IfSome};
ghost use Rattle.number_set.specs.Bits.{has_bit};
ghost use Rattle.number_set.specs.Finds.{IsFirst, IsFrom, IsLast, IsNext, IsPrevious, NoneAbove, NoneBelow, NoneFrom};
ghost use Rattle.number_set.specs.Runs.{begins_run, in_run};

/// For each order, the word whose set bits are its lowest 2^order ones.
const LOW_BITS: [u64; 7] = [0x1, 0x3, 0xf, 0xff, 0xffff, 0xffff_ffff, u64::MAX];

/// The word whose set bits are the even ones.
const EVEN_BITS: u64 = 0x5555_5555_5555_5555;

/// The word whose set bits are the multiples of 4.
const FOURTH_BITS: u64 = 0x1111_1111_1111_1111;

/// The lowest bit that is set in a word that isn't empty.
#[inline(always)]
pub(crate) fn lowest_bit(word: u64) -> u32
    requires { 0 < word }
    ensures first { IsFirst (has_bit word) result }
    ensures within { result < 64 }
{
    word.trailing_zeros()
}

/// The highest bit that is set in a word that isn't empty.
#[inline(always)]
pub(crate) fn highest_bit(word: u64) -> u32
    requires { 0 < word }
    ensures last { IsLast (has_bit word) result }
    ensures within { result < 64 }
{
    63 - word.leading_zeros()
}

/// The lowest bit above another one that is set, if there is one.
#[inline(always)]
pub(crate) fn next_bit(word: u64, from: u32) -> Option<u32>
    requires { from < 64 }
    ensures next { MatchOption result (NoneAbove (has_bit word) from) (IsNext (has_bit word) from) }
    ensures within { IfSome result (λ bit. bit < 64) }
{
    let above = word >> from >> 1;
    if above == 0 {
        return None;
    }
    Some(from + 1 + above.trailing_zeros())
}

/// The lowest bit from one on that is set, if there is one.
#[inline(always)]
pub(crate) fn bit_from(word: u64, from: u32) -> Option<u32>
    requires { from < 64 }
    ensures next { MatchOption result (NoneFrom (has_bit word) from) (IsFrom (has_bit word) from) }
    ensures within { IfSome result (λ bit. bit < 64) }
{
    let rest = word >> from;
    if rest == 0 {
        return None;
    }
    Some(from + rest.trailing_zeros())
}

/// The highest bit below another one that is set, if there is one.
#[inline(always)]
pub(crate) fn previous_bit(word: u64, from: u32) -> Option<u32>
    requires { from < 64 }
    ensures previous { MatchOption result (NoneBelow (has_bit word) from) (IsPrevious (has_bit word) from) }
    ensures within { IfSome result (λ bit. bit < 64) }
{
    let below = word & ((1 << from) - 1);
    if below == 0 {
        return None;
    }
    Some(highest_bit(below))
}

/// The word whose set bits are its lowest `count` ones.
#[inline(always)]
pub(crate) fn low_bits(count: u32) -> u64
    requires some { 0 < count }
    requires within { count ≤ 64 }
    ensures { (bit : ℕ) → has_bit result bit ≡ nat_lt bit count }
{
    u64::MAX >> (64 - count)
}

/// The word whose set bits are 2^order ones from bit `first` upwards.
#[inline(always)]
pub(crate) fn run_bits(first: u32, order: u32) -> u64
    requires order { order ≤ 6 }
    requires within { first + 2 ^ order ≤ 64 }
    ensures { (bit : ℕ) → has_bit result bit ≡ in_run first (2 ^ order) bit }
{
    LOW_BITS[order as usize] << first
}

/// The word whose set bits are those of another one at which a run of 2^order set bits begins, each at a multiple of 2^order. Order is 2
/// at most.
#[inline(always)]
pub(crate) fn run_starts(word: u64, order: u32) -> u64
    requires { order ≤ 2 }
    ensures { (bit : ℕ) → bit < 64 → has_bit result bit ≡ begins_run (has_bit word) order bit }
{
    let pairs = word & word >> 1;
    match order {
        0 => word,
        1 => pairs & EVEN_BITS,
        _ => pairs & pairs >> 2 & FOURTH_BITS,
    }
}
