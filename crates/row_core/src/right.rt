//! The right to words of an allocation. It has no bytes: only the prover knows who has it.

ghost use Rattle.std.specs.Prelude.{◌≡◌, ℕ, ◌+◌, ◌*◌, ◌^◌, ◌<◌, ◌≤◌, ◌++◌, ◌∷◌, [], Bool, true, false, List, length, take, drop, replicate};
ghost use denote.RawPtr.{Ptr, block_of, count_of, ◌+ₚ◌};
ghost use Rattle.row_core.specs.Owned.{IsPlaced, share_of, words_owned, words_lent};
ghost use Rattle.row_core.specs.Parts.{part, spliced, AreHere};

use std::marker::Model;
use std::slice;
use std_alloc::vec::{Lodged, lodge};

/// The right to those words at `ptr` that are here. Who has all of it reads and writes them; who has a half of it, reads
/// them. Of a word that isn't here, `items` has some value, which no memory fixes.
#[derive(Drop)]
pub(crate) struct Right {
    ghost ptr: { Ptr },
    ghost items: { List ℕ },
    ghost here: { List Bool },
    ghost halves: { List Bool },
    ghost lengths: { length here ≡ length items },
    ghost placed: { IsPlaced ptr },
}

impl Model for Right {
    ghost also_owns = { λ r. words_owned (share_of r.halves) r.items r.here (block_of r.ptr) (count_of r.ptr) };

    ghost also_shares = { λ r _ κ. words_lent r.items r.here (block_of r.ptr) (count_of r.ptr) κ };
}

// What it owns names no thread.
unsafe impl Send for Right {}

unsafe impl Sync for Right {}

impl Right {
    /// The words of a part that is here. They begin at `at`.
    #[inline(always)]
    pub(crate) fn words(&self, at: *const u64, from: usize, count: usize) -> &[u64]
        requires { (at ≡ self.now.ptr +ₚ from * 8) × (from + count ≤ length self.now.items) × (count < 2 ^ 60) × AreHere (part self.now.here from count) count }
        ensures { result.now ≡ part self.now.items from count }
    {
        unsafe { slice::from_raw_parts(at, count) }
    }

    /// Takes the right to a part out. The part has to be here.
    pub(crate) fn take(self, from: usize, count: usize) -> (Right, Right)
        requires { (from + count ≤ length self.items) × AreHere (part self.here from count) count }
        ensures { (result.0.ptr ≡ self.ptr) × (result.0.items ≡ self.items) × (result.0.halves ≡ self.halves) × (result.0.here ≡ spliced self.here from count (replicate count false))
            × (result.1.ptr ≡ self.ptr +ₚ from * 8) × (result.1.items ≡ part self.items from count) × (result.1.halves ≡ self.halves) × AreHere result.1.here count }
    {
        let Right {} = self;
        (Right {}, Right {})
    }

    /// Puts the right to a part back. The part was out, since no word has two owners.
    pub(crate) fn put(self, from: usize, taken: Right) -> Right
        requires { (from + length taken.items ≤ length self.items) × (taken.ptr ≡ self.ptr +ₚ from * 8) × AreHere taken.here (length taken.items) × (taken.halves ≡ []) × (self.halves ≡ []) }
        ensures { (result.ptr ≡ self.ptr) × (result.items ≡ spliced self.items from (length taken.items) taken.items) × (result.halves ≡ [])
            × (result.here ≡ spliced self.here from (length taken.items) (replicate (length taken.items) true)) × (part self.here from (length taken.items) ≡ replicate (length taken.items) false) }
    {
        let Right {} = self;
        let Right {} = taken;
        Right {}
    }

    /// Cuts the right in two.
    pub(crate) fn cut(self, mid: usize) -> (Right, Right)
        requires { (mid ≤ length self.items) × AreHere self.here (length self.items) }
        ensures { (result.0.ptr ≡ self.ptr) × (result.0.items ≡ take mid self.items) × (result.0.halves ≡ self.halves) × AreHere result.0.here (length result.0.items)
            × (result.1.ptr ≡ self.ptr +ₚ mid * 8) × (result.1.items ≡ drop mid self.items) × (result.1.halves ≡ self.halves) × AreHere result.1.here (length result.1.items) }
    {
        let Right {} = self;
        (Right {}, Right {})
    }

    /// Joins the right with that to the words right after it.
    pub(crate) fn join(self, after: Right) -> Right
        requires { (after.ptr ≡ self.ptr +ₚ length self.items * 8) × (after.halves ≡ self.halves) × AreHere self.here (length self.items) × AreHere after.here (length after.items) }
        ensures { (result.ptr ≡ self.ptr) × (result.items ≡ self.items ++ after.items) × (result.halves ≡ self.halves) × AreHere result.here (length result.items) }
    {
        let Right {} = self;
        let Right {} = after;
        Right {}
    }

    /// Parts the right in two halves.
    pub(crate) fn halve(self) -> (Right, Right)
        requires { AreHere self.here (length self.items) }
        ensures { (result.0.ptr ≡ self.ptr) × (result.0.items ≡ self.items) × (result.0.here ≡ self.here) × (result.0.halves ≡ true ∷ self.halves)
            × (result.1.ptr ≡ self.ptr) × (result.1.items ≡ self.items) × (result.1.here ≡ self.here) × (result.1.halves ≡ false ∷ self.halves) }
    {
        let Right {} = self;
        (Right {}, Right {})
    }

    /// Puts two halves together. Both showed the same words.
    pub(crate) fn rejoin(self, other: Right) -> Right
        requires { (self.halves ≡ true ∷ []) × (other.halves ≡ false ∷ []) × (other.ptr ≡ self.ptr) × (length other.items ≡ length self.items)
            × AreHere self.here (length self.items) × AreHere other.here (length other.items) }
        ensures { (result.ptr ≡ self.ptr) × (result.items ≡ self.items) × (result.here ≡ self.here) × (result.halves ≡ []) × (other.items ≡ self.items) }
    {
        let Right {} = self;
        let Right {} = other;
        Right {}
    }

    /// A vector over the words, which neither grows nor frees them.
    pub(crate) fn into_vec(self, ptr: *mut u64, len: usize) -> Vec<u64, Lodged>
        requires { (self.ptr ≡ ptr) × (length self.items ≡ len) × (len < 2 ^ 60) × (self.halves ≡ []) × AreHere self.here len }
        ensures { (result.items ≡ self.items) × (result.len ≡ len) × (result.cap ≡ len) × (result.ptr ≡ ptr) }
    {
        let Right {} = self;
        unsafe { lodge(ptr, len, len) }
    }

    /// The right to the words of such a vector.
    pub(crate) fn of_vec(list: Vec<u64, Lodged>) -> Right
        ensures { (result.ptr ≡ list.ptr) × (result.items ≡ list.items) × (result.halves ≡ []) × AreHere result.here (length list.items) }
    {
        let _len = list.dislodge();
        Right {}
    }
}
