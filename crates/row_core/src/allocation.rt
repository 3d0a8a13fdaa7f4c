//! An allocation, apart from the right to its words.

ghost use Rattle.std.specs.Prelude.{◌≡◌, ℕ, ◌^◌, ◌<◌, [], List, length, replicate, true};
ghost use Rattle.std.specs.Vec.{with_items};
ghost use base.Fraction.{full_share};
ghost use base.Fml.{ftrue, fex, fall, fwand, fsep, feq};
ghost use denote.RawPtr.{InBlock, block_of, count_of};
ghost use Rattle.row_core.specs.Owned.{Extent, extent_code, words_owned};
ghost use Rattle.row_core.specs.Parts.{AreHere};

use crate::right::Right;
use std::alloc::Global;
use std::marker::{Move, Owns};

/// A vector of words, without the right to them. It waits for that right, and then frees the memory.
pub(crate) struct Allocation {
    list: Vec<u64, Global>,
}

impl Owns for Allocation {
    ghost Value = { Extent };

    ghost coded = { extent_code };

    ghost shr_at = { λ _ _ _. ftrue };
}

impl Move for Allocation {
    ghost own_val = { λ e vs. fex Inside (λ v. fsep (feq ℕ v.list.len e.len) (fall (List ℕ) (λ xs. fwand (fsep (feq ℕ (length xs) e.len) (words_owned full_share xs (replicate (length xs) true) (block_of e.ptr) (count_of e.ptr))) (Fields.own_val (record { list = with_items v.list xs }) vs)))) };
}

// What it owns names no thread, and a `&` to it shows nothing.
unsafe impl Send for Allocation {}

unsafe impl Sync for Allocation {}

impl Allocation {
    /// Takes the right to the words out of a vector.
    pub(crate) fn without_right(list: Vec<u64, Global>) -> (Allocation, Right)
        ensures { (result.0.ptr ≡ list.ptr) × (result.0.len ≡ length list.items)
            × (result.1.ptr ≡ list.ptr) × (result.1.items ≡ list.items) × (result.1.halves ≡ []) × AreHere result.1.here (length list.items) × InBlock list.ptr × (length list.items < 2 ^ 60) }
    {
        (Allocation { list }, Right {})
    }

    /// Puts the right to the words back.
    pub(crate) fn with_right(self, right: Right) -> Vec<u64, Global>
        requires { (right.ptr ≡ self.ptr) × (length right.items ≡ self.len) × (right.halves ≡ []) × AreHere right.here (length right.items) }
        ensures { result.items ≡ right.items }
    {
        let Right {} = right;
        let Allocation { list } = self;
        list
    }
}
