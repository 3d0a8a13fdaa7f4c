//! One of two halves of the right to a row.

ghost use Rattle.std.specs.Prelude.{◌≡◌, ◌^◌, ◌<◌, ◌∷◌, [], true, false, length};
ghost use denote.RawPtr.{InBlock};
ghost use Rattle.row_core.specs.Owned.{is_first};
ghost use Rattle.row_core.specs.Parts.{AreHere};

use crate::right::Right;
use crate::row::Row;
use std::marker::Model;

/// A half of the right to a row: who has one reads the words, and nobody writes them. It can go to another thread. One
/// that is dropped is lost to the ground, and so is the other half.
#[derive(Drop)]
pub struct Half {
    at: *mut u64,
    len: usize,
    right: Right,
}

impl Model for Half {
    ghost use Rattle.std.specs.Prelude.{◌≡◌, ◌^◌, ◌<◌, ◌∷◌, [], length};
    ghost use denote.RawPtr.{InBlock};
    ghost use Rattle.row_core.specs.Owned.{is_first};
    ghost use Rattle.row_core.specs.Parts.{AreHere};
    ghost use Rattle.row_core.specs.Seen.{Half as Seen, half_code};

    ghost Value = { Seen };

    ghost coded = { half_code };

    ghost view = { λ h. record { at = h.right.ptr; words = h.right.items; is_first = is_first h.right.halves } };

    ghost invariant = { λ h. (h.right.ptr ≡ h.at) × (length h.right.items ≡ h.len) × (h.len < 2 ^ 60) × (h.right.halves ≡ is_first h.right.halves ∷ []) × AreHere h.right.here h.len × InBlock h.at };
}

unsafe impl Send for Half {}

unsafe impl Sync for Half {}

impl Half {
    /// The half of the right to these words, which begin at `at`.
    pub(crate) fn of(right: Right, at: *mut u64, len: usize) -> Half
        requires { (right.ptr ≡ at) × (length right.items ≡ len) × (len < 2 ^ 60) × (right.halves ≡ is_first right.halves ∷ []) × AreHere right.here len × InBlock at }
        ensures { (result.at ≡ at) × (result.words ≡ right.items) × (result.is_first ≡ is_first right.halves) }
    {
        Half { at, len, right }
    }

    /// The words.
    #[inline]
    pub fn words(&self) -> &[u64]
        ensures { result.now ≡ self.now.words }
    {
        self.right.words(self.at.cast_const(), 0, self.len)
    }

    /// Puts both halves together. Both showed the same words.
    pub fn rejoin(self, other: Half) -> Row
        requires halves { (self.is_first ≡ true) × (other.is_first ≡ false) }
        requires place { (other.at ≡ self.at) × (length other.words ≡ length self.words) }
        ensures row { (result.at ≡ self.at) × (result.words ≡ self.words) }
        ensures same { other.words ≡ self.words }
    {
        let Half { at, len, right } = self;
        let Half {
            at: _,
            len: _,
            right: other,
        } = other;
        Row::of(right.rejoin(other), at, len)
    }
}
