//! A row: words that somebody owns alone.

ghost use Rattle.std.specs.Prelude.{◌≡◌, ◌+◌, ◌*◌, ◌^◌, ◌<◌, ◌≤◌, ◌↔◌, ◌++◌, [], true, false, length, take, drop, IsTrue};
ghost use denote.RawPtr.{◌+ₚ◌};

use crate::half::Half;
use crate::right::Right;
use std::marker::Model;
use std_alloc::vec::Lodged;

/// Words of a ground, one after the other, that nobody else reaches. It can go to another thread. One that is dropped is
/// lost to its ground, which then keeps its memory for ever.
#[derive(Drop)]
pub struct Row {
    list: Vec<u64, Lodged>,
}

impl Model for Row {
    ghost use Rattle.std.specs.Prelude.{◌^◌, ◌<◌};
    ghost use denote.RawPtr.{InBlock};
    ghost use Rattle.row_core.specs.Seen.{Row as Seen, row_code};

    ghost Value = { Seen };

    ghost coded = { row_code };

    ghost view = { λ r. record { at = r.list.ptr; words = r.list.items } };

    ghost invariant = { λ r. (r.list.len < 2 ^ 60) × InBlock r.list.ptr };
}

impl Row {
    ghost use denote.RawPtr.{InBlock};
    ghost use Rattle.std.specs.Borrow.{sem};
    ghost use Rattle.row_core.specs.Lends.{lends_words};
    ghost use Rattle.row_core.specs.Parts.{AreHere};

    /// The row of these words, which begin at `at`.
    pub(crate) fn of(right: Right, at: *mut u64, len: usize) -> Row
        requires { (right.ptr ≡ at) × (length right.items ≡ len) × (len < 2 ^ 60) × (right.halves ≡ []) × AreHere right.here len × InBlock at }
        ensures { (result.at ≡ at) × (result.words ≡ right.items) }
    {
        Row {
            list: right.into_vec(at, len),
        }
    }

    /// The right to the words, where they begin and how many there are: what `of` makes a row of.
    #[inline(always)]
    pub(crate) fn into_parts(self) -> (Right, *mut u64, usize)
        ensures { (result.0.ptr ≡ self.at) × (result.0.items ≡ self.words) × (result.0.halves ≡ []) × AreHere result.0.here (length self.words)
            × (result.1 ≡ self.at) × InBlock self.at × (result.2 ≡ length self.words) × (length self.words < 2 ^ 60) }
    {
        let Row { mut list } = self;
        let (at, len) = (list.as_mut_ptr(), list.len());
        (Right::of_vec(list), at, len)
    }

    /// The words.
    #[inline]
    pub fn words(&self) -> &[u64]
        ensures { result.now ≡ self.now.words }
    {
        self.list.as_slice()
    }

    /// The words, to be written.
    #[inline]
    pub fn words_mut(&mut self) -> &mut [u64]
        ensures* writes_back { sem 𝓛 (lends_words self.entry result) }
        ensures value { result.now ≡ self.old.words }
    {
        self.list.as_mut_slice()
    }

    /// How many words the row has.
    #[inline]
    pub fn len(&self) -> usize
        ensures { result ≡ length self.now.words }
    {
        self.list.len()
    }

    /// Copies the words of another row, which has as many.
    pub fn copy_from(&mut self, source: &Row)
        requires { length source.now.words ≡ length self.old.words }
        ensures words { self.new.words ≡ source.now.words }
        ensures at { self.new.at ≡ self.old.at }
    {
        self.list.as_mut_slice().copy_from_slice(source.words());
    }

    /// Whether both rows have the same words.
    pub fn equals(&self, other: &Row) -> bool
        ensures { IsTrue result ↔ (self.now.words ≡ other.now.words) }
    {
        self.words() == other.words()
    }

    /// Cuts the row in two. Nothing is copied.
    pub fn cut(self, mid: usize) -> (Row, Row)
        requires { mid ≤ length self.words }
        ensures first { (result.0.at ≡ self.at) × (result.0.words ≡ take mid self.words) }
        ensures second { (result.1.at ≡ self.at +ₚ mid * 8) × (result.1.words ≡ drop mid self.words) }
    {
        let (right, at, len) = self.into_parts();
        let (first, second) = right.cut(mid);
        let after = unsafe { at.byte_add(mid * 8) };
        (Row::of(first, at, mid), Row::of(second, after, len - mid))
    }

    /// Joins the row with the one that lies right after it. Nothing is copied.
    pub fn join(self, after: Row) -> Row
        requires after { after.at ≡ self.at +ₚ length self.words * 8 }
        requires most { length self.words + length after.words < 2 ^ 60 }
        ensures { (result.at ≡ self.at) × (result.words ≡ self.words ++ after.words) }
    {
        let (first, at, len) = self.into_parts();
        let (second, _, more) = after.into_parts();
        Row::of(first.join(second), at, len + more)
    }

    /// Parts the right to the words in two halves. From then on nobody writes them, and who has a half reads them.
    pub fn halve(self) -> (Half, Half)
        ensures first { (result.0.at ≡ self.at) × (result.0.words ≡ self.words) × (result.0.is_first ≡ true) }
        ensures second { (result.1.at ≡ self.at) × (result.1.words ≡ self.words) × (result.1.is_first ≡ false) }
    {
        let (right, at, len) = self.into_parts();
        let (first, second) = right.halve();
        (Half::of(first, at, len), Half::of(second, at, len))
    }
}
