//! Words of memory of its own or of a row that was given, of which rows are lent out.

ghost use Rattle.std.specs.Prelude.{◌≡◌, ℕ, ◌+◌, ◌*◌, ◌^◌, ◌<◌, ◌≤◌, ◌⊎◌, [], List, true, false, length, take, drop, replicate, is_some, IfOk, IfSome};
ghost use Rattle.std.specs.Fn.{FnOnceTakesAtMut, FnOnceReturnsAtMut};
ghost use denote.RawPtr.{◌+ₚ◌};
ghost use Rattle.row_core.specs.Parts.{part, spliced, AreHere};

use crate::allocation::Allocation;
use crate::right::Right;
use crate::row::Row;
use core::mem::replace_with;
use std::alloc::{AllocError, Global};
use std::marker::Model;
use std::mem::ManuallyDrop;

/// Words that lie one after the other, in memory of the ground's own or in a row that somebody gave. Rows of them can be
/// lent out, and are then reached by whoever has the row alone.
pub struct Ground {
    ptr: *mut u64,
    len: usize,
    right: Right,
    // The memory, if it is the ground's own.
    allocation: Option<Allocation>,
    // How many words are out.
    out: usize,
}

impl Model for Ground {
    ghost use Rattle.std.specs.Prelude.{◌≡◌, ◌<◌, ◌^◌, [], length, is_none, IfSome};
    ghost use denote.RawPtr.{InBlock};
    ghost use Rattle.row_core.specs.Owned.{count_out};
    ghost use Rattle.row_core.specs.Seen.{Ground as Seen, ground_code};

    ghost Value = { Seen };

    ghost coded = { ground_code };

    ghost view = { λ g. record { at = g.ptr; words = g.right.items; here = g.right.here; given = is_none g.allocation } };

    ghost invariant = { λ g. (g.right.ptr ≡ g.ptr) × (g.right.halves ≡ []) × IfSome g.allocation (λ a. (a.ptr ≡ g.ptr) × (a.len ≡ g.len)) × (length g.right.items ≡ g.len) × (g.out ≡ count_out g.right.here) × (length g.right.here ≡ length g.right.items) × (g.len < 2 ^ 60) × InBlock g.ptr };
}

unsafe impl Send for Ground {}

unsafe impl Sync for Ground {}

// Where words are out, the memory is kept: whoever has them may go on to use them. A row that was given and isn't taken
// back by `end` is dropped, as any row may be.
impl Drop for Ground {
    #[tactic(auto, using(crate::proofs::Lists::none_out))]
    fn drop(self) {
        if self.out == 0 {
            self.end();
            return;
        }
        let Ground {
            ptr: _,
            len: _,
            right: _,
            allocation,
            out: _,
        } = self;
        let _kept = unsafe { ManuallyDrop::new_unchecked(allocation) };
    }
}

impl Ground {
    /// Asks for memory once: so many words, all 0, all here. There may be none.
    #[tactic(auto, using(crate::proofs::Lists::count_true))]
    pub fn open(alloc: Global, count: usize) -> Result<Ground, AllocError>
        ensures words { IfOk result (λ g. g.words ≡ replicate count 0) }
        ensures here { IfOk result (λ g. g.here ≡ replicate count true) }
        ensures given { IfOk result (λ g. g.given ≡ false) }
    {
        let mut list = Vec::from_elem(alloc, 0u64, count)?;
        let ptr = list.as_mut_ptr();
        let (allocation, right) = Allocation::without_right(list);
        Ok(Ground {
            ptr,
            len: count,
            right,
            allocation: Some(allocation),
            out: 0,
        })
    }

    /// The words of a row that somebody gives. They stay where they are.
    #[tactic(auto, using(crate::proofs::Lists::count_true))]
    pub fn over(row: Row) -> Ground
        ensures words { result.words ≡ row.words }
        ensures here { AreHere result.here (length row.words) }
        ensures at { (result.at ≡ row.at) × (result.given ≡ true) }
    {
        let (right, ptr, len) = row.into_parts();
        Ground {
            ptr,
            len,
            right,
            allocation: None,
            out: 0,
        }
    }

    /// Ends the ground. All words have to be here. A row that was given comes back, and other memory is given back to the system.
    pub fn end(self) -> Option<Row>
        requires { AreHere self.here (length self.words) }
        ensures given { is_some result ≡ self.given }
        ensures row { IfSome result (λ row. (row.at ≡ self.at) × (row.words ≡ self.words)) }
    {
        let Ground {
            ptr,
            len,
            right,
            allocation,
            out: _,
        } = self;
        let Some(allocation) = allocation else {
            return Some(Row::of(right, ptr, len));
        };
        drop(allocation.with_right(right));
        None
    }

    /// Whether the words lie in a row that somebody gave.
    pub fn is_given(&self) -> bool
        ensures { result ≡ self.now.given }
    {
        self.allocation.is_none()
    }

    /// The words of a part that is here.
    #[inline(always)]
    pub fn part(&self, from: usize, count: usize) -> &[u64]
        requires within { from + count ≤ length self.now.words }
        requires here { AreHere (part self.now.here from count) count }
        ensures { result.now ≡ part self.now.words from count }
    {
        let at = unsafe { self.ptr.byte_add(from * 8) };
        self.right.words(at.cast_const(), from, count)
    }

    /// Lends a part that is here to `change`, as one slice, and gives what it answers.
    #[inline(always)]
    #[tactic(auto, using(crate::proofs::Lists::part_long))]
    pub fn with<R, F: FnOnce(&mut [u64]) -> R>(&mut self, from: usize, count: usize, change: F) -> R
        requires within { from + count ≤ length self.old.words }
        requires here { AreHere (part self.old.here from count) count }
        requires callable { FnOnceTakesAtMut F.FnOnce change (part self.old.words from count) }
        ensures changed { (words : List ℕ) × (length words ≡ count) × FnOnceReturnsAtMut F.FnOnce change (part self.old.words from count) result words × (self.new.words ≡ spliced self.old.words from count words) }
        ensures here { self.new.here ≡ self.old.here }
        ensures at { (self.new.at ≡ self.old.at) × (self.new.given ≡ self.old.given) }
    {
        let at = unsafe { self.ptr.byte_add(from * 8) };
        let mut words = replace_with(&mut self.right, (from, count), take).into_vec(at, count);
        let answer = change(words.as_mut_slice());
        replace_with(&mut self.right, (from, Right::of_vec(words)), put);
        answer
    }

    /// Gives the words from one on these values. They have to be here.
    #[inline(always)]
    #[tactic(auto, using(crate::proofs::Lists::part_long))]
    pub fn store(&mut self, from: usize, values: &[u64])
        requires within { from + length values.now ≤ length self.old.words }
        requires here { AreHere (part self.old.here from (length values.now)) (length values.now) }
        ensures words { self.new.words ≡ spliced self.old.words from (length values.now) values.now }
        ensures here { self.new.here ≡ self.old.here }
        ensures at { (self.new.at ≡ self.old.at) × (self.new.given ≡ self.old.given) }
    {
        let at = unsafe { self.ptr.byte_add(from * 8) };
        let mut words = replace_with(&mut self.right, (from, values.len()), take).into_vec(
            at,
            values.len(),
        );
        words.as_mut_slice().copy_from_slice(values);
        replace_with(&mut self.right, (from, Right::of_vec(words)), put);
    }

    /// Sets the words of a part to 0. It has to be here.
    #[inline(always)]
    #[tactic(auto, using(crate::proofs::Lists::part_long))]
    pub fn clear(&mut self, from: usize, count: usize)
        requires within { from + count ≤ length self.old.words }
        requires here { AreHere (part self.old.here from count) count }
        ensures words { self.new.words ≡ spliced self.old.words from count (replicate count 0) }
        ensures here { self.new.here ≡ self.old.here }
        ensures at { (self.new.at ≡ self.old.at) × (self.new.given ≡ self.old.given) }
    {
        let mut row = self.lend(from, count);
        row.words_mut().fill(0);
        self.take_back(from, row);
    }

    /// Copies a part into another, which lies beside it. Both have to be here.
    #[inline(always)]
    #[tactic(auto, using(crate::proofs::Lists::here_again, crate::proofs::Lists::lent_beside, crate::proofs::Lists::part_long))]
    pub fn copy_within(&mut self, from: usize, to: usize, count: usize)
        requires within { (from + count ≤ length self.old.words) × (to + count ≤ length self.old.words) }
        requires beside { (from + count ≤ to) ⊎ (to + count ≤ from) }
        requires source { AreHere (part self.old.here from count) count }
        requires target { AreHere (part self.old.here to count) count }
        ensures words { self.new.words ≡ spliced self.old.words to count (part self.old.words from count) }
        ensures here { self.new.here ≡ self.old.here }
        ensures at { (self.new.at ≡ self.old.at) × (self.new.given ≡ self.old.given) }
    {
        let mut target = self.lend(to, count);
        target.words_mut().copy_from_slice(self.part(from, count));
        self.take_back(to, target);
    }

    /// Lends a part out that is here, as a row. Nothing is copied.
    #[tactic(auto, using(crate::proofs::Lists::count_lent, crate::proofs::Lists::count_most, crate::proofs::Lists::spliced_long, crate::proofs::Lists::part_long))]
    pub fn lend(&mut self, from: usize, count: usize) -> Row
        requires within { from + count ≤ length self.old.words }
        requires here { AreHere (part self.old.here from count) count }
        ensures row { (result.at ≡ self.old.at +ₚ from * 8) × (result.words ≡ part self.old.words from count) }
        ensures words { self.new.words ≡ self.old.words }
        ensures here { self.new.here ≡ spliced self.old.here from count (replicate count false) }
        ensures at { (self.new.at ≡ self.old.at) × (self.new.given ≡ self.old.given) }
    {
        let at = unsafe { self.ptr.byte_add(from * 8) };
        let right = replace_with(&mut self.right, (from, count), take);
        self.out += count;
        Row::of(right, at, count)
    }

    /// Takes a row back that lies here, from this word on. Its words were out.
    #[tactic(auto, using(crate::proofs::Lists::count_back, crate::proofs::Lists::out_least, crate::proofs::Lists::spliced_long))]
    pub fn take_back(&mut self, from: usize, row: Row)
        requires within { from + length row.words ≤ length self.old.words }
        requires place { row.at ≡ self.old.at +ₚ from * 8 }
        ensures words { self.new.words ≡ spliced self.old.words from (length row.words) row.words }
        ensures here { self.new.here ≡ spliced self.old.here from (length row.words) (replicate (length row.words) true) }
        ensures was_out { part self.old.here from (length row.words) ≡ replicate (length row.words) false }
        ensures at { (self.new.at ≡ self.old.at) × (self.new.given ≡ self.old.given) }
    {
        let (right, _, count) = row.into_parts();
        replace_with(&mut self.right, (from, right), put);
        self.out -= count;
    }
}

fn take(right: Right, which: (usize, usize)) -> (Right, Right)
    requires { (which.0 + which.1 ≤ length right.items) × AreHere (part right.here which.0 which.1) which.1 }
    ensures left { (result.0.ptr ≡ right.ptr) × (result.0.items ≡ right.items) × (result.0.halves ≡ right.halves) × (result.0.here ≡ spliced right.here which.0 which.1 (replicate which.1 false)) }
    ensures taken { (result.1.ptr ≡ right.ptr +ₚ which.0 * 8) × (result.1.items ≡ part right.items which.0 which.1) × (result.1.halves ≡ right.halves) × AreHere result.1.here which.1 }
{
    right.take(which.0, which.1)
}

fn put(right: Right, which: (usize, Right)) -> (Right, ())
    requires { (which.0 + length which.1.items ≤ length right.items) × (which.1.ptr ≡ right.ptr +ₚ which.0 * 8) × AreHere which.1.here (length which.1.items) × (which.1.halves ≡ []) × (right.halves ≡ []) }
    ensures { (result.0.ptr ≡ right.ptr) × (result.0.items ≡ spliced right.items which.0 (length which.1.items) which.1.items) × (result.0.halves ≡ [])
        × (result.0.here ≡ spliced right.here which.0 (length which.1.items) (replicate (length which.1.items) true)) × (part right.here which.0 (length which.1.items) ≡ replicate (length which.1.items) false) }
{
    let (from, taken) = which;
    (right.put(from, taken), ())
}
