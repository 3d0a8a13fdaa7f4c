ghost use Rattle.std.specs.Prelude.{◌≡◌, ◌+◌, ◌<◌, ◌++◌, ◌∷◌, [], length, replicate, slice_index_or, IfOk};
ghost use Rattle.std.specs.Borrow.{sem};
ghost use Rattle.std.specs.List.{SwappedAt};

use std::alloc::{AllocError, Global};
use std::marker::Model;
use std::ops::{DerefSlice, DerefSliceMut, Index, IndexMut};

/// A vector that has all the memory that it will ever have.
///
/// A `Vec` has the allocator that it was made with, so whoever reaches it can ask for memory, and give it back unseen. Here
/// nothing outside this file reaches it, and no call of a vector that is made is given an allocator or lends one.
#[derive(Drop)]
pub struct FixedVec<T> {
    list: Vec<T>,
}

impl<T> Model for FixedVec<T> {
    ghost use Rattle.std.specs.Prelude.{◌-◌, vec_len, vec_capacity};
    ghost use Rattle.frame_core.specs.FixedVec.{FixedVec as Seen};

    ghost Value = { Seen T };

    ghost view = { λ v. record { items = v.list.items; room = vec_capacity v.list - vec_len v.list } };
}

impl<T> FixedVec<T> {
    /// An empty vector with room for this many items, or an error where there is no memory for them.
    pub fn with_room(alloc: Global, room: usize) -> Result<FixedVec<T>, AllocError>
        ensures { IfOk result (λ v. v ≡ record { items = []; room = room }) }
    {
        let list = Vec::with_capacity(alloc, room)?;
        Ok(FixedVec { list })
    }

    /// The number of items.
    #[inline]
    pub fn len(&self) -> usize
        ensures { result ≡ length self.now.items }
    {
        self.list.len()
    }

    /// Appends an item. There has to be room for it.
    #[inline]
    pub fn push(&mut self, item: T)
        requires { 0 < self.old.room }
        ensures items { self.new.items ≡ self.old.items ++ item ∷ [] }
        ensures room { self.new.room + 1 ≡ self.old.room }
    {
        self.list.push_reserved(item);
    }

    /// Swaps two items.
    #[inline]
    pub fn swap(&mut self, a: usize, b: usize)
        requires a_within { a < length self.old.items }
        requires b_within { b < length self.old.items }
        ensures items { SwappedAt self.old.items self.new.items a b }
        ensures len { length self.new.items ≡ length self.old.items }
        ensures room { self.new.room ≡ self.old.room }
    {
        self.list.swap(a, b);
    }
}

impl<T: Copy> FixedVec<T> {
    /// A vector of this many copies of an item, with room for no other, or an error where there is no memory for them.
    pub fn filled(alloc: Global, item: T, count: usize) -> Result<FixedVec<T>, AllocError>
        ensures items { IfOk result (λ v. v.items ≡ replicate count item) }
        ensures room { IfOk result (λ v. v.room ≡ 0) }
    {
        let mut list = Vec::with_capacity(alloc, count)?;
        for _ in 0..count {
            list.push_reserved(item);
        }
        Ok(FixedVec { list })
    }
}

impl<T> DerefSlice for FixedVec<T> {
    type Elem = T;

    ghost deref_gives = { λ v items. items ≡ v.items };

    #[inline]
    fn deref(&self) -> &[T]
        ensures value { result.now ≡ self.now.items }
    {
        self.list.as_slice()
    }
}

impl<T> DerefSliceMut for FixedVec<T> {
    ghost use Rattle.frame_core.specs.FixedVecLends.{lends_slice};

    #[inline]
    fn deref_mut(&mut self) -> &mut [T]
        ensures* writes_back { sem 𝓛 (lends_slice T.row self.entry result) }
        ensures value { result.now ≡ self.old.items }
    {
        self.list.as_mut_slice()
    }
}

impl<T> Index<usize> for FixedVec<T> {
    type Output = T;

    ghost can_index = { λ v place. place < length v.items };

    ghost index_gives = { λ v place item. item ≡ slice_index_or v.items place item };

    #[inline]
    fn index(&self, place: usize) -> &T
        requires { place < length self.now.items }
        ensures { result.now ≡ slice_index_or self.now.items place result.now }
    {
        &self.list[place]
    }
}

impl<T> IndexMut<usize> for FixedVec<T> {
    ghost use Rattle.frame_core.specs.FixedVecLends.{lends_item};

    #[inline]
    fn index_mut(&mut self, place: usize) -> &mut T
        requires { place < length self.old.items }
        ensures* writes_back { sem 𝓛 (lends_item T.row self.entry place result) }
        ensures value { result.now ≡ slice_index_or self.old.items place result.now }
    {
        &mut self.list[place]
    }
}
