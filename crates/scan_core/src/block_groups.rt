//! The pageblocks that unmovable pages go to, and those that other pages go to, where these are kept apart.

ghost use Rattle.std.specs.Prelude.{◌≡◌, ℕ, ◌+◌, ◌-◌, ◌<◌, ◌≤◌, ◌&&◌, length, nat_eq, nat_lt, replicate, slice_index, slice_set, IfOk, if◌then◌else◌};
ghost use Rattle.std.specs.FinSet as set;
ghost use Rattle.scan_core.specs.BlockGroups.{HasRoom, IsGrouped, IsRegrouped, takes_another, takes_unmovable};

use frame_core::FixedVec;
use number_set::NumberSet;
use std::alloc::{AllocError, Global};

/// How many unmovable pages each pageblock has, the pageblocks with such a page that have a free frame, and the pageblocks without one
/// that have a free frame and aren't whole.
#[derive(Drop)]
pub(crate) struct BlockGroups {
    pub(crate) unmovable: FixedVec<u32>,
    pub(crate) with_unmovable: NumberSet,
    pub(crate) without_unmovable: NumberSet,
}

impl BlockGroups {
    /// The groups of this many pageblocks that are all whole, or an error where there is no memory for them.
    pub(crate) fn open(alloc: Global, blocks: u32) -> Result<Self, AllocError>
        requires few { blocks ≤ 32768 }
        ensures unmovable { IfOk result (λ groups. groups.unmovable.items ≡ replicate blocks 0) }
        ensures grouped { IfOk result (λ groups. IsGrouped groups (replicate blocks 512)) }
    {
        let unmovable = FixedVec::filled(alloc, 0, blocks as usize)?;
        let with_unmovable = NumberSet::open(alloc, blocks)?;
        let without_unmovable = NumberSet::open(alloc, blocks)?;
        Ok(BlockGroups {
            unmovable,
            with_unmovable,
            without_unmovable,
        })
    }

    /// A pageblock that had so many free frames before has so many now. Its groups change only where it was full or whole, or is now.
    #[inline(always)]
    pub(crate) fn regroup(&mut self, block: u32, before: u32, free: u32)
        requires room { (blocks : ℕ) × HasRoom self.old blocks × (block < blocks) }
        requires with_unmovable { set.contains self.old.with_unmovable.members block ≡ takes_unmovable (slice_index self.old.unmovable.items block) before }
        requires without_unmovable { set.contains self.old.without_unmovable.members block ≡ takes_another (slice_index self.old.unmovable.items block) before }
        ensures unmovable { self.new.unmovable ≡ self.old.unmovable }
        ensures regrouped { IsRegrouped self.old self.new block (slice_index self.old.unmovable.items block) free }
    {
        if is_partly_free(before) && is_partly_free(free) {
            return;
        }
        self.put(block, free);
    }

    /// Puts a pageblock with this many free frames into its groups.
    #[inline(never)]
    fn put(&mut self, block: u32, free: u32)
        requires room { (blocks : ℕ) × HasRoom self.old blocks × (block < blocks) }
        ensures unmovable { self.new.unmovable ≡ self.old.unmovable }
        ensures regrouped { IsRegrouped self.old self.new block (slice_index self.old.unmovable.items block) free }
    {
        let unmovable = self.unmovable[block as usize];
        let takes_unmovable = unmovable > 0 && free > 0;
        let takes_another = unmovable == 0 && free > 0 && free < 512;
        put(&mut self.with_unmovable, block, takes_unmovable);
        put(&mut self.without_unmovable, block, takes_another);
    }

    /// A pageblock has one unmovable page more. This many of its frames are free.
    pub(crate) fn add_page(&mut self, block: u32, free: u32)
        requires room { (blocks : ℕ) × HasRoom self.old blocks × (block < blocks) }
        requires few { slice_index self.old.unmovable.items block ≤ 16777216 }
        ensures unmovable { self.new.unmovable.items ≡ slice_set self.old.unmovable.items block (slice_index self.old.unmovable.items block + 1) }
        ensures regrouped { IsRegrouped self.old self.new block (slice_index self.old.unmovable.items block + 1) free }
    {
        self.unmovable[block as usize] += 1;
        self.put(block, free);
    }

    /// A pageblock has one unmovable page less. This many of its frames are free.
    pub(crate) fn remove_page(&mut self, block: u32, free: u32)
        requires room { (blocks : ℕ) × HasRoom self.old blocks × (block < blocks) }
        requires some { 0 < slice_index self.old.unmovable.items block }
        ensures unmovable { self.new.unmovable.items ≡ slice_set self.old.unmovable.items block (slice_index self.old.unmovable.items block - 1) }
        ensures regrouped { IsRegrouped self.old self.new block (slice_index self.old.unmovable.items block - 1) free }
    {
        self.unmovable[block as usize] -= 1;
        self.put(block, free);
    }
}

/// Whether a pageblock with this many free frames is neither full nor whole.
#[inline(always)]
fn is_partly_free(free: u32) -> bool
    ensures { result ≡ (nat_lt 0 free && nat_lt free 512) }
{
    0 < free && free < 512
}

/// Puts a number into a set, or takes it out.
#[inline(always)]
fn put(numbers: &mut NumberSet, number: u32, is_member: bool)
    requires { number < numbers.old.bound }
    ensures members { (n : ℕ) → set.contains numbers.new.members n ≡ (if nat_eq n number then is_member else set.contains numbers.old.members n) }
    ensures bound { numbers.new.bound ≡ numbers.old.bound }
{
    if is_member {
        numbers.insert(number);
    } else {
        numbers.remove(number);
    }
}
