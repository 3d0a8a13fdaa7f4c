//! A set of frames with counts of them.

ghost use Rattle.std.specs.Prelude.{◌≡◌, ℕ, ◌+◌, ◌*◌, ◌/◌, ◌^◌, ◌<◌, ◌≤◌, ◌&&◌, ◌||◌, not, true, false, length, nat_lt, replicate, slice_index, IfOk, IfSome, MatchOption};
ghost use Rattle.std.specs.FinSet as set;
ghost use Rattle.frame_core.specs.Below.{count_below, count_from, lowest};
ghost use Rattle.frame_core.specs.Order.{is_aligned};
ghost use Rattle.number_set.specs.Finds.{IsFrom, NoneFrom};
ghost use Rattle.scan_core.specs.Apart.{frame_with_unmovable, frame_without_unmovable};
ghost use Rattle.scan_core.specs.FrameCounts.{recounted};
ghost use Rattle.scan_core.specs.FrameSet.{all_of_block, is_run_of};
ghost use Rattle.scan_core.specs.FreeRuns.{free_in_run, IsNextWith};
ghost use Rattle.scan_core.specs.NumberSet.{in_run};
ghost use Rattle.scan_core.specs.Pairs.{is_marked};

use crate::block_groups::BlockGroups;
use crate::frame_counts::FrameCounts;
use crate::marks::Marks;
use crate::whole_runs::WholeRuns;
use frame_core::{FrameNo, Order};
use number_set::NumberSet;
use std::alloc::{AllocError, Global};
use std::marker::Model;

/// A set of frames that are free, how many frames it has in all and in each pageblock, and the blocks of each order that it has whole.
/// It knows how many unmovable pages each pageblock has, too.
#[derive(Drop)]
pub(crate) struct FrameSet {
    numbers: NumberSet,
    count: u32,
    blocks: FrameCounts,
    runs: WholeRuns,
    groups: BlockGroups,
}

impl Model for FrameSet {
    ghost use Rattle.scan_core.specs.FrameSet.{FrameNumbers, coded_frame_numbers};

    ghost Value = { FrameNumbers };

    ghost coded = { coded_frame_numbers };

    ghost use Rattle.scan_core.specs.FrameSetInside.{frames_in, IsCounted};

    ghost view = { frames_in };

    ghost invariant = { IsCounted };
}

impl FrameSet {
    /// The set of all frames of this many pageblocks, or an error where there is no memory for it.
    pub(crate) fn full(alloc: Global, blocks: u32) -> Result<Self, AllocError>
        requires some { 0 < blocks }
        requires room { 512 * blocks ≤ 16777216 }
        ensures members { IfOk result (λ s. (frame : ℕ) → set.contains s.members frame ≡ nat_lt frame (512 * blocks)) }
        ensures bound { IfOk result (λ s. s.bound ≡ 512 * blocks) }
        ensures unmovable { IfOk result (λ s. s.unmovable ≡ replicate blocks 0) }
    {
        let count = 512 * blocks;
        let numbers = NumberSet::filled(alloc, count)?;
        let runs = WholeRuns::full(alloc, blocks)?;
        let groups = BlockGroups::open(alloc, blocks)?;
        let blocks = FrameCounts::full(alloc, blocks)?;
        Ok(FrameSet {
            numbers,
            count,
            blocks,
            runs,
            groups,
        })
    }

    /// The numbers of its frames.
    #[inline(always)]
    pub(crate) fn numbers(&self) -> &NumberSet
        ensures members { result.now.members ≡ self.now.members }
        ensures bound { self.now.bound ≤ result.now.bound }
    {
        &self.numbers
    }

    /// Whether a frame is a member.
    #[inline(always)]
    pub(crate) fn contains(&self, frame: FrameNo) -> bool
        requires { frame < self.now.bound }
        ensures { result ≡ set.contains self.now.members frame }
    {
        self.numbers.contains(frame.get())
    }

    /// Puts in a frame that isn't a member.
    pub(crate) fn insert(&mut self, frame: FrameNo)
        requires within { frame < self.old.bound }
        requires none { set.contains self.old.members frame ≡ false }
        ensures { self.new ≡ record self.old { members = set.insert self.old.members frame } }
    {
        let block = frame.get() / 512;
        let before = self.blocks.get(block);
        self.numbers.insert(frame.get());
        self.count += 1;
        self.blocks.more(frame.get() / 512, 1);
        self.runs.insert_frame(&self.numbers, frame.get());
        self.groups.regroup(block, before, before + 1);
    }

    /// Takes out a frame that is a member.
    pub(crate) fn remove(&mut self, frame: FrameNo)
        requires within { frame < self.old.bound }
        requires member { set.contains self.old.members frame ≡ true }
        ensures { self.new ≡ record self.old { members = set.remove self.old.members frame } }
    {
        let block = frame.get() / 512;
        let before = self.blocks.get(block);
        self.runs.remove_frame(&self.numbers, frame.get());
        self.numbers.remove(frame.get());
        self.count -= 1;
        self.blocks.fewer(frame.get() / 512, 1);
        self.groups.regroup(block, before, before - 1);
    }

    /// Puts in the frames of a block of this order, none of which is a member.
    pub(crate) fn insert_run(&mut self, first: FrameNo, order: Order)
        requires aligned { is_aligned order first ≡ true }
        requires within { first + 2 ^ order ≤ self.old.bound }
        requires none { (frame : ℕ) → in_run first (2 ^ order) frame ≡ true → set.contains self.old.members frame ≡ false }
        ensures members { (frame : ℕ) → set.contains self.new.members frame ≡ (in_run first (2 ^ order) frame || set.contains self.old.members frame) }
        ensures bound { self.new.bound ≡ self.old.bound }
        ensures unmovable { self.new.unmovable ≡ self.old.unmovable }
    {
        let block = first.get() / 512;
        let before = self.blocks.get(block);
        let frames = order.frames();
        self.numbers.insert_run(first.get(), order.get());
        self.count += frames;
        self.blocks.more(first.get() / 512, frames);
        self.runs.insert(first.get(), order.get());
        self.groups.regroup(block, before, before + frames);
    }

    /// Takes out the frames of a block of this order, all of which are members.
    pub(crate) fn remove_run(&mut self, first: FrameNo, order: Order)
        requires aligned { is_aligned order first ≡ true }
        requires within { first + 2 ^ order ≤ self.old.bound }
        requires all { (frame : ℕ) → in_run first (2 ^ order) frame ≡ true → set.contains self.old.members frame ≡ true }
        ensures members { (frame : ℕ) → set.contains self.new.members frame ≡ (not (in_run first (2 ^ order) frame) && set.contains self.old.members frame) }
        ensures bound { self.new.bound ≡ self.old.bound }
        ensures unmovable { self.new.unmovable ≡ self.old.unmovable }
    {
        let block = first.get() / 512;
        let before = self.blocks.get(block);
        let frames = order.frames();
        self.numbers.remove_run(first.get(), order.get());
        self.count -= frames;
        self.blocks.fewer(first.get() / 512, frames);
        self.runs.remove(first.get(), order.get());
        self.groups.regroup(block, before, before - frames);
    }

    /// A page comes to a frame. Where it is unmovable, the pageblock counts one more, and had at most 16,777,216 before.
    #[inline(always)]
    pub(crate) fn add_page(&mut self, frame: FrameNo, unmovable: bool)
        requires within { frame < self.old.bound }
        requires few { unmovable ≡ true → slice_index self.old.unmovable (frame / 512) ≤ 16777216 }
        ensures { self.new ≡ record self.old { unmovable = recounted false unmovable self.old.unmovable (frame / 512) } }
    {
        if unmovable {
            let block = frame.get() / 512;
            self.groups.add_page(block, self.blocks.get(block));
        }
    }

    /// A page goes from a frame. Where it is unmovable, the pageblock counts one less, and had one.
    #[inline(always)]
    pub(crate) fn remove_page(&mut self, frame: FrameNo, unmovable: bool)
        requires within { frame < self.old.bound }
        requires some { unmovable ≡ true → 0 < slice_index self.old.unmovable (frame / 512) }
        ensures { self.new ≡ record self.old { unmovable = recounted unmovable false self.old.unmovable (frame / 512) } }
    {
        if unmovable {
            let block = frame.get() / 512;
            self.groups.remove_page(block, self.blocks.get(block));
        }
    }

    /// How many frames the set has.
    pub(crate) fn count(&self) -> u32
        ensures { result ≡ count_below (set.contains self.now.members) self.now.bound }
    {
        self.count
    }

    /// How many frames of pageblocks that aren't marked are members. It looks at a count of each pageblock.
    pub(crate) fn count_unmarked(&self, marks: &Marks) -> u32
        requires { self.now.bound ≤ 512 * length marks.now }
        ensures { result ≡ count_below (λ frame. not (is_marked marks.now frame) && set.contains self.now.members frame) self.now.bound }
    {
        self.blocks.count_unmarked(marks)
    }

    /// How many frames of a block of this order are members. Of a pageblock there is a count of them.
    #[inline(always)]
    pub(crate) fn count_run(&self, first: FrameNo, order: Order) -> u32
        requires aligned { is_aligned order first ≡ true }
        requires within { first + 2 ^ order ≤ self.now.bound }
        ensures { result ≡ count_from (set.contains self.now.members) first (2 ^ order) }
    {
        if order.get() == 9 {
            return self.blocks.get(first.get() / 512);
        }
        self.numbers.count_run(first.get(), order.get())
    }

    /// The lowest run of this order from one on that has at least so many frames of the set, by its number among all runs of the order, if
    /// there is one. Where it needs all frames of a run, it looks at two words of each level of a set at most, and else at the count of
    /// each run up to that one.
    pub(crate) fn next_run_with(&self, order: Order, from: u32, least: u32) -> Option<u32>
        ensures { IsNextWith (free_in_run (set.contains self.now.members) order) (self.now.bound / 2 ^ order) from least result }
    {
        if least == order.frames() {
            return self.runs.next(order, from);
        }
        if order.get() == 9 {
            return self.blocks.next_with(from, least);
        }
        self.find_run_with(order, from, least)
    }

    /// The same, by a look at the words of each run.
    fn find_run_with(&self, order: Order, from: u32, least: u32) -> Option<u32>
        ensures { IsNextWith (free_in_run (set.contains self.now.members) order) (self.now.bound / 2 ^ order) from least result }
    {
        let frames = order.frames();
        for run in from..512 * self.blocks.len() / frames {
            if self.numbers.count_run(frames * run, order.get()) >= least {
                return Some(run);
            }
        }
        None
    }

    /// The lowest frame of the set, if it has one.
    pub(crate) fn lowest(&self) -> Option<FrameNo>
        ensures lowest { result ≡ lowest (set.contains self.now.members) self.now.bound }
        ensures member { IfSome result (λ frame. set.contains self.now.members frame ≡ true) }
    {
        FrameNo::in_any_zone(self.numbers.first()?)
    }

    /// How many pageblocks have all of their frames in the set.
    pub(crate) fn whole_blocks(&self) -> u32
        ensures { result ≡ count_below (all_of_block (set.contains self.now.members)) (self.now.bound / 512) }
    {
        self.blocks.whole()
    }

    /// The first frame of the lowest block of this order whose frames are all members, if there is one. It looks at two words of each
    /// level of a set at most.
    pub(crate) fn first_run(&self, order: Order) -> Option<FrameNo>
        ensures { result ≡ lowest (is_run_of (set.contains self.now.members) order) self.now.bound }
    {
        FrameNo::in_any_zone(self.runs.first(order)?)
    }

    /// How many blocks of an order, 0 to 9, have all of their frames in the set. It looks at a word for each 64 blocks of the order, and
    /// where the order is below 3 at a word for each 64 frames.
    pub(crate) fn count_runs(&self, order: u32) -> u32
        requires { order ≤ 9 }
        ensures { result ≡ count_below (is_run_of (set.contains self.now.members) order) self.now.bound }
    {
        match Order::new(order) {
            Some(order) => self.runs.count(order),
            None => self.numbers.count_runs(order),
        }
    }

    /// The lowest frame of the set in a pageblock with an unmovable page, if there is one, and else in the pageblock with the most frames in
    /// the set. Only for this it looks at the count of each pageblock.
    pub(crate) fn lowest_with_unmovable(&self) -> Option<FrameNo>
        ensures lowest { result ≡ frame_with_unmovable (set.contains self.now.members) self.now.unmovable self.now.bound }
        ensures member { IfSome result (λ frame. set.contains self.now.members frame ≡ true) }
    {
        match self.groups.with_unmovable.first() {
            Some(block) => self.lowest_from(block),
            None => self.lowest_from(self.blocks.fullest()),
        }
    }

    /// The lowest frame of the set in a pageblock without an unmovable page: in one that isn't whole, if there is one, and else in one that
    /// is. Where each pageblock has an unmovable page or no frame in the set, the lowest frame of all.
    pub(crate) fn lowest_without_unmovable(&self) -> Option<FrameNo>
        ensures lowest { result ≡ frame_without_unmovable (set.contains self.now.members) self.now.unmovable self.now.bound }
        ensures member { IfSome result (λ frame. set.contains self.now.members frame ≡ true) }
    {
        if let Some(block) = self.groups.without_unmovable.first() {
            return self.lowest_from(block);
        }
        match self.first_run(Order::of_pageblock()) {
            Some(first) => Some(first),
            None => self.lowest(),
        }
    }

    /// The lowest frame of the set from a pageblock on, if there is one.
    fn lowest_from(&self, block: u32) -> Option<FrameNo>
        requires { 512 * block < self.now.bound }
        ensures { MatchOption result (NoneFrom (set.contains self.now.members) (512 * block)) (IsFrom (set.contains self.now.members) (512 * block)) }
    {
        FrameNo::in_any_zone(self.numbers.at_or_after(512 * block)?)
    }
}
