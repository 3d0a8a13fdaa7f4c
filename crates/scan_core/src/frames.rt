ghost use Rattle.std.specs.Prelude.{◌≡◌, ◌*◌, ◌/◌, ◌^◌, ◌<◌, ◌≤◌, ◌&&◌, false, is_some, length, nat_le, slice_get, slice_index, slice_set, true, Some, IfOk, IfSome, MatchOption};
ghost use Rattle.frame_core.specs.declared.state.FrameState.TheVariants.{Free, Holds, Huge, Source, Target};
ghost use Rattle.frame_core.specs.Below.{count_below, count_from, highest, lowest, some_below};
ghost use Rattle.number_set.specs.Finds.{IsFrom, NoneFrom};
ghost use Rattle.scan_core.specs.Apart.{frame_apart};
ghost use Rattle.scan_core.specs.FrameCounts.{recounted};
ghost use Rattle.scan_core.specs.Frames.{all_free, blocks_of, free_at, free_frames, holds_at, huge_at, is_open_at, is_whole, leaving_at, page_held, source_at, true_at, way_at};
ghost use Rattle.scan_core.specs.FreeRuns.{free_in_run, IsNextWith};
ghost use Rattle.scan_core.specs.NumberSet.{all_from};
ghost use Rattle.scan_core.specs.Pairs.{after_step, is_stuck, is_target, next_step, Finds};
ghost use Rattle.scan_core.specs.Runs.{first_run, has_block, is_run, with_run};

use crate::candidates::Candidates;
use crate::fingers::{Fingers, Step};
use crate::frame_set::FrameSet;
use crate::kept_state::KeptState;
use crate::marks::Marks;
use crate::scanners;
use frame_core::{FixedVec, FrameNo, FrameState, Order, PageNo};
use number_set::NumberSet;
use std::alloc::{AllocError, Global};
use std::marker::Model;

/// The states of a zone's frames, with sets and counts of them. A zone has 32,768 pageblocks at most.
#[derive(Drop)]
pub struct Frames {
    /// The state of each frame. A frame that is handed out stands here as free, and is a member of `held`.
    kept: FixedVec<KeptState>,
    movable: FixedVec<bool>,
    held: NumberSet,
    free: FrameSet,
    candidates: Candidates,
}

impl Model for Frames {
    ghost use Rattle.scan_core.specs.Frames.{Frames as Seen};

    ghost Value = { Seen };

    ghost use Rattle.scan_core.specs.Sound.{frames_of, IsSound};

    ghost view = { frames_of };

    ghost invariant = { IsSound };
}

impl Frames {
    /// The frames of this many pageblocks, each frame free, or an error where there is no memory for them. No
    /// other call takes memory.
    pub fn open(alloc: Global, blocks: u32) -> Result<Self, AllocError>
        requires some { 0 < blocks }
        requires room { 512 * blocks ≤ 16777216 }
        ensures open { IfOk result (λ frames. frames ≡ all_free blocks) }
        ensures frames { IfOk result (λ frames. length frames.states ≡ 512 * blocks) }
    {
        let count = 512 * blocks;
        let free = KeptState::of(FrameState::Free);
        let kept = FixedVec::filled(alloc, free, count as usize)?;
        let movable = FixedVec::filled(alloc, false, count as usize)?;
        let held = NumberSet::open(alloc, count)?;
        let free = FrameSet::full(alloc, blocks)?;
        let candidates = Candidates::open(alloc, blocks)?;
        Ok(Frames {
            kept,
            movable,
            held,
            free,
            candidates,
        })
    }

    /// How many frames there are: 512 in each pageblock.
    pub fn len(&self) -> u32
        ensures len { result ≡ length self.now.states }
        ensures whole { result ≡ 512 * blocks_of self.now.states }
        ensures some { 0 < result }
        ensures levels { result ≤ 16777216 }
        ensures movable { length self.now.movable ≡ length self.now.states }
    {
        self.kept.len() as u32
    }

    /// How many pageblocks there are.
    pub fn blocks(&self) -> u32
        ensures blocks { result ≡ blocks_of self.now.states }
        ensures frames { length self.now.states ≡ 512 * result }
        ensures some { 0 < result }
        ensures levels { 512 * result ≤ 16777216 }
    {
        self.len() / 512
    }

    /// What a frame is used for. The frame has to be one of the zone's, here and in `is_free` and `movable`.
    pub fn state(&self, frame: FrameNo) -> FrameState<PageNo>
        requires { frame < length self.now.states }
        ensures { slice_get self.now.states frame ≡ Some result }
    {
        let kept = self.kept[frame.get() as usize];
        if kept.is_free() && self.held.contains(frame.get()) {
            return FrameState::Huge;
        }
        kept.state()
    }

    /// The page that a frame holds, if it holds one that isn't moving.
    #[inline(always)]
    pub fn held_page(&self, frame: FrameNo) -> Option<PageNo>
        requires { frame < length self.now.states }
        ensures { result ≡ page_held (slice_get self.now.states frame) }
    {
        self.kept[frame.get() as usize].held_page()
    }

    /// Whether a frame is free.
    pub fn is_free(&self, frame: FrameNo) -> bool
        requires { frame < length self.now.states }
        ensures { result ≡ free_at self.now.states frame }
    {
        self.free.contains(frame)
    }

    /// Puts a page into a free frame. `movable` says whether the page may be taken from it, and `unmovable` whether it is an unmovable page.
    /// The pageblock counts such a page, so before there are at most 16,777,216 of them; a pageblock has 512 frames.
    #[inline(always)]
    pub fn fill(&mut self, frame: FrameNo, page: PageNo, movable: bool, unmovable: bool)
        requires free { free_at self.old.states frame ≡ true }
        requires few { unmovable ≡ true → slice_index self.old.unmovable (frame / 512) ≤ 16777216 }
        ensures page { self.new ≡ record { states = slice_set self.old.states frame (Holds page); movable = slice_set self.old.movable frame movable; unmovable = recounted false unmovable self.old.unmovable (frame / 512) } }
        ensures frames { length self.new.states ≡ length self.old.states }
    {
        let index = frame.get() as usize;
        self.free.remove(frame);
        self.free.add_page(frame, unmovable);
        self.candidates.add(frame, movable);
        self.movable[index] = movable;
        self.kept[index] = KeptState::of(FrameState::Holds(page));
    }

    /// Takes the page of a frame out of use: the frame is free. `unmovable` says whether it is an unmovable page, which was counted when it
    /// came to the pageblock.
    #[inline(always)]
    pub fn empty(&mut self, frame: FrameNo, unmovable: bool)
        requires page { holds_at self.old.states frame ≡ true }
        requires some { unmovable ≡ true → 0 < slice_index self.old.unmovable (frame / 512) }
        ensures state { self.new ≡ record self.old { states = slice_set self.old.states frame Free; unmovable = recounted unmovable false self.old.unmovable (frame / 512) } }
        ensures frames { length self.new.states ≡ length self.old.states }
    {
        let index = frame.get() as usize;
        self.free.insert(frame);
        self.free.remove_page(frame, unmovable);
        self.candidates.remove(frame, self.movable[index]);
        self.kept[index] = KeptState::of(FrameState::Free);
    }

    /// Makes a frame with a movable page the source of that page's move.
    #[inline(always)]
    pub fn to_source(&mut self, frame: FrameNo, page: PageNo)
        requires page { holds_at self.old.states frame ≡ true }
        requires movable { true_at self.old.movable frame ≡ true }
        ensures state { self.new ≡ record self.old { states = slice_set self.old.states frame (Source page) } }
        ensures frames { length self.new.states ≡ length self.old.states }
    {
        self.candidates.sources.remove(frame.get());
        self.kept[frame.get() as usize] = KeptState::of(FrameState::Source(page));
    }

    /// Makes a free frame the target of a page's move.
    #[inline(always)]
    pub fn to_target(&mut self, frame: FrameNo, page: PageNo)
        requires { free_at self.old.states frame ≡ true }
        ensures state { self.new ≡ record self.old { states = slice_set self.old.states frame (Target page) } }
        ensures frames { length self.new.states ≡ length self.old.states }
    {
        self.free.remove(frame);
        self.kept[frame.get() as usize] = KeptState::of(FrameState::Target(page));
    }

    /// Ends a page's move in one of its two frames. `can_move` says whether the page may be taken from it.
    #[inline(always)]
    pub fn settle(&mut self, frame: FrameNo, page: PageNo, can_move: bool)
        requires { way_at self.old.states frame ≡ true }
        ensures page { self.new ≡ record { states = slice_set self.old.states frame (Holds page); movable = slice_set self.old.movable frame can_move; unmovable = self.old.unmovable } }
        ensures frames { length self.new.states ≡ length self.old.states }
    {
        let index = frame.get() as usize;
        self.candidates.add(frame, can_move);
        self.movable[index] = can_move;
        self.kept[index] = KeptState::of(FrameState::Holds(page));
    }

    /// Frees the other frame of a page whose move ends.
    #[inline(always)]
    pub fn leave(&mut self, other: FrameNo)
        requires { way_at self.old.states other ≡ true }
        ensures state { self.new ≡ record self.old { states = slice_set self.old.states other Free } }
        ensures frames { length self.new.states ≡ length self.old.states }
    {
        self.free.insert(other);
        self.kept[other.get() as usize] = KeptState::of(FrameState::Free);
    }

    /// How many frames are free.
    pub fn free(&self) -> u32
        ensures { result ≡ free_frames self.now.states }
    {
        self.free.count()
    }

    /// How many frames of pageblocks that aren't marked are free. It looks at a count of each pageblock.
    pub fn vacant(&self, marks: &Marks) -> u32
        requires { length self.now.states ≤ 512 * length marks.now }
        ensures { result ≡ count_below (is_target self.now.states marks.now) (length self.now.states) }
    {
        self.free.count_unmarked(marks)
    }

    /// The highest free frame below `end`, in an unmarked pageblock, if there is one. It passes over the rest of a marked pageblock at
    /// once.
    pub fn last_vacant(&self, marks: &Marks, end: u32) -> Option<FrameNo>
        requires marks { length self.now.states ≤ 512 * length marks.now }
        requires end { end ≤ length self.now.states }
        ensures { result ≡ highest (is_target self.now.states marks.now) end }
    {
        scanners::highest_target(self.free.numbers(), marks, 0, end)
    }

    /// The lowest frame from `from` on and below `end` with a page that may be taken from it, in whatever pageblock.
    pub fn next_movable(&self, from: u32, end: u32) -> Option<FrameNo>
        requires { end ≤ length self.now.states }
        ensures { result ≡ lowest (λ frame. nat_le from frame && source_at self.now.states self.now.movable frame) end }
    {
        if from >= end {
            return None;
        }
        let frame = self.candidates.sources.at_or_after(from)?;
        if frame >= end {
            return None;
        }
        FrameNo::in_any_zone(frame)
    }

    /// The lowest frame from one on that a page is leaving, if there is one. For each 64 frames it looks at a word of three sets, and at the
    /// state of each frame that is in none of them.
    pub fn next_leaving(&self, from: FrameNo) -> Option<FrameNo>
        ensures next { MatchOption result (NoneFrom (leaving_at self.now.states) from) (IsFrom (leaving_at self.now.states) from) }
        ensures within { IfSome result (λ frame. frame < length self.now.states) }
    {
        let end = self.len();
        let free = self.free.numbers();
        let mut next = from.get();
        while next < end {
            let frame = self
                .held
                .first_outside(free, &self.candidates.sources, next, end)?;
            if self.kept[frame as usize].is_source() {
                return FrameNo::in_any_zone(frame);
            }
            next = frame + 1;
        }
        None
    }

    /// The lowest free frame, if there is one.
    pub fn lowest_free(&self) -> Option<FrameNo>
        ensures lowest { result ≡ lowest (free_at self.now.states) (length self.now.states) }
        ensures free { IfSome result (λ frame. free_at self.now.states frame ≡ true) }
        ensures within { IfSome result (λ frame. frame < length self.now.states) }
    {
        self.free.lowest()
    }

    /// The frame for a page that is unmovable or not, where unmovable pages are kept in pageblocks of their own.
    #[inline(never)]
    pub fn frame_apart(&self, unmovable: bool) -> Option<FrameNo>
        ensures frame { result ≡ frame_apart self.now unmovable }
        ensures free { IfSome result (λ frame. free_at self.now.states frame ≡ true) }
        ensures within { IfSome result (λ frame. frame < length self.now.states) }
    {
        if unmovable {
            return self.free.lowest_with_unmovable();
        }
        self.free.lowest_without_unmovable()
    }

    /// How many pageblocks have only free frames.
    pub fn whole_blocks(&self) -> u32
        ensures { result ≡ count_below (is_whole self.now.states) (blocks_of self.now.states) }
    {
        self.free.whole_blocks()
    }

    /// Whether the page that a frame holds may be taken from it.
    pub fn movable(&self, frame: FrameNo) -> bool
        requires { frame < length self.now.states }
        ensures { slice_get self.now.movable frame ≡ Some result }
    {
        self.movable[frame.get() as usize]
    }

    /// Notes whether the page that a frame holds may be taken from it.
    #[inline(always)]
    pub fn set_movable(&mut self, frame: FrameNo, movable: bool)
        requires { holds_at self.old.states frame ≡ true }
        ensures movable { self.new ≡ record self.old { movable = slice_set self.old.movable frame movable } }
        ensures frames { length self.new.movable ≡ length self.old.movable }
    {
        let index = frame.get() as usize;
        let could_move = self.movable[index];
        self.movable[index] = movable;
        if could_move != movable {
            self.candidates.turn(frame, movable);
        }
    }

    /// The first frame of the lowest free block of an order, if there is one. However many frames there are, it looks at two words of
    /// each level of a set at most.
    pub fn first_run(&self, order: Order) -> Option<FrameNo>
        ensures lowest { result ≡ first_run self.now.states order }
        ensures run { IfSome result (λ first. is_run self.now.states order first ≡ true) }
    {
        self.free.first_run(order)
    }

    /// How many frames of a block are free. Of a pageblock there is a count, and else it looks at a word for each 64 frames.
    #[inline(always)]
    pub fn free_in_run(&self, first: FrameNo, order: Order) -> u32
        requires { has_block self.now.states order first ≡ true }
        ensures { result ≡ count_from (free_at self.now.states) first (2 ^ order) }
    {
        self.free.count_run(first, order)
    }

    /// The lowest run of an order from one on that has at least so many free frames, by its number among all runs of the order, if there is
    /// one. Where it needs all frames of a run, it looks at two words of each level of a set at most, and else at the count of each run up
    /// to that one.
    pub fn next_run_with(&self, order: Order, from: u32, least: u32) -> Option<u32>
        ensures { IsNextWith (free_in_run (free_at self.now.states) order) (length self.now.states / 2 ^ order) from least result }
    {
        self.free.next_run_with(order, from, least)
    }

    /// How many free blocks of an order there are, 0 to 9. It looks at a word of a set for each 64 blocks of the order, and where the order
    /// is below 3 at a word for each 64 frames.
    pub fn count_runs(&self, order: u32) -> u32
        requires { order ≤ 9 }
        ensures { result ≡ count_below (is_run self.now.states order) (length self.now.states) }
    {
        self.free.count_runs(order)
    }

    /// How many pages of a block may be taken from their frames.
    #[inline(always)]
    pub fn movable_in_run(&self, first: FrameNo, order: Order) -> u32
        requires { has_block self.now.states order first ≡ true }
        ensures { result ≡ count_from (source_at self.now.states self.now.movable) first (2 ^ order) }
    {
        self.candidates.sources.count_run(first.get(), order.get())
    }

    /// How many pages rest in a block, where each frame of it is free or has a page that may be taken from it. For each 64 frames it
    /// looks at a word of two sets.
    pub fn pages_of_run(&self, first: FrameNo, order: Order) -> Option<u32>
        requires { has_block self.now.states order first ≡ true }
        ensures open { is_some result ≡ all_from (is_open_at self.now) first (2 ^ order) }
        ensures pages { IfSome result (λ pages. pages ≡ count_from (holds_at self.now.states) first (2 ^ order)) }
        ensures order { order ≤ 9 }
    {
        let free = self.free_in_run(first, order);
        let pages = self.movable_in_run(first, order);
        if order.frames() != free + pages {
            return None;
        }
        Some(pages)
    }

    /// Hands out the frames of a block, all of which are free.
    pub fn hold(&mut self, first: FrameNo, order: Order)
        requires { is_run self.old.states order first ≡ true }
        ensures { self.new ≡ record self.old { states = with_run self.old.states first (2 ^ order) Huge } }
    {
        self.free.remove_run(first, order);
        self.candidates
            .stuck
            .more(first.get() / 512, order.frames());
        self.held.insert_run(first.get(), order.get());
    }

    /// Takes back the frames of a block, all of which are handed out.
    pub fn release(&mut self, first: FrameNo, order: Order)
        requires block { has_block self.old.states order first ≡ true }
        requires huge { all_from (huge_at self.old.states) first (2 ^ order) ≡ true }
        ensures { self.new ≡ record self.old { states = with_run self.old.states first (2 ^ order) Free } }
    {
        self.held.remove_run(first.get(), order.get());
        self.candidates
            .stuck
            .fewer(first.get() / 512, order.frames());
        self.free.insert_run(first, order);
    }

    /// Holds a single free frame, as a frame of a block that is handed out is held.
    pub fn hold_frame(&mut self, frame: FrameNo)
        requires { free_at self.old.states frame ≡ true }
        ensures state { self.new ≡ record self.old { states = slice_set self.old.states frame Huge } }
        ensures frames { length self.new.states ≡ length self.old.states }
    {
        self.free.remove(frame);
        self.candidates.stuck.more(frame.get() / 512, 1);
        self.held.insert(frame.get());
    }

    /// Takes back a single frame that is handed out.
    pub fn release_frame(&mut self, frame: FrameNo)
        requires { huge_at self.old.states frame ≡ true }
        ensures state { self.new ≡ record self.old { states = slice_set self.old.states frame Free } }
        ensures frames { length self.new.states ≡ length self.old.states }
    {
        self.held.remove(frame.get());
        self.candidates.stuck.fewer(frame.get() / 512, 1);
        self.free.insert(frame);
    }

    /// The next pair between the fingers. After it the fingers stand one above its source and at its target; where there
    /// is no pair they stay. They have to be in order, and in the zone;
    /// there is a mark for each pageblock.
    #[inline(always)]
    pub fn next_pair(&self, marks: &Marks, fingers: &mut Fingers) -> Step
        requires marks { length self.now.states ≤ 512 * length marks.now }
        requires low { fingers.old.migrate ≤ fingers.old.free }
        requires high { fingers.old.free ≤ length self.now.states }

        ensures pair { Finds self.now.states self.now.movable marks.now fingers.old result }
        ensures step { result ≡ next_step self.now.states self.now.movable marks.now fingers.old }

        ensures fingers { fingers.new ≡ after_step fingers.old result }
        ensures low { fingers.new.migrate ≤ fingers.new.free }
        ensures high { fingers.new.free ≤ length self.now.states }
    {
        let Some(source) = scanners::next_source(&self.candidates.sources, marks, *fingers) else {
            return Step::Met;
        };
        let free = self.free.numbers();
        let low = source.get() + 1;
        let Some(target) = scanners::highest_target(free, marks, low, fingers.free) else {
            return Step::Met;
        };
        fingers.pass(source, target)
    }

    /// Whether a frame of an unmarked pageblock is handed out, or holds a page that may not be taken from it.
    pub fn is_any_stuck(&self, marks: &Marks) -> bool
        requires { length self.now.states ≤ 512 * length marks.now }
        ensures { result ≡ some_below (is_stuck self.now.states self.now.movable marks.now) (length self.now.states) }
    {
        self.candidates.stuck.has_some_unmarked(marks)
    }
}
