//! The frames that a round may take a page from, and those that it passes over for good.

ghost use Rattle.std.specs.Prelude.{◌≡◌, ℕ, ◌*◌, ◌/◌, ◌^◌, ◌<◌, ◌≤◌, not, true, false, length, nat_eq, replicate, slice_index, IfOk, if◌then◌else◌};
ghost use Rattle.std.specs.FinSet as set;
ghost use Rattle.scan_core.specs.FrameCounts.{recounted};

use crate::frame_counts::FrameCounts;
use frame_core::FrameNo;
use number_set::NumberSet;
use std::alloc::{AllocError, Global};

/// The frames with a page that may be taken from them, and how many frames of each pageblock are stuck: handed out, or with a page
/// that may not be taken.
#[derive(Drop)]
pub(crate) struct Candidates {
    pub(crate) sources: NumberSet,
    pub(crate) stuck: FrameCounts,
}

impl Candidates {
    /// Those of this many pageblocks in which no frame holds a page, or an error where there is no memory for them.
    pub(crate) fn open(alloc: Global, blocks: u32) -> Result<Self, AllocError>
        requires room { 512 * blocks ≤ 16777216 }
        ensures sources { IfOk result (λ c. c.sources.members ≡ set.empty) }
        ensures room { IfOk result (λ c. 512 * blocks ≤ c.sources.bound) }
        ensures stuck { IfOk result (λ c. c.stuck ≡ replicate blocks 0) }
    {
        let sources = NumberSet::open(alloc, 512 * blocks)?;
        let stuck = FrameCounts::empty(alloc, blocks)?;
        Ok(Candidates { sources, stuck })
    }

    /// A page comes to rest in a frame. `movable` says whether it may be taken from it.
    #[inline(always)]
    pub(crate) fn add(&mut self, frame: FrameNo, movable: bool)
        requires room { frame < self.old.sources.bound }
        requires block { frame / 512 < length self.old.stuck }
        requires most { slice_index self.old.stuck (frame / 512) < 512 }
        requires none { set.contains self.old.sources.members frame ≡ false }
        ensures sources { (n : ℕ) → set.contains self.new.sources.members n ≡ (if nat_eq n frame then movable else set.contains self.old.sources.members n) }
        ensures room { self.new.sources.bound ≡ self.old.sources.bound }
        ensures stuck { self.new.stuck ≡ recounted false (not movable) self.old.stuck (frame / 512) }
    {
        if movable {
            self.sources.insert(frame.get());
        } else {
            self.stuck.more(frame.get() / 512, 1);
        }
    }

    /// A page leaves the frame in which it rested.
    #[inline(always)]
    pub(crate) fn remove(&mut self, frame: FrameNo, movable: bool)
        requires room { frame < self.old.sources.bound }
        requires block { frame / 512 < length self.old.stuck }
        requires some { movable ≡ false → 0 < slice_index self.old.stuck (frame / 512) }
        requires is { set.contains self.old.sources.members frame ≡ movable }
        ensures sources { (n : ℕ) → set.contains self.new.sources.members n ≡ (if nat_eq n frame then false else set.contains self.old.sources.members n) }
        ensures room { self.new.sources.bound ≡ self.old.sources.bound }
        ensures stuck { self.new.stuck ≡ recounted (not movable) false self.old.stuck (frame / 512) }
    {
        if movable {
            self.sources.remove(frame.get());
        } else {
            self.stuck.fewer(frame.get() / 512, 1);
        }
    }

    /// A page that rests in a frame may be taken from it from now on, or no longer may.
    #[inline(always)]
    pub(crate) fn turn(&mut self, frame: FrameNo, movable: bool)
        requires room { frame < self.old.sources.bound }
        requires block { frame / 512 < length self.old.stuck }
        requires some { movable ≡ true → 0 < slice_index self.old.stuck (frame / 512) }
        requires less { movable ≡ false → slice_index self.old.stuck (frame / 512) < 512 }
        requires is { set.contains self.old.sources.members frame ≡ not movable }
        ensures sources { (n : ℕ) → set.contains self.new.sources.members n ≡ (if nat_eq n frame then movable else set.contains self.old.sources.members n) }
        ensures room { self.new.sources.bound ≡ self.old.sources.bound }
        ensures stuck { self.new.stuck ≡ recounted movable (not movable) self.old.stuck (frame / 512) }
    {
        if movable {
            self.stuck.fewer(frame.get() / 512, 1);
            self.sources.insert(frame.get());
        } else {
            self.sources.remove(frame.get());
            self.stuck.more(frame.get() / 512, 1);
        }
    }
}
