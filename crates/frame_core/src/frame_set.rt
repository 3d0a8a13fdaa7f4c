//! Sets of a zone's frames.

ghost use Rattle.std.specs.Prelude.{◌≡◌, ◌+◌, ◌<◌, ◌≤◌, not, true, false, length, replicate, slice_set, IfOk};
ghost use Rattle.std.specs.List.{list_all};
ghost use Rattle.row_core.specs.Parts.{spliced};
ghost use Rattle.frame_core.specs.FrameSet.{has_frame};

use crate::fixed_vec::FixedVec;
use crate::place::FrameNo;
use std::alloc::{AllocError, Global};
use std::marker::Model;

/// Of each frame of a zone, whether it is in the set.
#[derive(Drop)]
pub(crate) struct FrameSet {
    has: FixedVec<bool>,
}

impl Model for FrameSet {
    ghost use Rattle.std.specs.Prelude.{Bool, List};

    ghost Value = { List Bool };

    ghost view = { λ f. f.has.items };
}

impl FrameSet {
    /// All or none of so many frames, or an error where there is no memory for the list. No other call takes memory.
    pub fn open(alloc: Global, frames: u32, all: bool) -> Result<Self, AllocError>
        ensures { IfOk result (λ set. set ≡ replicate frames all) }
    {
        let has = FixedVec::filled(alloc, all, frames as usize)?;
        Ok(FrameSet { has })
    }

    /// Whether a frame is in the set.
    #[inline]
    pub fn contains(&self, frame: FrameNo) -> bool
        requires { frame < length self.now }
        ensures { result ≡ has_frame self.now frame }
    {
        self.has[frame.get() as usize]
    }

    /// Whether no frame is in the set. It looks at each frame.
    pub fn is_empty(&self) -> bool
        ensures { result ≡ list_all not self.now }
    {
        self.has.iter().all(|has| !*has)
    }

    /// Puts a frame into the set.
    #[inline]
    pub fn insert(&mut self, frame: FrameNo)
        requires { frame < length self.old }
        ensures { self.new ≡ slice_set self.old frame true }
    {
        self.has[frame.get() as usize] = true;
    }

    /// Puts so many frames into the set, from a first one on.
    #[inline]
    pub fn insert_block(&mut self, first: FrameNo, frames: u32)
        requires { first + frames ≤ length self.old }
        ensures { self.new ≡ spliced self.old first frames (replicate frames true) }
    {
        let has = &mut self.has;
        let from = first.get() as usize;
        has[from..from + frames as usize].fill(true);
    }

    /// Takes so many frames out of the set, from a first one on.
    #[inline]
    pub fn remove_block(&mut self, first: FrameNo, frames: u32)
        requires { first + frames ≤ length self.old }
        ensures { self.new ≡ spliced self.old first frames (replicate frames false) }
    {
        let has = &mut self.has;
        let from = first.get() as usize;
        has[from..from + frames as usize].fill(false);
    }
}
