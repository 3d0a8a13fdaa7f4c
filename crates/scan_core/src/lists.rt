//! Questions about a list of frame states.

ghost use Rattle.std.specs.Prelude.{◌≡◌, ◌+◌, ◌/◌, ◌<◌, ◌≤◌, length, Some};
ghost use Rattle.frame_core.specs.Below.{count_from};
ghost use Rattle.scan_core.specs.Frames.{free_at, is_free_state};
ghost use Rattle.scan_core.specs.Pairs.{is_marked};
ghost use Rattle.scan_core.specs.Runs.{first_run, is_run};

use frame_core::{FrameNo, FrameState, Order};

/// The first frame of the lowest free block of an order, if there is one, in a list of 4,096 frame states at most.
pub fn first_run(frames: &[FrameState], order: Order) -> Option<FrameNo>
    requires { length frames.now ≤ 4096 }
    ensures { result ≡ first_run frames.now order }
{
    for first in 0..frames.len() {
        if is_run(frames, first, order) {
            return FrameNo::new(first as u32);
        }
    }
    None
}

/// Whether a frame in this state is free.
pub fn is_free(state: &FrameState) -> bool
    ensures { result ≡ is_free_state (Some state.now) }
{
    match state {
        FrameState::Free => true,
        _ => false,
    }
}

/// Whether a frame is in a marked pageblock.
pub fn is_marked(marked: &[bool], frame: usize) -> bool
    requires { frame / 512 < length marked.now }
    ensures { result ≡ is_marked marked.now frame }
{
    marked[frame / 512]
}

/// Whether a block of an order may begin at a frame, and all of its frames are free.
fn is_run(frames: &[FrameState], first: usize, order: Order) -> bool
    requires few { length frames.now ≤ 4096 }
    requires within { first < length frames.now }
    ensures { result ≡ is_run frames.now order first }
{
    let count = order.frames() as usize;
    first % count == 0 && first + count <= frames.len() && count_free(frames, first, count) == count
}

/// How many of this many frames, from `first` upwards, are free.
fn count_free(frames: &[FrameState], first: usize, count: usize) -> usize
    requires { first + count ≤ length frames.now }
    ensures { result ≡ count_from (free_at frames.now) first count }
{
    let mut free = 0;
    for k in 0..count {
        if is_free(&frames[first + k]) {
            free += 1;
        }
    }
    free
}
