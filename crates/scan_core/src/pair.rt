//! The pair of frames that a round takes next, in lists.

ghost use Rattle.std.specs.Prelude.{◌≡◌, ◌*◌, ◌<◌, ◌≤◌, length};
ghost use Rattle.scan_core.specs.Pairs.{is_source, is_target, next_source, next_step, next_target, after_step, Finds};

use crate::fingers::{Fingers, Step};
use crate::lists::{is_free, is_marked};
use frame_core::{FrameNo, FrameState};

/// The next pair between the fingers. After it the fingers stand one above its source and at its target; where there is no pair
/// they stay. There are at most 4,096 frames; `movable` has a place for each of them, and `marked` for each of their pageblocks.
///
/// The searches begin at the fingers, so in a round a frame is looked at about once at most.
pub fn next_pair(
    frames: &[FrameState],
    movable: &[bool],
    marked: &[bool],
    fingers: &mut Fingers,
) -> Step
    requires few { length frames.now ≤ 4096 }
    requires movable { length movable.now ≡ length frames.now }
    requires marked { length frames.now ≤ 512 * length marked.now }
    requires low { fingers.old.migrate ≤ fingers.old.free }
    requires high { fingers.old.free ≤ length frames.now }

    ensures pair { Finds frames.now movable.now marked.now fingers.old result }
    ensures step { result ≡ next_step frames.now movable.now marked.now fingers.old }

    ensures fingers { fingers.new ≡ after_step fingers.old result }
    ensures low { fingers.new.migrate ≤ fingers.new.free }
    ensures high { fingers.new.free ≤ length frames.now }
{
    let Some(source) = next_source(frames, movable, marked, *fingers) else {
        return Step::Met;
    };
    let Some(target) = next_target(frames, marked, *fingers, source) else {
        return Step::Met;
    };
    fingers.pass(source, target)
}

/// The lowest frame between the fingers that a page may be taken from.
fn next_source(
    frames: &[FrameState],
    movable: &[bool],
    marked: &[bool],
    fingers: Fingers,
) -> Option<FrameNo>
    requires few { length frames.now ≤ 4096 }
    requires movable { length movable.now ≡ length frames.now }
    requires marked { length frames.now ≤ 512 * length marked.now }
    requires high { fingers.free ≤ length frames.now }
    ensures { result ≡ next_source frames.now movable.now marked.now fingers }
{
    for frame in fingers.migrate..fingers.free {
        if is_source(frames, movable, marked, frame as usize) {
            return FrameNo::new(frame);
        }
    }
    None
}

/// The highest free frame above a source and below the free finger, in an unmarked pageblock.
fn next_target(
    frames: &[FrameState],
    marked: &[bool],
    fingers: Fingers,
    source: FrameNo,
) -> Option<FrameNo>
    requires few { length frames.now ≤ 4096 }
    requires marked { length frames.now ≤ 512 * length marked.now }
    requires high { fingers.free ≤ length frames.now }
    ensures { result ≡ next_target frames.now marked.now fingers source }
{
    let mut number = fingers.free;
    while number > source.get() + 1 {
        number -= 1;
        if is_target(frames, marked, number as usize) {
            return FrameNo::new(number);
        }
    }
    None
}

fn is_source(frames: &[FrameState], movable: &[bool], marked: &[bool], frame: usize) -> bool
    requires frame { frame < length frames.now }
    requires movable { length movable.now ≡ length frames.now }
    requires marked { length frames.now ≤ 512 * length marked.now }
    ensures { result ≡ is_source frames.now movable.now marked.now frame }
{
    if is_marked(marked, frame) {
        return false;
    }
    match frames[frame] {
        FrameState::Holds(_) => movable[frame],
        _ => false,
    }
}

fn is_target(frames: &[FrameState], marked: &[bool], frame: usize) -> bool
    requires frame { frame < length frames.now }
    requires marked { length frames.now ≤ 512 * length marked.now }
    ensures { result ≡ is_target frames.now marked.now frame }
{
    !is_marked(marked, frame) && is_free(&frames[frame])
}
