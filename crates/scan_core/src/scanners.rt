//! The two scanners of a round, each on the set of the frames that it looks for.

ghost use Rattle.std.specs.Prelude.{◌≡◌, ◌*◌, ◌<◌, ◌≤◌, ◌&&◌, ℕ, not, length, nat_le, MatchOption};
ghost use Rattle.std.specs.FinSet as set;
ghost use Rattle.frame_core.specs.Below.{highest, lowest};
ghost use Rattle.number_set.specs.Finds.{IsPrevious, NoneBelow};
ghost use Rattle.scan_core.specs.Pairs.{is_marked};

use crate::fingers::Fingers;
use crate::marks::Marks;
use frame_core::FrameNo;
use number_set::NumberSet;

/// The lowest source between the fingers, in an unmarked pageblock. It passes over the rest of a marked pageblock at once.
pub(crate) fn next_source(sources: &NumberSet, marks: &Marks, fingers: Fingers) -> Option<FrameNo>
    requires few { fingers.free ≤ 16777216 }
    requires room { fingers.free ≤ sources.now.bound }
    requires marks { fingers.free ≤ 512 * length marks.now }
    ensures { result ≡ lowest (λ frame. nat_le fingers.migrate frame && (not (is_marked marks.now frame) && set.contains sources.now.members frame)) fingers.free }
{
    let mut next = fingers.migrate;
    while next < fingers.free {
        let frame = sources.at_or_after(next)?;
        if frame >= fingers.free {
            return None;
        }
        if !marks.is_marked(frame / 512) {
            return FrameNo::in_any_zone(frame);
        }
        next = (frame / 512 + 1) * 512;
    }
    None
}

/// The highest free frame from `low` on and below `end`, in an unmarked pageblock. It passes over the rest of a marked pageblock at
/// once.
#[inline(always)]
pub(crate) fn highest_target(free: &NumberSet, marks: &Marks, low: u32, end: u32) -> Option<FrameNo>
    requires few { end ≤ 16777216 }
    requires room { end ≤ free.now.bound }
    requires marks { end ≤ 512 * length marks.now }
    ensures { result ≡ highest (λ frame. nat_le low frame && (not (is_marked marks.now frame) && set.contains free.now.members frame)) end }
{
    let mut above = end;
    while above > low {
        let frame = last_below(free, above)?;
        if frame < low {
            return None;
        }
        if !marks.is_marked(frame / 512) {
            return FrameNo::in_any_zone(frame);
        }
        above = frame / 512 * 512;
    }
    None
}

/// The highest number of a set below an end, which may be its bound.
#[inline(always)]
fn last_below(numbers: &NumberSet, end: u32) -> Option<u32>
    requires some { 0 < end }
    requires within { end ≤ numbers.now.bound }
    ensures { MatchOption result (NoneBelow (set.contains numbers.now.members) end) (IsPrevious (set.contains numbers.now.members) end) }
{
    let last = end - 1;
    if numbers.contains(last) {
        return Some(last);
    }
    numbers.before(last)
}
