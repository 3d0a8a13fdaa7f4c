//! The pages that are moving, so that one whose copy was lost can be found.

ghost use Rattle.std.specs.Prelude.{◌≡◌, None, IfSome};
ghost use Rattle.zone_tables.specs.MovingPages.{IsNextMoving, IsNoneMoving};

use crate::bare::BareZone;
use frame_core::FrameNo;
use zone_tables::MovingPage;

impl<const W: usize> BareZone<W> {
    /// The moving page that leaves the lowest frame, of those that leave a frame from `from` on, if there is one. All moving pages come by
    /// asking from frame 0 on, and then from the frame after the last source. Where no page is moving the answer comes at once; else it looks,
    /// up to the frame that the page leaves, for each 64 frames at a word of three sets, those of the frames that are free, held, or have a
    /// page that may be taken from them, and at each frame that is in none of these.
    pub fn next_moving(&self, from: FrameNo) -> Option<MovingPage>
        ensures some { IfSome result (IsNextMoving self.now from) }
        ensures none { result ≡ None → IsNoneMoving self.now from }
    {
        self.tables.next_moving(from)
    }
}
