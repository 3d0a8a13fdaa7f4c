//! The pages that are moving, by the frames that they leave.

ghost use Rattle.std.specs.Prelude.{◌≡◌, ◌<◌, Some, None, IfSome};
ghost use Rattle.std.specs.FinMap as map;
ghost use Rattle.state_core.specs.ZoneState.{frame_count};
ghost use Rattle.state_core.specs.declared.placement.Placement.TheVariants.{Moving};
ghost use Rattle.zone_tables.specs.MovingPages.{IsMovingFrom, IsLeftByNone, IsLowestName, IsNextMoving, IsNoneMoving, Leaves};

use crate::zone::ZoneTables;
use frame_core::{Address, FrameNo, FrameState, PageFlags, PageNo, Serial};
use state_core::Placement;

/// A page that is moving, with the lowest of its addresses.
#[derive(Clone, Copy, Debug, PartialEq, Eq)]
pub struct MovingPage {
    pub page: PageNo,
    pub serial: Serial,
    pub flags: PageFlags,
    /// The frame that it leaves.
    pub source: FrameNo,
    /// The frame that it goes to.
    pub target: FrameNo,
    pub address: Address,
}

impl<const W: usize> ZoneTables<W> {
    /// The moving page that leaves the lowest frame, of those that leave a frame from `from` on, if there is one. Where no page is moving
    /// the answer comes at once; else it looks, up to the frame that the page leaves, for each 64 frames at a word of three sets, and at each
    /// frame that is in none of them.
    pub fn next_moving(&self, from: FrameNo) -> Option<MovingPage>
        ensures some { IfSome result (IsNextMoving self.now from) }
        ensures none { result ≡ None → IsNoneMoving self.now from }
    {
        if self.moves.out() == 0 {
            return None;
        }
        let source = self.frames.next_leaving(from)?;
        self.moving_from(source)
    }

    /// The page that is moving out of a frame, if one is.
    fn moving_from(&self, source: FrameNo) -> Option<MovingPage>
        requires { source < frame_count self.now }
        ensures some { IfSome result (IsMovingFrom self.now source) }
        ensures none { result ≡ None → IsLeftByNone self.now source }
    {
        let page = self.page_from(source)?;
        let Placement::Moving {
            serial,
            source,
            target,
        } = self.notes.placement(page)?
        else {
            return None;
        };
        Some(MovingPage {
            page,
            serial,
            flags: self.flags_of(page),
            source,
            target,
            address: self.lowest_address(page, source),
        })
    }

    /// The number of the page that is moving out of a frame, if one is.
    pub(crate) fn page_from(&self, source: FrameNo) -> Option<PageNo>
        requires { source < frame_count self.now }
        ensures some { IfSome result (λ page. Leaves (map.get self.now.placement page) source) }
        ensures none { result ≡ None → IsLeftByNone self.now source }
    {
        match self.frames.state(source) {
            FrameState::Source(page) => Some(page),
            _ => None,
        }
    }

    /// The lowest address that names a moving page.
    fn lowest_address(&self, page: PageNo, source: FrameNo) -> Address
        requires { Leaves (map.get self.now.placement page) source }
        ensures { IsLowestName self.now page result }
    {
        let names = self.tables.mappings_moving(source);
        let Some(lowest) = names.first() else {
            unreachable!();
        };
        *lowest
    }
}
