ghost use Rattle.std.specs.Prelude.{◌≡◌};
ghost use Rattle.zone_picture.specs.Cells.{cell_of};

use frame_core::{FrameState, PageNo};

/// What a frame is used for, as it is drawn.
#[derive(Clone, Copy, PartialEq, Eq)]
pub enum Cell {
    Free,
    /// A page that may be moved.
    Page,
    /// A page that may not: it is unmovable, or it is pinned.
    Fixed,
    /// The frame that a page leaves while it is moved.
    Source,
    /// The frame that it is moved to.
    Target,
    /// A part of a block that is handed out.
    HandedOut,
}

impl Cell {
    /// What a frame in this state is drawn as, where the page that it holds may be moved or not.
    pub fn of(state: FrameState<PageNo>, movable: bool) -> Self
        ensures { result ≡ cell_of state movable }
    {
        match state {
            FrameState::Free => Cell::Free,
            FrameState::Holds(_) if movable => Cell::Page,
            FrameState::Holds(_) => Cell::Fixed,
            FrameState::Source(_) => Cell::Source,
            FrameState::Target(_) => Cell::Target,
            FrameState::Huge => Cell::HandedOut,
        }
    }
}
