ghost use Rattle.std.specs.Prelude.{◌≡◌, None, Some, false, nat_eq, not, ◌&&◌};
ghost use Rattle.state_core.specs.declared.placement.Placement.TheVariants.{At};

use frame_core::FrameNo;
use state_core::Placement;

/// What a zone notes of a page number.
#[derive(Clone, Copy, Debug, PartialEq, Eq)]
pub struct PageNote {
    /// Where the page is; none where no page in use has the number.
    pub placement: Option<Placement>,
    pub unmovable: bool,
    pub dirty: bool,
    pub pins: u8,
    /// How many addresses name the page.
    pub maps: u8,
}

impl PageNote {
    /// The note of a number that isn't in use.
    pub fn unused() -> Self
        ensures { result ≡ record { placement = None; unmovable = false; dirty = false; pins = 0; maps = 0 } }
    {
        PageNote {
            placement: None,
            unmovable: false,
            dirty: false,
            pins: 0,
            maps: 0,
        }
    }

    /// Whether the page may be taken from its frame: it has no pin, and wasn't mapped as unmovable.
    pub fn can_move(&self) -> bool
        ensures { result ≡ (nat_eq self.now.pins 0 && not self.now.unmovable) }
    {
        self.pins == 0 && !self.unmovable
    }

    /// The note of a fresh page in a frame.
    pub fn fresh(frame: FrameNo, unmovable: bool) -> Self
        ensures { result ≡ record { placement = Some (At frame); unmovable = unmovable; dirty = false; pins = 0; maps = 1 } }
    {
        PageNote {
            placement: Some(Placement::At(frame)),
            unmovable,
            dirty: false,
            pins: 0,
            maps: 1,
        }
    }
}
