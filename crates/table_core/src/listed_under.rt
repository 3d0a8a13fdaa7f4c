ghost use Rattle.std.specs.Prelude.{◌≡◌, Some, None};

use frame_core::FrameNo;
use std::marker::Model;

/// The number that stands for no frame.
const NO_FRAME: u32 = 16_777_216;

/// The frame under which an address is listed, if it is listed. It takes four bytes, half of what an `Option<FrameNo>` takes.
#[derive(Clone, Copy)]
pub struct ListedUnder {
    number: u32,
}

impl Model for ListedUnder {
    ghost use Rattle.std.specs.Prelude.{ℕ, Option, ◌≤◌, unwrap_or};
    ghost use Rattle.table_core.specs.ListedUnder.{frame_of};

    ghost Value = { Option ℕ };

    ghost view = { λ l. frame_of l.number };

    ghost invariant = { λ l. l.number ≤ 16777216 };

    ghost inverse = { λ frame. record { number = unwrap_or frame 16777216 } };
}

impl ListedUnder {
    /// No frame.
    #[inline(always)]
    pub fn none() -> Self
        ensures { result ≡ None }
    {
        ListedUnder { number: NO_FRAME }
    }

    /// This frame.
    #[inline(always)]
    pub fn some(frame: FrameNo) -> Self
        ensures { result ≡ Some frame }
    {
        ListedUnder {
            number: frame.get(),
        }
    }

    /// The frame, if there is one.
    #[inline(always)]
    pub fn get(self) -> Option<FrameNo>
        ensures { result ≡ self }
    {
        FrameNo::in_any_zone(self.number)
    }
}
