ghost use Rattle.std.specs.Prelude.{◌≡◌};
ghost use Rattle.state_core.specs.ErrorNumber.{number_of};
ghost use Rattle.state_core.specs.declared.error.ZoneError.TheVariants.{Memory};

use std::alloc::AllocError;
use std::error::Error;
use std::fmt;
use std::fmt::{Display, Formatter};

/// Why a call of a zone was refused. Where several reasons hold, the one with the lowest number is the error. The
/// numbers and the reasons are this project's own.
#[derive(Clone, Copy, Debug, PartialEq, Eq)]
pub enum ZoneError {
    /// An argument is out of its range.
    Range,
    /// The journal has no place left, besides those that the moving pages need for their ends.
    JournalFull,
    /// The address names no page.
    Unmapped,
    /// The page is moving.
    Moving,
    /// The address names a page already.
    Occupied,
    /// No frame is free.
    NoFrame,
    /// The page has 4 addresses already.
    ShareFull,
    /// The page has 255 pins already.
    PinFull,
    /// The page has no pin.
    NotPinned,
    /// The page has a pin and this is its last address.
    Pinned,
    /// No block of this order has only free frames.
    NoBlock,
    /// No block of this order is handed out from this frame on.
    NotHuge,
    /// The page isn't moving in this zone.
    Stranger,
    /// There is not enough memory.
    Memory,
    /// A part of the end seat is missing.
    Missing,
    /// A page is moving.
    Out,
    /// The pageblock is marked already.
    Marked,
    /// The pageblock is not marked.
    NotMarked,
    /// The words of the block or page are lent.
    Lent,
    /// The zone lies in memory of its own.
    OwnMemory,
}

impl ZoneError {
    /// Its number, 1 to 20, which is also what a script prints.
    pub fn number(&self) -> u16
        ensures { result ≡ number_of self.now }
    {
        match self {
            ZoneError::Range => 1,
            ZoneError::JournalFull => 2,
            ZoneError::Unmapped => 3,
            ZoneError::Moving => 4,
            ZoneError::Occupied => 5,
            ZoneError::NoFrame => 6,
            ZoneError::ShareFull => 7,
            ZoneError::PinFull => 8,
            ZoneError::NotPinned => 9,
            ZoneError::Pinned => 10,
            ZoneError::NoBlock => 11,
            ZoneError::NotHuge => 12,
            ZoneError::Stranger => 13,
            ZoneError::Memory => 14,
            ZoneError::Missing => 15,
            ZoneError::Out => 16,
            ZoneError::Marked => 17,
            ZoneError::NotMarked => 18,
            ZoneError::Lent => 19,
            ZoneError::OwnMemory => 20,
        }
    }

    // The text that a reader is told.
    fn text(&self) -> &'static str {
        match self {
            ZoneError::Range => "an argument is out of its range",
            ZoneError::JournalFull => "the journal has no place left",
            ZoneError::Unmapped => "the address names no page",
            ZoneError::Moving => "the page is moving",
            ZoneError::Occupied => "the address names a page already",
            ZoneError::NoFrame => "no frame is free",
            ZoneError::ShareFull => "the page has 4 addresses already",
            ZoneError::PinFull => "the page has 255 pins already",
            ZoneError::NotPinned => "the page has no pin",
            ZoneError::Pinned => "the page has a pin and this is its last address",
            ZoneError::NoBlock => "no block of free frames is left",
            ZoneError::NotHuge => "the block was not handed out",
            ZoneError::Stranger => "the page is not moving in this zone",
            ZoneError::Memory => "there is not enough memory",
            ZoneError::Missing => "a part of the end seat is missing",
            ZoneError::Out => "a page is moving",
            ZoneError::Marked => "the pageblock is marked already",
            ZoneError::NotMarked => "the pageblock is not marked",
            ZoneError::Lent => "the words are lent",
            ZoneError::OwnMemory => "the zone lies in memory of its own",
        }
    }
}

impl From<AllocError> for ZoneError {
    ghost from_gives = { λ _ error. error ≡ Memory };

    fn from(_error: AllocError) -> ZoneError {
        ZoneError::Memory
    }
}

impl Display for ZoneError {
    fn fmt<W: fmt::Write>(&self, f: &mut Formatter<W>) -> fmt::Result {
        f.pad(self.text())
    }
}

impl Error for ZoneError {}
