use std::alloc::AllocError;
use thiserror::Error;

/// Why a hand-over isn't opened.
#[derive(Clone, Copy, Debug, PartialEq, Eq, Error)]
pub enum HandError {
    #[error("out of memory")]
    Memory,
    #[error("there are 1 to 4 takers or senders, and room for 1 to 64 pages or copies, in batches of 1 to 8 that fit in it")]
    Range,
}

impl From<AllocError> for HandError {
    ghost use Rattle.std.specs.Prelude.{◌≡◌};
    ghost use Rattle.hand_core.specs.declared.error.HandError.TheVariants.{Memory};

    ghost from_gives = { λ _ error. error ≡ Memory };

    fn from(_error: AllocError) -> HandError {
        HandError::Memory
    }
}

/// The other side of a hand-over is gone.
#[derive(Debug, Drop, Error)]
#[error("the other side is gone")]
pub struct Gone;

impl HandError {
    ghost use Rattle.std.specs.Prelude.{◌≡◌};
    ghost use Rattle.hand_core.specs.Errors.{number_of};

    /// The error's number, 21 or 22. No script prints it.
    pub fn number(&self) -> u16
        ensures { result ≡ number_of self.now }
    {
        match self {
            HandError::Memory => 21,
            HandError::Range => 22,
        }
    }
}
