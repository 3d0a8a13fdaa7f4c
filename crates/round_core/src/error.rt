ghost use Rattle.std.specs.Prelude.{◌≡◌};
ghost use Rattle.round_core.specs.Errors.{number_of};

use frame_core::Serial;
use thiserror::Error;

/// Why a round wasn't begun, or didn't come to its end.
#[derive(Clone, Copy, Debug, PartialEq, Eq, Error)]
pub enum RoundError {
    #[error("out of memory")]
    Memory,
    #[error("a thread can't be started")]
    NoWorker,
    /// An audit was refused, an end of a queue was gone, or a copier's list had no place for a page.
    #[error("an audit was refused, or a thread of the round ended early")]
    Broken,
    /// The zone refused a copy, or a page that was to be put back. The serial is the least of those refused.
    #[error("the page with serial {0} was refused")]
    Stranger(Serial),
}

impl RoundError {
    /// The error's number, 31 to 34, that a script prints.
    pub fn number(&self) -> u16
        ensures { result ≡ number_of self.now }
    {
        match self {
            RoundError::Memory => 31,
            RoundError::NoWorker => 32,
            RoundError::Broken => 33,
            RoundError::Stranger(_) => 34,
        }
    }
}
