ghost use Rattle.std.specs.Prelude.{◌≡◌};
ghost use Rattle.client_core.specs.Errors.{number_of};
ghost use Rattle.client_core.specs.declared.error.ClientError.TheVariants.{Memory, Zone};

use std::alloc::AllocError;
use thiserror::Error;
use zone_core::ZoneError;

/// Why a client's call wasn't accepted.
#[derive(Clone, Copy, Debug, PartialEq, Eq, Error)]
pub enum ClientError {
    #[error("there is no memory for the receipt")]
    Memory,
    /// The zone refused the call. This is never because a page is moving.
    #[error("{0}")]
    Zone(ZoneError),
}

impl ClientError {
    /// The number of the error: 31 for Memory, or that of the zone's refusal.
    pub fn number(&self) -> u16
        ensures { result ≡ number_of self.now }
    {
        match self {
            ClientError::Memory => 31,
            ClientError::Zone(refusal) => refusal.number(),
        }
    }
}

impl From<AllocError> for ClientError {
    ghost from_gives = { λ _ error. error ≡ Memory };

    fn from(_error: AllocError) -> ClientError {
        ClientError::Memory
    }
}

impl From<ZoneError> for ClientError {
    ghost from_gives = { λ refusal error. error ≡ Zone refusal };

    fn from(refusal: ZoneError) -> ClientError {
        ClientError::Zone(refusal)
    }
}
