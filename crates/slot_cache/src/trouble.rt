use std::alloc::AllocError;
use thiserror::Error;
use zone_core::ZoneError;

/// What can go wrong.
#[derive(Clone, Copy, Debug, Error)]
pub enum Trouble {
    #[error("out of memory")]
    Memory,
    #[error("a number is out of its range")]
    Range,
    #[error("an object isn't as it was stored")]
    Changed,
    #[error("no object can be evicted")]
    Stuck,
    #[error("{0}")]
    Zone(ZoneError),
}

impl From<AllocError> for Trouble {
    fn from(_error: AllocError) -> Trouble {
        Trouble::Memory
    }
}

impl From<ZoneError> for Trouble {
    fn from(error: ZoneError) -> Trouble {
        Trouble::Zone(error)
    }
}
