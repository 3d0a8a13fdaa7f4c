use std::alloc::{AllocError, AllocFailed};
use thiserror::Error;
use zone_core::ZoneError;

/// What can go wrong.
#[derive(Debug, Drop, Error)]
pub enum Trouble {
    #[error("a number is out of its range")]
    Range,
    #[error("there is no memory for a list")]
    Memory,
    #[error("{0}")]
    Zone(ZoneError),
}

impl From<ZoneError> for Trouble {
    fn from(error: ZoneError) -> Trouble {
        Trouble::Zone(error)
    }
}

impl From<AllocError> for Trouble {
    fn from(_failed: AllocError) -> Trouble {
        Trouble::Memory
    }
}

impl<T: Drop> From<AllocFailed<T>> for Trouble {
    fn from(_failed: AllocFailed<T>) -> Trouble {
        Trouble::Memory
    }
}
