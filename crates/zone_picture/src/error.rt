use script_core::RunError;
use std::alloc::{AllocError, AllocFailed};
use thiserror::Error;

/// Why there is no picture.
#[derive(Clone, Copy, Debug, Error)]
pub enum PictureError {
    #[error("{0}")]
    Fault(RunError),
    #[error("the script has more than 8 commands to draw")]
    TooLarge,
    #[error("the script opens no zone")]
    NoZone,
    #[error("there is no memory for the picture")]
    Memory,
    #[error("the picture can't be written")]
    Write,
}

impl From<AllocError> for PictureError {
    fn from(_: AllocError) -> PictureError {
        PictureError::Memory
    }
}

impl<T: Drop> From<AllocFailed<T>> for PictureError {
    fn from(_: AllocFailed<T>) -> PictureError {
        PictureError::Memory
    }
}
