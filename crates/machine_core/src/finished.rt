use frame_core::Serial;
use state_core::Ended;

/// How the move of a page ended.
#[derive(Clone, Copy, Debug, PartialEq, Eq)]
pub struct Finished {
    pub serial: Serial,
    pub ended: Ended,
}
