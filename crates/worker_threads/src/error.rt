use thiserror::Error;

/// Why work wasn't begun, or didn't come to its end.
#[derive(Clone, Copy, Debug, PartialEq, Eq, Error)]
pub enum WorkError {
    /// Nothing was begun.
    #[error("out of memory")]
    Memory,
    /// The zone lies in memory of its own. Nothing was begun.
    #[error("the zone lies in memory of its own")]
    OwnMemory,
    /// The crew has no worker. Nothing was begun.
    #[error("no worker stands")]
    NoWorker,
    /// No block of the order can begin at one of the frames. Nothing was begun.
    #[error("no block of this order begins at one of the frames")]
    Range,
    /// Other work is under way, or a page is moving. Nothing was begun.
    #[error("other work is under way, or a page is moving")]
    Busy,
    /// A page was still moving when the workers had ended, or a copy wasn't the zone's.
    #[error("a page was still moving after the work")]
    Broken,
}
