use frame_core::{FrameNo, PageNo};

/// How a round began. Whether the round is quiet is told by this and by the records made since.
#[derive(Clone, Copy, Debug, PartialEq, Eq)]
pub struct RoundStart {
    /// The number of records in the journal when it began.
    pub records: u64,
    /// Whether no page was out and, in unmarked pageblocks, no page was pinned or unmovable and no frame was handed out.
    pub calm: bool,
}

/// The page that a round isolates next, the frame that it is in, and the frame that it goes to.
#[derive(Clone, Copy, Debug, PartialEq, Eq)]
pub struct Pair {
    pub page: PageNo,
    pub source: FrameNo,
    pub target: FrameNo,
}
