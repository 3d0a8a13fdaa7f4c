use frame_core::{FrameNo, Serial};

/// Where a page in use is.
#[derive(Clone, Copy, Debug, PartialEq, Eq)]
pub enum Placement {
    /// In this frame.
    At(FrameNo),
    /// Moving under a serial, from a source to a target. The source keeps its words until the move is committed.
    Moving {
        serial: Serial,
        source: FrameNo,
        target: FrameNo,
    },
}
