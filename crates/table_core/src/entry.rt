use frame_core::FrameNo;

/// What an address names.
#[derive(Clone, Copy, Debug, PartialEq, Eq)]
pub enum Entry {
    Absent,
    /// The page in this frame.
    Present(FrameNo),
    /// A migration entry: the page is moving, and left this frame. Who comes to it waits until it is removed.
    Migration(FrameNo),
}
