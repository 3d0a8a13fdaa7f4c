use crate::numbers::PageNo;

/// The number of an isolated page: 0, 1, 2, .. over a zone's life.
pub type Serial = u64;

/// What a frame is used for. A move is told by its serial, or by another name that its holder has for it.
#[derive(Clone, Copy, Debug, PartialEq, Eq)]
pub enum FrameState<M = Serial> {
    /// Nothing: a page or a block can have it.
    Free,
    /// A page that isn't moving.
    Holds(PageNo),
    /// The frame that an isolated page comes from. It keeps the page's words until the move is committed.
    Source(M),
    /// The frame that an isolated page goes to.
    Target(M),
    /// A part of a block that was handed out.
    Huge,
}
