use frame_core::Isolated;
use thiserror::Error;

/// What the scanner found.
#[derive(Drop, Debug)]
pub enum Next<P = Isolated> {
    /// A page, which is isolated now and has to be brought back.
    Page(P),
    /// The scanners met: no pair is left between the fingers.
    Met,
}

/// How the move of a page ended.
#[derive(Clone, Copy, Debug, PartialEq, Eq)]
pub enum Ended {
    /// The page is in its new frame.
    Moved,
    /// The page had a pin, and is in its old frame.
    Back,
}

/// A page that isn't moving in the zone that it was brought to, or a copy without the words of its page. It is handed back unchanged.
#[derive(Drop, Debug, Error)]
#[error("the page is not moving in this zone")]
pub struct Stranger<P>(pub P);
