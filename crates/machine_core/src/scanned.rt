use frame_core::Serial;

/// What a scan found.
#[derive(Clone, Copy, Debug, PartialEq, Eq)]
pub enum Scanned {
    /// A page, which is isolated under this serial.
    Serial(Serial),
    /// The scanners met: no page may be taken that has a frame to go to.
    Met,
}
