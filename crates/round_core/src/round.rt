use frame_core::Serial;

/// Why the scanner of a round stopped.
#[derive(Clone, Copy, Debug, PartialEq, Eq)]
pub enum Stop {
    /// The scanners met: no page may be taken that has a frame to go to.
    Met,
    JournalFull,
    /// As many pages were isolated as the round may take.
    Most,
}

/// What a round did.
#[derive(Drop, Debug)]
pub struct Round {
    /// The serial of its first page.
    pub base: Serial,
    /// How many pages it isolated.
    pub count: u64,
    /// How many of them were moved.
    pub moved: u64,
    /// How many of them were put back.
    pub back: u64,
    /// The serials of the pages that each copier copied.
    pub by_copier: Vec<Vec<Serial>>,
    pub stopped: Stop,
}
