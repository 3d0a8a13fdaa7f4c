use crate::numbers::{ClientNo, PageNo};
use crate::order::Order;
use crate::place::{Address, BlockNo, FrameNo};
use crate::state::Serial;

/// Why an isolated page was put back.
#[derive(Clone, Copy, Debug, PartialEq, Eq)]
pub enum Cause {
    /// It had a pin when its copy was brought back.
    Pinned,
    /// It wasn't copied.
    NotCopied,
}

/// What an accepted call of a zone leaves in the journal. No record says in which frame a page is.
#[derive(Clone, Copy, Debug, PartialEq, Eq)]
pub enum Record {
    /// The address names a fresh page.
    Map {
        client: ClientNo,
        address: Address,
        page: PageNo,
    },
    /// The alias names the page of the address too.
    Share {
        client: ClientNo,
        address: Address,
        alias: Address,
    },
    /// The address names no page any more.
    Unmap {
        client: ClientNo,
        address: Address,
    },
    Store {
        client: ClientNo,
        address: Address,
        word: u16,
        value: u64,
    },
    /// The value is the one that the call answered.
    Load {
        client: ClientNo,
        address: Address,
        word: u16,
        value: u64,
    },
    Pin {
        client: ClientNo,
        address: Address,
    },
    Unpin {
        client: ClientNo,
        address: Address,
    },
    /// The page is isolated, under this serial.
    Isolate {
        page: PageNo,
        serial: Serial,
    },
    /// The page is in its new frame: the move under this serial is committed.
    Moved {
        serial: Serial,
    },
    /// The page was put back into the frame that it came from.
    Back {
        cause: Cause,
        serial: Serial,
    },
    /// A block of this order was handed out.
    TakeHuge {
        frame: FrameNo,
        order: Order,
    },
    /// A block that was handed out came back.
    GiveHuge {
        frame: FrameNo,
        order: Order,
    },
    /// The scanners pass over this pageblock from here on.
    Mark {
        block: BlockNo,
    },
    Unmark {
        block: BlockNo,
    },
}
