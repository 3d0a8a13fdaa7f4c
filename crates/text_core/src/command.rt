use crate::block_count::BlockCount;
use crate::page_count::PageCount;
use crate::pool::PoolBlocks;
use frame_core::{Address, BlockNo, HandNo, SpaceNo, ZoneNo};
use state_core::{ClientCall, ZoneCall};

/// A command of a script.
#[derive(Clone, Copy, Debug)]
pub enum Command {
    /// Opens a zone with this many pageblocks.
    Open {
        zone: ZoneNo,
        blocks: BlockCount,
    },
    /// Calls on the zone with this number.
    On {
        zone: ZoneNo,
        calls: Calls,
    },
    /// A round over the zone with this number.
    Compact {
        zone: ZoneNo,
    },
    /// Reserves this many blocks of the zone with this number, and runs rounds as they are needed.
    Pool {
        zone: ZoneNo,
        count: BlockCount,
        blocks: PoolBlocks,
    },
    /// Runs a round while a client makes calls. The number of the zone may be any number.
    During {
        zone: u64,
    },
    /// The script is read by profile 2 from here on.
    Profile2,
    /// The command has an argument that is out of its range.
    OutOfRange,
}

/// The calls of one command.
#[derive(Clone, Copy, Debug)]
pub enum Calls {
    /// A call that the zone answers by itself.
    Zone(ZoneCall),
    /// Another call.
    One(Call),
    Series(Series),
}

/// The same call for `count` pages of a space, the first one at `first`, and each `step` pages after the one before.
/// `first` and `step` may be any numbers, so a page may lie outside the space.
#[derive(Clone, Copy, Debug)]
pub struct Series {
    pub call: Repeated,
    pub space: SpaceNo,
    pub count: PageCount,
    pub first: u64,
    pub step: u64,
}

/// A call that a series makes.
#[derive(Clone, Copy, Debug, PartialEq, Eq)]
pub enum Repeated {
    /// Maps a page that isn't unmovable.
    Map,
    Unmap,
}

/// A call on a zone that isn't a `ZoneCall`.
#[derive(Clone, Copy, Debug)]
pub enum Call {
    Info,
    /// As `Info`, with the number of frames that are handed out.
    InfoWithHeld,
    Scan,
    Take(HandNo),
    Copy(HandNo),
    Finish(HandNo),
    Shut,
    Look(Address),
    /// Hands out a pageblock, which the reply names by its number.
    Huge,
    /// Takes a pageblock back, by its number.
    Give(BlockNo),
}

/// What a line of a block says.
#[derive(Clone, Copy, Debug)]
pub enum BlockLine {
    /// A call of the client, or none where an argument is out of its range.
    Client(Option<ClientCall>),
    /// The end of the block.
    End,
}
