ghost use Rattle.std.specs.Prelude.{◌≡◌, IsTrue};
ghost use Rattle.state_core.specs.Calls.{answers, is_of_client, record_of};
ghost use Rattle.state_core.specs.declared.call.ZoneAnswer.{ZoneAnswer};

use frame_core::{Address, BlockNo, ClientNo, FrameNo, Order, PageNo, Record, WordOf};

/// A call that a client makes on a zone whose pages have `W` words. The calls are this project's own profile.
#[derive(Clone, Copy, Debug, PartialEq, Eq)]
pub enum ZoneCall<const W: usize> {
    /// Makes an address name a fresh page in the lowest free frame, or in a frame by its pageblock where unmovable pages are mapped apart.
    Map {
        address: Address,
        unmovable: bool,
    },
    /// Makes an address name a fresh page in this frame.
    MapAt {
        address: Address,
        unmovable: bool,
        frame: FrameNo,
    },
    /// Reads a word of the page of an address.
    Load {
        address: Address,
        word: WordOf<W>,
    },
    /// Writes a word of the page of an address.
    Store {
        address: Address,
        word: WordOf<W>,
        value: u64,
    },
    /// Makes an alias name the page of an address too.
    Share {
        address: Address,
        alias: Address,
    },
    /// Makes an address name no page any more.
    Unmap {
        address: Address,
    },
    /// Pins the page of an address.
    Pin {
        address: Address,
    },
    /// Takes a pin off the page of an address.
    Unpin {
        address: Address,
    },
    /// Hands out the lowest free block of an order.
    TakeOrder {
        order: Order,
    },
    /// Takes back a block that was handed out.
    GiveOrder {
        first: FrameNo,
        order: Order,
    },
    /// Marks a pageblock, so that the scanners pass over it.
    Mark {
        block: BlockNo,
    },
    /// Takes the mark of a pageblock off.
    Unmark {
        block: BlockNo,
    },
}

/// What a zone answers to a call that it doesn't refuse.
#[derive(Clone, Copy, Debug, PartialEq, Eq)]
pub enum ZoneAnswer {
    /// The call was made, and there is nothing to tell.
    Done,
    /// The number of a fresh page, and the frame that it is in.
    Mapped { page: PageNo, frame: FrameNo },
    /// The first frame of a block that was handed out.
    Frame(FrameNo),
    /// The value that a load read.
    Value(u64),
}

impl<const W: usize> ZoneCall<W> {
    /// Whether a client may make the call beside a round: it names an address.
    #[inline(always)]
    pub(crate) fn is_of_client(&self) -> bool
        ensures { result ≡ is_of_client self.now }
    {
        match self {
            ZoneCall::TakeOrder { .. }
            | ZoneCall::GiveOrder { .. }
            | ZoneCall::Mark { .. }
            | ZoneCall::Unmark { .. } => false,
            _ => true,
        }
    }

    /// The record that the call leaves in the journal, made by this client and answered so. The answer has to be one to such a call.
    pub fn record(self, client: ClientNo, answer: ZoneAnswer) -> Record
        requires { IsTrue (answers self answer) }
        ensures { result ≡ record_of self.entry client answer }
    {
        match answer {
            ZoneAnswer::Done => self.record_of_done(client),
            ZoneAnswer::Mapped { page, .. } => match self {
                ZoneCall::Map { address, .. } | ZoneCall::MapAt { address, .. } => Record::Map {
                    client,
                    address,
                    page,
                },
                _ => unreachable!(),
            },
            ZoneAnswer::Frame(frame) => match self {
                ZoneCall::TakeOrder { order } => Record::TakeHuge { frame, order },
                _ => unreachable!(),
            },
            ZoneAnswer::Value(value) => match self {
                ZoneCall::Load { address, word } => Record::Load {
                    client,
                    address,
                    word: word.noted(),
                    value,
                },
                _ => unreachable!(),
            },
        }
    }

    /// The record that a call leaves whose answer tells nothing.
    fn record_of_done(self, client: ClientNo) -> Record
        requires { IsTrue (answers self ZoneAnswer.Done) }
        ensures { result ≡ record_of self.entry client ZoneAnswer.Done }
    {
        match self {
            ZoneCall::Store {
                address,
                word,
                value,
            } => Record::Store {
                client,
                address,
                word: word.noted(),
                value,
            },
            ZoneCall::Share { address, alias } => Record::Share {
                client,
                address,
                alias,
            },
            ZoneCall::Unmap { address } => Record::Unmap { client, address },
            ZoneCall::Pin { address } => Record::Pin { client, address },
            ZoneCall::Unpin { address } => Record::Unpin { client, address },
            ZoneCall::GiveOrder { first, order } => Record::GiveHuge {
                frame: first,
                order,
            },
            ZoneCall::Mark { block } => Record::Mark { block },
            ZoneCall::Unmark { block } => Record::Unmark { block },
            _ => unreachable!(),
        }
    }
}
