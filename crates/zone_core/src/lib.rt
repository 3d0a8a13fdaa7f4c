//! A zone: its frames, the pages in them, the addresses that name these pages, and its journal.
//!
//! A `BareZone` is a zone without ledgers: the calls with their tests, and a round on one thread. A `ZoneOf` is a bare zone with its ledgers, by
//! which those who scan and those who end moves count with their seats.
//!
//! Contracts see a zone as one record, the `ZoneState` of `state_core`: the state of a machine without frame tables, words or
//! counters. The clauses of each call say when it is refused and which step that machine makes, by the definitions of that
//! crate. Seats are seen as the records of `specs/Seats.antt`.
//!
//! A `ZoneOf<W, ..>` has pages of `W` words, at most 65,536. A `Zone<..>` has pages of eight. A type `Z` with the trait `Opening` names an opened
//! zone, which is a `ZoneInOf<W, Z>` or a `ZoneIn<Z>` then, and its seats.
//!
//! The words (zone, pageblock, order, isolate, put back, pin) are those of the Linux kernel's memory management. What they
//! mean here is this project's own profile.
//!
//! `compact` is a round on one thread over a zone with seats. `specs/ByHand.antt` is such a round as a definition, and
//! `specs/Outcome.antt` says what a zone comes to once its moving pages have been moved, whatever the order, and when two zones are
//! the same but for that order. Two such zones answer each call alike, refusals too, and are still the same after it: the functions
//! whose names end in `_agree` have these laws for their contracts, and do nothing. `specs/Alone.antt` is what a lock keeps during a
//! round over a zone that nobody else has.
#![tactic(auto)]

mod agreement;
mod bare;
mod blocks;
mod bulk;
mod contents;
mod making;
mod one_thread;
mod opening;
mod outcome;
mod rounds;
mod seats;
mod sharing;
mod zone;

pub use agreement::{calls_agree, contents_agree, looks_agree, moves_agree, rounds_agree};
pub use bare::{BareZone, CheapestRun, Slice};
pub use frame_core::{
    Address, BlockNo, Cause, ClientNo, Copied, CopiedOf, FrameNo, Isolated, IsolatedOf, Journal,
    Order, PageFlags, PageNo, Record, Serial, SpaceNo, VPage, WordNo, WordOf, ZoneNo,
};
pub use one_thread::compact;
pub use opening::{
    EndSeatIn, IsolatedPages, MovedPages, Opening, PagesBack, Rounds, ScanSeatIn, SeatsIn, ZoneIn,
    ZoneInOf,
};
pub use outcome::{comes_to_by_hand, each_step_keeps, packs_a_calm_zone};
pub use seats::{Answered, Blanks, EndSeat, ScanSeat, Seats};
pub use state_core::{
    Audit, ClientCall, ClientCallOf, Ended, Info, Look, Next, Placement, RoundStart, Stranger,
    ZoneAnswer, ZoneCall, ZoneCallOf, ZoneError, ZoneSize,
};
pub use zone::Zone as ZoneOf;
pub use zone_tables::{CopiedMove, LentMove, MovingPage};

/// A zone with pages of eight words.
pub type Zone<I, M, B> = ZoneOf<8, I, M, B>;
