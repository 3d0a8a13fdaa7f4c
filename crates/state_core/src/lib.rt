//! The state of a zone as contracts see it, and how each call changes that state.
//!
//! `specs/ZoneState.antt` is the state, one record: a machine without frame tables, words or counters. A file of `specs/` for
//! each kind of call says when it is refused, what it answers and what it leaves. `specs/Calls.antt` is four tables of the calls
//! that a client makes, each of which is a value. `specs/Valid.antt` says what is true whatever calls are made. `proofs/` has the
//! laws: each step keeps a valid state valid.
#![tactic(auto)]

mod call;
mod client_call;
mod error;
mod information;
mod law;
mod moves;
mod placement;
mod round;
mod size;

pub use call::{ZoneAnswer, ZoneCall as ZoneCallOf};
pub use client_call::ClientCall as ClientCallOf;
pub use error::ZoneError;
pub use information::{Audit, Info, Look};
pub use law::calls_keep_the_law;
pub use moves::{Ended, Next, Stranger};
pub use placement::Placement;
pub use round::{Pair, RoundStart};
pub use size::ZoneSize;

/// A call on a zone with pages of eight words.
pub type ZoneCall = ZoneCallOf<8>;

/// A call that a client may make on a zone with pages of eight words.
pub type ClientCall = ClientCallOf<8>;
