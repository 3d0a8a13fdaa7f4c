//! Rounds on threads over a zone in memory of its caller, with pages of any size, and runs of frames that threads empty.
//!
//! A [`CompactingZone`] is a zone under one lock, whose pages workers move. A worker isolates up to [`SLICE`] pages in the hold of the lock
//! in which it gives its last ones back, and copies them without the lock: it has the words of both frames. Contracts see what is under the
//! lock by the definitions in `specs/Rooms.antt`.
#![tactic(auto)]

mod alone;
mod compacting;
mod compacting_zone;
mod crew;
mod error;
mod gate;
mod identity;
mod keeping;
mod page;
mod room;
mod round;
mod runs;
mod work;
mod worker;

pub use alone::{compact_alone, empty_alone};
pub use compacting::{compact, empty};
pub use compacting_zone::{CompactingZone, OpenZone};
pub use crew::{Crew, start};
pub use error::WorkError;
pub use gate::{Gate, NoGate};
pub use identity::{MemoryIdentity, RunsIdentity, StartIdentity};
pub use keeping::{Keeping, Open};
pub use page::{CopiedPage, PageInHand};
pub use room::Room;
pub use round::{Round, Stop};
pub use runs::Runs;

/// How many pages a worker has at most.
pub const SLICE: usize = 32;
