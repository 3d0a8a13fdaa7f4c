//! Rounds on threads: a scanner isolates many pages of a zone under one hold of its lock, copiers copy them, and a committer ends their
//! moves in the same way.
//!
//! The zone is under one lock, which keeps it valid. Contracts see a round by what it changes in the two seats.
#![tactic(auto)]

mod alone;
mod committer;
mod compacting;
mod copier;
mod crew;
mod division;
mod error;
mod gate;
mod identity;
mod keeping;
mod memory;
mod plan;
mod round;
mod scanner;
mod shared_zone;
mod stack;
mod under_lock;

pub use alone::compact_alone;
pub use compacting::{compact, compact_at_most};
pub use copier::{Carried, carry};
pub use error::RoundError;
pub use gate::{Gate, NoGate, Point};
pub use identity::ZoneIdentity;
pub use keeping::{Keeping, Open};
pub use round::{Round, Stop};
pub use shared_zone::{KeptIn, KeptZone, Room, RoomIn, SharedZone, ZoneGuard};
