//! What each address of a zone names: nothing, a frame, or a page that is moving; and which addresses name a frame.
//!
//! Contracts see the tables as the list of their entries, and read it by `entry_at`.
#![tactic(auto)]

mod entries;
mod entry;
mod listed_under;
mod names;
mod size;
mod tables;
mod walks;

pub use entry::Entry;
pub use tables::Tables;
