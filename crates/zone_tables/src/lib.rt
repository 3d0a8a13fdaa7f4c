//! The tables of a zone, without the ledgers that name its opening: frames, entries, words, notes, moves, blocks that are
//! handed out, and the journal with its latest round. Each is a type that keeps its own counts.
//!
//! Contracts see a `ZoneTables`, with pages of any size, as the state of `state_core`. Its methods are the tests and the steps that the calls of a
//! zone consist of. `specs/Fits.antt` says how each table stands for the state.
#![tactic(auto)]

mod access;
mod bulk;
mod claiming;
mod cleared;
mod contents;
mod ending;
mod evacuating;
mod handed_out;
mod handing_out;
mod history;
mod information;
mod isolating;
mod kept_note;
mod kept_order;
mod lending;
mod lending_moves;
mod lending_pages;
mod lent_move;
mod looking;
mod mapping;
mod marking;
mod moves;
mod moving;
mod note;
mod notes;
mod opening;
mod pinning;
mod sharing;
mod unmapping;
mod zone;

pub use ending::Move;
pub use lent_move::{CopiedMove, LentMove};
pub use looking::Uses;
pub use moving::MovingPage;
pub use zone::ZoneTables;
