//! A machine on one thread that answers the commands of a script. It has at most one world: a zone with its seats, its isolated
//! pages, and four hands that carry these.
//!
//! Contracts see a world as the record of `specs/World.antt`. What each call does to the zone is said by the definitions of
//! `state_core`, as for the zone itself. A `WorldOf<W, ..>` has pages of `W` words, at most 65,536. A `World<..>` has pages of
//! eight.
//!
//! `specs/Machine.antt` says what a command does, `specs/Replies.antt` what is written for a whole input, and `specs/Ends.antt` how
//! a run may end. `run` does exactly that.
#![tactic(auto)]

mod ending;
mod finished;
mod hands;
mod machine;
mod options;
mod refusal;
mod rest;
mod scanned;
mod script;
mod world;

pub use finished::Finished;
pub use machine::{Machine, reply_for};
pub use options::Options;
pub use refusal::Refusal;
pub use rest::Rest as RestOf;
pub use scanned::Scanned;
pub use script::{run, run_text};
pub use world::{World as WorldOf, WorldError};

/// A world with pages of eight words.
pub type World<Z> = WorldOf<8, Z>;

/// What is left of a world with pages of eight words.
pub type Rest = RestOf<8>;
