//! The law of the fewest moves: what it costs at least to make aligned runs of a zone free by moves alone.
//!
//! `specs/FewestMoves.antt` has the words: which runs are open, what a run costs, which moves may be made. The law is a function
//! with an empty body, whose clauses hold of every zone. It is about moves alone: a page that is unmapped, or a pin that is taken
//! off, may make the same runs free with fewer moves.
#![tactic(auto)]

mod example;
mod law;

pub use example::worked_example;
pub use law::fewest_moves;
