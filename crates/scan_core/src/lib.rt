//! The frames of a zone with sets and counts of them, and the pair of frames that a round takes next.
//!
//! Contracts see `Frames` as two lists: the state of each frame, and whether the page that it holds may be taken from
//! it. The source and the target of a move are told by the number of the page that moves. The sets and counts are
//! private. The searches and counts are there for plain lists too.
#![tactic(auto)]

mod block_groups;
mod blocks;
mod candidates;
mod fingers;
mod frame_counts;
mod frame_set;
mod frames;
mod kept_state;
mod lists;
mod marks;
mod pair;
mod scanners;
mod whole_runs;

pub use blocks::{BlockCounts, first_whole, whole_blocks};
pub use fingers::{Fingers, Step};
pub use frames::Frames;
pub use lists::first_run;
pub use marks::Marks;
pub use pair::next_pair;
