//! A collector of blocks of free frames, which runs rounds as it needs them.
//!
//! A block that a zone handed out is a `Huge`. Contracts see it as its first frame and its order.
#![tactic(auto)]

mod alone;
mod collector;
mod huge;
mod report;

pub use alone::reserve_alone;
pub use collector::Collector;
pub use huge::{Huge, give};
pub use report::{Report, Stop};
