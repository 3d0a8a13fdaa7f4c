//! Hands pages over between threads: from one giver to at most four takers, and their copies back to one taker.
//!
//! Contracts see each end as what it gave or took, in its order, under the name of its queue.
//!
//! Beside the queues stands one list of records in two halves, for contracts alone: a stub stays under a lock, and a slip goes to
//! whoever is told. A record is written on both halves together, so both always have the same list. No list is stored.
#![tactic(auto)]

mod batch;
mod copy_queue;
mod done_opening;
mod done_sender;
mod done_settling;
mod done_taker;
mod error;
mod giver;
mod halves;
mod law;
mod opening;
mod page_queue;
pub mod patience;
mod rule;
mod settling;
mod taker;

pub use batch::{BATCH_CAPACITY, Batch};
pub use done_opening::{done_open, done_open_in_batches};
pub use done_sender::DoneSender;
pub use done_settling::done_settle;
pub use done_taker::{Came, DoneTaker};
pub use error::{Gone, HandError};
pub use giver::Giver;
pub use halves::{Slip, Stub, write_both};
pub use law::{copies_keep_to_their_room, hands_over_in_order};
pub use opening::{Takers, open, open_in_batches};
pub use settling::{Settled, settle};
pub use taker::{Taker, Took};
