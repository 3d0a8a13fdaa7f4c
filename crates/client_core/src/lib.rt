//! Clients of a shared zone, each with receipts of its calls that were accepted, and the comparison of receipts with a journal.
//!
//! A call whose page is moving waits until the move has ended. Contracts see a client as its number and its receipts. The receipts of
//! an unrecorded client exist in the proofs alone, and take no memory.
#![tactic(auto)]

mod client;
mod error;
mod making;
mod receipts;
mod settling;
mod telling;

pub use client::{Client, UnrecordedClient};
pub use error::ClientError;
pub use receipts::Receipts;
pub use settling::{Mismatch, Unsettled, settle_clients};
pub use telling::{NoSlip, Telling};
