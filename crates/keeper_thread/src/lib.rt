//! A keeper in a thread of its own.
//!
//! A [`SharedPool`] is a zone under one lock, with the keeper that has blocks of it ready. The thread of the keeper makes steps whenever it
//! is woken, one under each hold of the lock, so that other calls go on between them. Contracts see what is under the lock by the
//! definitions in `specs/Working.antt`.
#![tactic(auto)]

mod guard;
mod identity;
mod room;
mod shared_pool;
mod thread;
mod work;

pub use guard::{Calling, CallingGuard};
pub use identity::KeeperIdentity;
pub use room::Room;
pub use shared_pool::SharedPool;
pub use thread::{KeeperThread, STACK_SIZE, WorksWithinBounds, start};
pub use work::Work;

/// How many pages a step of a thread moves at most, for whoever has no wish.
pub const SLICE: u32 = 32;
