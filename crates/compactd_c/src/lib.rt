//! The pool for C: a handle, and the calls that C makes on it.
//!
//! Each call answers 0, or the number of its refusal: 1 to 20 as a zone numbers them, 51 where the pool is closed, 52 where it is open
//! already, 53 where the scanners of a round have met, 54 where no page is moving, 55 where no page leaves a run. Comments name them as
//! `c/include/compactd.h` does. A refused call changes nothing. A call for many pages answers the first refusal of a page, and changes
//! nothing for that one.
#![tactic(auto)]

/// The zone of an open pool. The call ends with its number where the pool is closed.
macro_rules! open_zone {
    ($pool:expr) => {
        match $pool.zone() {
            Some(zone) => zone,
            None => return crate::calls::CLOSED,
        }
    };
}

mod batches;
mod bulk;
mod calls;
mod carrying;
mod claiming;
mod evacuating;
mod exports;
mod free_runs;
mod keeping;
mod lent_moves;
mod looking;
mod memory;
mod moving;
mod pool;
mod ranges;
mod records;
mod reserving;
mod rounds;
mod zone;
