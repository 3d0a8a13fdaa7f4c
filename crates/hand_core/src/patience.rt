//! Sends and receives that try for a while before they sleep: here a sleep and a wake-up cost more than moving dozens of pages.

ghost use Rattle.std.specs.Prelude.{◌≡◌, MatchResult};
ghost use Rattle.crossbeam_channel.specs.Claims.{view, IsSeatAt};
ghost use Rattle.crossbeam_channel.specs.Ends.{sends_on, receives_on, ruled_capacity};
ghost use Rattle.crossbeam_channel.specs.Fifo.{Pushes, Pops, Learns};

use crossbeam_channel::protocol::{Lesson, Outcome, Protocol};
use crossbeam_channel::{Pass, RecvError, RuledReceiver, RuledSender, TryRecvError, TrySendError};
use std::alloc::Global;
use std::sync::Wait;
use std::{hint, thread};

/// How often a call tries before it sleeps.
pub const TRIES: u32 = 1000;

// How often a call tries before it lets other threads run between its tries.
const SPINS: u32 = 50;

/// Puts the message at the back of the queue, and waits for room. Where the other side is gone, the message is handed back.
pub(crate) fn send<M: Outcome<T, V> + Lesson<T, V>, T: Drop, V, P: Protocol<T, V>, R: Wait>(
    rt: &R,
    to: &RuledSender<T, V, P, Global>,
    pass: &mut Pass<T, V>,
    mut message: T,
) -> Result<(), T>
    requires channel { IsSeatAt (sends_on to.now) pass.old }
    requires rule { Pushes P.holds (ruled_capacity (sends_on to.now)) pass.old.id (view pass.old) message (M.then (view pass.old) message) × Learns P.holds pass.old.id (view pass.old) (M.fact (view pass.old)) }
    ensures channel { IsSeatAt (sends_on to.now) pass.new × (pass.new.id ≡ pass.old.id) }
    ensures rule { MatchResult result (λ _. M.then (view pass.old) message (view pass.new)) (λ back. (back ≡ message) × (view pass.new ≡ view pass.old)) }
{
    for tries in 0..TRIES {
        match to.try_send_as::<M, R>(rt, pass, message) {
            Ok(()) => return Ok(()),
            Err(TrySendError::Full(back)) => message = back,
            Err(refused) => return Err(refused.into_inner()),
        }
        pause(tries);
    }
    match to.send_as::<M, R>(rt, pass, message) {
        Ok(()) => Ok(()),
        Err(refused) => Err(refused.into_inner()),
    }
}

/// Takes the message at the front of the queue, and waits for one. The error is that the other side is gone and nothing is left.
pub(crate) fn receive<M: Outcome<T, V> + Lesson<T, V>, T: Drop, V, P: Protocol<T, V>, R: Wait>(
    rt: &R,
    from: &RuledReceiver<T, V, P, Global>,
    pass: &mut Pass<T, V>,
) -> Result<T, RecvError>
    requires channel { IsSeatAt (receives_on from.now) pass.old }
    requires rule { Pops P.holds pass.old.id (view pass.old) (M.then (view pass.old)) × Learns P.holds pass.old.id (view pass.old) (M.fact (view pass.old)) }
    ensures channel { IsSeatAt (receives_on from.now) pass.new × (pass.new.id ≡ pass.old.id) }
    ensures rule { MatchResult result (λ message. M.then (view pass.old) message (view pass.new)) (λ _. view pass.new ≡ view pass.old) }
{
    for tries in 0..TRIES {
        match from.try_recv_as::<M, R>(rt, pass) {
            Ok(message) => return Ok(message),
            Err(TryRecvError::Disconnected) => return Err(RecvError),
            Err(TryRecvError::Empty) => pause(tries),
        }
    }
    from.recv_as::<M, R>(rt, pass)
}

/// Waits a moment after a try, given how many tries were made before: it spins at first, and later lets other threads run.
pub fn pause(tries: u32) {
    if tries < SPINS {
        hint::spin_loop();
    } else {
        thread::yield_now();
    }
}
