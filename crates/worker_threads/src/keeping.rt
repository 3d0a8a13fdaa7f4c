ghost use Rattle.std.specs.Prelude.{◌≡◌, ℕ, ◌+◌, ◌<◌, None, Some, [], ⊤};
ghost use Rattle.std.specs.FinMap as map;
ghost use Rattle.frame_core.specs.Moves.{isolated, out};
ghost use Rattle.state_core.specs.Calls.{after, refusal_of};
ghost use Rattle.fewest_core.specs.FewestMoves.{Move};
ghost use Rattle.state_core.specs.Isolating.{isolate_refusal};
ghost use Rattle.state_core.specs.Valid.{IsValidZone};
ghost use Rattle.state_core.specs.ZoneState.{ZoneState};
ghost use Rattle.state_core.specs.declared.call.ZoneCall.{ZoneCall};
ghost use Rattle.state_core.specs.declared.placement.Placement.TheVariants.{Moving};
ghost use Rattle.worker_threads.specs.Rooms.{one_begun};
ghost use Rattle.worker_threads.specs.Work.{next_move, none_found, page_ended, page_sent, work_begun, work_left, work_refusal};
ghost use Rattle.state_core.specs.declared.error.ZoneError.{ZoneError};
ghost use Rattle.worker_threads.specs.declared.round.Stop.{Stop as Stopped};
ghost use Rattle.worker_threads.specs.declared.round.Stop.TheVariants.{JournalFull};
ghost use Rattle.worker_threads.specs.declared.work.Work.{Work as Task};

use crate::identity::MemoryIdentity;
use std::marker::PhantomData;

/// What the lock of a zone keeps, beside what it keeps of every zone: a fact about the zone, after work was begun so often, that each step of
/// the work leaves true, and each call of a client that may make calls. Contracts alone know it, and whoever shares a zone picks it. `Open`
/// keeps nothing, as the members' defaults say: each client may make calls, and any work may be done. `compact_alone` and `empty_alone` keep
/// what their work comes to, and no client may make calls.
pub trait Keeping: MemoryIdentity {
    /// What is so after work was begun so often, of which this is left.
    ghost keeps: { Task → ℕ → ZoneState → Type 0 } = { λ work rounds z. ⊤ };

    /// Where so many pages were isolated the latest work stops, and why.
    ghost stops_at: { Task → ℕ → ℕ → Stopped → Type 0 } = { λ work rounds n stop. ⊤ };

    /// The client with this number may make calls.
    ghost allows: { ℕ → Type 0 } = { λ client. ⊤ };

    /// This work may be begun.
    ghost works: { Task → Type 0 } = { λ work. ⊤ };

    // Work begins where no page is out.
    ghost begins: { (work next : Task) (rounds : ℕ) (z : ZoneState) → works next → IsValidZone z → out z.records ≡ [] → keeps work rounds z → keeps next (one_begun rounds) (work_begun next z) };

    // A page is isolated and its words are lent, or there is none; one worker may find a page after another one found none.
    ghost takes: { (work : Task) (rounds : ℕ) (z : ZoneState) (m : Move) → 0 < rounds → IsValidZone z → isolate_refusal z ≡ None → next_move work z ≡ Some m → keeps work rounds z → keeps (work_left work z) rounds (page_sent work z m) };

    ghost finds_none: { (work : Task) (rounds : ℕ) (z : ZoneState) → 0 < rounds → IsValidZone z → work_refusal work z ≡ None → next_move work z ≡ None → keeps work rounds z → keeps (work_left work z) rounds z };

    // Then the work stops, or since the journal is full.
    ghost stops: { (work : Task) (rounds : ℕ) (z : ZoneState) → IsValidZone z → work_refusal work z ≡ None → next_move work z ≡ None → keeps work rounds z → stops_at (work_left work z) rounds (isolated z.records) (none_found work) };

    ghost fills: { (work : Task) (rounds : ℕ) (z : ZoneState) (error : ZoneError) → IsValidZone z → work_refusal work z ≡ Some error → keeps work rounds z → stops_at work rounds (isolated z.records) JournalFull };

    ghost goes_on: { (work : Task) (rounds : ℕ) (z : ZoneState) (m : Move) (stop : Stopped) → 0 < rounds → IsValidZone z → isolate_refusal z ≡ None → next_move work z ≡ Some m → keeps work rounds z → stops_at work rounds (isolated z.records) stop → stops_at (work_left work z) rounds (isolated z.records + 1) stop };

    // The move of a page ends when its words come back.
    ghost commits: { (work : Task) (rounds : ℕ) (z : ZoneState) (page serial source target : ℕ) → IsValidZone z → map.get z.placement page ≡ Some (Moving serial source target) → keeps work rounds z → keeps work rounds (page_ended work z serial page source) };

    // A client makes a call that isn't refused. Where the work has stopped, it has still stopped.
    ghost calls: { (W : ℕ) (work : Task) (rounds : ℕ) (z : ZoneState) (client : ℕ) (call : ZoneCall W) → allows client → IsValidZone z → refusal_of call z ≡ None → keeps work rounds z → keeps work rounds (after call client z) };
}

/// Of a zone that anyone may use its lock keeps nothing more: each client may make calls, and any work may be done.
pub struct Open<K> {
    of: PhantomData<K>,
}

impl<K: MemoryIdentity> MemoryIdentity for Open<K> {
    ghost number = { K.number };

    ghost blocks = { K.blocks };

    ghost memory = { K.memory };
}

impl<K: MemoryIdentity> Keeping for Open<K> {
    ghost begins = { λ work next rounds z may law none keeps. tt };

    ghost takes = { λ work rounds z m begun law accepted found keeps. tt };

    ghost finds_none = { λ work rounds z begun law accepted none keeps. tt };

    ghost stops = { λ work rounds z law accepted none keeps. tt };

    ghost fills = { λ work rounds z error law refused keeps. tt };

    ghost goes_on = { λ work rounds z m stop begun law accepted found keeps stopped. tt };

    ghost commits = { λ work rounds z page serial source target law at keeps. tt };

    ghost calls = { λ W work rounds z client call may law accepted keeps. tt };
}
