ghost use Rattle.std.specs.Prelude.{ℕ, [], Option, None};
ghost use denote.RawPtr.{Ptr};
ghost use Rattle.state_core.specs.Opening.{opened_unrecorded};
ghost use Rattle.state_core.specs.ZoneState.{ZoneState};
ghost use Rattle.worker_threads.specs.Runs.{Runs};

use std::marker::Brand;

/// A zone that workers compact, and the memory that it lies in. Only contracts know it, and whoever shares a zone chooses it.
pub trait MemoryIdentity {
    /// The number of the zone.
    ghost number: { ℕ };

    /// How many pageblocks it has.
    ghost blocks: { ℕ };

    /// Where the words of its frame 0 begin.
    ghost memory: { Option Ptr };
}

// Any zone: a call that passes `Brand` chooses it.
impl MemoryIdentity for Brand {
    ghost number = { 0 };

    ghost blocks = { 0 };

    ghost memory = { None };
}

/// What a zone is when work on it begins that nobody else has. Only contracts know it, and whoever asks for the work chooses it.
pub trait StartIdentity {
    ghost start: { ZoneState };
}

// Any zone: a call that passes `Brand` chooses it.
impl StartIdentity for Brand {
    ghost start = { opened_unrecorded 1 0 1 };
}

/// The same, with the runs that are to be emptied.
pub trait RunsIdentity: StartIdentity {
    ghost runs: { Runs };
}

// Any runs: a call that passes `Brand` chooses them.
impl RunsIdentity for Brand {
    ghost runs = { record { order = 3; left = [] } };
}
