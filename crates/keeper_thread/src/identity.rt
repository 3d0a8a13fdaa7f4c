ghost use Rattle.std.specs.Prelude.{ℕ};

use std::marker::Brand;

/// The keeper of a pool that is shared. Only contracts know it, and whoever shares a pool chooses it.
pub trait KeeperIdentity {
    /// The order of its blocks.
    ghost order: { ℕ };

    /// How many it keeps ready.
    ghost ready: { ℕ };

    /// How many pages a step of it moves at most.
    ghost most: { ℕ };
}

// Any keeper: a call that passes `Brand` chooses it.
impl KeeperIdentity for Brand {
    ghost order = { 0 };

    ghost ready = { 0 };

    ghost most = { 0 };
}
