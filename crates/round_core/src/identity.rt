ghost use Rattle.std.specs.Prelude.{ℕ};

use std::marker::Brand;

/// The number and the pageblocks of a zone that is shared. Only contracts know them, and whoever shares a zone chooses them.
pub trait ZoneIdentity {
    ghost number: { ℕ };

    ghost blocks: { ℕ };
}

// Any number and any pageblocks: a call that passes `Brand` chooses them.
impl ZoneIdentity for Brand {
    ghost number = { 0 };

    ghost blocks = { 0 };
}
