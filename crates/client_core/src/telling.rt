ghost use Rattle.std.specs.Prelude.{List, [], Option, None};
ghost use Rattle.frame_core.specs.declared.record.Record.{Record};
ghost use Rattle.hand_core.specs.Told.{Pair};

use std::marker::Brand;

/// Which slip a client has, if it has one, and the receipts that it had before. Only contracts know it.
pub trait Telling {
    ghost pair: { Option Pair };

    ghost before: { List Record };
}

/// The client has no slip.
pub struct NoSlip;

impl Telling for NoSlip {
    ghost pair = { None };

    ghost before = { [] };
}

// Any slip: a call that passes `Brand` picks it.
impl Telling for Brand {
    ghost pair = { None };

    ghost before = { [] };
}
