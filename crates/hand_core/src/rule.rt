// The rule of the two halves: whoever has a share knows the one list.

use atomic_table::{Join, Play, Split, TableRule};
use frame_core::Record;
use std::collections::LinkedList;

/// What a half knows: how many of the two shares it has, the list, and the list of the other half where it has both shares. This is
/// only for contracts: no value of it is made.
pub struct Part {
    pub shares: u64,
    pub records: LinkedList<Record>,
    pub others: LinkedList<Record>,
}

/// Each half that has a share has the same list.
pub struct OneList;

impl TableRule<Record, Part, ()> for OneList {
    ghost use Rattle.std.specs.Prelude.{[]};
    ghost use Rattle.hand_core.specs.Parts.{HaveOneList, whole_part};

    ghost holds = { λ about. HaveOneList };

    ghost first = { λ about. whole_part [] };
}

/// A half with both shares is cut in two, and two halves are put together.
pub struct Halves;

impl Split<Part> for Halves {
    ghost use Rattle.hand_core.specs.Parts.{half_part};

    ghost left = { λ v. half_part v.records };

    ghost right = { λ v. half_part v.records };
}

impl Join<Part> for Halves {
    ghost use Rattle.hand_core.specs.Parts.{both_parts, no_part};

    ghost both = { both_parts };

    ghost spent = { no_part };
}

/// A record is written at the end of the list.
pub struct Writes;

impl Play<Record, Part> for Writes {
    ghost use Rattle.hand_core.specs.Parts.{IsWritten};

    ghost then = { IsWritten };
}

/// The two lists are compared.
pub struct Compares;

impl Play<Record, Part> for Compares {
    ghost use Rattle.hand_core.specs.Parts.{AreSame};

    ghost then = { AreSame };
}
