//! What a box held, behind its pointer.

ghost use Rattle.std.specs.Prelude.{◌≡◌};
ghost use Rattle.std.specs.Box.Ownership.{box_owns};
ghost use Rattle.compactd_c.specs.Owned.{heap_token};

use std::marker::Model;

/// A value of the heap that its box let go, with the right to free its block.
pub struct Unboxed<T> {
    pub(super) at: *mut T,
    pub ghost value: { T },
}

impl<T> Model for Unboxed<T> {
    ghost also_owns = { λ u. box_owns heap_token T.row u.at u.value };
}

impl<T: Drop> Unboxed<T> {
    pub fn of(value: Box<T>) -> Unboxed<T>
        ensures { result.value ≡ value.value }
    {
        Unboxed {
            at: Box::into_raw(value),
        }
    }
}
