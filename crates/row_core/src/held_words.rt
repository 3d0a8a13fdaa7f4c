//! Words in the hands of C: those of a row, or none.

ghost use Rattle.std.specs.Prelude.{◌≡◌, ◌<◌, length, Option, Some, None, IfSome};
ghost use Rattle.row_core.specs.Held.{held_at, held_code};
ghost use Rattle.row_core.specs.Seen.{Row as Seen};

use crate::right::Right;
use crate::row::Row;
use std::marker::Model;
use std::ptr::null_mut;

/// The words of a row, or none: where they begin and how many there are, as C keeps them. A null pointer and 0 where there are none.
#[repr(C)]
#[derive(Drop)]
pub struct HeldWords {
    at: *mut u64,
    len: usize,
    pub ghost row: { Option Seen } by { held_code },
}

impl Model for HeldWords {
    ghost also_owns = { λ w. held_at w.at w.len w.row };
}

// As a row, they may go to another thread.
unsafe impl Send for HeldWords {}

impl HeldWords {
    /// No words.
    pub fn none() -> HeldWords
        ensures { result.row ≡ None }
    {
        HeldWords {
            at: null_mut(),
            len: 0,
        }
    }

    /// The words of a row, which has some.
    pub fn of(row: Row) -> HeldWords
        requires { 0 < length row.words }
        ensures { result.row ≡ Some row }
    {
        let (right, at, len) = row.into_parts();
        let Right {} = right;
        HeldWords { at, len }
    }

    /// The row of the words, if there are some.
    pub fn into_row(self) -> Option<Row>
        ensures { (result ≡ self.row) × IfSome result (λ row. 0 < length row.words) }
    {
        let HeldWords { at, len } = self;
        if len == 0 {
            return None;
        }
        Some(Row::of(Right {}, at, len))
    }
}
