#![tactic(auto)]

//! Frame memory in rows that have owners.
//!
//! A [`Ground`] is one allocation of words, asked for once, or the words of a row that somebody gave, which comes back when
//! the ground ends. Words that are *here* are read and written through it: a part of them is one slice. A part can also be
//! lent out as a [`Row`]. Then whoever has the row reads and writes its words, on any thread, and nobody else reaches them
//! until the ground takes the row back. A row can be cut in two, joined with the one after it, and parted in two halves: a
//! [`Half`] is one of two halves of the right to a row. While there are halves nobody writes the words, and whoever has one
//! reads them. Put together again they are the row, and both of them showed the same words. [`HeldWords`] are the words of
//! a row as C keeps them.
//!
//! A contract sees of a ground, of a row and of a half where its words lie (`at`) and what they are (`words`). Of a ground
//! it also sees which words are `here`, and whether they were `given`. Who has the right to which words is known to the
//! prover alone: `Right` has no bytes. So rows are lent, taken back, cut and joined without a copy, and nothing changes its
//! place.
//!
//! A row that is dropped is lost to its ground, which then keeps its memory for ever.

mod allocation;
mod ground;
mod half;
mod held_words;
mod right;
mod row;

pub use ground::Ground;
pub use half::Half;
pub use held_words::HeldWords;
pub use row::Row;
