//! What the crates of a page pool share: numbers in their ranges, orders, addresses, page flags and frame states; the words of
//! frames, and isolated pages; the journal of a zone; and lists that can't ask for memory.
//!
//! Contracts see each number as itself, and a set of flags as its bits. They see a page as a record of its zone, its number, its
//! flags and its words, an isolated page as such a page under its serial, and the words of all frames as a record: where they lie,
//! a row of words for each frame, which frames are lent, and whether their memory was given. The words of frames are lent as a row
//! of `row_core`, which goes to other threads. Memory is given as such a row too, and comes back when the words end. While they are out nobody reads or writes them here, and the record keeps the row that they had.
//!
//! A journal has a record of each load and store, and of each other accepted call that changes a page, an address, a mark or which
//! blocks are handed out. It is kept, in memory that is taken once, or it is unrecorded: then its records exist in the
//! proofs alone, and it never fills. Contracts see a journal as its records, the newest first, and the number of places that are left.
//! What the records say is defined in `specs/`: in `Access` the records of a call that reads or writes several words; in `History` the
//! page that an address names, the last value of a word, and pins; in `Moves` the isolated pages; in `Ends` that each page that was
//! isolated ends once; in `Truth` that loads gave what was stored; in `Blocks` the blocks that are handed out and those that are
//! marked.
//!
//! A page has `W` words. A type whose name ends in `Of` takes this number, here and in the crates above. The name without
//! it is the type for pages of eight words.
#![tactic(auto)]

mod access;
mod copied;
mod fixed_vec;
mod flags;
mod frame_set;
mod ghost_list;
mod hand;
mod isolated;
mod journal;
mod law;
mod numbers;
mod order;
mod page;
mod place;
mod record;
mod seen;
mod state;
mod tagged;
mod words;

pub use access::{Access, AccessKind};
pub use copied::Copied as CopiedOf;
pub use fixed_vec::FixedVec;
pub use flags::PageFlags;
pub use ghost_list::GhostList;
pub use hand::HandNo;
pub use isolated::Isolated as IsolatedOf;
pub use journal::Journal;
pub use law::ends_each_page_once;
pub use numbers::{ClientNo, PageNo, WordNo as WordOf};
pub use order::Order;
pub use page::Page as PageOf;
pub use place::{Address, BlockNo, FrameNo, SpaceNo, VPage, ZoneNo, block_of, first_frame};
pub use record::{Cause, Record};
pub use state::{FrameState, Serial};
pub use tagged::Tagged;
pub use words::Words as WordsOf;

/// A word's number in a page of eight words, 0 to 7.
pub type WordNo = WordOf<8>;

/// A page of eight words.
pub type Page = PageOf<8>;

/// An isolated page of eight words.
pub type Isolated = IsolatedOf<8>;

/// An isolated page of eight words that was copied.
pub type Copied = CopiedOf<8>;

/// The words of frames of eight each.
pub type Words = WordsOf<8>;
