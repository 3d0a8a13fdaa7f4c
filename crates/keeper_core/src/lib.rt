//! Huge blocks that are kept ready.
//!
//! To get a block, pages have to be moved, and that takes longer the more there are. A [`Keeper`] moves them beforehand: it claims the
//! cheapest runs of a zone, empties them some pages at a time while other calls go on, and has them ready for whoever takes one. What a
//! step does is what `BareZone::claim` or `BareZone::empty_some` does, and no step's work is undone, since no page comes to a claimed
//! frame. It is like the kernel's kcompactd, which compacts in the background so that huge pages are there when they are asked for; how
//! many are kept, and of which order, is this project's own profile.
#![tactic(auto)]

mod keeper;

pub use keeper::{Keeper, Step, Taken};
