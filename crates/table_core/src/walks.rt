//! Searches over all entries, for tests that compare what they find with the lists.

ghost use Rattle.std.specs.Prelude.{◌≡◌, ◌≢◌, ◌≤◌, List, length};
ghost use Rattle.frame_core.specs.Address.{InRange};
ghost use Rattle.frame_core.specs.declared.place.Address.{Address as Named};
ghost use Rattle.table_core.specs.Names.{IsIn, IsRising, AreJust};
ghost use Rattle.table_core.specs.Tables.{entry_at};

use crate::entries::Entries;
use crate::entry::Entry;
use crate::tables::Tables;
use arrayvec::ArrayVec;
use frame_core::{Address, FrameNo};

impl Tables {
    /// The addresses that name the page in a frame, found by a walk over all entries.
    pub fn walk_mappings(&self, frame: FrameNo) -> ArrayVec<Address, 4>
        ensures { AreJust result.items (λ a. entry_at self.now.entries a ≡ Entry.Present frame) }
    {
        walk(&self.entries, &Entry::Present(frame))
    }

    /// The addresses that name the moving page that left a frame, found by a walk over all entries.
    pub fn walk_moving(&self, source: FrameNo) -> ArrayVec<Address, 4>
        ensures { AreJust result.items (λ a. entry_at self.now.entries a ≡ Entry.Migration source) }
    {
        walk(&self.entries, &Entry::Migration(source))
    }
}

/// The addresses that have this entry, four at most. It has to name something.
fn walk(entries: &Entries, entry: &Entry) -> ArrayVec<Address, 4>
    requires named { entry.now ≢ Entry.Absent }
    requires few { (names : List Named) → IsRising names
        → ((a : Named) → IsIn names a → InRange a × (entry_at entries.now.entries a ≡ entry.now)) → length names ≤ 4 }
    ensures { AreJust result.items (λ a. entry_at entries.now.entries a ≡ entry.now) }
{
    let size = entries.size();
    let mut found = ArrayVec::new();
    for place in 0..size.addresses() {
        if entries.get(place) == *entry {
            if let Some(address) = size.address_at(place) {
                found.push(address);
            }
        }
    }
    found
}
