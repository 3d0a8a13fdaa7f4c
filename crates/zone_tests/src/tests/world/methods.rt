//! Calls of clients that are made by the methods of a world.

ghost use Rattle.std.specs.Prelude.{◌≡◌};
ghost use Rattle.std.specs.Int.RustNames.{bit_and};

use super::super::answers::{Answer, Shown};
use super::OpenWorld;
use bitflags::Flags;
use frame_core::{ClientNo, PageFlags};
use zone_core::{Opening, ZoneCallOf};

impl<const W: usize, Z: Opening> OpenWorld<W, Z> {
    /// Makes a call by the method of its name.
    pub fn by_method(&mut self, client: ClientNo, call: ZoneCallOf<W>) -> Answer {
        let world = &mut self.world;
        match call {
            ZoneCallOf::Map { address, unmovable } => {
                world.map(client, address, flags(unmovable)).shown()
            }
            ZoneCallOf::MapAt {
                address,
                unmovable,
                frame,
            } => {
                let flags = flags(unmovable);
                world.map_at(client, address, flags, frame).shown()
            }
            ZoneCallOf::Load { address, word } => world.load(client, address, word).shown(),
            ZoneCallOf::Store {
                address,
                word,
                value,
            } => { world.store(client, address, word, value).shown() }
            ZoneCallOf::Share { address, alias } => world.share(client, address, alias).shown(),
            ZoneCallOf::Unmap { address } => world.unmap(client, address).shown(),
            ZoneCallOf::Pin { address } => world.pin(client, address).shown(),
            ZoneCallOf::Unpin { address } => world.unpin(client, address).shown(),
            ZoneCallOf::TakeOrder { order } => world.take_order(order).shown(),
            ZoneCallOf::GiveOrder { first, order } => world.give_order(first, order).shown(),
            ZoneCallOf::Mark { block } => world.mark(block).shown(),
            ZoneCallOf::Unmark { block } => world.unmark(block).shown(),
        }
    }
}

/// The flags of a page that is mapped.
fn flags(unmovable: bool) -> PageFlags
    ensures { bit_and result.0 2 ≡ 0 }
{
    if unmovable {
        PageFlags::UNMOVABLE
    } else {
        PageFlags::empty()
    }
}
