//! Numbers in their ranges.

ghost use Rattle.std.specs.Prelude.{◌≤◌};

use anyhow::{Context, Result};
use zone_core::{Address, ClientNo, FrameNo, SpaceNo, VPage, WordOf, ZoneNo};

pub fn zone_number(number: u32) -> Result<ZoneNo> {
    ZoneNo::new(number).context("no zone has this number")
}

pub fn client(number: u32) -> Result<ClientNo> {
    ClientNo::new(number).context("no client has this number")
}

/// The address of a virtual page in an address space.
pub fn address(space: u32, vpage: u32) -> Result<Address> {
    Ok(Address {
        space: SpaceNo::new(space).context("no space has this number")?,
        vpage: VPage::new(vpage).context("no virtual page has this number")?,
    })
}

pub fn frame(number: u32) -> Result<FrameNo> {
    FrameNo::new(number).context("no frame has this number")
}

/// A word of a page that has `W` words.
pub fn word<const W: usize>(number: u32) -> Result<WordOf<W>>
    requires size { W ≤ 65536 }
{
    WordOf::new(number).context("no word of a page has this number")
}
