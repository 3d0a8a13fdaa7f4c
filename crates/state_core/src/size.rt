ghost use Rattle.std.specs.Prelude.{◌≡◌, ◌↔◌, ◌&&◌, nat_lt, nat_le, IsTrue};
ghost use Rattle.frame_core.specs.Address.{is_in_table};
ghost use Rattle.state_core.specs.Opening.{IsZoneSize, size_of_blocks};

use frame_core::Address;

/// How large a zone is: its pageblocks of 512 frames each, and the addresses by which clients name its pages.
#[derive(Clone, Copy, Debug, PartialEq, Eq)]
pub struct ZoneSize {
    /// How many pageblocks it has, 1 to 32,768.
    pub blocks: u32,
    /// How many address spaces it has, 1 to 256.
    pub spaces: u32,
    /// How many virtual pages each space has, 1 to 16,777,216. All spaces together have at most 67,108,864.
    pub vpages: u32,
}

const MOST_BLOCKS: u32 = 32_768;

const MOST_SPACES: u32 = 256;

const MOST_VPAGES: u32 = 16_777_216;

const MOST_ADDRESSES: u64 = 67_108_864;

impl ZoneSize {
    /// The size of a zone with this many pageblocks that has as many addresses as a script's zone: 8 spaces of 4,096 virtual pages.
    pub fn of_blocks(blocks: u32) -> Self
        ensures { result ≡ size_of_blocks blocks }
    {
        ZoneSize {
            blocks,
            spaces: 8,
            vpages: 4096,
        }
    }

    /// Whether a zone of this size has an address.
    #[inline(always)]
    pub fn has_address(self, address: &Address) -> bool
        ensures { result ≡ is_in_table self.spaces self.vpages address.now }
    {
        address.space.get() < self.spaces && address.vpage.get() < self.vpages
    }

    /// Whether each of its numbers is in range.
    pub fn is_valid(self) -> bool
        ensures { IsTrue result ↔ IsZoneSize self }
    {
        is_between_1_and(self.blocks, MOST_BLOCKS)
            && is_between_1_and(self.spaces, MOST_SPACES)
            && is_between_1_and(self.vpages, MOST_VPAGES)
            && u64::from(self.spaces) * u64::from(self.vpages) <= MOST_ADDRESSES
    }
}

/// Whether a count is 1 to `most`.
fn is_between_1_and(count: u32, most: u32) -> bool
    ensures { result ≡ (nat_lt 0 count && nat_le count most) }
{
    count >= 1 && count <= most
}
