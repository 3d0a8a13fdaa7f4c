ghost use Rattle.std.specs.Prelude.{◌≡◌, ℕ, ◌+◌, ◌*◌, ◌/◌, ◌%◌, ◌<◌, ◌↔◌, IsSome, IfSome};
ghost use Rattle.std.proofs.Common.{rules};
ghost use Rattle.std.specs.Cmp.{partial_order_from_own_ties};
ghost use Rattle.std.specs.Cmp.Rules.{comparing};
ghost use Rattle.std.specs.Ordering.{as_partial_cmp, nat_cmp, on, then_cmp};

use std::cmp::Ordering;
use std::marker::Model;

const ZONES: u32 = 4;

/// A zone's number, 0 to 3.
#[derive(Clone, Copy, Debug, PartialEq, Eq, PartialOrd, Ord, Hash)]
pub struct ZoneNo {
    zone: u8,
}

impl Model for ZoneNo {
    ghost Value = { ℕ };

    ghost view = { λ n. n.zone };

    ghost invariant = { λ n. n.zone < 4 };

    ghost inverse = { λ n. record { zone = n } };
}

impl ZoneNo {
    /// The number as one of 0 to 3. None where it is out of this range.
    pub fn new(number: u32) -> Option<Self>
        ensures valid { IsSome result ↔ (number < 4) }
        ensures value { IfSome result (λ n. n ≡ number) }
    {
        if number < ZONES {
            Some(ZoneNo { zone: number as u8 })
        } else {
            None
        }
    }

    /// The number, 0 to 3.
    pub fn get(self) -> u32
        ensures value { result ≡ self }
        ensures range { result < 4 }
    {
        u32::from(self.zone)
    }
}

const FRAMES: u32 = 4096;

const MOST_FRAMES: u32 = 16777216;

/// A frame's number in its zone: 0 to 4095 in a zone of 8 pageblocks, which is the largest that a script opens, and 0 to 16,777,215 in any.
#[derive(Clone, Copy, Debug, PartialEq, Eq, PartialOrd, Ord, Hash)]
pub struct FrameNo {
    frame: u32,
}

impl Model for FrameNo {
    ghost Value = { ℕ };

    ghost view = { λ n. n.frame };

    ghost invariant = { λ n. n.frame < 16777216 };

    ghost inverse = { λ n. record { frame = n } };
}

impl FrameNo {
    /// The number as one of 0 to 4095. None where it is out of this range.
    pub fn new(number: u32) -> Option<Self>
        ensures valid { IsSome result ↔ (number < 4096) }
        ensures value { IfSome result (λ n. n ≡ number) }
    {
        if number < FRAMES {
            Some(FrameNo { frame: number })
        } else {
            None
        }
    }

    /// The number as one of 0 to 16,777,215. None where it is out of this range.
    pub fn in_any_zone(number: u32) -> Option<Self>
        ensures valid { IsSome result ↔ (number < 16777216) }
        ensures value { IfSome result (λ n. n ≡ number) }
    {
        if number < MOST_FRAMES {
            Some(FrameNo { frame: number })
        } else {
            None
        }
    }

    /// The number, 0 to 16,777,215.
    pub fn get(self) -> u32
        ensures value { result ≡ self }
        ensures range { result < 16777216 }
    {
        self.frame
    }
}

const BLOCKS: u32 = 8;

const MOST_BLOCKS: u32 = 32768;

/// A pageblock's number in its zone: 0 to 7 in a zone of 8 pageblocks, which is the largest that a script opens, and 0 to 32,767 in any. Block
/// b is the frames 512b to 512b + 511.
#[derive(Clone, Copy, Debug, PartialEq, Eq, PartialOrd, Ord, Hash)]
pub struct BlockNo {
    block: u16,
}

impl Model for BlockNo {
    ghost Value = { ℕ };

    ghost view = { λ n. n.block };

    ghost invariant = { λ n. n.block < 32768 };

    ghost inverse = { λ n. record { block = n } };
}

impl BlockNo {
    /// The number as one of 0 to 7. None where it is out of this range.
    pub fn new(number: u32) -> Option<Self>
        ensures valid { IsSome result ↔ (number < 8) }
        ensures value { IfSome result (λ n. n ≡ number) }
    {
        if number < BLOCKS {
            Some(BlockNo {
                block: number as u16,
            })
        } else {
            None
        }
    }

    /// The number as one of 0 to 32,767. None where it is out of this range.
    pub fn in_any_zone(number: u32) -> Option<Self>
        ensures valid { IsSome result ↔ (number < 32768) }
        ensures value { IfSome result (λ n. n ≡ number) }
    {
        if number < MOST_BLOCKS {
            Some(BlockNo {
                block: number as u16,
            })
        } else {
            None
        }
    }

    /// The number, 0 to 32,767.
    pub fn get(self) -> u32
        ensures value { result ≡ self }
        ensures range { result < 32768 }
    {
        u32::from(self.block)
    }
}

const SPACES: u32 = 8;

const MOST_SPACES: u32 = 256;

/// An address space's number in its zone: 0 to 7 in a zone that a script opens, and 0 to 255 in any.
#[derive(Clone, Copy, Debug, Default, PartialEq, Eq, PartialOrd, Ord, Hash)]
pub struct SpaceNo {
    space: u8,
}

impl Model for SpaceNo {
    ghost Value = { ℕ };

    ghost view = { λ n. n.space };

    ghost invariant = { λ n. n.space < 256 };

    ghost inverse = { λ n. record { space = n } };
}

impl SpaceNo {
    /// The number as one of 0 to 7. None where it is out of this range.
    pub fn new(number: u32) -> Option<Self>
        ensures valid { IsSome result ↔ (number < 8) }
        ensures value { IfSome result (λ n. n ≡ number) }
    {
        if number < SPACES {
            Some(SpaceNo {
                space: number as u8,
            })
        } else {
            None
        }
    }

    /// The number as one of 0 to 255. None where it is out of this range.
    pub fn in_any_zone(number: u32) -> Option<Self>
        ensures valid { IsSome result ↔ (number < 256) }
        ensures value { IfSome result (λ n. n ≡ number) }
    {
        if number < MOST_SPACES {
            Some(SpaceNo {
                space: number as u8,
            })
        } else {
            None
        }
    }

    /// The number, 0 to 255.
    pub fn get(self) -> u32
        ensures value { result ≡ self }
        ensures range { result < 256 }
    {
        u32::from(self.space)
    }
}

const VPAGES: u32 = 4096;

const MOST_VPAGES: u32 = 16777216;

/// A virtual page's number in its space: 0 to 4095 in a zone that a script opens, and 0 to 16,777,215 in any. It is kept in three bytes, so that
/// an address takes four. The lowest byte is the first, so that they are the low part of the number that an address is.
#[derive(Clone, Copy, Debug, Default, PartialEq, Eq, Hash)]
pub struct VPage {
    low: u8,
    middle: u8,
    high: u8,
}

impl Model for VPage {
    ghost Value = { ℕ };

    ghost view = { λ n. n.low + 256 * n.middle + 65536 * n.high };

    ghost invariant = { λ n. (n.low < 256) × (n.middle < 256) × (n.high < 256) };

    ghost inverse = { λ n. record { low = n % 256; middle = (n / 256) % 256; high = n / 65536 } };
}

/// Virtual pages are in the order of their numbers.
impl Ord for VPage {
    ghost cmp = { nat_cmp };

    ghost total = { Prim.search (comparing, rules) };

    ghost matches_partial_cmp = { Prim.search (comparing, rules) };

    ghost matches_eq = { Prim.search (comparing, rules) };

    fn cmp(&self, other: &VPage) -> Ordering {
        self.get().cmp(&other.get())
    }
}

impl PartialOrd for VPage {
    ghost partial_cmp = { as_partial_cmp nat_cmp };

    ghost laws = { partial_order_from_own_ties (Prim.search (comparing, rules)) (Prim.search (comparing, rules)) };

    fn partial_cmp(&self, other: &VPage) -> Option<Ordering> {
        Some(self.cmp(other))
    }
}

impl VPage {
    /// The number as one of 0 to 4095. None where it is out of this range.
    pub fn new(number: u32) -> Option<Self>
        ensures valid { IsSome result ↔ (number < 4096) }
        ensures value { IfSome result (λ n. n ≡ number) }
    {
        if number < VPAGES {
            VPage::in_any_zone(number)
        } else {
            None
        }
    }

    /// The number as one of 0 to 16,777,215. None where it is out of this range.
    pub fn in_any_zone(number: u32) -> Option<Self>
        ensures valid { IsSome result ↔ (number < 16777216) }
        ensures value { IfSome result (λ n. n ≡ number) }
    {
        if number < MOST_VPAGES {
            Some(VPage {
                low: (number % 256) as u8,
                middle: (number / 256 % 256) as u8,
                high: (number / 65536) as u8,
            })
        } else {
            None
        }
    }

    /// The number, 0 to 16,777,215.
    pub fn get(self) -> u32
        ensures value { result ≡ self }
        ensures range { result < 16777216 }
    {
        u32::from(self.low) + 256 * u32::from(self.middle) + 65536 * u32::from(self.high)
    }
}

/// A virtual page of a space. A client names a page by it. The page stands before the space, so that the four bytes of an address are
/// one number, which rises with the address.
#[derive(Clone, Copy, Debug, Default, PartialEq, Eq, Hash)]
pub struct Address {
    pub vpage: VPage,
    pub space: SpaceNo,
}

/// Addresses are in the order of their spaces, and those of a space in the order of its virtual pages.
impl Ord for Address {
    ghost cmp = { then_cmp (on (λ a. a.space) nat_cmp) (on (λ a. a.vpage) nat_cmp) };

    ghost total = { Prim.search (comparing, rules) };

    ghost matches_partial_cmp = { Prim.search (comparing, rules) };

    ghost matches_eq = { Prim.search (comparing, rules) };

    fn cmp(&self, other: &Address) -> Ordering {
        let spaces = self.space.cmp(&other.space);
        spaces.then(self.vpage.cmp(&other.vpage))
    }
}

impl PartialOrd for Address {
    ghost partial_cmp = { as_partial_cmp (then_cmp (on (λ a. a.space) nat_cmp) (on (λ a. a.vpage) nat_cmp)) };

    ghost laws = { partial_order_from_own_ties (Prim.search (comparing, rules)) (Prim.search (comparing, rules)) };

    fn partial_cmp(&self, other: &Address) -> Option<Ordering> {
        Some(self.cmp(other))
    }
}

/// The pageblock that a frame stands in.
pub fn block_of(frame: FrameNo) -> BlockNo
    ensures { result ≡ frame / 512 }
{
    BlockNo {
        block: (frame.get() / 512) as u16,
    }
}

/// The first frame of a pageblock.
pub fn first_frame(block: BlockNo) -> FrameNo
    ensures { result ≡ 512 * block }
{
    FrameNo {
        frame: block.get() * 512,
    }
}
