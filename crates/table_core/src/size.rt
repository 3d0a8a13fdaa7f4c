//! How many addresses a table has, and where each of them stands in it.

ghost use Rattle.std.specs.Prelude.{◌≡◌, ◌≢◌, ◌<◌, ◌*◌, IfSome, IfNone};
ghost use Rattle.frame_core.specs.Address.{InRange, InTable};
ghost use Rattle.frame_core.specs.declared.place.Address.{Address as Named};
ghost use Rattle.table_core.specs.Tables.{place_of};

use frame_core::{Address, SpaceNo, VPage};

/// How many address spaces a table has, and how many virtual pages each of them has.
#[derive(Clone, Copy, Debug, PartialEq, Eq)]
pub struct Size {
    pub spaces: u32,
    pub pages: u32,
}

impl Size {
    /// How many addresses there are.
    pub fn addresses(self) -> usize
        ensures { result ≡ self.spaces * self.pages }
    {
        self.spaces as usize * self.pages as usize
    }

    /// The place of an address among them: the spaces stand one after the other.
    #[inline]
    pub fn place_of(self, address: &Address) -> usize
        ensures place { result ≡ place_of self.pages address.now }
        ensures range { InRange address.now }
    {
        let (space, vpage) = (address.space.get(), address.vpage.get());
        space as usize * self.pages as usize + vpage as usize
    }

    /// The address at a place. None where its numbers are out of range.
    pub fn address_at(self, place: usize) -> Option<Address>
        requires { place < self.spaces * self.pages }
        ensures some { IfSome result (λ a. InRange a × InTable self.spaces self.pages a × (place_of self.pages a ≡ place)) }
        ensures none { IfNone result ((a : Named) → InRange a → InTable self.spaces self.pages a → place_of self.pages a ≢ place) }
    {
        let space = SpaceNo::in_any_zone((place / self.pages as usize) as u32)?;
        let vpage = VPage::in_any_zone((place % self.pages as usize) as u32)?;
        Some(Address { space, vpage })
    }
}
