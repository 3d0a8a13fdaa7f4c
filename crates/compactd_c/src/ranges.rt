//! What the numbers that C passes stand for, if each is in its range.

ghost use Rattle.std.specs.Prelude.{◌≡◌, ◌≤◌, ◌&&◌, nat_lt, is_some, IfSome};
ghost use Rattle.compactd_c.specs.Ranges.{address_of, is_address, is_block, is_client};

use frame_core::{Address, ClientNo, FrameNo, Order, SpaceNo, VPage, WordOf};
use zone_core::BareZone;

/// A client, and the address that it names.
pub(crate) fn of_client(client: u32, space: u32, vpage: u32) -> Option<(ClientNo, Address)>
    ensures some { is_some result ≡ (is_client client && is_address space vpage) }
    ensures value { IfSome result (λ of. (of.0 ≡ client) × (of.1 ≡ address_of space vpage)) }
{
    let client = ClientNo::new(client)?;
    let address = address(space, vpage)?;
    Some((client, address))
}

/// An address.
pub(crate) fn address(space: u32, vpage: u32) -> Option<Address>
    ensures some { is_some result ≡ is_address space vpage }
    ensures value { IfSome result (λ address. address ≡ address_of space vpage) }
{
    let space = SpaceNo::in_any_zone(space)?;
    let vpage = VPage::in_any_zone(vpage)?;
    Some(Address { space, vpage })
}

/// A block's first frame and its order.
pub(crate) fn block(first: u32, order: u32) -> Option<(FrameNo, Order)>
    ensures some { is_some result ≡ is_block first order }
    ensures value { IfSome result (λ block. (block.0 ≡ first) × (block.1 ≡ order)) }
{
    let first = FrameNo::in_any_zone(first)?;
    let order = Order::new(order)?;
    Some((first, order))
}

/// A word of the zone's pages.
pub(crate) fn word_of<const W: usize>(zone: &BareZone<W>, word: u32) -> Option<WordOf<W>>
    requires { W ≤ 65536 }
    ensures some { is_some result ≡ nat_lt word zone.now.page_size }
    ensures value { IfSome result (λ at. at ≡ word) }
{
    if word as usize >= zone.page_words() {
        return None;
    }
    WordOf::new(word)
}
