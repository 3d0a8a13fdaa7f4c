ghost use Rattle.std.specs.Prelude.{◌≡◌, ◌+◌, ◌<◌, ◌≤◌, [], length, replicate, IfOk};
ghost use Rattle.table_core.specs.Names.{IsIn, IsRising, order_of, rank, inserted, without};

use frame_core::{Address, FixedVec};
use std::alloc::{AllocError, Global};
use std::marker::Model;

/// The most virtual pages that a space of a table has.
const MOST_PAGES: usize = 16_777_216;

/// The addresses that are listed under a frame: the first `count` of four, in rising order. They take 17 bytes.
#[derive(Drop)]
pub struct Names {
    addresses: [Address; 4],
    count: u8,
}

impl Model for Names {
    ghost use Rattle.std.specs.Prelude.{◌≡◌, ◌≤◌, List, length, take};
    ghost use Rattle.frame_core.specs.declared.place.Address.{Address as Named};

    ghost Value = { List Named };

    ghost view = { λ n. take n.count n.addresses };

    ghost invariant = { λ n. (n.count ≤ 4) × (length n.addresses ≡ 4) };
}

impl Names {
    /// A list with no address.
    pub fn none() -> Self
        ensures { result ≡ [] }
    {
        Names {
            addresses: [Address::default(); 4],
            count: 0,
        }
    }

    /// Its addresses, 4 at most, in rising order.
    pub fn as_slice(&self) -> &[Address]
        ensures value { result.now ≡ self.now }
        ensures few { length self.now ≤ 4 }
    {
        &self.addresses[..self.count as usize]
    }

    /// Puts an address at its place in the list. The list has to have fewer than 4.
    pub fn insert(&mut self, address: Address)
        requires { length self.old < 4 }
        ensures { self.new ≡ inserted self.old address }
    {
        let count = self.count as usize;
        let place = rank(&self.addresses[..count], &address);
        self.addresses.copy_within(place..count, place + 1);
        self.addresses[place] = address;
        self.count += 1;
    }

    /// Takes an address out of the list. It has to be there.
    #[tactic(auto, using(crate::proofs::Rising::rank_within))]
    pub fn remove(&mut self, address: &Address)
        requires rising { IsRising self.old }
        requires named { IsIn self.old address.now }
        ensures { self.new ≡ without self.old address.now }
    {
        let count = self.count as usize;
        let place = rank(&self.addresses[..count], address);
        self.addresses.copy_within(place + 1..count, place);
        self.count -= 1;
    }
}

/// This many lists with no address, with room for no other, or an error where there is no memory for them.
pub fn none_named(alloc: Global, count: usize) -> Result<FixedVec<Names>, AllocError>
    ensures items { IfOk result (λ lists. lists.items ≡ replicate count []) }
    ensures room { IfOk result (λ lists. lists.room ≡ 0) }
{
    let mut lists = FixedVec::with_room(alloc, count)?;
    for _ in 0..count {
        lists.push(Names::none());
    }
    Ok(lists)
}

/// How many addresses of a list come before this one.
fn rank(addresses: &[Address], address: &Address) -> usize
    ensures value { result ≡ rank addresses.now address.now }
    ensures within { result ≤ length addresses.now }
{
    for i in 0..addresses.len() {
        if order_of(address) <= order_of(&addresses[i]) {
            return i;
        }
    }
    addresses.len()
}

/// Where an address stands in rising order: by space, then by virtual page.
fn order_of(address: &Address) -> usize
    ensures { result ≡ order_of address.now }
{
    MOST_PAGES * address.space.get() as usize + address.vpage.get() as usize
}
