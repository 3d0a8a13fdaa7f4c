ghost use Rattle.std.specs.Prelude.{◌≡◌, ◌≤◌};

mod answers;
mod calls;
mod claims;
mod contents;
mod counts;
mod draws;
mod emptying;
mod keeping;
mod lending;
mod lent_moves;
mod lists;
mod many_addresses;
mod many_pageblocks;
mod moving;
mod refusals;
mod sizes;
mod trial;
mod values;
mod walks;
mod world;
mod zone;

use calls::Name;
use frame_core::{Address, BlockNo, ClientNo, FrameNo, HandNo, Order, SpaceNo, VPage, WordOf};
use std::process::Abort;

fn client(rt: &impl Abort) -> ClientNo {
    ClientNo::new(2).expect(rt, "a client")
}

fn address(rt: &impl Abort, name: Name) -> Address {
    let (space, vpage) = name;
    let space = SpaceNo::in_any_zone(space).expect(rt, "a space");
    let vpage = VPage::in_any_zone(vpage).expect(rt, "a virtual page");
    Address { space, vpage }
}

fn word<const W: usize>(rt: &impl Abort, number: u32) -> WordOf<W>
    requires { W ≤ 65536 }
{
    WordOf::new(number).expect(rt, "a word")
}

fn frame(rt: &impl Abort, number: u32) -> FrameNo
    ensures { result ≡ number }
{
    FrameNo::in_any_zone(number).expect(rt, "a frame")
}

fn block(rt: &impl Abort, number: u32) -> BlockNo {
    BlockNo::in_any_zone(number).expect(rt, "a pageblock")
}

fn order(rt: &impl Abort, number: u32) -> Order {
    Order::new(number).expect(rt, "an order")
}

fn hand(rt: &impl Abort, number: u32) -> HandNo {
    HandNo::new(number).expect(rt, "a hand")
}
