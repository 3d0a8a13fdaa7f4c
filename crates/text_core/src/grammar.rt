//! The rows of the language, as `specs/Grammar.antt` has them. Whether an argument is in its range is tested here, by the
//! type of the argument.

ghost use Rattle.std.specs.Prelude.{◌≡◌, IfSome, IsTrue, option_map};
ghost use Rattle.state_core.specs.Calls.{is_of_client};
ghost use Rattle.text_core.specs.Token.{tokens};
ghost use Rattle.state_core.specs.declared.call.ZoneCall.TheVariants as zone_call;
ghost use Rattle.text_core.specs.Grammar.{client_row, address_of, blocks_of, command_of, compacting, frame_of, give_order_call, order_of, row_in, row_of_profile_2, hand_of, load_call, map_at_call, map_call, call_on, zone_call_on, opening, page_count_of, pageblock_of, pooling, row_of, series_of, series_on, share_call, space_of, store_call, word_of, zone_of, block_line_of, during_row};

use crate::arguments::{
    four_numbers, one_number, three_numbers, three_numbers_and_flag, two_numbers,
    two_numbers_and_flag,
};
use crate::block_count::BlockCount;
use crate::command::{BlockLine, Call, Calls, Command, Repeated, Series};
use crate::page_count::PageCount;
use crate::pool::PoolBlocks;
use crate::profile::Profile;
use crate::token::{Token, first_number, is_end, leading_token};
use frame_core::{Address, BlockNo, FrameNo, HandNo, Order, SpaceNo, VPage, WordNo, ZoneNo};
use state_core::{ClientCall, ZoneCall};

/// The command that a text is, or begins, if it is one.
pub(crate) fn command(profile: Profile, text: &[u8]) -> Option<Command>
    ensures { result ≡ command_of profile (tokens text.now) }
{
    let (keyword, after) = leading_token(text)?;
    let (number, arguments) = first_number(after)?;
    match keyword {
        Token::During => during(number, arguments),
        _ => row_in(profile, keyword, number, arguments),
    }
}

/// `during Z`, where Z may be any number.
fn during(zone: u64, arguments: &[u8]) -> Option<Command>
    ensures { result ≡ during_row Token.During zone (tokens arguments.now) }
{
    if is_end(arguments) {
        Some(Command::During { zone })
    } else {
        None
    }
}

/// What a text says in a block for the zone with this number, if it says something there.
pub(crate) fn block_line(zone: u64, text: &[u8]) -> Option<BlockLine>
    ensures { result ≡ block_line_of zone (tokens text.now) }
{
    let (keyword, after) = leading_token(text)?;
    if matches!(keyword, Token::End) && is_end(after) {
        return Some(BlockLine::End);
    }
    let (number, arguments) = first_number(after)?;
    if number == zone {
        Some(BlockLine::Client(of_client(client_row(keyword, arguments)?)))
    } else {
        None
    }
}

/// The call of a row of a client, as a client's.
fn of_client(call: Option<ZoneCall>) -> Option<ClientCall>
    requires { IfSome call (λ c. IsTrue (is_of_client c)) }
    ensures { result ≡ call }
{
    ClientCall::new(call?)
}

/// The command that a keyword, the number of a zone and the arguments after it make, if the profile has such a row.
fn row_in(profile: Profile, keyword: Token, number: u64, arguments: &[u8]) -> Option<Command>
    ensures { result ≡ row_in profile keyword (zone_of number) (tokens arguments.now) }
{
    if matches!(profile, Profile::Two)
        && let Some(command) = row_of_profile_2(keyword, zone(number), arguments)
    {
        return Some(command);
    }
    row(keyword, zone(number), arguments)
}

/// The command by the rows that only profile 2 has. Here as below, each row with two arguments or more has a function of its own.
fn row_of_profile_2(keyword: Token, zone: Option<ZoneNo>, arguments: &[u8]) -> Option<Command>
    ensures { result ≡ row_of_profile_2 keyword zone (tokens arguments.now) }
{
    use Token::{Give, Huge, Info, Mark, Pool, Unmark};
    match keyword {
        Info if is_end(arguments) => Some(on(zone, Some(Call::InfoWithHeld))),
        Huge => Some(zone_on(zone, take_order(order(one_number(arguments)?)))),
        Give => give_order_row(zone, arguments),
        Mark => Some(zone_on(zone, mark(pageblock(one_number(arguments)?)))),
        Unmark => Some(zone_on(zone, unmark(pageblock(one_number(arguments)?)))),
        Pool => order_pool_row(zone, arguments),
        _ => None,
    }
}

/// `give Z F K`.
fn give_order_row(zone: Option<ZoneNo>, arguments: &[u8]) -> Option<Command>
    ensures { result ≡ row_of_profile_2 Token.Give zone (tokens arguments.now) }
{
    let (f, k) = two_numbers(arguments)?;
    Some(zone_on(zone, give_order(frame(f), order(k))))
}

/// `pool Z N K`.
fn order_pool_row(zone: Option<ZoneNo>, arguments: &[u8]) -> Option<Command>
    ensures { result ≡ row_of_profile_2 Token.Pool zone (tokens arguments.now) }
{
    let (n, k) = two_numbers(arguments)?;
    Some(pool(zone, blocks(n), order(k).map(PoolBlocks::OfOrder)))
}

/// The command by the rows that both profiles have.
fn row(keyword: Token, zone: Option<ZoneNo>, arguments: &[u8]) -> Option<Command>
    ensures { result ≡ row_of keyword zone (tokens arguments.now) }
{
    use Token::{
        Compact, Copy, Fill, Finish, Give, Huge, Info, Load, Look, Map, MapAt, Pin, Pool, Scan,
        Share, Shut, Store, Take, Thin, Unmap, Unpin, Zone,
    };
    match keyword {
        Zone => Some(open(zone, blocks(one_number(arguments)?))),
        Info if is_end(arguments) => Some(on(zone, Some(Call::Info))),
        Scan if is_end(arguments) => Some(on(zone, Some(Call::Scan))),
        Take => Some(on(zone, hand(one_number(arguments)?).map(Call::Take))),
        Copy => Some(on(zone, hand(one_number(arguments)?).map(Call::Copy))),
        Finish => Some(on(zone, hand(one_number(arguments)?).map(Call::Finish))),
        Shut if is_end(arguments) => Some(on(zone, Some(Call::Shut))),
        Look => look_row(zone, arguments),
        Huge if is_end(arguments) => Some(on(zone, Some(Call::Huge))),
        Give => Some(on(zone, pageblock(one_number(arguments)?).map(Call::Give))),
        Fill => fill_row(zone, arguments),
        Thin => thin_row(zone, arguments),
        Compact if is_end(arguments) => Some(compact(zone)),
        Pool => Some(pool(
            zone,
            blocks(one_number(arguments)?),
            Some(PoolBlocks::Pageblocks),
        )),
        Map => on_row(zone, client_row(Map, arguments)),
        MapAt => on_row(zone, client_row(MapAt, arguments)),
        Store => on_row(zone, client_row(Store, arguments)),
        Load => on_row(zone, client_row(Load, arguments)),
        Share => on_row(zone, client_row(Share, arguments)),
        Unmap => on_row(zone, client_row(Unmap, arguments)),
        Pin => on_row(zone, client_row(Pin, arguments)),
        Unpin => on_row(zone, client_row(Unpin, arguments)),
        _ => None,
    }
}

/// The command that the call of a client's row makes on a zone, if there is such a row.
#[inline(always)]
fn on_row(zone: Option<ZoneNo>, row: Option<Option<ZoneCall>>) -> Option<Command>
    ensures { result ≡ option_map (λ c. zone_call_on zone c) row }
{
    Some(zone_on(zone, row?))
}

/// The call that a client's keyword and the arguments after its zone make, if there is such a row; it has no call where
/// an argument is out of its range.
#[inline(always)]
fn client_row(keyword: Token, arguments: &[u8]) -> Option<Option<ZoneCall>>
    ensures { result ≡ client_row keyword (tokens arguments.now) }
{
    use Token::{Load, Map, MapAt, Pin, Share, Store, Unmap, Unpin};
    match keyword {
        Map => {
            let (s, v, unmovable) = two_numbers_and_flag(arguments)?;
            Some(map(address(s, v), unmovable))
        }
        MapAt => {
            let (s, v, f, unmovable) = three_numbers_and_flag(arguments)?;
            Some(map_at(address(s, v), frame(f), unmovable))
        }
        Store => {
            let (s, v, w, x) = four_numbers(arguments)?;
            Some(store(address(s, v), word(w), x))
        }
        Load => {
            let (s, v, w) = three_numbers(arguments)?;
            Some(load(address(s, v), word(w)))
        }
        Share => {
            let (s, v, s2, v2) = four_numbers(arguments)?;
            Some(share(address(s, v), address(s2, v2)))
        }
        Unmap => {
            let (s, v) = two_numbers(arguments)?;
            Some(unmap(address(s, v)))
        }
        Pin => {
            let (s, v) = two_numbers(arguments)?;
            Some(pin(address(s, v)))
        }
        Unpin => {
            let (s, v) = two_numbers(arguments)?;
            Some(unpin(address(s, v)))
        }
        _ => None,
    }
}

/// `look Z S V`.
fn look_row(zone: Option<ZoneNo>, arguments: &[u8]) -> Option<Command>
    ensures { result ≡ row_of Token.Look zone (tokens arguments.now) }
{
    let (s, v) = two_numbers(arguments)?;
    Some(on(zone, address(s, v).map(Call::Look)))
}

/// `fill Z S V N`.
fn fill_row(zone: Option<ZoneNo>, arguments: &[u8]) -> Option<Command>
    ensures { result ≡ row_of Token.Fill zone (tokens arguments.now) }
{
    let (s, v, n) = three_numbers(arguments)?;
    Some(series_on(zone, series(Repeated::Map, space(s), v, page_count(n), 1)))
}

/// `thin Z S V N STEP`.
fn thin_row(zone: Option<ZoneNo>, arguments: &[u8]) -> Option<Command>
    ensures { result ≡ row_of Token.Thin zone (tokens arguments.now) }
{
    let (s, v, n, step) = four_numbers(arguments)?;
    Some(series_on(
        zone,
        series(Repeated::Unmap, space(s), v, page_count(n), step),
    ))
}

/// The opening of a zone, or `OutOfRange` where an argument is out of its range.
#[inline(always)]
fn open(zone: Option<ZoneNo>, blocks: Option<BlockCount>) -> Command
    ensures { result ≡ opening zone blocks }
{
    match (zone, blocks) {
        (Some(zone), Some(blocks)) => Command::Open { zone, blocks },
        _ => Command::OutOfRange,
    }
}

/// A round over a zone, or `OutOfRange` where the number of the zone is out of its range.
fn compact(zone: Option<ZoneNo>) -> Command
    ensures { result ≡ compacting zone }
{
    match zone {
        Some(zone) => Command::Compact { zone },
        None => Command::OutOfRange,
    }
}

/// A pool of this many blocks of a zone, or `OutOfRange` where an argument is out of its range.
fn pool(zone: Option<ZoneNo>, count: Option<BlockCount>, blocks: Option<PoolBlocks>) -> Command
    ensures { result ≡ pooling zone count blocks }
{
    match (zone, count, blocks) {
        (Some(zone), Some(count), Some(blocks)) => Command::Pool {
            zone,
            count,
            blocks,
        },
        _ => Command::OutOfRange,
    }
}

/// A call on a zone, or `OutOfRange` where an argument is out of its range.
#[inline(always)]
fn on(zone: Option<ZoneNo>, call: Option<Call>) -> Command
    ensures { result ≡ call_on zone call }
{
    match (zone, call) {
        (Some(zone), Some(call)) => Command::On {
            zone,
            calls: Calls::One(call),
        },
        _ => Command::OutOfRange,
    }
}

/// A call that a zone answers by itself, or `OutOfRange` where an argument is out of its range.
#[inline(always)]
fn zone_on(zone: Option<ZoneNo>, call: Option<ZoneCall>) -> Command
    ensures { result ≡ zone_call_on zone call }
{
    match (zone, call) {
        (Some(zone), Some(call)) => Command::On {
            zone,
            calls: Calls::Zone(call),
        },
        _ => Command::OutOfRange,
    }
}

/// A series of calls on a zone, or `OutOfRange` where an argument that is tested before the first call is out of its range.
#[inline(always)]
fn series_on(zone: Option<ZoneNo>, series: Option<Series>) -> Command
    ensures { result ≡ series_on zone series }
{
    match (zone, series) {
        (Some(zone), Some(series)) => Command::On {
            zone,
            calls: Calls::Series(series),
        },
        _ => Command::OutOfRange,
    }
}

fn map(address: Option<Address>, unmovable: bool) -> Option<ZoneCall>
    ensures { result ≡ map_call address unmovable }
{
    Some(ZoneCall::Map {
        address: address?,
        unmovable,
    })
}

fn map_at(address: Option<Address>, frame: Option<FrameNo>, unmovable: bool) -> Option<ZoneCall>
    ensures { result ≡ map_at_call address frame unmovable }
{
    Some(ZoneCall::MapAt {
        address: address?,
        unmovable,
        frame: frame?,
    })
}

fn store(address: Option<Address>, word: Option<WordNo>, value: u64) -> Option<ZoneCall>
    ensures { result ≡ store_call address word value }
{
    Some(ZoneCall::Store {
        address: address?,
        word: word?,
        value,
    })
}

fn load(address: Option<Address>, word: Option<WordNo>) -> Option<ZoneCall>
    ensures { result ≡ load_call address word }
{
    Some(ZoneCall::Load {
        address: address?,
        word: word?,
    })
}

fn share(address: Option<Address>, alias: Option<Address>) -> Option<ZoneCall>
    ensures { result ≡ share_call address alias }
{
    Some(ZoneCall::Share {
        address: address?,
        alias: alias?,
    })
}

fn unmap(address: Option<Address>) -> Option<ZoneCall>
    ensures { result ≡ option_map zone_call.Unmap address }
{
    Some(ZoneCall::Unmap { address: address? })
}

fn pin(address: Option<Address>) -> Option<ZoneCall>
    ensures { result ≡ option_map zone_call.Pin address }
{
    Some(ZoneCall::Pin { address: address? })
}

fn unpin(address: Option<Address>) -> Option<ZoneCall>
    ensures { result ≡ option_map zone_call.Unpin address }
{
    Some(ZoneCall::Unpin { address: address? })
}

fn take_order(order: Option<Order>) -> Option<ZoneCall>
    ensures { result ≡ option_map zone_call.TakeOrder order }
{
    Some(ZoneCall::TakeOrder { order: order? })
}

fn give_order(first: Option<FrameNo>, order: Option<Order>) -> Option<ZoneCall>
    ensures { result ≡ give_order_call first order }
{
    Some(ZoneCall::GiveOrder {
        first: first?,
        order: order?,
    })
}

fn mark(block: Option<BlockNo>) -> Option<ZoneCall>
    ensures { result ≡ option_map zone_call.Mark block }
{
    Some(ZoneCall::Mark { block: block? })
}

fn unmark(block: Option<BlockNo>) -> Option<ZoneCall>
    ensures { result ≡ option_map zone_call.Unmark block }
{
    Some(ZoneCall::Unmark { block: block? })
}

fn series(
    call: Repeated,
    space: Option<SpaceNo>,
    first: u64,
    count: Option<PageCount>,
    step: u64,
) -> Option<Series>
    ensures { result ≡ series_of call space first count step }
{
    Some(Series {
        call,
        space: space?,
        first,
        count: count?,
        step,
    })
}

/// The zone with this number, or none where the number is out of range.
pub fn zone(number: u64) -> Option<ZoneNo>
    ensures { result ≡ zone_of number }
{
    ZoneNo::new(u32::try_from(number).ok()?)
}

fn frame(number: u64) -> Option<FrameNo>
    ensures { result ≡ frame_of number }
{
    FrameNo::new(u32::try_from(number).ok()?)
}

fn word(number: u64) -> Option<WordNo>
    ensures { result ≡ word_of number }
{
    WordNo::new(u32::try_from(number).ok()?)
}

fn blocks(number: u64) -> Option<BlockCount>
    ensures { result ≡ blocks_of number }
{
    BlockCount::new(u32::try_from(number).ok()?)
}

fn pageblock(number: u64) -> Option<BlockNo>
    ensures { result ≡ pageblock_of number }
{
    BlockNo::new(u32::try_from(number).ok()?)
}

fn order(number: u64) -> Option<Order>
    ensures { result ≡ order_of number }
{
    Order::new(u32::try_from(number).ok()?)
}

fn hand(number: u64) -> Option<HandNo>
    ensures { result ≡ hand_of number }
{
    HandNo::new(u32::try_from(number).ok()?)
}

fn space(number: u64) -> Option<SpaceNo>
    ensures { result ≡ space_of number }
{
    SpaceNo::new(u32::try_from(number).ok()?)
}

fn page_count(number: u64) -> Option<PageCount>
    ensures { result ≡ page_count_of number }
{
    PageCount::new(u32::try_from(number).ok()?)
}

fn address(space: u64, vpage: u64) -> Option<Address>
    ensures { result ≡ address_of space vpage }
{
    Some(Address {
        space: SpaceNo::new(u32::try_from(space).ok()?)?,
        vpage: VPage::new(u32::try_from(vpage).ok()?)?,
    })
}
