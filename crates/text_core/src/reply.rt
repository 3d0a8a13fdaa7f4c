ghost use Rattle.std.specs.Prelude.{◌≡◌, ◌+◌, ◌*◌, ◌≤◌, ◌++◌, length, decimal, IfSome};
ghost use Rattle.arrayvec.specs.ArrayString.{array_string_len};
ghost use Rattle.text_core.specs.Reply.{IsOneLine, after_commas, counts_text, look_text, numbers_text, pool_name, pool_stopped_text, pool_text, round_text, stopped_text, text_of, uses_text};

use crate::pool::{PoolBlocks, PoolStopped};
use arrayvec::{ArrayString, ArrayVec};
use bitflags::Flags;
use frame_core::{BlockNo, FrameNo, Order, PageFlags, Serial};
use itoa::Buffer;
use state_core::{Info, Look};

/// The reply to a command.
#[derive(Debug, Drop)]
pub enum Reply {
    Done,
    /// The value of a word.
    Value(u64),
    Info(Info),
    /// The counts of a zone, with the number of frames that are handed out.
    InfoWithHeld(Info),
    /// A page was isolated under this serial, or was taken by a hand.
    Serial(Serial),
    /// The scanners met: no page may be taken that has a frame to go to.
    Met,
    /// The page with this serial is in its new frame.
    Moved(Serial),
    /// The page with this serial had a pin, and is in its old frame.
    PutBack(Serial),
    /// How many pages were put back, since no hand had taken them.
    Shut(u32),
    Looked(Look),
    /// The number of the pageblock that was handed out.
    Block(BlockNo),
    /// The first frame of the block that was handed out, and its order.
    HandedOut {
        first: FrameNo,
        order: Order,
    },
    /// The number of calls of a series, none of which was refused.
    AllDone(u32),
    /// The number of calls of a series that were accepted before one was refused with this number.
    DoneUntil {
        done: u32,
        refusal: u16,
    },
    /// A round: how many pages it isolated, moved and put back, and why it stopped.
    Round {
        isolated: u64,
        moved: u64,
        back: u64,
        stopped: Stopped,
    },
    /// A pool: the numbers that name its blocks, in the order in which it got them, its rounds, and why it stopped.
    Pool {
        blocks: PoolBlocks,
        got: ArrayVec<u32, 8>,
        rounds: u32,
        stopped: PoolStopped,
    },
    /// A refusal with this number.
    Refused(u16),
}

/// Why a round stopped.
#[derive(Clone, Copy, Debug)]
pub enum Stopped {
    /// The scanners met: no page may be taken that has a frame to go to.
    Met,
    JournalFull,
}

/// The line of a reply: it ends with a newline, and has no other.
pub fn reply_text(reply: &Reply) -> ArrayString<160>
    ensures text { result.bytes ≡ text_of reply.now }
    ensures line { IsOneLine result.bytes }
{
    let mut text = ArrayString::new();
    push_reply(&mut text, reply);
    text
}

/// Appends the line of a reply to a text, which needs room for 160 bytes more.
#[inline(always)]
pub fn push_reply<const N: usize>(text: &mut ArrayString<N>, reply: &Reply)
    requires { array_string_len text.old + 160 ≤ N }
    ensures text { text.new.bytes ≡ text.old.bytes ++ text_of reply.now }
    ensures line { IsOneLine (text_of reply.now) }
{
    match reply {
        Reply::Done => return text.push_str("ok\n"),
        Reply::Value(value) => push_field(text, "value=", *value),
        Reply::Info(info) => push_counts(text, info),
        Reply::InfoWithHeld(info) => {
            push_counts(text, info);
            push_field(text, " held=", u64::from(info.held));
        }
        Reply::Serial(serial) => push_field(text, "serial=", *serial),
        Reply::Met => text.push_str("met"),
        Reply::Moved(serial) => push_field(text, "moved serial=", *serial),
        Reply::PutBack(serial) => {
            push_field(text, "back serial=", *serial);
            text.push_str(" cause=1");
        }
        Reply::Shut(count) => push_field(text, "back=", u64::from(*count)),
        Reply::Looked(look) => push_look(text, *look),
        Reply::Block(block) => push_field(text, "block=", u64::from(block.get())),
        Reply::HandedOut { first, order } => {
            push_field(text, "frame=", u64::from(first.get()));
            push_field(text, " order=", u64::from(order.get()));
        }
        Reply::AllDone(done) => push_field(text, "done=", u64::from(*done)),
        Reply::DoneUntil { done, refusal } => {
            push_field(text, "done=", u64::from(*done));
            push_field(text, " refused=", u64::from(*refusal));
        }
        Reply::Round {
            isolated,
            moved,
            back,
            stopped,
        } => push_round(text, *isolated, *moved, *back, *stopped),
        Reply::Pool {
            blocks,
            got,
            rounds,
            stopped,
        } => push_pool(text, *blocks, got.as_slice(), *rounds, *stopped),
        Reply::Refused(number) => push_field(text, "refused ", u64::from(*number)),
    }
    text.push_str("\n");
}

/// Appends the counts of a zone.
fn push_counts<const N: usize>(text: &mut ArrayString<N>, info: &Info)
    requires { array_string_len text.old + 133 ≤ N }
    ensures text { text.new.bytes ≡ text.old.bytes ++ counts_text info.now }
    ensures len { array_string_len text.new ≤ array_string_len text.old + 133 }
{
    push_field(text, "free=", u64::from(info.free));
    push_field(text, " pages=", u64::from(info.pages));
    push_field(text, " moving=", u64::from(info.moving));
    push_field(text, " huge=", u64::from(info.huge));
    push_field(text, " whole=", u64::from(info.whole));
}

/// Appends what is known of a page.
#[inline(always)]
fn push_look<const N: usize>(text: &mut ArrayString<N>, look: Look)
    requires { array_string_len text.old + 136 ≤ N }
    ensures text { text.new.bytes ≡ text.old.bytes ++ look_text look }
    ensures len { array_string_len text.new ≤ array_string_len text.old + 136 }
{
    match look {
        Look::At {
            frame,
            flags,
            pins,
            maps,
        } => {
            push_field(text, "frame=", u64::from(frame.get()));
            push_field(text, " dirty=", u64::from(flags.contains(PageFlags::DIRTY)));
            push_field(
                text,
                " unmovable=",
                u64::from(flags.contains(PageFlags::UNMOVABLE)),
            );
            push_uses(text, pins, maps);
        }
        Look::Moving { serial, pins, maps } => {
            push_field(text, "moving serial=", serial);
            push_uses(text, pins, maps);
        }
    }
}

/// Appends how many pins a page has, and how many addresses name it.
#[inline(always)]
fn push_uses<const N: usize>(text: &mut ArrayString<N>, pins: u8, maps: u8)
    requires { array_string_len text.old + 52 ≤ N }
    ensures text { text.new.bytes ≡ text.old.bytes ++ uses_text pins maps }
    ensures len { array_string_len text.new ≤ array_string_len text.old + 52 }
{
    push_field(text, " pins=", u64::from(pins));
    push_field(text, " maps=", u64::from(maps));
}

/// Appends what a round did.
fn push_round<const N: usize>(
    text: &mut ArrayString<N>,
    isolated: u64,
    moved: u64,
    back: u64,
    stopped: Stopped,
)
    requires { array_string_len text.old + 102 ≤ N }
    ensures text { text.new.bytes ≡ text.old.bytes ++ round_text isolated moved back stopped }
    ensures len { array_string_len text.new ≤ array_string_len text.old + 102 }
{
    push_field(text, "isolated=", isolated);
    push_field(text, " moved=", moved);
    push_field(text, " back=", back);
    text.push_str(stopped_word(stopped));
}

/// Why a round stopped, as its reply tells it.
fn stopped_word(stopped: Stopped) -> &'static str
    ensures text { result.now ≡ stopped_text stopped }
    ensures len { length result.now ≤ 20 }
{
    match stopped {
        Stopped::Met => " stopped=met",
        Stopped::JournalFull => " stopped=journalfull",
    }
}

/// Appends what a pool got.
fn push_pool<const N: usize>(
    text: &mut ArrayString<N>,
    blocks: PoolBlocks,
    got: &[u32],
    rounds: u32,
    stopped: PoolStopped,
)
    requires few { length got.now ≤ 8 }
    requires room { array_string_len text.old + 157 ≤ N }
    ensures text { text.new.bytes ≡ text.old.bytes ++ pool_text blocks got.now rounds stopped }
    ensures len { array_string_len text.new ≤ array_string_len text.old + 157 }
{
    text.push_str("got=");
    push_short(text, got.len() as u32);
    text.push_str(" rounds=");
    push_short(text, rounds);
    push_pool_stopped(text, stopped);
    push_pool_name(text, blocks);
    push_numbers(text, got);
}

/// Appends why a pool stopped.
fn push_pool_stopped<const N: usize>(text: &mut ArrayString<N>, stopped: PoolStopped)
    requires { array_string_len text.old + 29 ≤ N }
    ensures text { text.new.bytes ≡ text.old.bytes ++ pool_stopped_text stopped }
    ensures len { array_string_len text.new ≤ array_string_len text.old + 29 }
{
    match stopped {
        PoolStopped::Enough => text.push_str(" stopped=enough"),
        PoolStopped::NoBlock => text.push_str(" stopped=noblock"),
        PoolStopped::Rounds => text.push_str(" stopped=rounds"),
        PoolStopped::JournalFull => text.push_str(" stopped=journalfull"),
        PoolStopped::Refused(number) => push_field(text, " stopped=", u64::from(number)),
    }
}

/// Appends what the numbers of a pool's blocks are: those of pageblocks, or first frames.
fn push_pool_name<const N: usize>(text: &mut ArrayString<N>, blocks: PoolBlocks)
    requires { array_string_len text.old + 8 ≤ N }
    ensures text { text.new.bytes ≡ text.old.bytes ++ pool_name blocks }
    ensures len { array_string_len text.new ≡ array_string_len text.old + 8 }
{
    match blocks {
        PoolBlocks::Pageblocks => text.push_str(" blocks="),
        PoolBlocks::OfOrder(_) => text.push_str(" frames="),
    }
}

/// Appends numbers with commas between them, or a dash where there are none.
fn push_numbers<const N: usize>(text: &mut ArrayString<N>, numbers: &[u32])
    requires few { length numbers.now ≤ 8 }
    requires room { array_string_len text.old + 88 ≤ N }
    ensures text { text.new.bytes ≡ text.old.bytes ++ numbers_text numbers.now }
    ensures len { array_string_len text.new ≤ array_string_len text.old + 88 }
{
    let [first, more @ ..] = numbers else {
        text.push_str("-");
        return;
    };
    push_short(text, *first);
    push_after_commas(text, more);
}

/// Appends numbers with a comma before each.
fn push_after_commas<const N: usize>(text: &mut ArrayString<N>, numbers: &[u32])
    requires { array_string_len text.old + 11 * length numbers.now ≤ N }
    ensures text { text.new.bytes ≡ text.old.bytes ++ after_commas numbers.now }
    ensures len { array_string_len text.new ≤ array_string_len text.old + 11 * length numbers.now }
{
    for number in numbers {
        text.push_str(",");
        push_short(text, *number);
    }
}

/// Appends a number of at most ten digits.
fn push_short<const N: usize>(text: &mut ArrayString<N>, number: u32)
    requires { array_string_len text.old + 10 ≤ N }
    ensures text { text.new.bytes ≡ text.old.bytes ++ decimal number }
    ensures len { array_string_len text.new ≤ array_string_len text.old + 10 }
{
    text.push_str(Buffer::new().format(number));
}

/// Appends a name and a number.
#[inline(always)]
fn push_field<const N: usize>(text: &mut ArrayString<N>, name: &str, number: u64)
    requires { array_string_len text.old + length name.now + 20 ≤ N }
    ensures text { text.new.bytes ≡ text.old.bytes ++ name.now ++ decimal number }
    ensures len { array_string_len text.new ≤ array_string_len text.old + length name.now + 20 }
{
    text.push_str(name);
    push_number(text, number);
}

/// Appends a number. Most numbers have one digit.
#[inline(always)]
fn push_number<const N: usize>(text: &mut ArrayString<N>, number: u64)
    requires { array_string_len text.old + 20 ≤ N }
    ensures text { text.new.bytes ≡ text.old.bytes ++ decimal number }
    ensures len { array_string_len text.new ≤ array_string_len text.old + 20 }
{
    match digit(number) {
        Some(digit) => text.push_str(digit),
        None => push_digits(text, number),
    }
}

/// The digit that stands for a number below ten.
#[inline(always)]
#[tactic(auto, using(std::proofs::lemmas::Fmt::decimal_digit))]
fn digit(number: u64) -> Option<&'static str>
    ensures below { IfSome result (λ digit. digit.now ≡ decimal number) }
    ensures one { IfSome result (λ digit. length digit.now ≡ 1) }
{
    match number {
        0 => Some("0"),
        1 => Some("1"),
        2 => Some("2"),
        3 => Some("3"),
        4 => Some("4"),
        5 => Some("5"),
        6 => Some("6"),
        7 => Some("7"),
        8 => Some("8"),
        9 => Some("9"),
        _ => None,
    }
}

/// Appends a number, however many digits it has.
fn push_digits<const N: usize>(text: &mut ArrayString<N>, number: u64)
    requires { array_string_len text.old + 20 ≤ N }
    ensures text { text.new.bytes ≡ text.old.bytes ++ decimal number }
    ensures len { array_string_len text.new ≤ array_string_len text.old + 20 }
{
    let mut digits = Buffer::new();
    text.push_str(digits.format(number));
}
