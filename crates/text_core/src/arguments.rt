//! The arguments of a line, read from its text.

ghost use Rattle.std.specs.Prelude.{◌≡◌};
ghost use Rattle.text_core.specs.Arguments.{flag_of, four_of, one_of, three_and_flag_of, three_of, two_and_flag_of, two_of};
ghost use Rattle.text_core.specs.Token.{tokens};

use crate::token::{Token, first_number, first_token, is_end};

/// The number that a text consists of, or none where it is anything else.
pub(crate) fn one_number(text: &[u8]) -> Option<u64>
    ensures { result ≡ one_of (tokens text.now) }
{
    let (a, after) = first_number(text)?;
    if is_end(after) { Some(a) } else { None }
}

/// The two numbers that a text consists of, or none where it is anything else.
#[inline(always)]
pub(crate) fn two_numbers(text: &[u8]) -> Option<(u64, u64)>
    ensures { result ≡ two_of (tokens text.now) }
{
    let (a, after) = first_number(text)?;
    Some((a, one_number(after)?))
}

/// The three numbers that a text consists of, or none where it is anything else.
pub(crate) fn three_numbers(text: &[u8]) -> Option<(u64, u64, u64)>
    ensures { result ≡ three_of (tokens text.now) }
{
    let (a, after) = first_number(text)?;
    let (b, after) = first_number(after)?;
    Some((a, b, one_number(after)?))
}

/// The four numbers that a text consists of, or none where it is anything else.
pub(crate) fn four_numbers(text: &[u8]) -> Option<(u64, u64, u64, u64)>
    ensures { result ≡ four_of (tokens text.now) }
{
    let (a, after) = first_number(text)?;
    let (b, after) = first_number(after)?;
    let (c, after) = first_number(after)?;
    Some((a, b, c, one_number(after)?))
}

/// Whether a text is the word `unmovable`: true for it, false for an empty text, and none for anything else.
fn flag(text: &[u8]) -> Option<bool>
    ensures { result ≡ flag_of (tokens text.now) }
{
    match first_token(text) {
        None => Some(false),
        Some((Token::Unmovable, after)) if is_end(after) => Some(true),
        _ => None,
    }
}

/// The two numbers and the flag that a text consists of, or none where it is anything else.
pub(crate) fn two_numbers_and_flag(text: &[u8]) -> Option<(u64, u64, bool)>
    ensures { result ≡ two_and_flag_of (tokens text.now) }
{
    let (a, after) = first_number(text)?;
    let (b, after) = first_number(after)?;
    Some((a, b, flag(after)?))
}

/// The three numbers and the flag that a text consists of, or none where it is anything else.
pub(crate) fn three_numbers_and_flag(text: &[u8]) -> Option<(u64, u64, u64, bool)>
    ensures { result ≡ three_and_flag_of (tokens text.now) }
{
    let (a, after) = first_number(text)?;
    let (b, c, unmovable) = two_numbers_and_flag(after)?;
    Some((a, b, c, unmovable))
}
