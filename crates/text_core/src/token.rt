ghost use Rattle.std.specs.Prelude.{◌≡◌, ◌⊎◌, ℕ, ◌<◌, ◌≤◌, ◌↔◌, bytes_eq, nat_eq, false, codes, IfNone, IfSome, IsFalse, IsTrue, length, List, position, [], ◌∷◌, ◌+◌, ◌++◌, MatchOption, None, Some};
ghost use Rattle.std.specs.Char.{is_ascii_digit};
ghost use Rattle.text_core.specs.Arguments.{number_first};
ghost use Rattle.text_core.specs.declared.token.Token.TheVariants.{Number};
ghost use Rattle.std.specs.List.{starts_with};
ghost use Rattle.text_core.specs.Token.{after_word, first_word, keyword_of, lexemes, number_of, token_of, tokens};

/// What a word of a line means: a number, a keyword, or nothing of the language.
#[derive(Clone, Copy)]
pub(crate) enum Token {
    Number(u64),
    Zone,
    Map,
    MapAt,
    Store,
    Load,
    Info,
    Unmovable,
    Scan,
    Take,
    Copy,
    Finish,
    Shut,
    Look,
    Share,
    Unmap,
    Pin,
    Unpin,
    Huge,
    Give,
    Fill,
    Thin,
    Mark,
    Unmark,
    Compact,
    Pool,
    During,
    End,
    /// Anything else.
    Other,
}

impl Token {
    /// The token that bytes without a space are.
    pub(crate) fn from_bytes(bytes: &[u8]) -> Token
        ensures { result ≡ token_of bytes.now }
    {
        match keyword(bytes) {
            Token::Other => number(bytes).map_or(Token::Other, Token::Number),
            keyword => keyword,
        }
    }
}

/// The keyword that bytes are, if they are one.
#[inline(always)]
fn keyword(bytes: &[u8]) -> Token
    ensures { result ≡ keyword_of bytes.now }
{
    match bytes.len() {
        3 => word_of_three(bytes),
        4 => word_of_four(bytes),
        5 => word_of_five(bytes),
        _ => long_word(bytes),
    }
}

/// The keyword that three bytes are.
#[inline(always)]
fn word_of_three(bytes: &[u8]) -> Token
    requires { length bytes.now ≡ 3 }
    ensures { result ≡ keyword_of bytes.now }
{
    match bytes {
        b"map" => Token::Map,
        b"pin" => Token::Pin,
        b"end" => Token::End,
        _ => Token::Other,
    }
}

/// The keyword that four bytes are.
#[inline(always)]
fn word_of_four(bytes: &[u8]) -> Token
    requires { length bytes.now ≡ 4 }
    ensures { result ≡ keyword_of bytes.now }
{
    match bytes {
        b"zone" => Token::Zone,
        b"load" => Token::Load,
        b"info" => Token::Info,
        b"scan" => Token::Scan,
        b"take" => Token::Take,
        b"copy" => Token::Copy,
        b"shut" => Token::Shut,
        b"look" => Token::Look,
        b"huge" => Token::Huge,
        b"give" => Token::Give,
        b"fill" => Token::Fill,
        b"thin" => Token::Thin,
        b"mark" => Token::Mark,
        b"pool" => Token::Pool,
        _ => Token::Other,
    }
}

/// The keyword that five bytes are.
#[inline(always)]
fn word_of_five(bytes: &[u8]) -> Token
    requires { length bytes.now ≡ 5 }
    ensures { result ≡ keyword_of bytes.now }
{
    match bytes {
        b"mapat" => Token::MapAt,
        b"store" => Token::Store,
        b"share" => Token::Share,
        b"unmap" => Token::Unmap,
        b"unpin" => Token::Unpin,
        _ => Token::Other,
    }
}

/// The keyword that fewer than three bytes or more than five are.
#[inline(always)]
fn long_word(bytes: &[u8]) -> Token
    requires { (length bytes.now < 3) ⊎ (5 < length bytes.now) }
    ensures { result ≡ keyword_of bytes.now }
{
    match bytes {
        b"finish" => Token::Finish,
        b"unmark" => Token::Unmark,
        b"during" => Token::During,
        b"compact" => Token::Compact,
        b"unmovable" => Token::Unmovable,
        _ => Token::Other,
    }
}

/// Whether bytes are this word.
pub(crate) fn is_word(bytes: &[u8], word: &[u8]) -> bool
    ensures { result ≡ bytes_eq bytes.now word.now }
{
    bytes == word
}

/// The number that 1 to 20 digits are, if these bytes are such and it fits 64 bits.
fn number(bytes: &[u8]) -> Option<u64>
    ensures { result ≡ number_of bytes.now }
{
    match leading_digits(bytes)? {
        (value, []) => Some(value),
        _ => None,
    }
}

/// The token that a line begins with, and what stands after its word. Most lines begin with a keyword of 3 to 6 letters. 4 is tried
/// first, since half of the keywords have 4 letters.
#[inline(always)]
pub(crate) fn leading_token(text: &[u8]) -> Option<(Token, &[u8])>
    ensures token { MatchOption result (tokens text.now ≡ []) (λ found. tokens text.now ≡ found.0 ∷ tokens found.1.now) }
{
    for count in [4, 3, 5, 6] {
        if let Some((word, after)) = text.split_at_checked(count)
            && ends_word(after)
        {
            match keyword(word) {
                Token::Other => {}
                keyword => return Some((keyword, after)),
            }
        }
    }
    first_token(text)
}

/// The first token of a text, and what stands after its word.
#[inline(always)]
pub(crate) fn first_token(text: &[u8]) -> Option<(Token, &[u8])>
    ensures token { MatchOption result (tokens text.now ≡ []) (λ found. tokens text.now ≡ found.0 ∷ tokens found.1.now) }
{
    let (lexeme, after) = first_lexeme(text)?;
    Some((Token::from_bytes(lexeme), after))
}

/// The number that a text begins with, and what stands after it. Most numbers are one digit after one space.
pub(crate) fn first_number(text: &[u8]) -> Option<(u64, &[u8])>
    ensures { MatchOption result (number_first (tokens text.now) ≡ None) (λ found. tokens text.now ≡ Number found.0 ∷ tokens found.1.now) }
{
    match text {
        [b' ', digit @ b'0'..=b'9', after @ ..] if ends_word(after) => {
            Some((u64::from(*digit - b'0'), after))
        }
        _ => leading_digits(without_spaces(text)),
    }
}

/// The number that a text begins with, however many digits it has, and what stands after it.
fn leading_digits(text: &[u8]) -> Option<(u64, &[u8])>
    ensures number { MatchOption result (number_of (first_word text.now) ≡ None) (λ found. number_of (first_word text.now) ≡ Some found.0) }
    ensures after { IfSome result (λ found. found.1.now ≡ after_word text.now) }
{
    let mut value: u64 = 0;
    let mut rest = text;
    while let Some((digit, after)) = leading_digit(rest) {
        value = value.checked_mul(10)?.checked_add(u64::from(digit))?;
        rest = after;
    }
    let count = text.len() - rest.len();
    if ends_word(rest) && 0 < count && count <= 20 {
        Some((value, rest))
    } else {
        None
    }
}

/// Whether a text is empty or begins with a space.
fn ends_word(text: &[u8]) -> bool
    ensures word { IsTrue result → first_word text.now ≡ [] }
    ensures after { IsTrue result → after_word text.now ≡ text.now }
    ensures more { IsFalse result → (byte : ℕ) × (after : List ℕ) × (text.now ≡ byte ∷ after) × IsFalse (nat_eq byte 32) }
{
    match text {
        [] | [b' ', ..] => true,
        _ => false,
    }
}

/// The digit that a text begins with, and what stands after it.
fn leading_digit(text: &[u8]) -> Option<(u8, &[u8])>
    ensures digit { IfSome result (λ found. text.now ≡ (48 + found.0) ∷ found.1.now) }
    ensures small { IfSome result (λ found. found.0 < 10) }
    ensures none { IfNone result ((byte : ℕ) (after : List ℕ) → text.now ≡ byte ∷ after → is_ascii_digit byte ≡ false) }
{
    match text {
        [byte @ b'0'..=b'9', after @ ..] => Some((*byte - b'0', after)),
        _ => None,
    }
}

/// Whether no token is left in a text.
pub(crate) fn is_end(text: &[u8]) -> bool
    ensures { IsTrue result ↔ (tokens text.now ≡ []) }
{
    without_spaces(text).is_empty()
}

/// The first word of a text, and what stands after it.
pub(crate) fn first_lexeme(text: &[u8]) -> Option<(&[u8], &[u8])>
    ensures lexeme { MatchOption result (lexemes text.now ≡ []) (λ found. lexemes text.now ≡ found.0.now ∷ lexemes found.1.now) }
    ensures less { IfSome result (λ found. length found.1.now < length text.now) }
{
    let text = without_spaces(text);
    if text.is_empty() {
        return None;
    }
    let end = space_in(text).unwrap_or(text.len());
    Some(text.split_at(end))
}

/// A text without the spaces before its first word.
pub(crate) fn without_spaces(text: &[u8]) -> &[u8]
    ensures lexemes { lexemes result.now ≡ lexemes text.now }
    ensures first { starts_with nat_eq result.now (codes " ") ≡ false }
    ensures shorter { length result.now ≤ length text.now }
{
    let mut rest = text;
    while let [b' ', after @ ..] = rest {
        rest = after;
    }
    rest
}

/// The index of the first space, if there is one.
fn space_in(text: &[u8]) -> Option<usize>
    ensures { result ≡ position (λ byte. nat_eq byte 32) text.now }
{
    text.iter().position(|byte| *byte == b' ')
}
