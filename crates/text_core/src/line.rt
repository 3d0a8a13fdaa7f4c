ghost use Rattle.std.specs.Prelude.{◌≡◌};
ghost use Rattle.text_core.specs.Token.{lexemes};
ghost use Rattle.text_core.specs.Line.{line_of, line_within};
ghost use Rattle.text_core.specs.Profile.{is_profile_2};

use crate::command::{BlockLine, Command};
use crate::error::ScriptError;
use crate::grammar;
use crate::profile::Profile;
use crate::token::{first_lexeme, is_word, without_spaces};

/// The most bytes that a line may have.
const MOST: usize = 200;

/// Whether a line is `profile 2`.
fn is_profile_2(text: &[u8]) -> bool
    ensures { result ≡ is_profile_2 (lexemes text.now) }
{
    match first_lexeme(text) {
        Some((keyword, after)) => match first_lexeme(after) {
            Some((number, rest)) => {
                is_word(keyword, b"profile")
                    && is_word(number, b"2")
                    && first_lexeme(rest).is_none()
            }
            None => false,
        },
        None => false,
    }
}

/// The command that a line is, or begins, where it is read by this profile; none where the line is empty or a comment.
/// The newline isn't a part of the line.
///
/// Refused as LongLine where it has more than 200 bytes, else as Syntax where it is no command.
pub fn read_line(profile: Profile, line: &[u8]) -> Result<Option<Command>, ScriptError>
    ensures { result ≡ line_of profile line.now }
{
    if line.len() > MOST {
        return Err(ScriptError::LongLine);
    }
    match without_spaces(line) {
        [] | [b'#', ..] => Ok(None),
        text if matches!(profile, Profile::Untold) && is_profile_2(text) => {
            Ok(Some(Command::Profile2))
        }
        text => grammar::command(profile, text)
            .map(Some)
            .ok_or(ScriptError::Syntax),
    }
}

/// What a line says in a block for the zone with this number; none where the line is empty or a comment.
///
/// Refused as LongLine where it has more than 200 bytes, else as Syntax where it says nothing that may stand in a block.
pub fn read_block_line(zone: u64, line: &[u8]) -> Result<Option<BlockLine>, ScriptError>
    ensures { result ≡ line_within zone line.now }
{
    if line.len() > MOST {
        return Err(ScriptError::LongLine);
    }
    match without_spaces(line) {
        [] | [b'#', ..] => Ok(None),
        text => grammar::block_line(zone, text)
            .map(Some)
            .ok_or(ScriptError::Syntax),
    }
}
