//! The options of the program.
ghost use Rattle.std.specs.Prelude.{◌≡◌, ◌≤◌, false, map, pos, codes, [], ◌∷◌, IfOk, IfErr, IsErrAnd};
ghost use Rattle.std.specs.Vec.Iter.{into_iter_items};
ghost use Rattle.clap.specs.Words.{FailsBy, IsPlainArg, found_of, kind_of, new_app, rule_of};
ghost use Rattle.clap.specs.Kinds.{HasKind};
ghost use Rattle.clap.specs.declared.builder.value_parser.ValueParser.TheVariants.{Signed};
ghost use Rattle.script_core.specs.CommandLine.{number_rule, options_line, refusal_of, number_in, with_version, AddsNumber, IsGiven, IsLine, texts_of, FindsUpTo};

use clap::builder::ValueParser;
use clap::error::ErrorKind;
use clap::{Arg, ArgMatches, Command, Error, value_parser};
use machine_core::Options;
use std::alloc::{AllocError, Global};
use std::convert::AsStr;
use std::env::Args;
use std::io;

/// The usage, which `--help` and refusals show.
const USAGE: &str = "\
compactd [OPTIONS] < SCRIPT

A script comes on standard input: compactd < FILE";

/// What `--help` says of scripts.
const COMMANDS: &str = "\
Commands of a script, one per line:
  zone Z B, info Z
  map Z S V [unmovable], mapat Z S V F [unmovable], fill Z S V N
  share Z S V S2 V2, unmap Z S V, thin Z S V N STEP
  store Z S V W X, load Z S V W, look Z S V, pin Z S V, unpin Z S V
  scan Z, take Z K, copy Z K, finish Z K, shut Z, compact Z
  during Z, then lines of a client as above, then end
  huge Z, give Z B, pool Z N
and in profile 2, where the first line is `profile 2`:
  huge Z K, give Z F K, pool Z N K, mark Z B, unmark Z B

Numbers of the reply `refused`:
  1 out of range, 2 journal full, 3 address names no page, 4 page is moving, 5 address in use,
  6 no free frame, 7 four addresses already, 8 255 pins already, 9 page has no pin,
  10 last address of a pinned page, 11 no free block, 12 block isn't handed out,
  17 pageblock is marked already, 18 pageblock isn't marked, 31 no memory, 32 no thread,
  33 a round broke, 34 the zone refused a copy, 35 receipts differ from the journal,
  43 no zone of this number, 44 a zone was opened already, 45 the hand or a round is in the way

See docs/SCRIPT.md for what each command does, replies, refusals, faults and examples.";

/// The options that the process was started with, or clap's answer where it isn't options: a refusal, the help or the version.
pub fn given_options(alloc: Global, words: io::Result<Args>) -> Result<Options, Error>
    ensures unread { IfErr words (λ error. IsErrAnd result (λ answer. HasKind (ErrorKind.ValueValidation ∷ []) answer)) }
    ensures refused { IfOk words (λ args. FailsBy (refusal_of (texts_of args)) result) }
    ensures ok { IfOk words (λ args. IfOk result (IsGiven (texts_of args))) }
{
    match words {
        Ok(words) => options_of_words(alloc, words),
        Err(error) if error.kind() == io::ErrorKind::OutOfMemory => Err(Error::from(AllocError)),
        Err(_) => Err(no_text(alloc)?),
    }
}

fn options_of_words(alloc: Global, words: Args) -> Result<Options, Error>
    ensures refused { FailsBy (refusal_of (texts_of words)) result }
    ensures ok { IfOk result (IsGiven (texts_of words)) }
{
    let words = list_of(alloc, words)?;
    options_from(alloc, words.as_slice())
}

fn list_of(alloc: Global, words: Args) -> Result<Vec<String>, AllocError>
    ensures { IfOk result (λ list. list.items ≡ into_iter_items words) }
{
    words.collect(alloc)
}

/// Clap's refusal of words that aren't all text.
fn no_text(alloc: Global) -> Result<Error, AllocError>
    ensures { IfOk result (λ error. kind_of error ≡ ErrorKind.ValueValidation) }
{
    let mut command = command_line(alloc)?;
    command.error(
        ErrorKind::ValueValidation,
        "invalid UTF-8 was detected in one or more arguments",
    )
}

/// The options that the words give, or clap's answer. The first word is the program's name.
fn options_from<'a, S: AsStr>(alloc: Global, words: &'a [S]) -> Result<Options, Error>
    ensures refused { FailsBy (refusal_of (map S.text words.entry.now)) result }
    ensures ok { IfOk result (IsGiven (map S.text words.entry.now)) }
{
    let matches = command_line(alloc)?.try_get_matches_from(words)?;
    Ok(options_in(&matches))
}

/// The options that a parse found.
fn options_in(matches: &ArgMatches<'_>) -> Options
    requires copiers { FindsUpTo (found_of matches.now) (codes "copiers") 4 }
    requires capacity { FindsUpTo (found_of matches.now) (codes "capacity") 64 }
    requires journal { FindsUpTo (found_of matches.now) (codes "journal") 65536 }
    ensures copiers { result.copiers ≡ number_in (found_of matches.now) (codes "copiers") 2 }
    ensures capacity { result.capacity ≡ number_in (found_of matches.now) (codes "capacity") 8 }
    ensures journal { result.journal ≡ number_in (found_of matches.now) (codes "journal") 65536 }
{
    Options {
        copiers: number::<4>(matches, "copiers", 2) as usize,
        capacity: number::<64>(matches, "capacity", 8) as usize,
        journal: number::<65536>(matches, "journal", 65536),
    }
}

/// The number that was given for an option, 1 to `MOST`, or the number `own` where none was given.
fn number<const MOST: u32>(matches: &ArgMatches<'_>, name: &str, own: u32) -> u32
    requires found { FindsUpTo (found_of matches.now) name.now MOST }
    requires low { 1 ≤ own }
    requires high { own ≤ MOST }
    ensures value { result ≡ number_in (found_of matches.now) name.now own }
    ensures least { 1 ≤ result }
    ensures most { result ≤ MOST }
{
    matches.get_one(name).unwrap_or(own)
}

/// The command line with its three options.
fn command_line<'a>(alloc: Global) -> Result<Command<'a>, AllocError>
    ensures { IfOk result (IsLine options_line) }
{
    let command = with_number::<4>(
        alloc,
        bare_line(alloc),
        "copiers",
        "Copier threads per round, 1 to 4 [default: 2]",
    )?;
    let command = with_number::<64>(
        alloc,
        command,
        "capacity",
        "Pages per queue of a round, 1 to 64 [default: 8]",
    )?;
    with_number::<65536>(
        alloc,
        command,
        "journal",
        "Records in the journal, 1 to 65536 [default: 65536]",
    )
}

/// The command line without an option but `--help` and `--version`.
fn bare_line<'a>(alloc: Global) -> Command<'a>
    ensures { IsLine (with_version (new_app (codes "compactd"))) result }
{
    Command::new(alloc, "compactd")
        .version("0.2.0")
        .override_usage(USAGE)
        .about("Runs the script on standard input, and writes a reply for each command")
        .after_help(COMMANDS)
}

/// A command line with one more option, `--NAME N`, whose number is from 1 to `MOST`.
fn with_number<'a, const MOST: u32>(
    alloc: Global,
    command: Command<'a>,
    name: &'a str,
    help: &'a str,
) -> Result<Command<'a>, AllocError>
    ensures { IfOk result (AddsNumber command.entry name.entry.now MOST) }
{
    let numbers = value_parser!(u32).range(1..=i64::from(MOST));
    command.arg(number_option(alloc, name, numbers, help))
}

/// The option `--NAME N`.
fn number_option<'a>(
    alloc: Global,
    name: &'a str,
    numbers: ValueParser<'a>,
    help: &'a str,
) -> Arg<'a>
    ensures rule { (most : _) → numbers.entry ≡ Signed (pos 1) (pos most) → rule_of result ≡ number_rule name.entry.now most }
    ensures plain { IsPlainArg result }
    ensures local { result.global ≡ false }
{
    Arg::new(alloc, name)
        .long(name)
        .value_name("N")
        .value_parser(numbers)
        .help(help)
}
