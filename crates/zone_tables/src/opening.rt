ghost use Rattle.std.specs.Prelude.{◌≡◌, ◌≤◌, ◌*◌, [], None, false, length, replicate, IsTrue, IfOk, IfErr, IfSome};
ghost use Rattle.std.specs.FinSet as set;
ghost use Rattle.std.specs.List.{All};
ghost use Rattle.std.specs.Option.{option_map};
ghost use Rattle.frame_core.specs.LentWords.{NoneLent};
ghost use Rattle.scan_core.specs.Frames.{all_free};
ghost use Rattle.table_core.specs.Tables.{IsBlank};
ghost use Rattle.zone_tables.specs.Contents.{memory_of};
ghost use Rattle.zone_tables.specs.Fresh.{AreFresh};
ghost use Rattle.state_core.specs.Valid.{IsValidZone};
ghost use Rattle.state_core.specs.Lending.{LendsNone};
ghost use Rattle.state_core.specs.Opening.{HasPlaces, IsZoneSize, opened_in, opened_sized, places_of};

use crate::cleared::Cleared;
use crate::handed_out::HandedOut;
use crate::history::History;
use crate::moves::Moves;
use crate::notes::Notes;
use crate::zone::ZoneTables;
use frame_core::{WordsOf, ZoneNo};
use number_set::NumberSet;
use row_core::Row;
use scan_core::{Fingers, Frames, Marks};
use state_core::{ZoneError, ZoneSize};
use std::alloc::{AllocError, Global};
use table_core::Tables;

impl<const W: usize> ZoneTables<W> {
    /// An empty zone of this size whose journal keeps its records in so many places, or is unrecorded where that is none; or the error
    /// Memory where there isn't enough memory for it. No other call takes memory.
    pub fn open(
        alloc: Global,
        number: ZoneNo,
        size: ZoneSize,
        places: Option<u32>,
    ) -> Result<ZoneTables<W>, ZoneError>
        requires open { IsZoneSize size }
        requires places { IfSome places HasPlaces }
        requires words { W ≤ 65536 }
        ensures memory { IfErr result (λ error. error ≡ ZoneError.Memory) }
        ensures ok { IfOk result (λ zone. zone ≡ opened_sized W number size (places_of places)) }
        ensures valid { IfOk result (λ zone. IsValidZone zone) }
    {
        let words = WordsOf::open(alloc, 512 * size.blocks)?;
        let parts = Parts::open(alloc, size, places)?;
        Ok(Self::of(number, size, parts, words))
    }

    /// An empty zone of this size whose words lie in memory of its caller, which is `blank` if all its words are known to be 0. Its journal is
    /// that of `open`. Where there isn't enough memory for the rest, the row comes back. No other call takes memory.
    pub fn open_in(
        alloc: Global,
        number: ZoneNo,
        size: ZoneSize,
        places: Option<u32>,
        memory: Row,
        blank: bool,
    ) -> Result<ZoneTables<W>, Row>
        requires open { IsZoneSize size }
        requires places { IfSome places HasPlaces }
        requires words { W ≤ 65536 }
        requires count { length memory.words ≡ 512 * size.blocks * W }
        requires blank { IsTrue blank → memory.words ≡ replicate (length memory.words) 0 }
        ensures refused { IfErr result (λ row. row ≡ memory) }
        ensures ok { IfOk result (λ zone. zone ≡ opened_in memory.at W number size (places_of places)) }
        ensures valid { IfOk result (λ zone. IsValidZone zone) }
    {
        let Ok(parts) = Parts::open(alloc, size, places) else {
            return Err(memory);
        };
        let words = WordsOf::open_in(alloc, 512 * size.blocks, memory, blank)?;
        Ok(Self::of(number, size, parts, words))
    }

    /// Ends the zone, no words of which may be lent. Memory that its caller gave comes back, and other memory is given back to the system.
    pub fn end(self) -> Option<Row>
        requires { LendsNone self }
        ensures at { option_map (λ row. row.at) result ≡ self.entry.memory }
        ensures count { IfSome result (λ row. length row.words ≡ 512 * self.entry.blocks * self.entry.page_size) }
    {
        let ZoneTables { words, .. } = self;
        words.end()
    }

    /// The empty zone that these make up.
    fn of(number: ZoneNo, size: ZoneSize, parts: Parts, words: WordsOf<W>) -> Self
        requires open { IsZoneSize size }
        requires parts { AreFresh parts size parts.history.room }
        requires words { (length words.rows ≡ 512 * size.blocks) × All (λ row. length row ≡ W) words.rows }
        requires here { NoneLent words }
        ensures { result ≡ record (opened_sized W number size parts.history.room) { memory = memory_of words.entry } }
    {
        let Parts {
            frames,
            tables,
            notes,
            handed_out,
            cleared,
            marks,
            claimed,
            history,
        } = parts;
        ZoneTables {
            number,
            size,
            frames,
            tables,
            words,
            notes,
            moves: Moves::none(),
            handed_out,
            cleared,
            marks,
            apart: false,
            claimed,
            fingers: Fingers::new(),
            history,
        }
    }
}

/// What a zone has but the words of its pages.
#[derive(Drop)]
struct Parts {
    frames: Frames,
    tables: Tables,
    notes: Notes,
    handed_out: HandedOut,
    cleared: Cleared,
    marks: Marks,
    claimed: NumberSet,
    history: History,
}

impl Parts {
    /// Those of an empty zone, or an error where there isn't enough memory for them. No other call takes memory.
    fn open(alloc: Global, size: ZoneSize, places: Option<u32>) -> Result<Parts, AllocError>
        requires open { IsZoneSize size }
        requires places { IfSome places HasPlaces }
        ensures { IfOk result (λ parts. AreFresh parts size (places_of places)) }
    {
        let history = open_history(alloc, places)?;
        let (handed_out, cleared, marks, claimed) = open_blocks(alloc, size.blocks)?;
        let notes = Notes::open(alloc, 512 * size.blocks)?;
        let (frames, tables) = open_frames(alloc, size)?;
        Ok(Parts {
            frames,
            tables,
            notes,
            handed_out,
            cleared,
            marks,
            claimed,
            history,
        })
    }
}

/// The frames, and the tables of the addresses.
fn open_frames(alloc: Global, size: ZoneSize) -> Result<(Frames, Tables), AllocError>
    requires { IsZoneSize size }
    ensures frames { IfOk result (λ opened. opened.0 ≡ all_free size.blocks) }
    ensures tables { IfOk result (λ opened. IsBlank opened.1.entries × (opened.1.frames ≡ 512 * size.blocks)) }
    ensures size { IfOk result (λ opened. opened.1.entries.size ≡ record { spaces = size.spaces; pages = size.vpages }) }
{
    let tables = Tables::open(alloc, size.blocks, size.spaces, size.vpages)?;
    let frames = Frames::open(alloc, size.blocks)?;
    Ok((frames, tables))
}

/// Which blocks are handed out, whether each of them is clear of words of pages, which pageblocks are marked, and which frames are
/// claimed.
fn open_blocks(
    alloc: Global,
    blocks: u32,
) -> Result<(HandedOut, Cleared, Marks, NumberSet), AllocError>
    requires { blocks ≤ 32768 }
    ensures handed_out { IfOk result (λ held. held.0 ≡ replicate (512 * blocks) None) }
    ensures cleared { IfOk result (λ held. held.1 ≡ replicate (512 * blocks) false) }
    ensures marks { IfOk result (λ held. held.2 ≡ replicate blocks false) }
    ensures claimed { IfOk result (λ held. held.3.members ≡ set.empty) }
    ensures room { IfOk result (λ held. 512 * blocks ≤ held.3.bound) }
{
    let frames = 512 * blocks;
    let handed_out = HandedOut::open(alloc, frames)?;
    let cleared = Cleared::open(alloc, frames)?;
    let marks = Marks::none(alloc, blocks)?;
    let claimed = NumberSet::open(alloc, frames)?;
    Ok((handed_out, cleared, marks, claimed))
}

/// A history with no record yet. Its journal keeps its records in so many places, or is unrecorded where that is none.
fn open_history(alloc: Global, places: Option<u32>) -> Result<History, AllocError>
    requires { IfSome places HasPlaces }
    ensures { IfOk result (λ history. history ≡ record { records = []; room = places_of places; round = None }) }
{
    match places {
        Some(places) => History::open(alloc, places),
        None => Ok(History::unrecorded()),
    }
}
