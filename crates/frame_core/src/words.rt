ghost use Rattle.std.specs.Prelude.{◌≡◌, ◌≢◌, ◌<◌, ◌≤◌, ◌+◌, ◌*◌, ◌↔◌, ℕ, List, true, false, length, replicate, is_some, IfSome, IfOk, IfErr, IsTrue};
ghost use Rattle.std.specs.Fn.{FnOnceTakesAtMut, FnOnceReturnsAtMut};
ghost use Rattle.std.specs.List.{All};
ghost use Rattle.frame_core.specs.FrameSet.{has_frame, HasEach, HasNow};
ghost use Rattle.frame_core.specs.LentWords.{IsHere, LentStays, NoneLent, place_of, with_rows};
ghost use Rattle.frame_core.specs.Page.{blank_words};
ghost use Rattle.frame_core.specs.Words.{words_of, word_of, words_from, with_words, with_word, put_from, block_words, rows_of, HasBlock};

use crate::flags::PageFlags;
use crate::frame_set::FrameSet;
use crate::numbers::{PageNo, WordNo as WordOf};
use crate::page::Page;
use crate::place::{FrameNo, ZoneNo};
use row_core::{Ground, Row};
use std::alloc::{AllocError, Global};
use std::marker::Model;

/// The words of a zone's frames: first those of frame 0, then those of frame 1, and so on.
#[derive(Drop)]
pub struct Words<const W: usize> {
    frames: u32,
    ground: Ground,
    blank_frames: FrameSet,
    lent_frames: FrameSet,
}

impl<const W: usize> Model for Words<W> {
    ghost use Rattle.std.specs.Prelude.{◌≡◌, ◌*◌, ◌≤◌, length};
    ghost use Rattle.frame_core.specs.BlankFrames.{AreBlank};
    ghost use Rattle.frame_core.specs.LentInside.{here_of};
    ghost use Rattle.frame_core.specs.LentWords.{Words as Seen, words_code};
    ghost use Rattle.frame_core.specs.Words.{rows_of};

    ghost Value = { Seen };

    ghost coded = { words_code };

    ghost view = { λ w. record { at = w.ground.at; rows = rows_of W w.frames w.ground.words; lent = w.lent_frames; given = w.ground.given } };

    ghost invariant = { λ w. (W ≤ 65536) × (length w.ground.words ≡ w.frames * W) × (w.ground.here ≡ here_of W w.lent_frames) × (length w.blank_frames ≡ w.frames) × AreBlank W w.blank_frames (rows_of W w.frames w.ground.words) × (length w.lent_frames ≡ w.frames) };
}

impl<const W: usize> Words<W> {
    /// Takes the memory for the words of this many frames, or answers an error where there isn't enough. No other call takes any.
    pub fn open(alloc: Global, frames: u32) -> Result<Self, AllocError>
        requires { W ≤ 65536 }
        ensures blank { IfOk result (λ words. words.rows ≡ replicate frames (blank_words W)) }
        ensures frames { IfOk result (λ words. length words.rows ≡ frames) }
        ensures here { IfOk result NoneLent }
        ensures own { IfOk result (λ words. words.given ≡ false) }
    {
        let ground = Ground::open(alloc, frames as usize * W)?;
        let (blank_frames, lent_frames) = open_sets(alloc, frames, true)?;
        Ok(Words {
            frames,
            ground,
            blank_frames,
            lent_frames,
        })
    }

    /// Takes the words of this many frames in memory that is given, which is `blank` if all its words are known to be 0. Where there
    /// is no memory for the sets of frames, the row comes back. No other call takes any.
    pub fn open_in(alloc: Global, frames: u32, memory: Row, blank: bool) -> Result<Self, Row>
        requires size { W ≤ 65536 }
        requires count { length memory.words ≡ frames * W }
        requires blank { IsTrue blank → memory.words ≡ replicate (length memory.words) 0 }
        ensures rows { IfOk result (λ words. words.rows ≡ rows_of W frames memory.words) }
        ensures frames { IfOk result (λ words. length words.rows ≡ frames) }
        ensures here { IfOk result NoneLent }
        ensures at { IfOk result (λ words. (words.at ≡ memory.at) × (words.given ≡ true)) }
        ensures sized { IfOk result (λ words. All (λ row. length row ≡ W) words.rows) }
        ensures refused { IfErr result (λ row. row ≡ memory) }
    {
        let Ok((blank_frames, lent_frames)) = open_sets(alloc, frames, blank) else {
            return Err(memory);
        };
        Ok(Words {
            frames,
            ground: Ground::over(memory),
            blank_frames,
            lent_frames,
        })
    }

    /// Ends the words, none of which may be lent. Memory that was given comes back, and other memory is given back to the system.
    pub fn end(self) -> Option<Row>
        requires { NoneLent self }
        ensures given { is_some result ≡ self.entry.given }
        ensures at { IfSome result (λ row. row.at ≡ self.entry.at) }
        ensures count { IfSome result (λ row. length row.words ≡ length self.entry.rows * W) }
        ensures rows { IfSome result (λ row. rows_of W (length self.entry.rows) row.words ≡ self.entry.rows) }
    {
        let Words { ground, .. } = self;
        ground.end()
    }

    /// Whether the words lie in memory that was given.
    pub fn is_given(&self) -> bool
        ensures { result ≡ self.now.given }
    {
        self.ground.is_given()
    }

    /// How many words a page has.
    pub fn page_words(&self) -> usize
        ensures { result ≡ W }
    {
        W
    }

    /// The value of a word of a frame. The frame has to be one of those that the memory was taken for, here and in each call below.
    pub fn load(&self, frame: FrameNo, word: WordOf<W>) -> u64
        requires frame { frame < length self.now.rows }
        requires here { IsHere self.now frame 1 }
        ensures value { result ≡ word_of self.now.rows frame word.entry }
        ensures in_range { word.entry < W }
    {
        self.row(frame)[word.get() as usize]
    }

    /// Gives a word of a frame another value.
    pub fn store(&mut self, frame: FrameNo, word: WordOf<W>, value: u64)
        requires frame { frame < length self.old.rows }
        requires here { IsHere self.old frame 1 }
        ensures stored { self.new ≡ with_rows self.old (with_word self.old.rows frame word.entry value) }
        ensures in_range { word.entry < W }
        ensures frames { length self.new.rows ≡ length self.old.rows }
    {
        self.store_block(frame, 1, word.get() as usize, &[value]);
    }

    /// The values of the words of a frame from one on, as many as there is room for.
    pub fn load_words(&self, frame: FrameNo, from: usize, values: &mut [u64])
        requires frame { frame < length self.now.rows }
        requires here { IsHere self.now frame 1 }
        requires within { from + length values.old ≤ W }
        ensures values { values.new ≡ words_from self.now.rows frame from (length values.old) }
        ensures most { W ≤ 65536 }
    {
        values.copy_from_slice(&self.row(frame)[from..from + values.len()]);
    }

    /// Gives the words of a frame from one on these values.
    pub fn store_words(&mut self, frame: FrameNo, from: usize, values: &[u64])
        requires frame { frame < length self.old.rows }
        requires here { IsHere self.old frame 1 }
        requires within { from + length values.now ≤ W }
        ensures stored { self.new ≡ with_rows self.old (with_words self.old.rows frame (put_from (words_of self.old.rows frame) from values.now)) }
        ensures most { W ≤ 65536 }
        ensures frames { length self.new.rows ≡ length self.old.rows }
    {
        self.store_block(frame, 1, from, values);
    }

    /// Sets all words of the frame to 0. A frame that is known to be blank isn't written.
    pub fn blank(&mut self, frame: FrameNo)
        requires frame { frame < length self.old.rows }
        requires here { IsHere self.old frame 1 }
        ensures blank { self.new ≡ with_rows self.old (with_words self.old.rows frame (blank_words W)) }
        ensures frames { length self.new.rows ≡ length self.old.rows }
    {
        if !self.blank_frames.contains(frame) {
            self.blank_block(frame, 1);
            self.blank_frames.insert(frame);
        }
    }

    /// The words of so many frames, from a first one on, one after the other.
    pub fn block(&self, first: FrameNo, frames: u32) -> &[u64]
        requires frames { first + frames ≤ length self.now.rows }
        requires here { IsHere self.now first frames }
        ensures words { result.now ≡ block_words self.now.rows first frames }
        ensures count { length result.now ≡ frames * W }
        ensures most { W ≤ 65536 }
    {
        let ground = &self.ground;
        ground.part(first.get() as usize * W, frames as usize * W)
    }

    /// Lends the words of so many frames, one after the other, to `change`, and gives what it answers.
    pub fn with_block<R, F: FnOnce(&mut [u64]) -> R>(
        &mut self,
        first: FrameNo,
        frames: u32,
        change: F,
    ) -> R
        requires frames { first + frames ≤ length self.old.rows }
        requires here { IsHere self.old first frames }
        requires callable { FnOnceTakesAtMut F.FnOnce change (block_words self.old.rows first frames) }
        ensures changed { (words : List ℕ) × (length words ≡ frames * W) × FnOnceReturnsAtMut F.FnOnce change (block_words self.old.rows first frames) result words × HasBlock self.old.rows self.new.rows first frames words }
        ensures sized { All (λ row. length row ≡ W) self.new.rows }
        ensures lent { LentStays self.old self.new }
    {
        self.blank_frames.remove_block(first, frames);
        let ground = &mut self.ground;
        ground.with(first.get() as usize * W, frames as usize * W, change)
    }

    /// Gives the words of so many frames, one after the other, from one on these values.
    pub fn store_block(&mut self, first: FrameNo, frames: u32, from: usize, values: &[u64])
        requires frames { first + frames ≤ length self.old.rows }
        requires here { IsHere self.old first frames }
        requires within { from + length values.now ≤ frames * W }
        ensures stored { HasBlock self.old.rows self.new.rows first frames (put_from (block_words self.old.rows first frames) from values.now) }
        ensures count { length (block_words self.old.rows first frames) ≡ frames * W }
        ensures most { W ≤ 65536 }
        ensures sized { All (λ row. length row ≡ W) self.new.rows }
        ensures lent { LentStays self.old self.new }
    {
        self.blank_frames.remove_block(first, frames);
        let ground = &mut self.ground;
        ground.store(first.get() as usize * W + from, values);
    }

    /// Sets all words of so many frames to 0.
    pub fn blank_block(&mut self, first: FrameNo, frames: u32)
        requires frames { first + frames ≤ length self.old.rows }
        requires here { IsHere self.old first frames }
        ensures blank { HasBlock self.old.rows self.new.rows first frames (replicate (frames * W) 0) }
        ensures sized { All (λ row. length row ≡ W) self.new.rows }
        ensures lent { LentStays self.old self.new }
    {
        self.blank_frames.remove_block(first, frames);
        let ground = &mut self.ground;
        ground.clear(first.get() as usize * W, frames as usize * W);
    }

    /// Whether the words of a frame are lent.
    pub fn is_lent(&self, frame: FrameNo) -> bool
        requires { frame < length self.now.rows }
        ensures { result ≡ has_frame self.now.lent frame }
    {
        self.lent_frames.contains(frame)
    }

    /// Whether the words of no frame are lent. It looks at each frame.
    pub fn lends_none(&self) -> bool
        ensures { IsTrue result ↔ NoneLent self.now }
    {
        self.lent_frames.is_empty()
    }

    /// Lends the words of so many frames, from a first one on, as a row. Nothing is copied. Where the row is dropped, they stay lent.
    pub fn lend_block(&mut self, first: FrameNo, frames: u32) -> Row
        requires frames { first + frames ≤ length self.old.rows }
        requires here { IsHere self.old first frames }
        ensures row { (result.at ≡ place_of W self.old first) × (result.words ≡ block_words self.old.rows first frames) }
        ensures count { length result.words ≡ frames * W }
        ensures lent { HasNow self.old.lent self.new.lent first frames true }
        ensures rows { self.new.rows ≡ self.old.rows }
        ensures at { (self.new.at ≡ self.old.at) × (self.new.given ≡ self.old.given) }
    {
        self.lent_frames.insert_block(first, frames);
        let ground = &mut self.ground;
        ground.lend(first.get() as usize * W, frames as usize * W)
    }

    /// Takes the row of so many frames back, which begins at the words of the first one.
    pub fn take_block_back(&mut self, first: FrameNo, frames: u32, row: Row)
        requires frames { first + frames ≤ length self.old.rows }
        requires place { row.at ≡ place_of W self.old first }
        requires count { length row.words ≡ frames * W }
        ensures rows { HasBlock self.old.rows self.new.rows first frames row.words }
        ensures lent { HasNow self.old.lent self.new.lent first frames false }
        ensures was_lent { 0 < W → HasEach self.old.lent first frames true }
        ensures at { (self.new.at ≡ self.old.at) × (self.new.given ≡ self.old.given) }
        ensures sized { All (λ row. length row ≡ W) self.new.rows }
    {
        self.blank_frames.remove_block(first, frames);
        self.lent_frames.remove_block(first, frames);
        let ground = &mut self.ground;
        ground.take_back(first.get() as usize * W, row);
    }

    /// The page in a frame: its words with this zone, number and flags.
    #[inline(always)]
    pub fn read_out(
        &self,
        frame: FrameNo,
        zone: ZoneNo,
        number: PageNo,
        flags: PageFlags,
    ) -> Page<W>
        requires frame { frame < length self.now.rows }
        requires here { IsHere self.now frame 1 }
        ensures { result ≡ record { zone = zone; number = number; flags = flags; words = words_of self.now.rows frame } }
    {
        let mut words = [0; W];
        words.copy_from_slice(self.row(frame));
        Page::carrying(zone, number, flags, words)
    }

    /// Whether the frame holds the page's words.
    pub fn same(&self, frame: FrameNo, page: &Page<W>) -> bool
        requires frame { frame < length self.now.rows }
        requires here { IsHere self.now frame 1 }
        ensures { IsTrue result ↔ (words_of self.now.rows frame ≡ page.now.words) }
    {
        let row = self.row(frame);
        let words = page.words();
        let mut same = true;
        // With no early return, words are compared many at once.
        for word in 0..W {
            same &= row[word] == words[word];
        }
        same
    }

    /// Copies the page's words into the frame.
    pub fn write_in(&mut self, frame: FrameNo, page: &Page<W>)
        requires frame { frame < length self.old.rows }
        requires here { IsHere self.old frame 1 }
        ensures written { self.new ≡ with_rows self.old (with_words self.old.rows frame page.now.words) }
        ensures frames { length self.new.rows ≡ length self.old.rows }
        ensures size { length page.now.words ≡ W }
    {
        self.store_block(frame, 1, 0, page.words());
    }

    /// Copies the words of a frame into another one, in one pass.
    pub fn copy(&mut self, from: FrameNo, to: FrameNo)
        requires apart { from ≢ to }
        requires source { (from < length self.old.rows) × IsHere self.old from 1 }
        requires target { (to < length self.old.rows) × IsHere self.old to 1 }
        ensures copied { self.new ≡ with_rows self.old (with_words self.old.rows to (words_of self.old.rows from)) }
        ensures frames { length self.new.rows ≡ length self.old.rows }
    {
        self.blank_frames.remove_block(to, 1);
        let ground = &mut self.ground;
        ground.copy_within(from.get() as usize * W, to.get() as usize * W, W);
    }

    fn row(&self, frame: FrameNo) -> &[u64]
        requires frame { frame < length self.now.rows }
        requires here { IsHere self.now frame 1 }
        ensures value { result.now ≡ words_of self.now.rows frame }
        ensures size { length result.now ≡ W }
        ensures most { W ≤ 65536 }
    {
        self.block(frame, 1)
    }
}

/// The set of the frames that are known to be blank, which are all or none, and the set of those that are lent, which are none.
fn open_sets(alloc: Global, frames: u32, blank: bool) -> Result<(FrameSet, FrameSet), AllocError>
    ensures { IfOk result (λ sets. (sets.0 ≡ replicate frames blank) × (sets.1 ≡ replicate frames false)) }
{
    let blank_frames = FrameSet::open(alloc, frames, blank)?;
    let lent_frames = FrameSet::open(alloc, frames, false)?;
    Ok((blank_frames, lent_frames))
}
