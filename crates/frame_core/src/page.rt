use crate::flags::PageFlags;
use crate::numbers::{PageNo, WordNo as WordOf};
use crate::place::ZoneNo;
use bitflags::Flags;
use std::marker::Model;

/// A page of a zone, of `W` words: its number, its flags and its words.
#[derive(Drop, Debug)]
pub struct Page<const W: usize> {
    words: [u64; W],
    number: PageNo,
    zone: ZoneNo,
    flags: PageFlags,
}

impl<const W: usize> Model for Page<W> {
    ghost use Rattle.std.specs.Prelude.{◌≡◌, length};
    ghost use Rattle.frame_core.specs.Page.{Page as Seen};

    ghost Value = { Seen };

    ghost view = { λ p. record { zone = p.zone; number = p.number; flags = p.flags; words = p.words } };

    ghost invariant = { λ p. length p.words ≡ W };
}

/// A blank page: page 0 of zone 0, with no flags, and all its words 0. It fills the empty places of a list whose capacity
/// is fixed.
impl<const W: usize> Default for Page<W> {
    ghost use Rattle.std.specs.Prelude.{◌≡◌};
    ghost use Rattle.frame_core.specs.Page.{blank_page};

    ghost is_default = { λ p. p ≡ blank_page W 0 0 };

    fn default() -> Self {
        let Some(zone) = ZoneNo::new(0) else {
            unreachable!()
        };
        let Some(number) = PageNo::new(0) else {
            unreachable!()
        };
        Page::new(zone, number)
    }
}

impl<const W: usize> Page<W> {
    ghost use Rattle.std.specs.Prelude.{◌≡◌, slice_index, slice_set, length};
    ghost use Rattle.frame_core.specs.Page.{blank_page};

    /// The page with no flags, and all its words 0.
    pub fn new(zone: ZoneNo, number: PageNo) -> Self
        ensures { result ≡ blank_page W zone number }
    {
        Page {
            zone,
            number,
            flags: PageFlags::empty(),
            words: [0; W],
        }
    }

    /// The number of its zone.
    pub fn zone(&self) -> ZoneNo
        ensures { result ≡ self.now.zone }
    {
        self.zone
    }

    /// Its number in its zone.
    pub fn number(&self) -> PageNo
        ensures { result ≡ self.now.number }
    {
        self.number
    }

    /// Its flags.
    pub fn flags(&self) -> PageFlags
        ensures { result ≡ self.now.flags }
    {
        self.flags
    }

    /// Gives it these flags in place of those that it has.
    pub fn set_flags(&mut self, flags: PageFlags)
        ensures { self.new ≡ record self.old { flags = flags } }
    {
        self.flags = flags;
    }

    /// The value of one of its words.
    pub fn word(&self, word: WordOf<W>) -> u64
        ensures { result ≡ slice_index self.now.words word.entry }
    {
        self.words[word.get() as usize]
    }

    /// Gives one of its words another value.
    pub fn set_word(&mut self, word: WordOf<W>, value: u64)
        ensures { self.new ≡ record self.old { words = slice_set self.old.words word.entry value } }
    {
        self.words[word.get() as usize] = value;
    }

    /// Copies the flags and each word into a new page. The copy has the same zone and number.
    pub fn copy_into_new(self) -> Page<W>
        ensures { result ≡ self.entry }
    {
        let mut words = [0; W];
        for word in 0..W {
            words[word] = self.words[word];
        }
        Page {
            zone: self.zone,
            number: self.number,
            flags: self.flags,
            words,
        }
    }

    /// Its words.
    pub fn words(&self) -> &[u64; W]
        ensures value { result.now ≡ self.now.words }
        ensures size { length result.now ≡ W }
    {
        &self.words
    }

    /// The page with these flags and words.
    pub fn carrying(zone: ZoneNo, number: PageNo, flags: PageFlags, words: [u64; W]) -> Self
        ensures { result ≡ record { zone = zone; number = number; flags = flags; words = words.entry } }
    {
        Page {
            words,
            number,
            zone,
            flags,
        }
    }
}
