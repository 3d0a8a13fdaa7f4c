ghost use Rattle.std.specs.Prelude.{◌≡◌, ℕ, ◌<◌, ◌≤◌, ◌↔◌, IsSome, IfSome};

use std::marker::Model;

/// A word's number in a page of `W` words.
#[derive(Clone, Copy, Debug, PartialEq, Eq, PartialOrd, Ord, Hash)]
pub struct WordNo<const W: usize> {
    word: u16,
}

impl<const W: usize> Model for WordNo<W> {
    ghost Value = { ℕ };

    ghost view = { λ n. n.word };

    ghost invariant = { λ n. n.word < W };

    ghost inverse = { λ n. record { word = n } };
}

impl<const W: usize> WordNo<W> {
    /// The number as one of those below `W`, which is at most 65,536. None where it is out of this range.
    pub fn new(number: u32) -> Option<Self>
        requires { W ≤ 65536 }
        ensures valid { IsSome result ↔ (number < W) }
        ensures value { IfSome result (λ n. n ≡ number) }
    {
        if (number as usize) < W {
            Some(WordNo {
                word: number as u16,
            })
        } else {
            None
        }
    }

    /// The number, below `W`.
    pub fn get(self) -> u32
        ensures value { result ≡ self.entry }
        ensures range { result < W }
    {
        u32::from(self.word)
    }

    /// The number, as a record has it.
    pub fn noted(self) -> u16
        ensures value { result ≡ self.entry }
        ensures range { result < W }
    {
        self.word
    }
}

const PAGES: u32 = 4096;

const MOST_PAGES: u32 = 16777216;

/// A page's number in its zone: 0 to 4095 in a zone of 8 pageblocks, which is the largest that a script opens, and 0 to 16,777,215 in any.
#[derive(Clone, Copy, Debug, PartialEq, Eq, PartialOrd, Ord, Hash)]
pub struct PageNo {
    page: u32,
}

impl Model for PageNo {
    ghost Value = { ℕ };

    ghost view = { λ n. n.page };

    ghost invariant = { λ n. n.page < 16777216 };

    ghost inverse = { λ n. record { page = n } };
}

impl PageNo {
    /// The number as one of 0 to 4095. None where it is out of this range.
    pub fn new(number: u32) -> Option<Self>
        ensures valid { IsSome result ↔ (number < 4096) }
        ensures value { IfSome result (λ n. n ≡ number) }
    {
        if number < PAGES {
            Some(PageNo { page: number })
        } else {
            None
        }
    }

    /// The number as one of 0 to 16,777,215. None where it is out of this range.
    pub fn in_any_zone(number: u32) -> Option<Self>
        ensures valid { IsSome result ↔ (number < 16777216) }
        ensures value { IfSome result (λ n. n ≡ number) }
    {
        if number < MOST_PAGES {
            Some(PageNo { page: number })
        } else {
            None
        }
    }

    /// The number, 0 to 16,777,215.
    pub fn get(self) -> u32
        ensures value { result ≡ self }
        ensures range { result < 16777216 }
    {
        self.page
    }
}

const CLIENTS: u32 = 8;

/// A client's number, 0 to 7.
#[derive(Clone, Copy, Debug, PartialEq, Eq, PartialOrd, Ord, Hash)]
pub struct ClientNo {
    client: u8,
}

impl Model for ClientNo {
    ghost Value = { ℕ };

    ghost view = { λ n. n.client };

    ghost invariant = { λ n. n.client < 8 };

    ghost inverse = { λ n. record { client = n } };
}

impl ClientNo {
    /// The number as one of 0 to 7. None where it is out of this range.
    pub fn new(number: u32) -> Option<Self>
        ensures valid { IsSome result ↔ (number < 8) }
        ensures value { IfSome result (λ n. n ≡ number) }
    {
        if number < CLIENTS {
            Some(ClientNo {
                client: number as u8,
            })
        } else {
            None
        }
    }

    /// The number, 0 to 7.
    pub fn get(self) -> u32
        ensures value { result ≡ self }
        ensures range { result < 8 }
    {
        u32::from(self.client)
    }
}
