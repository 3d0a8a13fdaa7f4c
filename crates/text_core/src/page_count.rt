ghost use Rattle.std.specs.Prelude.{◌≡◌, ℕ, ◌≤◌, ◌↔◌, IsSome, IfSome};

use std::marker::Model;

const PAGES: u32 = 4096;

/// The number of pages that a series of calls is for, 0 to 4096.
#[derive(Clone, Copy, Debug)]
pub struct PageCount {
    count: u16,
}

impl Model for PageCount {
    ghost Value = { ℕ };

    ghost view = { λ n. n.count };

    ghost invariant = { λ n. n.count ≤ 4096 };

    ghost inverse = { λ n. record { count = n } };
}

impl PageCount {
    /// The number as one of 0 to 4096. None where it is out of this range.
    pub fn new(number: u32) -> Option<Self>
        ensures valid { IsSome result ↔ (number ≤ 4096) }
        ensures value { IfSome result (λ n. n ≡ number) }
    {
        if number <= PAGES {
            Some(PageCount {
                count: number as u16,
            })
        } else {
            None
        }
    }

    /// The number, 0 to 4096.
    pub fn get(self) -> u32
        ensures value { result ≡ self }
        ensures range { result ≤ 4096 }
    {
        u32::from(self.count)
    }
}
