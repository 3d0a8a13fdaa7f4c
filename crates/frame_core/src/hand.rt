ghost use Rattle.std.specs.Prelude.{◌≡◌, ℕ, ◌<◌, ◌≤◌, ◌↔◌, IsSome, IfSome};

use std::marker::Model;

/// The number of a hand, 1 to 4. A hand takes isolated pages from a zone, copies them and brings them back.
#[derive(Clone, Copy, Debug, PartialEq, Eq, PartialOrd, Ord, Hash)]
pub struct HandNo {
    hand: u8,
}

impl Model for HandNo {
    ghost Value = { ℕ };

    ghost view = { λ n. n.hand };

    ghost invariant = { λ n. (0 < n.hand) × (n.hand ≤ 4) };

    ghost inverse = { λ n. record { hand = n } };
}

impl HandNo {
    /// The number as one of 1 to 4. None where it is out of this range.
    pub fn new(number: u32) -> Option<Self>
        ensures valid { IsSome result ↔ ((0 < number) × (number ≤ 4)) }
        ensures value { IfSome result (λ n. n ≡ number) }
    {
        if number > 0 && number <= 4 {
            Some(HandNo { hand: number as u8 })
        } else {
            None
        }
    }

    /// The number, 1 to 4.
    pub fn get(self) -> u32
        ensures value { result ≡ self }
        ensures low { 0 < result }
        ensures high { result ≤ 4 }
    {
        u32::from(self.hand)
    }
}
