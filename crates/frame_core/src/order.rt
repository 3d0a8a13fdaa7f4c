ghost use Rattle.std.specs.Prelude.{◌≡◌, ℕ, ◌^◌, ◌<◌, ◌≤◌, ◌↔◌, IsSome, IfSome};

use std::marker::Model;

/// The order of a block of frames, 3 to 9: a block of order k is 2^k frames, and its first frame is a multiple of 2^k.
#[derive(Clone, Copy, Debug, PartialEq, Eq, PartialOrd, Ord, Hash)]
pub struct Order {
    number: u8,
}

impl Model for Order {
    ghost Value = { ℕ };

    ghost view = { λ n. n.number };

    ghost invariant = { λ n. (3 ≤ n.number) × (n.number ≤ 9) };

    ghost inverse = { λ n. record { number = n } };
}

impl Order {
    /// The number as one of 3 to 9. None where it is out of this range.
    pub fn new(number: u32) -> Option<Self>
        ensures valid { IsSome result ↔ ((3 ≤ number) × (number ≤ 9)) }
        ensures value { IfSome result (λ n. n ≡ number) }
    {
        if number >= 3 && number <= 9 {
            Some(Order {
                number: number as u8,
            })
        } else {
            None
        }
    }

    /// The order of a pageblock, 9.
    pub fn of_pageblock() -> Self
        ensures { result ≡ 9 }
    {
        Order { number: 9 }
    }

    /// The number, 3 to 9.
    pub fn get(self) -> u32
        ensures value { result ≡ self }
        ensures low { 3 ≤ result }
        ensures high { result ≤ 9 }
    {
        u32::from(self.number)
    }

    /// How many frames a block of this order has: 8 to 512, since an order is 3 to 9.
    pub fn frames(self) -> u32
        ensures value { result ≡ 2 ^ self }
        ensures low { 3 ≤ self }
        ensures high { self ≤ 9 }
    {
        match self.number {
            3 => 8,
            4 => 16,
            5 => 32,
            6 => 64,
            7 => 128,
            8 => 256,
            _ => 512,
        }
    }
}
