ghost use Rattle.std.specs.Prelude.{◌≡◌, ◌*◌, ◌+◌, ◌/◌, ◌%◌, ◌<◌, ◌^◌};

use std::marker::Model;

const NUMBERS: u32 = 16777216;

/// A number below 2^24, as that of a frame or of a page, and a tag of one byte beside it. Both take four bytes together.
#[derive(Clone, Copy, Debug, PartialEq, Eq)]
pub struct Tagged {
    bits: u32,
}

impl Model for Tagged {
    ghost use Rattle.frame_core.specs.Tagged.{Tagged as Seen};

    ghost Value = { Seen };

    ghost use Rattle.std.specs.Prelude.{◌*◌, ◌+◌, ◌/◌, ◌%◌, ◌<◌, ◌^◌};

    ghost view = { λ t. record { number = t.bits % 16777216; tag = t.bits / 16777216 } };

    ghost invariant = { λ t. t.bits < 2 ^ 32 };

    ghost inverse = { λ t. record { bits = t.tag * 16777216 + t.number } };
}

impl Tagged {
    /// The number with the tag beside it.
    #[inline(always)]
    pub fn new(number: u32, tag: u8) -> Self
        requires { number < 16777216 }
        ensures { result ≡ record { number = number; tag = tag } }
    {
        Tagged {
            bits: u32::from(tag) * NUMBERS + number,
        }
    }

    /// The number.
    #[inline(always)]
    pub fn number(self) -> u32
        ensures value { result ≡ self.number }
        ensures range { result < 16777216 }
    {
        self.bits % NUMBERS
    }

    /// The tag.
    #[inline(always)]
    pub fn tag(self) -> u8
        ensures { result ≡ self.tag }
    {
        (self.bits / NUMBERS) as u8
    }
}
