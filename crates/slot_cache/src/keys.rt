//! The keys that are requested.

use crate::trouble::Trouble;
use rand_core::Rng;
use rand_pcg::Pcg32;
use zone_core::{Address, SpaceNo, VPage};

/// One more than the highest key.
pub const KEYS: u32 = 32768;

const VPAGES: u32 = 4096;

/// Draws keys from a fixed seed. A key is drawn about twice as often as one that is twice as high.
#[derive(Drop)]
pub struct Keys {
    draws: Pcg32,
}

impl Keys {
    pub fn new() -> Self {
        Keys {
            draws: Pcg32::new(3, 11),
        }
    }

    /// Draws one of the ranges from 2^k to 2^(k+1), and then a key of this range.
    pub fn draw(&mut self) -> u32 {
        let range = 1u32 << (self.draws.next_u32() % 15);
        range + self.draws.next_u32() % range
    }
}

/// The address at which the object of a key stands while it is in the cache.
pub fn address_of(key: u32) -> Result<Address, Trouble> {
    Ok(Address {
        space: SpaceNo::new(key / VPAGES).ok_or(Trouble::Range)?,
        vpage: VPage::new(key % VPAGES).ok_or(Trouble::Range)?,
    })
}
