//! Where a color may be in a table, by two places of its key.
//!
//! Colors that share the first place have different second places, unless they are the same.
ghost use Rattle.std.specs.Prelude.{◌≡◌, ◌<◌, length};

use crate::quantization::items::{PLACES, SPREAD, place_of};

/// The index at each place of a color, from 0 to 255.
#[derive(Drop)]
pub(crate) struct Hints {
    first: [u8; PLACES],
    second: [u8; PLACES],
    ghost long_first: { length first ≡ 4096 },
    ghost long_second: { length second ≡ 4096 },
}

impl Hints {
    ghost use Rattle.std.specs.Prelude.{◌<◌};

    /// Makes hints of index 0 alone.
    pub(crate) fn new() -> Hints {
        Hints {
            first: [0; PLACES],
            second: [0; PLACES],
        }
    }

    /// Returns the indices at the two places of a key.
    #[inline(always)]
    pub(crate) fn of(&self, key: u32) -> (usize, usize) {
        let first = usize::from(self.first[place_of(key)]);
        (first, usize::from(self.second[second_place_of(key)]))
    }

    /// Sets the index at both places of a key.
    #[inline(always)]
    pub(crate) fn set(&mut self, key: u32, at: usize)
        requires { at < 256 }
    {
        self.first[place_of(key)] = at as u8;
        self.second[second_place_of(key)] = at as u8;
    }
}

/// Returns the second place, one of 4,096, of the color of a key.
#[inline(always)]
fn second_place_of(key: u32) -> usize
    ensures { result < 4096 }
{
    (key.wrapping_mul(SPREAD) / 256 % 4096) as usize
}
