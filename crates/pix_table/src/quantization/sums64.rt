//! Sums of colors that are not too many for 64 bits.
ghost use Rattle.std.specs.Prelude.{◌≡◌, ◌+◌, ◌*◌, ◌<◌, ◌≤◌};
ghost use Rattle.pix_table.specs.matching.Nearest.{numbers};
ghost use Rattle.pix_table.specs.quantization.BestPlaces.{AreBytes};

use crate::color::Color;
use crate::quantization::box_sums::Sums;

/// So many items, of which none stands more than 65,535 times, have sums of 64 bits.
pub(crate) const FIT: usize = 1 << 40;

/// How many colors there are, and the sums of their numbers in each channel.
// Sums of 64 bits take less time than those of 128.
#[derive(Clone, Copy)]
pub(crate) struct Sums64 {
    count: u64,
    red: u64,
    green: u64,
    blue: u64,
}

impl Sums64 {
    /// Returns the sums of no colors.
    pub(crate) fn none() -> Sums64
        ensures count { result.count ≡ 0 }
        ensures red { result.red ≡ 0 }
        ensures green { result.green ≡ 0 }
        ensures blue { result.blue ≡ 0 }
    {
        Sums64 {
            count: 0,
            red: 0,
            green: 0,
            blue: 0,
        }
    }

    /// Returns the sums with a color more, which stands so often.
    #[inline(always)]
    pub(crate) fn with(self, clr: Color, times: u16) -> Sums64
        requires few { self.count + times ≤ 72056494526300160 }
        requires red { self.red ≤ 255 * self.count }
        requires green { self.green ≤ 255 * self.count }
        requires blue { self.blue ≤ 255 * self.count }
        ensures count { result.count ≡ self.count + times }
        ensures red { result.red ≡ self.red + times * clr.red }
        ensures green { result.green ≡ self.green + times * clr.green }
        ensures blue { result.blue ≡ self.blue + times * clr.blue }
        ensures bytes { AreBytes (numbers clr) }
    {
        let count = u32::from(times);
        Sums64 {
            count: self.count + u64::from(times),
            red: self.red + u64::from(count * u32::from(clr.red)),
            green: self.green + u64::from(count * u32::from(clr.green)),
            blue: self.blue + u64::from(count * u32::from(clr.blue)),
        }
    }

    /// Returns these sums in the words that the sums of any number of colors need.
    pub(crate) fn sums(self) -> Sums
        ensures count { result.count ≡ self.count }
        ensures red { result.red ≡ self.red }
        ensures green { result.green ≡ self.green }
        ensures blue { result.blue ≡ self.blue }
    {
        Sums {
            count: self.count as usize,
            red: u128::from(self.red),
            green: u128::from(self.green),
            blue: u128::from(self.blue),
        }
    }
}
