//! The levels of gray of some colors, and sums of them.
ghost use Rattle.std.specs.Prelude.{◌≡◌, ℕ, ◌<◌, All, count_by, length, nat_eq, slice_index};

use crate::color::Color;
use crate::quantization::box_sums::quotient;
use crate::quantization::gray_error::error_to;

/// The levels of gray that some colors have, from the brightest to the darkest, and how many of the
/// colors have each.
#[derive(Drop)]
pub(crate) struct Levels {
    pub(crate) values: [u8; 256],
    pub(crate) counts: [usize; 256],
    pub(crate) len: usize,
    ghost long_values: { length values ≡ 256 },
    ghost long_counts: { length counts ≡ 256 },
}

impl Levels {
    ghost use Rattle.std.specs.Prelude.{◌<◌, ◌+◌, slice_set};
    ghost use Rattle.pix_table.specs.quantization.GrayLevels.{AreLevels, AreLevelsOf, values as value_at};
    ghost use Rattle.pix_table.specs.quantization.GrayLevels.{weights};

    /// Returns the levels of the red channel of some colors.
    pub(crate) fn of(colors: &[Color]) -> Levels
        ensures levels { AreLevels (weights result) (value_at result) result.len }
        ensures of { AreLevelsOf (weights result) (value_at result) result.len colors.now }
    {
        let every = count_levels(colors);
        let mut levels = Levels {
            values: [0; 256],
            counts: [0; 256],
            len: 0,
        };
        for i in 0..256 {
            let value = 255 - i;
            let count = every[value];
            if 0 < count {
                levels.push(value as u8, count);
            }
        }
        levels
    }

    /// Adds a level.
    fn push(&mut self, value: u8, count: usize)
        requires { self.old.len < 256 }
        ensures values { self.new.values ≡ slice_set self.old.values self.old.len value }
        ensures counts { self.new.counts ≡ slice_set self.old.counts self.old.len count }
        ensures len { self.new.len ≡ self.old.len + 1 }
    {
        self.values[self.len] = value;
        self.counts[self.len] = count;
        self.len += 1;
    }
}

/// Returns how many of some colors have each level of red.
fn count_levels(colors: &[Color]) -> [usize; 256]
    ensures long { length result ≡ 256 }
    ensures each { (v : ℕ) → v < 256
        → slice_index result v ≡ count_by (λ color. nat_eq color.red v) colors.now }
    ensures bytes { All (λ color. color.red < 256) colors.now }
    ensures fit { length colors.now < 18446744073709551616 }
{
    let mut counts = [0; 256];
    for i in 0..colors.len() {
        let level = level_of(colors[i]);
        counts[level] += 1;
    }
    counts
}

/// Returns the red of a color.
fn level_of(clr: Color) -> usize
    ensures red { result ≡ clr.red }
    ensures byte { result < 256 }
{
    usize::from(clr.red)
}

/// Of the levels before each: how many colors have one of them, the sum of their numbers, and that
/// of the squares of these.
#[derive(Drop)]
pub(crate) struct LevelSums {
    counts: [usize; 257],
    sums: [u128; 257],
    squares: [u128; 257],
    ghost long_counts: { length counts ≡ 257 },
    ghost long_sums: { length sums ≡ 257 },
    ghost long_squares: { length squares ≡ 257 },
}

impl LevelSums {
    ghost use Rattle.pix_table.specs.quantization.GrayLevels.{AreBetween, AreLevels, AreSumsOf};
    ghost use Rattle.pix_table.specs.quantization.GrayLevels.{error_of, mean_of};
    ghost use Rattle.pix_table.specs.quantization.GrayLevels.{values as value_at, weights};

    /// Returns the sums of some levels.
    pub(crate) fn of(levels: &Levels) -> LevelSums
        requires { AreLevels (weights levels.now) (value_at levels.now) levels.now.len }
        ensures { AreSumsOf (weights levels.now) (value_at levels.now) levels.now.len result }
    {
        let mut counts = [0; 257];
        let mut sums = [0; 257];
        let mut squares = [0; 257];
        for i in 0..levels.len {
            let value = u128::from(levels.values[i]);
            let count = levels.counts[i] as u128;
            let more = counts[i] + levels.counts[i];
            let sum = sums[i] + count * value;
            let square = squares[i] + count * (value * value);
            counts[i + 1] = more;
            sums[i + 1] = sum;
            squares[i + 1] = square;
        }
        LevelSums {
            counts,
            sums,
            squares,
        }
    }

    /// Returns the mean of the levels from `start` up to `end`, to the nearest whole number, ties
    /// up.
    #[inline(always)]
    pub(crate) fn mean(&self, start: usize, end: usize) -> u8
        requires { AreBetween self.now start end }
        ensures { result ≡ mean_of self.now start end }
    {
        let count = (self.counts[end] - self.counts[start]) as u128;
        let sum = self.sums[end] - self.sums[start];
        quotient(2 * sum + count, 2 * count)
    }

    /// Returns the sum of the squared errors of the levels from `start` up to `end`, where all are
    /// shown by their mean.
    #[inline(always)]
    pub(crate) fn error(&self, start: usize, end: usize) -> u128
        requires { AreBetween self.now start end }
        ensures { result ≡ error_of self.now start end }
    {
        let mean = self.mean(start, end);
        error_to(
            (self.counts[end] - self.counts[start]) as u128,
            self.sums[end] - self.sums[start],
            self.squares[end] - self.squares[start],
            u128::from(mean),
        )
    }
}
