//! Sums of colors that are seen.
ghost use Rattle.std.specs.Prelude.{◌≡◌, ℕ, ◌+◌, ◌-◌, ◌*◌, ◌/◌, ◌<◌, ◌≤◌, All, List, length, map, slice_index, true};
ghost use Rattle.pix_table.specs.SeenPixels.{AreSeen, seen_numbers};
ghost use Rattle.pix_table.specs.quantization.SeenSums.{AreFew, AreSeenByValue, AreSeenPart, AreSeenSums};
ghost use Rattle.pix_table.specs.quantization.SeenSums.{seen_squares, seen_weight_by};

use crate::quantization::box_sums::{FEW, LITTLE, quotient};
use crate::quantization::weight::{square, weight};
use crate::rgba::color::SeenColor;

/// How many seen colors there are, and the sums of their numbers.
#[derive(Clone, Copy)]
pub(crate) struct SeenSums {
    /// How many colors there are.
    pub(crate) count: usize,
    /// The sum of their reds over black.
    pub(crate) red: u128,
    /// The sum of their greens over black.
    pub(crate) green: u128,
    /// The sum of their blues over black.
    pub(crate) blue: u128,
    /// The sum of their alphas.
    pub(crate) alpha: u128,
}

impl SeenSums {
    /// Returns the sums of no colors.
    pub(crate) fn none() -> SeenSums
        ensures count { result.count ≡ 0 }
        ensures red { result.red ≡ 0 }
        ensures green { result.green ≡ 0 }
        ensures blue { result.blue ≡ 0 }
        ensures alpha { result.alpha ≡ 0 }
    {
        SeenSums {
            count: 0,
            red: 0,
            green: 0,
            blue: 0,
            alpha: 0,
        }
    }

    /// Returns the sums with a color more.
    #[inline(always)]
    pub(crate) fn with(self, clr: SeenColor) -> SeenSums
        requires count { self.count < 18446744073709551615 }
        requires few { AreFew self }
        ensures count { result.count ≡ self.count + 1 }
        ensures red { result.red ≡ self.red + clr.red }
        ensures green { result.green ≡ self.green + clr.green }
        ensures blue { result.blue ≡ self.blue + clr.blue }
        ensures alpha { result.alpha ≡ self.alpha + clr.alpha }
    {
        SeenSums {
            count: self.count + 1,
            red: self.red + u128::from(clr.red),
            green: self.green + u128::from(clr.green),
            blue: self.blue + u128::from(clr.blue),
            alpha: self.alpha + u128::from(clr.alpha),
        }
    }

    /// Returns the sums of a color that stands so often.
    #[inline(always)]
    pub(crate) fn of_times(clr: SeenColor, times: u16) -> SeenSums
        ensures count { result.count ≡ times }
        ensures red { result.red ≡ times * clr.red }
        ensures green { result.green ≡ times * clr.green }
        ensures blue { result.blue ≡ times * clr.blue }
        ensures alpha { result.alpha ≡ times * clr.alpha }
    {
        let count = u32::from(times);
        SeenSums {
            count: usize::from(times),
            red: u128::from(count * u32::from(clr.red)),
            green: u128::from(count * u32::from(clr.green)),
            blue: u128::from(count * u32::from(clr.blue)),
            alpha: u128::from(count * u32::from(clr.alpha)),
        }
    }

    /// Returns the sums of these colors and of others.
    pub(crate) fn and(self, more: SeenSums) -> SeenSums
        requires count { self.count + more.count < 18446744073709551616 }
        requires few { AreFew self }
        requires more { AreFew more }
        ensures count { result.count ≡ self.count + more.count }
        ensures red { result.red ≡ self.red + more.red }
        ensures green { result.green ≡ self.green + more.green }
        ensures blue { result.blue ≡ self.blue + more.blue }
        ensures alpha { result.alpha ≡ self.alpha + more.alpha }
    {
        SeenSums {
            count: self.count + more.count,
            red: self.red + more.red,
            green: self.green + more.green,
            blue: self.blue + more.blue,
            alpha: self.alpha + more.alpha,
        }
    }

    /// Returns the sums of these colors without some of them.
    pub(crate) fn without(self, part: SeenSums) -> SeenSums
        requires { AreSeenPart part self }
        ensures count { result.count ≡ self.count - part.count }
        ensures red { result.red ≡ self.red - part.red }
        ensures green { result.green ≡ self.green - part.green }
        ensures blue { result.blue ≡ self.blue - part.blue }
        ensures alpha { result.alpha ≡ self.alpha - part.alpha }
    {
        SeenSums {
            count: self.count - part.count,
            red: self.red - part.red,
            green: self.green - part.green,
            blue: self.blue - part.blue,
            alpha: self.alpha - part.alpha,
        }
    }

    /// Returns what they weigh, over black and over white. Condition: there is a color.
    pub(crate) fn weight(self) -> u128
        requires some { 0 < self.count }
        requires few { AreFew self }
        ensures weight { result
            ≡ seen_weight_by self.count self.red self.green self.blue self.alpha }
        ensures few { result ≤ 390150 * self.count }
    {
        let black = weight(self.count, [self.red, self.green, self.blue]);
        let clear = 255 * self.count as u128 - self.alpha;
        let white = [self.red + clear, self.green + clear, self.blue + clear];
        black + weight(self.count, white)
    }

    /// Returns the squares of the sums of few colors, over black and over white, added.
    #[inline(always)]
    fn squares(self) -> u64
        requires count { self.count < 4194304 }
        requires few { AreFew self }
        ensures { result ≡ seen_squares self.count self.red self.green self.blue self.alpha }
    {
        let clear = 255 * self.count as u64 - self.alpha as u64;
        let (red, green, blue) = (self.red as u64, self.green as u64, self.blue as u64);
        let black = square(red) + square(green) + square(blue);
        black + (square(red + clear) + square(green + clear) + square(blue + clear))
    }

    /// Returns whether it tells, without a division, that they weigh at most so much.
    #[inline(always)]
    pub(crate) fn weighs_at_most(self, most: u128) -> bool
        requires some { 0 < self.count }
        requires few { AreFew self }
        ensures { result ≡ true → seen_weight_by self.count self.red self.green self.blue
            self.alpha ≤ most }
    {
        if self.count >= FEW || most >= LITTLE {
            return false;
        }
        self.squares() < (most as u64 + 1) * self.count as u64
    }

    /// Returns whether it tells, without a division, that they and others weigh at most so much.
    #[inline(always)]
    pub(crate) fn both_weigh_at_most(self, others: SeenSums, most: u128) -> bool
        requires some { 0 < self.count }
        requires some_others { 0 < others.count }
        requires few { AreFew self }
        requires few_others { AreFew others }
        ensures { result ≡ true → seen_weight_by self.count self.red self.green self.blue
            self.alpha
            + seen_weight_by others.count others.red others.green others.blue others.alpha
            ≤ most }
    {
        if self.count >= FEW || others.count >= FEW || most >= LITTLE {
            return false;
        }
        let (one, other) = (self.count as u64, others.count as u64);
        let squares = u128::from(self.squares()) * u128::from(other)
            + u128::from(others.squares()) * u128::from(one);
        squares < u128::from(most as u64 + 1) * u128::from(one * other)
    }

    /// Returns the mean of the colors, to the nearest whole number in each channel, ties up.
    ///
    /// Condition: there is a color.
    pub(crate) fn mean(self) -> SeenColor
        requires some { 0 < self.count }
        requires few { AreFew self }
        ensures red { result.red ≡ (2 * self.red + self.count) / (2 * self.count) }
        ensures green { result.green ≡ (2 * self.green + self.count) / (2 * self.count) }
        ensures blue { result.blue ≡ (2 * self.blue + self.count) / (2 * self.count) }
        ensures alpha { result.alpha ≡ (2 * self.alpha + self.count) / (2 * self.count) }
    {
        let count = self.count as u128;
        SeenColor {
            red: quotient(2 * self.red + count, 2 * count),
            green: quotient(2 * self.green + count, 2 * count),
            blue: quotient(2 * self.blue + count, 2 * count),
            alpha: quotient(2 * self.alpha + count, 2 * count),
        }
    }
}

/// Returns the number of a channel: 0 is red, 1 green, 2 blue, 3 the alpha.
#[inline(always)]
pub(crate) fn seen_channel(clr: SeenColor, channel: usize) -> u8
    ensures { result ≡ slice_index (seen_numbers clr) channel }
{
    match channel {
        0 => clr.red,
        1 => clr.green,
        2 => clr.blue,
        3 => clr.alpha,
        _ => 0,
    }
}

/// Returns the sums of some colors.
pub(crate) fn seen_sums_of(colors: &[SeenColor]) -> SeenSums
    requires { All AreSeen (map seen_numbers colors.now) }
    ensures { AreSeenSums (λ color. true) (map seen_numbers colors.now) result }
{
    let mut sums = SeenSums::none();
    for i in 0..colors.len() {
        sums = sums.with(colors[i]);
    }
    sums
}

/// Sets the sums of the colors of each value of a channel. Each channel has a loop of its own.
pub(crate) fn sum_values(parts: &mut [SeenSums; 256], colors: &[SeenColor], k: usize)
    requires { All AreSeen (map seen_numbers colors.now) }
    ensures { AreSeenByValue k (map seen_numbers colors.now) parts.new }
{
    match k {
        0 => sum_values_in(parts, colors, 0),
        1 => sum_values_in(parts, colors, 1),
        2 => sum_values_in(parts, colors, 2),
        3 => sum_values_in(parts, colors, 3),
        _ => sum_values_in(parts, colors, k),
    }
}

/// Sets the sums of the colors of each value of channel `k`. It is inlined, so that `k` is a
/// constant where it is known.
#[inline(always)]
fn sum_values_in(parts: &mut [SeenSums; 256], colors: &[SeenColor], k: usize)
    requires { All AreSeen (map seen_numbers colors.now) }
    ensures { AreSeenByValue k (map seen_numbers colors.now) parts.new }
{
    *parts = [SeenSums::none(); 256];
    for i in 0..colors.len() {
        let value = usize::from(seen_channel(colors[i], k));
        parts[value] = parts[value].with(colors[i]);
    }
}
