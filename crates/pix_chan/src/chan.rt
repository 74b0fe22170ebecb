//! Channels: whole numbers of units from 0 to the maximum of their width.
ghost use Rattle.std.specs.Prelude.{◌≡◌, ℕ, ◌+◌, ◌-◌, ◌*◌, ◌^◌, ◌<◌, ◌≤◌, nat_eq, pos, ◌+ℤ◌, ◌*ℤ◌, ◌<ℤ◌, map, ◌++◌};
ghost use Rattle.std.specs.Ordering.{nat_cmp};
ghost use Rattle.std.specs.Simd.Lanes.{zip2};
ghost use prog.Memory.{size};
ghost use denote.Memory.{lone};
ghost use Rattle.pix_chan.specs.Number.{saturating_sum, saturating_difference, wrapping_sum, wrapping_difference};
ghost use Rattle.pix_chan.specs.Product.{channel_product, channel_quotient, fineness, IsProduct};
ghost use Rattle.pix_chan.specs.Step.{channel_lerp, IsBetween};
ghost use Rattle.pix_chan.specs.Nearest.{nearest, distance};
ghost use Rattle.pix_chan.specs.Depth.{to_16_bit, from_16_bit};
ghost use Rattle.pix_chan.specs.Laws.{ChannelLaws};
ghost use Rattle.pix_chan.specs.Channel.{IsNumbered, IsTotal, Answers};
ghost use Rattle.pix_chan.specs.Runs.{over};
ghost use Rattle.pix_chan.specs.Seal.{Seal};
ghost use Rattle.pix_chan.specs.Planes.{in_turn, both_in_turn, last_of_four, last_of_two, with_alphas};

use std::fmt::Debug;
use std::ops::{Add, Div, Mul, Sub};

mod bits16;
mod bits8;
mod modes;
mod srgb;
mod srgb16;
mod whole;

pub use bits8::Ch8;
pub use bits16::Ch16;
pub use modes::{Alpha, Gamma, Linear, Premultiplied, Srgb, Straight};

/// A channel: a whole number of units from 0 to the maximum of its width, read as a fraction of
/// that maximum.
///
/// One unit is 1/[`MAX`](Channel::MAX). `+` saturates at `MAX`, `-` saturates at 0. `*` is the
/// channel product, `x * y / MAX` rounded to the nearest. `/` is the channel quotient,
/// `(MAX + 1) * x / y` rounded down, at most `MAX`, and 0 where `y` is 0. This trait is sealed: the
/// channels are [`Ch8`] and [`Ch16`].
///
/// # Examples
///
/// ```rust
/// let half = Ch8::new(128);
/// let whole = half + half; // 255: a sum stops at the maximum
/// let none = half - whole; // 0: a difference stops at 0
/// ```
pub trait Channel: Copy
    + Debug
    + Default
    + Ord
    + Add<Output = Self>
    + Sub<Output = Self>
    + Mul<Output = Self>
    + Div<Output = Self> {
    /// The number of units of a value.
    ghost number: { Self → ℕ };

    /// The maximum of the width, which identifies it: 255 or 65535.
    ghost max: { ℕ };

    /// The value of [`MIN`](Channel::MIN).
    ghost MIN: { Self };

    /// The minimum, 0.
    const MIN: Self;

    /// The value of [`MID`](Channel::MID).
    ghost MID: { Self };

    /// Half of `MAX` + 1: 128 or 32768.
    const MID: Self;

    /// The value of [`MAX`](Channel::MAX).
    ghost MAX: { Self };

    /// The maximum, which stands for one: 255 or 65535.
    const MAX: Self;

    /// Returns the number of units.
    ///
    /// # Examples
    ///
    /// ```rust
    /// let fine = Ch16::from(Ch8::new(171));
    /// let units = fine.to_u32(); // 43947: 171 * 257
    /// let coarse = Ch8::from(fine); // 171
    /// ```
    fn to_u32(self) -> u32
        ensures { result ≡ number self };

    /// Returns the number of units of the same fraction in 16 bits.
    #[doc(hidden)]
    fn to_16_bit(self) -> u16
        ensures { result ≡ to_16_bit max (number self) };

    /// Creates the channel of the same fraction as a number of units in 16 bits. A channel of 8
    /// bits drops the lower bits.
    #[doc(hidden)]
    fn from_16_bit(units: u16) -> Self
        ensures { number result ≡ from_16_bit max units };

    /// Returns the wrapping sum, modulo `MAX` + 1.
    ///
    /// # Examples
    ///
    /// ```rust
    /// let hue = Ch8::new(250);
    /// let forth = hue.wrapping_add(Ch8::new(10)); // 4
    /// let back = forth.wrapping_sub(Ch8::new(10)); // 250
    /// ```
    fn wrapping_add(self, rhs: Self) -> Self
        ensures { number result ≡ wrapping_sum max (number self) (number rhs) };

    /// Returns the wrapping difference, modulo `MAX` + 1.
    fn wrapping_sub(self, rhs: Self) -> Self
        ensures { number result ≡ wrapping_difference max (number self) (number rhs) };

    /// Interpolates from `self`, where `t` is `MIN`, to `rhs`, where `t` is `MAX`.
    ///
    /// The result lies between both, less than one unit from `self + t * (rhs - self) / MAX`.
    ///
    /// # Examples
    ///
    /// ```rust
    /// let fifth = Ch8::from_ratio(255, 5); // 51
    /// let (start, end) = (Ch8::new(100), Ch8::new(200));
    /// let between = start.lerp(end, fifth); // 120
    /// ```
    fn lerp(self, rhs: Self, t: Self) -> Self
        ensures value { pos (number result)
            ≡ channel_lerp max (number self) (number rhs) (number t) }
        ensures between { IsBetween
            (pos (number self)) (pos (number rhs)) (pos (number result)) }
        ensures ends { (number t ≡ 0 → number result ≡ number self)
            × (number t ≡ max → number result ≡ number rhs) }
        // It is less than one unit above the exact place on the way, and less than one below.
        ensures above { max * number result
            < (max - number t) * number self + number t * number rhs + max }
        ensures below { (max - number t) * number self + number t * number rhs
            < max * number result + max };

    /// Returns the channel nearest to `n / d` units, ties up, clamped to `MIN` and `MAX`.
    ///
    /// Condition: `d` is positive, and both `2 * n + d` and `2 * d` fit in an `i64`.
    ///
    /// # Examples
    ///
    /// ```rust
    /// let fifth = Ch8::from_ratio(255, 5); // 51
    /// let (start, end) = (Ch8::new(100), Ch8::new(200));
    /// let between = start.lerp(end, fifth); // 120
    /// ```
    fn from_ratio(n: i64, d: i64) -> Self
        requires positive { pos 0 <ℤ d }
        requires sum_fits { (pos 2 *ℤ n +ℤ d) <ℤ pos (2 ^ 63) }
        requires twice_fits { (pos 2 *ℤ d) <ℤ pos (2 ^ 63) }
        ensures value { number result ≡ nearest max n d }
        ensures none_nearer { (k : ℕ) → k ≤ max
            → distance n d (number result) ≤ distance n d k }
        ensures ties_up { (k : ℕ) → k ≤ max → number result < k
            → distance n d (number result) < distance n d k };

    /// Multiplies each channel of `dst` by the channel of `by` of the same index. The shorter
    /// length decides, and the rest of `dst` stays as it is.
    #[inline(always)]
    fn mul_run(dst: &mut [Self], by: &[Self])
        ensures { map number dst.new ≡
            over (λ y x. channel_product max x y) (map number by.now) (map number dst.old) }
    {
        for i in 0..dst.len().min(by.len()) {
            dst[i] = dst[i] * by[i];
        }
    }

    /// Adds to each channel of `dst` the channel of `by` of the same index, saturating at `MAX`.
    /// The shorter length decides, and the rest of `dst` stays as it is.
    #[inline(always)]
    fn add_run(dst: &mut [Self], by: &[Self])
        ensures { map number dst.new ≡
            over (λ y x. saturating_sum max x y) (map number by.now) (map number dst.old) }
    {
        for i in 0..dst.len().min(by.len()) {
            dst[i] = dst[i] + by[i];
        }
    }

    /// Returns one minus each of sixteen channels.
    #[doc(hidden)]
    fn complement16(plane: [Self; 16]) -> [Self; 16]
        ensures { map number result ≡ map (λ x. max - x) (map number plane) };

    /// Returns one minus each of thirty-two channels.
    #[doc(hidden)]
    fn complement32(plane: [Self; 32]) -> [Self; 32]
        ensures { map number result ≡ map (λ x. max - x) (map number plane) };

    /// Returns, for four pixels of four channels, at each index the last channel of its pixel.
    #[doc(hidden)]
    fn alphas4(pixels: [Self; 16]) -> [Self; 16]
        ensures { map number result ≡ last_of_four (map number pixels) };

    /// Returns four pixels of four channels, each color divided by the alpha, the last channel.
    #[doc(hidden)]
    fn unmultiplied4(pixels: [Self; 16]) -> [Self; 16]
        ensures { map number result ≡ with_alphas
            (zip2 (channel_quotient max) (map number pixels) (last_of_four (map number pixels)))
            (map number pixels) };

    /// Returns, for eight pixels of four channels, at each index the last channel of its pixel.
    #[doc(hidden)]
    fn alphas8(pixels: [Self; 32]) -> [Self; 32]
        ensures { map number result ≡ last_of_four (map number pixels) };

    /// Returns, for sixteen pixels of two channels, at each index the last channel of its pixel.
    #[doc(hidden)]
    fn alphas16(pixels: [Self; 32]) -> [Self; 32]
        ensures { map number result ≡ last_of_two (map number pixels) };

    /// Returns the planes of sixteen pixels of four channels: `a` to `d` are four pixels each.
    #[doc(hidden)]
    fn split4(
        a: [Self; 16],
        b: [Self; 16],
        c: [Self; 16],
        d: [Self; 16],
    ) -> ([Self; 16], [Self; 16], [Self; 16], [Self; 16])
        ensures { in_turn (map number result.0) (map number result.1)
            (map number result.2) (map number result.3)
            ≡ (map number a ++ map number b) ++ (map number c ++ map number d) };

    /// Returns sixteen pixels of four channels, four in each array, from their planes.
    #[doc(hidden)]
    fn join4(
        one: [Self; 16],
        two: [Self; 16],
        three: [Self; 16],
        four: [Self; 16],
    ) -> ([Self; 16], [Self; 16], [Self; 16], [Self; 16])
        ensures { (map number result.0 ++ map number result.1)
            ++ (map number result.2 ++ map number result.3)
            ≡ in_turn (map number one) (map number two) (map number three) (map number four) };

    /// Returns the planes of sixteen pixels of two channels: `a` and `b` are eight pixels each.
    #[doc(hidden)]
    fn split2(a: [Self; 16], b: [Self; 16]) -> ([Self; 16], [Self; 16])
        ensures { both_in_turn (map number result.0) (map number result.1)
            ≡ map number a ++ map number b };

    /// Returns sixteen pixels of two channels, eight in each array, from their planes.
    #[doc(hidden)]
    fn join2(one: [Self; 16], two: [Self; 16]) -> ([Self; 16], [Self; 16])
        ensures { map number result.0 ++ map number result.1
            ≡ both_in_turn (map number one) (map number two) };

    /// The maximum is above 1.
    ghost wide: { 1 < max };

    /// Numbers are at most the maximum, and equal numbers are equal values.
    ghost numbered: { IsNumbered max number };

    /// `MIN` is 0.
    ghost min_is_zero: { number MIN ≡ 0 };

    /// `MID` is half of one more than the maximum.
    ghost mid_is_half: { 2 * number MID ≡ max + 1 };

    /// `MAX` is the maximum.
    ghost max_is_maximum: { number MAX ≡ max };

    /// The default channel is 0.
    ghost default_is_min: { (x : Self) → Self.is_default x → number x ≡ 0 };

    /// Channels are ordered by their numbers.
    ghost orders: { (x y : Self) → Self.cmp x y ≡ nat_cmp (number x) (number y) };

    /// A clone is the value itself.
    ghost clones: { (x y : Self) → Self.is_clone x y → y ≡ x };

    /// `clone` always succeeds.
    ghost clones_always: { (x : Self) → Self.is_infallible x };

    /// `==` compares the numbers.
    ghost equals: { (x y : Self) → Self.eq x y ≡ nat_eq (number x) (number y) };

    /// Any two channels can be added.
    ghost can_sum: { IsTotal Self.can_add };

    /// `+` is the saturating sum.
    ghost sums: { Answers number Self.add_gives (saturating_sum max) };

    /// Any two channels can be subtracted.
    ghost can_differ: { IsTotal Self.can_sub };

    /// `-` is the saturating difference.
    ghost differs: { Answers number Self.sub_gives saturating_difference };

    /// Any two channels can be multiplied.
    ghost can_multiply: { IsTotal Self.can_mul };

    /// `*` is the channel product.
    ghost multiplies: { Answers number Self.mul_gives (channel_product max) };

    /// Any two channels can be divided.
    ghost can_divide: { IsTotal Self.can_div };

    /// `/` is the channel quotient.
    ghost divides: { Answers number Self.div_gives (channel_quotient max) };

    /// The product is at most half a unit from the exact one, and obeys the laws of a product.
    ghost product_law: { IsProduct fineness max (channel_product max) };

    /// Thirty-two channels fit in memory.
    ghost small: { 32 * size (lone Self.row.mir) < 2 ^ 63 };

    /// The laws of the quotient, of steps, of `lerp`, of the nearest ratio and of depth.
    ///
    /// The record is closed, and `known_laws` opens it for a proof.
    ghost laws: { ChannelLaws max };

    /// Seals the trait.
    ghost sealed: { Seal Self };
}
