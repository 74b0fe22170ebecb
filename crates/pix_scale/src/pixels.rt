//! Channels of new pixels, from weighted sums of columns.
ghost use Rattle.std.specs.Prelude.{◌≡◌, ℕ, ◌+◌, ◌*◌, ◌^◌, ◌<◌, ◌≤◌, length, map, slice_index, pos};
ghost use Rattle.pix_chan.specs.Nearest.{nearest};
ghost use Rattle.pix_scale.specs.Axis.{total};
ghost use Rattle.pix_scale.specs.Table.{row_term};

use crate::lanes::{sum_lanes, sum_narrow};
use crate::rounding::Divisor;
use pix_chan::chan::Channel;

/// Adds each sum of a pixel, times a weight, to the sum at its place.
///
/// Condition: there is a place for each, and no sum passes 63 bits.
#[inline(always)]
fn add_pixel(to: &mut [u64], pixel: &[u32], weight: u32)
    requires long { length to.old ≡ length pixel.now }
    requires fits { (c : ℕ) → c < length to.old
        → slice_index to.old c + weight * 2 ^ 32 < 2 ^ 63 }
    ensures { (c : ℕ) → c < length to.old → slice_index to.new c
        ≡ slice_index to.old c + weight * slice_index pixel.now c }
{
    for c in 0..pixel.len() {
        to[c] += u64::from(weight) * u64::from(pixel[c]);
    }
}

/// Adds the sums of pixels that follow each other, each pixel times its weight.
///
/// Condition: `to` is 0, there is a pixel for each weight, and the weights add up to less than
/// 2^31.
#[inline(always)]
fn sum_pixels(to: &mut [u64], sums: &[u32], weights: &[u32])
    requires zeros { (c : ℕ) → slice_index to.old c ≡ 0 }
    requires inside { (k : ℕ) → k < length weights.now
        → k * length to.old + length to.old ≤ length sums.now }
    requires fits { total (length weights.now) (slice_index weights.now) < 2 ^ 31 }
    ensures { (c : ℕ) → c < length to.old → slice_index to.new c
        ≡ total (length weights.now)
        (row_term weights.now (slice_index sums.now) (length to.old) c) }
{
    let n = to.len();
    for k in 0..weights.len() {
        let start = k * n;
        add_pixel(to, &sums[start..start + n], weights[k]);
    }
}

/// Returns the channel nearest to a sum over the whole, ties up. Condition: the sum is at most the
/// maximum times the whole.
#[inline(always)]
fn mean<C: Channel>(sum: u64, by: Divisor) -> C
    requires { sum ≤ C.max * by.whole }
    ensures { C.number result ≡ nearest C.max (pos sum) (pos by.whole) }
{
    C::from_ratio(i64::from(by.nearest(sum)), 1)
}

/// Returns the channel nearest to a sum over the whole, ties up, in 32 bits. Condition: the sum is
/// at most 255 times the whole, which is below 2^23.
#[inline(always)]
fn mean_narrow<C: Channel>(sum: u32, by: Divisor) -> C
    requires sum { sum ≤ 255 * by.whole }
    requires few { by.whole < 2 ^ 23 }
    ensures { C.number result ≡ nearest C.max (pos sum) (pos by.whole) }
{
    C::from_ratio(i64::from(by.nearest_narrow(sum)), 1)
}

/// Writes a new pixel of four channels of 8 bits from sums of columns, by weights of a small whole.
#[inline(always)]
fn write_narrow<C: Channel>(to: &mut [C], sums: &[u32], weights: &[u32], by: Divisor)
    requires long { length to.old ≡ 4 }
    requires inside { (k : ℕ) → k < length weights.now → k * 4 + 4 ≤ length sums.now }
    requires few { by.whole < 2 ^ 23 }
    requires bound { (c : ℕ) → c < 4 → total (length weights.now)
        (row_term weights.now (slice_index sums.now) 4 c) ≤ 255 * by.whole }
    ensures { (c : ℕ) → c < 4 → slice_index (map C.number to.new) c ≡ nearest C.max
        (pos (total (length weights.now) (row_term weights.now (slice_index sums.now) 4 c)))
        (pos by.whole) }
{
    let sums_of = sum_narrow(sums, weights).to_array();
    for c in 0..4 {
        to[c] = mean_narrow::<C>(sums_of[c], by);
    }
}

/// Returns the sums of pixels of `n` channels that follow each other, each pixel times its weight.
///
/// Condition: there is a pixel for each weight, and the weights add up to less than 2^31.
#[inline(always)]
pub(crate) fn pixel_sums(n: usize, sums: &[u32], weights: &[u32]) -> [u64; 8]
    requires few { n ≤ 8 }
    requires inside { (k : ℕ) → k < length weights.now → k * n + n ≤ length sums.now }
    requires fits { total (length weights.now) (slice_index weights.now) < 2 ^ 31 }
    ensures { (c : ℕ) → c < n → slice_index result c
        ≡ total (length weights.now) (row_term weights.now (slice_index sums.now) n c) }
{
    let mut to = [0u64; 8];
    sum_pixels(&mut to[..n], sums, weights);
    to
}

/// Writes a new pixel of four channels from sums of columns, by weights.
#[inline(always)]
fn write_four<C: Channel>(to: &mut [C], sums: &[u32], weights: &[u32], by: Divisor)
    requires long { length to.old ≡ 4 }
    requires inside { (k : ℕ) → k < length weights.now → k * 4 + 4 ≤ length sums.now }
    requires fits { total (length weights.now) (slice_index weights.now) < 2 ^ 31 }
    requires bound { (c : ℕ) → c < 4 → total (length weights.now)
        (row_term weights.now (slice_index sums.now) 4 c) ≤ C.max * by.whole }
    ensures { (c : ℕ) → c < 4 → slice_index (map C.number to.new) c ≡ nearest C.max
        (pos (total (length weights.now) (row_term weights.now (slice_index sums.now) 4 c)))
        (pos by.whole) }
{
    let sums_of = sum_lanes(sums, weights).to_array();
    for c in 0..4 {
        to[c] = mean::<C>(sums_of[c], by);
    }
}

/// Writes a pixel: the mean of pixels that follow each other, by their weights and the whole,
/// rounded to the nearest.
///
/// Condition: there is a pixel for each weight, the weights add up to less than 2^31, and the sums
/// are at most the maximum times the whole.
#[inline(always)]
pub(crate) fn write_pixel<C: Channel>(to: &mut [C], sums: &[u32], weights: &[u32], by: Divisor)
    requires few { length to.old ≤ 8 }
    requires inside { (k : ℕ) → k < length weights.now
        → k * length to.old + length to.old ≤ length sums.now }
    requires fits { total (length weights.now) (slice_index weights.now) < 2 ^ 31 }
    requires bound { (c : ℕ) → c < length to.old → total (length weights.now)
        (row_term weights.now (slice_index sums.now) (length to.old) c) ≤ C.max * by.whole }
    ensures { (c : ℕ) → c < length to.old → slice_index (map C.number to.new) c ≡ nearest C.max
        (pos (total (length weights.now)
        (row_term weights.now (slice_index sums.now) (length to.old) c))) (pos by.whole) }
{
    let n = to.len();
    if n == 4 && by.whole < 1 << 23 && C::MAX.to_u32() < 256 {
        write_narrow::<C>(to, sums, weights, by);
        return;
    }
    if n == 4 {
        write_four::<C>(to, sums, weights, by);
        return;
    }
    let sums_of = pixel_sums(n, sums, weights);
    for c in 0..n {
        to[c] = mean::<C>(sums_of[c], by);
    }
}
