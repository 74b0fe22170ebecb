//! Sums of pixels of four channels, on lanes.
ghost use Rattle.std.specs.Prelude.{◌≡◌, ℕ, ◌+◌, ◌*◌, ◌^◌, ◌<◌, ◌≤◌, length, slice_index};
ghost use Rattle.pix_scale.specs.Axis.{total};
ghost use Rattle.pix_scale.specs.Table.{row_term};

use std::simd::prelude::*;

/// Adds each of four sums of a pixel, times a weight, to that of the same lane.
#[inline(always)]
fn add_lanes(acc: u64x4, pixel: &[u32], weight: u32) -> u64x4
    requires long { length pixel.now ≡ 4 }
    requires lanes { length acc ≡ 4 }
    requires fits { (c : ℕ) → c < 4 → slice_index acc c + weight * 2 ^ 32 < 2 ^ 63 }
    ensures lanes { length result ≡ 4 }
    ensures sums { (c : ℕ) → c < 4 → slice_index result c
        ≡ slice_index acc c + weight * slice_index pixel.now c }
{
    acc + u32x4::from_slice(pixel).cast::<u64>() * u64x4::splat(u64::from(weight))
}

/// Returns the sums of pixels of four channels that follow each other, each pixel times its weight.
///
/// Condition: there is a pixel for each weight, and the weights add up to less than 2^31.
#[inline(always)]
pub(crate) fn sum_lanes(sums: &[u32], weights: &[u32]) -> u64x4
    requires inside { (k : ℕ) → k < length weights.now → k * 4 + 4 ≤ length sums.now }
    requires fits { total (length weights.now) (slice_index weights.now) < 2 ^ 31 }
    ensures lanes { length result ≡ 4 }
    ensures sums { (c : ℕ) → c < 4 → slice_index result c
        ≡ total (length weights.now) (row_term weights.now (slice_index sums.now) 4 c) }
{
    let mut acc = u64x4::splat(0);
    for k in 0..weights.len() {
        let start = k * 4;
        acc = add_lanes(acc, &sums[start..start + 4], weights[k]);
    }
    acc
}

/// Adds each of four sums of a pixel, times a weight, to that of the same lane, in 32 bits.
#[inline(always)]
fn add_narrow(acc: u32x4, pixel: &[u32], weight: u32) -> u32x4
    requires long { length pixel.now ≡ 4 }
    requires lanes { length acc ≡ 4 }
    requires fits { (c : ℕ) → c < 4
        → slice_index acc c + weight * slice_index pixel.now c < 2 ^ 32 }
    ensures lanes { length result ≡ 4 }
    ensures sums { (c : ℕ) → c < 4 → slice_index result c
        ≡ slice_index acc c + weight * slice_index pixel.now c }
{
    acc + u32x4::from_slice(pixel) * u32x4::splat(weight)
}

/// Returns the sums of pixels of four channels that follow each other, each pixel times its weight,
/// in 32 bits. Condition: the sums fit.
#[inline(always)]
pub(crate) fn sum_narrow(sums: &[u32], weights: &[u32]) -> u32x4
    requires inside { (k : ℕ) → k < length weights.now → k * 4 + 4 ≤ length sums.now }
    requires fits { (c : ℕ) → c < 4
        → total (length weights.now) (row_term weights.now (slice_index sums.now) 4 c) < 2 ^ 32 }
    ensures lanes { length result ≡ 4 }
    ensures sums { (c : ℕ) → c < 4 → slice_index result c
        ≡ total (length weights.now) (row_term weights.now (slice_index sums.now) 4 c) }
{
    let mut acc = u32x4::splat(0);
    for k in 0..weights.len() {
        let start = k * 4;
        acc = add_narrow(acc, &sums[start..start + 4], weights[k]);
    }
    acc
}

/// Returns the sums of pixels of four channels that follow each other, each pixel times its weight,
/// by two rows of weights.
///
/// Condition: there is a pixel for each weight, and the weights of a row add up to less than 2^31.
#[inline(always)]
pub(crate) fn sum_both(sums: &[u32], plus: &[u32], minus: &[u32]) -> (u64x4, u64x4)
    requires same { length minus.now ≡ length plus.now }
    requires inside { (k : ℕ) → k < length plus.now → k * 4 + 4 ≤ length sums.now }
    requires plus_fits { total (length plus.now) (slice_index plus.now) < 2 ^ 31 }
    requires minus_fits { total (length minus.now) (slice_index minus.now) < 2 ^ 31 }
    ensures lanes { length result.0 ≡ 4 }
    ensures taken_lanes { length result.1 ≡ 4 }
    ensures added { (c : ℕ) → c < 4 → slice_index result.0 c
        ≡ total (length plus.now) (row_term plus.now (slice_index sums.now) 4 c) }
    ensures taken { (c : ℕ) → c < 4 → slice_index result.1 c
        ≡ total (length minus.now) (row_term minus.now (slice_index sums.now) 4 c) }
{
    let mut added = u64x4::splat(0);
    let mut taken = u64x4::splat(0);
    for k in 0..plus.len() {
        let start = k * 4;
        let pixel = &sums[start..start + 4];
        added = add_lanes(added, pixel, plus[k]);
        taken = add_lanes(taken, pixel, minus[k]);
    }
    (added, taken)
}
