//! Products and sums of sixteen channels of 16 bits at a time, on lanes.
ghost use Rattle.std.specs.Prelude.{◌≡◌, map, length};
ghost use Rattle.std.specs.Simd.Lanes.{zip2};
ghost use Rattle.pix_chan.specs.Number.{saturating_sum};
ghost use Rattle.pix_chan.specs.Product.{channel_product};
ghost use Rattle.pix_chan.specs.Planes.{last_of_four, last_of_two};
ghost use Rattle.pix_chan.specs.Lanes.{high_sum, carried};

use crate::chan::bits16::Ch16;
use std::simd::prelude::*;

/// Returns the high half of x y + 2^15 for the numbers of each lane.
///
/// LLVM compiles the product in 32 bits and its shift to one instruction.
#[inline(always)]
fn high(a: u16x16, b: u16x16) -> u16x16
    ensures { result ≡ zip2 high_sum a b }
{
    let wide = (a.cast::<u32>() * b.cast::<u32>()) >> u32x16::splat(16);
    wide.cast::<u16>() + ((a * b) >> u16x16::splat(15))
}

/// Returns `high`, plus one in the lanes where adding `high` to the low half of `low` + 2^15
/// carries.
///
/// The low half is compared with 2^16 - 1 less `high`, and 2^15 is subtracted from both. x86-64
/// compares signed numbers in one instruction, and unsigned ones in two or three.
#[inline(always)]
fn raise(low: u16x16, high: u16x16) -> u16x16
    ensures { result ≡ zip2 carried low high }
{
    let half = (low + u16x16::splat(32768)).cast::<i32>() - i32x16::splat(32768);
    let rest = i32x16::splat(32767) - high.cast::<i32>();
    half.cast::<i16>()
        .simd_gt(rest.cast::<i16>())
        .select(high + u16x16::splat(1), high)
}

/// Returns the channel product of the numbers of each lane.
///
/// With x y + 2^15 = 2^16 h + l, the product is h, plus one where l + h carries.
#[inline(always)]
fn product_lanes(a: u16x16, b: u16x16) -> u16x16
    ensures { result ≡ zip2 (channel_product 65535) a b }
{
    raise(a * b, high(a, b))
}

/// Returns the saturating sum of the numbers of each lane.
#[inline(always)]
fn sum_lanes(x: u16x16, y: u16x16) -> u16x16
    ensures { result ≡ zip2 (saturating_sum 65535) x y }
{
    x.saturating_add(y)
}

/// Returns, for four pixels of four channels, at each lane the last channel of its pixel.
///
/// The shift of words reads all lanes. With a bare shuffle, LLVM sees that only the last channels
/// are needed. Where nothing else needs the others, it loads them one by one and puts each four
/// times.
#[inline(always)]
pub(super) fn spread(pixels: u16x16) -> u16x16
    ensures { result ≡ last_of_four pixels }
{
    let words = u64x4::from_le_bytes(pixels.to_le_bytes()) >> u64x4::splat(48);
    let last = u16x16::from_le_bytes(words.to_le_bytes());
    last.shuffle(last, [0, 0, 0, 0, 4, 4, 4, 4, 8, 8, 8, 8, 12, 12, 12, 12])
}

/// Returns, for eight pixels of two channels, at each lane the last channel of its pixel.
#[inline(always)]
pub(super) fn twice_last(pixels: u16x16) -> u16x16
    ensures { result ≡ last_of_two pixels }
{
    pixels.shuffle(
        pixels,
        [1, 1, 3, 3, 5, 5, 7, 7, 9, 9, 11, 11, 13, 13, 15, 15],
    )
}

/// Returns the numbers of sixteen channels.
///
/// LLVM compiles the loop to one copy.
#[inline(always)]
pub(super) fn units(c: &[Ch16]) -> u16x16
    requires { length c.now ≡ 16 }
    ensures { result ≡ map (λ x. x.value) c.now }
{
    let mut own = [0; 16];
    for i in 0..16 {
        own[i] = c[i].value;
    }
    u16x16::from_array(own)
}

/// Returns the channels of sixteen numbers.
///
/// LLVM compiles the loop to one copy.
#[inline(always)]
pub(super) fn channels(v: u16x16) -> [Ch16; 16]
    ensures { map (λ x. x.value) result ≡ v }
{
    let from = v.to_array();
    let mut own = [Ch16 { value: 0 }; 16];
    for i in 0..16 {
        own[i] = Ch16 { value: from[i] };
    }
    own
}

/// Writes sixteen channels to a slice of sixteen.
#[inline(always)]
pub(super) fn store(to: &mut [Ch16], c: [Ch16; 16])
    requires { length to.old ≡ 16 }
    ensures { to.new ≡ c }
{
    if let Some(whole) = to.as_mut_array::<16>() {
        *whole = c;
    }
}

/// Multiplies each of sixteen channels by that of `by` of the same index.
#[inline(always)]
pub(super) fn mul_block(to: &mut [Ch16], by: &[Ch16])
    requires to_whole { length to.old ≡ 16 }
    requires by_whole { length by.now ≡ 16 }
    ensures { map (λ x. x.value) to.new ≡
        zip2 (channel_product 65535) (map (λ x. x.value) to.old) (map (λ x. x.value) by.now) }
{
    store(to, channels(product_lanes(units(to), units(by))));
}

/// Adds to each of sixteen channels that of `by` of the same index.
#[inline(always)]
pub(super) fn add_block(to: &mut [Ch16], by: &[Ch16])
    requires to_whole { length to.old ≡ 16 }
    requires by_whole { length by.now ≡ 16 }
    ensures { map (λ x. x.value) to.new ≡
        zip2 (saturating_sum 65535) (map (λ x. x.value) to.old) (map (λ x. x.value) by.now) }
{
    store(to, channels(sum_lanes(units(to), units(by))));
}
