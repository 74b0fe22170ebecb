//! Products and sums of thirty-two channels of 8 bits at a time, on lanes.
//!
//! Products use lanes of 16 bits. The bytes of even index and those of odd index are taken apart,
//! which needs only masks and shifts. Widening sixteen bytes needs shuffles, for which x86-64 has
//! one port.
ghost use Rattle.std.specs.Prelude.{◌≡◌, map, length};
ghost use Rattle.std.specs.Simd.Lanes.{zip2};
ghost use Rattle.pix_chan.specs.Number.{saturating_sum};
ghost use Rattle.pix_chan.specs.Product.{channel_product};
ghost use Rattle.pix_chan.specs.Planes.{last_of_four, last_of_two};
ghost use Rattle.pix_chan.specs.Lanes.{high_half};

use crate::chan::bits8::Ch8;
use std::simd::prelude::*;

/// Returns the channel products of bytes, each in a lane of 16 bits.
///
/// With t = x y + 128, the product is 257 t / 2^16 rounded down: the high half of a product of 16
/// bits.
#[inline(always)]
fn near(a: u16x16, b: u16x16) -> u16x16
    ensures { result ≡ zip2 high_half a b }
{
    let t = a * b + u16x16::splat(128);
    let high = (t.cast::<u32>() * u32x16::splat(257)) >> u32x16::splat(16);
    high.cast::<u16>()
}

/// Returns the channel product of the bytes of each lane.
///
/// The odd ones go back to their places by a shuffle of bytes. A shift of words by 8 brings
/// them there too, but LLVM then computes the high half of their products by four steps in place of
/// one.
#[inline(always)]
fn product_lanes(a: u8x32, b: u8x32) -> u8x32
    ensures { result ≡ zip2 (channel_product 255) a b }
{
    let x = u16x16::from_le_bytes(a);
    let y = u16x16::from_le_bytes(b);
    let even = near(x & u16x16::splat(255), y & u16x16::splat(255)).to_le_bytes();
    let odd = near(x >> u16x16::splat(8), y >> u16x16::splat(8)).to_le_bytes();
    let behind = odd.shuffle(
        u8x32::splat(0),
        [
            32, 0, 32, 2, 32, 4, 32, 6, 32, 8, 32, 10, 32, 12, 32, 14, 32, 16, 32, 18, 32, 20, 32,
            22, 32, 24, 32, 26, 32, 28, 32, 30,
        ],
    );
    even | behind
}

/// Returns the saturating sum of the bytes of each lane.
#[inline(always)]
fn sum_lanes(x: u8x32, y: u8x32) -> u8x32
    ensures { result ≡ zip2 (saturating_sum 255) x y }
{
    x.saturating_add(y)
}

/// Returns, for eight pixels of four channels, at each lane the last channel of its pixel.
///
/// It is put together from words that have the channel in their low byte alone. So LLVM sees that
/// both bytes of a word are equal, and a product takes them apart once.
#[inline(always)]
pub(super) fn spread(pixels: u8x32) -> u8x32
    ensures { result ≡ last_of_four pixels }
{
    let last = (u32x8::from_le_bytes(pixels) >> u32x8::splat(24)).to_le_bytes();
    let low = u16x16::from_le_bytes(last.shuffle(
        u8x32::splat(0),
        [
            0, 32, 0, 32, 4, 32, 4, 32, 8, 32, 8, 32, 12, 32, 12, 32, 16, 32, 16, 32, 20, 32, 20,
            32, 24, 32, 24, 32, 28, 32, 28, 32,
        ],
    ));
    (low | (low << u16x16::splat(8))).to_le_bytes()
}

/// Returns, for sixteen pixels of two channels, at each lane the last channel of its pixel. It
/// shifts words, as products do, so that LLVM sees through both.
#[inline(always)]
pub(super) fn twice_last(pixels: u8x32) -> u8x32
    ensures { result ≡ last_of_two pixels }
{
    let last = u16x16::from_le_bytes(pixels) >> u16x16::splat(8);
    (last | (last << u16x16::splat(8))).to_le_bytes()
}

/// Returns the numbers of thirty-two channels.
///
/// LLVM compiles the loop to one copy. For an array that names all elements it makes a step for
/// each, and inlines no caller of that length.
#[inline(always)]
pub(super) fn units(c: &[Ch8]) -> u8x32
    requires { length c.now ≡ 32 }
    ensures { result ≡ map (λ x. x.value) c.now }
{
    let mut own = [0; 32];
    for i in 0..32 {
        own[i] = c[i].value;
    }
    u8x32::from_array(own)
}

/// Returns the channels of thirty-two numbers.
///
/// LLVM compiles the loop to one copy.
#[inline(always)]
pub(super) fn channels(v: u8x32) -> [Ch8; 32]
    ensures { map (λ x. x.value) result ≡ v }
{
    let from = v.to_array();
    let mut own = [Ch8 { value: 0 }; 32];
    for i in 0..32 {
        own[i] = Ch8 { value: from[i] };
    }
    own
}

/// Writes thirty-two channels to a slice of thirty-two.
#[inline(always)]
fn store(to: &mut [Ch8], c: [Ch8; 32])
    requires { length to.old ≡ 32 }
    ensures { to.new ≡ c }
{
    if let Some(whole) = to.as_mut_array::<32>() {
        *whole = c;
    }
}

/// Multiplies each of thirty-two channels by that of `by` of the same index.
#[inline(always)]
pub(super) fn mul_block(to: &mut [Ch8], by: &[Ch8])
    requires to_whole { length to.old ≡ 32 }
    requires by_whole { length by.now ≡ 32 }
    ensures { map (λ x. x.value) to.new ≡
        zip2 (channel_product 255) (map (λ x. x.value) to.old) (map (λ x. x.value) by.now) }
{
    store(to, channels(product_lanes(units(to), units(by))));
}

/// Adds to each of thirty-two channels that of `by` of the same index.
#[inline(always)]
pub(super) fn add_block(to: &mut [Ch8], by: &[Ch8])
    requires to_whole { length to.old ≡ 32 }
    requires by_whole { length by.now ≡ 32 }
    ensures { map (λ x. x.value) to.new ≡
        zip2 (saturating_sum 255) (map (λ x. x.value) to.old) (map (λ x. x.value) by.now) }
{
    store(to, channels(sum_lanes(units(to), units(by))));
}
