//! Products and sums of sixteen channels of 8 bits at a time, on lanes.
ghost use Rattle.std.specs.Prelude.{◌≡◌, map, length};
ghost use Rattle.std.specs.Simd.Lanes.{zip2};
ghost use Rattle.pix_chan.specs.Number.{saturating_sum};
ghost use Rattle.pix_chan.specs.Product.{channel_product, channel_quotient};
ghost use Rattle.pix_chan.specs.Planes.{with_alphas};
ghost use Rattle.pix_chan.specs.LaneQuotients.{alphas_in};
ghost use Rattle.pix_chan.specs.Lanes.{high_half};

use crate::chan::bits8::Ch8;
use crate::quotients8::quotient;
use std::simd::prelude::*;

/// Returns the channel product of the bytes of each lane.
///
/// The bytes of even index and those of odd index are multiplied apart, in lanes of 16 bits, as
/// among thirty-two (`pairs.rt`).
#[inline(always)]
fn product_lanes(a: u8x16, b: u8x16) -> u8x16
    ensures { result ≡ zip2 (channel_product 255) a b }
{
    let x = u16x8::from_le_bytes(a);
    let y = u16x8::from_le_bytes(b);
    let even = near(x & u16x8::splat(255), y & u16x8::splat(255)).to_le_bytes();
    let odd = near(x >> u16x8::splat(8), y >> u16x8::splat(8)).to_le_bytes();
    let behind = odd.shuffle(
        u8x16::splat(0),
        [16, 0, 16, 2, 16, 4, 16, 6, 16, 8, 16, 10, 16, 12, 16, 14],
    );
    even | behind
}

/// Returns the channel products of bytes, each in a lane of 16 bits.
#[inline(always)]
fn near(a: u16x8, b: u16x8) -> u16x8
    ensures { result ≡ zip2 high_half a b }
{
    let t = a * b + u16x8::splat(128);
    let high = (t.cast::<u32>() * u32x8::splat(257)) >> u32x8::splat(16);
    high.cast::<u16>()
}

/// Returns the saturating sum of the bytes of each lane.
#[inline(always)]
fn sum_lanes(x: u8x16, y: u8x16) -> u8x16
    ensures { result ≡ zip2 (saturating_sum 255) x y }
{
    x.saturating_add(y)
}

/// Returns four pixels of four channels, each channel divided by the last one of its pixel.
#[inline(always)]
fn over_alphas(x: u8x16) -> u8x16
    ensures { result ≡ zip2 (channel_quotient 255) x (alphas_in x) }
{
    let p = x.to_array();
    u8x16::from_array([
        quotient(p[0], p[3]),
        quotient(p[1], p[3]),
        quotient(p[2], p[3]),
        quotient(p[3], p[3]),
        quotient(p[4], p[7]),
        quotient(p[5], p[7]),
        quotient(p[6], p[7]),
        quotient(p[7], p[7]),
        quotient(p[8], p[11]),
        quotient(p[9], p[11]),
        quotient(p[10], p[11]),
        quotient(p[11], p[11]),
        quotient(p[12], p[15]),
        quotient(p[13], p[15]),
        quotient(p[14], p[15]),
        quotient(p[15], p[15]),
    ])
}

/// Returns four pixels of four channels, each color divided by the alpha of its pixel.
#[inline(always)]
pub(super) fn unmultiplied(x: u8x16) -> u8x16
    ensures { result ≡ with_alphas (zip2 (channel_quotient 255) x (alphas_in x)) x }
{
    over_alphas(x).shuffle(x, [0, 1, 2, 19, 4, 5, 6, 23, 8, 9, 10, 27, 12, 13, 14, 31])
}

/// Returns the numbers of sixteen channels.
#[inline(always)]
pub(super) fn units(c: &[Ch8]) -> u8x16
    requires { length c.now ≡ 16 }
    ensures { result ≡ map (λ x. x.value) c.now }
{
    u8x16::from_array([
        c[0].value,
        c[1].value,
        c[2].value,
        c[3].value,
        c[4].value,
        c[5].value,
        c[6].value,
        c[7].value,
        c[8].value,
        c[9].value,
        c[10].value,
        c[11].value,
        c[12].value,
        c[13].value,
        c[14].value,
        c[15].value,
    ])
}

/// Returns the channels of sixteen numbers.
#[inline(always)]
pub(super) fn channels(v: u8x16) -> [Ch8; 16]
    ensures { map (λ x. x.value) result ≡ v }
{
    let c = v.to_array();
    [
        Ch8 { value: c[0] },
        Ch8 { value: c[1] },
        Ch8 { value: c[2] },
        Ch8 { value: c[3] },
        Ch8 { value: c[4] },
        Ch8 { value: c[5] },
        Ch8 { value: c[6] },
        Ch8 { value: c[7] },
        Ch8 { value: c[8] },
        Ch8 { value: c[9] },
        Ch8 { value: c[10] },
        Ch8 { value: c[11] },
        Ch8 { value: c[12] },
        Ch8 { value: c[13] },
        Ch8 { value: c[14] },
        Ch8 { value: c[15] },
    ]
}

/// Writes sixteen channels to a slice of sixteen.
#[inline(always)]
fn store(to: &mut [Ch8], c: [Ch8; 16])
    requires { length to.old ≡ 16 }
    ensures { to.new ≡ c }
{
    if let Some(whole) = to.as_mut_array::<16>() {
        *whole = c;
    }
}

/// Multiplies each of sixteen channels by that of `by` of the same index.
#[inline(always)]
pub(super) fn mul_block(to: &mut [Ch8], by: &[Ch8])
    requires to_whole { length to.old ≡ 16 }
    requires by_whole { length by.now ≡ 16 }
    ensures { map (λ x. x.value) to.new ≡
        zip2 (channel_product 255) (map (λ x. x.value) to.old) (map (λ x. x.value) by.now) }
{
    store(to, channels(product_lanes(units(to), units(by))));
}

/// Adds to each of sixteen channels that of `by` of the same index.
#[inline(always)]
pub(super) fn add_block(to: &mut [Ch8], by: &[Ch8])
    requires to_whole { length to.old ≡ 16 }
    requires by_whole { length by.now ≡ 16 }
    ensures { map (λ x. x.value) to.new ≡
        zip2 (saturating_sum 255) (map (λ x. x.value) to.old) (map (λ x. x.value) by.now) }
{
    store(to, channels(sum_lanes(units(to), units(by))));
}
