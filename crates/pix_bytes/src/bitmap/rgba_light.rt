//! sRGB pixels of red, green, blue and alpha, or blue, green, red and alpha, in light, four at a
//! time.
//!
//! The colors of each are looked up as those of an opaque pixel. Where not all four are opaque,
//! their sixteen channels are then multiplied by the alphas.
ghost use Rattle.std.specs.Prelude.{◌≡◌, ◌≤◌, ◌<◌, ◌*◌, ◌/◌, length, replicate, slice_index_or, true};
ghost use Rattle.std.specs.Simd.Lanes.{zip2};
ghost use Rattle.pix_chan.specs.Product.{channel_product};
ghost use Rattle.pix_chan.specs.Srgb16.{srgb_decoded16};
ghost use Rattle.pix_bytes.specs.Lit.{multiplied_light, first_place, last_place, light_at, opaque_light};
ghost use Rattle.pix_bytes.specs.Lit.{four_alphas, bytes_of};
ghost use Rattle.pix_bytes.specs.Rows.{IsEach};

use pix_chan::chan::Ch8;
use pix_chan::quotients16::lanes::high_products;
use std::simd::prelude::*;

/// Returns the channel products of the lanes.
///
/// With t = x y + 32768, the product is the upper half of t, plus one where the sum of both halves
/// carries.
#[inline(always)]
fn products(x: u16x16, y: u16x16) -> u16x16
    ensures { result ≡ zip2 (channel_product 65535) x y }
{
    let low = x * y;
    let upper = high_products(x, y) + (low >> u16x16::splat(15));
    let lower = low + u16x16::splat(32768);
    let sum = lower + upper;
    upper
        + sum
            .simd_lt(lower)
            .select(u16x16::splat(1), u16x16::splat(0))
}

/// Returns the alphas of four pixels in 16 bits, each once for each channel of its pixel.
#[inline(always)]
fn alphas(pixels: u8x16) -> u16x16
    ensures { result ≡ four_alphas pixels }
{
    let a = pixels.swizzle([3, 3, 3, 3, 7, 7, 7, 7, 11, 11, 11, 11, 15, 15, 15, 15]);
    a.cast::<u16>() * u16x16::splat(257)
}

/// Returns the linear channel of an sRGB level.
#[inline(always)]
fn light(level: u8) -> u16
    ensures { result ≡ srgb_decoded16 level }
{
    u16::from(Ch8::new(level).decode_srgb16())
}

/// Returns the bytes of four pixels. Condition: there are sixteen.
#[inline(always)]
fn pixels(bytes: &[u8]) -> [u8; 16]
    requires { length bytes.now ≡ 16 }
    ensures { result ≡ bytes.now }
{
    if let Some(whole) = bytes.as_array::<16>() {
        *whole
    } else {
        [0; 16]
    }
}

/// Returns the places of the first and the last color in a pixel.
#[inline(always)]
pub(super) fn ends(is_reversed: bool) -> (usize, usize)
    ensures first { result.0 ≡ first_place is_reversed }
    ensures last { result.1 ≡ last_place is_reversed }
    ensures first_fits { result.0 < 4 }
    ensures last_fits { result.1 < 4 }
{
    if is_reversed { (2, 0) } else { (0, 2) }
}

/// Returns the light of four sRGB pixels as if they were opaque. Condition: they have sixteen
/// bytes.
#[inline(always)]
fn opaque(is_reversed: bool, bytes: &[u8]) -> u16x16
    requires { length bytes.now ≡ 16 }
    ensures { result ≡ opaque_light is_reversed bytes.now }
{
    let p = pixels(bytes);
    let (first, last) = ends(is_reversed);
    u16x16::from_array([
        light(p[first]),
        light(p[1]),
        light(p[last]),
        65535,
        light(p[4 + first]),
        light(p[5]),
        light(p[4 + last]),
        65535,
        light(p[8 + first]),
        light(p[9]),
        light(p[8 + last]),
        65535,
        light(p[12 + first]),
        light(p[13]),
        light(p[12 + last]),
        65535,
    ])
}

/// Writes the lanes, the lower byte of each first. Condition: there is room for sixteen.
#[inline(always)]
fn put(bytes: &mut [u8], lanes: u16x16)
    requires { length bytes.old ≡ 32 }
    ensures { bytes.new ≡ bytes_of lanes }
{
    if let Some(whole) = bytes.as_mut_array::<32>() {
        *whole = lanes.to_le_bytes().to_array();
    }
}

/// Returns whether all bytes are 255.
#[inline(always)]
fn are_full(bytes: u8x16) -> bool
    ensures { result ≡ true → bytes ≡ replicate 16 255 }
{
    bytes.simd_eq(u8x16::splat(255)).to_bitmask() == 65535
}

/// Returns whether four pixels are opaque. Condition: they have sixteen bytes.
///
/// The bytes of their colors are set to 255, so that one test of all sixteen is one of the alphas.
#[inline(always)]
fn are_opaque(bytes: &[u8]) -> bool
    requires { length bytes.now ≡ 16 }
    ensures three { result ≡ true → slice_index_or bytes.now 3 0 ≡ 255 }
    ensures seven { result ≡ true → slice_index_or bytes.now 7 0 ≡ 255 }
    ensures eleven { result ≡ true → slice_index_or bytes.now 11 0 ≡ 255 }
    ensures fifteen { result ≡ true → slice_index_or bytes.now 15 0 ≡ 255 }
{
    let colors = u8x16::from_array([
        255, 255, 255, 0, 255, 255, 255, 0, 255, 255, 255, 0, 255, 255, 255, 0,
    ]);
    are_full(u8x16::from_slice(bytes) | colors)
}

/// Returns the light of four sRGB pixels, multiplied by their alphas. Condition: they have sixteen
/// bytes.
#[inline(always)]
fn lit(is_reversed: bool, bytes: &[u8]) -> u16x16
    requires { length bytes.now ≡ 16 }
    ensures { result ≡
        zip2 (channel_product 65535) (opaque_light is_reversed bytes.now) (four_alphas bytes.now) }
{
    let colors = opaque(is_reversed, bytes);
    if are_opaque(bytes) {
        colors
    } else {
        products(colors, alphas(u8x16::from_slice(bytes)))
    }
}

/// Writes four sRGB pixels in light, multiplied by their alphas. Condition: there are as many of
/// both.
#[inline(always)]
fn decode_four(is_reversed: bool, src: &[u8], dst: &mut [u8])
    requires src { length src.now ≡ 16 }
    requires dst { length dst.old ≡ 32 }
    ensures { IsEach 255 65535 4 4 4 8 (multiplied_light is_reversed) src.now dst.new 4 }
{
    put(dst, lit(is_reversed, src));
}

/// Writes as many of the first `count` sRGB pixels as go in fours in light, multiplied by their
/// alphas. Returns their number.
///
/// Condition: there are `count` of both.
#[inline(always)]
pub(crate) fn decode_fours(is_reversed: bool, src: &[u8], dst: &mut [u8], count: usize) -> usize
    requires src { length src.now ≡ count * 4 }
    requires dst { length dst.old ≡ count * 8 }
    ensures some { result ≤ count }
    ensures each { IsEach 255 65535 4 4 4 8 (multiplied_light is_reversed) src.now dst.new result }
{
    for k in 0..count / 4 {
        decode_four(
            is_reversed,
            &src[16 * k..16 * k + 16],
            &mut dst[32 * k..32 * k + 32],
        );
    }
    count / 4 * 4
}
