//! Pixels of 8 bits whose colors are mapped by a table, eight at a time.
//!
//! The colors of each pixel are looked up one by one, and put into one vector. Lanes then give them
//! their alphas, or multiply them by these.
ghost use Rattle.std.specs.Prelude.{◌≡◌, ◌≤◌, ◌<◌, ◌+◌, ◌*◌, ℕ, Bool, length, slice_index_or};
ghost use Rattle.std.specs.Simd.Lanes.{zip2};
ghost use Rattle.pix_chan.specs.Lanes.{high_half};
ghost use Rattle.pix_chan.specs.Product.{channel_product};
ghost use Rattle.pix_chan.specs.Srgb.{srgb_decoded, srgb_encoded};
ghost use Rattle.pix_bytes.specs.Lit.{first_place, last_place};
ghost use Rattle.pix_bytes.specs.Recolored.{recolored, curved_at, colors_from, alphas_from, recolored_from};
ghost use Rattle.pix_bytes.specs.Recolored.{last_channels};
ghost use Rattle.pix_bytes.specs.Rows.{IsEach};

use crate::bitmap::rgba_light::ends;
use pix_chan::chan::Ch8;
use std::simd::prelude::*;

/// A table of colors.
pub(crate) trait Table {
    /// What it makes of a color.
    ghost curve: { ℕ → ℕ };

    /// Returns the entry for a color.
    fn entry(color: u8) -> u8
        ensures { result ≡ curve color };
}

/// The table of the linear colors of sRGB levels.
pub(crate) struct Decoded;

impl Table for Decoded {
    ghost curve = { srgb_decoded };

    #[inline(always)]
    fn entry(color: u8) -> u8 {
        u8::from(Ch8::new(color).decode_srgb())
    }
}

/// The table of the sRGB levels of linear colors.
pub(crate) struct Encoded;

impl Table for Encoded {
    ghost curve = { srgb_encoded };

    #[inline(always)]
    fn entry(color: u8) -> u8 {
        u8::from(Ch8::new(color).encode_srgb())
    }
}

/// Returns the entry for the byte at a place. Condition: there is one.
#[inline(always)]
fn entry_at<T: Table>(bytes: &[u8], place: usize) -> u8
    requires { place < length bytes.now }
    ensures { result ≡ curved_at T.curve bytes.now place }
{
    T::entry(bytes[place])
}

/// Returns the entries for the colors of eight pixels, with a 0 after those of each. Condition: a
/// pixel has `size` bytes, at least three.
#[inline(always)]
fn entries<T: Table>(is_reversed: bool, size: usize, bytes: &[u8]) -> u8x32
    requires colors { 3 ≤ size }
    requires whole { length bytes.now ≡ 8 * size }
    ensures { result ≡ colors_from T.curve is_reversed size 0 bytes.now 0 8 }
{
    let (first, last) = ends(is_reversed);
    u8x32::from_array([
        entry_at::<T>(bytes, first),
        entry_at::<T>(bytes, 1),
        entry_at::<T>(bytes, last),
        0,
        entry_at::<T>(bytes, size + first),
        entry_at::<T>(bytes, size + 1),
        entry_at::<T>(bytes, size + last),
        0,
        entry_at::<T>(bytes, 2 * size + first),
        entry_at::<T>(bytes, 2 * size + 1),
        entry_at::<T>(bytes, 2 * size + last),
        0,
        entry_at::<T>(bytes, 3 * size + first),
        entry_at::<T>(bytes, 3 * size + 1),
        entry_at::<T>(bytes, 3 * size + last),
        0,
        entry_at::<T>(bytes, 4 * size + first),
        entry_at::<T>(bytes, 4 * size + 1),
        entry_at::<T>(bytes, 4 * size + last),
        0,
        entry_at::<T>(bytes, 5 * size + first),
        entry_at::<T>(bytes, 5 * size + 1),
        entry_at::<T>(bytes, 5 * size + last),
        0,
        entry_at::<T>(bytes, 6 * size + first),
        entry_at::<T>(bytes, 6 * size + 1),
        entry_at::<T>(bytes, 6 * size + last),
        0,
        entry_at::<T>(bytes, 7 * size + first),
        entry_at::<T>(bytes, 7 * size + 1),
        entry_at::<T>(bytes, 7 * size + last),
        0,
    ])
}

/// Returns the entries for the colors of eight pixels, with a 255 after those of each. Condition: a
/// pixel has `size` bytes, at least three.
///
/// The 255s are put over zeros, which cost LLVM nothing: it would insert each 255 alone.
#[inline(always)]
fn opaque<T: Table>(is_reversed: bool, size: usize, bytes: &[u8]) -> u8x32
    requires colors { 3 ≤ size }
    requires whole { length bytes.now ≡ 8 * size }
    ensures { result ≡ colors_from T.curve is_reversed size 255 bytes.now 0 8 }
{
    let alphas = u8x32::from_array([
        0, 0, 0, 255, 0, 0, 0, 255, 0, 0, 0, 255, 0, 0, 0, 255, 0, 0, 0, 255, 0, 0, 0, 255, 0, 0,
        0, 255, 0, 0, 0, 255,
    ]);
    entries::<T>(is_reversed, size, bytes) | alphas
}

/// Returns the alphas of eight pixels, each once for each channel of its pixel.
#[inline(always)]
fn alphas(pixels: u8x32) -> u8x32
    ensures { result ≡ alphas_from pixels 0 8 }
{
    pixels.swizzle([
        3, 3, 3, 3, 7, 7, 7, 7, 11, 11, 11, 11, 15, 15, 15, 15, 19, 19, 19, 19, 23, 23, 23, 23, 27,
        27, 27, 27, 31, 31, 31, 31,
    ])
}

/// Returns the channel products of bytes, each in a lane of 16 bits.
///
/// With t = x y + 128, the product is 257 t / 2^16 rounded down: the high half of a product of 16
/// bits.
#[inline(always)]
fn near(a: u16x16, b: u16x16) -> u16x16
    ensures { result ≡ zip2 high_half a b }
{
    let t = a * b + u16x16::splat(128);
    let high = (t.cast::<u32>() * u32x16::splat(257)) >> u32x16::splat(16);
    high.cast::<u16>()
}

/// Returns the channel product of the bytes of each lane: those of even and those of odd index
/// apart, in lanes of 16 bits. The odd ones go back to their places by a shuffle of bytes.
#[inline(always)]
fn products(a: u8x32, b: u8x32) -> u8x32
    ensures { result ≡ zip2 (channel_product 255) a b }
{
    let x = u16x16::from_le_bytes(a);
    let y = u16x16::from_le_bytes(b);
    let even = near(x & u16x16::splat(255), y & u16x16::splat(255)).to_le_bytes();
    let odd = near(x >> u16x16::splat(8), y >> u16x16::splat(8)).to_le_bytes();
    let behind = odd.shuffle(
        u8x32::splat(0),
        [
            32, 0, 32, 2, 32, 4, 32, 6, 32, 8, 32, 10, 32, 12, 32, 14, 32, 16, 32, 18, 32, 20, 32,
            22, 32, 24, 32, 26, 32, 28, 32, 30,
        ],
    );
    even | behind
}

/// Returns eight pixels whose colors the table maps, in their order or reversed, and which are
/// multiplied by the alphas or not. Condition: they have thirty-two bytes.
#[inline(always)]
fn mapped<T: Table>(is_reversed: bool, is_premultiplied: bool, bytes: &[u8]) -> u8x32
    requires { length bytes.now ≡ 32 }
    ensures { result ≡ recolored_from T.curve is_reversed is_premultiplied bytes.now 0 8 }
{
    let pixels = u8x32::from_slice(bytes);
    if is_premultiplied {
        products(opaque::<T>(is_reversed, 4, bytes), alphas(pixels))
    } else {
        entries::<T>(is_reversed, 4, bytes).shuffle(
            pixels,
            [
                0, 1, 2, 35, 4, 5, 6, 39, 8, 9, 10, 43, 12, 13, 14, 47, 16, 17, 18, 51, 20, 21, 22,
                55, 24, 25, 26, 59, 28, 29, 30, 63,
            ],
        )
    }
}

/// Writes eight pixels of four bytes whose colors the table maps. Condition: there are as many of
/// both.
#[inline(always)]
fn map_eight<T: Table>(is_reversed: bool, is_premultiplied: bool, src: &[u8], dst: &mut [u8])
    requires src { length src.now ≡ 32 }
    requires dst { length dst.old ≡ 32 }
    ensures { IsEach 255 255 4 4 4 4 (recolored T.curve is_reversed is_premultiplied)
        src.now dst.new 8 }
{
    if let Some(whole) = dst.as_mut_array::<32>() {
        *whole = mapped::<T>(is_reversed, is_premultiplied, src).to_array();
    }
}

/// Writes eight pixels of three bytes as opaque ones whose colors the table maps. Condition: there
/// are as many of both.
#[inline(always)]
fn map_eight_opaque<T: Table>(is_reversed: bool, src: &[u8], dst: &mut [u8])
    requires src { length src.now ≡ 24 }
    requires dst { length dst.old ≡ 32 }
    ensures { (is_premultiplied : Bool)
        → IsEach 255 255 3 4 3 4 (recolored T.curve is_reversed is_premultiplied) src.now dst.new
        8 }
{
    if let Some(whole) = dst.as_mut_array::<32>() {
        *whole = opaque::<T>(is_reversed, 3, src).to_array();
    }
}

/// Writes as many of the first `count` pixels of four bytes as go in eights, and maps their colors
/// by the table. Returns their number.
///
/// Condition: there are `count` of both.
#[inline(always)]
pub(crate) fn map_eights<T: Table>(
    is_reversed: bool,
    is_premultiplied: bool,
    src: &[u8],
    dst: &mut [u8],
    count: usize,
) -> usize
    requires src { length src.now ≡ count * 4 }
    requires dst { length dst.old ≡ count * 4 }
    ensures some { result ≤ count }
    ensures each { IsEach 255 255 4 4 4 4 (recolored T.curve is_reversed is_premultiplied)
        src.now dst.new result }
{
    for k in 0..count / 8 {
        map_eight::<T>(
            is_reversed,
            is_premultiplied,
            &src[32 * k..32 * k + 32],
            &mut dst[32 * k..32 * k + 32],
        );
    }
    count / 8 * 8
}

/// Writes as many of the first `count` pixels of three bytes as go in eights as opaque ones, and
/// maps their colors by the table. Returns their number.
///
/// Condition: there are `count` of both.
#[inline(always)]
pub(crate) fn map_eights_opaque<T: Table>(
    is_reversed: bool,
    src: &[u8],
    dst: &mut [u8],
    count: usize,
) -> usize
    requires src { length src.now ≡ count * 3 }
    requires dst { length dst.old ≡ count * 4 }
    ensures some { result ≤ count }
    ensures each { (is_premultiplied : Bool)
        → IsEach 255 255 3 4 3 4 (recolored T.curve is_reversed is_premultiplied)
        src.now dst.new result }
{
    for k in 0..count / 8 {
        map_eight_opaque::<T>(
            is_reversed,
            &src[24 * k..24 * k + 24],
            &mut dst[32 * k..32 * k + 32],
        );
    }
    count / 8 * 8
}
