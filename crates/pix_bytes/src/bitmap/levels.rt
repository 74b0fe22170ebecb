//! Pixels of light as sRGB, four at a time. The light has 16 bits, and its colors are multiplied by
//! an alpha. The sRGB has red, green, blue and alpha, or blue, green, red and alpha.
//!
//! Where not all four are opaque, their colors are divided by the alphas. Of sixteen pixels all are
//! divided before one is encoded.
ghost use Rattle.std.specs.Prelude.{◌≡◌, ◌≤◌, ◌*◌, ◌/◌, ◌++◌, map, length};
ghost use Rattle.std.specs.Simd.Lanes.{pick_l, zip2};
ghost use Rattle.pix_chan.specs.LaneQuotients.{alphas_in};
ghost use Rattle.pix_chan.specs.Product.{channel_quotient};
ghost use Rattle.pix_chan.specs.Srgb16.{srgb_encoded8};
ghost use Rattle.pix_bytes.specs.Rows.{IsEach};
ghost use Rattle.pix_bytes.specs.Shown.{shown, shown_places, straight_light};
ghost use Rattle.pix_bytes.specs.BitmapFormats.{samples};

use pix_chan::chan::Ch16;
use pix_chan::quotients16::lanes::{are_opaque, are_repeated, divided_by_any, divided_by_bytes};
use std::simd::prelude::*;

/// Returns the channels of four pixels. Condition: they have thirty-two bytes.
#[inline(always)]
fn channels(bytes: &[u8]) -> u16x16
    requires { length bytes.now ≡ 32 }
    ensures { result ≡ samples 65535 16 bytes.now }
{
    u16x16::from_le_bytes(u8x32::from_slice(bytes))
}

/// Returns three levels and the alpha of each of four pixels. The first and the last level may be
/// swapped.
#[inline(always)]
fn arranged(is_reversed: bool, levels: u16x16, alphas: u16x16) -> u16x16
    ensures { result ≡ pick_l 0 (levels ++ alphas) (shown_places is_reversed) }
{
    if is_reversed {
        levels.shuffle(
            alphas,
            [2, 1, 0, 19, 6, 5, 4, 23, 10, 9, 8, 27, 14, 13, 12, 31],
        )
    } else {
        levels.shuffle(
            alphas,
            [0, 1, 2, 19, 4, 5, 6, 23, 8, 9, 10, 27, 12, 13, 14, 31],
        )
    }
}

/// Returns four pixels as sRGB, by their straight channels and by those that are multiplied by the
/// alphas.
#[inline(always)]
fn encoded(is_reversed: bool, straight: u16x16, channels: u16x16) -> u8x16
    ensures { result ≡ pick_l 0 (map srgb_encoded8 straight ++ map (λ x. x / 256) channels)
        (shown_places is_reversed) }
{
    let levels = Ch16::encode_srgb8_lanes(straight);
    arranged(is_reversed, levels, channels >> u16x16::splat(8)).cast::<u8>()
}

/// Returns the colors of four pixels divided by their alphas.
///
/// It is no part of the loop, which keeps its own constants in registers then.
#[inline(never)]
fn straight_by_any(x: u16x16) -> u16x16
    ensures { result ≡ zip2 (channel_quotient 65535) x (alphas_in x) }
{
    divided_by_any(x)
}

/// Returns the channels of four pixels divided by their alphas. Condition: they have thirty-two
/// bytes.
#[inline(always)]
fn straight(bytes: &[u8]) -> u16x16
    requires { length bytes.now ≡ 32 }
    ensures { result ≡ straight_light bytes.now }
{
    let x = channels(bytes);
    if are_opaque(x) {
        x
    } else if are_repeated(x) {
        divided_by_bytes(x, bytes[6], bytes[14], bytes[22], bytes[30])
    } else {
        straight_by_any(x)
    }
}

/// Writes four pixels as sRGB, by their channels divided by their alphas. Condition: there are as
/// many of both.
#[inline(always)]
fn put_encoded(is_reversed: bool, straight: u16x16, src: &[u8], dst: &mut [u8])
    requires straight { straight ≡ straight_light src.now }
    requires src { length src.now ≡ 32 }
    requires dst { length dst.old ≡ 16 }
    ensures { IsEach 65535 255 4 4 8 4 (shown is_reversed) src.now dst.new 4 }
{
    if let Some(whole) = dst.as_mut_array::<16>() {
        *whole = encoded(is_reversed, straight, channels(src)).to_array();
    }
}

/// Writes four pixels as sRGB. Condition: there are as many of both.
#[inline(always)]
fn encode_four(is_reversed: bool, src: &[u8], dst: &mut [u8])
    requires src { length src.now ≡ 32 }
    requires dst { length dst.old ≡ 16 }
    ensures { IsEach 65535 255 4 4 8 4 (shown is_reversed) src.now dst.new 4 }
{
    put_encoded(is_reversed, straight(src), src, dst);
}

/// Writes sixteen pixels as sRGB. Condition: there are as many of both.
///
/// All are divided before one is encoded, so that the processor divides several fours at once, and
/// then looks up the levels of several.
#[inline(always)]
fn encode_sixteen(is_reversed: bool, src: &[u8], dst: &mut [u8])
    requires src { length src.now ≡ 128 }
    requires dst { length dst.old ≡ 64 }
    ensures { IsEach 65535 255 4 4 8 4 (shown is_reversed) src.now dst.new 16 }
{
    let one = straight(&src[0..32]);
    let two = straight(&src[32..64]);
    let three = straight(&src[64..96]);
    let four = straight(&src[96..128]);
    put_encoded(is_reversed, one, &src[0..32], &mut dst[0..16]);
    put_encoded(is_reversed, two, &src[32..64], &mut dst[16..32]);
    put_encoded(is_reversed, three, &src[64..96], &mut dst[32..48]);
    put_encoded(is_reversed, four, &src[96..128], &mut dst[48..64]);
}

/// Writes as many of the first `count` pixels as go in sixteens as sRGB.
///
/// Condition: there are `count` of both.
#[inline(always)]
fn encode_sixteens(is_reversed: bool, src: &[u8], dst: &mut [u8], count: usize)
    requires src { length src.now ≡ count * 8 }
    requires dst { length dst.old ≡ count * 4 }
    ensures { IsEach 65535 255 4 4 8 4 (shown is_reversed) src.now dst.new (count / 16 * 16) }
{
    for k in 0..count / 16 {
        encode_sixteen(
            is_reversed,
            &src[128 * k..128 * k + 128],
            &mut dst[64 * k..64 * k + 64],
        );
    }
}

/// Writes as many of the first `count` pixels as go in fours as sRGB. Returns their number.
///
/// Condition: there are `count` of both.
#[inline(always)]
pub(crate) fn encode_fours(is_reversed: bool, src: &[u8], dst: &mut [u8], count: usize) -> usize
    requires src { length src.now ≡ count * 8 }
    requires dst { length dst.old ≡ count * 4 }
    ensures some { result ≤ count }
    ensures each { IsEach 65535 255 4 4 8 4 (shown is_reversed) src.now dst.new result }
{
    encode_sixteens(is_reversed, src, dst, count);
    for k in count / 16 * 4..count / 4 {
        encode_four(
            is_reversed,
            &src[32 * k..32 * k + 32],
            &mut dst[16 * k..16 * k + 16],
        );
    }
    count / 4 * 4
}
