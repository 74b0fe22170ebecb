//! Four pixels of four channels of 16 bits divided by their alphas, on lanes.
//!
//! Each channel is multiplied by a reciprocal of its alpha. Where the four alphas come from eight
//! bits, the reciprocals are in a table, and else two divisions make each.
ghost use Rattle.std.specs.Prelude.{◌≡◌, ◌<◌, ◌*◌, ◌/◌, ◌%◌, ◌^◌, ◌++◌, ℕ, List, map, length, replicate, slice_index_or, true};
ghost use Rattle.std.specs.Simd.Lanes.{zip2, Each1, number_l, digits_l};
ghost use Rattle.pix_chan.specs.Product.{channel_quotient};
ghost use Rattle.pix_chan.specs.Planes.{with_alphas};
ghost use Rattle.pix_chan.specs.LaneQuotients.{alphas_in, whole_reciprocal_of, parts, IsReciprocal};
ghost use Rattle.pix_chan.specs.declared.quotients16.TheConstants.{RECIPROCALS};

use crate::quotients16::reciprocal;
use std::simd::prelude::*;

/// Returns the alphas of four pixels, each once for each channel of its pixel.
#[inline(always)]
fn alphas(x: u16x16) -> u16x16
    ensures { result ≡ alphas_in x }
{
    x.swizzle([3, 3, 3, 3, 7, 7, 7, 7, 11, 11, 11, 11, 15, 15, 15, 15])
}

/// Returns whether all lanes have this value.
#[inline(always)]
fn are_all(lanes: u16x16, value: u16) -> bool
    ensures { result ≡ true → lanes ≡ replicate 16 value }
{
    lanes.simd_eq(u16x16::splat(value)).to_bitmask() == 65535
}

/// Returns whether the alphas of four pixels are all 65535.
///
/// The colors are set to 65535, so one test of all lanes is one of the alphas.
#[inline(always)]
pub fn are_opaque(x: u16x16) -> bool
    ensures three { result ≡ true → slice_index_or x 3 0 ≡ 65535 }
    ensures seven { result ≡ true → slice_index_or x 7 0 ≡ 65535 }
    ensures eleven { result ≡ true → slice_index_or x 11 0 ≡ 65535 }
    ensures fifteen { result ≡ true → slice_index_or x 15 0 ≡ 65535 }
{
    let colors = u16x16::from_array([
        65535, 65535, 65535, 0, 65535, 65535, 65535, 0, 65535, 65535, 65535, 0, 65535, 65535,
        65535, 0,
    ]);
    are_all(x | colors, 65535)
}

/// Returns whether the alphas of four pixels come from eight bits.
#[inline(always)]
pub fn are_repeated(x: u16x16) -> bool
    ensures { result ≡ true → Each1 (λ a. a ≡ 257 * (a % 256)) (alphas_in x) }
{
    // The upper byte less the number, modulo 256, is 0 where both bytes are the same.
    let lower = u16x16::from_array([0, 0, 0, 255, 0, 0, 0, 255, 0, 0, 0, 255, 0, 0, 0, 255]);
    are_all(((x >> u16x16::splat(8)) - x) & lower, 0)
}

/// Returns four words, each in four parts.
#[inline(always)]
fn in_parts(words: u64x4) -> u16x16
    ensures { result ≡ digits_l (2 ^ 16) 16 (number_l (2 ^ 64) words) }
{
    u16x16::from_le_bytes(words.to_le_bytes())
}

/// Returns the reciprocals of four alphas that come from eight bits, each in four parts.
#[inline(always)]
fn reciprocals(one: u8, two: u8, three: u8, four: u8) -> u16x16
    ensures { result ≡ parts (slice_index_or RECIPROCALS one 0)
        ++ (parts (slice_index_or RECIPROCALS two 0)
        ++ (parts (slice_index_or RECIPROCALS three 0)
        ++ parts (slice_index_or RECIPROCALS four 0))) }
{
    in_parts(u64x4::from_array([
        reciprocal(usize::from(one)),
        reciprocal(usize::from(two)),
        reciprocal(usize::from(three)),
        reciprocal(usize::from(four)),
    ]))
}

/// Returns the upper halves of the products of the lanes.
#[inline(always)]
pub fn high_products(x: u16x16, y: u16x16) -> u16x16
    ensures { result ≡ zip2 (λ x y. x * y / 65536) x y }
{
    let whole = x.cast::<u32>() * y.cast::<u32>();
    (whole >> u32x16::splat(16)).cast::<u16>()
}

/// Returns the products of lanes and numbers of three parts, shifted down by 32 bits.
#[inline(always)]
fn scaled(x: u16x16, low: u16x16, middle: u16x16, high: u16x16) -> u16x16
    ensures { (ys : List ℕ) → length ys ≡ 16 → Each1 (λ y. y < 2 ^ 48) ys
        → low ≡ map (λ y. y % 65536) ys
        → middle ≡ map (λ y. y / 65536 % 65536) ys
        → high ≡ map (λ y. y / 65536 / 65536 % 65536) ys
        → result ≡ zip2 (λ x y. x * y / 2 ^ 32 % 65536) x ys }
{
    let lower = x * middle;
    let sum = lower + high_products(x, low);
    let carry = sum
        .simd_lt(lower)
        .select(u16x16::splat(1), u16x16::splat(0));
    x * high + high_products(x, middle) + carry
}

/// Returns four pixels of four channels, each channel divided by the alpha of its pixel, where `r`
/// has the reciprocals of the alphas.
#[inline(always)]
fn divided_by(x: u16x16, r: u16x16) -> u16x16
    ensures { (f : ℕ → ℕ) → Each1 (λ a. IsReciprocal a (f a)) (alphas_in x)
        → r ≡ parts (f (slice_index_or x 3 0))
        ++ (parts (f (slice_index_or x 7 0))
        ++ (parts (f (slice_index_or x 11 0))
        ++ parts (f (slice_index_or x 15 0))))
        → result ≡ zip2 (channel_quotient 65535) x (alphas_in x) }
{
    let low = r.swizzle([0, 0, 0, 0, 4, 4, 4, 4, 8, 8, 8, 8, 12, 12, 12, 12]);
    let middle = r.swizzle([1, 1, 1, 1, 5, 5, 5, 5, 9, 9, 9, 9, 13, 13, 13, 13]);
    let high = r.swizzle([2, 2, 2, 2, 6, 6, 6, 6, 10, 10, 10, 10, 14, 14, 14, 14]);
    x.simd_le(alphas(x) - u16x16::splat(1))
        .select(scaled(x, low, middle, high), u16x16::splat(65535))
}

/// Returns four pixels of four channels, each channel divided by the alpha of its pixel.
///
/// Condition: the alphas come from eight bits, which are the four numbers.
#[inline(always)]
pub fn divided_by_bytes(x: u16x16, one: u8, two: u8, three: u8, four: u8) -> u16x16
    requires repeated { Each1 (λ a. a ≡ 257 * (a % 256)) (alphas_in x) }
    requires one { one ≡ slice_index_or x 3 0 % 256 }
    requires two { two ≡ slice_index_or x 7 0 % 256 }
    requires three { three ≡ slice_index_or x 11 0 % 256 }
    requires four { four ≡ slice_index_or x 15 0 % 256 }
    ensures { result ≡ zip2 (channel_quotient 65535) x (alphas_in x) }
{
    divided_by(x, reciprocals(one, two, three, four))
}

/// Returns four pixels of four channels, each channel divided by the alpha of its pixel. Condition:
/// the alphas come from eight bits.
#[inline(always)]
fn divided(x: u16x16) -> u16x16
    requires { Each1 (λ a. a ≡ 257 * (a % 256)) (alphas_in x) }
    ensures { result ≡ zip2 (channel_quotient 65535) x (alphas_in x) }
{
    let p = x.to_array();
    divided_by_bytes(
        x,
        (p[3] % 256) as u8,
        (p[7] % 256) as u8,
        (p[11] % 256) as u8,
        (p[15] % 256) as u8,
    )
}

/// Returns 2^48 / `alpha` rounded down, plus one. An alpha of 0 counts as 1 here.
///
/// Two divisions of 32 bits are faster than one of 64 bits.
#[inline(always)]
fn whole_reciprocal(alpha: u16) -> u64
    ensures { result ≡ whole_reciprocal_of alpha }
{
    let d = u32::from(alpha.max(1));
    let upper = u32::MAX / d;
    let lower = ((u32::MAX % d + 1) << 16) / d;
    (u64::from(upper) << 16) + u64::from(lower) + 1
}

/// Returns the reciprocals of the alphas of four pixels, each in four parts. An alpha may be any
/// number of 16 bits.
#[inline(always)]
fn whole_reciprocals(x: u16x16) -> u16x16
    ensures { result ≡ parts (whole_reciprocal_of (slice_index_or x 3 0))
        ++ (parts (whole_reciprocal_of (slice_index_or x 7 0))
        ++ (parts (whole_reciprocal_of (slice_index_or x 11 0))
        ++ parts (whole_reciprocal_of (slice_index_or x 15 0)))) }
{
    let p = x.to_array();
    in_parts(u64x4::from_array([
        whole_reciprocal(p[3]),
        whole_reciprocal(p[7]),
        whole_reciprocal(p[11]),
        whole_reciprocal(p[15]),
    ]))
}

/// Returns four pixels of four channels, each channel divided by the alpha of its pixel. An alpha
/// may be any number of 16 bits.
#[inline(always)]
pub fn divided_by_any(x: u16x16) -> u16x16
    ensures { result ≡ zip2 (channel_quotient 65535) x (alphas_in x) }
{
    divided_by(x, whole_reciprocals(x))
}

/// Returns the colors of the first lanes, pixel by pixel, and the alphas of the others.
#[inline(always)]
fn with_alphas_of(colors: u16x16, x: u16x16) -> u16x16
    ensures { result ≡ with_alphas colors x }
{
    colors.shuffle(x, [0, 1, 2, 19, 4, 5, 6, 23, 8, 9, 10, 27, 12, 13, 14, 31])
}

/// Returns four pixels of four channels, each color divided by the alpha of its pixel.
///
/// Each branch puts the alphas back, so that the three meet in whole vectors.
#[inline(always)]
pub(crate) fn unmultiplied(x: u16x16) -> u16x16
    ensures { result ≡ with_alphas (zip2 (channel_quotient 65535) x (alphas_in x)) x }
{
    if are_opaque(x) {
        x
    } else if are_repeated(x) {
        with_alphas_of(divided(x), x)
    } else {
        with_alphas_of(divided_by_any(x), x)
    }
}
