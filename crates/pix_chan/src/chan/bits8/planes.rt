//! Planes of sixteen pixels of 8 bits, cut out and put together on lanes.
ghost use Rattle.std.specs.Prelude.{◌≡◌, ◌++◌};
ghost use Rattle.std.specs.Simd.Lanes.{pick_l};
ghost use Rattle.pix_chan.specs.Planes.{in_turn, both_in_turn, last_of_four};
ghost use Rattle.pix_chan.specs.Lanes.{even_lanes, odd_lanes, low_pairs, high_pairs};

use std::simd::prelude::*;

/// Returns the lanes of even and of odd index of both vectors.
///
/// This uses a cast of pairs. LLVM takes shuffles of shuffles apart, lane by lane, but leaves the
/// cast whole.
#[inline(always)]
pub(super) fn cut(a: u8x16, b: u8x16) -> (u8x16, u8x16)
    ensures even { result.0 ≡ pick_l 0 (a ++ b) even_lanes }
    ensures odd { result.1 ≡ pick_l 0 (a ++ b) odd_lanes }
{
    let pairs = u16x16::from_le_bytes(a.shuffle(
        b,
        [
            0, 1, 2, 3, 4, 5, 6, 7, 8, 9, 10, 11, 12, 13, 14, 15, 16, 17, 18, 19, 20, 21, 22, 23,
            24, 25, 26, 27, 28, 29, 30, 31,
        ],
    ));
    (
        (pairs & u16x16::splat(255)).cast::<u8>(),
        (pairs >> u16x16::splat(8)).cast::<u8>(),
    )
}

/// Returns pairs of lanes of both vectors in turn: those of the lower halves, and those of the
/// upper. This uses a cast of pairs, which LLVM leaves whole.
#[inline(always)]
fn mesh(a: u8x16, b: u8x16) -> (u8x16, u8x16)
    ensures low { result.0 ≡ pick_l 0 (a ++ b) low_pairs }
    ensures high { result.1 ≡ pick_l 0 (a ++ b) high_pairs }
{
    let words = u16x8::from_le_bytes(a).cast::<u32>()
        | (u16x8::from_le_bytes(b).cast::<u32>() << u32x8::splat(16));
    let all = words.to_le_bytes();
    (all.extract::<0, 16>(), all.extract::<16, 16>())
}

/// Returns, for four pixels of four channels, at each lane the last channel of its pixel.
///
/// The shift of words reads all lanes. With a bare shuffle, LLVM sees that only the last channels
/// are needed. Where nothing else needs the others, it loads byte by byte.
#[inline(always)]
pub(super) fn spread(pixels: u8x16) -> u8x16
    ensures { result ≡ last_of_four pixels }
{
    let last = (u32x4::from_le_bytes(pixels) >> u32x4::splat(24)).to_le_bytes();
    last.shuffle(last, [0, 0, 0, 0, 4, 4, 4, 4, 8, 8, 8, 8, 12, 12, 12, 12])
}

/// Returns the planes of sixteen pixels of four channels: each vector is four pixels.
#[inline(always)]
pub(super) fn split_four(a: u8x16, b: u8x16, c: u8x16, d: u8x16) -> (u8x16, u8x16, u8x16, u8x16)
    ensures { in_turn result.0 result.1 result.2 result.3 ≡ (a ++ b) ++ (c ++ d) }
{
    let (first_low, second_low) = cut(a, b);
    let (first_high, second_high) = cut(c, d);
    let (one, three) = cut(first_low, first_high);
    let (two, four) = cut(second_low, second_high);
    (one, two, three, four)
}

/// Returns sixteen pixels of four channels, four in each vector, from their planes.
#[inline(always)]
pub(super) fn join_four(
    one: u8x16,
    two: u8x16,
    three: u8x16,
    four: u8x16,
) -> (u8x16, u8x16, u8x16, u8x16)
    ensures { (result.0 ++ result.1) ++ (result.2 ++ result.3) ≡ in_turn one two three four }
{
    let low12 = one.shuffle(
        two,
        [0, 16, 1, 17, 2, 18, 3, 19, 4, 20, 5, 21, 6, 22, 7, 23],
    );
    let high12 = one.shuffle(
        two,
        [8, 24, 9, 25, 10, 26, 11, 27, 12, 28, 13, 29, 14, 30, 15, 31],
    );
    let low34 = three.shuffle(
        four,
        [0, 16, 1, 17, 2, 18, 3, 19, 4, 20, 5, 21, 6, 22, 7, 23],
    );
    let high34 = three.shuffle(
        four,
        [8, 24, 9, 25, 10, 26, 11, 27, 12, 28, 13, 29, 14, 30, 15, 31],
    );
    let (a, b) = mesh(low12, low34);
    let (c, d) = mesh(high12, high34);
    (a, b, c, d)
}

/// Returns sixteen pixels of two channels, eight in each vector, from their planes.
#[inline(always)]
pub(super) fn join_two(one: u8x16, two: u8x16) -> (u8x16, u8x16)
    ensures { result.0 ++ result.1 ≡ both_in_turn one two }
{
    (
        one.shuffle(
            two,
            [0, 16, 1, 17, 2, 18, 3, 19, 4, 20, 5, 21, 6, 22, 7, 23],
        ),
        one.shuffle(
            two,
            [8, 24, 9, 25, 10, 26, 11, 27, 12, 28, 13, 29, 14, 30, 15, 31],
        ),
    )
}
