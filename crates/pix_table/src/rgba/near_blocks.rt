//! Blocks of entries that are seen, of which those are skipped that are too far.
ghost use Rattle.std.specs.Prelude.{◌≡◌, ◌+◌, ◌-◌, ◌*◌, ◌<◌, ◌≤◌, ℕ, length, min, slice_index};
ghost use Rattle.std.specs.Int.{bit_at};
ghost use Rattle.pix_table.specs.matching.BlockGaps.{gap};
ghost use Rattle.pix_table.specs.matching.Lanes.{IsLaneKey, IsNearestLane, key_of};
ghost use Rattle.pix_table.specs.matching.NearBlocks.{AreColorEnds, AreEnds, bound_of, far_lane};

use crate::color::Color;
use crate::matching::lanes::{least_key, sums};
use crate::rgba::views::{SeenBlock, Views};
use crate::threshold::color_block::{ColorBlock, SIZE};
use std::simd::prelude::*;

/// The minimum and the maximum of the numbers of each of sixteen blocks.
#[derive(Clone, Copy)]
pub(crate) struct BlockEnds {
    /// The minimum of each block.
    pub(crate) least: SeenBlock,
    /// The maximum of each block.
    pub(crate) greatest: SeenBlock,
}

impl BlockEnds {
    /// Returns the minimum and the maximum of the numbers of each of sixteen blocks.
    pub(crate) fn of(blocks: &[SeenBlock]) -> BlockEnds
        requires { length blocks.now ≡ 16 }
        ensures { AreEnds blocks.now result }
    {
        let (mut blacks, mut whites) = ([ColorBlock::black(); SIZE], [ColorBlock::black(); SIZE]);
        for j in 0..SIZE {
            blacks[j] = blocks[j].black;
            whites[j] = blocks[j].white;
        }
        let (least_black, greatest_black) = color_ends(&blacks);
        let (least_white, greatest_white) = color_ends(&whites);
        BlockEnds {
            least: SeenBlock {
                black: least_black,
                white: least_white,
            },
            greatest: SeenBlock {
                black: greatest_black,
                white: greatest_white,
            },
        }
    }

    /// Returns for each block a distance that none of its colors is nearer than.
    #[inline(always)]
    fn bounds(&self, sought: Views) -> u16x16
        ensures long { length result ≡ 16 }
        ensures each { (j : ℕ) → j < 16
            → slice_index result j ≤ min 65535 (bound_of self.now sought j) }
    {
        let black = gaps(&self.least.black, &self.greatest.black, sought.black);
        sums(
            black,
            gaps(&self.least.white, &self.greatest.white, sought.white),
        )
    }

    /// Returns a bit for each block. It is clear only where all its colors are farther than a
    /// distance.
    #[inline(always)]
    fn near_bits(&self, sought: Views, far: u32) -> u64
        ensures { (j : ℕ) → j < 16 → bit_at result j ≡ 0 → far < bound_of self.now sought j }
    {
        let bounds = self.bounds(sought);
        let most = u16x16::splat(far.min(65535) as u16);
        bounds.simd_le(most).to_bitmask()
    }
}

/// Returns the minimum and the maximum of the numbers of each of sixteen blocks.
fn color_ends(blocks: &[ColorBlock]) -> (ColorBlock, ColorBlock)
    requires { length blocks.now ≡ 16 }
    ensures { AreColorEnds blocks.now result.0 result.1 }
{
    let (mut least, mut greatest) = ([Color::default(); SIZE], [Color::default(); SIZE]);
    for j in 0..SIZE {
        let (low, high) = blocks[j].ends();
        least[j] = low;
        greatest[j] = high;
    }
    (ColorBlock::new(&least, 0), ColorBlock::new(&greatest, 0))
}

/// Returns for each block a distance that a color is no nearer than to all that lie between two, or
/// 65535 where it is greater.
#[inline(always)]
fn gaps(least: &ColorBlock, greatest: &ColorBlock, clr: Color) -> u16x16
    ensures long { length result ≡ 16 }
    ensures each { (j : ℕ) → j < 16 → slice_index result j
        ≤ min 65535 (gap (slice_index least.now.red j) (slice_index greatest.now.red j) clr.red
        + gap (slice_index least.now.green j) (slice_index greatest.now.green j) clr.green
        + gap (slice_index least.now.blue j) (slice_index greatest.now.blue j) clr.blue) }
{
    let red = gap(
        u8x16::from_array(least.red),
        u8x16::from_array(greatest.red),
        clr.red,
    );
    let green = gap(
        u8x16::from_array(least.green),
        u8x16::from_array(greatest.green),
        clr.green,
    );
    let blue = gap(
        u8x16::from_array(least.blue),
        u8x16::from_array(greatest.blue),
        clr.blue,
    );
    sums(sums(red, green), blue)
}

/// Returns for each block at most the square of how far a number is from those between two.
#[inline(always)]
fn gap(least: u8x16, greatest: u8x16, number: u8) -> u16x16
    ensures long { length result ≡ 16 }
    ensures each { (j : ℕ) → j < 16
        → slice_index result j ≤ gap (slice_index least j) (slice_index greatest j) number }
{
    let numbers = u8x16::splat(number);
    let apart = above(least, numbers) + above(numbers, greatest);
    let wide = apart.cast::<u16>();
    wide * wide
}

/// Returns how much each number is above another one, or 0.
#[inline(always)]
fn above(xs: u8x16, ys: u8x16) -> u8x16
    ensures long { length result ≡ 16 }
    ensures each { (j : ℕ) → j < 16
        → slice_index result j ≡ slice_index xs j - slice_index ys j }
{
    xs.saturating_sub(ys)
}

/// Returns the least of a key and those of the blocks whose bit is set.
#[inline(always)]
fn least_of_bits(blocks: &[SeenBlock], bits: u64, sought: Views, first: u32) -> u32
    requires few { length blocks.now ≤ 16 }
    requires first { IsLaneKey (far_lane blocks.now sought) (16 * length blocks.now) first }
    ensures is { IsLaneKey (far_lane blocks.now sought) (16 * length blocks.now) result }
    ensures least { result ≤ first }
    ensures each { (j i : ℕ) → j < length blocks.now → i < 16 → bit_at bits j ≡ 1
        → result ≤ key_of (far_lane blocks.now sought) (16 * j + i) }
{
    let mut key = first;
    let mut k = 0;
    let mut rest = bits;
    while rest != 0 {
        let clear = rest.trailing_zeros();
        k += clear as usize;
        if k >= blocks.len() {
            return key;
        }
        key = key.min(least_key(blocks, k, sought));
        k += 1;
        rest = rest >> clear >> 1;
    }
    key
}

/// Returns the lane of the color that is seen nearest to another one, the first of equals. Blocks
/// are skipped that are farther than the nearest color of the block of some lane.
pub(crate) fn nearest_near(blocks: &[SeenBlock], ends: &BlockEnds, sought: Views, near: u8) -> u8
    requires few { length blocks.now ≤ 16 }
    requires near { near < 16 * length blocks.now }
    requires ends { AreEnds blocks.now ends.now }
    ensures { IsNearestLane (far_lane blocks.now sought) (16 * length blocks.now) result }
{
    let own = usize::from(near) / SIZE;
    let first = least_key(blocks, own, sought);
    let others = ends.near_bits(sought, first / 256) & !(1 << own);
    (least_of_bits(blocks, others, sought, first) % 256) as u8
}
