//! The nearest of blocks of colors, sixteen at a time, on lanes.
ghost use Rattle.std.specs.Prelude.{◌≡◌, ◌≤◌, ◌<◌, ◌+◌, ◌*◌, ℕ, min, length, map, slice_index, nat_eq, if◌then◌else◌};
ghost use Rattle.std.specs.Simd.Lanes.{zip2};
ghost use Rattle.pix_chan.specs.Number.{saturating_sum};
ghost use Rattle.pix_table.specs.matching.Nearest.{distance, numbers, squared_difference};
ghost use Rattle.pix_table.specs.threshold.ColorBlocks.{channels_in};
ghost use Rattle.pix_table.specs.matching.Lanes.{IsBlockKey, IsNearestLane, IsLeastOf, lane_distance};

use crate::color::Color;
use crate::threshold::color_block::{ColorBlock, SIZE};
use std::simd::prelude::*;

/// Sixteen colors, whose distances from another one are found at once.
pub(crate) trait LaneBlock {
    /// What is searched for.
    type Sought: Copy;

    /// How far it is from the color in a lane.
    ghost apart: { Self → Self.Sought → ℕ → ℕ };

    /// Returns the distance of each lane, or 65535 where it is greater.
    fn distances(&self, sought: Self::Sought) -> u16x16
        ensures long { length result ≡ 16 }
        ensures each { (i : ℕ) → i < 16
            → slice_index result i ≡ min 65535 (apart self.now sought i) };

    /// Returns the distance of each lane.
    fn wide_distances(&self, sought: Self::Sought) -> u32x16
        ensures long { length result ≡ 16 }
        ensures each { (i : ℕ) → i < 16 → slice_index result i ≡ apart self.now sought i }
        ensures few { (i : ℕ) → i < 16 → slice_index result i < 16777216 };
}

impl LaneBlock for ColorBlock {
    type Sought = Color;

    ghost apart = { λ block clr i. distance (channels_in block i) (numbers clr) };

    #[inline(always)]
    fn distances(&self, sought: Color) -> u16x16 {
        distances(self, sought)
    }

    #[inline(always)]
    fn wide_distances(&self, sought: Color) -> u32x16 {
        wide_distances(self, sought)
    }
}

/// Returns the distance of a color from each of sixteen, or 65535 where it is greater.
#[inline(always)]
pub(crate) fn distances(block: &ColorBlock, clr: Color) -> u16x16
    ensures long { length result ≡ 16 }
    ensures each { (i : ℕ) → i < 16
        → slice_index result i ≡ min 65535 (distance (channels_in block.now i) (numbers clr)) }
{
    let red = squares(u8x16::from_array(block.red), clr.red);
    let green = squares(u8x16::from_array(block.green), clr.green);
    let blue = squares(u8x16::from_array(block.blue), clr.blue);
    sums(sums(red, green), blue)
}

/// Returns the distance of a color from each of sixteen.
#[inline(always)]
pub(crate) fn wide_distances(block: &ColorBlock, clr: Color) -> u32x16
    ensures long { length result ≡ 16 }
    ensures each { (i : ℕ) → i < 16
        → slice_index result i ≡ distance (channels_in block.now i) (numbers clr) }
    ensures few { (i : ℕ) → i < 16 → slice_index result i < 196608 }
{
    let red = squares(u8x16::from_array(block.red), clr.red);
    let green = squares(u8x16::from_array(block.green), clr.green);
    let blue = squares(u8x16::from_array(block.blue), clr.blue);
    wide_sums(red, green, blue)
}

/// The least key of lanes in which no color is nearer than 65535.
const FAR: u32 = 4294901760;

/// The number of each lane.
const LANES: [u16; SIZE] = [0, 1, 2, 3, 4, 5, 6, 7, 8, 9, 10, 11, 12, 13, 14, 15];

/// Returns the square of how far each of sixteen numbers is from another one.
#[inline(always)]
fn squares(xs: u8x16, y: u8) -> u16x16
    ensures { result ≡ map (λ x. squared_difference x y) xs }
{
    let apart = xs.cast::<u16>() - u16x16::splat(u16::from(y));
    apart * apart
}

/// Returns the sum of each two lanes, or 65535 where it is greater.
#[inline(always)]
pub(crate) fn sums(xs: u16x16, ys: u16x16) -> u16x16
    ensures { result ≡ zip2 (saturating_sum 65535) xs ys }
{
    xs.saturating_add(ys)
}

/// Returns the lesser number of each lane.
#[inline(always)]
fn lesser(xs: u16x16, ys: u16x16) -> u16x16
    ensures { result ≡ zip2 min xs ys }
{
    xs.simd_min(ys)
}

/// Returns for each lane its old block, where its least distance didn't change, and else the new
/// one.
#[inline(always)]
fn blocks_of(now: u16x16, least: u16x16, at: u16x16, j: u16) -> u16x16
    ensures long { length result ≡ 16 }
    ensures each { (i : ℕ) → i < 16 → slice_index result i ≡
        (if nat_eq (slice_index now i) (slice_index least i) then slice_index at i else j) }
{
    now.simd_eq(least).select(at, u16x16::splat(j))
}

/// Returns for each lane its least distance, 65536 times, and the lane of its color among those of
/// all blocks.
#[inline(always)]
fn keys(least: u16x16, at: u16x16) -> [u32; SIZE]
    requires { (i : ℕ) → i < 16 → slice_index at i < 16 }
    ensures { (i : ℕ) → i < 16
        → slice_index result i ≡ slice_index least i * 65536 + (16 * slice_index at i + i) }
{
    let lanes = at * u16x16::splat(16) + u16x16::from_array(LANES);
    let high = least.cast::<u32>() * u32x16::splat(65536);
    (high + lanes.cast::<u32>()).to_array()
}

/// Returns the least of sixteen keys.
#[inline(always)]
fn least_of(keys: [u32; SIZE]) -> u32
    ensures { IsLeastOf keys 16 result }
{
    let mut least = keys[0];
    for i in 1..SIZE {
        least = least.min(keys[i]);
    }
    least
}

/// Returns the lane of the color that is nearest to another one, the first of equals.
#[inline(always)]
pub(crate) fn nearest_lane<B: LaneBlock>(blocks: &[B], sought: B::Sought) -> u8
    requires some { 0 < length blocks.now }
    requires few { length blocks.now ≤ 16 }
    ensures { (none : B) → IsNearestLane (lane_distance (λ block. B.apart block sought) none
        blocks.now) (16 * length blocks.now) result }
{
    let mut least = blocks[0].distances(sought);
    let mut at = u16x16::splat(0);
    for j in 1..blocks.len() {
        let now = lesser(least, blocks[j].distances(sought));
        at = blocks_of(now, least, at, j as u16);
        least = now;
    }
    let key = least_of(keys(least, at));
    if key >= FAR {
        return nearest_far_lane(blocks, sought);
    }
    (key % 256) as u8
}

/// Returns the sum of three numbers of each lane.
#[inline(always)]
fn wide_sums(red: u16x16, green: u16x16, blue: u16x16) -> u32x16
    ensures long { length result ≡ 16 }
    ensures each { (i : ℕ) → i < 16 → slice_index result i
        ≡ slice_index red i + slice_index green i + slice_index blue i }
    ensures few { (i : ℕ) → i < 16 → slice_index result i < 196608 }
{
    red.cast::<u32>() + green.cast::<u32>() + blue.cast::<u32>()
}

/// Returns the sum of each two lanes.
#[inline(always)]
pub(crate) fn added(xs: u32x16, ys: u32x16) -> u32x16
    requires first { (i : ℕ) → i < 16 → slice_index xs i < 196608 }
    requires second { (i : ℕ) → i < 16 → slice_index ys i < 196608 }
    ensures long { length result ≡ 16 }
    ensures each { (i : ℕ) → i < 16
        → slice_index result i ≡ slice_index xs i + slice_index ys i }
{
    xs + ys
}

/// Returns the number of each lane, 256 times, and the lane's number in block `j` among those of
/// all blocks.
#[inline(always)]
fn wide_keys(far: u32x16, j: usize) -> u32x16
    requires block { j < 16 }
    requires few { (i : ℕ) → i < 16 → slice_index far i < 16777216 }
    ensures long { length result ≡ 16 }
    ensures each { (i : ℕ) → i < 16
        → slice_index result i ≡ slice_index far i * 256 + (16 * j + i) }
{
    let lanes = u16x16::from_array(LANES).cast::<u32>() + u32x16::splat(16 * j as u32);
    far * u32x16::splat(256) + lanes
}

/// Returns the lesser key of each lane.
#[inline(always)]
fn lesser_wide(xs: u32x16, ys: u32x16) -> u32x16
    ensures { result ≡ zip2 min xs ys }
{
    xs.simd_min(ys)
}

/// Returns the lane of the color that is nearest to another one, the first of equals. All may be
/// farther than 16 bits can count.
#[inline(never)]
fn nearest_far_lane<B: LaneBlock>(blocks: &[B], sought: B::Sought) -> u8
    requires some { 0 < length blocks.now }
    requires few { length blocks.now ≤ 16 }
    ensures { (none : B) → IsNearestLane (lane_distance (λ block. B.apart block sought) none
        blocks.now) (16 * length blocks.now) result }
{
    let mut least = wide_keys(blocks[0].wide_distances(sought), 0);
    for j in 1..blocks.len() {
        least = lesser_wide(least, wide_keys(blocks[j].wide_distances(sought), j));
    }
    (least_of(least.to_array()) % 256) as u8
}

/// Returns the least key of the colors of a block: the distance of a color, 256 times, and its lane
/// among those of all blocks.
#[inline(always)]
pub(crate) fn least_key<B: LaneBlock>(blocks: &[B], j: usize, sought: B::Sought) -> u32
    requires inside { j < length blocks.now }
    requires few { length blocks.now ≤ 16 }
    ensures { (none : B) → IsBlockKey (lane_distance (λ block. B.apart block sought) none
        blocks.now) j result }
{
    let key = least_of(keys(blocks[j].distances(sought), u16x16::splat(0)));
    if key >= FAR {
        return far_key(blocks, j, sought);
    }
    key / 65536 * 256 + 16 * j as u32 + key % 256
}

/// Returns the least key of the colors of a block: the distance of a color, 256 times, and its lane
/// among those of all blocks. All may be farther than 16 bits can count.
#[inline(never)]
fn far_key<B: LaneBlock>(blocks: &[B], j: usize, sought: B::Sought) -> u32
    requires inside { j < length blocks.now }
    requires few { length blocks.now ≤ 16 }
    ensures { (none : B) → IsBlockKey (lane_distance (λ block. B.apart block sought) none
        blocks.now) j result }
{
    least_of(wide_keys(blocks[j].wide_distances(sought), j).to_array())
}
