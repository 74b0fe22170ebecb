//! The match of a color, found with blocks of entries and their bounds.
ghost use Rattle.std.specs.Prelude.{◌≡◌, ◌*◌, ◌<◌, ◌≤◌, ℕ, length, map, slice_index_or, MatchOption};
ghost use Rattle.pix_table.specs.threshold.ColorBlocks.{AreBlocks, IsBest, IsFar};
ghost use Rattle.pix_table.specs.matching.Nearest.{numbers};
ghost use Rattle.pix_table.specs.threshold.PaletteMatch.{IsMatch, difference_to};
ghost use Rattle.pix_table.specs.threshold.Setting.{Always, StandsFor};
ghost use Rattle.pix_table.specs.matching.BlockBounds.{AreFarBefore, AreBlockBounds};
ghost use Rattle.pix_table.specs.declared.threshold.color_block.ColorBlock.{ColorBlock};

use crate::color::{Color, TableColor};
use crate::matching::block_bounds::{BlockBounds, reach};
use crate::threshold::color_block::{ColorBlock, SIZE};
use crate::threshold::{closest_between, closest_of_one, is_within};

/// The last candidate for a color among the first entries, and its difference.
#[derive(Clone, Copy)]
pub struct Closest {
    /// How many entries were looked at.
    pub count: usize,
    /// The index of the candidate.
    pub at: usize,
    /// Its difference.
    pub least: Color,
}

/// Returns the first block whose bit is set that has a color no farther from a color than a
/// difference in any channel.
fn first_near(blocks: &[ColorBlock], bits: u64, clr: Color, least: Color) -> Option<usize>
    requires { length blocks.now ≤ 16 }
    ensures { MatchOption result
        (AreFarBefore blocks.now bits (numbers clr) (numbers least) (length blocks.now))
        (λ k. (k < length blocks.now)
        × AreFarBefore blocks.now bits (numbers clr) (numbers least) k) }
{
    let mut k = 0;
    let mut rest = bits;
    while rest != 0 {
        let clear = rest.trailing_zeros();
        k += clear as usize;
        if k >= blocks.len() {
            return None;
        }
        if blocks[k].has_near(clr, least) {
            return Some(k);
        }
        k += 1;
        rest = rest >> clear >> 1;
    }
    None
}

/// Returns the first block from `start` on that has a color no farther from a color than a
/// difference in any channel, or how many blocks there are.
fn next_near(
    spans: &[BlockBounds],
    blocks: &[ColorBlock],
    start: usize,
    clr: Color,
    least: Color,
) -> usize
    requires spans { AreBlockBounds blocks.now spans.now }
    requires start { start ≤ length blocks.now }
    requires few { 16 * length blocks.now < 18446744073709551616 }
    ensures order { start ≤ result }
    ensures within { result ≤ length blocks.now }
    ensures far { (k : ℕ) (d : ColorBlock) → start ≤ k → k < result
        → IsFar (slice_index_or blocks.now k d) (numbers clr) (numbers least) }
{
    let (low, high) = reach(clr, least);
    let mut k = start;
    while k < blocks.len() {
        let end = (k / SIZE * SIZE + SIZE).min(blocks.len());
        let bits = spans[k / SIZE].near_bits(low, high) >> (k % SIZE) as u32;
        if let Some(near) = first_near(&blocks[k..end], bits, clr, least) {
            return k + near;
        }
        k = end;
    }
    blocks.len()
}

/// About how many cells of 8 reds, 8 greens and 16 blues have a color that is no farther from
/// another than a difference in any channel.
pub fn cells_near(difference: Color) -> usize {
    let reds = usize::from(difference.red) / 4 + 2;
    let greens = usize::from(difference.green) / 4 + 2;
    let blues = usize::from(difference.blue) / 8 + 2;
    reds * greens * blues
}

/// Returns the last candidate among the first entries, with its difference. It searches the blocks
/// of entries, and stops early where less than `few` cells are as near. Condition: there is an
/// entry.
pub fn closest_first<C: TableColor>(
    spans: &[BlockBounds],
    blocks: &[ColorBlock],
    colors: &[C],
    clr: Color,
    few: usize,
) -> Closest
    requires some { 0 < length colors.now }
    requires blocks { AreBlocks (map C.channels colors.now) blocks.now }
    requires spans { AreBlockBounds blocks.now spans.now }
    ensures best { IsBest (map C.channels colors.now) (numbers clr) result.count result.at
        (numbers result.least) }
    ensures within { result.count ≤ length colors.now }
{
    let (mut at, mut least) = closest_of_one(colors, clr);
    let mut k = next_near(spans, blocks, 0, clr, least);
    while k < blocks.len() {
        let start = (SIZE * k).max(1);
        if cells_near(least) < few {
            return Closest {
                count: start,
                at,
                least,
            };
        }
        (at, least) = closest_between(colors, clr, start, SIZE * k + SIZE, at, least);
        k = next_near(spans, blocks, k + 1, clr, least);
    }
    let count = (SIZE * blocks.len()).max(1);
    Closest { count, at, least }
}

/// Returns the match of a color, with its difference, found with blocks of the first entries.
/// Condition: there is an entry.
fn closest_in<C: TableColor>(
    spans: &[BlockBounds],
    blocks: &[ColorBlock],
    colors: &[C],
    clr: Color,
) -> (usize, Color)
    requires some { 0 < length colors.now }
    requires blocks { AreBlocks (map C.channels colors.now) blocks.now }
    requires spans { AreBlockBounds blocks.now spans.now }
    ensures found { IsMatch (map C.channels colors.now) (numbers clr) result.0 }
    ensures difference { numbers result.1 ≡
        difference_to (map C.channels colors.now) (numbers clr) result.0 }
{
    let first = closest_first(spans, blocks, colors, clr, 0);
    closest_between(
        colors,
        clr,
        first.count,
        colors.len(),
        first.at,
        first.least,
    )
}

/// Returns the entry that stands for a color. That is its match, if the match is within the
/// threshold, and else `None`. It uses blocks of the first entries and their bounds.
pub fn standing_in<C: TableColor>(
    spans: &[BlockBounds],
    blocks: &[ColorBlock],
    colors: &[C],
    clr: Color,
    threshold: Color,
) -> Option<usize>
    requires blocks { AreBlocks (map C.channels colors.now) blocks.now }
    requires spans { AreBlockBounds blocks.now spans.now }
    ensures { StandsFor (Always (numbers threshold)) (map C.channels colors.now) (numbers clr)
        result }
{
    if colors.is_empty() {
        return None;
    }
    let (at, difference) = closest_in(spans, blocks, colors, clr);
    if is_within(difference, threshold) {
        Some(at)
    } else {
        None
    }
}
