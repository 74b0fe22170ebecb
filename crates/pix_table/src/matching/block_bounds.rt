//! Between which bounds the colors of blocks lie, for sixteen blocks at a time. Blocks that are
//! nowhere near a color are skipped without a look at their colors.
//!
//! Neighboring entries are often near each other, so most blocks are skipped.
ghost use Rattle.std.specs.Prelude.{◌≡◌, ◌≢◌, ◌<◌, ℕ, slice_index, true};
ghost use Rattle.std.specs.Int.{bit_at};
ghost use Rattle.pix_table.specs.matching.Nearest.{numbers};
ghost use Rattle.pix_table.specs.matching.BlockBounds.{Covers, IsReach, greatest_at, least_at, meets};
ghost use Rattle.pix_table.specs.declared.threshold.color_block.ColorBlock.{ColorBlock};

use crate::color::Color;
use crate::threshold::color_block::{ColorBlock, SIZE};
use std::simd::prelude::*;

/// The lower and the upper bound of each channel, of each of sixteen blocks.
#[derive(Clone, Copy)]
pub struct BlockBounds {
    least_red: [u8; SIZE],
    least_green: [u8; SIZE],
    least_blue: [u8; SIZE],
    greatest_red: [u8; SIZE],
    greatest_green: [u8; SIZE],
    greatest_blue: [u8; SIZE],
}

impl BlockBounds {
    /// Makes the bounds of no block yet.
    pub fn new() -> BlockBounds {
        BlockBounds {
            least_red: [0; SIZE],
            least_green: [0; SIZE],
            least_blue: [0; SIZE],
            greatest_red: [0; SIZE],
            greatest_green: [0; SIZE],
            greatest_blue: [0; SIZE],
        }
    }

    /// Sets the bounds of one of the sixteen blocks.
    pub fn set(&mut self, j: usize, block: &ColorBlock)
        requires { j < 16 }
        ensures own { Covers self.new j block.now }
        ensures others { (i : ℕ) (other : ColorBlock) → i ≢ j → Covers self.old i other
            → Covers self.new i other }
    {
        let (least, greatest) = block.ends();
        self.least_red[j] = least.red;
        self.least_green[j] = least.green;
        self.least_blue[j] = least.blue;
        self.greatest_red[j] = greatest.red;
        self.greatest_green[j] = greatest.green;
        self.greatest_blue[j] = greatest.blue;
    }

    /// Returns 0 where, in every channel, one of the sixteen blocks has bounds that meet the
    /// numbers from `low` to `high`. It has no branch, so all sixteen are done at once.
    #[inline(always)]
    fn gap(&self, j: usize, low: Color, high: Color) -> u8
        requires { j < 16 }
        ensures { meets (numbers low) (numbers high) (least_at self.now j)
            (greatest_at self.now j) ≡ true → result ≡ 0 }
    {
        self.least_red[j].saturating_sub(high.red)
            | low.red.saturating_sub(self.greatest_red[j])
            | self.least_green[j].saturating_sub(high.green)
            | low.green.saturating_sub(self.greatest_green[j])
            | self.least_blue[j].saturating_sub(high.blue)
            | low.blue.saturating_sub(self.greatest_blue[j])
    }

    /// Returns 0 for each of the sixteen blocks whose bounds meet the numbers from `low` to `high`
    /// in every channel.
    #[inline(always)]
    fn gaps(&self, low: Color, high: Color) -> [u8; SIZE]
        ensures { (j : ℕ) → j < 16 → meets (numbers low) (numbers high) (least_at self.now j)
            (greatest_at self.now j) ≡ true → slice_index result j ≡ 0 }
    {
        let mut gaps = [0; SIZE];
        for j in 0..SIZE {
            gaps[j] = self.gap(j, low, high);
        }
        gaps
    }

    /// Returns a bit for each of the sixteen blocks. It is set where the block's bounds meet the
    /// numbers from `low` to `high` in every channel.
    #[inline(always)]
    pub(crate) fn near_bits(&self, low: Color, high: Color) -> u64
        ensures { (j : ℕ) → j < 16 → meets (numbers low) (numbers high) (least_at self.now j)
            (greatest_at self.now j) ≡ true → bit_at result j ≡ 1 }
    {
        let gaps = u8x16::from_array(self.gaps(low, high));
        gaps.simd_eq(u8x16::splat(0)).to_bitmask()
    }
}

/// Returns the bounds of the colors that are no farther from a color than a difference.
pub(crate) fn reach(clr: Color, difference: Color) -> (Color, Color)
    ensures { IsReach (numbers clr) (numbers difference) (numbers result.0) (numbers result.1) }
{
    let low = Color {
        red: clr.red.saturating_sub(difference.red),
        green: clr.green.saturating_sub(difference.green),
        blue: clr.blue.saturating_sub(difference.blue),
    };
    let high = Color {
        red: clr.red.saturating_add(difference.red),
        green: clr.green.saturating_add(difference.green),
        blue: clr.blue.saturating_add(difference.blue),
    };
    (low, high)
}
