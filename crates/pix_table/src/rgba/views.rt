//! Colors that are seen over black and over white, sixteen at a time.
ghost use Rattle.std.specs.Prelude.{◌≡◌, ◌+◌, ◌<◌, ◌≤◌, All, length, map};
ghost use Rattle.pix_table.specs.matching.Nearest.{distance, numbers};
ghost use Rattle.pix_table.specs.threshold.ColorBlocks.{channels_in};
ghost use Rattle.pix_table.specs.SeenPixels.{AreSeen, over_white, seen_numbers};
ghost use Rattle.pix_table.specs.matching.SeenLanes.{AreViews, over_black};

use crate::color::Color;
use crate::matching::candidates::ENTRIES;
use crate::matching::lanes::{LaneBlock, added, distances, sums, wide_distances};
use crate::rgba::color::SeenColor;
use crate::threshold::color_block::ColorBlock;
use std::simd::prelude::*;

/// A color over black and over white.
#[derive(Clone, Copy)]
pub(crate) struct Views {
    /// The color over black.
    pub(crate) black: Color,
    /// The color over white.
    pub(crate) white: Color,
}

/// Sixteen colors over black and over white.
#[derive(Clone, Copy)]
pub(crate) struct SeenBlock {
    /// The colors over black.
    pub(crate) black: ColorBlock,
    /// The colors over white.
    pub(crate) white: ColorBlock,
}

impl LaneBlock for SeenBlock {
    type Sought = Views;

    ghost apart = { λ block views i. distance (channels_in block.black i) (numbers views.black)
        + distance (channels_in block.white i) (numbers views.white) };

    #[inline(always)]
    fn distances(&self, sought: Views) -> u16x16 {
        let black = distances(&self.black, sought.black);
        sums(black, distances(&self.white, sought.white))
    }

    #[inline(always)]
    fn wide_distances(&self, sought: Views) -> u32x16 {
        let black = wide_distances(&self.black, sought.black);
        added(black, wide_distances(&self.white, sought.white))
    }
}

/// Returns how a color that is seen looks over black and over white.
#[inline(always)]
pub(crate) fn both_views(color: SeenColor) -> Views
    requires { AreSeen (seen_numbers color) }
    ensures black { numbers result.black ≡ over_black (seen_numbers color) }
    ensures white { numbers result.white ≡ over_white (seen_numbers color) }
{
    let rest = 255 - color.alpha;
    Views {
        black: Color {
            red: color.red,
            green: color.green,
            blue: color.blue,
        },
        white: Color {
            red: color.red + rest,
            green: color.green + rest,
            blue: color.blue + rest,
        },
    }
}

/// Returns how each of some colors looks over black and over white, and behind them the last one.
pub(crate) fn views_of(entries: &[SeenColor]) -> ([Color; ENTRIES], [Color; ENTRIES])
    requires some { 0 < length entries.now }
    requires few { length entries.now ≤ 256 }
    requires seen { All AreSeen (map seen_numbers entries.now) }
    ensures black { AreViews over_black (map seen_numbers entries.now) (map numbers result.0) }
    ensures white { AreViews over_white (map seen_numbers entries.now) (map numbers result.1) }
{
    let mut black = [Color::default(); ENTRIES];
    let mut white = [Color::default(); ENTRIES];
    for p in 0..ENTRIES {
        let views = both_views(entries[p.min(entries.len() - 1)]);
        black[p] = views.black;
        white[p] = views.white;
    }
    (black, white)
}
