//! The nearest of colors that are seen, sixteen at a time, on lanes.
ghost use Rattle.std.specs.Prelude.{◌≡◌, ◌<◌, ◌≤◌, length};

use crate::matching::lanes::nearest_lane;
use crate::rgba::color::SeenColor;
use crate::rgba::near_blocks::{BlockEnds, nearest_near};
use crate::rgba::views::{SeenBlock, both_views, views_of};
use crate::threshold::color_block::{ColorBlock, SIZE};

/// The number of blocks of sixteen entries.
const BLOCKS: usize = 16;

/// Fewer entries are searched no faster where blocks are passed by.
const MANY: usize = 112;

/// The number of cells of colors, each of 32 reds, greens, blues and alphas.
pub(crate) const CELLS: usize = 4096;

/// Returns the number of a color's cell.
#[inline(always)]
fn cell_of(clr: SeenColor) -> usize
    ensures { result < 4096 }
{
    usize::from(clr.red) / 32 * 512
        + usize::from(clr.green) / 32 * 64
        + usize::from(clr.blue) / 32 * 8
        + usize::from(clr.alpha) / 32
}

/// A copy of some colors that are seen, at least one and at most 256, in blocks of lanes.
#[derive(Clone, Copy)]
pub(crate) struct SeenLanes {
    blocks: [SeenBlock; BLOCKS],
    len: usize,
    ghost long: { length blocks ≡ 16 },
    ghost some: { 0 < len },
    ghost few: { len ≤ 256 },
}

impl SeenLanes {
    ghost use Rattle.std.specs.Prelude.{◌≡◌, ◌<◌, ◌≤◌, ℕ, List, All, length, map};
    ghost use Rattle.pix_table.specs.matching.Nearest.{IsNearestBy};
    ghost use Rattle.pix_table.specs.SeenPixels.{AreSeen, seen_distance, seen_numbers};
    ghost use Rattle.pix_table.specs.matching.SeenLanes.{AreSeenLanes};
    ghost use Rattle.pix_table.specs.matching.NearBlocks.{AreEnds};

    /// Makes a copy of some colors. The lanes behind them have the last one.
    pub(crate) fn of(entries: &[SeenColor]) -> SeenLanes
        requires some { 0 < length entries.now }
        requires few { length entries.now ≤ 256 }
        requires seen { All AreSeen (map seen_numbers entries.now) }
        ensures { AreSeenLanes (map seen_numbers entries.now) result }
    {
        let (black, white) = views_of(entries);
        let first = SeenBlock {
            black: ColorBlock::new(&black, 0),
            white: ColorBlock::new(&white, 0),
        };
        let mut blocks = [first; BLOCKS];
        for j in 1..BLOCKS {
            blocks[j] = SeenBlock {
                black: ColorBlock::new(&black, SIZE * j),
                white: ColorBlock::new(&white, SIZE * j),
            };
        }
        SeenLanes {
            blocks,
            len: entries.len(),
        }
    }

    /// Returns the index of the entry that is seen nearest to a color, the first of equals.
    #[inline]
    pub(crate) fn nearest(&self, clr: SeenColor) -> u8
        requires { AreSeen (seen_numbers clr) }
        ensures { (entries : List (List ℕ)) → AreSeenLanes entries self.now
            → IsNearestBy seen_distance entries (seen_numbers clr) result }
    {
        nearest_lane(&self.blocks[..(self.len + 15) / SIZE], both_views(clr))
    }

    /// Returns the ends of its blocks, for [`SeenLanes::nearest_by_cell`].
    pub(crate) fn ends(&self) -> BlockEnds
        ensures { AreEnds self.now.blocks result }
    {
        BlockEnds::of(&self.blocks)
    }

    /// Returns the index of the entry that is seen nearest to a color, the first of equals. Of many
    /// entries those are passed by whose blocks are farther than the nearest entry of the block of
    /// an index.
    fn nearest_from(&self, ends: &BlockEnds, clr: SeenColor, near: u8) -> u8
        requires seen { AreSeen (seen_numbers clr) }
        requires near { near < self.now.len }
        requires ends { AreEnds self.now.blocks ends.now }
        ensures { (entries : List (List ℕ)) → AreSeenLanes entries self.now
            → IsNearestBy seen_distance entries (seen_numbers clr) result }
    {
        if self.len < MANY {
            return self.nearest(clr);
        }
        let blocks = &self.blocks[..(self.len + 15) / SIZE];
        nearest_near(blocks, ends, both_views(clr), near)
    }

    /// Returns the index of the entry that is seen nearest to a color, the first of equals. It
    /// begins near the entry that was found last in the color's cell, and keeps the one that it
    /// finds there. Any numbers may stand there at first.
    #[inline(always)]
    pub(crate) fn nearest_by_cell(
        &self,
        ends: &BlockEnds,
        found: &mut [u8; CELLS],
        clr: SeenColor,
    ) -> u8
        requires seen { AreSeen (seen_numbers clr) }
        requires ends { AreEnds self.now.blocks ends.now }
        ensures { (entries : List (List ℕ)) → AreSeenLanes entries self.now
            → IsNearestBy seen_distance entries (seen_numbers clr) result }
    {
        let cell = cell_of(clr);
        let near = usize::from(found[cell]).min(self.len - 1) as u8;
        let nearest = self.nearest_from(ends, clr, near);
        found[cell] = nearest;
        nearest
    }
}
