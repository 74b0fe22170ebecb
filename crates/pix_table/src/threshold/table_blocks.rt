//! Blocks of the entries of a small table, which find the match of a color.
ghost use Rattle.std.specs.Prelude.{◌≡◌, ◌≤◌, ◌<◌, ◌+◌, ◌*◌, ℕ, List, length, map};
ghost use Rattle.pix_table.specs.matching.Nearest.{numbers};
ghost use Rattle.pix_table.specs.threshold.ColorBlocks.{IsBlock};
ghost use Rattle.pix_table.specs.threshold.Setting.{Always, StandsFor};
ghost use Rattle.pix_table.specs.threshold.ColorCache.{AreRight};
ghost use Rattle.pix_table.specs.threshold.TableBlocks.{HasBlocks, IsTableCache};

use crate::color::{Color, TableColor};
use crate::matching::block_bounds::BlockBounds;
use crate::matching::candidates::ENTRIES;
use crate::threshold::color_block::{ColorBlock, SIZE};
use crate::threshold::color_cache::Cache;
use crate::threshold::in_blocks::standing_in;
use crate::threshold::standing;

/// The least number of entries with which blocks save more time than they take.
const MANY: usize = 48;

/// The maximum number of blocks.
const BLOCKS: usize = 16;

/// Blocks of the first entries of a table, up to 256 of them, and the bounds of those blocks.
#[derive(Drop)]
pub struct TableBlocks {
    /// The bounds of the blocks.
    pub(crate) spans: [BlockBounds; 1],
    /// The blocks.
    pub(crate) blocks: [ColorBlock; BLOCKS],
    /// How many blocks there are.
    pub(crate) len: usize,
}

/// What is cached beside a table while colors are set in it: colors with the entries that stand for
/// them, and blocks of the entries.
#[derive(Drop)]
pub struct TableCache {
    /// Colors with the entries that stand for them.
    pub(crate) cache: Cache,
    /// Blocks of the entries.
    pub(crate) blocks: TableBlocks,
}

impl TableBlocks {
    /// Makes no block.
    fn new() -> TableBlocks
        ensures { (entries : List (List ℕ)) → HasBlocks entries result }
    {
        TableBlocks {
            spans: [BlockBounds::new()],
            blocks: [ColorBlock::black(); BLOCKS],
            len: 0,
        }
    }

    /// Adds the next block.
    fn add(&mut self, block: ColorBlock)
        requires { self.old.len < 16 }
        ensures added { (entries : List (List ℕ)) → HasBlocks entries self.old
            → IsBlock entries (16 * self.old.len) block → HasBlocks entries self.new }
        ensures len { self.new.len ≡ self.old.len + 1 }
    {
        let mut spans = self.spans[0];
        spans.set(self.len, &block);
        self.spans[0] = spans;
        self.blocks[self.len] = block;
        self.len += 1;
    }

    /// Adds blocks of the entries that are new since the last block.
    fn follow<C: TableColor>(&mut self, colors: &[C])
        requires few { length colors.now ≤ 256 }
        requires has { HasBlocks (map C.channels colors.now) self.old }
        ensures { HasBlocks (map C.channels colors.now) self.new }
    {
        for k in self.len..colors.len() / SIZE {
            self.add(ColorBlock::new(colors, SIZE * k));
        }
    }

    /// Returns the entry that stands for a color. That is its match, if the match is within the
    /// threshold, and else `None`. It searches blocks, which it adds where there are enough
    /// entries.
    pub(crate) fn standing<C: TableColor>(
        &mut self,
        colors: &[C],
        clr: Color,
        threshold: Color,
    ) -> Option<usize>
        requires { HasBlocks (map C.channels colors.now) self.old }
        ensures standing { StandsFor (Always (numbers threshold)) (map C.channels colors.now)
            (numbers clr) result }
        ensures has { HasBlocks (map C.channels colors.now) self.new }
    {
        if colors.len() < MANY || colors.len() > ENTRIES {
            return standing(colors, clr, threshold);
        }
        self.follow(colors);
        standing_in(
            &self.spans,
            &self.blocks[..self.len],
            colors,
            clr,
            threshold,
        )
    }
}

impl TableCache {
    /// Makes an empty cache beside a table.
    pub fn new() -> TableCache
        ensures { (threshold : List ℕ) (entries : List (List ℕ))
            → IsTableCache threshold entries result }
    {
        TableCache {
            cache: Cache::new(),
            blocks: TableBlocks::new(),
        }
    }
}
