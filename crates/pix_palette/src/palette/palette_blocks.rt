//! Blocks of the entries of a palette, which find the match of a color.
//!
//! Their memory is allocated once. Where that fails there are none. No answer depends on their
//! number.
ghost use Rattle.std.specs.Prelude.{◌≡◌, ℕ, List, [], ◌∷◌, ◌++◌, map, true, false};
ghost use Rattle.pix_table.specs.matching.BlockBounds.{AreBlockBounds};
ghost use Rattle.pix_palette.specs.Finder.{HasBlocks};
ghost use Rattle.pix_palette.specs.Palette.{numbers};

use pix_el::rgb::SRgb8;
use pix_table::{BlockBounds, ColorBlock};
use std::alloc::Global;

/// How many entries a block has, and how many blocks the bounds of one group.
const SIZE: usize = 16;

/// Blocks of the first entries, sixteen each, and the bounds of those blocks.
#[derive(Drop)]
pub(super) struct PaletteBlocks {
    /// The bounds of the blocks.
    pub(super) spans: Vec<BlockBounds>,
    /// The blocks.
    pub(super) blocks: Vec<ColorBlock>,
    room: usize,
    asked: bool,
}

impl PaletteBlocks {
    /// Makes no blocks, and takes no memory. Later there may be blocks of up to `room` entries.
    pub(super) fn new(alloc: Global, room: usize) -> PaletteBlocks
        ensures { (colors : List (List ℕ)) → HasBlocks colors result }
    {
        PaletteBlocks {
            spans: Vec::new(alloc),
            blocks: Vec::new(alloc),
            room,
            asked: false,
        }
    }

    /// Allocates memory once for the most blocks that there may be, and for their bounds.
    fn take_memory(&mut self, alloc: Global)
        ensures { (colors : List (List ℕ)) → HasBlocks colors self.old
            → HasBlocks colors self.new }
    {
        if self.asked {
            return;
        }
        self.asked = true;
        let count = self.room / SIZE;
        let Ok(blocks) = Vec::with_capacity(alloc, count) else {
            return;
        };
        let Ok(spans) = Vec::from_elem(alloc, BlockBounds::new(), count / SIZE + 1) else {
            return;
        };
        self.spans = spans;
        self.blocks = blocks;
    }

    /// Adds a block with its bounds. Returns whether there is room for both.
    fn add(&mut self, block: ColorBlock) -> bool
        requires { AreBlockBounds self.old.blocks.items self.old.spans.items }
        ensures spans { AreBlockBounds self.new.blocks.items self.new.spans.items }
        ensures added { result ≡ true
            → self.new.blocks.items ≡ self.old.blocks.items ++ block ∷ [] }
        ensures refused { result ≡ false → self.new.blocks.items ≡ self.old.blocks.items }
    {
        let k = self.blocks.len();
        if k >= self.blocks.capacity() || k / SIZE >= self.spans.len() {
            return false;
        }
        self.spans[k / SIZE].set(k % SIZE, &block);
        self.blocks.push_reserved(block);
        true
    }

    /// Adds blocks of the entries that are new since the last block, as far as there is room.
    pub(super) fn follow(&mut self, alloc: Global, colors: &[SRgb8])
        requires { HasBlocks (map numbers colors.now) self.old }
        ensures { HasBlocks (map numbers colors.now) self.new }
    {
        self.take_memory(alloc);
        for k in self.blocks.len()..colors.len() / SIZE {
            if !self.add(ColorBlock::new(colors, SIZE * k)) {
                return;
            }
        }
    }
}
