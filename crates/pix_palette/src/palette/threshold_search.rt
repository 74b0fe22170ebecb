//! What finds an entry near a color: lists of the entries in cells, and blocks of entries.
//!
//! Each allocates its memory once. Where that fails the search takes longer. No answer depends on
//! it.
ghost use Rattle.std.specs.Prelude.{◌≡◌, ◌+◌, ◌<◌, ℕ, List, length, map, true, false};
ghost use Rattle.pix_table.specs.matching.Nearest.{numbers as color_numbers};
ghost use Rattle.pix_table.specs.threshold.PaletteMatch.{IsMatch, difference_to, is_within};
ghost use Rattle.pix_table.specs.threshold.Setting.{Always, StandsFor};
ghost use Rattle.pix_palette.specs.Finder.{HasThresholdSearch, IsWhole};
ghost use Rattle.pix_palette.specs.Palette.{numbers};

use super::cells::cell_of;
use super::lists::Lists;
use super::palette_blocks::PaletteBlocks;
use pix_el::rgb::SRgb8;
use pix_table::{
    Color, TableColor, cells_near, closest_between, closest_first, is_within, standing_in,
};
use std::alloc::Global;

/// Where about this many cells are near a color, or more, they are not looked at.
const MANY: usize = 100;

/// The entries by cells, and blocks of the first entries.
#[derive(Drop)]
pub(super) struct ThresholdSearch {
    /// The entries by cells.
    pub(super) cells: Lists,
    /// The blocks of the first entries.
    pub(super) blocks: PaletteBlocks,
    room: usize,
}

impl ThresholdSearch {
    /// Makes lists and blocks of no entries, and takes no memory. They may later have up to `room`
    /// entries.
    pub(super) fn new(alloc: Global, room: usize) -> ThresholdSearch
        ensures { (colors : List (List ℕ)) → HasThresholdSearch colors result }
    {
        ThresholdSearch {
            cells: Lists::new(alloc),
            blocks: PaletteBlocks::new(alloc, room),
            room,
        }
    }

    /// Adds to the lists the entries that they lack. Returns whether they have all of them then.
    fn follow_cells(&mut self, alloc: Global, colors: &[SRgb8]) -> bool
        requires { HasThresholdSearch (map numbers colors.now) self.old }
        ensures near { HasThresholdSearch (map numbers colors.now) self.new }
        ensures whole { result ≡ true → IsWhole (map numbers colors.now)
            self.new.cells.latest.items self.new.cells.earlier.items }
    {
        if !self.cells.take_memory(alloc, self.room) {
            return false;
        }
        for i in self.cells.earlier.len()..colors.len() {
            if !self.cells.add(cell_of(colors[i].color())) {
                return false;
            }
        }
        true
    }

    /// Returns whether the cells around a color show that no entry is within a threshold of it.
    /// Where they are many it returns `false`.
    ///
    /// Condition: the lists have all entries.
    fn has_none(&self, colors: &[SRgb8], clr: Color, threshold: Color) -> bool
        requires near { HasThresholdSearch (map numbers colors.now) self.now }
        requires whole { IsWhole (map numbers colors.now) self.now.cells.latest.items
            self.now.cells.earlier.items }
        ensures { result ≡ true → (k : ℕ) → k < length (map numbers colors.now)
            → is_within (difference_to (map numbers colors.now) (color_numbers clr) k)
            (color_numbers threshold) ≡ false }
    {
        if cells_near(threshold) >= MANY {
            return false;
        }
        self.cells.next_near(colors, clr, threshold, 0) == colors.len()
    }

    /// Returns the match of a color, with its difference. It searches blocks, and then cells, once
    /// few cells are as near as the last candidate.
    ///
    /// Conditions: there is an entry, and the lists have all entries.
    fn closest(&self, colors: &[SRgb8], clr: Color) -> (usize, Color)
        requires some { 0 < length colors.now }
        requires near { HasThresholdSearch (map numbers colors.now) self.now }
        requires whole { IsWhole (map numbers colors.now) self.now.cells.latest.items
            self.now.cells.earlier.items }
        ensures found { IsMatch (map numbers colors.now) (color_numbers clr) result.0 }
        ensures difference { color_numbers result.1 ≡
            difference_to (map numbers colors.now) (color_numbers clr) result.0 }
    {
        let first = closest_first(&self.blocks.spans, &self.blocks.blocks, colors, clr, MANY);
        if cells_near(first.least) >= MANY {
            return closest_between(
                colors,
                clr,
                first.count,
                colors.len(),
                first.at,
                first.least,
            );
        }
        self.cells.closest_after(colors, clr, first)
    }

    /// Returns the entry that stands for a color. That is its match, if the match is within the
    /// threshold, and else `None`. Where no entry is near, no blocks are made.
    ///
    /// Condition: the lists have all entries.
    fn standing_whole(
        &mut self,
        alloc: Global,
        colors: &[SRgb8],
        clr: Color,
        threshold: Color,
    ) -> Option<usize>
        requires near { HasThresholdSearch (map numbers colors.now) self.old }
        requires whole { IsWhole (map numbers colors.now) self.old.cells.latest.items
            self.old.cells.earlier.items }
        ensures standing { StandsFor (Always (color_numbers threshold)) (map numbers colors.now)
            (color_numbers clr) result }
        ensures near { HasThresholdSearch (map numbers colors.now) self.new }
    {
        if self.has_none(colors, clr, threshold) {
            return None;
        }
        if colors.is_empty() {
            return None;
        }
        self.blocks.follow(alloc, colors);
        let (at, difference) = self.closest(colors, clr);
        if is_within(difference, threshold) {
            Some(at)
        } else {
            None
        }
    }

    /// Returns the entry that stands for a color. That is its match, if the match is within the
    /// threshold, and else `None`. It uses cells and blocks, or blocks alone, as far as there is
    /// memory.
    pub(super) fn standing(
        &mut self,
        alloc: Global,
        colors: &[SRgb8],
        clr: Color,
        threshold: Color,
    ) -> Option<usize>
        requires { HasThresholdSearch (map numbers colors.now) self.old }
        ensures standing { StandsFor (Always (color_numbers threshold)) (map numbers colors.now)
            (color_numbers clr) result }
        ensures near { HasThresholdSearch (map numbers colors.now) self.new }
    {
        if self.follow_cells(alloc, colors) {
            return self.standing_whole(alloc, colors, clr, threshold);
        }
        self.blocks.follow(alloc, colors);
        standing_in(
            &self.blocks.spans,
            &self.blocks.blocks,
            colors,
            clr,
            threshold,
        )
    }
}
