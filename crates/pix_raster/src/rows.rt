//! Iterators over the rows of a region in a raster.
ghost use Rattle.std.specs.Iterator.{YieldsFirstRef, YieldsFirstMut, item_count};

use std::marker::Model;
use std::mem;
use std::ops::Range;

/// An iterator over the rows of a clipped rectangle, from top to bottom, as slices.
#[derive(Drop)]
pub struct Rows<'a, P> {
    /// The pixels from the start of the next row on.
    pub(crate) rest: &'a [P],
    /// How many rows are left.
    pub(crate) left: usize,
    /// The width of the raster.
    pub(crate) width: usize,
    /// The columns of the rectangle.
    pub(crate) columns: Range<usize>,
}

impl<'a, P> Model for Rows<'a, P> {
    ghost use Rattle.std.specs.Prelude.{List, length, ◌*◌, ◌≤◌};
    ghost use Rattle.pix_raster.specs.Clip.{row_parts};

    ghost Value = { List (List P) };

    ghost view = { λ a. row_parts a.left a.width a.columns.start a.columns.end a.rest.now };

    ghost invariant = { λ a. (a.columns.start ≤ a.columns.end) × (a.columns.end ≤ a.width)
        × (a.left * a.width ≤ length a.rest.now) };
}

impl<'a, P> Iterator for Rows<'a, P> {
    type Item = &'a [P];

    ghost next_gives = { YieldsFirstRef (λ s. s) };

    ghost remaining = { item_count (λ s. s) };

    fn next(&mut self) -> Option<&'a [P]> {
        if self.left == 0 {
            return None;
        }
        let (row, rest) = self.rest.split_at(self.width);
        self.left -= 1;
        self.rest = rest;
        Some(&row[self.columns.start..self.columns.end])
    }
}

/// An iterator over the rows of a clipped rectangle, from top to bottom, as mutable slices.
#[derive(Drop)]
pub struct RowsMut<'a, P> {
    /// The pixels from the start of the next row on.
    pub(crate) rest: &'a mut [P],
    /// How many rows are left.
    pub(crate) left: usize,
    /// The width of the raster.
    pub(crate) width: usize,
    /// The columns of the rectangle.
    pub(crate) columns: Range<usize>,
}

impl<'a, P> Model for RowsMut<'a, P> {
    ghost use Rattle.std.specs.Prelude.{List, length, ◌*◌, ◌≤◌};
    ghost use Rattle.pix_raster.specs.Clip.{row_parts};

    ghost Value = { List (List P) };

    ghost view = { λ a. row_parts a.left a.width a.columns.start a.columns.end a.rest.now };

    ghost invariant = { λ a. (a.columns.start ≤ a.columns.end) × (a.columns.end ≤ a.width)
        × (a.left * a.width ≤ length a.rest.now) };
}

impl<'a, P> Iterator for RowsMut<'a, P> {
    type Item = &'a mut [P];

    ghost next_gives = { YieldsFirstMut (λ s. s) };

    ghost remaining = { item_count (λ s. s) };

    fn next(&mut self) -> Option<&'a mut [P]> {
        if self.left == 0 {
            return None;
        }
        let (row, rest) = mem::take(&mut self.rest).split_at_mut(self.width);
        self.left -= 1;
        self.rest = rest;
        Some(&mut row[self.columns.start..self.columns.end])
    }
}
