//! Colors that are chosen from the entries of a table, with their indices.
ghost use Rattle.std.specs.Prelude.{◌≡◌, length};

use crate::color::Color;

/// How many entries a table has at most.
pub(crate) const ENTRIES: usize = 256;

/// Some entries of a table, at most 256, with their indices.
#[derive(Clone, Copy)]
pub(crate) struct Candidates {
    /// The colors of the entries.
    pub(crate) colors: [Color; ENTRIES],
    /// The index of each entry.
    pub(crate) indices: [u8; ENTRIES],
    /// How many entries there are.
    pub(crate) len: usize,
    ghost long_colors: { length colors ≡ 256 },
    ghost long_indices: { length indices ≡ 256 },
}

impl Candidates {
    ghost use Rattle.std.specs.Prelude.{◌≤◌, ◌<◌, ◌+◌, ◌-◌, ℕ, slice_index, slice_index_or, slice_set};
    ghost use Rattle.pix_table.specs.declared.color.Color.{Color};

    /// No entry.
    pub(crate) fn none() -> Candidates
        ensures { result.len ≡ 0 }
    {
        Candidates {
            colors: [Color::default(); ENTRIES],
            indices: [0; ENTRIES],
            len: 0,
        }
    }

    /// Adds an entry.
    pub(crate) fn add(&mut self, clr: Color, index: u8)
        requires { self.old.len < 256 }
        ensures len { self.new.len ≡ self.old.len + 1 }
        ensures colors { self.new.colors ≡ slice_set self.old.colors self.old.len clr }
        ensures indices { self.new.indices ≡ slice_set self.old.indices self.old.len index }
    {
        self.colors[self.len] = clr;
        self.indices[self.len] = index;
        self.len += 1;
    }

    /// Writes the last entry to all places after it.
    pub(crate) fn fill(&mut self)
        requires some { 0 < self.old.len }
        requires few { self.old.len ≤ 256 }
        ensures len { self.new.len ≡ self.old.len }
        ensures colors_before { (p : ℕ) (d : Color) → p < self.old.len
            → slice_index_or self.new.colors p d ≡ slice_index_or self.old.colors p d }
        ensures indices_before { (p : ℕ) → p < self.old.len
            → slice_index self.new.indices p ≡ slice_index self.old.indices p }
        ensures colors_behind { (p : ℕ) (d : Color) → self.old.len ≤ p → p < 256
            → slice_index_or self.new.colors p d
            ≡ slice_index_or self.old.colors (self.old.len - 1) d }
        ensures indices_behind { (p : ℕ) → self.old.len ≤ p → p < 256
            → slice_index self.new.indices p ≡ slice_index self.old.indices (self.old.len - 1) }
    {
        let clr = self.colors[self.len - 1];
        let index = self.indices[self.len - 1];
        for p in self.len..ENTRIES {
            self.colors[p] = clr;
            self.indices[p] = index;
        }
    }
}
