//! Palettes: tables of colors, to which images are indexed.
ghost use Rattle.std.specs.Prelude.{◌≡◌, ℕ, ◌+◌, ◌<◌, ◌≤◌, Some, None, IfSome, vec_len, IsOk, IfOk, IfErr, length, map, slice_get, true, MatchOption, slice_set, Any, nat_eq};
ghost use Rattle.std.specs.Option.{option_map};
ghost use Rattle.pix_table.specs.threshold.PaletteMatch.{IsMatch, IsMinimal, IsFirstOf};
ghost use Rattle.pix_table.specs.threshold.Setting.{IsSet, StandsFor};
ghost use Rattle.pix_palette.specs.Palette.{Answers, numbers};
ghost use Rattle.pix_palette.specs.Histogram.{IsHistogram};
ghost use Rattle.pix_raster.specs.declared.fault.RasterFault.{RasterFault};

mod cells;
mod color_table;
mod copies;
mod entries;
mod finder;
mod index;
mod indexing;
mod known;
mod lists;
mod mapped;
mod palette_blocks;
mod quantization;
mod rgba_table;
mod slots;
mod slots_indexing;
mod table;
mod threshold_search;

use self::index::{PaletteIndex, count_indices};
use self::table::{Threshold, ThresholdFn};
use pix_el::rgb::SRgb8;
use pix_raster::RasterFault;
use pix_table::{TableColor, standing};
pub use rgba_table::RgbaTable;
pub use slots::ColorTable;
use std::alloc::Global;
pub use table::Palette;

impl Palette {
    /// Makes an empty palette of at most `limit` colors, with room for all of them.
    ///
    /// # Errors
    ///
    /// `Memory` on allocation failure, and where the limit is too large to reserve. There is no
    /// error for a limit of 0.
    ///
    /// # Examples
    ///
    /// ```rust
    /// let (red, blue) = (SRgb8::new::<u8>(200, 0, 0), SRgb8::new::<u8>(0, 0, 200));
    /// let mut palette = Palette::new(alloc, 16)?;
    /// palette.set_entry(red); // Some(0)
    /// ```
    pub fn new(alloc: Global, limit: usize) -> Result<Palette, RasterFault>
        ensures colors { IfOk result (λ p. length p.colors.items ≡ 0) }
        ensures limit { IfOk result (λ p. p.limit ≡ limit) }
        ensures threshold { IfOk result (λ p. p.threshold ≡ None) }
        ensures refused { IfErr result (λ fault. fault ≡ RasterFault.Memory) }
        ensures no_room { limit ≡ 0 → IsOk result }
    {
        let colors = Vec::with_capacity(alloc, limit).map_err(|_| RasterFault::Memory)?;
        Ok(Palette {
            colors,
            limit,
            threshold: None,
        })
    }

    /// Returns the number of entries.
    ///
    /// # Examples
    ///
    /// ```rust
    /// palette.set_entry(blue); // Some(1)
    /// palette.set_entry(red); // Some(0): it stands there
    /// let size = palette.len(); // 2
    /// ```
    pub fn len(&self) -> usize
        ensures { result ≡ length self.now.colors.items }
    {
        self.colors.len()
    }

    /// Returns whether there is no entry.
    pub fn is_empty(&self) -> bool
        ensures { result ≡ nat_eq (length self.now.colors.items) 0 }
    {
        self.colors.is_empty()
    }

    /// Returns the colors in order.
    ///
    /// # Examples
    ///
    /// ```rust
    /// let Ok(table) = Vec::from_slice(alloc, palette.colors()) else {
    ///     return Err(RasterFault::Memory);
    /// };
    /// ```
    pub fn colors(&self) -> &[SRgb8]
        ensures { result.now ≡ self.now.colors.items }
    {
        &self.colors
    }

    /// Returns the color of entry `i`, or `None` past the end.
    ///
    /// # Examples
    ///
    /// ```rust
    /// let size = palette.len(); // 2
    /// let second = palette.entry(1); // Some(blue)
    /// let none = palette.entry(2); // None
    /// ```
    pub fn entry(&self, i: usize) -> Option<SRgb8>
        ensures { result ≡ slice_get self.now.colors.items i }
    {
        self.colors.get(i).copied()
    }

    /// Sets the threshold function. For a number of entries it returns how far a color may be from
    /// its match in each channel.
    ///
    /// Condition: it may be called for every number from 0 to the limit.
    ///
    /// # Examples
    ///
    /// ```rust
    /// pub fn near(_entries: usize) -> SRgb8 {
    ///     SRgb8::new::<u8>(48, 48, 48)
    /// }
    /// ```
    ///
    /// ```rust
    /// let mut palette = Palette::new(alloc, 99)?;
    /// palette.set_threshold_fn(near);
    /// let spare = palette.try_clone(alloc)?;
    /// ```
    pub fn set_threshold_fn(&mut self, f: fn(usize) -> SRgb8)
        requires { (n : ℕ) → n ≤ self.old.limit → Threshold.pre f n }
        ensures colors { self.new.colors.items ≡ self.old.colors.items }
        ensures limit { self.new.limit ≡ self.old.limit }
        ensures threshold { option_map (λ chosen. chosen.f) self.new.threshold ≡ Some f }
    {
        let chosen = ThresholdFn {
            f,
            limit: self.limit,
        };
        self.threshold = Some(chosen);
    }

    /// Returns the threshold for the present number of entries.
    fn threshold(&self) -> SRgb8
        ensures { Answers Threshold.post (option_map (λ chosen. chosen.f) self.now.threshold)
            (length self.now.colors.items) (numbers result) }
    {
        match self.threshold {
            None => SRgb8::default(),
            Some(chosen) => (chosen.f)(self.colors.len()),
        }
    }

    /// Returns the entry that stands for `clr`.
    fn standing(&self, clr: SRgb8) -> Option<usize>
        ensures { StandsFor
            (Answers Threshold.post (option_map (λ chosen. chosen.f) self.now.threshold))
            (map numbers self.now.colors.items) (numbers clr) result }
    {
        standing(&self.colors, clr.color(), self.threshold().color())
    }

    /// Sets a color, and returns its index. That is the index of its match, if the match is within
    /// the threshold for the present number of entries. Else the color is appended. The answer is
    /// `None` where the limit is reached. It takes no memory.
    ///
    /// The match is the last of the candidates. Entry 0 is the first one. Each later entry is one
    /// if it differs from the color by no more than the candidate before it in each of red, green
    /// and blue, and by less in one. An entry that differs by more in one channel and by less in
    /// the others is skipped, even where a sum or a distance would call it nearer.
    ///
    /// # Examples
    ///
    /// ```rust
    /// let (red, blue) = (SRgb8::new::<u8>(200, 0, 0), SRgb8::new::<u8>(0, 0, 200));
    /// let mut palette = Palette::new(alloc, 16)?;
    /// palette.set_entry(red); // Some(0)
    /// palette.set_entry(blue); // Some(1)
    /// palette.set_entry(red); // Some(0): it stands there
    /// ```
    pub fn set_entry(&mut self, clr: SRgb8) -> Option<usize>
        ensures set { IsSet numbers
            (Answers Threshold.post (option_map (λ chosen. chosen.f) self.old.threshold))
            self.old.limit self.old.colors.items clr result self.new.colors.items }
        ensures limit { self.new.limit ≡ self.old.limit }
        ensures threshold { self.new.threshold ≡ self.old.threshold }

        // A color that is in the table is found at its first entry, whatever the threshold.
        ensures standing { (i : ℕ) → IsFirstOf (map numbers self.old.colors.items) (numbers clr) i
            → (result ≡ Some i) × (self.new.colors.items ≡ self.old.colors.items) }

        // No entry is closer to the color than its match is, channel by channel, and none before it
        // differs by as much.
        ensures minimal { (m : ℕ) → IsMatch (map numbers self.old.colors.items) (numbers clr) m
            → IsMinimal (map numbers self.old.colors.items) (numbers clr) m }
    {
        let standing = self.standing(clr);
        self.set_by(clr, standing)
    }

    /// Sets a color, given the entry that stands for it, if there is one. Returns that entry, or
    /// else appends the color where there is room.
    fn set_by(&mut self, clr: SRgb8, standing: Option<usize>) -> Option<usize>
        requires { StandsFor
            (Answers Threshold.post (option_map (λ chosen. chosen.f) self.old.threshold))
            (map numbers self.old.colors.items) (numbers clr) standing }
        ensures set { IsSet numbers
            (Answers Threshold.post (option_map (λ chosen. chosen.f) self.old.threshold))
            self.old.limit self.old.colors.items clr result self.new.colors.items }
        ensures answered { IfSome standing (λ at. (result ≡ Some at)
            × (self.new.colors.items ≡ self.old.colors.items)) }
        ensures limit { self.new.limit ≡ self.old.limit }
        ensures threshold { self.new.threshold ≡ self.old.threshold }
    {
        if standing.is_some() {
            return standing;
        }
        let len = self.colors.len();
        if len < self.limit {
            self.colors.push_reserved(clr);
            Some(len)
        } else {
            None
        }
    }

    /// Replaces the color of entry `i` and returns the old one. Past the end it returns `None` and
    /// changes nothing.
    ///
    /// # Examples
    ///
    /// ```rust
    /// let second = palette.entry(1); // Some(blue)
    /// let none = palette.entry(2); // None
    /// palette.replace_entry(1, red); // Some(blue), which entry 1 was
    /// ```
    pub fn replace_entry(&mut self, i: usize, clr: SRgb8) -> Option<SRgb8>
        ensures old { result ≡ slice_get self.old.colors.items i }
        ensures colors { self.new.colors.items ≡ slice_set self.old.colors.items i clr }
        ensures limit { self.new.limit ≡ self.old.limit }
        ensures threshold { self.new.threshold ≡ self.old.threshold }
    {
        if i < self.colors.len() {
            let old = self.colors[i];
            self.colors[i] = clr;
            Some(old)
        } else {
            None
        }
    }

    /// Counts how often each index is in `indices`, with one count for each entry. Returns `None`
    /// where an index is past the end.
    ///
    /// # Errors
    ///
    /// `Memory` on allocation failure, which comes first.
    ///
    /// # Examples
    ///
    /// ```rust
    /// let mut palette = Palette::new(alloc, 16)?;
    /// palette.set_entry(SRgb8::new::<u8>(200, 0, 0));
    /// let counts = palette.histogram(alloc, &[0_u8, 0, 0])?; // Some of the list [3]
    /// ```
    pub fn histogram<T: PaletteIndex>(
        &self,
        alloc: Global,
        indices: &[T],
    ) -> Result<Option<Vec<usize>>, RasterFault>
        ensures ok { IfOk result (λ answer. MatchOption answer
            (Any (λ i. length self.now.colors.items ≤ T.number i) indices.now)
            (λ counts. IsHistogram T.number (length self.now.colors.items)
            indices.now counts.items)) }
        ensures refused { IfErr result (λ fault. fault ≡ RasterFault.Memory) }
    {
        let mut counts = Vec::from_elem(alloc, 0, self.colors.len()).map_err(
            |_| RasterFault::Memory,
        )?;
        if count_indices(&mut counts, indices) {
            Ok(Some(counts))
        } else {
            Ok(None)
        }
    }

    /// Copies the palette. The copy has the same colors, limit and threshold, and room for all
    /// colors up to the limit.
    ///
    /// # Errors
    ///
    /// `Memory` on allocation failure.
    ///
    /// # Examples
    ///
    /// ```rust
    /// let mut palette = Palette::new(alloc, 99)?;
    /// palette.set_threshold_fn(near);
    /// let spare = palette.try_clone(alloc)?;
    /// ```
    pub fn try_clone(&self, alloc: Global) -> Result<Palette, RasterFault>
        ensures colors { IfOk result (λ p. p.colors.items ≡ self.now.colors.items) }
        ensures limit { IfOk result (λ p. p.limit ≡ self.now.limit) }
        ensures threshold { IfOk result (λ p. p.threshold ≡ self.now.threshold) }
        ensures refused { IfErr result (λ fault. fault ≡ RasterFault.Memory) }
        ensures no_room { self.now.limit ≡ 0 → IsOk result }
    {
        let limit = self.limit;
        let mut colors = Vec::with_capacity(alloc, limit).map_err(|_| RasterFault::Memory)?;
        colors
            .extend_from_slice(&self.colors)
            .map_err(|_| RasterFault::Memory)?;
        Ok(Palette {
            colors,
            limit,
            threshold: self.threshold,
        })
    }
}
