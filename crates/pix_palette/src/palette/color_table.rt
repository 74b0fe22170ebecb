//! What a table of colors does.
ghost use Rattle.std.specs.Prelude.{◌≡◌, ℕ, [], length, map, IfOk, IfErr, IfSome, IsOk, Some, nat_eq, slice_get};
ghost use Rattle.std.specs.Option.{option_map};
ghost use Rattle.pix_table.specs.matching.Nearest.{IsNearestOf, IsFirst};
ghost use Rattle.pix_table.specs.threshold.Setting.{Always, IsSet};
ghost use Rattle.pix_palette.specs.Palette.{numbers};
ghost use Rattle.pix_palette.specs.Indexing.{AreGray, colors_of, values};
ghost use Rattle.pix_palette.specs.ColorTable.{entries_of, limit_of, IsIndexedIn};
ghost use Rattle.pix_raster.specs.declared.fault.RasterFault.{RasterFault};

use super::slots::ColorTable;
use super::slots_indexing::index_in;
use pix_chan::chan::{Ch8, Gamma};
use pix_color::gray::Gray8;
use pix_el::el::Pixel;
use pix_el::rgb::SRgb8;
use pix_raster::{Raster, RasterFault};
use pix_table::{TableColor, nearest, set_entry};
use std::alloc::Global;

impl ColorTable {
    /// Makes an empty table of at most `limit` colors, with room for all of them. A color may be as
    /// far from its match as `threshold` says, channel by channel.
    ///
    /// # Errors
    ///
    /// `Memory` on allocation failure, and where the limit is too large to reserve.
    ///
    /// # Examples
    ///
    /// ```rust
    /// let red = SRgb8::new::<u8>(200, 0, 0);
    /// let mut table = ColorTable::new(alloc, 256, SRgb8::new::<u8>(8, 8, 8))?;
    /// table.set_entry(red); // Some(0)
    /// ```
    pub fn new(alloc: Global, limit: usize, threshold: SRgb8) -> Result<ColorTable, RasterFault>
        ensures entries { IfOk result (λ table. entries_of table ≡ []) }
        ensures limit { IfOk result (λ table. limit_of table ≡ limit) }
        ensures threshold { IfOk result (λ table. table.threshold ≡ threshold) }
        ensures refused { IfErr result (λ fault. fault ≡ RasterFault.Memory) }
    {
        let slots = Vec::from_elem(alloc, SRgb8::default(), limit).map_err(
            |_| RasterFault::Memory,
        )?;
        Ok(ColorTable {
            slots,
            len: 0,
            threshold,
        })
    }

    /// Returns the colors in order.
    ///
    /// # Examples
    ///
    /// ```rust
    /// table.set_entry(SRgb8::new::<u8>(204, 0, 0)); // Some(0): it is near enough
    /// let size = table.len(); // 1, of at most table.limit()
    /// let first = table.entry(0); // Some(red), the first of table.colors()
    /// ```
    pub fn colors(&self) -> &[SRgb8]
        ensures { result.now ≡ entries_of self.now }
    {
        &self.slots[..self.len]
    }

    /// Returns the number of entries.
    ///
    /// # Examples
    ///
    /// ```rust
    /// table.set_entry(red); // Some(0)
    /// table.set_entry(SRgb8::new::<u8>(204, 0, 0)); // Some(0): it is near enough
    /// let size = table.len(); // 1, of at most table.limit()
    /// ```
    pub fn len(&self) -> usize
        ensures { result ≡ length (entries_of self.now) }
    {
        self.len
    }

    /// Returns whether there is no entry.
    pub fn is_empty(&self) -> bool
        ensures { result ≡ nat_eq (length (entries_of self.now)) 0 }
    {
        self.len == 0
    }

    /// Returns how many entries there may be at most.
    ///
    /// # Examples
    ///
    /// ```rust
    /// table.set_entry(red); // Some(0)
    /// table.set_entry(SRgb8::new::<u8>(204, 0, 0)); // Some(0): it is near enough
    /// let size = table.len(); // 1, of at most table.limit()
    /// ```
    pub fn limit(&self) -> usize
        ensures { result ≡ limit_of self.now }
    {
        self.slots.len()
    }

    /// Returns the color of entry `i`, or `None` past the end.
    ///
    /// # Examples
    ///
    /// ```rust
    /// table.set_entry(SRgb8::new::<u8>(204, 0, 0)); // Some(0): it is near enough
    /// let size = table.len(); // 1, of at most table.limit()
    /// let first = table.entry(0); // Some(red), the first of table.colors()
    /// ```
    pub fn entry(&self, i: usize) -> Option<SRgb8>
        ensures { result ≡ slice_get (entries_of self.now) i }
    {
        self.colors().get(i).copied()
    }

    /// Returns the index of the entry that is nearest to a color, the first of equals. Returns
    /// `None` where there is no entry.
    ///
    /// The distance of an entry is the sum of the squares of its differences from the color in red,
    /// green and blue.
    ///
    /// # Examples
    ///
    /// ```rust
    /// let size = table.len(); // 1, of at most table.limit()
    /// let first = table.entry(0); // Some(red), the first of table.colors()
    /// let nearest = table.nearest(SRgb8::new::<u8>(0, 0, 9)); // Some(0): there is no other
    /// ```
    pub fn nearest(&self, clr: SRgb8) -> Option<usize>
        ensures nearest { IsNearestOf (map numbers (entries_of self.now)) (numbers clr) result }

        // A color that is in the table is found at its first entry.
        ensures standing { (i : ℕ) → IsFirst (map numbers (entries_of self.now)) (numbers clr) i
            → result ≡ Some i }
    {
        nearest(self.colors(), clr.color())
    }

    /// Sets a color, and returns its index. That is the index of its match, if the match is within
    /// the threshold. Else the color is appended. The answer is `None` where the limit is reached.
    /// It takes no memory.
    ///
    /// The match is the last of the candidates. Entry 0 is the first one. Each later entry is one
    /// if it differs from the color by no more than the candidate before it in each of red, green
    /// and blue, and by less in one.
    ///
    /// # Examples
    ///
    /// ```rust
    /// let red = SRgb8::new::<u8>(200, 0, 0);
    /// let mut table = ColorTable::new(alloc, 256, SRgb8::new::<u8>(8, 8, 8))?;
    /// table.set_entry(red); // Some(0)
    /// table.set_entry(SRgb8::new::<u8>(204, 0, 0)); // Some(0): it is near enough
    /// ```
    pub fn set_entry(&mut self, clr: SRgb8) -> Option<usize>
        ensures set { IsSet numbers (Always (numbers self.old.threshold)) (limit_of self.old)
            (entries_of self.old) clr result (entries_of self.new) }
        ensures limit { limit_of self.new ≡ limit_of self.old }
        ensures threshold { self.new.threshold ≡ self.old.threshold }
    {
        let (answer, len) = set_entry(&mut self.slots, self.len, clr, self.threshold.color());
        self.len = len;
        answer
    }

    /// Makes a raster of indices. From left to right and row by row the color of each pixel is set,
    /// and its index is the value of the new pixel at its place. Returns `None` where a color can't
    /// be set or its index is above 255. Then the table is as it was.
    ///
    /// # Errors
    ///
    /// `Memory` on allocation failure. The table is unchanged. There is no error without points.
    ///
    /// # Examples
    ///
    /// ```rust
    /// let Some(indices) = table.index_pixels(alloc, picture)? else {
    ///     return Ok(None); // the table has no room for all colors
    /// };
    /// ```
    pub fn index_pixels<S>(
        &mut self,
        alloc: Global,
        raster: &Raster<S>,
    ) -> Result<Option<Raster<Gray8>>, RasterFault>
    where
        S: Pixel,
        Ch8: From<S::Chan>,
        S::Gamma: Gamma<Ch8>,
        ensures indexed { IfOk result (λ answer. IsIndexedIn (numbers self.old.threshold)
            (limit_of self.old) (entries_of self.old)
            (colors_of S.format ⟦<S::Gamma as Gamma<Ch8>>⟧.mode S.numbers raster.now.pixels)
            (option_map (λ image. values ⟦<Gray8 as Pixel>⟧.numbers image.pixels) answer)
            (entries_of self.new)) }
        ensures gray { IfOk result (λ answer. IfSome answer (λ image.
            AreGray ⟦<Gray8 as Pixel>⟧.numbers image.pixels)) }
        ensures size { IfOk result (λ answer. IfSome answer (λ image.
            (image.width ≡ raster.now.width) × (image.height ≡ raster.now.height))) }
        ensures memory { IfErr result (λ fault. fault ≡ RasterFault.Memory) }
        ensures no_room { length raster.now.pixels ≡ 0 → IsOk result }
        ensures unchanged { IfErr result (λ _. entries_of self.new ≡ entries_of self.old) }
        ensures limit { limit_of self.new ≡ limit_of self.old }
        ensures threshold { self.new.threshold ≡ self.old.threshold }
    {
        let pixels = raster.pixels();
        match Raster::with_clear(alloc, raster.width(), raster.height()) {
            Err(_) => Err(RasterFault::Memory),
            Ok(mut image) => {
                let (all, len) = index_in(
                    &mut self.slots,
                    self.len,
                    self.threshold,
                    pixels,
                    image.pixels_mut(),
                );
                if !all {
                    return Ok(None);
                }
                self.len = len;
                Ok(Some(image))
            }
        }
    }
}
