//! Images of indices into a palette.
ghost use Rattle.std.specs.Prelude.{◌≡◌, Some, None, length, map, true, if◌then◌else◌, IfOk, IfErr};
ghost use Rattle.std.specs.Option.{option_map};
ghost use Rattle.pix_table.specs.threshold.ColorCache.{AreRight};
ghost use Rattle.pix_table.specs.threshold.Setting.{IsSet};
ghost use Rattle.pix_table.specs.threshold.Indexing.{IsSetUpTo, AreIndexed};
ghost use Rattle.pix_palette.specs.Palette.{Answers, numbers};
ghost use Rattle.pix_palette.specs.Finder.{Follows};
ghost use Rattle.pix_palette.specs.Indexing.{IsIndexed, AreGray, colors_of, values};
ghost use Rattle.pix_raster.specs.declared.fault.RasterFault.{RasterFault};

use super::finder::Finder;
use super::index::IndexPixel;
use super::table::{Palette, Threshold};
use pix_chan::chan::{Ch8, Gamma};
use pix_color::gray::{Gray8, Gray16};
use pix_el::el::Pixel;
use pix_el::rgb::SRgb8;
use pix_raster::{Raster, RasterFault};
use pix_table::Cache;
use std::alloc::Global;

impl Palette {
    /// Makes a raster of indices. From left to right and row by row the color of each pixel is set,
    /// and its index is the value of the new pixel at its place. Returns `None` at the first pixel
    /// whose color can't be set or whose index is above 255. The entries that were added stay, also
    /// one for this pixel.
    ///
    /// # Errors
    ///
    /// `Memory` on allocation failure, with the raster. It comes before any other answer, and the
    /// palette is unchanged.
    ///
    /// # Examples
    ///
    /// ```rust
    /// let mut palette = Palette::new(alloc, 256)?;
    /// match palette.make_indexed(alloc, picture) {
    ///     Ok(indices) => Ok(indices), // None: the picture has more than 256 colors
    ///     Err((fault, _)) => Err(fault),
    /// }
    /// ```
    pub fn make_indexed<S>(
        &mut self,
        alloc: Global,
        raster: Raster<S>,
    ) -> Result<Option<Raster<Gray8>>, (RasterFault, Raster<S>)>
    where
        S: Pixel,
        Ch8: From<S::Chan>,
        S::Gamma: Gamma<Ch8>,

        // The entry at each index is the color, or within a threshold; without a threshold function
        // it is the color.
        ensures indexed { IfOk result (λ answer. IsIndexed Threshold.post
            (option_map (λ chosen. chosen.f) self.old.threshold) self.old.limit 255
            ⟦<Gray8 as Pixel>⟧.numbers raster.width raster.height
            (colors_of S.format ⟦<S::Gamma as Gamma<Ch8>>⟧.mode S.numbers raster.pixels)
            self.old.colors.items answer self.new.colors.items) }
        ensures memory { IfErr result (λ err. err ≡ (RasterFault.Memory, raster)) }
        ensures unchanged { IfErr result (λ err. self.new.colors.items ≡ self.old.colors.items) }
        ensures limit { self.new.limit ≡ self.old.limit }
        ensures threshold { self.new.threshold ≡ self.old.threshold }
    {
        self.index_raster(alloc, raster)
    }

    /// Makes a raster of indices. From left to right and row by row the color of each pixel is set,
    /// and its index is the value of the new pixel at its place. Returns `None` at the first pixel
    /// whose color can't be set or whose index is above 65535. The entries that were added stay,
    /// also one for this pixel.
    ///
    /// # Errors
    ///
    /// `Memory` on allocation failure, with the raster. It comes before any other answer, and the
    /// palette is unchanged.
    ///
    /// # Examples
    ///
    /// ```rust
    /// match palette.make_indexed_wide(alloc, picture) {
    ///     Ok(Some(_)) => Ok(Some(palette.len())),
    ///     Ok(None) => Ok(Some(spare.len())),
    ///     Err((fault, _)) => Err(fault),
    /// }
    /// ```
    pub fn make_indexed_wide<S>(
        &mut self,
        alloc: Global,
        raster: Raster<S>,
    ) -> Result<Option<Raster<Gray16>>, (RasterFault, Raster<S>)>
    where
        S: Pixel,
        Ch8: From<S::Chan>,
        S::Gamma: Gamma<Ch8>,

        // The entry at each index is the color, or within a threshold; without a threshold function
        // it is the color.
        ensures indexed { IfOk result (λ answer. IsIndexed Threshold.post
            (option_map (λ chosen. chosen.f) self.old.threshold) self.old.limit 65535
            ⟦<Gray16 as Pixel>⟧.numbers raster.width raster.height
            (colors_of S.format ⟦<S::Gamma as Gamma<Ch8>>⟧.mode S.numbers raster.pixels)
            self.old.colors.items answer self.new.colors.items) }
        ensures memory { IfErr result (λ err. err ≡ (RasterFault.Memory, raster)) }
        ensures unchanged { IfErr result (λ err. self.new.colors.items ≡ self.old.colors.items) }
        ensures limit { self.new.limit ≡ self.old.limit }
        ensures threshold { self.new.threshold ≡ self.old.threshold }
    {
        self.index_raster(alloc, raster)
    }

    /// Sets a color, and returns its index, or `None` where there is none up to `greatest`.
    fn set_index(
        &mut self,
        alloc: Global,
        cache: &mut Cache,
        finder: &mut Finder,
        clr: SRgb8,
        greatest: usize,
    ) -> Option<usize>
        requires right { AreRight
            (Answers Threshold.post (option_map (λ chosen. chosen.f) self.old.threshold))
            (map numbers self.old.colors.items) cache.old.cached }
        requires finder { Follows (map numbers self.old.colors.items) finder.old }
        ensures set { IsSetUpTo numbers (IsSet numbers
            (Answers Threshold.post (option_map (λ chosen. chosen.f) self.old.threshold))
            self.old.limit)
            greatest self.old.colors.items (numbers clr) result self.new.colors.items }
        ensures right { AreRight
            (Answers Threshold.post (option_map (λ chosen. chosen.f) self.old.threshold))
            (map numbers self.new.colors.items) cache.new.cached }
        ensures finder { Follows (map numbers self.new.colors.items) finder.new }
        ensures limit { self.new.limit ≡ self.old.limit }
        ensures threshold { self.new.threshold ≡ self.old.threshold }
    {
        match self.set_known(alloc, cache, finder, clr) {
            Some(index) if index <= greatest => Some(index),
            _ => None,
        }
    }

    /// Sets the color of each pixel, and the pixel of `indices` at the same place to its index. It
    /// stops at the first pixel without an index. Returns whether all have one.
    fn index_pixels<S, P>(&mut self, alloc: Global, pixels: &[S], indices: &mut [P]) -> bool
    where
        S: Pixel,
        P: IndexPixel,
        Ch8: From<S::Chan>,
        S::Gamma: Gamma<Ch8>,
        requires { length indices.old ≡ length pixels.now }
        ensures indexed { AreIndexed numbers (IsSet numbers
            (Answers Threshold.post (option_map (λ chosen. chosen.f) self.old.threshold))
            self.old.limit)
            P.GREATEST self.old.colors.items
            (colors_of S.format ⟦<S::Gamma as Gamma<Ch8>>⟧.mode S.numbers pixels.now)
            (if result then Some (values P.numbers indices.new) else None)
            self.new.colors.items }
        ensures gray { result ≡ true → AreGray P.numbers indices.new }
        ensures limit { self.new.limit ≡ self.old.limit }
        ensures threshold { self.new.threshold ≡ self.old.threshold }
    {
        let mut cache = Cache::new();
        let mut finder = self.finder_of(alloc, pixels.len());
        for i in 0..pixels.len() {
            let clr = pixels[i].convert::<SRgb8>();
            match self.set_index(alloc, &mut cache, &mut finder, clr, P::GREATEST) {
                Some(index) => indices[i] = P::of_index(index),
                None => return false,
            }
        }
        true
    }

    /// Indexes a raster. Returns the raster of indices, whose pixels hold an index, or `None` where
    /// a pixel has no index.
    ///
    /// # Errors
    ///
    /// `Memory` on allocation failure, with the raster. It comes before any other answer, and the
    /// palette is unchanged.
    fn index_raster<S, P>(
        &mut self,
        alloc: Global,
        raster: Raster<S>,
    ) -> Result<Option<Raster<P>>, (RasterFault, Raster<S>)>
    where
        S: Pixel,
        P: IndexPixel,
        Ch8: From<S::Chan>,
        S::Gamma: Gamma<Ch8>,
        ensures indexed { IfOk result (λ answer. IsIndexed Threshold.post
            (option_map (λ chosen. chosen.f) self.old.threshold) self.old.limit P.GREATEST
            P.numbers raster.width raster.height
            (colors_of S.format ⟦<S::Gamma as Gamma<Ch8>>⟧.mode S.numbers raster.pixels)
            self.old.colors.items answer self.new.colors.items) }
        ensures memory { IfErr result (λ err. err ≡ (RasterFault.Memory, raster)) }
        ensures unchanged { IfErr result (λ err. self.new.colors.items ≡ self.old.colors.items) }
        ensures limit { self.new.limit ≡ self.old.limit }
        ensures threshold { self.new.threshold ≡ self.old.threshold }
    {
        match Raster::with_clear(alloc, raster.width(), raster.height()) {
            Err(_) => Err((RasterFault::Memory, raster)),
            Ok(mut image) => {
                if self.index_pixels(alloc, raster.pixels(), image.pixels_mut()) {
                    Ok(Some(image))
                } else {
                    Ok(None)
                }
            }
        }
    }
}
