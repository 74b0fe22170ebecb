//! Images of indices of the nearest entries of a table, and back to colors.
ghost use Rattle.std.specs.Prelude.{◌≡◌, ◌<◌, ◌≤◌, ◌⊎◌, ℕ, [], length, map, true, false, IfOk, IfErr, IsOk, MatchOption, slice_index, slice_index_or};
ghost use Rattle.pix_table.specs.matching.Nearest.{IsNearest};
ghost use Rattle.pix_table.specs.packing.LookUp.{AreLookedUp, all_below};
ghost use Rattle.pix_palette.specs.Palette.{numbers};
ghost use Rattle.pix_palette.specs.Indexing.{AreGray, colors_of, values};
ghost use Rattle.pix_palette.specs.ColorTable.{entries_of, IsMapped, IsLookedUp};
ghost use Rattle.pix_raster.specs.declared.fault.RasterFault.{RasterFault};

use super::index::IndexPixel;
use super::quantization::ENTRIES;
use super::slots::ColorTable;
use pix_chan::chan::{Ch8, Gamma};
use pix_color::gray::Gray8;
use pix_el::el::Pixel;
use pix_el::rgb::SRgb8;
use pix_raster::{Raster, RasterFault};
use pix_table::{Color, NearestSearch, SearchVisitor, TableColor, visit_nearest};
use std::alloc::Global;

impl ColorTable {
    /// Makes a raster of indices. The value of each pixel is the index of the entry that is nearest
    /// to the color of the pixel at its place, the first of equals. Returns `None` where there is
    /// no entry, or more than 256.
    ///
    /// # Errors
    ///
    /// `Memory` on allocation failure. There is no error without points.
    ///
    /// # Examples
    ///
    /// ```rust
    /// let Some(indices) = table.map_indexed(alloc, picture)? else {
    ///     return Ok(None); // the table has no entry, or more than 256
    /// };
    /// Ok(Some(indices))
    /// ```
    pub fn map_indexed<S>(
        &self,
        alloc: Global,
        raster: &Raster<S>,
    ) -> Result<Option<Raster<Gray8>>, RasterFault>
    where
        S: Pixel,
        Ch8: From<S::Chan>,
        S::Gamma: Gamma<Ch8>,
        ensures mapped { IfOk result (λ answer. MatchOption answer
            ((length (entries_of self.now) ≡ 0) ⊎ (256 < length (entries_of self.now)))
            (IsMapped ⟦<Gray8 as Pixel>⟧.numbers (map numbers (entries_of self.now))
            raster.now.width raster.now.height
            (colors_of S.format ⟦<S::Gamma as Gamma<Ch8>>⟧.mode S.numbers raster.now.pixels))) }
        ensures memory { IfErr result (λ fault. fault ≡ RasterFault.Memory) }
        ensures no_room { length raster.now.pixels ≡ 0 → IsOk result }
    {
        let colors = self.colors();
        if colors.is_empty() || colors.len() > ENTRIES {
            return Ok(None);
        }
        let pixels = raster.pixels();
        match Raster::with_clear(alloc, raster.width(), raster.height()) {
            Err(_) => Err(RasterFault::Memory),
            Ok(mut image) => {
                map_pixels(colors, pixels, image.pixels_mut());
                Ok(Some(image))
            }
        }
    }

    /// Makes a raster of the colors of indices. Each pixel is the entry of the index at its place.
    /// Returns `None` where an index is past the end.
    ///
    /// # Errors
    ///
    /// `Memory` on allocation failure, which comes first. There is no error without points.
    ///
    /// # Examples
    ///
    /// ```rust
    /// let Some(indices) = table.index_pixels(alloc, picture)? else {
    ///     return Ok(None); // the table has no room for all colors
    /// };
    /// table.look_up(alloc, &indices)
    /// ```
    pub fn look_up(
        &self,
        alloc: Global,
        indices: &Raster<Gray8>,
    ) -> Result<Option<Raster<SRgb8>>, RasterFault>
        ensures colors { IfOk result (λ answer. MatchOption answer
            (all_below (length (entries_of self.now))
            (values ⟦<Gray8 as Pixel>⟧.numbers indices.now.pixels) ≡ false)
            (IsLookedUp (entries_of self.now) indices.now.width indices.now.height
            (values ⟦<Gray8 as Pixel>⟧.numbers indices.now.pixels))) }
        ensures memory { IfErr result (λ fault. fault ≡ RasterFault.Memory) }
        ensures no_room { length indices.now.pixels ≡ 0 → IsOk result }
    {
        let pixels = indices.pixels();
        match Raster::with_clear(alloc, indices.width(), indices.height()) {
            Err(_) => Err(RasterFault::Memory),
            Ok(mut image) => {
                if look_up_pixels(self.colors(), pixels, image.pixels_mut()) {
                    Ok(Some(image))
                } else {
                    Ok(None)
                }
            }
        }
    }
}

/// Pixels, for each of which the nearest entry of a table is searched.
#[derive(Drop)]
struct Mapping<'a, S> {
    pixels: &'a [S],
}

impl<S, P> SearchVisitor<P> for Mapping<'_, S>
where
    S: Pixel,
    P: IndexPixel,
    Ch8: From<S::Chan>,
    S::Gamma: Gamma<Ch8>,
{
    ghost can_visit = { λ mapping entries count work. (count ≡ length mapping.pixels.now)
        × (255 ≤ P.GREATEST) };

    ghost visits = { λ mapping entries old new. ((k : ℕ) → k < length mapping.pixels.now
        → IsNearest entries
        (slice_index_or (colors_of S.format ⟦<S::Gamma as Gamma<Ch8>>⟧.mode S.numbers
        mapping.pixels.now) k []) (slice_index (values P.numbers new) k))
        × AreGray P.numbers new };

    // Out of line. Where it is inlined, a matcher is put together on the stack beside its place.
    #[inline(never)]
    fn visit<N: NearestSearch>(&self, search: &mut N, items: &mut [P], _work: &mut [Color]) {
        for i in 0..items.len() {
            let clr = self.pixels[i].convert::<SRgb8>();
            let index = search.nearest_entry(clr.color());
            items[i] = P::of_index(usize::from(index));
        }
    }
}

/// Sets the pixel of `indices` at the place of each pixel to the index of the entry that is nearest
/// to its color.
fn map_pixels<S, P>(colors: &[SRgb8], pixels: &[S], indices: &mut [P])
where
    S: Pixel,
    P: IndexPixel,
    Ch8: From<S::Chan>,
    S::Gamma: Gamma<Ch8>,
    requires some { 0 < length colors.now }
    requires few { length colors.now ≤ 256 }
    requires many { length indices.old ≡ length pixels.now }
    requires greatest { 255 ≤ P.GREATEST }
    ensures nearest { (k : ℕ) → k < length pixels.now → IsNearest (map numbers colors.now)
        (slice_index_or (colors_of S.format ⟦<S::Gamma as Gamma<Ch8>>⟧.mode S.numbers pixels.now)
        k []) (slice_index (values P.numbers indices.new) k) }
    ensures gray { AreGray P.numbers indices.new }
{
    let mapping = Mapping { pixels };
    visit_nearest(colors, &mapping, pixels.len(), indices, &mut []);
}

/// Sets each pixel to the entry of the index at its place, up to the first index that is past the
/// end. Returns whether there is no such index.
pub(super) fn look_up_pixels<C: Copy, P: IndexPixel>(
    entries: &[C],
    indices: &[P],
    pixels: &mut [C],
) -> bool
    requires { length pixels.old ≡ length indices.now }
    ensures inside { result ≡ all_below (length entries.now) (values P.numbers indices.now) }
    ensures found { result ≡ true
        → AreLookedUp entries.now (values P.numbers indices.now) pixels.new }
{
    for i in 0..indices.len() {
        let index = indices[i].to_index();
        if index >= entries.len() {
            return false;
        }
        pixels[i] = entries[index];
    }
    true
}
