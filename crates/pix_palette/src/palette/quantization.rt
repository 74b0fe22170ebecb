//! Tables of the colors of a picture, and images of its indices by alpha and by error diffusion.
ghost use Rattle.std.specs.Prelude.{◌≡◌, ◌<◌, ◌≤◌, ◌⊎◌, ◌*◌, ◌%◌, ◌∷◌, [], length, map, take};
ghost use Rattle.std.specs.Prelude.{IfOk, IfErr, IfSome, IsOk, MatchOption};
ghost use Rattle.pix_table.specs.matching.Nearest.{numbers as color_numbers, AreMatched};
ghost use Rattle.pix_table.specs.diffuse.Diffusion.{AreDiffused, AreDiffusedBy, AreShownAround};
ghost use Rattle.pix_table.specs.quantization.Quantization.{shown};
ghost use Rattle.pix_table.specs.SrgbColor.{srgba_numbers};
ghost use Rattle.pix_palette.specs.Palette.{numbers};
ghost use Rattle.pix_palette.specs.Indexing.{AreGray, shades_of, values};
ghost use Rattle.pix_palette.specs.ColorTable.{entries_of, limit_of, IsIndexImage, IsMadeOf};
ghost use Rattle.pix_palette.specs.ColorTable.{IsRefinedMadeOf};
ghost use Rattle.pix_raster.specs.declared.fault.RasterFault.{RasterFault};

use super::copies::copies;
use super::index::IndexPixel;
use super::slots::ColorTable;
use pix_chan::chan::{Ch8, Gamma};
use pix_color::gray::Gray8;
use pix_el::el::{Pix, Pixel};
use pix_el::rgb::{SRgb8, SRgba8};
use pix_raster::{Raster, RasterFault};
use pix_table::{
    Color, Diffusion, ScanOrder, TableColor, diffuse_indexed, map_indexed, quantize_refined,
};
use std::alloc::Global;

/// How many entries a table has at most that is made, or to which pixels are matched.
pub(super) const ENTRIES: usize = 256;

/// The strength that hands on whole errors.
pub(super) const WHOLE: u8 = 16;

impl ColorTable {
    /// Makes a table of the colors of a raster, of at most `limit` entries. Where the raster has no
    /// more distinct colors than that, the entries are those colors in order of first place. Else,
    /// of grays alone, no table of so many has a smaller squared error. Else they are the means of
    /// boxes, by the cut by squared error. Returns `None` where the limit is 0 or above 256.
    ///
    /// Pixels whose alpha is below `alpha` do not count. With an `alpha` of 0 every pixel counts.
    /// To keep an index for the others, make a table of one entry less than there may be indices.
    /// Its limit is then an index that no entry has. The threshold of the table is 0.
    ///
    /// # Errors
    ///
    /// `Memory` on allocation failure.
    ///
    /// # Examples
    ///
    /// ```rust
    /// let Some(table) = ColorTable::quantize(alloc, picture, 255, 128)? else {
    ///     return Ok(None); // not for 255 entries
    /// };
    /// ```
    pub fn quantize<S>(
        alloc: Global,
        raster: &Raster<S>,
        limit: usize,
        alpha: u8,
    ) -> Result<Option<ColorTable>, RasterFault>
    where
        S: Pixel,
        Ch8: From<S::Chan>,
        S::Gamma: Gamma<Ch8>,
        ensures made { IfOk result (λ answer. MatchOption answer
            ((limit ≡ 0) ⊎ (256 < limit))
            (IsMadeOf limit (shown alpha
            (shades_of S.format ⟦<S::Gamma as Gamma<Ch8>>⟧.mode S.numbers raster.now.pixels)))) }
        ensures memory { IfErr result (λ fault. fault ≡ RasterFault.Memory) }
    {
        let shades = shades(alloc, raster)?;
        quantized_table(alloc, shades.pixels(), limit, alpha, 0)
    }

    /// Makes a table by [`ColorTable::quantize`], and refines the means of boxes by `rounds`
    /// rounds. In a round each color goes to its nearest entry, the first of equals, and each entry
    /// to the rounded mean of its colors, if any. No round makes the sum of the squared errors
    /// greater. Returns `None` for a limit of 0 or above 256.
    ///
    /// # Errors
    ///
    /// `Memory` on allocation failure.
    ///
    /// # Examples
    ///
    /// ```rust
    /// let Some(table) = ColorTable::quantize_refined(alloc, picture, 255, 128, 4)? else {
    ///     return Ok(None); // not for 255 entries
    /// };
    /// ```
    pub fn quantize_refined<S>(
        alloc: Global,
        raster: &Raster<S>,
        limit: usize,
        alpha: u8,
        rounds: u8,
    ) -> Result<Option<ColorTable>, RasterFault>
    where
        S: Pixel,
        Ch8: From<S::Chan>,
        S::Gamma: Gamma<Ch8>,
        ensures made { IfOk result (λ answer. MatchOption answer
            ((limit ≡ 0) ⊎ (256 < limit))
            (IsRefinedMadeOf rounds limit (shown alpha
            (shades_of S.format ⟦<S::Gamma as Gamma<Ch8>>⟧.mode S.numbers raster.now.pixels)))) }
        ensures memory { IfErr result (λ fault. fault ≡ RasterFault.Memory) }
    {
        let shades = shades(alloc, raster)?;
        quantized_table(alloc, shades.pixels(), limit, alpha, rounds)
    }

    /// Makes a raster of indices. The value of each pixel is the index of the entry that is nearest
    /// to the color of the pixel at its place, the first of equals. It is `transparent_index`
    /// instead where the alpha of that pixel is below `alpha`. Returns `None` where there is no
    /// entry, or more than 256.
    ///
    /// # Errors
    ///
    /// `Memory` on allocation failure. There is no error without points.
    ///
    /// # Examples
    ///
    /// ```rust
    /// let Some(indices) = table.map_indexed_alpha(alloc, picture, 128, 255)? else {
    ///     return Ok(None); // the table has no entry, or more than 256
    /// };
    /// Ok(Some(indices)) // index 255 where the alpha is below 128
    /// ```
    pub fn map_indexed_alpha<S>(
        &self,
        alloc: Global,
        raster: &Raster<S>,
        alpha: u8,
        transparent_index: u8,
    ) -> Result<Option<Raster<Gray8>>, RasterFault>
    where
        S: Pixel,
        Ch8: From<S::Chan>,
        S::Gamma: Gamma<Ch8>,
        ensures mapped { IfOk result (λ answer. MatchOption answer
            ((length (entries_of self.now) ≡ 0) ⊎ (256 < length (entries_of self.now)))
            (λ image. IsIndexImage ⟦<Gray8 as Pixel>⟧.numbers raster.now.width raster.now.height
            image × AreMatched (map numbers (entries_of self.now)) alpha transparent_index
            (shades_of S.format ⟦<S::Gamma as Gamma<Ch8>>⟧.mode S.numbers raster.now.pixels)
            (values ⟦<Gray8 as Pixel>⟧.numbers image.pixels))) }
        ensures memory { IfErr result (λ fault. fault ≡ RasterFault.Memory) }
        ensures no_room { length raster.now.pixels ≡ 0 → IsOk result }
    {
        let shades = shades(alloc, raster)?;
        let Some(indices) = matched(
            alloc,
            self.colors(),
            shades.pixels(),
            alpha,
            transparent_index,
        )?
        else {
            return Ok(None);
        };
        let image = index_image(alloc, &shades, &indices)?;
        Ok(Some(image))
    }

    /// Makes a raster of indices by error diffusion. The value of each pixel is the index of the
    /// entry that is nearest to its color plus its share of the errors of the pixels before it. It
    /// is `transparent_index` instead where the pixel's alpha is below `alpha`, and then the pixel
    /// hands on no error. Returns `None` where there is no entry, or more than 256.
    ///
    /// The error of a pixel is what was wanted there less the entry that was found. The pixel on
    /// the right gets 7 sixteenths of it, the one below on the left 3, the one below 5, and the one
    /// below on the right 1. It is held to a bound, so a color that is looked up for a pixel is no
    /// further from it: half of the widest step between levels of a channel, and at least 24.
    ///
    /// # Errors
    ///
    /// `Memory` on allocation failure. There is no error without points.
    ///
    /// # Examples
    ///
    /// ```rust
    /// let Some(table) = ColorTable::quantize(alloc, picture, 255, 128)? else {
    ///     return Ok(None); // not for 255 entries
    /// };
    /// table.diffuse_indexed(alloc, picture, 128, 255) // index 255 where the alpha is below 128
    /// ```
    pub fn diffuse_indexed<S>(
        &self,
        alloc: Global,
        raster: &Raster<S>,
        alpha: u8,
        transparent_index: u8,
    ) -> Result<Option<Raster<Gray8>>, RasterFault>
    where
        S: Pixel,
        Ch8: From<S::Chan>,
        S::Gamma: Gamma<Ch8>,
        ensures diffused { IfOk result (λ answer. MatchOption answer
            ((length (entries_of self.now) ≡ 0) ⊎ (256 < length (entries_of self.now)))
            (λ image. IsIndexImage ⟦<Gray8 as Pixel>⟧.numbers raster.now.width raster.now.height
            image × AreDiffused (map numbers (entries_of self.now)) alpha transparent_index
            raster.now.width
            (shades_of S.format ⟦<S::Gamma as Gamma<Ch8>>⟧.mode S.numbers raster.now.pixels)
            (values ⟦<Gray8 as Pixel>⟧.numbers image.pixels))) }
        ensures near { IfOk result (λ answer. IfSome answer (λ image. AreShownAround
            (map numbers (entries_of self.now)) alpha transparent_index
            (shades_of S.format ⟦<S::Gamma as Gamma<Ch8>>⟧.mode S.numbers raster.now.pixels)
            (values ⟦<Gray8 as Pixel>⟧.numbers image.pixels))) }
        ensures memory { IfErr result (λ fault. fault ≡ RasterFault.Memory) }
        ensures no_room { length raster.now.pixels ≡ 0 → IsOk result }
    {
        diffused_image(
            self.colors(),
            alloc,
            raster,
            alpha,
            transparent_index,
            WHOLE,
            ScanOrder::LeftToRight,
        )
    }

    /// Makes a raster of indices by error diffusion. The value of each pixel is the index of the
    /// entry nearest to its color plus `strength` sixteenths of its share of the errors before it,
    /// in a scan order. If that is serpentine, every second row goes from right to left, and the
    /// shares are mirrored. Pixels below `alpha` get `transparent_index`, and hand on no error.
    /// Returns `None` where there is no entry, or more than 256, or the strength is above 16.
    ///
    /// # Errors
    ///
    /// `Memory` on allocation failure. There is no error without points.
    ///
    /// # Examples
    ///
    /// ```rust
    /// let Some(table) = ColorTable::quantize(alloc, picture, 255, 128)? else {
    ///     return Ok(None); // not for 255 entries
    /// };
    /// table.diffuse_indexed_by(alloc, picture, 128, 255, 12, ScanOrder::Serpentine)
    /// ```
    pub fn diffuse_indexed_by<S>(
        &self,
        alloc: Global,
        raster: &Raster<S>,
        alpha: u8,
        transparent_index: u8,
        strength: u8,
        scan: ScanOrder,
    ) -> Result<Option<Raster<Gray8>>, RasterFault>
    where
        S: Pixel,
        Ch8: From<S::Chan>,
        S::Gamma: Gamma<Ch8>,
        ensures diffused { IfOk result (λ answer. MatchOption answer
            ((length (entries_of self.now) ≡ 0) ⊎ (256 < length (entries_of self.now))
            ⊎ (16 < strength))
            (λ image. IsIndexImage ⟦<Gray8 as Pixel>⟧.numbers raster.now.width raster.now.height
            image × AreDiffusedBy scan strength (map numbers (entries_of self.now)) alpha
            transparent_index raster.now.width
            (shades_of S.format ⟦<S::Gamma as Gamma<Ch8>>⟧.mode S.numbers raster.now.pixels)
            (values ⟦<Gray8 as Pixel>⟧.numbers image.pixels))) }
        ensures near { IfOk result (λ answer. IfSome answer (λ image. AreShownAround
            (map numbers (entries_of self.now)) alpha transparent_index
            (shades_of S.format ⟦<S::Gamma as Gamma<Ch8>>⟧.mode S.numbers raster.now.pixels)
            (values ⟦<Gray8 as Pixel>⟧.numbers image.pixels))) }
        ensures memory { IfErr result (λ fault. fault ≡ RasterFault.Memory) }
        ensures no_room { length raster.now.pixels ≡ 0 → IsOk result }
    {
        if strength > WHOLE {
            return Ok(None);
        }
        diffused_image(
            self.colors(),
            alloc,
            raster,
            alpha,
            transparent_index,
            strength,
            scan,
        )
    }
}

/// Makes a raster of indices by error diffusion to the entries `colors`. Returns `None` where there
/// is no entry, or more than 256. Condition: the strength is at most 16.
fn diffused_image<S>(
    colors: &[SRgb8],
    alloc: Global,
    raster: &Raster<S>,
    alpha: u8,
    transparent_index: u8,
    strength: u8,
    scan: ScanOrder,
) -> Result<Option<Raster<Gray8>>, RasterFault>
where
    S: Pixel,
    Ch8: From<S::Chan>,
    S::Gamma: Gamma<Ch8>,
    requires { strength ≤ 16 }
    ensures diffused { IfOk result (λ answer. MatchOption answer
        ((length colors.now ≡ 0) ⊎ (256 < length colors.now))
        (λ image. IsIndexImage ⟦<Gray8 as Pixel>⟧.numbers raster.now.width raster.now.height image
        × AreDiffusedBy scan strength (map numbers colors.now) alpha transparent_index
        raster.now.width
        (shades_of S.format ⟦<S::Gamma as Gamma<Ch8>>⟧.mode S.numbers raster.now.pixels)
        (values ⟦<Gray8 as Pixel>⟧.numbers image.pixels))) }
    ensures near { IfOk result (λ answer. IfSome answer (λ image. AreShownAround
        (map numbers colors.now) alpha transparent_index
        (shades_of S.format ⟦<S::Gamma as Gamma<Ch8>>⟧.mode S.numbers raster.now.pixels)
        (values ⟦<Gray8 as Pixel>⟧.numbers image.pixels))) }
    ensures memory { IfErr result (λ fault. fault ≡ RasterFault.Memory) }
    ensures no_room { length raster.now.pixels ≡ 0 → IsOk result }
{
    let shades = shades(alloc, raster)?;
    let how = Diffusion {
        width: shades.width() as usize,
        alpha,
        transparent_index,
        strength,
        scan,
    };
    let Some(indices) = diffused(alloc, colors, shades.pixels(), how)? else {
        return Ok(None);
    };
    let image = index_image(alloc, &shades, &indices)?;
    Ok(Some(image))
}

/// Makes a copy of a raster whose pixels are colors with an alpha.
pub(super) fn shades<S>(alloc: Global, raster: &Raster<S>) -> Result<Raster<SRgba8>, RasterFault>
where
    S: Pixel,
    Ch8: From<S::Chan>,
    S::Gamma: Gamma<Ch8>,
    ensures size { IfOk result (λ r. (r.width ≡ raster.now.width)
        × (r.height ≡ raster.now.height)) }
    ensures shades { IfOk result (λ r. map srgba_numbers r.pixels
        ≡ shades_of S.format ⟦<S::Gamma as Gamma<Ch8>>⟧.mode S.numbers raster.now.pixels) }
    ensures memory { IfErr result (λ fault. fault ≡ RasterFault.Memory) }
    ensures no_room { length raster.now.pixels ≡ 0 → IsOk result }
{
    let copy = Raster::<SRgba8>::with_raster(alloc, raster)?;
    Ok(copy)
}

/// Makes a refined table of pixels, or returns `None` for a limit of 0 or above 256.
fn quantized_table(
    alloc: Global,
    pixels: &[SRgba8],
    limit: usize,
    alpha: u8,
    rounds: u8,
) -> Result<Option<ColorTable>, RasterFault>
    ensures made { IfOk result (λ answer. MatchOption answer
        ((limit ≡ 0) ⊎ (256 < limit))
        (IsRefinedMadeOf rounds limit (shown alpha (map srgba_numbers pixels.now)))) }
    ensures memory { IfErr result (λ fault. fault ≡ RasterFault.Memory) }
{
    if limit == 0 || limit > ENTRIES {
        return Ok(None);
    }
    let mut work = vec![in alloc; Color::default(); pixels.len()]?;
    let mut room = [Color::default(); ENTRIES];
    let entries = &mut room[..limit];
    let Some(len) = quantize_refined(pixels, alpha, rounds, &mut work, entries) else {
        return Ok(None);
    };
    let table = table_with(alloc, limit, &entries[..len])?;
    Ok(Some(table))
}

/// Makes a table of colors, of no other threshold than 0.
fn table_with(alloc: Global, limit: usize, colors: &[Color]) -> Result<ColorTable, RasterFault>
    requires room { length colors.now ≤ limit }
    ensures room { IfOk result (λ table. limit_of table ≡ limit) }
    ensures exact { IfOk result (λ table. numbers table.threshold ≡ 0 ∷ 0 ∷ 0 ∷ []) }
    ensures colors { IfOk result (λ table.
        map numbers (entries_of table) ≡ map color_numbers colors.now) }
    ensures memory { IfErr result (λ fault. fault ≡ RasterFault.Memory) }
{
    let mut table = ColorTable::new(alloc, limit, SRgb8::default())?;
    copy_colors(colors, &mut table.slots);
    table.len = colors.len();
    Ok(table)
}

/// Makes, for each pixel, the index of the nearest entry or the transparent one. Returns `None`
/// where there is no entry, or more than 256.
fn matched(
    alloc: Global,
    colors: &[SRgb8],
    pixels: &[SRgba8],
    alpha: u8,
    transparent_index: u8,
) -> Result<Option<Vec<u8>>, RasterFault>
    ensures mapped { IfOk result (λ answer. MatchOption answer
        ((length colors.now ≡ 0) ⊎ (256 < length colors.now))
        (λ indices. AreMatched (map numbers colors.now) alpha transparent_index
        (map srgba_numbers pixels.now) indices.items)) }
    ensures memory { IfErr result (λ fault. fault ≡ RasterFault.Memory) }
    ensures no_room { length pixels.now ≡ 0 → IsOk result }
{
    if colors.is_empty() || colors.len() > ENTRIES {
        return Ok(None);
    }
    let mut indices = copies(alloc, 0, pixels.len())?;
    map_indexed(colors, pixels, alpha, transparent_index, &mut indices);
    Ok(Some(indices))
}

/// Makes the indices of the pixels of rows by error diffusion. Returns `None` where there is no
/// entry, or more than 256.
fn diffused(
    alloc: Global,
    colors: &[SRgb8],
    pixels: &[SRgba8],
    how: Diffusion,
) -> Result<Option<Vec<u8>>, RasterFault>
    requires row { how.width ≡ 0 → length pixels.now ≡ 0 }
    requires few { how.width < 4294967296 }
    requires strength { how.strength ≤ 16 }
    requires whole { length pixels.now % how.width ≡ 0 }
    ensures diffused { IfOk result (λ answer. MatchOption answer
        ((length colors.now ≡ 0) ⊎ (256 < length colors.now))
        (λ indices. AreDiffusedBy how.scan how.strength (map numbers colors.now) how.alpha
        how.transparent_index how.width (map srgba_numbers pixels.now) indices.items)) }
    ensures near { IfOk result (λ answer. IfSome answer (λ indices. AreShownAround
        (map numbers colors.now) how.alpha how.transparent_index (map srgba_numbers pixels.now)
        indices.items)) }
    ensures memory { IfErr result (λ fault. fault ≡ RasterFault.Memory) }
    ensures no_room { length pixels.now ≡ 0 → IsOk result }
{
    if colors.is_empty() || colors.len() > ENTRIES {
        return Ok(None);
    }
    let mut indices = copies(alloc, 0, pixels.len())?;
    if pixels.is_empty() {
        // Rows of one pixel serve too, and their work memory is on the stack.
        let rows = Diffusion { width: 1, ..how };
        let mut work = [Color::default(); 4];
        diffuse_indexed(colors, pixels, rows, &mut work, &mut indices);
        return Ok(Some(indices));
    }
    let mut work = vec![in alloc; Color::default(); 4 * how.width]?;
    diffuse_indexed(colors, pixels, how, &mut work, &mut indices);
    Ok(Some(indices))
}

/// Sets the first of some slots to colors. There are no more colors than slots.
fn copy_colors<C: TableColor>(colors: &[C], slots: &mut [SRgb8])
    requires { length colors.now ≤ length slots.old }
    ensures colors { map numbers (take (length colors.now) slots.new)
        ≡ map C.channels colors.now }
    ensures room { length slots.new ≡ length slots.old }
{
    for i in 0..colors.len() {
        slots[i] = srgb(colors[i].color());
    }
}

/// Returns a color as a pixel.
fn srgb(clr: Color) -> SRgb8
    ensures { numbers result ≡ color_numbers clr }
{
    Pix::with_channels([Ch8::new(clr.red), Ch8::new(clr.green), Ch8::new(clr.blue)])
}

/// Makes an image of indices, as large as another one that has as many pixels.
pub(super) fn index_image(
    alloc: Global,
    size: &Raster<SRgba8>,
    indices: &[u8],
) -> Result<Raster<Gray8>, RasterFault>
    requires { length indices.now ≡ size.now.height * size.now.width }
    ensures image { IfOk result
        (IsIndexImage ⟦<Gray8 as Pixel>⟧.numbers size.now.width size.now.height) }
    ensures indices { IfOk result (λ image.
        values ⟦<Gray8 as Pixel>⟧.numbers image.pixels ≡ indices.now) }
    ensures memory { IfErr result (λ fault. fault ≡ RasterFault.Memory) }
    ensures no_room { length indices.now ≡ 0 → IsOk result }
{
    match Raster::with_clear(alloc, size.width(), size.height()) {
        Err(_) => Err(RasterFault::Memory),
        Ok(mut image) => {
            write_indices(indices, image.pixels_mut());
            Ok(image)
        }
    }
}

/// Sets each pixel to the index at its place.
fn write_indices<P: IndexPixel>(indices: &[u8], pixels: &mut [P])
    requires many { length pixels.old ≡ length indices.now }
    requires greatest { 255 ≤ P.GREATEST }
    ensures indices { values P.numbers pixels.new ≡ indices.now }
    ensures gray { AreGray P.numbers pixels.new }
{
    for i in 0..indices.len() {
        pixels[i] = P::of_index(usize::from(indices[i]));
    }
}
