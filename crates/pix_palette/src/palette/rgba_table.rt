//! Tables of colors with an alpha, and images of their indices.
ghost use Rattle.std.specs.Prelude.{◌≡◌, ◌<◌, ◌≤◌, ◌⊎◌, ◌%◌, [], false, length, map, nat_eq};
ghost use Rattle.std.specs.Prelude.{IfOk, IfErr, IfSome, IsOk, MatchOption};
ghost use Rattle.pix_table.specs.packing.LookUp.{all_below};
ghost use Rattle.pix_table.specs.SeenPixels.{rgba_numbers, AreSeenMatched};
ghost use Rattle.pix_table.specs.diffuse.SeenDiffusion.{AreSeenAround, AreSeenDiffused};
ghost use Rattle.pix_table.specs.quantization.SeenTables.{IsQuantizedRgba};
ghost use Rattle.pix_table.specs.SrgbColor.{srgba_numbers};
ghost use Rattle.pix_palette.specs.Indexing.{shades_of, values};
ghost use Rattle.pix_palette.specs.ColorTable.{IsIndexImage};
ghost use Rattle.pix_palette.specs.RgbaTable.{colors_of_table, IsRgbaLookedUp};
ghost use Rattle.pix_raster.specs.declared.fault.RasterFault.{RasterFault};

use super::copies::copies;
use super::mapped::look_up_pixels;
use super::quantization::{ENTRIES, WHOLE, index_image, shades};
use pix_chan::chan::{Ch8, Gamma};
use pix_color::gray::Gray8;
use pix_el::el::{Pix, Pixel};
use pix_el::rgb::SRgba8;
use pix_raster::{Raster, RasterFault};
use pix_table::{
    RgbaColor, RgbaDiffusion, ScanOrder, SeenColor, diffuse_indexed_rgba, map_indexed_rgba,
    quantize_rgba,
};
use std::alloc::Global;

/// A list of colors with an alpha, as files of indexed images with partial alphas have it.
///
/// How far two colors are apart is the sum of the squares of their differences in red, green and
/// blue, as they are seen over black and over white.
///
/// # Examples
///
/// ```rust
/// let Some(table) = RgbaTable::quantize(alloc, picture, 256, 4)? else {
///     return Ok(None); // not for 256 entries
/// };
/// let Some(indices) = table.map_indexed(alloc, picture)? else {
///     return Ok(None); // the table has no entry
/// };
/// table.look_up(alloc, &indices)
/// ```
#[derive(Drop)]
pub struct RgbaTable {
    entries: Vec<SRgba8>,
}

impl RgbaTable {
    /// Makes a table of the colors of a raster, of at most `limit` entries. Returns `None` where
    /// the limit is 0 or above 256.
    ///
    /// Where the raster has no more distinct colors than that, as they are seen, the entries are
    /// those colors in order of first place. Else they are the means of boxes of colors, by the cut
    /// by squared error, and then `rounds` rounds refine them. In a round each color goes to its
    /// nearest entry, the first of equals. Each entry goes to the mean of its colors, rounded,
    /// where that makes their squared error no greater. No round makes the squared error of all
    /// greater. After all rounds each entry becomes opaque whose alpha is at least 250 and more
    /// than half of whose colors are opaque.
    ///
    /// # Errors
    ///
    /// `Memory` on allocation failure. There is no error without points.
    ///
    /// # Examples
    ///
    /// ```rust
    /// let Some(table) = RgbaTable::quantize(alloc, picture, 256, 4)? else {
    ///     return Ok(None); // not for 256 entries
    /// };
    /// ```
    pub fn quantize<S>(
        alloc: Global,
        raster: &Raster<S>,
        limit: usize,
        rounds: u8,
    ) -> Result<Option<RgbaTable>, RasterFault>
    where
        S: Pixel,
        Ch8: From<S::Chan>,
        S::Gamma: Gamma<Ch8>,
        ensures made { IfOk result (λ answer. MatchOption answer
            ((limit ≡ 0) ⊎ (256 < limit))
            (λ table. IsQuantizedRgba rounds limit
            (shades_of S.format ⟦<S::Gamma as Gamma<Ch8>>⟧.mode S.numbers raster.now.pixels)
            (map srgba_numbers (colors_of_table table)))) }
        ensures memory { IfErr result (λ fault. fault ≡ RasterFault.Memory) }
        ensures no_room { length raster.now.pixels ≡ 0 → IsOk result }
    {
        let shades = shades(alloc, raster)?;
        quantized_rgba_table(alloc, shades.pixels(), limit, rounds)
    }

    /// Makes a table of these colors.
    ///
    /// # Errors
    ///
    /// `Memory` on allocation failure.
    ///
    /// # Examples
    ///
    /// ```rust
    /// let table = RgbaTable::with_colors(alloc, &[clear, veil])?;
    /// let size = table.len(); // 2
    /// let first = table.colors().first(); // Some(&clear)
    /// ```
    pub fn with_colors(alloc: Global, colors: &[SRgba8]) -> Result<RgbaTable, RasterFault>
        ensures colors { IfOk result (λ table. colors_of_table table ≡ colors.now) }
        ensures memory { IfErr result (λ fault. fault ≡ RasterFault.Memory) }
    {
        let Ok(entries) = Vec::from_slice(alloc, colors) else {
            return Err(RasterFault::Memory);
        };
        Ok(RgbaTable { entries })
    }

    /// Returns the colors in order.
    ///
    /// # Examples
    ///
    /// ```rust
    /// let table = RgbaTable::with_colors(alloc, &[clear, veil])?;
    /// let size = table.len(); // 2
    /// let first = table.colors().first(); // Some(&clear)
    /// ```
    pub fn colors(&self) -> &[SRgba8]
        ensures { result.now ≡ colors_of_table self.now }
    {
        &self.entries
    }

    /// Returns the number of entries.
    ///
    /// # Examples
    ///
    /// ```rust
    /// let table = RgbaTable::with_colors(alloc, &[clear, veil])?;
    /// let size = table.len(); // 2
    /// let first = table.colors().first(); // Some(&clear)
    /// ```
    pub fn len(&self) -> usize
        ensures { result ≡ length (colors_of_table self.now) }
    {
        self.entries.len()
    }

    /// Returns whether there is no entry.
    pub fn is_empty(&self) -> bool
        ensures { result ≡ nat_eq (length (colors_of_table self.now)) 0 }
    {
        self.entries.len() == 0
    }

    /// Makes a raster of indices. The value of each pixel is the index of the entry that is seen
    /// nearest to the pixel at its place, the first of equals. Returns `None` where there is no
    /// entry, or more than 256.
    ///
    /// # Errors
    ///
    /// `Memory` on allocation failure. There is no error without points.
    ///
    /// # Examples
    ///
    /// ```rust
    /// let Some(table) = RgbaTable::quantize(alloc, picture, 256, 4)? else {
    ///     return Ok(None); // not for 256 entries
    /// };
    /// let Some(indices) = table.map_indexed(alloc, picture)? else {
    ///     return Ok(None); // the table has no entry
    /// };
    /// ```
    pub fn map_indexed<S>(
        &self,
        alloc: Global,
        raster: &Raster<S>,
    ) -> Result<Option<Raster<Gray8>>, RasterFault>
    where
        S: Pixel,
        Ch8: From<S::Chan>,
        S::Gamma: Gamma<Ch8>,
        ensures mapped { IfOk result (λ answer. MatchOption answer
            ((length (colors_of_table self.now) ≡ 0) ⊎ (256 < length (colors_of_table self.now)))
            (λ image. IsIndexImage ⟦<Gray8 as Pixel>⟧.numbers raster.now.width raster.now.height
            image × AreSeenMatched (map srgba_numbers (colors_of_table self.now))
            (shades_of S.format ⟦<S::Gamma as Gamma<Ch8>>⟧.mode S.numbers raster.now.pixels)
            (values ⟦<Gray8 as Pixel>⟧.numbers image.pixels))) }
        ensures memory { IfErr result (λ fault. fault ≡ RasterFault.Memory) }
        ensures no_room { length raster.now.pixels ≡ 0 → IsOk result }
    {
        let shades = shades(alloc, raster)?;
        let Some(indices) = rgba_matched(alloc, self.colors(), shades.pixels())? else {
            return Ok(None);
        };
        let image = index_image(alloc, &shades, &indices)?;
        Ok(Some(image))
    }

    /// Makes a raster of indices by error diffusion, with `strength` sixteenths of each error, and
    /// in a scan order. The value of each pixel is the index of the entry that is seen nearest to
    /// it plus its share of the errors of the pixels before it. Errors are those of colors times
    /// their alphas, and of the alphas. A pixel of the alpha 0 has no share and hands on no error.
    /// Returns `None` where there is no entry, or more than 256, or where the strength is above 16.
    ///
    /// # Errors
    ///
    /// `Memory` on allocation failure. There is no error without points.
    ///
    /// # Examples
    ///
    /// ```rust
    /// let Some(table) = RgbaTable::quantize(alloc, picture, 256, 4)? else {
    ///     return Ok(None); // not for 256 entries
    /// };
    /// table.diffuse_indexed(alloc, picture, 12, ScanOrder::Serpentine)
    /// ```
    pub fn diffuse_indexed<S>(
        &self,
        alloc: Global,
        raster: &Raster<S>,
        strength: u8,
        scan: ScanOrder,
    ) -> Result<Option<Raster<Gray8>>, RasterFault>
    where
        S: Pixel,
        Ch8: From<S::Chan>,
        S::Gamma: Gamma<Ch8>,
        ensures diffused { IfOk result (λ answer. MatchOption answer
            ((length (colors_of_table self.now) ≡ 0) ⊎ (256 < length (colors_of_table self.now))
            ⊎ (16 < strength))
            (λ image. IsIndexImage ⟦<Gray8 as Pixel>⟧.numbers raster.now.width raster.now.height
            image × AreSeenDiffused scan strength raster.now.width
            (map srgba_numbers (colors_of_table self.now))
            (shades_of S.format ⟦<S::Gamma as Gamma<Ch8>>⟧.mode S.numbers raster.now.pixels)
            (values ⟦<Gray8 as Pixel>⟧.numbers image.pixels))) }
        ensures near { IfOk result (λ answer. IfSome answer (λ image. AreSeenAround
            (map srgba_numbers (colors_of_table self.now))
            (shades_of S.format ⟦<S::Gamma as Gamma<Ch8>>⟧.mode S.numbers raster.now.pixels)
            (values ⟦<Gray8 as Pixel>⟧.numbers image.pixels))) }
        ensures memory { IfErr result (λ fault. fault ≡ RasterFault.Memory) }
        ensures no_room { length raster.now.pixels ≡ 0 → IsOk result }
    {
        if strength > WHOLE {
            return Ok(None);
        }
        let shades = shades(alloc, raster)?;
        let how = RgbaDiffusion {
            width: shades.width() as usize,
            strength,
            scan,
        };
        let Some(indices) = rgba_diffused(alloc, self.colors(), shades.pixels(), how)? else {
            return Ok(None);
        };
        let image = index_image(alloc, &shades, &indices)?;
        Ok(Some(image))
    }

    /// Makes a raster of the colors of indices. Each pixel is the entry of the index at its place.
    /// Returns `None` where an index is past the end.
    ///
    /// # Errors
    ///
    /// `Memory` on allocation failure, which comes first. There is no error without points.
    ///
    /// # Examples
    ///
    /// ```rust
    /// let Some(table) = RgbaTable::quantize(alloc, picture, 256, 4)? else {
    ///     return Ok(None); // not for 256 entries
    /// };
    /// let Some(indices) = table.map_indexed(alloc, picture)? else {
    ///     return Ok(None); // the table has no entry
    /// };
    /// table.look_up(alloc, &indices)
    /// ```
    pub fn look_up(
        &self,
        alloc: Global,
        indices: &Raster<Gray8>,
    ) -> Result<Option<Raster<SRgba8>>, RasterFault>
        ensures colors { IfOk result (λ answer. MatchOption answer
            (all_below (length (colors_of_table self.now))
            (values ⟦<Gray8 as Pixel>⟧.numbers indices.now.pixels) ≡ false)
            (IsRgbaLookedUp (colors_of_table self.now) indices.now.width indices.now.height
            (values ⟦<Gray8 as Pixel>⟧.numbers indices.now.pixels))) }
        ensures memory { IfErr result (λ fault. fault ≡ RasterFault.Memory) }
        ensures no_room { length indices.now.pixels ≡ 0 → IsOk result }
    {
        let pixels = indices.pixels();
        match Raster::with_clear(alloc, indices.width(), indices.height()) {
            Err(_) => Err(RasterFault::Memory),
            Ok(mut image) => {
                if look_up_pixels(self.colors(), pixels, image.pixels_mut()) {
                    Ok(Some(image))
                } else {
                    Ok(None)
                }
            }
        }
    }
}

/// Makes a table of the colors of pixels, of at most `limit` entries, and refines it by `rounds`
/// rounds. Returns `None` where the limit is 0 or above 256.
fn quantized_rgba_table(
    alloc: Global,
    pixels: &[SRgba8],
    limit: usize,
    rounds: u8,
) -> Result<Option<RgbaTable>, RasterFault>
    ensures made { IfOk result (λ answer. MatchOption answer
        ((limit ≡ 0) ⊎ (256 < limit))
        (λ table. IsQuantizedRgba rounds limit (map srgba_numbers pixels.now)
        (map srgba_numbers (colors_of_table table)))) }
    ensures memory { IfErr result (λ fault. fault ≡ RasterFault.Memory) }
    ensures no_room { length pixels.now ≡ 0 → IsOk result }
{
    if limit == 0 || limit > ENTRIES {
        return Ok(None);
    }
    let mut work = copies(alloc, SeenColor::default(), pixels.len())?;
    let mut room = [RgbaColor::default(); ENTRIES];
    let entries = &mut room[..limit];
    let Some(len) = quantize_rgba(pixels, rounds, &mut work, entries) else {
        return Ok(None);
    };
    let mut colors = copies(alloc, SRgba8::default(), len)?;
    copy_rgba(&entries[..len], &mut colors);
    Ok(Some(RgbaTable { entries: colors }))
}

/// Sets slots to colors. There are as many colors as slots.
fn copy_rgba(colors: &[RgbaColor], slots: &mut [SRgba8])
    requires { length slots.old ≡ length colors.now }
    ensures { map srgba_numbers slots.new ≡ map rgba_numbers colors.now }
{
    for i in 0..colors.len() {
        slots[i] = srgba(colors[i]);
    }
}

/// Returns a color as a pixel.
fn srgba(clr: RgbaColor) -> SRgba8
    ensures { srgba_numbers result ≡ rgba_numbers clr }
{
    Pix::with_channels([
        Ch8::new(clr.red),
        Ch8::new(clr.green),
        Ch8::new(clr.blue),
        Ch8::new(clr.alpha),
    ])
}

/// Makes, for each pixel, the index of the entry that is seen nearest to it. Returns `None` where
/// there is no entry, or more than 256.
fn rgba_matched(
    alloc: Global,
    colors: &[SRgba8],
    pixels: &[SRgba8],
) -> Result<Option<Vec<u8>>, RasterFault>
    ensures mapped { IfOk result (λ answer. MatchOption answer
        ((length colors.now ≡ 0) ⊎ (256 < length colors.now))
        (λ indices. AreSeenMatched (map srgba_numbers colors.now)
        (map srgba_numbers pixels.now) indices.items)) }
    ensures memory { IfErr result (λ fault. fault ≡ RasterFault.Memory) }
    ensures no_room { length pixels.now ≡ 0 → IsOk result }
{
    if colors.is_empty() || colors.len() > ENTRIES {
        return Ok(None);
    }
    let mut indices = copies(alloc, 0, pixels.len())?;
    map_indexed_rgba(colors, pixels, &mut indices);
    Ok(Some(indices))
}

/// Makes the indices of the pixels of rows by error diffusion. Returns `None` where there is no
/// entry, or more than 256.
fn rgba_diffused(
    alloc: Global,
    colors: &[SRgba8],
    pixels: &[SRgba8],
    how: RgbaDiffusion,
) -> Result<Option<Vec<u8>>, RasterFault>
    requires row { how.width ≡ 0 → length pixels.now ≡ 0 }
    requires few { how.width < 4294967296 }
    requires strength { how.strength ≤ 16 }
    requires whole { length pixels.now % how.width ≡ 0 }
    ensures diffused { IfOk result (λ answer. MatchOption answer
        ((length colors.now ≡ 0) ⊎ (256 < length colors.now))
        (λ indices. AreSeenDiffused how.scan how.strength how.width (map srgba_numbers colors.now)
        (map srgba_numbers pixels.now) indices.items)) }
    ensures near { IfOk result (λ answer. IfSome answer (λ indices. AreSeenAround
        (map srgba_numbers colors.now) (map srgba_numbers pixels.now) indices.items)) }
    ensures memory { IfErr result (λ fault. fault ≡ RasterFault.Memory) }
    ensures no_room { length pixels.now ≡ 0 → IsOk result }
{
    if colors.is_empty() || colors.len() > ENTRIES {
        return Ok(None);
    }
    let mut indices = copies(alloc, 0, pixels.len())?;
    if pixels.is_empty() {
        // Rows of one pixel serve too, and their work memory is on the stack.
        let rows = RgbaDiffusion {
            width: 1,
            strength: how.strength,
            scan: how.scan,
        };
        let mut work = [SeenColor::default(); 4];
        diffuse_indexed_rgba(colors, pixels, rows, &mut work, &mut indices);
        return Ok(Some(indices));
    }
    let mut work = vec![in alloc; SeenColor::default(); 4 * how.width]?;
    diffuse_indexed_rgba(colors, pixels, how, &mut work, &mut indices);
    Ok(Some(indices))
}
