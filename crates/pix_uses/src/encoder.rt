//! What an encoder of indexed images does with a table of colors.
ghost use Rattle.std.specs.Prelude.{◌≡◌, ◌<◌, ℕ, [], ◌∷◌, length, map, slice_index_or};
ghost use Rattle.std.specs.Prelude.{IfOk, IfErr, IfSome};
ghost use Rattle.pix.specs.ColorTable.{entries_of, IsMadeOf};
ghost use Rattle.pix.specs.Diffusion.{AreDiffused};
ghost use Rattle.pix.specs.Quantization.{shown};
ghost use Rattle.pix.specs.Indexing.{colors_of, shades_of, values};
ghost use Rattle.pix.specs.Palette.{numbers};
ghost use Rattle.pix.specs.PaletteMatch.{color_difference};
ghost use Rattle.pix_raster.specs.declared.fault.RasterFault.{RasterFault};

use pix::chan::{Ch8, Gamma, Srgb};
use pix::el::Pixel;
use pix::gray::Gray8;
use pix::rgb::{SRgb8, SRgba8};
use pix::{ColorTable, Raster, RasterFault};
use std::alloc::Global;

/// Indexes a picture in a table of exact colors, and makes a picture of its indices again. Returns
/// `None` where the table has no room for the colors.
pub fn there_and_back(
    alloc: Global,
    table: &mut ColorTable,
    picture: &Raster<SRgb8>,
) -> Result<Option<Raster<SRgb8>>, RasterFault>
    requires { numbers table.old.threshold ≡ 0 ∷ 0 ∷ 0 ∷ [] }

    // The result is the picture: it differs at no pixel, in no channel.
    ensures back { IfOk result (λ answer. IfSome answer (λ again. (k : ℕ)
        → k < length picture.now.pixels → color_difference
        (slice_index_or (map numbers again.pixels) k [])
        (slice_index_or (colors_of ⟦<SRgb8 as Pixel>⟧.format ⟦<Srgb as Gamma<Ch8>>⟧.mode
        ⟦<SRgb8 as Pixel>⟧.numbers picture.now.pixels) k []) ≡ 0 ∷ 0 ∷ 0 ∷ [])) }
{
    match table.index_pixels(alloc, picture)? {
        None => Ok(None),
        Some(indices) => table.look_up(alloc, &indices),
    }
}

/// Makes a table of at most 255 colors of a picture, and the index of each pixel by error
/// diffusion. The index is 255, which no entry has, where a pixel is less than half opaque. The
/// answer is `None` where every pixel is.
pub fn table_and_indices(
    alloc: Global,
    picture: &Raster<SRgba8>,
) -> Result<Option<(ColorTable, Raster<Gray8>)>, RasterFault>
    ensures table { IfOk result (λ answer. IfSome answer (λ made. IsMadeOf 255 (shown 128
        (shades_of ⟦<SRgba8 as Pixel>⟧.format ⟦<Srgb as Gamma<Ch8>>⟧.mode
        ⟦<SRgba8 as Pixel>⟧.numbers picture.now.pixels)) made.0)) }
    ensures indices { IfOk result (λ answer. IfSome answer (λ made. AreDiffused
        (map numbers (entries_of made.0)) 128 255 picture.now.width
        (shades_of ⟦<SRgba8 as Pixel>⟧.format ⟦<Srgb as Gamma<Ch8>>⟧.mode
        ⟦<SRgba8 as Pixel>⟧.numbers picture.now.pixels)
        (values ⟦<Gray8 as Pixel>⟧.numbers made.1.pixels))) }
    ensures memory { IfErr result (λ fault. fault ≡ RasterFault.Memory) }
{
    let Some(table) = ColorTable::quantize(alloc, picture, 255, 128)? else {
        return Ok(None);
    };
    match table.diffuse_indexed(alloc, picture, 128, 255)? {
        None => Ok(None),
        Some(indices) => Ok(Some((table, indices))),
    }
}
