//! Pictures as bytes of indices into a color table.
ghost use Rattle.std.specs.Prelude.{◌≡◌, map, IfOk, IfErr, IfSome};
ghost use Rattle.pix.specs.Palette.{numbers};
ghost use Rattle.pix.specs.Indexing.{colors_of, AllEqual};
ghost use Rattle.pix_raster.specs.declared.fault.RasterFault.{RasterFault};

use pix::chan::{Ch8, Gamma, Srgb};
use pix::el::Pixel;
use pix::rgb::SRgb8;
use pix::{Palette, Raster, RasterFault};
use std::alloc::Global;

/// Makes what an encoder of indexed images writes: a table of the picture's colors, and for each
/// pixel a byte, its index there. Returns `None` where the picture has more than 256 colors.
pub fn table_and_bytes(
    alloc: Global,
    picture: Raster<SRgb8>,
) -> Result<Option<(Vec<SRgb8>, Vec<u8>)>, RasterFault>
    ensures exact { IfOk result (λ answer. IfSome answer (λ made. AllEqual
        (map numbers made.0.items)
        (colors_of ⟦<SRgb8 as Pixel>⟧.format ⟦<Srgb as Gamma<Ch8>>⟧.mode
        ⟦<SRgb8 as Pixel>⟧.numbers picture.pixels)
        made.1.items)) }
    ensures memory { IfErr result (λ fault. fault ≡ RasterFault.Memory) }
{
    let mut palette = Palette::new(alloc, 256)?;
    match palette.make_indexed(alloc, picture) {
        Err((fault, _)) => Err(fault),
        Ok(None) => Ok(None),
        Ok(Some(image)) => {
            let Ok(table) = Vec::from_slice(alloc, palette.colors()) else {
                return Err(RasterFault::Memory);
            };
            let bytes = image.to_u8_vec(alloc)?;
            Ok(Some((table, bytes)))
        }
    }
}
