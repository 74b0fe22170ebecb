//! Photographs, which are stored as sRGB.
ghost use Rattle.std.specs.Prelude.{◌≡◌, map, IfOk, IfErr};
ghost use Rattle.pix_raster.specs.declared.fault.RasterFault.{RasterFault};
ghost use Rattle.pix_uses.specs.Photos.{colors, light_numbers, glazed};

use pix::el::Pixel;
use pix::ops::SrcOver;
use pix::rgb::{Rgba16p, SRgb8};
use pix::{Raster, RasterFault};
use std::alloc::Global;

/// Composites a color over a photograph: decodes it to linear light of 16 bits, composites there,
/// and encodes the result.
pub fn glaze(
    alloc: Global,
    photo: &Raster<SRgb8>,
    clr: Rgba16p,
) -> Result<Raster<SRgb8>, RasterFault>
    ensures size { IfOk result (λ shown. (shown.width ≡ photo.now.width)
        × (shown.height ≡ photo.now.height)) }
    ensures pixels { IfOk result (λ shown. map colors shown.pixels ≡
        map (glazed (light_numbers clr)) (map colors photo.now.pixels)) }
    ensures memory { IfErr result (λ fault. fault ≡ RasterFault.Memory) }
{
    let mut light = photo.decode_srgb::<Rgba16p>(alloc)?;
    Rgba16p::composite_color(light.pixels_mut(), &clr, SrcOver);
    light.encode_srgb::<SRgb8>(alloc)
}
