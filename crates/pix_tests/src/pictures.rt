//! Small pictures, written down as numbers.
ghost use Rattle.std.specs.Prelude.{◌≡◌, IfOk};
ghost use Rattle.pix.specs.Image.{Image};

use pix::el::Pixel;
use pix::matte::Matte8;
use pix::rgb::Rgba8p;
use pix::{Raster, RasterFault};
use std::alloc::Global;

/// The raster of these pixels, row by row from the top; clear pixels where they are too few.
pub(crate) fn picture<P: Pixel>(
    alloc: Global,
    width: u32,
    height: u32,
    pixels: &[P],
) -> Result<Raster<P>, RasterFault>
    ensures { IfOk result (λ r. (r.width ≡ width) × (r.height ≡ height)) }
{
    let mut raster = Raster::with_clear(alloc, width, height)?;
    P::copy_slice(raster.pixels_mut(), pixels);
    Ok(raster)
}

/// A pixel of red, green, blue and alpha.
pub(crate) fn rgba([red, green, blue, alpha]: [u8; 4]) -> Rgba8p {
    Rgba8p::new(red, green, blue, alpha)
}

/// A pixel of one matte value.
pub(crate) fn matte(value: u8) -> Matte8 {
    Matte8::new(value)
}
