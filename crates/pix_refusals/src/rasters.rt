//! Rasters that are made, copied and converted. The bodies are generic, since each call at a
//! concrete format costs the prover seconds.
ghost use Rattle.std.specs.Prelude.{◌≤◌, ◌+◌};

use pix::chan::{Ch8, Linear, Straight};
use pix::el::{Pix, Pixel};
use pix::{ColorModel, Raster, RasterFault};
use std::alloc::Global;

/// A pixel of four channels.
type Color<M> = Pix<4, Ch8, M, Straight, Linear>;

/// Whether the raster has this size and color.
fn is_plain<P: Pixel>(raster: &Raster<P>, clr: P) -> bool {
    raster.width() == 3
        && raster.height() == 2
        && raster.pixels().len() == 6
        && raster.pixels().iter().all(|pixel| *pixel == clr)
}

/// Whether the answer is a raster of this size and color, or an allocation failure.
fn is_right<P: Pixel>(made: Result<Raster<P>, RasterFault>, clr: P) -> bool {
    match made {
        Ok(raster) => is_plain(&raster, clr),
        Err(fault) => fault == RasterFault::Memory,
    }
}

pub(crate) fn with_clear<M: ColorModel>(alloc: Global) -> bool {
    is_right(Raster::with_clear(alloc, 3, 2), Color::<M>::default())
}

pub(crate) fn with_color<M: ColorModel>(alloc: Global) -> bool {
    let clr = Color::<M>::new(64u8, 128u8, 96u8, 128u8);
    is_right(Raster::with_color(alloc, 3, 2, clr), clr)
}

/// The raster that is copied stays as it was. Where it could not be made, nothing is copied.
pub(crate) fn try_clone<M: ColorModel>(alloc: Global) -> bool {
    let clr = Color::<M>::new(64u8, 128u8, 96u8, 128u8);
    match Raster::with_color(alloc, 3, 2, clr) {
        Ok(raster) => is_right(raster.try_clone(alloc), clr) && is_plain(&raster, clr),
        Err(fault) => fault == RasterFault::Memory,
    }
}

/// The raster that is converted stays as it was. Where it could not be made, nothing is converted.
/// The colors of the other model stand in reverse.
///
/// Condition: the other model has three colors.
pub(crate) fn with_raster<M: ColorModel, T: ColorModel>(alloc: Global) -> bool
    requires few { 4 ≤ T.ALPHA + 1 }
{
    let clr = Color::<M>::new(64u8, 128u8, 96u8, 128u8);
    let Ok(raster) = Raster::with_color(alloc, 3, 2, clr) else {
        return true;
    };
    let converted = Color::<T>::new(96u8, 128u8, 64u8, 128u8);
    is_right(Raster::with_raster(alloc, &raster), converted) && is_plain(&raster, clr)
}
