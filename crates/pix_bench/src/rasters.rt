//! The works, for any color model where a model does not say what they are.
ghost use Rattle.std.specs.Prelude.{◌≡◌, ◌≤◌, ◌+◌};

use pix::chan::{Alpha, Ch8, Gamma, Linear, Premultiplied, Srgb, Straight};
use pix::el::{Pix, Pixel};
use pix::gray::Gray8;
use pix::ops::SrcOver;
use pix::{ColorModel, ColorTable, Palette, Raster, Region};
use std::alloc::Global;

/// The width and the height of a raster.
const SIDE: u32 = 512;

/// Makes a raster of these bytes.
fn raster_of<const N: usize, M, A, G>(
    alloc: Global,
    bytes: &[u8],
) -> Option<Raster<Pix<N, Ch8, M, A, G>>>
where
    M: ColorModel,
    A: Alpha,
    G: Gamma<Ch8>,
{
    let bytes = Vec::from_slice(alloc, bytes).ok()?;
    Raster::with_u8_buffer(alloc, SIDE, SIDE, bytes).ok()
}

/// Writes the bytes of a raster.
fn write<const N: usize, M, A, G>(
    alloc: Global,
    raster: &Raster<Pix<N, Ch8, M, A, G>>,
    out: &mut [u8],
) -> Option<()>
where
    M: ColorModel,
    A: Alpha,
    G: Gamma<Ch8>,
{
    let bytes = raster.to_u8_vec(alloc).ok()?;
    for (to, byte) in out.iter_mut().zip(&bytes) {
        *to = *byte;
    }
    Some(())
}

/// Composites a raster of `src` with one of the same pixels a number of times.
///
/// Condition: the model has three colors.
pub(crate) fn composited<M: ColorModel>(
    alloc: Global,
    times: u32,
    src: &[u8],
    out: &mut [u8],
) -> Option<()>
    requires has_alpha { 4 ≡ M.ALPHA + 1 }
{
    let mut raster: Raster<Pix<4, Ch8, M, Premultiplied, Linear>> = raster_of(alloc, src)?;
    let source: Raster<Pix<4, Ch8, M, Premultiplied, Linear>> = raster_of(alloc, src)?;
    for _ in 0..times {
        raster.composite_raster(Region::from(()), &source, Region::from(()), SrcOver);
    }
    write(alloc, &raster, out)
}

/// Converts a raster of `src` from one model to the other a number of times.
///
/// Condition: the other model has three colors.
pub(crate) fn converted<S: ColorModel, D: ColorModel>(
    alloc: Global,
    times: u32,
    src: &[u8],
    out: &mut [u8],
) -> Option<()>
    requires few { 3 ≤ D.ALPHA + 1 }
{
    let source: Raster<Pix<3, Ch8, S, Straight, Linear>> = raster_of(alloc, src)?;
    let mut made: Raster<Pix<3, Ch8, D, Straight, Linear>> = Raster::with_raster(
        alloc, &source,
    ).ok()?;
    for _ in 0..times {
        made = Raster::with_raster(alloc, &source).ok()?;
    }
    write(alloc, &made, out)
}

/// Makes a raster without points.
fn empty<P: Pixel>(alloc: Global) -> Option<Raster<P>> {
    Raster::with_clear(alloc, 0, 0).ok()
}

/// Indexes a raster of `src` with a new palette of 256 colors a number of times. Each time the
/// raster is copied, since the call takes it.
pub(crate) fn indexed<M: ColorModel>(
    alloc: Global,
    times: u32,
    src: &[u8],
    out: &mut [u8],
) -> Option<()> {
    let source: Raster<Pix<3, Ch8, M, Straight, Srgb>> = raster_of(alloc, src)?;
    let mut made: Raster<Gray8> = empty(alloc)?;
    for _ in 0..times {
        let copy = source.try_clone(alloc).ok()?;
        let mut palette = Palette::new(alloc, 256).ok()?;
        made = palette.make_indexed(alloc, copy).ok()??;
    }
    write(alloc, &made, out)
}

/// Makes a table of 256 colors of a raster of `src`, and a number of times an image of the nearest
/// of them.
pub(crate) fn mapped<M: ColorModel>(
    alloc: Global,
    times: u32,
    src: &[u8],
    out: &mut [u8],
) -> Option<()> {
    let source: Raster<Pix<3, Ch8, M, Straight, Srgb>> = raster_of(alloc, src)?;
    let table = ColorTable::quantize(alloc, &source, 256, 0).ok()??;
    let mut made: Raster<Gray8> = empty(alloc)?;
    for _ in 0..times {
        made = table.map_indexed(alloc, &source).ok()??;
    }
    write(alloc, &made, out)
}
