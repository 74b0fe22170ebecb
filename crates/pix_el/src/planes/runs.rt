//! The choice of blocks for the pixels of a row, and for a color. The largest blocks go first. What
//! they leave is asked for once, and only where they leave something (`rows.rt`).
ghost use Rattle.std.specs.Prelude.{◌≡◌, ◌≤◌, ◌+◌, length, map, take, replicate};
ghost use Rattle.pix_chan.specs.Runs.{over};
ghost use Rattle.pix_el.specs.PixelComposite.{pixel_composite};

use crate::el::Pixel;
use crate::planes::alpha_x16::AlphaX16;
use crate::planes::block::{color_blocks, composite_blocks};
use crate::planes::graya_x8::GrayaX8;
use crate::planes::graya_x16::GrayaX16;
use crate::planes::planes_x16::PlanesX16;
use crate::planes::rgba_x4::RgbaX4;
use crate::planes::rgba_x8::RgbaX8;
use crate::planes::rgba_x16::RgbaX16;
use crate::planes::{has_four, has_one, has_two, is_interleaved};
use crate::stored::Stored;
use pix_ops::ops::Blend;

/// Composites as many of the first `count` pixels as go in the largest blocks, and returns their
/// number.
///
/// Condition: the format has an alpha channel, and both slices have `count` pixels.
#[inline(always)]
pub(crate) fn pixel_runs<O: Blend, P: Pixel, D: Stored<P>, S: Stored<P>>(
    dst: &mut [D],
    src: &[S],
    count: usize,
) -> usize
    requires has_alpha { P.layout.count ≡ P.layout.alpha + 1 }
    requires dst_has { count ≤ length dst.old }
    requires src_has { count ≤ length src.now }
    ensures some { result ≤ count }
    ensures composite { map D.reads dst.new ≡ over (pixel_composite P.layout O.op)
        (take result (map S.reads src.now)) (map D.reads dst.old) }
{
    if is_interleaved::<P>() {
        composite_blocks::<O, P, D, S, RgbaX16>(dst, src, count)
    } else if has_four::<P>() {
        composite_blocks::<O, P, D, S, PlanesX16>(dst, src, count)
    } else if has_two::<P>() {
        composite_blocks::<O, P, D, S, GrayaX16>(dst, src, count)
    } else if has_one::<P>() {
        composite_blocks::<O, P, D, S, AlphaX16>(dst, src, count)
    } else {
        0
    }
}

/// Composites as many of the first `count` pixels as go in the blocks that follow the largest, and
/// returns their number.
///
/// Condition: the format has an alpha channel, and both slices have `count` pixels.
#[inline(always)]
pub(crate) fn pixel_rest<O: Blend, P: Pixel, D: Stored<P>, S: Stored<P>>(
    dst: &mut [D],
    src: &[S],
    count: usize,
) -> usize
    requires has_alpha { P.layout.count ≡ P.layout.alpha + 1 }
    requires dst_has { count ≤ length dst.old }
    requires src_has { count ≤ length src.now }
    ensures some { result ≤ count }
    ensures composite { map D.reads dst.new ≡ over (pixel_composite P.layout O.op)
        (take result (map S.reads src.now)) (map D.reads dst.old) }
{
    if is_interleaved::<P>() {
        let start = composite_blocks::<O, P, D, S, RgbaX8>(dst, src, count);
        let (rest, sources) = (&mut dst[start..], &src[start..]);
        start + composite_blocks::<O, P, D, S, RgbaX4>(rest, sources, count - start)
    } else if has_two::<P>() {
        composite_blocks::<O, P, D, S, GrayaX8>(dst, src, count)
    } else {
        0
    }
}

/// Composites `clr` with as many of the first pixels as go in the largest blocks, and returns their
/// number.
///
/// Condition: the format has an alpha channel.
#[inline(always)]
pub(crate) fn color_runs<O: Blend, P: Pixel, D: Stored<P>>(dst: &mut [D], clr: &P) -> usize
    requires has_alpha { P.layout.count ≡ P.layout.alpha + 1 }
    ensures some { result ≤ length dst.old }
    ensures composite { map D.reads dst.new ≡ over (pixel_composite P.layout O.op)
        (take result (replicate (length dst.old) (P.numbers clr.now))) (map D.reads dst.old) }
{
    if is_interleaved::<P>() {
        color_blocks::<O, P, D, RgbaX16>(dst, clr)
    } else if has_four::<P>() {
        color_blocks::<O, P, D, PlanesX16>(dst, clr)
    } else if has_two::<P>() {
        color_blocks::<O, P, D, GrayaX16>(dst, clr)
    } else if has_one::<P>() {
        color_blocks::<O, P, D, AlphaX16>(dst, clr)
    } else {
        0
    }
}

/// Composites `clr` with as many of the first pixels as go in the blocks that follow the largest,
/// and returns their number.
///
/// Condition: the format has an alpha channel.
#[inline(always)]
pub(crate) fn color_rest<O: Blend, P: Pixel, D: Stored<P>>(dst: &mut [D], clr: &P) -> usize
    requires has_alpha { P.layout.count ≡ P.layout.alpha + 1 }
    ensures some { result ≤ length dst.old }
    ensures composite { map D.reads dst.new ≡ over (pixel_composite P.layout O.op)
        (take result (replicate (length dst.old) (P.numbers clr.now))) (map D.reads dst.old) }
{
    if is_interleaved::<P>() {
        let start = color_blocks::<O, P, D, RgbaX8>(dst, clr);
        start + color_blocks::<O, P, D, RgbaX4>(&mut dst[start..], clr)
    } else if has_two::<P>() {
        color_blocks::<O, P, D, GrayaX8>(dst, clr)
    } else {
        0
    }
}
