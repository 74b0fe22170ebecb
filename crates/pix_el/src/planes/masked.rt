//! The choice of blocks for pixels through mattes or at one opacity. Each block's channels are
//! multiplied by the mattes of their own pixels, and composited as in any other block.
ghost use Rattle.std.specs.Prelude.{◌≡◌, ◌≤◌, ◌+◌, length, map, take};
ghost use Rattle.std.specs.List.{zip};
ghost use Rattle.pix_chan.specs.Runs.{over};
ghost use Rattle.pix_el.specs.Planes.{coverage_of};
ghost use Rattle.pix_el.specs.PixelComposite.{matted_composite};

use crate::el::Pixel;
use crate::planes::alpha_x16::AlphaX16;
use crate::planes::block::{faded_blocks, masked_blocks};
use crate::planes::graya_x8::GrayaX8;
use crate::planes::graya_x16::GrayaX16;
use crate::planes::planes_x16::PlanesX16;
use crate::planes::rgba_x4::RgbaX4;
use crate::planes::rgba_x8::RgbaX8;
use crate::planes::rgba_x16::RgbaX16;
use crate::planes::{has_four, has_one, has_two, is_interleaved};
use crate::stored::{Coverage, Stored};
use pix_ops::ops::Blend;

/// Composites as many of the first `count` pixels as go in the largest blocks, each through the
/// matte of the same index, and returns their number.
///
/// Condition: the format has an alpha channel, and all three slices have `count` elements.
#[inline(always)]
pub(crate) fn masked_runs<O: Blend, P: Pixel, D: Stored<P>, S: Stored<P>, M: Coverage<P::Chan>>(
    dst: &mut [D],
    src: &[S],
    mattes: &[M],
    count: usize,
) -> usize
    requires has_alpha { P.layout.count ≡ P.layout.alpha + 1 }
    requires dst_has { count ≤ length dst.old }
    requires src_has { count ≤ length src.now }
    requires mattes_have { count ≤ length mattes.now }
    ensures some { result ≤ count }
    ensures composite { map D.reads dst.new ≡ over (λ t. matted_composite P.layout O.op t.0 t.1)
        (take result
        (zip (map (coverage_of P.Chan.max M.numbers) mattes.now) (map S.reads src.now)))
        (map D.reads dst.old) }
{
    if is_interleaved::<P>() {
        masked_blocks::<O, P, D, S, M, RgbaX16>(dst, src, mattes, count)
    } else if has_four::<P>() {
        masked_blocks::<O, P, D, S, M, PlanesX16>(dst, src, mattes, count)
    } else if has_two::<P>() {
        masked_blocks::<O, P, D, S, M, GrayaX16>(dst, src, mattes, count)
    } else if has_one::<P>() {
        masked_blocks::<O, P, D, S, M, AlphaX16>(dst, src, mattes, count)
    } else {
        0
    }
}

/// Composites as many of the first `count` pixels as go in the largest blocks, each through the
/// same matte value, and returns their number.
///
/// Condition: the format has an alpha channel, and both slices have `count` pixels.
#[inline(always)]
pub(crate) fn faded_runs<O: Blend, P: Pixel, D: Stored<P>, S: Stored<P>>(
    dst: &mut [D],
    src: &[S],
    alpha: P::Chan,
    count: usize,
) -> usize
    requires has_alpha { P.layout.count ≡ P.layout.alpha + 1 }
    requires dst_has { count ≤ length dst.old }
    requires src_has { count ≤ length src.now }
    ensures some { result ≤ count }
    ensures composite { map D.reads dst.new ≡
        over (matted_composite P.layout O.op (P.Chan.number alpha))
        (take result (map S.reads src.now)) (map D.reads dst.old) }
{
    if is_interleaved::<P>() {
        faded_blocks::<O, P, D, S, RgbaX16>(dst, src, alpha, count)
    } else if has_four::<P>() {
        faded_blocks::<O, P, D, S, PlanesX16>(dst, src, alpha, count)
    } else if has_two::<P>() {
        faded_blocks::<O, P, D, S, GrayaX16>(dst, src, alpha, count)
    } else if has_one::<P>() {
        faded_blocks::<O, P, D, S, AlphaX16>(dst, src, alpha, count)
    } else {
        0
    }
}

/// Composites as many of the first `count` pixels as go in the blocks that follow the largest, each
/// through the matte of the same index, and returns their number.
///
/// Condition: the format has an alpha channel, and all three slices have `count` elements.
#[inline(always)]
pub(crate) fn masked_rest<O: Blend, P: Pixel, D: Stored<P>, S: Stored<P>, M: Coverage<P::Chan>>(
    dst: &mut [D],
    src: &[S],
    mattes: &[M],
    count: usize,
) -> usize
    requires has_alpha { P.layout.count ≡ P.layout.alpha + 1 }
    requires dst_has { count ≤ length dst.old }
    requires src_has { count ≤ length src.now }
    requires mattes_have { count ≤ length mattes.now }
    ensures some { result ≤ count }
    ensures composite { map D.reads dst.new ≡ over (λ t. matted_composite P.layout O.op t.0 t.1)
        (take result
        (zip (map (coverage_of P.Chan.max M.numbers) mattes.now) (map S.reads src.now)))
        (map D.reads dst.old) }
{
    if is_interleaved::<P>() {
        let start = masked_blocks::<O, P, D, S, M, RgbaX8>(dst, src, mattes, count);
        let (rest, sources) = (&mut dst[start..], &src[start..]);
        let (mattes, count) = (&mattes[start..], count - start);
        start + masked_blocks::<O, P, D, S, M, RgbaX4>(rest, sources, mattes, count)
    } else if has_two::<P>() {
        masked_blocks::<O, P, D, S, M, GrayaX8>(dst, src, mattes, count)
    } else {
        0
    }
}

/// Composites as many of the first `count` pixels as go in the blocks that follow the largest, each
/// through the same matte value, and returns their number.
///
/// Condition: the format has an alpha channel, and both slices have `count` pixels.
#[inline(always)]
pub(crate) fn faded_rest<O: Blend, P: Pixel, D: Stored<P>, S: Stored<P>>(
    dst: &mut [D],
    src: &[S],
    alpha: P::Chan,
    count: usize,
) -> usize
    requires has_alpha { P.layout.count ≡ P.layout.alpha + 1 }
    requires dst_has { count ≤ length dst.old }
    requires src_has { count ≤ length src.now }
    ensures some { result ≤ count }
    ensures composite { map D.reads dst.new ≡
        over (matted_composite P.layout O.op (P.Chan.number alpha))
        (take result (map S.reads src.now)) (map D.reads dst.old) }
{
    if is_interleaved::<P>() {
        let start = faded_blocks::<O, P, D, S, RgbaX8>(dst, src, alpha, count);
        let (rest, sources) = (&mut dst[start..], &src[start..]);
        start + faded_blocks::<O, P, D, S, RgbaX4>(rest, sources, alpha, count - start)
    } else if has_two::<P>() {
        faded_blocks::<O, P, D, S, GrayaX8>(dst, src, alpha, count)
    } else {
        0
    }
}
