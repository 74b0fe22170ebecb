//! The values of several mattes, and the choice of blocks for a color through mattes.
ghost use Rattle.std.specs.Prelude.{◌≡◌, ◌≤◌, ◌+◌, length, map, take};
ghost use Rattle.pix_chan.specs.Runs.{over};
ghost use Rattle.pix_el.specs.Planes.{coverage_of};
ghost use Rattle.pix_el.specs.PixelComposite.{matted_composite};

use crate::el::Pixel;
use crate::planes::alpha_x16::AlphaX16;
use crate::planes::block::matted_blocks;
use crate::planes::graya_x8::GrayaX8;
use crate::planes::graya_x16::GrayaX16;
use crate::planes::planes_x16::PlanesX16;
use crate::planes::rgba_x4::RgbaX4;
use crate::planes::rgba_x8::RgbaX8;
use crate::planes::rgba_x16::RgbaX16;
use crate::planes::unchanged::is_zero;
use crate::planes::{has_four, has_one, has_two, is_interleaved};
use crate::stored::{Coverage, Stored};
use pix_chan::chan::Channel;
use pix_ops::ops::Blend;

/// Returns the values of sixteen mattes.
#[inline(always)]
pub(super) fn matte_values<C: Channel, M: Coverage<C>>(src: &[M]) -> [C; 16]
    requires { length src.now ≡ 16 }
    ensures { map C.number result ≡ map (coverage_of C.max M.numbers) src.now }
{
    [
        src[0].coverage(),
        src[1].coverage(),
        src[2].coverage(),
        src[3].coverage(),
        src[4].coverage(),
        src[5].coverage(),
        src[6].coverage(),
        src[7].coverage(),
        src[8].coverage(),
        src[9].coverage(),
        src[10].coverage(),
        src[11].coverage(),
        src[12].coverage(),
        src[13].coverage(),
        src[14].coverage(),
        src[15].coverage(),
    ]
}

/// Returns the values of eight mattes.
#[inline(always)]
pub(super) fn eight_values<C: Channel, M: Coverage<C>>(src: &[M]) -> [C; 8]
    requires { length src.now ≡ 8 }
    ensures { map C.number result ≡ map (coverage_of C.max M.numbers) src.now }
{
    [
        src[0].coverage(),
        src[1].coverage(),
        src[2].coverage(),
        src[3].coverage(),
        src[4].coverage(),
        src[5].coverage(),
        src[6].coverage(),
        src[7].coverage(),
    ]
}

/// Returns the values of four mattes.
#[inline(always)]
pub(super) fn four_values<C: Channel, M: Coverage<C>>(src: &[M]) -> [C; 4]
    requires { length src.now ≡ 4 }
    ensures { map C.number result ≡ map (coverage_of C.max M.numbers) src.now }
{
    [
        src[0].coverage(),
        src[1].coverage(),
        src[2].coverage(),
        src[3].coverage(),
    ]
}

/// Returns whether channels have more than 8 bits.
#[inline(always)]
pub(crate) fn is_wide<C: Channel>() -> bool {
    C::MAX.to_u32() > 255
}

/// Returns whether an operator uses the source's colors, and not its alpha alone. Colors of 8 bits
/// take less time interleaved then, and else by planes.
#[inline(always)]
fn uses_colors<O: Blend, C: Channel>() -> bool {
    !is_zero::<O::Source, C>()
}

/// Composites `clr` through mattes with as many of the first `count` pixels as go in the largest
/// blocks, and returns their number.
///
/// Condition: the format has an alpha channel, and both slices have `count` elements.
#[inline(always)]
pub(crate) fn matted_runs<O: Blend, P: Pixel, D: Stored<P>, M: Coverage<P::Chan>>(
    dst: &mut [D],
    src: &[M],
    clr: &P,
    count: usize,
) -> usize
    requires has_alpha { P.layout.count ≡ P.layout.alpha + 1 }
    requires dst_has { count ≤ length dst.old }
    requires src_has { count ≤ length src.now }
    ensures some { result ≤ count }
    ensures composite { map D.reads dst.new ≡
        over (λ m. matted_composite P.layout O.op m (P.numbers clr.now))
        (take result (map (coverage_of P.Chan.max M.numbers) src.now)) (map D.reads dst.old) }
{
    if is_interleaved::<P>() && is_wide::<P::Chan>() {
        matted_blocks::<O, P, D, M, RgbaX8>(dst, src, clr, count)
    } else if is_interleaved::<P>() && uses_colors::<O, P::Chan>() {
        matted_blocks::<O, P, D, M, RgbaX16>(dst, src, clr, count)
    } else if has_four::<P>() {
        matted_blocks::<O, P, D, M, PlanesX16>(dst, src, clr, count)
    } else if has_two::<P>() {
        matted_blocks::<O, P, D, M, GrayaX16>(dst, src, clr, count)
    } else if has_one::<P>() {
        matted_blocks::<O, P, D, M, AlphaX16>(dst, src, clr, count)
    } else {
        0
    }
}

/// Composites `clr` through mattes with as many of the first `count` pixels as go in the blocks
/// that follow the largest, and returns their number.
///
/// Condition: the format has an alpha channel, and both slices have `count` elements.
#[inline(always)]
pub(crate) fn matted_rest<O: Blend, P: Pixel, D: Stored<P>, M: Coverage<P::Chan>>(
    dst: &mut [D],
    src: &[M],
    clr: &P,
    count: usize,
) -> usize
    requires has_alpha { P.layout.count ≡ P.layout.alpha + 1 }
    requires dst_has { count ≤ length dst.old }
    requires src_has { count ≤ length src.now }
    ensures some { result ≤ count }
    ensures composite { map D.reads dst.new ≡
        over (λ m. matted_composite P.layout O.op m (P.numbers clr.now))
        (take result (map (coverage_of P.Chan.max M.numbers) src.now)) (map D.reads dst.old) }
{
    if is_interleaved::<P>() && is_wide::<P::Chan>() {
        matted_blocks::<O, P, D, M, RgbaX4>(dst, src, clr, count)
    } else if is_interleaved::<P>() {
        let start = matted_blocks::<O, P, D, M, RgbaX8>(dst, src, clr, count);
        let (rest, mattes) = (&mut dst[start..], &src[start..]);
        start + matted_blocks::<O, P, D, M, RgbaX4>(rest, mattes, clr, count - start)
    } else if has_two::<P>() {
        matted_blocks::<O, P, D, M, GrayaX8>(dst, src, clr, count)
    } else {
        0
    }
}
