//! What the largest blocks of a row left: smaller blocks, and then one pixel after the other. A row
//! asks for it once (`rows.rt`).
ghost use Rattle.std.specs.Prelude.{◌≡◌, ◌+◌, map};
ghost use Rattle.std.specs.List.{zip};
ghost use Rattle.pix_chan.specs.Runs.{over};
ghost use Rattle.pix_el.specs.PixelComposite.{pixel_composite, matted_composite, matte_value};

use crate::el::Pixel;
use crate::planes::masked::{faded_rest, masked_rest};
use crate::planes::matted::matted_rest;
use crate::planes::runs::{color_rest, pixel_rest};
use crate::stored::{Coverage, Stored};
use pix_chan::chan::{Linear, Premultiplied};
use pix_ops::ops::Blend;

/// Composites a pixel with one in memory. Condition: the format has an alpha channel.
#[inline(always)]
pub(crate) fn composite_pixel<
    O: Blend,
    P: Pixel<Alpha = Premultiplied, Gamma = Linear>,
    D: Stored<P>,
>(dst: &mut D, src: &P, op: O)
    requires has_alpha { P.layout.count ≡ P.layout.alpha + 1 }
    ensures { D.reads dst.new ≡
        pixel_composite P.layout O.op (P.numbers src.now) (D.reads dst.old) }
{
    let mut pixel = dst.load();
    pixel.composite_channels(src, op);
    *dst = D::store(&pixel);
}

/// Composites a pixel through a matte value with one in memory. Condition: the format has an alpha
/// channel.
#[inline(always)]
pub(crate) fn matte_pixel<O: Blend, P: Pixel<Alpha = Premultiplied, Gamma = Linear>, D: Stored<P>>(
    dst: &mut D,
    src: &P,
    op: O,
    alpha: P::Chan,
)
    requires has_alpha { P.layout.count ≡ P.layout.alpha + 1 }
    ensures { D.reads dst.new ≡ matted_composite P.layout O.op (P.Chan.number alpha)
        (P.numbers src.now) (D.reads dst.old) }
{
    let mut pixel = dst.load();
    pixel.composite_channels_alpha(src, op, &alpha);
    *dst = D::store(&pixel);
}

/// Composites a color with the pixels that larger blocks left. Condition: the format has an alpha
/// channel.
#[inline(always)]
pub(crate) fn finish_color<O: Blend, P: Pixel<Alpha = Premultiplied, Gamma = Linear>, D: Stored<P>>(
    row: &mut [D],
    clr: &P,
    op: O,
)
    requires has_alpha { P.layout.count ≡ P.layout.alpha + 1 }
    ensures { map D.reads row.new ≡
        map (pixel_composite P.layout O.op (P.numbers clr.now)) (map D.reads row.old) }
{
    let start = color_rest::<O, P, D>(row, clr);
    for i in start..row.len() {
        composite_pixel::<O, P, D>(&mut row[i], clr, op);
    }
}

/// Composites the pixels that larger blocks left with those of a row. Condition: the format has an
/// alpha channel.
#[inline(always)]
pub(crate) fn finish_pixels<
    O: Blend,
    P: Pixel<Alpha = Premultiplied, Gamma = Linear>,
    D: Stored<P>,
    S: Stored<P>,
>(row: &mut [D], src: &[S], op: O)
    requires has_alpha { P.layout.count ≡ P.layout.alpha + 1 }
    ensures { map D.reads row.new ≡
        over (pixel_composite P.layout O.op) (map S.reads src.now) (map D.reads row.old) }
{
    let count = row.len().min(src.len());
    let start = pixel_rest::<O, P, D, S>(row, src, count);
    for i in start..count {
        composite_pixel::<O, P, D>(&mut row[i], &src[i].load(), op);
    }
}

/// Composites a color through mattes with the pixels that larger blocks left. Condition: the format
/// has an alpha channel.
#[inline(always)]
pub(crate) fn finish_matted<
    O: Blend,
    P: Pixel<Alpha = Premultiplied, Gamma = Linear>,
    D: Stored<P>,
    M: Coverage<P::Chan>,
>(row: &mut [D], src: &[M], clr: &P, op: O)
    requires has_alpha { P.layout.count ≡ P.layout.alpha + 1 }
    ensures { map D.reads row.new ≡ over (λ matte. matted_composite P.layout O.op
        (matte_value P.layout matte) (P.numbers clr.now))
        (map M.numbers src.now) (map D.reads row.old) }
{
    let count = row.len().min(src.len());
    let start = matted_rest::<O, P, D, M>(row, src, clr, count);
    for i in start..count {
        matte_pixel::<O, P, D>(&mut row[i], clr, op, src[i].coverage());
    }
}

/// Composites the pixels that larger blocks left with those of a row through mattes. Condition: the
/// format has an alpha channel.
#[inline(always)]
pub(crate) fn finish_masked<
    O: Blend,
    P: Pixel<Alpha = Premultiplied, Gamma = Linear>,
    D: Stored<P>,
    S: Stored<P>,
    M: Coverage<P::Chan>,
>(row: &mut [D], src: &[S], mask: &[M], op: O)
    requires has_alpha { P.layout.count ≡ P.layout.alpha + 1 }
    ensures { map D.reads row.new ≡
        over (λ t. matted_composite P.layout O.op (matte_value P.layout t.0) t.1)
        (zip (map M.numbers mask.now) (map S.reads src.now)) (map D.reads row.old) }
{
    let count = row.len().min(src.len()).min(mask.len());
    let start = masked_rest::<O, P, D, S, M>(row, src, mask, count);
    for i in start..count {
        matte_pixel::<O, P, D>(&mut row[i], &src[i].load(), op, mask[i].coverage());
    }
}

/// Composites the pixels that larger blocks left with those of a row, each through the same matte
/// value. Condition: the format has an alpha channel.
#[inline(always)]
pub(crate) fn finish_faded<
    O: Blend,
    P: Pixel<Alpha = Premultiplied, Gamma = Linear>,
    D: Stored<P>,
    S: Stored<P>,
>(row: &mut [D], src: &[S], op: O, alpha: P::Chan)
    requires has_alpha { P.layout.count ≡ P.layout.alpha + 1 }
    ensures { map D.reads row.new ≡ over (matted_composite P.layout O.op (P.Chan.number alpha))
        (map S.reads src.now) (map D.reads row.old) }
{
    let count = row.len().min(src.len());
    let start = faded_rest::<O, P, D, S>(row, src, alpha, count);
    for i in start..count {
        matte_pixel::<O, P, D>(&mut row[i], &src[i].load(), op, alpha);
    }
}
