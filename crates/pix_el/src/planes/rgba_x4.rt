//! Pixels of four channels without a hue, four at a time and with no planes: sixteen channels,
//! pixel by pixel.
ghost use Rattle.std.specs.Prelude.{◌≡◌, [], ◌∷◌, length, map, replicate, refl};
ghost use Rattle.pix_chan.specs.Runs.{over};
ghost use Rattle.pix_el.specs.Planes.{by_fours, premultiplied_four};
ghost use Rattle.pix_el.specs.PixelComposite.{pixel_composite, matted_color};

use crate::el::Pixel;
use crate::planes::block::Block;
use crate::planes::matted::four_values;
use crate::stored::{Coverage, Stored};
use pix_chan::chan::Channel;
use pix_ops::ops::Blend;

/// Returns the four channels of a pixel.
#[inline(always)]
pub(super) fn four_channels<P: Pixel>(p: &P) -> (P::Chan, P::Chan, P::Chan, P::Chan)
    requires { P.layout.count ≡ 4 }
    ensures { P.Chan.number result.0 ∷ P.Chan.number result.1
        ∷ P.Chan.number result.2 ∷ P.Chan.number result.3 ∷ [] ≡ P.numbers p.now }
{
    let c = p.channels();
    (c[0], c[1], c[2], c[3])
}

/// Returns the channels of four pixels, pixel by pixel.
#[inline(always)]
pub(crate) fn four_pixels<P: Pixel, D: Stored<P>>(p: &[D]) -> [P::Chan; 16]
    requires count { P.layout.count ≡ 4 }
    requires size { length p.now ≡ 4 }
    ensures { by_fours (map P.Chan.number result) ≡ map D.reads p.now }
{
    let mut own = [P::Chan::MIN; 16];
    D::load_channels(p, &mut own);
    own
}

/// Returns the channels of four pixels of one color, pixel by pixel.
#[inline(always)]
fn four_times<P: Pixel>(clr: &P) -> [P::Chan; 16]
    requires { P.layout.count ≡ 4 }
    ensures { by_fours (map P.Chan.number result) ≡ replicate 4 (P.numbers clr.now) }
{
    let (a, b, c, d) = four_channels(clr);
    [a, b, c, d, a, b, c, d, a, b, c, d, a, b, c, d]
}

/// Writes four pixels from their channels.
#[inline(always)]
pub(crate) fn put_four_pixels<P: Pixel, D: Stored<P>>(p: &mut [D], c: [P::Chan; 16])
    requires count { P.layout.count ≡ 4 }
    requires size { length p.old ≡ 4 }
    ensures size { length p.new ≡ 4 }
    ensures pixels { map D.reads p.new ≡ by_fours (map P.Chan.number c) }
{
    D::store_channels(p, &c);
}

/// Returns the channels of four pixels, each pixel multiplied by the matte value of the same index.
///
/// Condition: the alpha is the last channel, and none is a hue.
#[inline(always)]
fn masked_channels<P: Pixel>(mut to: [P::Chan; 16], values: &[P::Chan]) -> [P::Chan; 16]
    requires count { P.layout.count ≡ 4 }
    requires alpha { P.layout.alpha ≡ 3 }
    requires no_hue { P.layout.hues.end ≡ 0 }
    requires whole { length values.now ≡ 4 }
    ensures { by_fours (map P.Chan.number result) ≡ over (matted_color P.layout)
        (map P.Chan.number values.now) (by_fours (map P.Chan.number to)) }
{
    let (a, b, c, d) = (values[0], values[1], values[2], values[3]);
    let by = [a, a, a, a, b, b, b, b, c, c, c, c, d, d, d, d];
    P::Chan::mul_run(&mut to, &by);
    to
}

/// Composites the four pixels of these channels with those of `dst`. At each index the alphas are
/// those of its own pixel. Each `CALLER` has a copy of its own, since LLVM inlines a function that
/// is called once.
///
/// Condition: the alpha is the last channel, and none is a hue.
#[inline(always)]
fn composite_four<O: Blend, P: Pixel, D: Stored<P>, const CALLER: usize>(
    dst: &mut [D],
    src: [P::Chan; 16],
)
    requires count { P.layout.count ≡ 4 }
    requires alpha { P.layout.alpha ≡ 3 }
    requires no_hue { P.layout.hues.end ≡ 0 }
    requires size { length dst.old ≡ 4 }
    ensures { map D.reads dst.new ≡ over (pixel_composite P.layout O.op)
        (by_fours (map P.Chan.number src)) (map D.reads dst.old) }
{
    let mut to = four_pixels::<P, D>(dst);
    let da1 = P::Chan::complement16(P::Chan::alphas4(to));
    let sa1 = P::Chan::complement16(P::Chan::alphas4(src));
    O::composite_block(&mut to, &da1, &src, &sa1);
    put_four_pixels::<P, D>(dst, to);
}

/// Pixels of four channels without a hue, four at a time.
pub(crate) struct RgbaX4 {}

impl<P: Pixel> Block<P> for RgbaX4 {
    ghost suits = { (P.layout.count ≡ 4) × (P.layout.alpha ≡ 3) × (P.layout.hues.end ≡ 0) };

    ghost SIZE = { 4 };

    const SIZE: usize = 4;

    ghost more = { 3 };

    ghost some = { refl };

    #[inline(always)]
    fn composite<O: Blend, D: Stored<P>, S: Stored<P>>(dst: &mut [D], src: &[S]) {
        composite_four::<O, P, D, 0>(dst, four_pixels::<P, S>(src));
    }

    #[inline(always)]
    fn color<O: Blend, D: Stored<P>>(dst: &mut [D], clr: &P) {
        composite_four::<O, P, D, 1>(dst, four_times(clr));
    }

    #[inline(always)]
    fn matted<O: Blend, D: Stored<P>, M: Coverage<P::Chan>>(dst: &mut [D], src: &[M], clr: &P) {
        let colors = masked_channels::<P>(four_times(clr), &four_values(src));
        composite_four::<O, P, D, 2>(dst, colors);
    }

    #[inline(always)]
    fn masked<O: Blend, D: Stored<P>, S: Stored<P>, M: Coverage<P::Chan>>(
        dst: &mut [D],
        src: &[S],
        mattes: &[M],
    ) {
        let colors = masked_channels::<P>(four_pixels::<P, S>(src), &four_values(mattes));
        composite_four::<O, P, D, 3>(dst, colors);
    }

    #[inline(always)]
    fn faded<O: Blend, D: Stored<P>, S: Stored<P>>(dst: &mut [D], src: &[S], alpha: P::Chan) {
        let colors = masked_channels::<P>(four_pixels::<P, S>(src), &[alpha; 4]);
        composite_four::<O, P, D, 4>(dst, colors);
    }
}

/// Multiplies the colors of four straight pixels by the alphas of their own pixels.
#[inline(always)]
pub(crate) fn premultiply_four<P: Pixel>(p: &mut [P])
    requires count { P.layout.count ≡ 4 }
    requires size { length p.old ≡ 4 }
    ensures { map P.numbers p.new ≡
        map (premultiplied_four P.Chan.max) (map P.numbers p.old) }
{
    let mut to = four_pixels::<P, P>(p);
    let mut by = P::Chan::alphas4(to);
    let (min, max) = (P::Chan::MIN, P::Chan::MAX);
    // The alphas themselves are multiplied by one.
    let ones = [
        min, min, min, max, min, min, min, max, min, min, min, max, min, min, min, max,
    ];
    P::Chan::add_run(&mut by, &ones);
    P::Chan::mul_run(&mut to, &by);
    put_four_pixels::<P, P>(p, to);
}
