//! Eight pixels of four channels without a hue, as they are in memory: thirty-two channels, pixel
//! by pixel.
ghost use Rattle.std.specs.Prelude.{◌≡◌, ◌-◌, ◌++◌, length, map, refl, replicate};
ghost use Rattle.pix_chan.specs.Planes.{in_turn, last_of_four};
ghost use Rattle.pix_chan.specs.Runs.{over};
ghost use Rattle.pix_el.specs.Planes.{by_fours};
ghost use Rattle.pix_el.specs.PixelComposite.{pixel_composite, matted_color, matted_composite};

use crate::el::Pixel;
use crate::planes::block::Block;
use crate::planes::matted::eight_values;
use crate::planes::rgba_x4::four_channels;
use crate::stored::{Coverage, Stored};
use pix_chan::chan::Channel;
use pix_ops::ops::Blend;
use pix_ops::ops::factor::Factor;

/// Returns the channels of eight pixels, pixel by pixel.
#[inline(always)]
pub(super) fn eight_pixels<P: Pixel, D: Stored<P>>(p: &[D]) -> [P::Chan; 32]
    requires count { P.layout.count ≡ 4 }
    requires size { length p.now ≡ 8 }
    ensures { by_fours (map P.Chan.number result) ≡ map D.reads p.now }
{
    let mut own = [P::Chan::MIN; 32];
    D::load_channels(p, &mut own);
    own
}

/// Returns the channels of eight pixels of one color, pixel by pixel.
#[inline(always)]
pub(super) fn eight_times<P: Pixel>(clr: &P) -> [P::Chan; 32]
    requires { P.layout.count ≡ 4 }
    ensures { by_fours (map P.Chan.number result) ≡ replicate 8 (P.numbers clr.now) }
{
    let (a, b, c, d) = four_channels(clr);
    [
        a, b, c, d, a, b, c, d, a, b, c, d, a, b, c, d, a, b, c, d, a, b, c, d, a, b, c, d, a, b,
        c, d,
    ]
}

/// Writes eight pixels from their channels, pixel by pixel.
#[inline(always)]
fn put_eight_pixels<P: Pixel, D: Stored<P>>(p: &mut [D], c: [P::Chan; 32])
    requires count { P.layout.count ≡ 4 }
    requires size { length p.old ≡ 8 }
    ensures { map D.reads p.new ≡ by_fours (map P.Chan.number c) }
{
    D::store_channels(p, &c);
}

/// Returns both arrays, one after the other.
#[inline(always)]
pub(super) fn joined<C: Channel>(a: [C; 16], b: [C; 16]) -> [C; 32]
    ensures { map C.number result ≡ map C.number a ++ map C.number b }
{
    let mut both = [C::MIN; 32];
    let whole = &mut both[..];
    let (first, second) = (&a[..], &b[..]);
    whole[..16].copy_from_slice(first);
    whole[16..32].copy_from_slice(second);
    both
}

/// Returns eight values, each at the four places of its pixel. Equal planes are put together, which
/// uses lanes. For an array that names each value four times, LLVM writes each element by itself.
#[inline(always)]
fn spread<C: Channel>(values: &[C]) -> [C; 32]
    requires { length values.now ≡ 8 }
    ensures { map C.number result ≡ in_turn (map C.number values.now) (map C.number values.now)
        (map C.number values.now) (map C.number values.now) }
{
    let none = C::MIN;
    let plane = [
        values[0], values[1], values[2], values[3], values[4], values[5], values[6], values[7],
        none, none, none, none, none, none, none, none,
    ];
    let (a, b, _, _) = C::join4(plane, plane, plane, plane);
    joined(a, b)
}

/// Returns the channels of eight pixels, each pixel multiplied by the matte value of the same
/// index.
///
/// Condition: the alpha is the last channel, and none is a hue.
#[inline(always)]
pub(super) fn masked_channels<P: Pixel, const COPY: usize, const CALLER: usize>(
    mut to: [P::Chan; 32],
    values: &[P::Chan],
) -> [P::Chan; 32]
    requires count { P.layout.count ≡ 4 }
    requires alpha { P.layout.alpha ≡ 3 }
    requires no_hue { P.layout.hues.end ≡ 0 }
    requires whole { length values.now ≡ 8 }
    ensures { by_fours (map P.Chan.number result) ≡ over (matted_color P.layout)
        (map P.Chan.number values.now) (by_fours (map P.Chan.number to)) }
{
    let by = spread(values);
    P::Chan::mul_run(&mut to, &by);
    to
}

/// Returns one minus the alphas of eight pixels, each at the four places of its pixel. Where the
/// factor multiplies by alphas, they are taken from the pixels as they are, so that what is left
/// over cancels there.
#[inline(always)]
fn alphas_left<F: Factor, C: Channel>(pixels: [C; 32]) -> [C; 32]
    ensures { map C.number result ≡
        map (λ x. C.max - x) (last_of_four (map C.number pixels)) }
{
    if F::term(C::MAX, C::MAX) == C::MIN {
        C::complement32(C::alphas8(pixels))
    } else {
        C::alphas8(C::complement32(pixels))
    }
}

/// Composites the eight pixels of these channels with those of `dst`. At each index the alphas are
/// those of its own pixel. Each `CALLER` of each `COPY` has code of its own, since LLVM inlines a
/// large function only where it is called once: the blocks of eight are copy 0, and the two halves
/// of sixteen pixels copies 1 and 2.
///
/// Condition: the alpha is the last channel, and none is a hue.
#[inline(always)]
pub(super) fn composite_eight<
    O: Blend,
    P: Pixel,
    D: Stored<P>,
    const COPY: usize,
    const CALLER: usize,
>(dst: &mut [D], src: [P::Chan; 32])
    requires count { P.layout.count ≡ 4 }
    requires alpha { P.layout.alpha ≡ 3 }
    requires no_hue { P.layout.hues.end ≡ 0 }
    requires size { length dst.old ≡ 8 }
    ensures { map D.reads dst.new ≡ over (pixel_composite P.layout O.op)
        (by_fours (map P.Chan.number src)) (map D.reads dst.old) }
{
    let mut to = eight_pixels::<P, D>(dst);
    let da1 = alphas_left::<O::Source, P::Chan>(to);
    let sa1 = alphas_left::<O::Dest, P::Chan>(src);
    O::composite_block(&mut to, &da1, &src, &sa1);
    put_eight_pixels::<P, D>(dst, to);
}

/// Pixels of four channels without a hue, eight at a time.
pub(crate) struct RgbaX8 {}

impl<P: Pixel> Block<P> for RgbaX8 {
    ghost suits = { (P.layout.count ≡ 4) × (P.layout.alpha ≡ 3) × (P.layout.hues.end ≡ 0) };

    ghost SIZE = { 8 };

    const SIZE: usize = 8;

    ghost more = { 7 };

    ghost some = { refl };

    #[inline(always)]
    fn composite<O: Blend, D: Stored<P>, S: Stored<P>>(dst: &mut [D], src: &[S]) {
        composite_eight::<O, P, D, 0, 0>(dst, eight_pixels::<P, S>(src));
    }

    #[inline(always)]
    fn color<O: Blend, D: Stored<P>>(dst: &mut [D], clr: &P) {
        composite_eight::<O, P, D, 0, 1>(dst, eight_times(clr));
    }

    #[inline(always)]
    fn matted<O: Blend, D: Stored<P>, M: Coverage<P::Chan>>(dst: &mut [D], src: &[M], clr: &P) {
        let colors = masked_channels::<P, 0, 2>(eight_times(clr), &eight_values(src));
        composite_eight::<O, P, D, 0, 2>(dst, colors);
    }

    #[inline(always)]
    fn masked<O: Blend, D: Stored<P>, S: Stored<P>, M: Coverage<P::Chan>>(
        dst: &mut [D],
        src: &[S],
        mattes: &[M],
    ) {
        let colors = masked_channels::<P, 0, 4>(eight_pixels::<P, S>(src), &eight_values(mattes));
        composite_eight::<O, P, D, 0, 4>(dst, colors);
    }

    #[inline(always)]
    fn faded<O: Blend, D: Stored<P>, S: Stored<P>>(dst: &mut [D], src: &[S], alpha: P::Chan) {
        let mut colors = eight_pixels::<P, S>(src);
        P::Chan::mul_run(&mut colors, &[alpha; 32]);
        composite_eight::<O, P, D, 0, 3>(dst, colors);
    }
}
