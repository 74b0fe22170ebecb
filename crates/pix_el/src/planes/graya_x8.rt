//! Eight pixels of two channels without a hue, as they are in memory.
ghost use Rattle.std.specs.Prelude.{◌≡◌, ◌++◌, length, map, take, replicate, refl};
ghost use Rattle.pix_chan.specs.Planes.{both_in_turn, last_of_two};
ghost use Rattle.pix_chan.specs.Runs.{over};
ghost use Rattle.pix_el.specs.Planes.{by_twos, coverage_of};
ghost use Rattle.pix_el.specs.PixelComposite.{pixel_composite, matted_color};

use crate::el::Pixel;
use crate::planes::block::Block;
use crate::planes::graya_x16::two_channels;
use crate::stored::{Coverage, Stored};
use pix_chan::chan::Channel;
use pix_ops::ops::Blend;

/// Returns the channels of eight pixels, pixel by pixel.
#[inline(always)]
fn eight_pixels<P: Pixel, D: Stored<P>>(p: &[D]) -> [P::Chan; 16]
    requires count { P.layout.count ≡ 2 }
    requires size { length p.now ≡ 8 }
    ensures { by_twos (map P.Chan.number result) ≡ map D.reads p.now }
{
    let mut own = [P::Chan::MIN; 16];
    D::load_channels(p, &mut own);
    own
}

/// Returns the values of eight mattes, and eight zeros after them.
#[inline(always)]
fn eight_mattes<C: Channel, M: Coverage<C>>(src: &[M]) -> [C; 16]
    requires { length src.now ≡ 8 }
    ensures { map C.number result ≡
        map (coverage_of C.max M.numbers) src.now ++ replicate 8 0 }
{
    let none = C::MIN;
    [
        src[0].coverage(),
        src[1].coverage(),
        src[2].coverage(),
        src[3].coverage(),
        src[4].coverage(),
        src[5].coverage(),
        src[6].coverage(),
        src[7].coverage(),
        none,
        none,
        none,
        none,
        none,
        none,
        none,
        none,
    ]
}

/// Returns the first eight values of both arrays in turn.
#[inline(always)]
fn first_in_turn<C: Channel>(one: [C; 16], two: [C; 16]) -> [C; 16]
    ensures { map C.number result ≡
        take 16 (both_in_turn (map C.number one) (map C.number two)) }
{
    let (first, _) = C::join2(one, two);
    first
}

/// Returns the channels of eight pixels of one color, pixel by pixel.
#[inline(always)]
fn eight_times<P: Pixel>(clr: &P) -> [P::Chan; 16]
    requires { P.layout.count ≡ 2 }
    ensures { by_twos (map P.Chan.number result) ≡ replicate 8 (P.numbers clr.now) }
{
    let (a, b) = two_channels(clr);
    first_in_turn([a; 16], [b; 16])
}

/// Returns, for eight pixels of two channels, at each index the last channel of its pixel.
#[inline(always)]
fn alphas<C: Channel>(pixels: [C; 16]) -> [C; 16]
    ensures { map C.number result ≡ last_of_two (map C.number pixels) }
{
    let (_, last) = C::split2(pixels, [C::MIN; 16]);
    first_in_turn(last, last)
}

/// Returns the channels of eight pixels, each pixel multiplied by the matte value of the same
/// index. The last eight values may be anything.
///
/// Condition: the alpha is the second channel, and there is no hue.
#[inline(always)]
fn masked_channels<P: Pixel, const CALLER: usize>(
    mut to: [P::Chan; 16],
    values: [P::Chan; 16],
) -> [P::Chan; 16]
    requires count { P.layout.count ≡ 2 }
    requires alpha { P.layout.alpha ≡ 1 }
    requires no_hue { P.layout.hues.end ≡ 0 }
    ensures { by_twos (map P.Chan.number result) ≡ over (matted_color P.layout)
        (take 8 (map P.Chan.number values)) (by_twos (map P.Chan.number to)) }
{
    P::Chan::mul_run(&mut to, &first_in_turn(values, values));
    to
}

/// Composites the eight pixels of these channels with those of `dst`. Each `CALLER` has a copy of
/// its own, since LLVM inlines a function that is called once.
///
/// Condition: the alpha is the second channel, and there is no hue.
#[inline(always)]
fn composite_eight<O: Blend, P: Pixel, D: Stored<P>, const CALLER: usize>(
    dst: &mut [D],
    src: [P::Chan; 16],
)
    requires count { P.layout.count ≡ 2 }
    requires alpha { P.layout.alpha ≡ 1 }
    requires no_hue { P.layout.hues.end ≡ 0 }
    requires size { length dst.old ≡ 8 }
    ensures { map D.reads dst.new ≡ over (pixel_composite P.layout O.op)
        (by_twos (map P.Chan.number src)) (map D.reads dst.old) }
{
    let mut to = eight_pixels::<P, D>(dst);
    let da1 = P::Chan::complement16(alphas(to));
    let sa1 = P::Chan::complement16(alphas(src));
    O::composite_block(&mut to, &da1, &src, &sa1);
    D::store_channels(dst, &to);
}

/// Pixels of two channels without a hue, eight at a time.
pub(crate) struct GrayaX8 {}

impl<P: Pixel> Block<P> for GrayaX8 {
    ghost suits = { (P.layout.count ≡ 2) × (P.layout.alpha ≡ 1) × (P.layout.hues.end ≡ 0) };

    ghost SIZE = { 8 };

    const SIZE: usize = 8;

    ghost more = { 7 };

    ghost some = { refl };

    #[inline(always)]
    fn composite<O: Blend, D: Stored<P>, S: Stored<P>>(dst: &mut [D], src: &[S]) {
        composite_eight::<O, P, D, 0>(dst, eight_pixels::<P, S>(src));
    }

    #[inline(always)]
    fn color<O: Blend, D: Stored<P>>(dst: &mut [D], clr: &P) {
        composite_eight::<O, P, D, 1>(dst, eight_times(clr));
    }

    #[inline(always)]
    fn matted<O: Blend, D: Stored<P>, M: Coverage<P::Chan>>(dst: &mut [D], src: &[M], clr: &P) {
        let colors = masked_channels::<P, 2>(eight_times(clr), eight_mattes(src));
        composite_eight::<O, P, D, 2>(dst, colors);
    }

    #[inline(always)]
    fn masked<O: Blend, D: Stored<P>, S: Stored<P>, M: Coverage<P::Chan>>(
        dst: &mut [D],
        src: &[S],
        mattes: &[M],
    ) {
        let colors = masked_channels::<P, 3>(eight_pixels::<P, S>(src), eight_mattes(mattes));
        composite_eight::<O, P, D, 3>(dst, colors);
    }

    #[inline(always)]
    fn faded<O: Blend, D: Stored<P>, S: Stored<P>>(dst: &mut [D], src: &[S], alpha: P::Chan) {
        let colors = masked_channels::<P, 4>(eight_pixels::<P, S>(src), [alpha; 16]);
        composite_eight::<O, P, D, 4>(dst, colors);
    }
}
