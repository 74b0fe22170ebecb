//! Pixels of two channels without a hue, as they are in memory: sixteen pixels are thirty-two
//! channels, pixel by pixel.
ghost use Rattle.std.specs.Prelude.{◌≡◌, ◌∷◌, [], length, map, refl, replicate};
ghost use Rattle.pix_chan.specs.Planes.{both_in_turn};
ghost use Rattle.pix_chan.specs.Runs.{over};
ghost use Rattle.pix_el.specs.Planes.{by_twos};
ghost use Rattle.pix_el.specs.PixelComposite.{pixel_composite, matted_color};

use crate::el::Pixel;
use crate::planes::block::Block;
use crate::planes::matted::matte_values;
use crate::planes::rgba_x8::joined;
use crate::stored::{Coverage, Stored};
use pix_chan::chan::Channel;
use pix_ops::ops::Blend;

/// Returns the two channels of a pixel.
#[inline(always)]
pub(super) fn two_channels<P: Pixel>(p: &P) -> (P::Chan, P::Chan)
    requires { P.layout.count ≡ 2 }
    ensures { P.Chan.number result.0 ∷ P.Chan.number result.1 ∷ [] ≡ P.numbers p.now }
{
    let c = p.channels();
    (c[0], c[1])
}

/// Returns the channels of sixteen pixels, pixel by pixel.
#[inline(always)]
fn sixteen_pixels<P: Pixel, D: Stored<P>>(p: &[D]) -> [P::Chan; 32]
    requires count { P.layout.count ≡ 2 }
    requires size { length p.now ≡ 16 }
    ensures { by_twos (map P.Chan.number result) ≡ map D.reads p.now }
{
    let mut own = [P::Chan::MIN; 32];
    D::load_channels(p, &mut own);
    own
}

/// Returns the values of both arrays in turn.
#[inline(always)]
fn in_turn<C: Channel>(one: [C; 16], two: [C; 16]) -> [C; 32]
    ensures { map C.number result ≡ both_in_turn (map C.number one) (map C.number two) }
{
    let (a, b) = C::join2(one, two);
    joined(a, b)
}

/// Returns the channels of sixteen pixels of one color, pixel by pixel.
#[inline(always)]
fn sixteen_times<P: Pixel>(clr: &P) -> [P::Chan; 32]
    requires { P.layout.count ≡ 2 }
    ensures { by_twos (map P.Chan.number result) ≡ replicate 16 (P.numbers clr.now) }
{
    let (a, b) = two_channels(clr);
    in_turn([a; 16], [b; 16])
}

/// Returns the channels of sixteen pixels, each pixel multiplied by the matte value of the same
/// index.
///
/// Condition: the alpha is the second channel, and there is no hue.
#[inline(always)]
fn masked_channels<P: Pixel, const CALLER: usize>(
    mut to: [P::Chan; 32],
    values: [P::Chan; 16],
) -> [P::Chan; 32]
    requires count { P.layout.count ≡ 2 }
    requires alpha { P.layout.alpha ≡ 1 }
    requires no_hue { P.layout.hues.end ≡ 0 }
    ensures { by_twos (map P.Chan.number result) ≡ over (matted_color P.layout)
        (map P.Chan.number values) (by_twos (map P.Chan.number to)) }
{
    P::Chan::mul_run(&mut to, &in_turn(values, values));
    to
}

/// Composites the sixteen pixels of these channels with those of `dst`. At each index the alphas
/// are those of its own pixel. Each `CALLER` has a copy of its own, since LLVM inlines a function
/// that is called once.
///
/// Condition: the alpha is the second channel, and there is no hue.
#[inline(always)]
fn composite_sixteen<O: Blend, P: Pixel, D: Stored<P>, const CALLER: usize>(
    dst: &mut [D],
    src: [P::Chan; 32],
)
    requires count { P.layout.count ≡ 2 }
    requires alpha { P.layout.alpha ≡ 1 }
    requires no_hue { P.layout.hues.end ≡ 0 }
    requires size { length dst.old ≡ 16 }
    ensures { map D.reads dst.new ≡ over (pixel_composite P.layout O.op)
        (by_twos (map P.Chan.number src)) (map D.reads dst.old) }
{
    let mut to = sixteen_pixels::<P, D>(dst);
    let da1 = P::Chan::complement32(P::Chan::alphas16(to));
    let sa1 = P::Chan::complement32(P::Chan::alphas16(src));
    O::composite_block(&mut to, &da1, &src, &sa1);
    D::store_channels(dst, &to);
}

/// Pixels of two channels without a hue, sixteen at a time.
pub(crate) struct GrayaX16 {}

impl<P: Pixel> Block<P> for GrayaX16 {
    ghost suits = { (P.layout.count ≡ 2) × (P.layout.alpha ≡ 1) × (P.layout.hues.end ≡ 0) };

    ghost SIZE = { 16 };

    const SIZE: usize = 16;

    ghost more = { 15 };

    ghost some = { refl };

    #[inline(always)]
    fn composite<O: Blend, D: Stored<P>, S: Stored<P>>(dst: &mut [D], src: &[S]) {
        composite_sixteen::<O, P, D, 0>(dst, sixteen_pixels::<P, S>(src));
    }

    #[inline(always)]
    fn color<O: Blend, D: Stored<P>>(dst: &mut [D], clr: &P) {
        composite_sixteen::<O, P, D, 1>(dst, sixteen_times(clr));
    }

    #[inline(always)]
    fn matted<O: Blend, D: Stored<P>, M: Coverage<P::Chan>>(dst: &mut [D], src: &[M], clr: &P) {
        let colors = masked_channels::<P, 2>(sixteen_times(clr), matte_values(src));
        composite_sixteen::<O, P, D, 2>(dst, colors);
    }

    #[inline(always)]
    fn masked<O: Blend, D: Stored<P>, S: Stored<P>, M: Coverage<P::Chan>>(
        dst: &mut [D],
        src: &[S],
        mattes: &[M],
    ) {
        let colors = masked_channels::<P, 3>(sixteen_pixels::<P, S>(src), matte_values(mattes));
        composite_sixteen::<O, P, D, 3>(dst, colors);
    }

    #[inline(always)]
    fn faded<O: Blend, D: Stored<P>, S: Stored<P>>(dst: &mut [D], src: &[S], alpha: P::Chan) {
        let colors = masked_channels::<P, 4>(sixteen_pixels::<P, S>(src), [alpha; 16]);
        composite_sixteen::<O, P, D, 4>(dst, colors);
    }
}
