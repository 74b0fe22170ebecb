//! Pixels of one channel, their alpha, sixteen at a time: a run of channels, where each is its own
//! alpha.
ghost use Rattle.std.specs.Prelude.{◌≡◌, [], ◌∷◌, length, map, refl};
ghost use Rattle.pix_chan.specs.Runs.{over};
ghost use Rattle.pix_el.specs.Planes.{by_ones};
ghost use Rattle.pix_el.specs.PixelComposite.{pixel_composite, matted_color};

use crate::el::Pixel;
use crate::planes::block::Block;
use crate::planes::matted::matte_values;
use crate::stored::{Coverage, Stored};
use pix_chan::chan::Channel;
use pix_ops::ops::Blend;

/// Returns the one channel of a pixel.
#[inline(always)]
fn one_channel<P: Pixel>(p: &P) -> P::Chan
    requires { P.layout.count ≡ 1 }
    ensures { P.Chan.number result ∷ [] ≡ P.numbers p.now }
{
    p.channels()[0]
}

/// Returns the channels of sixteen pixels.
#[inline(always)]
fn sixteen_pixels<P: Pixel, D: Stored<P>>(p: &[D]) -> [P::Chan; 16]
    requires count { P.layout.count ≡ 1 }
    requires size { length p.now ≡ 16 }
    ensures { by_ones (map P.Chan.number result) ≡ map D.reads p.now }
{
    let mut own = [P::Chan::MIN; 16];
    D::load_channels(p, &mut own);
    own
}

/// Writes sixteen pixels from their channels.
#[inline(always)]
fn put_sixteen_pixels<P: Pixel, D: Stored<P>>(p: &mut [D], c: [P::Chan; 16])
    requires count { P.layout.count ≡ 1 }
    requires size { length p.old ≡ 16 }
    ensures { map D.reads p.new ≡ by_ones (map P.Chan.number c) }
{
    D::store_channels(p, &c);
}

/// Returns the channels of sixteen pixels, each pixel multiplied by the matte value of the same
/// index.
///
/// Condition: the one channel is the alpha.
#[inline(always)]
fn masked_channels<P: Pixel>(mut to: [P::Chan; 16], mattes: &[P::Chan]) -> [P::Chan; 16]
    requires count { P.layout.count ≡ 1 }
    requires alpha { P.layout.alpha ≡ 0 }
    requires no_hue { P.layout.hues.end ≡ 0 }
    ensures { by_ones (map P.Chan.number result) ≡ over (matted_color P.layout)
        (map P.Chan.number mattes.now) (by_ones (map P.Chan.number to)) }
{
    P::Chan::mul_run(&mut to, mattes);
    to
}

/// Composites the pixels of these channels with those of `dst`. The alphas are read before a
/// channel is written.
///
/// Condition: the one channel is the alpha.
#[inline(always)]
fn composite_sixteen<O: Blend, P: Pixel, D: Stored<P>>(dst: &mut [D], src: [P::Chan; 16])
    requires count { P.layout.count ≡ 1 }
    requires alpha { P.layout.alpha ≡ 0 }
    requires no_hue { P.layout.hues.end ≡ 0 }
    requires size { length dst.old ≡ 16 }
    ensures { map D.reads dst.new ≡ over (pixel_composite P.layout O.op)
        (by_ones (map P.Chan.number src)) (map D.reads dst.old) }
{
    let mut to = sixteen_pixels::<P, D>(dst);
    let da1 = P::Chan::complement16(to);
    let sa1 = P::Chan::complement16(src);
    O::composite_block(&mut to, &da1, &src, &sa1);
    put_sixteen_pixels::<P, D>(dst, to);
}

/// Pixels of an alpha alone, sixteen at a time.
pub(crate) struct AlphaX16 {}

impl<P: Pixel> Block<P> for AlphaX16 {
    ghost suits = { (P.layout.count ≡ 1) × (P.layout.alpha ≡ 0) × (P.layout.hues.end ≡ 0) };

    ghost SIZE = { 16 };

    const SIZE: usize = 16;

    ghost more = { 15 };

    ghost some = { refl };

    #[inline(always)]
    fn composite<O: Blend, D: Stored<P>, S: Stored<P>>(dst: &mut [D], src: &[S]) {
        composite_sixteen::<O, P, D>(dst, sixteen_pixels::<P, S>(src));
    }

    #[inline(always)]
    fn color<O: Blend, D: Stored<P>>(dst: &mut [D], clr: &P) {
        composite_sixteen::<O, P, D>(dst, [one_channel(clr); 16]);
    }

    #[inline(always)]
    fn matted<O: Blend, D: Stored<P>, M: Coverage<P::Chan>>(dst: &mut [D], src: &[M], clr: &P) {
        let colors = masked_channels::<P>([one_channel(clr); 16], &matte_values(src));
        composite_sixteen::<O, P, D>(dst, colors);
    }

    #[inline(always)]
    fn masked<O: Blend, D: Stored<P>, S: Stored<P>, M: Coverage<P::Chan>>(
        dst: &mut [D],
        src: &[S],
        mattes: &[M],
    ) {
        let colors = masked_channels::<P>(sixteen_pixels::<P, S>(src), &matte_values(mattes));
        composite_sixteen::<O, P, D>(dst, colors);
    }

    #[inline(always)]
    fn faded<O: Blend, D: Stored<P>, S: Stored<P>>(dst: &mut [D], src: &[S], alpha: P::Chan) {
        let colors = masked_channels::<P>(sixteen_pixels::<P, S>(src), &[alpha; 16]);
        composite_sixteen::<O, P, D>(dst, colors);
    }
}
