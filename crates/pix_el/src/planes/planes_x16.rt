//! Pixels of four channels by planes, sixteen at a time.
ghost use Rattle.std.specs.Prelude.{◌≡◌, ◌≤◌, ℕ, List, length, map, refl};
ghost use Rattle.pix_chan.specs.Planes.{in_turn};
ghost use Rattle.pix_chan.specs.Runs.{over};
ghost use Rattle.pix_el.specs.Planes.{by_fours, ArePlanes};
ghost use Rattle.pix_el.specs.PixelComposite.{pixel_composite, matted_color};

use crate::el::Pixel;
use crate::planes::block::Block;
use crate::planes::matted::matte_values;
use crate::planes::quarters::{put_quarters, quarters};
use crate::planes::rgba_x4::four_channels;
use crate::planes::{composite_first, scale_first};
use crate::stored::{Coverage, Stored};
use pix_chan::chan::Channel;
use pix_ops::ops::Blend;

/// Returns the planes of sixteen pixels. Each `CALLER` has a copy of its own, since LLVM inlines a
/// function that is called once.
#[inline(always)]
fn planes<P: Pixel, D: Stored<P>, const CALLER: usize>(
    p: &[D],
) -> ([P::Chan; 16], [P::Chan; 16], [P::Chan; 16], [P::Chan; 16])
    requires count { P.layout.count ≡ 4 }
    requires size { length p.now ≡ 16 }
    ensures { ArePlanes P.Chan.max (map D.reads p.now)
        (map P.Chan.number result.0) (map P.Chan.number result.1)
        (map P.Chan.number result.2) (map P.Chan.number result.3) }
{
    let (a, b, c, d) = quarters::<P, D, CALLER>(p);
    P::Chan::split4(a, b, c, d)
}

/// Writes sixteen pixels from their planes.
#[inline(always)]
fn put_planes<P: Pixel, D: Stored<P>>(
    p: &mut [D],
    one: [P::Chan; 16],
    two: [P::Chan; 16],
    three: [P::Chan; 16],
    four: [P::Chan; 16],
)
    requires count { P.layout.count ≡ 4 }
    requires size { length p.old ≡ 16 }
    ensures { map D.reads p.new ≡
        by_fours (in_turn (map P.Chan.number one) (map P.Chan.number two)
        (map P.Chan.number three) (map P.Chan.number four)) }
{
    let (a, b, c, d) = P::Chan::join4(one, two, three, four);
    put_quarters::<P, D>(p, a, b, c, d);
}

/// Composites the sixteen pixels of these planes with those of `dst`. All alphas are read before a
/// plane is written.
///
/// Condition: the alpha is the last channel, and only the first may be a hue.
#[inline(always)]
fn composite_sixteen<O: Blend, P: Pixel, D: Stored<P>, const CALLER: usize>(
    dst: &mut [D],
    one: [P::Chan; 16],
    two: [P::Chan; 16],
    three: [P::Chan; 16],
    four: [P::Chan; 16],
)
    requires count { P.layout.count ≡ 4 }
    requires alpha { P.layout.alpha ≡ 3 }
    requires hue { P.layout.hues.end ≤ 1 }
    requires size { length dst.old ≡ 16 }
    ensures { (pixels : List (List ℕ))
        → ArePlanes P.Chan.max pixels (map P.Chan.number one) (map P.Chan.number two)
        (map P.Chan.number three) (map P.Chan.number four)
        → map D.reads dst.new ≡
        over (pixel_composite P.layout O.op) pixels (map D.reads dst.old) }
{
    let (mut to_one, mut to_two, mut to_three, mut to_four) = planes::<P, D, CALLER>(dst);
    let da1 = P::Chan::complement16(to_four);
    let sa1 = P::Chan::complement16(four);
    composite_first::<O, P::Model, P::Chan>(&mut to_one, &da1, &one, &sa1);
    O::composite_block(&mut to_two, &da1, &two, &sa1);
    O::composite_block(&mut to_three, &da1, &three, &sa1);
    O::composite_block(&mut to_four, &da1, &four, &sa1);
    put_planes::<P, D>(dst, to_one, to_two, to_three, to_four);
}

/// Returns the planes of sixteen pixels, each pixel multiplied by the matte value of the same
/// index. Each `CALLER` of each operator has a copy of its own, since LLVM inlines a large function
/// only where it is called once.
///
/// Condition: the alpha is the last channel, and only the first may be a hue.
#[inline(always)]
fn masked_channels<O: Blend, P: Pixel, const CALLER: usize>(
    mut one: [P::Chan; 16],
    mut two: [P::Chan; 16],
    mut three: [P::Chan; 16],
    mut four: [P::Chan; 16],
    mattes: &[P::Chan],
) -> ([P::Chan; 16], [P::Chan; 16], [P::Chan; 16], [P::Chan; 16])
    requires count { P.layout.count ≡ 4 }
    requires alpha { P.layout.alpha ≡ 3 }
    requires hue { P.layout.hues.end ≤ 1 }
    ensures { (pixels : List (List ℕ))
        → ArePlanes P.Chan.max pixels (map P.Chan.number one) (map P.Chan.number two)
        (map P.Chan.number three) (map P.Chan.number four)
        → ArePlanes P.Chan.max (over (matted_color P.layout) (map P.Chan.number mattes.now) pixels)
        (map P.Chan.number result.0) (map P.Chan.number result.1)
        (map P.Chan.number result.2) (map P.Chan.number result.3) }
{
    scale_first::<P::Model, P::Chan>(&mut one, mattes);
    P::Chan::mul_run(&mut two, mattes);
    P::Chan::mul_run(&mut three, mattes);
    P::Chan::mul_run(&mut four, mattes);
    (one, two, three, four)
}

/// Pixels of four channels of which only the first may be a hue, sixteen at a time.
pub(crate) struct PlanesX16 {}

impl<P: Pixel> Block<P> for PlanesX16 {
    ghost suits = { (P.layout.count ≡ 4) × (P.layout.alpha ≡ 3) × (P.layout.hues.end ≤ 1) };

    ghost SIZE = { 16 };

    const SIZE: usize = 16;

    ghost more = { 15 };

    ghost some = { refl };

    #[inline(always)]
    fn composite<O: Blend, D: Stored<P>, S: Stored<P>>(dst: &mut [D], src: &[S]) {
        let (one, two, three, four) = planes::<P, S, 2>(src);
        composite_sixteen::<O, P, D, 0>(dst, one, two, three, four);
    }

    #[inline(always)]
    fn color<O: Blend, D: Stored<P>>(dst: &mut [D], clr: &P) {
        let (a, b, c, d) = four_channels(clr);
        composite_sixteen::<O, P, D, 1>(dst, [a; 16], [b; 16], [c; 16], [d; 16]);
    }

    #[inline(always)]
    fn matted<O: Blend, D: Stored<P>, M: Coverage<P::Chan>>(dst: &mut [D], src: &[M], clr: &P) {
        let (a, b, c, d) = four_channels(clr);
        let mattes = matte_values(src);
        let (one, two, three, four) = masked_channels::<O, P, 3>(
            [a; 16], [b; 16], [c; 16], [d; 16], &mattes,
        );
        composite_sixteen::<O, P, D, 3>(dst, one, two, three, four);
    }

    #[inline(always)]
    fn masked<O: Blend, D: Stored<P>, S: Stored<P>, M: Coverage<P::Chan>>(
        dst: &mut [D],
        src: &[S],
        mattes: &[M],
    ) {
        let (a, b, c, d) = planes::<P, S, 4>(src);
        let (one, two, three, four) = masked_channels::<O, P, 4>(a, b, c, d, &matte_values(mattes));
        composite_sixteen::<O, P, D, 4>(dst, one, two, three, four);
    }

    #[inline(always)]
    fn faded<O: Blend, D: Stored<P>, S: Stored<P>>(dst: &mut [D], src: &[S], alpha: P::Chan) {
        let (a, b, c, d) = planes::<P, S, 5>(src);
        let (one, two, three, four) = masked_channels::<O, P, 5>(a, b, c, d, &[alpha; 16]);
        composite_sixteen::<O, P, D, 5>(dst, one, two, three, four);
    }
}
