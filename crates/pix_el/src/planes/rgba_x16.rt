//! Sixteen pixels of four channels without a hue: two blocks of eight, one after the other. What
//! the lanes need of constants is then read once for both. Each half has code of its own (`COPY` of
//! `composite_eight`), so that LLVM inlines both.
ghost use Rattle.std.specs.Prelude.{◌≡◌, refl};

use crate::el::Pixel;
use crate::planes::block::Block;
use crate::planes::matted::eight_values;
use crate::planes::rgba_x8::{composite_eight, eight_pixels, eight_times, masked_channels};
use crate::stored::{Coverage, Stored};
use pix_chan::chan::Channel;
use pix_ops::ops::Blend;

/// Pixels of four channels without a hue, sixteen at a time.
pub(crate) struct RgbaX16 {}

impl<P: Pixel> Block<P> for RgbaX16 {
    ghost suits = { (P.layout.count ≡ 4) × (P.layout.alpha ≡ 3) × (P.layout.hues.end ≡ 0) };

    ghost SIZE = { 16 };

    const SIZE: usize = 16;

    ghost more = { 15 };

    ghost some = { refl };

    #[inline(always)]
    fn composite<O: Blend, D: Stored<P>, S: Stored<P>>(dst: &mut [D], src: &[S]) {
        composite_eight::<O, P, D, 1, 0>(&mut dst[..8], eight_pixels::<P, S>(&src[..8]));
        composite_eight::<O, P, D, 2, 0>(&mut dst[8..16], eight_pixels::<P, S>(&src[8..16]));
    }

    #[inline(always)]
    #[tactic(auto, using(crate::proofs::MaskedBlocks::first_eight))]
    fn color<O: Blend, D: Stored<P>>(dst: &mut [D], clr: &P) {
        let first = eight_times(clr);
        composite_eight::<O, P, D, 1, 1>(&mut dst[..8], first);
        let second = eight_times(clr);
        composite_eight::<O, P, D, 2, 1>(&mut dst[8..16], second);
    }

    #[inline(always)]
    fn matted<O: Blend, D: Stored<P>, M: Coverage<P::Chan>>(dst: &mut [D], src: &[M], clr: &P) {
        let first = masked_channels::<P, 1, 2>(eight_times(clr), &eight_values(&src[..8]));
        composite_eight::<O, P, D, 1, 2>(&mut dst[..8], first);
        let second = masked_channels::<P, 2, 2>(eight_times(clr), &eight_values(&src[8..16]));
        composite_eight::<O, P, D, 2, 2>(&mut dst[8..16], second);
    }

    #[inline(always)]
    fn masked<O: Blend, D: Stored<P>, S: Stored<P>, M: Coverage<P::Chan>>(
        dst: &mut [D],
        src: &[S],
        mattes: &[M],
    ) {
        let pixels = eight_pixels::<P, S>(&src[..8]);
        let first = masked_channels::<P, 1, 4>(pixels, &eight_values(&mattes[..8]));
        composite_eight::<O, P, D, 1, 4>(&mut dst[..8], first);
        let others = eight_pixels::<P, S>(&src[8..16]);
        let second = masked_channels::<P, 2, 4>(others, &eight_values(&mattes[8..16]));
        composite_eight::<O, P, D, 2, 4>(&mut dst[8..16], second);
    }

    #[inline(always)]
    fn faded<O: Blend, D: Stored<P>, S: Stored<P>>(dst: &mut [D], src: &[S], alpha: P::Chan) {
        let mut first = eight_pixels::<P, S>(&src[..8]);
        P::Chan::mul_run(&mut first, &[alpha; 32]);
        composite_eight::<O, P, D, 1, 3>(&mut dst[..8], first);
        let mut second = eight_pixels::<P, S>(&src[8..16]);
        P::Chan::mul_run(&mut second, &[alpha; 32]);
        composite_eight::<O, P, D, 2, 3>(&mut dst[8..16], second);
    }
}
