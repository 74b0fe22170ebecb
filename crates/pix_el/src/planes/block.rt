//! Blocks of pixels. Each way composites a fixed number of pixels at a time, and one loop serves
//! all ways.
ghost use Rattle.std.specs.Prelude.{◌≡◌, ◌≤◌, ◌+◌, ℕ, length, map, take, replicate};
ghost use Rattle.std.specs.List.{zip};
ghost use Rattle.pix_chan.specs.Runs.{over};
ghost use Rattle.pix_el.specs.Planes.{coverage_of};
ghost use Rattle.pix_el.specs.PixelComposite.{pixel_composite, matted_composite};

use crate::el::Pixel;
use crate::filled::clear_row;
use crate::planes::unchanged::{
    are_clear, empties_under_clear, keeps_all, keeps_under_clear, saves_products,
};
use crate::stored::{Coverage, Stored, establish_channels};
use pix_ops::ops::Blend;

/// A way to composite the pixels of a format by blocks of one size.
pub(crate) trait Block<P: Pixel> {
    /// The format is one for this way.
    ghost suits: { Type 0 };

    /// The value of [`SIZE`](Block::SIZE).
    ghost SIZE: { ℕ };

    /// How many pixels a block has.
    const SIZE: usize;

    /// One less than [`SIZE`](Block::SIZE).
    ghost more: { ℕ };

    /// A block has a pixel.
    ghost some: { SIZE ≡ more + 1 };

    /// Composites the pixels of a block with those of another.
    fn composite<O: Blend, D: Stored<P>, S: Stored<P>>(dst: &mut [D], src: &[S])
        requires suits { suits }
        requires size { length dst.old ≡ SIZE }
        requires src_size { length src.now ≡ SIZE }
        ensures { map D.reads dst.new ≡ over (pixel_composite P.layout O.op)
            (map S.reads src.now) (map D.reads dst.old) };

    /// Composites `clr` with each pixel of a block.
    fn color<O: Blend, D: Stored<P>>(dst: &mut [D], clr: &P)
        requires suits { suits }
        requires size { length dst.old ≡ SIZE }
        ensures { map D.reads dst.new ≡ over (pixel_composite P.layout O.op)
            (replicate SIZE (P.numbers clr.now)) (map D.reads dst.old) };

    /// Composites `clr` with each pixel of a block through the matte of the same index.
    fn matted<O: Blend, D: Stored<P>, M: Coverage<P::Chan>>(dst: &mut [D], src: &[M], clr: &P)
        requires suits { suits }
        requires size { length dst.old ≡ SIZE }
        requires src_size { length src.now ≡ SIZE }
        ensures { map D.reads dst.new ≡
            over (λ m. matted_composite P.layout O.op m (P.numbers clr.now))
            (map (coverage_of P.Chan.max M.numbers) src.now) (map D.reads dst.old) };

    /// Composites the pixels of a block with those of another, each through the matte of the same
    /// index.
    fn masked<O: Blend, D: Stored<P>, S: Stored<P>, M: Coverage<P::Chan>>(
        dst: &mut [D],
        src: &[S],
        mattes: &[M],
    )
        requires suits { suits }
        requires size { length dst.old ≡ SIZE }
        requires src_size { length src.now ≡ SIZE }
        requires mattes_size { length mattes.now ≡ SIZE }
        ensures { map D.reads dst.new ≡
            over (λ t. matted_composite P.layout O.op t.0 t.1)
            (zip (map (coverage_of P.Chan.max M.numbers) mattes.now) (map S.reads src.now))
            (map D.reads dst.old) };

    /// Composites the pixels of a block with those of another, each through the same matte value.
    fn faded<O: Blend, D: Stored<P>, S: Stored<P>>(dst: &mut [D], src: &[S], alpha: P::Chan)
        requires suits { suits }
        requires size { length dst.old ≡ SIZE }
        requires src_size { length src.now ≡ SIZE }
        ensures { map D.reads dst.new ≡
            over (matted_composite P.layout O.op (P.Chan.number alpha))
            (map S.reads src.now) (map D.reads dst.old) };
}

/// Composites as many of the first `count` pixels as go in whole blocks, and returns their number.
///
/// Condition: both slices have `count` pixels.
#[inline(always)]
pub(crate) fn composite_blocks<O: Blend, P: Pixel, D: Stored<P>, S: Stored<P>, B: Block<P>>(
    dst: &mut [D],
    src: &[S],
    count: usize,
) -> usize
    requires suits { B.suits }
    requires dst_has { count ≤ length dst.old }
    requires src_has { count ≤ length src.now }
    ensures some { result ≤ count }
    ensures composite { map D.reads dst.new ≡ over (pixel_composite P.layout O.op)
        (take result (map S.reads src.now)) (map D.reads dst.old) }
{
    let size = B::SIZE;
    for i in 0..count / size {
        let at = size * i;
        B::composite::<O, D, S>(&mut dst[at..at + size], &src[at..at + size]);
    }
    count / size * size
}

/// Composites `clr` with as many of the first pixels as go in whole blocks, and returns their
/// number.
#[inline(always)]
pub(crate) fn color_blocks<O: Blend, P: Pixel, D: Stored<P>, B: Block<P>>(
    dst: &mut [D],
    clr: &P,
) -> usize
    requires suits { B.suits }
    ensures some { result ≤ length dst.old }
    ensures composite { map D.reads dst.new ≡ over (pixel_composite P.layout O.op)
        (take result (replicate (length dst.old) (P.numbers clr.now))) (map D.reads dst.old) }
{
    let color = *clr;
    let size = B::SIZE;
    let count = dst.len();
    for i in 0..count / size {
        let at = size * i;
        B::color::<O, D>(&mut dst[at..at + size], &color);
    }
    count / size * size
}

/// Composites `clr` through mattes with as many of the first `count` pixels as go in whole blocks,
/// and returns their number. A block is skipped where the operator keeps any pixel. Where all its
/// mattes are 0, it is skipped if the operator keeps pixels under a transparent source. Of four
/// channels it is then made clear if the operator empties them.
///
/// Condition: the format has an alpha channel, and both slices have `count` elements.
#[inline(always)]
pub(super) fn matted_blocks<O: Blend, P: Pixel, D: Stored<P>, M: Coverage<P::Chan>, B: Block<P>>(
    dst: &mut [D],
    src: &[M],
    clr: &P,
    count: usize,
) -> usize
    requires has_alpha { P.layout.count ≡ P.layout.alpha + 1 }
    requires suits { B.suits }
    requires dst_has { count ≤ length dst.old }
    requires src_has { count ≤ length src.now }
    ensures some { result ≤ count }
    ensures composite { map D.reads dst.new ≡
        over (λ m. matted_composite P.layout O.op m (P.numbers clr.now))
        (take result (map (coverage_of P.Chan.max M.numbers) src.now)) (map D.reads dst.old) }
{
    let color = *clr;
    let size = B::SIZE;
    for i in 0..count / size {
        let at = size * i;
        let (block, mattes) = (&mut dst[at..at + size], &src[at..at + size]);
        if keeps_all::<O, P::Chan>() {
            establish_channels::<P, D>(block);
        } else if keeps_under_clear::<O, P::Chan>() && are_clear::<P::Chan, M>(mattes) {
            establish_channels::<P, D>(block);
        } else if saves_products::<P>()
            && empties_under_clear::<O, P>()
            && are_clear::<P::Chan, M>(mattes)
        {
            clear_row::<P, D>(block);
        } else {
            B::matted::<O, D, M>(block, mattes, &color);
        }
    }
    count / size * size
}

/// Composites as many of the first `count` pixels as go in whole blocks, each through the matte of
/// the same index, and returns their number.
///
/// Condition: all three slices have `count` elements.
#[inline(always)]
pub(super) fn masked_blocks<
    O: Blend,
    P: Pixel,
    D: Stored<P>,
    S: Stored<P>,
    M: Coverage<P::Chan>,
    B: Block<P>,
>(dst: &mut [D], src: &[S], mattes: &[M], count: usize) -> usize
    requires suits { B.suits }
    requires dst_has { count ≤ length dst.old }
    requires src_has { count ≤ length src.now }
    requires mattes_have { count ≤ length mattes.now }
    ensures some { result ≤ count }
    ensures composite { map D.reads dst.new ≡ over (λ t. matted_composite P.layout O.op t.0 t.1)
        (take result
        (zip (map (coverage_of P.Chan.max M.numbers) mattes.now) (map S.reads src.now)))
        (map D.reads dst.old) }
{
    let size = B::SIZE;
    for i in 0..count / size {
        let at = size * i;
        let end = at + size;
        B::masked::<O, D, S, M>(&mut dst[at..end], &src[at..end], &mattes[at..end]);
    }
    count / size * size
}

/// Composites as many of the first `count` pixels as go in whole blocks, each through the same
/// matte value, and returns their number.
///
/// Condition: both slices have `count` pixels.
#[inline(always)]
pub(super) fn faded_blocks<O: Blend, P: Pixel, D: Stored<P>, S: Stored<P>, B: Block<P>>(
    dst: &mut [D],
    src: &[S],
    alpha: P::Chan,
    count: usize,
) -> usize
    requires suits { B.suits }
    requires dst_has { count ≤ length dst.old }
    requires src_has { count ≤ length src.now }
    ensures some { result ≤ count }
    ensures composite { map D.reads dst.new ≡
        over (matted_composite P.layout O.op (P.Chan.number alpha))
        (take result (map S.reads src.now)) (map D.reads dst.old) }
{
    let size = B::SIZE;
    for i in 0..count / size {
        let at = size * i;
        B::faded::<O, D, S>(&mut dst[at..at + size], &src[at..at + size], alpha);
    }
    count / size * size
}
