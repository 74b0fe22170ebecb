//! Conversions by blocks of pixels, and those of straight pixels of four channels to premultiplied
//! linear ones.
//!
//! A block is walked twice. First each color is looked up, one pixel after the other. Then the
//! products are made, four pixels at a time. A block is short enough to stay in the nearest cache
//! meanwhile.
ghost use Rattle.std.specs.Prelude.{◌≡◌, ◌≤◌, ◌+◌, ℕ, List, length, map, take, true};
ghost use Rattle.pix_chan.specs.Modes.{to_linear};
ghost use Rattle.pix_chan.specs.Runs.{over};
ghost use Rattle.pix_el.specs.Planes.{linear_four, premultiplied_four};
ghost use Rattle.pix_el.specs.Conversion.{at_depth, converted};

use crate::conversion::channelwise::convert_fours;
use crate::conversion::depth::{deepen_blocks, deepens};
use crate::conversion::gray::{convert_grays, makes_gray};
use crate::conversion::{at_depth, channel_at_depth};
use crate::el::Pixel;
use crate::model::ColorModel;
use crate::planes::is_interleaved;
use crate::planes::rgba_x4::premultiply_four;
use pix_chan::chan::{Alpha, Channel, Gamma, Linear, Premultiplied, Straight};
use std::marker::PhantomData;

/// How many pixels a block has.
const BLOCK: usize = 64;

/// Returns whether a format has four channels.
#[inline(always)]
pub(crate) fn has_four_channels<P: Pixel>() -> bool
    ensures { result ≡ true → P.layout.count ≡ 4 }
{
    P::default().channels().len() == 4
}

/// Returns whether a conversion from `P` to `D` stays in one color model of four channels without a
/// hue, and multiplies linear colors by the alpha.
#[inline(always)]
pub(crate) fn premultiplies<P: Pixel, D: Pixel>() -> bool
    ensures model { result ≡ true → P.Model.KIND ≡ D.Model.KIND }
    ensures straight { result ≡ true → P.Alpha.KIND ≡ 0 }
    ensures premultiplied { result ≡ true → D.Alpha.KIND ≡ 1 }
    ensures linear { result ≡ true → D.Gamma.KIND ≡ 0 }
    ensures alpha { result ≡ true → D.layout.alpha ≡ 3 }
    ensures no_hue { result ≡ true → D.layout.hues.end ≡ 0 }
    ensures count { result ≡ true → D.layout.count ≡ 4 }
{
    <P::Model as ColorModel>::KIND == <D::Model as ColorModel>::KIND
        && P::Alpha::KIND == Straight::KIND
        && D::Alpha::KIND == Premultiplied::KIND
        && <D::Gamma as Gamma<D::Chan>>::KIND == <Linear as Gamma<D::Chan>>::KIND
        && is_interleaved::<D>()
        && has_four_channels::<P>()
        && has_four_channels::<D>()
}

/// A way to make a straight color linear, in channels of another type.
pub(crate) trait Curve<C: Channel, D: Channel> {
    /// The linear number of a color's number.
    ghost curve: { ℕ → ℕ };

    /// Returns the linear channel of a color.
    fn linear(c: C) -> D
        ensures { D.number result ≡ curve (C.number c) };
}

/// The way of a conversion: to the other depth, and then by the gamma mode `G`.
struct ByGamma<G> {
    _gamma: PhantomData<G>,
}

impl<C: Channel, D: Channel, G: Gamma<D>> Curve<C, D> for ByGamma<G> {
    ghost curve = { λ x. to_linear G.mode (at_depth C.max D.max x) };

    #[inline(always)]
    fn linear(c: C) -> D {
        G::to_linear(at_depth::<C, D>(c))
    }
}

/// Returns a pixel at the depth of `D`, with linear colors and the same alpha mode.
#[inline(always)]
fn linear_pixel<K, P, D>(p: &P) -> D
where
    P: Pixel,
    D: Pixel,
    K: Curve<P::Chan, D::Chan>,
    requires { D.layout.count ≡ 4 }
    ensures { D.numbers result ≡ linear_four P.Chan.max D.Chan.max K.curve (P.numbers p.now) }
{
    let (one, two, three) = (
        K::linear(p.get(0)),
        K::linear(p.get(1)),
        K::linear(p.get(2)),
    );
    D::from_four(one, two, three, channel_at_depth::<P, D::Chan>(p, 3))
}

/// Writes each pixel of `src`, with linear colors, to the same index of `dst`. Condition: there are
/// as many of both.
#[inline(always)]
fn linear_pixels<K, P, D>(dst: &mut [D], src: &[P])
where
    P: Pixel,
    D: Pixel,
    K: Curve<P::Chan, D::Chan>,
    requires count { D.layout.count ≡ 4 }
    requires as_many { length dst.old ≡ length src.now }
    ensures size { length dst.new ≡ length dst.old }
    ensures pixels { map D.numbers dst.new ≡
        map (linear_four P.Chan.max D.Chan.max K.curve) (map P.numbers src.now) }
{
    for i in 0..dst.len() {
        dst[i] = linear_pixel::<K, P, D>(&src[i]);
    }
}

/// Premultiplies the straight pixels of a block.
#[inline(always)]
fn premultiply_block<P: Pixel>(p: &mut [P])
    requires count { P.layout.count ≡ 4 }
    requires size { length p.old ≡ 64 }
    ensures { map P.numbers p.new ≡
        map (premultiplied_four P.Chan.max) (map P.numbers p.old) }
{
    for k in 0..BLOCK / 4 {
        premultiply_four(&mut p[4 * k..4 * k + 4]);
    }
}

/// Makes as many of the first `count` pixels linear and premultiplied as go in blocks. Returns the
/// number of those pixels.
///
/// Condition: both slices have `count` pixels.
#[inline(always)]
pub(crate) fn premultiply_blocks<K, P, D>(dst: &mut [D], src: &[P], count: usize) -> usize
where
    P: Pixel,
    D: Pixel,
    K: Curve<P::Chan, D::Chan>,
    requires four { D.layout.count ≡ 4 }
    requires dst_has { count ≤ length dst.old }
    requires src_has { count ≤ length src.now }
    ensures some { result ≤ count }
    ensures pixels { map D.numbers dst.new ≡ over (λ p d. premultiplied_four D.Chan.max
        (linear_four P.Chan.max D.Chan.max K.curve p))
        (take result (map P.numbers src.now)) (map D.numbers dst.old) }
{
    for k in 0..count / BLOCK {
        let block = &mut dst[BLOCK * k..BLOCK * k + BLOCK];
        linear_pixels::<K, P, D>(block, &src[BLOCK * k..BLOCK * k + BLOCK]);
        premultiply_block(block);
    }
    count / BLOCK * BLOCK
}

/// Converts as many of the first `count` pixels as go in blocks, and returns their number.
///
/// Condition: both slices have `count` pixels, and that format has no more channels than its model.
#[inline(always)]
pub(crate) fn convert_blocks<P, D>(dst: &mut [D], src: &[P], count: usize) -> usize
where
    P: Pixel,
    D: Pixel,
    D::Chan: From<P::Chan>,
    P::Gamma: Gamma<D::Chan>,
    requires few { D.layout.count ≤ D.layout.alpha + 1 }
    requires dst_has { count ≤ length dst.old }
    requires src_has { count ≤ length src.now }
    ensures some { result ≤ count }
    ensures pixels { map D.numbers dst.new ≡ over (λ p d. converted P.format
        ⟦<P::Gamma as Gamma<D::Chan>>⟧.mode D.format D.Gamma.mode p)
        (take result (map P.numbers src.now)) (map D.numbers dst.old) }
{
    if deepens::<P, D>() {
        let start = deepen_blocks::<P, D>(dst, src, count);
        let (rest, pixels) = (&mut dst[start..], &src[start..]);
        return start + convert_fours::<P, D>(rest, pixels, count - start);
    }
    if makes_gray::<P, D>() {
        return convert_grays::<P, D>(dst, src, count);
    }
    if !premultiplies::<P, D>() {
        return convert_fours::<P, D>(dst, src, count);
    }
    premultiply_blocks::<ByGamma<P::Gamma>, P, D>(dst, src, count)
}
