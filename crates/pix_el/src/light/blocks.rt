//! Pixels of four channels between sRGB and light by blocks.
//!
//! Linear pixels go four at a time. Their colors are converted to the other alpha mode, and then
//! one call encodes their sixteen channels.
ghost use Rattle.std.specs.Prelude.{◌≡◌, ◌≤◌, ◌+◌, [], ◌∷◌, length, map, take, true};
ghost use Rattle.pix_chan.specs.Runs.{over};
ghost use Rattle.pix_chan.specs.Planes.{with_alphas};
ghost use Rattle.pix_chan.specs.Srgb16.{srgb_decoded16, srgb_encoded8};
ghost use Rattle.pix_el.specs.Pixel.{channel};
ghost use Rattle.pix_el.specs.Conversion.{at_depth};
ghost use Rattle.pix_el.specs.Light.{in_light, as_srgb};
ghost use Rattle.pix_el.specs.LightBlocks.{IsSameInBothModes, AreSameInBothModes, AreLevels, changed_four};
ghost use Rattle.pix_el.specs.Planes.{by_fours};

use crate::conversion::blocks::{Curve, has_four_channels, premultiplies, premultiply_blocks};
use crate::conversion::{at_depth, channel_at_depth};
use crate::el::Pixel;
use crate::light::{Transfer, mode_changed};
use crate::model::ColorModel;
use crate::planes::rgba_x4::{four_pixels, put_four_pixels};
use pix_chan::chan::{Alpha, Ch8, Ch16, Channel, Linear, Premultiplied, Straight};
use std::marker::PhantomData;
use std::simd::prelude::*;

/// Returns the numbers of sixteen channels.
#[inline(always)]
fn units(c: [Ch16; 16]) -> u16x16
    ensures { result ≡ map (λ x. x.value) c }
{
    u16x16::from_array([
        u16::from(c[0]),
        u16::from(c[1]),
        u16::from(c[2]),
        u16::from(c[3]),
        u16::from(c[4]),
        u16::from(c[5]),
        u16::from(c[6]),
        u16::from(c[7]),
        u16::from(c[8]),
        u16::from(c[9]),
        u16::from(c[10]),
        u16::from(c[11]),
        u16::from(c[12]),
        u16::from(c[13]),
        u16::from(c[14]),
        u16::from(c[15]),
    ])
}

/// Returns the channels of sixteen levels.
#[inline(always)]
fn levels(lanes: u8x16) -> [Ch8; 16]
    ensures { map (λ x. x.value) result ≡ lanes }
{
    let c = lanes.to_array();
    [
        Ch8::new(c[0]),
        Ch8::new(c[1]),
        Ch8::new(c[2]),
        Ch8::new(c[3]),
        Ch8::new(c[4]),
        Ch8::new(c[5]),
        Ch8::new(c[6]),
        Ch8::new(c[7]),
        Ch8::new(c[8]),
        Ch8::new(c[9]),
        Ch8::new(c[10]),
        Ch8::new(c[11]),
        Ch8::new(c[12]),
        Ch8::new(c[13]),
        Ch8::new(c[14]),
        Ch8::new(c[15]),
    ]
}

/// Returns the levels of sixteen linear channels.
#[inline(always)]
fn encoded(lanes: u16x16) -> u8x16
    ensures { result ≡ map srgb_encoded8 lanes }
{
    Ch16::encode_srgb8_lanes(lanes).cast::<u8>()
}

/// Returns sixteen linear channels as the sRGB curve encodes them.
#[inline(always)]
pub(super) fn srgb_levels(c: [Ch16; 16]) -> [Ch8; 16]
    ensures { map (λ x. x.value) result ≡ map srgb_encoded8 (map (λ x. x.value) c) }
{
    levels(encoded(units(c)))
}

/// Returns whether a format has three colors and then an alpha.
#[inline(always)]
fn has_three_colors<P: Pixel>() -> bool
    ensures count { result ≡ true → P.layout.count ≡ 4 }
    ensures start { result ≡ true → P.Model.LINEAR.start ≡ 0 }
    ensures end { result ≡ true → P.Model.LINEAR.end ≡ 3 }
    ensures alpha { result ≡ true → P.Model.ALPHA ≡ 3 }
{
    let colors = <P::Model as ColorModel>::LINEAR;
    colors.start == 0
        && colors.end == 3
        && <P::Model as ColorModel>::ALPHA == 3
        && P::default().channels().len() == 4
}

/// Returns whether the colors of a pixel are the same in the alpha mode of `D`.
#[inline(always)]
fn is_kept<P: Pixel, D: Pixel>(p: &P) -> bool
    ensures { result ≡ true → IsSameInBothModes P.Chan.max P.Alpha.mode D.Alpha.mode
        (channel P.Chan.max (P.numbers p.now) P.Model.ALPHA) }
{
    P::Alpha::KIND == D::Alpha::KIND || p.alpha().to_u32() == P::Chan::MAX.to_u32()
}

/// Returns whether the colors of four pixels are the same in the alpha mode of `D`.
#[inline(always)]
fn are_kept<P: Pixel, D: Pixel>(p: &[P]) -> bool
    requires { length p.now ≡ 4 }
    ensures { result ≡ true → AreSameInBothModes P.Chan.max P.Alpha.mode D.Alpha.mode
        P.Model.ALPHA (map P.numbers p.now) }
{
    is_kept::<P, D>(&p[0])
        && is_kept::<P, D>(&p[1])
        && is_kept::<P, D>(&p[2])
        && is_kept::<P, D>(&p[3])
}

/// Returns a linear pixel as sRGB, by the levels of its colors in the alpha mode of `D`.
///
/// Condition: `D` has no more channels than its model.
#[inline(always)]
fn shown<P, D>(p: &P, one: D::Chan, two: D::Chan, three: D::Chan) -> D
where
    P: Pixel,
    D: Pixel<Model = P::Model>,
    requires few { D.layout.count ≤ D.layout.alpha + 1 }
    requires start { P.Model.LINEAR.start ≡ 0 }
    requires end { P.Model.LINEAR.end ≡ 3 }
    requires alpha { P.Model.ALPHA ≡ 3 }
    requires levels { AreLevels P.Chan.max
        (changed_four P.Chan.max P.Alpha.mode D.Alpha.mode (P.numbers p.now))
        (D.Chan.number one) (D.Chan.number two) (D.Chan.number three) }
    ensures { D.numbers result ≡ as_srgb P.format D.format (P.numbers p.now) }
{
    D::from_four(one, two, three, channel_at_depth::<P, D::Chan>(p, 3))
}

/// Writes four linear pixels as sRGB, by the levels of their channels in the alpha mode of `D`.
///
/// Condition: `D` has no more channels than its model.
#[inline(always)]
fn put_shown<P, D>(dst: &mut [D], src: &[P], c: [D::Chan; 16])
where
    P: Pixel,
    D: Pixel<Model = P::Model>,
    requires few { D.layout.count ≤ D.layout.alpha + 1 }
    requires start { P.Model.LINEAR.start ≡ 0 }
    requires end { P.Model.LINEAR.end ≡ 3 }
    requires alpha { P.Model.ALPHA ≡ 3 }
    requires size { length dst.old ≡ 4 }
    requires src_size { length src.now ≡ 4 }
    requires levels { by_fours (map D.Chan.number c) ≡ map (map srgb_encoded8)
        (map (λ p. changed_four P.Chan.max P.Alpha.mode D.Alpha.mode (P.numbers p)) src.now) }
    ensures { map D.numbers dst.new ≡
        map (as_srgb P.format D.format) (map P.numbers src.now) }
{
    dst[0] = shown::<P, D>(&src[0], c[0], c[1], c[2]);
    dst[1] = shown::<P, D>(&src[1], c[4], c[5], c[6]);
    dst[2] = shown::<P, D>(&src[2], c[8], c[9], c[10]);
    dst[3] = shown::<P, D>(&src[3], c[12], c[13], c[14]);
}

/// Returns the channels of a linear pixel, with its colors in the alpha mode of `D`.
#[inline(always)]
fn changed<P: Pixel, D: Pixel>(p: &P) -> (P::Chan, P::Chan, P::Chan, P::Chan)
    ensures { P.Chan.number result.0 ∷ P.Chan.number result.1
        ∷ P.Chan.number result.2 ∷ P.Chan.number result.3 ∷ []
        ≡ changed_four P.Chan.max P.Alpha.mode D.Alpha.mode (P.numbers p.now) }
{
    let alpha = p.get(3);
    let one = mode_changed::<P::Chan, P::Alpha, D::Alpha>(p.get(0), alpha);
    let two = mode_changed::<P::Chan, P::Alpha, D::Alpha>(p.get(1), alpha);
    let three = mode_changed::<P::Chan, P::Alpha, D::Alpha>(p.get(2), alpha);
    (one, two, three, alpha)
}

/// Returns the channels of four linear pixels, with their colors in the alpha mode of `D`.
#[inline(always)]
fn four_changed<P: Pixel, D: Pixel>(p: &[P]) -> [P::Chan; 16]
    requires { length p.now ≡ 4 }
    ensures { by_fours (map P.Chan.number result) ≡
        map (λ p. changed_four P.Chan.max P.Alpha.mode D.Alpha.mode (P.numbers p)) p.now }
{
    let (a, b, c, d) = changed::<P, D>(&p[0]);
    let (e, f, g, h) = changed::<P, D>(&p[1]);
    let (i, j, k, l) = changed::<P, D>(&p[2]);
    let (m, n, o, q) = changed::<P, D>(&p[3]);
    [a, b, c, d, e, f, g, h, i, j, k, l, m, n, o, q]
}

/// Returns the channels of four linear pixels, with their colors in the alpha mode of `D`. Colors
/// that are the same in both alpha modes are only copied.
///
/// Condition: there are three colors and then an alpha.
#[inline(always)]
fn four_in_mode<P: Pixel, D: Pixel>(p: &[P]) -> [P::Chan; 16]
    requires count { P.layout.count ≡ 4 }
    requires alpha { P.Model.ALPHA ≡ 3 }
    requires size { length p.now ≡ 4 }
    ensures { by_fours (map P.Chan.number result) ≡
        map (λ p. changed_four P.Chan.max P.Alpha.mode D.Alpha.mode (P.numbers p)) p.now }
{
    if are_kept::<P, D>(p) {
        four_pixels::<P, P>(p)
    } else {
        four_changed::<P, D>(p)
    }
}

/// Returns the levels of the channels of four linear pixels, with their colors in the alpha mode of
/// `D`.
///
/// Condition: there are three colors and then an alpha.
#[inline(always)]
fn four_levels<P, D>(src: &[P]) -> [D::Chan; 16]
where
    P: Pixel,
    D: Pixel,
    D::Gamma: Transfer<D::Chan, P::Chan>,
    requires count { P.layout.count ≡ 4 }
    requires alpha { P.Model.ALPHA ≡ 3 }
    requires size { length src.now ≡ 4 }
    ensures { by_fours (map D.Chan.number result) ≡ map (map srgb_encoded8)
        (map (λ p. changed_four P.Chan.max P.Alpha.mode D.Alpha.mode (P.numbers p)) src.now) }
{
    <D::Gamma as Transfer<D::Chan, P::Chan>>::from_light16(four_in_mode::<P, D>(src))
}

/// Returns the first channels with the alphas of the second ones, at another depth. Both are of
/// four pixels of four channels, pixel by pixel.
#[inline(always)]
fn put_alphas<C: Channel, D: Channel>(colors: [D; 16], c: [C; 16]) -> [D; 16]
    ensures { map D.number result ≡
        with_alphas (map D.number colors) (map (at_depth C.max D.max) (map C.number c)) }
{
    let mut to = colors;
    to[3] = at_depth::<C, D>(c[3]);
    to[7] = at_depth::<C, D>(c[7]);
    to[11] = at_depth::<C, D>(c[11]);
    to[15] = at_depth::<C, D>(c[15]);
    to
}

/// Writes four sRGB pixels of the linear colors of `x` and the alphas of `c`. Both are of four
/// pixels of four channels, pixel by pixel.
#[inline(always)]
fn put_encoded<C, D>(dst: &mut [D], x: [C; 16], c: [C; 16])
where
    C: Channel,
    D: Pixel,
    D::Gamma: Transfer<D::Chan, C>,
    requires count { D.layout.count ≡ 4 }
    requires size { length dst.old ≡ 4 }
    ensures { map D.numbers dst.new ≡ by_fours (with_alphas
        (map srgb_encoded8 (map C.number x)) (map (at_depth C.max D.Chan.max) (map C.number c))) }
{
    let levels = <D::Gamma as Transfer<D::Chan, C>>::from_light16(x);
    put_four_pixels(dst, put_alphas::<C, D::Chan>(levels, c));
}

/// Encodes four linear pixels whose alpha mode stays.
///
/// Condition: there are three colors and then an alpha.
#[inline(always)]
fn encode_kept<P, D>(dst: &mut [D], src: &[P])
where
    P: Pixel,
    D: Pixel<Model = P::Model>,
    D::Gamma: Transfer<D::Chan, P::Chan>,
    requires count { P.layout.count ≡ 4 }
    requires to_count { D.layout.count ≡ 4 }
    requires start { P.Model.LINEAR.start ≡ 0 }
    requires end { P.Model.LINEAR.end ≡ 3 }
    requires alpha { P.Model.ALPHA ≡ 3 }
    requires size { length dst.old ≡ 4 }
    requires src_size { length src.now ≡ 4 }
    requires kinds { P.Alpha.KIND ≡ D.Alpha.KIND }
    ensures { map D.numbers dst.new ≡
        map (as_srgb P.format D.format) (map P.numbers src.now) }
{
    let c = four_pixels(src);
    put_encoded::<P::Chan, D>(dst, c, c);
}

/// Encodes four premultiplied linear pixels as straight ones.
///
/// Condition: there are three colors and then an alpha.
#[inline(always)]
fn encode_unmultiplied<P, D>(dst: &mut [D], src: &[P])
where
    P: Pixel,
    D: Pixel<Model = P::Model>,
    D::Gamma: Transfer<D::Chan, P::Chan>,
    requires count { P.layout.count ≡ 4 }
    requires to_count { D.layout.count ≡ 4 }
    requires start { P.Model.LINEAR.start ≡ 0 }
    requires end { P.Model.LINEAR.end ≡ 3 }
    requires alpha { P.Model.ALPHA ≡ 3 }
    requires size { length dst.old ≡ 4 }
    requires src_size { length src.now ≡ 4 }
    requires premultiplied { P.Alpha.KIND ≡ 1 }
    requires straight { D.Alpha.KIND ≡ 0 }
    ensures { map D.numbers dst.new ≡
        map (as_srgb P.format D.format) (map P.numbers src.now) }
{
    let c = four_pixels(src);
    put_encoded::<P::Chan, D>(dst, P::Chan::unmultiplied4(c), c);
}

/// Returns whether premultiplied pixels become straight ones of four channels.
#[inline(always)]
fn unmultiplies<P: Pixel, D: Pixel>() -> bool
    ensures premultiplied { result ≡ true → P.Alpha.KIND ≡ 1 }
    ensures straight { result ≡ true → D.Alpha.KIND ≡ 0 }
    ensures count { result ≡ true → D.layout.count ≡ 4 }
{
    P::Alpha::KIND == Premultiplied::KIND
        && D::Alpha::KIND == Straight::KIND
        && has_four_channels::<D>()
}

/// Encodes four linear pixels.
///
/// Condition: there are three colors and then an alpha, and `D` has no more channels than its
/// model.
#[inline(always)]
fn encode_four<P, D>(dst: &mut [D], src: &[P])
where
    P: Pixel<Gamma = Linear>,
    D: Pixel<Model = P::Model>,
    D::Gamma: Transfer<D::Chan, P::Chan>,
    requires few { D.layout.count ≤ D.layout.alpha + 1 }
    requires count { P.layout.count ≡ 4 }
    requires start { P.Model.LINEAR.start ≡ 0 }
    requires end { P.Model.LINEAR.end ≡ 3 }
    requires alpha { P.Model.ALPHA ≡ 3 }
    requires size { length dst.old ≡ 4 }
    requires src_size { length src.now ≡ 4 }
    ensures { map D.numbers dst.new ≡
        map (as_srgb P.format D.format) (map P.numbers src.now) }
{
    if P::Alpha::KIND == D::Alpha::KIND && has_four_channels::<D>() {
        encode_kept::<P, D>(dst, src);
    } else if unmultiplies::<P, D>() {
        encode_unmultiplied::<P, D>(dst, src);
    } else {
        put_shown::<P, D>(dst, src, four_levels::<P, D>(src));
    }
}

/// Encodes as many of the first `count` pixels as go in fours, and returns their number.
///
/// Condition: both slices have `count` pixels, and that format has no more channels than its model.
#[inline(always)]
pub(super) fn encode_blocks<P, D>(dst: &mut [D], src: &[P], count: usize) -> usize
where
    P: Pixel<Gamma = Linear>,
    D: Pixel<Model = P::Model>,
    D::Gamma: Transfer<D::Chan, P::Chan>,
    requires few { D.layout.count ≤ D.layout.alpha + 1 }
    requires dst_has { count ≤ length dst.old }
    requires src_has { count ≤ length src.now }
    ensures some { result ≤ count }
    ensures pixels { map D.numbers dst.new ≡ over (λ p d. as_srgb P.format D.format p)
        (take result (map P.numbers src.now)) (map D.numbers dst.old) }
{
    if !has_three_colors::<P>() {
        return 0;
    }
    for k in 0..count / 4 {
        encode_four::<P, D>(&mut dst[4 * k..4 * k + 4], &src[4 * k..4 * k + 4]);
    }
    count / 4 * 4
}

/// The way of sRGB colors into light.
struct ByTransfer<G> {
    _gamma: PhantomData<G>,
}

impl<C: Channel, D: Channel, G: Transfer<C, D>> Curve<C, D> for ByTransfer<G> {
    ghost curve = { srgb_decoded16 };

    #[inline(always)]
    fn linear(c: C) -> D {
        G::to_light(c)
    }
}

/// Decodes as many of the first `count` pixels as go in blocks, and returns their number.
///
/// Condition: both slices have `count` pixels.
#[inline(always)]
pub(super) fn decode_blocks<P, D>(dst: &mut [D], src: &[P], count: usize) -> usize
where
    P: Pixel,
    D: Pixel<Model = P::Model, Gamma = Linear>,
    P::Gamma: Transfer<P::Chan, D::Chan>,
    requires dst_has { count ≤ length dst.old }
    requires src_has { count ≤ length src.now }
    ensures some { result ≤ count }
    ensures pixels { map D.numbers dst.new ≡ over (λ p d. in_light P.format D.format p)
        (take result (map P.numbers src.now)) (map D.numbers dst.old) }
{
    if !premultiplies::<P, D>() {
        return 0;
    }
    premultiply_blocks::<ByTransfer<P::Gamma>, P, D>(dst, src, count)
}
