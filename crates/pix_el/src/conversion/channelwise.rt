//! Conversions that make each channel by itself, or divide the colors by the alpha, four pixels at
//! a time.
//!
//! Four pixels are read before one is written, so LLVM makes lanes of their channels. Where there
//! are four channels they are not made into a pixel in between: LLVM would keep it in one number.
ghost use Rattle.std.specs.Prelude.{◌≡◌, ◌≤◌, ◌+◌, ℕ, List, [], ◌∷◌, length, map, take, true};
ghost use Rattle.pix_chan.specs.Runs.{over};
ghost use Rattle.pix_el.specs.Conversion.{converted, of_depth};
ghost use Rattle.pix_el.specs.Planes.{by_fours};
ghost use Rattle.pix_el.specs.Unmultiplied.{unmultiplied_four};

use crate::conversion::blocks::has_four_channels;
use crate::conversion::channel_at_depth;
use crate::el::Pixel;
use crate::model::ColorModel;
use crate::planes::is_interleaved;
use crate::planes::rgba_x4::put_four_pixels;
use pix_chan::chan::{Alpha, Channel, Gamma, Linear, Premultiplied, Straight};

/// How many pixels a block has.
const BLOCK: usize = 4;

/// Returns whether two formats have the same alpha mode and the same gamma mode.
#[inline(always)]
pub(super) fn keeps_modes<P, D>() -> bool
where
    P: Pixel,
    D: Pixel,
    P::Gamma: Gamma<D::Chan>,
    ensures alpha { result ≡ true → P.Alpha.KIND ≡ D.Alpha.KIND }
    ensures gamma { result ≡ true → ⟦<P::Gamma as Gamma<D::Chan>>⟧.KIND ≡ D.Gamma.KIND }
{
    P::Alpha::KIND == D::Alpha::KIND
        && <P::Gamma as Gamma<D::Chan>>::KIND == <D::Gamma as Gamma<D::Chan>>::KIND
}

/// Returns whether a conversion to four channels changes nothing but the depth.
#[inline(always)]
fn changes_depth<P, D>() -> bool
where
    P: Pixel,
    D: Pixel,
    P::Gamma: Gamma<D::Chan>,
    ensures model { result ≡ true → P.Model.KIND ≡ D.Model.KIND }
    ensures alpha { result ≡ true → P.Alpha.KIND ≡ D.Alpha.KIND }
    ensures gamma { result ≡ true → ⟦<P::Gamma as Gamma<D::Chan>>⟧.KIND ≡ D.Gamma.KIND }
    ensures count { result ≡ true → D.layout.count ≡ 4 }
{
    <P::Model as ColorModel>::KIND == <D::Model as ColorModel>::KIND
        && keeps_modes::<P, D>()
        && has_four_channels::<D>()
}

/// Returns whether the colors of a model are red, green and blue, or one minus each: `Rgb`, `Bgr`
/// and `Cmy`.
#[inline(always)]
pub(super) fn is_plain<M: ColorModel>() -> bool {
    M::KIND == 0 || M::KIND == 6 || M::KIND == 7
}

/// Returns whether a conversion makes each of three channels by itself.
#[inline(always)]
fn makes_three<P, D>() -> bool
where
    P: Pixel,
    D: Pixel,
    P::Gamma: Gamma<D::Chan>,
{
    if <P::Model as ColorModel>::KIND != <D::Model as ColorModel>::KIND
        && !(is_plain::<P::Model>() && is_plain::<D::Model>())
    {
        return false;
    }
    keeps_modes::<P, D>()
        && P::default().channels().len() == 3
        && D::default().channels().len() == 3
}

/// Returns whether a conversion divides linear colors of 16 bits by the alpha, and changes nothing
/// else but the depth. The pixels have three colors and then an alpha.
#[inline(always)]
fn divides_alone<P, D>() -> bool
where
    P: Pixel,
    D: Pixel,
    P::Gamma: Gamma<D::Chan>,
    ensures model { result ≡ true → P.Model.KIND ≡ D.Model.KIND }
    ensures premultiplied { result ≡ true → P.Alpha.KIND ≡ 1 }
    ensures straight { result ≡ true → D.Alpha.KIND ≡ 0 }
    ensures from_linear { result ≡ true → ⟦<P::Gamma as Gamma<D::Chan>>⟧.KIND ≡ 0 }
    ensures linear { result ≡ true → D.Gamma.KIND ≡ 0 }
    ensures alpha { result ≡ true → D.layout.alpha ≡ 3 }
    ensures no_hue { result ≡ true → D.layout.hues.end ≡ 0 }
    ensures count { result ≡ true → D.layout.count ≡ 4 }
{
    <P::Model as ColorModel>::KIND == <D::Model as ColorModel>::KIND
        && P::Alpha::KIND == Premultiplied::KIND
        && D::Alpha::KIND == Straight::KIND
        && <P::Gamma as Gamma<D::Chan>>::KIND == <Linear as Gamma<D::Chan>>::KIND
        && <D::Gamma as Gamma<D::Chan>>::KIND == <Linear as Gamma<D::Chan>>::KIND
        && is_interleaved::<D>()
        && has_four_channels::<D>()
        && D::Chan::MAX.to_u32() > 255
}

/// Returns whether a conversion divides linear colors of 16 bits by the alpha, and changes nothing
/// else but the depth. The contract states the pixel that it makes then.
#[inline(always)]
fn unmultiplies<P, D>() -> bool
where
    P: Pixel,
    D: Pixel,
    P::Gamma: Gamma<D::Chan>,
    ensures count { result ≡ true → D.layout.count ≡ 4 }
    ensures steps { result ≡ true → (p : List ℕ) → converted P.format
        ⟦<P::Gamma as Gamma<D::Chan>>⟧.mode D.format D.Gamma.mode p
        ≡ unmultiplied_four D.Chan.max (of_depth P.layout D.layout p) }
{
    divides_alone::<P, D>()
}

/// Returns whether a conversion makes each channel by itself, or divides the colors by the alpha.
#[inline(always)]
fn goes_by_fours<P, D>() -> bool
where
    P: Pixel,
    D: Pixel,
    P::Gamma: Gamma<D::Chan>,
{
    changes_depth::<P, D>() || unmultiplies::<P, D>() || makes_three::<P, D>()
}

/// Returns the first four channels of a pixel at the depth of `D`, `MAX` where one is absent.
#[inline(always)]
fn channels_at_depth<P: Pixel, D: Pixel>(p: &P) -> (D::Chan, D::Chan, D::Chan, D::Chan)
    requires { D.layout.count ≡ 4 }
    ensures { D.Chan.number result.0 ∷ D.Chan.number result.1
        ∷ D.Chan.number result.2 ∷ D.Chan.number result.3 ∷ []
        ≡ of_depth P.layout D.layout (P.numbers p.now) }
{
    let one = channel_at_depth::<P, D::Chan>(p, 0);
    let two = channel_at_depth::<P, D::Chan>(p, 1);
    let three = channel_at_depth::<P, D::Chan>(p, 2);
    let four = channel_at_depth::<P, D::Chan>(p, 3);
    (one, two, three, four)
}

/// Returns the first four channels of four pixels at the depth of `D`.
#[inline(always)]
fn four_at_depth<P: Pixel, D: Pixel>(p: &[P]) -> [D::Chan; 16]
    requires count { D.layout.count ≡ 4 }
    requires size { length p.now ≡ 4 }
    ensures { by_fours (map D.Chan.number result) ≡
        map (of_depth P.layout D.layout) (map P.numbers p.now) }
{
    let (a, b, c, d) = channels_at_depth::<P, D>(&p[0]);
    let (e, f, g, h) = channels_at_depth::<P, D>(&p[1]);
    let (i, j, k, l) = channels_at_depth::<P, D>(&p[2]);
    let (m, n, o, q) = channels_at_depth::<P, D>(&p[3]);
    [a, b, c, d, e, f, g, h, i, j, k, l, m, n, o, q]
}

/// Converts four pixels to a format of four channels that has another depth alone.
#[inline(always)]
fn deepen_four<P: Pixel, D: Pixel>(dst: &mut [D], src: &[P])
    requires count { D.layout.count ≡ 4 }
    requires dst_size { length dst.old ≡ 4 }
    requires src_size { length src.now ≡ 4 }
    ensures { map D.numbers dst.new ≡
        map (of_depth P.layout D.layout) (map P.numbers src.now) }
{
    put_four_pixels::<D, D>(dst, four_at_depth::<P, D>(src));
}

/// Returns four pixels in another format.
///
/// Condition: that format has no more channels than its model.
#[inline(always)]
fn four_converted<P, D>(p: &[P]) -> (D, D, D, D)
where
    P: Pixel,
    D: Pixel,
    D::Chan: From<P::Chan>,
    P::Gamma: Gamma<D::Chan>,
    requires few { D.layout.count ≤ D.layout.alpha + 1 }
    requires size { length p.now ≡ 4 }
    ensures { D.numbers result.0 ∷ D.numbers result.1
        ∷ D.numbers result.2 ∷ D.numbers result.3 ∷ []
        ≡ map (converted P.format ⟦<P::Gamma as Gamma<D::Chan>>⟧.mode D.format D.Gamma.mode)
        (map P.numbers p.now) }
{
    (
        p[0].convert::<D>(),
        p[1].convert::<D>(),
        p[2].convert::<D>(),
        p[3].convert::<D>(),
    )
}

/// Writes four pixels.
#[inline(always)]
fn put_four<P: Pixel>(p: &mut [P], one: P, two: P, three: P, four: P)
    requires { length p.old ≡ 4 }
    ensures { p.new ≡ one ∷ two ∷ three ∷ four ∷ [] }
{
    p[0] = one;
    p[1] = two;
    p[2] = three;
    p[3] = four;
}

/// Converts four pixels. All are read before one is written.
///
/// Condition: that format has no more channels than its model.
#[inline(always)]
fn convert_whole_four<P, D>(dst: &mut [D], src: &[P])
where
    P: Pixel,
    D: Pixel,
    D::Chan: From<P::Chan>,
    P::Gamma: Gamma<D::Chan>,
    requires few { D.layout.count ≤ D.layout.alpha + 1 }
    requires dst_size { length dst.old ≡ 4 }
    requires src_size { length src.now ≡ 4 }
    ensures { map D.numbers dst.new ≡
        map (converted P.format ⟦<P::Gamma as Gamma<D::Chan>>⟧.mode D.format D.Gamma.mode)
        (map P.numbers src.now) }
{
    let (a, b, c, d) = four_converted::<P, D>(src);
    put_four(dst, a, b, c, d);
}

/// Converts four pixels: their linear colors of 16 bits are divided by the alpha.
///
/// Condition: the conversion changes nothing else but the depth.
#[inline(always)]
fn unmultiply_four<P, D>(dst: &mut [D], src: &[P])
where
    P: Pixel,
    D: Pixel,
    P::Gamma: Gamma<D::Chan>,
    requires count { D.layout.count ≡ 4 }
    requires steps { (p : List ℕ) → converted P.format
        ⟦<P::Gamma as Gamma<D::Chan>>⟧.mode D.format D.Gamma.mode p
        ≡ unmultiplied_four D.Chan.max (of_depth P.layout D.layout p) }
    requires dst_size { length dst.old ≡ 4 }
    requires src_size { length src.now ≡ 4 }
    ensures { map D.numbers dst.new ≡
        map (converted P.format ⟦<P::Gamma as Gamma<D::Chan>>⟧.mode D.format D.Gamma.mode)
        (map P.numbers src.now) }
{
    put_four_pixels(dst, D::Chan::unmultiplied4(four_at_depth::<P, D>(src)));
}

/// Converts four pixels, by their depth alone where nothing else changes, or by a division alone.
///
/// Condition: that format has no more channels than its model.
#[inline(always)]
fn convert_four<P, D>(dst: &mut [D], src: &[P])
where
    P: Pixel,
    D: Pixel,
    D::Chan: From<P::Chan>,
    P::Gamma: Gamma<D::Chan>,
    requires few { D.layout.count ≤ D.layout.alpha + 1 }
    requires dst_size { length dst.old ≡ 4 }
    requires src_size { length src.now ≡ 4 }
    ensures { map D.numbers dst.new ≡
        map (converted P.format ⟦<P::Gamma as Gamma<D::Chan>>⟧.mode D.format D.Gamma.mode)
        (map P.numbers src.now) }
{
    if changes_depth::<P, D>() {
        deepen_four::<P, D>(dst, src);
    } else if unmultiplies::<P, D>() {
        unmultiply_four::<P, D>(dst, src);
    } else {
        convert_whole_four::<P, D>(dst, src);
    }
}

/// Converts as many of the first `count` pixels as go in fours, and returns their number.
///
/// Condition: both slices have `count` pixels, and that format has no more channels than its model.
#[inline(always)]
pub(super) fn convert_fours<P, D>(dst: &mut [D], src: &[P], count: usize) -> usize
where
    P: Pixel,
    D: Pixel,
    D::Chan: From<P::Chan>,
    P::Gamma: Gamma<D::Chan>,
    requires few { D.layout.count ≤ D.layout.alpha + 1 }
    requires dst_has { count ≤ length dst.old }
    requires src_has { count ≤ length src.now }
    ensures some { result ≤ count }
    ensures pixels { map D.numbers dst.new ≡ over (λ p d. converted P.format
        ⟦<P::Gamma as Gamma<D::Chan>>⟧.mode D.format D.Gamma.mode p)
        (take result (map P.numbers src.now)) (map D.numbers dst.old) }
{
    if !goes_by_fours::<P, D>() {
        return 0;
    }
    for k in 0..count / BLOCK {
        convert_four::<P, D>(
            &mut dst[BLOCK * k..BLOCK * k + BLOCK],
            &src[BLOCK * k..BLOCK * k + BLOCK],
        );
    }
    count / BLOCK * BLOCK
}
