//! Conversions of red, green and blue to gray, sixteen pixels at a time.
//!
//! First red, green and blue of the pixels go to arrays of their own. LLVM makes the sums of
//! several pixels at once from these, and not from pixels.
ghost use Rattle.std.specs.Prelude.{◌≡◌, ◌≢◌, ◌≤◌, ◌+◌, [], ◌∷◌, length, map, take, true};
ghost use Rattle.pix_chan.specs.Runs.{over};
ghost use Rattle.pix_el.specs.Conversion.{converted};
ghost use Rattle.pix_el.specs.Gray.{rgba_converted};

use crate::conversion::channelwise::{is_plain, keeps_modes};
use crate::conversion::{at_depth, reencoded_color};
use crate::el::Pixel;
use crate::model::ColorModel;
use pix_chan::chan::{Channel, Gamma};

/// How many pixels a block has.
const BLOCK: usize = 16;

/// Returns whether a conversion makes one gray value of red, green and blue, and changes no mode.
#[inline(always)]
pub(crate) fn makes_gray<P, D>() -> bool
where
    P: Pixel,
    D: Pixel,
    P::Gamma: Gamma<D::Chan>,
    ensures { result ≡ true → P.Model.KIND ≢ D.Model.KIND }
{
    <P::Model as ColorModel>::KIND != <D::Model as ColorModel>::KIND
        && <D::Model as ColorModel>::KIND == 1
        && is_plain::<P::Model>()
        && keeps_modes::<P, D>()
        && P::default().channels().len() == 3
        && D::default().channels().len() == 1
}

/// Returns red, green, blue and alpha of a pixel as the format `D` has them.
#[inline(always)]
fn rgba_converted<P, D>(p: P) -> (D::Chan, D::Chan, D::Chan, D::Chan)
where
    P: Pixel,
    D: Pixel,
    P::Gamma: Gamma<D::Chan>,
    ensures { D.Chan.number result.0 ∷ D.Chan.number result.1
        ∷ D.Chan.number result.2 ∷ D.Chan.number result.3 ∷ []
        ≡ rgba_converted P.format ⟦<P::Gamma as Gamma<D::Chan>>⟧.mode D.format D.Gamma.mode
        (P.numbers p) }
{
    let (red, green, blue, alpha) = <P::Model as ColorModel>::into_four::<P>(p);
    let alpha = at_depth::<P::Chan, D::Chan>(alpha);
    let red = reencoded_color::<P, D>(red, alpha);
    let green = reencoded_color::<P, D>(green, alpha);
    let blue = reencoded_color::<P, D>(blue, alpha);
    (red, green, blue, alpha)
}

/// Converts sixteen pixels.
///
/// Condition: the models differ, and that format has no more channels than its model.
#[inline(always)]
fn convert_sixteen<P, D>(dst: &mut [D], src: &[P])
where
    P: Pixel,
    D: Pixel,
    P::Gamma: Gamma<D::Chan>,
    requires few { D.layout.count ≤ D.layout.alpha + 1 }
    requires other { P.Model.KIND ≢ D.Model.KIND }
    requires dst_size { length dst.old ≡ 16 }
    requires src_size { length src.now ≡ 16 }
    ensures { map D.numbers dst.new ≡
        map (converted P.format ⟦<P::Gamma as Gamma<D::Chan>>⟧.mode D.format D.Gamma.mode)
        (map P.numbers src.now) }
{
    let least = D::Chan::MIN;
    let mut reds = [least; BLOCK];
    let mut greens = [least; BLOCK];
    let mut blues = [least; BLOCK];
    let mut alphas = [least; BLOCK];
    for k in 0..BLOCK {
        let (red, green, blue, alpha) = rgba_converted::<P, D>(src[k]);
        reds[k] = red;
        greens[k] = green;
        blues[k] = blue;
        alphas[k] = alpha;
    }
    for i in 0..BLOCK {
        dst[i] = <D::Model as ColorModel>::from_four::<D>(reds[i], greens[i], blues[i], alphas[i]);
    }
}

/// Converts as many of the first `count` pixels as go in blocks, and returns their number.
///
/// Condition: both slices have `count` pixels, the models differ, and that format has no more
/// channels than its model.
#[inline(always)]
pub(crate) fn convert_grays<P, D>(dst: &mut [D], src: &[P], count: usize) -> usize
where
    P: Pixel,
    D: Pixel,
    P::Gamma: Gamma<D::Chan>,
    requires few { D.layout.count ≤ D.layout.alpha + 1 }
    requires other { P.Model.KIND ≢ D.Model.KIND }
    requires dst_has { count ≤ length dst.old }
    requires src_has { count ≤ length src.now }
    ensures some { result ≤ count }
    ensures pixels { map D.numbers dst.new ≡ over (λ p d. converted P.format
        ⟦<P::Gamma as Gamma<D::Chan>>⟧.mode D.format D.Gamma.mode p)
        (take result (map P.numbers src.now)) (map D.numbers dst.old) }
{
    for k in 0..count / BLOCK {
        convert_sixteen::<P, D>(
            &mut dst[BLOCK * k..BLOCK * k + BLOCK],
            &src[BLOCK * k..BLOCK * k + BLOCK],
        );
    }
    count / BLOCK * BLOCK
}
