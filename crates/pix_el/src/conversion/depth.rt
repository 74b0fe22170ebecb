//! Conversions to another depth alone, eight pixels at a time.
//!
//! All channels of the pixels go from one array to another in one loop, which LLVM makes lanes of,
//! whatever the number of channels of a pixel is.
ghost use Rattle.std.specs.Prelude.{◌≡◌, ◌≤◌, ◌+◌, length, map, take, true};
ghost use Rattle.pix_chan.specs.Runs.{over};
ghost use Rattle.pix_el.specs.Conversion.{at_depth, converted, of_depth};

use crate::conversion::at_depth;
use crate::conversion::channelwise::keeps_modes;
use crate::el::Pixel;
use crate::model::ColorModel;
use crate::stored::Stored;
use pix_chan::chan::{Channel, Gamma};

/// How many pixels a block has.
const BLOCK: usize = 8;

/// Returns whether a conversion changes nothing but the depth of three or four channels.
#[inline(always)]
pub(crate) fn deepens<P, D>() -> bool
where
    P: Pixel,
    D: Pixel,
    P::Gamma: Gamma<D::Chan>,
    ensures model { result ≡ true → P.Model.KIND ≡ D.Model.KIND }
    ensures alpha { result ≡ true → P.Alpha.KIND ≡ D.Alpha.KIND }
    ensures gamma { result ≡ true → ⟦<P::Gamma as Gamma<D::Chan>>⟧.KIND ≡ D.Gamma.KIND }
    ensures count { result ≡ true → P.layout.count ≡ D.layout.count }
    ensures most { result ≡ true → D.layout.count ≤ 4 }
{
    let count = D::default().channels().len();
    <P::Model as ColorModel>::KIND == <D::Model as ColorModel>::KIND
        && keeps_modes::<P, D>()
        && P::default().channels().len() == count
        && (count == 3 || count == 4)
}

/// Returns thirty-two channels at another depth.
#[inline(always)]
fn deepened<C: Channel, D: Channel>(from: [C; 32]) -> [D; 32]
    ensures { map D.number result ≡ map (at_depth C.max D.max) (map C.number from) }
{
    let mut to = [D::MIN; 32];
    for i in 0..32 {
        to[i] = at_depth::<C, D>(from[i]);
    }
    to
}

/// Converts eight pixels to another depth.
///
/// Condition: both formats have the same number of channels, at most four.
#[inline(always)]
fn deepen_eight<P: Pixel, D: Pixel>(dst: &mut [D], src: &[P])
    requires count { P.layout.count ≡ D.layout.count }
    requires most { D.layout.count ≤ 4 }
    requires dst_size { length dst.old ≡ 8 }
    requires src_size { length src.now ≡ 8 }
    ensures { map D.numbers dst.new ≡
        map (of_depth P.layout D.layout) (map P.numbers src.now) }
{
    let count = P::default().channels().len();
    let mut from = [P::Chan::MIN; 32];
    P::load_channels(src, &mut from[..BLOCK * count]);
    let to = deepened::<P::Chan, D::Chan>(from);
    D::store_channels(dst, &to[..BLOCK * count]);
}

/// Converts as many of the first `count` pixels as go in blocks, and returns their number.
///
/// Condition: both slices have `count` pixels, and the conversion is to another depth alone, of at
/// most four channels.
#[inline(always)]
pub(crate) fn deepen_blocks<P, D>(dst: &mut [D], src: &[P], count: usize) -> usize
where
    P: Pixel,
    D: Pixel,
    P::Gamma: Gamma<D::Chan>,
    requires model { P.Model.KIND ≡ D.Model.KIND }
    requires alpha { P.Alpha.KIND ≡ D.Alpha.KIND }
    requires gamma { ⟦<P::Gamma as Gamma<D::Chan>>⟧.KIND ≡ D.Gamma.KIND }
    requires as_many { P.layout.count ≡ D.layout.count }
    requires most { D.layout.count ≤ 4 }
    requires dst_has { count ≤ length dst.old }
    requires src_has { count ≤ length src.now }
    ensures some { result ≤ count }
    ensures pixels { map D.numbers dst.new ≡ over (λ p d. converted P.format
        ⟦<P::Gamma as Gamma<D::Chan>>⟧.mode D.format D.Gamma.mode p)
        (take result (map P.numbers src.now)) (map D.numbers dst.old) }
{
    for k in 0..count / BLOCK {
        deepen_eight::<P, D>(
            &mut dst[BLOCK * k..BLOCK * k + BLOCK],
            &src[BLOCK * k..BLOCK * k + BLOCK],
        );
    }
    count / BLOCK * BLOCK
}
