//! Hue, whiteness and blackness.
ghost use Rattle.std.specs.Prelude.{◌≡◌, ◌<◌, ◌-◌, ◌*◌, ℕ, refl, slice_get, Some};
ghost use Rattle.std.proofs.Common.{lit≤};
ghost use Rattle.std.specs.Borrow.{sem};
ghost use Rattle.pix_el.specs.Pixel.{channel, LendsChannel};
ghost use Rattle.pix_el.specs.Model as models;
ghost use Rattle.pix_color.specs.Hwb.{share, fitted, rgb_of_hwb, hwb_of_rgb};
ghost use Rattle.pix_el.specs.ModelSeal.{model_seal};

use crate::hue::{lifted_rgb, rgb_to_hue_chroma_value};
use crate::numbers::{complement, difference, max, nearest, number, product, quotient};
use pix_el::chan::{Ch8, Ch16, Channel, Linear, Premultiplied, Srgb, Straight};
use pix_el::el::{Pix, Pixel};
use pix_el::model::ColorModel;
use std::ops::Range;

/// The model of hue, whiteness and blackness, from A. R. Smith and E. R. Lyons, *HWB: A More
/// Intuitive Hue-Based Color Model*, Journal of Graphics Tools 1(1), 1996.
///
/// The whiteness is the least of red, green and blue, except for the rounding of the saturation
/// from which it is computed. The blackness is the maximum less the greatest of them.
///
/// # Examples
///
/// ```rust
/// let muted = Hwb8::new(85, 64, 64);
/// let whiteness = Hwb::whiteness(muted); // 64
/// let blackness = Hwb::blackness(muted); // 64
/// ```
#[derive(Clone, Copy, Debug, Default, PartialEq, Eq)]
pub struct Hwb {}

impl Hwb {
    /// Returns the hue, or the maximum where the format has none.
    pub fn hue<P>(p: P) -> P::Chan
    where
        P: Pixel<Model = Self>,
        ensures { P.Chan.number result ≡ channel P.Chan.max (P.numbers p) 0 }
    {
        p.get(0)
    }

    /// Lends the hue. Condition: the format has it.
    pub fn hue_mut<P>(p: &mut P) -> &mut P::Chan
    where
        P: Pixel<Model = Self>,
        requires { 0 < P.layout.count }
        ensures* lends { sem 𝓛 (LendsChannel P.row P.Chan.row
            P.channel_list P.with_channel_list p.entry result 0) }
        ensures now { slice_get (P.channel_list p.old) 0 ≡ Some result.now }
    {
        p.get_mut(0)
    }

    /// Returns the whiteness, or the maximum where the format has none.
    pub fn whiteness<P>(p: P) -> P::Chan
    where
        P: Pixel<Model = Self>,
        ensures { P.Chan.number result ≡ channel P.Chan.max (P.numbers p) 1 }
    {
        p.get(1)
    }

    /// Lends the whiteness. Condition: the format has it.
    pub fn whiteness_mut<P>(p: &mut P) -> &mut P::Chan
    where
        P: Pixel<Model = Self>,
        requires { 1 < P.layout.count }
        ensures* lends { sem 𝓛 (LendsChannel P.row P.Chan.row
            P.channel_list P.with_channel_list p.entry result 1) }
        ensures now { slice_get (P.channel_list p.old) 1 ≡ Some result.now }
    {
        p.get_mut(1)
    }

    /// Returns the blackness, or the maximum where the format has none.
    pub fn blackness<P>(p: P) -> P::Chan
    where
        P: Pixel<Model = Self>,
        ensures { P.Chan.number result ≡ channel P.Chan.max (P.numbers p) 2 }
    {
        p.get(2)
    }

    /// Lends the blackness. Condition: the format has it.
    pub fn blackness_mut<P>(p: &mut P) -> &mut P::Chan
    where
        P: Pixel<Model = Self>,
        requires { 2 < P.layout.count }
        ensures* lends { sem 𝓛 (LendsChannel P.row P.Chan.row
            P.channel_list P.with_channel_list p.entry result 2) }
        ensures now { slice_get (P.channel_list p.old) 2 ≡ Some result.now }
    {
        p.get_mut(2)
    }
}

/// Returns `n` as a part of `sum`, as a channel. Condition: `n` is below 2^16, and the sum is
/// positive and below 2^17.
fn share<C: Channel>(n: u64, sum: u64) -> C
    requires part { n < 65536 }
    requires positive { 0 < sum }
    requires small { sum < 131072 }
    ensures { C.number result ≡ share C.max n sum }
{
    nearest(n * max::<C>(), sum)
}

/// Returns whiteness and blackness as they are, or the share of each in their sum where the sum is
/// above the maximum.
fn fitted<C: Channel>(whiteness: C, blackness: C) -> (C, C)
    ensures whiteness { C.number result.0 ≡ (fitted C.max (C.number whiteness)
        (C.number blackness)).0 }
    ensures blackness { C.number result.1 ≡ (fitted C.max (C.number whiteness)
        (C.number blackness)).1 }
{
    let white = number(whiteness);
    let black = number(blackness);
    if max::<C>() - black < white {
        (share(white, white + black), share(black, white + black))
    } else {
        (whiteness, blackness)
    }
}

impl ColorModel for Hwb {
    ghost model = { models.Hwb };

    ghost CIRCULAR = { (models.row models.Hwb).hues };

    const CIRCULAR: Range<usize> = 0..1;

    ghost LINEAR = { (models.row models.Hwb).colors };

    const LINEAR: Range<usize> = 1..3;

    ghost ALPHA = { (models.row models.Hwb).alpha };

    const ALPHA: usize = 3;

    ghost KIND = { (models.row models.Hwb).kind };

    const KIND: u8 = 5;

    ghost to_rgb = { rgb_of_hwb };

    ghost of_rgb = { hwb_of_rgb };

    fn into_four<P>(p: P) -> (P::Chan, P::Chan, P::Chan, P::Chan)
    where
        P: Pixel<Model = Self>,
    {
        let (whiteness, blackness) = fitted(p.get(1), p.get(2));
        let value = complement(blackness);
        let chroma = difference(value, whiteness);
        let (red, green, blue) = lifted_rgb(p.get(0), chroma, difference(value, chroma));
        (red, green, blue, p.get(3))
    }

    fn from_four<P>(red: P::Chan, green: P::Chan, blue: P::Chan, alpha: P::Chan) -> P
    where
        P: Pixel<Model = Self>,
    {
        let (hue, chroma, value) = rgb_to_hue_chroma_value(red, green, blue);
        let whiteness = product(complement(quotient(chroma, value)), value);
        P::from_four(hue, whiteness, complement(value), alpha)
    }

    ghost stands = { refl };

    ghost few = { lit≤ tt };

    ghost sealed = { model_seal };
}

/// Hue, whiteness and blackness of eight bits each, linear.
pub type Hwb8 = Pix<3, Ch8, Hwb, Straight, Linear>;

/// Hue, whiteness and blackness of sixteen bits each, linear.
pub type Hwb16 = Pix<3, Ch16, Hwb, Straight, Linear>;

/// Hue, whiteness, blackness and alpha of eight bits each, not premultiplied, linear.
pub type Hwba8 = Pix<4, Ch8, Hwb, Straight, Linear>;

/// Hue, whiteness, blackness and alpha of sixteen bits each, not premultiplied, linear.
pub type Hwba16 = Pix<4, Ch16, Hwb, Straight, Linear>;

/// Hue, whiteness, blackness and alpha of eight bits each, premultiplied and linear.
pub type Hwba8p = Pix<4, Ch8, Hwb, Premultiplied, Linear>;

/// Hue, whiteness, blackness and alpha of sixteen bits each, premultiplied and linear.
pub type Hwba16p = Pix<4, Ch16, Hwb, Premultiplied, Linear>;

/// Hue, whiteness and blackness of eight bits each, sRGB.
pub type SHwb8 = Pix<3, Ch8, Hwb, Straight, Srgb>;

/// Hue, whiteness, blackness and alpha of eight bits each, not premultiplied, sRGB.
pub type SHwba8 = Pix<4, Ch8, Hwb, Straight, Srgb>;

/// Hue, whiteness, blackness and alpha of eight bits each, premultiplied, sRGB.
pub type SHwba8p = Pix<4, Ch8, Hwb, Premultiplied, Srgb>;
