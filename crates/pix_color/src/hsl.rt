//! Hue, saturation and lightness.
ghost use Rattle.std.specs.Prelude.{◌≡◌, ◌<◌, ℕ, refl, slice_get, Some};
ghost use Rattle.std.proofs.Common.{lit≤};
ghost use Rattle.std.specs.Borrow.{sem};
ghost use Rattle.pix_el.specs.Pixel.{channel, LendsChannel};
ghost use Rattle.pix_el.specs.Model as models;
ghost use Rattle.pix_color.specs.Hsl.{greatest_chroma, rgb_of_hsl, hsl_of_rgb};
ghost use Rattle.pix_el.specs.ModelSeal.{model_seal};

use crate::hue::{lifted_rgb, rgb_to_hue_chroma_value};
use crate::numbers::{
    complement, difference, exact, lesser, max, middle, number, product, quotient,
};
use pix_el::chan::{Ch8, Ch16, Channel, Linear, Premultiplied, Srgb, Straight};
use pix_el::el::{Pix, Pixel};
use pix_el::model::ColorModel;
use std::ops::Range;

/// The model of hue, saturation and lightness, from G. H. Joblove and D. Greenberg, *Color Spaces
/// for Computer Graphics*, SIGGRAPH 1978.
///
/// The lightness is the rounded mean of the greatest and the least of red, green and blue. The
/// saturation is the chroma as a part of the greatest chroma at that lightness.
///
/// # Examples
///
/// ```rust
/// let pale = Hsl8::new(85, 255, 192);
/// let lightness = Hsl::lightness(pale); // 192
/// let saturation = Hsl::saturation(pale); // 255
/// ```
#[derive(Clone, Copy, Debug, Default, PartialEq, Eq)]
pub struct Hsl {}

impl Hsl {
    /// Returns the hue, or the maximum where the format has none.
    pub fn hue<P>(p: P) -> P::Chan
    where
        P: Pixel<Model = Self>,
        ensures { P.Chan.number result ≡ channel P.Chan.max (P.numbers p) 0 }
    {
        p.get(0)
    }

    /// Lends the hue. Condition: the format has it.
    pub fn hue_mut<P>(p: &mut P) -> &mut P::Chan
    where
        P: Pixel<Model = Self>,
        requires { 0 < P.layout.count }
        ensures* lends { sem 𝓛 (LendsChannel P.row P.Chan.row
            P.channel_list P.with_channel_list p.entry result 0) }
        ensures now { slice_get (P.channel_list p.old) 0 ≡ Some result.now }
    {
        p.get_mut(0)
    }

    /// Returns the saturation, or the maximum where the format has none.
    pub fn saturation<P>(p: P) -> P::Chan
    where
        P: Pixel<Model = Self>,
        ensures { P.Chan.number result ≡ channel P.Chan.max (P.numbers p) 1 }
    {
        p.get(1)
    }

    /// Lends the saturation. Condition: the format has it.
    pub fn saturation_mut<P>(p: &mut P) -> &mut P::Chan
    where
        P: Pixel<Model = Self>,
        requires { 1 < P.layout.count }
        ensures* lends { sem 𝓛 (LendsChannel P.row P.Chan.row
            P.channel_list P.with_channel_list p.entry result 1) }
        ensures now { slice_get (P.channel_list p.old) 1 ≡ Some result.now }
    {
        p.get_mut(1)
    }

    /// Returns the lightness, or the maximum where the format has none.
    pub fn lightness<P>(p: P) -> P::Chan
    where
        P: Pixel<Model = Self>,
        ensures { P.Chan.number result ≡ channel P.Chan.max (P.numbers p) 2 }
    {
        p.get(2)
    }

    /// Lends the lightness. Condition: the format has it.
    pub fn lightness_mut<P>(p: &mut P) -> &mut P::Chan
    where
        P: Pixel<Model = Self>,
        requires { 2 < P.layout.count }
        ensures* lends { sem 𝓛 (LendsChannel P.row P.Chan.row
            P.channel_list P.with_channel_list p.entry result 2) }
        ensures now { slice_get (P.channel_list p.old) 2 ≡ Some result.now }
    {
        p.get_mut(2)
    }
}

/// Returns the greatest chroma of a lightness.
fn greatest_chroma<C: Channel>(lightness: C) -> C
    ensures { C.number result ≡ greatest_chroma C.max (C.number lightness) }
{
    exact(max::<C>() - (2 * number(lightness)).abs_diff(max::<C>()))
}

impl ColorModel for Hsl {
    ghost model = { models.Hsl };

    ghost CIRCULAR = { (models.row models.Hsl).hues };

    const CIRCULAR: Range<usize> = 0..1;

    ghost LINEAR = { (models.row models.Hsl).colors };

    const LINEAR: Range<usize> = 1..3;

    ghost ALPHA = { (models.row models.Hsl).alpha };

    const ALPHA: usize = 3;

    ghost KIND = { (models.row models.Hsl).kind };

    const KIND: u8 = 4;

    ghost to_rgb = { rgb_of_hsl };

    ghost of_rgb = { hsl_of_rgb };

    fn into_four<P>(p: P) -> (P::Chan, P::Chan, P::Chan, P::Chan)
    where
        P: Pixel<Model = Self>,
    {
        let lightness = p.get(2);
        let chroma = product(greatest_chroma(lightness), p.get(1));
        let lift = difference(lightness, product(chroma, middle()));
        let (red, green, blue) = lifted_rgb(p.get(0), chroma, lift);
        (red, green, blue, p.get(3))
    }

    fn from_four<P>(red: P::Chan, green: P::Chan, blue: P::Chan, alpha: P::Chan) -> P
    where
        P: Pixel<Model = Self>,
    {
        let (hue, chroma, value) = rgb_to_hue_chroma_value(red, green, blue);
        let lightness = difference(value, product(chroma, middle()));
        let room = lesser(lightness, complement(lightness));
        let saturation = quotient(difference(value, lightness), room);
        P::from_four(hue, saturation, lightness, alpha)
    }

    ghost stands = { refl };

    ghost few = { lit≤ tt };

    ghost sealed = { model_seal };
}

/// Hue, saturation and lightness of eight bits each, linear.
pub type Hsl8 = Pix<3, Ch8, Hsl, Straight, Linear>;

/// Hue, saturation and lightness of sixteen bits each, linear.
pub type Hsl16 = Pix<3, Ch16, Hsl, Straight, Linear>;

/// Hue, saturation, lightness and alpha of eight bits each, not premultiplied, linear.
pub type Hsla8 = Pix<4, Ch8, Hsl, Straight, Linear>;

/// Hue, saturation, lightness and alpha of sixteen bits each, not premultiplied, linear.
pub type Hsla16 = Pix<4, Ch16, Hsl, Straight, Linear>;

/// Hue, saturation, lightness and alpha of eight bits each, premultiplied and linear.
pub type Hsla8p = Pix<4, Ch8, Hsl, Premultiplied, Linear>;

/// Hue, saturation, lightness and alpha of sixteen bits each, premultiplied and linear.
pub type Hsla16p = Pix<4, Ch16, Hsl, Premultiplied, Linear>;

/// Hue, saturation and lightness of eight bits each, sRGB.
pub type SHsl8 = Pix<3, Ch8, Hsl, Straight, Srgb>;

/// Hue, saturation, lightness and alpha of eight bits each, not premultiplied, sRGB.
pub type SHsla8 = Pix<4, Ch8, Hsl, Straight, Srgb>;

/// Hue, saturation, lightness and alpha of eight bits each, premultiplied, sRGB.
pub type SHsla8p = Pix<4, Ch8, Hsl, Premultiplied, Srgb>;
