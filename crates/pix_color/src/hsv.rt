//! Hue, saturation and value.
ghost use Rattle.std.specs.Prelude.{◌≡◌, ◌<◌, ℕ, refl, slice_get, Some};
ghost use Rattle.std.proofs.Common.{lit≤};
ghost use Rattle.std.specs.Borrow.{sem};
ghost use Rattle.pix_el.specs.Pixel.{channel, LendsChannel};
ghost use Rattle.pix_el.specs.Model as models;
ghost use Rattle.pix_color.specs.Hsv.{rgb_of_hsv, hsv_of_rgb};
ghost use Rattle.pix_el.specs.ModelSeal.{model_seal};

use crate::hue::{lifted_rgb, rgb_to_hue_chroma_value};
use crate::numbers::{difference, product, quotient};
use pix_el::chan::{Ch8, Ch16, Linear, Premultiplied, Srgb, Straight};
use pix_el::el::{Pix, Pixel};
use pix_el::model::ColorModel;
use std::ops::Range;

/// The model of hue, saturation and value: the hexcone of A. R. Smith, *Color Gamut Transform
/// Pairs*, SIGGRAPH 1978.
///
/// The value is the greatest of red, green and blue. The saturation is the chroma as a part of the
/// value, and the chroma is the greatest less the least.
///
/// # Examples
///
/// ```rust
/// let green = Hsv8::new(85, 255, 128);
/// let hue = Hsv::hue(green); // 85, a third of the circle
/// let value = Hsv::value(green); // 128
/// ```
#[derive(Clone, Copy, Debug, Default, PartialEq, Eq)]
pub struct Hsv {}

impl Hsv {
    /// Returns the hue, or the maximum where the format has none.
    pub fn hue<P>(p: P) -> P::Chan
    where
        P: Pixel<Model = Self>,
        ensures { P.Chan.number result ≡ channel P.Chan.max (P.numbers p) 0 }
    {
        p.get(0)
    }

    /// Lends the hue. Condition: the format has it.
    pub fn hue_mut<P>(p: &mut P) -> &mut P::Chan
    where
        P: Pixel<Model = Self>,
        requires { 0 < P.layout.count }
        ensures* lends { sem 𝓛 (LendsChannel P.row P.Chan.row
            P.channel_list P.with_channel_list p.entry result 0) }
        ensures now { slice_get (P.channel_list p.old) 0 ≡ Some result.now }
    {
        p.get_mut(0)
    }

    /// Returns the saturation, or the maximum where the format has none.
    pub fn saturation<P>(p: P) -> P::Chan
    where
        P: Pixel<Model = Self>,
        ensures { P.Chan.number result ≡ channel P.Chan.max (P.numbers p) 1 }
    {
        p.get(1)
    }

    /// Lends the saturation. Condition: the format has it.
    pub fn saturation_mut<P>(p: &mut P) -> &mut P::Chan
    where
        P: Pixel<Model = Self>,
        requires { 1 < P.layout.count }
        ensures* lends { sem 𝓛 (LendsChannel P.row P.Chan.row
            P.channel_list P.with_channel_list p.entry result 1) }
        ensures now { slice_get (P.channel_list p.old) 1 ≡ Some result.now }
    {
        p.get_mut(1)
    }

    /// Returns the value, or the maximum where the format has none.
    pub fn value<P>(p: P) -> P::Chan
    where
        P: Pixel<Model = Self>,
        ensures { P.Chan.number result ≡ channel P.Chan.max (P.numbers p) 2 }
    {
        p.get(2)
    }

    /// Lends the value. Condition: the format has it.
    pub fn value_mut<P>(p: &mut P) -> &mut P::Chan
    where
        P: Pixel<Model = Self>,
        requires { 2 < P.layout.count }
        ensures* lends { sem 𝓛 (LendsChannel P.row P.Chan.row
            P.channel_list P.with_channel_list p.entry result 2) }
        ensures now { slice_get (P.channel_list p.old) 2 ≡ Some result.now }
    {
        p.get_mut(2)
    }
}

impl ColorModel for Hsv {
    ghost model = { models.Hsv };

    ghost CIRCULAR = { (models.row models.Hsv).hues };

    const CIRCULAR: Range<usize> = 0..1;

    ghost LINEAR = { (models.row models.Hsv).colors };

    const LINEAR: Range<usize> = 1..3;

    ghost ALPHA = { (models.row models.Hsv).alpha };

    const ALPHA: usize = 3;

    ghost KIND = { (models.row models.Hsv).kind };

    const KIND: u8 = 3;

    ghost to_rgb = { rgb_of_hsv };

    ghost of_rgb = { hsv_of_rgb };

    fn into_four<P>(p: P) -> (P::Chan, P::Chan, P::Chan, P::Chan)
    where
        P: Pixel<Model = Self>,
    {
        let value = p.get(2);
        let chroma = product(value, p.get(1));
        let (red, green, blue) = lifted_rgb(p.get(0), chroma, difference(value, chroma));
        (red, green, blue, p.get(3))
    }

    fn from_four<P>(red: P::Chan, green: P::Chan, blue: P::Chan, alpha: P::Chan) -> P
    where
        P: Pixel<Model = Self>,
    {
        let (hue, chroma, value) = rgb_to_hue_chroma_value(red, green, blue);
        P::from_four(hue, quotient(chroma, value), value, alpha)
    }

    ghost stands = { refl };

    ghost few = { lit≤ tt };

    ghost sealed = { model_seal };
}

/// Hue, saturation and value of eight bits each, linear.
pub type Hsv8 = Pix<3, Ch8, Hsv, Straight, Linear>;

/// Hue, saturation and value of sixteen bits each, linear.
pub type Hsv16 = Pix<3, Ch16, Hsv, Straight, Linear>;

/// Hue, saturation, value and alpha of eight bits each, not premultiplied, linear.
pub type Hsva8 = Pix<4, Ch8, Hsv, Straight, Linear>;

/// Hue, saturation, value and alpha of sixteen bits each, not premultiplied, linear.
pub type Hsva16 = Pix<4, Ch16, Hsv, Straight, Linear>;

/// Hue, saturation, value and alpha of eight bits each, premultiplied and linear.
pub type Hsva8p = Pix<4, Ch8, Hsv, Premultiplied, Linear>;

/// Hue, saturation, value and alpha of sixteen bits each, premultiplied and linear.
pub type Hsva16p = Pix<4, Ch16, Hsv, Premultiplied, Linear>;

/// Hue, saturation and value of eight bits each, sRGB.
pub type SHsv8 = Pix<3, Ch8, Hsv, Straight, Srgb>;

/// Hue, saturation, value and alpha of eight bits each, not premultiplied, sRGB.
pub type SHsva8 = Pix<4, Ch8, Hsv, Straight, Srgb>;

/// Hue, saturation, value and alpha of eight bits each, premultiplied, sRGB.
pub type SHsva8p = Pix<4, Ch8, Hsv, Premultiplied, Srgb>;
