//! Cyan, magenta and yellow.
ghost use Rattle.std.specs.Prelude.{◌≡◌, ◌<◌, ℕ, refl, slice_get, Some};
ghost use Rattle.std.proofs.Common.{lit≤};
ghost use Rattle.std.specs.Borrow.{sem};
ghost use Rattle.pix_el.specs.Pixel.{channel, LendsChannel};
ghost use Rattle.pix_el.specs.Model as models;
ghost use Rattle.pix_color.specs.Cmy.{complements};
ghost use Rattle.pix_el.specs.ModelSeal.{model_seal};

use crate::numbers::complement;
use pix_el::chan::{Ch8, Ch16, Linear, Premultiplied, Srgb, Straight};
use pix_el::el::{Pix, Pixel};
use pix_el::model::ColorModel;
use std::ops::Range;

/// The model of cyan, magenta and yellow.
///
/// # Examples
///
/// ```rust
/// let print = Cmy8::new(165, 95, 25);
/// let cyan = Cmy::cyan(print); // 165
/// let magenta = Cmy::magenta(print); // 95
/// ```
#[derive(Clone, Copy, Debug, Default, PartialEq, Eq)]
pub struct Cmy {}

impl Cmy {
    /// Returns the cyan channel, or the maximum where the format has none.
    pub fn cyan<P>(p: P) -> P::Chan
    where
        P: Pixel<Model = Self>,
        ensures { P.Chan.number result ≡ channel P.Chan.max (P.numbers p) 0 }
    {
        p.get(0)
    }

    /// Lends the cyan channel. Condition: the format has it.
    pub fn cyan_mut<P>(p: &mut P) -> &mut P::Chan
    where
        P: Pixel<Model = Self>,
        requires { 0 < P.layout.count }
        ensures* lends { sem 𝓛 (LendsChannel P.row P.Chan.row
            P.channel_list P.with_channel_list p.entry result 0) }
        ensures now { slice_get (P.channel_list p.old) 0 ≡ Some result.now }
    {
        p.get_mut(0)
    }

    /// Returns the magenta channel, or the maximum where the format has none.
    pub fn magenta<P>(p: P) -> P::Chan
    where
        P: Pixel<Model = Self>,
        ensures { P.Chan.number result ≡ channel P.Chan.max (P.numbers p) 1 }
    {
        p.get(1)
    }

    /// Lends the magenta channel. Condition: the format has it.
    pub fn magenta_mut<P>(p: &mut P) -> &mut P::Chan
    where
        P: Pixel<Model = Self>,
        requires { 1 < P.layout.count }
        ensures* lends { sem 𝓛 (LendsChannel P.row P.Chan.row
            P.channel_list P.with_channel_list p.entry result 1) }
        ensures now { slice_get (P.channel_list p.old) 1 ≡ Some result.now }
    {
        p.get_mut(1)
    }

    /// Returns the yellow channel, or the maximum where the format has none.
    pub fn yellow<P>(p: P) -> P::Chan
    where
        P: Pixel<Model = Self>,
        ensures { P.Chan.number result ≡ channel P.Chan.max (P.numbers p) 2 }
    {
        p.get(2)
    }

    /// Lends the yellow channel. Condition: the format has it.
    pub fn yellow_mut<P>(p: &mut P) -> &mut P::Chan
    where
        P: Pixel<Model = Self>,
        requires { 2 < P.layout.count }
        ensures* lends { sem 𝓛 (LendsChannel P.row P.Chan.row
            P.channel_list P.with_channel_list p.entry result 2) }
        ensures now { slice_get (P.channel_list p.old) 2 ≡ Some result.now }
    {
        p.get_mut(2)
    }
}

impl ColorModel for Cmy {
    ghost model = { models.Cmy };

    ghost CIRCULAR = { (models.row models.Cmy).hues };

    const CIRCULAR: Range<usize> = 0..0;

    ghost LINEAR = { (models.row models.Cmy).colors };

    const LINEAR: Range<usize> = 0..3;

    ghost ALPHA = { (models.row models.Cmy).alpha };

    const ALPHA: usize = 3;

    ghost KIND = { (models.row models.Cmy).kind };

    const KIND: u8 = 7;

    ghost to_rgb = { complements };

    ghost of_rgb = { complements };

    fn into_four<P>(p: P) -> (P::Chan, P::Chan, P::Chan, P::Chan)
    where
        P: Pixel<Model = Self>,
    {
        let red = complement(p.get(0));
        let green = complement(p.get(1));
        let blue = complement(p.get(2));
        (red, green, blue, p.get(3))
    }

    fn from_four<P>(red: P::Chan, green: P::Chan, blue: P::Chan, alpha: P::Chan) -> P
    where
        P: Pixel<Model = Self>,
    {
        P::from_four(complement(red), complement(green), complement(blue), alpha)
    }

    ghost stands = { refl };

    ghost few = { lit≤ tt };

    ghost sealed = { model_seal };
}

/// Cyan, magenta and yellow of eight bits each, linear.
pub type Cmy8 = Pix<3, Ch8, Cmy, Straight, Linear>;

/// Cyan, magenta and yellow of sixteen bits each, linear.
pub type Cmy16 = Pix<3, Ch16, Cmy, Straight, Linear>;

/// Cyan, magenta, yellow and alpha of eight bits each, not premultiplied, linear.
pub type Cmya8 = Pix<4, Ch8, Cmy, Straight, Linear>;

/// Cyan, magenta, yellow and alpha of sixteen bits each, not premultiplied, linear.
pub type Cmya16 = Pix<4, Ch16, Cmy, Straight, Linear>;

/// Cyan, magenta, yellow and alpha of eight bits each, premultiplied and linear.
pub type Cmya8p = Pix<4, Ch8, Cmy, Premultiplied, Linear>;

/// Cyan, magenta, yellow and alpha of sixteen bits each, premultiplied and linear.
pub type Cmya16p = Pix<4, Ch16, Cmy, Premultiplied, Linear>;

/// Cyan, magenta and yellow of eight bits each, sRGB.
pub type SCmy8 = Pix<3, Ch8, Cmy, Straight, Srgb>;

/// Cyan, magenta, yellow and alpha of eight bits each, not premultiplied, sRGB.
pub type SCmya8 = Pix<4, Ch8, Cmy, Straight, Srgb>;

/// Cyan, magenta, yellow and alpha of eight bits each, premultiplied, sRGB.
pub type SCmya8p = Pix<4, Ch8, Cmy, Premultiplied, Srgb>;
