//! Blue, green and red.
ghost use Rattle.std.specs.Prelude.{◌≡◌, ◌<◌, ℕ, refl, slice_get, Some};
ghost use Rattle.std.proofs.Common.{lit≤};
ghost use Rattle.std.specs.Borrow.{sem};
ghost use Rattle.pix_el.specs.Pixel.{channel, LendsChannel};
ghost use Rattle.pix_el.specs.Model as models;
ghost use Rattle.pix_color.specs.Bgr.{reversed};
ghost use Rattle.pix_el.specs.ModelSeal.{model_seal};

use pix_el::chan::{Ch8, Ch16, Linear, Premultiplied, Srgb, Straight};
use pix_el::el::{Pix, Pixel};
use pix_el::model::ColorModel;
use std::ops::Range;

/// The model of blue, green and red.
///
/// # Examples
///
/// ```rust
/// let sky = Bgr8::new(230, 160, 90);
/// let blue = Bgr::blue(sky); // 230, the first channel
/// let red = Bgr::red(sky); // 90, the last one
/// ```
#[derive(Clone, Copy, Debug, Default, PartialEq, Eq)]
pub struct Bgr {}

impl Bgr {
    /// Returns the blue channel, or the maximum where the format has none.
    pub fn blue<P>(p: P) -> P::Chan
    where
        P: Pixel<Model = Self>,
        ensures { P.Chan.number result ≡ channel P.Chan.max (P.numbers p) 0 }
    {
        p.get(0)
    }

    /// Lends the blue channel. Condition: the format has it.
    pub fn blue_mut<P>(p: &mut P) -> &mut P::Chan
    where
        P: Pixel<Model = Self>,
        requires { 0 < P.layout.count }
        ensures* lends { sem 𝓛 (LendsChannel P.row P.Chan.row
            P.channel_list P.with_channel_list p.entry result 0) }
        ensures now { slice_get (P.channel_list p.old) 0 ≡ Some result.now }
    {
        p.get_mut(0)
    }

    /// Returns the green channel, or the maximum where the format has none.
    pub fn green<P>(p: P) -> P::Chan
    where
        P: Pixel<Model = Self>,
        ensures { P.Chan.number result ≡ channel P.Chan.max (P.numbers p) 1 }
    {
        p.get(1)
    }

    /// Lends the green channel. Condition: the format has it.
    pub fn green_mut<P>(p: &mut P) -> &mut P::Chan
    where
        P: Pixel<Model = Self>,
        requires { 1 < P.layout.count }
        ensures* lends { sem 𝓛 (LendsChannel P.row P.Chan.row
            P.channel_list P.with_channel_list p.entry result 1) }
        ensures now { slice_get (P.channel_list p.old) 1 ≡ Some result.now }
    {
        p.get_mut(1)
    }

    /// Returns the red channel, or the maximum where the format has none.
    pub fn red<P>(p: P) -> P::Chan
    where
        P: Pixel<Model = Self>,
        ensures { P.Chan.number result ≡ channel P.Chan.max (P.numbers p) 2 }
    {
        p.get(2)
    }

    /// Lends the red channel. Condition: the format has it.
    pub fn red_mut<P>(p: &mut P) -> &mut P::Chan
    where
        P: Pixel<Model = Self>,
        requires { 2 < P.layout.count }
        ensures* lends { sem 𝓛 (LendsChannel P.row P.Chan.row
            P.channel_list P.with_channel_list p.entry result 2) }
        ensures now { slice_get (P.channel_list p.old) 2 ≡ Some result.now }
    {
        p.get_mut(2)
    }
}

impl ColorModel for Bgr {
    ghost model = { models.Bgr };

    ghost CIRCULAR = { (models.row models.Bgr).hues };

    const CIRCULAR: Range<usize> = 0..0;

    ghost LINEAR = { (models.row models.Bgr).colors };

    const LINEAR: Range<usize> = 0..3;

    ghost ALPHA = { (models.row models.Bgr).alpha };

    const ALPHA: usize = 3;

    ghost KIND = { (models.row models.Bgr).kind };

    const KIND: u8 = 6;

    ghost to_rgb = { reversed };

    ghost of_rgb = { reversed };

    fn into_four<P>(p: P) -> (P::Chan, P::Chan, P::Chan, P::Chan)
    where
        P: Pixel<Model = Self>,
    {
        (p.get(2), p.get(1), p.get(0), p.get(3))
    }

    fn from_four<P>(red: P::Chan, green: P::Chan, blue: P::Chan, alpha: P::Chan) -> P
    where
        P: Pixel<Model = Self>,
    {
        P::from_four(blue, green, red, alpha)
    }

    ghost stands = { refl };

    ghost few = { lit≤ tt };

    ghost sealed = { model_seal };
}

/// Blue, green and red of eight bits each, linear.
pub type Bgr8 = Pix<3, Ch8, Bgr, Straight, Linear>;

/// Blue, green and red of sixteen bits each, linear.
pub type Bgr16 = Pix<3, Ch16, Bgr, Straight, Linear>;

/// Blue, green, red and alpha of eight bits each, not premultiplied, linear.
pub type Bgra8 = Pix<4, Ch8, Bgr, Straight, Linear>;

/// Blue, green, red and alpha of sixteen bits each, not premultiplied, linear.
pub type Bgra16 = Pix<4, Ch16, Bgr, Straight, Linear>;

/// Blue, green, red and alpha of eight bits each, premultiplied and linear.
pub type Bgra8p = Pix<4, Ch8, Bgr, Premultiplied, Linear>;

/// Blue, green, red and alpha of sixteen bits each, premultiplied and linear.
pub type Bgra16p = Pix<4, Ch16, Bgr, Premultiplied, Linear>;

/// Blue, green and red of eight bits each, sRGB.
pub type SBgr8 = Pix<3, Ch8, Bgr, Straight, Srgb>;

/// Blue, green, red and alpha of eight bits each, not premultiplied, sRGB.
pub type SBgra8 = Pix<4, Ch8, Bgr, Straight, Srgb>;

/// Blue, green, red and alpha of eight bits each, premultiplied, sRGB.
pub type SBgra8p = Pix<4, Ch8, Bgr, Premultiplied, Srgb>;
