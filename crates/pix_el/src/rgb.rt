//! Red, green and blue.
ghost use Rattle.std.specs.Prelude.{◌≡◌, ◌<◌, ◌≤◌, ℕ, refl, nat_le, take, slice_get, Some};
ghost use Rattle.std.proofs.Common.{lit≤};
ghost use Rattle.std.specs.Borrow.{sem};
ghost use Rattle.pix_el.specs.Pixel.{channel, LendsChannel};
ghost use Rattle.pix_el.specs.Model as models;
ghost use Rattle.pix_el.specs.Color.{rgb_itself, rgba_difference, is_within};
ghost use Rattle.pix_el.specs.ModelSeal.{model_seal};

use crate::el::{Pix, Pixel};
use crate::hue::apart;
use crate::model::ColorModel;
use pix_chan::chan::{Ch8, Ch16, Channel, Linear, Premultiplied, Srgb, Straight};
use std::ops::Range;

/// The model of red, green and blue.
///
/// # Examples
///
/// ```rust
/// let mut color = Rgba8p::new(10, 20, 30, 40);
/// *color.get_mut(1) = Ch8::new(30);
/// *color.alpha_mut() = Ch8::MAX;
/// *Rgb::red_mut(&mut color) = Rgb::blue(color); // (30, 30, 30, 255)
/// ```
#[derive(Clone, Copy, Debug, Default, PartialEq, Eq)]
pub struct Rgb {}

impl Rgb {
    /// Returns the red channel, or the maximum where the format has none.
    pub fn red<P>(p: P) -> P::Chan
    where
        P: Pixel<Model = Self>,
        ensures { P.Chan.number result ≡ channel P.Chan.max (P.numbers p) 0 }
    {
        p.get(0)
    }

    /// Lends the red channel. Condition: the format has it.
    pub fn red_mut<P>(p: &mut P) -> &mut P::Chan
    where
        P: Pixel<Model = Self>,
        requires { 0 < P.layout.count }
        ensures* lends { sem 𝓛 (LendsChannel P.row P.Chan.row
            P.channel_list P.with_channel_list p.entry result 0) }
        ensures now { slice_get (P.channel_list p.old) 0 ≡ Some result.now }
    {
        p.get_mut(0)
    }

    /// Returns the green channel, or the maximum where the format has none.
    pub fn green<P>(p: P) -> P::Chan
    where
        P: Pixel<Model = Self>,
        ensures { P.Chan.number result ≡ channel P.Chan.max (P.numbers p) 1 }
    {
        p.get(1)
    }

    /// Lends the green channel. Condition: the format has it.
    pub fn green_mut<P>(p: &mut P) -> &mut P::Chan
    where
        P: Pixel<Model = Self>,
        requires { 1 < P.layout.count }
        ensures* lends { sem 𝓛 (LendsChannel P.row P.Chan.row
            P.channel_list P.with_channel_list p.entry result 1) }
        ensures now { slice_get (P.channel_list p.old) 1 ≡ Some result.now }
    {
        p.get_mut(1)
    }

    /// Returns the blue channel, or the maximum where the format has none.
    pub fn blue<P>(p: P) -> P::Chan
    where
        P: Pixel<Model = Self>,
        ensures { P.Chan.number result ≡ channel P.Chan.max (P.numbers p) 2 }
    {
        p.get(2)
    }

    /// Lends the blue channel. Condition: the format has it.
    pub fn blue_mut<P>(p: &mut P) -> &mut P::Chan
    where
        P: Pixel<Model = Self>,
        requires { 2 < P.layout.count }
        ensures* lends { sem 𝓛 (LendsChannel P.row P.Chan.row
            P.channel_list P.with_channel_list p.entry result 2) }
        ensures now { slice_get (P.channel_list p.old) 2 ≡ Some result.now }
    {
        p.get_mut(2)
    }

    /// Returns the absolute differences of red, green, blue and alpha, as a pixel of that format.
    ///
    /// Condition: the format has at most four channels.
    ///
    /// # Examples
    ///
    /// ```rust
    /// let (sand, stone) = (Rgb8::new(200, 160, 90), Rgb8::new(190, 165, 90));
    /// let apart = Rgb::difference(sand, stone); // (10, 5, 0)
    /// let near = Rgb::within_threshold(apart, Rgb8::new(16, 16, 16)); // true
    /// ```
    pub fn difference<P>(p: P, rhs: P) -> P
    where
        P: Pixel<Model = Self>,
        requires { P.layout.count ≤ 4 }
        ensures { P.numbers result ≡ take P.layout.count (rgba_difference P.Chan.max (P.numbers p)
            (P.numbers rhs)) }
    {
        P::from_four(
            apart(p.get(0), rhs.get(0)),
            apart(p.get(1), rhs.get(1)),
            apart(p.get(2), rhs.get(2)),
            apart(p.get(3), rhs.get(3)),
        )
    }

    /// Returns whether red, green, blue and alpha are each at most those of `rhs`. A missing alpha
    /// counts as the maximum.
    ///
    /// # Examples
    ///
    /// ```rust
    /// let (sand, stone) = (Rgb8::new(200, 160, 90), Rgb8::new(190, 165, 90));
    /// let apart = Rgb::difference(sand, stone); // (10, 5, 0)
    /// let near = Rgb::within_threshold(apart, Rgb8::new(16, 16, 16)); // true
    /// ```
    pub fn within_threshold<P>(p: P, rhs: P) -> bool
    where
        P: Pixel<Model = Self>,
        ensures { result ≡ is_within P.Chan.max (P.numbers p) (P.numbers rhs) }
    {
        at_most(p.get(0), rhs.get(0))
            && at_most(p.get(1), rhs.get(1))
            && at_most(p.get(2), rhs.get(2))
            && at_most(p.get(3), rhs.get(3))
    }
}

/// Returns whether a channel is at most another.
fn at_most<C: Channel>(x: C, y: C) -> bool
    ensures { result ≡ nat_le (C.number x) (C.number y) }
{
    x.to_u32() <= y.to_u32()
}

impl ColorModel for Rgb {
    ghost model = { models.Rgb };

    ghost CIRCULAR = { (models.row models.Rgb).hues };

    const CIRCULAR: Range<usize> = 0..0;

    ghost LINEAR = { (models.row models.Rgb).colors };

    const LINEAR: Range<usize> = 0..3;

    ghost ALPHA = { (models.row models.Rgb).alpha };

    const ALPHA: usize = 3;

    ghost KIND = { (models.row models.Rgb).kind };

    const KIND: u8 = 0;

    ghost to_rgb = { rgb_itself };

    ghost of_rgb = { rgb_itself };

    fn into_four<P>(p: P) -> (P::Chan, P::Chan, P::Chan, P::Chan)
    where
        P: Pixel<Model = Self>,
    {
        (p.get(0), p.get(1), p.get(2), p.get(3))
    }

    fn from_four<P>(red: P::Chan, green: P::Chan, blue: P::Chan, alpha: P::Chan) -> P
    where
        P: Pixel<Model = Self>,
    {
        P::from_four(red, green, blue, alpha)
    }

    ghost stands = { refl };

    ghost few = { lit≤ tt };

    ghost sealed = { model_seal };
}

/// Red, green and blue of eight bits each, linear.
pub type Rgb8 = Pix<3, Ch8, Rgb, Straight, Linear>;

/// Red, green and blue of sixteen bits each, linear.
pub type Rgb16 = Pix<3, Ch16, Rgb, Straight, Linear>;

/// Red, green, blue and alpha of eight bits each, not premultiplied, linear.
pub type Rgba8 = Pix<4, Ch8, Rgb, Straight, Linear>;

/// Red, green, blue and alpha of sixteen bits each, not premultiplied, linear.
pub type Rgba16 = Pix<4, Ch16, Rgb, Straight, Linear>;

/// Red, green, blue and alpha of eight bits each, premultiplied and linear.
pub type Rgba8p = Pix<4, Ch8, Rgb, Premultiplied, Linear>;

/// Red, green, blue and alpha of sixteen bits each, premultiplied and linear.
pub type Rgba16p = Pix<4, Ch16, Rgb, Premultiplied, Linear>;

/// Red, green and blue of eight bits each, sRGB.
pub type SRgb8 = Pix<3, Ch8, Rgb, Straight, Srgb>;

/// Red, green, blue and alpha of eight bits each, not premultiplied, sRGB.
pub type SRgba8 = Pix<4, Ch8, Rgb, Straight, Srgb>;

/// Red, green, blue and alpha of eight bits each, premultiplied, sRGB.
pub type SRgba8p = Pix<4, Ch8, Rgb, Premultiplied, Srgb>;
