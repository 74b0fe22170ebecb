//! Gray: one value, the luminance where it is linear, and the luma in sRGB.
ghost use Rattle.std.specs.Prelude.{◌≡◌, ◌<◌, ℕ, refl, slice_get, Some};
ghost use Rattle.std.proofs.Common.{lit≤};
ghost use Rattle.std.specs.Borrow.{sem};
ghost use Rattle.pix_el.specs.Pixel.{channel, LendsChannel};
ghost use Rattle.pix_el.specs.Model as models;
ghost use Rattle.pix_color.specs.Gray.{rgb_of_gray, gray_of_rgb};
ghost use Rattle.pix_el.specs.ModelSeal.{model_seal};

use crate::linear::weighted_sum;
use pix_el::chan::{Ch8, Ch16, Linear, Premultiplied, Srgb, Straight};
use pix_el::el::{Pix, Pixel};
use pix_el::model::ColorModel;
use std::ops::Range;

/// The model of gray.
///
/// The value is 0.2126, 0.7152 and 0.0722 of red, green and blue, the weights of ITU-R BT.709.
/// Where red, green and blue are linear it is the luminance (y of the CIE 1931 values, IEC
/// 61966-2-1). Where they are encoded by the sRGB curve it is the luma.
///
/// # Examples
///
/// ```rust
/// let stone = Gray8::new(120);
/// let value = Gray::value(stone); // 120
/// let absent = stone.alpha(); // 255, since the format has none
/// ```
#[derive(Clone, Copy, Debug, Default, PartialEq, Eq)]
pub struct Gray {}

impl Gray {
    /// Returns the gray value, or the maximum where the format has none.
    pub fn value<P>(p: P) -> P::Chan
    where
        P: Pixel<Model = Self>,
        ensures { P.Chan.number result ≡ channel P.Chan.max (P.numbers p) 0 }
    {
        p.get(0)
    }

    /// Lends the gray value. Condition: the format has it.
    pub fn value_mut<P>(p: &mut P) -> &mut P::Chan
    where
        P: Pixel<Model = Self>,
        requires { 0 < P.layout.count }
        ensures* lends { sem 𝓛 (LendsChannel P.row P.Chan.row
            P.channel_list P.with_channel_list p.entry result 0) }
        ensures now { slice_get (P.channel_list p.old) 0 ≡ Some result.now }
    {
        p.get_mut(0)
    }
}

impl ColorModel for Gray {
    ghost model = { models.Gray };

    ghost CIRCULAR = { (models.row models.Gray).hues };

    const CIRCULAR: Range<usize> = 0..0;

    ghost LINEAR = { (models.row models.Gray).colors };

    const LINEAR: Range<usize> = 0..1;

    ghost ALPHA = { (models.row models.Gray).alpha };

    const ALPHA: usize = 1;

    ghost KIND = { (models.row models.Gray).kind };

    const KIND: u8 = 1;

    ghost to_rgb = { rgb_of_gray };

    ghost of_rgb = { gray_of_rgb };

    fn into_four<P>(p: P) -> (P::Chan, P::Chan, P::Chan, P::Chan)
    where
        P: Pixel<Model = Self>,
    {
        let value = p.get(0);
        (value, value, value, p.get(1))
    }

    fn from_four<P>(red: P::Chan, green: P::Chan, blue: P::Chan, alpha: P::Chan) -> P
    where
        P: Pixel<Model = Self>,
    {
        let value = weighted_sum((2126, red), (7152, green), (722, blue), 0, 10000);
        P::from_four(value, alpha, alpha, alpha)
    }

    ghost stands = { refl };

    ghost few = { lit≤ tt };

    ghost sealed = { model_seal };
}

/// Gray of eight bits, linear.
pub type Gray8 = Pix<1, Ch8, Gray, Straight, Linear>;

/// Gray of sixteen bits, linear.
pub type Gray16 = Pix<1, Ch16, Gray, Straight, Linear>;

/// Gray and alpha of eight bits each, not premultiplied, linear.
pub type Graya8 = Pix<2, Ch8, Gray, Straight, Linear>;

/// Gray and alpha of sixteen bits each, not premultiplied, linear.
pub type Graya16 = Pix<2, Ch16, Gray, Straight, Linear>;

/// Gray and alpha of eight bits each, premultiplied and linear.
pub type Graya8p = Pix<2, Ch8, Gray, Premultiplied, Linear>;

/// Gray and alpha of sixteen bits each, premultiplied and linear.
pub type Graya16p = Pix<2, Ch16, Gray, Premultiplied, Linear>;

/// Gray of eight bits, sRGB.
pub type SGray8 = Pix<1, Ch8, Gray, Straight, Srgb>;

/// Gray and alpha of eight bits each, not premultiplied, sRGB.
pub type SGraya8 = Pix<2, Ch8, Gray, Straight, Srgb>;

/// Gray and alpha of eight bits each, premultiplied, sRGB.
pub type SGraya8p = Pix<2, Ch8, Gray, Premultiplied, Srgb>;
