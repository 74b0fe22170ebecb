//! The tristimulus values x, y and z.
ghost use Rattle.std.specs.Prelude.{◌≡◌, ◌<◌, ℕ, refl, slice_get, Some};
ghost use Rattle.std.proofs.Common.{lit≤};
ghost use Rattle.std.specs.Borrow.{sem};
ghost use Rattle.pix_el.specs.Pixel.{channel, LendsChannel};
ghost use Rattle.pix_el.specs.Model as models;
ghost use Rattle.pix_color.specs.Xyz.{rgb_of_xyz, xyz_of_rgb};
ghost use Rattle.pix_el.specs.ModelSeal.{model_seal};

use crate::linear::weighted_sum;
use pix_el::chan::{Ch8, Ch16, Linear, Premultiplied, Straight};
use pix_el::el::{Pix, Pixel};
use pix_el::model::ColorModel;
use std::ops::Range;

/// The model of the tristimulus values of CIE 1931.
///
/// Linear red, green and blue have the primaries of ITU-R BT.709 at the white point D65. The
/// matrices are those of IEC 61966-2-1:1999, to four decimals. The maximum stands for 1, and a
/// greater value is cut to it: the z of white is 1.089.
///
/// # Examples
///
/// ```rust
/// let tint = Xyz8::new(144, 152, 229);
/// let luminance = Xyz::y(tint); // 152
/// let z = Xyz::z(tint); // 229
/// ```
#[derive(Clone, Copy, Debug, Default, PartialEq, Eq)]
pub struct Xyz {}

impl Xyz {
    /// Returns the x channel, or the maximum where the format has none.
    pub fn x<P>(p: P) -> P::Chan
    where
        P: Pixel<Model = Self>,
        ensures { P.Chan.number result ≡ channel P.Chan.max (P.numbers p) 0 }
    {
        p.get(0)
    }

    /// Lends the x channel. Condition: the format has it.
    pub fn x_mut<P>(p: &mut P) -> &mut P::Chan
    where
        P: Pixel<Model = Self>,
        requires { 0 < P.layout.count }
        ensures* lends { sem 𝓛 (LendsChannel P.row P.Chan.row
            P.channel_list P.with_channel_list p.entry result 0) }
        ensures now { slice_get (P.channel_list p.old) 0 ≡ Some result.now }
    {
        p.get_mut(0)
    }

    /// Returns the y channel, or the maximum where the format has none.
    pub fn y<P>(p: P) -> P::Chan
    where
        P: Pixel<Model = Self>,
        ensures { P.Chan.number result ≡ channel P.Chan.max (P.numbers p) 1 }
    {
        p.get(1)
    }

    /// Lends the y channel. Condition: the format has it.
    pub fn y_mut<P>(p: &mut P) -> &mut P::Chan
    where
        P: Pixel<Model = Self>,
        requires { 1 < P.layout.count }
        ensures* lends { sem 𝓛 (LendsChannel P.row P.Chan.row
            P.channel_list P.with_channel_list p.entry result 1) }
        ensures now { slice_get (P.channel_list p.old) 1 ≡ Some result.now }
    {
        p.get_mut(1)
    }

    /// Returns the z channel, or the maximum where the format has none.
    pub fn z<P>(p: P) -> P::Chan
    where
        P: Pixel<Model = Self>,
        ensures { P.Chan.number result ≡ channel P.Chan.max (P.numbers p) 2 }
    {
        p.get(2)
    }

    /// Lends the z channel. Condition: the format has it.
    pub fn z_mut<P>(p: &mut P) -> &mut P::Chan
    where
        P: Pixel<Model = Self>,
        requires { 2 < P.layout.count }
        ensures* lends { sem 𝓛 (LendsChannel P.row P.Chan.row
            P.channel_list P.with_channel_list p.entry result 2) }
        ensures now { slice_get (P.channel_list p.old) 2 ≡ Some result.now }
    {
        p.get_mut(2)
    }
}

impl ColorModel for Xyz {
    ghost model = { models.Xyz };

    ghost CIRCULAR = { (models.row models.Xyz).hues };

    const CIRCULAR: Range<usize> = 0..0;

    ghost LINEAR = { (models.row models.Xyz).colors };

    const LINEAR: Range<usize> = 0..3;

    ghost ALPHA = { (models.row models.Xyz).alpha };

    const ALPHA: usize = 3;

    ghost KIND = { (models.row models.Xyz).kind };

    const KIND: u8 = 9;

    ghost to_rgb = { rgb_of_xyz };

    ghost of_rgb = { xyz_of_rgb };

    fn into_four<P>(p: P) -> (P::Chan, P::Chan, P::Chan, P::Chan)
    where
        P: Pixel<Model = Self>,
    {
        let (x, y, z) = (p.get(0), p.get(1), p.get(2));
        let red = weighted_sum((32406, x), (-15372, y), (-4986, z), 0, 10000);
        let green = weighted_sum((-9689, x), (18758, y), (415, z), 0, 10000);
        let blue = weighted_sum((557, x), (-2040, y), (10570, z), 0, 10000);
        (red, green, blue, p.get(3))
    }

    fn from_four<P>(red: P::Chan, green: P::Chan, blue: P::Chan, alpha: P::Chan) -> P
    where
        P: Pixel<Model = Self>,
    {
        let x = weighted_sum((4124, red), (3576, green), (1805, blue), 0, 10000);
        let y = weighted_sum((2126, red), (7152, green), (722, blue), 0, 10000);
        let z = weighted_sum((193, red), (1192, green), (9505, blue), 0, 10000);
        P::from_four(x, y, z, alpha)
    }

    ghost stands = { refl };

    ghost few = { lit≤ tt };

    ghost sealed = { model_seal };
}

/// The tristimulus values of eight bits each, linear.
pub type Xyz8 = Pix<3, Ch8, Xyz, Straight, Linear>;

/// The tristimulus values of sixteen bits each, linear.
pub type Xyz16 = Pix<3, Ch16, Xyz, Straight, Linear>;

/// The tristimulus values and alpha of eight bits each, not premultiplied, linear.
pub type Xyza8 = Pix<4, Ch8, Xyz, Straight, Linear>;

/// The tristimulus values and alpha of sixteen bits each, not premultiplied, linear.
pub type Xyza16 = Pix<4, Ch16, Xyz, Straight, Linear>;

/// The tristimulus values and alpha of eight bits each, premultiplied and linear.
pub type Xyza8p = Pix<4, Ch8, Xyz, Premultiplied, Linear>;

/// The tristimulus values and alpha of sixteen bits each, premultiplied and linear.
pub type Xyza16p = Pix<4, Ch16, Xyz, Premultiplied, Linear>;
