//! Luma, and the color differences of blue (Cb) and red (Cr).
ghost use Rattle.std.specs.Prelude.{◌≡◌, ◌<◌, ℕ, refl, slice_get, Some};
ghost use Rattle.std.proofs.Common.{lit≤};
ghost use Rattle.std.specs.Borrow.{sem};
ghost use Rattle.pix_el.specs.Pixel.{channel, LendsChannel};
ghost use Rattle.pix_el.specs.Model as models;
ghost use Rattle.pix_color.specs.YCbCr.{rgb_of_ycc, ycc_of_rgb};
ghost use Rattle.pix_el.specs.ModelSeal.{model_seal};

use crate::linear::weighted_sum;
use pix_el::chan::{Ch8, Ch16, Linear, Premultiplied, Straight};
use pix_el::el::{Pix, Pixel};
use pix_el::model::ColorModel;
use std::ops::Range;

/// The model of luma and the blue and red color differences.
///
/// The luma is 0.299, 0.587 and 0.114 of red, green and blue, the weights of ITU-R BT.601. The
/// differences are those of ITU-T T.871 (JFIF), over the full range of a channel, and the middle
/// stands for none.
///
/// # Examples
///
/// ```rust
/// let video = YCbCr8::new(147, 175, 87);
/// let luma = YCbCr::y(video); // 147
/// let reddish = YCbCr::cr(video); // 87: less red than gray has, at 128
/// ```
#[derive(Clone, Copy, Debug, Default, PartialEq, Eq)]
pub struct YCbCr {}

impl YCbCr {
    /// Returns the luma, or the maximum where the format has none.
    pub fn y<P>(p: P) -> P::Chan
    where
        P: Pixel<Model = Self>,
        ensures { P.Chan.number result ≡ channel P.Chan.max (P.numbers p) 0 }
    {
        p.get(0)
    }

    /// Lends the luma. Condition: the format has it.
    pub fn y_mut<P>(p: &mut P) -> &mut P::Chan
    where
        P: Pixel<Model = Self>,
        requires { 0 < P.layout.count }
        ensures* lends { sem 𝓛 (LendsChannel P.row P.Chan.row
            P.channel_list P.with_channel_list p.entry result 0) }
        ensures now { slice_get (P.channel_list p.old) 0 ≡ Some result.now }
    {
        p.get_mut(0)
    }

    /// Returns the blue difference, or the maximum where the format has none.
    pub fn cb<P>(p: P) -> P::Chan
    where
        P: Pixel<Model = Self>,
        ensures { P.Chan.number result ≡ channel P.Chan.max (P.numbers p) 1 }
    {
        p.get(1)
    }

    /// Lends the blue difference. Condition: the format has it.
    pub fn cb_mut<P>(p: &mut P) -> &mut P::Chan
    where
        P: Pixel<Model = Self>,
        requires { 1 < P.layout.count }
        ensures* lends { sem 𝓛 (LendsChannel P.row P.Chan.row
            P.channel_list P.with_channel_list p.entry result 1) }
        ensures now { slice_get (P.channel_list p.old) 1 ≡ Some result.now }
    {
        p.get_mut(1)
    }

    /// Returns the red difference, or the maximum where the format has none.
    pub fn cr<P>(p: P) -> P::Chan
    where
        P: Pixel<Model = Self>,
        ensures { P.Chan.number result ≡ channel P.Chan.max (P.numbers p) 2 }
    {
        p.get(2)
    }

    /// Lends the red difference. Condition: the format has it.
    pub fn cr_mut<P>(p: &mut P) -> &mut P::Chan
    where
        P: Pixel<Model = Self>,
        requires { 2 < P.layout.count }
        ensures* lends { sem 𝓛 (LendsChannel P.row P.Chan.row
            P.channel_list P.with_channel_list p.entry result 2) }
        ensures now { slice_get (P.channel_list p.old) 2 ≡ Some result.now }
    {
        p.get_mut(2)
    }
}

impl ColorModel for YCbCr {
    ghost model = { models.YCbCr };

    ghost CIRCULAR = { (models.row models.YCbCr).hues };

    const CIRCULAR: Range<usize> = 0..0;

    ghost LINEAR = { (models.row models.YCbCr).colors };

    const LINEAR: Range<usize> = 0..3;

    ghost ALPHA = { (models.row models.YCbCr).alpha };

    const ALPHA: usize = 3;

    ghost KIND = { (models.row models.YCbCr).kind };

    const KIND: u8 = 8;

    ghost to_rgb = { rgb_of_ycc };

    ghost of_rgb = { ycc_of_rgb };

    fn into_four<P>(p: P) -> (P::Chan, P::Chan, P::Chan, P::Chan)
    where
        P: Pixel<Model = Self>,
    {
        let (y, cb, cr) = (p.get(0), p.get(1), p.get(2));
        let red = weighted_sum((1000, y), (0, cb), (1402, cr), -701, 1000);
        let green = weighted_sum(
            (1_000_000, y),
            (-344_136, cb),
            (-714_136, cr),
            529_136,
            1_000_000,
        );
        let blue = weighted_sum((1000, y), (1772, cb), (0, cr), -886, 1000);
        (red, green, blue, p.get(3))
    }

    fn from_four<P>(red: P::Chan, green: P::Chan, blue: P::Chan, alpha: P::Chan) -> P
    where
        P: Pixel<Model = Self>,
    {
        let y = weighted_sum((299, red), (587, green), (114, blue), 0, 1000);
        let cb = weighted_sum(
            (-168_736, red),
            (-331_264, green),
            (500_000, blue),
            500_000,
            1_000_000,
        );
        let cr = weighted_sum(
            (500_000, red),
            (-418_688, green),
            (-81_312, blue),
            500_000,
            1_000_000,
        );
        P::from_four(y, cb, cr, alpha)
    }

    ghost stands = { refl };

    ghost few = { lit≤ tt };

    ghost sealed = { model_seal };
}

/// Luma and the blue and red differences of eight bits each, linear.
pub type YCbCr8 = Pix<3, Ch8, YCbCr, Straight, Linear>;

/// Luma and the blue and red differences of sixteen bits each, linear.
pub type YCbCr16 = Pix<3, Ch16, YCbCr, Straight, Linear>;

/// Luma, the blue and red differences, and alpha of eight bits each, not premultiplied, linear.
pub type YCbCra8 = Pix<4, Ch8, YCbCr, Straight, Linear>;

/// Luma, the blue and red differences, and alpha of sixteen bits each, not premultiplied, linear.
pub type YCbCra16 = Pix<4, Ch16, YCbCr, Straight, Linear>;

/// Luma, the blue and red differences, and alpha of eight bits each, premultiplied and linear.
pub type YCbCra8p = Pix<4, Ch8, YCbCr, Premultiplied, Linear>;

/// Luma, the blue and red differences, and alpha of sixteen bits each, premultiplied and linear.
pub type YCbCra16p = Pix<4, Ch16, YCbCr, Premultiplied, Linear>;
