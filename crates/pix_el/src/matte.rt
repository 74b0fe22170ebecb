//! Mattes: coverage masks, the fraction of a color that is composited at each pixel.
ghost use Rattle.std.specs.Prelude.{ℕ, refl};
ghost use Rattle.std.proofs.Common.{lit≤};
ghost use Rattle.pix_el.specs.Model as models;
ghost use Rattle.pix_el.specs.Color.{rgb_of_matte, matte_of_rgb};
ghost use Rattle.pix_el.specs.ModelSeal.{model_seal};

use crate::el::{Pix, Pixel};
use crate::model::ColorModel;
use pix_chan::chan::{Ch8, Ch16, Channel, Linear, Premultiplied};
use std::ops::Range;

/// The model of a matte: an alpha and no color.
///
/// # Examples
///
/// ```rust
/// let half = Rgba8::new(200, 160, 90, 128);
/// let matte = half.convert::<Matte8>(); // 128, the alpha alone
/// let value = matte.alpha(); // 128
/// ```
#[derive(Clone, Copy, Debug, Default, PartialEq, Eq)]
pub struct Matte {}

impl ColorModel for Matte {
    ghost model = { models.Matte };

    ghost CIRCULAR = { (models.row models.Matte).hues };

    const CIRCULAR: Range<usize> = 0..0;

    ghost LINEAR = { (models.row models.Matte).colors };

    const LINEAR: Range<usize> = 0..0;

    ghost ALPHA = { (models.row models.Matte).alpha };

    const ALPHA: usize = 0;

    ghost KIND = { (models.row models.Matte).kind };

    const KIND: u8 = 2;

    ghost to_rgb = { rgb_of_matte };

    ghost of_rgb = { matte_of_rgb };

    fn into_four<P>(p: P) -> (P::Chan, P::Chan, P::Chan, P::Chan)
    where
        P: Pixel<Model = Self>,
    {
        let max = <P::Chan as Channel>::MAX;
        (max, max, max, p.get(0))
    }

    fn from_four<P>(red: P::Chan, green: P::Chan, blue: P::Chan, alpha: P::Chan) -> P
    where
        P: Pixel<Model = Self>,
    {
        P::from_four(alpha, alpha, alpha, alpha)
    }

    ghost stands = { refl };

    ghost few = { lit≤ tt };

    ghost sealed = { model_seal };
}

/// A matte value of eight bits.
pub type Matte8 = Pix<1, Ch8, Matte, Premultiplied, Linear>;

/// A matte value of sixteen bits.
pub type Matte16 = Pix<1, Ch16, Matte, Premultiplied, Linear>;
