//! Color models: which channels a pixel has, and what they mean.
ghost use Rattle.std.specs.Prelude.{◌≡◌, ℕ, ◌≤◌, ◌+◌, List, [], ◌∷◌, map, take};
ghost use Rattle.std.specs.declared.ops.Range.{Range};
ghost use Rattle.pix_el.specs.Pixel.{lies_in};
ghost use Rattle.pix_el.specs.Model.{Model, row};
ghost use Rattle.pix_el.specs.ModelSeal.{ModelSeal};
ghost use Rattle.pix_el.specs.Color.{rgba_of, of_rgba};

use crate::el::{Pix, PixRgba, Pixel};
use std::fmt::Debug;
use std::ops::Range;

/// A color model: which channels a pixel has, and what they mean. This trait is sealed.
pub trait ColorModel: Clone + Copy + Debug + Default + PartialEq {
    /// The model as a row of the table of models.
    ghost model: { Model };

    /// The value of [`CIRCULAR`](ColorModel::CIRCULAR).
    ghost CIRCULAR: { Range ℕ };

    /// The channel number of the hue, if there is one.
    const CIRCULAR: Range<usize>;

    /// The value of [`LINEAR`](ColorModel::LINEAR).
    ghost LINEAR: { Range ℕ };

    /// The channel numbers of the other colors.
    const LINEAR: Range<usize>;

    /// The value of [`ALPHA`](ColorModel::ALPHA).
    ghost ALPHA: { ℕ };

    /// The channel number of the alpha.
    const ALPHA: usize;

    /// The value of [`KIND`](ColorModel::KIND).
    ghost KIND: { ℕ };

    /// A number that only this model has.
    const KIND: u8;

    /// The numbers of red, green and blue, from the maximum and the numbers of the first three
    /// channels.
    ghost to_rgb: { ℕ → ℕ → ℕ → ℕ → List ℕ };

    /// The numbers of the color channels, from the maximum and the numbers of red, green and blue.
    ghost of_rgb: { ℕ → ℕ → ℕ → ℕ → List ℕ };

    /// Returns red, green, blue and alpha of a pixel.
    #[doc(hidden)]
    fn into_four<P>(p: P) -> (P::Chan, P::Chan, P::Chan, P::Chan)
    where
        P: Pixel<Model = Self>,
        ensures { P.Chan.number result.0 ∷ P.Chan.number result.1
            ∷ P.Chan.number result.2 ∷ P.Chan.number result.3 ∷ []
            ≡ rgba_of to_rgb ALPHA P.Chan.max (P.numbers p) };

    /// Makes the pixel of red, green, blue and alpha. Condition: the format has no more channels
    /// than the model.
    #[doc(hidden)]
    fn from_four<P>(red: P::Chan, green: P::Chan, blue: P::Chan, alpha: P::Chan) -> P
    where
        P: Pixel<Model = Self>,
        requires { P.layout.count ≤ ALPHA + 1 }
        ensures { P.numbers result ≡ take P.layout.count (of_rgba of_rgb P.Chan.max
            (P.Chan.number red ∷ P.Chan.number green
            ∷ P.Chan.number blue ∷ P.Chan.number alpha ∷ [])) };

    /// Converts a pixel to red, green, blue and alpha, which is the maximum where the format has
    /// none.
    ///
    /// # Examples
    ///
    /// ```rust
    /// let olive = Hsv8::new(42, 255, 128);
    /// let rgba = Hsv::into_rgba(olive); // (128, 126, 0, 255)
    /// let gray = Gray::from_rgba::<Gray8>(rgba); // 117, its luminance
    /// ```
    final fn into_rgba<P>(p: P) -> PixRgba<P>
    where
        P: Pixel<Model = Self>,
        ensures { map P.Chan.number result.channels ≡
            rgba_of to_rgb ALPHA P.Chan.max (P.numbers p) }
    {
        let (red, green, blue, alpha) = Self::into_four(p);
        Pix::with_channels([red, green, blue, alpha])
    }

    /// Converts red, green, blue and alpha to a pixel of this model. The alpha is dropped where the
    /// format has none.
    ///
    /// Condition: the format has no more channels than the model.
    ///
    /// # Examples
    ///
    /// ```rust
    /// let olive = Hsv8::new(42, 255, 128);
    /// let rgba = Hsv::into_rgba(olive); // (128, 126, 0, 255)
    /// let gray = Gray::from_rgba::<Gray8>(rgba); // 117, its luminance
    /// ```
    final fn from_rgba<P>(rgba: PixRgba<P>) -> P
    where
        P: Pixel<Model = Self>,
        requires { P.layout.count ≤ ALPHA + 1 }
        ensures { P.numbers result ≡ take P.layout.count (of_rgba of_rgb P.Chan.max
            (map P.Chan.number rgba.channels)) }
    {
        let [red, green, blue, alpha] = rgba.channels;
        Self::from_four(red, green, blue, alpha)
    }

    /// The ranges, the channel number of the alpha and `KIND` are those of the table.
    ghost stands: { row model ≡
        record { hues = CIRCULAR; colors = LINEAR; alpha = ALPHA; kind = KIND } };

    /// A model has at most four channels.
    ghost few: { ALPHA ≤ 3 };

    /// Seals the trait.
    ghost sealed: { ModelSeal Self };
}

/// Returns whether the channel `ch` is a hue in the model `M`.
pub(crate) fn is_hue<M: ColorModel>(ch: usize) -> bool
    ensures { result ≡ lies_in M.CIRCULAR ch }
{
    let hues = M::CIRCULAR;
    hues.start <= ch && ch < hues.end
}
