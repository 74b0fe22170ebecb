//! The color models by name, for formats that are known only at run time.
ghost use Rattle.std.specs.Prelude.{◌≡◌, ◌≤◌, ◌+◌, take, true};
ghost use Rattle.pix_el.specs.Color.{rgba_of, of_rgba};
ghost use Rattle.pix_el.specs.Model.{row};
ghost use Rattle.pix_bytes.specs.FourChannels.{as_list};
ghost use Rattle.pix_bytes.specs.Models.{model_of, four_of};
ghost use Rattle.pix_bytes.specs.BitmapFormats.{into_rgb, out_of_rgb};

use crate::bitmap::four_channels::FourChannels;
use pix_chan::chan::{Ch8, Ch16, Channel, Linear, Straight};
use pix_color::bgr::Bgr;
use pix_color::cmy::Cmy;
use pix_color::gray::Gray;
use pix_color::hsl::Hsl;
use pix_color::hsv::Hsv;
use pix_color::hwb::Hwb;
use pix_color::xyz::Xyz;
use pix_color::ycc::YCbCr;
use pix_el::el::{Pix, Pixel};
use pix_el::matte::Matte;
use pix_el::model::ColorModel;

/// The name of a color model.
#[derive(Clone, Copy)]
pub(crate) enum ModelName {
    /// Red, green and blue.
    Rgb,
    /// Blue, green and red.
    Bgr,
    /// Cyan, magenta and yellow.
    Cmy,
    /// A gray value.
    Gray,
    /// Hue, saturation and value.
    Hsv,
    /// Hue, saturation and lightness.
    Hsl,
    /// Hue, whiteness and blackness.
    Hwb,
    /// Luma and the blue and red differences.
    YCbCr,
    /// The tristimulus values x, y and z.
    Xyz,
    /// An alpha and no color.
    Matte,
}

impl ModelName {
    /// Returns the number that only this model has.
    #[inline(always)]
    pub(crate) fn kind(self) -> u8
        ensures { result ≡ (row (model_of self)).kind }
    {
        match self {
            ModelName::Rgb => 0,
            ModelName::Gray => 1,
            ModelName::Matte => 2,
            ModelName::Hsv => 3,
            ModelName::Hsl => 4,
            ModelName::Hwb => 5,
            ModelName::Bgr => 6,
            ModelName::Cmy => 7,
            ModelName::YCbCr => 8,
            ModelName::Xyz => 9,
        }
    }

    /// Returns whether two names are the same.
    #[inline(always)]
    pub(crate) fn is(self, other: ModelName) -> bool
        ensures { result ≡ true → self ≡ other }
    {
        self.kind() == other.kind()
    }

    /// Returns the channel number of the first color that is not a hue, and that of the alpha,
    /// which comes after the last color.
    #[inline(always)]
    pub(crate) fn places(self) -> (usize, usize)
        ensures first { result.0 ≡ (row (model_of self)).colors.start }
        ensures end { result.1 ≡ (row (model_of self)).colors.end }
        ensures alpha { result.1 ≡ (row (model_of self)).alpha }
    {
        match self {
            ModelName::Matte => (0, 0),
            ModelName::Gray => (0, 1),
            ModelName::Hsv | ModelName::Hsl | ModelName::Hwb => (1, 3),
            _ => (0, 3),
        }
    }
}

/// A channel type whose colors every model knows.
pub(crate) trait Colored: Channel {
    /// Returns red, green, blue and alpha of a pixel of the model `M`.
    fn rgba_of<M: ColorModel>(pixel: FourChannels<Self>) -> FourChannels<Self>
        ensures { as_list Self.number result ≡
            rgba_of M.to_rgb M.ALPHA Self.max (as_list Self.number pixel) };

    /// Returns the pixel of two channels of the model `M` that has this red, green, blue and alpha.
    /// Other channels are the maximum.
    ///
    /// Condition: the model has as many channels.
    fn two_of_rgba<M: ColorModel>(rgba: FourChannels<Self>) -> FourChannels<Self>
        requires { 2 ≤ M.ALPHA + 1 }
        ensures { as_list Self.number result ≡ four_of Self.max (take 2
            (of_rgba M.of_rgb Self.max (as_list Self.number rgba))) };

    /// Returns the pixel of four channels of the model `M` that has this red, green, blue and
    /// alpha. Other channels are the maximum.
    ///
    /// Condition: the model has as many channels.
    fn four_of_rgba<M: ColorModel>(rgba: FourChannels<Self>) -> FourChannels<Self>
        requires { 4 ≤ M.ALPHA + 1 }
        ensures { as_list Self.number result ≡ four_of Self.max (take 4
            (of_rgba M.of_rgb Self.max (as_list Self.number rgba))) };
}

impl Colored for Ch8 {
    #[inline(always)]
    fn rgba_of<M: ColorModel>(pixel: FourChannels<Ch8>) -> FourChannels<Ch8>
        ensures { as_list ⟦<Ch8 as Channel>⟧.number result ≡
            rgba_of M.to_rgb M.ALPHA 255 (as_list ⟦<Ch8 as Channel>⟧.number pixel) }
    {
        rgba_of::<Pix<4, Ch8, M, Straight, Linear>>(pixel)
    }

    #[inline(always)]
    fn two_of_rgba<M: ColorModel>(rgba: FourChannels<Ch8>) -> FourChannels<Ch8>
        requires { 2 ≤ M.ALPHA + 1 }
        ensures { as_list ⟦<Ch8 as Channel>⟧.number result ≡ four_of 255 (take 2
            (of_rgba M.of_rgb 255 (as_list ⟦<Ch8 as Channel>⟧.number rgba))) }
    {
        of_rgba::<Pix<2, Ch8, M, Straight, Linear>>(rgba)
    }

    #[inline(always)]
    fn four_of_rgba<M: ColorModel>(rgba: FourChannels<Ch8>) -> FourChannels<Ch8>
        requires { 4 ≤ M.ALPHA + 1 }
        ensures { as_list ⟦<Ch8 as Channel>⟧.number result ≡ four_of 255 (take 4
            (of_rgba M.of_rgb 255 (as_list ⟦<Ch8 as Channel>⟧.number rgba))) }
    {
        of_rgba::<Pix<4, Ch8, M, Straight, Linear>>(rgba)
    }
}

impl Colored for Ch16 {
    #[inline(always)]
    fn rgba_of<M: ColorModel>(pixel: FourChannels<Ch16>) -> FourChannels<Ch16>
        ensures { as_list ⟦<Ch16 as Channel>⟧.number result ≡
            rgba_of M.to_rgb M.ALPHA 65535 (as_list ⟦<Ch16 as Channel>⟧.number pixel) }
    {
        rgba_of::<Pix<4, Ch16, M, Straight, Linear>>(pixel)
    }

    #[inline(always)]
    fn two_of_rgba<M: ColorModel>(rgba: FourChannels<Ch16>) -> FourChannels<Ch16>
        requires { 2 ≤ M.ALPHA + 1 }
        ensures { as_list ⟦<Ch16 as Channel>⟧.number result ≡ four_of 65535 (take 2
            (of_rgba M.of_rgb 65535 (as_list ⟦<Ch16 as Channel>⟧.number rgba))) }
    {
        of_rgba::<Pix<2, Ch16, M, Straight, Linear>>(rgba)
    }

    #[inline(always)]
    fn four_of_rgba<M: ColorModel>(rgba: FourChannels<Ch16>) -> FourChannels<Ch16>
        requires { 4 ≤ M.ALPHA + 1 }
        ensures { as_list ⟦<Ch16 as Channel>⟧.number result ≡ four_of 65535 (take 4
            (of_rgba M.of_rgb 65535 (as_list ⟦<Ch16 as Channel>⟧.number rgba))) }
    {
        of_rgba::<Pix<4, Ch16, M, Straight, Linear>>(rgba)
    }
}

/// Returns red, green, blue and alpha of a pixel of the model.
#[inline(always)]
pub(crate) fn into_rgb<C: Colored>(model: ModelName, pixel: FourChannels<C>) -> FourChannels<C>
    ensures { as_list C.number result ≡ rgba_of (into_rgb (model_of model))
        (row (model_of model)).alpha C.max (as_list C.number pixel) }
{
    match model {
        ModelName::Rgb => pixel,
        ModelName::Bgr => C::rgba_of::<Bgr>(pixel),
        ModelName::Cmy => C::rgba_of::<Cmy>(pixel),
        ModelName::Gray => C::rgba_of::<Gray>(pixel),
        ModelName::Hsv => C::rgba_of::<Hsv>(pixel),
        ModelName::Hsl => C::rgba_of::<Hsl>(pixel),
        ModelName::Hwb => C::rgba_of::<Hwb>(pixel),
        ModelName::YCbCr => C::rgba_of::<YCbCr>(pixel),
        ModelName::Xyz => C::rgba_of::<Xyz>(pixel),
        ModelName::Matte => C::rgba_of::<Matte>(pixel),
    }
}

/// Returns the pixel of the model that has this red, green, blue and alpha; a channel that the
/// model lacks is the maximum.
#[inline(always)]
pub(crate) fn out_of_rgb<C: Colored>(model: ModelName, rgba: FourChannels<C>) -> FourChannels<C>
    ensures { as_list C.number result ≡ four_of C.max
        (of_rgba (out_of_rgb (model_of model)) C.max (as_list C.number rgba)) }
{
    match model {
        ModelName::Rgb => rgba,
        ModelName::Bgr => C::four_of_rgba::<Bgr>(rgba),
        ModelName::Cmy => C::four_of_rgba::<Cmy>(rgba),
        ModelName::Gray => C::two_of_rgba::<Gray>(rgba),
        ModelName::Hsv => C::four_of_rgba::<Hsv>(rgba),
        ModelName::Hsl => C::four_of_rgba::<Hsl>(rgba),
        ModelName::Hwb => C::four_of_rgba::<Hwb>(rgba),
        ModelName::YCbCr => C::four_of_rgba::<YCbCr>(rgba),
        ModelName::Xyz => C::four_of_rgba::<Xyz>(rgba),
        ModelName::Matte => FourChannels {
            one: rgba.four,
            two: C::MAX,
            three: C::MAX,
            four: C::MAX,
        },
    }
}

/// Returns red, green, blue and alpha of a pixel of the format `P`.
fn rgba_of<P: Pixel>(pixel: FourChannels<P::Chan>) -> FourChannels<P::Chan>
    requires { P.layout.count ≡ 4 }
    ensures { as_list P.Chan.number result ≡
        rgba_of P.Model.to_rgb P.Model.ALPHA P.Chan.max (as_list P.Chan.number pixel) }
{
    let pixel = P::from_four(pixel.one, pixel.two, pixel.three, pixel.four);
    let (one, two, three, four) = <P::Model as ColorModel>::into_four::<P>(pixel);
    FourChannels {
        one,
        two,
        three,
        four,
    }
}

/// Returns the pixel of the format `P` that has this red, green, blue and alpha; a channel that it
/// lacks is the maximum.
///
/// Condition: the format has no more channels than its model.
fn of_rgba<P: Pixel>(rgba: FourChannels<P::Chan>) -> FourChannels<P::Chan>
    requires { P.layout.count ≤ P.Model.ALPHA + 1 }
    ensures { as_list P.Chan.number result ≡ four_of P.Chan.max (take P.layout.count
        (of_rgba P.Model.of_rgb P.Chan.max (as_list P.Chan.number rgba))) }
{
    let pixel = <P::Model as ColorModel>::from_four::<P>(rgba.one, rgba.two, rgba.three, rgba.four);
    FourChannels {
        one: pixel.get(0),
        two: pixel.get(1),
        three: pixel.get(2),
        four: pixel.get(3),
    }
}
