//! Conversions that lose nothing.
ghost use Rattle.std.specs.Prelude.{◌≡◌, ◌≤◌, ◌+◌, map};
ghost use Rattle.pix_el.specs.Pixel.{channel};
ghost use Rattle.pix_el.specs.Premultiplied.{IsPremultiplied};

use pix::ColorModel;
use pix::bgr::Bgr;
use pix::chan::{Alpha, Ch16, Channel, Gamma, Linear, Premultiplied, Straight};
use pix::cmy::Cmy;
use pix::el::{Pix, Pixel};
use pix::gray::Gray;
use pix::rgb::Rgb;

/// Converts a pixel to the format that it has: it stays as it is.
///
/// Condition: the format has no more channels than its model.
pub fn to_its_own<const N: usize, C: Channel, M: ColorModel, A: Alpha, G: Gamma<C>>(
    p: Pix<N, C, M, A, G>,
) -> Pix<N, C, M, A, G>
    requires few { N ≤ M.ALPHA + 1 }
    ensures { result ≡ p }
{
    p.convert::<Pix<N, C, M, A, G>>()
}

/// Converts a pixel to sixteen bits and back, which loses nothing.
///
/// Condition: the format has no more channels than its model.
pub fn to_sixteen_bits_and_back<const N: usize, C, M: ColorModel, A: Alpha>(
    p: Pix<N, C, M, A, Linear>,
) -> Pix<N, C, M, A, Linear>
where
    C: Channel + From<Ch16>,
    Ch16: From<C>,
    requires few { N ≤ M.ALPHA + 1 }
    ensures { result ≡ p }
{
    p.convert::<Pix<N, Ch16, M, A, Linear>>()
        .convert::<Pix<N, C, M, A, Linear>>()
}

/// Converts red, green and blue to blue, green and red and back, which loses nothing.
///
/// Condition: the format has three or four channels.
pub fn to_bgr_and_back<const N: usize, C: Channel, A: Alpha, G: Gamma<C>>(
    p: Pix<N, C, Rgb, A, G>,
) -> Pix<N, C, Rgb, A, G>
    requires colors { 3 ≤ N }
    requires few { N ≤ 4 }
    ensures { result ≡ p }
{
    p.convert::<Pix<N, C, Bgr, A, G>>()
        .convert::<Pix<N, C, Rgb, A, G>>()
}

/// Converts red, green and blue to cyan, magenta and yellow and back, which loses nothing.
///
/// Condition: the format has three or four channels.
pub fn to_cmy_and_back<const N: usize, C: Channel, A: Alpha, G: Gamma<C>>(
    p: Pix<N, C, Rgb, A, G>,
) -> Pix<N, C, Rgb, A, G>
    requires colors { 3 ≤ N }
    requires few { N ≤ 4 }
    ensures { result ≡ p }
{
    p.convert::<Pix<N, C, Cmy, A, G>>()
        .convert::<Pix<N, C, Rgb, A, G>>()
}

/// Converts gray to red, green, blue and alpha and back, which loses nothing. Returns the pixel in
/// between too.
///
/// Condition: the format of gray has one or two channels.
pub fn gray_to_rgb_and_back<const N: usize, C: Channel, A: Alpha, G: Gamma<C>>(
    p: Pix<N, C, Gray, A, G>,
) -> (Pix<4, C, Rgb, A, G>, Pix<N, C, Gray, A, G>)
    requires gray { 1 ≤ N }
    requires few { N ≤ 2 }
    ensures { result.1 ≡ p }
{
    let color = p.convert::<Pix<4, C, Rgb, A, G>>();
    (color, color.convert::<Pix<N, C, Gray, A, G>>())
}

/// Multiplies an opaque pixel by its alpha and divides it again, which loses nothing.
///
/// Condition: the alpha is the maximum, and the format has no more channels than its model.
pub fn opaque_to_premultiplied_and_back<const N: usize, C: Channel, M: ColorModel>(
    p: Pix<N, C, M, Straight, Linear>,
) -> Pix<N, C, M, Straight, Linear>
    requires few { N ≤ M.ALPHA + 1 }
    requires opaque { channel C.max (map C.number p.channels) M.ALPHA ≡ C.max }
    ensures { result ≡ p }
{
    p.convert::<Pix<N, C, M, Premultiplied, Linear>>()
        .convert::<Pix<N, C, M, Straight, Linear>>()
}

/// Converts a premultiplied pixel to another depth: it stays premultiplied.
///
/// Condition: the pixel is premultiplied, and that format has no more channels than its model.
pub fn still_premultiplied<P, D>(p: P) -> D
where
    P: Pixel<Alpha = Premultiplied>,
    D: Pixel<Model = P::Model, Alpha = Premultiplied, Gamma = P::Gamma>,
    D::Chan: From<P::Chan>,
    P::Gamma: Gamma<D::Chan>,
    requires few { D.layout.count ≤ D.layout.alpha + 1 }
    requires as_many { D.layout.count ≡ P.layout.count }
    requires premultiplied { IsPremultiplied P.layout (P.numbers p) }
    ensures { IsPremultiplied D.layout (D.numbers result) }
{
    p.convert::<D>()
}
