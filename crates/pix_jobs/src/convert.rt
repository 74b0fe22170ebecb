//! Pictures in another format: what viewers, readers and writers of files do.
ghost use Rattle.std.specs.Prelude.{◌≤◌, ◌+◌};

use crate::digest::Digest;
use crate::pictures::{self, Shade, Veil};
use crate::random::Random;
use crate::size::Size;
use pix::bgr::Bgr;
use pix::chan::{Alpha, Ch8, Ch16, Gamma, Linear, Premultiplied, Srgb, Straight};
use pix::cmy::Cmy;
use pix::el::{Pix, Pixel};
use pix::gray::Gray;
use pix::hsl::Hsl;
use pix::hsv::Hsv;
use pix::hwb::Hwb;
use pix::xyz::Xyz;
use pix::ycc::YCbCr;
use pix::{ColorModel, Raster};
use std::alloc::Global;

/// A pixel of three linear colors of 8 bits.
type Plain<M> = Pix<3, Ch8, M, Straight, Linear>;

/// A pixel of three linear colors of 16 bits.
type Fine<M> = Pix<3, Ch16, M, Straight, Linear>;

/// Does the job.
///
/// Condition: the model has three colors.
pub(crate) fn run<M: ColorModel>(
    alloc: Global,
    size: Size,
    random: &mut Random,
    digest: &mut Digest,
) -> Option<()>
    requires three { 3 ≤ M.ALPHA + 1 }
    requires four { 4 ≤ M.ALPHA + 1 }
{
    for _ in 0..3 {
        let photo = pictures::large_photo::<M>(alloc, size.of(1920), size.of(1080), random)?;
        picture(alloc, &photo, random, digest)?;
    }
    for _ in 0..size.of(32) {
        let photo = pictures::photo::<M>(alloc, 200, 150, random)?;
        picture(alloc, &photo, random, digest)?;
    }
    Some(())
}

/// Converts a picture to other formats and back.
///
/// Condition: the model has three colors.
fn picture<M: ColorModel>(
    alloc: Global,
    photo: &Raster<Shade<M>>,
    random: &mut Random,
    digest: &mut Digest,
) -> Option<()>
    requires three { 3 ≤ M.ALPHA + 1 }
    requires four { 4 ≤ M.ALPHA + 1 }
{
    let linear = eight::<3, M, Straight, Linear, _>(alloc, photo, digest)?;
    models(alloc, &linear, digest)?;
    eight::<1, Gray, Straight, Linear, _>(alloc, &linear, digest)?;
    eight::<3, M, Straight, Srgb, _>(alloc, &linear, digest)?;
    words(alloc, &linear, digest)?;
    let shade = pictures::with_alpha(alloc, photo, false, random)?;
    alphas(alloc, &shade, digest)
}

/// Converts a picture to the format of eight bits of these parts, and adds its channels.
///
/// Condition: the format has no more channels than its model.
fn eight<const N: usize, M, A, G, S>(
    alloc: Global,
    src: &Raster<S>,
    digest: &mut Digest,
) -> Option<Raster<Pix<N, Ch8, M, A, G>>>
where
    M: ColorModel,
    A: Alpha,
    G: Gamma<Ch8>,
    S: Pixel,
    Ch8: From<S::Chan>,
    S::Gamma: Gamma<Ch8>,
    requires few { N ≤ M.ALPHA + 1 }
{
    let made = Raster::with_raster(alloc, src).ok()?;
    digest.add_raster(alloc, &made)?;
    Some(made)
}

/// Converts a picture to the linear format of sixteen bits of these parts, and adds its channels.
///
/// Condition: the format has no more channels than its model.
fn sixteen<const N: usize, M, A, S>(
    alloc: Global,
    src: &Raster<S>,
    digest: &mut Digest,
) -> Option<Raster<Pix<N, Ch16, M, A, Linear>>>
where
    M: ColorModel,
    A: Alpha,
    S: Pixel,
    Ch16: From<S::Chan>,
    S::Gamma: Gamma<Ch16>,
    requires few { N ≤ M.ALPHA + 1 }
{
    let made = Raster::with_raster(alloc, src).ok()?;
    digest.add_wide_raster(&made);
    Some(made)
}

/// Converts a picture to other color models and back.
///
/// Condition: the model has three colors.
fn models<M: ColorModel>(
    alloc: Global,
    linear: &Raster<Plain<M>>,
    digest: &mut Digest,
) -> Option<()>
    requires three { 3 ≤ M.ALPHA + 1 }
{
    through::<Hsv, M>(alloc, linear, digest)?;
    through::<Hsl, M>(alloc, linear, digest)?;
    through::<Hwb, M>(alloc, linear, digest)?;
    through::<YCbCr, M>(alloc, linear, digest)?;
    through::<Xyz, M>(alloc, linear, digest)?;
    through::<Cmy, M>(alloc, linear, digest)
}

/// Converts a picture to the color model `T` and back.
///
/// Condition: both models have three colors.
fn through<T: ColorModel, M: ColorModel>(
    alloc: Global,
    linear: &Raster<Plain<M>>,
    digest: &mut Digest,
) -> Option<()>
    requires other { 3 ≤ T.ALPHA + 1 }
    requires three { 3 ≤ M.ALPHA + 1 }
{
    let made = eight::<3, T, Straight, Linear, _>(alloc, linear, digest)?;
    eight::<3, M, Straight, Linear, _>(alloc, &made, digest)?;
    Some(())
}

/// Converts a picture to 16 bits and back, by way of a buffer of words, and there to another color
/// model.
///
/// Condition: the model has three colors.
fn words<M: ColorModel>(alloc: Global, linear: &Raster<Plain<M>>, digest: &mut Digest) -> Option<()>
    requires three { 3 ≤ M.ALPHA + 1 }
{
    let fine = Raster::<Fine<M>>::with_raster(alloc, linear).ok()?;
    let (width, height) = (fine.width(), fine.height());
    let Ok(words) = fine.into_u16_vec(alloc) else {
        return None;
    };
    let fine = Raster::<Fine<M>>::with_u16_buffer(alloc, width, height, words).ok()?;
    digest.add_wide_raster(&fine);
    let hues = sixteen::<3, Hsv, Straight, _>(alloc, &fine, digest)?;
    eight::<3, M, Straight, Linear, _>(alloc, &hues, digest)?;
    eight::<3, M, Straight, Linear, _>(alloc, &fine, digest)?;
    Some(())
}

/// Converts a picture with an alpha to premultiplied pixels and back, of 8 and of 16 bits, and by
/// way of a buffer to blue first.
///
/// Condition: the model has three colors.
fn alphas<M: ColorModel>(alloc: Global, shade: &Raster<Veil<M>>, digest: &mut Digest) -> Option<()>
    requires four { 4 ≤ M.ALPHA + 1 }
{
    let (width, height) = (shade.width(), shade.height());
    let bytes = shade.to_u8_vec(alloc).ok()?;
    let straight: Raster<Pix<4, Ch8, M, Straight, Linear>> = Raster::with_u8_buffer(
        alloc, width, height, bytes,
    ).ok()?;
    let product = eight::<4, M, Premultiplied, Linear, _>(alloc, &straight, digest)?;
    eight::<4, M, Straight, Linear, _>(alloc, &product, digest)?;
    let fine = sixteen::<4, M, Premultiplied, _>(alloc, &straight, digest)?;
    let quotient = sixteen::<4, M, Straight, _>(alloc, &fine, digest)?;
    eight::<4, Bgr, Straight, Linear, _>(alloc, &quotient, digest)?;
    Some(())
}
