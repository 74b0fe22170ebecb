//! What comes back from linear light.
ghost use Rattle.std.specs.Prelude.{◌≡◌, ◌≤◌, ◌<◌, ◌+◌, ◌*◌, ℕ};
ghost use Rattle.std.specs.Prelude.{[], length, map, All, IfOk, IfErr};
ghost use Rattle.pix.specs.Image.{point, region_of};
ghost use Rattle.pix.specs.Run.{effects_at};
ghost use Rattle.pix_raster.specs.declared.fault.RasterFault.{RasterFault};
ghost use Rattle.pix_uses.specs.Light.{IsSeenOrClear};

use pix::chan::{Alpha, Ch8, Ch16, Linear, Premultiplied, Srgb, Straight};
use pix::el::{Pix, Pixel};
use pix::light::Light;
use pix::matte::Matte16;
use pix::{ColorModel, Command, Raster, RasterFault};
use std::alloc::Global;

/// Decodes an sRGB pixel of 8 bits into light of 16 bits in the same alpha mode, and encodes it
/// again: it stays as it is.
///
/// Condition: the format of light has all of its channels, and no more than the model.
pub fn light_and_back<const N: usize, const K: usize, M: ColorModel, A: Alpha>(
    p: Pix<N, Ch8, M, A, Srgb>,
) -> Pix<N, Ch8, M, A, Srgb>
    requires more { N ≤ K }
    requires few { K ≤ M.ALPHA + 1 }
    ensures { result ≡ p }
{
    p.decode_srgb::<Pix<K, Ch16, M, A, Linear>>()
        .encode_srgb::<Pix<N, Ch8, M, A, Srgb>>()
}

/// Decodes a straight sRGB pixel of 8 bits into premultiplied light of 16 bits, and encodes it
/// again: it stays as it is.
///
/// Condition: its alpha is 13 or more, or all of its channels are 0; the format of light has all of
/// its channels, and no more than the model.
pub fn premultiplied_light_and_back<const N: usize, const K: usize, M: ColorModel>(
    p: Pix<N, Ch8, M, Straight, Srgb>,
) -> Pix<N, Ch8, M, Straight, Srgb>
    requires more { N ≤ K }
    requires few { K ≤ M.ALPHA + 1 }
    requires seen { IsSeenOrClear M.ALPHA (map (λ c. c.value) p.channels) }
    ensures { result ≡ p }
{
    p.decode_srgb::<Pix<K, Ch16, M, Premultiplied, Linear>>()
        .encode_srgb::<Pix<N, Ch8, M, Straight, Srgb>>()
}

/// Decodes a straight sRGB photograph of 8 bits into premultiplied light of 16 bits, draws a list
/// of commands there, and encodes the result. A point that no command reaches is as it was in the
/// photograph, if the alpha there is 13 or more or all channels are 0.
///
/// Condition: the format of light has all channels of the model, and the photograph's format has no
/// more.
pub fn drawn_in_light<const N: usize, const K: usize, M: ColorModel>(
    alloc: Global,
    photo: &Raster<Pix<N, Ch8, M, Straight, Srgb>>,
    commands: &[Command<'_, Pix<K, Ch16, M, Premultiplied, Linear>, Matte16>],
) -> Result<Raster<Pix<N, Ch8, M, Straight, Srgb>>, RasterFault>
    requires more { N ≤ K }
    requires all { K ≡ M.ALPHA + 1 }
    ensures size { IfOk result (λ shown. (shown.width ≡ photo.now.width)
        × (shown.height ≡ photo.now.height)) }
    ensures unpainted { IfOk result (λ shown. (x y : ℕ)
        → x < photo.now.width → y < photo.now.height
        → effects_at (λ p. map (λ c. c.value) p.channels) (λ m. map (λ c. c.value) m.channels)
        (region_of photo.now) commands.now x y ≡ []
        → IsSeenOrClear M.ALPHA (point (λ p. map (λ c. c.value) p.channels) photo.now x y)
        → point (λ p. map (λ c. c.value) p.channels) shown x y
        ≡ point (λ p. map (λ c. c.value) p.channels) photo.now x y) }
    ensures memory { IfErr result (λ fault. fault ≡ RasterFault.Memory) }
{
    count_channels(photo.pixels());
    let mut light = photo.decode_srgb::<Pix<K, Ch16, M, Premultiplied, Linear>>(alloc)?;
    light.run(commands);
    count_points(&light);
    light.encode_srgb::<Pix<N, Ch8, M, Straight, Srgb>>(alloc)
}

/// Looks at each pixel, and does no more. It tells the theorem how many channels a pixel has.
fn count_channels<const N: usize, M: ColorModel>(pixels: &[Pix<N, Ch8, M, Straight, Srgb>])
    ensures { All (λ w. length w ≡ N) (map (λ p. map (λ c. c.value) p.channels) pixels.now) }
{
    for i in 0..pixels.len() {
        count_channels_of(pixels[i]);
    }
}

/// Takes a pixel, and does no more.
fn count_channels_of<const N: usize, M: ColorModel>(_p: Pix<N, Ch8, M, Straight, Srgb>)
    ensures { length (map (λ c. c.value) _p.channels) ≡ N }
{}

/// Looks at a picture, and does no more. It tells the theorem that the picture has a pixel for each
/// point.
fn count_points<P: Pixel>(picture: &Raster<P>)
    ensures { length picture.now.pixels ≡ picture.now.height * picture.now.width }
{
    let _pixels = picture.pixels();
}
