//! Pixels and mattes as C lays them out. A matte with as many bits as a channel is a `u8` or a
//! `u16`, which the library reads as it is.
ghost use Rattle.std.specs.Prelude.{◌≡◌, ℕ, ◌+◌, ◌*◌, ◌≤◌, List, [], ◌∷◌, length, map, refl};
ghost use Rattle.pix_el.specs.Pixel.{channel};
ghost use Rattle.pix_el.specs.Stored.{in_pixels};
ghost use Rattle.pix_flat.specs.Format.{rgba8_numbers, rgba16_numbers, graya8_numbers};
ghost use Rattle.pix_flat.specs.Format.{widened, widened_numbers};
ghost use Rattle.pix_flat.specs.FormatLaws.{bytes_fit, words_fit};

use pix_chan::chan::{Ch8, Ch16};
use pix_color::gray::Graya8p;
use pix_el::el::Pixel;
use pix_el::rgb::{Rgba8p, Rgba16p};
use pix_el::stored::{Coverage, Stored};

/// A pixel of red, green, blue and alpha of eight bits each, premultiplied and linear.
#[repr(C)]
#[derive(Clone, Copy, Debug, PartialEq, Eq)]
pub struct PixRgba8 {
    /// Red, green, blue and alpha.
    pub channels: [u8; 4],
}

/// A pixel of red, green, blue and alpha of sixteen bits each, premultiplied and linear.
#[repr(C)]
#[derive(Clone, Copy, Debug, PartialEq, Eq)]
pub struct PixRgba16 {
    /// Red, green, blue and alpha.
    pub channels: [u16; 4],
}

/// A pixel of gray and alpha of eight bits each, premultiplied and linear.
#[repr(C)]
#[derive(Clone, Copy, Debug, PartialEq, Eq)]
pub struct PixGraya8 {
    /// Gray and alpha.
    pub channels: [u8; 2],
}

/// A pixel as C lays it out that commands can change, for a pixel `P` of the library.
pub trait FlatPixel<P: Pixel>: Stored<P> {
    /// The format has an alpha channel.
    ghost has_alpha: { P.layout.count ≡ P.layout.alpha + 1 };
}

impl PixRgba8 {
    /// Returns its channels.
    #[inline(always)]
    fn four_channels(&self) -> (Ch8, Ch8, Ch8, Ch8)
        ensures { result.0.value ∷ result.1.value ∷ result.2.value ∷ result.3.value ∷ []
            ≡ rgba8_numbers self.now }
    {
        let [red, green, blue, alpha] = self.channels;
        (
            Ch8::new(red),
            Ch8::new(green),
            Ch8::new(blue),
            Ch8::new(alpha),
        )
    }
}

impl Stored<Rgba8p> for PixRgba8 {
    ghost reads = { rgba8_numbers };

    #[inline(always)]
    fn load(&self) -> Rgba8p {
        let (red, green, blue, alpha) = self.four_channels();
        Rgba8p::with_channels([red, green, blue, alpha])
    }

    #[inline(always)]
    fn store(pixel: &Rgba8p) -> PixRgba8 {
        let channels = pixel.channels();
        PixRgba8 {
            channels: [
                u8::from(channels[0]),
                u8::from(channels[1]),
                u8::from(channels[2]),
                u8::from(channels[3]),
            ],
        }
    }

    #[inline(always)]
    fn load_channels(p: &[PixRgba8], to: &mut [Ch8]) {
        for i in 0..p.len() {
            let (red, green, blue, alpha) = p[i].four_channels();
            to[4 * i] = red;
            to[4 * i + 1] = green;
            to[4 * i + 2] = blue;
            to[4 * i + 3] = alpha;
        }
    }

    #[inline(always)]
    fn store_channels(p: &mut [PixRgba8], c: &[Ch8]) {
        for i in 0..p.len() {
            p[i].channels = [
                u8::from(c[4 * i]),
                u8::from(c[4 * i + 1]),
                u8::from(c[4 * i + 2]),
                u8::from(c[4 * i + 3]),
            ];
        }
    }

    ghost fits = { λ it. bytes_fit it.channels };
}

impl FlatPixel<Rgba8p> for PixRgba8 {
    ghost has_alpha = { refl };
}

impl PixRgba16 {
    /// Returns its channels.
    #[inline(always)]
    fn four_channels(&self) -> (Ch16, Ch16, Ch16, Ch16)
        ensures { result.0.value ∷ result.1.value ∷ result.2.value ∷ result.3.value ∷ []
            ≡ rgba16_numbers self.now }
    {
        let [red, green, blue, alpha] = self.channels;
        (
            Ch16::new(red),
            Ch16::new(green),
            Ch16::new(blue),
            Ch16::new(alpha),
        )
    }
}

impl Stored<Rgba16p> for PixRgba16 {
    ghost reads = { rgba16_numbers };

    #[inline(always)]
    fn load(&self) -> Rgba16p {
        let (red, green, blue, alpha) = self.four_channels();
        Rgba16p::with_channels([red, green, blue, alpha])
    }

    #[inline(always)]
    fn store(pixel: &Rgba16p) -> PixRgba16 {
        let channels = pixel.channels();
        PixRgba16 {
            channels: [
                u16::from(channels[0]),
                u16::from(channels[1]),
                u16::from(channels[2]),
                u16::from(channels[3]),
            ],
        }
    }

    #[inline(always)]
    fn load_channels(p: &[PixRgba16], to: &mut [Ch16]) {
        for i in 0..p.len() {
            let (red, green, blue, alpha) = p[i].four_channels();
            to[4 * i] = red;
            to[4 * i + 1] = green;
            to[4 * i + 2] = blue;
            to[4 * i + 3] = alpha;
        }
    }

    #[inline(always)]
    fn store_channels(p: &mut [PixRgba16], c: &[Ch16]) {
        for i in 0..p.len() {
            p[i].channels = [
                u16::from(c[4 * i]),
                u16::from(c[4 * i + 1]),
                u16::from(c[4 * i + 2]),
                u16::from(c[4 * i + 3]),
            ];
        }
    }

    ghost fits = { λ it. words_fit it.channels };
}

impl FlatPixel<Rgba16p> for PixRgba16 {
    ghost has_alpha = { refl };
}

impl PixGraya8 {
    /// Returns its channels.
    #[inline(always)]
    fn two_channels(&self) -> (Ch8, Ch8)
        ensures { result.0.value ∷ result.1.value ∷ [] ≡ graya8_numbers self.now }
    {
        let [value, alpha] = self.channels;
        (Ch8::new(value), Ch8::new(alpha))
    }
}

impl Stored<Graya8p> for PixGraya8 {
    ghost reads = { graya8_numbers };

    #[inline(always)]
    fn load(&self) -> Graya8p {
        let (value, alpha) = self.two_channels();
        Graya8p::with_channels([value, alpha])
    }

    #[inline(always)]
    fn store(pixel: &Graya8p) -> PixGraya8 {
        let channels = pixel.channels();
        PixGraya8 {
            channels: [u8::from(channels[0]), u8::from(channels[1])],
        }
    }

    #[inline(always)]
    fn load_channels(p: &[PixGraya8], to: &mut [Ch8]) {
        for i in 0..p.len() {
            let (value, alpha) = p[i].two_channels();
            to[2 * i] = value;
            to[2 * i + 1] = alpha;
        }
    }

    #[inline(always)]
    fn store_channels(p: &mut [PixGraya8], c: &[Ch8]) {
        for i in 0..p.len() {
            p[i].channels = [u8::from(c[2 * i]), u8::from(c[2 * i + 1])];
        }
    }

    ghost fits = { λ it. bytes_fit it.channels };
}

impl FlatPixel<Graya8p> for PixGraya8 {
    ghost has_alpha = { refl };
}

/// A matte of eight bits for pixels of sixteen. It is the fraction that its value is of 255.
#[repr(C)]
#[derive(Clone, Copy, Debug, PartialEq, Eq)]
pub struct PixMatte8 {
    /// The value, from 0 (none of a color) to 255 (all of it).
    pub value: u8,
}

impl Coverage<Ch16> for PixMatte8 {
    ghost numbers = { widened_numbers };

    #[inline(always)]
    fn coverage(&self) -> Ch16 {
        Ch16::new(257 * u16::from(self.value))
    }

    ghost fits = { λ it ch. words_fit (widened it ∷ []) ch };
}
