//! What a color needs.
ghost use Rattle.std.specs.Prelude.{◌≡◌, ℕ, List, slice_index};
ghost use Rattle.pix_table.specs.matching.Nearest.{numbers, alpha_of};
ghost use Rattle.pix_table.specs.SrgbColor.{srgb_numbers, srgba_numbers};

use pix_el::el::Pixel;
use pix_el::rgb::{SRgb8, SRgba8};

/// Red, green and blue, of eight bits each.
#[repr(C)]
#[derive(Clone, Copy, Debug, Default, PartialEq, Eq)]
pub struct Color {
    /// The red channel.
    pub red: u8,
    /// The green channel.
    pub green: u8,
    /// The blue channel.
    pub blue: u8,
}

/// Returns the number of a channel: 0 is red, 1 green, 2 blue.
#[inline(always)]
pub(crate) fn channel(clr: Color, channel: usize) -> u8
    ensures { result ≡ slice_index (numbers clr) channel }
{
    match channel {
        0 => clr.red,
        1 => clr.green,
        2 => clr.blue,
        _ => 0,
    }
}

/// A type of color that a table may have.
pub trait TableColor: Copy {
    /// The numbers of red, green and blue.
    ghost channels: { Self → List ℕ };

    /// Returns the color.
    fn color(self) -> Color
        ensures { numbers result ≡ Self.channels self };
}

impl TableColor for Color {
    ghost channels = { numbers };

    fn color(self) -> Color {
        self
    }
}

impl TableColor for SRgb8 {
    ghost channels = { srgb_numbers };

    fn color(self) -> Color {
        let channels = self.channels();
        Color {
            red: u8::from(channels[0]),
            green: u8::from(channels[1]),
            blue: u8::from(channels[2]),
        }
    }
}

/// A pixel of red, green and blue, and an alpha if it has one.
pub trait TablePixel: Copy {
    /// The numbers of the pixel: red, green, blue, and the alpha.
    ghost values: { Self → List ℕ };

    /// Returns its color, which is not multiplied by the alpha.
    fn rgb(self) -> Color
        ensures red { result.red ≡ slice_index (values self) 0 }
        ensures green { result.green ≡ slice_index (values self) 1 }
        ensures blue { result.blue ≡ slice_index (values self) 2 };

    /// Returns its alpha, or 255 where it has none.
    fn alpha(self) -> u8
        ensures { result ≡ alpha_of (values self) };
}

impl TablePixel for Color {
    ghost values = { numbers };

    fn rgb(self) -> Color {
        self
    }

    fn alpha(self) -> u8 {
        255
    }
}

impl TablePixel for SRgba8 {
    ghost values = { srgba_numbers };

    fn rgb(self) -> Color {
        let channels = self.channels();
        Color {
            red: u8::from(channels[0]),
            green: u8::from(channels[1]),
            blue: u8::from(channels[2]),
        }
    }

    fn alpha(self) -> u8 {
        let channels = self.channels();
        u8::from(channels[3])
    }
}
