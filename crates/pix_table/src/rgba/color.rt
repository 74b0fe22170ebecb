//! Colors with an alpha, and how they are seen.
ghost use Rattle.std.specs.Prelude.{◌≡◌, ◌≤◌};
ghost use Rattle.pix_chan.specs.Product.{channel_product};
ghost use Rattle.pix_table.specs.SeenPixels.{
  AreSeen,
  over_alpha,
  rgba_numbers,
  seen,
  seen_numbers,
  straight,
};
ghost use Rattle.pix_table.specs.quantization.SeenTables.{same_seen};

use crate::color::{Color, TablePixel};
use pix_chan::chan::Ch8;

/// Red, green and blue, and an alpha by which they are not multiplied, of eight bits each.
#[repr(C)]
#[derive(Clone, Copy, Debug, Default, PartialEq, Eq)]
pub struct RgbaColor {
    /// The red channel.
    pub red: u8,
    /// The green channel.
    pub green: u8,
    /// The blue channel.
    pub blue: u8,
    /// The alpha.
    pub alpha: u8,
}

impl TablePixel for RgbaColor {
    ghost values = { rgba_numbers };

    fn rgb(self) -> Color {
        Color {
            red: self.red,
            green: self.green,
            blue: self.blue,
        }
    }

    fn alpha(self) -> u8 {
        self.alpha
    }
}

/// A pixel as it is seen over black: red, green and blue times its alpha, and the alpha.
#[repr(C)]
#[derive(Clone, Copy, Debug, Default, PartialEq, Eq)]
pub struct SeenColor {
    /// The red channel times the alpha.
    pub red: u8,
    /// The green channel times the alpha.
    pub green: u8,
    /// The blue channel times the alpha.
    pub blue: u8,
    /// The alpha.
    pub alpha: u8,
}

/// Returns whether two colors are the same.
#[inline(always)]
pub(crate) fn same(p: SeenColor, q: SeenColor) -> bool
    ensures { result ≡ same_seen (seen_numbers p) (seen_numbers q) }
{
    p.red == q.red && p.green == q.green && p.blue == q.blue && p.alpha == q.alpha
}

/// Returns how a pixel is seen.
#[inline(always)]
pub(crate) fn seen_of<P: TablePixel>(pixel: P) -> SeenColor
    ensures numbers { seen_numbers result ≡ seen (P.values pixel) }
    ensures seen { AreSeen (seen_numbers result) }
{
    let color = pixel.rgb();
    let alpha = pixel.alpha();
    SeenColor {
        red: product(color.red, alpha),
        green: product(color.green, alpha),
        blue: product(color.blue, alpha),
        alpha,
    }
}

/// Returns the product of a channel and an alpha, rounded to the nearest.
#[inline(always)]
fn product(number: u8, alpha: u8) -> u8
    ensures product { result ≡ channel_product 255 number alpha }
    ensures few { result ≤ alpha }
{
    u8::from(Ch8::new(number) * Ch8::new(alpha))
}

/// Returns the color that is seen as `color`, not multiplied by its alpha.
pub(crate) fn straight(color: SeenColor) -> RgbaColor
    requires { AreSeen (seen_numbers color) }
    ensures { rgba_numbers result ≡ straight (seen_numbers color) }
{
    RgbaColor {
        red: over_alpha(color.red, color.alpha),
        green: over_alpha(color.green, color.alpha),
        blue: over_alpha(color.blue, color.alpha),
        alpha: color.alpha,
    }
}

/// Returns a channel that is divided by an alpha no less than it, rounded to the nearest, ties up.
pub(crate) fn over_alpha(number: u8, alpha: u8) -> u8
    requires { number ≤ alpha }
    ensures { result ≡ over_alpha number alpha }
{
    if alpha == 0 {
        return 0;
    }
    let ratio = (510 * u32::from(number) + u32::from(alpha)) / (2 * u32::from(alpha));
    ratio as u8
}
