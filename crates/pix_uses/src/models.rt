//! Colors of one model in another.
ghost use Rattle.std.specs.Prelude.{◌≡◌, ◌≤◌, ◌+◌, map, take};
ghost use Rattle.pix_el.specs.Color.{rgba_of, of_rgba, rgb_itself};
ghost use Rattle.pix_el.specs.Pixel.{channel};
ghost use Rattle.pix_color.specs.Gray.{gray_of_rgb};

use pix::ColorModel;
use pix::chan::Ch8;
use pix::gray::{Gray, Gray8};
use pix::rgb::{Rgb, Rgb8};

/// Returns the red channel of a color.
pub fn red_of(color: Rgb8) -> Ch8
    ensures { result.value ≡ channel 255 (map (λ c. c.value) color.channels) 0 }
{
    Rgb::red(color)
}

/// Returns the luminance of a color.
pub fn luminance(color: Rgb8) -> Gray8
    ensures { map (λ c. c.value) result.channels ≡ take 1 (of_rgba gray_of_rgb 255
        (rgba_of rgb_itself 3 255 (map (λ c. c.value) color.channels))) }
{
    Gray::from_rgba(Rgb::into_rgba(color))
}
