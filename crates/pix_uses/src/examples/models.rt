//! Color models: their pixels, getters and conversions.
use pix::ColorModel;
use pix::bgr::{Bgr, Bgr8};
use pix::chan::Ch8;
use pix::cmy::{Cmy, Cmy8};
use pix::el::Pixel;
use pix::gray::{Gray, Gray8};
use pix::hsl::{Hsl, Hsl8};
use pix::hsv::{Hsv, Hsv8};
use pix::hue::{Hexcone, rgb_to_hue_chroma_value};
use pix::hwb::{Hwb, Hwb8};
use pix::matte::Matte8;
use pix::rgb::Rgba8;
use pix::xyz::{Xyz, Xyz8};
use pix::ycc::{YCbCr, YCbCr8};

/// Goes from a color to red, green, blue and alpha, and back.
pub fn by_rgba() -> (Rgba8, Gray8) {
    let olive = Hsv8::new(42, 255, 128);
    let rgba = Hsv::into_rgba(olive); // (128, 126, 0, 255)
    let gray = Gray::from_rgba::<Gray8>(rgba); // 117, its luminance
    (rgba, gray)
}

/// Reads the channels of colors that have a hue.
pub fn hues() -> [Ch8; 6] {
    let green = Hsv8::new(85, 255, 128);
    let hue = Hsv::hue(green); // 85, a third of the circle
    let value = Hsv::value(green); // 128

    let pale = Hsl8::new(85, 255, 192);
    let lightness = Hsl::lightness(pale); // 192
    let saturation = Hsl::saturation(pale); // 255

    let muted = Hwb8::new(85, 64, 64);
    let whiteness = Hwb::whiteness(muted); // 64
    let blackness = Hwb::blackness(muted); // 64
    [hue, value, lightness, saturation, whiteness, blackness]
}

/// Reads the channels of colors that have none.
pub fn others() -> [Ch8; 10] {
    let sky = Bgr8::new(230, 160, 90);
    let blue = Bgr::blue(sky); // 230, the first channel
    let red = Bgr::red(sky); // 90, the last one

    let print = Cmy8::new(165, 95, 25);
    let cyan = Cmy::cyan(print); // 165
    let magenta = Cmy::magenta(print); // 95

    let stone = Gray8::new(120);
    let value = Gray::value(stone); // 120
    let absent = stone.alpha(); // 255, since the format has none

    let video = YCbCr8::new(147, 175, 87);
    let luma = YCbCr::y(video); // 147
    let reddish = YCbCr::cr(video); // 87: less red than gray has, at 128

    let tint = Xyz8::new(144, 152, 229);
    let luminance = Xyz::y(tint); // 152
    let z = Xyz::z(tint); // 229
    [
        blue, red, cyan, magenta, value, absent, luma, reddish, luminance, z,
    ]
}

/// Takes the alpha of a color as a matte.
pub fn coverage() -> (Matte8, Ch8) {
    let half = Rgba8::new(200, 160, 90, 128);
    let matte = half.convert::<Matte8>(); // 128, the alpha alone
    let value = matte.alpha(); // 128
    (matte, value)
}

/// Goes round the circle of hues.
pub fn circle() -> ((Ch8, Ch8, Ch8), (Ch8, Ch8, Ch8)) {
    let part = Hexcone::from_hue(Ch8::new(85)); // Hexcone::Green, with the weight 0
    let green = part.rgb(Ch8::new(128)); // (0, 128, 0)
    let (hue, chroma, value) = rgb_to_hue_chroma_value(green.0, green.1, green.2);
    (green, (hue, chroma, value)) // 85, 128 and 128
}
