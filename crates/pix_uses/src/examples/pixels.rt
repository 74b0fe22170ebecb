//! Pixels and slices of them.
ghost use Rattle.std.specs.Prelude.{◌≡◌};

use pix::chan::{Ch8, Ch16, Channel};
use pix::el::Pixel;
use pix::gray::Graya8p;
use pix::light::Light;
use pix::matte::Matte8;
use pix::ops::SrcOver;
use pix::rgb::{Rgb, Rgb8, Rgba8p, Rgba16p, SRgb8, SRgba8};

/// Makes pixels from numbers and from channels.
pub fn made() -> (Rgba8p, Rgba16p, Rgb8) {
    let glass = Rgba8p::new(0, 0, 64, 64); // red, green, blue and alpha
    let white = Rgba16p::with_channels([Ch16::new(65535); 4]);
    let blue = Rgb8::from_channels(glass.channels()); // its first three channels
    (glass, white, blue)
}

/// Reads channels of a pixel.
pub fn read() -> (Ch8, Ch8, Ch8)
    ensures green { result.0.value ≡ 20 }
    ensures alpha { result.1.value ≡ 40 }
    ensures absent { result.2.value ≡ 255 }
{
    let color = Rgba8p::new(10, 20, 30, 40);
    let green = color.get(1); // 20
    let alpha = color.alpha(); // 40
    let absent = Rgb8::new(10, 20, 30).alpha(); // 255, since the format has none
    (green, alpha, absent)
}

/// Writes channels of a pixel.
pub fn written() -> Rgba8p {
    let mut color = Rgba8p::new(10, 20, 30, 40);
    *color.get_mut(1) = Ch8::new(30);
    *color.alpha_mut() = Ch8::MAX;
    *Rgb::red_mut(&mut color) = Rgb::blue(color); // (30, 30, 30, 255)
    color
}

/// Compares two colors channel by channel.
pub fn compared() -> bool {
    let (sand, stone) = (Rgb8::new(200, 160, 90), Rgb8::new(190, 165, 90));
    let apart = Rgb::difference(sand, stone); // (10, 5, 0)
    let near = Rgb::within_threshold(apart, Rgb8::new(16, 16, 16)); // true
    near
}

/// Converts a pixel, and a row of them.
pub fn converted() -> (Rgba8p, Rgba16p, [Rgba8p; 2]) {
    let photo = [SRgb8::new::<u8>(188, 0, 0), SRgb8::new::<u8>(0, 188, 0)];
    let light = photo[0].convert::<Rgba8p>(); // (128, 0, 0, 255)
    let fine = Rgba16p::from_bit_depth(light); // (32896, 0, 0, 65535)
    let mut row = [Rgba8p::default(); 2];
    SRgb8::convert_slice::<Rgba8p>(&mut row, &photo);
    (light, fine, row)
}

/// Takes an sRGB pixel into linear light of 16 bits and back, and a row of them.
pub fn lit() -> (Rgba16p, SRgba8, [SRgba8; 2]) {
    let photo = [
        SRgba8::new::<u8>(188, 0, 0, 255),
        SRgba8::new::<u8>(0, 188, 0, 128),
    ];
    let light = photo[0].decode_srgb::<Rgba16p>(); // (32957, 0, 0, 65535)
    let shown = light.encode_srgb::<SRgba8>(); // (188, 0, 0, 255)
    let (mut row, mut back) = ([Rgba16p::default(); 2], [SRgba8::default(); 2]);
    SRgba8::decode_srgb_slice::<Rgba16p>(&mut row, &photo);
    Rgba16p::encode_srgb_slice::<SRgba8>(&mut back, &row); // the photo as it was
    (light, shown, back)
}

/// Composites a pixel with another.
pub fn over() -> Graya8p {
    let mut paper = Graya8p::new(255, 255);
    let ink = Graya8p::new(0, 128);
    paper.composite_channels(&ink, SrcOver); // (127, 255)
    paper.composite_channels_alpha(&ink, SrcOver, &Ch8::new(64)); // through a quarter
    paper
}

/// Copies and composites the pixels of a row.
pub fn row() -> [Rgba8p; 4] {
    let (ink, glass) = (Rgba8p::new(0, 0, 0, 255), Rgba8p::new(0, 0, 64, 64));
    let mut row = [Rgba8p::default(); 4];
    Rgba8p::copy_color(&mut row, &ink);
    Rgba8p::composite_color(&mut row, &glass, SrcOver);
    let sprite = [glass; 3];
    Rgba8p::copy_slice(&mut row, &sprite); // the first three pixels
    Rgba8p::composite_slice(&mut row, &sprite, SrcOver);
    row
}

/// Composites a color through the mattes of a row.
pub fn masked() -> [Rgba8p; 4] {
    let ink = Rgba8p::new(0, 0, 0, 255);
    let (mut row, masks) = ([Rgba8p::default(); 4], [Matte8::new(128); 4]);
    Rgba8p::composite_matte(&mut row, &masks, &ink, SrcOver); // (0, 0, 0, 128) four times
    row
}
