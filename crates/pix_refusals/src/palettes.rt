//! Palettes that are made, copied and counted by.
//!
//! Each function makes its own palette of [`colors`], with room for one more. A palette may hold a
//! function pointer, and the gate refuses a function that makes one and hands it out.
use pix::chan::{Ch8, Channel, Srgb, Straight};
use pix::el::{Pix, Pixel};
use pix::rgb::{Rgb, SRgb8};
use pix::{ColorModel, Palette, Raster, RasterFault};
use std::alloc::Global;

/// A pixel of three channels of sRGB.
type Color<M> = Pix<3, Ch8, M, Straight, Srgb>;

/// The color of these channels.
fn color(red: u8, green: u8, blue: u8) -> SRgb8 {
    SRgb8::new(red, green, blue)
}

/// The colors of a palette.
fn colors() -> [SRgb8; 2] {
    [color(1, 2, 3), color(200, 100, 50)]
}

/// Whether the palette has just these colors.
fn is_whole(palette: &Palette) -> bool {
    palette.colors() == colors().as_slice()
}

pub(crate) fn new(alloc: Global) -> bool {
    match Palette::new(alloc, 3) {
        Ok(mut palette) => {
            for clr in colors() {
                palette.set_entry(clr);
            }
            is_whole(&palette)
        }
        Err(fault) => fault == RasterFault::Memory,
    }
}

/// The palette that is copied stays as it was, and the copy has its room.
pub(crate) fn try_clone(alloc: Global) -> bool {
    let Ok(mut palette) = Palette::new(alloc, 3) else {
        return true;
    };
    for clr in colors() {
        palette.set_entry(clr);
    }
    let right = match palette.try_clone(alloc) {
        Ok(mut copy) => is_whole(&copy) && copy.set_entry(color(9, 9, 9)) == Some(2),
        Err(fault) => fault == RasterFault::Memory,
    };
    right && is_whole(&palette)
}

pub(crate) fn histogram(alloc: Global) -> bool {
    let Ok(mut palette) = Palette::new(alloc, 3) else {
        return true;
    };
    for clr in colors() {
        palette.set_entry(clr);
    }
    let right = match palette.histogram(alloc, &[0u8, 0u8, 1u8]) {
        Ok(Some(counts)) => counts.as_slice() == [2usize, 1usize].as_slice(),
        Ok(None) => false,
        Err(fault) => fault == RasterFault::Memory,
    };
    right && is_whole(&palette)
}

/// The second color, the first and a new one.
fn pixels<M>() -> [Color<M>; 3] {
    [
        Color::<M>::new(200u8, 100u8, 50u8),
        Color::<M>::new(1u8, 2u8, 3u8),
        Color::<M>::new(9u8, 9u8, 9u8),
    ]
}

/// A raster of these pixels.
fn raster<M: ColorModel>(alloc: Global) -> Option<Raster<Color<M>>> {
    let pixels = Vec::from_slice(alloc, &pixels::<M>()).ok()?;
    Raster::with_pixels(3, 1, pixels).ok()
}

/// Whether the raster is as it was made.
fn is_as_made<M: ColorModel>(raster: &Raster<Color<M>>) -> bool {
    raster.pixels() == pixels::<M>().as_slice()
}

/// Whether the image has these values, from an index on.
fn has_values<P: Pixel>(image: &Raster<P>, from: usize, values: &[u32]) -> bool {
    let mut wanted = values.iter();
    for pixel in image.pixels().iter().skip(from) {
        if wanted.next() != Some(&pixel.get(0).to_u32()) {
            return false;
        }
    }
    wanted.next().is_none()
}

/// A refusal leaves the palette, and hands the raster back.
pub(crate) fn make_indexed<M: ColorModel>(alloc: Global) -> bool {
    let (Ok(mut palette), Some(raster)) = (Palette::new(alloc, 3), raster::<M>(alloc)) else {
        return true;
    };
    for clr in colors() {
        palette.set_entry(clr);
    }
    match palette.make_indexed(alloc, raster) {
        Ok(Some(image)) => palette.len() == 3 && has_values(&image, 0, &[1, 0, 2]),
        Ok(None) => false,
        Err((fault, raster)) => {
            fault == RasterFault::Memory && is_whole(&palette) && is_as_made(&raster)
        }
    }
}

/// A refusal leaves the palette, and hands the raster back.
pub(crate) fn make_indexed_wide<M: ColorModel>(alloc: Global) -> bool {
    let (Ok(mut palette), Some(raster)) = (Palette::new(alloc, 3), raster::<M>(alloc)) else {
        return true;
    };
    for clr in colors() {
        palette.set_entry(clr);
    }
    match palette.make_indexed_wide(alloc, raster) {
        Ok(Some(image)) => palette.len() == 3 && has_values(&image, 0, &[1, 0, 2]),
        Ok(None) => false,
        Err((fault, raster)) => {
            fault == RasterFault::Memory && is_whole(&palette) && is_as_made(&raster)
        }
    }
}

/// A raster of 200 colors, and once more the first of them.
fn many_colors<M: ColorModel>(alloc: Global) -> Option<Raster<Color<M>>> {
    let mut raster = Raster::<Color<M>>::with_clear(alloc, 201, 1).ok()?;
    let mut red = 0_u8;
    for pixel in raster.pixels_mut().iter_mut() {
        *pixel = Color::<M>::new(red, 9u8, 7u8);
        red = if red < 199 { red + 1 } else { 0 };
    }
    Some(raster)
}

/// How far a color may be from the one that stands for it: in green alone.
fn near(_entries: usize) -> SRgb8 {
    color(0, 1, 0)
}

/// Colors are found by places, and those within a threshold by blocks. Where a request for those is
/// refused, all entries are looked at: the answer is the same.
pub(crate) fn make_indexed_of_many<M: ColorModel>(alloc: Global) -> bool {
    let (Ok(mut palette), Some(mut raster)) = (Palette::new(alloc, 200), many_colors::<M>(alloc))
    else {
        return true;
    };
    palette.set_threshold_fn(near);
    if let Some(last) = raster.pixels_mut().last_mut() {
        *last = Color::<M>::new(5u8, 10u8, 7u8);
    }
    match palette.make_indexed(alloc, raster) {
        Ok(Some(image)) => palette.len() == 200 && has_values(&image, 199, &[199, 5]),
        Ok(None) => false,
        Err((fault, _)) => fault == RasterFault::Memory && palette.is_empty(),
    }
}

/// Nothing is answered but what the colors have one by one, whatever is refused.
pub(crate) fn set_entries(alloc: Global) -> bool {
    let (Ok(mut palette), Some(raster)) = (Palette::new(alloc, 199), many_colors::<Rgb>(alloc))
    else {
        return true;
    };
    let mut answers = [Some(7); 201];
    if raster.pixels().len() != answers.len() {
        return false;
    }
    palette.set_entries(alloc, raster.pixels(), &mut answers);
    palette.len() == 199
        && answers[198] == Some(198)
        && answers[199].is_none()
        && answers[200] == Some(0)
}
