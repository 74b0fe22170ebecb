//! Rasters made of bytes, words and pixels, and taken apart into them.
ghost use Rattle.std.specs.Prelude.{◌≤◌};

use crate::flaw::Flaw;
use crate::images::{all, picture, put, size, text};
use crate::words::{bytes, hexadecimal};
use pix::chan::{Ch8, Ch16, Channel, Gamma, Linear, Srgb, Straight};
use pix::el::{Pix, Pixel};
use pix::gray::{Gray, Gray8};
use pix::rgb::Rgb;
use pix::{ColorModel, Raster, RasterFault};
use std::alloc::Global;

/// `rgba8 1x1 01020304`: the format and the size of a raster, and the bytes that it is made of. The
/// column, the row and the color of a pixel may follow, which is then written. The answer is the
/// size and the pixels of the raster, or why there is none, and the bytes that come back.
pub(crate) fn of_bytes(words: &[&str], alloc: Global) -> Result<String, Flaw> {
    let [format, word, buffer, written @ ..] = words else {
        return Err(Flaw::Count);
    };
    let (size, buffer) = (size(word)?, bytes(buffer, alloc)?);
    match *format {
        "gray8" => of_model::<1, Gray, Linear>(size, buffer, written, alloc),
        "rgba8" => of_model::<4, Rgb, Linear>(size, buffer, written, alloc),
        "srgb8" => of_model::<3, Rgb, Srgb>(size, buffer, written, alloc),
        _ => Err(Flaw::Name),
    }
}

/// The answer of [`of_bytes`] for a format of `N` channels.
fn of_model<const N: usize, M, G>(
    sides: (u32, u32),
    buffer: Vec<u8>,
    written: &[&str],
    alloc: Global,
) -> Result<String, Flaw>
where
    M: ColorModel,
    G: Gamma<Ch8>,
    requires { N ≤ 4 }
{
    let (width, height) = sides;
    match Raster::<Pix<N, Ch8, M, Straight, G>>::with_u8_buffer(alloc, width, height, buffer) {
        Ok(mut raster) => {
            let made = written_picture(&mut raster, written, alloc)?;
            let back = raster.into_u8_vec(alloc)?;
            with_bytes(made.as_str(), &back, alloc)
        }
        Err((fault, back)) => refused(fault, &back, written, alloc),
    }
}

/// Why there is no raster to write to, and the bytes that come back.
fn refused(
    fault: RasterFault,
    back: &[u8],
    written: &[&str],
    alloc: Global,
) -> Result<String, Flaw> {
    if !written.is_empty() {
        return Err(Flaw::Refused);
    }
    let fault = format!(in alloc; "{fault}")?;
    with_bytes(fault.as_str(), back, alloc)
}

/// The size and the pixels of a raster, once the pixel of these words is written, if there are any.
fn written_picture<P: Pixel>(
    raster: &mut Raster<P>,
    written: &[&str],
    alloc: Global,
) -> Result<String, Flaw> {
    match written {
        [] => {}
        [x, y, color] => put(raster, x, y, color, alloc)?,
        _ => return Err(Flaw::Count),
    }
    picture(raster, alloc)
}

/// A text, and the bytes that come back.
fn with_bytes(text: &str, back: &[u8], alloc: Global) -> Result<String, Flaw> {
    let back = hexadecimal(back, alloc)?;
    Ok(format!(in alloc; "{text} / {back}")?)
}

/// `2x1 1001,5005,1000,3002`: the size of a raster of grays and alphas of sixteen bits, and the
/// words that it is made of. The answer is the size and the channels of each pixel, or why there
/// is no raster, and the words that come back.
pub(crate) fn of_words(words: &[&str], alloc: Global) -> Result<String, Flaw> {
    let [word, buffer] = words else {
        return Err(Flaw::Count);
    };
    words_of_model::<2, Gray>(size(word)?, sixteens(buffer, alloc)?, alloc)
}

/// The answer of [`of_words`] for a format of `N` channels.
fn words_of_model<const N: usize, M: ColorModel>(
    sides: (u32, u32),
    buffer: Vec<u16>,
    alloc: Global,
) -> Result<String, Flaw>
    requires { N ≤ 4 }
{
    let (width, height) = sides;
    match Raster::<Pix<N, Ch16, M, Straight, Linear>>::with_u16_buffer(
        alloc, width, height, buffer,
    ) {
        Err((fault, back)) => {
            let back = sixteens_text(&back, alloc)?;
            Ok(format!(in alloc; "{fault} / {back}")?)
        }
        Ok(raster) => {
            let (width, height) = (raster.width(), raster.height());
            let mut made = format!(in alloc; "{width}x{height}")?;
            for pixel in raster.pixels() {
                made.push(' ')?;
                for channel in pixel.channels() {
                    write!(made, "{:04x}", channel.to_u32())?;
                }
            }
            let back = raster.into_u16_vec(alloc)?;
            let back = sixteens_text(&back, alloc)?;
            Ok(format!(in alloc; "{made} / {back}")?)
        }
    }
}

/// The words of sixteen bits that four hexadecimal digits each spell.
fn sixteens(word: &str, alloc: Global) -> Result<Vec<u16>, Flaw> {
    let mut all = Vec::new(alloc);
    for pair in bytes(word, alloc)?.chunks(2) {
        match pair {
            [high, low] => all.push(u16::from_be_bytes([*high, *low]))?,
            _ => return Err(Flaw::Number),
        }
    }
    Ok(all)
}

/// The hexadecimal digits of words of sixteen bits; `-` for none.
fn sixteens_text(all: &[u16], alloc: Global) -> Result<String, Flaw> {
    let mut text = String::new(alloc);
    for word in all {
        write!(text, "{word:04x}")?;
    }
    if text.is_empty() {
        text.push('-')?;
    }
    Ok(text)
}

/// `3x1 01,02,03`: the size of a raster of grays and the pixels that it is made of. The answer is
/// the size and the pixels of the raster, or why there is none, and the pixels that come back.
pub(crate) fn of_pixels(words: &[&str], alloc: Global) -> Result<String, Flaw> {
    let [word, pixels] = words else {
        return Err(Flaw::Count);
    };
    made_of::<Gray8>(size(word)?, pixels, alloc)
}

/// The answer of [`of_pixels`] for a format.
fn made_of<P: Pixel>(
    (width, height): (u32, u32),
    pixels: &str,
    alloc: Global,
) -> Result<String, Flaw> {
    match Raster::with_pixels(width, height, all::<P>(pixels, alloc)?) {
        Err((fault, back)) => {
            let back = text(&back, alloc)?;
            Ok(format!(in alloc; "{fault} / {back}")?)
        }
        Ok(raster) => {
            let made = picture(&raster, alloc)?;
            let back = text(&raster.into_pixels(), alloc)?;
            Ok(format!(in alloc; "{made} / {back}")?)
        }
    }
}
