//! Rasters, buffers, palettes, indices and scripts of any length, made with ample memory: a call
//! that refuses a length has no answer.
ghost use Rattle.std.specs.Prelude.{◌≤◌, ◌+◌};

use crate::flaw::Flaw;
use crate::grays::set_channels;
use crate::words::small;
use pix::chan::{Ch8, Ch16, Channel, Gamma, Linear, Straight};
use pix::el::{Pix, Pixel};
use pix::gray::Gray;
use pix::rgb::SRgb8;
use pix::{ColorModel, Palette, Raster};
use pix_script::paint_io;
use std::alloc::Global;

/// A pixel of eight bits, of `N` channels.
type Narrow<const N: usize, M> = Pix<N, Ch8, M, Straight, Linear>;

/// A pixel of sixteen bits, of `N` channels.
type Wide<const N: usize, M> = Pix<N, Ch16, M, Straight, Linear>;

/// `4097`: the length of a row of grays, whose values count up and begin again after 255. The
/// answer is how many of them are right. They are counted as bytes, in a copy, in a raster made of
/// the bytes, as words of sixteen bits, and in a raster made of the words.
pub(crate) fn row(words: &[&str], alloc: Global) -> Result<String, Flaw> {
    let [word] = words else {
        return Err(Flaw::Count);
    };
    row_of_model::<1, Gray>(small(word)?, alloc)
}

/// The answer of [`row`] for a model. It has that many numbers where a pixel has one channel.
///
/// Condition: the format has at most four channels, and no more than the model.
fn row_of_model<const N: usize, M: ColorModel>(len: u32, alloc: Global) -> Result<String, Flaw>
    requires four { N ≤ 4 }
    requires few { N ≤ M.ALPHA + 1 }
{
    let mut raster: Raster<Narrow<N, M>> = Raster::with_clear(alloc, len, 1)?;
    for (i, pixel) in raster.pixels_mut().iter_mut().enumerate() {
        set_channels(pixel, (i % 256) as u8);
    }
    let wide: Raster<Wide<N, M>> = Raster::with_raster(alloc, &raster)?;
    let bytes = raster.to_u8_vec(alloc)?;
    let copied = raster.try_clone(alloc)?.into_u8_vec(alloc)?;
    let words = wide.into_u16_vec(alloc)?;
    let (one, two, three) = (
        right_bytes(&bytes),
        right_bytes(&copied),
        right_words(&words),
    );
    if len == 0 {
        return Ok(format!(in alloc; "{one} {two} {three}")?);
    }
    let (four, five) = made_again::<N, M>(len, bytes, words, alloc)?;
    Ok(format!(in alloc; "{one} {two} {four} {three} {five}")?)
}

/// How many bytes and words are right that come back out of rasters of them.
fn made_again<const N: usize, M: ColorModel>(
    len: u32,
    bytes: Vec<u8>,
    words: Vec<u16>,
    alloc: Global,
) -> Result<(usize, usize), Flaw>
    requires { N ≤ 4 }
{
    let made: Raster<Narrow<N, M>> = Raster::with_u8_buffer(alloc, len, 1, bytes)?;
    let bytes = made.into_u8_vec(alloc)?;
    let made: Raster<Wide<N, M>> = Raster::with_u16_buffer(alloc, len, 1, words)?;
    let words = made.into_u16_vec(alloc)?;
    Ok((right_bytes(&bytes), right_words(&words)))
}

/// How many bytes are those of the row.
fn right_bytes(bytes: &[u8]) -> usize {
    let right = bytes
        .iter()
        .enumerate()
        .filter(|(i, byte)| usize::from(**byte) == *i % 256);
    right.count()
}

/// How many words are those of the row: of sixteen bits, a byte is 257 times as great.
fn right_words(words: &[u16]) -> usize {
    let right = words
        .iter()
        .enumerate()
        .filter(|(i, word)| usize::from(**word) == *i % 256 * 257);
    right.count()
}

/// `20 16 4097`: the limit of a palette, how many colors take turns in a row of pixels, and how
/// long the row is. The answer is how many colors a copy of the palette has then, how many indices
/// are right, and how many of them its counts count.
pub(crate) fn table(words: &[&str], alloc: Global) -> Result<String, Flaw> {
    let [limit, colors, len] = words else {
        return Err(Flaw::Count);
    };
    let (limit, colors, len) = (small(limit)?, small(colors)?, small(len)?);
    table_of(limit, colors, turns::<SRgb8>(colors, len, alloc)?, alloc)
}

/// The answer of [`table`] for a row of pixels.
fn table_of<P>(limit: u32, colors: u32, row: Raster<P>, alloc: Global) -> Result<String, Flaw>
where
    P: Pixel,
    Ch8: From<P::Chan>,
    P::Gamma: Gamma<Ch8>,
{
    let mut palette = Palette::new(alloc, limit as usize)?;
    let wide = palette.make_indexed_wide(alloc, row)?.ok_or(Flaw::Refused)?;
    let indices = wide.into_u16_vec(alloc)?;
    let copy = palette.try_clone(alloc)?;
    let counts = copy.histogram(alloc, &indices)?;
    let counted = sum(&counts.ok_or(Flaw::Refused)?);
    let right = right_turns(&indices, colors);
    let entries = copy.len();
    Ok(format!(in alloc; "{entries} {right} {counted}")?)
}

/// A row of pixels in which this many colors take turns.
fn turns<P: Pixel>(colors: u32, len: u32, alloc: Global) -> Result<Raster<P>, Flaw> {
    let mut raster = Raster::with_clear(alloc, len, 1)?;
    for (i, pixel) in raster.pixels_mut().iter_mut().enumerate() {
        spell(pixel, turn(i, colors));
    }
    Ok(raster)
}

/// Sets the channels of a pixel to the bytes of a number, the lowest first.
fn spell<P: Pixel>(pixel: &mut P, number: usize) {
    let mut rest = number;
    for channel in pixel.channels_mut() {
        let byte = (rest % 256) as u8;
        *channel = P::Chan::from_ratio(i64::from(byte), 1);
        rest /= 256;
    }
}

/// The number of the color whose turn it is at a pixel.
fn turn(place: usize, colors: u32) -> usize {
    place.checked_rem(colors as usize).unwrap_or(0)
}

/// How many indices are those of the colors that take turns.
fn right_turns(indices: &[u16], colors: u32) -> usize {
    let right = indices
        .iter()
        .enumerate()
        .filter(|(i, index)| usize::from(**index) == turn(*i, colors));
    right.count()
}

/// The sum of counts.
fn sum(counts: &[usize]) -> usize {
    let mut sum = 0_usize;
    for count in counts {
        sum = sum.wrapping_add(*count);
    }
    sum
}

/// `40000`: how many points of an image of 200 columns are drawn on. Each has a command and a color
/// of its own, and its color is its number. The answer is whether the text is that of these
/// numbers, or why the script stops.
pub(crate) fn drawings(words: &[&str], alloc: Global) -> Result<String, Flaw> {
    let [word] = words else {
        return Err(Flaw::Count);
    };
    let count = small(word)?;
    let rows = count.div_ceil(200);
    let mut script = format!(in alloc; "image 200 {rows}\n")?;
    let mut wanted = String::new(alloc);
    for i in 0..rows.saturating_mul(200) {
        let end = if i % 200 == 199 { '\n' } else { ' ' };
        if i < count {
            writeln!(script, "fill {} {} 1 1 {i:08x}", i % 200, i / 200)?;
            write!(wanted, "{i:08x}{end}")?;
        } else {
            write!(wanted, "00000000{end}")?;
        }
    }
    let mut reader = script.as_bytes();
    let mut text = Vec::new(alloc);
    match paint_io(alloc, &mut reader, &mut text) {
        Ok(()) => Ok(format!(in alloc; "{}", text.as_slice() == wanted.as_bytes())?),
        Err(stop) => Ok(format!(in alloc; "{stop}")?),
    }
}
