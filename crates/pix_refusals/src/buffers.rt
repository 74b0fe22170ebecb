//! Rasters from buffers, and back: where a request is refused, what was handed in comes back as it
//! was.
//!
//! A buffer or a raster that could not be made for a call ends its function: nothing was handed in
//! then. The bodies are for any color model, since each call at a concrete format costs the prover
//! seconds.
use pix::chan::{Ch8, Ch16, Linear, Premultiplied};
use pix::el::{Pix, Pixel};
use pix::{ColorModel, Raster, RasterFault};
use std::alloc::Global;

/// The channels of three columns and two rows of pixels.
const BYTES: &[u8] = &[
    1, 2, 3, 4, 5, 6, 7, 8, 9, 10, 11, 12, 101, 102, 103, 104, 105, 106, 107, 108, 109, 110, 111,
    255,
];

/// The channels of one column and two rows of pixels.
const WORDS: &[u16] = &[1, 2, 300, 40_000, 5, 65_535, 7, 8_000];

/// A premultiplied pixel of four channels.
type Color<C, M> = Pix<4, C, M, Premultiplied, Linear>;

/// Returns the pixels of [`BYTES`].
fn pixels_of_bytes<M>() -> [Color<Ch8, M>; 6] {
    [
        Color::<Ch8, M>::new(1u8, 2u8, 3u8, 4u8),
        Color::<Ch8, M>::new(5u8, 6u8, 7u8, 8u8),
        Color::<Ch8, M>::new(9u8, 10u8, 11u8, 12u8),
        Color::<Ch8, M>::new(101u8, 102u8, 103u8, 104u8),
        Color::<Ch8, M>::new(105u8, 106u8, 107u8, 108u8),
        Color::<Ch8, M>::new(109u8, 110u8, 111u8, 255u8),
    ]
}

/// Returns the pixels of [`WORDS`].
fn pixels_of_words<M>() -> [Color<Ch16, M>; 2] {
    [
        Color::<Ch16, M>::new(1u16, 2u16, 300u16, 40_000u16),
        Color::<Ch16, M>::new(5u16, 65_535u16, 7u16, 8_000u16),
    ]
}

/// Whether the raster has this size and these pixels.
fn is_of<P: Pixel>(raster: &Raster<P>, width: u32, height: u32, pixels: &[P]) -> bool {
    raster.width() == width && raster.height() == height && raster.pixels() == pixels
}

/// Whether the raster is that of [`BYTES`].
fn is_of_bytes<M: ColorModel>(raster: &Raster<Color<Ch8, M>>) -> bool {
    is_of(raster, 3, 2, &pixels_of_bytes::<M>())
}

/// Whether the raster is that of [`WORDS`].
fn is_of_words<M: ColorModel>(raster: &Raster<Color<Ch16, M>>) -> bool {
    is_of(raster, 1, 2, &pixels_of_words::<M>())
}

/// The raster of [`BYTES`], if no request for its memory is refused.
fn raster_of_bytes<M: ColorModel>(alloc: Global) -> Option<Raster<Color<Ch8, M>>> {
    let bytes = Vec::from_slice(alloc, BYTES).ok()?;
    Raster::with_u8_buffer(alloc, 3, 2, bytes).ok()
}

/// The raster of [`WORDS`], if no request for its memory is refused.
fn raster_of_words<M: ColorModel>(alloc: Global) -> Option<Raster<Color<Ch16, M>>> {
    let words = Vec::from_slice(alloc, WORDS).ok()?;
    Raster::with_u16_buffer(alloc, 1, 2, words).ok()
}

pub(crate) fn with_u8_buffer<M: ColorModel>(alloc: Global) -> bool {
    let Ok(bytes) = Vec::from_slice(alloc, BYTES) else {
        return true;
    };
    match Raster::<Color<Ch8, M>>::with_u8_buffer(alloc, 3, 2, bytes) {
        Ok(raster) => is_of_bytes(&raster),
        Err((fault, back)) => fault == RasterFault::Memory && back.as_slice() == BYTES,
    }
}

pub(crate) fn into_u8_vec<M: ColorModel>(alloc: Global) -> bool {
    let Some(raster) = raster_of_bytes::<M>(alloc) else {
        return true;
    };
    match raster.into_u8_vec(alloc) {
        Ok(bytes) => bytes.as_slice() == BYTES,
        Err((fault, back)) => fault == RasterFault::Memory && is_of_bytes(&back),
    }
}

pub(crate) fn to_u8_vec<M: ColorModel>(alloc: Global) -> bool {
    let Some(raster) = raster_of_bytes::<M>(alloc) else {
        return true;
    };
    let right = match raster.to_u8_vec(alloc) {
        Ok(bytes) => bytes.as_slice() == BYTES,
        Err(fault) => fault == RasterFault::Memory,
    };
    right && is_of_bytes(&raster)
}

pub(crate) fn with_u16_buffer<M: ColorModel>(alloc: Global) -> bool {
    let Ok(words) = Vec::from_slice(alloc, WORDS) else {
        return true;
    };
    match Raster::<Color<Ch16, M>>::with_u16_buffer(alloc, 1, 2, words) {
        Ok(raster) => is_of_words(&raster),
        Err((fault, back)) => fault == RasterFault::Memory && back.as_slice() == WORDS,
    }
}

pub(crate) fn into_u16_vec<M: ColorModel>(alloc: Global) -> bool {
    let Some(raster) = raster_of_words::<M>(alloc) else {
        return true;
    };
    match raster.into_u16_vec(alloc) {
        Ok(words) => words.as_slice() == WORDS,
        Err((fault, back)) => fault == RasterFault::Memory && is_of_words(&back),
    }
}
