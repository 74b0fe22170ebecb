//! Rows of pixels that are converted from one format to another, where both are known only at run
//! time.
ghost use Rattle.std.specs.Prelude.{◌≡◌, ◌≤◌, ◌+◌, ◌*◌, length, true};
ghost use Rattle.pix_bytes.specs.Bitmap.{IsConvertedBitmap};
ghost use Rattle.pix_bytes.specs.Rows.{IsEach, IsRow, format_at, stored_of, is_sound};
ghost use Rattle.pix_bytes.specs.declared.bitmap.format.Depth.{Depth};
ghost use Rattle.pix_bytes.specs.BitmapFormats.{sample_size, pixel_size};

use crate::bitmap::format::Depth::{Linear8, Linear16, Srgb8};
use crate::bitmap::format::FormatParts;
use crate::bitmap::four_channels::{read_four, write_four};
use crate::bitmap::model::ModelName::{Bgr, Gray, Rgb};
use crate::bitmap::pixel_conversion::{Converted, IntoLight, OutOfLight, PixelConversion};
use crate::bitmap::recoloring::{IntoLinear, OutOfLinear};
use crate::bitmap::sample::Sample;
use pix_chan::chan::{Ch8, Ch16, Linear, Srgb};

/// Writes each pixel of `src` to the same index of `dst`, in the other format.
///
/// Condition: there are `count` in both.
#[inline(always)]
fn convert_row_pixels<C: Sample, D: Sample, W: PixelConversion<C, D>>(
    conversion: &W,
    from: FormatParts,
    to: FormatParts,
    src: &[u8],
    dst: &mut [u8],
    count: usize,
)
    requires sound { is_sound from ≡ true }
    requires to_sound { is_sound to ≡ true }
    requires src { length src.now ≡ count * ((from.count + from.spare) * sample_size C.max) }
    requires dst { length dst.old ≡ count * ((to.count + to.spare) * sample_size D.max) }
    ensures { IsRow C.max D.max W.makes from to count src.now dst.new }
{
    let size = (from.count + from.spare) * C::size();
    let to_size = (to.count + to.spare) * D::size();
    let first = conversion.convert_several(from, to, src, dst, count);
    convert_each(conversion, from, to, size, to_size, src, dst, first, count);
}

/// Writes each pixel of `src`, from number `first` on, to the same index of `dst`, in the other
/// format. A pixel has `size` bytes, and `to_size` of them in the other format.
///
/// Condition: there are `count` in both, and those before `first` are written.
#[inline(always)]
fn convert_each<C: Sample, D: Sample, W: PixelConversion<C, D>>(
    conversion: &W,
    from: FormatParts,
    to: FormatParts,
    size: usize,
    to_size: usize,
    src: &[u8],
    dst: &mut [u8],
    first: usize,
    count: usize,
)
    requires sound { is_sound from ≡ true }
    requires to_sound { is_sound to ≡ true }
    requires size { size ≡ (from.count + from.spare) * sample_size C.max }
    requires to_size { to_size ≡ (to.count + to.spare) * sample_size D.max }
    requires src { length src.now ≡ count * size }
    requires dst { length dst.old ≡ count * to_size }
    requires some { first ≤ count }
    requires ahead { IsEach C.max D.max from.count (to.count + to.spare) size to_size
        (W.makes (format_at C.max from) (format_at D.max to)) src.now dst.old first }
    ensures { IsEach C.max D.max from.count (to.count + to.spare) size to_size
        (W.makes (format_at C.max from) (format_at D.max to)) src.now dst.new count }
{
    for index in first..count {
        let start = index * size;
        let pixel = read_four::<C>(&src[start..start + size], from.count);
        let made = conversion.go(from, to, pixel);
        let start = index * to_size;
        write_four(made, &mut dst[start..start + to_size], to.count, to.spare);
    }
}

/// Writes each pixel of `src` to the same index of `dst`, in the other format. Its loop is compiled
/// for `known` and `to_known`, whose parts the compiler knows.
///
/// Condition: there are `count` in both, and these two formats are `from` and `to`.
#[inline(always)]
fn convert_known<C: Sample, D: Sample, W: PixelConversion<C, D>>(
    conversion: &W,
    known: FormatParts,
    to_known: FormatParts,
    from: FormatParts,
    to: FormatParts,
    src: &[u8],
    dst: &mut [u8],
    count: usize,
)
    requires same { known ≡ from }
    requires to_same { to_known ≡ to }
    requires sound { is_sound from ≡ true }
    requires to_sound { is_sound to ≡ true }
    requires src { length src.now ≡ count * ((from.count + from.spare) * sample_size C.max) }
    requires dst { length dst.old ≡ count * ((to.count + to.spare) * sample_size D.max) }
    ensures { IsRow C.max D.max W.makes from to count src.now dst.new }
{
    convert_row_pixels(conversion, known, to_known, src, dst, count);
}

/// Writes each pixel of `src` to the same index of `dst`, in the other format. There is a loop of
/// its own for each format that pictures mostly come in, and one for all others.
///
/// Condition: there are `count` in both, and `to_known` is `to`.
#[inline(always)]
fn convert_from_usual<C: Sample, D: Sample, W: PixelConversion<C, D>>(
    conversion: &W,
    from: FormatParts,
    to_known: FormatParts,
    to: FormatParts,
    src: &[u8],
    dst: &mut [u8],
    count: usize,
)
    requires to_same { to_known ≡ to }
    requires sound { is_sound from ≡ true }
    requires to_sound { is_sound to ≡ true }
    requires src { length src.now ≡ count * ((from.count + from.spare) * sample_size C.max) }
    requires dst { length dst.old ≡ count * ((to.count + to.spare) * sample_size D.max) }
    ensures { IsRow C.max D.max W.makes from to count src.now dst.new }
{
    if let Some(known) = from.known(Rgb, 4, false, 0) {
        convert_known(conversion, known, to_known, from, to, src, dst, count);
    } else if let Some(known) = from.known(Bgr, 4, false, 0) {
        convert_known(conversion, known, to_known, from, to, src, dst, count);
    } else if let Some(known) = from.known(Bgr, 4, true, 0) {
        convert_known(conversion, known, to_known, from, to, src, dst, count);
    } else if let Some(known) = from.known(Rgb, 3, false, 0) {
        convert_known(conversion, known, to_known, from, to, src, dst, count);
    } else if let Some(known) = from.known(Bgr, 3, false, 0) {
        convert_known(conversion, known, to_known, from, to, src, dst, count);
    } else if let Some(known) = from.known(Rgb, 3, false, 1) {
        convert_known(conversion, known, to_known, from, to, src, dst, count);
    } else if let Some(known) = from.known(Bgr, 3, false, 1) {
        convert_known(conversion, known, to_known, from, to, src, dst, count);
    } else if let Some(known) = from.known(Gray, 1, false, 0) {
        convert_known(conversion, known, to_known, from, to, src, dst, count);
    } else {
        convert_known(conversion, from, to_known, from, to, src, dst, count);
    }
}

/// Writes each pixel of `src` to the same index of `dst`, in the other format. There is a loop of
/// its own for each format that pictures mostly go to, and one for all others.
///
/// Condition: there are `count` in both, and `from_known` is `from`.
#[inline(always)]
fn convert_to_usual<C: Sample, D: Sample, W: PixelConversion<C, D>>(
    conversion: &W,
    from_known: FormatParts,
    from: FormatParts,
    to: FormatParts,
    src: &[u8],
    dst: &mut [u8],
    count: usize,
)
    requires same { from_known ≡ from }
    requires sound { is_sound from ≡ true }
    requires to_sound { is_sound to ≡ true }
    requires src { length src.now ≡ count * ((from.count + from.spare) * sample_size C.max) }
    requires dst { length dst.old ≡ count * ((to.count + to.spare) * sample_size D.max) }
    ensures { IsRow C.max D.max W.makes from to count src.now dst.new }
{
    if let Some(known) = to.known(Rgb, 4, false, 0) {
        convert_known(conversion, from_known, known, from, to, src, dst, count);
    } else if let Some(known) = to.known(Bgr, 4, false, 0) {
        convert_known(conversion, from_known, known, from, to, src, dst, count);
    } else if let Some(known) = to.known(Bgr, 4, true, 0) {
        convert_known(conversion, from_known, known, from, to, src, dst, count);
    } else if let Some(known) = to.known(Rgb, 3, false, 0) {
        convert_known(conversion, from_known, known, from, to, src, dst, count);
    } else if let Some(known) = to.known(Bgr, 3, false, 0) {
        convert_known(conversion, from_known, known, from, to, src, dst, count);
    } else if let Some(known) = to.known(Rgb, 3, false, 1) {
        convert_known(conversion, from_known, known, from, to, src, dst, count);
    } else if let Some(known) = to.known(Bgr, 3, false, 1) {
        convert_known(conversion, from_known, known, from, to, src, dst, count);
    } else if let Some(known) = to.known(Gray, 1, false, 0) {
        convert_known(conversion, from_known, known, from, to, src, dst, count);
    } else {
        convert_known(conversion, from_known, to, from, to, src, dst, count);
    }
}

/// Writes each pixel of `src` to the same index of `dst`, in the other format. Between the format
/// of images that are painted and those that pictures mostly have, the loops know both.
///
/// Condition: there are `count` in both.
#[inline(always)]
fn convert_painted<C: Sample, D: Sample, W: PixelConversion<C, D>>(
    conversion: &W,
    from: FormatParts,
    to: FormatParts,
    src: &[u8],
    dst: &mut [u8],
    count: usize,
)
    requires sound { is_sound from ≡ true }
    requires to_sound { is_sound to ≡ true }
    requires src { length src.now ≡ count * ((from.count + from.spare) * sample_size C.max) }
    requires dst { length dst.old ≡ count * ((to.count + to.spare) * sample_size D.max) }
    ensures { IsRow C.max D.max W.makes from to count src.now dst.new }
{
    if let Some(known) = to.known(Rgb, 4, true, 0) {
        convert_from_usual(conversion, from, known, to, src, dst, count);
    } else if let Some(known) = from.known(Rgb, 4, true, 0) {
        convert_to_usual(conversion, known, from, to, src, dst, count);
    } else {
        convert_row_pixels(conversion, from, to, src, dst, count);
    }
}

/// Writes each pixel of `src` to the same index of `dst`, in the other format. Between sRGB of 8
/// bits and channels of 16 bits it goes through light. Any other pixel is converted as by
/// [`Pixel::convert`](pix_el::el::Pixel::convert).
///
/// Condition: there are `count` in both.
pub(crate) fn convert_row(
    from: FormatParts,
    to: FormatParts,
    src: &[u8],
    dst: &mut [u8],
    count: usize,
)
    requires sound { is_sound from ≡ true }
    requires to_sound { is_sound to ≡ true }
    requires src { length src.now ≡ count * pixel_size (stored_of from) }
    requires dst { length dst.old ≡ count * pixel_size (stored_of to) }
    ensures { IsConvertedBitmap (stored_of from) (stored_of to) count src.now dst.new }
{
    match from.depth {
        Srgb8 => convert_srgb8(from, to, src, dst, count),
        Linear8 => convert_linear8(from, to, src, dst, count),
        Linear16 => convert_linear16(from, to, src, dst, count),
    }
}

/// Writes as many of the first `count` pixels of `src` as are converted several at once to the same
/// index of `dst`, in the other format. Returns their number, which is 0 unless one format is sRGB
/// and the other linear, both of 8 bits.
///
/// Condition: there are `count` in both.
pub(crate) fn convert_row_ahead(
    from: FormatParts,
    to: FormatParts,
    src: &[u8],
    dst: &mut [u8],
    count: usize,
) -> usize
    requires src { length src.now ≡ count * pixel_size (stored_of from) }
    requires dst { length dst.old ≡ count * pixel_size (stored_of to) }
    ensures some { result ≤ count }
    ensures each { IsConvertedBitmap (stored_of from) (stored_of to) result src.now dst.new }
{
    match (from.depth, to.depth) {
        (Srgb8, Linear8) => IntoLinear.convert_several(from, to, src, dst, count),
        (Linear8, Srgb8) => OutOfLinear.convert_several(from, to, src, dst, count),
        _ => 0,
    }
}

/// Writes each pixel of `src`, in sRGB of 8 bits, to the same index of `dst`, in the other format.
/// To channels of 16 bits it goes through light.
///
/// Condition: `from` has such channels, and there are `count` pixels in both.
fn convert_srgb8(from: FormatParts, to: FormatParts, src: &[u8], dst: &mut [u8], count: usize)
    requires depth { from.depth ≡ Depth.Srgb8 }
    requires sound { is_sound from ≡ true }
    requires to_sound { is_sound to ≡ true }
    requires src { length src.now ≡ count * pixel_size (stored_of from) }
    requires dst { length dst.old ≡ count * pixel_size (stored_of to) }
    ensures { IsConvertedBitmap (stored_of from) (stored_of to) count src.now dst.new }
{
    match to.depth {
        Srgb8 => {
            let conversion = Converted::<Srgb, Srgb>::new();
            convert_row_pixels::<Ch8, Ch8, _>(&conversion, from, to, src, dst, count);
        }
        Linear8 => convert_painted::<Ch8, Ch8, _>(&IntoLinear, from, to, src, dst, count),
        Linear16 => convert_painted::<Ch8, Ch16, _>(&IntoLight, from, to, src, dst, count),
    }
}

/// Writes each pixel of `src`, in linear channels of 8 bits, to the same index of `dst`, in the
/// other format.
///
/// Condition: `from` has such channels, and there are `count` pixels in both.
fn convert_linear8(from: FormatParts, to: FormatParts, src: &[u8], dst: &mut [u8], count: usize)
    requires depth { from.depth ≡ Depth.Linear8 }
    requires sound { is_sound from ≡ true }
    requires to_sound { is_sound to ≡ true }
    requires src { length src.now ≡ count * pixel_size (stored_of from) }
    requires dst { length dst.old ≡ count * pixel_size (stored_of to) }
    ensures { IsConvertedBitmap (stored_of from) (stored_of to) count src.now dst.new }
{
    match to.depth {
        Srgb8 => convert_painted::<Ch8, Ch8, _>(&OutOfLinear, from, to, src, dst, count),
        Linear8 => {
            let conversion = Converted::<Linear, Linear>::new();
            convert_painted::<Ch8, Ch8, _>(&conversion, from, to, src, dst, count);
        }
        Linear16 => {
            let conversion = Converted::<Linear, Linear>::new();
            convert_row_pixels::<Ch8, Ch16, _>(&conversion, from, to, src, dst, count);
        }
    }
}

/// Writes each pixel of `src`, in linear channels of 16 bits, to the same index of `dst`, in the
/// other format. To sRGB of 8 bits each color becomes the nearest level.
///
/// Condition: `from` has such channels, and there are `count` pixels in both.
fn convert_linear16(from: FormatParts, to: FormatParts, src: &[u8], dst: &mut [u8], count: usize)
    requires depth { from.depth ≡ Depth.Linear16 }
    requires sound { is_sound from ≡ true }
    requires to_sound { is_sound to ≡ true }
    requires src { length src.now ≡ count * pixel_size (stored_of from) }
    requires dst { length dst.old ≡ count * pixel_size (stored_of to) }
    ensures { IsConvertedBitmap (stored_of from) (stored_of to) count src.now dst.new }
{
    match to.depth {
        Srgb8 => convert_painted::<Ch16, Ch8, _>(&OutOfLight, from, to, src, dst, count),
        Linear8 => {
            let conversion = Converted::<Linear, Linear>::new();
            convert_row_pixels::<Ch16, Ch8, _>(&conversion, from, to, src, dst, count);
        }
        Linear16 => {
            let conversion = Converted::<Linear, Linear>::new();
            convert_row_pixels::<Ch16, Ch16, _>(&conversion, from, to, src, dst, count);
        }
    }
}
