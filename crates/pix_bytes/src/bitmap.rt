//! Bitmaps: images of bytes in any format, whose rows lie a stride apart.
ghost use Rattle.std.specs.Prelude.{◌≡◌, ◌≢◌, ◌*◌, length, Some, slice_get, true};
ghost use Rattle.pix_bytes.specs.Bitmap.{IsBitmapOf, IsConvertedBitmap, bitmap_status, is_held};
ghost use Rattle.pix_bytes.specs.Rows.{stored_of, is_sound};
ghost use Rattle.pix_bytes.specs.BitmapFormats.{StoredFormat, pixel_size, pixel_size_of, stored_formats};

use crate::bitmap::format::FormatParts;
use crate::bitmap::row_conversion::convert_row;
use crate::bitmap::rows::Lines;
use crate::buffer::convert_usual;

mod eights;
pub(crate) mod format;
mod four_channels;
mod grays;
mod levels;
mod model;
mod pixel_conversion;
mod recoloring;
mod rgba_light;
pub(crate) mod row_conversion;
mod rows;
mod sample;

/// All pixels are written.
pub const DONE: u32 = 0;

/// The bitmap isn't held in its bytes.
const BAD_SIZE: u32 = 1;

/// The source isn't held in its bytes.
const BAD_SOURCE: u32 = 5;

/// There is no format of that number.
pub const BAD_FORMAT: u32 = 6;

/// Returns how many bytes a pixel of the format of a number has, and 0 where there is no such
/// format.
pub fn pixel_size(number: u32) -> u32
    ensures { result ≡ pixel_size_of number }
{
    match FormatParts::from_number(number) {
        Some(stored) => stored.size() as u32,
        None => 0,
    }
}

/// Writes a bitmap from another, `src`, of the same size. Each pixel is converted from the format
/// of number `from` to that of number `to`.
///
/// Rows lie a stride of bytes apart, from top to bottom. With a negative stride they go from bottom
/// to top, and the bytes start with the last row. Returns 0 when all pixels are written. Else
/// nothing is written. The status is then 6 where a format is missing, 1 where `dst` doesn't hold
/// the rows, or they would share bytes, and 5 where `src` doesn't.
pub fn convert_bitmap(
    from: u32,
    to: u32,
    src: &[u8],
    dst: &mut [u8],
    src_stride: i64,
    dst_stride: i64,
    width: u32,
    height: u32,
) -> u32
    ensures status { result ≡ bitmap_status from to width height src_stride dst_stride
        (length src.now) (length dst.old) }
    ensures refused { result ≢ 0 → dst.new ≡ dst.old }
    ensures done { (format target : StoredFormat) → slice_get stored_formats from ≡ Some format
        → slice_get stored_formats to ≡ Some target → result ≡ 0
        → IsBitmapOf format target width height src_stride dst_stride src.now dst.old dst.new }
{
    let (Some(format), Some(target)) = (
        FormatParts::from_number(from),
        FormatParts::from_number(to),
    ) else {
        return BAD_FORMAT;
    };
    let src_lines = Lines { stride: src_stride };
    let dst_lines = Lines { stride: dst_stride };
    let (wide, to_wide) = (
        width as usize * format.size(),
        width as usize * target.size(),
    );
    if !dst_lines.is_held(width, height, to_wide, dst.len()) {
        return BAD_SIZE;
    }
    if !src_lines.is_held(width, height, wide, src.len()) {
        return BAD_SOURCE;
    }
    if width == 0 {
        // There may be many rows without pixels.
        return DONE;
    }
    let (width, height) = (width as usize, height as usize);
    convert_rows(
        from, to, format, target, src, dst, src_lines, dst_lines, width, height,
    );
    DONE
}

/// Writes each row, where both formats are given by their numbers and their parts.
///
/// Condition: both bitmaps are held in their bytes.
fn convert_rows(
    number: u32,
    to_number: u32,
    from: FormatParts,
    to: FormatParts,
    src: &[u8],
    dst: &mut [u8],
    src_lines: Lines,
    dst_lines: Lines,
    width: usize,
    height: usize,
)
    requires named { slice_get stored_formats number ≡ Some (stored_of from) }
    requires to_named { slice_get stored_formats to_number ≡ Some (stored_of to) }
    requires sound { is_sound from ≡ true }
    requires to_sound { is_sound to ≡ true }
    requires src { is_held width height (width * pixel_size (stored_of from)) src_lines.stride
        (length src.now) ≡ true }
    requires dst { is_held width height (width * pixel_size (stored_of to)) dst_lines.stride
        (length dst.old) ≡ true }
    ensures { IsBitmapOf (stored_of from) (stored_of to) width height src_lines.stride
        dst_lines.stride src.now dst.old dst.new }
{
    let (wide, to_wide) = (width * from.size(), width * to.size());
    for y in 0..height {
        let start = src_lines.row_start(height, y);
        let row = &src[start..start + wide];
        let start = dst_lines.row_start(height, y);
        let to_row = &mut dst[start..start + to_wide];
        convert_numbered(number, to_number, from, to, row, to_row, width);
    }
}

/// Writes each pixel of a row to the same index of `dst`, in the other format. Between the formats
/// of buffers it goes by a loop of their own.
///
/// Condition: there are `count` in both.
fn convert_numbered(
    number: u32,
    to_number: u32,
    from: FormatParts,
    to: FormatParts,
    src: &[u8],
    dst: &mut [u8],
    count: usize,
)
    requires named { slice_get stored_formats number ≡ Some (stored_of from) }
    requires to_named { slice_get stored_formats to_number ≡ Some (stored_of to) }
    requires sound { is_sound from ≡ true }
    requires to_sound { is_sound to ≡ true }
    requires src { length src.now ≡ count * pixel_size (stored_of from) }
    requires dst { length dst.old ≡ count * pixel_size (stored_of to) }
    ensures { IsConvertedBitmap (stored_of from) (stored_of to) count src.now dst.new }
{
    // The steps are faster for premultiplied pixels and opaque or gray ones, which they know.
    let are_faster = matches!((number, to_number), (3, 6) | (6 | 7, 1 | 3) | (2 | 4, 1));
    if !are_faster {
        if number < 12 {
            if to_number < 12 {
                convert_usual(number, to_number, from.count, to.count, src, dst, count);
                return;
            }
        }
    }
    convert_row(from, to, src, dst, count);
}
