//! Bitmaps: images of bytes in any format, whose rows lie a stride apart.
ghost use Rattle.std.specs.Prelude.{◌≡◌, ◌≢◌, length, Some, slice_get};
ghost use Rattle.pix_bytes.specs.Bitmap.{IsBitmapOf, bitmap_status};
ghost use Rattle.pix_bytes.specs.BitmapFormats.{StoredFormat, pixel_size_of, stored_formats};

use pix_bytes::bitmap;

/// Writes a bitmap from another, `src`, of `width` columns and `height` rows. Each pixel is
/// converted from the format of number `from` to that of number `to`. Between sRGB formats of 8
/// bits and linear ones of 16 bits a pixel goes through light.
///
/// Rows lie a stride of bytes apart, from top to bottom. With a negative stride they go from bottom
/// to top, and the bytes start with the last row. Bytes between the rows stay as they are.
///
/// Returns 0 when all pixels are written. Else nothing is written. The status is then 6 where
/// `from` or `to` is no format's number. Otherwise it is 1 where `dst` doesn't hold the rows, or
/// they would share bytes. Otherwise it is 5, where `src` doesn't hold the rows, or they would
/// share bytes.
#[unsafe(no_mangle)]
pub extern "C" fn pix_raw_convert_bitmap(
    from: u32,
    to: u32,
    src: &[u8],
    dst: &mut [u8],
    src_stride: i64,
    dst_stride: i64,
    width: u32,
    height: u32,
) -> u32
    ensures status { result ≡ bitmap_status from to width height src_stride dst_stride
        (length src.now) (length dst.old) }
    ensures refused { result ≢ 0 → dst.new ≡ dst.old }
    ensures done { (format target : StoredFormat) → slice_get stored_formats from ≡ Some format
        → slice_get stored_formats to ≡ Some target → result ≡ 0
        → IsBitmapOf format target width height src_stride dst_stride src.now dst.old dst.new }
{
    bitmap::convert_bitmap(from, to, src, dst, src_stride, dst_stride, width, height)
}

/// Returns how many bytes a pixel of the format of a number has, and 0 where there is no such
/// format.
#[unsafe(no_mangle)]
pub extern "C" fn pix_raw_format_size(format: u32) -> u32
    ensures { result ≡ pixel_size_of format }
{
    bitmap::pixel_size(format)
}
