//! Buffers of pixels, converted from one format to another.
ghost use Rattle.std.specs.Prelude.{◌≡◌, ◌≢◌, length, Some, slice_get};
ghost use Rattle.pix_bytes.specs.Formats.{BufferFormat, formats};
ghost use Rattle.pix_bytes.specs.Converted.{IsConverted, conversion_status};

use pix_bytes::buffer;

/// Converts `count` pixels of `src`, which have the format of number `from`, to the format of
/// number `to`, and writes them to `dst`.
///
/// A pixel is its channels in order, one byte each, and no byte stands between two pixels. The
/// formats are 0 `SRgba8`, 1 `SRgba8p`, 2 `Rgba8`, 3 `Rgba8p`, 4 `Bgra8`, 5 `Bgra8p`, 6 `Rgb8`, 7
/// `Gray8`, 8 `SBgra8`, 9 `SBgra8p`, 10 `SRgb8` and 11 `SGray8`.
///
/// Returns 0 when they are converted. Else nothing is written, and the status is 6 where `from` or
/// `to` is no format's number, and otherwise 7 where a buffer is not `count` pixels long.
#[unsafe(no_mangle)]
pub extern "C" fn pix_raw_convert(
    from: u32,
    to: u32,
    src: &[u8],
    dst: &mut [u8],
    count: usize,
) -> u32
    ensures status { result ≡
        conversion_status from to (length src.now) (length dst.old) count }
    ensures refused { result ≢ 0 → dst.new ≡ dst.old }
    ensures done { (format target : BufferFormat) → slice_get formats from ≡ Some format
        → slice_get formats to ≡ Some target → result ≡ 0
        → IsConverted format target count src.now dst.new }
{
    buffer::convert_buffer(from, to, src, dst, count)
}
