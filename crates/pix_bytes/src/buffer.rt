//! Buffers of pixels, converted from one format to another.
ghost use Rattle.std.specs.Prelude.{◌≡◌, ◌≢◌, ◌+◌, ◌*◌, ◌<◌, ◌≤◌};
ghost use Rattle.std.specs.Prelude.{ℕ, length, Some, slice_get, nat_eq};
ghost use Rattle.std.specs.Option.{option_map};
ghost use Rattle.pix_bytes.specs.Formats.{BufferFormat, channels, channels_of, formats};
ghost use Rattle.pix_bytes.specs.Converted.{IsConverted, conversion_status};

use crate::bitmap::format::FormatParts;
use crate::bitmap::row_conversion::convert_row_ahead;
use crate::bitmap::{BAD_FORMAT, DONE};
use crate::buffer::bytes::Bytes;
use pix_chan::chan::{Alpha, Ch8, Gamma, Linear, Premultiplied, Srgb, Straight};
use pix_color::bgr::Bgr;
use pix_color::gray::Gray;
use pix_el::el::{Pix, Pixel};
use pix_el::model::ColorModel;
use pix_el::rgb::Rgb;

mod bytes;

/// The length of a buffer is not that of its pixels.
pub const BAD_LENGTH: u32 = 7;

/// Converts `count` pixels of `src`, which have the format of number `from`, to the format of
/// number `to`, and writes them to `dst`.
///
/// A pixel is its channels in order, one byte each, and no byte stands between two pixels.
///
/// Returns 0 when they are converted. Else nothing is written, and the status is 6 where `from` or
/// `to` is no format's number, and otherwise 7 where a buffer is not `count` pixels long.
pub fn convert_buffer(from: u32, to: u32, src: &[u8], dst: &mut [u8], count: usize) -> u32
    ensures status { result ≡
        conversion_status from to (length src.now) (length dst.old) count }
    ensures refused { result ≢ 0 → dst.new ≡ dst.old }
    ensures done { (format target : BufferFormat) → slice_get formats from ≡ Some format
        → slice_get formats to ≡ Some target → result ≡ 0
        → IsConverted format target count src.now dst.new }
{
    let (Some(wide), Some(to_wide)) = (channel_count(from), channel_count(to)) else {
        return BAD_FORMAT;
    };
    if !are_pixels(src.len(), wide, count) {
        return BAD_LENGTH;
    }
    if !are_pixels(dst.len(), to_wide, count) {
        return BAD_LENGTH;
    }
    convert_usual(from, to, wide, to_wide, src, dst, count);
    DONE
}

/// Converts `count` pixels of the format of number `from`, of `wide` channels each, to pixels of
/// the format of number `to`, of `to_wide` channels. Each pair of formats has a loop of its own.
///
/// Condition: there are `count` in both buffers.
pub(crate) fn convert_usual(
    from: u32,
    to: u32,
    wide: usize,
    to_wide: usize,
    src: &[u8],
    dst: &mut [u8],
    count: usize,
)
    requires wide { wide ≡ channels_of from }
    requires to_wide { to_wide ≡ channels_of to }
    requires src { length src.now ≡ count * wide }
    requires dst { length dst.old ≡ count * to_wide }
    ensures { (format target : BufferFormat) → slice_get formats from ≡ Some format
        → slice_get formats to ≡ Some target
        → IsConverted format target count src.now dst.new }
{
    let first = convert_ahead(from, to, src, dst, count);
    convert_rest(from, to, wide, to_wide, src, dst, first, count);
}

/// Converts as many of the first `count` pixels as are converted several at once, and returns their
/// number. Condition: there are `count` in both buffers.
fn convert_ahead(from: u32, to: u32, src: &[u8], dst: &mut [u8], count: usize) -> usize
    requires src { length src.now ≡ count * channels_of from }
    requires dst { length dst.old ≡ count * channels_of to }
    ensures some { result ≤ count }
    ensures each { (format target : BufferFormat) → slice_get formats from ≡ Some format
        → slice_get formats to ≡ Some target
        → IsConverted format target result src.now dst.new }
{
    if from >= 12 {
        return 0;
    }
    if to >= 12 {
        return 0;
    }
    match (FormatParts::from_number(from), FormatParts::from_number(to)) {
        (Some(format), Some(target)) => convert_row_ahead(format, target, src, dst, count),
        _ => 0,
    }
}

/// Converts the pixels from number `first` on, of `wide` channels each, to pixels of `to_wide`
/// channels. Condition: there are `count` in both buffers, and those before are converted.
fn convert_rest(
    from: u32,
    to: u32,
    wide: usize,
    to_wide: usize,
    src: &[u8],
    dst: &mut [u8],
    first: usize,
    count: usize,
)
    requires wide { wide ≡ channels_of from }
    requires to_wide { to_wide ≡ channels_of to }
    requires src { length src.now ≡ count * wide }
    requires dst { length dst.old ≡ count * to_wide }
    requires some { first ≤ count }
    requires ahead { (format target : BufferFormat) → slice_get formats from ≡ Some format
        → slice_get formats to ≡ Some target
        → IsConverted format target first src.now dst.old }
    ensures { (format target : BufferFormat) → slice_get formats from ≡ Some format
        → slice_get formats to ≡ Some target
        → IsConverted format target count src.now dst.new }
{
    let (start, end) = (first * wide, src.len());
    let (to_start, to_end) = (first * to_wide, dst.len());
    convert(
        from,
        to,
        &src[start..end],
        &mut dst[to_start..to_end],
        count - first,
    );
}

/// Returns the number of channels of a pixel of the format of this number, if there is such a
/// format.
fn channel_count(number: u32) -> Option<usize>
    ensures { result ≡ option_map channels (slice_get formats number) }
{
    match number {
        0..=5 | 8 | 9 => Some(4),
        6 | 10 => Some(3),
        7 | 11 => Some(1),
        _ => None,
    }
}

/// Returns whether a buffer of this length holds `count` pixels of `wide` channels each.
fn are_pixels(len: usize, wide: usize, count: usize) -> bool
    ensures { result ≡ nat_eq len (count * wide) }
{
    count.checked_mul(wide) == Some(len)
}

/// Converts pixels of the format of number `from` to the format of number `to`. Condition: there
/// are `count` in both buffers.
fn convert(from: u32, to: u32, src: &[u8], dst: &mut [u8], count: usize)
    requires src { length src.now ≡ count * channels_of from }
    requires dst { length dst.old ≡ count * channels_of to }
    ensures { (format target : BufferFormat) → slice_get formats from ≡ Some format
        → slice_get formats to ≡ Some target
        → IsConverted format target count src.now dst.new }
{
    match from {
        0 => convert_from::<4, Rgb, Straight, Srgb>(to, src, dst, count),
        1 => convert_from::<4, Rgb, Premultiplied, Srgb>(to, src, dst, count),
        2 => convert_from::<4, Rgb, Straight, Linear>(to, src, dst, count),
        3 => convert_from::<4, Rgb, Premultiplied, Linear>(to, src, dst, count),
        4 => convert_from::<4, Bgr, Straight, Linear>(to, src, dst, count),
        5 => convert_from::<4, Bgr, Premultiplied, Linear>(to, src, dst, count),
        6 => convert_from::<3, Rgb, Straight, Linear>(to, src, dst, count),
        7 => convert_from::<1, Gray, Straight, Linear>(to, src, dst, count),
        8 => convert_from::<4, Bgr, Straight, Srgb>(to, src, dst, count),
        9 => convert_from::<4, Bgr, Premultiplied, Srgb>(to, src, dst, count),
        10 => convert_from::<3, Rgb, Straight, Srgb>(to, src, dst, count),
        11 => convert_from::<1, Gray, Straight, Srgb>(to, src, dst, count),
        _ => {}
    }
}

/// Converts pixels of `N` channels of the model `M`, in these modes, to the format of number `to`.
///
/// Condition: there are `count` in both buffers, and `N` is at most four.
fn convert_from<const N: usize, M, A, G>(to: u32, src: &[u8], dst: &mut [u8], count: usize)
where
    M: ColorModel,
    A: Alpha,
    G: Gamma<Ch8>,
    requires few { N ≤ 4 }
    requires src { length src.now ≡ count * N }
    requires dst { length dst.old ≡ count * channels_of to }
    ensures { (target : BufferFormat) → slice_get formats to ≡ Some target
        → IsConverted
        (record { format = ⟦<Pix<N, Ch8, M, A, G> as Pixel>⟧.format; gamma = G.mode })
        target count src.now dst.new }
{
    match to {
        0 => convert_pixels::<N, M, A, G, 4, Rgb, Straight, Srgb>(src, dst, count),
        1 => convert_pixels::<N, M, A, G, 4, Rgb, Premultiplied, Srgb>(src, dst, count),
        2 => convert_pixels::<N, M, A, G, 4, Rgb, Straight, Linear>(src, dst, count),
        3 => convert_pixels::<N, M, A, G, 4, Rgb, Premultiplied, Linear>(src, dst, count),
        4 => convert_pixels::<N, M, A, G, 4, Bgr, Straight, Linear>(src, dst, count),
        5 => convert_pixels::<N, M, A, G, 4, Bgr, Premultiplied, Linear>(src, dst, count),
        6 => convert_pixels::<N, M, A, G, 3, Rgb, Straight, Linear>(src, dst, count),
        7 => convert_pixels::<N, M, A, G, 1, Gray, Straight, Linear>(src, dst, count),
        8 => convert_pixels::<N, M, A, G, 4, Bgr, Straight, Srgb>(src, dst, count),
        9 => convert_pixels::<N, M, A, G, 4, Bgr, Premultiplied, Srgb>(src, dst, count),
        10 => convert_pixels::<N, M, A, G, 3, Rgb, Straight, Srgb>(src, dst, count),
        11 => convert_pixels::<N, M, A, G, 1, Gray, Straight, Srgb>(src, dst, count),
        _ => {}
    }
}

/// Converts pixels of `N` channels of the model `M` to pixels of `K` channels of the model `L`,
/// each in modes of its own.
///
/// Condition: there are `count` in both buffers, `N` is at most four, and `K` no more than the
/// channels of `L`.
fn convert_pixels<const N: usize, M, A, G, const K: usize, L, B, H>(
    src: &[u8],
    dst: &mut [u8],
    count: usize,
)
where
    M: ColorModel,
    A: Alpha,
    G: Gamma<Ch8>,
    L: ColorModel,
    B: Alpha,
    H: Gamma<Ch8>,
    requires few { N ≤ 4 }
    requires of_model { K ≤ L.ALPHA + 1 }
    requires src { length src.now ≡ count * N }
    requires dst { length dst.old ≡ count * K }
    ensures { IsConverted
        (record { format = ⟦<Pix<N, Ch8, M, A, G> as Pixel>⟧.format; gamma = G.mode })
        (record { format = ⟦<Pix<K, Ch8, L, B, H> as Pixel>⟧.format; gamma = H.mode })
        count src.now dst.new }
{
    for index in 0..count {
        let start = index * N;
        let pixel = Pix::<N, Ch8, M, A, G>::of_bytes(&src[start..start + N]);
        let made = pixel.convert::<Pix<K, Ch8, L, B, H>>();
        let start = index * K;
        made.write(&mut dst[start..start + K]);
    }
}
