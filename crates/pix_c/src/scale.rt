//! Pictures at another size.
ghost use Rattle.std.specs.Prelude.{◌≡◌, ◌≢◌, ◌<◌, ◌≤◌, length, Option};
ghost use Rattle.pix_flat.specs.Format.{rgba8, rgba8_numbers, rgba16, rgba16_numbers};
ghost use Rattle.pix_flat.specs.Format.{graya8, graya8_numbers};
ghost use Rattle.pix_c.specs.Scale.{filter_of, signed_of, fault_status, rows_of, view_of, scale_status, IsScaledBy};
ghost use Rattle.pix_c.specs.Scale.{layout_of_bits, work_status, work_words};

use crate::status::{BAD_FORMAT, BAD_SIZE, BAD_SOURCE, DONE};
use pix_chan::chan::{Linear, Premultiplied};
use pix_color::gray::Graya8p;
use pix_el::el::Pixel;
use pix_el::rgb::{Rgba8p, Rgba16p};
use pix_el::stored::Stored;
use pix_flat::format::{PixGraya8, PixRgba8, PixRgba16};
use pix_scale::fault::ScaleFault;
use pix_scale::filter::{Filter, SignedFilter};
use pix_scale::shape::{Rows, View};
use pix_scale::{scale, signed};

/// A side of the source or of the new picture is 0.
pub const NO_SIDE: u32 = 16;

/// A side of the source is above 65535, or the sides of the new picture are above what the sums
/// allow.
pub const TOO_LARGE: u32 = 17;

/// The window is not in the new picture.
pub const OUTSIDE: u32 = 18;

/// There is too little work memory.
pub const SMALL_WORK: u32 = 19;

/// There is no such filter.
pub const BAD_FILTER: u32 = 20;

/// A table of weights does not fit the picture, or a row of it does not lie in the source or does
/// not add up.
pub const BAD_WEIGHTS: u32 = 21;

/// Returns the filter of a number, if there is one.
fn filter_of(number: u32) -> Option<Filter>
    ensures { result ≡ filter_of number }
{
    match number {
        0 => Some(Filter::Nearest),
        1 => Some(Filter::Area),
        2 => Some(Filter::Linear),
        _ => None,
    }
}

/// Returns the filter of a number whose weights may be negative, if there is one.
fn signed_of(number: u32) -> Option<SignedFilter>
    ensures { result ≡ signed_of number }
{
    match number {
        3 => Some(SignedFilter::CatmullRom),
        4 => Some(SignedFilter::Mitchell),
        5 => Some(SignedFilter::Lanczos),
        _ => None,
    }
}

/// Returns the status of a fault.
pub(crate) fn fault_status(fault: ScaleFault) -> u32
    ensures { result ≡ fault_status (Option.Some fault) }
{
    match fault {
        ScaleFault::NoSide => NO_SIDE,
        ScaleFault::TooLarge => TOO_LARGE,
        ScaleFault::Outside => OUTSIDE,
        ScaleFault::BadRows => BAD_SIZE,
        ScaleFault::BadSource => BAD_SOURCE,
        ScaleFault::BadWeights => BAD_WEIGHTS,
        ScaleFault::SmallWork => SMALL_WORK,
    }
}

/// Draws a window of a picture at another size, by the filter of a number.
fn scale_by<P, D>(
    pixels: &mut [D],
    rows: Rows,
    view: View,
    source: &[D],
    source_rows: Rows,
    filter: u32,
    work: &mut [u32],
) -> u32
where
    P: Pixel<Alpha = Premultiplied, Gamma = Linear>,
    D: Stored<P>,
    requires some { 0 < P.layout.count }
    requires few { P.layout.count ≤ 8 }
    ensures status { result ≡ scale_status P.layout (filter_of filter) (signed_of filter) view
        rows source_rows (length pixels.old) (length source.now) (length work.old) }
    ensures refused { result ≢ 0 → pixels.new ≡ pixels.old }
    ensures scaled { result ≡ 0 → IsScaledBy D.reads P.layout (filter_of filter) (signed_of filter)
        view rows source_rows source.now pixels.old pixels.new }
{
    match filter_of(filter) {
        Some(filter) => {
            match scale::scale::<P, D>(pixels, rows, view, source, source_rows, filter, work) {
                Ok(()) => DONE,
                Err(fault) => fault_status(fault),
            }
        }
        None => match signed_of(filter) {
            Some(filter) => {
                match signed::scale_signed::<P, D>(
                    pixels,
                    rows,
                    view,
                    source,
                    source_rows,
                    filter,
                    work,
                ) {
                    Ok(()) => DONE,
                    Err(fault) => fault_status(fault),
                }
            }
            None => BAD_FILTER,
        },
    }
}

/// Draws a window of a picture at another size. Its source has `source_width` columns and
/// `source_height` rows, which start `source_stride` pixels apart in `source`.
///
/// The whole new picture has `across` columns and `down` rows. The window has `width` columns and
/// `height` rows of it, which start `stride` pixels apart in `pixels`. Its first pixel is that of
/// the new picture's point (`left`, `top`). A window is that part of the whole new picture, so the
/// picture can be drawn window by window.
///
/// The filter is 0 (the nearest pixel), 1 (areas), 2 (linear: a triangle where a side shrinks),
/// 3 (Catmull-Rom), 4 (Mitchell) or 5 (Lanczos). Each channel is rounded once, to the nearest, ties
/// up. By the last three, which have weights below 0, a color is cut at the new alpha. `work` is
/// memory to work in, of at least as many words as [`pix_raw_scale_work`] says.
///
/// Returns 0 when the window is drawn. Else nothing is written to `pixels`, and the status is the
/// first of these:
///
/// | status | reason |
/// |---|---|
/// | 20 | there is no such filter |
/// | 16 | a side of the source or of the new picture is 0 |
/// | 17 | a side of the source is above 65535, or the sums would not fit |
/// | 18 | the window is not in the new picture |
/// | 1 | the window's rows do not fit `pixels` |
/// | 5 | the source's rows do not fit `source` |
/// | 19 | there is too little work memory |
#[unsafe(no_mangle)]
pub extern "C" fn pix_raw_scale(
    pixels: &mut [PixRgba8],
    left: u32,
    top: u32,
    width: u32,
    height: u32,
    stride: u32,
    across: u32,
    down: u32,
    source: &[PixRgba8],
    source_width: u32,
    source_height: u32,
    source_stride: u32,
    filter: u32,
    work: &mut [u32],
) -> u32
    ensures status { result ≡ scale_status rgba8 (filter_of filter)
        (signed_of filter) (view_of left top across down) (rows_of width height stride)
        (rows_of source_width source_height source_stride)
        (length pixels.old) (length source.now) (length work.old) }
    ensures refused { result ≢ 0 → pixels.new ≡ pixels.old }
    ensures scaled { result ≡ 0 → IsScaledBy rgba8_numbers rgba8 (filter_of filter)
        (signed_of filter) (view_of left top across down) (rows_of width height stride)
        (rows_of source_width source_height source_stride) source.now pixels.old pixels.new }
{
    let view = View {
        left,
        top,
        across,
        down,
    };
    let rows = Rows {
        width,
        height,
        stride,
    };
    let source_rows = Rows {
        width: source_width,
        height: source_height,
        stride: source_stride,
    };
    scale_by::<Rgba8p, PixRgba8>(pixels, rows, view, source, source_rows, filter, work)
}

/// Draws a window of a picture at another size, as [`pix_raw_scale`] draws it, on pixels of 16-bit
/// red, green, blue and alpha. The arguments and the statuses are the same.
#[unsafe(no_mangle)]
pub extern "C" fn pix_raw_scale_rgba16(
    pixels: &mut [PixRgba16],
    left: u32,
    top: u32,
    width: u32,
    height: u32,
    stride: u32,
    across: u32,
    down: u32,
    source: &[PixRgba16],
    source_width: u32,
    source_height: u32,
    source_stride: u32,
    filter: u32,
    work: &mut [u32],
) -> u32
    ensures status { result ≡ scale_status rgba16 (filter_of filter)
        (signed_of filter) (view_of left top across down) (rows_of width height stride)
        (rows_of source_width source_height source_stride)
        (length pixels.old) (length source.now) (length work.old) }
    ensures refused { result ≢ 0 → pixels.new ≡ pixels.old }
    ensures scaled { result ≡ 0 → IsScaledBy rgba16_numbers rgba16 (filter_of filter)
        (signed_of filter) (view_of left top across down) (rows_of width height stride)
        (rows_of source_width source_height source_stride) source.now pixels.old pixels.new }
{
    let view = View {
        left,
        top,
        across,
        down,
    };
    let rows = Rows {
        width,
        height,
        stride,
    };
    let source_rows = Rows {
        width: source_width,
        height: source_height,
        stride: source_stride,
    };
    scale_by::<Rgba16p, PixRgba16>(pixels, rows, view, source, source_rows, filter, work)
}

/// Draws a window of a picture at another size, as [`pix_raw_scale`] draws it, on pixels of 8-bit
/// gray and alpha. The arguments and the statuses are the same.
#[unsafe(no_mangle)]
pub extern "C" fn pix_raw_scale_graya8(
    pixels: &mut [PixGraya8],
    left: u32,
    top: u32,
    width: u32,
    height: u32,
    stride: u32,
    across: u32,
    down: u32,
    source: &[PixGraya8],
    source_width: u32,
    source_height: u32,
    source_stride: u32,
    filter: u32,
    work: &mut [u32],
) -> u32
    ensures status { result ≡ scale_status graya8 (filter_of filter)
        (signed_of filter) (view_of left top across down) (rows_of width height stride)
        (rows_of source_width source_height source_stride)
        (length pixels.old) (length source.now) (length work.old) }
    ensures refused { result ≢ 0 → pixels.new ≡ pixels.old }
    ensures scaled { result ≡ 0 → IsScaledBy graya8_numbers graya8 (filter_of filter)
        (signed_of filter) (view_of left top across down) (rows_of width height stride)
        (rows_of source_width source_height source_stride) source.now pixels.old pixels.new }
{
    let view = View {
        left,
        top,
        across,
        down,
    };
    let rows = Rows {
        width,
        height,
        stride,
    };
    let source_rows = Rows {
        width: source_width,
        height: source_height,
        stride: source_stride,
    };
    scale_by::<Graya8p, PixGraya8>(pixels, rows, view, source, source_rows, filter, work)
}

/// Returns how many words it takes, or what is wrong with the sizes.
fn work_for<P>(rows: Rows, view: View, source: Rows, filter: u32, words: &mut u64) -> u32
where
    P: Pixel<Alpha = Premultiplied, Gamma = Linear>,
    requires few { P.layout.count ≤ 8 }
    ensures status { result ≡ work_status (Option.Some P.layout) (filter_of filter)
        (signed_of filter) view source }
    ensures refused { result ≢ 0 → words.new ≡ 0 }
    ensures words { result ≡ 0 → words.new ≡ work_words (Option.Some P.layout) (filter_of filter)
        (signed_of filter) view rows source }
{
    *words = 0;
    let result = match filter_of(filter) {
        Some(filter) => scale::scale_work::<P>(rows, view, source, filter),
        None => match signed_of(filter) {
            Some(filter) => signed::scale_signed_work::<P>(rows, view, source, filter),
            None => return BAD_FILTER,
        },
    };
    match result {
        Ok(count) => {
            *words = count;
            DONE
        }
        Err(fault) => fault_status(fault),
    }
}

/// Returns what is wrong where there are no such pixels: the filter first.
fn no_pixels(filter: u32) -> u32
    ensures status { (view : View) (source : Rows) → result
        ≡ work_status Option.None (filter_of filter) (signed_of filter) view source }
    ensures some { result ≢ 0 }
{
    if filter_of(filter).is_none() && signed_of(filter).is_none() {
        BAD_FILTER
    } else {
        BAD_FORMAT
    }
}

/// Writes how many words of work memory [`pix_raw_scale`] takes for a window of `width` columns and
/// `height` rows. The pixels have so many channels of so many bits: 4 of 8, 4 of 16, or 2 of 8.
///
/// Returns 0, or the status with which `pix_raw_scale` refuses the filter or the sizes, or 6 where
/// there are no such pixels. `words` is 0 then.
#[unsafe(no_mangle)]
pub extern "C" fn pix_raw_scale_work(
    width: u32,
    height: u32,
    across: u32,
    down: u32,
    source_width: u32,
    source_height: u32,
    channels: u32,
    bits: u32,
    filter: u32,
    words: &mut u64,
) -> u32
    ensures status { result ≡ work_status (layout_of_bits channels bits) (filter_of filter)
        (signed_of filter) (view_of 0 0 across down)
        (rows_of source_width source_height source_width) }
    ensures refused { result ≢ 0 → words.new ≡ 0 }
    ensures words { result ≡ 0 → words.new ≡ work_words (layout_of_bits channels bits)
        (filter_of filter) (signed_of filter) (view_of 0 0 across down)
        (rows_of width height width)
        (rows_of source_width source_height source_width) }
{
    let (left, top) = (0, 0);
    let view = View {
        left,
        top,
        across,
        down,
    };
    let rows = Rows {
        width,
        height,
        stride: width,
    };
    let source = Rows {
        width: source_width,
        height: source_height,
        stride: source_width,
    };
    *words = 0;
    if channels == 4 && bits == 8 {
        work_for::<Rgba8p>(rows, view, source, filter, words)
    } else if channels == 4 && bits == 16 {
        work_for::<Rgba16p>(rows, view, source, filter, words)
    } else if channels == 2 && bits == 8 {
        work_for::<Graya8p>(rows, view, source, filter, words)
    } else {
        no_pixels(filter)
    }
}
