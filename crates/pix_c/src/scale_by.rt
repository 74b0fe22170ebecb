//! Pictures at another size by tables of the caller's own.
ghost use Rattle.std.specs.Prelude.{◌≡◌, ◌≢◌, ◌<◌, ◌≤◌, length, Option};
ghost use Rattle.pix_flat.specs.Format.{rgba8, rgba8_numbers, rgba16, rgba16_numbers};
ghost use Rattle.pix_flat.specs.Format.{graya8, graya8_numbers};
ghost use Rattle.pix_scale.specs.Signed.{IsCut};
ghost use Rattle.pix_scale.specs.Weighted.{given};
ghost use Rattle.pix_scale.specs.WeightedCall.{weighted_fault};
ghost use Rattle.pix_c.specs.Scale.{fault_status, rows_of, layout_of_bits};
ghost use Rattle.pix_c.specs.ScaleBy.{by_work_status, by_work_words};

use crate::scale::fault_status;
use crate::status::{BAD_FORMAT, DONE};
use pix_chan::chan::{Linear, Premultiplied};
use pix_color::gray::Graya8p;
use pix_el::el::Pixel;
use pix_el::rgb::{Rgba8p, Rgba16p};
use pix_el::stored::Stored;
use pix_flat::format::{PixGraya8, PixRgba8, PixRgba16};
use pix_scale::shape::Rows;
use pix_scale::weighted::{self, Weights};

/// Draws a picture at another size, by two tables.
fn draw_by<P, D>(
    pixels: &mut [D],
    rows: Rows,
    source: &[D],
    source_rows: Rows,
    across: Weights<'_>,
    down: Weights<'_>,
    work: &mut [u32],
) -> u32
where
    P: Pixel<Alpha = Premultiplied, Gamma = Linear>,
    D: Stored<P>,
    requires some { 0 < P.layout.count }
    requires few { P.layout.count ≤ 8 }
    ensures status { result ≡ fault_status (weighted_fault P.layout.count rows source_rows
        across.entry.firsts.now across.entry.taps across.entry.weights.now
        down.entry.firsts.now down.entry.taps down.entry.weights.now
        (length pixels.old) (length source.now) (length work.old)) }
    ensures refused { result ≢ 0 → pixels.new ≡ pixels.old }
    ensures scaled { result ≡ 0 → IsCut D.reads P.layout
        (given across.entry.firsts.now across.entry.taps across.entry.weights.now)
        (given down.entry.firsts.now down.entry.taps down.entry.weights.now)
        rows source_rows source.now pixels.old pixels.new }
{
    match weighted::scale_by::<P, D>(pixels, rows, source, source_rows, across, down, work) {
        Ok(()) => DONE,
        Err(fault) => fault_status(fault),
    }
}

/// Draws a picture at another size, by a table of weights for its columns and one for its rows. Its
/// source has `source_width` columns and `source_height` rows, which start `source_stride` pixels
/// apart in `source`.
///
/// The new picture has `width` columns and `height` rows, which start `stride` pixels apart in
/// `pixels`. For column x count `taps` columns of the source, from that of `firsts[x]` on, by the
/// weights from `weights[x * taps]` on, in 2^14ths. So do rows of the source for a row, by the
/// other table. Each channel is the sum by both weights, rounded once, to the nearest, ties up. An
/// alpha is cut at 0 and at the maximum, and a color at 0 and at the new alpha. `work` is memory to
/// work in, of at least as many words as [`pix_raw_scale_by_work`] says.
///
/// A table has one of the first places and `taps` weights for each column or row. These places lie
/// in the source. The weights of each add up to 2^14, and the negative ones take away less than
/// 2^13.
///
/// Returns 0 when the picture is drawn. Else nothing is written to `pixels`, and the status is the
/// first of these:
///
/// | status | reason |
/// |---|---|
/// | 16 | a side of the source is 0 |
/// | 17 | a side of the source is above 65535 |
/// | 1 | the picture's rows do not fit `pixels` |
/// | 5 | the source's rows do not fit `source` |
/// | 21 | a table is not such a one |
/// | 19 | there is too little work memory |
#[unsafe(no_mangle)]
pub extern "C" fn pix_raw_scale_by(
    pixels: &mut [PixRgba8],
    width: u32,
    height: u32,
    stride: u32,
    source: &[PixRgba8],
    source_width: u32,
    source_height: u32,
    source_stride: u32,
    firsts: &[u32],
    taps: u32,
    weights: &[i32],
    row_firsts: &[u32],
    row_taps: u32,
    row_weights: &[i32],
    work: &mut [u32],
) -> u32
    ensures status { result ≡ fault_status (weighted_fault rgba8.count
        (rows_of width height stride) (rows_of source_width source_height source_stride)
        firsts.now taps weights.now row_firsts.now row_taps row_weights.now
        (length pixels.old) (length source.now) (length work.old)) }
    ensures refused { result ≢ 0 → pixels.new ≡ pixels.old }
    ensures scaled { result ≡ 0 → IsCut rgba8_numbers rgba8 (given firsts.now taps weights.now)
        (given row_firsts.now row_taps row_weights.now) (rows_of width height stride)
        (rows_of source_width source_height source_stride) source.now pixels.old pixels.new }
{
    let rows = Rows {
        width,
        height,
        stride,
    };
    let source_rows = Rows {
        width: source_width,
        height: source_height,
        stride: source_stride,
    };
    let across = Weights {
        firsts,
        taps,
        weights,
    };
    let down = Weights {
        firsts: row_firsts,
        taps: row_taps,
        weights: row_weights,
    };
    draw_by::<Rgba8p, PixRgba8>(pixels, rows, source, source_rows, across, down, work)
}

/// Draws a picture at another size, as [`pix_raw_scale_by`] draws it, on pixels of 16-bit red,
/// green, blue and alpha. The arguments and the statuses are the same.
#[unsafe(no_mangle)]
pub extern "C" fn pix_raw_scale_by_rgba16(
    pixels: &mut [PixRgba16],
    width: u32,
    height: u32,
    stride: u32,
    source: &[PixRgba16],
    source_width: u32,
    source_height: u32,
    source_stride: u32,
    firsts: &[u32],
    taps: u32,
    weights: &[i32],
    row_firsts: &[u32],
    row_taps: u32,
    row_weights: &[i32],
    work: &mut [u32],
) -> u32
    ensures status { result ≡ fault_status (weighted_fault rgba16.count
        (rows_of width height stride) (rows_of source_width source_height source_stride)
        firsts.now taps weights.now row_firsts.now row_taps row_weights.now
        (length pixels.old) (length source.now) (length work.old)) }
    ensures refused { result ≢ 0 → pixels.new ≡ pixels.old }
    ensures scaled { result ≡ 0 → IsCut rgba16_numbers rgba16 (given firsts.now taps weights.now)
        (given row_firsts.now row_taps row_weights.now) (rows_of width height stride)
        (rows_of source_width source_height source_stride) source.now pixels.old pixels.new }
{
    let rows = Rows {
        width,
        height,
        stride,
    };
    let source_rows = Rows {
        width: source_width,
        height: source_height,
        stride: source_stride,
    };
    let across = Weights {
        firsts,
        taps,
        weights,
    };
    let down = Weights {
        firsts: row_firsts,
        taps: row_taps,
        weights: row_weights,
    };
    draw_by::<Rgba16p, PixRgba16>(pixels, rows, source, source_rows, across, down, work)
}

/// Draws a picture at another size, as [`pix_raw_scale_by`] draws it, on pixels of 8-bit gray and
/// alpha. The arguments and the statuses are the same.
#[unsafe(no_mangle)]
pub extern "C" fn pix_raw_scale_by_graya8(
    pixels: &mut [PixGraya8],
    width: u32,
    height: u32,
    stride: u32,
    source: &[PixGraya8],
    source_width: u32,
    source_height: u32,
    source_stride: u32,
    firsts: &[u32],
    taps: u32,
    weights: &[i32],
    row_firsts: &[u32],
    row_taps: u32,
    row_weights: &[i32],
    work: &mut [u32],
) -> u32
    ensures status { result ≡ fault_status (weighted_fault graya8.count
        (rows_of width height stride) (rows_of source_width source_height source_stride)
        firsts.now taps weights.now row_firsts.now row_taps row_weights.now
        (length pixels.old) (length source.now) (length work.old)) }
    ensures refused { result ≢ 0 → pixels.new ≡ pixels.old }
    ensures scaled { result ≡ 0 → IsCut graya8_numbers graya8 (given firsts.now taps weights.now)
        (given row_firsts.now row_taps row_weights.now) (rows_of width height stride)
        (rows_of source_width source_height source_stride) source.now pixels.old pixels.new }
{
    let rows = Rows {
        width,
        height,
        stride,
    };
    let source_rows = Rows {
        width: source_width,
        height: source_height,
        stride: source_stride,
    };
    let across = Weights {
        firsts,
        taps,
        weights,
    };
    let down = Weights {
        firsts: row_firsts,
        taps: row_taps,
        weights: row_weights,
    };
    draw_by::<Graya8p, PixGraya8>(pixels, rows, source, source_rows, across, down, work)
}

/// Returns how many words it takes, or what is wrong with the source or with the number of weights.
fn work_for<P>(rows: Rows, source: Rows, taps: u32, row_taps: u32, words: &mut u64) -> u32
where
    P: Pixel<Alpha = Premultiplied, Gamma = Linear>,
    requires few { P.layout.count ≤ 8 }
    ensures status { result ≡ by_work_status (Option.Some P.layout) source taps row_taps }
    ensures refused { result ≢ 0 → words.new ≡ 0 }
    ensures words { result ≡ 0
        → words.new ≡ by_work_words (Option.Some P.layout) rows source taps row_taps }
{
    *words = 0;
    match weighted::scale_by_work::<P>(rows, source, taps, row_taps) {
        Ok(count) => {
            *words = count;
            DONE
        }
        Err(fault) => fault_status(fault),
    }
}

/// Writes how many words of work memory [`pix_raw_scale_by`] takes for a picture of `width` columns
/// and `height` rows, by tables of `taps` and `row_taps` weights for each. The pixels have so many
/// channels of so many bits: 4 of 8, 4 of 16, or 2 of 8.
///
/// Returns 0, or the status with which `pix_raw_scale_by` refuses the sides of the source, or 21
/// where a table has more weights for a place than the source has places, or 6 where there are no
/// such pixels. `words` is 0 then.
#[unsafe(no_mangle)]
pub extern "C" fn pix_raw_scale_by_work(
    width: u32,
    height: u32,
    source_width: u32,
    source_height: u32,
    taps: u32,
    row_taps: u32,
    channels: u32,
    bits: u32,
    words: &mut u64,
) -> u32
    ensures status { result ≡ by_work_status (layout_of_bits channels bits)
        (rows_of source_width source_height source_width) taps row_taps }
    ensures refused { result ≢ 0 → words.new ≡ 0 }
    ensures words { result ≡ 0 → words.new ≡ by_work_words (layout_of_bits channels bits)
        (rows_of width height width) (rows_of source_width source_height source_width)
        taps row_taps }
{
    let rows = Rows {
        width,
        height,
        stride: width,
    };
    let source = Rows {
        width: source_width,
        height: source_height,
        stride: source_width,
    };
    *words = 0;
    if channels == 4 && bits == 8 {
        work_for::<Rgba8p>(rows, source, taps, row_taps, words)
    } else if channels == 4 && bits == 16 {
        work_for::<Rgba16p>(rows, source, taps, row_taps, words)
    } else if channels == 2 && bits == 8 {
        work_for::<Graya8p>(rows, source, taps, row_taps, words)
    } else {
        BAD_FORMAT
    }
}
