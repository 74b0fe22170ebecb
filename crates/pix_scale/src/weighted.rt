//! Windows of a picture at another size by tables of the caller's own, in memory that the caller
//! owns.
ghost use Rattle.std.specs.Prelude.{◌≡◌, ◌+◌, ◌*◌, ◌<◌, ◌≤◌, length, IfOk, IfErr, Some, None};
ghost use Rattle.pix_scale.specs.Signed.{IsCut};
ghost use Rattle.pix_scale.specs.Weighted.{given};
ghost use Rattle.pix_scale.specs.WeightedCall.{weighted_words, side_fault, taps_fault, weighted_fault};

use crate::fault::ScaleFault;
use crate::refuse::fit_in;
use crate::shape::Rows;
use crate::weighted_draw::draw_weighted;
use crate::weighted_table::is_table;
use pix_chan::chan::{Linear, Premultiplied};
use pix_el::el::Pixel;
use pix_el::stored::Stored;

/// What counts for each place of a new side, by weights of the caller's own. It may be negative.
#[derive(Clone, Copy, Debug)]
pub struct Weights<'a> {
    /// For each place of the new side the first place of the old one that counts.
    pub firsts: &'a [u32],
    /// How many places count for each, from the first on.
    pub taps: u32,
    /// So many weights for each place of the new side, one place after the other, in 2^14ths. Those
    /// of a place add up to 2^14, and the negative ones of them are more than -2^13 together.
    pub weights: &'a [i32],
}

/// Returns what is wrong with the sides of the source, if anything.
fn side_fault(from: Rows) -> Option<ScaleFault>
    ensures { result ≡ side_fault from }
{
    if from.width == 0 || from.height == 0 {
        return Some(ScaleFault::NoSide);
    }
    if from.width <= 65535 && from.height <= 65535 {
        return None;
    }
    Some(ScaleFault::TooLarge)
}

/// Returns how many words of work memory it takes. Condition: the source is small, a place has no
/// more weights than a side has places, and a pixel has at most eight channels.
fn words(count: usize, to: Rows, from: Rows, taps: u32, lines_taps: u32) -> u64
    requires count { count ≤ 8 }
    requires sizes { taps_fault from taps lines_taps ≡ None }
    ensures { result ≡ weighted_words count to from taps lines_taps }
{
    let (width, height) = (u64::from(to.width), u64::from(to.height));
    2 * (width * u64::from(taps))
        + (2 * (height * u64::from(lines_taps)) + 2 * (u64::from(from.width) * count as u64))
}

/// Returns how many words of work memory [`scale_by`] takes for so many columns and rows, by tables
/// with so many weights for a column and for a row.
///
/// It is refused for a source for which `scale_by` is refused, and for more weights than the source
/// has columns or rows. Condition: a pixel has at most eight channels.
pub fn scale_by_work<P>(
    rows: Rows,
    source: Rows,
    taps: u32,
    lines_taps: u32,
) -> Result<u64, ScaleFault>
where
    P: Pixel<Alpha = Premultiplied, Gamma = Linear>,
    requires few { P.layout.count ≤ 8 }
    ensures ok { IfOk result (λ words. (taps_fault source taps lines_taps ≡ None)
        × (words ≡ weighted_words P.layout.count rows source taps lines_taps)) }
    ensures fault { IfErr result (λ fault. taps_fault source taps lines_taps ≡ Some fault) }
{
    if let Some(fault) = side_fault(source) {
        return Err(fault);
    }
    if taps > source.width || lines_taps > source.height {
        return Err(ScaleFault::BadWeights);
    }
    let count = P::default().channels().len();
    Ok(words(count, rows, source, taps, lines_taps))
}

/// Returns what is wrong with what was passed, if anything. Condition: a pixel has at most eight
/// channels.
fn weighted_fault(
    count: usize,
    to: Rows,
    from: Rows,
    across: Weights<'_>,
    down: Weights<'_>,
    to_len: usize,
    from_len: usize,
    work_len: usize,
) -> Option<ScaleFault>
    requires count { count ≤ 8 }
    ensures { result ≡ weighted_fault count to from across.entry.firsts.now across.entry.taps
        across.entry.weights.now down.entry.firsts.now down.entry.taps down.entry.weights.now
        to_len from_len work_len }
{
    if let Some(fault) = side_fault(from) {
        return Some(fault);
    }
    if !fit_in(to, to_len) {
        return Some(ScaleFault::BadRows);
    }
    if !fit_in(from, from_len) {
        return Some(ScaleFault::BadSource);
    }
    if !(is_table(
        across.firsts,
        across.taps,
        across.weights,
        from.width,
        to.width,
    ) && is_table(down.firsts, down.taps, down.weights, from.height, to.height))
    {
        return Some(ScaleFault::BadWeights);
    }
    if words(count, to, from, across.taps, down.taps) <= work_len as u64 {
        None
    } else {
        Some(ScaleFault::SmallWork)
    }
}

/// Draws rows of a picture at another size, by a table of weights for its columns and one for its
/// rows. The columns of `across` are those of `rows`, and so are the rows of `down`.
///
/// Each channel is the sum of those under it by both weights, rounded once to the nearest, ties up.
/// An alpha is cut at 0 and at the maximum, and a color at 0 and at the new alpha. So a
/// premultiplied picture stays premultiplied. Pixels between the rows and after them stay as they
/// are.
///
/// A table is refused unless it has a row for each column or row, each row of it lies in the
/// source, adds up to 2^14, and takes away less than 2^13. `work` is memory to work in: as many
/// words as [`scale_by_work`] returns. On a refusal nothing is written to `to`. Condition: a pixel
/// has one to eight channels.
pub fn scale_by<P, D>(
    to: &mut [D],
    rows: Rows,
    from: &[D],
    source: Rows,
    across: Weights<'_>,
    down: Weights<'_>,
    work: &mut [u32],
) -> Result<(), ScaleFault>
where
    P: Pixel<Alpha = Premultiplied, Gamma = Linear>,
    D: Stored<P>,
    requires some { 0 < P.layout.count }
    requires few { P.layout.count ≤ 8 }
    ensures ok { IfOk result (λ _. weighted_fault P.layout.count rows source
        across.entry.firsts.now across.entry.taps across.entry.weights.now
        down.entry.firsts.now down.entry.taps down.entry.weights.now
        (length to.old) (length from.now) (length work.old) ≡ None) }
    ensures fault { IfErr result (λ fault. weighted_fault P.layout.count rows source
        across.entry.firsts.now across.entry.taps across.entry.weights.now
        down.entry.firsts.now down.entry.taps down.entry.weights.now
        (length to.old) (length from.now) (length work.old) ≡ Some fault) }
    ensures refused { IfErr result (λ _. to.new ≡ to.old) }
    ensures scaled { IfOk result (λ _. IsCut D.reads P.layout
        (given across.entry.firsts.now across.entry.taps across.entry.weights.now)
        (given down.entry.firsts.now down.entry.taps down.entry.weights.now)
        rows source from.now to.old to.new) }
{
    let count = P::default().channels().len();
    let lengths = (to.len(), from.len(), work.len());
    let fault = weighted_fault(
        count, rows, source, across, down, lengths.0, lengths.1, lengths.2,
    );
    if let Some(fault) = fault {
        return Err(fault);
    }
    draw_weighted::<P, D>(
        to,
        rows,
        from,
        source,
        across.firsts,
        across.taps,
        across.weights,
        down.firsts,
        down.taps,
        down.weights,
        work,
    );
    Ok(())
}
