//! Windows of a picture at another size by weights that may be negative, in memory that the caller
//! owns.
ghost use Rattle.std.specs.Prelude.{◌≡◌, ◌+◌, ◌*◌, ◌<◌, ◌≤◌, length, IfOk, IfErr, Some, None};
ghost use Rattle.pix_scale.specs.Signed.{IsCut};
ghost use Rattle.pix_scale.specs.SignedCall.{signed_taps, signed_count, signed_words, signed_size_fault, signed_memory_fault, signed_fault};

use crate::fault::ScaleFault;
use crate::filter::{Filter, SignedFilter};
use crate::refuse::{fit_in, is_inside};
use crate::shape::{Rows, View};
use crate::side::Side;
use crate::signed_draw::draw_signed;
use crate::signed_weights::taps;
use pix_chan::chan::{Linear, Premultiplied};
use pix_el::el::Pixel;
use pix_el::stored::Stored;

/// Returns what is wrong with the sizes, if anything.
fn signed_size_fault(view: View, from: Rows) -> Option<ScaleFault>
    ensures { result ≡ signed_size_fault view from }
{
    if from.width == 0 || from.height == 0 || view.across == 0 || view.down == 0 {
        return Some(ScaleFault::NoSide);
    }
    if from.width <= 65535 && from.height <= 65535 {
        return None;
    }
    Some(ScaleFault::TooLarge)
}

/// Returns how many places count for a place of the new side. Condition: no side is 0, and the
/// source is small.
fn signed_count(filter: SignedFilter, places: u32, size: u32) -> u64
    requires places { 0 < places }
    requires few { places ≤ 65535 }
    requires size { 0 < size }
    ensures value { result ≡ signed_count filter places size }
    ensures small { result ≤ 65535 }
{
    let side = Side::new(Filter::Nearest, places, size);
    taps(filter, places as u64, side.n as u64, side.m as u64)
}

/// Returns how many words of work memory it takes. Condition: nothing is wrong with the sizes, and
/// a pixel has at most eight channels.
fn signed_words(count: usize, filter: SignedFilter, view: View, to: Rows, from: Rows) -> u64
    requires count { count ≤ 8 }
    requires sizes { signed_size_fault view from ≡ None }
    ensures { result ≡ signed_words count filter view to from }
{
    let across = signed_count(filter, from.width, view.across);
    let down = signed_count(filter, from.height, view.down);
    let (width, height) = (to.width as u64, to.height as u64);
    (width + 2 * (width * across))
        + ((height + 2 * (height * down)) + 2 * (from.width as u64 * count as u64))
}

/// Returns what is wrong with the memory that was passed, if anything. Condition: nothing is wrong
/// with the sizes, and a pixel has at most eight channels.
fn signed_memory_fault(
    count: usize,
    filter: SignedFilter,
    view: View,
    to: Rows,
    from: Rows,
    to_len: usize,
    from_len: usize,
    work_len: usize,
) -> Option<ScaleFault>
    requires count { count ≤ 8 }
    requires sizes { signed_size_fault view from ≡ None }
    ensures { result ≡ signed_memory_fault count filter view to from to_len from_len work_len }
{
    if !is_inside(view, to) {
        return Some(ScaleFault::Outside);
    }
    if !fit_in(to, to_len) {
        return Some(ScaleFault::BadRows);
    }
    if !fit_in(from, from_len) {
        return Some(ScaleFault::BadSource);
    }
    if signed_words(count, filter, view, to, from) <= work_len as u64 {
        None
    } else {
        Some(ScaleFault::SmallWork)
    }
}

/// Returns how many words of work memory [`scale_signed`] takes for a window of that size.
///
/// It is refused for the sizes for which `scale_signed` is refused. Condition: a pixel has at most
/// eight channels.
pub fn scale_signed_work<P>(
    rows: Rows,
    view: View,
    source: Rows,
    filter: SignedFilter,
) -> Result<u64, ScaleFault>
where
    P: Pixel<Alpha = Premultiplied, Gamma = Linear>,
    requires few { P.layout.count ≤ 8 }
    ensures ok { IfOk result (λ words. (signed_size_fault view source ≡ None)
        × (words ≡ signed_words P.layout.count filter view rows source)) }
    ensures fault { IfErr result (λ fault. signed_size_fault view source ≡ Some fault) }
{
    match signed_size_fault(view, source) {
        Some(fault) => Err(fault),
        None => {
            let count = P::default().channels().len();
            Ok(signed_words(count, filter, view, rows, source))
        }
    }
}

/// Draws a window of a picture at another size, by a filter whose weights may be negative. It has
/// the width and the height of `rows`, and its first pixel is that of the new picture's point
/// (`view.left`, `view.top`).
///
/// Each channel is the sum of those under it, by weights of 2^14ths, rounded once to the nearest,
/// ties up. An alpha is cut at 0 and at the maximum, and a color at 0 and at the new alpha. So a
/// premultiplied picture stays premultiplied. A window is that part of the whole new picture.
/// Pixels between the rows and after them stay as they are.
///
/// `work` is memory to work in: as many words as [`scale_signed_work`] returns. On a refusal
/// nothing is written to `to`. Condition: a pixel has one to eight channels.
pub fn scale_signed<P, D>(
    to: &mut [D],
    rows: Rows,
    view: View,
    from: &[D],
    source: Rows,
    filter: SignedFilter,
    work: &mut [u32],
) -> Result<(), ScaleFault>
where
    P: Pixel<Alpha = Premultiplied, Gamma = Linear>,
    D: Stored<P>,
    requires some { 0 < P.layout.count }
    requires few { P.layout.count ≤ 8 }
    ensures ok { IfOk result (λ _. signed_fault P.layout.count filter view rows source
        (length to.old) (length from.now) (length work.old) ≡ None) }
    ensures fault { IfErr result (λ fault. signed_fault P.layout.count filter view rows source
        (length to.old) (length from.now) (length work.old) ≡ Some fault) }
    ensures refused { IfErr result (λ _. to.new ≡ to.old) }
    ensures scaled { IfOk result (λ _. IsCut D.reads P.layout
        (λ x. signed_taps filter source.width view.across (view.left + x))
        (λ y. signed_taps filter source.height view.down (view.top + y))
        rows source from.now to.old to.new) }
{
    if let Some(fault) = signed_size_fault(view, source) {
        return Err(fault);
    }
    let count = P::default().channels().len();
    let lengths = (to.len(), from.len(), work.len());
    let fault = signed_memory_fault(
        count, filter, view, rows, source, lengths.0, lengths.1, lengths.2,
    );
    if let Some(fault) = fault {
        return Err(fault);
    }
    draw_signed::<P, D>(to, rows, view, from, source, filter, work);
    Ok(())
}
