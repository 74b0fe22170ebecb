//! What is refused, and how much work memory it takes.
ghost use Rattle.std.specs.Prelude.{◌≡◌, ◌+◌, ◌≤◌, ◌&&◌, nat_le, None};
ghost use Rattle.pix_scale.specs.Call.{size_fault, window_fault, fit_in, words, memory_fault};

use crate::fault::ScaleFault;
use crate::filter::Filter;
use crate::shape::{Rows, View};
use crate::side::Side;
use pix_chan::chan::Channel;

/// Returns what is wrong with the sizes, if anything.
pub(crate) fn size_fault<C: Channel>(filter: Filter, view: View, from: Rows) -> Option<ScaleFault>
    ensures { result ≡ size_fault C.max filter view from }
{
    if from.width == 0 || from.height == 0 || view.across == 0 || view.down == 0 {
        return Some(ScaleFault::NoSide);
    }
    let across = Side::new(filter, from.width, view.across).whole();
    let down = Side::new(filter, from.height, view.down).whole();
    if from.width <= 65535
        && from.height <= 65535
        && u64::from(C::MAX.to_u32()).saturating_mul(down) < 1 << 32
        && across.saturating_mul(down) < 1 << 31
    {
        return None;
    }
    Some(ScaleFault::TooLarge)
}

/// Returns whether rows, which may not overlap, lie in so many pixels.
pub(crate) fn fit_in(rows: Rows, count: usize) -> bool
    ensures { result ≡ fit_in rows count }
{
    rows.width <= rows.stride
        && (rows.height == 0
            || u64::from(rows.height - 1) * u64::from(rows.stride) + u64::from(rows.width)
                <= count as u64)
}

/// Returns whether the window lies in the new picture.
pub(crate) fn is_inside(view: View, to: Rows) -> bool
    ensures { result ≡ (nat_le (view.left + to.width) view.across
        && nat_le (view.top + to.height) view.down) }
{
    u64::from(view.left) + u64::from(to.width) <= u64::from(view.across)
        && u64::from(view.top) + u64::from(to.height) <= u64::from(view.down)
}

/// Returns what is wrong with the sizes or with the window, if anything.
pub(crate) fn window_fault<C: Channel>(
    filter: Filter,
    view: View,
    to: Rows,
    from: Rows,
) -> Option<ScaleFault>
    ensures { result ≡ window_fault C.max filter view to from }
{
    if let Some(fault) = size_fault::<C>(filter, view, from) {
        return Some(fault);
    }
    if is_inside(view, to) {
        None
    } else {
        Some(ScaleFault::Outside)
    }
}

/// Returns how many words of work memory it takes. Condition: nothing is wrong with the sizes, and
/// a pixel has at most eight channels.
pub(crate) fn words<C: Channel>(
    count: usize,
    filter: Filter,
    view: View,
    to: Rows,
    from: Rows,
) -> u64
    requires count { count ≤ 8 }
    requires sizes { size_fault C.max filter view from ≡ None }
    ensures { result ≡ words count filter view to from }
{
    let across = Side::new(filter, from.width, view.across).taps();
    let down = Side::new(filter, from.height, view.down).taps();
    let width = u64::from(to.width);
    (width + width * across) + (down + u64::from(from.width) * count as u64)
}

/// Returns what is wrong with the memory that was passed, if anything. Condition: nothing is wrong
/// with the sizes, and a pixel has at most eight channels.
pub(crate) fn memory_fault<C: Channel>(
    count: usize,
    filter: Filter,
    view: View,
    to: Rows,
    from: Rows,
    to_len: usize,
    from_len: usize,
    work_len: usize,
) -> Option<ScaleFault>
    requires count { count ≤ 8 }
    requires sizes { size_fault C.max filter view from ≡ None }
    ensures { result ≡ memory_fault count filter view to from to_len from_len work_len }
{
    if !is_inside(view, to) {
        return Some(ScaleFault::Outside);
    }
    if !fit_in(to, to_len) {
        return Some(ScaleFault::BadRows);
    }
    if !fit_in(from, from_len) {
        return Some(ScaleFault::BadSource);
    }
    if words::<C>(count, filter, view, to, from) <= work_len as u64 {
        None
    } else {
        Some(ScaleFault::SmallWork)
    }
}
