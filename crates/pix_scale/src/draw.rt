//! The rows of a window of a picture at another size.
ghost use Rattle.std.specs.Prelude.{◌≡◌, ◌≢◌, ℕ, ◌+◌, ◌*◌, ◌^◌, ◌<◌, ◌≤◌, List, [], length, map, slice_index, slice_index_or};
ghost use Rattle.pix_scale.specs.Axis.{axis, scaled, channel_at};
ghost use Rattle.pix_scale.specs.Table.{side_axis, AreSides, IsTable};
ghost use Rattle.pix_scale.specs.Call.{size_fault, memory_fault, IsScaled};

use crate::filter::Filter;
use crate::points::draw_points;
use crate::rounding::Divisor;
use crate::row::scale_row;
use crate::shape::{Rows, View};
use crate::side::Side;
use crate::table::{span, write_table};
use crate::weights::weigh;
use pix_el::el::Pixel;
use pix_el::stored::Stored;

/// Writes row `y` of a picture at another size, from the table of its columns.
fn draw_row<P: Pixel, D: Stored<P>>(
    to: &mut [D],
    from: &[D],
    stride: usize,
    across: Side,
    down: Side,
    view: View,
    y: u64,
    firsts: &[u32],
    weights: &[u32],
    low: usize,
    high: usize,
    row: &mut [u32],
    sums: &mut [u32],
    by: Divisor,
)
    requires some { 0 < P.layout.count }
    requires few { P.layout.count ≤ 8 }
    requires sides { AreSides P.Chan.max across down view stride (length from.now) }
    requires long { length to.old ≡ length firsts.now }
    requires inside { view.left + length firsts.now ≤ view.across }
    requires table { IsTable (side_axis across) view.left firsts.now weights.now
        (side_axis across).taps }
    requires weights { length weights.now ≡ length firsts.now * (side_axis across).taps }
    requires low { (i : ℕ) → i < length firsts.now → low ≤ slice_index firsts.now i }
    requires high { (i : ℕ) → i < length firsts.now
        → slice_index firsts.now i + (side_axis across).taps ≤ high }
    requires order { low ≤ high }
    requires within { high ≤ across.places }
    requires y { y < view.down }
    requires row { length row.old ≡ (side_axis down).taps }
    requires sums { length sums.old ≡ across.places * P.layout.count }
    requires by { by.whole ≡ (side_axis across).whole * (side_axis down).whole }
    ensures { (x c : ℕ) → x < length firsts.now → c < P.layout.count
        → slice_index (slice_index_or (map D.reads to.new) x []) c
        ≡ scaled P.Chan.max (side_axis across) (side_axis down)
        (channel_at (map D.reads from.now) stride c) (view.left + x) y }
{
    let first = weigh(down, u64::from(view.down), y, row) as usize;
    let taps = across.taps() as usize;
    scale_row::<P, D>(
        to, from, stride, sums, firsts, weights, taps, low, high, first, row, by,
    );
}

/// Writes the rows of a window of a picture at another size, which has a column. The last four
/// slices are memory to work in.
fn draw_rows<P: Pixel, D: Stored<P>>(
    to: &mut [D],
    rows: Rows,
    view: View,
    from: &[D],
    source: Rows,
    across: Side,
    down: Side,
    firsts: &mut [u32],
    weights: &mut [u32],
    row: &mut [u32],
    sums: &mut [u32],
)
    requires some { 0 < P.layout.count }
    requires few { P.layout.count ≤ 8 }
    requires sides { AreSides P.Chan.max across down view source.stride (length from.now) }
    requires width { 0 < rows.width }
    requires apart { rows.width ≤ rows.stride }
    requires fit { (y : ℕ) → y < rows.height → y * rows.stride + rows.width ≤ length to.old }
    requires left { view.left + rows.width ≤ view.across }
    requires top { view.top + rows.height ≤ view.down }
    requires firsts { length firsts.old ≡ rows.width }
    requires weights { length weights.old ≡ rows.width * (side_axis across).taps }
    requires row { length row.old ≡ (side_axis down).taps }
    requires sums { length sums.old ≡ across.places * P.layout.count }
    ensures { IsScaled D.reads P.Chan.max P.layout.count (side_axis across) (side_axis down) view
        rows source from.now to.old to.new }
{
    let (width, stride) = (rows.width as usize, source.stride as usize);
    write_table(
        across,
        u64::from(view.across),
        u64::from(view.left),
        firsts,
        weights,
    );
    let (low, high) = span(firsts, across.taps() as usize, across.places as usize);
    let by = Divisor::new(across.whole() * down.whole());
    for y in 0..rows.height {
        let at = y as usize * rows.stride as usize;
        draw_row::<P, D>(
            &mut to[at..at + width],
            from,
            stride,
            across,
            down,
            view,
            u64::from(view.top) + u64::from(y),
            firsts,
            weights,
            low,
            high,
            row,
            sums,
            by,
        );
    }
}

/// Writes the rows of a window of a picture at another size, which has a column. The last slice is
/// memory to work in.
fn draw_in<P: Pixel, D: Stored<P>>(
    to: &mut [D],
    rows: Rows,
    view: View,
    from: &[D],
    source: Rows,
    across: Side,
    down: Side,
    work: &mut [u32],
)
    requires some { 0 < P.layout.count }
    requires few { P.layout.count ≤ 8 }
    requires sides { AreSides P.Chan.max across down view source.stride (length from.now) }
    requires width { 0 < rows.width }
    requires apart { rows.width ≤ rows.stride }
    requires fit { (y : ℕ) → y < rows.height → y * rows.stride + rows.width ≤ length to.old }
    requires left { view.left + rows.width ≤ view.across }
    requires top { view.top + rows.height ≤ view.down }
    requires work { (rows.width + rows.width * (side_axis across).taps)
        + ((side_axis down).taps + across.places * P.layout.count) ≤ length work.old }
    ensures { IsScaled D.reads P.Chan.max P.layout.count (side_axis across) (side_axis down) view
        rows source from.now to.old to.new }
{
    let width = rows.width as usize;
    let (firsts, rest) = work.split_at_mut(width);
    let (weights, rest) = rest.split_at_mut(width * across.taps() as usize);
    let (row, rest) = rest.split_at_mut(down.taps() as usize);
    let sums = &mut rest[..across.places as usize * P::default().channels().len()];
    draw_rows::<P, D>(
        to, rows, view, from, source, across, down, firsts, weights, row, sums,
    );
}

/// Draws a window of a picture at another size, where nothing is to be refused.
pub(crate) fn draw<P: Pixel, D: Stored<P>>(
    to: &mut [D],
    rows: Rows,
    view: View,
    from: &[D],
    source: Rows,
    filter: Filter,
    work: &mut [u32],
)
    requires some { 0 < P.layout.count }
    requires few { P.layout.count ≤ 8 }
    requires sizes { size_fault P.Chan.max filter view source ≡ None }
    requires memory { memory_fault P.layout.count filter view rows source (length to.old)
        (length from.now) (length work.old) ≡ None }
    ensures { IsScaled D.reads P.Chan.max P.layout.count (axis filter source.width view.across)
        (axis filter source.height view.down) view rows source from.now to.old to.new }
{
    if rows.width == 0 {
        return;
    }
    let across = Side::new(filter, source.width, view.across);
    let down = Side::new(filter, source.height, view.down);
    match filter {
        Filter::Nearest => draw_points::<P, D>(
            to,
            rows,
            view,
            from,
            source,
            across,
            down,
            &mut work[..rows.width as usize],
        ),
        _ => draw_in::<P, D>(to, rows, view, from, source, across, down, work),
    }
}
