//! The window of a picture at another size, by weights that may be negative.
ghost use Rattle.std.specs.Prelude.{◌≡◌, ℕ, ◌+◌, ◌*◌, ◌<◌, ◌≤◌, length, None};
ghost use Rattle.pix_scale.specs.declared.filter.Kernel.TheVariants.{Point};
ghost use Rattle.pix_scale.specs.Table.{IsSide};
ghost use Rattle.pix_scale.specs.Signed.{IsCut, taps_by, taps_of_filter};
ghost use Rattle.pix_scale.specs.SignedCall.{signed_taps, signed_size_fault, signed_memory_fault};

use crate::filter::{Filter, SignedFilter};
use crate::shape::{Rows, View};
use crate::side::Side;
use crate::signed_rows::cut_rows;
use crate::signed_table::signed_table;
use crate::signed_weights::taps;
use pix_el::el::Pixel;
use pix_el::stored::Stored;

/// Writes the rows of a window of a picture at another size. `n` columns become `m`, and `rows_n`
/// rows become `rows_m`. The last slices are memory to work in.
fn draw_tables<P: Pixel, D: Stored<P>>(
    to: &mut [D],
    rows: Rows,
    view: View,
    from: &[D],
    source: Rows,
    filter: SignedFilter,
    n: u64,
    m: u64,
    rows_n: u64,
    rows_m: u64,
    columns: &mut [u32],
    plus: &mut [u32],
    minus: &mut [u32],
    lines: &mut [u32],
    lines_plus: &mut [u32],
    lines_minus: &mut [u32],
    sums: &mut [u32],
    taken: &mut [u32],
)
    requires some { 0 < P.layout.count }
    requires few { P.layout.count ≤ 8 }
    requires across { IsSide Point source.width view.across n m }
    requires down { IsSide Point source.height view.down rows_n rows_m }
    requires width { 0 < rows.width }
    requires left { view.left + rows.width ≤ view.across }
    requires top { view.top + rows.height ≤ view.down }
    requires source { (v : ℕ) → v < source.height
        → v * source.stride + source.width ≤ length from.now }
    requires apart { rows.width ≤ rows.stride }
    requires fit { (y : ℕ) → y < rows.height → y * rows.stride + rows.width ≤ length to.old }
    requires columns { length columns.old ≡ rows.width }
    requires plus { length plus.old ≡ rows.width * taps_of_filter filter source.width n m }
    requires minus { length minus.old ≡ rows.width * taps_of_filter filter source.width n m }
    requires lines { length lines.old ≡ rows.height }
    requires lines_plus { length lines_plus.old
        ≡ rows.height * taps_of_filter filter source.height rows_n rows_m }
    requires lines_minus { length lines_minus.old
        ≡ rows.height * taps_of_filter filter source.height rows_n rows_m }
    requires sums { length sums.old ≡ source.width * P.layout.count }
    requires taken { length taken.old ≡ source.width * P.layout.count }
    ensures { IsCut D.reads P.layout (λ x. taps_by filter source.width n m (view.left + x))
        (λ y. taps_by filter source.height rows_n rows_m (view.top + y))
        rows source from.now to.old to.new }
{
    let across = signed_table(
        filter,
        source.width as u64,
        n,
        m,
        view.across as u64,
        view.left as u64,
        columns,
        plus,
        minus,
    );
    let down = signed_table(
        filter,
        source.height as u64,
        rows_n,
        rows_m,
        view.down as u64,
        view.top as u64,
        lines,
        lines_plus,
        lines_minus,
    );
    cut_rows::<P, D>(
        to,
        rows,
        from,
        source,
        sums,
        taken,
        columns,
        plus,
        minus,
        across,
        lines,
        lines_plus,
        lines_minus,
        down,
    );
}

/// Writes the rows of a window of a picture at another size. `a` places count for a column of it,
/// and `b` for a row. The last slice is memory to work in.
fn draw_split<P: Pixel, D: Stored<P>>(
    to: &mut [D],
    rows: Rows,
    view: View,
    from: &[D],
    source: Rows,
    filter: SignedFilter,
    across: Side,
    down: Side,
    a: usize,
    b: usize,
    work: &mut [u32],
)
    requires some { 0 < P.layout.count }
    requires few { P.layout.count ≤ 8 }
    requires across { IsSide Point source.width view.across across.n across.m }
    requires down { IsSide Point source.height view.down down.n down.m }
    requires width { 0 < rows.width }
    requires left { view.left + rows.width ≤ view.across }
    requires top { view.top + rows.height ≤ view.down }
    requires source { (v : ℕ) → v < source.height
        → v * source.stride + source.width ≤ length from.now }
    requires apart { rows.width ≤ rows.stride }
    requires fit { (y : ℕ) → y < rows.height → y * rows.stride + rows.width ≤ length to.old }
    requires a { a ≡ taps_of_filter filter source.width across.n across.m }
    requires b { b ≡ taps_of_filter filter source.height down.n down.m }
    requires work { (rows.width + 2 * (rows.width * a)) + ((rows.height + 2 * (rows.height * b))
        + 2 * (source.width * P.layout.count)) ≤ length work.old }
    ensures { IsCut D.reads P.layout
        (λ x. taps_by filter source.width across.n across.m (view.left + x))
        (λ y. taps_by filter source.height down.n down.m (view.top + y))
        rows source from.now to.old to.new }
{
    let (width, height) = (rows.width as usize, rows.height as usize);
    let (columns, rest) = work.split_at_mut(width);
    let (plus, rest) = rest.split_at_mut(width * a);
    let (minus, rest) = rest.split_at_mut(width * a);
    let (lines, rest) = rest.split_at_mut(height);
    let (lines_plus, rest) = rest.split_at_mut(height * b);
    let (lines_minus, rest) = rest.split_at_mut(height * b);
    let numbers = source.width as usize * P::default().channels().len();
    let (sums, rest) = rest.split_at_mut(numbers);
    let taken = &mut rest[..numbers];
    draw_tables::<P, D>(
        to,
        rows,
        view,
        from,
        source,
        filter,
        across.n as u64,
        across.m as u64,
        down.n as u64,
        down.m as u64,
        columns,
        plus,
        minus,
        lines,
        lines_plus,
        lines_minus,
        sums,
        taken,
    );
}

/// Draws a window of a picture at another size, where nothing is to be refused.
pub(crate) fn draw_signed<P: Pixel, D: Stored<P>>(
    to: &mut [D],
    rows: Rows,
    view: View,
    from: &[D],
    source: Rows,
    filter: SignedFilter,
    work: &mut [u32],
)
    requires some { 0 < P.layout.count }
    requires few { P.layout.count ≤ 8 }
    requires sizes { signed_size_fault view source ≡ None }
    requires memory { signed_memory_fault P.layout.count filter view rows source (length to.old)
        (length from.now) (length work.old) ≡ None }
    ensures { IsCut D.reads P.layout
        (λ x. signed_taps filter source.width view.across (view.left + x))
        (λ y. signed_taps filter source.height view.down (view.top + y))
        rows source from.now to.old to.new }
{
    if rows.width == 0 {
        return;
    }
    let across = Side::new(Filter::Nearest, source.width, view.across);
    let down = Side::new(Filter::Nearest, source.height, view.down);
    let a = taps(
        filter,
        source.width as u64,
        across.n as u64,
        across.m as u64,
    );
    let b = taps(filter, source.height as u64, down.n as u64, down.m as u64);
    draw_split::<P, D>(
        to, rows, view, from, source, filter, across, down, a as usize, b as usize, work,
    );
}
