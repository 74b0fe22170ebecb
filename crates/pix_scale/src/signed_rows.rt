//! Rows of pixels of weights that may be negative.
ghost use Rattle.std.specs.Prelude.{◌≡◌, ℕ, pos, ◌-ℤ◌, ◌+◌, ◌-◌, ◌*◌, ◌^◌, ◌<◌, ◌≤◌, List, [], length, map, slice_index, slice_index_or};
ghost use Rattle.pix_scale.specs.Axis.{total, channel_at};
ghost use Rattle.pix_scale.specs.Table.{flat, row_term, tap};
ghost use Rattle.pix_scale.specs.Signed.{cut_by, sum_by, IsCut};
ghost use Rattle.pix_scale.specs.SignedTable.{left_at, taps_at, taps_of, IsSound};

use crate::rows::sum_rows;
use crate::shape::Rows;
use crate::signed_pixels::cut_pixel;
use crate::table::span;
use pix_el::el::Pixel;
use pix_el::stored::Stored;

/// Writes what is left of each sum, 2^31 too high. Condition: the sums are small.
fn take_away(sums: &mut [u32], taken: &[u32])
    requires long { length sums.old ≡ length taken.now }
    requires sums { (x : ℕ) → x < length sums.old → slice_index sums.old x < 2 ^ 31 }
    requires taken { (x : ℕ) → x < length sums.old → slice_index taken.now x < 2 ^ 31 }
    ensures { (x : ℕ) → x < length sums.old
        → slice_index sums.new x + slice_index taken.now x ≡ 2 ^ 31 + slice_index sums.old x }
{
    for x in 0..sums.len() {
        sums[x] = (sums[x] + (1 << 31)) - taken[x];
    }
}

/// Writes the sums of the channels of rows that begin a stride apart, each 2^31 too high. Each row
/// counts by what it adds, less what it takes away. `taken` is memory to work in.
///
/// Condition: the rows lie in `rows`, and the weights are small.
fn sum_left<P: Pixel, D: Stored<P>>(
    sums: &mut [u32],
    taken: &mut [u32],
    rows: &[D],
    count: usize,
    stride: usize,
    plus: &[u32],
    minus: &[u32],
)
    requires some { 0 < P.layout.count }
    requires few { P.layout.count ≤ 8 }
    requires sums { length sums.old ≡ count * P.layout.count }
    requires taken { length taken.old ≡ count * P.layout.count }
    requires same { length minus.now ≡ length plus.now }
    requires inside { (k : ℕ) → k < length plus.now → k * stride + count ≤ length rows.now }
    requires plus_small { total (length plus.now) (slice_index plus.now) < 24576 }
    requires minus_small { total (length minus.now) (slice_index minus.now) < 24576 }
    ensures { (x : ℕ) → x < length sums.old → slice_index sums.new x
        + total (length minus.now) (row_term minus.now
        (flat P.layout.count (map D.reads rows.now)) (stride * P.layout.count) x)
        ≡ 2 ^ 31 + total (length plus.now) (row_term plus.now
        (flat P.layout.count (map D.reads rows.now)) (stride * P.layout.count) x) }
{
    sum_rows::<P, D>(sums, rows, count, stride, plus);
    sum_rows::<P, D>(taken, rows, count, stride, minus);
    take_away(sums, taken);
}

/// Writes a row of pixels. Pixel `i` is that of `taps` pixels of `sums` from that of `firsts` on,
/// by row `i` of a table of weights.
///
/// Condition: the pixels lie in `sums`, and the weights are small.
fn write_cut_row<P: Pixel, D: Stored<P>>(
    to: &mut [D],
    sums: &[u32],
    firsts: &[u32],
    plus: &[u32],
    minus: &[u32],
    taps: usize,
)
    requires few { P.layout.count ≤ 8 }
    requires long { length to.old ≡ length firsts.now }
    requires plus { length plus.now ≡ length firsts.now * taps }
    requires minus { length minus.now ≡ length firsts.now * taps }
    requires inside { (i : ℕ) → i < length firsts.now
        → (slice_index firsts.now i + taps) * P.layout.count ≤ length sums.now }
    requires plus_fits { (i : ℕ) → i < length firsts.now
        → total taps (tap plus.now taps i) < 2 ^ 15 }
    requires minus_fits { (i : ℕ) → i < length firsts.now
        → total taps (tap minus.now taps i) < 2 ^ 15 }
    ensures { (i c : ℕ) → i < length firsts.now → c < P.layout.count
        → slice_index (slice_index_or (map D.reads to.new) i []) c ≡ cut_by P.layout
        (left_at plus.now minus.now taps i sums.now P.layout.count (slice_index firsts.now i)) c }
{
    let n = P::default().channels().len();
    for i in 0..firsts.len() {
        let first = firsts[i] as usize;
        to[i] = cut_pixel::<P, D>(
            &sums[first * n..(first + taps) * n],
            &plus[i * taps..i * taps + taps],
            &minus[i * taps..i * taps + taps],
        );
    }
}

/// Writes a row of pixels of a picture at another size, by rows `plus` and `minus` of the weights
/// of its own and by tables of those of its columns, whose places lie from `low` up to `high`.
///
/// `sums` and `taken` are memory to work in, a number for each channel of a row of the source.
pub(crate) fn cut_row<P: Pixel, D: Stored<P>>(
    to: &mut [D],
    from: &[D],
    stride: usize,
    sums: &mut [u32],
    taken: &mut [u32],
    firsts: &[u32],
    plus: &[u32],
    minus: &[u32],
    taps: usize,
    places: usize,
    low: usize,
    high: usize,
    first: usize,
    down_plus: &[u32],
    down_minus: &[u32],
)
    requires some { 0 < P.layout.count }
    requires few { P.layout.count ≤ 8 }
    requires long { length to.old ≡ length firsts.now }
    requires table { IsSound places firsts.now plus.now minus.now taps }
    requires low { (i : ℕ) → i < length firsts.now → low ≤ slice_index firsts.now i }
    requires high { (i : ℕ) → i < length firsts.now → slice_index firsts.now i + taps ≤ high }
    requires order { low ≤ high }
    requires within { high ≤ places }
    requires sums { length sums.old ≡ places * P.layout.count }
    requires taken { length taken.old ≡ places * P.layout.count }
    requires same { length down_minus.now ≡ length down_plus.now }
    requires down_some { 0 < length down_plus.now }
    requires down_inside { (k : ℕ) → k < length down_plus.now
        → (first + k) * stride + places ≤ length from.now }
    requires down_adds_up { total (length down_plus.now) (slice_index down_plus.now)
        ≡ 16384 + total (length down_plus.now) (slice_index down_minus.now) }
    requires down_small { total (length down_plus.now) (slice_index down_minus.now) < 8192 }
    ensures { (i c : ℕ) → i < length firsts.now → c < P.layout.count
        → slice_index (slice_index_or (map D.reads to.new) i []) c ≡ cut_by P.layout
        (λ ch. sum_by (taps_at firsts.now plus.now minus.now taps i)
        (taps_of first down_plus.now down_minus.now)
        (channel_at (map D.reads from.now) stride ch)) c }
{
    let n = P::default().channels().len();
    let start = first * stride + low;
    sum_left::<P, D>(
        &mut sums[low * n..high * n],
        &mut taken[low * n..high * n],
        &from[start..],
        high - low,
        stride,
        down_plus,
        down_minus,
    );
    write_cut_row::<P, D>(to, sums, firsts, plus, minus, taps);
}

/// Writes the rows of a window of a picture at another size, by tables of the weights of its
/// columns and of its rows. `sums` and `taken` are memory to work in, a number for each channel of
/// a row of the source.
pub(crate) fn cut_rows<P: Pixel, D: Stored<P>>(
    to: &mut [D],
    rows: Rows,
    from: &[D],
    source: Rows,
    sums: &mut [u32],
    taken: &mut [u32],
    firsts: &[u32],
    plus: &[u32],
    minus: &[u32],
    taps: usize,
    lines: &[u32],
    lines_plus: &[u32],
    lines_minus: &[u32],
    lines_taps: usize,
)
    requires some { 0 < P.layout.count }
    requires few { P.layout.count ≤ 8 }
    requires some_width { 0 < rows.width }
    requires width { length firsts.now ≡ rows.width }
    requires height { length lines.now ≡ rows.height }
    requires across { IsSound source.width firsts.now plus.now minus.now taps }
    requires down { IsSound source.height lines.now lines_plus.now lines_minus.now lines_taps }
    requires source { (v : ℕ) → v < source.height
        → v * source.stride + source.width ≤ length from.now }
    requires apart { rows.width ≤ rows.stride }
    requires fit { (y : ℕ) → y < rows.height → y * rows.stride + rows.width ≤ length to.old }
    requires sums { length sums.old ≡ source.width * P.layout.count }
    requires taken { length taken.old ≡ source.width * P.layout.count }
    ensures { IsCut D.reads P.layout (taps_at firsts.now plus.now minus.now taps)
        (taps_at lines.now lines_plus.now lines_minus.now lines_taps)
        rows source from.now to.old to.new }
{
    let (width, stride, places) = (
        rows.width as usize,
        source.stride as usize,
        source.width as usize,
    );
    let (low, high) = span(firsts, taps, places);
    for y in 0..rows.height {
        let at = y as usize * rows.stride as usize;
        let line = y as usize * lines_taps;
        cut_row::<P, D>(
            &mut to[at..at + width],
            from,
            stride,
            sums,
            taken,
            firsts,
            plus,
            minus,
            taps,
            places,
            low,
            high,
            lines[y as usize] as usize,
            &lines_plus[line..line + lines_taps],
            &lines_minus[line..line + lines_taps],
        );
    }
}
