//! A row of a picture at another size.
ghost use Rattle.std.specs.Prelude.{◌≡◌, ℕ, ◌+◌, ◌*◌, ◌^◌, ◌<◌, ◌≤◌, List, [], length, map, slice_index, slice_index_or, pos};
ghost use Rattle.pix_chan.specs.Nearest.{nearest};
ghost use Rattle.pix_scale.specs.Axis.{total, Axis, scaled, channel_at};
ghost use Rattle.pix_scale.specs.Table.{row_term, pixel_term, tap, IsRow, IsTable};

use crate::pixels::write_pixel;
use crate::rounding::Divisor;
use crate::rows::sum_rows;
use pix_chan::chan::Channel;
use pix_el::el::Pixel;
use pix_el::stored::Stored;

/// Returns the mean of pixels that follow each other, by their weights and the whole, rounded to
/// the nearest.
///
/// Condition: there is a pixel for each weight, the weights add up to less than 2^31, and the sums
/// are at most the maximum times the whole.
#[inline(always)]
fn new_pixel<P: Pixel, D: Stored<P>>(sums: &[u32], weights: &[u32], by: Divisor) -> D
    requires few { P.layout.count ≤ 8 }
    requires inside { (k : ℕ) → k < length weights.now
        → k * P.layout.count + P.layout.count ≤ length sums.now }
    requires fits { total (length weights.now) (slice_index weights.now) < 2 ^ 31 }
    requires bound { (c : ℕ) → c < P.layout.count → total (length weights.now)
        (row_term weights.now (slice_index sums.now) P.layout.count c) ≤ P.Chan.max * by.whole }
    ensures { (c : ℕ) → c < P.layout.count
        → slice_index (D.reads result) c ≡ nearest P.Chan.max (pos (total (length weights.now)
        (row_term weights.now (slice_index sums.now) P.layout.count c))) (pos by.whole) }
{
    let mut own = [P::Chan::MIN; 8];
    let n = P::default().channels().len();
    write_pixel::<P::Chan>(&mut own[..n], sums, weights, by);
    D::store(&P::from_channels(&own[..n]))
}

/// Writes a row of pixels. Pixel `i` is the mean of `taps` pixels of `sums` from that of `firsts`
/// on, by row `i` of a table of weights.
///
/// Condition: the pixels lie in `sums`, the weights of a row add up to less than 2^31, and the sums
/// are at most the maximum times the whole.
#[inline(always)]
fn write_means<P: Pixel, D: Stored<P>>(
    to: &mut [D],
    sums: &[u32],
    firsts: &[u32],
    weights: &[u32],
    taps: usize,
    by: Divisor,
)
    requires few { P.layout.count ≤ 8 }
    requires long { length to.old ≡ length firsts.now }
    requires table { length weights.now ≡ length firsts.now * taps }
    requires inside { (i : ℕ) → i < length firsts.now
        → (slice_index firsts.now i + taps) * P.layout.count ≤ length sums.now }
    requires fits { (i : ℕ) → i < length firsts.now
        → total taps (tap weights.now taps i) < 2 ^ 31 }
    requires bound { (i c : ℕ) → i < length firsts.now → c < P.layout.count → total taps
        (pixel_term weights.now taps i sums.now P.layout.count (slice_index firsts.now i) c)
        ≤ P.Chan.max * by.whole }
    ensures { (i c : ℕ) → i < length firsts.now → c < P.layout.count
        → slice_index (slice_index_or (map D.reads to.new) i []) c ≡ nearest P.Chan.max
        (pos (total taps
        (pixel_term weights.now taps i sums.now P.layout.count (slice_index firsts.now i) c)))
        (pos by.whole) }
{
    let n = P::default().channels().len();
    for i in 0..firsts.len() {
        let first = firsts[i] as usize;
        to[i] = new_pixel::<P, D>(
            &sums[first * n..(first + taps) * n],
            &weights[i * taps..i * taps + taps],
            by,
        );
    }
}

/// Writes a row of pixels. Pixel `i` is the mean of `taps` pixels of `sums` from that of `firsts`
/// on, by row `i` of a table of weights.
///
/// Condition: the pixels lie in `sums`, the weights of a row add up to less than 2^31, and the sums
/// are at most the maximum times the whole.
fn write_row<P: Pixel, D: Stored<P>>(
    to: &mut [D],
    sums: &[u32],
    firsts: &[u32],
    weights: &[u32],
    taps: usize,
    by: Divisor,
)
    requires few { P.layout.count ≤ 8 }
    requires long { length to.old ≡ length firsts.now }
    requires table { length weights.now ≡ length firsts.now * taps }
    requires inside { (i : ℕ) → i < length firsts.now
        → (slice_index firsts.now i + taps) * P.layout.count ≤ length sums.now }
    requires fits { (i : ℕ) → i < length firsts.now
        → total taps (tap weights.now taps i) < 2 ^ 31 }
    requires bound { (i c : ℕ) → i < length firsts.now → c < P.layout.count → total taps
        (pixel_term weights.now taps i sums.now P.layout.count (slice_index firsts.now i) c)
        ≤ P.Chan.max * by.whole }
    ensures { (i c : ℕ) → i < length firsts.now → c < P.layout.count
        → slice_index (slice_index_or (map D.reads to.new) i []) c ≡ nearest P.Chan.max
        (pos (total taps
        (pixel_term weights.now taps i sums.now P.layout.count (slice_index firsts.now i) c)))
        (pos by.whole) }
{
    // The compiler makes a loop of its own for each of the commonest numbers.
    if taps == 1 {
        write_means::<P, D>(to, sums, firsts, weights, taps, by);
        return;
    }
    if taps == 2 {
        write_means::<P, D>(to, sums, firsts, weights, taps, by);
        return;
    }
    write_means::<P, D>(to, sums, firsts, weights, taps, by);
}

/// Writes pixels of a row of a picture at another size.
///
/// Pixel `i` is that of row `i` of the table across, whose places lie from `low` up to `high`. The
/// row of weights `down` is for the rows of `from` from `first` on. `sums` is memory to work in, a
/// number for each channel of a row.
///
/// Condition: what the tables name lies in the picture, their weights are small, and those of a
/// pixel add up to at most the whole.
pub(crate) fn scale_row<P: Pixel, D: Stored<P>>(
    to: &mut [D],
    from: &[D],
    stride: usize,
    sums: &mut [u32],
    firsts: &[u32],
    weights: &[u32],
    taps: usize,
    low: usize,
    high: usize,
    first: usize,
    down: &[u32],
    by: Divisor,
)
    requires some { 0 < P.layout.count }
    requires few { P.layout.count ≤ 8 }
    requires long { length to.old ≡ length firsts.now }
    requires table { length weights.now ≡ length firsts.now * taps }
    requires low { (i : ℕ) → i < length firsts.now → low ≤ slice_index firsts.now i }
    requires high { (i : ℕ) → i < length firsts.now → slice_index firsts.now i + taps ≤ high }
    requires order { low ≤ high }
    requires sums { high * P.layout.count ≤ length sums.old }
    requires fits { (i : ℕ) → i < length firsts.now
        → total taps (tap weights.now taps i) < 2 ^ 31 }
    requires down_some { 0 < length down.now }
    requires down_inside { (k : ℕ) → k < length down.now
        → (first + k) * stride + high ≤ length from.now }
    requires down_fits { total (length down.now) (slice_index down.now) * P.Chan.max < 2 ^ 32 }
    requires bound { (i : ℕ) → i < length firsts.now → total taps (tap weights.now taps i)
        * total (length down.now) (slice_index down.now) ≤ by.whole }
    ensures { (across rows : Axis) (at y : ℕ) → IsTable across at firsts.now weights.now taps
        → IsRow rows y first (length down.now) (slice_index down.now)
        → by.whole ≡ across.whole * rows.whole
        → (i c : ℕ) → i < length firsts.now → c < P.layout.count
        → slice_index (slice_index_or (map D.reads to.new) i []) c ≡ scaled P.Chan.max across rows
        (channel_at (map D.reads from.now) stride c) (at + i) y }
{
    let n = P::default().channels().len();
    let start = first * stride + low;
    sum_rows::<P, D>(
        &mut sums[low * n..high * n],
        &from[start..],
        high - low,
        stride,
        down,
    );
    write_row::<P, D>(to, sums, firsts, weights, taps, by);
}
