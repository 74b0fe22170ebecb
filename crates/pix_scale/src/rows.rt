//! Weighted sums of rows.
ghost use Rattle.std.specs.Prelude.{◌≡◌, ℕ, ◌+◌, ◌*◌, ◌^◌, ◌<◌, ◌≤◌, length, map, slice_index};
ghost use Rattle.pix_scale.specs.Axis.{total};
ghost use Rattle.pix_scale.specs.Table.{flat, row_term};

use pix_chan::chan::Channel;
use pix_el::el::Pixel;
use pix_el::stored::Stored;

/// Adds each channel, times a weight, to the sum at its place.
///
/// Condition: there is a sum for each channel, and no sum passes 32 bits.
#[inline(always)]
fn add_channels<C: Channel>(sums: &mut [u32], row: &[C], weight: u32)
    requires long { length sums.old ≡ length row.now }
    requires fits { (x : ℕ) → x < length sums.old
        → slice_index sums.old x + weight * C.max < 2 ^ 32 }
    ensures { (x : ℕ) → x < length sums.old → slice_index sums.new x
        ≡ slice_index sums.old x + weight * slice_index (map C.number row.now) x }
{
    for x in 0..row.len() {
        sums[x] += weight * row[x].to_u32();
    }
}

/// Adds each channel of eight pixels, times a weight, to the sum at its place.
///
/// Condition: there is a sum for each channel, and no sum passes 32 bits.
#[inline(always)]
fn add_eight<P: Pixel, D: Stored<P>>(sums: &mut [u32], row: &[D], weight: u32)
    requires some { 0 < P.layout.count }
    requires few { P.layout.count ≤ 4 }
    requires eight { length row.now ≡ 8 }
    requires long { length sums.old ≡ 8 * P.layout.count }
    requires fits { (x : ℕ) → x < length sums.old
        → slice_index sums.old x + weight * P.Chan.max < 2 ^ 32 }
    ensures { (x : ℕ) → x < length sums.old → slice_index sums.new x
        ≡ slice_index sums.old x + weight * flat P.layout.count (map D.reads row.now) x }
{
    let count = P::default().channels().len();
    let mut own = [P::Chan::MIN; 32];
    D::load_channels(row, &mut own[..8 * count]);
    add_channels(sums, &own[..8 * count], weight);
}

/// Adds each channel of blocks of eight pixels, times a weight, to the sum at its place.
///
/// Condition: there is a sum for each channel, and no sum passes 32 bits.
#[inline(always)]
fn add_blocks<P: Pixel, D: Stored<P>>(sums: &mut [u32], row: &[D], weight: u32, blocks: usize)
    requires some { 0 < P.layout.count }
    requires few { P.layout.count ≤ 4 }
    requires blocks { length row.now ≡ blocks * 8 }
    requires long { length sums.old ≡ length row.now * P.layout.count }
    requires fits { (x : ℕ) → x < length sums.old
        → slice_index sums.old x + weight * P.Chan.max < 2 ^ 32 }
    ensures { (x : ℕ) → x < length sums.old → slice_index sums.new x
        ≡ slice_index sums.old x + weight * flat P.layout.count (map D.reads row.now) x }
{
    let count = P::default().channels().len();
    for b in 0..blocks {
        let at = b * 8;
        let start = at * count;
        add_eight::<P, D>(
            &mut sums[start..start + 8 * count],
            &row[at..at + 8],
            weight,
        );
    }
}

/// Adds each channel of pixels, times a weight, to the sum at its place.
///
/// Condition: there is a sum for each channel, and no sum passes 32 bits.
#[inline(always)]
fn add_pixels<P: Pixel, D: Stored<P>>(sums: &mut [u32], row: &[D], weight: u32)
    requires long { length sums.old ≡ length row.now * P.layout.count }
    requires fits { (x : ℕ) → x < length sums.old
        → slice_index sums.old x + weight * P.Chan.max < 2 ^ 32 }
    ensures { (x : ℕ) → x < length sums.old → slice_index sums.new x
        ≡ slice_index sums.old x + weight * flat P.layout.count (map D.reads row.now) x }
{
    let count = P::default().channels().len();
    for i in 0..row.len() {
        let pixel = row[i].load();
        add_channels(
            &mut sums[i * count..i * count + count],
            pixel.channels(),
            weight,
        );
    }
}

/// Adds each channel of a row, times a weight, to the sum at its place.
///
/// Condition: there is a sum for each channel, and no sum passes 32 bits.
#[inline(always)]
fn add_row<P: Pixel, D: Stored<P>>(sums: &mut [u32], row: &[D], weight: u32)
    requires some { 0 < P.layout.count }
    requires long { length sums.old ≡ length row.now * P.layout.count }
    requires fits { (x : ℕ) → x < length sums.old
        → slice_index sums.old x + weight * P.Chan.max < 2 ^ 32 }
    ensures { (x : ℕ) → x < length sums.old → slice_index sums.new x
        ≡ slice_index sums.old x + weight * flat P.layout.count (map D.reads row.now) x }
{
    if weight == 0 {
        return;
    }
    let count = P::default().channels().len();
    if count > 4 {
        add_pixels::<P, D>(sums, row, weight);
        return;
    }
    let blocks = row.len() / 8;
    let (at, end) = (blocks * 8, row.len());
    let (start, all) = (at * count, sums.len());
    add_blocks::<P, D>(&mut sums[0..start], &row[0..at], weight, blocks);
    add_pixels::<P, D>(&mut sums[start..all], &row[at..end], weight);
}

/// Writes the sums of the channels of rows that begin a stride apart, each row times its weight.
///
/// Condition: the rows lie in `rows`, and the weights add up to so little that no sum passes 32
/// bits.
pub(crate) fn sum_rows<P: Pixel, D: Stored<P>>(
    sums: &mut [u32],
    rows: &[D],
    count: usize,
    stride: usize,
    weights: &[u32],
)
    requires some { 0 < P.layout.count }
    requires long { length sums.old ≡ count * P.layout.count }
    requires inside { (k : ℕ) → k < length weights.now
        → k * stride + count ≤ length rows.now }
    requires fits { total (length weights.now) (slice_index weights.now) * P.Chan.max < 2 ^ 32 }
    ensures { (x : ℕ) → x < length sums.old → slice_index sums.new x
        ≡ total (length weights.now) (row_term weights.now
        (flat P.layout.count (map D.reads rows.now)) (stride * P.layout.count) x) }
{
    sums.fill(0);
    for k in 0..weights.len() {
        let start = k * stride;
        add_row::<P, D>(sums, &rows[start..start + count], weights[k]);
    }
}
