//! What the places of a side count for one place of the new side.
ghost use Rattle.std.specs.Prelude.{◌≡◌, ℕ, ◌+◌, ◌-◌, ◌*◌, ◌/◌, ◌<◌, ◌≤◌, length, slice_index, if◌then◌else◌, nat_eq};
ghost use Rattle.std.specs.Int.{abs_diff};
ghost use Rattle.pix_scale.specs.Axis.{total, axis_of, overlap, held, nearness, rounded_part};
ghost use Rattle.pix_scale.specs.Table.{start_of, first_of, IsSide, IsRow};
ghost use Rattle.pix_scale.specs.declared.filter.Kernel.TheVariants.{Point, Box, Line, Triangle};

use crate::filter::Kernel;
use crate::side::Side;

/// Returns twice the middle of place `i`, held between the middles of the first and the last of the
/// old places. Condition: the products fit.
#[inline(always)]
fn held(places: u64, n: u64, m: u64, i: u64) -> u64
    requires places { 0 < places }
    requires few { places ≤ 65535 }
    requires n { n ≤ 65535 }
    requires m { m < 4294967296 }
    requires i { i < 4294967296 }
    ensures { result ≡ held places n m i }
{
    ((2 * i + 1) * n).min((2 * places - 1) * m).max(m)
}

/// Writes 1 for each place.
fn ones(row: &mut [u32])
    ensures { (k : ℕ) → k < length row.old → slice_index row.new k ≡ 1 }
{
    for k in 0..row.len() {
        row[k] = 1;
    }
}

/// Writes how much of place `i` lies in places that follow each other from `first` on.
fn overlaps(row: &mut [u32], n: u64, m: u64, i: u64, first: u64)
    requires n { n ≤ 65535 }
    requires m { m < 4294967296 }
    requires i { i < 4294967296 }
    requires inside { first + length row.old ≤ 65535 }
    ensures { (k : ℕ) → k < length row.old
        → slice_index row.new k ≡ overlap n m i (first + k) }
{
    let start = i * n;
    for k in 0..row.len() {
        let j = first + k as u64;
        let after = ((j + 1) * m).saturating_sub(start).min(n);
        let before = (j * m).saturating_sub(start).min(n);
        row[k] = (after - before) as u32;
    }
}

/// Writes by how much the middles of places from `first` on are nearer to `at` than `2 * m`.
fn tents(row: &mut [u32], m: u64, at: u64, first: u64)
    requires m { 2 * m < 4294967296 }
    requires inside { first + length row.old ≤ 65535 }
    ensures { (k : ℕ) → k < length row.old
        → slice_index row.new k ≡ 2 * m - abs_diff ((2 * (first + k) + 1) * m) at }
{
    for k in 0..row.len() {
        let middle = (2 * (first + k as u64) + 1) * m;
        row[k] = (2 * m).saturating_sub(middle.abs_diff(at)) as u32;
    }
}

/// Returns how much nearer than `2 * n` the middles of places `i` and `j` are, both taken twice.
#[inline(always)]
fn nearness(n: u64, m: u64, i: u64, j: u64) -> u64
    requires n { n ≤ 65535 }
    requires m { m < 4294967296 }
    requires i { i < 4294967296 }
    requires j { j < 65535 }
    ensures value { result ≡ nearness n m i j }
    ensures small { result ≤ 131070 }
{
    (2 * n).saturating_sub(((2 * j + 1) * m).abs_diff((2 * i + 1) * n))
}

/// Returns the sum of the nearness of places that follow each other from `first` on.
fn sum_nearness(n: u64, m: u64, i: u64, first: u64, count: u64) -> u64
    requires n { n ≤ 65535 }
    requires m { m < 4294967296 }
    requires i { i < 4294967296 }
    requires inside { first + count ≤ 65535 }
    ensures value { result ≡ total count (λ j. nearness n m i (first + j)) }
    ensures small { result ≤ 131070 * 65535 }
{
    let mut sum = 0;
    for k in 0..count {
        sum += nearness(n, m, i, first + k);
    }
    sum
}

/// Returns 2^15 times a part of a sum, rounded to the nearest. Condition: the sum is positive and
/// small.
#[inline(always)]
fn marked(part: u64, sum: u64) -> u64
    requires some { 0 < sum }
    requires small { sum ≤ 131070 * 65535 }
    requires part { part ≤ sum }
    ensures value { result ≡ rounded_part part sum }
    ensures small { result ≤ 32768 }
{
    (2 * (part * 32768) + sum) / (2 * sum)
}

/// Writes 2^15 times the part that the nearness of each place is of that of all places, from
/// `first` on, rounded as they add up.
fn parts(row: &mut [u32], n: u64, m: u64, i: u64, first: u64)
    requires n { n ≤ 65535 }
    requires m { m < 4294967296 }
    requires i { i < 4294967296 }
    requires inside { first + length row.old ≤ 65535 }
    requires some { 0 < total (length row.old) (λ j. nearness n m i (first + j)) }
    ensures { (k : ℕ) → k < length row.old → slice_index row.new k
        ≡ rounded_part (total (k + 1) (λ j. nearness n m i (first + j)))
        (total (length row.old) (λ j. nearness n m i (first + j)))
        - rounded_part (total k (λ j. nearness n m i (first + j)))
        (total (length row.old) (λ j. nearness n m i (first + j))) }
{
    let sum = sum_nearness(n, m, i, first, row.len() as u64);
    let mut part = 0;
    for k in 0..row.len() {
        let next = part + nearness(n, m, i, first + k as u64);
        row[k] = (marked(next, sum) - marked(part, sum)) as u32;
        part = next;
    }
}

/// Returns a place up to the first that counts something for place `i`.
fn start(side: Side, i: u64) -> u64
    requires n { side.n ≤ 65535 }
    requires some_m { 0 < side.m }
    requires places { 0 < side.places }
    requires few { side.places ≤ 65535 }
    requires i { i < 4294967296 }
    ensures { result ≡ start_of side.kernel side.places side.n side.m i }
{
    let (places, n, m) = (u64::from(side.places), u64::from(side.n), u64::from(side.m));
    match side.kernel {
        Kernel::Point => (2 * i + 1) * n / (2 * m),
        Kernel::Box => i * n / m,
        Kernel::Line => (held(places, n, m, i) - m) / (2 * m),
        Kernel::Triangle => ((2 * i * n).saturating_sub(n) + m) / (2 * m),
    }
}

/// Writes what the places of a side count for place `i`: one for each place of the row, from the
/// place on that is returned. The others count nothing.
///
/// Condition: the row has a place for each that counts, and the kernel's numbers fit 32 bits.
pub(crate) fn weigh(side: Side, size: u64, i: u64, row: &mut [u32]) -> u64
    requires side { IsSide side.kernel side.places size side.n side.m }
    requires i { i < size }
    requires size { size < 4294967296 }
    requires fits { (axis_of side.kernel side.places side.n side.m).whole < 4294967296 }
    requires taps { length row.old ≡ (axis_of side.kernel side.places side.n side.m).taps }
    ensures first { result ≡ first_of side.kernel side.places side.n side.m i }
    ensures row { IsRow (axis_of side.kernel side.places side.n side.m) i result (length row.new)
        (slice_index row.new) }
{
    let (places, n, m) = (side.places as u64, side.n as u64, side.m as u64);
    let first = start(side, i).min(places - row.len() as u64);
    match side.kernel {
        Kernel::Point => ones(row),
        Kernel::Box => overlaps(row, n, m, i, first),
        Kernel::Line => tents(row, m, held(places, n, m, i), first),
        Kernel::Triangle => parts(row, n, m, i, first),
    }
    first
}
