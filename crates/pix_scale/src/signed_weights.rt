//! What the places of a side count for one place of the new side, by weights that may be negative.
ghost use Rattle.std.specs.Prelude.{◌≡◌, ℕ, ◌+◌, ◌-◌, ◌*◌, ◌/◌, ◌<◌, ◌≤◌, length, min, max, slice_index, not, ◌&&◌, nat_eq, nat_lt};
ghost use Rattle.pix_scale.specs.declared.filter.Kernel.TheVariants.{Point};
ghost use Rattle.pix_scale.specs.Axis.{total, rounded_part};
ghost use Rattle.pix_scale.specs.Signed.{reach, apart, adds, takes, part_of, taps_of_filter};
ghost use Rattle.pix_scale.specs.Table.{IsSide};
ghost use Rattle.pix_scale.specs.SignedTable.{near_weight, IsFilterRow};

use crate::filter::SignedFilter;
use crate::signed_values::raised;

/// Returns how far a filter reaches, in places.
#[inline(always)]
fn reach(filter: SignedFilter) -> u64
    ensures value { result ≡ reach filter }
    ensures some { 2 ≤ result }
    ensures small { result ≤ 3 }
{
    match filter {
        SignedFilter::CatmullRom => 2,
        SignedFilter::Mitchell => 2,
        SignedFilter::Lanczos => 3,
    }
}

/// Returns how many places count for a place of the new side, at most.
pub(crate) fn taps(filter: SignedFilter, places: u64, n: u64, m: u64) -> u64
    requires n { n ≤ 65535 }
    requires some_m { 0 < m }
    requires m { m < 4294967296 }
    ensures value { result ≡ taps_of_filter filter places n m }
    ensures small { result ≤ places }
{
    places.min(2 * reach(filter) * n.max(m) / m + 1)
}

/// Returns the distance between the middles of places `i` and `j`, in 2^16ths of the longer of
/// both, up to 4.
#[inline(always)]
fn apart(n: u64, m: u64, i: u64, j: u64) -> u64
    requires n { n ≤ 65535 }
    requires some_m { 0 < m }
    requires m { m < 4294967296 }
    requires i { i < 4294967296 }
    requires j { j < 65535 }
    ensures value { result ≡ apart n m i j }
    ensures small { result < 4294967296 }
{
    let wide = n.max(m);
    let d = ((2 * j + 1) * m).abs_diff((2 * i + 1) * n);
    d.min(8 * wide) * 32768 / wide
}

/// Returns what all places from the first on add for place `i`, and what they take away.
fn both_totals(filter: SignedFilter, n: u64, m: u64, i: u64, first: u64, count: u64) -> (u64, u64)
    requires n { n ≤ 65535 }
    requires some_m { 0 < m }
    requires m { m < 4294967296 }
    requires i { i < 4294967296 }
    requires inside { first + count ≤ 65535 }
    ensures added { result.0 ≡ total count (adds filter n m i first) }
    ensures taken { result.1 ≡ total count (takes filter n m i first) }
    ensures added_small { result.0 ≤ 134217728 * 65535 }
    ensures taken_small { result.1 ≤ 134217728 * 65535 }
{
    let mut added = 0;
    let mut taken = 0;
    for k in 0..count {
        let value = raised(filter, apart(n, m, i, first + k));
        added += value.saturating_sub(16777216);
        taken += 16777216u64.saturating_sub(value);
    }
    (added, taken)
}

/// Returns 2^15 times a part of a sum, rounded to the nearest. Condition: both are small.
#[inline(always)]
fn mark(part: u64, sum: u64) -> u64
    requires some { 0 < sum }
    requires small { sum ≤ 134217728 * 65535 * 2 }
    requires part { part ≤ 134217728 * 65535 }
    ensures { result ≡ rounded_part part sum }
{
    (2 * (part * 32768) + sum) / (2 * sum)
}

/// Writes the parts that places from the first on have of a whole, rounded as they add up: what
/// they add, and what they take away.
///
/// Condition: the whole is what they add together, less what they take away, and that is little.
fn both_parts(
    plus: &mut [u32],
    minus: &mut [u32],
    filter: SignedFilter,
    n: u64,
    m: u64,
    i: u64,
    first: u64,
    whole: u64,
)
    requires same { length minus.old ≡ length plus.old }
    requires n { n ≤ 65535 }
    requires some_m { 0 < m }
    requires m { m < 4294967296 }
    requires i { i < 4294967296 }
    requires inside { first + length plus.old ≤ 65535 }
    requires some { 0 < whole }
    requires whole { whole ≤ 134217728 * 65535 }
    requires added { total (length plus.old) (adds filter n m i first) ≤ 134217728 * 65535 }
    requires taken { total (length plus.old) (takes filter n m i first) ≤ 134217728 * 65535 }
    requires plus_fits { rounded_part (total (length plus.old) (adds filter n m i first))
        (2 * whole) < 4294967296 }
    requires minus_fits { rounded_part (total (length plus.old) (takes filter n m i first))
        (2 * whole) < 4294967296 }
    ensures plus { (k : ℕ) → k < length plus.old
        → slice_index plus.new k ≡ part_of (adds filter n m i first) whole k }
    ensures minus { (k : ℕ) → k < length plus.old
        → slice_index minus.new k ≡ part_of (takes filter n m i first) whole k }
{
    let sum = 2 * whole;
    let mut added = 0;
    let mut taken = 0;
    for k in 0..plus.len() {
        let value = raised(filter, apart(n, m, i, first + k as u64));
        let more = added + value.saturating_sub(16777216);
        plus[k] = (mark(more, sum) - mark(added, sum)) as u32;
        added = more;
        let less = taken + 16777216u64.saturating_sub(value);
        minus[k] = (mark(less, sum) - mark(taken, sum)) as u32;
        taken = less;
    }
}

/// Writes 2^14 for the place that alone counts, and 0 for the others.
fn one_place(plus: &mut [u32], minus: &mut [u32], first: u64, place: u64)
    requires same { length minus.old ≡ length plus.old }
    requires inside { first + length plus.old ≤ 65535 }
    ensures plus { (k : ℕ) → k < length plus.old
        → slice_index plus.new k ≡ near_weight first place k }
    ensures minus { (k : ℕ) → k < length plus.old → slice_index minus.new k ≡ 0 }
{
    for k in 0..plus.len() {
        plus[k] = if first + k as u64 == place { 16384 } else { 0 };
        minus[k] = 0;
    }
}

/// Returns the first place that counts for place `i`. Condition: so many places are there.
#[inline(always)]
fn first(filter: SignedFilter, places: u64, n: u64, m: u64, i: u64, count: u64) -> u64
    requires count { count ≤ places }
    requires n { n ≤ 65535 }
    requires some_m { 0 < m }
    requires m { m < 4294967296 }
    requires i { i < 4294967296 }
    ensures value { result ≡ min (places - count)
        (((2 * i + 1) * n + m - 2 * reach filter * max n m) / (2 * m)) }
    ensures inside { result + count ≤ places }
{
    let middle = (2 * i + 1) * n + m;
    (middle.saturating_sub(2 * reach(filter) * n.max(m)) / (2 * m)).min(places - count)
}

/// Returns whether a filter is used, by what is taken away, and by the whole.
#[inline(always)]
fn is_used(n: u64, m: u64, taken: u64, whole: u64) -> bool
    requires taken { taken ≤ 134217728 * 65535 }
    requires whole { whole ≤ 134217728 * 65535 }
    ensures { result ≡ (not (nat_eq n m) && (nat_lt 0 whole
        && nat_lt (rounded_part taken (2 * whole)) 8192)) }
{
    n != m && whole > 0 && mark(taken, 2 * whole) < 8192
}

/// Writes what counts for place `i` of a side: a weight for each place from that on that is
/// returned, by what it adds and what it takes away. Condition: so many places count.
pub(crate) fn weigh_signed(
    filter: SignedFilter,
    places: u64,
    n: u64,
    m: u64,
    size: u64,
    i: u64,
    plus: &mut [u32],
    minus: &mut [u32],
) -> u64
    requires side { IsSide Point places size n m }
    requires i { i < size }
    requires size { size < 4294967296 }
    requires plus { length plus.old ≡ taps_of_filter filter places n m }
    requires minus { length minus.old ≡ length plus.old }
    ensures { IsFilterRow filter places n m i result (length plus.old)
        (slice_index plus.new) (slice_index minus.new) }
{
    let count = plus.len() as u64;
    let start = first(filter, places, n, m, i, count);
    let (added, taken) = both_totals(filter, n, m, i, start, count);
    let whole = added.saturating_sub(taken);
    if is_used(n, m, taken, whole) {
        both_parts(plus, minus, filter, n, m, i, start, whole);
        return start;
    }
    let place = (2 * i + 1) * n / (2 * m);
    let near = place.min(places - count);
    one_place(plus, minus, near, place);
    near
}
