//! Tables of weights that the caller gives: which are refused, and what they add and take away.
ghost use Rattle.std.specs.Prelude.{◌≡◌, ℕ, pos, ◌*◌, ◌<◌, ◌≤◌, length, slice_index, slice_index_or};
ghost use borrow.Author.Differences.{up, down};
ghost use Rattle.pix_scale.specs.Signed.{Taps};
ghost use Rattle.pix_scale.specs.Weighted.{given, is_whole, is_each, is_table};

/// Returns what a weight adds.
#[inline(always)]
fn adds(weight: i32) -> u32
    ensures value { result ≡ up weight }
    ensures small { result < 2147483648 }
{
    if weight < 0 { 0 } else { weight as u32 }
}

/// Returns what a weight takes away.
#[inline(always)]
fn takes(weight: i32) -> u32
    ensures value { result ≡ down weight }
    ensures small { result ≤ 2147483648 }
{
    if weight < 0 { weight.unsigned_abs() } else { 0 }
}

/// Writes what each weight adds and what it takes away. Condition: there is a place for each.
pub(crate) fn part_weights(weights: &[i32], plus: &mut [u32], minus: &mut [u32])
    requires plus { length plus.old ≡ length weights.now }
    requires minus { length minus.old ≡ length weights.now }
    ensures plus { (k : ℕ) → k < length weights.now
        → slice_index plus.new k ≡ up (slice_index_or weights.now k (pos 0)) }
    ensures minus { (k : ℕ) → k < length weights.now
        → slice_index minus.new k ≡ down (slice_index_or weights.now k (pos 0)) }
{
    for k in 0..weights.len() {
        plus[k] = adds(weights[k]);
        minus[k] = takes(weights[k]);
    }
}

/// Returns whether a row of a table lies in so many places, adds up, and takes little away.
/// Condition: the row is there, and it is short.
fn is_whole(firsts: &[u32], taps: usize, weights: &[i32], places: u32, i: usize) -> bool
    requires row { i < length firsts.now }
    requires short { taps ≤ 65535 }
    requires long { length weights.now ≡ length firsts.now * taps }
    ensures { result ≡ is_whole places (given firsts.now taps weights.now i) }
{
    let mut added: u64 = 0;
    let mut taken: u64 = 0;
    for k in 0..taps {
        let weight = weights[i * taps + k];
        added += u64::from(adds(weight));
        taken += u64::from(takes(weight));
    }
    u64::from(firsts[i]) + taps as u64 <= u64::from(places)
        && taken < 8192
        && added == 16384 + taken
}

/// Returns whether each row of a table is whole. Condition: the rows are there, and they are short.
fn are_whole(firsts: &[u32], taps: usize, weights: &[i32], places: u32) -> bool
    requires short { taps ≤ 65535 }
    requires long { length weights.now ≡ length firsts.now * taps }
    ensures { result ≡ is_each (length firsts.now)
        (λ i. is_whole places (given firsts.now taps weights.now i)) }
{
    let mut all = true;
    for i in 0..firsts.len() {
        all = all && is_whole(firsts, taps, weights, places, i);
    }
    all
}

/// Returns whether a table has a whole row for each place of a new side. Condition: the old side is
/// small.
pub(crate) fn is_table(firsts: &[u32], taps: u32, weights: &[i32], places: u32, size: u32) -> bool
    requires small { places ≤ 65535 }
    ensures { result ≡ is_table places size firsts.now taps weights.now }
{
    firsts.len() as u64 == u64::from(size)
        && taps <= places
        && weights.len() as u64 == u64::from(size) * u64::from(taps)
        && are_whole(firsts, taps as usize, weights, places)
}
