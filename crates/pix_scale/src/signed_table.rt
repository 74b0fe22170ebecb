//! Tables of weights that may be negative.
ghost use Rattle.std.specs.Prelude.{◌≡◌, ℕ, ◌+◌, ◌*◌, ◌<◌, ◌≤◌, length, slice_index};
ghost use Rattle.pix_scale.specs.declared.filter.Kernel.TheVariants.{Point};
ghost use Rattle.pix_scale.specs.Table.{tap, IsSide};
ghost use Rattle.pix_scale.specs.Signed.{taps_of_filter};
ghost use Rattle.pix_scale.specs.SignedTable.{IsFilterRow, IsSound};

use crate::filter::SignedFilter;
use crate::signed_weights::{taps, weigh_signed};

/// Writes the table of places of the new side from `at` on. Condition: the places lie there, and
/// there are two numbers for each place that counts.
fn write_signed_table(
    filter: SignedFilter,
    places: u64,
    n: u64,
    m: u64,
    size: u64,
    at: u64,
    firsts: &mut [u32],
    plus: &mut [u32],
    minus: &mut [u32],
    taps: usize,
)
    requires side { IsSide Point places size n m }
    requires inside { at + length firsts.old ≤ size }
    requires size { size < 4294967296 }
    requires taps { taps ≡ taps_of_filter filter places n m }
    requires plus { length plus.old ≡ length firsts.old * taps }
    requires minus { length minus.old ≡ length firsts.old * taps }
    ensures { (i : ℕ) → i < length firsts.old → IsFilterRow filter places n m (at + i)
        (slice_index firsts.new i) taps (tap plus.new taps i) (tap minus.new taps i) }
{
    for i in 0..firsts.len() {
        let first = weigh_signed(
            filter,
            places,
            n,
            m,
            size,
            at + i as u64,
            &mut plus[i * taps..i * taps + taps],
            &mut minus[i * taps..i * taps + taps],
        );
        firsts[i] = first as u32;
    }
}

/// Writes the table of places of the new side from `at` on, and returns how many places count for
/// each. Condition: the places lie there, and there are two numbers for each place that counts.
pub(crate) fn signed_table(
    filter: SignedFilter,
    places: u64,
    n: u64,
    m: u64,
    size: u64,
    at: u64,
    firsts: &mut [u32],
    plus: &mut [u32],
    minus: &mut [u32],
) -> usize
    requires side { IsSide Point places size n m }
    requires inside { at + length firsts.old ≤ size }
    requires size { size < 4294967296 }
    requires plus { length plus.old ≡ length firsts.old * taps_of_filter filter places n m }
    requires minus { length minus.old ≡ length firsts.old * taps_of_filter filter places n m }
    ensures sound { IsSound places firsts.new plus.new minus.new result }
    ensures rows { (i : ℕ) → i < length firsts.old → IsFilterRow filter places n m (at + i)
        (slice_index firsts.new i) result (tap plus.new result i) (tap minus.new result i) }
{
    let count = taps(filter, places, n, m) as usize;
    write_signed_table(filter, places, n, m, size, at, firsts, plus, minus, count);
    count
}
