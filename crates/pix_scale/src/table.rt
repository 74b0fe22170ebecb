//! The table of weights of some places of the new side.
ghost use Rattle.std.specs.Prelude.{◌≡◌, ℕ, ◌+◌, ◌*◌, ◌<◌, ◌≤◌, length, slice_index};
ghost use Rattle.pix_scale.specs.Axis.{axis_of};
ghost use Rattle.pix_scale.specs.Table.{IsSide, IsTable};

use crate::side::Side;
use crate::weights::weigh;

/// Writes the table of places of the new side from `at` on. Condition: the places lie there, and
/// there is a number for each place that counts.
pub(crate) fn write_table(side: Side, size: u64, at: u64, firsts: &mut [u32], weights: &mut [u32])
    requires side { IsSide side.kernel side.places size side.n side.m }
    requires inside { at + length firsts.old ≤ size }
    requires size { size < 4294967296 }
    requires fits { (axis_of side.kernel side.places side.n side.m).whole < 4294967296 }
    requires table { length weights.old ≡
        length firsts.old * (axis_of side.kernel side.places side.n side.m).taps }
    ensures { IsTable (axis_of side.kernel side.places side.n side.m) at firsts.new weights.new
        (axis_of side.kernel side.places side.n side.m).taps }
{
    let taps = side.taps() as usize;
    for i in 0..firsts.len() {
        let first = weigh(
            side,
            size,
            at + i as u64,
            &mut weights[i * taps..i * taps + taps],
        );
        firsts[i] = first as u32;
    }
}

/// Returns the first place that a table names, and the place behind the last.
pub(crate) fn span(firsts: &[u32], taps: usize, places: usize) -> (usize, usize)
    requires some { 0 < length firsts.now }
    requires inside { (i : ℕ) → i < length firsts.now
        → slice_index firsts.now i + taps ≤ places }
    ensures low { (i : ℕ) → i < length firsts.now → result.0 ≤ slice_index firsts.now i }
    ensures high { (i : ℕ) → i < length firsts.now → slice_index firsts.now i + taps ≤ result.1 }
    ensures order { result.0 + taps ≤ result.1 }
    ensures within { result.1 ≤ places }
{
    let mut low = firsts[0] as usize;
    let mut high = low;
    for i in 0..firsts.len() {
        low = low.min(firsts[i] as usize);
        high = high.max(firsts[i] as usize);
    }
    (low, high + taps)
}
