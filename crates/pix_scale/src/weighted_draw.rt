//! The picture at another size by tables that the caller gives.
ghost use Rattle.std.specs.Prelude.{◌≡◌, ℕ, ◌+◌, ◌*◌, ◌<◌, ◌≤◌, true, length};
ghost use Rattle.pix_scale.specs.Signed.{IsCut};
ghost use Rattle.pix_scale.specs.Weighted.{given, is_table};
ghost use Rattle.pix_scale.specs.WeightedCall.{weighted_words};

use crate::shape::Rows;
use crate::signed_rows::cut_rows;
use crate::weighted_table::part_weights;
use pix_el::el::Pixel;
use pix_el::stored::Stored;

/// Draws rows of a picture at another size by two tables, where nothing is to be refused. The last
/// slice is memory to work in.
pub(crate) fn draw_weighted<P: Pixel, D: Stored<P>>(
    to: &mut [D],
    rows: Rows,
    from: &[D],
    source: Rows,
    firsts: &[u32],
    taps: u32,
    weights: &[i32],
    lines: &[u32],
    lines_taps: u32,
    lines_weights: &[i32],
    work: &mut [u32],
)
    requires some { 0 < P.layout.count }
    requires few { P.layout.count ≤ 8 }
    requires across { is_table source.width rows.width firsts.now taps weights.now ≡ true }
    requires down { is_table source.height rows.height lines.now lines_taps lines_weights.now
        ≡ true }
    requires source { (v : ℕ) → v < source.height
        → v * source.stride + source.width ≤ length from.now }
    requires apart { rows.width ≤ rows.stride }
    requires fit { (y : ℕ) → y < rows.height → y * rows.stride + rows.width ≤ length to.old }
    requires work { weighted_words P.layout.count rows source taps lines_taps ≤ length work.old }
    ensures { IsCut D.reads P.layout (given firsts.now taps weights.now)
        (given lines.now lines_taps lines_weights.now) rows source from.now to.old to.new }
{
    if rows.width == 0 {
        return;
    }
    let (plus, rest) = work.split_at_mut(weights.len());
    let (minus, rest) = rest.split_at_mut(weights.len());
    let (lines_plus, rest) = rest.split_at_mut(lines_weights.len());
    let (lines_minus, rest) = rest.split_at_mut(lines_weights.len());
    let numbers = source.width as usize * P::default().channels().len();
    let (sums, rest) = rest.split_at_mut(numbers);
    let away = &mut rest[..numbers];
    part_weights(weights, plus, minus);
    part_weights(lines_weights, lines_plus, lines_minus);
    cut_rows::<P, D>(
        to,
        rows,
        from,
        source,
        sums,
        away,
        firsts,
        plus,
        minus,
        taps as usize,
        lines,
        lines_plus,
        lines_minus,
        lines_taps as usize,
    );
}
