//! The place at which a cut of a box of seen colors lowers the squared error most.
ghost use Rattle.std.specs.Prelude.{◌≡◌, ◌+◌, ◌-◌, ◌<◌, ◌∷◌, ◌++◌, [], ℕ, All, List, length, map, MatchOption};
ghost use Rattle.pix_table.specs.quantization.Places.{CannotBeCutBy, HasBestBy};
ghost use Rattle.pix_table.specs.quantization.BestPlaces.{CanCutBy, IsBestUpToBy};
ghost use Rattle.pix_table.specs.SeenPixels.{AreSeen, seen_numbers};
ghost use Rattle.pix_table.specs.quantization.SeenCut.{seen_weight};
ghost use Rattle.pix_table.specs.quantization.SeenSums.{AreSeenByValue, AreSeenPart, IsSummed, seen_gain_at, seen_weight_by};

use crate::quantization::place::{Place, better};
use crate::rgba::color::SeenColor;
use crate::rgba::part_sums::{FEW_COLORS, PartSums, PartSums32};
use crate::rgba::sums::{SeenSums, seen_channel, seen_sums_of, sum_values};

/// Returns the place at which a cut of a box gains most, the first of equals.
///
/// It is `None` where all its colors are the same.
pub(crate) fn best_seen_place(colors: &[SeenColor]) -> Option<Place>
    requires { All AreSeen (map seen_numbers colors.now) }
    ensures { MatchOption result (CannotBeCutBy 4 (map seen_numbers colors.now))
        (λ place. HasBestBy 4 seen_weight (map seen_numbers colors.now) place.channel place.value
        place.gain) }
{
    if colors.len() < 2 {
        return None;
    }
    if colors.len() < FEW_COLORS {
        best_of_few(colors)
    } else {
        best_of_many(colors)
    }
}

/// Returns the place at which a cut of a box of few colors gains most, the first of equals, or
/// `None` where all are the same. It adds their sums in one turn.
///
/// Condition: there is a color, and there are fewer than 2^24.
// Out of line, so that the two ways don't add up on the stack.
#[inline(never)]
fn best_of_few(colors: &[SeenColor]) -> Option<Place>
    requires some { 0 < length colors.now }
    requires few { length colors.now < 16777216 }
    requires seen { All AreSeen (map seen_numbers colors.now) }
    ensures { MatchOption result (CannotBeCutBy 4 (map seen_numbers colors.now))
        (λ place. HasBestBy 4 seen_weight (map seen_numbers colors.now) place.channel place.value
        place.gain) }
{
    let all = seen_sums_of(colors);
    let mut reds = [PartSums32::no_colors(); 256];
    let (mut greens, mut blues, mut alphas) = (reds, reds, reds);
    add_colors(colors, &mut reds, &mut greens, &mut blues, &mut alphas);
    let best = best_in(0, &reds, all, None);
    let best = best_in(1, &greens, all, best);
    let best = best_in(2, &blues, all, best);
    best_in(3, &alphas, all, best)
}

/// Adds some colors to the sums of no colors, in one turn.
fn add_colors<S: PartSums>(
    colors: &[SeenColor],
    reds: &mut [S],
    greens: &mut [S],
    blues: &mut [S],
    alphas: &mut [S],
)
    requires seen { All AreSeen (map seen_numbers colors.now) }
    requires few { length colors.now < S.limit }
    requires red_none { AreSeenByValue 0 [] (map S.whole reds.old) }
    requires green_none { AreSeenByValue 1 [] (map S.whole greens.old) }
    requires blue_none { AreSeenByValue 2 [] (map S.whole blues.old) }
    requires alpha_none { AreSeenByValue 3 [] (map S.whole alphas.old) }
    ensures reds { AreSeenByValue 0 (map seen_numbers colors.now) (map S.whole reds.new) }
    ensures greens { AreSeenByValue 1 (map seen_numbers colors.now) (map S.whole greens.new) }
    ensures blues { AreSeenByValue 2 (map seen_numbers colors.now) (map S.whole blues.new) }
    ensures alphas { AreSeenByValue 3 (map seen_numbers colors.now) (map S.whole alphas.new) }
{
    for i in 0..colors.len() {
        let clr = colors[i];
        add_color(reds, 0, clr);
        add_color(greens, 1, clr);
        add_color(blues, 2, clr);
        add_color(alphas, 3, clr);
    }
}

/// Adds a color to the sums of the colors of its value in a channel.
#[inline(always)]
fn add_color<S: PartSums>(parts: &mut [S], k: usize, clr: SeenColor)
    requires channel { k < 4 }
    requires seen { AreSeen (seen_numbers clr) }
    requires sums { (box : List (List ℕ)) × All AreSeen box
        × AreSeenByValue k box (map S.whole parts.old) × (length box + 1 < S.limit) }
    ensures { (box : List (List ℕ)) → AreSeenByValue k box (map S.whole parts.old)
        → AreSeenByValue k (box ++ seen_numbers clr ∷ []) (map S.whole parts.new) }
{
    let value = usize::from(seen_channel(clr, k));
    parts[value] = parts[value].joined(S::of_color(clr, 1));
}

/// Returns the place at which a cut of a box of any number of colors gains most, the first of
/// equals, or `None` where all are the same. It adds their sums in a turn for each channel.
///
/// Condition: there is a color.
#[inline(never)]
fn best_of_many(colors: &[SeenColor]) -> Option<Place>
    requires some { 0 < length colors.now }
    requires seen { All AreSeen (map seen_numbers colors.now) }
    ensures { MatchOption result (CannotBeCutBy 4 (map seen_numbers colors.now))
        (λ place. HasBestBy 4 seen_weight (map seen_numbers colors.now) place.channel place.value
        place.gain) }
{
    let all = seen_sums_of(colors);
    let mut parts = [SeenSums::none(); 256];
    let mut best = None;
    for k in 0..4 {
        sum_values(&mut parts, colors, k);
        best = best_in(k, &parts, all, best);
    }
    best
}

/// Returns the best place of a box up to the end of a channel, where `best` is the best before it.
pub(crate) fn best_in<S: PartSums>(
    k: usize,
    parts: &[S],
    all: SeenSums,
    best: Option<Place>,
) -> Option<Place>
    requires channel { k < 4 }
    requires many { length parts.now ≡ 256 }
    requires before { (box : List (List ℕ)) × IsSummed k box (map S.whole parts.now) all
        × IsBestUpToBy 4 seen_gain_at box k 0 best }
    ensures { (box : List (List ℕ)) → IsSummed k box (map S.whole parts.now) all
        → IsBestUpToBy 4 seen_gain_at box k 0 best
        → IsBestUpToBy 4 seen_gain_at box (k + 1) 0 result }
{
    let whole = all.weight();
    let mut best = best;
    let mut low = SeenSums::none();
    for value in 0..255 {
        let part = parts[usize::from(value)].sums();
        if part.count == 0 {
            continue;
        }
        low = low.and(part);
        if low.count == all.count {
            return best;
        }
        best = better_at(all, low, whole, best, k, value + 1);
    }
    best
}

/// Returns the better of the best place so far and the next one, the first of equals.
///
/// `low` are the sums of the colors below the next one, and all colors weigh `whole`.
#[inline(always)]
fn better_at(
    all: SeenSums,
    low: SeenSums,
    whole: u128,
    best: Option<Place>,
    k: usize,
    value: u8,
) -> Option<Place>
    requires { AreSeenPart low all }
    ensures { (box : List (List ℕ)) → IsBestUpToBy 4 seen_gain_at box k value best
        → CanCutBy 4 box k value
        → seen_gain_at k value box ≡ seen_weight_by low.count low.red low.green low.blue low.alpha
        + seen_weight_by (all.count - low.count) (all.red - low.red) (all.green - low.green)
        (all.blue - low.blue) (all.alpha - low.alpha)
        - whole
        → IsBestUpToBy 4 seen_gain_at box k (value + 1) result }
{
    let high = all.without(low);
    if let Some(old) = best {
        if low.both_weigh_at_most(high, whole.saturating_add(old.gain)) {
            return best;
        }
    }
    let gain = (low.weight() + high.weight()).saturating_sub(whole);
    better(
        best,
        Place {
            channel: k,
            value,
            gain,
        },
    )
}
