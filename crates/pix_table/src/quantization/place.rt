//! The place at which a cut of a box of colors lowers the squared error most.
ghost use Rattle.std.specs.Prelude.{◌≡◌, ℕ, ◌+◌, ◌-◌, ◌*◌, ◌<◌, ◌≤◌, List, length, map, MatchOption, true};
ghost use Rattle.pix_table.specs.matching.Nearest.{numbers};
ghost use Rattle.pix_table.specs.quantization.Places.{CannotBeCut, HasBest};
ghost use Rattle.pix_table.specs.quantization.BestPlaces.{AreSums, CanCut, HasSums};
ghost use Rattle.pix_table.specs.quantization.BestPlaces.{ArePart, IsBestUpTo, gain_at, weight_by};
ghost use Rattle.pix_table.specs.quantization.BestPlaces.{CanCutBy, IsBestUpToBy};

use crate::color::Color;
use crate::quantization::box_sums::{BLOCK, Sums, add_blocks, add_words, total, total_of_words};
use crate::quantization::by_value::ByValue;

/// A place of a box, and what a cut there gains.
///
/// A cut parts the colors whose number in the channel is below the value from the others.
#[derive(Clone, Copy)]
pub(crate) struct Place {
    /// The number of the channel.
    pub(crate) channel: usize,
    /// The value in that channel.
    pub(crate) value: u8,
    /// What a cut there gains.
    pub(crate) gain: u128,
}

/// Returns the place at which a cut of a box gains most, the first of equals.
///
/// It is `None` where all its colors are the same.
pub(crate) fn best_place(colors: &[Color]) -> Option<Place>
    ensures { MatchOption result (CannotBeCut (map numbers colors.now))
        (λ place. HasBest (map numbers colors.now) place.channel place.value place.gain) }
{
    if colors.len() < 2 {
        return None;
    }
    if colors.len() <= BLOCK {
        best_of_block(colors)
    } else {
        best_of_blocks(colors)
    }
}

/// Returns the place at which a cut of a box gains most, the first of equals, or `None` where all
/// its colors are the same. It adds words of the colors.
///
/// Condition: there is a color, and there are no more than a block.
// Out of line, so that the two ways don't add up on the stack.
#[inline(never)]
fn best_of_block(colors: &[Color]) -> Option<Place>
    requires some { 0 < length colors.now }
    requires few { length colors.now ≤ 65535 }
    ensures { IsBestUpTo (map numbers colors.now) 3 0 result }
{
    let (mut reds, mut greens, mut blues) = ([0; 256], [0; 256], [0; 256]);
    add_words(colors, &mut reds, &mut greens, &mut blues);
    let all = total_of_words(&reds, &greens);
    let best = best_in(0, &reds, 0, all, None);
    let best = best_in(1, &greens, 0, all, best);
    best_in(2, &blues, 0, all, best)
}

/// Returns the place at which a cut of a box gains most, the first of equals, or `None` where all
/// its colors are the same. It adds sums of any number of colors. Condition: there is a color.
#[inline(never)]
fn best_of_blocks(colors: &[Color]) -> Option<Place>
    requires { 0 < length colors.now }
    ensures { IsBestUpTo (map numbers colors.now) 3 0 result }
{
    let mut reds = [Sums::none(); 256];
    let (mut greens, mut blues) = (reds, reds);
    add_blocks(colors, &mut reds, &mut greens, &mut blues);
    let all = total(0, &reds);
    let best = best_in(0, &reds, 0, all, None);
    let best = best_in(1, &greens, 0, all, best);
    best_in(2, &blues, 0, all, best)
}

/// Returns the best place up to the end of a channel, where `best` is the best before it. No number
/// of the box in the channel is below `first`.
pub(crate) fn best_in<P: ByValue>(
    k: usize,
    parts: &P,
    first: u8,
    all: Sums,
    best: Option<Place>,
) -> Option<Place>
    requires channel { k < 3 }
    requires sums { (box : List (List ℕ)) × HasSums P.sums parts.now k first all box }
    ensures { (box : List (List ℕ)) → HasSums P.sums parts.now k first all box
        → IsBestUpTo box k 0 best → IsBestUpTo box (k + 1) 0 result }
{
    let whole = all.weight();
    let mut best = best;
    let mut low = Sums::none();
    for value in first..255 {
        let part = parts.at(k, usize::from(value));
        if part.count == 0 {
            continue;
        }
        low = low.and(part);
        if low.count == all.count {
            return best;
        }
        best = better_at(parts, all, low, whole, best, k, value + 1);
    }
    best
}

/// Returns the better of the best place so far and the next one, the first of equals.
///
/// `low` are the sums of the colors below the next one, and all colors weigh `whole`.
#[inline(always)]
fn better_at<P: ByValue>(
    parts: &P,
    all: Sums,
    low: Sums,
    whole: u128,
    best: Option<Place>,
    k: usize,
    value: u8,
) -> Option<Place>
    requires sums { (j : ℕ) × (box : List (List ℕ)) × P.sums parts.now j box
        × AreSums (λ color. true) box all }
    requires part { ArePart low all }
    requires whole { whole ≤ 195075 * all.count }
    ensures { (box : List (List ℕ)) → IsBestUpTo box k value best → CanCut box k value
        → gain_at k value box ≡ weight_by low.count low.red low.green low.blue
        + weight_by (all.count - low.count) (all.red - low.red) (all.green - low.green)
        (all.blue - low.blue)
        - whole
        → IsBestUpTo box k (value + 1) result }
{
    if let Some(old) = best {
        if parts.gains_little(all, low, whole, old.gain) {
            return best;
        }
    }
    let gain = parts.gain(all, low, whole);
    better(
        best,
        Place {
            channel: k,
            value,
            gain,
        },
    )
}

/// Returns the better of the best place so far and the next one, the first of equals.
pub(crate) fn better(best: Option<Place>, place: Place) -> Option<Place>
    ensures { (channels : ℕ) → (gains_at : ℕ → ℕ → List (List ℕ) → ℕ)
        → (box : List (List ℕ))
        → IsBestUpToBy channels gains_at box place.channel place.value best
        → CanCutBy channels box place.channel place.value
        → gains_at place.channel place.value box ≡ place.gain
        → IsBestUpToBy channels gains_at box place.channel (place.value + 1) result }
{
    match best {
        Some(old) => {
            if place.gain > old.gain {
                Some(place)
            } else {
                best
            }
        }
        None => Some(place),
    }
}
