//! Items of seen colors, each a color and one that stands for its count: their boxes and their
//! cut.
ghost use Rattle.std.specs.Prelude.{◌≡◌, ◌^◌, ◌<◌, ◌≤◌, ◌∷◌, ◌++◌, ◌+◌, [], ℕ, All, Bool, IsPermutation, List, length, map, MatchOption, sum_by, take, true};
ghost use Rattle.pix_table.specs.quantization.Items.{count_of, item_of, pair_items, spread, times_of, weigh_items};
ghost use Rattle.pix_table.specs.quantization.Places.{CannotBeCutBy, HasBestBy};
ghost use Rattle.pix_table.specs.SeenPixels.{AreSeen, seen_numbers};
ghost use Rattle.pix_table.specs.quantization.SeenCut.{IsSeenCutTable, seen_mean, seen_weight};
ghost use Rattle.pix_table.specs.quantization.SeenItems.{IsSeenItem};
ghost use Rattle.pix_table.specs.quantization.SeenSums.{AreFew, AreSeenByValue, AreSeenSums};
ghost use Rattle.pix_table.specs.quantization.ColorGroups.{AreSeenBoxSums};

use crate::quantization::box_sums::FEW;
use crate::quantization::cut::cut_items;
use crate::quantization::cutting::{Cutting, Item};
use crate::quantization::group::{BoxSums, Group};
use crate::quantization::items::Counted;
use crate::quantization::joins::BOXES;
use crate::quantization::place::Place;
use crate::rgba::color::SeenColor;
use crate::rgba::part_sums::{FEW_COLORS, PartSums, PartSums32, clear};
use crate::rgba::place::{best_in, best_seen_place};
use crate::rgba::sums::{SeenSums, seen_channel, seen_sums_of};

impl BoxSums for SeenSums {
    ghost are = { AreSeenBoxSums };

    ghost weigh = { seen_weight };

    #[inline(always)]
    fn both(self, other: SeenSums) -> SeenSums {
        self.and(other)
    }

    fn box_weight(self) -> u128 {
        self.weight()
    }

    #[inline(always)]
    fn are_few(self) -> bool {
        self.count < FEW
    }

    #[inline(always)]
    fn box_weighs_at_most(self, most: u128) -> bool {
        self.weighs_at_most(most)
    }
}

impl Cutting for SeenColor {
    type Sums = SeenSums;

    ghost middle = { seen_mean };

    ghost fits = { IsSeenItem };

    fn mean_color(sums: SeenSums) -> SeenColor {
        sums.mean()
    }
}

/// A color that stands once.
impl Item<SeenColor> for SeenColor {
    ghost numbers = { λ color. seen_numbers color ++ 1 ∷ [] };

    #[inline(always)]
    fn kept(self) -> SeenColor {
        self
    }

    #[inline(always)]
    fn channel(self, k: usize) -> u8 {
        seen_channel(self, k)
    }

    fn best_place(items: &[SeenColor]) -> Option<Place> {
        best_seen_place(items)
    }

    fn sums_of(items: &[SeenColor]) -> SeenSums {
        seen_sums_of(items)
    }
}

/// A color, and one that stands for its count.
impl Item<SeenColor> for [SeenColor; 2] {
    ghost numbers = { λ pair. item_of (map seen_numbers pair) };

    #[inline(always)]
    fn kept(self) -> [SeenColor; 2] {
        self
    }

    #[inline(always)]
    fn channel(self, k: usize) -> u8 {
        seen_channel(self[0], k)
    }

    fn best_place(items: &[[SeenColor; 2]]) -> Option<Place> {
        best_item_place(items)
    }

    fn sums_of(items: &[[SeenColor; 2]]) -> SeenSums {
        item_sums_of(items)
    }
}

/// Writes the table of the colors of some items into the first of the entries, and returns how many
/// they are. The items come into another order.
///
/// Condition: there is an item, and there are 1 to 256 entries.
// Out of line, so that its stack and that of the rounds do not add up.
#[inline(never)]
pub(crate) fn cut_seen_table<I: Item<SeenColor>>(
    items: &mut [I],
    entries: &mut [SeenColor],
) -> usize
    requires some { 0 < length items.old }
    requires fit { All IsSeenItem (map I.numbers items.old) }
    requires few { sum_by (times_of 4) (map I.numbers items.old) < 2 ^ 64 }
    requires room { 0 < length entries.old }
    requires few_entries { length entries.old ≤ 256 }
    ensures some { 0 < result }
    ensures within { result ≤ length entries.new }
    ensures moved { IsPermutation (map I.numbers items.old) (map I.numbers items.new) }
    ensures table { (colors : List (List ℕ))
        → IsPermutation colors (spread 4 (map I.numbers items.old))
        → IsSeenCutTable (length entries.old) colors (map seen_numbers (take result entries.new)) }
    ensures seen { All AreSeen (map seen_numbers (take result entries.new)) }
{
    let none = Group {
        sums: SeenSums::none(),
        weight: 0,
    };
    let mut groups = [none; BOXES];
    cut_items(items, &mut groups, entries)
}

/// Returns the place at which a cut of a box gains most, the first of equals.
///
/// It is `None` where all its colors are the same.
fn best_item_place(items: &[[SeenColor; 2]]) -> Option<Place>
    requires fit { All IsSeenItem (pair_items seen_numbers items.now) }
    requires few { sum_by (times_of 4) (pair_items seen_numbers items.now) < 2 ^ 64 }
    ensures { MatchOption result (CannotBeCutBy 4 (pair_items seen_numbers items.now))
        (λ place. HasBestBy 4 (weigh_items 4 seen_weight) (pair_items seen_numbers items.now)
        place.channel place.value place.gain) }
{
    if items.len() < 2 {
        return None;
    }
    let all = item_sums_of(items);
    if all.count < FEW_COLORS {
        best_of_few(items, all)
    } else {
        best_of_many(items, all)
    }
}

/// Returns the place at which a cut of a box of few colors gains most, the first of equals, or
/// `None` where all are the same. It adds their sums, of which `all` is the total, in one turn.
///
/// Condition: there is an item, and there are fewer than 2^24 colors.
// Out of line, so that the two ways don't add up on the stack.
#[inline(never)]
fn best_of_few(items: &[[SeenColor; 2]], all: SeenSums) -> Option<Place>
    requires some { 0 < length items.now }
    requires fit { All IsSeenItem (pair_items seen_numbers items.now) }
    requires few { sum_by (times_of 4) (pair_items seen_numbers items.now) < 16777216 }
    requires all { AreSeenSums (λ color. true)
        (spread 4 (pair_items seen_numbers items.now)) all }
    ensures { MatchOption result (CannotBeCutBy 4 (pair_items seen_numbers items.now))
        (λ place. HasBestBy 4 (weigh_items 4 seen_weight) (pair_items seen_numbers items.now)
        place.channel place.value place.gain) }
{
    let mut reds = [PartSums32::no_colors(); 256];
    let (mut greens, mut blues, mut alphas) = (reds, reds, reds);
    add_items(items, &mut reds, &mut greens, &mut blues, &mut alphas);
    let best = best_in(0, &reds, all, None);
    let best = best_in(1, &greens, all, best);
    let best = best_in(2, &blues, all, best);
    best_in(3, &alphas, all, best)
}

/// Returns the place at which a cut of a box of any number of colors gains most, the first of
/// equals, or `None` where all are the same. It adds their sums, of which `all` is the total, in a
/// turn for each channel. Condition: there is an item.
#[inline(never)]
fn best_of_many(items: &[[SeenColor; 2]], all: SeenSums) -> Option<Place>
    requires some { 0 < length items.now }
    requires fit { All IsSeenItem (pair_items seen_numbers items.now) }
    requires few { sum_by (times_of 4) (pair_items seen_numbers items.now) < 2 ^ 64 }
    requires all { AreSeenSums (λ color. true)
        (spread 4 (pair_items seen_numbers items.now)) all }
    ensures { MatchOption result (CannotBeCutBy 4 (pair_items seen_numbers items.now))
        (λ place. HasBestBy 4 (weigh_items 4 seen_weight) (pair_items seen_numbers items.now)
        place.channel place.value place.gain) }
{
    let mut parts = [SeenSums::none(); 256];
    let mut best = None;
    for k in 0..4 {
        sum_by_value(&mut parts, items, k);
        best = best_in(k, &parts, all, best);
    }
    best
}

/// Returns the sums of the colors of some items.
fn item_sums_of(items: &[[SeenColor; 2]]) -> SeenSums
    requires fit { All IsSeenItem (pair_items seen_numbers items.now) }
    requires few { sum_by (times_of 4) (pair_items seen_numbers items.now) < 2 ^ 64 }
    ensures { AreSeenSums (λ color. true) (spread 4 (pair_items seen_numbers items.now)) result }
{
    let mut sums = SeenSums::none();
    for i in 0..items.len() {
        sums = sums.and(item_sums(items[i]));
    }
    sums
}

/// Returns the sums of the colors of an item.
#[inline(always)]
fn item_sums<S: PartSums>(item: [SeenColor; 2]) -> S
    requires { IsSeenItem (item_of (map seen_numbers item)) }
    ensures { (p : List ℕ → Bool) → p (take 4 (item_of (map seen_numbers item))) ≡ true
        → AreSeenSums p (spread 4 (item_of (map seen_numbers item) ∷ [])) (S.whole result) }
{
    let [clr, count] = item;
    S::of_color(clr, count.count())
}

/// Sets the sums of the colors of each value of a channel.
fn sum_by_value<S: PartSums>(parts: &mut [S], items: &[[SeenColor; 2]], k: usize)
    requires channel { k < 4 }
    requires many { length parts.old ≡ 256 }
    requires fit { All IsSeenItem (pair_items seen_numbers items.now) }
    requires few { sum_by (times_of 4) (pair_items seen_numbers items.now) < S.limit }
    ensures many { length parts.new ≡ 256 }
    ensures sums { AreSeenByValue k (spread 4 (pair_items seen_numbers items.now))
        (map S.whole parts.new) }
{
    clear(parts);
    for i in 0..items.len() {
        add_item(parts, k, items[i]);
    }
}

/// Adds some items to the sums of no colors, in one turn.
fn add_items<S: PartSums>(
    items: &[[SeenColor; 2]],
    reds: &mut [S],
    greens: &mut [S],
    blues: &mut [S],
    alphas: &mut [S],
)
    requires fit { All IsSeenItem (pair_items seen_numbers items.now) }
    requires few { sum_by (times_of 4) (pair_items seen_numbers items.now) < S.limit }
    requires red_none { AreSeenByValue 0 [] (map S.whole reds.old) }
    requires green_none { AreSeenByValue 1 [] (map S.whole greens.old) }
    requires blue_none { AreSeenByValue 2 [] (map S.whole blues.old) }
    requires alpha_none { AreSeenByValue 3 [] (map S.whole alphas.old) }
    ensures reds { AreSeenByValue 0 (spread 4 (pair_items seen_numbers items.now))
        (map S.whole reds.new) }
    ensures greens { AreSeenByValue 1 (spread 4 (pair_items seen_numbers items.now))
        (map S.whole greens.new) }
    ensures blues { AreSeenByValue 2 (spread 4 (pair_items seen_numbers items.now))
        (map S.whole blues.new) }
    ensures alphas { AreSeenByValue 3 (spread 4 (pair_items seen_numbers items.now))
        (map S.whole alphas.new) }
{
    for i in 0..items.len() {
        let item = items[i];
        add_item(reds, 0, item);
        add_item(greens, 1, item);
        add_item(blues, 2, item);
        add_item(alphas, 3, item);
    }
}

/// Adds an item to the sums of the colors of its value in a channel.
#[inline(always)]
fn add_item<S: PartSums>(parts: &mut [S], k: usize, item: [SeenColor; 2])
    requires channel { k < 4 }
    requires item { IsSeenItem (item_of (map seen_numbers item)) }
    requires sums { (box : List (List ℕ)) × All AreSeen box
        × AreSeenByValue k box (map S.whole parts.old)
        × (length box + length (spread 4 (item_of (map seen_numbers item) ∷ [])) < S.limit) }
    ensures { (box : List (List ℕ)) → AreSeenByValue k box (map S.whole parts.old)
        → AreSeenByValue k (box ++ spread 4 (item_of (map seen_numbers item) ∷ []))
        (map S.whole parts.new) }
{
    let value = usize::from(item.channel(k));
    parts[value] = parts[value].joined(item_sums(item));
}
