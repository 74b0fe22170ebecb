//! A table of the means of boxes of items: of colors, each beside its count.
ghost use Rattle.std.specs.Prelude.{◌≡◌, ℕ, ◌+◌, ◌^◌, ◌<◌, ◌≤◌, All, List, [], ◌∷◌, ◌++◌, length, map, replicate, slice_index, slice_index_or, sum_by, take, IsPermutation, MatchOption, true};
ghost use Rattle.pix_table.specs.matching.Nearest.{numbers};
ghost use Rattle.pix_table.specs.quantization.Places.{CannotBeCutBy, HasBestBy, weight};
ghost use Rattle.pix_table.specs.quantization.Cut.{IsCutTable, mean};
ghost use Rattle.pix_table.specs.quantization.BestPlaces.{AreByValue, AreBytes, AreSums, AreWords, IsBestUpTo};
ghost use Rattle.pix_table.specs.quantization.ColorGroups.{AreBoxSums};
ghost use Rattle.pix_table.specs.quantization.Items.{IsItem, item_of, pair_items, spread, times_of, weigh_items};

use crate::color::{Color, channel};
use crate::quantization::box_sums::{
    BLOCK, FEW, Sums, add_block, sums_of, total, total_of_words, word,
};
use crate::quantization::cut::cut_items;
use crate::quantization::cutting::{Cutting, Item};
use crate::quantization::group::{BoxSums, Group};
use crate::quantization::items::Counted;
use crate::quantization::joins::BOXES;
use crate::quantization::place::{Place, best_in, best_place};

impl BoxSums for Sums {
    ghost are = { AreBoxSums };

    ghost weigh = { weight };

    #[inline(always)]
    fn both(self, other: Sums) -> Sums {
        self.and(other)
    }

    fn box_weight(self) -> u128 {
        self.weight()
    }

    #[inline(always)]
    fn are_few(self) -> bool {
        self.count < FEW
    }

    #[inline(always)]
    fn box_weighs_at_most(self, most: u128) -> bool {
        self.weighs_at_most(most)
    }
}

impl Cutting for Color {
    type Sums = Sums;

    ghost middle = { mean };

    ghost fits = { IsItem 3 };

    fn mean_color(sums: Sums) -> Color {
        sums.mean()
    }
}

/// A color that stands once.
impl Item<Color> for Color {
    ghost numbers = { λ color. numbers color ++ 1 ∷ [] };

    #[inline(always)]
    fn kept(self) -> Color {
        Color {
            red: self.red,
            green: self.green,
            blue: self.blue,
        }
    }

    #[inline(always)]
    fn channel(self, k: usize) -> u8 {
        channel(self, k)
    }

    fn best_place(items: &[Color]) -> Option<Place> {
        best_place(items)
    }

    fn sums_of(items: &[Color]) -> Sums {
        sums_of(items)
    }
}

/// A color, and one that stands for its count.
impl Item<Color> for [Color; 2] {
    ghost numbers = { λ pair. item_of (map numbers pair) };

    #[inline(always)]
    fn kept(self) -> [Color; 2] {
        self
    }

    #[inline(always)]
    fn channel(self, k: usize) -> u8 {
        channel(self[0], k)
    }

    fn best_place(items: &[[Color; 2]]) -> Option<Place> {
        best_item_place(items)
    }

    fn sums_of(items: &[[Color; 2]]) -> Sums {
        sums_of_items(items)
    }
}

/// Writes the table of the colors of some items into the first of the entries, and returns how
/// many they are. The items come into another order.
///
/// Condition: there is an item, and there are 1 to 256 entries.
// Out of line, so that its stack and that of the rounds do not add up.
#[inline(never)]
pub(crate) fn cut_table<I: Item<Color>>(items: &mut [I], entries: &mut [Color]) -> usize
    requires some { 0 < length items.old }
    requires fit { All (IsItem 3) (map I.numbers items.old) }
    requires few { sum_by (times_of 3) (map I.numbers items.old) < 2 ^ 64 }
    requires room { 0 < length entries.old }
    requires few_entries { length entries.old ≤ 256 }
    ensures some { 0 < result }
    ensures within { result ≤ length entries.new }
    ensures moved { IsPermutation (map I.numbers items.old) (map I.numbers items.new) }
    ensures table { (colors : List (List ℕ))
        → IsPermutation colors (spread 3 (map I.numbers items.old))
        → IsCutTable (length entries.old) colors (map numbers (take result entries.new)) }
{
    let none = Group {
        sums: Sums::none(),
        weight: 0,
    };
    let mut groups = [none; BOXES];
    cut_items(items, &mut groups, entries)
}

/// Returns the color of an item, and its count.
#[inline(always)]
fn item_at(items: &[[Color; 2]], i: usize) -> (Color, u16)
    requires { i < length items.now }
    ensures { slice_index_or (pair_items numbers items.now) i []
        ≡ numbers result.0 ++ result.1 ∷ [] }
{
    let [clr, count] = items[i];
    (clr, count.count())
}

/// Returns the place at which a cut of a box of items gains most, the first of equals.
///
/// It is `None` where all its colors are the same.
fn best_item_place(items: &[[Color; 2]]) -> Option<Place>
    requires fit { All (IsItem 3) (pair_items numbers items.now) }
    requires few { sum_by (times_of 3) (pair_items numbers items.now) < 2 ^ 64 }
    ensures { MatchOption result (CannotBeCutBy 3 (pair_items numbers items.now))
        (λ place. HasBestBy 3 (weigh_items 3 weight) (pair_items numbers items.now)
        place.channel place.value place.gain) }
{
    if items.len() < 2 {
        return None;
    }
    if count_all(items) <= BLOCK {
        best_of_few(items)
    } else {
        best_of_many(items)
    }
}

/// Returns how many colors some items are.
fn count_all(items: &[[Color; 2]]) -> usize
    requires { sum_by (times_of 3) (pair_items numbers items.now) < 2 ^ 64 }
    ensures { result ≡ sum_by (times_of 3) (pair_items numbers items.now) }
{
    let mut all = 0;
    for i in 0..items.len() {
        let (_, count) = item_at(items, i);
        all += usize::from(count);
    }
    all
}

/// Returns the place at which a cut of a box of items gains most, the first of equals, or `None`
/// where all its colors are the same. It adds words of the colors.
///
/// Condition: there is an item, and the items are no more colors than a block.
// Out of line, so that the two ways don't add up on the stack.
#[inline(never)]
fn best_of_few(items: &[[Color; 2]]) -> Option<Place>
    requires some { 0 < length items.now }
    requires fit { All (IsItem 3) (pair_items numbers items.now) }
    requires few { sum_by (times_of 3) (pair_items numbers items.now) ≤ 65535 }
    ensures { IsBestUpTo (spread 3 (pair_items numbers items.now)) 3 0 result }
{
    let (mut reds, mut greens, mut blues) = ([0; 256], [0; 256], [0; 256]);
    add_item_words(items, &mut reds, &mut greens, &mut blues);
    let all = total_of_words(&reds, &greens);
    let least = least_of(items);
    let best = best_in(0, &reds, least.red, all, None);
    let best = best_in(1, &greens, least.green, all, best);
    best_in(2, &blues, least.blue, all, best)
}

/// Returns the place at which a cut of a box of items gains most, the first of equals, or `None`
/// where all its colors are the same. It adds sums of any number of colors. Condition: there is an
/// item.
#[inline(never)]
fn best_of_many(items: &[[Color; 2]]) -> Option<Place>
    requires some { 0 < length items.now }
    requires fit { All (IsItem 3) (pair_items numbers items.now) }
    requires few { sum_by (times_of 3) (pair_items numbers items.now) < 2 ^ 64 }
    ensures { IsBestUpTo (spread 3 (pair_items numbers items.now)) 3 0 result }
{
    let mut reds = [Sums::none(); 256];
    let (mut greens, mut blues) = (reds, reds);
    add_items(items, &mut reds, &mut greens, &mut blues);
    let all = total(0, &reds);
    let best = best_in(0, &reds, 0, all, None);
    let best = best_in(1, &greens, 0, all, best);
    best_in(2, &blues, 0, all, best)
}

/// Returns the least number of some items in each channel.
fn least_of(items: &[[Color; 2]]) -> Color
    ensures red { All (λ color. result.red ≤ slice_index color 0)
        (spread 3 (pair_items numbers items.now)) }
    ensures green { All (λ color. result.green ≤ slice_index color 1)
        (spread 3 (pair_items numbers items.now)) }
    ensures blue { All (λ color. result.blue ≤ slice_index color 2)
        (spread 3 (pair_items numbers items.now)) }
{
    let mut least = Color {
        red: 255,
        green: 255,
        blue: 255,
    };
    for i in 0..items.len() {
        let (clr, _) = item_at(items, i);
        least = Color {
            red: least.red.min(clr.red),
            green: least.green.min(clr.green),
            blue: least.blue.min(clr.blue),
        };
    }
    least
}

/// Adds the items of a block of colors to the words of no colors, in one turn.
fn add_item_words(
    items: &[[Color; 2]],
    reds: &mut [u64; 256],
    greens: &mut [u64; 256],
    blues: &mut [u64; 256],
)
    requires few { sum_by (times_of 3) (pair_items numbers items.now) ≤ 65535 }
    requires red_none { AreWords 0 [] reds.old }
    requires green_none { AreWords 1 [] greens.old }
    requires blue_none { AreWords 2 [] blues.old }
    ensures reds { AreWords 0 (spread 3 (pair_items numbers items.now)) reds.new }
    ensures greens { AreWords 1 (spread 3 (pair_items numbers items.now)) greens.new }
    ensures blues { AreWords 2 (spread 3 (pair_items numbers items.now)) blues.new }
    ensures bytes { All AreBytes (spread 3 (pair_items numbers items.now)) }
{
    for i in 0..items.len() {
        let (clr, count) = item_at(items, i);
        add_word(reds, 0, clr, count);
        add_word(greens, 1, clr, count);
        add_word(blues, 2, clr, count);
    }
}

/// Adds the word of a color that stands so often to that of its value in a channel.
#[inline(always)]
fn add_word(words: &mut [u64; 256], k: usize, clr: Color, count: u16)
    requires channel { k < 3 }
    requires words { (box : List (List ℕ)) × AreWords k box words.old × All AreBytes box
        × (length box + count ≤ 65535) }
    ensures words { (box : List (List ℕ)) → AreWords k box words.old
        → AreWords k (box ++ replicate count (numbers clr)) words.new }
    ensures bytes { AreBytes (numbers clr) }
{
    words[usize::from(channel(clr, k))] += u64::from(count) * word(clr, k);
}

/// Adds items to the sums of no colors, block by block.
fn add_items(
    items: &[[Color; 2]],
    reds: &mut [Sums; 256],
    greens: &mut [Sums; 256],
    blues: &mut [Sums; 256],
)
    requires few { sum_by (times_of 3) (pair_items numbers items.now) < 2 ^ 64 }
    requires red_none { AreByValue 0 [] reds.old }
    requires green_none { AreByValue 1 [] greens.old }
    requires blue_none { AreByValue 2 [] blues.old }
    ensures reds { AreByValue 0 (spread 3 (pair_items numbers items.now)) reds.new }
    ensures greens { AreByValue 1 (spread 3 (pair_items numbers items.now)) greens.new }
    ensures blues { AreByValue 2 (spread 3 (pair_items numbers items.now)) blues.new }
    ensures bytes { All AreBytes (spread 3 (pair_items numbers items.now)) }
{
    let mut start = 0;
    while start < items.len() {
        let rest = &items[start..];
        let block = &rest[..block_len(rest)];
        let (mut red_words, mut green_words, mut blue_words) = ([0; 256], [0; 256], [0; 256]);
        add_item_words(block, &mut red_words, &mut green_words, &mut blue_words);
        add_block(0, &red_words, reds);
        add_block(1, &green_words, greens);
        add_block(2, &blue_words, blues);
        start += block.len();
    }
}

/// Returns how many items the first block has: as many as are no more colors than a block.
///
/// Condition: there is an item.
fn block_len(items: &[[Color; 2]]) -> usize
    requires { 0 < length items.now }
    ensures some { 0 < result }
    ensures within { result ≤ length items.now }
    ensures few { sum_by (times_of 3) (take result (pair_items numbers items.now)) ≤ 65535 }
{
    let mut held = 0;
    for i in 0..items.len() {
        let (_, count) = item_at(items, i);
        held += usize::from(count);
        if BLOCK < held {
            return i;
        }
    }
    items.len()
}

/// Returns the sums of the colors of some items.
fn sums_of_items(items: &[[Color; 2]]) -> Sums
    requires { sum_by (times_of 3) (pair_items numbers items.now) < 2 ^ 64 }
    ensures sums { AreSums (λ color. true) (spread 3 (pair_items numbers items.now)) result }
    ensures bytes { All AreBytes (spread 3 (pair_items numbers items.now)) }
{
    let mut sums = Sums::none();
    for i in 0..items.len() {
        let (clr, count) = item_at(items, i);
        sums = sums.and(Sums::of_times(clr, count));
    }
    sums
}
