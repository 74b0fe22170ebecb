//! Rounds by which a table fits a list of colors better.
ghost use Rattle.std.specs.Prelude.{◌≡◌, ◌<◌, ◌≤◌, ◌+◌, ◌*◌, ◌^◌, ℕ, All, IsPermutation, List, false, length, map, slice_index_or, sum_by, take};
ghost use Rattle.pix_table.specs.matching.InverseMap.{word_color};
ghost use Rattle.pix_table.specs.matching.Nearest.{numbers};
ghost use Rattle.pix_table.specs.quantization.Refine.{AreRounds, IsRound};
ghost use Rattle.pix_table.specs.quantization.SquaredErrors.{squared_error};
ghost use Rattle.pix_table.specs.quantization.Groups.{AreItemGroups, AreOfBytes, AreOfFewBytes, IsTogether};
ghost use Rattle.pix_table.specs.quantization.Items.{AreItemsOf, IsItem, item_sum, pair_items, spread, times_of};

use crate::color::Color;
use crate::matching::candidates::ENTRIES;
use crate::matching::matcher::visit_nearest;
use crate::matching::nearest_search::{NearestSearch, SearchVisitor};
use crate::matching::word::{color_of, word_of};
use crate::quantization::box_sums::Sums;
use crate::quantization::items::{Counted, Items, count_colors};
use crate::quantization::same;
use crate::quantization::sums64::{FIT, Sums64};

impl Counted for Color {
    ghost parts = { numbers };

    ghost channels = { 3 };

    ghost key_parts = { word_color };

    #[inline(always)]
    fn key(self) -> u32 {
        word_of(self, 0)
    }

    #[inline(always)]
    fn of_key(key: u32) -> Color {
        color_of(key)
    }

    #[inline(always)]
    fn of_count(count: u16) -> Color {
        Color {
            red: (count % 256) as u8,
            green: (count / 256) as u8,
            blue: 0,
        }
    }

    #[inline(always)]
    fn count(self) -> u16 {
        u16::from(self.red) + 256 * u16::from(self.green)
    }
}

/// Moves the entries by `rounds` rounds. In each, every color goes to its nearest entry, the first
/// of equals, and every entry to the mean of its colors. An entry without colors stays. Items take
/// the place of the colors.
///
/// Condition: there are 1 to 256 entries.
// Out of line, so that its stack and that of the cut do not add up.
#[inline(never)]
pub(crate) fn refine(colors: &mut [Color], rounds: u8, entries: &mut [Color])
    requires some { 0 < length entries.old }
    requires few { length entries.old ≤ 256 }
    ensures rounds { AreRounds rounds (map numbers colors.old) (map numbers entries.old)
        (map numbers entries.new) }
    ensures no_worse { squared_error (map numbers entries.new) (map numbers colors.old)
        ≤ squared_error (map numbers entries.old) (map numbers colors.old) }
{
    if rounds == 0 {
        return;
    }
    let items = count_colors(colors);
    refine_by(colors, items, rounds, entries);
}

/// Moves the entries by `rounds` rounds, given pairs of a color and its count. In each round every
/// color goes to its nearest entry, the first of equals, and every entry to the mean of its colors.
/// An entry without colors stays.
///
/// Condition: there are 1 to 256 entries.
// Out of line, so that its stack and that of the cut do not add up.
#[inline(never)]
pub(crate) fn refine_items(items: &[[Color; 2]], rounds: u8, entries: &mut [Color])
    requires some { 0 < length entries.old }
    requires few { length entries.old ≤ 256 }
    requires items { All (IsItem 3) (pair_items numbers items.now) }
    requires count { sum_by (times_of 3) (pair_items numbers items.now) < 2 ^ 64 }
    ensures rounds { (all : List (List ℕ))
        → IsPermutation all (spread 3 (pair_items numbers items.now))
        → AreRounds rounds all (map numbers entries.old) (map numbers entries.new) }
    ensures no_worse { (all : List (List ℕ))
        → IsPermutation all (spread 3 (pair_items numbers items.now))
        → squared_error (map numbers entries.new) all
        ≤ squared_error (map numbers entries.old) all }
{
    let counted = Items {
        pairs: items.len(),
        singles: 0,
    };
    refine_by(items.as_flattened(), counted, rounds, entries);
}

/// Moves the entries by `rounds` rounds of the items of the colors, up to one that moves none.
///
/// Condition: there are 1 to 256 entries.
fn refine_by(colors: &[Color], items: Items, rounds: u8, entries: &mut [Color])
    requires some { 0 < length entries.old }
    requires few { length entries.old ≤ 256 }
    requires room { 2 * items.pairs + items.singles ≤ length colors.now }
    requires count { item_sum (λ color. 1) (map numbers colors.now) items.pairs
        (items.pairs + items.singles) < 2 ^ 64 }
    ensures rounds { (all : List (List ℕ))
        → AreItemsOf all (map numbers colors.now) items.pairs items.singles
        → AreRounds rounds all (map numbers entries.old) (map numbers entries.new) }
{
    for done in 0..rounds {
        let is_moved = round(colors, items, entries);
        if !is_moved {
            return;
        }
    }
}

/// Moves the entries by one round, and returns whether one has moved. Where none has, none moves in
/// the next round.
fn round(colors: &[Color], items: Items, entries: &mut [Color]) -> bool
    requires some { 0 < length entries.old }
    requires few { length entries.old ≤ 256 }
    requires room { 2 * items.pairs + items.singles ≤ length colors.now }
    requires count { item_sum (λ color. 1) (map numbers colors.now) items.pairs
        (items.pairs + items.singles) < 2 ^ 64 }
    ensures round { (all : List (List ℕ))
        → AreItemsOf all (map numbers colors.now) items.pairs items.singles
        → IsRound all (map numbers entries.old) (map numbers entries.new) }
    ensures same { result ≡ false → map numbers entries.new ≡ map numbers entries.old }
{
    let mut sums = [Sums::none(); ENTRIES];
    set_sums_by_entry(colors, items, entries, &mut sums);
    let mut is_moved = false;
    for i in 0..entries.len() {
        if 0 < sums[i].count {
            let next = sums[i].mean();
            is_moved |= !same(next, entries[i]);
            entries[i] = next;
        }
    }
    is_moved
}

/// Sets the first sums to those of the colors of each entry.
fn set_sums_by_entry(colors: &[Color], items: Items, entries: &[Color], sums: &mut [Sums; ENTRIES])
    requires some { 0 < length entries.now }
    requires few { length entries.now ≤ 256 }
    requires room { 2 * items.pairs + items.singles ≤ length colors.now }
    requires count { item_sum (λ color. 1) (map numbers colors.now) items.pairs
        (items.pairs + items.singles) < 2 ^ 64 }
    ensures { AreItemGroups (map numbers entries.now) (map numbers colors.now) items.pairs
        (items.pairs + items.singles) (take (length entries.now) sums.new) }
{
    let grouping = Grouping { colors, items };
    visit_nearest(
        entries,
        &grouping,
        items.pairs + items.singles,
        &mut sums[..entries.len()],
        &mut [],
    );
}

/// Items, the colors of each of which are added to the sums of their nearest entry.
#[derive(Drop)]
struct Grouping<'a> {
    colors: &'a [Color],
    items: Items,
}

impl SearchVisitor<Sums> for Grouping<'_> {
    ghost can_visit = { λ grouping entries count work. (count ≡ length entries)
        × (length entries ≤ 256)
        × (2 * grouping.items.pairs + grouping.items.singles ≤ length grouping.colors.now)
        × (item_sum (λ color. 1) (map numbers grouping.colors.now) grouping.items.pairs
        (grouping.items.pairs + grouping.items.singles) < 2 ^ 64) };

    ghost visits = { λ grouping entries old new. length old ≡ length entries
        → AreItemGroups entries (map numbers grouping.colors.now) grouping.items.pairs
        (grouping.items.pairs + grouping.items.singles) new };

    // Out of line. Where it is inlined, a matcher is put together on the stack beside its place.
    #[inline(never)]
    fn visit<N: NearestSearch>(&self, search: &mut N, items: &mut [Sums], _work: &mut [Color]) {
        items.fill(Sums::none());
        let all = self.items.pairs + self.items.singles;
        let mut start = 0;
        while start < all {
            let end = start + FIT.min(all - start);
            add_items(search, self.colors, self.items, start, end, items);
            start = end;
        }
    }
}

/// Adds the items of some places, which are no more than fit, to the sums of their nearest entries.
fn add_items<N: NearestSearch>(
    search: &mut N,
    colors: &[Color],
    items: Items,
    start: usize,
    end: usize,
    sums: &mut [Sums],
)
    requires order { start ≤ end }
    requires fit { end ≤ start + 1099511627776 }
    requires inside { end ≤ items.pairs + items.singles }
    requires room { 2 * items.pairs + items.singles ≤ length colors.now }
    requires count { item_sum (λ color. 1) (map numbers colors.now) items.pairs
        (items.pairs + items.singles) < 2 ^ 64 }
    requires grouped { (entries : List (List ℕ)) × N.finds search.old entries
        × (length sums.old ≡ length entries) × (length entries ≤ 256)
        × AreItemGroups entries (map numbers colors.now) items.pairs start sums.old }
    ensures long { length sums.new ≡ length sums.old }
    ensures grouped { (entries : List (List ℕ)) → N.finds search.old entries
        → length sums.old ≡ length entries
        → AreItemGroups entries (map numbers colors.now) items.pairs start sums.old
        → AreItemGroups entries (map numbers colors.now) items.pairs end sums.new }
    ensures same { (entries : List (List ℕ)) → N.finds search.old entries
        → N.finds search.new entries }
{
    let mut few = [Sums64::none(); ENTRIES];
    for k in start..end {
        let (clr, count) = items.item(colors, k);
        let entry = usize::from(search.nearest_entry(clr));
        few[entry] = few[entry].with(clr, count);
    }
    add_few(&few, sums);
}

/// Adds to each of some sums one of 64 bits.
fn add_few(few: &[Sums64; ENTRIES], sums: &mut [Sums])
    requires many { length sums.old ≤ 256 }
    requires count { (k : ℕ) (d : Sums) (e : Sums64) → k < length sums.old
        → (slice_index_or sums.old k d).count + (slice_index_or few.now k e).count < 2 ^ 64 }
    requires bytes { (k : ℕ) (d : Sums) → k < length sums.old
        → AreOfBytes (slice_index_or sums.old k d) }
    requires few_bytes { (k : ℕ) (e : Sums64) → k < length sums.old
        → AreOfFewBytes (slice_index_or few.now k e) }
    ensures long { length sums.new ≡ length sums.old }
    ensures together { (k : ℕ) (d : Sums) (e : Sums64) → k < length sums.old
        → IsTogether (slice_index_or sums.old k d) (slice_index_or few.now k e)
        (slice_index_or sums.new k d) }
{
    for k in 0..sums.len() {
        sums[k] = sums[k].and(few[k].sums());
    }
}
