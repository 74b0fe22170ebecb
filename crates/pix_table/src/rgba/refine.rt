//! Rounds by which a table of seen colors fits a list of them better.
ghost use Rattle.std.specs.Prelude.{◌≡◌, ◌<◌, ◌≤◌, ◌+◌, ◌*◌, ◌/◌, ◌%◌, ◌^◌, [], ◌∷◌, ℕ, All, IsPermutation, List, false, length, map, sum_by};
ghost use Rattle.pix_table.specs.quantization.Items.{AreItemsOf, IsItem, item_sum, pair_items, spread, times_of};
ghost use Rattle.pix_table.specs.quantization.Refine.{AreRoundsBy, IsRoundBy};
ghost use Rattle.pix_table.specs.SeenPixels.{AreSeen, seen_distance, seen_numbers};
ghost use Rattle.pix_table.specs.quantization.SeenGroups.{AreGroupSums, AreSeenGrouped, seen_key_numbers};
ghost use Rattle.pix_table.specs.quantization.SeenTables.{IsSeenRefined, seen_settled};

use crate::matching::candidates::ENTRIES;
use crate::quantization::items::{Counted, Items, count_colors};
use crate::rgba::color::{SeenColor, same};
use crate::rgba::groups::settled;
use crate::rgba::lanes::{CELLS, SeenLanes};
use crate::rgba::opaque::{has_nearly_opaque, make_opaque};
use crate::rgba::sums::SeenSums;

impl Counted for SeenColor {
    ghost parts = { seen_numbers };

    ghost channels = { 4 };

    ghost key_parts = { seen_key_numbers };

    #[inline(always)]
    fn key(self) -> u32 {
        u32::from(self.red) * 16777216
            + u32::from(self.green) * 65536
            + u32::from(self.blue) * 256
            + u32::from(self.alpha)
    }

    #[inline(always)]
    fn of_key(key: u32) -> SeenColor {
        SeenColor {
            red: (key / 16777216) as u8,
            green: (key / 65536 % 256) as u8,
            blue: (key / 256 % 256) as u8,
            alpha: (key % 256) as u8,
        }
    }

    #[inline(always)]
    fn of_count(count: u16) -> SeenColor {
        SeenColor {
            red: (count % 256) as u8,
            green: (count / 256) as u8,
            blue: 0,
            alpha: 0,
        }
    }

    #[inline(always)]
    fn count(self) -> u16 {
        u16::from(self.red) + 256 * u16::from(self.green)
    }
}

/// Moves the entries by `rounds` rounds. In each, every color goes to its nearest entry, the first
/// of equals. Then every entry goes to the mean of its colors, where that makes their squared error
/// no greater. An entry without colors stays. After all rounds each entry becomes opaque whose
/// alpha is at least 250 and more than half of whose colors are opaque. Items take the place of the
/// colors.
///
/// Condition: there are 1 to 256 entries.
// Out of line, so that the cut before it does not have its sums on the stack.
#[inline(never)]
pub(crate) fn refine_seen(colors: &mut [SeenColor], rounds: u8, entries: &mut [SeenColor])
    requires some { 0 < length entries.old }
    requires few { length entries.old ≤ 256 }
    requires colors { All AreSeen (map seen_numbers colors.old) }
    requires entries { All AreSeen (map seen_numbers entries.old) }
    ensures refined { IsSeenRefined rounds (map seen_numbers colors.old)
        (map seen_numbers entries.old) (map seen_numbers entries.new) }
    ensures seen { All AreSeen (map seen_numbers entries.new) }
{
    if rounds == 0 && !has_nearly_opaque(entries) {
        return;
    }
    let items = count_colors(colors);
    refine_to_opaque(colors, items, rounds, entries);
}

/// Moves the entries by `rounds` rounds, given pairs of a color and its count. In each round every
/// color goes to its nearest entry, the first of equals. Then every entry goes to the mean of its
/// colors, where that makes their squared error no greater. An entry without colors stays. After
/// all rounds each entry becomes opaque whose alpha is at least 250 and more than half of whose
/// colors are opaque.
///
/// Condition: there are 1 to 256 entries.
// Out of line, so that the cut before it does not have its sums on the stack.
#[inline(never)]
pub(crate) fn refine_seen_items(items: &[[SeenColor; 2]], rounds: u8, entries: &mut [SeenColor])
    requires some { 0 < length entries.old }
    requires few { length entries.old ≤ 256 }
    requires items { All (IsItem 4) (pair_items seen_numbers items.now) }
    requires colors { All AreSeen (spread 4 (pair_items seen_numbers items.now)) }
    requires count { sum_by (times_of 4) (pair_items seen_numbers items.now) < 2 ^ 64 }
    requires entries { All AreSeen (map seen_numbers entries.old) }
    ensures refined { (all : List (List ℕ))
        → IsPermutation all (spread 4 (pair_items seen_numbers items.now))
        → IsSeenRefined rounds all (map seen_numbers entries.old)
        (map seen_numbers entries.new) }
    ensures seen { All AreSeen (map seen_numbers entries.new) }
{
    let counted = Items {
        pairs: items.len(),
        singles: 0,
    };
    refine_to_opaque(items.as_flattened(), counted, rounds, entries);
}

/// Moves the entries by `rounds` rounds of the items of the colors. Then makes each entry opaque
/// whose alpha is at least 250 and more than half of whose colors are opaque.
///
/// Condition: there are 1 to 256 entries.
fn refine_to_opaque(colors: &[SeenColor], items: Items, rounds: u8, entries: &mut [SeenColor])
    requires some { 0 < length entries.old }
    requires few { length entries.old ≤ 256 }
    requires room { 2 * items.pairs + items.singles ≤ length colors.now }
    requires count { item_sum (λ color. 1) (map seen_numbers colors.now) items.pairs
        (items.pairs + items.singles) < 2 ^ 64 }
    requires colors { (all : List (List ℕ))
        × AreItemsOf all (map seen_numbers colors.now) items.pairs items.singles
        × All AreSeen all }
    requires entries { All AreSeen (map seen_numbers entries.old) }
    ensures refined { (all : List (List ℕ))
        → AreItemsOf all (map seen_numbers colors.now) items.pairs items.singles
        → All AreSeen all
        → IsSeenRefined rounds all (map seen_numbers entries.old)
        (map seen_numbers entries.new) }
    ensures seen { All AreSeen (map seen_numbers entries.new) }
{
    refine_seen_by(colors, items, rounds, entries);
    make_opaque(colors, items, entries);
}

/// Moves the entries by `rounds` rounds of the items of the colors.
fn refine_seen_by(colors: &[SeenColor], items: Items, rounds: u8, entries: &mut [SeenColor])
    requires some { 0 < length entries.old }
    requires few { length entries.old ≤ 256 }
    requires room { 2 * items.pairs + items.singles ≤ length colors.now }
    requires count { item_sum (λ color. 1) (map seen_numbers colors.now) items.pairs
        (items.pairs + items.singles) < 2 ^ 64 }
    requires colors { (all : List (List ℕ))
        × AreItemsOf all (map seen_numbers colors.now) items.pairs items.singles
        × All AreSeen all }
    requires entries { All AreSeen (map seen_numbers entries.old) }
    ensures rounds { (all : List (List ℕ))
        → AreItemsOf all (map seen_numbers colors.now) items.pairs items.singles
        → All AreSeen all
        → AreRoundsBy seen_distance seen_settled rounds all (map seen_numbers entries.old)
        (map seen_numbers entries.new) }
    ensures seen { All AreSeen (map seen_numbers entries.new) }
{
    let mut sums = [SeenSums::none(); ENTRIES];
    let count = entries.len();
    for done in 0..rounds {
        let is_moved = seen_round(colors, items, &mut sums[..count], entries);
        if !is_moved {
            return;
        }
    }
}

/// Moves the entries by one round, and returns whether one has moved. Where none has, none moves in
/// the next round. Each entry has sums, in which anything may stand.
fn seen_round(
    colors: &[SeenColor],
    items: Items,
    sums: &mut [SeenSums],
    entries: &mut [SeenColor],
) -> bool
    requires some { 0 < length entries.old }
    requires few { length entries.old ≤ 256 }
    requires many { length sums.old ≡ length entries.old }
    requires room { 2 * items.pairs + items.singles ≤ length colors.now }
    requires count { item_sum (λ color. 1) (map seen_numbers colors.now) items.pairs
        (items.pairs + items.singles) < 2 ^ 64 }
    requires colors { (all : List (List ℕ))
        × AreItemsOf all (map seen_numbers colors.now) items.pairs items.singles
        × All AreSeen all }
    requires entries { All AreSeen (map seen_numbers entries.old) }
    ensures round { (all : List (List ℕ))
        → AreItemsOf all (map seen_numbers colors.now) items.pairs items.singles
        → All AreSeen all
        → IsRoundBy seen_distance seen_settled all (map seen_numbers entries.old)
        (map seen_numbers entries.new) }
    ensures same { result ≡ false
        → map seen_numbers entries.new ≡ map seen_numbers entries.old }
    ensures seen { All AreSeen (map seen_numbers entries.new) }
{
    sum_groups(colors, items, entries, sums);
    let mut is_moved = false;
    for i in 0..entries.len() {
        let next = settled(sums[i], entries[i]);
        is_moved |= !same(next, entries[i]);
        entries[i] = next;
    }
    is_moved
}

/// Sets the sums of each entry to those of its colors.
// Out of line, so that the stack holds the lanes only while they are searched.
#[inline(never)]
fn sum_groups(colors: &[SeenColor], items: Items, entries: &[SeenColor], sums: &mut [SeenSums])
    requires some { 0 < length entries.now }
    requires few { length entries.now ≤ 256 }
    requires many { length sums.old ≡ length entries.now }
    requires room { 2 * items.pairs + items.singles ≤ length colors.now }
    requires count { item_sum (λ color. 1) (map seen_numbers colors.now) items.pairs
        (items.pairs + items.singles) < 2 ^ 64 }
    requires colors { (all : List (List ℕ))
        × AreItemsOf all (map seen_numbers colors.now) items.pairs items.singles
        × All AreSeen all }
    requires entries { All AreSeen (map seen_numbers entries.now) }
    ensures { (all : List (List ℕ))
        → AreItemsOf all (map seen_numbers colors.now) items.pairs items.singles
        → All AreSeen all
        → AreSeenGrouped AreGroupSums (map seen_numbers entries.now) all sums.new }
{
    let lanes = SeenLanes::of(entries);
    let ends = lanes.ends();
    sums.fill(SeenSums::none());
    let mut found = [0; CELLS];
    for k in 0..items.pairs + items.singles {
        let (clr, count) = items.item(colors, k);
        if 0 < count {
            let near = lanes.nearest_by_cell(&ends, &mut found, clr);
            let entry = usize::from(near);
            sums[entry] = sums[entry].and(SeenSums::of_times(clr, count));
        }
    }
}
