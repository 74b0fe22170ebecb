//! Entries that become opaque, since most of their colors are.
ghost use Rattle.std.specs.Prelude.{◌≡◌, ◌<◌, ◌≤◌, ◌+◌, ◌*◌, ◌^◌, ℕ, All, List, false, length, map};
ghost use Rattle.pix_table.specs.quantization.Items.{AreItemsOf, item_sum};
ghost use Rattle.pix_table.specs.quantization.Refine.{IsRoundBy};
ghost use Rattle.pix_table.specs.SeenPixels.{AreSeen, seen_distance, seen_numbers};
ghost use Rattle.pix_table.specs.quantization.SeenGroups.{AreSeenGrouped};
ghost use Rattle.pix_table.specs.quantization.SeenShares.{AreShares, opacity};
ghost use Rattle.pix_table.specs.quantization.SeenTables.{opaque_settled};

use crate::matching::candidates::ENTRIES;
use crate::quantization::items::{Counted, Items};
use crate::rgba::color::{SeenColor, over_alpha};
use crate::rgba::lanes::{CELLS, SeenLanes};

/// The least alpha of an entry that may become opaque. The eye can't tell it from an opaque one.
const NEARLY: u8 = 250;

/// How many colors an entry has, and how many of them are opaque.
#[derive(Clone, Copy)]
pub(crate) struct Share {
    all: u64,
    opaque: u64,
}

/// Makes each entry opaque whose alpha is at least 250, and more than half of whose colors are
/// opaque. The colors of an entry are those to which it is the nearest, the first of equals. Items
/// take the place of the colors.
///
/// Condition: there are 1 to 256 entries.
// Out of line, so that its stack and that of the rounds do not add up.
#[inline(never)]
pub(crate) fn make_opaque(colors: &[SeenColor], items: Items, entries: &mut [SeenColor])
    requires some { 0 < length entries.old }
    requires few { length entries.old ≤ 256 }
    requires room { 2 * items.pairs + items.singles ≤ length colors.now }
    requires count { item_sum (λ color. 1) (map seen_numbers colors.now) items.pairs
        (items.pairs + items.singles) < 2 ^ 64 }
    requires colors { (all : List (List ℕ))
        × AreItemsOf all (map seen_numbers colors.now) items.pairs items.singles
        × All AreSeen all }
    requires entries { All AreSeen (map seen_numbers entries.old) }
    ensures round { (all : List (List ℕ))
        → AreItemsOf all (map seen_numbers colors.now) items.pairs items.singles
        → IsRoundBy seen_distance opaque_settled all (map seen_numbers entries.old)
        (map seen_numbers entries.new) }
    ensures seen { All AreSeen (map seen_numbers entries.new) }
{
    if has_nearly_opaque(entries) {
        let mut shares = [Share { all: 0, opaque: 0 }; ENTRIES];
        let count = entries.len();
        opaque_round(colors, items, &mut shares[..count], entries);
    }
}

/// Makes entries opaque by the counts of their colors. Each entry has a place in `shares`, which
/// may hold anything before.
fn opaque_round(colors: &[SeenColor], items: Items, shares: &mut [Share], entries: &mut [SeenColor])
    requires some { 0 < length entries.old }
    requires few { length entries.old ≤ 256 }
    requires many { length shares.old ≡ length entries.old }
    requires room { 2 * items.pairs + items.singles ≤ length colors.now }
    requires count { item_sum (λ color. 1) (map seen_numbers colors.now) items.pairs
        (items.pairs + items.singles) < 2 ^ 64 }
    requires colors { (all : List (List ℕ))
        × AreItemsOf all (map seen_numbers colors.now) items.pairs items.singles
        × All AreSeen all }
    requires entries { All AreSeen (map seen_numbers entries.old) }
    ensures round { (all : List (List ℕ))
        → AreItemsOf all (map seen_numbers colors.now) items.pairs items.singles
        → IsRoundBy seen_distance opaque_settled all (map seen_numbers entries.old)
        (map seen_numbers entries.new) }
    ensures seen { All AreSeen (map seen_numbers entries.new) }
{
    count_shares(colors, items, entries, shares);
    for i in 0..entries.len() {
        entries[i] = opaque_settled(shares[i], entries[i]);
    }
}

/// Returns whether there is an entry that may become opaque and isn't. Where there is none, no
/// entry changes, whatever its colors are.
pub(crate) fn has_nearly_opaque(entries: &[SeenColor]) -> bool
    requires { All AreSeen (map seen_numbers entries.now) }
    ensures { result ≡ false → (group : List (List ℕ))
        → All (λ entry. opaque_settled entry group ≡ entry) (map seen_numbers entries.now) }
{
    for i in 0..entries.len() {
        if is_nearly_opaque(entries[i]) {
            return true;
        }
    }
    false
}

/// Returns whether an entry may become opaque and isn't.
fn is_nearly_opaque(entry: SeenColor) -> bool
    requires { AreSeen (seen_numbers entry) }
    ensures { result ≡ false → (group : List (List ℕ))
        → opaque_settled (seen_numbers entry) group ≡ seen_numbers entry }
{
    NEARLY <= entry.alpha && entry.alpha < 255
}

/// Counts the colors of each entry.
// Out of line, so that the stack holds the lanes only while they are searched.
#[inline(never)]
fn count_shares(colors: &[SeenColor], items: Items, entries: &[SeenColor], shares: &mut [Share])
    requires some { 0 < length entries.now }
    requires few { length entries.now ≤ 256 }
    requires many { length shares.old ≡ length entries.now }
    requires room { 2 * items.pairs + items.singles ≤ length colors.now }
    requires count { item_sum (λ color. 1) (map seen_numbers colors.now) items.pairs
        (items.pairs + items.singles) < 2 ^ 64 }
    requires colors { (all : List (List ℕ))
        × AreItemsOf all (map seen_numbers colors.now) items.pairs items.singles
        × All AreSeen all }
    requires entries { All AreSeen (map seen_numbers entries.now) }
    ensures { (all : List (List ℕ))
        → AreItemsOf all (map seen_numbers colors.now) items.pairs items.singles
        → AreSeenGrouped AreShares (map seen_numbers entries.now) all shares.new }
{
    let lanes = SeenLanes::of(entries);
    let ends = lanes.ends();
    shares.fill(Share { all: 0, opaque: 0 });
    let mut found = [0; CELLS];
    for k in 0..items.pairs + items.singles {
        let (clr, count) = items.item(colors, k);
        if 0 < count {
            let near = lanes.nearest_by_cell(&ends, &mut found, clr);
            let entry = usize::from(near);
            shares[entry] = shares[entry].with(clr, count);
        }
    }
}

impl Share {
    /// Returns the counts with a color that stands so often.
    fn with(self, clr: SeenColor, count: u16) -> Share
        requires all { self.all + count < 2 ^ 64 }
        requires opaque { self.opaque ≤ self.all }
        ensures all { result.all ≡ self.all + count }
        ensures opaque { result.opaque ≡ self.opaque + count * opacity (seen_numbers clr) }
    {
        let opaque = if clr.alpha == 255 { count } else { 0 };
        Share {
            all: self.all + u64::from(count),
            opaque: self.opaque + u64::from(opaque),
        }
    }
}

/// Returns what an entry becomes by the counts of its colors.
fn opaque_settled(share: Share, entry: SeenColor) -> SeenColor
    requires { AreSeen (seen_numbers entry) }
    ensures settled { (group : List (List ℕ)) → AreShares group share
        → seen_numbers result ≡ opaque_settled (seen_numbers entry) group }
    ensures seen { AreSeen (seen_numbers result) }
{
    if entry.alpha < NEARLY || share.opaque <= share.all / 2 {
        return entry;
    }
    SeenColor {
        red: over_alpha(entry.red, entry.alpha),
        green: over_alpha(entry.green, entry.alpha),
        blue: over_alpha(entry.blue, entry.alpha),
        alpha: 255,
    }
}
