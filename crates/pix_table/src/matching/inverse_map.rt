//! An inverse color map (S. Thomas, Efficient inverse color map computation, Graphics Gems II,
//! 1991): cells of colors, each with a short list of the entries that may be nearest to one of
//! them.
//!
//! The colors are cut into small cells of eight reds, eight greens and eight blues, and into larger
//! ones of sixteen, thirty-two and sixty-four each. The short list of a small cell is made when a
//! color of it is asked for. It is sifted from the list of the next larger cell around it, which is
//! made first, just so. The lists of the largest cells are made from all entries. A list is stored
//! after those that are there. Colors whose lists are long, or not made, are searched among all
//! entries, on lanes. Which lists are made, and how much room there is for them, decides only how
//! long a search takes. No answer depends on it.
ghost use Rattle.std.specs.Prelude.{◌≡◌, ◌<◌, ◌≤◌, ◌+◌, ℕ, List, length, map, slice_index, IfSome};
ghost use Rattle.pix_table.specs.matching.Nearest.{IsNearest, numbers};
ghost use Rattle.pix_table.specs.matching.EntryLanes.{AreLanes};
ghost use Rattle.pix_table.specs.matching.InverseMap.{IsLow, AreEnough, AreShortListed, AreWords};
ghost use Rattle.pix_table.specs.matching.InverseMap.{IsInverseMap, HasLists, IsListFor};

use crate::color::Color;
use crate::matching::candidates::ENTRIES;
use crate::matching::cell_place::{
    is_nearer, low_of, middle, place_of, reach_of, sixteen_around, sixty_four_around,
    thirty_two_around,
};
use crate::matching::entry_lanes::EntryLanes;
use crate::matching::word::{color_of, nearest_in_list};

/// The number of all cells.
pub(crate) const CELLS: usize = 37440;

/// The room for lists, one byte for an index.
const ROOM: usize = 65536;

/// The length of the memory for lists. Entries are looked at in fours, and so some after a list.
pub(crate) const LISTS: usize = 65539;

/// The number of entries of a list that are looked at at once.
const AT_ONCE: u16 = 4;

/// The greatest length of a list that is looked at entry by entry. Longer ones would take more time
/// than all entries on lanes.
const LONG: u16 = 24;

/// The greatest length of a list that is sifted for a small cell.
const SIFTED: u16 = 128;

/// How many entries may be sifted at first.
pub(crate) const CREDIT: u32 = 10000;

/// How many more may be sifted for each color that is asked for while its cell has no list.
pub(crate) const RATE: u32 = 16;

/// A cell without a list.
pub(crate) const NONE: ShortList = ShortList { start: 0, count: 0 };

/// Where the short list of a cell is. It is empty where there is none.
#[derive(Clone, Copy)]
pub struct ShortList {
    /// Where it begins.
    pub start: u16,
    /// How many entries it has.
    pub count: u16,
}

/// The cells, and the short lists of their entries.
#[derive(Drop)]
pub struct InverseMap {
    /// Where the list of each cell is.
    pub known: [ShortList; CELLS],
    /// The lists, one after the other. The first is that of all entries.
    pub lists: [u8; LISTS],
    /// How much of the room is used.
    pub used: usize,
    /// How long the first list is; 0 before it is written.
    pub first: u16,
    /// How many entries may be sifted now.
    pub credit: u32,
    /// How many more may be sifted for each color that is asked for while its cell has no list.
    pub rate: u32,
}

/// Returns the nearest entry to a color for which a list is enough. It searches the list, or all
/// entries where the list is long.
#[inline(always)]
fn nearest_from(lanes: &EntryLanes, words: &[u32], lists: &[u8], from: ShortList, clr: Color) -> u8
    requires words { length words.now ≡ 256 }
    requires some { 0 < from.count }
    requires room { from.start + from.count + 3 ≤ length lists.now }
    ensures { (entries : List (List ℕ)) → AreLanes entries lanes.now → AreWords entries words.now
        → AreEnough entries (numbers clr) (λ p. slice_index lists.now (from.start + p)) from.count
        → IsNearest entries (numbers clr) result }
{
    if from.count > LONG {
        lanes.nearest(clr)
    } else {
        nearest_in_list(words, lists, from, clr)
    }
}

/// Lists, from `start` on, those entries of a list that may be nearest to a color of a cell, in
/// order. Returns their number.
///
/// An entry is left out where the entry nearest to the middle of the cell is nearer to each color
/// of the cell.
fn sift(
    entries: &[Color],
    words: &[u32],
    lanes: &EntryLanes,
    from: ShortList,
    low: Color,
    reach: u8,
    lists: &mut [u8],
    start: usize,
) -> usize
    requires few { length entries.now ≤ 256 }
    requires low { IsLow reach (numbers low) }
    requires words { AreWords (map numbers entries.now) words.now }
    requires lanes { AreLanes (map numbers entries.now) lanes.now }
    requires some { 0 < from.count }
    requires from { from.start + from.count ≤ start }
    requires room { start + from.count + 3 ≤ length lists.old }
    requires short_list { AreShortListed (map numbers entries.now) reach (numbers low)
        (λ p. slice_index lists.old (from.start + p)) from.count }
    ensures short_list { AreShortListed (map numbers entries.now) reach (numbers low)
        (λ p. slice_index lists.new (start + p)) result }
    ensures before { (k : ℕ) → k < start
        → slice_index lists.new k ≡ slice_index lists.old k }
    ensures few { result ≤ from.count }
    ensures some { 0 < result }
{
    let at = usize::from(nearest_from(lanes, words, lists, from, middle(low, reach)));
    let near = entries[at];
    let mut count = 0;
    for p in 0..usize::from(from.count) {
        let index = lists[usize::from(from.start) + p];
        lists[start + count] = index;
        if !is_nearer(near, color_of(words[usize::from(index)]), low, reach) {
            count += 1;
        }
    }
    count
}

/// Makes room for four more lists, and writes the first list if it is not there. Where there is no
/// room, all other lists are given up.
fn make_room(cells: &mut InverseMap, entries: &[Color], lanes: &EntryLanes)
    requires few { length entries.now ≤ 256 }
    requires lanes { AreLanes (map numbers entries.now) lanes.now }
    requires cells { IsInverseMap (map numbers entries.now) cells.old }
    ensures cells { IsInverseMap (map numbers entries.now) cells.new }
    ensures first { 0 < cells.new.first }
    ensures free { cells.new.used + 1024 ≤ 65536 }
{
    if cells.first == 0 {
        begin(cells, entries, lanes);
    } else if ROOM - cells.used < 4 * ENTRIES {
        give_up(cells, entries);
    }
}

/// Writes the first list. It has all entries, and of equal ones at least the first.
fn begin(cells: &mut InverseMap, entries: &[Color], lanes: &EntryLanes)
    requires few { length entries.now ≤ 256 }
    requires lanes { AreLanes (map numbers entries.now) lanes.now }
    requires cells { IsInverseMap (map numbers entries.now) cells.old }
    requires unused { cells.old.first ≡ 0 }
    ensures cells { IsInverseMap (map numbers entries.now) cells.new }
    ensures first { 0 < cells.new.first }
    ensures used { cells.new.used ≡ 256 }
{
    for p in 0..lanes.len {
        cells.lists[p] = lanes.indices[p];
    }
    cells.used = ENTRIES;
    cells.first = lanes.len as u16;
}

/// Gives up all lists except the first, where there are any. From then on fewer are made, since the
/// earlier ones were of little use.
#[inline(never)]
fn give_up(cells: &mut InverseMap, entries: &[Color])
    requires cells { IsInverseMap (map numbers entries.now) cells.old }
    requires begun { 0 < cells.old.first }
    ensures cells { IsInverseMap (map numbers entries.now) cells.new }
    ensures first { 0 < cells.new.first }
    ensures used { cells.new.used ≡ 256 }
{
    for k in 0..CELLS {
        cells.known[k] = NONE;
    }
    cells.used = ENTRIES;
    cells.rate = cells.rate / 2 + 1;
}

/// Takes the price of sifting this many entries off the credit. Returns whether there is enough.
fn pays(cells: &mut InverseMap, count: u16) -> bool
    ensures { HasLists cells.old cells.new }
{
    let price = u32::from(count);
    if cells.credit < price {
        return false;
    }
    cells.credit -= price;
    true
}

/// Returns where the list of a cell is. A cell without a list gets one, sifted from another list
/// that has all entries it needs. Where that list is no longer than what is looked at at once, or
/// sifting drops nothing, the cell shares it.
fn short_list(
    cells: &mut InverseMap,
    entries: &[Color],
    words: &[u32],
    lanes: &EntryLanes,
    from: ShortList,
    place: usize,
) -> ShortList
    requires few { length entries.now ≤ 256 }
    requires words { AreWords (map numbers entries.now) words.now }
    requires lanes { AreLanes (map numbers entries.now) lanes.now }
    requires cells { IsInverseMap (map numbers entries.now) cells.old }
    requires begun { 0 < cells.old.first }
    requires place { place < 37440 }
    requires free { cells.old.used + 256 ≤ 65536 }
    requires from { IsListFor (map numbers entries.now) cells.old place from }
    ensures cells { IsInverseMap (map numbers entries.now) cells.new }
    ensures few { cells.new.used ≤ cells.old.used + 256 }
    ensures first { cells.new.first ≡ cells.old.first }
    ensures short_list { IsListFor (map numbers entries.now) cells.new place result }
{
    let old = cells.known[place];
    if old.count > 0 {
        return old;
    }
    if from.count <= AT_ONCE {
        cells.known[place] = from;
        return from;
    }
    let start = cells.used;
    let (low, reach) = (low_of(place), reach_of(place));
    let count = sift(
        entries,
        words,
        lanes,
        from,
        low,
        reach,
        &mut cells.lists,
        start,
    );
    if count == usize::from(from.count) {
        cells.known[place] = from;
        return from;
    }
    let known = ShortList {
        start: start as u16,
        count: count as u16,
    };
    cells.known[place] = known;
    cells.used = start + count;
    known
}

/// Returns where the list of a cell is. A cell without a list gets one if there is credit for it,
/// sifted from another list that has all entries it needs. Else the answer is `None`.
fn short_list_for(
    cells: &mut InverseMap,
    entries: &[Color],
    words: &[u32],
    lanes: &EntryLanes,
    from: ShortList,
    place: usize,
) -> Option<ShortList>
    requires few { length entries.now ≤ 256 }
    requires words { AreWords (map numbers entries.now) words.now }
    requires lanes { AreLanes (map numbers entries.now) lanes.now }
    requires cells { IsInverseMap (map numbers entries.now) cells.old }
    requires begun { 0 < cells.old.first }
    requires place { place < 37440 }
    requires free { cells.old.used + 256 ≤ 65536 }
    requires from { IsListFor (map numbers entries.now) cells.old place from }
    ensures cells { IsInverseMap (map numbers entries.now) cells.new }
    ensures few { cells.new.used ≤ cells.old.used + 256 }
    ensures first { cells.new.first ≡ cells.old.first }
    ensures short_list { IfSome result (IsListFor (map numbers entries.now) cells.new place) }
{
    let old = cells.known[place];
    if old.count > 0 {
        return Some(old);
    }
    if !pays(cells, from.count) {
        return None;
    }
    Some(short_list(cells, entries, words, lanes, from, place))
}

/// Returns where the list of a cell of sixteen is. A cell without a list gets one if there is
/// credit, after the cells around it got theirs.
fn sixteen_short_list(
    cells: &mut InverseMap,
    entries: &[Color],
    words: &[u32],
    lanes: &EntryLanes,
    place: usize,
) -> Option<ShortList>
    requires few { length entries.now ≤ 256 }
    requires words { AreWords (map numbers entries.now) words.now }
    requires lanes { AreLanes (map numbers entries.now) lanes.now }
    requires cells { IsInverseMap (map numbers entries.now) cells.old }
    requires sixteen { 32768 ≤ place }
    requires place { place < 36864 }
    requires begun { 0 < cells.old.first }
    requires free { cells.old.used + 768 ≤ 65536 }
    ensures cells { IsInverseMap (map numbers entries.now) cells.new }
    ensures few { cells.new.used ≤ cells.old.used + 768 }
    ensures first { 0 < cells.new.first }
    ensures short_list { IfSome result (IsListFor (map numbers entries.now) cells.new place) }
{
    let old = cells.known[place];
    if old.count > 0 {
        return Some(old);
    }
    let all = ShortList {
        start: 0,
        count: cells.first,
    };
    let thirty_two = thirty_two_around(place);
    let sixty_four = sixty_four_around(thirty_two);
    let first = short_list_for(cells, entries, words, lanes, all, sixty_four)?;
    let second = short_list_for(cells, entries, words, lanes, first, thirty_two)?;
    short_list_for(cells, entries, words, lanes, second, place)
}

/// Returns where the list of a small cell is. The cell gets a list if there is credit, after the
/// cells around it got theirs. Where the list of the cell around it is too long to be sifted, it
/// shares that list.
fn small_short_list(
    cells: &mut InverseMap,
    entries: &[Color],
    words: &[u32],
    lanes: &EntryLanes,
    place: usize,
) -> Option<ShortList>
    requires few { length entries.now ≤ 256 }
    requires words { AreWords (map numbers entries.now) words.now }
    requires lanes { AreLanes (map numbers entries.now) lanes.now }
    requires cells { IsInverseMap (map numbers entries.now) cells.old }
    requires place { place < 32768 }
    ensures cells { IsInverseMap (map numbers entries.now) cells.new }
    ensures short_list { IfSome result (IsListFor (map numbers entries.now) cells.new place) }
{
    make_room(cells, entries, lanes);
    let sixteen = sixteen_around(place);
    let from = sixteen_short_list(cells, entries, words, lanes, sixteen)?;
    if from.count > SIFTED {
        cells.known[place] = from;
        return Some(from);
    }
    short_list_for(cells, entries, words, lanes, from, place)
}

/// Returns the index of the entry that is nearest to a color whose cell has no list, or a long one.
// Out of line, so that only the search of a list is inlined where pixels are matched.
#[inline(never)]
fn nearest_without_list(
    cells: &mut InverseMap,
    entries: &[Color],
    words: &[u32],
    lanes: &EntryLanes,
    clr: Color,
) -> u8
    requires few { length entries.now ≤ 256 }
    requires words { AreWords (map numbers entries.now) words.now }
    requires lanes { AreLanes (map numbers entries.now) lanes.now }
    requires cells { IsInverseMap (map numbers entries.now) cells.old }
    ensures nearest { IsNearest (map numbers entries.now) (numbers clr) result }
    ensures cells { IsInverseMap (map numbers entries.now) cells.new }
{
    let place = place_of(clr);
    if cells.known[place].count > 0 {
        return lanes.nearest(clr);
    }
    cells.credit = cells.credit.saturating_add(cells.rate).min(CREDIT);
    match small_short_list(cells, entries, words, lanes, place) {
        Some(known) => nearest_from(lanes, words, &cells.lists, known, clr),
        None => lanes.nearest(clr),
    }
}

/// Returns the index of the nearest of at least 1 and at most 256 entries, of which the cells have
/// the lists.
#[inline(always)]
pub fn nearest_of(
    cells: &mut InverseMap,
    entries: &[Color],
    words: &[u32],
    lanes: &EntryLanes,
    clr: Color,
) -> u8
    requires few { length entries.now ≤ 256 }
    requires words { AreWords (map numbers entries.now) words.now }
    requires lanes { AreLanes (map numbers entries.now) lanes.now }
    requires cells { IsInverseMap (map numbers entries.now) cells.old }
    ensures nearest { IsNearest (map numbers entries.now) (numbers clr) result }
    ensures cells { IsInverseMap (map numbers entries.now) cells.new }
{
    let known = cells.known[place_of(clr)];
    // One comparison tells that there is a list, and that it is not long.
    if known.count.wrapping_sub(1) < LONG {
        nearest_in_list(words, &cells.lists, known, clr)
    } else {
        nearest_without_list(cells, entries, words, lanes, clr)
    }
}
