//! A table of the means of boxes of colors, which are cut where the squared error falls most, and
//! then joined.
ghost use Rattle.std.specs.Prelude.{◌≡◌, ◌⊎◌, ℕ, ◌+◌, ◌^◌, ◌<◌, ◌≤◌, List, ◌∷◌, [], All, length, map, take, drop, slice_index, sum_by, IsPermutation, true, false};
ghost use Rattle.pix_table.specs.quantization.Places.{CannotBeCutBy, HasBestBy, IsCutBy};
ghost use Rattle.pix_table.specs.quantization.Cut.{AreBoxesBy, more_boxes};
ghost use Rattle.pix_table.specs.quantization.Items.{IsItemTable, spread, times_of, weigh_items};
ghost use Rattle.pix_table.specs.quantization.Pieces.{ArePieces, AreWhole, IsKnown, IsNext, boxes_of};
ghost use Rattle.pix_table.specs.quantization.Pairs.{AreGroupsOf, all_colors};
ghost use Rattle.pix_table.specs.quantization.ColorGroups.{IsGroup};

use crate::quantization::cutting::{Cutting, Item};
use crate::quantization::exchange::exchange;
use crate::quantization::group::Group;
use crate::quantization::joins::{BOXES, join_boxes};
use crate::quantization::pieces::{Next, Piece, next_cut, split};
use crate::quantization::place::Place;

/// At most so many more boxes are cut than there are entries.
const MORE: usize = 64;

/// Writes the table of the colors of some items into the first of the entries, and returns how many
/// they are. The items come into another order. There is room for what is kept of the boxes.
///
/// Condition: there is an item, and there are 1 to 256 entries.
pub(crate) fn cut_items<C: Cutting, I: Item<C>>(
    items: &mut [I],
    groups: &mut [Group<C::Sums>],
    entries: &mut [C],
) -> usize
    requires some { 0 < length items.old }
    requires fit { All C.fits (map I.numbers items.old) }
    requires few_colors { sum_by (times_of C.channels) (map I.numbers items.old) < 2 ^ 64 }
    requires room { 0 < length entries.old }
    requires few { length entries.old ≤ 256 }
    requires groups { length groups.old ≡ 320 }
    ensures some { 0 < result }
    ensures within { result ≤ length entries.new }
    ensures moved { IsPermutation (map I.numbers items.old) (map I.numbers items.new) }
    ensures table { IsItemTable C.channels C.Sums.weigh C.middle (length entries.old)
        (map I.numbers items.old) (map C.parts (take result entries.new)) }
{
    let room = entries.len();
    let count = cut_groups::<C, I>(items, groups, room);
    let joined = join_boxes(groups, count, room);
    write_means(groups, joined, entries);
    joined
}

/// Cuts the colors into more boxes than there is room for entries, sets what is kept of them, and
/// returns how many they are.
// Out of line, so that its stack and that of the joins do not add up.
#[inline(never)]
fn cut_groups<C: Cutting, I: Item<C>>(
    items: &mut [I],
    groups: &mut [Group<C::Sums>],
    room: usize,
) -> usize
    requires some { 0 < length items.old }
    requires fit { All C.fits (map I.numbers items.old) }
    requires few_colors { sum_by (times_of C.channels) (map I.numbers items.old) < 2 ^ 64 }
    requires room { 0 < room }
    requires few { room ≤ 256 }
    requires groups { length groups.old ≡ 320 }
    ensures some { 0 < result }
    ensures moved { IsPermutation (map I.numbers items.old) (map I.numbers items.new) }
    ensures boxes { (boxes : List (List (List ℕ)))
        × AreBoxesBy C.channels (weigh_items C.channels C.Sums.weigh) (map I.numbers items.old)
        boxes
        × (length boxes ≤ more_boxes room)
        × ((length boxes ≡ more_boxes room) ⊎ All (CannotBeCutBy C.channels) boxes)
        × AreGroupsOf (IsGroup C.Sums.are C.Sums.weigh) (map (spread C.channels) boxes) groups.new
        result
        × (all_colors (map (spread C.channels) boxes) < 2 ^ 64) }
{
    let mut pieces = [Piece::none(); BOXES];
    let more = (2 * room).min(room + MORE);
    let count = cut_boxes::<C, I>(items, &mut pieces[..more]);
    set_groups::<C, I>(items, &pieces[..count], groups);
    count
}

/// Cuts the colors into boxes and returns how many there are: as many as there is room for pieces,
/// or fewer where none of them can be cut.
fn cut_boxes<C: Cutting, I: Item<C>>(items: &mut [I], pieces: &mut [Piece]) -> usize
    requires some { 0 < length items.old }
    requires fit { All C.fits (map I.numbers items.old) }
    requires few_colors { sum_by (times_of C.channels) (map I.numbers items.old) < 2 ^ 64 }
    requires room { 0 < length pieces.old }
    ensures some { 0 < result }
    ensures within { result ≤ length pieces.new }
    ensures stand { ArePieces C.channels (weigh_items C.channels C.Sums.weigh) I.numbers items.new
        (take result pieces.new) }
    ensures boxes { AreBoxesBy C.channels (weigh_items C.channels C.Sums.weigh)
        (map I.numbers items.old)
        (boxes_of I.numbers items.new (take result pieces.new)) }
    ensures full { (result ≡ length pieces.new) ⊎ AreWhole (take result pieces.new) }
{
    pieces[0] = Piece::of::<C, I>(items);
    for count in 1..pieces.len() {
        let is_cut = cut_next::<C, I>(items, pieces, count);
        if !is_cut {
            return count;
        }
    }
    pieces.len()
}

/// Cuts that of the first `count` boxes whose cut gains most, the first of equals.
///
/// Returns whether there is one that can be cut.
fn cut_next<C: Cutting, I: Item<C>>(items: &mut [I], pieces: &mut [Piece], count: usize) -> bool
    requires fit { All C.fits (map I.numbers items.old) }
    requires few_colors { sum_by (times_of C.channels) (map I.numbers items.old) < 2 ^ 64 }
    requires room { count < length pieces.old }
    requires stand { ArePieces C.channels (weigh_items C.channels C.Sums.weigh) I.numbers items.old
        (take count pieces.old) }
    ensures whole { result ≡ false → (items.new ≡ items.old) × (pieces.new ≡ pieces.old)
        × AreWhole (take count pieces.new) }
    ensures stand { result ≡ true
        → ArePieces C.channels (weigh_items C.channels C.Sums.weigh) I.numbers items.new
        (take (count + 1) pieces.new) }
    ensures boxes { result ≡ true → (start : List (List ℕ))
        → AreBoxesBy C.channels (weigh_items C.channels C.Sums.weigh) start
        (boxes_of I.numbers items.old (take count pieces.old))
        → AreBoxesBy C.channels (weigh_items C.channels C.Sums.weigh) start
        (boxes_of I.numbers items.new (take (count + 1) pieces.new)) }
{
    match next_cut(&pieces[..count]) {
        None => false,
        Some(next) => {
            cut_at::<C, I>(items, pieces, count, next);
            true
        }
    }
}

/// Cuts the box that is next of the first `count`.
fn cut_at<C: Cutting, I: Item<C>>(items: &mut [I], pieces: &mut [Piece], count: usize, next: Next)
    requires fit { All C.fits (map I.numbers items.old) }
    requires few_colors { sum_by (times_of C.channels) (map I.numbers items.old) < 2 ^ 64 }
    requires room { count < length pieces.old }
    requires stand { ArePieces C.channels (weigh_items C.channels C.Sums.weigh) I.numbers items.old
        (take count pieces.old) }
    requires next { IsNext (take count pieces.old) next }
    ensures stand { ArePieces C.channels (weigh_items C.channels C.Sums.weigh) I.numbers items.new
        (take (count + 1) pieces.new) }
    ensures boxes { (start : List (List ℕ))
        → AreBoxesBy C.channels (weigh_items C.channels C.Sums.weigh) start
        (boxes_of I.numbers items.old (take count pieces.old))
        → AreBoxesBy C.channels (weigh_items C.channels C.Sums.weigh) start
        (boxes_of I.numbers items.new (take (count + 1) pieces.new)) }
{
    let end = next.start + pieces[next.at].len;
    let (low, high) = cut_piece::<C, I>(&mut items[next.start..end], next.place);
    split(pieces, count, next.at, low, high);
}

/// Cuts a box at its best place, and returns its two pieces.
fn cut_piece<C: Cutting, I: Item<C>>(items: &mut [I], place: Place) -> (Piece, Piece)
    requires fit { All C.fits (map I.numbers items.old) }
    requires few_colors { sum_by (times_of C.channels) (map I.numbers items.old) < 2 ^ 64 }
    requires best { HasBestBy C.channels (weigh_items C.channels C.Sums.weigh)
        (map I.numbers items.old) place.channel
        place.value place.gain }
    ensures all { result.0.len + result.1.len ≡ length items.new }
    ensures low { IsKnown C.channels (weigh_items C.channels C.Sums.weigh)
        (map I.numbers (take result.0.len items.new))
        result.0 }
    ensures high { IsKnown C.channels (weigh_items C.channels C.Sums.weigh)
        (map I.numbers (drop result.0.len items.new))
        result.1 }
    ensures cut { IsCutBy C.channels (map I.numbers items.old) place.channel place.value
        (map I.numbers (take result.0.len items.new))
        (map I.numbers (drop result.0.len items.new)) }
{
    let at = partition::<C, I>(items, place.channel, place.value);
    let (low, high) = items.split_at(at);
    (Piece::of::<C, I>(low), Piece::of::<C, I>(high))
}

/// Sets what is kept of the boxes of some pieces.
fn set_groups<C: Cutting, I: Item<C>>(items: &[I], pieces: &[Piece], groups: &mut [Group<C::Sums>])
    requires fit { All C.fits (map I.numbers items.now) }
    requires few_colors { sum_by (times_of C.channels) (map I.numbers items.now) < 2 ^ 64 }
    requires stand { ArePieces C.channels (weigh_items C.channels C.Sums.weigh) I.numbers items.now
        pieces.now }
    requires room { length pieces.now ≤ length groups.old }
    ensures { AreGroupsOf (IsGroup C.Sums.are C.Sums.weigh)
        (map (spread C.channels) (boxes_of I.numbers items.now pieces.now)) groups.new
        (length pieces.now) }
{
    let mut start = 0;
    for i in 0..pieces.len() {
        let end = start + pieces[i].len;
        groups[i] = Group::of(I::sums_of(&items[start..end]));
        start = end;
    }
}

/// Writes the means of the first `count` boxes into the first of the entries.
fn write_means<C: Cutting>(groups: &[Group<C::Sums>], count: usize, entries: &mut [C])
    requires boxes { (boxes : List (List (List ℕ)))
        × AreGroupsOf (IsGroup C.Sums.are C.Sums.weigh) boxes groups.now count }
    requires room { count ≤ length entries.old }
    ensures { (boxes : List (List (List ℕ)))
        → AreGroupsOf (IsGroup C.Sums.are C.Sums.weigh) boxes groups.now count
        → map C.parts (take count entries.new) ≡ map C.middle boxes }
{
    for i in 0..count {
        entries[i] = C::mean_color(groups[i].sums);
    }
}

/// Moves the items whose number in a channel is below `value` to the front, and returns how many
/// they are. Each channel has a loop of its own.
fn partition<C: Cutting, I: Item<C>>(items: &mut [I], k: usize, value: u8) -> usize
    requires { k < C.channels }
    ensures within { result ≤ length items.new }
    ensures moved { IsPermutation items.old items.new }
    ensures front { All (λ c. slice_index (I.numbers c) k < value) (take result items.new) }
    ensures back { All (λ c. value ≤ slice_index (I.numbers c) k) (drop result items.new) }
{
    match k {
        0 => partition_in::<C, I>(items, 0, value),
        1 => partition_in::<C, I>(items, 1, value),
        2 => partition_in::<C, I>(items, 2, value),
        3 => partition_in::<C, I>(items, 3, value),
        _ => partition_in::<C, I>(items, k, value),
    }
}

/// Moves the items whose number in channel `k` is below `value` to the front, and returns how many
/// they are. It is inlined, so that `k` is a constant where it is known.
#[inline(always)]
fn partition_in<C: Cutting, I: Item<C>>(items: &mut [I], k: usize, value: u8) -> usize
    requires { k < C.channels }
    ensures within { result ≤ length items.new }
    ensures moved { IsPermutation items.old items.new }
    ensures front { All (λ c. slice_index (I.numbers c) k < value) (take result items.new) }
    ensures back { All (λ c. value ≤ slice_index (I.numbers c) k) (drop result items.new) }
{
    let mut at = 0;
    for i in 0..items.len() {
        let is_low = items[i].kept().channel(k) < value;
        exchange::<C, I>(items, at, i);
        at += usize::from(is_low);
    }
    at
}
