//! Boxes of colors are joined, each time two of them where the squared error rises least.
ghost use Rattle.std.specs.Prelude.{◌≡◌, ◌+◌, ◌-◌, ◌^◌, ◌<◌, ◌≤◌, ℕ, List, length, min, slice_index_or};
ghost use Rattle.pix_table.specs.quantization.ColorGroups.{IsGroup};
ghost use Rattle.pix_table.specs.quantization.Joins.{AreJoinedBy, IsNextPairBy, cost_by};
ghost use Rattle.pix_table.specs.quantization.Pairs.{AreGroupsOf, ArePairs, ArePairsWithout};
ghost use Rattle.pix_table.specs.quantization.Pairs.{IsBetter, IsEarlier, IsJoinOf, IsPairOf, all_colors, join_at, skip};

use crate::quantization::group::{BoxSums, Group};

/// How many boxes there are at most: as many as entries, and 64 more.
pub(crate) const BOXES: usize = 320;

/// Of the pairs of a box and a later one that whose joining raises the squared error least, the
/// first of equals: by how much, and the index of the later box.
#[derive(Clone, Copy)]
pub(crate) struct Pair {
    /// By how much the squared error rises.
    pub(crate) cost: u128,
    /// The index of the later box.
    pub(crate) with: usize,
}

/// Joins the first `count` boxes until there is room for them, and returns how many they are then.
///
/// Each time that pair becomes one box whose joining raises the squared error least. Of equals it
/// is the pair whose first box stands first, and then the one whose second box does.
// Out of line, so that its stack and that of the cut do not add up.
#[inline(never)]
pub(crate) fn join_boxes<S: BoxSums>(groups: &mut [Group<S>], count: usize, room: usize) -> usize
    requires few { count ≤ 320 }
    requires room { 0 < room }
    requires boxes { (boxes : List (List (List ℕ)))
        × AreGroupsOf (IsGroup S.are S.weigh) boxes groups.old count × (all_colors boxes < 2 ^ 64) }
    ensures many { result ≡ min room count }
    ensures joined { (boxes : List (List (List ℕ)))
        → AreGroupsOf (IsGroup S.are S.weigh) boxes groups.old count → all_colors boxes < 2 ^ 64
        → (joined : List (List (List ℕ))) × AreJoinedBy S.weigh boxes joined
        × AreGroupsOf (IsGroup S.are S.weigh) joined groups.new result }
{
    if count <= room {
        return count;
    }
    let mut pairs = [Pair { cost: 0, with: 0 }; BOXES];
    find_pairs(groups, &mut pairs, count);
    for done in 0..count - room {
        join_next(groups, &mut pairs, count - done);
    }
    room
}

/// Sets the pair of each of the first `count` boxes but the last.
fn find_pairs<S: BoxSums>(groups: &[Group<S>], pairs: &mut [Pair], count: usize)
    requires some { 0 < count }
    requires room { count ≤ length pairs.old }
    requires boxes { (boxes : List (List (List ℕ)))
        × AreGroupsOf (IsGroup S.are S.weigh) boxes groups.now count × (all_colors boxes < 2 ^ 64) }
    ensures { (boxes : List (List (List ℕ))) → AreGroupsOf (IsGroup S.are S.weigh) boxes groups.now
        count
        → ArePairs S.weigh boxes pairs.new }
{
    for k in 0..count - 1 {
        pairs[k] = find_pair(groups, k, count);
    }
}

/// Returns the pair of a box among the first `count`. Condition: it is not the last.
fn find_pair<S: BoxSums>(groups: &[Group<S>], k: usize, count: usize) -> Pair
    requires later { k + 1 < count }
    requires boxes { (boxes : List (List (List ℕ)))
        × AreGroupsOf (IsGroup S.are S.weigh) boxes groups.now count × (all_colors boxes < 2 ^ 64) }
    ensures { (boxes : List (List (List ℕ))) → AreGroupsOf (IsGroup S.are S.weigh) boxes groups.now
        count
        → IsPairOf S.weigh boxes k result }
{
    let first = &groups[k];
    let mut best = Pair {
        cost: cost_of(first, &groups[k + 1]),
        with: k + 1,
    };
    for with in k + 2..count {
        best = better(best, first, &groups[with], with);
    }
    best
}

/// Returns the better of the best pair so far and one with a later box, the first of equals.
#[inline(always)]
fn better<S: BoxSums>(best: Pair, p: &Group<S>, q: &Group<S>, with: usize) -> Pair
    requires { (a b : List (List ℕ)) × IsGroup S.are S.weigh a p.now × IsGroup S.are S.weigh b q.now
        × (length a + length b < 2 ^ 64) }
    ensures { (a b : List (List ℕ)) → IsGroup S.are S.weigh a p.now → IsGroup S.are S.weigh b q.now
        → IsBetter best (cost_by S.weigh a b) with result }
{
    if p.costs_more(*q, best.cost) {
        return best;
    }
    let cost = cost_of(p, q);
    if cost < best.cost {
        Pair { cost, with }
    } else {
        best
    }
}

/// Returns by how much the squared error rises where two boxes become one.
// Out of line, so that of most boxes, which cost too much, only a part is read.
#[inline(never)]
fn cost_of<S: BoxSums>(p: &Group<S>, q: &Group<S>) -> u128
    requires { (a b : List (List ℕ)) × IsGroup S.are S.weigh a p.now × IsGroup S.are S.weigh b q.now
        × (length a + length b < 2 ^ 64) }
    ensures { (a b : List (List ℕ)) → IsGroup S.are S.weigh a p.now → IsGroup S.are S.weigh b q.now
        → result ≡ cost_by S.weigh a b }
{
    p.cost(*q)
}

/// Joins the two of the first `count` boxes that are joined next. The pairs are set as before.
fn join_next<S: BoxSums>(groups: &mut [Group<S>], pairs: &mut [Pair], count: usize)
    requires two { 1 < count }
    requires room { count ≤ length pairs.old }
    requires boxes { (boxes : List (List (List ℕ)))
        × AreGroupsOf (IsGroup S.are S.weigh) boxes groups.old count × (all_colors boxes < 2 ^ 64)
        × ArePairs S.weigh boxes pairs.old }
    ensures { (boxes : List (List (List ℕ))) → AreGroupsOf (IsGroup S.are S.weigh) boxes groups.old
        count
        → ArePairs S.weigh boxes pairs.old → (i : ℕ) × (j : ℕ)
        × IsNextPairBy S.weigh boxes i j
        × AreGroupsOf (IsGroup S.are S.weigh) (join_at boxes i j) groups.new (count - 1)
        × ArePairs S.weigh (join_at boxes i j) pairs.new }
{
    let i = next_pair(&pairs[..count - 1]);
    let j = pairs[i].with;
    groups[i] = groups[i].join(groups[j]);
    take_away(groups, j, count);
    take_away(pairs, j, count);
    update_pairs(groups, pairs, i, j, count - 1);
}

/// Returns the index of the pair that costs least, the first of equals. Condition: there is one.
fn next_pair(pairs: &[Pair]) -> usize
    requires { 0 < length pairs.now }
    ensures within { result < length pairs.now }
    ensures least { (k : ℕ) (d : Pair) → k < length pairs.now
        → (slice_index_or pairs.now result d).cost ≤ (slice_index_or pairs.now k d).cost }
    ensures first { (k : ℕ) (d : Pair) → k < result
        → (slice_index_or pairs.now result d).cost < (slice_index_or pairs.now k d).cost }
{
    let mut best = 0;
    for k in 1..pairs.len() {
        if pairs[k].cost < pairs[best].cost {
            best = k;
        }
    }
    best
}

/// Takes one of the first `count` items away: those behind it come one place nearer.
fn take_away<T: Copy>(items: &mut [T], at: usize, count: usize)
    requires inside { at < count }
    requires within { count ≤ length items.old }
    ensures { (k : ℕ) (d : T) → k + 1 < count
        → slice_index_or items.new k d ≡ slice_index_or items.old (skip at k) d }
{
    for k in at + 1..count {
        items[k - 1] = items[k];
    }
}

/// Sets the pairs of the first `count` boxes after the box at `j` became one with that at `i`.
/// Those of the other boxes are there, as they were before.
fn update_pairs<S: BoxSums>(
    groups: &[Group<S>],
    pairs: &mut [Pair],
    i: usize,
    j: usize,
    count: usize,
)
    requires some { 0 < count }
    requires room { count ≤ length pairs.old }
    requires boxes { (old new : List (List (List ℕ))) × IsJoinOf old new i j
        × AreGroupsOf (IsGroup S.are S.weigh) new groups.now count × (all_colors new < 2 ^ 64)
        × ArePairsWithout S.weigh old j pairs.old }
    ensures { (old new : List (List (List ℕ))) → IsJoinOf old new i j
        → AreGroupsOf (IsGroup S.are S.weigh) new groups.now count → ArePairsWithout S.weigh old j
        pairs.old
        → ArePairs S.weigh new pairs.new }
{
    for k in 0..count - 1 {
        pairs[k] = updated_pair(groups, pairs[k], k, i, j, count);
    }
}

/// Returns the pair of the box at `k` after the box at `j` became one with that at `i`. Before, it
/// was `pair`.
fn updated_pair<S: BoxSums>(
    groups: &[Group<S>],
    pair: Pair,
    k: usize,
    i: usize,
    j: usize,
    count: usize,
) -> Pair
    requires later { k + 1 < count }
    requires boxes { (old new : List (List (List ℕ))) × IsJoinOf old new i j
        × AreGroupsOf (IsGroup S.are S.weigh) new groups.now count × (all_colors new < 2 ^ 64) }
    ensures { (old new : List (List (List ℕ))) → IsJoinOf old new i j
        → AreGroupsOf (IsGroup S.are S.weigh) new groups.now count → IsPairOf S.weigh old (skip j k)
        pair
        → IsPairOf S.weigh new k result }
{
    if k == i || pair.with == i || pair.with == j {
        return find_pair(groups, k, count);
    }
    let with = pair.with - usize::from(j < pair.with);
    let kept = Pair {
        cost: pair.cost,
        with,
    };
    if i < k {
        return kept;
    }
    earlier(kept, &groups[k], &groups[i], i)
}

/// Returns the better of a pair and one with the box at `i`. Of equals it is the one with the
/// earlier box.
#[inline(always)]
fn earlier<S: BoxSums>(best: Pair, p: &Group<S>, q: &Group<S>, i: usize) -> Pair
    requires { (a b : List (List ℕ)) × IsGroup S.are S.weigh a p.now × IsGroup S.are S.weigh b q.now
        × (length a + length b < 2 ^ 64) }
    ensures { (a b : List (List ℕ)) → IsGroup S.are S.weigh a p.now → IsGroup S.are S.weigh b q.now
        → IsEarlier best (cost_by S.weigh a b) i result }
{
    if p.costs_more(*q, best.cost) {
        return best;
    }
    let cost = cost_of(p, q);
    if cost < best.cost || cost == best.cost && i < best.with {
        Pair { cost, with: i }
    } else {
        best
    }
}
