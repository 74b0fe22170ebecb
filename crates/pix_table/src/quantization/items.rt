//! Colors that are counted: items, each a color and how often it stands.
//!
//! The items take the place of the colors. Those that count more than one come first, each a color
//! and, after it, its count; behind them stand colors that count one. The same color may be in
//! several items. Which items a color comes into decides only how many there are. No sum of what
//! is made of the colors depends on it.
ghost use Rattle.std.specs.Prelude.{◌≡◌, ℕ, ◌+◌, ◌*◌, ◌<◌, ◌≤◌, All, IsPermutation, List, MatchOption, [], length, map, slice_index_or, slice_set, sum_by, ⊤};
ghost use Rattle.std.specs.Simd.{first_chunks};
ghost use Rattle.pix_table.specs.quantization.Items.{AreItemsOf, IsItem, count_of, counted_sum, item_color, item_count, item_sum, pair_items, spread};

/// The number of places at which colors are counted.
pub(crate) const PLACES: usize = 4096;

/// The greatest count of a place.
const MOST: u16 = 65535;

/// Fewer colors take less time than their places.
const FEW: usize = 1024;

/// With more pairs than one for so many colors, the cut takes no less time than without.
const SHARE: usize = 6;

/// What a key is multiplied by for its place. It was found by trial: of some thousand numbers that
/// which parts the colors of pictures best.
pub(crate) const SPREAD: u32 = 1752068787;

/// A type of color that can be counted.
pub(crate) trait Counted: Copy {
    /// The numbers of a color.
    ghost parts: { Self → List ℕ };

    /// How many of them a color has.
    ghost channels: { ℕ };

    /// The numbers of the color of a key.
    ghost key_parts: { ℕ → List ℕ };

    /// Returns a number that tells a color from all others.
    fn key(self) -> u32
        ensures { key_parts result ≡ parts self };

    /// Returns the color of such a number.
    fn of_key(key: u32) -> Self
        ensures color { parts result ≡ key_parts key }
        ensures long { length (parts result) ≡ channels };

    /// Returns a color that stands for a count.
    fn of_count(count: u16) -> Self
        ensures { count_of (parts result) ≡ count };

    /// Returns the count that a color stands for.
    fn count(self) -> u16
        ensures { result ≡ count_of (parts self) };
}

/// How many items there are: pairs of a color and its count, and colors that count one.
#[derive(Clone, Copy)]
pub(crate) struct Items {
    /// How many pairs there are.
    pub(crate) pairs: usize,
    /// How many colors count one.
    pub(crate) singles: usize,
}

impl Items {
    /// Returns the color of an item, and its count.
    #[inline(always)]
    pub(crate) fn item<C: Counted>(self, colors: &[C], k: usize) -> (C, u16)
        requires room { 2 * self.pairs + self.singles ≤ length colors.now }
        requires inside { k < self.pairs + self.singles }
        ensures color { C.parts result.0 ≡ item_color (map C.parts colors.now) self.pairs k }
        ensures count { result.1 ≡ item_count (map C.parts colors.now) self.pairs k }
    {
        if k < self.pairs {
            (colors[2 * k], colors[2 * k + 1].count())
        } else {
            (colors[self.pairs + k], 1)
        }
    }
}

/// The color of a place, by its key, and how often it was met since it came there.
#[derive(Clone, Copy)]
pub(crate) struct ColorCount {
    key: u32,
    count: u16,
}

/// Makes items of some colors, in their place.
// Out of line, so that its stack and that of the rounds do not add up.
#[inline(never)]
pub(crate) fn count_colors<C: Counted>(colors: &mut [C]) -> Items
    ensures room { 2 * result.pairs + result.singles ≤ length colors.new }
    ensures items { AreItemsOf (map C.parts colors.old) (map C.parts colors.new) result.pairs
        result.singles }
{
    if colors.len() < FEW {
        return Items {
            pairs: 0,
            singles: colors.len(),
        };
    }
    let mut counts = [ColorCount { key: 0, count: 0 }; PLACES];
    let items = put_out_old(colors, &mut counts);
    put_out_all(colors, items, &counts)
}

/// Counts each color at its place. A color that was counted there before becomes an item.
fn put_out_old<C: Counted>(colors: &mut [C], counts: &mut [ColorCount]) -> Items
    requires places { length counts.old ≡ 4096 }
    requires none { (f : List ℕ → ℕ) → counted_sum C.key_parts f counts.old ≡ 0 }
    ensures room { 2 * result.pairs + result.singles
        + counted_sum C.key_parts (λ color. 1) counts.new ≤ length colors.new }
    ensures items { (f : List ℕ → ℕ) → sum_by f (map C.parts colors.old)
        ≡ item_sum f (map C.parts colors.new) result.pairs (result.pairs + result.singles)
        + counted_sum C.key_parts f counts.new }
{
    let mut items = Items {
        pairs: 0,
        singles: 0,
    };
    for i in 0..colors.len() {
        let out = count(counts, colors[i].key());
        items = put_item(colors, items, out);
    }
    items
}

/// Makes items of all colors that are counted.
fn put_out_all<C: Counted>(colors: &mut [C], items: Items, counts: &[ColorCount]) -> Items
    requires { 2 * items.pairs + items.singles
        + counted_sum C.key_parts (λ color. 1) counts.now ≤ length colors.old }
    ensures room { 2 * result.pairs + result.singles ≤ length colors.new }
    ensures items { (f : List ℕ → ℕ)
        → item_sum f (map C.parts colors.new) result.pairs (result.pairs + result.singles)
        ≡ item_sum f (map C.parts colors.old) items.pairs (items.pairs + items.singles)
        + counted_sum C.key_parts f counts.now }
{
    let mut all = items;
    for i in 0..counts.len() {
        all = put_item(colors, all, counts[i]);
    }
    all
}

/// Makes pairs of some colors, in their place: each of a color, and of one that stands for how
/// often it was met. A color may be in several pairs. Returns how many there are.
///
/// It is `None` where the colors repeat too little. Then any colors may stand there.
// Out of line, so that its stack and that of the cut do not add up.
#[inline(never)]
pub(crate) fn count_pairs<C: Counted>(colors: &mut [C]) -> Option<usize>
    ensures { MatchOption result ⊤ (λ pairs. (2 * pairs ≤ length colors.new)
        × All (IsItem C.channels) (pair_items C.parts (first_chunks 2 pairs colors.new))
        × IsPermutation (map C.parts colors.old)
        (spread C.channels (pair_items C.parts (first_chunks 2 pairs colors.new)))) }
{
    if colors.len() < FEW {
        return None;
    }
    let mut counts = [ColorCount { key: 0, count: 0 }; PLACES];
    match pairs_of_old(colors, &mut counts) {
        Some(pairs) => pairs_of_all(colors, pairs, &counts),
        None => None,
    }
}

/// Counts each color at its place. A color that was counted there before becomes a pair.
fn pairs_of_old<C: Counted>(colors: &mut [C], counts: &mut [ColorCount]) -> Option<usize>
    requires places { length counts.old ≡ 4096 }
    requires none { (f : List ℕ → ℕ) → counted_sum C.key_parts f counts.old ≡ 0 }
    ensures { MatchOption result ⊤ (λ pairs. (2 * pairs ≤ length colors.new)
        × All (IsItem C.channels) (pair_items C.parts (first_chunks 2 pairs colors.new))
        × ((f : List ℕ → ℕ) → sum_by f (map C.parts colors.old)
        ≡ sum_by f (spread C.channels (pair_items C.parts (first_chunks 2 pairs colors.new)))
        + counted_sum C.key_parts f counts.new)) }
{
    let mut pairs = 0;
    for i in 0..colors.len() {
        let out = count(counts, colors[i].key());
        match add_pair(colors, pairs, i + 1, out) {
            Some(more) => pairs = more,
            None => return None,
        }
    }
    Some(pairs)
}

/// Makes pairs of all colors that are counted.
fn pairs_of_all<C: Counted>(colors: &mut [C], pairs: usize, counts: &[ColorCount]) -> Option<usize>
    requires room { 2 * pairs ≤ length colors.old }
    requires items { All (IsItem C.channels)
        (pair_items C.parts (first_chunks 2 pairs colors.old)) }
    ensures { MatchOption result ⊤ (λ all. (2 * all ≤ length colors.new)
        × All (IsItem C.channels) (pair_items C.parts (first_chunks 2 all colors.new))
        × ((f : List ℕ → ℕ)
        → sum_by f (spread C.channels (pair_items C.parts (first_chunks 2 all colors.new)))
        ≡ sum_by f (spread C.channels (pair_items C.parts (first_chunks 2 pairs colors.old)))
        + counted_sum C.key_parts f counts.now)) }
{
    let mut all = pairs;
    for i in 0..counts.len() {
        match add_pair(colors, all, colors.len(), counts[i]) {
            Some(more) => all = more,
            None => return None,
        }
    }
    Some(all)
}

/// Makes a pair of a color with its count, behind others, and returns how many there are then.
/// There is none for a count of 0.
///
/// It is `None` where there are too many before the place `end`.
#[inline(always)]
fn add_pair<C: Counted>(
    colors: &mut [C],
    pairs: usize,
    end: usize,
    out: ColorCount,
) -> Option<usize>
    requires inside { end ≤ length colors.old }
    requires room { 2 * pairs ≤ end }
    ensures rest { (k : ℕ) → end ≤ k → slice_index_or (map C.parts colors.new) k []
        ≡ slice_index_or (map C.parts colors.old) k [] }
    ensures items { MatchOption result ⊤ (λ more. (2 * more ≤ end)
        × (All (IsItem C.channels) (pair_items C.parts (first_chunks 2 pairs colors.old))
        → All (IsItem C.channels) (pair_items C.parts (first_chunks 2 more colors.new)))
        × ((f : List ℕ → ℕ)
        → sum_by f (spread C.channels (pair_items C.parts (first_chunks 2 more colors.new)))
        ≡ sum_by f (spread C.channels (pair_items C.parts (first_chunks 2 pairs colors.old)))
        + out.count * f (C.key_parts out.key))) }
{
    if out.count == 0 {
        return Some(pairs);
    }
    if end / SHARE <= pairs {
        return None;
    }
    colors[2 * pairs] = C::of_key(out.key);
    colors[2 * pairs + 1] = C::of_count(out.count);
    Some(pairs + 1)
}

/// Returns the place, one of 4,096, of the color of a key.
#[inline(always)]
pub(crate) fn place_of(key: u32) -> usize
    ensures { result < 4096 }
{
    (key.wrapping_mul(SPREAD) / 1048576) as usize
}

/// Counts the color of a key at its place. Returns the color and the count that it takes the place
/// of, or a count of 0.
#[inline(always)]
fn count(counts: &mut [ColorCount], key: u32) -> ColorCount
    requires { length counts.old ≡ 4096 }
    ensures { (key_color : ℕ → List ℕ) (f : List ℕ → ℕ)
        → counted_sum key_color f counts.new + result.count * f (key_color result.key)
        ≡ counted_sum key_color f counts.old + f (key_color key) }
{
    let at = place_of(key);
    let found = counts[at];
    if found.key == key && found.count < MOST {
        counts[at].count = found.count + 1;
        return ColorCount { key, count: 0 };
    }
    counts[at] = ColorCount { key, count: 1 };
    found
}

/// Makes an item of a color with its count, behind the others or among them. There is none for a
/// count of 0.
#[inline(always)]
fn put_item<C: Counted>(colors: &mut [C], items: Items, out: ColorCount) -> Items
    requires { 2 * items.pairs + items.singles + out.count ≤ length colors.old }
    ensures room { 2 * result.pairs + result.singles
        ≤ 2 * items.pairs + items.singles + out.count }
    ensures rest { (k : ℕ) → 2 * items.pairs + items.singles + out.count ≤ k
        → slice_index_or (map C.parts colors.new) k []
        ≡ slice_index_or (map C.parts colors.old) k [] }
    ensures items { (f : List ℕ → ℕ)
        → item_sum f (map C.parts colors.new) result.pairs (result.pairs + result.singles)
        ≡ item_sum f (map C.parts colors.old) items.pairs (items.pairs + items.singles)
        + out.count * f (C.key_parts out.key) }
{
    if out.count == 0 {
        return items;
    }
    if out.count == 1 {
        return put_single(colors, items, C::of_key(out.key));
    }
    put_pair(colors, items, C::of_key(out.key), out.count)
}

/// Makes an item of a color that counts one.
#[inline(always)]
fn put_single<C: Counted>(colors: &mut [C], items: Items, clr: C) -> Items
    requires { 2 * items.pairs + items.singles < length colors.old }
    ensures pairs { result.pairs ≡ items.pairs }
    ensures singles { result.singles ≡ items.singles + 1 }
    ensures written { map C.parts colors.new ≡ slice_set (map C.parts colors.old)
        (2 * items.pairs + items.singles) (C.parts clr) }
{
    colors[2 * items.pairs + items.singles] = clr;
    Items {
        pairs: items.pairs,
        singles: items.singles + 1,
    }
}

/// Makes an item of a color with its count. The first two of the colors that count one make room.
#[inline(always)]
fn put_pair<C: Counted>(colors: &mut [C], items: Items, clr: C, count: u16) -> Items
    requires { 2 * items.pairs + items.singles + 2 ≤ length colors.old }
    ensures pairs { result.pairs ≡ items.pairs + 1 }
    ensures singles { result.singles ≡ items.singles }
    ensures rest { (k : ℕ) → 2 * items.pairs + items.singles + 2 ≤ k
        → slice_index_or (map C.parts colors.new) k []
        ≡ slice_index_or (map C.parts colors.old) k [] }
    ensures items { (f : List ℕ → ℕ)
        → item_sum f (map C.parts colors.new) result.pairs (result.pairs + result.singles)
        ≡ item_sum f (map C.parts colors.old) items.pairs (items.pairs + items.singles)
        + count * f (C.parts clr) }
{
    let at = 2 * items.pairs;
    step_over(colors, at, items.singles);
    step_over(colors, at + 1, items.singles);
    write(colors, at, clr);
    write(colors, at + 1, C::of_count(count));
    Items {
        pairs: items.pairs + 1,
        singles: items.singles,
    }
}

/// Writes a color behind some others, and before them whatever stood there: the first of them.
#[inline(always)]
fn step_over<C: Counted>(colors: &mut [C], at: usize, len: usize)
    requires { at + len < length colors.old }
    ensures { map C.parts colors.new ≡ slice_set (map C.parts colors.old) (at + len)
        (slice_index_or (map C.parts colors.old) at []) }
{
    colors[at + len] = colors[at];
}

/// Writes a color.
#[inline(always)]
fn write<C: Counted>(colors: &mut [C], at: usize, clr: C)
    requires { at < length colors.old }
    ensures { map C.parts colors.new ≡ slice_set (map C.parts colors.old) at (C.parts clr) }
{
    colors[at] = clr;
}
