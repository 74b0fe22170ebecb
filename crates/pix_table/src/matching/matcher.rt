//! The nearest entries of many colors, one after the other.
ghost use Rattle.std.specs.Prelude.{◌≡◌, ◌<◌, ◌≤◌, ℕ, List, length, map, take};
ghost use Rattle.pix_table.specs.matching.Nearest.{IsMatched, AreMatched, IsNearest, numbers};
ghost use Rattle.pix_table.specs.matching.FoundColors.{AreAnswers};
ghost use Rattle.pix_table.specs.matching.InverseMap.{AreWords};
ghost use Rattle.pix_table.specs.matching.EntryLanes.{AreLanes};

use crate::color::{Color, TableColor, TablePixel};
use crate::matching::candidates::ENTRIES;
use crate::matching::entry_lanes::EntryLanes;
use crate::matching::inverse_map::{CELLS, CREDIT, InverseMap, LISTS, NONE, RATE, nearest_of};
use crate::matching::nearest_search::{NearestSearch, SearchVisitor};
use crate::matching::word::word_of;
use crate::quantization::items::place_of;
use crate::threshold::color_block::SIZE;
use std::marker::Model;

/// For more searches than this, entries that equal one before them are left out first.
const FEW_SEARCHES: usize = 1024;

/// Lists take more time than they save for no more searches than this, whatever the entries are,
/// since a list takes most of its time before it is searched.
const LIST_SEARCHES: usize = 6826;

/// Lists save more time than they take for so many more searches than these, divided by the number
/// of blocks of lanes after the first. A block takes the same time in each search.
const BLOCK_SEARCHES: usize = 61440;

/// Fewer pixels than this have few places for colors whose index was found, since it takes time to
/// clear places.
const FEW_PIXELS: usize = 512;

/// The number of places for few pixels.
const FEW_PLACES: usize = 256;

/// The number of places for many pixels.
const PLACES: usize = 4096;

/// Returns the numbers of the entries, followed by that of the first.
// Out of line. Where it is inlined, LLVM puts a matcher together on the stack beside its place.
#[inline(never)]
fn words_of(entries: &[Color]) -> [u32; ENTRIES]
    requires some { 0 < length entries.now }
    requires few { length entries.now ≤ 256 }
    ensures { AreWords (map numbers entries.now) result }
{
    let mut words = [word_of(entries[0], 0); ENTRIES];
    for i in 0..entries.len() {
        words[i] = word_of(entries[i], i as u8);
    }
    words
}

/// A copy of a table of colors, to which many colors are matched. Each is searched among the few
/// entries of a list that may be the nearest to it.
#[derive(Drop)]
struct Matcher {
    entries: [Color; ENTRIES],
    words: [u32; ENTRIES],
    len: usize,
    lanes: EntryLanes,
    inverse_map: InverseMap,
}

impl Model for Matcher {
    ghost use Rattle.std.specs.Prelude.{List, ℕ, length, map, take, ◌≡◌, ◌<◌, ◌≤◌};
    ghost use Rattle.pix_table.specs.matching.Nearest.{numbers};
    ghost use Rattle.pix_table.specs.matching.InverseMap.{IsInverseMap, AreWords};
    ghost use Rattle.pix_table.specs.matching.EntryLanes.{AreLanes};

    ghost Value = { List (List ℕ) };

    ghost view = { λ m. map numbers (take m.len m.entries) };

    ghost invariant = { λ m. (0 < m.len) × (m.len ≤ 256) × (length m.entries ≡ 256)
        × AreWords (map numbers (take m.len m.entries)) m.words
        × AreLanes (map numbers (take m.len m.entries)) m.lanes
        × IsInverseMap (map numbers (take m.len m.entries)) m.inverse_map };
}

impl NearestSearch for Matcher {
    ghost finds = { λ matcher entries. matcher ≡ entries };

    #[inline(always)]
    fn nearest_entry(&mut self, clr: Color) -> u8 {
        let entries = &self.entries[..self.len];
        nearest_of(
            &mut self.inverse_map,
            entries,
            &self.words,
            &self.lanes,
            clr,
        )
    }
}

impl NearestSearch for EntryLanes {
    ghost finds = { λ lanes entries. AreLanes entries lanes };

    #[inline(always)]
    fn nearest_entry(&mut self, clr: Color) -> u8 {
        self.nearest(clr)
    }
}

/// Returns the colors of the entries, followed by others.
#[inline(never)]
fn colors_of<C: TableColor>(colors: &[C]) -> [Color; ENTRIES]
    requires { length colors.now ≤ 256 }
    ensures long { length result ≡ 256 }
    ensures colors { map numbers (take (length colors.now) result) ≡ map C.channels colors.now }
{
    let mut entries = [Color::default(); ENTRIES];
    for i in 0..colors.len() {
        entries[i] = colors[i].color();
    }
    entries
}

/// Returns whether lists save time in so many searches among some entries.
fn lists_pay(searches: usize, entries: usize) -> bool
    requires { 0 < entries }
{
    let more_blocks = (entries - 1) / SIZE;
    more_blocks > 0 && searches > LIST_SEARCHES + BLOCK_SEARCHES / more_blocks
}

/// Runs an action on some items that asks for the nearest entries of a table, about `searches`
/// times.
///
/// For many searches, it lists the entries that may be the nearest to a color. For few searches, or
/// few entries, it looks at all entries.
///
/// Condition: the table has at least one and at most 256 entries, and the action may run on this
/// many items with this much work memory.
pub fn visit_nearest<C: TableColor, T, V: SearchVisitor<T>>(
    colors: &[C],
    visitor: &V,
    searches: usize,
    items: &mut [T],
    work: &mut [Color],
)
    requires some { 0 < length colors.now }
    requires few { length colors.now ≤ 256 }
    requires can { V.can_visit visitor.now (map C.channels colors.now) (length items.old)
        (length work.old) }
    ensures { V.visits visitor.now (map C.channels colors.now) items.old items.new }
{
    let mut lanes = EntryLanes::new(colors);
    if searches > FEW_SEARCHES {
        visit_many(colors, &lanes, visitor, searches, items, work);
    } else {
        visitor.visit(&mut lanes, items, work);
    }
}

/// Runs an action on some items that asks for the nearest entries of a table, more than a few
/// times. Entries that equal one before them are left out first. Where that saves time, it lists
/// the entries that may be the nearest to a color.
fn visit_many<C: TableColor, T, V: SearchVisitor<T>>(
    colors: &[C],
    lanes: &EntryLanes,
    visitor: &V,
    searches: usize,
    items: &mut [T],
    work: &mut [Color],
)
    requires some { 0 < length colors.now }
    requires few { length colors.now ≤ 256 }
    requires lanes { AreLanes (map C.channels colors.now) lanes.now }
    requires can { V.can_visit visitor.now (map C.channels colors.now) (length items.old)
        (length work.old) }
    ensures { V.visits visitor.now (map C.channels colors.now) items.old items.new }
{
    let mut distinct = lanes.distinct(colors);
    if lists_pay(searches, distinct.len) {
        visit_with_lists(colors, distinct, visitor, items, work);
    } else {
        visitor.visit(&mut distinct, items, work);
    }
}

/// Runs an action on some items that asks for the nearest entries of a table. It lists the entries
/// that may be the nearest to a color.
// Out of line, so that no other call has its 215 kilobytes on the stack.
#[inline(never)]
fn visit_with_lists<C: TableColor, T, V: SearchVisitor<T>>(
    colors: &[C],
    lanes: EntryLanes,
    visitor: &V,
    items: &mut [T],
    work: &mut [Color],
)
    requires some { 0 < length colors.now }
    requires few { length colors.now ≤ 256 }
    requires lanes { AreLanes (map C.channels colors.now) lanes }
    requires can { V.can_visit visitor.now (map C.channels colors.now) (length items.old)
        (length work.old) }
    ensures { V.visits visitor.now (map C.channels colors.now) items.old items.new }
{
    let len = colors.len();
    let entries = colors_of(colors);
    let words = words_of(&entries[..len]);
    let mut matcher = Matcher {
        entries,
        words,
        len,
        lanes,
        inverse_map: InverseMap {
            known: [NONE; CELLS],
            lists: [0; LISTS],
            used: 0,
            first: 0,
            credit: CREDIT,
            rate: RATE,
        },
    };
    visitor.visit(&mut matcher, items, work);
}

/// Pixels that are matched to entries. A pixel whose alpha is below `alpha` gets the index
/// `transparent_index`, and any other gets that of its nearest entry.
#[derive(Drop)]
struct Matching<'a, P> {
    pixels: &'a [P],
    alpha: u8,
    transparent_index: u8,
}

/// Returns the index of the entry that is nearest to a color. It searches only where another color
/// was found at its place since, or none. Each place has a color and its index, as one number.
#[inline(always)]
fn nearest_by<N: NearestSearch>(search: &mut N, answers: &mut [u32], clr: Color) -> u8
    requires { 0 < length answers.old }
    ensures nearest { (entries : List (List ℕ)) → N.finds search.old entries
        → AreAnswers entries answers.old → IsNearest entries (numbers clr) result }
    ensures same { (entries : List (List ℕ)) → N.finds search.old entries
        → N.finds search.new entries }
    ensures answers { (entries : List (List ℕ)) → N.finds search.old entries
        → AreAnswers entries answers.old → AreAnswers entries answers.new }
{
    let key = word_of(clr, 0);
    let place = place_of(key) % answers.len();
    let answer = answers[place];
    let is_known = answer / 256 == key / 256;
    if is_known {
        return (answer % 256) as u8;
    }
    let index = search.nearest_entry(clr);
    let found = word_of(clr, index);
    answers[place] = found;
    index
}

/// Returns the index of a pixel: `transparent_index` where its alpha is below `alpha`, and else
/// that of the nearest entry.
#[inline(always)]
fn matched<N: NearestSearch, P: TablePixel>(
    search: &mut N,
    answers: &mut [u32],
    pixel: P,
    alpha: u8,
    transparent_index: u8,
) -> u8
    requires { 0 < length answers.old }
    ensures matched { (entries : List (List ℕ)) → N.finds search.old entries
        → AreAnswers entries answers.old
        → IsMatched entries alpha transparent_index (P.values pixel) result }
    ensures same { (entries : List (List ℕ)) → N.finds search.old entries
        → N.finds search.new entries }
    ensures answers { (entries : List (List ℕ)) → N.finds search.old entries
        → AreAnswers entries answers.old → AreAnswers entries answers.new }
{
    if pixel.alpha() < alpha {
        return transparent_index;
    }
    nearest_by(search, answers, pixel.rgb())
}

impl<P: TablePixel> Matching<'_, P> {
    ghost use Rattle.std.specs.Prelude.{◌≡◌, ◌<◌, ◌≤◌, List, ℕ, length, map};
    ghost use Rattle.pix_table.specs.matching.Nearest.{AreMatched};

    /// Sets the index of each pixel, with this many places for colors whose index was found.
    // Out of line: where it is inlined, a matcher is put together on the stack beside its place.
    #[inline(never)]
    fn set_indices<N: NearestSearch, const COUNT: usize>(&self, search: &mut N, indices: &mut [u8])
        requires some { 0 < COUNT }
        requires room { COUNT ≤ 4096 }
        requires many { length indices.old ≡ length self.now.pixels.now }
        requires finds { (entries : List (List ℕ)) × N.finds search.old entries }
        ensures { (entries : List (List ℕ)) → N.finds search.old entries
            → AreMatched entries self.now.alpha self.now.transparent_index
            (map P.values self.now.pixels.now) indices.new }
    {
        let black = Color::default();
        let index = search.nearest_entry(black);
        let mut answers = [word_of(black, index); COUNT];
        // Read here, these stay in registers.
        let (pixels, alpha, transparent_index) = (self.pixels, self.alpha, self.transparent_index);
        for i in 0..indices.len() {
            indices[i] = matched(search, &mut answers, pixels[i], alpha, transparent_index);
        }
    }
}

impl<P: TablePixel> SearchVisitor<u8> for Matching<'_, P> {
    ghost can_visit = { λ matching entries count work. count ≡ length matching.pixels.now };

    ghost visits = { λ matching entries old new.
        AreMatched entries matching.alpha matching.transparent_index
        (map P.values matching.pixels.now) new };

    fn visit<N: NearestSearch>(&self, search: &mut N, items: &mut [u8], _work: &mut [Color]) {
        if items.len() < FEW_PIXELS {
            self.set_indices::<N, FEW_PLACES>(search, items);
        } else {
            self.set_indices::<N, PLACES>(search, items);
        }
    }
}

/// Sets the index of each pixel: to `transparent_index` where the pixel's alpha is below `alpha`,
/// and else to that of the nearest entry, the first of equals.
///
/// Condition: the table has at least one and at most 256 entries, and there are as many indices as
/// pixels.
pub fn map_indexed<C: TableColor, P: TablePixel>(
    colors: &[C],
    pixels: &[P],
    alpha: u8,
    transparent_index: u8,
    indices: &mut [u8],
)
    requires some { 0 < length colors.now }
    requires few { length colors.now ≤ 256 }
    requires many { length indices.old ≡ length pixels.now }
    ensures { AreMatched (map C.channels colors.now) alpha transparent_index
        (map P.values pixels.now) indices.new }
{
    let matching = Matching {
        pixels,
        alpha,
        transparent_index,
    };
    visit_nearest(colors, &matching, pixels.len(), indices, &mut []);
}
