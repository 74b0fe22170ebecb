//! A table made from the pixels of a picture.
ghost use Rattle.std.specs.Prelude.{◌≡◌, ◌⊎◌, ◌<◌, ◌≤◌, ◌*◌, ◌^◌, ℕ, All, List, [], length, map, sum_by, take};
ghost use Rattle.std.specs.Prelude.{MatchOption, IfNone, IsPermutation, false, slice_index_or, true};
ghost use Rattle.std.specs.List.{list_any};
ghost use Rattle.std.specs.Simd.{first_chunks};
ghost use Rattle.pix_table.specs.quantization.Items.{IsItem, pair_items, spread, times_of};
ghost use Rattle.pix_table.specs.matching.Nearest.{numbers};
ghost use Rattle.pix_table.specs.quantization.Quantization.{shown, same_color, distinct, IsQuantized};
ghost use Rattle.pix_table.specs.quantization.Grays.{IsLeastOr};
ghost use Rattle.pix_table.specs.quantization.Refine.{IsQuantizedRefined, IsRefinedCut};

use crate::color::{Color, TablePixel};
use crate::quantization::color_items::cut_table;
use crate::quantization::grays::{are_grays, least_table};
use crate::quantization::hints::Hints;
use crate::quantization::items::{Counted, count_pairs};
use crate::quantization::refine::{refine, refine_items};

pub(crate) mod box_sums;
pub(crate) mod by_value;
pub(crate) mod color_items;
pub(crate) mod cut;
pub(crate) mod cutting;
pub(crate) mod exchange;
pub(crate) mod gray_error;
pub(crate) mod gray_levels;
pub(crate) mod gray_parts;
pub(crate) mod grays;
pub(crate) mod group;
pub(crate) mod hints;
pub(crate) mod items;
pub(crate) mod joins;
pub(crate) mod pieces;
pub(crate) mod place;
pub(crate) mod refine;
pub(crate) mod sums64;
pub(crate) mod weight;

/// Returns how many colors of work memory [`quantize`] takes for this many pixels, which is the
/// same number.
pub fn quantize_work(pixels: usize) -> usize
    ensures { result ≡ pixels }
{
    pixels
}

/// Writes a table of the colors of `pixels` into the first of the entries, and returns their
/// number. It returns `None`, and changes nothing, where there is no entry or more than 256, or
/// where `work` has fewer colors than [`quantize_work`] says.
///
/// Pixels whose alpha is below `alpha` do not count. With no more distinct colors than entries,
/// they are the table, in order of first place. Else, of grays alone, it has the least squared
/// error of all tables of at most so many entries. Else it is made by the cut by squared error:
/// boxes of colors are cut where the squared error falls most, into twice as many as there are
/// entries, but at most 64 more. Then pairs of boxes become one where it rises least, until there
/// are no more of them than entries. A rise is a difference of quotients rounded down, and at least
/// 0, so of pairs with nearly equal rises another one may be joined. Each entry is the mean of a
/// box. The other entries may hold anything.
pub fn quantize<P: TablePixel>(
    pixels: &[P],
    alpha: u8,
    work: &mut [Color],
    entries: &mut [Color],
) -> Option<usize>
    ensures table { MatchOption result
        ((length entries.old ≡ 0) ⊎ (256 < length entries.old)
        ⊎ (length work.old < length pixels.now))
        (λ count. (0 < length entries.old) × (length entries.old ≤ 256)
        × (length pixels.now ≤ length work.old) × (count ≤ length entries.new)
        × IsQuantized (length entries.old) (shown alpha (map P.values pixels.now))
        (map numbers (take count entries.new))) }
    ensures unchanged { IfNone result ((work.new ≡ work.old) × (entries.new ≡ entries.old)) }
{
    quantize_refined(pixels, alpha, 0, work, entries)
}

/// Writes a table of the colors of `pixels` into the first of the entries, makes it fit better by
/// `rounds` rounds, from 0 to 255, and returns their number. It returns `None`, and changes
/// nothing, where there is no entry or more than 256, or where `work` has fewer colors than
/// [`quantize_work`] says. Without a round the table is that of [`quantize`], for which pixels
/// whose alpha is below `alpha` do not count. A round takes about as long as matching each distinct
/// color, so less than matching the pixels where colors come again.
///
/// In a round each color goes to its nearest entry, the first of equals. Then each entry goes to
/// the mean of its colors, to the nearest whole number in each channel, ties up. An entry without
/// colors stays. No round makes the sum of the squared errors greater: of each pixel that counts,
/// the squares of the differences to its nearest entry in red, green and blue. Distinct colors for
/// which there is room are the table, and no round moves them. Nor does one move a table of grays.
///
/// The rounds are those of S. Lloyd, *Least squares quantization in PCM*, 1982.
pub fn quantize_refined<P: TablePixel>(
    pixels: &[P],
    alpha: u8,
    rounds: u8,
    work: &mut [Color],
    entries: &mut [Color],
) -> Option<usize>
    ensures table { MatchOption result
        ((length entries.old ≡ 0) ⊎ (256 < length entries.old)
        ⊎ (length work.old < length pixels.now))
        (λ count. (0 < length entries.old) × (length entries.old ≤ 256)
        × (length pixels.now ≤ length work.old) × (count ≤ length entries.new)
        × IsQuantizedRefined rounds (length entries.old) (shown alpha (map P.values pixels.now))
        (map numbers (take count entries.new))) }
    ensures unchanged { IfNone result ((work.new ≡ work.old) × (entries.new ≡ entries.old)) }
{
    if entries.is_empty() || entries.len() > 256 || work.len() < quantize_work(pixels.len()) {
        return None;
    }
    Some(quantize_shown(pixels, alpha, rounds, work, entries))
}

/// Writes the table of the pixels whose alpha is not below `alpha` into the first of the entries,
/// and returns their number.
fn quantize_shown<P: TablePixel>(
    pixels: &[P],
    alpha: u8,
    rounds: u8,
    work: &mut [Color],
    entries: &mut [Color],
) -> usize
    requires work { length pixels.now ≤ length work.old }
    requires room { 0 < length entries.old }
    requires few { length entries.old ≤ 256 }
    ensures within { result ≤ length entries.new }
    ensures table { IsQuantizedRefined rounds (length entries.old)
        (shown alpha (map P.values pixels.now)) (map numbers (take result entries.new)) }
{
    let count = gather(pixels, alpha, work);
    match distinct(&work[..count], entries) {
        Some(made) => made,
        None => made_table(pixels, alpha, rounds, work, count, entries),
    }
}

/// Writes the colors of the pixels whose alpha is not below `alpha` into the first places of
/// `work`, and returns their number.
fn gather<P: TablePixel>(pixels: &[P], alpha: u8, work: &mut [Color]) -> usize
    requires { length pixels.now ≤ length work.old }
    ensures within { result ≤ length work.new }
    ensures shown { map numbers (take result work.new) ≡ shown alpha (map P.values pixels.now) }
{
    let mut count = 0;
    for i in 0..pixels.len() {
        if alpha <= pixels[i].alpha() {
            work[count] = pixels[i].rgb();
            count += 1;
        }
    }
    count
}

/// Writes the table into the first of the entries where there is no room for all distinct colors,
/// and returns their number: that of grays where all are grays, and else that of the cut. The first
/// `count` of `work` are the colors of the pixels whose alpha is not below `alpha`.
///
/// Condition: there is a color, and there are 1 to 256 entries.
fn made_table<P: TablePixel>(
    pixels: &[P],
    alpha: u8,
    rounds: u8,
    work: &mut [Color],
    count: usize,
    entries: &mut [Color],
) -> usize
    requires work { length pixels.now ≤ length work.old }
    requires inside { count ≤ length work.old }
    requires some { 0 < count }
    requires gathered { map numbers (take count work.old) ≡ shown alpha (map P.values pixels.now) }
    requires room { 0 < length entries.old }
    requires few { length entries.old ≤ 256 }
    ensures within { result ≤ length entries.new }
    ensures table { IsLeastOr (IsRefinedCut rounds (length entries.old)
        (shown alpha (map P.values pixels.now)) (map numbers (take result entries.new)))
        (length entries.old) (shown alpha (map P.values pixels.now))
        (map numbers (take result entries.new)) }
{
    if are_grays(&work[..count]) {
        return least_table(&work[..count], entries);
    }
    cut_and_refine(pixels, alpha, rounds, work, count, entries)
}

/// Writes the table of the cut into the first of the entries, moves them by `rounds` rounds, and
/// returns their number. The first `count` of `work` are the colors of the pixels whose alpha is
/// not below `alpha`. They are counted first. Where they repeat too little, they are gathered
/// again.
///
/// Condition: there is a color, and there are 1 to 256 entries.
fn cut_and_refine<P: TablePixel>(
    pixels: &[P],
    alpha: u8,
    rounds: u8,
    work: &mut [Color],
    count: usize,
    entries: &mut [Color],
) -> usize
    requires work { length pixels.now ≤ length work.old }
    requires inside { count ≤ length work.old }
    requires some { 0 < count }
    requires gathered { map numbers (take count work.old) ≡ shown alpha (map P.values pixels.now) }
    requires room { 0 < length entries.old }
    requires few { length entries.old ≤ 256 }
    ensures within { result ≤ length entries.new }
    ensures table { IsRefinedCut rounds (length entries.old) (shown alpha (map P.values pixels.now))
        (map numbers (take result entries.new)) }
{
    match count_pairs(&mut work[..count]) {
        Some(pairs) => refined_of_pairs(&mut work[..count], pairs, rounds, entries),
        None => {
            let again = gather(pixels, alpha, work);
            refined_of_colors(&mut work[..again], rounds, entries)
        }
    }
}

/// Makes the table by pairs of a color and its count, which are the first of the colors.
fn refined_of_pairs(colors: &mut [Color], pairs: usize, rounds: u8, entries: &mut [Color]) -> usize
    requires inside { 2 * pairs ≤ length colors.old }
    requires some { 0 < pairs }
    requires items { All (IsItem 3) (pair_items numbers (first_chunks 2 pairs colors.old)) }
    requires count { sum_by (times_of 3) (pair_items numbers (first_chunks 2 pairs colors.old))
        < 2 ^ 64 }
    requires room { 0 < length entries.old }
    requires few { length entries.old ≤ 256 }
    ensures within { result ≤ length entries.new }
    ensures table { (all : List (List ℕ)) → IsPermutation all
        (spread 3 (pair_items numbers (first_chunks 2 pairs colors.old)))
        → IsRefinedCut rounds (length entries.old) all (map numbers (take result entries.new)) }
{
    let (chunks, _) = colors.as_chunks_mut::<2>();
    let items = &mut chunks[..pairs];
    let count = cut_table(items, entries);
    refine_items(items, rounds, &mut entries[..count]);
    count
}

/// Makes the table by colors, each of which counts one. Their order changes.
fn refined_of_colors(colors: &mut [Color], rounds: u8, entries: &mut [Color]) -> usize
    requires some { 0 < length colors.old }
    requires room { 0 < length entries.old }
    requires few { length entries.old ≤ 256 }
    ensures within { result ≤ length entries.new }
    ensures table { IsRefinedCut rounds (length entries.old) (map numbers colors.old)
        (map numbers (take result entries.new)) }
{
    let count = cut_table(colors, entries);
    refine(colors, rounds, &mut entries[..count]);
    count
}

/// Writes the distinct colors into the first of the entries, in order of first place, and returns
/// their number. Returns `None` where there are more of them than entries.
// Out of line, so that its stack and that of the cut do not add up.
#[inline(never)]
fn distinct(colors: &[Color], entries: &mut [Color]) -> Option<usize>
    requires { length entries.old ≤ 256 }
    ensures { MatchOption result
        (length entries.old < length (distinct (map numbers colors.now)))
        (λ count. (count ≤ length entries.new)
        × (map numbers (take count entries.new) ≡ distinct (map numbers colors.now))) }
{
    let mut hints = Hints::new();
    let mut count = 0;
    for i in 0..colors.len() {
        let clr = colors[i];
        let key = clr.key();
        match entry_of(&entries[..count], clr, hints.of(key)) {
            Some(at) => hints.set(key, at),
            None => {
                if count == entries.len() {
                    return None;
                }
                entries[count] = clr;
                hints.set(key, count);
                count += 1;
            }
        }
    }
    Some(count)
}

/// Returns the place of a color among the entries. It looks at two places first.
#[inline(always)]
fn entry_of(entries: &[Color], clr: Color, hints: (usize, usize)) -> Option<usize>
    ensures { MatchOption result
        (list_any (λ c. same_color c (numbers clr)) (map numbers entries.now) ≡ false)
        (λ at. (at < length entries.now) × (same_color
        (slice_index_or (map numbers entries.now) at []) (numbers clr) ≡ true)) }
{
    let (first, second) = hints;
    if first < entries.len() && same(entries[first], clr) {
        return Some(first);
    }
    if second < entries.len() && same(entries[second], clr) {
        return Some(second);
    }
    for i in 0..entries.len() {
        if same(entries[i], clr) {
            return Some(i);
        }
    }
    None
}

/// Returns whether two colors are the same.
pub(crate) fn same(p: Color, q: Color) -> bool
    ensures { result ≡ same_color (numbers p) (numbers q) }
{
    p.red == q.red && p.green == q.green && p.blue == q.blue
}
