//! A table of colors with an alpha, made from the pixels of a picture.
ghost use Rattle.std.specs.Prelude.{◌≡◌, ◌⊎◌, ◌<◌, ◌≤◌, ◌*◌, ◌^◌, ℕ, All, List, length, map, sum_by, take};
ghost use Rattle.std.specs.Prelude.{MatchOption, IfNone, IsPermutation, [], false, slice_index_or, true};
ghost use Rattle.std.specs.List.{list_any};
ghost use Rattle.std.specs.Simd.{first_chunks};
ghost use Rattle.pix_table.specs.quantization.Items.{IsItem, pair_items, spread, times_of};
ghost use Rattle.pix_table.specs.SeenPixels.{AreSeen, rgba_numbers, seen, seen_numbers, straight};
ghost use Rattle.pix_table.specs.quantization.SeenTables.{IsQuantizedRgba, IsSeenTable, distinct_pixels};
ghost use Rattle.pix_table.specs.quantization.SeenTables.{four_of, same_seen};

use crate::color::TablePixel;
use crate::matching::candidates::ENTRIES;
use crate::quantization::hints::Hints;
use crate::quantization::items::{Counted, count_pairs};
use crate::rgba::color::{RgbaColor, SeenColor, same, seen_of, straight};
use crate::rgba::items::cut_seen_table;
use crate::rgba::refine::{refine_seen, refine_seen_items};

/// Writes a table of the colors of `pixels`, each with its alpha, into the first of the entries,
/// and returns their number. It returns `None`, and changes nothing, where there is no entry or
/// more than 256, or where `work` has fewer colors than there are pixels.
///
/// Pixels that are seen as the same over black and over white count as one. With no more of them
/// than entries, they are the table, in order of first place, as they are. Else it is made by the
/// cut by squared error, whose boxes are joined until there are no more of them than entries. Then
/// `rounds` rounds, from 0 to 255, make it fit better. The other entries may hold anything.
///
/// In a round each pixel goes to the entry that is seen nearest to it, the first of equals. Then
/// each entry goes to the mean of its pixels, where that makes their squared error no greater. An
/// entry without pixels stays. So no round makes the sum of the squared errors greater.
///
/// After all rounds an entry becomes opaque whose alpha is at least 250, where more than half of
/// its pixels are opaque. Its color stays. So fewer opaque pixels become translucent. This step is
/// no round, and may make the sum greater.
pub fn quantize_rgba<P: TablePixel>(
    pixels: &[P],
    rounds: u8,
    work: &mut [SeenColor],
    entries: &mut [RgbaColor],
) -> Option<usize>
    ensures table { MatchOption result
        ((length entries.old ≡ 0) ⊎ (256 < length entries.old)
        ⊎ (length work.old < length pixels.now))
        (λ count. (0 < length entries.old) × (length entries.old ≤ 256)
        × (length pixels.now ≤ length work.old) × (count ≤ length entries.new)
        × IsQuantizedRgba rounds (length entries.old) (map P.values pixels.now)
        (map rgba_numbers (take count entries.new))) }
    ensures unchanged { IfNone result ((work.new ≡ work.old) × (entries.new ≡ entries.old)) }
{
    if entries.is_empty() || entries.len() > 256 || work.len() < pixels.len() {
        return None;
    }
    Some(quantize_seen(pixels, rounds, &mut work[..pixels.len()], entries))
}

/// Writes the table of the pixels into the first of the entries, and returns their number.
fn quantize_seen<P: TablePixel>(
    pixels: &[P],
    rounds: u8,
    work: &mut [SeenColor],
    entries: &mut [RgbaColor],
) -> usize
    requires room { 0 < length entries.old }
    requires few { length entries.old ≤ 256 }
    requires work { length work.old ≡ length pixels.now }
    ensures within { result ≤ length entries.new }
    ensures table { IsQuantizedRgba rounds (length entries.old) (map P.values pixels.now)
        (map rgba_numbers (take result entries.new)) }
{
    match distinct(pixels, entries) {
        Some(count) => count,
        None => made_table(pixels, rounds, work, entries),
    }
}

/// Writes the pixels that are seen as none before them into the first of the entries, and returns
/// their number. Returns `None` where there are more of them than entries.
// Out of line, so that its stack and that of the cut do not add up.
#[inline(never)]
fn distinct<P: TablePixel>(pixels: &[P], entries: &mut [RgbaColor]) -> Option<usize>
    requires { length entries.old ≤ 256 }
    ensures { MatchOption result
        (length entries.old < length (distinct_pixels (map P.values pixels.now)))
        (λ count. (count ≤ length entries.new)
        × (map rgba_numbers (take count entries.new)
        ≡ distinct_pixels (map P.values pixels.now))) }
{
    let mut table = [SeenColor::default(); ENTRIES];
    let mut hints = Hints::new();
    let mut count = 0;
    for i in 0..pixels.len() {
        let pixel = pixels[i];
        let clr = seen_of(pixel);
        let key = clr.key();
        match entry_of(&table[..count], clr, hints.of(key)) {
            Some(at) => hints.set(key, at),
            None => {
                if count == entries.len() {
                    return None;
                }
                table[count] = clr;
                entries[count] = rgba_of(pixel);
                hints.set(key, count);
                count += 1;
            }
        }
    }
    Some(count)
}

/// Returns the color and the alpha of a pixel.
fn rgba_of<P: TablePixel>(pixel: P) -> RgbaColor
    ensures { rgba_numbers result ≡ four_of (P.values pixel) }
{
    let clr = pixel.rgb();
    RgbaColor {
        red: clr.red,
        green: clr.green,
        blue: clr.blue,
        alpha: pixel.alpha(),
    }
}

/// Returns the place of a color among the entries. It looks at two places first.
#[inline(always)]
fn entry_of(entries: &[SeenColor], clr: SeenColor, hints: (usize, usize)) -> Option<usize>
    ensures { MatchOption result
        (list_any (λ c. same_seen c (seen_numbers clr)) (map seen_numbers entries.now) ≡ false)
        (λ at. (at < length entries.now) × (same_seen
        (slice_index_or (map seen_numbers entries.now) at []) (seen_numbers clr) ≡ true)) }
{
    let (first, second) = hints;
    if first < entries.len() && same(entries[first], clr) {
        return Some(first);
    }
    if second < entries.len() && same(entries[second], clr) {
        return Some(second);
    }
    for i in 0..entries.len() {
        if same(entries[i], clr) {
            return Some(i);
        }
    }
    None
}

/// Writes what each pixel is seen as.
fn gather<P: TablePixel>(pixels: &[P], colors: &mut [SeenColor])
    requires { length colors.old ≡ length pixels.now }
    ensures gathered { map seen_numbers colors.new ≡ map seen (map P.values pixels.now) }
    ensures seen { All AreSeen (map seen_numbers colors.new) }
{
    for i in 0..pixels.len() {
        colors[i] = seen_of(pixels[i]);
    }
}

/// Writes the pixels that are seen as the table of the cut into the first of the entries, and
/// returns their number. Anything may stand in `work` then.
///
/// Condition: there is a pixel, and there are 1 to 256 entries.
fn made_table<P: TablePixel>(
    pixels: &[P],
    rounds: u8,
    work: &mut [SeenColor],
    entries: &mut [RgbaColor],
) -> usize
    requires some { 0 < length pixels.now }
    requires work { length work.old ≡ length pixels.now }
    requires room { 0 < length entries.old }
    requires few { length entries.old ≤ 256 }
    ensures within { result ≤ length entries.new }
    ensures table { IsSeenTable rounds (length entries.old) (map seen (map P.values pixels.now))
        (map seen (map rgba_numbers (take result entries.new))) }
    ensures straight { map rgba_numbers (take result entries.new)
        ≡ map straight (map seen (map rgba_numbers (take result entries.new))) }
{
    let mut table = [SeenColor::default(); ENTRIES];
    let count = cut_and_refine(pixels, rounds, work, &mut table[..entries.len()]);
    write_straight(&table[..count], entries);
    count
}

/// Writes the table of the cut into the first of the entries, moves them by `rounds` rounds, and
/// returns their number. The colors are counted first. Where they repeat too little, they are
/// gathered again.
///
/// Condition: there is a pixel, and there are 1 to 256 entries.
fn cut_and_refine<P: TablePixel>(
    pixels: &[P],
    rounds: u8,
    work: &mut [SeenColor],
    entries: &mut [SeenColor],
) -> usize
    requires some { 0 < length pixels.now }
    requires work { length work.old ≡ length pixels.now }
    requires room { 0 < length entries.old }
    requires few { length entries.old ≤ 256 }
    ensures within { result ≤ length entries.new }
    ensures table { IsSeenTable rounds (length entries.old) (map seen (map P.values pixels.now))
        (map seen_numbers (take result entries.new)) }
    ensures seen { All AreSeen (map seen_numbers (take result entries.new)) }
{
    gather(pixels, work);
    match count_pairs(work) {
        Some(pairs) => refined_of_pairs(work, pairs, rounds, entries),
        None => {
            gather(pixels, work);
            refined_of_colors(work, rounds, entries)
        }
    }
}

/// Makes the table by pairs of a color and its count, which are the first of the colors.
fn refined_of_pairs(
    colors: &mut [SeenColor],
    pairs: usize,
    rounds: u8,
    entries: &mut [SeenColor],
) -> usize
    requires inside { 2 * pairs ≤ length colors.old }
    requires some { 0 < pairs }
    requires items { All (IsItem 4) (pair_items seen_numbers (first_chunks 2 pairs colors.old)) }
    requires colors { All AreSeen
        (spread 4 (pair_items seen_numbers (first_chunks 2 pairs colors.old))) }
    requires count { sum_by (times_of 4)
        (pair_items seen_numbers (first_chunks 2 pairs colors.old)) < 2 ^ 64 }
    requires room { 0 < length entries.old }
    requires few { length entries.old ≤ 256 }
    ensures within { result ≤ length entries.new }
    ensures table { (all : List (List ℕ)) → IsPermutation all
        (spread 4 (pair_items seen_numbers (first_chunks 2 pairs colors.old)))
        → IsSeenTable rounds (length entries.old) all
        (map seen_numbers (take result entries.new)) }
    ensures seen { All AreSeen (map seen_numbers (take result entries.new)) }
{
    let (chunks, _) = colors.as_chunks_mut::<2>();
    let items = &mut chunks[..pairs];
    let count = cut_seen_table(items, entries);
    refine_seen_items(items, rounds, &mut entries[..count]);
    count
}

/// Makes the table by colors, each of which counts one. Their order changes.
fn refined_of_colors(colors: &mut [SeenColor], rounds: u8, entries: &mut [SeenColor]) -> usize
    requires some { 0 < length colors.old }
    requires room { 0 < length entries.old }
    requires few { length entries.old ≤ 256 }
    requires seen { All AreSeen (map seen_numbers colors.old) }
    ensures within { result ≤ length entries.new }
    ensures table { IsSeenTable rounds (length entries.old) (map seen_numbers colors.old)
        (map seen_numbers (take result entries.new)) }
    ensures seen { All AreSeen (map seen_numbers (take result entries.new)) }
{
    let count = cut_seen_table(colors, entries);
    refine_seen(colors, rounds, &mut entries[..count]);
    count
}

/// Writes the pixels that are seen as the colors of a table into the first of the entries.
fn write_straight(table: &[SeenColor], entries: &mut [RgbaColor])
    requires room { length table.now ≤ length entries.old }
    requires seen { All AreSeen (map seen_numbers table.now) }
    ensures many { length entries.new ≡ length entries.old }
    ensures written { map rgba_numbers (take (length table.now) entries.new)
        ≡ map straight (map seen_numbers table.now) }
    ensures shown { map seen (map rgba_numbers (take (length table.now) entries.new))
        ≡ map seen_numbers table.now }
{
    for i in 0..table.len() {
        entries[i] = straight(table[i]);
    }
}
