//! The entries that are seen nearest to pixels.
ghost use Rattle.std.specs.Prelude.{◌≡◌, ◌<◌, ◌≤◌, ℕ, All, List, length, map, take};
ghost use Rattle.pix_table.specs.matching.Nearest.{IsNearestBy};
ghost use Rattle.pix_table.specs.SeenPixels.{AreSeen, AreSeenMatched, seen, seen_distance, seen_numbers};
ghost use Rattle.pix_table.specs.matching.NearBlocks.{AreEnds};
ghost use Rattle.pix_table.specs.matching.SeenLanes.{AreSeenLanes};
ghost use Rattle.pix_table.specs.matching.SeenMatches.{AreMatchedPixels};
ghost use Rattle.pix_table.specs.quantization.SeenGroups.{seen_key_numbers};
ghost use Rattle.pix_table.specs.quantization.SeenTables.{four_of};

use crate::color::TablePixel;
use crate::matching::candidates::ENTRIES;
use crate::quantization::items::place_of;
use crate::rgba::color::{RgbaColor, SeenColor, seen_of};
use crate::rgba::lanes::{CELLS, SeenLanes};
use crate::rgba::near_blocks::BlockEnds;

/// Returns how the entries of a table are seen, followed by others.
pub(crate) fn seen_entries<E: TablePixel>(entries: &[E]) -> [SeenColor; ENTRIES]
    requires { length entries.now ≤ 256 }
    ensures long { length result ≡ 256 }
    ensures numbers { map seen_numbers (take (length entries.now) result)
        ≡ map seen (map E.values entries.now) }
    ensures seen { All AreSeen (map seen_numbers (take (length entries.now) result)) }
{
    let mut colors = [SeenColor::default(); ENTRIES];
    for i in 0..entries.len() {
        colors[i] = seen_of(entries[i]);
    }
    colors
}

/// The number of places for pixels that were matched.
const PLACES: usize = 1024;

/// A pixel, by the key of its color and alpha, and the index of the entry that is seen nearest to
/// it.
#[derive(Clone, Copy)]
pub(crate) struct MatchedPixel {
    key: u32,
    index: u8,
}

/// Sets the index of each pixel to that of the entry that is seen nearest to it, the first of
/// equals.
///
/// Condition: there is at least one entry and at most 256, and there are as many indices as pixels.
pub fn map_indexed_rgba<E: TablePixel, P: TablePixel>(
    entries: &[E],
    pixels: &[P],
    indices: &mut [u8],
)
    requires some { 0 < length entries.now }
    requires few { length entries.now ≤ 256 }
    requires many { length indices.old ≡ length pixels.now }
    ensures { AreSeenMatched (map E.values entries.now) (map P.values pixels.now) indices.new }
{
    let colors = seen_entries(entries);
    let lanes = SeenLanes::of(&colors[..entries.len()]);
    let ends = lanes.ends();
    let clear = RgbaColor {
        red: 0,
        green: 0,
        blue: 0,
        alpha: 0,
    };
    let first = MatchedPixel {
        key: 0,
        index: lanes.nearest(seen_of(clear)),
    };
    let mut places = [first; PLACES];
    let mut found = [first.index; CELLS];
    for k in 0..pixels.len() {
        let index = index_of(&lanes, &ends, &mut places, &mut found, pixels[k]);
        indices[k] = index;
    }
}

/// Returns the index of the entry that is seen nearest to a pixel, the first of equals. It is
/// searched for where the place of the pixel has another one.
#[inline(always)]
fn index_of<P: TablePixel>(
    lanes: &SeenLanes,
    ends: &BlockEnds,
    places: &mut [MatchedPixel],
    found: &mut [u8; CELLS],
    pixel: P,
) -> u8
    requires many { length places.old ≡ 1024 }
    requires ends { AreEnds lanes.now.blocks ends.now }
    ensures nearest { (entries : List (List ℕ)) → AreSeenLanes entries lanes.now
        → AreMatchedPixels entries places.old
        → IsNearestBy seen_distance entries (seen (P.values pixel)) result }
    ensures places { (entries : List (List ℕ)) → AreSeenLanes entries lanes.now
        → AreMatchedPixels entries places.old → AreMatchedPixels entries places.new }
{
    let key = key_of(pixel);
    let at = place_of(key) / 4;
    let place = places[at];
    if place.key == key {
        return place.index;
    }
    let index = lanes.nearest_by_cell(ends, found, seen_of(pixel));
    places[at] = MatchedPixel { key, index };
    index
}

/// Returns a number that tells the color and the alpha of a pixel from all others.
#[inline(always)]
fn key_of<P: TablePixel>(pixel: P) -> u32
    ensures { seen_key_numbers result ≡ four_of (P.values pixel) }
{
    let clr = pixel.rgb();
    u32::from(clr.red) * 16777216
        + u32::from(clr.green) * 65536
        + u32::from(clr.blue) * 256
        + u32::from(pixel.alpha())
}
