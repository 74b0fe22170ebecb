//! Pixels that are indexed: their colors are set in a table, one after the other.
ghost use Rattle.std.specs.Prelude.{◌≡◌, ◌<◌, ◌≤◌, ℕ, List, length, map, take, slice_set, true, false, MatchOption, IfNone};
ghost use Rattle.pix_table.specs.matching.Nearest.{numbers};
ghost use Rattle.pix_table.specs.threshold.Setting.{Always, IsSet};
ghost use Rattle.pix_table.specs.threshold.Indexing.{AreSet, IsStopped};
ghost use Rattle.pix_table.specs.declared.color.Color.{Color};

use crate::color::Color;
use crate::threshold::set::set_cached;
use crate::threshold::table_blocks::TableCache;

/// The maximum number of slots.
const SLOTS: usize = 256;

/// Sets the color of each pixel among the first `len` of `slots`, one after the other, and the
/// index at its place to the answer. Returns the number of entries afterwards, or `None` where a
/// color can't be set; then nothing changes.
///
/// The answer for a color is its match, where that is within the threshold. Else the color is
/// added. Condition: there are no more than 256 slots, and as many indices as pixels.
pub fn index_pixels(
    slots: &mut [Color],
    len: usize,
    threshold: Color,
    pixels: &[Color],
    indices: &mut [u8],
) -> Option<usize>
    requires few { length slots.old ≤ 256 }
    requires within { len ≤ length slots.old }
    requires many { length indices.old ≡ length pixels.now }
    ensures indexed { MatchOption result
        ((rest : List Color) × IsStopped numbers
        (IsSet numbers (Always (numbers threshold)) (length slots.old)) 255
        (take len slots.old) (map numbers pixels.now) rest)
        (λ used. (used ≤ length slots.new) × AreSet numbers
        (IsSet numbers (Always (numbers threshold)) (length slots.old)) 255
        (take len slots.old) (map numbers pixels.now) indices.new (take used slots.new)) }
    ensures unchanged { IfNone result
        ((slots.new ≡ slots.old) × (indices.new ≡ indices.old)) }
    ensures room { length slots.new ≡ length slots.old }
{
    let mut copy = [Color::default(); SLOTS];
    let spare = &mut copy[..slots.len()];
    spare.copy_from_slice(slots);
    if set_pixels(spare, len, threshold, pixels, indices, false).0 {
        let (_, used) = set_pixels(slots, len, threshold, pixels, indices, true);
        Some(used)
    } else {
        None
    }
}

/// Sets the color of each pixel, up to the first that can't be set. Where indices are to be
/// written, it also sets the index at the pixel's place. Returns whether all are set, and the
/// number of entries afterwards.
fn set_pixels(
    slots: &mut [Color],
    len: usize,
    threshold: Color,
    pixels: &[Color],
    indices: &mut [u8],
    write: bool,
) -> (bool, usize)
    requires within { len ≤ length slots.old }
    requires many { length indices.old ≡ length pixels.now }
    ensures set { result.0 ≡ true → (all : List ℕ) × AreSet numbers
        (IsSet numbers (Always (numbers threshold)) (length slots.old)) 255
        (take len slots.old) (map numbers pixels.now) all (take result.1 slots.new)
        × (write ≡ true → indices.new ≡ all) }
    ensures stopped { result.0 ≡ false → IsStopped numbers
        (IsSet numbers (Always (numbers threshold)) (length slots.old)) 255
        (take len slots.old) (map numbers pixels.now) (take result.1 slots.new) }
    ensures unchanged { write ≡ false → indices.new ≡ indices.old }
    ensures room { length slots.new ≡ length slots.old }
    ensures many { length indices.new ≡ length indices.old }
    ensures within { result.1 ≤ length slots.new }
{
    let mut beside = TableCache::new();
    let mut used = len;
    for i in 0..pixels.len() {
        let (answer, now) = set_cached(slots, used, &mut beside, pixels[i], threshold);
        used = now;
        match answer {
            Some(index) if index <= 255 => {
                write_index(indices, i, index as u8, write);
            }
            _ => return (false, used),
        }
    }
    (true, used)
}

/// Writes an index, if it is to be written.
fn write_index(indices: &mut [u8], at: usize, index: u8, write: bool)
    requires { at < length indices.old }
    ensures written { write ≡ true → indices.new ≡ slice_set indices.old at index }
    ensures unwritten { write ≡ false → indices.new ≡ indices.old }
    ensures long { length indices.new ≡ length indices.old }
{
    if write {
        indices[at] = index;
    }
}
