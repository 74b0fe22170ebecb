//! Tables of colors, for images of indices.
ghost use Rattle.std.specs.Prelude.{◌≡◌, ◌≢◌, ℕ, ◌<◌, ◌≤◌, List, length, map, take, Some};
ghost use Rattle.std.specs.Prelude.{slice_index};
ghost use Rattle.pix_table.specs.matching.Nearest.{numbers, IsNearest, AreMatched};
ghost use Rattle.pix_table.specs.packing.LookUp.{AreLookedUp, AreCounted};
ghost use Rattle.pix_table.specs.SeenPixels.{rgba_numbers};
ghost use Rattle.pix_table.specs.packing.Packing.{ArePacked, AreUnpacked};
ghost use Rattle.pix_table.specs.threshold.Setting.{Always, IsSet};
ghost use Rattle.pix_table.specs.threshold.Indexing.{AreSet, IsStopped};
ghost use Rattle.pix_table.specs.declared.color.Color.{Color};
ghost use Rattle.pix_table.specs.declared.packing.row.IndexDepth.{IndexDepth};
ghost use Rattle.pix_c.specs.Table.{nearest_status, map_indexed_status, look_up_status};
ghost use Rattle.pix_c.specs.Table.{map_indexed_alpha_status};
ghost use Rattle.pix_c.specs.Table.{index_status, is_table};
ghost use Rattle.pix_c.specs.Table.{count_status, pack_status, unpack_status, depth_of, row_status};

use crate::status::{BAD_LENGTH, DONE};
use pix_table::{
    Color, IndexDepth, RgbaColor, RowFault, TablePixel, count_indices, index_pixels, look_up,
    map_indexed, map_transparent, nearest, pack_row, unpack_row,
};

/// A table has no entry, or more than 256.
pub const BAD_TABLE: u32 = 11;

/// An index is past the end, or takes more bits than it may.
pub const BAD_INDEX: u32 = 12;

/// Indices take 1, 2, 4 or 8 bits.
pub const BAD_DEPTH: u32 = 13;

/// A table has no room for a color.
pub const FULL_TABLE: u32 = 14;

/// Returns whether a table may have so many entries: at least one, and at most 256.
pub(crate) fn is_table(len: usize) -> bool
    ensures { result ≡ is_table len }
{
    len != 0 && len <= 256
}

/// Writes the index of the entry that is nearest to a color, the first of equals. The distance is
/// the sum of the squares of the differences in red, green and blue.
///
/// Returns 0, or 11 where there is no entry or more than 256. With 11 nothing is written.
#[unsafe(no_mangle)]
pub extern "C" fn pix_raw_nearest(entries: &[Color], clr: &Color, index: &mut u8) -> u32
    ensures status { result ≡ nearest_status (length entries.now) }
    ensures refused { result ≢ 0 → index.new ≡ index.old }
    ensures done { result ≡ 0
        → IsNearest (map numbers entries.now) (numbers clr.now) index.new }
{
    if !is_table(entries.len()) {
        return BAD_TABLE;
    }
    match nearest(entries, *clr) {
        Some(at) => {
            *index = at as u8;
            DONE
        }
        None => BAD_TABLE,
    }
}

/// Writes for each pixel the index of the entry that is nearest to it, the first of equals. The
/// distance is the sum of the squares of the differences in red, green and blue.
///
/// Returns 0 when they are written. Else nothing is written. The status is then 11 where there is
/// no entry or more than 256, and otherwise 7, where there are not as many indices as pixels.
#[unsafe(no_mangle)]
pub extern "C" fn pix_raw_map_indexed(
    entries: &[Color],
    pixels: &[Color],
    indices: &mut [u8],
) -> u32
    ensures status { result ≡
        map_indexed_status (length entries.now) (length pixels.now) (length indices.old) }
    ensures refused { result ≢ 0 → indices.new ≡ indices.old }
    ensures done { result ≡ 0 → AreMatched (map numbers entries.now) 0 0
        (map numbers pixels.now) indices.new }
{
    match_all(entries, pixels, 0, 0, indices)
}

/// Writes for each pixel, which has an alpha, the index of the entry that is nearest to its color,
/// the first of equals. A pixel whose alpha is below `alpha` gets the index `transparent_index`.
/// The alpha of any other pixel doesn't count.
///
/// Returns 0 when they are written. Else nothing is written. With an entry the status is then 11
/// where there are more than 256, and otherwise 7, where there are not as many indices as pixels.
/// Without an entry it is 7 for that cause, and otherwise 11, where the alpha of a pixel isn't
/// below `alpha`. If all are below it, such a table serves too.
#[unsafe(no_mangle)]
pub extern "C" fn pix_raw_map_indexed_alpha(
    entries: &[Color],
    pixels: &[RgbaColor],
    alpha: u8,
    transparent_index: u8,
    indices: &mut [u8],
) -> u32
    ensures status { result ≡ map_indexed_alpha_status (length entries.now) alpha
        (map rgba_numbers pixels.now) (length indices.old) }
    ensures refused { result ≢ 0 → indices.new ≡ indices.old }
    ensures done { result ≡ 0 → AreMatched (map numbers entries.now) alpha transparent_index
        (map rgba_numbers pixels.now) indices.new }
{
    if !entries.is_empty() {
        return match_all(entries, pixels, alpha, transparent_index, indices);
    }
    if indices.len() != pixels.len() {
        return BAD_LENGTH;
    }
    if map_transparent(pixels, alpha, transparent_index, indices) {
        DONE
    } else {
        BAD_TABLE
    }
}

/// Matches pixels of any kind.
fn match_all<P: TablePixel>(
    entries: &[Color],
    pixels: &[P],
    alpha: u8,
    transparent_index: u8,
    indices: &mut [u8],
) -> u32
    ensures status { result ≡
        map_indexed_status (length entries.now) (length pixels.now) (length indices.old) }
    ensures refused { result ≢ 0 → indices.new ≡ indices.old }
    ensures done { result ≡ 0 → AreMatched (map numbers entries.now) alpha transparent_index
        (map P.values pixels.now) indices.new }
{
    if !is_table(entries.len()) {
        return BAD_TABLE;
    }
    if indices.len() != pixels.len() {
        return BAD_LENGTH;
    }
    map_indexed(entries, pixels, alpha, transparent_index, indices);
    DONE
}

/// Sets the color of each pixel in a table, one after the other, and writes its index. The index is
/// that of its match among the entries that are used, if the match is within the threshold in red,
/// green and blue. Else the next entry is set to the color, and the index is that of the next
/// entry. The match is the last of the candidates. Entry 0 is the first one. Each later entry is
/// one if it differs from the color by no more than the candidate before it in each of red, green
/// and blue, and by less in one. `used` is how many entries are used, before and afterwards.
///
/// Returns 0 when all are written. Else nothing is written. The status is then 11 where there is
/// room for no entry or for more than 256. Otherwise it is 7 where more entries are used than there
/// are, or where there are not as many indices as pixels. Otherwise it is 14, where there is no
/// room for a color.
#[unsafe(no_mangle)]
pub extern "C" fn pix_raw_index_pixels(
    entries: &mut [Color],
    used: &mut usize,
    threshold: &Color,
    pixels: &[Color],
    indices: &mut [u8],
) -> u32
    ensures status { (status : ℕ) → status ≡ index_status (length entries.old) used.old
        (length pixels.now) (length indices.old) → status ≢ 0 → result ≡ status }
    ensures full { index_status (length entries.old) used.old (length pixels.now)
        (length indices.old) ≡ 0 → result ≢ 0 → (result ≡ 14) × (rest : List Color)
        × IsStopped numbers
        (IsSet numbers (Always (numbers threshold.now)) (length entries.old)) 255
        (take used.old entries.old) (map numbers pixels.now) rest }
    ensures refused { result ≢ 0 → (entries.new ≡ entries.old) × (used.new ≡ used.old)
        × (indices.new ≡ indices.old) }
    ensures done { result ≡ 0 → (used.new ≤ length entries.new) × AreSet numbers
        (IsSet numbers (Always (numbers threshold.now)) (length entries.old)) 255
        (take used.old entries.old) (map numbers pixels.now) indices.new
        (take used.new entries.new) }
{
    if !is_table(entries.len()) {
        return BAD_TABLE;
    }
    if *used > entries.len() || indices.len() != pixels.len() {
        return BAD_LENGTH;
    }
    match index_pixels(entries, *used, *threshold, pixels, indices) {
        Some(now) => {
            *used = now;
            DONE
        }
        None => FULL_TABLE,
    }
}

/// Writes the entry of each index.
///
/// Returns 0 when they are written. Else nothing is written. The status is then 7 where there are
/// not as many pixels as indices, and otherwise 12, where an index is past the entries.
#[unsafe(no_mangle)]
pub extern "C" fn pix_raw_look_up(entries: &[Color], indices: &[u8], pixels: &mut [Color]) -> u32
    ensures status { result ≡
        look_up_status (length entries.now) indices.now (length pixels.old) }
    ensures refused { result ≢ 0 → pixels.new ≡ pixels.old }
    ensures done { result ≡ 0 → AreLookedUp entries.now indices.now pixels.new }
{
    if pixels.len() != indices.len() {
        return BAD_LENGTH;
    }
    if look_up(entries, indices, pixels) {
        DONE
    } else {
        BAD_INDEX
    }
}

/// Writes, for each number below the length of `counts`, how often it is in the indices.
///
/// Returns 0 when they are written, or 12 where an index has no count. With 12 nothing is written.
#[unsafe(no_mangle)]
pub extern "C" fn pix_raw_count_indices(indices: &[u8], counts: &mut [usize]) -> u32
    ensures status { result ≡ count_status (length counts.old) indices.now }
    ensures refused { result ≢ 0 → counts.new ≡ counts.old }
    ensures done { result ≡ 0 → AreCounted (length counts.old) indices.now counts.new }
{
    if count_indices(indices, counts) {
        DONE
    } else {
        BAD_INDEX
    }
}

/// Packs a row of indices of `bits` bits each into bytes, in order. Within a byte the first index
/// is in the most significant bits. The bits that are left over in the last byte are 0.
///
/// Returns 0 when it is packed. Else nothing is written. The status is then 13 where `bits` is
/// neither 1, 2, 4 nor 8. Otherwise it is 7 where there are not just as many bytes as the row
/// takes. Otherwise it is 12, where an index takes more bits.
#[unsafe(no_mangle)]
pub extern "C" fn pix_raw_pack_row(bits: u32, indices: &[u8], bytes: &mut [u8]) -> u32
    ensures status { result ≡ pack_status (depth_of bits) indices.now (length bytes.old) }
    ensures refused { result ≢ 0 → bytes.new ≡ bytes.old }
    ensures done { (depth : IndexDepth) → depth_of bits ≡ Some depth → result ≡ 0
        → ArePacked depth indices.now bytes.new }
{
    let Some(depth) = depth_of(bits) else {
        return BAD_DEPTH;
    };
    match pack_row(depth, indices, bytes) {
        Ok(()) => DONE,
        Err(fault) => status_of(fault),
    }
}

/// Unpacks a row of indices of `bits` bits each from its bytes.
///
/// Returns 0 when it is unpacked. Else nothing is written. The status is then 13 where `bits` is
/// neither 1, 2, 4 nor 8, and otherwise 7, where there are not just as many bytes as the row takes.
#[unsafe(no_mangle)]
pub extern "C" fn pix_raw_unpack_row(bits: u32, bytes: &[u8], indices: &mut [u8]) -> u32
    ensures status { result ≡
        unpack_status (depth_of bits) (length bytes.now) (length indices.old) }
    ensures refused { result ≢ 0 → indices.new ≡ indices.old }
    ensures done { (depth : IndexDepth) → depth_of bits ≡ Some depth → result ≡ 0
        → AreUnpacked depth bytes.now indices.new }
{
    let Some(depth) = depth_of(bits) else {
        return BAD_DEPTH;
    };
    match unpack_row(depth, bytes, indices) {
        Ok(()) => DONE,
        Err(fault) => status_of(fault),
    }
}

/// Returns the depth of a number of bits.
fn depth_of(bits: u32) -> Option<IndexDepth>
    ensures { result ≡ depth_of bits }
{
    match bits {
        1 => Some(IndexDepth::One),
        2 => Some(IndexDepth::Two),
        4 => Some(IndexDepth::Four),
        8 => Some(IndexDepth::Eight),
        _ => None,
    }
}

/// Returns the status of a fault.
fn status_of(fault: RowFault) -> u32
    ensures { result ≡ row_status (Some fault) }
{
    match fault {
        RowFault::Length => BAD_LENGTH,
        RowFault::Index => BAD_INDEX,
    }
}
