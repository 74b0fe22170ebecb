//! Tables of colors with an alpha, as they are seen over black and over white.
ghost use Rattle.std.specs.Prelude.{◌≡◌, ◌≢◌, ◌≤◌, length, map, take};
ghost use Rattle.pix_table.specs.packing.LookUp.{AreLookedUp};
ghost use Rattle.pix_table.specs.SeenPixels.{AreSeenMatched, rgba_numbers};
ghost use Rattle.pix_table.specs.quantization.SeenTables.{IsQuantizedRgba};
ghost use Rattle.pix_table.specs.diffuse.SeenDiffusion.{AreSeenAround, AreSeenDiffused};
ghost use Rattle.pix_c.specs.Table.{diffuse_by_status, look_up_status, quantize_status};
ghost use Rattle.pix_c.specs.Table.{map_indexed_status};
ghost use Rattle.pix_c.specs.Table.{scan_of};

use crate::diffuse::{BAD_STRENGTH, are_rows, is_strength, scan_of};
use crate::status::{BAD_LENGTH, DONE};
use crate::table::{BAD_INDEX, BAD_TABLE, is_table};
use pix_table::{
    RgbaColor, RgbaDiffusion, SeenColor, diffuse_indexed_rgba, look_up, map_indexed_rgba,
    quantize_rgba,
};

/// Writes a table of the colors of the pixels, with their alphas, into the first of the entries,
/// and into `made` how many it has. How far two pixels are apart is the sum of the squares of their
/// differences over black and over white, in red, green and blue.
///
/// With no more distinct colors than entries, as they are seen, they are the table, in order of
/// first place. Else it is made by the cut by squared error, and refined by `rounds` rounds. In a
/// round each color goes to its nearest entry, the first of equals. Each entry goes to the mean of
/// its colors, rounded, where that makes their squared error no greater. Else it stays. After all
/// rounds each entry becomes opaque whose alpha is at least 250 and more than half of whose colors
/// are opaque. The other entries may hold anything.
///
/// Returns 0 when it is made. Else nothing is written. The status is then 11 where there is no
/// entry or more than 256, and otherwise 7, where `work` has fewer colors than there are pixels.
#[unsafe(no_mangle)]
pub extern "C" fn pix_raw_quantize_rgba(
    pixels: &[RgbaColor],
    rounds: u8,
    work: &mut [SeenColor],
    entries: &mut [RgbaColor],
    made: &mut usize,
) -> u32
    ensures status { result ≡
        quantize_status (length entries.old) (length pixels.now) (length work.old) }
    ensures refused { result ≢ 0 → (work.new ≡ work.old) × (entries.new ≡ entries.old)
        × (made.new ≡ made.old) }
    ensures done { result ≡ 0 → (made.new ≤ length entries.new)
        × IsQuantizedRgba rounds (length entries.old) (map rgba_numbers pixels.now)
        (map rgba_numbers (take made.new entries.new)) }
{
    if !is_table(entries.len()) {
        return BAD_TABLE;
    }
    match quantize_rgba(pixels, rounds, work, entries) {
        Some(count) => {
            *made = count;
            DONE
        }
        None => BAD_LENGTH,
    }
}

/// Writes for each pixel the index of the entry that is seen nearest to it, the first of equals.
///
/// Returns 0 when they are written. Else nothing is written. The status is then 11 where there is
/// no entry or more than 256, and otherwise 7, where there are not as many indices as pixels.
#[unsafe(no_mangle)]
pub extern "C" fn pix_raw_map_indexed_rgba(
    entries: &[RgbaColor],
    pixels: &[RgbaColor],
    indices: &mut [u8],
) -> u32
    ensures status { result ≡
        map_indexed_status (length entries.now) (length pixels.now) (length indices.old) }
    ensures refused { result ≢ 0 → indices.new ≡ indices.old }
    ensures done { result ≡ 0 → AreSeenMatched (map rgba_numbers entries.now)
        (map rgba_numbers pixels.now) indices.new }
{
    if !is_table(entries.len()) {
        return BAD_TABLE;
    }
    if indices.len() != pixels.len() {
        return BAD_LENGTH;
    }
    map_indexed_rgba(entries, pixels, indices);
    DONE
}

/// Writes the entry of each index.
///
/// Returns 0 when they are written. Else nothing is written. The status is then 7 where there are
/// not as many pixels as indices, and otherwise 12, where an index is past the entries.
#[unsafe(no_mangle)]
pub extern "C" fn pix_raw_look_up_rgba(
    entries: &[RgbaColor],
    indices: &[u8],
    pixels: &mut [RgbaColor],
) -> u32
    ensures status { result ≡
        look_up_status (length entries.now) indices.now (length pixels.old) }
    ensures refused { result ≢ 0 → pixels.new ≡ pixels.old }
    ensures done { result ≡ 0 → AreLookedUp entries.now indices.now pixels.new }
{
    if pixels.len() != indices.len() {
        return BAD_LENGTH;
    }
    if look_up(entries, indices, pixels) {
        DONE
    } else {
        BAD_INDEX
    }
}

/// Writes for each pixel, in rows of `width`, its index by error diffusion. The index is that of
/// the entry that is seen nearest to the pixel plus its share of the errors before it. Errors are
/// those of colors times their alphas, and of the alphas, and so are the levels of the bound. A
/// pixel of the alpha 0 has no share and hands on no error. The pixel on the right gets 7
/// sixteenths of an error, the one below on the left 3, the one below 5, and the one below on the
/// right 1.
///
/// `strength` sixteenths of each error are handed on. Where `serpentine` is not 0, every second row
/// goes from right to left, and the shares are mirrored in it.
///
/// Returns 0 when all indices are written. Else nothing is written. The status is then 11 where
/// there is no entry or more than 256, and otherwise 15, where the strength is above 16. Otherwise
/// it is 7, which has four causes: a row has no pixel, `work` has not just four rows of colors,
/// there are not as many indices as pixels, or rows turn and the pixels are not whole rows.
#[unsafe(no_mangle)]
pub extern "C" fn pix_raw_diffuse_indexed_rgba(
    entries: &[RgbaColor],
    pixels: &[RgbaColor],
    width: usize,
    strength: u8,
    serpentine: u8,
    work: &mut [SeenColor],
    indices: &mut [u8],
) -> u32
    ensures status { result ≡ diffuse_by_status (length entries.now) (length pixels.now) width
        strength (scan_of serpentine) (length work.old) (length indices.old) }
    ensures refused { result ≢ 0 → (work.new ≡ work.old) × (indices.new ≡ indices.old) }
    ensures done { result ≡ 0 → AreSeenDiffused (scan_of serpentine) strength width
        (map rgba_numbers entries.now) (map rgba_numbers pixels.now) indices.new }
    ensures near { result ≡ 0 → AreSeenAround (map rgba_numbers entries.now)
        (map rgba_numbers pixels.now) indices.new }
{
    if !is_table(entries.len()) {
        return BAD_TABLE;
    }
    if !is_strength(strength) {
        return BAD_STRENGTH;
    }
    let scan = scan_of(serpentine);
    if !are_rows(pixels.len(), width, scan, work.len(), indices.len()) {
        return BAD_LENGTH;
    }
    let how = RgbaDiffusion {
        width,
        strength,
        scan,
    };
    diffuse_indexed_rgba(entries, pixels, how, work, indices);
    DONE
}
