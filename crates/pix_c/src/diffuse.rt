//! Images of indices by error diffusion.
ghost use Rattle.std.specs.Prelude.{◌≡◌, ◌≢◌, ℕ, List, length, map, nat_le};
ghost use Rattle.pix_table.specs.matching.Nearest.{numbers};
ghost use Rattle.pix_table.specs.SeenPixels.{rgba_numbers};
ghost use Rattle.pix_table.specs.diffuse.Diffusion.{AreDiffusedBy, AreShownAround};
ghost use Rattle.pix_c.specs.Table.{are_rows, diffuse_by_status, diffuse_by_alpha_status, scan_of};

use crate::status::{BAD_LENGTH, DONE};
use crate::table::{BAD_TABLE, is_table};
use pix_table::{
    Color, Diffusion, RgbaColor, ScanOrder, TablePixel, diffuse_indexed, map_transparent,
};

/// A strength of error diffusion is above 16.
pub const BAD_STRENGTH: u32 = 15;

/// The strength that hands on whole errors.
const WHOLE: u8 = 16;

/// Writes for each pixel, in rows of `width`, its index by error diffusion. The index is that of
/// the entry that is nearest to the pixel plus its share of the errors before it. An error is what
/// was wanted less the entry that was found. The pixel on the right gets 7 sixteenths of it, the
/// one below on the left 3, the one below 5, and the one below on the right 1. It is held to a
/// bound either way in each channel, so no color that is looked up is further from its pixel. The
/// bound is half of the widest step between neighboring levels of the table, and at least 24.
///
/// `strength` sixteenths of each error are handed on. Where `serpentine` is not 0, every second row
/// goes from right to left, and the shares are mirrored in it.
///
/// Returns 0 when all indices are written. Else nothing is written. The status is then 11 where
/// there is no entry or more than 256, and otherwise 15, where the strength is above 16. Otherwise
/// it is 7, which has four causes: a row has no pixel, `work` has not just four rows of colors,
/// there are not as many indices as pixels, or rows turn and the pixels are not whole rows.
#[unsafe(no_mangle)]
pub extern "C" fn pix_raw_diffuse_indexed_by(
    entries: &[Color],
    pixels: &[Color],
    width: usize,
    strength: u8,
    serpentine: u8,
    work: &mut [Color],
    indices: &mut [u8],
) -> u32
    ensures status { result ≡ diffuse_by_status (length entries.now) (length pixels.now) width
        strength (scan_of serpentine) (length work.old) (length indices.old) }
    ensures refused { result ≢ 0 → (work.new ≡ work.old) × (indices.new ≡ indices.old) }
    ensures done { result ≡ 0 → AreDiffusedBy (scan_of serpentine) strength
        (map numbers entries.now) 0 0 width (map numbers pixels.now) indices.new }
    ensures near { result ≡ 0 → AreShownAround (map numbers entries.now) 0 0
        (map numbers pixels.now) indices.new }
{
    let how = Diffusion {
        width,
        alpha: 0,
        transparent_index: 0,
        strength,
        scan: scan_of(serpentine),
    };
    diffuse(entries, pixels, how, work, indices)
}

/// Writes for each pixel, which has an alpha, in rows of `width`, its index by error diffusion. A
/// pixel whose alpha is below `alpha` gets the index `transparent_index`, and hands on no error.
/// The index of any other is that of the entry that is nearest to its color plus its share of the
/// errors before it. Errors are held to a bound and handed on as by [`pix_raw_diffuse_indexed_by`],
/// in the part of `strength` sixteenths and in the order that `serpentine` says.
///
/// Returns 0 when all indices are written. Else nothing is written. With an entry the status is
/// then 11 where there are more than 256. Otherwise it is 15 where the strength is above 16.
/// Otherwise it is 7, for the causes that it has there. Without an entry 11 comes last: it is the
/// status where the alpha of a pixel isn't below `alpha`. If all are below it, such a table serves
/// too.
#[unsafe(no_mangle)]
pub extern "C" fn pix_raw_diffuse_indexed_by_alpha(
    entries: &[Color],
    pixels: &[RgbaColor],
    width: usize,
    alpha: u8,
    transparent_index: u8,
    strength: u8,
    serpentine: u8,
    work: &mut [Color],
    indices: &mut [u8],
) -> u32
    ensures status { result ≡ diffuse_by_alpha_status (length entries.now) alpha
        (map rgba_numbers pixels.now) width strength (scan_of serpentine) (length work.old)
        (length indices.old) }
    ensures refused { result ≢ 0 → (work.new ≡ work.old) × (indices.new ≡ indices.old) }
    ensures done { result ≡ 0 → AreDiffusedBy (scan_of serpentine) strength
        (map numbers entries.now) alpha transparent_index width (map rgba_numbers pixels.now)
        indices.new }
    ensures near { result ≡ 0 → AreShownAround (map numbers entries.now) alpha transparent_index
        (map rgba_numbers pixels.now) indices.new }
{
    let how = Diffusion {
        width,
        alpha,
        transparent_index,
        strength,
        scan: scan_of(serpentine),
    };
    if entries.is_empty() {
        return diffuse_transparent(pixels, how, work.len(), indices);
    }
    diffuse(entries, pixels, how, work, indices)
}

/// Returns whether errors may be handed on with such a strength, in sixteenths.
pub(crate) fn is_strength(strength: u8) -> bool
    ensures { result ≡ nat_le strength 16 }
{
    strength <= WHOLE
}

/// Returns the scan order of a flag: serpentine where it is not 0.
pub(crate) fn scan_of(serpentine: u8) -> ScanOrder
    ensures { result ≡ scan_of serpentine }
{
    if serpentine == 0 {
        ScanOrder::LeftToRight
    } else {
        ScanOrder::Serpentine
    }
}

/// Diffuses errors of pixels of any kind.
fn diffuse<P: TablePixel>(
    entries: &[Color],
    pixels: &[P],
    how: Diffusion,
    work: &mut [Color],
    indices: &mut [u8],
) -> u32
    ensures status { result ≡ diffuse_by_status (length entries.now) (length pixels.now) how.width
        how.strength how.scan (length work.old) (length indices.old) }
    ensures refused { result ≢ 0 → (work.new ≡ work.old) × (indices.new ≡ indices.old) }
    ensures done { result ≡ 0 → AreDiffusedBy how.scan how.strength (map numbers entries.now)
        how.alpha how.transparent_index how.width (map P.values pixels.now) indices.new }
    ensures near { result ≡ 0 → AreShownAround (map numbers entries.now) how.alpha
        how.transparent_index (map P.values pixels.now) indices.new }
{
    if !is_table(entries.len()) {
        return BAD_TABLE;
    }
    if !is_strength(how.strength) {
        return BAD_STRENGTH;
    }
    if !are_rows(pixels.len(), how.width, how.scan, work.len(), indices.len()) {
        return BAD_LENGTH;
    }
    diffuse_indexed(entries, pixels, how, work, indices);
    DONE
}

/// Sets the indices of pixels that need no entry, since the alpha of each is below `how.alpha`.
/// `work` is how many colors of work memory there are.
fn diffuse_transparent(pixels: &[RgbaColor], how: Diffusion, work: usize, indices: &mut [u8]) -> u32
    ensures status { result ≡ diffuse_by_alpha_status 0 how.alpha (map rgba_numbers pixels.now)
        how.width how.strength how.scan work (length indices.old) }
    ensures refused { result ≢ 0 → indices.new ≡ indices.old }
    ensures done { result ≡ 0 → (entries : List (List ℕ)) → length entries ≡ 0
        → AreDiffusedBy how.scan how.strength entries how.alpha how.transparent_index how.width
        (map rgba_numbers pixels.now) indices.new }
    ensures near { result ≡ 0 → (entries : List (List ℕ)) → AreShownAround entries how.alpha
        how.transparent_index (map rgba_numbers pixels.now) indices.new }
{
    if !is_strength(how.strength) {
        return BAD_STRENGTH;
    }
    if !are_rows(pixels.len(), how.width, how.scan, work, indices.len()) {
        return BAD_LENGTH;
    }
    if map_transparent(pixels, how.alpha, how.transparent_index, indices) {
        DONE
    } else {
        BAD_TABLE
    }
}

/// Returns whether pixels are rows that can be scanned in an order, there are as many indices, and
/// there are four rows of work memory.
pub(crate) fn are_rows(
    pixels: usize,
    width: usize,
    scan: ScanOrder,
    work: usize,
    indices: usize,
) -> bool
    ensures { result ≡ are_rows pixels width scan work indices }
{
    if width == 0 || work % 4 != 0 || work / 4 != width || indices != pixels {
        return false;
    }
    match scan {
        ScanOrder::LeftToRight => true,
        ScanOrder::Serpentine => pixels % width == 0,
    }
}
