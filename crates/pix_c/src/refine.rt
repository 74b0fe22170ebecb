//! Tables of colors that are made of pixels.
ghost use Rattle.std.specs.Prelude.{◌≡◌, ◌≢◌, ◌≤◌, length, map, take};
ghost use Rattle.pix_table.specs.matching.Nearest.{numbers};
ghost use Rattle.pix_table.specs.quantization.Quantization.{shown, IsQuantized};
ghost use Rattle.pix_table.specs.quantization.Refine.{IsQuantizedRefined};
ghost use Rattle.pix_table.specs.SeenPixels.{rgba_numbers};
ghost use Rattle.pix_c.specs.Table.{quantize_status};

use crate::status::{BAD_LENGTH, DONE};
use crate::table::{BAD_TABLE, is_table};
use pix_table::{Color, RgbaColor, TablePixel, quantize_refined};

/// Writes a table of the colors of the pixels into the first of the entries, and into `made` how
/// many it has. With no more distinct colors than entries they are the table, in order of first
/// place. Else, of grays alone, it has the least squared error of all tables of so many entries.
/// Else it is made by the cut by squared error, and `rounds` rounds then refine it. In a round each
/// color goes to its nearest entry, the first of equals. Each entry goes to the mean of its colors,
/// rounded, and stays where it has none. No round makes the sum of the squared errors greater. The
/// other entries may hold anything.
///
/// Returns 0 when it is made. Else nothing is written. The status is then 11 where there is no
/// entry or more than 256, and otherwise 7, where `work` has fewer colors than there are pixels.
#[unsafe(no_mangle)]
pub extern "C" fn pix_raw_quantize_refined(
    pixels: &[Color],
    rounds: u8,
    work: &mut [Color],
    entries: &mut [Color],
    made: &mut usize,
) -> u32
    ensures status { result ≡
        quantize_status (length entries.old) (length pixels.now) (length work.old) }
    ensures refused { result ≢ 0 → (work.new ≡ work.old) × (entries.new ≡ entries.old)
        × (made.new ≡ made.old) }
    ensures done { result ≡ 0 → (made.new ≤ length entries.new)
        × IsQuantizedRefined rounds (length entries.old) (shown 0 (map numbers pixels.now))
        (map numbers (take made.new entries.new)) }
    ensures cut { rounds ≡ 0 → result ≡ 0 → IsQuantized (length entries.old)
        (shown 0 (map numbers pixels.now)) (map numbers (take made.new entries.new)) }
{
    refine_table(pixels, 0, rounds, work, entries, made)
}

/// Writes a table of the colors of the pixels, which have an alpha, into the first of the entries,
/// and into `made` how many it has. Pixels whose alpha is below `alpha` do not count. With no more
/// distinct colors than entries they are the table, in order of first place. Else it is made by the
/// cut by squared error, and refined by `rounds` rounds, as by [`pix_raw_quantize_refined`].
///
/// Returns 0 when it is made. Else nothing is written. The status is then 11 where there is no
/// entry or more than 256, and otherwise 7, where `work` has fewer colors than there are pixels.
#[unsafe(no_mangle)]
pub extern "C" fn pix_raw_quantize_refined_alpha(
    pixels: &[RgbaColor],
    alpha: u8,
    rounds: u8,
    work: &mut [Color],
    entries: &mut [Color],
    made: &mut usize,
) -> u32
    ensures status { result ≡
        quantize_status (length entries.old) (length pixels.now) (length work.old) }
    ensures refused { result ≢ 0 → (work.new ≡ work.old) × (entries.new ≡ entries.old)
        × (made.new ≡ made.old) }
    ensures done { result ≡ 0 → (made.new ≤ length entries.new)
        × IsQuantizedRefined rounds (length entries.old) (shown alpha (map rgba_numbers pixels.now))
        (map numbers (take made.new entries.new)) }
    ensures cut { rounds ≡ 0 → result ≡ 0 → IsQuantized (length entries.old)
        (shown alpha (map rgba_numbers pixels.now)) (map numbers (take made.new entries.new)) }
{
    refine_table(pixels, alpha, rounds, work, entries, made)
}

/// Makes a refined table of pixels of any kind.
fn refine_table<P: TablePixel>(
    pixels: &[P],
    alpha: u8,
    rounds: u8,
    work: &mut [Color],
    entries: &mut [Color],
    made: &mut usize,
) -> u32
    ensures status { result ≡
        quantize_status (length entries.old) (length pixels.now) (length work.old) }
    ensures refused { result ≢ 0 → (work.new ≡ work.old) × (entries.new ≡ entries.old)
        × (made.new ≡ made.old) }
    ensures done { result ≡ 0 → (made.new ≤ length entries.new)
        × IsQuantizedRefined rounds (length entries.old) (shown alpha (map P.values pixels.now))
        (map numbers (take made.new entries.new)) }
    ensures cut { rounds ≡ 0 → result ≡ 0 → IsQuantized (length entries.old)
        (shown alpha (map P.values pixels.now)) (map numbers (take made.new entries.new)) }
{
    if !is_table(entries.len()) {
        return BAD_TABLE;
    }
    match quantize_refined(pixels, alpha, rounds, work, entries) {
        Some(count) => {
            *made = count;
            DONE
        }
        None => BAD_LENGTH,
    }
}
