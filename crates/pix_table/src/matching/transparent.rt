//! Pixels that are all transparent, for which no entry is needed.
ghost use Rattle.std.specs.Prelude.{◌≡◌, ℕ, List, length, map, true, false};
ghost use Rattle.pix_table.specs.packing.LookUp.{all_below};
ghost use Rattle.pix_table.specs.matching.Nearest.{alpha_of, AreMatched};

use crate::color::TablePixel;

/// Sets all indices to `transparent_index`, if the alpha of each pixel is below `alpha`. Returns
/// whether it is, and changes nothing where that of one isn't. Whatever the entries of a table are,
/// [`map_indexed`](crate::map_indexed) would set the indices so.
///
/// Condition: there are as many indices as pixels.
pub fn map_transparent<P: TablePixel>(
    pixels: &[P],
    alpha: u8,
    transparent_index: u8,
    indices: &mut [u8],
) -> bool
    requires many { length indices.old ≡ length pixels.now }
    ensures transparent { result ≡ all_below alpha (map alpha_of (map P.values pixels.now)) }
    ensures matched { result ≡ true → (entries : List (List ℕ))
        → AreMatched entries alpha transparent_index (map P.values pixels.now) indices.new }
    ensures unchanged { result ≡ false → indices.new ≡ indices.old }
{
    if !are_transparent(pixels, alpha) {
        return false;
    }
    indices.fill(transparent_index);
    true
}

/// Returns whether the alpha of each pixel is below `alpha`.
fn are_transparent<P: TablePixel>(pixels: &[P], alpha: u8) -> bool
    ensures { result ≡ all_below alpha (map alpha_of (map P.values pixels.now)) }
{
    for i in 0..pixels.len() {
        if pixels[i].alpha() >= alpha {
            return false;
        }
    }
    true
}
