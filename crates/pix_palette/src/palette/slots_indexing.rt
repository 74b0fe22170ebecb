//! Colors that are set in memory that a caller lends.
ghost use Rattle.std.specs.Prelude.{◌≡◌, ◌≤◌, length, take, Some, None, true, if◌then◌else◌};
ghost use Rattle.pix_table.specs.threshold.Setting.{Always, IsSet};
ghost use Rattle.pix_table.specs.threshold.Indexing.{AreIndexed};
ghost use Rattle.pix_palette.specs.Palette.{numbers};
ghost use Rattle.pix_palette.specs.Indexing.{AreGray, colors_of, values};

use super::index::IndexPixel;
use pix_chan::chan::{Ch8, Gamma};
use pix_el::el::Pixel;
use pix_el::rgb::SRgb8;
use pix_table::{TableCache, TableColor, set_cached};

/// Sets the color of each pixel among the first `len` of `slots`, and the pixel of `indices` at its
/// place to its index. It stops at the first pixel without an index. Returns whether all have one,
/// and the number of colors afterwards.
pub(super) fn index_in<S, P>(
    slots: &mut [SRgb8],
    len: usize,
    threshold: SRgb8,
    pixels: &[S],
    indices: &mut [P],
) -> (bool, usize)
where
    S: Pixel,
    P: IndexPixel,
    Ch8: From<S::Chan>,
    S::Gamma: Gamma<Ch8>,
    requires within { len ≤ length slots.old }
    requires long { length indices.old ≡ length pixels.now }
    ensures indexed { AreIndexed numbers
        (IsSet numbers (Always (numbers threshold)) (length slots.old)) P.GREATEST
        (take len slots.old)
        (colors_of S.format ⟦<S::Gamma as Gamma<Ch8>>⟧.mode S.numbers pixels.now)
        (if result.0 then Some (values P.numbers indices.new) else None)
        (take result.1 slots.new) }
    ensures gray { result.0 ≡ true → AreGray P.numbers indices.new }
    ensures room { length slots.new ≡ length slots.old }
    ensures before { take len slots.new ≡ take len slots.old }
    ensures within { result.1 ≤ length slots.new }
    ensures more { len ≤ result.1 }
{
    let near = threshold.color();
    let mut beside = TableCache::new();
    let mut used = len;
    for i in 0..pixels.len() {
        let clr = pixels[i].convert::<SRgb8>();
        let (answer, now) = set_cached(slots, used, &mut beside, clr, near);
        used = now;
        match answer {
            Some(index) if index <= P::GREATEST => indices[i] = P::of_index(index),
            _ => return (false, used),
        }
    }
    (true, used)
}
