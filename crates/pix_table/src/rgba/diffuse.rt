//! Error diffusion of colors with an alpha.
ghost use Rattle.std.specs.Prelude.{◌≡◌, ℕ, ◌*◌, ◌%◌, ◌<◌, ◌≤◌, List, length, map, min, refl};
ghost use Rattle.pix_table.specs.SeenPixels.{AreSeen, seen, seen_distance, seen_numbers};
ghost use Rattle.pix_table.specs.diffuse.SeenDiffusion.{AreSeenAround, AreSeenDiffused, seen_of_channels};
ghost use Rattle.pix_table.specs.diffuse.NearLaws.{seen_near};
ghost use Rattle.pix_table.specs.matching.SeenLanes.{AreSeenLanes};
ghost use Rattle.pix_table.specs.declared.diffuse.ScanOrder.TheVariants.{Serpentine};

use crate::color::TablePixel;
use crate::diffuse::diffused_color::{
    ColorError, DiffusedColor, FindsNearest, NeighborErrors, ShownAs, corrected, handed, held,
};
use crate::diffuse::{Diffusion, ScanOrder, diffuse_all};
use crate::rgba::color::{SeenColor, seen_of};
use crate::rgba::lanes::SeenLanes;
use crate::rgba::matched::seen_entries;

/// How the pixels of a picture are indexed by error diffusion to a table of colors with an alpha.
#[derive(Clone, Copy, Debug, PartialEq, Eq)]
pub struct RgbaDiffusion {
    /// How many pixels a row has: at least one.
    pub width: usize,
    /// How many sixteenths of the errors are handed on: at most 16.
    pub strength: u8,
    /// In which order the pixels of a row are taken.
    pub scan: ScanOrder,
}

/// Sets the index of each pixel by error diffusion to a table of colors with an alpha. The index is
/// that of the entry that is seen nearest to the pixel plus its share of the errors of the pixels
/// before it. The next pixel of the row gets 7 sixteenths of an error, the one below the pixel
/// before it 3, the one below it 5, and the one below the next 1. Each gets `how.strength`
/// sixteenths of its share.
///
/// Errors are handed on in red, green and blue over black, and in the alpha, each held to the bound
/// of what the entries are seen as. What is wanted at a pixel is above its alpha in no channel. A
/// pixel with the alpha 0 takes no share: it gets the entry that is seen nearest to it, and hands
/// on no error.
///
/// Condition: there is at least one entry and at most 256, a row has a pixel, at most 16 sixteenths
/// are handed on, there are as many indices as pixels, and `work` has four rows of colors. Where
/// the scan order is serpentine, the rows are whole.
pub fn diffuse_indexed_rgba<E: TablePixel, P: TablePixel>(
    entries: &[E],
    pixels: &[P],
    how: RgbaDiffusion,
    work: &mut [SeenColor],
    indices: &mut [u8],
)
    requires some { 0 < length entries.now }
    requires few_entries { length entries.now ≤ 256 }
    requires row { 0 < how.width }
    requires strength { how.strength ≤ 16 }
    requires whole { how.scan ≡ Serpentine → length pixels.now % how.width ≡ 0 }
    requires work { length work.old ≡ 4 * how.width }
    requires many { length indices.old ≡ length pixels.now }
    ensures diffused { AreSeenDiffused how.scan how.strength how.width (map E.values entries.now)
        (map P.values pixels.now) indices.new }
    ensures near { AreSeenAround (map E.values entries.now) (map P.values pixels.now)
        indices.new }
{
    let colors = seen_entries(entries);
    let mut lanes = SeenLanes::of(&colors[..entries.len()]);
    let (wanted, rest) = work.split_at_mut(how.width);
    let (found, _) = rest.split_at_mut(how.width);
    let how = Diffusion {
        width: how.width,
        alpha: 1,
        transparent_index: lanes.nearest(SeenColor::none()),
        strength: how.strength,
        scan: how.scan,
    };
    diffuse_all(
        &mut lanes,
        &colors[..entries.len()],
        pixels,
        how,
        wanted,
        found,
        indices,
    );
}

impl FindsNearest<SeenColor> for SeenLanes {
    ghost among = { λ lanes entries. AreSeenLanes entries lanes };

    #[inline(always)]
    fn find(&mut self, clr: SeenColor) -> u8 {
        self.nearest(clr)
    }
}

impl ShownAs<SeenColor> for SeenColor {
    ghost shown = { seen_numbers };

    #[inline(always)]
    fn shown(self) -> SeenColor {
        self
    }
}

impl DiffusedColor for SeenColor {
    ghost spread = { seen_numbers };

    ghost of_channels = { seen_of_channels };

    ghost given = { seen };

    ghost apart = { seen_distance };

    ghost can_be = { AreSeen };

    ghost can_be_given = { AreSeen };

    ghost channels = { 4 };

    #[inline(always)]
    fn none() -> SeenColor {
        SeenColor {
            red: 0,
            green: 0,
            blue: 0,
            alpha: 0,
        }
    }

    #[inline(always)]
    fn number(self, channel: usize) -> u8 {
        match channel {
            0 => self.red,
            1 => self.green,
            2 => self.blue,
            _ => self.alpha,
        }
    }

    #[inline(always)]
    fn held(self, bound: u8, entry: SeenColor) -> SeenColor {
        SeenColor {
            red: held(bound, self.red, entry.red),
            green: held(bound, self.green, entry.green),
            blue: held(bound, self.blue, entry.blue),
            alpha: held(bound, self.alpha, entry.alpha),
        }
    }

    #[inline(always)]
    fn missed(self, found: SeenColor) -> ColorError {
        ColorError {
            red: 255 + u16::from(self.red) - u16::from(found.red),
            green: 255 + u16::from(self.green) - u16::from(found.green),
            blue: 255 + u16::from(self.blue) - u16::from(found.blue),
            alpha: 255 + u16::from(self.alpha) - u16::from(found.alpha),
            spare: 0,
        }
    }

    #[inline(always)]
    fn wanted<P: TablePixel>(
        pixel: P,
        how: Diffusion,
        near: NeighborErrors,
        right_above: ColorError,
    ) -> SeenColor {
        let NeighborErrors {
            left,
            left_above: corner,
            above,
        } = near;
        let (scan, next) = (how.scan, right_above);
        let own = seen_of(pixel);
        let alpha = corrected(
            own.alpha,
            how.strength,
            handed(scan, left.alpha, corner.alpha, above.alpha, next.alpha),
        );
        let red = corrected(
            own.red,
            how.strength,
            handed(scan, left.red, corner.red, above.red, next.red),
        );
        let green = corrected(
            own.green,
            how.strength,
            handed(scan, left.green, corner.green, above.green, next.green),
        );
        let blue = corrected(
            own.blue,
            how.strength,
            handed(scan, left.blue, corner.blue, above.blue, next.blue),
        );
        SeenColor {
            red: at_most(red, alpha),
            green: at_most(green, alpha),
            blue: at_most(blue, alpha),
            alpha,
        }
    }

    ghost stays_near = { seen_near };

    ghost same_alpha = { λ pixel. refl };
}

/// Returns a number, or an alpha that is less.
#[inline(always)]
fn at_most(number: u8, alpha: u8) -> u8
    ensures { result ≡ min alpha number }
{
    if number > alpha { alpha } else { number }
}
