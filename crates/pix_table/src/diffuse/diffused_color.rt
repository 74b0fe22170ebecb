//! Colors whose errors are handed on to the pixels around them.
ghost use Rattle.std.specs.Prelude.{◌≡◌, ℕ, ◌+◌, ◌*◌, ◌<◌, ◌≤◌, List, length, slice_index, true, refl};
ghost use Rattle.pix_table.specs.matching.Nearest.{IsNearestBy, alpha_of, distance, numbers};
ghost use Rattle.pix_table.specs.diffuse.Diffusion.{
  corrected,
  held,
  held_to,
  rgb_of,
  share_before,
  share_next,
  wanted_at,
};
ghost use Rattle.pix_table.specs.diffuse.ErrorBound.{AreNear, IsNear};
ghost use Rattle.pix_table.specs.diffuse.NearLaws.{AreBytes, rgb_near};
ghost use Rattle.pix_table.specs.diffuse.Done.{AreNeighborErrors, IsColorError, IsColorErrorAbove};

use crate::color::{Color, TableColor, TablePixel};
use crate::diffuse::{Diffusion, ScanOrder};
use crate::matching::nearest_search::NearestSearch;

/// What was wanted at a pixel less what was found for it, in each channel. It is stored with 255
/// added, so that it is not below zero.
#[derive(Clone, Copy)]
pub(crate) struct ColorError {
    /// That in red.
    pub(crate) red: u16,
    /// That in green.
    pub(crate) green: u16,
    /// That in blue.
    pub(crate) blue: u16,
    /// That in the alpha, which is 255 where colors have no alpha.
    pub(crate) alpha: u16,
    /// Nothing. Eight bytes would be handed over as one number, and taken apart again.
    pub(crate) spare: u16,
}

/// The errors of three of the four pixels that hand them on to a pixel. The fourth is the one above
/// the next pixel of its row.
#[derive(Clone, Copy)]
pub(crate) struct NeighborErrors {
    /// That of the pixel before it in its row.
    pub(crate) left: ColorError,
    /// That of the pixel above the one before it.
    pub(crate) left_above: ColorError,
    /// That of the pixel above it.
    pub(crate) above: ColorError,
}

/// No error.
pub(crate) const NO_ERROR: ColorError = ColorError {
    red: 255,
    green: 255,
    blue: 255,
    alpha: 255,
    spare: 0,
};

/// A color whose error is handed on.
pub(crate) trait DiffusedColor: Copy {
    /// The numbers of the color.
    ghost spread: { Self → List ℕ };

    /// The numbers of the color that has these in its channels.
    ghost of_channels: { (ℕ → ℕ) → List ℕ };

    /// The numbers of the color of a pixel.
    ghost given: { List ℕ → List ℕ };

    /// How far two colors are apart.
    ghost apart: { List ℕ → List ℕ → ℕ };

    /// Numbers that a color may have.
    ghost can_be: { List ℕ → Type 0 };

    /// Numbers that the color of a pixel may have.
    ghost can_be_given: { List ℕ → Type 0 };

    /// How many channels a color has.
    ghost channels: { ℕ };

    /// Returns the color that is wanted and found where no error is handed on.
    fn none() -> Self
        ensures { spread result ≡ of_channels (λ channel. 0) };

    /// Returns the number of the color in one of its first four channels, 0 where it has none.
    fn number(self, channel: usize) -> u8
        requires { channel < 4 }
        ensures { result ≡ slice_index (spread self) channel };

    /// Returns what counts as found where this color was wanted, for the color of an entry and a
    /// bound.
    fn held(self, bound: u8, entry: Self) -> Self
        ensures { spread result ≡ held_to bound (spread self) (spread entry) };

    /// Returns the error of a pixel at which this color was wanted and another was found.
    fn missed(self, found: Self) -> ColorError
        ensures { IsColorError true (spread self) (spread found) result };

    /// Returns the color that is wanted at a pixel with these errors around it.
    fn wanted<P: TablePixel>(
        pixel: P,
        how: Diffusion,
        near: NeighborErrors,
        right_above: ColorError,
    ) -> Self
        requires { how.strength ≤ 16 }
        ensures can { can_be (spread result) }
        ensures given { can_be_given (given (P.values pixel)) }
        ensures wanted { (width : ℕ) (ws gs : List (List ℕ)) (first place : ℕ)
            → AreNeighborErrors how.scan ws gs width first place near
            → IsColorErrorAbove how.scan ws gs width first place right_above
            → spread result ≡ wanted_at of_channels how.scan how.strength width ws gs first place
            (given (P.values pixel)) };

    /// A color whose numbers are near those of a pixel is near the pixel.
    ghost stays_near: { (bound : ℕ) (pixel : List ℕ) (number : ℕ → ℕ) → can_be_given pixel
        → ((c : ℕ) → slice_index pixel c ≤ 255 → IsNear bound (slice_index pixel c) (number c))
        → AreNear bound channels pixel (of_channels number) };

    /// The color of a pixel has its alpha.
    ghost same_alpha: { (pixel : List ℕ) → alpha_of (given pixel) ≡ alpha_of pixel };
}

/// A search for the entries that are nearest to colors of this type.
pub(crate) trait FindsNearest<S: DiffusedColor> {
    /// It searches among these entries.
    ghost among: { Self → List (List ℕ) → Type 0 };

    /// Returns the index of the entry that is nearest to a color, the first of equals.
    fn find(&mut self, clr: S) -> u8
        requires { S.can_be (S.spread clr) }
        ensures nearest { (entries : List (List ℕ)) → among self.old entries
            → IsNearestBy S.apart entries (S.spread clr) result }
        ensures same { (entries : List (List ℕ)) → among self.old entries
            → among self.new entries };
}

/// An entry of a table that is shown as a color of this type.
pub(crate) trait ShownAs<S: DiffusedColor>: Copy {
    /// The numbers of that color.
    ghost shown: { Self → List ℕ };

    /// Returns that color.
    fn shown(self) -> S
        ensures { S.spread result ≡ Self.shown self };
}

impl<N: NearestSearch> FindsNearest<Color> for N {
    ghost among = { N.finds };

    #[inline(always)]
    fn find(&mut self, clr: Color) -> u8 {
        self.nearest_entry(clr)
    }
}

impl<C: TableColor> ShownAs<Color> for C {
    ghost shown = { C.channels };

    #[inline(always)]
    fn shown(self) -> Color {
        self.color()
    }
}

impl DiffusedColor for Color {
    ghost spread = { numbers };

    ghost of_channels = { rgb_of };

    ghost given = { λ pixel. pixel };

    ghost apart = { distance };

    ghost can_be = { λ color. length color ≡ 3 };

    ghost can_be_given = { AreBytes };

    ghost channels = { 3 };

    #[inline(always)]
    fn none() -> Color {
        Color {
            red: 0,
            green: 0,
            blue: 0,
        }
    }

    #[inline(always)]
    fn number(self, channel: usize) -> u8 {
        match channel {
            0 => self.red,
            1 => self.green,
            2 => self.blue,
            _ => 0,
        }
    }

    #[inline(always)]
    fn held(self, bound: u8, entry: Color) -> Color {
        Color {
            red: held(bound, self.red, entry.red),
            green: held(bound, self.green, entry.green),
            blue: held(bound, self.blue, entry.blue),
        }
    }

    #[inline(always)]
    fn missed(self, found: Color) -> ColorError {
        ColorError {
            red: 255 + u16::from(self.red) - u16::from(found.red),
            green: 255 + u16::from(self.green) - u16::from(found.green),
            blue: 255 + u16::from(self.blue) - u16::from(found.blue),
            alpha: 255,
            spare: 0,
        }
    }

    #[inline(always)]
    fn wanted<P: TablePixel>(
        pixel: P,
        how: Diffusion,
        near: NeighborErrors,
        right_above: ColorError,
    ) -> Color {
        let NeighborErrors {
            left,
            left_above,
            above,
        } = near;
        let scan = how.scan;
        let own = pixel.rgb();
        Color {
            red: corrected(
                own.red,
                how.strength,
                handed(scan, left.red, left_above.red, above.red, right_above.red),
            ),
            green: corrected(
                own.green,
                how.strength,
                handed(
                    scan,
                    left.green,
                    left_above.green,
                    above.green,
                    right_above.green,
                ),
            ),
            blue: corrected(
                own.blue,
                how.strength,
                handed(
                    scan,
                    left.blue,
                    left_above.blue,
                    above.blue,
                    right_above.blue,
                ),
            ),
        }
    }

    ghost stays_near = { rgb_near };

    ghost same_alpha = { λ pixel. refl };
}

/// Returns what counts as found in a channel: an entry's number, held within a bound of what was
/// wanted.
#[inline(always)]
pub(crate) fn held(bound: u8, wanted: u8, found: u8) -> u8
    ensures { result ≡ held bound wanted found }
{
    let least = wanted.saturating_sub(bound);
    let most = wanted.saturating_add(bound);
    found.max(least).min(most)
}

/// Returns a pixel's share in a channel of the errors around it, in sixteenths. Where the scan
/// order is serpentine, the row above goes in the other direction.
#[inline(always)]
pub(crate) fn handed(
    scan: ScanOrder,
    left: u16,
    left_above: u16,
    above: u16,
    right_above: u16,
) -> u32
    ensures sum { result ≡ 7 * left + share_before scan * left_above + 5 * above
        + share_next scan * right_above }
    ensures few { result ≤ 1048560 }
{
    let (ahead, behind) = match scan {
        ScanOrder::LeftToRight => (left_above, right_above),
        ScanOrder::Serpentine => (right_above, left_above),
    };
    7 * u32::from(left) + u32::from(ahead) + 5 * u32::from(above) + 3 * u32::from(behind)
}

/// Returns a number plus so many sixteenths of its share of errors that are 255 too great. The
/// share is in sixteenths itself.
#[inline(always)]
pub(crate) fn corrected(number: u8, strength: u8, handed: u32) -> u8
    requires strength { strength ≤ 16 }
    requires handed { handed ≤ 1048560 }
    ensures { (wanted found : ℕ) → handed + found ≡ 4080 + wanted
        → result ≡ corrected strength number wanted found }
{
    let strength = u32::from(strength);
    let sum = 256 * u32::from(number) + 128 + strength * handed;
    let nothing = strength * 4080;
    if sum <= nothing {
        return 0;
    }
    let rounded = (sum - nothing) / 256;
    if rounded > 255 { 255 } else { rounded as u8 }
}
