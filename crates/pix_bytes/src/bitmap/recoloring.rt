//! The conversions between sRGB and linear channels of 8 bits.
ghost use Rattle.std.specs.Prelude.{◌≡◌, ◌≤◌, ◌+◌, ◌*◌, ℕ, List, Bool, length, take, Some, true, false, if◌then◌else◌};
ghost use Rattle.pix_chan.specs.Modes as modes;
ghost use Rattle.pix_el.specs.Conversion.{converted};
ghost use Rattle.pix_el.specs.Model.{row};
ghost use Rattle.pix_bytes.specs.FourChannels.{as_list};
ghost use Rattle.pix_bytes.specs.Models.{model_of};
ghost use Rattle.pix_bytes.specs.Recolored.{IsRecolored, IsGrayRecolored, model_in_order};
ghost use Rattle.pix_bytes.specs.Rows.{IsEach, IsSame, format_at};
ghost use Rattle.pix_bytes.specs.BitmapFormats.{sample_size};

use crate::bitmap::eights::{Decoded, Encoded, Table, map_eights, map_eights_opaque};
use crate::bitmap::format::FormatParts;
use crate::bitmap::four_channels::FourChannels;
use crate::bitmap::grays::map_grays;
use crate::bitmap::model::ModelName::{self, Bgr, Gray, Rgb};
use crate::bitmap::pixel_conversion::{Converted, PixelConversion};
use pix_chan::chan::{Ch8, Channel, Linear, Srgb};

/// Returns whether a model is blue, green and red, and not red, green and blue. Of other models it
/// returns nothing.
#[inline(always)]
fn order(model: ModelName) -> Option<bool>
    ensures { (is_reversed : Bool) → result ≡ Some is_reversed
        → model ≡ model_in_order is_reversed }
{
    if model.is(Rgb) {
        Some(false)
    } else if model.is(Bgr) {
        Some(true)
    } else {
        None
    }
}

/// Returns whether two orders differ.
#[inline(always)]
fn differ(one: bool, other: bool) -> bool
    ensures { (if result then (if one then false else true) else one) ≡ other }
{
    if one { !other } else { other }
}

/// Returns whether the source has a straight alpha or none, the other format has four channels, and
/// both have no spare samples.
#[inline(always)]
fn are_plain(from: FormatParts, to: FormatParts) -> bool
    ensures straight { result ≡ true → from.is_premultiplied ≡ false }
    ensures none { result ≡ true → from.spare ≡ 0 }
    ensures count { result ≡ true → to.count ≡ 4 }
    ensures to_none { result ≡ true → to.spare ≡ 0 }
{
    !from.is_premultiplied && from.spare == 0 && to.count == 4 && to.spare == 0
}

/// Writes as many of the first `count` pixels as go in eights, and maps their colors by the table.
/// Returns their number, which is 0 where the formats don't fit.
///
/// Condition: there are `count` in both.
fn map_ahead<T: Table>(
    from: FormatParts,
    to: FormatParts,
    src: &[u8],
    dst: &mut [u8],
    count: usize,
) -> usize
    requires src { length src.now ≡ count * ((from.count + from.spare) * sample_size 255) }
    requires dst { length dst.old ≡ count * ((to.count + to.spare) * sample_size 255) }
    ensures some { result ≤ count }
    ensures each { (f : List ℕ → List ℕ) → IsRecolored from to T.curve f
        → IsEach 255 255 from.count (to.count + to.spare)
        ((from.count + from.spare) * sample_size 255) ((to.count + to.spare) * sample_size 255)
        f src.now dst.new result }
{
    if !are_plain(from, to) {
        return 0;
    }
    let (Some(one), Some(other)) = (order(from.model), order(to.model)) else {
        return 0;
    };
    let is_reversed = differ(one, other);
    match from.count {
        4 => map_eights::<T>(is_reversed, to.is_premultiplied, src, dst, count),
        3 => map_eights_opaque::<T>(is_reversed, src, dst, count),
        _ => 0,
    }
}

/// Writes the first `count` gray pixels without an alpha as opaque ones of four bytes, and maps
/// their colors by the table. Returns their number, which is 0 where the formats don't fit.
///
/// Condition: there are `count` in both.
fn map_grays_ahead<T: Table>(
    from: FormatParts,
    to: FormatParts,
    src: &[u8],
    dst: &mut [u8],
    count: usize,
) -> usize
    requires src { length src.now ≡ count * ((from.count + from.spare) * sample_size 255) }
    requires dst { length dst.old ≡ count * ((to.count + to.spare) * sample_size 255) }
    ensures some { result ≤ count }
    ensures each { (f : List ℕ → List ℕ) → IsGrayRecolored from to T.curve f
        → IsEach 255 255 from.count (to.count + to.spare)
        ((from.count + from.spare) * sample_size 255) ((to.count + to.spare) * sample_size 255)
        f src.now dst.new result }
{
    if !are_plain(from, to) {
        return 0;
    }
    let (1, true, Some(_)) = (from.count, from.model.is(Gray), order(to.model)) else {
        return 0;
    };
    map_grays::<T>(src, dst, count);
    count
}

/// The conversion of an sRGB pixel of 8 bits to a linear one.
pub(crate) struct IntoLinear;

impl PixelConversion<Ch8, Ch8> for IntoLinear {
    ghost makes = { λ format to pixel. converted format modes.Srgb to modes.Linear pixel };

    #[inline(always)]
    fn go(&self, from: FormatParts, to: FormatParts, pixel: FourChannels<Ch8>) -> FourChannels<Ch8>
        requires few { to.count ≤ (row (model_of to.model)).alpha + 1 }
        ensures { (p : List ℕ) → IsSame 255 (as_list ⟦<Ch8 as Channel>⟧.number pixel) p
            → take to.count (as_list ⟦<Ch8 as Channel>⟧.number result)
            ≡ converted (format_at 255 from) modes.Srgb (format_at 255 to) modes.Linear p }
    {
        Converted::<Srgb, Linear>::new().go(from, to, pixel)
    }

    #[inline(always)]
    fn convert_several(
        &self,
        from: FormatParts,
        to: FormatParts,
        src: &[u8],
        dst: &mut [u8],
        count: usize,
    ) -> usize {
        if from.model.is(Gray) {
            return map_grays_ahead::<Decoded>(from, to, src, dst, count);
        }
        map_ahead::<Decoded>(from, to, src, dst, count)
    }
}

/// The conversion of a linear pixel of 8 bits to an sRGB one.
pub(crate) struct OutOfLinear;

impl PixelConversion<Ch8, Ch8> for OutOfLinear {
    ghost makes = { λ format to pixel. converted format modes.Linear to modes.Srgb pixel };

    #[inline(always)]
    fn go(&self, from: FormatParts, to: FormatParts, pixel: FourChannels<Ch8>) -> FourChannels<Ch8>
        requires few { to.count ≤ (row (model_of to.model)).alpha + 1 }
        ensures { (p : List ℕ) → IsSame 255 (as_list ⟦<Ch8 as Channel>⟧.number pixel) p
            → take to.count (as_list ⟦<Ch8 as Channel>⟧.number result)
            ≡ converted (format_at 255 from) modes.Linear (format_at 255 to) modes.Srgb p }
    {
        Converted::<Linear, Srgb>::new().go(from, to, pixel)
    }

    #[inline(always)]
    fn convert_several(
        &self,
        from: FormatParts,
        to: FormatParts,
        src: &[u8],
        dst: &mut [u8],
        count: usize,
    ) -> usize {
        if to.is_premultiplied {
            return 0;
        }
        if from.model.is(Gray) {
            return map_grays_ahead::<Encoded>(from, to, src, dst, count);
        }
        map_ahead::<Encoded>(from, to, src, dst, count)
    }
}
