//! How a pixel is converted from one format to another, where both are known only at run time.
ghost use Rattle.std.specs.Prelude.{◌≡◌, ◌≤◌, ◌<◌, ◌+◌, ◌*◌, ℕ, List, length, nat_lt, take, if◌then◌else◌};
ghost use Rattle.pix_chan.specs.Srgb16.{srgb_decoded16, srgb_encoded8};
ghost use Rattle.pix_el.specs.Pixel.{Layout, channel, lies_in};
ghost use Rattle.pix_el.specs.Conversion.{Format, at_depth, of_depth, reencoded, within_model, converted};
ghost use Rattle.pix_el.specs.Light.{mode_changed, in_light, as_srgb};
ghost use Rattle.pix_el.specs.Model.{row};
ghost use Rattle.pix_bytes.specs.Bitmap.{into_light, out_of_light};
ghost use Rattle.pix_bytes.specs.FourChannels.{as_list};
ghost use Rattle.pix_bytes.specs.Models.{model_of};
ghost use Rattle.pix_bytes.specs.Rows.{IsEach, IsSame, IsStep, alpha_mode_of, format_at};
ghost use Rattle.pix_bytes.specs.BitmapFormats.{sample_size};

use crate::bitmap::format::FormatParts;
use crate::bitmap::four_channels::FourChannels;
use crate::bitmap::levels::encode_fours;
use crate::bitmap::model::ModelName::{Bgr, Rgb};
use crate::bitmap::model::{Colored, into_rgb, out_of_rgb};
use crate::bitmap::rgba_light::decode_fours;
use pix_chan::chan::{Alpha, Ch8, Ch16, Channel, Gamma, Linear, Premultiplied};
use pix_chan::quotients16::quotient;
use std::marker::PhantomData;

/// The parts of two formats that decide how a pixel is converted from one to the other within a
/// color model.
#[derive(Clone, Copy)]
struct Step {
    /// How many channels the other has.
    count: usize,
    /// The channel number of its first color that is not a hue.
    first: usize,
    /// The channel number after its last color, which is that of the alpha.
    end: usize,
    /// Whether the colors of the first format are multiplied by the alpha.
    is_premultiplied: bool,
    /// Whether those of the other are.
    to_premultiplied: bool,
}

impl Step {
    /// Returns the step from one format to another of the same model.
    #[inline(always)]
    fn between(from: FormatParts, to: FormatParts) -> Step
        ensures count { result.count ≡ to.count }
        ensures first { result.first ≡ (row (model_of to.model)).colors.start }
        ensures end { result.end ≡ (row (model_of to.model)).colors.end }
        ensures alpha { result.end ≡ (row (model_of to.model)).alpha }
        ensures from_mode { result.is_premultiplied ≡ from.is_premultiplied }
        ensures to_mode { result.to_premultiplied ≡ to.is_premultiplied }
    {
        let (first, end) = to.model.places();
        Step {
            count: to.count,
            first,
            end,
            is_premultiplied: from.is_premultiplied,
            to_premultiplied: to.is_premultiplied,
        }
    }

    /// Returns the step from red, green, blue and alpha to the same, in the alpha modes of two
    /// formats.
    #[inline(always)]
    fn of_rgba(from: FormatParts, to: FormatParts) -> Step
        ensures { result ≡ record {
          count = 4;
          first = 0;
          end = 3;
          is_premultiplied = from.is_premultiplied;
          to_premultiplied = to.is_premultiplied;
        } }
    {
        Step {
            count: 4,
            first: 0,
            end: 3,
            is_premultiplied: from.is_premultiplied,
            to_premultiplied: to.is_premultiplied,
        }
    }
}

/// Returns a linear color channel at an alpha, from one alpha mode to another.
#[inline(always)]
fn mode_changed<C: Channel>(from: bool, to: bool, c: C, alpha: C) -> C
    ensures { C.number result ≡ mode_changed C.max (alpha_mode_of from) (alpha_mode_of to)
        (C.number alpha) (C.number c) }
{
    if from == to {
        c
    } else if alpha.to_u32() == C::MAX.to_u32() {
        c
    } else if to {
        Premultiplied::encode(c, alpha)
    } else {
        Premultiplied::decode(c, alpha)
    }
}

/// Returns a color channel at an alpha, from one alpha mode and the gamma mode `G` to another and
/// `H`.
#[inline(always)]
fn reencoded<C, G, H>(from: bool, to: bool, c: C, alpha: C) -> C
where
    C: Channel,
    G: Gamma<C>,
    H: Gamma<C>,
    ensures { C.number result ≡ reencoded C.max (alpha_mode_of from) G.mode
        (alpha_mode_of to) H.mode (C.number alpha) (C.number c) }
{
    if from != to {
        H::from_linear(mode_changed(from, to, G::to_linear(c), alpha))
    } else if G::KIND != H::KIND {
        H::from_linear(G::to_linear(c))
    } else {
        c
    }
}

/// Returns the channel `ch`, at the depth of the other format, in the other format.
#[inline(always)]
fn channel_of<C, G, H>(step: Step, ch: usize, c: C, alpha: C) -> C
where
    C: Channel,
    G: Gamma<C>,
    H: Gamma<C>,
    ensures { C.number result ≡ (if lies_in (record { start = step.first; end = step.end }) ch
        then reencoded C.max (alpha_mode_of step.is_premultiplied) G.mode
        (alpha_mode_of step.to_premultiplied) H.mode (C.number alpha) (C.number c)
        else C.number c) }
{
    if step.first <= ch && ch < step.end {
        reencoded::<C, G, H>(step.is_premultiplied, step.to_premultiplied, c, alpha)
    } else {
        c
    }
}

/// Returns a channel at another depth.
#[inline(always)]
fn at_depth<C: Channel, D: Channel>(c: C) -> D
    ensures { D.number result ≡ at_depth C.max D.max (C.number c) }
{
    D::from_16_bit(c.to_16_bit())
}

/// Returns a channel at another depth, the maximum where the other format lacks the channel of that
/// number.
#[inline(always)]
fn depth_or_max<C: Channel, D: Channel>(count: usize, ch: usize, c: C) -> D
    ensures { D.number result ≡ (if nat_lt ch count then at_depth C.max D.max (C.number c)
        else D.max) }
{
    if ch < count { at_depth(c) } else { D::MAX }
}

/// Returns a pixel at another depth. A channel that the other format lacks is the maximum.
#[inline(always)]
fn rescaled<C: Channel, D: Channel>(count: usize, pixel: FourChannels<C>) -> FourChannels<D>
    requires few { count ≤ 4 }
    ensures { (layout to : Layout) → layout.max ≡ C.max → to.max ≡ D.max → to.count ≡ count
        → (ch : ℕ) → channel D.max (as_list D.number result) ch
        ≡ channel D.max (of_depth layout to (as_list C.number pixel)) ch }
{
    FourChannels {
        one: depth_or_max::<C, D>(count, 0, pixel.one),
        two: depth_or_max::<C, D>(count, 1, pixel.two),
        three: depth_or_max::<C, D>(count, 2, pixel.three),
        four: depth_or_max::<C, D>(count, 3, pixel.four),
    }
}

/// Converts a pixel to another format of the same color model.
#[inline(always)]
fn within<C, D, G, H>(step: Step, pixel: FourChannels<C>) -> FourChannels<D>
where
    C: Channel,
    D: Channel,
    G: Gamma<D>,
    H: Gamma<D>,
    requires few { step.count ≤ 4 }
    ensures { (format to : Format) → IsStep format to C.max D.max step.count step.first step.end
        (alpha_mode_of step.is_premultiplied) (alpha_mode_of step.to_premultiplied)
        → take step.count (as_list D.number result)
        ≡ within_model format G.mode to H.mode (as_list C.number pixel) }
{
    let deep = rescaled::<C, D>(step.count, pixel);
    let alpha = deep.at(step.end);
    FourChannels {
        one: channel_of::<D, G, H>(step, 0, deep.at(0), alpha),
        two: channel_of::<D, G, H>(step, 1, deep.at(1), alpha),
        three: channel_of::<D, G, H>(step, 2, deep.at(2), alpha),
        four: channel_of::<D, G, H>(step, 3, deep.at(3), alpha),
    }
}

/// How pixels with channels `C` are converted to pixels with channels `D`.
pub(crate) trait PixelConversion<C: Channel, D: Channel> {
    /// What a pixel becomes.
    ghost makes: { Format → Format → List ℕ → List ℕ };

    /// Returns the pixel in the other format. Condition: that has no more channels than its model.
    fn go(&self, from: FormatParts, to: FormatParts, pixel: FourChannels<C>) -> FourChannels<D>
        requires few { to.count ≤ (row (model_of to.model)).alpha + 1 }
        ensures { (p : List ℕ) → IsSame C.max (as_list C.number pixel) p
            → take to.count (as_list D.number result)
            ≡ makes (format_at C.max from) (format_at D.max to) p };

    /// Writes as many of the first `count` pixels as it converts several at once, and returns
    /// their number.
    ///
    /// Condition: there are `count` in both.
    fn convert_several(
        &self,
        from: FormatParts,
        to: FormatParts,
        src: &[u8],
        dst: &mut [u8],
        count: usize,
    ) -> usize
        requires src { length src.now ≡ count * ((from.count + from.spare) * sample_size C.max) }
        requires dst { length dst.old ≡ count * ((to.count + to.spare) * sample_size D.max) }
        ensures some { result ≤ count }
        ensures each { IsEach C.max D.max from.count (to.count + to.spare)
            ((from.count + from.spare) * sample_size C.max)
            ((to.count + to.spare) * sample_size D.max)
            (makes (format_at C.max from) (format_at D.max to)) src.now dst.new result };
}

/// The conversion from the gamma mode `G` to the gamma mode `H`.
#[derive(Clone, Copy)]
pub(crate) struct Converted<G, H> {
    _from: PhantomData<G>,
    _to: PhantomData<H>,
}

impl<G, H> Converted<G, H> {
    /// Returns the conversion.
    pub(crate) fn new() -> Converted<G, H> {
        Converted {
            _from: PhantomData,
            _to: PhantomData,
        }
    }
}

impl<C: Colored, D: Colored, G: Gamma<D>, H: Gamma<D>> PixelConversion<C, D> for Converted<G, H> {
    ghost makes = { λ format to pixel. converted format G.mode to H.mode pixel };

    #[inline(always)]
    fn go(&self, from: FormatParts, to: FormatParts, pixel: FourChannels<C>) -> FourChannels<D>
        requires few { to.count ≤ (row (model_of to.model)).alpha + 1 }
        ensures { (p : List ℕ) → IsSame C.max (as_list C.number pixel) p
            → take to.count (as_list D.number result) ≡ converted (format_at C.max from) G.mode
            (format_at D.max to) H.mode p }
    {
        if from.model.kind() == to.model.kind() {
            within::<C, D, G, H>(Step::between(from, to), pixel)
        } else {
            let rgba = into_rgb(from.model, pixel);
            let rgba = within::<C, D, G, H>(Step::of_rgba(from, to), rgba);
            out_of_rgb(to.model, rgba)
        }
    }

    #[inline(always)]
    fn convert_several(
        &self,
        _from: FormatParts,
        _to: FormatParts,
        _src: &[u8],
        _dst: &mut [u8],
        _count: usize,
    ) -> usize {
        0
    }
}

/// The conversion of an sRGB pixel into light.
pub(crate) struct IntoLight;

/// Decodes a pixel into light within its model. A channel that the format in light lacks is the
/// maximum.
#[inline(always)]
fn decoded(step: Step, pixel: FourChannels<Ch8>) -> FourChannels<Ch16>
    requires few { step.count ≤ 4 }
    ensures { (format to : Format) → IsStep format to 255 65535 step.count step.first step.end
        (alpha_mode_of step.is_premultiplied) (alpha_mode_of step.to_premultiplied) → (ch : ℕ)
        → channel 65535 (as_list ⟦<Ch16 as Channel>⟧.number result) ch
        ≡ channel 65535 (in_light format to (as_list ⟦<Ch8 as Channel>⟧.number pixel)) ch }
{
    let alpha = at_depth(pixel.at(step.end));
    FourChannels {
        one: channel_in_light(step, 0, pixel.one, alpha),
        two: channel_in_light(step, 1, pixel.two, alpha),
        three: channel_in_light(step, 2, pixel.three, alpha),
        four: channel_in_light(step, 3, pixel.four, alpha),
    }
}

/// Returns a channel in light, the maximum where the format in light lacks it.
#[inline(always)]
fn channel_in_light(step: Step, ch: usize, c: Ch8, alpha: Ch16) -> Ch16
    ensures { result.value ≡ (if nat_lt ch step.count
        then (if lies_in (record { start = step.first; end = step.end }) ch
        then mode_changed 65535 (alpha_mode_of step.is_premultiplied)
        (alpha_mode_of step.to_premultiplied) alpha.value (srgb_decoded16 c.value)
        else at_depth 255 65535 c.value) else 65535) }
{
    if ch >= step.count {
        Ch16::MAX
    } else if step.first <= ch && ch < step.end {
        let color = c.decode_srgb16();
        mode_changed(step.is_premultiplied, step.to_premultiplied, color, alpha)
    } else {
        at_depth(c)
    }
}

impl PixelConversion<Ch8, Ch16> for IntoLight {
    ghost makes = { into_light };

    #[inline(always)]
    fn go(&self, from: FormatParts, to: FormatParts, pixel: FourChannels<Ch8>) -> FourChannels<Ch16>
        requires few { to.count ≤ (row (model_of to.model)).alpha + 1 }
        ensures { (p : List ℕ) → IsSame 255 (as_list ⟦<Ch8 as Channel>⟧.number pixel) p
            → take to.count (as_list ⟦<Ch16 as Channel>⟧.number result)
            ≡ into_light (format_at 255 from) (format_at 65535 to) p }
    {
        let (_, end) = from.model.places();
        let light = FormatParts {
            count: end + 1,
            is_premultiplied: to.is_premultiplied,
            ..from
        };
        let pixel = decoded(Step::between(from, light), pixel);
        Converted::<Linear, Linear>::new().go(light, to, pixel)
    }

    #[inline(always)]
    fn convert_several(
        &self,
        from: FormatParts,
        to: FormatParts,
        src: &[u8],
        dst: &mut [u8],
        count: usize,
    ) -> usize {
        if !to.has(Rgb, 4, true, 0) {
            return 0;
        }
        if from.has(Rgb, 4, false, 0) {
            return decode_fours(false, src, dst, count);
        }
        if from.has(Bgr, 4, false, 0) {
            return decode_fours(true, src, dst, count);
        }
        0
    }
}

/// The conversion of a linear pixel of 16 bits to sRGB.
pub(crate) struct OutOfLight;

/// Returns a linear color channel of 16 bits at an alpha, from one alpha mode to another. Where the
/// alpha comes from eight bits, it multiplies instead of dividing.
#[inline(always)]
fn straightened(from: bool, to: bool, c: Ch16, alpha: Ch16) -> Ch16
    ensures { result.value ≡ mode_changed 65535 (alpha_mode_of from) (alpha_mode_of to)
        alpha.value c.value }
{
    if from && !to && u16::from(alpha) != 65535 {
        Ch16::new(quotient(u16::from(c), u16::from(alpha)))
    } else {
        mode_changed(from, to, c, alpha)
    }
}

/// Encodes a pixel of light as sRGB within its model.
#[inline(always)]
fn encoded(step: Step, pixel: FourChannels<Ch16>) -> FourChannels<Ch8>
    requires few { step.count ≤ 4 }
    ensures { (format to : Format) → IsStep format to 65535 255 step.count step.first step.end
        (alpha_mode_of step.is_premultiplied) (alpha_mode_of step.to_premultiplied)
        → take step.count (as_list ⟦<Ch8 as Channel>⟧.number result)
        ≡ as_srgb format to (as_list ⟦<Ch16 as Channel>⟧.number pixel) }
{
    let alpha = pixel.at(step.end);
    FourChannels {
        one: channel_as_srgb(step, 0, pixel.one, alpha),
        two: channel_as_srgb(step, 1, pixel.two, alpha),
        three: channel_as_srgb(step, 2, pixel.three, alpha),
        four: channel_as_srgb(step, 3, pixel.four, alpha),
    }
}

/// Returns a channel of light as sRGB.
#[inline(always)]
fn channel_as_srgb(step: Step, ch: usize, c: Ch16, alpha: Ch16) -> Ch8
    ensures { result.value ≡ (if lies_in (record { start = step.first; end = step.end }) ch
        then srgb_encoded8 (mode_changed 65535 (alpha_mode_of step.is_premultiplied)
        (alpha_mode_of step.to_premultiplied) alpha.value c.value)
        else at_depth 65535 255 c.value) }
{
    if step.first <= ch && ch < step.end {
        straightened(step.is_premultiplied, step.to_premultiplied, c, alpha).encode_srgb8()
    } else {
        at_depth(c)
    }
}

impl PixelConversion<Ch16, Ch8> for OutOfLight {
    ghost makes = { out_of_light };

    #[inline(always)]
    fn go(&self, from: FormatParts, to: FormatParts, pixel: FourChannels<Ch16>) -> FourChannels<Ch8>
        requires few { to.count ≤ (row (model_of to.model)).alpha + 1 }
        ensures { (p : List ℕ) → IsSame 65535 (as_list ⟦<Ch16 as Channel>⟧.number pixel) p
            → take to.count (as_list ⟦<Ch8 as Channel>⟧.number result)
            ≡ out_of_light (format_at 65535 from) (format_at 255 to) p }
    {
        let (_, end) = to.model.places();
        let light = FormatParts {
            count: end + 1,
            is_premultiplied: from.is_premultiplied,
            ..to
        };
        let pixel = Converted::<Linear, Linear>::new().go(from, light, pixel);
        encoded(Step::between(light, to), pixel)
    }

    #[inline(always)]
    fn convert_several(
        &self,
        from: FormatParts,
        to: FormatParts,
        src: &[u8],
        dst: &mut [u8],
        count: usize,
    ) -> usize {
        if !from.has(Rgb, 4, true, 0) {
            return 0;
        }
        if to.has(Rgb, 4, false, 0) {
            return encode_fours(false, src, dst, count);
        }
        if to.has(Bgr, 4, false, 0) {
            return encode_fours(true, src, dst, count);
        }
        0
    }
}
