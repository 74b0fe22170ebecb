//! Composites and mattes of the channels of a pixel, one after the other.
ghost use Rattle.std.specs.Prelude.{◌≡◌, ℕ, ◌-◌, ◌<◌, length, map, true, if◌then◌else◌};
ghost use Rattle.pix_chan.specs.Product.{channel_product};
ghost use Rattle.pix_ops.specs.Composite.{channel_composite};
ghost use Rattle.pix_ops.specs.Hue.{hue_composite, hue_weight, IsHueMove};
ghost use Rattle.pix_el.specs.Pixel.{lies_in, channel};
ghost use Rattle.pix_el.specs.PixelComposite.{channels_composite, matted_color};

use crate::hue::composite_hue;
use crate::model::{ColorModel, is_hue};
use pix_chan::chan::Channel;
use pix_ops::ops::Blend;

/// Composites `src`, the channel `ch` of a source of alpha `sa`, with `dst`. A hue moves along the
/// shorter arc. `da1` is one minus the alpha of the destination.
fn composite_channel<C: Channel, M: ColorModel, O: Blend>(
    ch: usize,
    dst: &mut C,
    da1: C,
    src: &C,
    sa: C,
)
    ensures composite { C.number dst.new ≡
        (if lies_in M.CIRCULAR ch
        then hue_composite C.max O.op (C.number src.now) (C.number sa)
        (C.number dst.old) (C.max - C.number da1)
        else channel_composite C.max O.op (C.number src.now) (C.number sa)
        (C.number dst.old) (C.max - C.number da1)) }
    ensures moves { lies_in M.CIRCULAR ch ≡ true
        → IsHueMove C.max (hue_weight C.max O.op (C.number sa) (C.max - C.number da1))
        (C.number dst.old) (C.number src.now) (C.number dst.new) }
{
    let sa1 = C::MAX - sa;
    if is_hue::<M>(ch) {
        composite_hue::<C, O>(dst, da1, src, sa, sa1);
    } else {
        O::composite(dst, da1, src, sa1);
    }
}

/// Composites each channel of `src`, of alpha `sa`, with that of `dst` of the same number. `da1` is
/// one minus the alpha of `dst`.
pub(crate) fn composite_each<C: Channel, M: ColorModel, O: Blend>(
    dst: &mut [C],
    src: &[C],
    da1: C,
    sa: C,
)
    requires { length dst.old ≡ length src.now }
    ensures composite { map C.number dst.new ≡ channels_composite
        (record { max = C.max; count = length dst.old; hues = M.CIRCULAR; alpha = M.ALPHA }) O.op
        (C.number sa) (C.max - C.number da1) (map C.number src.now) (map C.number dst.old) }
    ensures moves { (ch : ℕ) → ch < length dst.old → lies_in M.CIRCULAR ch ≡ true
        → IsHueMove C.max (hue_weight C.max O.op (C.number sa) (C.max - C.number da1))
        (channel C.max (map C.number dst.old) ch) (channel C.max (map C.number src.now) ch)
        (channel C.max (map C.number dst.new) ch) }
{
    for i in 0..dst.len() {
        composite_channel::<C, M, O>(i, &mut dst[i], da1, &src[i], sa);
    }
}

/// Returns the channel `ch` multiplied by the matte. A hue is returned as it is.
fn scaled<C: Channel, M: ColorModel>(ch: usize, channel: C, matte: C) -> C
    ensures { C.number result ≡
        (if lies_in M.CIRCULAR ch then C.number channel
        else channel_product C.max (C.number channel) (C.number matte)) }
{
    if is_hue::<M>(ch) {
        channel
    } else {
        channel * matte
    }
}

/// Multiplies each channel except a hue by the matte.
pub(crate) fn scale_each<C: Channel, M: ColorModel>(channels: &mut [C], matte: C)
    ensures { map C.number channels.new ≡ matted_color
        (record { max = C.max; count = length channels.old; hues = M.CIRCULAR; alpha = M.ALPHA })
        (C.number matte) (map C.number channels.old) }
{
    for i in 0..channels.len() {
        channels[i] = scaled::<C, M>(i, channels[i], matte);
    }
}
