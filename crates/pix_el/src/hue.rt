//! Hues: channels on a circle, where 0 comes after the maximum.
ghost use Rattle.std.specs.Prelude.{◌≡◌, ◌+◌, ◌-◌};
ghost use Rattle.pix_ops.specs.Hue.{hue_composite, IsHueMove, hue_weight};

use pix_chan::chan::Channel;
use pix_ops::ops::Blend;

/// How many units two channels are apart.
pub(crate) fn apart<C: Channel>(x: C, y: C) -> C
    ensures { C.number result ≡ (C.number x - C.number y) + (C.number y - C.number x) }
{
    if x < y { y - x } else { x - y }
}

/// Composites the hue `src`, of alpha `sa`, with the hue `dst`: `da1` and `sa1` are one minus the
/// alphas of destination and source.
pub(crate) fn composite_hue<C: Channel, O: Blend>(dst: &mut C, da1: C, src: &C, sa: C, sa1: C)
    requires { C.number sa1 ≡ C.max - C.number sa }
    ensures composite { C.number dst.new ≡ hue_composite C.max O.op
        (C.number src.now) (C.number sa) (C.number dst.old) (C.max - C.number da1) }
    ensures moves { IsHueMove C.max (hue_weight C.max O.op (C.number sa) (C.max - C.number da1))
        (C.number dst.old) (C.number src.now) (C.number dst.new) }
{
    let mut weight = C::MIN;
    O::composite(&mut weight, da1, &sa, sa1);
    let half = C::MID;
    if apart(*dst, *src) <= half {
        *dst = dst.lerp(*src, weight);
    } else {
        let turned = dst.wrapping_add(half);
        let goal = src.wrapping_add(half);
        *dst = turned.lerp(goal, weight).wrapping_sub(half);
    }
}
