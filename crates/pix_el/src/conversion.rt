//! The steps of a conversion from one format to another.
ghost use Rattle.std.specs.Prelude.{◌≡◌, ◌≤◌, ◌+◌};
ghost use Rattle.pix_el.specs.Pixel.{channel, alpha_of};
ghost use Rattle.pix_el.specs.Conversion.{at_depth, reencoded, channel_reencoded, within_model};

use crate::el::Pixel;
use crate::model::ColorModel;
use pix_chan::chan::{Alpha, Channel, Gamma};

pub(crate) mod blocks;
mod channelwise;
mod depth;
mod gray;

/// Returns a channel at another depth.
pub(crate) fn at_depth<C: Channel, D: Channel>(c: C) -> D
    ensures { D.number result ≡ at_depth C.max D.max (C.number c) }
{
    D::from_16_bit(c.to_16_bit())
}

/// Returns the channel `ch` of a pixel, the maximum where it is absent, at another depth.
pub(crate) fn channel_at_depth<P: Pixel, D: Channel>(p: &P, ch: usize) -> D
    ensures { D.number result ≡
        at_depth P.Chan.max D.max (channel P.Chan.max (P.numbers p.now) ch) }
{
    at_depth::<P::Chan, D>(p.get(ch))
}

/// Returns a color channel at an alpha, from the modes `A` and `G` to the modes `B` and `H`.
fn reencoded<C, A, G, B, H>(c: C, alpha: C) -> C
where
    C: Channel,
    A: Alpha,
    G: Gamma<C>,
    B: Alpha,
    H: Gamma<C>,
    ensures { C.number result ≡
        reencoded C.max A.mode G.mode B.mode H.mode (C.number alpha) (C.number c) }
{
    if A::KIND == B::KIND {
        if G::KIND == H::KIND {
            c
        } else {
            H::from_linear(G::to_linear(c))
        }
    } else {
        H::from_linear(B::encode(A::decode(G::to_linear(c), alpha), alpha))
    }
}

/// Returns red, green or blue of a pixel of the format `P` in the format `D`, at the alpha that it
/// has there.
pub(crate) fn reencoded_color<P, D>(c: P::Chan, alpha: D::Chan) -> D::Chan
where
    P: Pixel,
    D: Pixel,
    P::Gamma: Gamma<D::Chan>,
    ensures { D.Chan.number result ≡ reencoded D.Chan.max P.Alpha.mode
        ⟦<P::Gamma as Gamma<D::Chan>>⟧.mode D.Alpha.mode D.Gamma.mode
        (D.Chan.number alpha) (at_depth P.Chan.max D.Chan.max (P.Chan.number c)) }
{
    reencoded::<D::Chan, P::Alpha, P::Gamma, D::Alpha, D::Gamma>(
        at_depth::<P::Chan, D::Chan>(c),
        alpha,
    )
}

/// Returns the channel `ch` of `rescaled`, a pixel of the format `P` at the depth of `D`, in the
/// format of `D`.
///
/// Condition: `alpha` is the alpha of `rescaled`.
fn channel_reencoded<P, D>(rescaled: &D, ch: usize, alpha: D::Chan) -> D::Chan
where
    P: Pixel,
    D: Pixel,
    P::Gamma: Gamma<D::Chan>,
    requires { D.Chan.number alpha ≡ alpha_of D.layout (D.numbers rescaled.now) }
    ensures { D.Chan.number result ≡
        channel_reencoded P.format ⟦<P::Gamma as Gamma<D::Chan>>⟧.mode D.format D.Gamma.mode
        (D.numbers rescaled.now) ch }
{
    let colors = <D::Model as ColorModel>::LINEAR;
    if colors.start <= ch && ch < colors.end {
        reencoded::<D::Chan, P::Alpha, P::Gamma, D::Alpha, D::Gamma>(rescaled.get(ch), alpha)
    } else {
        rescaled.get(ch)
    }
}

/// Converts a pixel to another format of the same color model.
///
/// Condition: that format has no more channels than its model.
pub(crate) fn converted_within<P, D>(p: P) -> D
where
    P: Pixel,
    D: Pixel,
    D::Chan: From<P::Chan>,
    P::Gamma: Gamma<D::Chan>,
    requires few { D.layout.count ≤ D.layout.alpha + 1 }
    ensures { D.numbers result ≡
        within_model P.format ⟦<P::Gamma as Gamma<D::Chan>>⟧.mode D.format D.Gamma.mode
        (P.numbers p) }
{
    let rescaled = D::from_bit_depth(p);
    let alpha = rescaled.alpha();
    let one = channel_reencoded::<P, D>(&rescaled, 0, alpha);
    let two = channel_reencoded::<P, D>(&rescaled, 1, alpha);
    let three = channel_reencoded::<P, D>(&rescaled, 2, alpha);
    let four = channel_reencoded::<P, D>(&rescaled, 3, alpha);
    D::from_four(one, two, three, four)
}
