//! Composites that leave pixels as they are, replace them, or make them clear. The factors of the
//! operator tell which.
ghost use Rattle.std.specs.Prelude.{◌≡◌, ℕ, map, get_or, true};
ghost use Rattle.pix_ops.specs.Operators as operators;
ghost use Rattle.pix_el.specs.Planes.{coverage_of, Empties, Keeps, KeepsAll, Replaces, Clears};

use crate::el::Pixel;
use crate::model::ColorModel;
use crate::stored::Coverage;
use pix_chan::chan::Channel;
use pix_ops::ops::Blend;
use pix_ops::ops::factor::Factor;

/// Returns whether a factor is 0: it turns the maximum into 0, whether the other side is
/// transparent or opaque.
#[inline(always)]
pub(super) fn is_zero<F: Factor, C: Channel>() -> bool
    ensures { result ≡ true → F.coefficient ≡ operators.Zero }
{
    F::term(C::MAX, C::MAX) == C::MIN && F::term(C::MAX, C::MIN) == C::MIN
}

/// Returns whether a factor is 1: it keeps the maximum, whether the other side is transparent or
/// opaque.
#[inline(always)]
fn is_one<F: Factor, C: Channel>() -> bool
    ensures { result ≡ true → F.coefficient ≡ operators.One }
{
    F::term(C::MAX, C::MAX) == C::MAX && F::term(C::MAX, C::MIN) == C::MAX
}

/// Returns whether an operator keeps the destination whatever the source is.
#[inline(always)]
pub(super) fn keeps_all<O: Blend, C: Channel>() -> bool
    ensures { result ≡ true → KeepsAll C.max O.op }
{
    is_zero::<O::Source, C>() && is_one::<O::Dest, C>()
}

/// Returns whether an operator keeps the destination under a transparent source: the destination's
/// factor is then 1.
#[inline(always)]
pub(super) fn keeps_under_clear<O: Blend, C: Channel>() -> bool
    ensures { result ≡ true → Keeps C.max O.op 0 0 }
{
    <O::Dest as Factor>::term(C::MAX, C::MAX) == C::MAX
}

/// Returns whether a model has no hue.
#[inline(always)]
fn has_no_hue<P: Pixel>() -> bool
    ensures { result ≡ true → P.layout.hues.end ≡ 0 }
{
    let hues = P::Model::CIRCULAR;
    hues.end == 0
}

/// Returns whether an operator replaces each pixel with the source: the source's factor is 1, and
/// the destination's is 0. A hue moves along an arc, so a model with one is left out.
#[inline(always)]
pub(crate) fn replaces<O: Blend, P: Pixel>() -> bool
    ensures { result ≡ true → Replaces P.layout O.op }
{
    has_no_hue::<P>() && is_one::<O::Source, P::Chan>() && is_zero::<O::Dest, P::Chan>()
}

/// Returns whether an operator makes each pixel clear, whatever the source is: both factors are 0.
#[inline(always)]
pub(crate) fn clears<O: Blend, P: Pixel>() -> bool
    ensures { result ≡ true → Clears P.layout O.op }
{
    has_no_hue::<P>() && is_zero::<O::Source, P::Chan>() && is_zero::<O::Dest, P::Chan>()
}

/// Returns whether an operator makes each pixel clear under a transparent source: the destination's
/// factor is then 0. A hue moves along an arc, so a model with one is left out.
#[inline(always)]
pub(super) fn empties_under_clear<O: Blend, P: Pixel>() -> bool
    ensures no_hue { result ≡ true → P.layout.hues.end ≡ 0 }
    ensures empties { result ≡ true → Empties P.Chan.max O.op }
{
    let (min, max) = (P::Chan::MIN, P::Chan::MAX);
    has_no_hue::<P>() && <O::Dest as Factor>::term(max, max) == min
}

/// Returns whether a test for clear mattes saves time where pixels become clear: with four
/// channels. With two it took up to 1.6 times as long where the processor can't predict it.
#[inline(always)]
pub(super) fn saves_products<P: Pixel>() -> bool {
    P::Model::ALPHA == 3
}

/// Returns whether all of these mattes are 0.
#[inline(always)]
pub(super) fn are_clear<C: Channel, M: Coverage<C>>(src: &[M]) -> bool
    ensures { result ≡ true → (k : ℕ) → get_or (map (coverage_of C.max M.numbers) src.now) k 0 ≡ 0 }
{
    let mut any = 0;
    for i in 0..src.len() {
        any |= src[i].coverage().to_u32();
    }
    any == 0
}
