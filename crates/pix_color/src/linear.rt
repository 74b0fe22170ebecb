//! Weighted sums of channels.
ghost use Rattle.std.specs.Prelude.{◌≡◌, ◌≤◌, ◌<◌, ◌^◌, ◌*◌, pos, unsigned_abs, ◌*ℤ◌, ◌-ℤ◌};
ghost use Rattle.pix_color.specs.Linear.{weights, weighted_sum};

use crate::numbers::{exact, max, units};
use pix_el::chan::Channel;

/// Returns a weight times the number of a channel. Condition: the weight is at most 2^21, either
/// way.
#[inline(always)]
fn weighted<C: Channel>(weight: i64, channel: C) -> i64
    requires { unsigned_abs weight ≤ 2 ^ 21 }
    ensures value { result ≡ weight *ℤ pos (C.number channel) }
    ensures small { unsigned_abs result < 2 ^ 38 }
{
    weight * i64::from(channel.to_u32())
}

/// Returns a weight times a number, as what it adds and what it takes away.
///
/// Condition: the weight is at most 2^21, either way, and the number is at most 255.
#[inline(always)]
fn parts(weight: i64, n: u32) -> (u32, u32)
    requires weight { unsigned_abs weight ≤ 2 ^ 21 }
    requires n { n ≤ 255 }
    ensures value { weight *ℤ pos n ≡ pos result.0 -ℤ pos result.1 }
    ensures added { result.0 ≤ 2 ^ 21 * 255 }
    ensures taken { result.1 ≤ 2 ^ 21 * 255 }
{
    let product = weight.unsigned_abs() as u32 * n;
    if weight < 0 {
        (0, product)
    } else {
        (product, 0)
    }
}

/// Returns the channel of eight bits nearest to the sum of three channels and of the maximum, each
/// times its weight, over `whole`, ties up. Sums fit in 32 bits here, and LLVM makes four at once.
///
/// Condition: the maximum is 255, each weight is at most 2^21, either way, and `whole` is positive
/// and at most 2^20.
#[inline(always)]
fn short_sum<C: Channel>(
    first: (i64, C),
    second: (i64, C),
    third: (i64, C),
    offset: i64,
    whole: u32,
) -> C
    requires narrow { C.max ≡ 255 }
    requires first { unsigned_abs first.0 ≤ 2 ^ 21 }
    requires second { unsigned_abs second.0 ≤ 2 ^ 21 }
    requires third { unsigned_abs third.0 ≤ 2 ^ 21 }
    requires offset { unsigned_abs offset ≤ 2 ^ 21 }
    requires positive { 0 < whole }
    requires small { whole ≤ 2 ^ 20 }
    ensures { C.number result ≡ weighted_sum C.max (weights first.0 second.0 third.0 offset whole)
        (C.number first.1) (C.number second.1) (C.number third.1) }
{
    let (a, b) = parts(first.0, units(first.1));
    let (c, d) = parts(second.0, units(second.1));
    let (e, f) = parts(third.0, units(third.1));
    let (g, h) = parts(offset, units(C::MAX));
    let sum = (a + c + e + g).saturating_sub(b + d + f + h);
    let ratio = (2 * sum + whole) / (2 * whole);
    exact(u64::from(ratio.min(255)))
}

/// Returns the channel nearest to the sum of three channels and of the maximum, each times its
/// weight, over `whole`, ties up. Sums have 64 bits, so channels may have any width.
///
/// Condition: each weight is at most 2^21, either way, and `whole` is positive and at most 2^20.
#[inline(always)]
fn wide_sum<C: Channel>(
    first: (i64, C),
    second: (i64, C),
    third: (i64, C),
    offset: i64,
    whole: u32,
) -> C
    requires first { unsigned_abs first.0 ≤ 2 ^ 21 }
    requires second { unsigned_abs second.0 ≤ 2 ^ 21 }
    requires third { unsigned_abs third.0 ≤ 2 ^ 21 }
    requires offset { unsigned_abs offset ≤ 2 ^ 21 }
    requires positive { 0 < whole }
    requires small { whole ≤ 2 ^ 20 }
    ensures { C.number result ≡ weighted_sum C.max (weights first.0 second.0 third.0 offset whole)
        (C.number first.1) (C.number second.1) (C.number third.1) }
{
    let sum = weighted(first.0, first.1)
        + weighted(second.0, second.1)
        + weighted(third.0, third.1)
        + weighted(offset, C::MAX);
    C::from_ratio(sum.max(0), i64::from(whole))
}

/// Returns the channel nearest to the sum of three channels and of the maximum, each times its
/// weight, over `whole`, ties up.
///
/// Condition: each weight is at most 2^21, either way, and `whole` is positive and at most 2^20.
///
/// It is inlined, so that weights and `whole` are constants to the compiler.
#[inline(always)]
pub(crate) fn weighted_sum<C: Channel>(
    first: (i64, C),
    second: (i64, C),
    third: (i64, C),
    offset: i64,
    whole: u32,
) -> C
    requires first { unsigned_abs first.0 ≤ 2 ^ 21 }
    requires second { unsigned_abs second.0 ≤ 2 ^ 21 }
    requires third { unsigned_abs third.0 ≤ 2 ^ 21 }
    requires offset { unsigned_abs offset ≤ 2 ^ 21 }
    requires positive { 0 < whole }
    requires small { whole ≤ 2 ^ 20 }
    ensures { C.number result ≡ weighted_sum C.max (weights first.0 second.0 third.0 offset whole)
        (C.number first.1) (C.number second.1) (C.number third.1) }
{
    if max::<C>() == 255 {
        short_sum(first, second, third, offset, whole)
    } else {
        wide_sum(first, second, third, offset, whole)
    }
}
