//! Channels and their numbers.
ghost use Rattle.std.specs.Prelude.{◌≡◌, ◌+◌, ◌*◌, ◌/◌, ◌-◌, ◌<◌, ◌≤◌, ◌^◌, min, pos};
ghost use Rattle.pix_chan.specs.Number.{saturating_sum};
ghost use Rattle.pix_chan.specs.Product.{channel_product, channel_quotient};
ghost use Rattle.pix_chan.specs.Nearest.{nearest};
ghost use Rattle.pix_color.specs.Hsl.{half};

use pix_chan::quotients8::quotient_by_byte;
use pix_el::chan::Channel;

/// Returns the number of a channel, with room for sums and products.
pub(crate) fn number<C: Channel>(c: C) -> u64
    ensures value { result ≡ C.number c }
    ensures fits { result ≤ C.max }
    ensures small { result < 65536 }
{
    u64::from(c.to_u32())
}

/// Returns the number of a channel in 32 bits, with room for small multiples.
#[inline(always)]
pub(crate) fn units<C: Channel>(c: C) -> u32
    ensures value { result ≡ C.number c }
    ensures fits { result ≤ C.max }
    ensures small { result < 65536 }
{
    c.to_u32()
}

/// Returns the maximum.
pub(crate) fn max<C: Channel>() -> u64
    ensures value { result ≡ C.max }
    ensures small { result < 65536 }
{
    number(C::MAX)
}

/// Returns half of one more than the maximum.
pub(crate) fn middle<C: Channel>() -> C
    ensures { C.number result ≡ half C.max }
{
    C::MID
}

/// Returns the channel of a number. Condition: it is at most the maximum.
pub(crate) fn exact<C: Channel>(n: u64) -> C
    requires { n ≤ C.max }
    ensures { C.number result ≡ n }
{
    C::from_ratio(n as i64, 1)
}

/// Returns the channel nearest to `n` / `d`, ties up. In eight bits it divides 32 bits.
///
/// Condition: `n` is at most 2^21 times the maximum, and `d` is positive and at most 2^20.
pub(crate) fn nearest<C: Channel>(n: u64, d: u64) -> C
    requires n_fits { n ≤ 2 ^ 21 * C.max }
    requires positive { 0 < d }
    requires d_fits { d ≤ 2 ^ 20 }
    ensures { C.number result ≡ nearest C.max (pos n) (pos d) }
{
    let max = max::<C>();
    let ratio = divided(2 * n + d, 2 * d, max < 256);
    exact(ratio.min(max))
}

/// Returns `n` / `d` rounded down, in 32 bits where both are known to fit.
fn divided(n: u64, d: u64, narrow: bool) -> u64
    requires positive { 0 < d }
    ensures { result ≡ n / d }
{
    if narrow && n < 1 << 32 && d < 1 << 32 {
        divided_short(n, d)
    } else {
        n / d
    }
}

/// Returns `n` / `d` rounded down, in 32 bits, which many processors divide much faster than 64.
/// Condition: both fit.
#[inline(always)]
pub(crate) fn divided_short(n: u64, d: u64) -> u64
    requires n_fits { n < 2 ^ 32 }
    requires d_fits { d < 2 ^ 32 }
    requires positive { 0 < d }
    ensures { result ≡ n / d }
{
    u64::from(n as u32 / d as u32)
}

/// Returns the maximum less a channel.
pub(crate) fn complement<C: Channel>(c: C) -> C
    ensures { C.number result ≡ C.max - C.number c }
{
    C::MAX - c
}

/// Returns the product of two channels.
pub(crate) fn product<C: Channel>(x: C, y: C) -> C
    ensures { C.number result ≡ channel_product C.max (C.number x) (C.number y) }
{
    x * y
}

/// Returns the quotient of two channels. At eight bits it multiplies by a reciprocal instead of
/// dividing.
#[inline(always)]
pub(crate) fn quotient<C: Channel>(x: C, y: C) -> C
    ensures { C.number result ≡ channel_quotient C.max (C.number x) (C.number y) }
{
    if max::<C>() == 255 {
        exact(quotient_by_byte(256 * number(x), number(y)).min(255))
    } else {
        x / y
    }
}

/// Returns the saturating sum of two channels.
pub(crate) fn sum<C: Channel>(x: C, y: C) -> C
    ensures { C.number result ≡ saturating_sum C.max (C.number x) (C.number y) }
{
    x + y
}

/// Returns the saturating difference of two channels.
pub(crate) fn difference<C: Channel>(x: C, y: C) -> C
    ensures { C.number result ≡ C.number x - C.number y }
{
    x - y
}

/// Returns the lesser of two channels.
pub(crate) fn lesser<C: Channel>(x: C, y: C) -> C
    ensures { C.number result ≡ min (C.number x) (C.number y) }
{
    if x.to_u32() < y.to_u32() { x } else { y }
}
