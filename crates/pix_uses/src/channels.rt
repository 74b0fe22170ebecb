//! Channels of either width. Each caller relies on a law that a call keeps.
ghost use Rattle.std.specs.Prelude.{◌≡◌, ℕ, pos, ◌+◌, ◌-◌, ◌*◌, ◌^◌, ◌<◌, ◌≤◌, ◌<ℤ◌};
ghost use Rattle.pix.specs.Nearest.{distance};

use pix::chan::{Ch8, Ch16, Channel};

/// Raises a channel a part of the way to one that is no lower. The result always lies between the
/// two.
pub fn raised<C: Channel>(low: C, high: C, t: C) -> C
    requires { C.number low ≤ C.number high }
    ensures low { C.number low ≤ C.number result }
    ensures high { C.number result ≤ C.number high }
{
    low.lerp(high, t)
}

/// Fades from one channel to another. It reaches both ends, and is less than one unit off on the
/// way.
pub fn fade<C: Channel>(start: C, end: C, t: C) -> C
    ensures starts { C.number t ≡ 0 → C.number result ≡ C.number start }
    ensures arrives { C.number t ≡ C.max → C.number result ≡ C.number end }
    ensures above { C.max * C.number result
        < (C.max - C.number t) * C.number start + C.number t * C.number end + C.max }
    ensures below { (C.max - C.number t) * C.number start + C.number t * C.number end
        < C.max * C.number result + C.max }
{
    start.lerp(end, t)
}

/// Returns the mean of `count` channels whose numbers add up to `sum`: no channel is nearer.
///
/// Condition: `count` is positive, and both are below 2^61.
pub fn mean<C: Channel>(sum: i64, count: i64) -> C
    requires some { pos 0 <ℤ count }
    requires few { count <ℤ pos (2 ^ 61) }
    requires small { sum <ℤ pos (2 ^ 61) }
    ensures { (k : ℕ) → k ≤ C.max
        → distance sum count (C.number result) ≤ distance sum count k }
{
    C::from_ratio(sum, count)
}

/// Takes a channel to sixteen bits and back: it is the channel again.
pub fn there_and_back(channel: Ch8) -> Ch8
    ensures { result.value ≡ channel.value }
{
    Ch8::from(Ch16::from(channel))
}

/// Divides a channel by one that is no smaller, and multiplies it again. At most one unit is lost
/// or gained.
pub fn restored<C: Channel>(part: C, whole: C) -> C
    requires { C.number part ≤ C.number whole }
    ensures above { C.number result ≤ C.number part + 1 }
    ensures below { C.number part ≤ C.number result + 1 }
{
    part / whole * whole
}
