//! Whole numbers from 0 up to a maximum, for channels of every width.
ghost use Rattle.std.specs.Prelude.{◌≡◌, ℕ, neg_ℤ, pos, ◌+◌, ◌*◌, ◌^◌, ◌<◌, ◌≤◌, ◌+ℤ◌, ◌*ℤ◌, ◌<ℤ◌};
ghost use Rattle.pix_chan.specs.Step.{step, channel_lerp};
ghost use Rattle.pix_chan.specs.Nearest.{nearest};

/// How many whole units `fall` / `max` is below 0, rounded up. A remainder of 1 after at least one
/// whole unit is dropped.
fn units_down(fall: u64, max: u64) -> u64
    requires { 1 < max }
    ensures value { neg_ℤ (pos result) ≡ step max (neg_ℤ (pos fall)) }
    ensures within { (d : ℕ) → fall ≤ max * d → result ≤ d }
{
    let units = fall / max;
    let dropped = units.min(1);
    if fall % max <= dropped {
        units
    } else {
        units + 1
    }
}

/// The number that is `t` / `max` of the way from `start` to `end`.
pub fn lerp(start: u64, end: u64, t: u64, max: u64) -> u64
    requires some { 1 < max }
    requires small { max < 65536 }
    requires starts { start ≤ max }
    requires ends { end ≤ max }
    requires part { t ≤ max }
    ensures value { pos result ≡ channel_lerp max start end t }
    ensures fits { result ≤ max }
{
    if start <= end {
        start + t * (end - start) / max
    } else {
        start - units_down(t * (start - end), max)
    }
}

/// The whole number nearest to `n` / `d`, at most `max`. A tie is rounded up.
pub fn nearest(n: i64, d: i64, max: u64) -> u64
    requires positive { pos 0 <ℤ d }
    requires sum_fits { (pos 2 *ℤ n +ℤ d) <ℤ pos (2 ^ 63) }
    requires twice_fits { (pos 2 *ℤ d) <ℤ pos (2 ^ 63) }
    ensures value { result ≡ nearest max n d }
    ensures fits { result ≤ max }
{
    if n < 0 {
        return 0;
    }
    let n = n.unsigned_abs();
    let d = d.unsigned_abs();
    ((2 * n + d) / (2 * d)).min(max)
}
