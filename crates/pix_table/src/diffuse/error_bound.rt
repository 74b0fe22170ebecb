//! The greatest error that is handed on in a channel.
ghost use Rattle.std.specs.Prelude.{◌≡◌, ℕ, ◌-◌, ◌<◌, ◌≤◌, length, map};
ghost use Rattle.pix_table.specs.diffuse.ErrorBound.{AreLevels, IsErrorBound, IsStep};

use crate::diffuse::diffused_color::{DiffusedColor, ShownAs};

/// The least bound.
const LEAST_BOUND: u8 = 24;

/// The number of levels that a channel may have.
const LEVELS: usize = 256;

/// Returns the greatest error that is handed on in a channel, to some entries: half of the widest
/// step from a level to the next, rounded up, and at least [`LEAST_BOUND`].
// Out of line, so that its stack doesn't add to that of the search.
#[inline(never)]
pub(crate) fn error_bound<S: DiffusedColor, C: ShownAs<S>>(entries: &[C]) -> u8
    ensures { IsErrorBound (map C.shown entries.now) result }
{
    let mut bound = LEAST_BOUND;
    for channel in 0..4 {
        let step = widest_step::<S, C>(entries, channel);
        bound = bound.max(step - step / 2);
    }
    bound
}

/// Returns the widest step from a level of a channel to the next, 0 where it has one level.
fn widest_step<S: DiffusedColor, C: ShownAs<S>>(entries: &[C], channel: usize) -> u8
    requires { channel < 4 }
    ensures wide { (low high : ℕ) → IsStep (map C.shown entries.now) channel low high
        → high - low ≤ result }
    ensures reached { 0 < result → (low : ℕ) × (high : ℕ)
        × IsStep (map C.shown entries.now) channel low high × (high - low ≡ result) }
{
    let is_level = levels::<S, C>(entries, channel);
    let mut widest = 0;
    let mut last = LEVELS;
    for level in 0..LEVELS {
        if is_level[level] {
            widest = level.saturating_sub(last).max(widest);
            last = level;
        }
    }
    widest as u8
}

/// Returns whether each number is a level of a channel.
fn levels<S: DiffusedColor, C: ShownAs<S>>(entries: &[C], channel: usize) -> [bool; LEVELS]
    requires { channel < 4 }
    ensures { AreLevels (map C.shown entries.now) channel (length entries.now) result }
{
    let mut is_level = [false; LEVELS];
    for i in 0..entries.len() {
        is_level[usize::from(entries[i].shown().number(channel))] = true;
    }
    is_level
}
