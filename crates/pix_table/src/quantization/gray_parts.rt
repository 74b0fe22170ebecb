//! Levels of gray in parts with the least squared error.
//!
//! By dynamic programming: the least error of the first levels in so many parts is the least, over
//! all places where the last part may begin, of the least error of the levels before that place in
//! one part less and the error of the last part. That place is no sooner than with one part less,
//! and no later than with one level more (D. Knuth, Optimum binary search trees, 1971). So few
//! places are tried.
ghost use Rattle.std.specs.Prelude.{◌⊎◌, ◌≡◌, ℕ, ◌<◌, ◌≤◌, length};
ghost use Rattle.pix_table.specs.quantization.GrayLevels.{AreLeast, AreSumsOf, error_by, error_of, start_at};

use crate::quantization::gray_levels::LevelSums;

/// The least errors of the first levels in so many parts, for each number of levels, and where the
/// last part begins.
#[derive(Clone, Copy)]
pub(crate) struct Parts {
    errors: [u128; 257],
    starts: [u8; 256],
    ghost long_errors: { length errors ≡ 257 },
    ghost long_starts: { length starts ≡ 256 },
}

impl Parts {
    ghost use Rattle.std.specs.Prelude.{ℕ, ◌+◌, ◌^◌, ◌<◌, ◌≤◌, slice_index};
    ghost use Rattle.pix_table.specs.quantization.GrayLevels.{AreBetween, AreSumsOf, error_of};
    ghost use Rattle.pix_table.specs.quantization.Turns.{IsFirst, IsNext, NoneSooner};

    /// Returns those of one part.
    fn first(sums: &LevelSums, len: usize) -> Parts
        requires levels { (w x : ℕ → ℕ) × AreSumsOf w x len sums.now }
        ensures first { IsFirst (error_of sums.now) len (slice_index result.errors) }
        ensures starts { (b : ℕ) → slice_index result.starts b ≡ 0 }
        ensures small { (b : ℕ) → slice_index result.errors b ≤ 2 ^ 100 }
    {
        let mut errors = [0; 257];
        for end in 1..len + 1 {
            let error = sums.error(0, end);
            errors[end] = error;
        }
        Parts {
            errors,
            starts: [0; 256],
        }
    }

    /// Returns those of one part more.
    fn next(&self, sums: &LevelSums, len: usize) -> Parts
        requires levels { (w x : ℕ → ℕ) × AreSumsOf w x len sums.now }
        requires before { slice_index self.now.errors 0 ≡ 0 }
        requires sooner { NoneSooner (error_of sums.now) len (slice_index self.now.errors)
            (slice_index self.now.starts) }
        requires stand { (b : ℕ) → b < len → slice_index self.now.starts b ≤ b }
        requires small { (b : ℕ) → slice_index self.now.errors b ≤ 2 ^ 100 }
        ensures next { IsNext (error_of sums.now) len (slice_index self.now.errors)
            (slice_index result.errors) (slice_index result.starts) }
        ensures small { (b : ℕ) → slice_index result.errors b ≤ 2 ^ 100 }
    {
        let mut errors = [0; 257];
        let mut starts = [0; 256];
        let mut latest = len;
        for i in 0..len {
            let at = len - 1 - i;
            let last = latest.min(at);
            let earliest = usize::from(self.starts[at]);
            let first = earliest.min(last);
            let best = self.best_start(sums, first, last, at + 1);
            errors[at + 1] = best.error;
            starts[at] = best.level as u8;
            latest = best.level;
        }
        Parts { errors, starts }
    }

    /// Returns where one part more that ends at `end` begins best, of the places from `first` to
    /// `last`: the first of equals.
    fn best_start(&self, sums: &LevelSums, first: usize, last: usize, end: usize) -> Start
        requires order { first ≤ last }
        requires few { last < 256 }
        requires between { (a : ℕ) → a ≤ last → AreBetween sums.now a end }
        requires small { (b : ℕ) → slice_index self.now.errors b ≤ 2 ^ 100 }
        requires small_parts { (a : ℕ) → a ≤ last → error_of sums.now a end ≤ 2 ^ 100 }
        ensures first { first ≤ result.level }
        ensures last { result.level ≤ last }
        ensures made { result.error ≡ slice_index self.now.errors result.level
            + error_of sums.now result.level end }
        ensures least { (a : ℕ) → first ≤ a → a ≤ last → result.error
            ≤ slice_index self.now.errors a + error_of sums.now a end }
    {
        let error = sums.error(first, end);
        let whole = self.errors[first] + error;
        let mut best = Start {
            level: first,
            error: whole,
        };
        for level in first + 1..last + 1 {
            let part = sums.error(level, end);
            let found = self.errors[level] + part;
            best = best.or(Start {
                level,
                error: found,
            });
        }
        best
    }
}

/// Where a part begins, and the error of the levels up to its end.
#[derive(Clone, Copy)]
struct Start {
    level: usize,
    error: u128,
}

impl Start {
    /// Returns the one of two with the lesser error, or the first of equals.
    fn or(self, other: Start) -> Start
        ensures first { result.error ≤ self.error }
        ensures second { result.error ≤ other.error }
        ensures one { ((result.level ≡ self.level) × (result.error ≡ self.error))
            ⊎ ((result.level ≡ other.level) × (result.error ≡ other.error)) }
    {
        if other.error < self.error {
            other
        } else {
            self
        }
    }
}

/// Finds where the parts with the least error begin: `starts[k][b]` says where the last of `k + 1`
/// parts of the first `b + 1` levels does.
pub(crate) fn find_starts(sums: &LevelSums, len: usize, starts: &mut [[u8; 256]])
    requires room { 0 < length starts.old }
    requires levels { (w x : ℕ → ℕ) × AreSumsOf w x len sums.now }
    ensures stand { (k b : ℕ) → k < length starts.old → b < len → start_at starts.new k b ≤ b }
    ensures first { (b : ℕ) → start_at starts.new 0 b ≡ 0 }
    ensures least { (w x : ℕ → ℕ) → AreSumsOf w x len sums.now
        → AreLeast w x len (length starts.old)
        (error_by (error_of sums.now) starts.new (length starts.old)) }
{
    let mut parts = Parts::first(sums, len);
    starts[0] = parts.starts;
    for k in 1..starts.len() {
        parts = parts.next(sums, len);
        starts[k] = parts.starts;
    }
}
