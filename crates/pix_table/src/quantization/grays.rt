//! A table of grays with the least squared error.
ghost use Rattle.std.specs.Prelude.{◌≡◌, ℕ, ◌+◌, ◌*◌, ◌<◌, ◌≤◌, All, List, [], ◌∷◌, MatchBool, length, map, take, true, false};
ghost use Rattle.pix_table.specs.quantization.GrayLevels.{AreLevelsOf, AreSumsOf, error_by, error_of, start_at};
ghost use Rattle.pix_table.specs.quantization.Grays.{AreGrays, IsGray, IsLeastTable};
ghost use Rattle.pix_table.specs.matching.Nearest.{distance, numbers};
ghost use Rattle.pix_table.specs.quantization.Totals.{total};
ghost use Rattle.pix_table.specs.declared.color.Color.{Color};

use crate::color::Color;
use crate::quantization::gray_levels::{LevelSums, Levels};
use crate::quantization::gray_parts::find_starts;

/// Returns whether all of some colors are grays.
pub(crate) fn are_grays(colors: &[Color]) -> bool
    ensures { MatchBool result (AreGrays (map numbers colors.now))
        (AreGrays (map numbers colors.now) → ⊥) }
{
    for i in 0..colors.len() {
        if !is_gray(colors[i]) {
            return false;
        }
    }
    true
}

/// Returns whether a color is a gray.
fn is_gray(clr: Color) -> bool
    ensures { MatchBool result (IsGray (numbers clr)) (IsGray (numbers clr) → ⊥) }
{
    clr.green == clr.red && clr.blue == clr.red
}

/// Writes a table of some grays into the first of the entries, from the darkest to the brightest,
/// and returns their number. No table of at most as many entries has a smaller squared error.
///
/// Condition: there is a color, and there are 1 to 256 entries.
// Out of line, so that its stack and that of the cut do not add up.
#[inline(never)]
pub(crate) fn least_table(colors: &[Color], entries: &mut [Color]) -> usize
    requires some { 0 < length colors.now }
    requires grays { AreGrays (map numbers colors.now) }
    requires room { 0 < length entries.old }
    requires few { length entries.old ≤ 256 }
    ensures within { result ≤ length entries.new }
    ensures table { IsLeastTable (length entries.old) (map numbers colors.now)
        (map numbers (take result entries.new)) }
{
    let levels = Levels::of(colors);
    let sums = LevelSums::of(&levels);
    let mut starts = [[0; 256]; 256];
    let room = entries.len();
    least_parts(&sums, levels.len, &mut starts[..room], entries)
}

/// Finds the parts with the least error, and writes their means into the first of the entries.
/// Returns their number.
fn least_parts(
    sums: &LevelSums,
    len: usize,
    starts: &mut [[u8; 256]],
    entries: &mut [Color],
) -> usize
    requires room { length starts.old ≡ length entries.old }
    requires some { 0 < length entries.old }
    requires levels { 0 < len }
    requires sums { (w x : ℕ → ℕ) × AreSumsOf w x len sums.now }
    ensures within { result ≤ length entries.new }
    ensures table { (w x : ℕ → ℕ) → AreSumsOf w x len sums.now → (colors : List Color)
        → AreGrays (map numbers colors) → AreLevelsOf w x len colors
        → IsLeastTable (length entries.old) (map numbers colors)
        (map numbers (take result entries.new)) }
{
    find_starts(sums, len, starts);
    write_parts(sums, len, starts, entries)
}

/// Writes the mean of each part into the first of the entries, the last part first, and returns
/// their number.
fn write_parts(sums: &LevelSums, len: usize, starts: &[[u8; 256]], entries: &mut [Color]) -> usize
    requires room { length starts.now ≡ length entries.old }
    requires some { 0 < length entries.old }
    requires levels { 0 < len }
    requires sums { (w x : ℕ → ℕ) × AreSumsOf w x len sums.now }
    requires stand { (k b : ℕ) → k < length starts.now → b < len → start_at starts.now k b ≤ b }
    requires first { (b : ℕ) → start_at starts.now 0 b ≡ 0 }
    ensures within { result ≤ length entries.new }
    ensures some { 0 < result }
    ensures error { (w x : ℕ → ℕ) → AreSumsOf w x len sums.now → (g : ℕ → ℕ)
        → All (λ e. (v : ℕ) → g v ≤ distance e (v ∷ v ∷ v ∷ []))
        (map numbers (take result entries.new))
        → total w x g len
        ≤ 3 * error_by (error_of sums.now) starts.now (length starts.now) len }
{
    let mut end = len;
    for i in 0..entries.len() {
        if end == 0 {
            return i;
        }
        let start = start_of(starts, starts.len() - 1 - i, end - 1);
        let level = sums.mean(start, end);
        entries[i] = Color {
            red: level,
            green: level,
            blue: level,
        };
        end = start;
    }
    entries.len()
}

/// Returns where the last of `k + 1` parts of the first `b + 1` levels begins.
fn start_of(starts: &[[u8; 256]], k: usize, b: usize) -> usize
    requires parts { k < length starts.now }
    requires levels { b < 256 }
    ensures { result ≡ start_at starts.now k b }
{
    usize::from(starts[k][b])
}
