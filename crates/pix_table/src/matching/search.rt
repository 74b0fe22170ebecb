//! The nearest entry of a color.
ghost use Rattle.std.specs.Prelude.{◌≡◌, ℕ, ◌<◌, ◌≤◌, length, map, Some, None, IfSome};
ghost use Rattle.pix_table.specs.matching.Nearest.{IsNearest, IsNearestOf, IsFirst, numbers, distance, squared_difference};

use crate::color::{Color, TableColor};

/// Returns the index of the entry of `colors` that is nearest to `clr`, the first of equals.
/// Returns `None` where there is no entry.
///
/// The distance of a color is the sum of the squares of its differences in red, green and blue.
pub fn nearest<C: TableColor>(colors: &[C], clr: Color) -> Option<usize>
    ensures nearest { IsNearestOf (map C.channels colors.now) (numbers clr) result }
    ensures standing { (i : ℕ) → IsFirst (map C.channels colors.now) (numbers clr) i
        → result ≡ Some i }
{
    if colors.is_empty() {
        return None;
    }
    let mut at = 0;
    let mut least = distance(colors[0].color(), clr);
    for i in 0..colors.len() {
        let next = distance(colors[i].color(), clr);
        if next < least {
            at = i;
            least = next;
        }
    }
    Some(at)
}

/// Returns the index of the nearest of at least 1 and at most 256 entries.
pub fn search(entries: &[Color], clr: Color) -> u8
    requires some { 0 < length entries.now }
    requires few { length entries.now ≤ 256 }
    ensures { IsNearest (map numbers entries.now) (numbers clr) result }
{
    match nearest(entries, clr) {
        Some(at) => at as u8,
        None => 0,
    }
}

/// Returns how far two colors are apart.
#[inline(always)]
pub fn distance(p: Color, q: Color) -> u32
    ensures distance { result ≡ distance (numbers p) (numbers q) }
    ensures few { result ≤ 195075 }
{
    squared_difference(p.red, q.red)
        + squared_difference(p.green, q.green)
        + squared_difference(p.blue, q.blue)
}

/// Returns the square of how far two channels are apart.
#[inline(always)]
fn squared_difference(x: u8, y: u8) -> u32
    ensures square { result ≡ squared_difference x y }
    ensures few { result ≤ 65025 }
{
    let apart = (i32::from(x) - i32::from(y)).unsigned_abs();
    apart * apart
}
