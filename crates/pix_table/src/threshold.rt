//! The entry that stands for a color, which is its match where that is within a threshold.
ghost use Rattle.std.specs.Prelude.{◌≡◌, ◌<◌, ◌≤◌, length, map};
ghost use Rattle.pix_table.specs.threshold.ColorBlocks.{IsBest};
ghost use Rattle.pix_table.specs.matching.Nearest.{numbers};
ghost use Rattle.pix_table.specs.SrgbColor.{srgb_numbers};
ghost use Rattle.pix_table.specs.threshold.PaletteMatch.{IsMatch, color_difference, difference_to, is_closer, is_within};
ghost use Rattle.pix_table.specs.threshold.Setting.{Always, StandsFor};

use crate::color::{Color, TableColor};
use crate::quantization::same;
use pix_chan::chan::Ch8;
use pix_el::el::Pix;
use pix_el::rgb::{Rgb, SRgb8};

pub(crate) mod color_block;
pub(crate) mod color_cache;
pub(crate) mod in_blocks;
pub(crate) mod index;
pub(crate) mod set;
pub(crate) mod table_blocks;

/// Returns a color as a pixel, whose model tells how far colors are apart.
#[inline(always)]
fn pixel(clr: Color) -> SRgb8
    ensures { srgb_numbers result ≡ numbers clr }
{
    Pix::with_channels([Ch8::new(clr.red), Ch8::new(clr.green), Ch8::new(clr.blue)])
}

/// Returns how far two colors are apart in each channel.
#[inline(always)]
fn apart(p: Color, q: Color) -> Color
    ensures { numbers result ≡ color_difference (numbers p) (numbers q) }
{
    Rgb::difference(pixel(p), pixel(q)).color()
}

/// Returns whether a difference is no greater than a threshold in any channel.
#[inline(always)]
pub fn is_within(difference: Color, threshold: Color) -> bool
    ensures { result ≡ is_within (numbers difference) (numbers threshold) }
{
    Rgb::within_threshold(pixel(difference), pixel(threshold))
}

/// Returns whether a difference is no greater than another in any channel, and not equal to it.
fn is_closer(difference: Color, least: Color) -> bool
    ensures { result ≡ is_closer (numbers difference) (numbers least) }
{
    is_within(difference, least) && !same(difference, least)
}

/// Returns whether a color is no farther from another than a difference in any channel. It looks at
/// green and blue only where the channels before them are near, which few entries are.
#[inline(always)]
fn is_near(color: Color, clr: Color, least: Color) -> bool
    ensures { result ≡ is_within (color_difference (numbers color) (numbers clr)) (numbers least) }
{
    color.red.abs_diff(clr.red) <= least.red
        && color.green.abs_diff(clr.green) <= least.green
        && color.blue.abs_diff(clr.blue) <= least.blue
}

/// Returns entry 0, which is the first candidate, with its difference. Condition: there is one.
pub(crate) fn closest_of_one<C: TableColor>(colors: &[C], clr: Color) -> (usize, Color)
    requires { 0 < length colors.now }
    ensures { IsBest (map C.channels colors.now) (numbers clr) 1 result.0 (numbers result.1) }
{
    (0, apart(colors[0].color(), clr))
}

/// Returns the last candidate of the entries before `end`, with its difference, given that of the
/// entries before `start`.
pub fn closest_between<C: TableColor>(
    colors: &[C],
    clr: Color,
    start: usize,
    end: usize,
    at: usize,
    least: Color,
) -> (usize, Color)
    requires order { start ≤ end }
    requires within { end ≤ length colors.now }
    requires best { IsBest (map C.channels colors.now) (numbers clr) start at (numbers least) }
    ensures { IsBest (map C.channels colors.now) (numbers clr) end result.0 (numbers result.1) }
{
    let (mut at, mut least) = (at, least);
    for i in start..end {
        let color = colors[i].color();
        if is_near(color, clr, least) {
            let difference = apart(color, clr);
            if is_closer(difference, least) {
                at = i;
                least = difference;
            }
        }
    }
    (at, least)
}

/// Returns the match of a color, with its difference. Condition: there is an entry.
fn closest<C: TableColor>(colors: &[C], clr: Color) -> (usize, Color)
    requires { 0 < length colors.now }
    ensures found { IsMatch (map C.channels colors.now) (numbers clr) result.0 }
    ensures difference { numbers result.1 ≡
        difference_to (map C.channels colors.now) (numbers clr) result.0 }
{
    let (at, least) = closest_of_one(colors, clr);
    closest_between(colors, clr, 1, colors.len(), at, least)
}

/// Returns the entry that stands for a color. That is its match, if the match is within the
/// threshold, and else `None`.
pub fn standing<C: TableColor>(colors: &[C], clr: Color, threshold: Color) -> Option<usize>
    ensures { StandsFor (Always (numbers threshold)) (map C.channels colors.now) (numbers clr)
        result }
{
    if colors.is_empty() {
        return None;
    }
    let (at, difference) = closest(colors, clr);
    if is_within(difference, threshold) {
        Some(at)
    } else {
        None
    }
}
