//! The entries of a palette in cells of eight reds, eight greens and sixteen blues. Those near a
//! color are in the few cells around it.
ghost use Rattle.std.specs.Prelude.{◌≡◌, ◌+◌, ◌<◌, ◌≤◌, ℕ, List, [], ◌∷◌, length, map, true, false};
ghost use Rattle.pix_table.specs.threshold.ColorBlocks.{IsBest, Lies};
ghost use Rattle.pix_table.specs.matching.Nearest.{numbers as color_numbers};
ghost use Rattle.pix_table.specs.threshold.PaletteMatch.{color_difference, difference_to, is_within};
ghost use Rattle.pix_palette.specs.Palette.{numbers};
ghost use Rattle.pix_palette.specs.Finder.{AreFar, AreLists, IsWhole, cell, steps};

use super::lists::Lists;
use pix_el::rgb::SRgb8;
use pix_table::{Closest, Color, TableColor, closest_between};

/// The wanted entry: one from the index `from` on that is no farther from a color than a difference
/// in any channel. It is in a cell from that of `low` to that of `high`.
#[derive(Clone, Copy)]
struct Sought {
    clr: Color,
    least: Color,
    from: usize,
    low: Color,
    high: Color,
}

/// Returns the cell of a color.
pub(super) fn cell_of(clr: Color) -> usize
    ensures cell { result ≡ cell (color_numbers clr) }
    ensures below { result < 16384 }
{
    usize::from(clr.red / 8) * 512 + usize::from(clr.green / 8) * 16 + usize::from(clr.blue / 16)
}

/// Returns whether an entry is no farther from a color than a difference in any channel.
fn is_near(entry: Color, clr: Color, least: Color) -> bool
    ensures { result ≡ is_within (color_difference (color_numbers entry) (color_numbers clr))
        (color_numbers least) }
{
    (entry.red.abs_diff(clr.red) <= least.red)
        & (entry.green.abs_diff(clr.green) <= least.green)
        & (entry.blue.abs_diff(clr.blue) <= least.blue)
}

impl Sought {
    /// Makes a description of the wanted entry.
    fn new(clr: Color, least: Color, from: usize) -> Sought
        ensures clr { result.clr ≡ clr }
        ensures least { result.least ≡ least }
        ensures from { result.from ≡ from }
        ensures near { (entry : List ℕ)
            → is_within (color_difference entry (color_numbers clr)) (color_numbers least) ≡ true
            → Lies (color_numbers result.low) (color_numbers result.high) (steps entry) }
        ensures reds { result.high.red < 32 }
        ensures greens { result.high.green < 32 }
        ensures blues { result.high.blue < 16 }
    {
        Sought {
            clr,
            least,
            from,
            low: Color {
                red: clr.red.saturating_sub(least.red) / 8,
                green: clr.green.saturating_sub(least.green) / 8,
                blue: clr.blue.saturating_sub(least.blue) / 16,
            },
            high: Color {
                red: clr.red.saturating_add(least.red) / 8,
                green: clr.green.saturating_add(least.green) / 8,
                blue: clr.blue.saturating_add(least.blue) / 16,
            },
        }
    }
}

impl Lists {
    /// Returns the first wanted entry of a cell, if it is before `end`, or else `end`.
    fn first_of_cell(&self, colors: &[SRgb8], sought: Sought, place: usize, end: usize) -> usize
        requires lists { AreLists cell (map numbers colors.now) self.now.latest.items
            self.now.earlier.items }
        requires whole { IsWhole (map numbers colors.now) self.now.latest.items
            self.now.earlier.items }
        requires below { place < 16384 }
        requires from { sought.from ≤ end }
        requires end { end ≤ length colors.now }
        ensures from { sought.from ≤ result }
        ensures end { result ≤ end }
        ensures far { AreFar (map numbers colors.now) (color_numbers sought.clr)
            (color_numbers sought.least) sought.from result (λ entry. cell entry ≡ place) }
    {
        let mut found = end;
        let mut at = self.latest[place] as usize;
        while at > sought.from {
            let i = at - 1;
            if is_near(colors[i].color(), sought.clr, sought.least) {
                found = found.min(i);
            }
            at = self.earlier[i] as usize;
        }
        found
    }

    /// Returns the first wanted entry in the cells of a red and a green, if it is before `end`, or
    /// else `end`.
    fn first_of_blues(
        &self,
        colors: &[SRgb8],
        sought: Sought,
        red: usize,
        green: usize,
        end: usize,
    ) -> usize
        requires lists { AreLists cell (map numbers colors.now) self.now.latest.items
            self.now.earlier.items }
        requires whole { IsWhole (map numbers colors.now) self.now.latest.items
            self.now.earlier.items }
        requires reds { red < 32 }
        requires greens { green < 32 }
        requires blues { sought.high.blue < 16 }
        requires from { sought.from ≤ end }
        requires end { end ≤ length colors.now }
        ensures from { sought.from ≤ result }
        ensures end { result ≤ end }
        ensures far { AreFar (map numbers colors.now) (color_numbers sought.clr)
            (color_numbers sought.least) sought.from result (λ entry.
            Lies (red ∷ green ∷ sought.low.blue ∷ []) (red ∷ green ∷ sought.high.blue ∷ [])
            (steps entry)) }
    {
        let mut found = end;
        for blue in usize::from(sought.low.blue)..usize::from(sought.high.blue) + 1 {
            found = self.first_of_cell(colors, sought, red * 512 + green * 16 + blue, found);
        }
        found
    }

    /// Returns the first wanted entry in the cells of a red, if it is before `end`, or else `end`.
    fn first_of_greens(&self, colors: &[SRgb8], sought: Sought, red: usize, end: usize) -> usize
        requires lists { AreLists cell (map numbers colors.now) self.now.latest.items
            self.now.earlier.items }
        requires whole { IsWhole (map numbers colors.now) self.now.latest.items
            self.now.earlier.items }
        requires reds { red < 32 }
        requires greens { sought.high.green < 32 }
        requires blues { sought.high.blue < 16 }
        requires from { sought.from ≤ end }
        requires end { end ≤ length colors.now }
        ensures from { sought.from ≤ result }
        ensures end { result ≤ end }
        ensures far { AreFar (map numbers colors.now) (color_numbers sought.clr)
            (color_numbers sought.least) sought.from result (λ entry.
            Lies (red ∷ sought.low.green ∷ sought.low.blue ∷ [])
            (red ∷ sought.high.green ∷ sought.high.blue ∷ []) (steps entry)) }
    {
        let mut found = end;
        for green in usize::from(sought.low.green)..usize::from(sought.high.green) + 1 {
            found = self.first_of_blues(colors, sought, red, green, found);
        }
        found
    }

    /// Returns the first entry from `from` on that is no farther from a color than a difference in
    /// any channel, or how many entries there are.
    ///
    /// Condition: the lists are by cells, and have all entries.
    pub(super) fn next_near(&self, colors: &[SRgb8], clr: Color, least: Color, from: usize) -> usize
        requires lists { AreLists cell (map numbers colors.now) self.now.latest.items
            self.now.earlier.items }
        requires whole { IsWhole (map numbers colors.now) self.now.latest.items
            self.now.earlier.items }
        requires from { from ≤ length colors.now }
        ensures from { from ≤ result }
        ensures end { result ≤ length colors.now }
        ensures far { (k : ℕ) → from ≤ k → k < result → is_within
            (difference_to (map numbers colors.now) (color_numbers clr) k) (color_numbers least)
            ≡ false }
    {
        let sought = Sought::new(clr, least, from);
        let mut found = colors.len();
        for red in usize::from(sought.low.red)..usize::from(sought.high.red) + 1 {
            found = self.first_of_greens(colors, sought, red, found);
        }
        found
    }

    /// Returns the match of a color, with its difference, given the last candidate among the first
    /// entries. The next candidates are in the cells around the color.
    ///
    /// Condition: the lists are by cells, and have all entries.
    pub(super) fn closest_after(
        &self,
        colors: &[SRgb8],
        clr: Color,
        first: Closest,
    ) -> (usize, Color)
        requires lists { AreLists cell (map numbers colors.now) self.now.latest.items
            self.now.earlier.items }
        requires whole { IsWhole (map numbers colors.now) self.now.latest.items
            self.now.earlier.items }
        requires best { IsBest (map numbers colors.now) (color_numbers clr) first.count first.at
            (color_numbers first.least) }
        requires within { first.count ≤ length colors.now }
        ensures { IsBest (map numbers colors.now) (color_numbers clr) (length colors.now)
            result.0 (color_numbers result.1) }
    {
        let (mut at, mut least) = (first.at, first.least);
        let mut count = first.count;
        while count < colors.len() {
            let next = self.next_near(colors, clr, least, count);
            if next == colors.len() {
                return (at, least);
            }
            (at, least) = closest_between(colors, clr, next, next + 1, at, least);
            count = next + 1;
        }
        (at, least)
    }
}
