//! A finder of the entries of a palette that equal a color. It looks only at entries of the same
//! place.
//!
//! Multiplicative hashing (D. E. Knuth, *The Art of Computer Programming*, 6.4) gives each color a
//! place. The entries of a place are linked from the latest to the first. Where its memory is
//! refused, all entries are looked at. No answer depends on it.
ghost use Rattle.std.specs.Prelude.{◌≡◌, ◌<◌, ℕ, List, length, map, MatchOption, true};
ghost use Rattle.pix_table.specs.threshold.PaletteMatch.{IsFirstOf};
ghost use Rattle.pix_palette.specs.Palette.{numbers};
ghost use Rattle.pix_palette.specs.Finder.{AreLists, Follows, IsNowhere, IsWhole, place};

use super::lists::Lists;
use super::threshold_search::ThresholdSearch;
use pix_el::rgb::SRgb8;
use pix_table::TableColor;
use std::alloc::Global;

/// With fewer entries than this, all are looked at.
const FEW: usize = 128;

/// The places are made after a number of comparisons of entries with colors: this many times the
/// sum of the number of entries and [`MORE`]. These take longer than making the places.
const TIMES: usize = 4;

/// What is added to the number of entries there.
const MORE: usize = 2048;

/// The entries by the places of their colors, and what finds an entry near a color.
#[derive(Drop)]
pub(super) struct Finder {
    /// The entries by the places of their colors.
    pub(super) lists: Lists,
    /// What finds an entry near a color.
    pub(super) near: ThresholdSearch,
    room: usize,
    compared: usize,
}

/// Returns the place of a color.
fn place_of(clr: SRgb8) -> usize
    ensures place { result ≡ place (numbers clr) }
    ensures below { result < 16384 }
{
    let color = clr.color();
    let number = u64::from(color.red) * 65536
        + u64::from(color.green) * 256
        + u64::from(color.blue);
    (number * 2654435761 / 67108864 % 16384) as usize
}

impl Finder {
    /// Makes a finder of no entries, and takes no memory. It may later have up to `room` entries.
    pub(super) fn new(alloc: Global, room: usize) -> Finder
        ensures { (colors : List (List ℕ)) → Follows colors result }
    {
        Finder {
            lists: Lists::new(alloc),
            near: ThresholdSearch::new(alloc, room),
            room,
            compared: 0,
        }
    }

    /// Makes the lists, if there are none yet, there are enough entries, and enough of them were
    /// compared with colors. Returns whether they are made.
    fn make(&mut self, alloc: Global, count: usize) -> bool
        ensures lists { (colors : List (List ℕ))
            → AreLists place colors self.old.lists.latest.items self.old.lists.earlier.items
            → AreLists place colors self.new.lists.latest.items self.new.lists.earlier.items }
        ensures made { (colors : List (List ℕ))
            → AreLists place colors self.old.lists.latest.items self.old.lists.earlier.items
            → result ≡ true → length self.new.lists.latest.items ≡ 16384 }
        ensures near { self.new.near ≡ self.old.near }
    {
        if self.lists.latest.len() == 0 {
            if count < FEW {
                return false;
            }
            if (self.compared / TIMES).saturating_sub(count) < MORE {
                self.compared = self.compared.saturating_add(count);
                return false;
            }
        }
        self.lists.take_memory(alloc, self.room)
    }

    /// Adds the entries that it lacks. Returns whether it has all of them then.
    pub(super) fn follow(&mut self, alloc: Global, colors: &[SRgb8]) -> bool
        requires { Follows (map numbers colors.now) self.old }
        ensures finder { Follows (map numbers colors.now) self.new }
        ensures whole { result ≡ true → IsWhole (map numbers colors.now)
            self.new.lists.latest.items self.new.lists.earlier.items }
    {
        if !self.make(alloc, colors.len()) {
            return false;
        }
        for i in self.lists.earlier.len()..colors.len() {
            if !self.lists.add(place_of(colors[i])) {
                return false;
            }
        }
        true
    }

    /// Returns the first entry that equals a color.
    ///
    /// Condition: the finder has all entries.
    pub(super) fn first(&self, colors: &[SRgb8], clr: SRgb8) -> Option<usize>
        requires lists { AreLists place (map numbers colors.now) self.now.lists.latest.items
            self.now.lists.earlier.items }
        requires whole { IsWhole (map numbers colors.now) self.now.lists.latest.items
            self.now.lists.earlier.items }
        ensures { MatchOption result (IsNowhere (map numbers colors.now) (numbers clr))
            (IsFirstOf (map numbers colors.now) (numbers clr)) }
    {
        let color = clr.color();
        let mut found = None;
        let mut at = self.lists.latest[place_of(clr)];
        while at > 0 {
            let i = at as usize - 1;
            if colors[i].color() == color {
                found = Some(i);
            }
            at = self.lists.earlier[i];
        }
        found
    }
}
