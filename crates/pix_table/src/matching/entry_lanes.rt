//! A copy of the entries of a table, for lanes.
ghost use Rattle.std.specs.Prelude.{◌≤◌, ◌<◌};

use crate::color::{Color, TableColor};
use crate::matching::candidates::{Candidates, ENTRIES};
use crate::matching::lanes::nearest_lane;
use crate::threshold::color_block::{ColorBlock, SIZE};
use crate::threshold::color_cache::first_place;

/// The number of blocks of sixteen entries.
const BLOCKS: usize = 16;

/// The number of places that tell most colors apart at once.
const PLACES: usize = 2048;

/// A copy of the entries of a table, at least one and at most 256, in blocks of lanes, with the
/// index of each.
#[derive(Clone, Copy)]
pub struct EntryLanes {
    /// The blocks of entries.
    pub(crate) blocks: [ColorBlock; BLOCKS],
    /// The index of each entry.
    pub(crate) indices: [u8; ENTRIES],
    /// How many entries there are.
    pub(crate) len: usize,
    ghost some: { 0 < len },
    ghost few: { len ≤ 256 },
}

impl EntryLanes {
    ghost use Rattle.std.specs.Prelude.{◌≡◌, ◌≢◌, ℕ, List, [], ◌∷◌, length, map, false};
    ghost use Rattle.pix_table.specs.matching.Nearest.{IsNearest, numbers};
    ghost use Rattle.pix_table.specs.matching.EntryLanes.{AreChosen, AreLanes};

    /// Makes a copy of a table.
    pub(crate) fn new<C: TableColor>(colors: &[C]) -> EntryLanes
        requires some { 0 < length colors.now }
        requires few { length colors.now ≤ 256 }
        ensures { AreLanes (map C.channels colors.now) result }
    {
        let mut chosen = Candidates::none();
        for i in 0..colors.len() {
            chosen.add(colors[i].color(), i as u8);
        }
        EntryLanes::of(chosen)
    }

    /// Makes a copy with only those entries that equal no entry before them.
    ///
    /// Condition: it is a copy of the table `colors`.
    pub(crate) fn distinct<C: TableColor>(&self, colors: &[C]) -> EntryLanes
        requires copy { AreLanes (map C.channels colors.now) self.now }
        requires some { 0 < length colors.now }
        requires few { length colors.now ≤ 256 }
        ensures { AreLanes (map C.channels colors.now) result }
    {
        let mut seen = [false; PLACES];
        let mut chosen = Candidates::none();
        for i in 0..colors.len() {
            let clr = colors[i].color();
            if self.is_first(&mut seen, clr, i) {
                chosen.add(clr, i as u8);
            }
        }
        EntryLanes::of(chosen)
    }

    /// Returns whether no entry before entry `i` has its color. It searches only where a color with
    /// the same place was seen.
    fn is_first(&self, seen: &mut [bool], clr: Color, i: usize) -> bool
        requires { length seen.old ≡ 2048 }
        ensures { result ≡ false → (entries : List (List ℕ)) → AreLanes entries self.now
            → (j : ℕ) × IsNearest entries (numbers clr) j × (j ≢ i) }
    {
        let place = first_place(clr);
        if !seen[place] {
            seen[place] = true;
            return true;
        }
        usize::from(self.nearest(clr)) == i
    }

    /// Makes a copy of the chosen entries.
    fn of(mut chosen: Candidates) -> EntryLanes
        requires some { 0 < chosen.len }
        requires few { chosen.len ≤ 256 }
        ensures lanes { (entries : List (List ℕ)) →
            AreChosen entries (length entries) (map numbers chosen.colors) chosen.indices chosen.len
            → AreLanes entries result }
        ensures len { result.len ≡ chosen.len }
    {
        chosen.fill();
        let mut blocks = [ColorBlock::new(&chosen.colors, 0); BLOCKS];
        for j in 1..(chosen.len + 15) / SIZE {
            blocks[j] = ColorBlock::new(&chosen.colors, SIZE * j);
        }
        EntryLanes {
            blocks,
            indices: chosen.indices,
            len: chosen.len,
        }
    }

    /// Returns the index of the entry that is nearest to a color, the first of equals.
    #[inline(always)]
    pub fn nearest(&self, clr: Color) -> u8
        ensures { (entries : List (List ℕ)) → AreLanes entries self.now
            → IsNearest entries (numbers clr) result }
    {
        self.nearest_to(clr.red, clr.green, clr.blue)
    }

    /// Returns the index of the entry that is nearest to the color of these numbers, the first of
    /// equals.
    // A color would be stored byte by byte and read as a whole, for which a processor waits. Its
    // numbers come in registers.
    #[inline(never)]
    fn nearest_to(&self, red: u8, green: u8, blue: u8) -> u8
        ensures { (entries : List (List ℕ)) → AreLanes entries self.now
            → IsNearest entries (red ∷ green ∷ blue ∷ []) result }
    {
        let clr = Color { red, green, blue };
        let lane = nearest_lane(&self.blocks[..(self.len + 15) / SIZE], clr);
        self.indices[usize::from(lane)]
    }
}
