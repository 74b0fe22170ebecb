//! Lists of the entries of a palette, one for each place that a color may have. A list goes from
//! the latest entry of a place to the first.
//!
//! Their memory is allocated once. Where that fails there are none. No answer depends on them.
ghost use Rattle.std.specs.Prelude.{◌≡◌, ◌+◌, ◌<◌, ℕ, List, length, true};
ghost use Rattle.pix_palette.specs.Finder.{AreLists, place_at};

use std::alloc::Global;

/// The number of places.
const PLACES: usize = 16384;

/// How many entries a table has at most.
const MOST: usize = 4294967295;

/// The latest entry of each place, and for each entry the one before it. They are indices plus one,
/// or 0 where there is none.
#[derive(Drop)]
pub(super) struct Lists {
    /// The latest entry of each place.
    pub(super) latest: Vec<u32>,
    /// For each entry the one before it.
    pub(super) earlier: Vec<u32>,
    asked: bool,
}

impl Lists {
    /// Makes lists of no entries, and takes no memory.
    pub(super) fn new(alloc: Global) -> Lists
        ensures { (placing : List ℕ → ℕ) (colors : List (List ℕ))
            → AreLists placing colors result.latest.items result.earlier.items }
    {
        Lists {
            latest: Vec::new(alloc),
            earlier: Vec::new(alloc),
            asked: false,
        }
    }

    /// Allocates memory once for all places and for `room` entries. Returns whether that succeeded.
    pub(super) fn take_memory(&mut self, alloc: Global, room: usize) -> bool
        ensures lists { (placing : List ℕ → ℕ) (colors : List (List ℕ))
            → AreLists placing colors self.old.latest.items self.old.earlier.items
            → AreLists placing colors self.new.latest.items self.new.earlier.items }
        ensures made { (placing : List ℕ → ℕ) (colors : List (List ℕ))
            → AreLists placing colors self.old.latest.items self.old.earlier.items
            → result ≡ true → length self.new.latest.items ≡ 16384 }
    {
        if self.latest.len() > 0 {
            return true;
        }
        if self.asked {
            return false;
        }
        self.asked = true;
        let Ok(latest) = Vec::from_elem(alloc, 0, PLACES) else {
            return false;
        };
        let Ok(earlier) = Vec::with_capacity(alloc, room) else {
            return false;
        };
        self.latest = latest;
        self.earlier = earlier;
        true
    }

    /// Adds the next entry, given the place of its color. Returns whether there is room for it.
    pub(super) fn add(&mut self, place: usize) -> bool
        requires made { length self.old.latest.items ≡ 16384 }
        requires below { place < 16384 }
        ensures made { length self.new.latest.items ≡ 16384 }
        ensures added { (placing : List ℕ → ℕ) (colors : List (List ℕ))
            → AreLists placing colors self.old.latest.items self.old.earlier.items
            → length self.old.earlier.items < length colors
            → place_at placing colors (length self.old.earlier.items) ≡ place
            → AreLists placing colors self.new.latest.items self.new.earlier.items }
        ensures one { result ≡ true
            → length self.new.earlier.items ≡ length self.old.earlier.items + 1 }
    {
        let count = self.earlier.len();
        if count >= MOST || count >= self.earlier.capacity() {
            return false;
        }
        let before = self.latest[place];
        self.earlier.push_reserved(before);
        self.latest[place] = count as u32 + 1;
        true
    }
}
