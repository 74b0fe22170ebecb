//! What searches the nearest entries of a table.
ghost use Rattle.std.specs.Prelude.{ℕ, List, length};
ghost use Rattle.pix_table.specs.matching.Nearest.{IsNearest, numbers};

use crate::color::Color;

/// A search for the nearest entries of a table.
pub trait NearestSearch {
    /// It finds those of these entries.
    ghost finds: { Self → List (List ℕ) → Type 0 };

    /// Returns the index of the entry that is nearest to a color, the first of equals.
    fn nearest_entry(&mut self, clr: Color) -> u8
        ensures nearest { (entries : List (List ℕ)) → finds self.old entries
            → IsNearest entries (numbers clr) result }
        ensures same { (entries : List (List ℕ)) → finds self.old entries
            → finds self.new entries };
}

/// An action on a slice that asks for the nearest entries of a table. It may have work memory.
pub trait SearchVisitor<T> {
    /// The condition under which the action may run on this many items, with a search among these
    /// entries and this many colors of work memory.
    ghost can_visit: { Self → List (List ℕ) → ℕ → ℕ → Type 0 };

    /// The relation of the entries, and the items before and after the action.
    ghost visits: { Self → List (List ℕ) → List T → List T → Type 0 };

    /// Runs the action.
    fn visit<N: NearestSearch>(&self, search: &mut N, items: &mut [T], work: &mut [Color])
        requires { (entries : List (List ℕ)) × N.finds search.old entries
            × can_visit self.now entries (length items.old) (length work.old) }
        ensures { (entries : List (List ℕ)) → N.finds search.old entries
            → visits self.now entries items.old items.new };
}
