//! What a cut of boxes asks of a type of color, and of the items of the boxes.
ghost use Rattle.std.specs.Prelude.{◌≡◌, ℕ, ◌^◌, ◌<◌, All, List, length, map, slice_index, sum_by, MatchOption};
ghost use Rattle.pix_table.specs.quantization.Items.{spread, times_of, weigh_items};
ghost use Rattle.pix_table.specs.quantization.Places.{CannotBeCutBy, HasBestBy};

use crate::quantization::group::BoxSums;
use crate::quantization::items::Counted;
use crate::quantization::place::Place;

/// A type of color, of whose items boxes are cut, and joined.
pub(crate) trait Cutting: Counted {
    /// The sums of a box.
    type Sums: BoxSums;

    /// The mean of a box.
    ghost middle: { List (List ℕ) → List ℕ };

    /// The condition on each item of a box.
    ghost fits: { List ℕ → Type 0 };

    /// Returns the mean of a box by its sums.
    fn mean_color(sums: Self::Sums) -> Self
        requires { (box : List (List ℕ)) × Self.Sums.are box sums }
        ensures { (box : List (List ℕ)) → Self.Sums.are box sums
            → Self.parts result ≡ middle box };
}

/// A color, and how often it stands.
pub(crate) trait Item<C: Cutting>: Copy {
    /// The numbers of the color, and behind them how often it stands.
    ghost numbers: { Self → List ℕ };

    /// Returns the item. Where a copy would go by memory, its numbers go by registers.
    fn kept(self) -> Self
        ensures { result ≡ self };

    /// Returns the number of a channel of the color.
    fn channel(self, k: usize) -> u8
        requires { k < C.channels }
        ensures { result ≡ slice_index (numbers self) k };

    /// Returns the place at which a cut of a box gains most, the first of equals.
    ///
    /// It is `None` where all its colors are the same.
    fn best_place(items: &[Self]) -> Option<Place>
        requires fit { All C.fits (map numbers items.now) }
        requires few { sum_by (times_of C.channels) (map numbers items.now) < 2 ^ 64 }
        ensures { MatchOption result (CannotBeCutBy C.channels (map numbers items.now))
            (λ place. HasBestBy C.channels (weigh_items C.channels C.Sums.weigh)
            (map numbers items.now) place.channel place.value place.gain) };

    /// Returns the sums of the colors of a box. Condition: it has one.
    fn sums_of(items: &[Self]) -> C::Sums
        requires some { 0 < length items.now }
        requires fit { All C.fits (map numbers items.now) }
        requires few { sum_by (times_of C.channels) (map numbers items.now) < 2 ^ 64 }
        ensures { C.Sums.are (spread C.channels (map numbers items.now)) result };
}
