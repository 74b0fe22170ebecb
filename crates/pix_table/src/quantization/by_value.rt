//! What place searches read of a box: the sums of its colors of each value of a channel, or words
//! of them.
ghost use Rattle.std.specs.Prelude.{◌≡◌, ℕ, ◌+◌, ◌-◌, ◌*◌, ◌<◌, ◌≤◌, List, true};
ghost use Rattle.pix_table.specs.quantization.BestPlaces.{AreBlockWords, AreByValue, ArePart, AreSums};
ghost use Rattle.pix_table.specs.quantization.BestPlaces.{is_at, weight_by};

use crate::quantization::box_sums::Sums;

/// The sums of the colors of each value of a channel.
pub(crate) trait ByValue {
    /// They are those of a box in a channel.
    ghost sums: { Self → ℕ → List (List ℕ) → Type 0 };

    /// Returns the sums of the colors that have a value in the channel.
    fn at(&self, k: usize, value: usize) -> Sums
        requires channel { k < 3 }
        requires value { value < 256 }
        ensures { (box : List (List ℕ)) → sums self.now k box
            → AreSums (is_at k value) box result };

    /// Returns what a cut gains, where `low` are the sums of the colors below it.
    ///
    /// All colors weigh `whole`.
    fn gain(&self, all: Sums, low: Sums, whole: u128) -> u128
        requires sums { (k : ℕ) × (box : List (List ℕ)) × sums self.now k box
            × AreSums (λ color. true) box all }
        requires part { ArePart low all }
        requires whole { whole ≤ 195075 * all.count }
        ensures { result ≡ weight_by low.count low.red low.green low.blue
            + weight_by (all.count - low.count) (all.red - low.red) (all.green - low.green)
            (all.blue - low.blue)
            - whole };

    /// Returns whether it tells, without a division, that such a cut gains at most `most`.
    fn gains_little(&self, all: Sums, low: Sums, whole: u128, most: u128) -> bool
        requires sums { (k : ℕ) × (box : List (List ℕ)) × sums self.now k box
            × AreSums (λ color. true) box all }
        requires part { ArePart low all }
        requires whole { whole ≤ 195075 * all.count }
        ensures { result ≡ true → weight_by low.count low.red low.green low.blue
            + weight_by (all.count - low.count) (all.red - low.red) (all.green - low.green)
            (all.blue - low.blue)
            - whole ≤ most };
}

impl ByValue for [Sums; 256] {
    ghost sums = { λ parts k box. AreByValue k box parts };

    #[inline(always)]
    fn at(&self, _k: usize, value: usize) -> Sums {
        self[value]
    }

    fn gain(&self, all: Sums, low: Sums, whole: u128) -> u128 {
        all.gain(low, whole)
    }

    fn gains_little(&self, _all: Sums, _low: Sums, _whole: u128, _most: u128) -> bool {
        false
    }
}

/// Words of at most a block of colors.
impl ByValue for [u64; 256] {
    ghost sums = { AreBlockWords };

    #[inline(always)]
    fn at(&self, k: usize, value: usize) -> Sums {
        Sums::of_word(self[value], k, value)
    }

    #[inline(always)]
    fn gain(&self, all: Sums, low: Sums, whole: u128) -> u128 {
        all.gain_of_few(low, whole)
    }

    #[inline(always)]
    fn gains_little(&self, all: Sums, low: Sums, whole: u128, most: u128) -> bool {
        all.gains_little(low, whole, most)
    }
}
