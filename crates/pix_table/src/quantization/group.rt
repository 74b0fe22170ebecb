//! What is kept of a box of colors: their sums, and what they weigh.
ghost use Rattle.std.specs.Prelude.{◌≡◌, ℕ, ◌+◌, ◌*◌, ◌^◌, ◌<◌, ◌≤◌, ◌++◌, List, length, true};
ghost use Rattle.pix_table.specs.quantization.Joins.{cost_by};
ghost use Rattle.pix_table.specs.quantization.ColorGroups.{IsGroup};

/// The sums of the colors of a box.
pub(crate) trait BoxSums: Copy {
    /// They are those of a box, which has a color.
    ghost are: { List (List ℕ) → Self → Type 0 };

    /// What a box weighs: what its mean accounts for of the sum of its squares.
    ghost weigh: { List (List ℕ) → ℕ };

    /// Returns the sums of two boxes as one.
    fn both(self, other: Self) -> Self
        requires { (a b : List (List ℕ)) × are a self × are b other
            × (length a + length b < 2 ^ 64) }
        ensures { (a b : List (List ℕ)) → are a self → are b other → are (a ++ b) result };

    /// Returns what the box weighs.
    fn box_weight(self) -> u128
        requires { (box : List (List ℕ)) × are box self }
        ensures weight { (box : List (List ℕ)) → are box self → result ≡ weigh box }
        ensures few { (box : List (List ℕ)) → are box self → result ≤ 390150 * length box };

    /// Returns whether the box has so few colors that a number of 64 bits holds what it weighs.
    fn are_few(self) -> bool
        ensures { result ≡ true → (box : List (List ℕ)) → are box self
            → length box < 4194304 };

    /// Returns whether it tells, without a division, that the box weighs at most so much.
    fn box_weighs_at_most(self, most: u128) -> bool
        requires { (box : List (List ℕ)) × are box self }
        ensures { result ≡ true → (box : List (List ℕ)) → are box self → weigh box ≤ most };
}

/// The sums of a box, and what it weighs.
#[derive(Clone, Copy)]
pub(crate) struct Group<S> {
    /// The sums of its colors.
    pub(crate) sums: S,
    /// What it weighs.
    pub(crate) weight: u128,
}

impl<S: BoxSums> Group<S> {
    /// Returns what is kept of a box, by its sums.
    pub(crate) fn of(sums: S) -> Group<S>
        requires { (box : List (List ℕ)) × S.are box sums }
        ensures { (box : List (List ℕ)) → S.are box sums → IsGroup S.are S.weigh box result }
    {
        Group {
            sums,
            weight: sums.box_weight(),
        }
    }

    /// Returns what is kept of two boxes as one.
    pub(crate) fn join(self, other: Group<S>) -> Group<S>
        requires { (a b : List (List ℕ)) × IsGroup S.are S.weigh a self
            × IsGroup S.are S.weigh b other × (length a + length b < 2 ^ 64) }
        ensures { (a b : List (List ℕ)) → IsGroup S.are S.weigh a self
            → IsGroup S.are S.weigh b other → IsGroup S.are S.weigh (a ++ b) result }
    {
        Group::of(self.sums.both(other.sums))
    }

    /// Returns by how much the squared error rises where two boxes become one.
    // Out of line, so that most pairs, which cost too much, take no sums of 128 bits.
    #[inline(never)]
    pub(crate) fn cost(self, other: Group<S>) -> u128
        requires { (a b : List (List ℕ)) × IsGroup S.are S.weigh a self
            × IsGroup S.are S.weigh b other × (length a + length b < 2 ^ 64) }
        ensures { (a b : List (List ℕ)) → IsGroup S.are S.weigh a self
            → IsGroup S.are S.weigh b other → result ≡ cost_by S.weigh a b }
    {
        let both = self.sums.both(other.sums);
        (self.weight + other.weight).saturating_sub(both.box_weight())
    }

    /// Returns whether it tells, without a division, that it rises by more than `most`.
    #[inline(always)]
    pub(crate) fn costs_more(self, other: Group<S>, most: u128) -> bool
        requires { (a b : List (List ℕ)) × IsGroup S.are S.weigh a self
            × IsGroup S.are S.weigh b other × (length a + length b < 2 ^ 64) }
        ensures { result ≡ true → (a b : List (List ℕ)) → IsGroup S.are S.weigh a self
            → IsGroup S.are S.weigh b other → most < cost_by S.weigh a b }
    {
        let both = self.sums.both(other.sums);
        if !both.are_few() {
            return false;
        }
        let apart = self.weight as u64 + other.weight as u64;
        most < u128::from(apart) && both.box_weighs_at_most(u128::from(apart - most as u64 - 1))
    }
}
