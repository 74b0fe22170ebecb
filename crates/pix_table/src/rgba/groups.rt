//! Where an entry goes, by the sums of the seen colors that go to it.
ghost use Rattle.std.specs.Prelude.{◌≡◌, ℕ, ◌+◌, ◌-◌, ◌*◌, ◌<◌, ◌≤◌, List, nat_le};
ghost use Rattle.pix_table.specs.SeenPixels.{AreSeen, seen_numbers};
ghost use Rattle.pix_table.specs.quantization.SeenCut.{seen_mean};
ghost use Rattle.pix_table.specs.quantization.SeenGroups.{AreGroupSums, product_by};
ghost use Rattle.pix_table.specs.quantization.SeenTables.{error_to, seen_settled};

use crate::rgba::color::SeenColor;
use crate::rgba::sums::SeenSums;

/// Numbers over black, and what white adds to each: of a color, or sums of those of colors.
#[derive(Clone, Copy)]
struct Terms {
    red: u128,
    green: u128,
    blue: u128,
    rest: u128,
}

/// Returns where an entry goes, by the sums of its colors: to their mean, where that makes their
/// squared error no greater. Else it stays.
pub(crate) fn settled(sums: SeenSums, entry: SeenColor) -> SeenColor
    requires sums { (group : List (List ℕ)) × AreGroupSums group sums }
    requires entry { AreSeen (seen_numbers entry) }
    ensures settled { (group : List (List ℕ)) → AreGroupSums group sums
        → seen_numbers result ≡ seen_settled (seen_numbers entry) group }
    ensures seen { AreSeen (seen_numbers result) }
{
    if sums.count == 0 {
        return entry;
    }
    let mean = mean_of(sums);
    if is_no_worse(sums, mean, entry) {
        mean
    } else {
        entry
    }
}

/// Returns the mean of some colors by their sums. Condition: there is a color.
fn mean_of(sums: SeenSums) -> SeenColor
    requires some { 0 < sums.count }
    requires sums { (group : List (List ℕ)) × AreGroupSums group sums }
    ensures mean { (group : List (List ℕ)) → AreGroupSums group sums
        → seen_numbers result ≡ seen_mean group }
    ensures seen { AreSeen (seen_numbers result) }
{
    sums.mean()
}

/// Returns whether the squared error of some colors to one color is not above that to another.
fn is_no_worse(sums: SeenSums, new: SeenColor, old: SeenColor) -> bool
    requires sums { (group : List (List ℕ)) × AreGroupSums group sums }
    requires new { AreSeen (seen_numbers new) }
    requires old { AreSeen (seen_numbers old) }
    ensures { (group : List (List ℕ)) → AreGroupSums group sums
        → result ≡ nat_le (error_to (seen_numbers new) group)
        (error_to (seen_numbers old) group) }
{
    let count = sums.count as u128;
    let all = Terms {
        red: sums.red,
        green: sums.green,
        blue: sums.blue,
        rest: 255 * count - sums.alpha,
    };
    let (new, old) = (Terms::of(new), Terms::of(old));
    count * new.product(new) + 2 * old.product(all)
        <= count * old.product(old) + 2 * new.product(all)
}

impl Terms {
    /// Returns those of a color.
    fn of(clr: SeenColor) -> Terms
        requires { AreSeen (seen_numbers clr) }
        ensures red { result.red ≡ clr.red }
        ensures green { result.green ≡ clr.green }
        ensures blue { result.blue ≡ clr.blue }
        ensures rest { result.rest ≡ 255 - clr.alpha }
    {
        Terms {
            red: u128::from(clr.red),
            green: u128::from(clr.green),
            blue: u128::from(clr.blue),
            rest: u128::from(255 - clr.alpha),
        }
    }

    /// Returns the products of a color's numbers and others, over black and over white, added.
    fn product(self, by: Terms) -> u128
        requires red { self.red + self.rest ≤ 255 }
        requires green { self.green + self.rest ≤ 255 }
        requires blue { self.blue + self.rest ≤ 255 }
        requires by_red { by.red + by.rest ≤ 4722366482869645213696 }
        requires by_green { by.green + by.rest ≤ 4722366482869645213696 }
        requires by_blue { by.blue + by.rest ≤ 4722366482869645213696 }
        ensures product { result ≡ product_by self.red self.green self.blue self.rest
            by.red by.green by.blue by.rest }
        ensures few { (most : ℕ) → by.red + by.rest ≤ most → by.green + by.rest ≤ most
            → by.blue + by.rest ≤ most → result ≤ 1530 * most }
    {
        let black = self.red * by.red + self.green * by.green + self.blue * by.blue;
        let red = (self.red + self.rest) * (by.red + by.rest);
        let green = (self.green + self.rest) * (by.green + by.rest);
        let blue = (self.blue + self.rest) * (by.blue + by.rest);
        black + red + green + blue
    }
}
