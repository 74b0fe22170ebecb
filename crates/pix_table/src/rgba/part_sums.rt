//! The sums of the seen colors of a part of a box, in words as wide as they need.
ghost use Rattle.std.specs.Prelude.{◌≡◌, ℕ, ◌+◌, ◌*◌, ◌<◌, All, length};
ghost use Rattle.pix_table.specs.quantization.SeenSums.{AreFew};
ghost use Rattle.pix_table.specs.quantization.PartSums.{AreNone, few_sums};
ghost use Rattle.pix_table.specs.declared.rgba.sums.SeenSums.{SeenSums};

use crate::rgba::color::SeenColor;
use crate::rgba::sums::SeenSums;

/// A type of sums of fewer colors than its limit.
pub(crate) trait PartSums: Copy {
    /// The sums.
    ghost whole: { Self → SeenSums };

    /// There are fewer colors.
    ghost limit: { ℕ };

    /// Returns the sums of no colors.
    fn no_colors() -> Self
        ensures { AreNone (whole result) };

    /// Returns the sums of a color that stands so often.
    fn of_color(clr: SeenColor, times: u16) -> Self
        ensures count { (whole result).count ≡ times }
        ensures red { (whole result).red ≡ times * clr.red }
        ensures green { (whole result).green ≡ times * clr.green }
        ensures blue { (whole result).blue ≡ times * clr.blue }
        ensures alpha { (whole result).alpha ≡ times * clr.alpha };

    /// Returns the sums of these colors and of others.
    fn joined(self, more: Self) -> Self
        requires count { (whole self).count + (whole more).count < limit }
        requires few { AreFew (whole self) }
        requires more { AreFew (whole more) }
        ensures count { (whole result).count ≡ (whole self).count + (whole more).count }
        ensures red { (whole result).red ≡ (whole self).red + (whole more).red }
        ensures green { (whole result).green ≡ (whole self).green + (whole more).green }
        ensures blue { (whole result).blue ≡ (whole self).blue + (whole more).blue }
        ensures alpha { (whole result).alpha ≡ (whole self).alpha + (whole more).alpha };

    /// Returns the sums.
    fn sums(self) -> SeenSums
        ensures { result ≡ whole self };
}

impl PartSums for SeenSums {
    ghost whole = { λ sums. sums };

    ghost limit = { 18446744073709551616 };

    fn no_colors() -> SeenSums {
        SeenSums::none()
    }

    #[inline(always)]
    fn of_color(clr: SeenColor, times: u16) -> SeenSums {
        SeenSums::of_times(clr, times)
    }

    #[inline(always)]
    fn joined(self, more: SeenSums) -> SeenSums {
        self.and(more)
    }

    #[inline(always)]
    fn sums(self) -> SeenSums {
        self
    }
}

/// Makes some sums those of no colors.
pub(crate) fn clear<S: PartSums>(parts: &mut [S])
    ensures long { length parts.new ≡ length parts.old }
    ensures none { All (λ sums. AreNone (S.whole sums)) parts.new }
{
    for i in 0..parts.len() {
        parts[i] = S::no_colors();
    }
}

/// Fewer colors than these have sums of at most 32 bits.
pub(crate) const FEW_COLORS: usize = 1 << 24;

/// The sums of few colors.
#[derive(Clone, Copy)]
pub(crate) struct PartSums32 {
    count: u32,
    red: u32,
    green: u32,
    blue: u32,
    alpha: u32,
}

impl PartSums for PartSums32 {
    ghost whole = { few_sums };

    ghost limit = { 16777216 };

    fn no_colors() -> PartSums32 {
        PartSums32 {
            count: 0,
            red: 0,
            green: 0,
            blue: 0,
            alpha: 0,
        }
    }

    #[inline(always)]
    fn of_color(clr: SeenColor, times: u16) -> PartSums32 {
        let count = u32::from(times);
        PartSums32 {
            count,
            red: count * u32::from(clr.red),
            green: count * u32::from(clr.green),
            blue: count * u32::from(clr.blue),
            alpha: count * u32::from(clr.alpha),
        }
    }

    #[inline(always)]
    fn joined(self, more: PartSums32) -> PartSums32 {
        PartSums32 {
            count: self.count + more.count,
            red: self.red + more.red,
            green: self.green + more.green,
            blue: self.blue + more.blue,
            alpha: self.alpha + more.alpha,
        }
    }

    #[inline(always)]
    fn sums(self) -> SeenSums {
        SeenSums {
            count: self.count as usize,
            red: u128::from(self.red),
            green: u128::from(self.green),
            blue: u128::from(self.blue),
            alpha: u128::from(self.alpha),
        }
    }
}
