//! The squared error of levels of gray that are shown by their mean.
ghost use Rattle.std.specs.Prelude.{◌≡◌};
ghost use Rattle.pix_table.specs.quantization.Totals.{HasRoom, error_at};

/// Returns the sum of the squared differences of numbers from their mean, by their count, their
/// sum and the sum of their squares.
#[inline(always)]
pub(crate) fn error_to(count: u128, sum: u128, squares: u128, mean: u128) -> u128
    requires { HasRoom count sum squares mean }
    ensures { result ≡ error_at count sum squares mean }
{
    squares + count * (mean * mean) - 2 * (mean * sum)
}
