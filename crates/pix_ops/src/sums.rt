//! Which sums of premultiplied sides fit.
ghost use Rattle.std.specs.Prelude.{◌≡◌, ◌↔◌, false};
ghost use Rattle.pix_ops.specs.declared.ops.Op.{Op};
ghost use Rattle.pix_ops.specs.Operators.{sum_fits};

use crate::ops::Op;

/// Returns whether the sum of two premultiplied sides is never above the maximum. Only the sum of
/// `Plus` may not fit.
pub fn always_fits(op: Op) -> bool
    ensures value { result ≡ sum_fits op }
    ensures plus_alone { (result ≡ false) ↔ (op ≡ Op.Plus) }
{
    !matches!(op, Op::Plus)
}
