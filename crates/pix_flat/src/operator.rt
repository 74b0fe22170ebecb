//! Operators by their numbers.
ghost use Rattle.std.specs.Prelude.{◌≡◌};
ghost use Rattle.pix_flat.specs.Command.{op_at};

use pix_ops::ops::Op;

/// Returns the operator of a number, and `Src` where there is none. A number without an operator is
/// refused earlier.
pub(crate) fn op_at(number: u32) -> Op
    ensures { result ≡ op_at number }
{
    Op::from_number(number as usize).unwrap_or(Op::Src)
}
