//! Actions with an operator as a type.
ghost use Rattle.std.specs.Prelude.{◌≡◌, ℕ, ◌-◌, ⊤, List, length};
ghost use Rattle.pix_ops.specs.declared.ops.Op.{Op};
ghost use Rattle.pix_ops.specs.Composite.{channel_composite};

use crate::ops::Blend;
use pix_chan::chan::Channel;

/// An action on a `T` with its operator as a type. [`Op::visit`] runs it for a value.
pub trait OpVisitor<T> {
    /// The condition under which the action may run with an operator.
    ghost can_visit: { Self → Op → Type 0 };

    /// The relation of the target before and after the action with an operator.
    ghost visits: { Self → Op → T → T → Type 0 };

    /// Runs the action on `target` with the operator `O`.
    fn visit<O: Blend>(&self, target: &mut T, op: O)
        requires { can_visit self.now O.op }
        ensures { visits self.now O.op target.old target.new };
}

/// An action on a slice with its operator as a type. [`Op::visit_slice`] runs it for a value.
pub trait SliceVisitor<T> {
    /// The condition under which the action may run with an operator on this many items.
    ghost can_visit: { Self → Op → ℕ → Type 0 };

    /// The relation of the items before and after the action with an operator.
    ghost visits: { Self → Op → List T → List T → Type 0 };

    /// Runs the action on `items` with the operator `O`.
    fn visit<O: Blend>(&self, items: &mut [T], op: O)
        requires { can_visit self.now O.op (length items.old) }
        ensures { visits self.now O.op items.old items.new };
}

/// The composite of one channel, as an action on the destination.
#[derive(Clone, Copy)]
pub(super) struct OneChannel<C> {
    /// One minus the alpha of the destination.
    pub(super) da1: C,
    /// The channel of the source.
    pub(super) src: C,
    /// One minus the alpha of the source.
    pub(super) sa1: C,
}

impl<C: Channel> OpVisitor<C> for OneChannel<C> {
    ghost can_visit = { λ _ _. ⊤ };

    ghost visits = { λ it op old new. C.number new ≡ channel_composite C.max op
        (C.number it.src) (C.max - C.number it.sa1) (C.number old) (C.max - C.number it.da1) };

    fn visit<O: Blend>(&self, dst: &mut C, _op: O) {
        O::composite(dst, self.da1, &self.src, self.sa1);
    }
}
