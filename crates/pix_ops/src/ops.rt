//! The operators of Porter and Duff (Compositing Digital Images, 1984), on one channel at a time.
//!
//! Colors are premultiplied, and the alpha is composited as any other channel. `sa` and `da` are
//! the alphas of source and destination, products are channel products, and sums saturate.
ghost use Rattle.std.specs.Prelude.{◌≡◌, ℕ, ◌-◌, ◌≤◌, List, length, map, slice_get, Some, ◌↔◌, IsTrue, nat_eq, refl};
ghost use Rattle.pix_ops.specs.declared.ops.Op.{Op};
ghost use Rattle.pix_ops.specs.Operators.{row};
ghost use Rattle.pix_ops.specs.Seal.{Seal, seal};
ghost use Rattle.pix_ops.specs.OperatorNames.{operators, op_number, op_name, operator_of};
ghost use Rattle.pix_ops.specs.Composite.{channel_composite, run_composite};
ghost use Rattle.pix_chan.specs.Runs.{over, triples};

use crate::ops::factor::{Factor, One, OneMinusAlpha, OtherAlpha, Zero};
use crate::ops::visitor::OneChannel;
use pix_chan::chan::Channel;

#[doc(hidden)]
pub mod factor;
mod visitor;

pub use visitor::{OpVisitor, SliceVisitor};

/// An operator as a value. A [`Blend`] is an operator as a type.
///
/// # Examples
///
/// ```rust
/// let by_name = Op::from_name(Op::SrcOver.name().as_bytes()); // Some(Op::SrcOver)
/// let by_number = Op::from_number(2); // Some(Op::SrcOver), which is Op::ALL[2]
/// let none = Op::from_name(b"srcover"); // None: exact in case
/// ```
#[derive(Clone, Copy, Debug, Eq)]
pub enum Op {
    /// The source alone: `src`.
    Src,
    /// The destination alone: `dst`.
    Dest,
    /// Source over: `src + dst * (1 - sa)`.
    SrcOver,
    /// Destination over: `src * (1 - da) + dst`.
    DestOver,
    /// Source out: `src * (1 - da)`.
    SrcOut,
    /// Destination out: `dst * (1 - sa)`.
    DestOut,
    /// Source in: `src * da`.
    SrcIn,
    /// Destination in: `dst * sa`.
    DestIn,
    /// Source atop: `src * da + dst * (1 - sa)`.
    SrcAtop,
    /// Destination atop: `src * (1 - da) + dst * sa`.
    DestAtop,
    /// Exclusive or: `src * (1 - da) + dst * (1 - sa)`.
    Xor,
    /// Neither: `0`.
    Clear,
    /// The saturating sum of both: `src + dst`.
    Plus,
}

impl PartialEq for Op {
    ghost use Rattle.std.specs.Prelude.{nat_eq};
    ghost use Rattle.std.specs.Ordering.{on};
    ghost use Rattle.std.specs.Cmp.Rules.{comparing};
    ghost use Rattle.std.proofs.Common.{rules};
    ghost use Rattle.pix_ops.specs.OperatorNames.{op_number};

    ghost eq = { on op_number nat_eq };

    ghost laws = { Prim.search (comparing, rules) };

    /// Returns whether the operators are the same.
    fn eq(&self, other: &Op) -> bool
        ensures value { result ≡ nat_eq (op_number self.now) (op_number other.now) }
        ensures same { IsTrue result ↔ (self.now ≡ other.now) }
    {
        *self as u8 == *other as u8
    }
}

/// An operator as a type. This trait is sealed: the operators are the unit structs of this module.
///
/// # Examples
///
/// ```rust
/// let (src, sa) = (Ch8::new(50), Ch8::new(128));
/// let (mut dst, da) = (Ch8::new(200), Ch8::MAX);
/// SrcOver::composite(&mut dst, Ch8::MAX - da, &src, Ch8::MAX - sa); // 50 + 200 * 127/255
/// ```
pub trait Blend: Copy {
    /// The operator as a value.
    ghost op: { Op };

    /// What the source is multiplied by.
    type Source: Factor;

    /// What the destination is multiplied by.
    type Dest: Factor;

    /// Composites the channel `src` with `dst`. `da1` and `sa1` are one minus their alphas.
    final fn composite<C: Channel>(dst: &mut C, da1: C, src: &C, sa1: C)
        ensures { C.number dst.new ≡ channel_composite C.max op
            (C.number src.now) (C.max - C.number sa1) (C.number dst.old) (C.max - C.number da1) }
    {
        *dst = <Self::Source as Factor>::term(*src, da1) + <Self::Dest as Factor>::term(*dst, sa1);
    }

    /// Composites each channel of `src` with that of `dst` at its index. `da1` and `sa1` have one
    /// minus the alphas there. The shortest length decides, and the rest of `dst` stays as it is.
    #[inline(always)]
    final fn composite_run<C: Channel>(dst: &mut [C], da1: &[C], src: &[C], sa1: &[C])
        ensures { map C.number dst.new ≡ over (run_composite C.max op)
            (triples (map C.number da1.now) (map C.number src.now) (map C.number sa1.now))
            (map C.number dst.old) }
    {
        let count = dst.len().min(da1.len()).min(src.len()).min(sa1.len());
        for k in 0..count.div_ceil(32) {
            let start = 32 * k;
            let end = if count - start < 32 {
                count
            } else {
                start + 32
            };
            Self::composite_block(
                &mut dst[start..end],
                &da1[start..end],
                &src[start..end],
                &sa1[start..end],
            );
        }
    }

    /// Composites each channel of `src` with that of `dst` at its index. `da1` and `sa1` have one
    /// minus the alphas there. It takes less time than [`composite_run`](Blend::composite_run),
    /// since it compares no lengths.
    ///
    /// Condition: all four have one length, of at most thirty-two.
    #[doc(hidden)]
    #[inline(always)]
    final fn composite_block<C: Channel>(dst: &mut [C], da1: &[C], src: &[C], sa1: &[C])
        requires few { length dst.old ≤ 32 }
        requires da1_same { length da1.now ≡ length dst.old }
        requires src_same { length src.now ≡ length dst.old }
        requires sa1_same { length sa1.now ≡ length dst.old }
        ensures { map C.number dst.new ≡ over (run_composite C.max op)
            (triples (map C.number da1.now) (map C.number src.now) (map C.number sa1.now))
            (map C.number dst.old) }
    {
        let count = dst.len();
        let mut array = [C::MIN; 32];
        let whole = &mut array[..];
        let terms = &mut whole[..count];
        terms.copy_from_slice(src);
        <Self::Source as Factor>::scale(terms, da1);
        <Self::Dest as Factor>::scale(dst, sa1);
        C::add_run(dst, terms);
    }

    /// Both are those in the operator's row of the table.
    ghost tabled: { ((row op).source ≡ Self.Source.coefficient)
        × ((row op).dest ≡ Self.Dest.coefficient) };

    /// Seals the trait.
    ghost sealed: { Seal Self };
}

/// Runs the action of a visitor on its target with the operator type of a value.
macro_rules! visit_by {
    ($op:expr, $visitor:expr, $target:expr) => {
        match $op {
            Op::Src => $visitor.visit($target, Src),
            Op::Dest => $visitor.visit($target, Dest),
            Op::SrcOver => $visitor.visit($target, SrcOver),
            Op::DestOver => $visitor.visit($target, DestOver),
            Op::SrcOut => $visitor.visit($target, SrcOut),
            Op::DestOut => $visitor.visit($target, DestOut),
            Op::SrcIn => $visitor.visit($target, SrcIn),
            Op::DestIn => $visitor.visit($target, DestIn),
            Op::SrcAtop => $visitor.visit($target, SrcAtop),
            Op::DestAtop => $visitor.visit($target, DestAtop),
            Op::Xor => $visitor.visit($target, Xor),
            Op::Clear => $visitor.visit($target, Clear),
            Op::Plus => $visitor.visit($target, Plus),
        }
    };
}

impl Op {
    /// All operators, in the order of their numbers.
    pub const ALL: [Op; 13] = [
        Op::Src,
        Op::Dest,
        Op::SrcOver,
        Op::DestOver,
        Op::SrcOut,
        Op::DestOut,
        Op::SrcIn,
        Op::DestIn,
        Op::SrcAtop,
        Op::DestAtop,
        Op::Xor,
        Op::Clear,
        Op::Plus,
    ];

    /// Returns the operator of a number, its index in [`ALL`](Op::ALL).
    pub fn from_number(number: usize) -> Option<Op>
        ensures value { result ≡ slice_get operators number }
        ensures all { (op : Op) → number ≡ op_number op → result ≡ Some op }
    {
        Op::ALL.get(number).copied()
    }

    /// Returns the name of the operator, which is that of its variant.
    pub fn name(self) -> &'static str
        ensures { result.now ≡ op_name self }
    {
        match self {
            Op::Src => "Src",
            Op::Dest => "Dest",
            Op::SrcOver => "SrcOver",
            Op::DestOver => "DestOver",
            Op::SrcOut => "SrcOut",
            Op::DestOut => "DestOut",
            Op::SrcIn => "SrcIn",
            Op::DestIn => "DestIn",
            Op::SrcAtop => "SrcAtop",
            Op::DestAtop => "DestAtop",
            Op::Xor => "Xor",
            Op::Clear => "Clear",
            Op::Plus => "Plus",
        }
    }

    /// Returns the operator of a name, whose case has to match.
    ///
    /// # Examples
    ///
    /// ```rust
    /// let by_name = Op::from_name(Op::SrcOver.name().as_bytes()); // Some(Op::SrcOver)
    /// let by_number = Op::from_number(2); // Some(Op::SrcOver), which is Op::ALL[2]
    /// let none = Op::from_name(b"srcover"); // None: exact in case
    /// ```
    pub fn from_name(name: &[u8]) -> Option<Op>
        ensures { result ≡ operator_of name.now }
    {
        Op::ALL
            .iter()
            .copied()
            .find(|op| op.name().as_bytes() == name)
    }

    /// Runs the action of `visitor` on `target` with this operator.
    pub fn visit<T, V: OpVisitor<T>>(self, visitor: &V, target: &mut T)
        requires { V.can_visit visitor.now self }
        ensures { V.visits visitor.now self target.old target.new }
    {
        visit_by!(self, visitor, target)
    }

    /// Runs the action of `visitor` on `items` with this operator.
    pub fn visit_slice<T, V: SliceVisitor<T>>(self, visitor: &V, items: &mut [T])
        requires { V.can_visit visitor.now self (length items.old) }
        ensures { V.visits visitor.now self items.old items.new }
    {
        visit_by!(self, visitor, items)
    }

    /// Composites the channel `src` with `dst`. `da1` and `sa1` are one minus their alphas.
    ///
    /// # Examples
    ///
    /// ```rust
    /// let (src, sa) = (Ch8::new(50), Ch8::new(128));
    /// let (mut dst, da) = (Ch8::new(200), Ch8::MAX);
    /// SrcOver::composite(&mut dst, Ch8::MAX - da, &src, Ch8::MAX - sa); // 50 + 200 * 127/255
    /// Op::Plus.composite(&mut dst, Ch8::MAX - da, &src, Ch8::MAX - sa); // 50 more
    /// ```
    pub fn composite<C: Channel>(self, dst: &mut C, da1: C, src: &C, sa1: C)
        ensures { C.number dst.new ≡ channel_composite C.max self
            (C.number src.now) (C.max - C.number sa1) (C.number dst.old) (C.max - C.number da1) }
    {
        let src = *src;
        self.visit(&OneChannel { da1, src, sa1 }, dst);
    }
}

/// The source alone: `src`.
#[derive(Clone, Copy)]
pub struct Src;

impl Blend for Src {
    ghost op = { Op.Src };

    type Source = One;

    type Dest = Zero;

    ghost tabled = { (refl, refl) };

    ghost sealed = { seal };
}

/// The destination alone: `dst`.
#[derive(Clone, Copy)]
pub struct Dest;

impl Blend for Dest {
    ghost op = { Op.Dest };

    type Source = Zero;

    type Dest = One;

    ghost tabled = { (refl, refl) };

    ghost sealed = { seal };
}

/// Source over: `src + dst * (1 - sa)`.
#[derive(Clone, Copy)]
pub struct SrcOver;

impl Blend for SrcOver {
    ghost op = { Op.SrcOver };

    type Source = One;

    type Dest = OneMinusAlpha;

    ghost tabled = { (refl, refl) };

    ghost sealed = { seal };
}

/// Destination over: `src * (1 - da) + dst`.
#[derive(Clone, Copy)]
pub struct DestOver;

impl Blend for DestOver {
    ghost op = { Op.DestOver };

    type Source = OneMinusAlpha;

    type Dest = One;

    ghost tabled = { (refl, refl) };

    ghost sealed = { seal };
}

/// Source out: `src * (1 - da)`.
#[derive(Clone, Copy)]
pub struct SrcOut;

impl Blend for SrcOut {
    ghost op = { Op.SrcOut };

    type Source = OneMinusAlpha;

    type Dest = Zero;

    ghost tabled = { (refl, refl) };

    ghost sealed = { seal };
}

/// Destination out: `dst * (1 - sa)`.
#[derive(Clone, Copy)]
pub struct DestOut;

impl Blend for DestOut {
    ghost op = { Op.DestOut };

    type Source = Zero;

    type Dest = OneMinusAlpha;

    ghost tabled = { (refl, refl) };

    ghost sealed = { seal };
}

/// Source in: `src * da`.
#[derive(Clone, Copy)]
pub struct SrcIn;

impl Blend for SrcIn {
    ghost op = { Op.SrcIn };

    type Source = OtherAlpha;

    type Dest = Zero;

    ghost tabled = { (refl, refl) };

    ghost sealed = { seal };
}

/// Destination in: `dst * sa`.
#[derive(Clone, Copy)]
pub struct DestIn;

impl Blend for DestIn {
    ghost op = { Op.DestIn };

    type Source = Zero;

    type Dest = OtherAlpha;

    ghost tabled = { (refl, refl) };

    ghost sealed = { seal };
}

/// Source atop: `src * da + dst * (1 - sa)`.
#[derive(Clone, Copy)]
pub struct SrcAtop;

impl Blend for SrcAtop {
    ghost op = { Op.SrcAtop };

    type Source = OtherAlpha;

    type Dest = OneMinusAlpha;

    ghost tabled = { (refl, refl) };

    ghost sealed = { seal };
}

/// Destination atop: `src * (1 - da) + dst * sa`.
#[derive(Clone, Copy)]
pub struct DestAtop;

impl Blend for DestAtop {
    ghost op = { Op.DestAtop };

    type Source = OneMinusAlpha;

    type Dest = OtherAlpha;

    ghost tabled = { (refl, refl) };

    ghost sealed = { seal };
}

/// Exclusive or: `src * (1 - da) + dst * (1 - sa)`.
#[derive(Clone, Copy)]
pub struct Xor;

impl Blend for Xor {
    ghost op = { Op.Xor };

    type Source = OneMinusAlpha;

    type Dest = OneMinusAlpha;

    ghost tabled = { (refl, refl) };

    ghost sealed = { seal };
}

/// Neither: `0`.
#[derive(Clone, Copy)]
pub struct Clear;

impl Blend for Clear {
    ghost op = { Op.Clear };

    type Source = Zero;

    type Dest = Zero;

    ghost tabled = { (refl, refl) };

    ghost sealed = { seal };
}

/// The saturating sum of both: `src + dst`.
#[derive(Clone, Copy)]
pub struct Plus;

impl Blend for Plus {
    ghost op = { Op.Plus };

    type Source = One;

    type Dest = One;

    ghost tabled = { (refl, refl) };

    ghost sealed = { seal };
}
