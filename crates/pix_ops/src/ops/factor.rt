//! What the two sides of a composite are multiplied by.
ghost use Rattle.std.specs.Prelude.{◌≡◌, ◌-◌, ◌≤◌, length, map};
ghost use Rattle.pix_ops.specs.Operators as operators;
ghost use Rattle.pix_ops.specs.Operators.{Coefficient};
ghost use Rattle.pix_ops.specs.Composite.{term};
ghost use Rattle.pix_chan.specs.Runs.{over};

use pix_chan::chan::Channel;

/// What one side of a composite is multiplied by.
pub trait Factor {
    /// The coefficient as a value.
    ghost coefficient: { Coefficient };

    /// Returns a channel times the coefficient, where `alpha1` is one minus the other side's alpha.
    fn term<C: Channel>(c: C, alpha1: C) -> C
        ensures { C.number result ≡ term C.max coefficient (C.number c) (C.max - C.number alpha1) };

    /// Multiplies each channel by the coefficient, where `alpha1` is one minus the other side's
    /// alpha.
    fn scale<C: Channel>(channels: &mut [C], alpha1: &[C])
        requires few { length channels.old ≤ 32 }
        requires same { length alpha1.now ≡ length channels.old }
        ensures { map C.number channels.new ≡
            over (λ a x. term C.max coefficient x (C.max - a))
            (map C.number alpha1.now) (map C.number channels.old) };
}

/// The coefficient 0: the side is left out.
pub struct Zero {}

/// The coefficient 1: the side stays as it is.
pub struct One {}

/// The coefficient that is the other side's alpha.
pub struct OtherAlpha {}

/// The coefficient that is one minus the other side's alpha.
pub struct OneMinusAlpha {}

impl Factor for Zero {
    ghost coefficient = { operators.Zero };

    fn term<C: Channel>(_c: C, _alpha1: C) -> C {
        C::MIN
    }

    #[inline(always)]
    fn scale<C: Channel>(channels: &mut [C], _alpha1: &[C]) {
        for i in 0..channels.len() {
            channels[i] = C::MIN;
        }
    }
}

impl Factor for One {
    ghost coefficient = { operators.One };

    fn term<C: Channel>(c: C, _alpha1: C) -> C {
        c
    }

    #[inline(always)]
    fn scale<C: Channel>(channels: &mut [C], _alpha1: &[C]) {
        let _ = channels;
    }
}

impl Factor for OtherAlpha {
    ghost coefficient = { operators.OtherAlpha };

    fn term<C: Channel>(c: C, alpha1: C) -> C {
        c * (C::MAX - alpha1)
    }

    #[inline(always)]
    fn scale<C: Channel>(channels: &mut [C], alpha1: &[C]) {
        let count = channels.len();
        let mut array = [C::MIN; 32];
        array[..count].copy_from_slice(alpha1);
        let alpha = &C::complement32(array)[..];
        C::mul_run(channels, &alpha[..count]);
    }
}

impl Factor for OneMinusAlpha {
    ghost coefficient = { operators.OneMinusAlpha };

    fn term<C: Channel>(c: C, alpha1: C) -> C {
        c * alpha1
    }

    #[inline(always)]
    fn scale<C: Channel>(channels: &mut [C], alpha1: &[C]) {
        C::mul_run(channels, alpha1);
    }
}
