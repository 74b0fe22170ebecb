//! Alpha modes and gamma modes of channels.
ghost use Rattle.std.specs.Prelude.{◌≡◌, ℕ, refl};
ghost use Rattle.pix_chan.specs.Modes.{AlphaMode, GammaMode, alpha_kind, gamma_kind};
ghost use Rattle.pix_chan.specs.Modes.{alpha_encoded, alpha_decoded, to_linear, from_linear};
ghost use Rattle.pix_chan.specs.Modes as modes;
ghost use Rattle.pix_chan.specs.Seal.{Seal, seal};

use crate::chan::{Ch8, Channel};
use std::fmt::Debug;

/// An alpha mode: whether color channels are stored multiplied by the alpha. This trait is sealed.
///
/// # Examples
///
/// ```rust
/// let light = Ch8::new(188).decode_srgb(); // 128
/// let shown = light.encode_srgb(); // 188
/// let same = <Srgb as Gamma<Ch8>>::to_linear(shown); // 128
/// let stored = Premultiplied::encode(same, light); // 64
/// let straight = Premultiplied::decode(stored, light); // 128
/// ```
pub trait Alpha: Clone + Copy + Debug + Default + PartialEq {
    /// The mode as a row of the table of alpha modes.
    ghost mode: { AlphaMode };

    /// The value of [`KIND`](Alpha::KIND).
    ghost KIND: { ℕ };

    /// A number that only this alpha mode has.
    const KIND: u8;

    /// Encodes: returns the straight color channel `c` as this mode stores it at the alpha `a`.
    fn encode<C: Channel>(c: C, a: C) -> C
        ensures { C.number result ≡ alpha_encoded mode C.max (C.number c) (C.number a) };

    /// Decodes: returns the straight color channel that this mode stores as `c` at the alpha `a`.
    fn decode<C: Channel>(c: C, a: C) -> C
        ensures { C.number result ≡ alpha_decoded mode C.max (C.number c) (C.number a) };

    /// `KIND` is the number in the table.
    ghost tabled: { alpha_kind mode ≡ KIND };

    /// Seals the trait.
    ghost sealed: { Seal Self };
}

/// A gamma mode: how a channel of type `C` encodes light. This trait is sealed.
///
/// # Examples
///
/// ```rust
/// let light = Ch8::new(188).decode_srgb(); // 128
/// let shown = light.encode_srgb(); // 188
/// let same = <Srgb as Gamma<Ch8>>::to_linear(shown); // 128
/// ```
pub trait Gamma<C: Channel>: Clone + Copy + Debug + Default + PartialEq {
    /// The mode as a row of the table of gamma modes.
    ghost mode: { GammaMode };

    /// The value of [`KIND`](Gamma::KIND).
    ghost KIND: { ℕ };

    /// A number that only this gamma mode has. It is the same for every channel type.
    const KIND: u8;

    /// Linearizes: returns the linear channel that this mode encodes as `c`.
    fn to_linear(c: C) -> C
        ensures { C.number result ≡ to_linear mode (C.number c) };

    /// Returns the linear channel `c` as this mode encodes it.
    fn from_linear(c: C) -> C
        ensures { C.number result ≡ from_linear mode (C.number c) };

    /// `KIND` is the number in the table.
    ghost tabled: { gamma_kind mode ≡ KIND };

    /// Seals the trait.
    ghost sealed: { Seal Self };
}

/// Straight alpha: color channels are not multiplied by the alpha.
#[derive(Clone, Copy, Debug, Default, PartialEq, Eq)]
pub struct Straight;

/// Premultiplied alpha: color channels are multiplied by the alpha. To decode is to unpremultiply.
#[derive(Clone, Copy, Debug, Default, PartialEq, Eq)]
pub struct Premultiplied;

/// Linear: channels are proportional to the intensity of light.
#[derive(Clone, Copy, Debug, Default, PartialEq, Eq)]
pub struct Linear;

/// The sRGB transfer curve (IEC 61966-2-1).
#[derive(Clone, Copy, Debug, Default, PartialEq, Eq)]
pub struct Srgb;

impl Alpha for Straight {
    ghost mode = { modes.Straight };

    ghost KIND = { alpha_kind modes.Straight };

    const KIND: u8 = 0;

    fn encode<C: Channel>(c: C, _a: C) -> C {
        c
    }

    fn decode<C: Channel>(c: C, _a: C) -> C {
        c
    }

    ghost tabled = { refl };

    ghost sealed = { seal };
}

impl Alpha for Premultiplied {
    ghost mode = { modes.Premultiplied };

    ghost KIND = { alpha_kind modes.Premultiplied };

    const KIND: u8 = 1;

    fn encode<C: Channel>(c: C, a: C) -> C {
        c * a
    }

    fn decode<C: Channel>(c: C, a: C) -> C {
        c / a
    }

    ghost tabled = { refl };

    ghost sealed = { seal };
}

impl<C: Channel> Gamma<C> for Linear {
    ghost mode = { modes.Linear };

    ghost KIND = { gamma_kind modes.Linear };

    const KIND: u8 = 0;

    fn to_linear(c: C) -> C {
        c
    }

    fn from_linear(c: C) -> C {
        c
    }

    ghost tabled = { refl };

    ghost sealed = { seal };
}

impl Gamma<Ch8> for Srgb {
    ghost mode = { modes.Srgb };

    ghost KIND = { gamma_kind modes.Srgb };

    const KIND: u8 = 1;

    fn to_linear(c: Ch8) -> Ch8 {
        c.decode_srgb()
    }

    fn from_linear(c: Ch8) -> Ch8 {
        c.encode_srgb()
    }

    ghost tabled = { refl };

    ghost sealed = { seal };
}
