//! sRGB pixels of 8 bits in linear light of 16 bits, and back, within one color model.
ghost use Rattle.std.specs.Prelude.{◌≡◌, ◌≤◌, ◌+◌, map, refl};
ghost use Rattle.pix_chan.specs.Runs.{over};
ghost use Rattle.pix_chan.specs.Srgb16.{srgb_decoded16, srgb_encoded8};
ghost use Rattle.pix_el.specs.Pixel.{channel};
ghost use Rattle.pix_el.specs.Seal.{Seal, seal};
ghost use Rattle.pix_el.specs.Conversion.{at_depth};
ghost use Rattle.pix_el.specs.Light.{mode_changed, channel_in_light, channel_as_srgb, in_light, as_srgb};

use crate::conversion::channel_at_depth;
use crate::el::Pixel;
use crate::light::blocks::{decode_blocks, encode_blocks, srgb_levels};
use crate::model::ColorModel;
use pix_chan::chan::{Alpha, Ch8, Ch16, Channel, Linear, Srgb};

mod blocks;

/// A gamma mode with a curve from channels of type `C` to linear ones of type `D`: `Srgb`, from
/// `Ch8` to `Ch16`. This trait is sealed.
pub trait Transfer<C: Channel, D: Channel> {
    /// Returns the linear channel that this mode encodes as `c`.
    fn to_light(c: C) -> D
        ensures { D.number result ≡ srgb_decoded16 (C.number c) };

    /// Returns the linear channel `c` as this mode encodes it.
    fn from_light(c: D) -> C
        ensures { C.number result ≡ srgb_encoded8 (D.number c) };

    /// Returns sixteen linear channels as this mode encodes them.
    #[doc(hidden)]
    #[inline(always)]
    fn from_light16(c: [D; 16]) -> [C; 16]
        ensures { map C.number result ≡ map srgb_encoded8 (map D.number c) }
    {
        [
            Self::from_light(c[0]),
            Self::from_light(c[1]),
            Self::from_light(c[2]),
            Self::from_light(c[3]),
            Self::from_light(c[4]),
            Self::from_light(c[5]),
            Self::from_light(c[6]),
            Self::from_light(c[7]),
            Self::from_light(c[8]),
            Self::from_light(c[9]),
            Self::from_light(c[10]),
            Self::from_light(c[11]),
            Self::from_light(c[12]),
            Self::from_light(c[13]),
            Self::from_light(c[14]),
            Self::from_light(c[15]),
        ]
    }

    /// The channels have 8 bits, and the linear ones 16.
    ghost narrow: { C.max ≡ 255 };

    /// The linear channels have 16 bits.
    ghost wide: { D.max ≡ 65535 };

    /// Seals the trait.
    ghost sealed: { Seal Self };
}

impl Transfer<Ch8, Ch16> for Srgb {
    fn to_light(c: Ch8) -> Ch16 {
        c.decode_srgb16()
    }

    fn from_light(c: Ch16) -> Ch8 {
        c.encode_srgb8()
    }

    #[inline(always)]
    fn from_light16(c: [Ch16; 16]) -> [Ch8; 16]
        ensures { map (λ x. x.value) result ≡ map srgb_encoded8 (map (λ x. x.value) c) }
    {
        srgb_levels(c)
    }

    ghost narrow = { refl };

    ghost wide = { refl };

    ghost sealed = { seal };
}

/// Returns a linear color channel at an alpha, from the alpha mode `A` to `B`.
#[inline(always)]
fn mode_changed<C: Channel, A: Alpha, B: Alpha>(c: C, alpha: C) -> C
    ensures { C.number result ≡
        mode_changed C.max A.mode B.mode (C.number alpha) (C.number c) }
{
    if A::KIND == B::KIND {
        c
    } else {
        B::encode(A::decode(c, alpha), alpha)
    }
}

/// Returns a linear color channel at an alpha, from the alpha mode `A` to `B`. At the maximum alpha
/// it returns the channel itself at once.
#[inline(always)]
fn mode_changed_unless_opaque<C: Channel, A: Alpha, B: Alpha>(c: C, alpha: C) -> C
    ensures { C.number result ≡
        mode_changed C.max A.mode B.mode (C.number alpha) (C.number c) }
{
    if alpha.to_u32() == C::MAX.to_u32() {
        c
    } else {
        mode_changed::<C, A, B>(c, alpha)
    }
}

/// Returns the channel `ch` of an sRGB pixel in light.
///
/// Condition: `alpha` is the alpha of that pixel, at the depth of `D`.
#[inline(always)]
fn channel_in_light<P, D>(p: &P, ch: usize, alpha: D::Chan) -> D::Chan
where
    P: Pixel,
    D: Pixel<Model = P::Model, Gamma = Linear>,
    P::Gamma: Transfer<P::Chan, D::Chan>,
    requires { D.Chan.number alpha ≡ at_depth P.Chan.max D.Chan.max
        (channel P.Chan.max (P.numbers p.now) P.Model.ALPHA) }
    ensures { D.Chan.number result ≡
        channel_in_light P.format D.format (P.numbers p.now) ch }
{
    let colors = <P::Model as ColorModel>::LINEAR;
    if colors.start <= ch && ch < colors.end {
        let color = <P::Gamma as Transfer<P::Chan, D::Chan>>::to_light(p.get(ch));
        if p.channels().len() <= <P::Model as ColorModel>::ALPHA {
            // The alpha is the maximum, which is known at compile time.
            mode_changed_unless_opaque::<D::Chan, P::Alpha, D::Alpha>(color, alpha)
        } else {
            mode_changed::<D::Chan, P::Alpha, D::Alpha>(color, alpha)
        }
    } else {
        channel_at_depth::<P, D::Chan>(p, ch)
    }
}

/// Returns the channel `ch` of a linear pixel as sRGB. Condition: `alpha` is the alpha of that
/// pixel.
#[inline(always)]
fn channel_as_srgb<P, D>(p: &P, ch: usize, alpha: P::Chan) -> D::Chan
where
    P: Pixel<Gamma = Linear>,
    D: Pixel<Model = P::Model>,
    D::Gamma: Transfer<D::Chan, P::Chan>,
    requires { P.Chan.number alpha ≡ channel P.Chan.max (P.numbers p.now) P.Model.ALPHA }
    ensures { D.Chan.number result ≡
        channel_as_srgb P.format D.format (P.numbers p.now) ch }
{
    let colors = <P::Model as ColorModel>::LINEAR;
    if colors.start <= ch && ch < colors.end {
        let color = mode_changed_unless_opaque::<P::Chan, P::Alpha, D::Alpha>(p.get(ch), alpha);
        <D::Gamma as Transfer<D::Chan, P::Chan>>::from_light(color)
    } else {
        channel_at_depth::<P, D::Chan>(p, ch)
    }
}

/// Pixels between sRGB of 8 bits and linear light of 16 bits, of one color model. Each [`Pixel`]
/// has it.
///
/// An sRGB pixel that is decoded and encoded again is the pixel it was. In the same alpha mode this
/// always holds. From straight to premultiplied and back it holds where the alpha is 13 or more.
/// Callers in `pix_uses::light` have these theorems as their contracts.
///
/// # Examples
///
/// ```rust
/// let photo = [SRgba8::new::<u8>(188, 0, 0, 255), SRgba8::new::<u8>(0, 188, 0, 128)];
/// let light = photo[0].decode_srgb::<Rgba16p>(); // (32957, 0, 0, 65535)
/// let shown = light.encode_srgb::<SRgba8>(); // (188, 0, 0, 255)
/// let (mut row, mut back) = ([Rgba16p::default(); 2], [SRgba8::default(); 2]);
/// SRgba8::decode_srgb_slice::<Rgba16p>(&mut row, &photo);
/// Rgba16p::encode_srgb_slice::<SRgba8>(&mut back, &row); // the photo as it was
/// ```
pub trait Light: Pixel {
    /// Decodes this sRGB pixel of 8 bits into linear light of 16 bits.
    ///
    /// Condition: that format has no more channels than its model.
    ///
    /// # Examples
    ///
    /// ```rust
    /// let photo = [SRgba8::new::<u8>(188, 0, 0, 255), SRgba8::new::<u8>(0, 188, 0, 128)];
    /// let light = photo[0].decode_srgb::<Rgba16p>(); // (32957, 0, 0, 65535)
    /// let shown = light.encode_srgb::<SRgba8>(); // (188, 0, 0, 255)
    /// ```
    final fn decode_srgb<D>(self) -> D
    where
        D: Pixel<Model = Self::Model, Gamma = Linear>,
        Self::Gamma: Transfer<Self::Chan, D::Chan>,
        requires few { D.layout.count ≤ D.layout.alpha + 1 }
        ensures { D.numbers result ≡ in_light Self.format D.format (Self.numbers self) }
    {
        let alpha = channel_at_depth::<Self, D::Chan>(&self, <Self::Model as ColorModel>::ALPHA);
        let one = channel_in_light::<Self, D>(&self, 0, alpha);
        let two = channel_in_light::<Self, D>(&self, 1, alpha);
        let three = channel_in_light::<Self, D>(&self, 2, alpha);
        let four = channel_in_light::<Self, D>(&self, 3, alpha);
        D::from_four(one, two, three, four)
    }

    /// Encodes this linear pixel of 16 bits as sRGB of 8 bits. Each color becomes the nearest
    /// level.
    ///
    /// Condition: that format has no more channels than its model.
    ///
    /// # Examples
    ///
    /// ```rust
    /// let photo = [SRgba8::new::<u8>(188, 0, 0, 255), SRgba8::new::<u8>(0, 188, 0, 128)];
    /// let light = photo[0].decode_srgb::<Rgba16p>(); // (32957, 0, 0, 65535)
    /// let shown = light.encode_srgb::<SRgba8>(); // (188, 0, 0, 255)
    /// ```
    final fn encode_srgb<D>(self) -> D
    where
        Self: Pixel<Gamma = Linear>,
        D: Pixel<Model = Self::Model>,
        D::Gamma: Transfer<D::Chan, Self::Chan>,
        requires few { D.layout.count ≤ D.layout.alpha + 1 }
        ensures { D.numbers result ≡ as_srgb Self.format D.format (Self.numbers self) }
    {
        let alpha = self.alpha();
        let one = channel_as_srgb::<Self, D>(&self, 0, alpha);
        let two = channel_as_srgb::<Self, D>(&self, 1, alpha);
        let three = channel_as_srgb::<Self, D>(&self, 2, alpha);
        let four = channel_as_srgb::<Self, D>(&self, 3, alpha);
        D::from_four(one, two, three, four)
    }

    /// Decodes each sRGB pixel of `src` and writes it to the same index of `dst`. The shorter
    /// length decides, and the rest of `dst` stays as it is.
    ///
    /// Condition: the format of `dst` has no more channels than its model.
    ///
    /// # Examples
    ///
    /// ```rust
    /// let photo = [SRgba8::new::<u8>(188, 0, 0, 255), SRgba8::new::<u8>(0, 188, 0, 128)];
    /// let light = photo[0].decode_srgb::<Rgba16p>(); // (32957, 0, 0, 65535)
    /// let shown = light.encode_srgb::<SRgba8>(); // (188, 0, 0, 255)
    /// let (mut row, mut back) = ([Rgba16p::default(); 2], [SRgba8::default(); 2]);
    /// SRgba8::decode_srgb_slice::<Rgba16p>(&mut row, &photo);
    /// ```
    final fn decode_srgb_slice<D>(dst: &mut [D], src: &[Self])
    where
        D: Pixel<Model = Self::Model, Gamma = Linear>,
        Self::Gamma: Transfer<Self::Chan, D::Chan>,
        requires few { D.layout.count ≤ D.layout.alpha + 1 }
        ensures { map D.numbers dst.new ≡ over (λ p d. in_light Self.format D.format p)
            (map Self.numbers src.now) (map D.numbers dst.old) }
    {
        let count = dst.len().min(src.len());
        for i in decode_blocks::<Self, D>(dst, src, count)..count {
            dst[i] = src[i].decode_srgb::<D>();
        }
    }

    /// Encodes each linear pixel of `src` and writes it to the same index of `dst`. The shorter
    /// length decides, and the rest of `dst` stays as it is.
    ///
    /// Condition: the format of `dst` has no more channels than its model.
    ///
    /// # Examples
    ///
    /// ```rust
    /// let photo = [SRgba8::new::<u8>(188, 0, 0, 255), SRgba8::new::<u8>(0, 188, 0, 128)];
    /// let light = photo[0].decode_srgb::<Rgba16p>(); // (32957, 0, 0, 65535)
    /// let shown = light.encode_srgb::<SRgba8>(); // (188, 0, 0, 255)
    /// let (mut row, mut back) = ([Rgba16p::default(); 2], [SRgba8::default(); 2]);
    /// SRgba8::decode_srgb_slice::<Rgba16p>(&mut row, &photo);
    /// Rgba16p::encode_srgb_slice::<SRgba8>(&mut back, &row); // the photo as it was
    /// ```
    final fn encode_srgb_slice<D>(dst: &mut [D], src: &[Self])
    where
        Self: Pixel<Gamma = Linear>,
        D: Pixel<Model = Self::Model>,
        D::Gamma: Transfer<D::Chan, Self::Chan>,
        requires few { D.layout.count ≤ D.layout.alpha + 1 }
        ensures { map D.numbers dst.new ≡ over (λ p d. as_srgb Self.format D.format p)
            (map Self.numbers src.now) (map D.numbers dst.old) }
    {
        let count = dst.len().min(src.len());
        for i in encode_blocks::<Self, D>(dst, src, count)..count {
            dst[i] = src[i].encode_srgb::<D>();
        }
    }
}

impl<P: Pixel> Light for P {}
