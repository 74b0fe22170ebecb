//! Pixels of any format: channels of a color model, with an alpha mode and a gamma mode.
ghost use Rattle.std.specs.Prelude.{◌≡◌, ℕ, ◌+◌, ◌-◌, ◌<◌, ◌≤◌, IsTrue, List, [], ◌∷◌, length, replicate, map, take, slice_get, slice_set, Some, refl, nat_eq};
ghost use Rattle.std.specs.Cmp.Lexicographic.{pointwise};
ghost use Rattle.std.specs.List.{zip};
ghost use Rattle.std.specs.Borrow.{Lends, sem, Array};
ghost use Rattle.pix_ops.specs.declared.ops.Op.{Op};
ghost use Rattle.pix_ops.specs.Operators.{sum_fits};
ghost use Rattle.pix_el.specs.Pixel.{Layout, channel};
ghost use Rattle.pix_el.specs.Seal.{Seal};
ghost use Rattle.pix_chan.specs.Runs.{over};
ghost use Rattle.pix_el.specs.PixelComposite.{pixel_composite, matted_color, matted_composite, matte_numbers, matte_value};
ghost use Rattle.pix_el.specs.ExactPixel.{IsNearExact, IsNearExactMatted, HuesMove};
ghost use Rattle.pix_el.specs.Premultiplied.{IsPremultiplied, IsUncut};
ghost use Rattle.pix_el.specs.Conversion.{Format, of_depth, converted};
ghost use Rattle.pix_el.specs.Transparent.{IsTransparent, IsUnchanged};

use crate::conversion::blocks::convert_blocks;
use crate::conversion::{at_depth, channel_at_depth, converted_within, reencoded_color};
use crate::each::{composite_each, scale_each};
use crate::matte::Matte;
use crate::model::ColorModel;
use crate::rgb::Rgb;
use crate::rows::{
    Blit, CompositedColor, CompositedPixels, FadedPixels, Fill, MaskedBlit, MaskedPixels,
    MattedColor,
};
use pix_chan::chan::{Alpha, Channel, Gamma, Linear, Premultiplied};
use pix_ops::ops::Blend;
use std::fmt::Debug;
use std::marker::PhantomData;

mod array;
mod items;
mod new;

/// The format of red, green, blue and alpha with the channel type and the modes of `P`.
pub type PixRgba<P> = Pix<4, <P as Pixel>::Chan, Rgb, <P as Pixel>::Alpha, <P as Pixel>::Gamma>;

/// A pixel of `N` channels of type `C`: color model `M`, alpha mode `A`, gamma mode `G`.
pub struct Pix<const N: usize, C, M, A, G> {
    /// The channels, in the order of the color model.
    pub(crate) channels: [C; N],
    _model: PhantomData<M>,
    _alpha: PhantomData<A>,
    _gamma: PhantomData<G>,
}

impl<const N: usize, C: Copy, M, A, G> Copy for Pix<N, C, M, A, G> {}

/// A pixel: its channels in the order of its color model. Sealed: every pixel is a [`Pix`].
///
/// # Examples
///
/// ```rust
/// let color = Rgba8p::new(10, 20, 30, 40);
/// let green = color.get(1); // 20
/// let alpha = color.alpha(); // 40
/// let absent = Rgb8::new(10, 20, 30).alpha(); // 255, since the format has none
/// ```
pub trait Pixel: Copy + Debug + Default + PartialEq {
    /// The type of its channels.
    type Chan: Channel;

    /// Its color model.
    type Model: ColorModel;

    /// Its alpha mode.
    type Alpha: Alpha;

    /// Its gamma mode.
    type Gamma: Gamma<Self::Chan>;

    /// The layout of the channels.
    ghost layout: { Layout };

    /// The channels in order.
    ghost channel_list: { Self → List Self.Chan };

    /// The numbers of the channels in order.
    ghost numbers: { Self → List ℕ };

    /// The format without its gamma mode.
    ghost format: { Format };

    /// The pixel with other channels.
    ghost with_channel_list: { Self → List Self.Chan → Self };

    /// Returns the channels in order.
    fn channels(&self) -> &[Self::Chan]
        ensures channels { result.now ≡ channel_list self.now }
        ensures count { length result.now ≡ layout.count };

    /// Lends the channels in order, for writing.
    fn channels_mut(&mut self) -> &mut [Self::Chan]
        ensures* lends { sem 𝓛 (Lends Self.row (Array Self.Chan.row 0) self.entry result
            (with_channel_list self.old)) }
        ensures channels { result.now ≡ channel_list self.old }
        ensures count { length result.now ≡ layout.count };

    /// Returns the channel `ch`, `MAX` where it is absent.
    fn get(&self, ch: usize) -> Self::Chan
        ensures { Self.Chan.number result ≡ channel Self.Chan.max (numbers self.now) ch }
    {
        *self.channels().get(ch).unwrap_or(&Self::Chan::MAX)
    }

    /// Lends the channel of number `ch`. Condition: there is one.
    ///
    /// # Examples
    ///
    /// ```rust
    /// let mut color = Rgba8p::new(10, 20, 30, 40);
    /// *color.get_mut(1) = Ch8::new(30);
    /// *color.alpha_mut() = Ch8::MAX;
    /// ```
    fn get_mut(&mut self, ch: usize) -> &mut Self::Chan
        requires { ch < layout.count }
        ensures* lends { sem 𝓛 (Lends Self.row Self.Chan.row self.entry result
            (λ c. with_channel_list self.old (slice_set (channel_list self.old) ch c))) }
        ensures now { slice_get (channel_list self.old) ch ≡ Some result.now };

    /// Returns the alpha, `MAX` where it is absent.
    fn alpha(&self) -> Self::Chan
        ensures { Self.Chan.number result ≡ channel Self.Chan.max
            (numbers self.now) Self.Model.ALPHA }
    {
        self.get(Self::Model::ALPHA)
    }

    /// Lends the alpha. Condition: there is one.
    final fn alpha_mut(&mut self) -> &mut Self::Chan
        requires { Self.Model.ALPHA < layout.count }
        ensures* lends { sem 𝓛 (Lends Self.row Self.Chan.row self.entry result
            (λ c. with_channel_list self.old
            (slice_set (channel_list self.old) Self.Model.ALPHA c))) }
        ensures now { slice_get (channel_list self.old) Self.Model.ALPHA ≡ Some result.now }
    {
        self.get_mut(<Self::Model as ColorModel>::ALPHA)
    }

    /// Makes the pixel of the first of these channels. Condition: the format has no more channels.
    fn from_channels(channels: &[Self::Chan]) -> Self
        requires { layout.count ≤ length channels.now }
        ensures { numbers result ≡ take layout.count (map Self.Chan.number channels.now) };

    /// Makes the pixel of the first of these four channels. Condition: the format has at most four.
    #[doc(hidden)]
    fn from_four(one: Self::Chan, two: Self::Chan, three: Self::Chan, four: Self::Chan) -> Self
        requires { layout.count ≤ 4 }
        ensures { numbers result ≡ take layout.count
            (Self.Chan.number one ∷ Self.Chan.number two
            ∷ Self.Chan.number three ∷ Self.Chan.number four ∷ []) };

    /// Converts a pixel to this format's depth. Missing channels are `MAX`, extra ones are dropped.
    ///
    /// Condition: this format has no more channels than its model.
    final fn from_bit_depth<P>(p: P) -> Self
    where
        P: Pixel,
        Self::Chan: From<P::Chan>,
        requires few { layout.count ≤ layout.alpha + 1 }
        ensures { numbers result ≡ of_depth P.layout layout (P.numbers p) }
    {
        let one = channel_at_depth::<P, Self::Chan>(&p, 0);
        let two = channel_at_depth::<P, Self::Chan>(&p, 1);
        let three = channel_at_depth::<P, Self::Chan>(&p, 2);
        let four = channel_at_depth::<P, Self::Chan>(&p, 3);
        Self::from_four(one, two, three, four)
    }

    /// Converts this pixel to another format, through red, green and blue if the model differs.
    ///
    /// It loses nothing to the same format, nor back and forth to 16 bits, from `Rgb` to `Bgr` or
    /// `Cmy`, from gray to `Rgb`, and from opaque to premultiplied. Premultiplied pixels stay so at
    /// another depth. Callers in `pix_uses::conversions` have these contracts.
    ///
    /// Condition: that format has no more channels than its model.
    ///
    /// # Examples
    ///
    /// ```rust
    /// let photo = [SRgb8::new::<u8>(188, 0, 0), SRgb8::new::<u8>(0, 188, 0)];
    /// let light = photo[0].convert::<Rgba8p>(); // (128, 0, 0, 255)
    /// let fine = Rgba16p::from_bit_depth(light); // (32896, 0, 0, 65535)
    /// ```
    final fn convert<D>(self) -> D
    where
        D: Pixel,
        D::Chan: From<Self::Chan>,
        Self::Gamma: Gamma<D::Chan>,
        requires few { D.layout.count ≤ D.layout.alpha + 1 }
        ensures { D.numbers result ≡ converted format
            ⟦<Self::Gamma as Gamma<D::Chan>>⟧.mode D.format D.Gamma.mode (numbers self) }
    {
        if <Self::Model as ColorModel>::KIND == <D::Model as ColorModel>::KIND {
            converted_within::<Self, D>(self)
        } else {
            let (red, green, blue, alpha) = <Self::Model as ColorModel>::into_four::<Self>(self);
            let alpha = at_depth::<Self::Chan, D::Chan>(alpha);
            let red = reencoded_color::<Self, D>(red, alpha);
            let green = reencoded_color::<Self, D>(green, alpha);
            let blue = reencoded_color::<Self, D>(blue, alpha);
            <D::Model as ColorModel>::from_four::<D>(red, green, blue, alpha)
        }
    }

    /// Converts each pixel of `src` to the same index of `dst`, up to the shorter length.
    ///
    /// Condition: the format of `dst` has no more channels than its model.
    ///
    /// # Examples
    ///
    /// ```rust
    /// let photo = [SRgb8::new::<u8>(188, 0, 0), SRgb8::new::<u8>(0, 188, 0)];
    /// let light = photo[0].convert::<Rgba8p>(); // (128, 0, 0, 255)
    /// let fine = Rgba16p::from_bit_depth(light); // (32896, 0, 0, 65535)
    /// let mut row = [Rgba8p::default(); 2];
    /// SRgb8::convert_slice::<Rgba8p>(&mut row, &photo);
    /// ```
    final fn convert_slice<D>(dst: &mut [D], src: &[Self])
    where
        D: Pixel,
        D::Chan: From<Self::Chan>,
        Self::Gamma: Gamma<D::Chan>,
        requires few { D.layout.count ≤ D.layout.alpha + 1 }
        ensures { map D.numbers dst.new ≡ over (λ p d. converted format
            ⟦<Self::Gamma as Gamma<D::Chan>>⟧.mode D.format D.Gamma.mode p)
            (map numbers src.now) (map D.numbers dst.old) }
    {
        let count = dst.len().min(src.len());
        for i in convert_blocks::<Self, D>(dst, src, count)..count {
            dst[i] = src[i].convert::<D>();
        }
    }

    /// Composites `src` with this pixel. Condition: the format has an alpha channel.
    ///
    /// # Examples
    ///
    /// ```rust
    /// let mut paper = Graya8p::new(255, 255);
    /// let ink = Graya8p::new(0, 128);
    /// paper.composite_channels(&ink, SrcOver); // (127, 255)
    /// paper.composite_channels_alpha(&ink, SrcOver, &Ch8::new(64)); // through a quarter
    /// ```
    final fn composite_channels<O: Blend>(&mut self, src: &Self, _op: O)
    where
        Self: Pixel<Alpha = Premultiplied, Gamma = Linear>,
        requires has_alpha { layout.count ≡ layout.alpha + 1 }
        ensures composite { numbers self.new ≡
            pixel_composite layout O.op (numbers src.now) (numbers self.old) }

        // A channel but a hue is at most half a unit for each product from the exact composite.
        ensures near { IsNearExact layout O.op (numbers src.now) (numbers self.old)
            (numbers self.new) }

        // A hue moves along the shorter arc towards the source's.
        ensures hues { HuesMove layout O.op (numbers src.now) (numbers self.old)
            (numbers self.new) }

        // Premultiplied pixels stay premultiplied, and no sum is cut, except that of `Plus`.
        ensures premultiplied { IsPremultiplied layout (numbers src.now)
            → IsPremultiplied layout (numbers self.old)
            → IsPremultiplied layout (numbers self.new) }
        ensures uncut { IsPremultiplied layout (numbers src.now)
            → IsPremultiplied layout (numbers self.old)
            → IsTrue (sum_fits O.op)
            → IsUncut layout O.op (numbers src.now) (numbers self.old) }

        // A transparent source changes nothing under `SrcOver`, the hue included.
        ensures transparent { O.op ≡ Op.SrcOver
            → IsTransparent layout (numbers src.now)
            → IsUnchanged layout (numbers self.old) (numbers self.new) }
    {
        let da1 = Self::Chan::MAX - self.alpha();
        let sa = src.alpha();
        composite_each::<Self::Chan, Self::Model, O>(self.channels_mut(), src.channels(), da1, sa);
    }

    /// Composites `src`, multiplied by the matte value `alpha` but for its hue, with this pixel.
    /// Condition: the format has an alpha channel.
    final fn composite_channels_alpha<O: Blend>(&mut self, src: &Self, op: O, alpha: &Self::Chan)
    where
        Self: Pixel<Alpha = Premultiplied, Gamma = Linear>,
        requires has_alpha { layout.count ≡ layout.alpha + 1 }
        ensures composite { numbers self.new ≡
            matted_composite layout O.op (Self.Chan.number alpha.now)
            (numbers src.now) (numbers self.old) }

        // A channel but a hue is at most half a unit for each matted product from the exact one.
        ensures near { IsNearExactMatted layout O.op (Self.Chan.number alpha.now)
            (numbers src.now) (numbers self.old) (numbers self.new) }

        // A hue moves along the shorter arc towards the source's.
        ensures hues { HuesMove layout O.op (matted_color layout (Self.Chan.number alpha.now)
            (numbers src.now)) (numbers self.old) (numbers self.new) }

        // Premultiplied pixels stay premultiplied, and no sum is cut, except that of `Plus`.
        ensures premultiplied { IsPremultiplied layout (numbers src.now)
            → IsPremultiplied layout (numbers self.old)
            → IsPremultiplied layout (numbers self.new) }
        ensures uncut { IsPremultiplied layout (numbers src.now)
            → IsPremultiplied layout (numbers self.old)
            → IsTrue (sum_fits O.op)
            → IsUncut layout O.op (matted_color layout (Self.Chan.number alpha.now)
            (numbers src.now)) (numbers self.old) }

        // A transparent source changes nothing under `SrcOver`, the hue included.
        ensures transparent { O.op ≡ Op.SrcOver
            → IsTransparent layout (numbers src.now)
            → IsUnchanged layout (numbers self.old) (numbers self.new) }
    {
        let mut color = *src;
        scale_each::<Self::Chan, Self::Model>(color.channels_mut(), *alpha);
        self.composite_channels(&color, op);
    }

    /// Composites `clr` with each pixel of `dst`. Condition: the format has an alpha channel.
    final fn composite_color<O: Blend>(dst: &mut [Self], clr: &Self, op: O)
    where
        Self: Pixel<Alpha = Premultiplied, Gamma = Linear>,
        requires has_alpha { layout.count ≡ layout.alpha + 1 }
        ensures { map numbers dst.new ≡
            map (pixel_composite layout O.op (numbers clr.now)) (map numbers dst.old) }
    {
        CompositedColor { clr: *clr, op }.fill(dst);
    }

    /// Composites each pixel of `src` with that of `dst` at its index, up to the shorter length.
    /// Condition: the format has an alpha channel.
    ///
    /// # Examples
    ///
    /// ```rust
    /// let (ink, glass) = (Rgba8p::new(0, 0, 0, 255), Rgba8p::new(0, 0, 64, 64));
    /// let mut row = [Rgba8p::default(); 4];
    /// Rgba8p::copy_color(&mut row, &ink);
    /// Rgba8p::composite_color(&mut row, &glass, SrcOver);
    /// let sprite = [glass; 3];
    /// Rgba8p::copy_slice(&mut row, &sprite); // the first three pixels
    /// Rgba8p::composite_slice(&mut row, &sprite, SrcOver);
    /// ```
    final fn composite_slice<O: Blend>(dst: &mut [Self], src: &[Self], op: O)
    where
        Self: Pixel<Alpha = Premultiplied, Gamma = Linear>,
        requires has_alpha { layout.count ≡ layout.alpha + 1 }
        ensures { map numbers dst.new ≡
            over (pixel_composite layout O.op) (map numbers src.now) (map numbers dst.old) }
    {
        let format = PhantomData;
        CompositedPixels::<Self, O> { op, format }.blit(dst, src);
    }

    /// Composites `clr` with pixels of `dst` through mattes of `src`, up to the shorter length.
    /// Condition: the format has an alpha channel.
    ///
    /// # Examples
    ///
    /// ```rust
    /// let ink = Rgba8p::new(0, 0, 0, 255);
    /// let (mut row, masks) = ([Rgba8p::default(); 4], [Matte8::new(128); 4]);
    /// Rgba8p::composite_matte(&mut row, &masks, &ink, SrcOver); // (0, 0, 0, 128) four times
    /// ```
    final fn composite_matte<const N: usize, A: Alpha, O: Blend>(
        dst: &mut [Self],
        src: &[Pix<N, Self::Chan, Matte, A, Linear>],
        clr: &Self,
        op: O,
    )
    where
        Self: Pixel<Alpha = Premultiplied, Gamma = Linear>,
        requires has_alpha { layout.count ≡ layout.alpha + 1 }
        ensures { map numbers dst.new ≡ over (λ matte. matted_composite layout O.op
            (matte_value layout matte) (numbers clr.now))
            (map (matte_numbers Self.Chan.number) src.now) (map numbers dst.old) }
    {
        MattedColor { clr: *clr, op }.blit(dst, src);
    }

    /// Composites each pixel of `src` with that of `dst` at its index through the matte at that
    /// index, up to the shortest length. Condition: the format has an alpha channel.
    final fn composite_slice_matte<const N: usize, A: Alpha, O: Blend>(
        dst: &mut [Self],
        src: &[Self],
        mattes: &[Pix<N, Self::Chan, Matte, A, Linear>],
        op: O,
    )
    where
        Self: Pixel<Alpha = Premultiplied, Gamma = Linear>,
        requires has_alpha { layout.count ≡ layout.alpha + 1 }
        ensures { map numbers dst.new ≡
            over (λ t. matted_composite layout O.op (matte_value layout t.0) t.1)
            (zip (map (matte_numbers Self.Chan.number) mattes.now) (map numbers src.now))
            (map numbers dst.old) }
    {
        let format = PhantomData;
        MaskedPixels::<Self, O> { op, format }.blit(dst, src, mattes);
    }

    /// Composites each pixel of `src` with that of `dst` at its index through the matte value
    /// `alpha`, up to the shorter length. Condition: the format has an alpha channel.
    final fn composite_slice_alpha<O: Blend>(
        dst: &mut [Self],
        src: &[Self],
        op: O,
        alpha: &Self::Chan,
    )
    where
        Self: Pixel<Alpha = Premultiplied, Gamma = Linear>,
        requires has_alpha { layout.count ≡ layout.alpha + 1 }
        ensures { map numbers dst.new ≡
            over (matted_composite layout O.op (Self.Chan.number alpha.now))
            (map numbers src.now) (map numbers dst.old) }
    {
        let (alpha, format) = (*alpha, PhantomData);
        FadedPixels::<Self, Self::Chan, O> { alpha, op, format }.blit(dst, src);
    }

    /// Copies `clr` to each pixel of `dst`.
    fn copy_color(dst: &mut [Self], clr: &Self)
        ensures { dst.new ≡ replicate (length dst.old) clr.now }
    {
        for d in dst.iter_mut() {
            *d = *clr;
        }
    }

    /// Copies each pixel of `src` to the same index of `dst`, up to the shorter length.
    fn copy_slice(dst: &mut [Self], src: &[Self])
        ensures { dst.new ≡ over (λ s d. s) src.now dst.old }
    {
        let count = dst.len().min(src.len());
        dst[..count].copy_from_slice(&src[..count]);
    }

    /// The layout is that of the channel type and the color model.
    ghost laid_out: { layout ≡
        record {
          max = Self.Chan.max;
          count = layout.count;
          hues = Self.Model.CIRCULAR;
          alpha = Self.Model.ALPHA;
        } };

    /// The format is that of the layout, the color model and the alpha mode.
    ghost formatted: { format ≡ record {
      layout = record {
        max = Self.Chan.max;
        count = layout.count;
        hues = Self.Model.CIRCULAR;
        alpha = Self.Model.ALPHA;
      };
      kind = Self.Model.KIND;
      colors = Self.Model.LINEAR;
      to_rgb = Self.Model.to_rgb;
      of_rgb = Self.Model.of_rgb;
      alpha_mode = Self.Alpha.mode;
    } };

    /// The numbers are those of the channels.
    ghost numbered: { (p : Self) → numbers p ≡ map Self.Chan.number (channel_list p) };

    /// A pixel with other channels has those.
    ghost with_list: { (p : Self) (w : List Self.Chan) → channel_list (with_channel_list p w) ≡ w };

    /// A clone is the pixel itself.
    ghost clones: { (p q : Self) → Self.is_clone p q → q ≡ p };

    /// `clone` always succeeds.
    ghost clones_always: { (p : Self) → Self.is_infallible p };

    /// `==` compares the channels' numbers.
    ghost equals: { (p q : Self) → Self.eq p q ≡ pointwise nat_eq (numbers p) (numbers q) };

    /// Pixels of equal numbers are equal.
    ghost injective: { (p q : Self) → numbers p ≡ numbers q → p ≡ q };

    /// All channels of the default pixel are 0.
    ghost default_is_clear: { (p : Self) → Self.is_default p
        → numbers p ≡ replicate layout.count 0 };

    /// Seals the trait.
    ghost sealed: { Seal Self };
}
