//! Pixels made of their channels, and copies of them.
ghost use Rattle.std.specs.Prelude.{◌≡◌, List, [], ◌∷◌, replicate, ⊤};
ghost use Rattle.std.specs.Cmp.{on_per, on_equiv};
ghost use Rattle.std.specs.Cmp.Lexicographic.{pointwise, lists_per, lists_equiv};

use crate::el::Pix;
use pix_chan::chan::Channel;
use std::alloc::AllocError;
use std::fmt;
use std::marker::PhantomData;

impl<const N: usize, C, M, A, G> Pix<N, C, M, A, G> {
    /// The pixel of these channels.
    ///
    /// # Examples
    ///
    /// ```rust
    /// let glass = Rgba8p::new(0, 0, 64, 64); // red, green, blue and alpha
    /// let white = Rgba16p::with_channels([Ch16::new(65535); 4]);
    /// let blue = Rgb8::from_channels(glass.channels()); // its first three channels
    /// ```
    pub const fn with_channels(channels: [C; N]) -> Self
        ensures { result.channels ≡ channels }
    {
        Pix {
            channels,
            _model: PhantomData,
            _alpha: PhantomData,
            _gamma: PhantomData,
        }
    }
}

impl<const N: usize, C: fmt::Debug, M, A, G> fmt::Debug for Pix<N, C, M, A, G> {
    fn fmt<W: fmt::Write>(&self, f: &mut fmt::Formatter<W>) -> fmt::Result {
        f.debug_struct("Pix")
            .field("channels", &self.channels)
            .field("_model", &self._model)
            .field("_alpha", &self._alpha)
            .field("_gamma", &self._gamma)
            .finish()
    }
}

impl<const N: usize, C: Copy, M, A, G> Clone for Pix<N, C, M, A, G> {
    ghost is_clone = { λ x y. y ≡ x };

    ghost is_infallible = { λ _. ⊤ };

    fn clone(&self) -> Result<Self, AllocError> {
        Ok(Self::with_channels(self.channels))
    }
}

impl<const N: usize, C: PartialEq, M, A, G> PartialEq for Pix<N, C, M, A, G> {
    ghost eq = { λ p q. pointwise C.eq p.channels q.channels };

    ghost laws = { on_per (λ p. p.channels) (lists_per C.laws) };

    fn eq(&self, other: &Self) -> bool {
        self.channels == other.channels
    }
}

impl<const N: usize, C: Eq, M, A, G> Eq for Pix<N, C, M, A, G> {
    ghost laws = { on_equiv (λ p. p.channels) (lists_equiv C.Eq.laws) };
}

impl<const N: usize, C: Channel, M, A, G> Default for Pix<N, C, M, A, G> {
    ghost is_default = { λ p. p.channels ≡ replicate N C.MIN };

    fn default() -> Self {
        Self::with_channels([C::MIN; N])
    }
}

impl<C, M, A, G> Pix<1, C, M, A, G> {
    /// The pixel of one channel.
    pub fn new<H>(one: H) -> Self
    where
        C: From<H>,
        ensures { (w : C) × C.from_gives one w × (result.channels ≡ w ∷ []) }
    {
        let one = C::from(one);
        Self::with_channels([one])
    }
}

impl<C, M, A, G> Pix<2, C, M, A, G> {
    /// The pixel of two channels.
    pub fn new<H>(one: H, two: H) -> Self
    where
        C: From<H>,
        ensures { (w x : C) × C.from_gives one w × C.from_gives two x × (result.channels ≡
            w ∷ x ∷ []) }
    {
        let one = C::from(one);
        let two = C::from(two);
        Self::with_channels([one, two])
    }
}

impl<C, M, A, G> Pix<3, C, M, A, G> {
    /// The pixel of three channels.
    pub fn new<H>(one: H, two: H, three: H) -> Self
    where
        C: From<H>,
        ensures { (w x y : C) × C.from_gives one w × C.from_gives two x × C.from_gives three y
            × (result.channels ≡ w ∷ x ∷ y ∷ []) }
    {
        let one = C::from(one);
        let two = C::from(two);
        let three = C::from(three);
        Self::with_channels([one, two, three])
    }
}

impl<C, M, A, G> Pix<4, C, M, A, G> {
    /// The pixel of four channels.
    ///
    /// # Examples
    ///
    /// ```rust
    /// let glass = Rgba8p::new(0, 0, 64, 64); // red, green, blue and alpha
    /// let white = Rgba16p::with_channels([Ch16::new(65535); 4]);
    /// let blue = Rgb8::from_channels(glass.channels()); // its first three channels
    /// ```
    pub fn new<H>(one: H, two: H, three: H, four: H) -> Self
    where
        C: From<H>,
        ensures { (w x y z : C) × C.from_gives one w × C.from_gives two x × C.from_gives three y
            × C.from_gives four z
            × (result.channels ≡ w ∷ x ∷ y ∷ z ∷ []) }
    {
        let one = C::from(one);
        let two = C::from(two);
        let three = C::from(three);
        let four = C::from(four);
        Self::with_channels([one, two, three, four])
    }
}
