//! Indices into a palette, and how often each is in a list.
ghost use Rattle.std.specs.Prelude.{◌≡◌, ◌≤◌, ◌<◌, ◌^◌, ℕ, length, replicate, slice_index_or, true, false, All, Any, [], ◌∷◌};
ghost use Rattle.pix_palette.specs.Histogram.{IsHistogram};

use pix_chan::chan::{Ch8, Ch16};
use pix_color::gray::{Gray8, Gray16};
use pix_el::el::{Pix, Pixel};

/// Seals [`PaletteIndex`].
pub trait SealedIndex {}

/// An index into a palette. This trait is sealed: the indices are `u8`, `u16` and `usize`.
pub trait PaletteIndex: SealedIndex + Copy {
    /// The index as a number.
    ghost number: { Self → ℕ };

    /// Returns the index.
    fn index(self) -> usize
        ensures { result ≡ number self };
}

impl SealedIndex for u8 {}

impl SealedIndex for u16 {}

impl SealedIndex for usize {}

impl PaletteIndex for u8 {
    ghost number = { λ n. n };

    fn index(self) -> usize {
        usize::from(self)
    }
}

impl PaletteIndex for u16 {
    ghost number = { λ n. n };

    fn index(self) -> usize {
        usize::from(self)
    }
}

impl PaletteIndex for usize {
    ghost number = { λ n. n };

    fn index(self) -> usize {
        self
    }
}

/// A gray pixel whose value is an index.
pub(super) trait IndexPixel: Pixel {
    /// The greatest index.
    ghost GREATEST: { ℕ };

    /// The greatest index.
    const GREATEST: usize;

    /// Returns the pixel of an index.
    fn of_index(index: usize) -> Self
        requires { index ≤ GREATEST }
        ensures { Self.numbers result ≡ index ∷ [] };

    /// Returns the index of the pixel.
    fn to_index(self) -> usize
        ensures { result ≡ slice_index_or (Self.numbers self) 0 0 };
}

impl IndexPixel for Gray8 {
    ghost GREATEST = { 255 };

    const GREATEST: usize = 255;

    fn of_index(index: usize) -> Gray8 {
        Pix::with_channels([Ch8::new(index as u8)])
    }

    fn to_index(self) -> usize {
        let channels = self.channels();
        usize::from(u8::from(channels[0]))
    }
}

impl IndexPixel for Gray16 {
    ghost GREATEST = { 65535 };

    const GREATEST: usize = 65535;

    fn of_index(index: usize) -> Gray16 {
        Pix::with_channels([Ch16::new(index as u16)])
    }

    fn to_index(self) -> usize {
        let channels = self.channels();
        usize::from(u16::from(channels[0]))
    }
}

/// Adds how often each index is in the list to the counts, which are 0. Returns whether all indices
/// have a count.
pub(super) fn count_indices<T: PaletteIndex>(counts: &mut [usize], indices: &[T]) -> bool
    requires { counts.old ≡ replicate (length counts.old) 0 }
    ensures counted { result ≡ true
        → IsHistogram T.number (length counts.old) indices.now counts.new }
    ensures past { result ≡ false → Any (λ i. length counts.old ≤ T.number i) indices.now }
{
    for i in 0..indices.len() {
        let at = indices[i].index();
        if at >= counts.len() {
            return false;
        }
        counts[at] += 1;
    }
    true
}
