//! The fields of a palette.
ghost use Rattle.std.specs.Prelude.{◌≡◌, ◌≤◌, ℕ, vec_len, vec_capacity};
ghost use Rattle.std.specs.Option.{ForSome};

use pix_el::rgb::SRgb8;

/// A function that returns a threshold for a number of entries.
pub type Threshold = fn(usize) -> SRgb8;

/// A threshold function that may be called for every number of entries up to a limit.
#[derive(Clone, Copy)]
pub struct ThresholdFn {
    /// The function.
    pub(super) f: Threshold,
    /// The limit.
    pub(super) limit: usize,
    ghost callable: { (n : ℕ) → n ≤ limit → Threshold.pre f n },
}

/// A list of colors, no more than its limit. Setting a color finds one of them within a threshold,
/// or adds the color.
///
/// # Examples
///
/// ```rust
/// let (red, blue) = (SRgb8::new::<u8>(200, 0, 0), SRgb8::new::<u8>(0, 0, 200));
/// let mut palette = Palette::new(alloc, 16)?;
/// palette.set_entry(red); // Some(0)
/// palette.set_entry(blue); // Some(1)
/// palette.set_entry(red); // Some(0): it stands there
/// ```
#[derive(Drop)]
pub struct Palette {
    /// The colors.
    pub(super) colors: Vec<SRgb8>,
    /// How many colors there may be.
    pub(super) limit: usize,
    /// The threshold function, if it was set.
    pub(super) threshold: Option<ThresholdFn>,
    ghost bounded: { vec_len colors ≤ limit },
    ghost reserved: { limit ≤ vec_capacity colors },
    ghost callable: { ForSome threshold (λ chosen. chosen.limit ≡ limit) },
}
