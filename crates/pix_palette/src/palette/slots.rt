//! Tables of colors with a constant threshold.
ghost use Rattle.std.specs.Prelude.{◌≤◌, vec_len};

use pix_el::rgb::SRgb8;

/// A list of colors, no more than its limit, with a constant threshold. Setting a color finds one
/// of them within the threshold, or adds the color.
///
/// # Examples
///
/// ```rust
/// let red = SRgb8::new::<u8>(200, 0, 0);
/// let mut table = ColorTable::new(alloc, 256, SRgb8::new::<u8>(8, 8, 8))?;
/// table.set_entry(red); // Some(0)
/// table.set_entry(SRgb8::new::<u8>(204, 0, 0)); // Some(0): it is near enough
/// ```
#[derive(Drop)]
pub struct ColorTable {
    /// The colors, and behind them room for as many as the limit allows.
    pub(super) slots: Vec<SRgb8>,
    /// How many colors there are.
    pub(super) len: usize,
    /// How far a color may be from its match in each channel.
    pub(super) threshold: SRgb8,
    ghost bounded: { len ≤ vec_len slots },
}
