//! The entries of a table in blocks of sixteen, channel by channel. All that are too far from a
//! color in a channel are skipped at once.
ghost use Rattle.std.specs.Prelude.{◌≡◌, ◌+◌, ◌<◌, ◌≤◌, ℕ, [], ◌∷◌, length, map, max, min, false};
ghost use Rattle.pix_table.specs.threshold.ColorBlocks.{IsBlock, IsFar, Lies, channels_in};
ghost use Rattle.pix_table.specs.matching.Nearest.{numbers};
ghost use Rattle.pix_table.specs.threshold.PaletteMatch.{color_difference, is_within};

use crate::color::{Color, TableColor};

/// How many colors a block has.
pub(crate) const SIZE: usize = 16;

/// The channels of sixteen colors.
#[derive(Clone, Copy)]
pub struct ColorBlock {
    /// The red channels.
    pub(crate) red: [u8; SIZE],
    /// The green channels.
    pub(crate) green: [u8; SIZE],
    /// The blue channels.
    pub(crate) blue: [u8; SIZE],
}

impl ColorBlock {
    /// Makes a block of sixteen blacks.
    pub(crate) fn black() -> ColorBlock {
        ColorBlock {
            red: [0; SIZE],
            green: [0; SIZE],
            blue: [0; SIZE],
        }
    }

    /// Makes the block of the sixteen colors from `start` on.
    pub fn new<C: TableColor>(colors: &[C], start: usize) -> ColorBlock
        requires { start + 16 ≤ length colors.now }
        ensures { IsBlock (map C.channels colors.now) start result }
    {
        let mut block = ColorBlock::black();
        for i in 0..SIZE {
            let color = colors[start + i].color();
            block.red[i] = color.red;
            block.green[i] = color.green;
            block.blue[i] = color.blue;
        }
        block
    }

    /// Returns the lower and the upper bound of each channel.
    pub(crate) fn ends(&self) -> (Color, Color)
        ensures { (i : ℕ) → i < 16
            → Lies (numbers result.0) (numbers result.1) (channels_in self.now i) }
    {
        let mut least = Color {
            red: 255,
            green: 255,
            blue: 255,
        };
        let mut greatest = Color::default();
        for i in 0..SIZE {
            let color = Color {
                red: self.red[i],
                green: self.green[i],
                blue: self.blue[i],
            };
            least = lesser(least, color);
            greatest = greater(greatest, color);
        }
        (least, greatest)
    }

    /// Returns whether one of the colors is no farther from a color than a difference in any
    /// channel.
    #[inline(always)]
    pub(crate) fn has_near(&self, clr: Color, least: Color) -> bool
        ensures { result ≡ false → IsFar self.now (numbers clr) (numbers least) }
    {
        let mut any = false;
        for i in 0..SIZE {
            any |= is_near(self.red[i], self.green[i], self.blue[i], clr, least);
        }
        any
    }
}

/// Returns the lesser number in each channel.
fn lesser(p: Color, q: Color) -> Color
    ensures { numbers result
        ≡ min p.red q.red ∷ min p.green q.green ∷ min p.blue q.blue ∷ [] }
{
    Color {
        red: p.red.min(q.red),
        green: p.green.min(q.green),
        blue: p.blue.min(q.blue),
    }
}

/// Returns the greater number in each channel.
fn greater(p: Color, q: Color) -> Color
    ensures { numbers result
        ≡ max p.red q.red ∷ max p.green q.green ∷ max p.blue q.blue ∷ [] }
{
    Color {
        red: p.red.max(q.red),
        green: p.green.max(q.green),
        blue: p.blue.max(q.blue),
    }
}

/// Returns whether red, green and blue are no farther from a color than a difference in any
/// channel. It has no branch, so sixteen are done at once.
#[inline(always)]
fn is_near(red: u8, green: u8, blue: u8, clr: Color, least: Color) -> bool
    ensures { result ≡ is_within (color_difference (red ∷ green ∷ blue ∷ []) (numbers clr))
        (numbers least) }
{
    (red.abs_diff(clr.red) <= least.red)
        & (green.abs_diff(clr.green) <= least.green)
        & (blue.abs_diff(clr.blue) <= least.blue)
}
