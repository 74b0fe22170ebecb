//! The commands of a script.
ghost use Rattle.std.specs.Prelude.{◌≡◌, ◌&&◌, map, not};
ghost use Rattle.pix_script.specs.Reading.{earlier_with};
ghost use Rattle.pix_script.specs.Seen.{Draws, clears, keeps};

use crate::pixel::pixel_of;
use pix_el::matte::Matte8;
use pix_el::ops::Op;
use pix_el::rgb::Rgba8p;
use pix_raster::{Command, Raster, Region};

/// The command of a line. A color has the bytes of red, green, blue and alpha.
#[derive(Clone, Copy)]
pub(crate) enum Line {
    /// Makes the image.
    Image { width: u32, height: u32 },
    /// Makes every pixel clear.
    Clear,
    /// Copies a color to the points of a region.
    Fill { reg: Region, color: [u8; 4] },
    /// Composites a color with the points of a region.
    Paint { op: Op, reg: Region, color: [u8; 4] },
    /// Keeps a copy of the image.
    Keep,
    /// Copies a region of the kept image.
    Copy { to: Region, from: Region },
    /// Composites a region of the kept image.
    Comp { op: Op, to: Region, from: Region },
}

/// What a word after the first has to be.
#[derive(Clone, Copy)]
pub(crate) enum Kind {
    /// The name of an operator.
    Operator,
    /// A place across or down.
    Coordinate,
    /// A width or a height.
    Side,
    /// Eight hexadecimal digits.
    Color,
}

/// Which commands the earlier lines have.
#[derive(Clone, Copy)]
pub(crate) struct Earlier {
    /// Whether one makes the image.
    pub(crate) image: bool,
    /// Whether one keeps a copy of the image.
    pub(crate) keep: bool,
}

impl Earlier {
    /// Returns which commands there are with one more line, of these words.
    pub(crate) fn with(self, words: &[&[u8]]) -> Earlier
        ensures { result ≡ earlier_with self (map (λ word. word.now) words.now) }
    {
        match words {
            [] => self,
            [name, ..] => Earlier {
                image: self.image || *name == b"image".as_slice(),
                keep: self.keep || *name == b"keep".as_slice(),
            },
        }
    }
}

impl Line {
    /// Returns whether the command keeps a copy of the image.
    pub(crate) fn keeps(&self) -> bool
        ensures { result ≡ keeps self.now }
    {
        matches!(self, Line::Keep)
    }

    /// Returns whether the command makes every pixel clear.
    pub(crate) fn clears(&self) -> bool
        ensures { result ≡ clears self.now }
    {
        matches!(self, Line::Clear)
    }

    /// Returns whether the command can change an image, given whether all of its pixels are clear.
    pub(crate) fn changes(&self, is_clear: bool) -> bool
        ensures { result ≡ not (is_clear && clears self.now) }
    {
        !is_clear || !self.clears()
    }

    /// Returns the raster command that draws what this one draws, where `kept` is the kept image.
    /// Returns `None` where nothing is drawn.
    pub(crate) fn drawing<'a>(
        &self,
        kept: &'a Raster<Rgba8p>,
    ) -> Option<Command<'a, Rgba8p, Matte8>>
        ensures { Draws kept.now self.now result }
    {
        Some(match *self {
            Line::Image { .. } | Line::Keep => return None,
            Line::Clear => Command::Clear,
            Line::Fill { reg, color } => Command::CopyColor {
                reg,
                clr: pixel_of(color),
            },
            Line::Paint { op, reg, color } => Command::Color {
                reg,
                clr: pixel_of(color),
                op,
            },
            Line::Copy { to, from } => Command::CopyRaster {
                to,
                src: kept,
                from,
            },
            Line::Comp { op, to, from } => Command::Raster {
                to,
                src: kept,
                from,
                op,
            },
        })
    }
}
