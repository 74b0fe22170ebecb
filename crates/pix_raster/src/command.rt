//! Commands: changes of a raster as values.
ghost use Rattle.std.specs.Prelude.{⊤};

use crate::raster::Raster;
use crate::region::Region;
use crate::view::{Draw, ReadCommand, ReadDraw};
use pix_el::el::Pixel;
use pix_ops::ops::Op;

/// A change of a raster of pixels `P`, as a value. `M` is the format of the coverage masks.
///
/// # Examples
///
/// ```rust
/// let (reg, clr) = (Region::new(8, 8, 16, 16), Rgba8p::new(0, 0, 64, 64));
/// let op = Op::SrcOver;
/// let commands: [Command<'_, Rgba8p, Matte8>; 3] = [
///     Command::Clear,
///     Command::CopyColor { reg, clr },
///     Command::Color { reg, clr, op },
/// ];
/// page.run(&commands);
/// ```
#[derive(Drop)]
pub enum Command<'a, P, M> {
    /// Makes every pixel the default one, whose channels are all 0 ([`Raster::clear`]).
    Clear,
    /// Copies a color to each pixel of a region ([`Raster::copy_color`]).
    CopyColor {
        /// The region.
        reg: Region,
        /// The color.
        clr: P,
    },
    /// Copies a region of another raster, pixel by pixel, to a region ([`Raster::copy_raster`]).
    CopyRaster {
        /// The region of the destination.
        to: Region,
        /// The source.
        src: &'a Raster<P>,
        /// The region of the source.
        from: Region,
    },
    /// Composites a color with each pixel of a region ([`Raster::composite_color`]).
    Color {
        /// The region.
        reg: Region,
        /// The color.
        clr: P,
        /// The operator.
        op: Op,
    },
    /// Composites a region of another raster, pixel by pixel, with a region
    /// ([`Raster::composite_raster`]).
    Raster {
        /// The region of the destination.
        to: Region,
        /// The source.
        src: &'a Raster<P>,
        /// The region of the source.
        from: Region,
        /// The operator.
        op: Op,
    },
    /// Composites a color with each pixel of a region, through its matte of a region of a raster of
    /// mattes ([`Raster::composite_matte`]).
    Matte {
        /// The region of the destination.
        to: Region,
        /// The coverage masks.
        src: &'a Raster<M>,
        /// The region of the coverage masks.
        from: Region,
        /// The color.
        clr: P,
        /// The operator.
        op: Op,
    },
    /// Composites a region of another raster, pixel by pixel, with a region, each through its matte
    /// of a region of a raster of mattes ([`Raster::composite_raster_matte`]).
    RasterMatte {
        /// The region of the destination.
        to: Region,
        /// The source.
        src: &'a Raster<P>,
        /// The region of the source.
        from: Region,
        /// The coverage masks.
        mask: &'a Raster<M>,
        /// The region of the coverage masks.
        mask_from: Region,
        /// The operator.
        op: Op,
    },
    /// Composites a region of another raster, pixel by pixel, with a region, at one opacity
    /// ([`Raster::composite_raster_alpha`]).
    RasterAlpha {
        /// The region of the destination.
        to: Region,
        /// The source.
        src: &'a Raster<P>,
        /// The region of the source.
        from: Region,
        /// The opacity, as a coverage mask.
        alpha: M,
        /// The operator.
        op: Op,
    },
}

impl<'a, P: Pixel, M: Pixel> ReadDraw<P, M> for Command<'a, P, M> {
    ghost command = { λ it. it };

    ghost can_read = { λ _. ⊤ };

    fn read(&self) -> Draw<'_, P, M> {
        match self {
            Command::Clear => Draw::Clear,
            Command::CopyColor { reg, clr } => Draw::CopyColor { reg: *reg, clr },
            Command::CopyRaster { to, src, from } => {
                let src = src.source(*from);
                Draw::CopyImage { to: *to, src }
            }
            Command::Color { reg, clr, .. } => Draw::Color { reg: *reg, clr },
            Command::Raster { to, src, from, .. } => {
                let src = src.source(*from);
                Draw::Image { to: *to, src }
            }
            Command::Matte {
                to,
                src,
                from,
                clr,
                ..
            } => {
                let src = src.source(*from);
                Draw::Matte { to: *to, src, clr }
            }
            Command::RasterMatte {
                to,
                src,
                from,
                mask,
                mask_from,
                ..
            } => {
                let src = src.source(*from);
                let mask = mask.source(*mask_from);
                Draw::ImageMatte { to: *to, src, mask }
            }
            Command::RasterAlpha {
                to,
                src,
                from,
                alpha,
                ..
            } => {
                let src = src.source(*from);
                Draw::ImageAlpha {
                    to: *to,
                    src,
                    alpha,
                }
            }
        }
    }
}

impl<'a, P: Pixel, M: Pixel> ReadCommand<P, M> for Command<'a, P, M> {
    fn op(&self) -> Op {
        match self {
            Command::Color { op, .. }
            | Command::Raster { op, .. }
            | Command::Matte { op, .. }
            | Command::RasterMatte { op, .. }
            | Command::RasterAlpha { op, .. } => *op,
            _ => Op::Src,
        }
    }

    fn reach(&self) -> Region {
        match self {
            Command::CopyColor { reg, .. } | Command::Color { reg, .. } => *reg,
            Command::CopyRaster { to, .. }
            | Command::Raster { to, .. }
            | Command::Matte { to, .. }
            | Command::RasterMatte { to, .. }
            | Command::RasterAlpha { to, .. } => *to,
            _ => Region::new(0, 0, 2147483647, 2147483647),
        }
    }
}
