//! Drawings: commands on images in memory without their operator, and what they are read from.
ghost use Rattle.std.specs.Prelude.{◌≡◌, []};
ghost use Rattle.pix_el.specs.PixelLaws.{fit_at};
ghost use Rattle.pix_raster.specs.declared.command.Command.{Command};
ghost use Rattle.pix_raster.specs.Run.{op_of};
ghost use Rattle.pix_raster.specs.Draw.{command_in, unplaced, IsSound};

use super::Source;
use crate::region::Region;
use pix_chan::chan::Channel;
use pix_el::stored::Coverage;
use pix_ops::ops::{Blend, Op};
use std::marker::PhantomData;

/// A command on images in memory, in which a pixel lies as a `D` and a matte as an `M`. Its
/// operator is given beside it.
#[derive(Drop)]
pub enum Draw<'a, D, M> {
    /// Clears the picture.
    Clear,
    /// Copies a color to a region.
    CopyColor {
        /// The region.
        reg: Region,
        /// The color.
        clr: &'a D,
    },
    /// Copies a region of an image.
    CopyImage {
        /// The region of the destination.
        to: Region,
        /// The source.
        src: Source<'a, D>,
    },
    /// Composites a color with a region.
    Color {
        /// The region.
        reg: Region,
        /// The color.
        clr: &'a D,
    },
    /// Composites a region of an image.
    Image {
        /// The region of the destination.
        to: Region,
        /// The source.
        src: Source<'a, D>,
    },
    /// Composites a color through a region of an image of mattes.
    Matte {
        /// The region of the destination.
        to: Region,
        /// The coverage masks.
        src: Source<'a, M>,
        /// The color.
        clr: &'a D,
    },
    /// Composites a region of an image through a region of an image of mattes.
    ImageMatte {
        /// The region of the destination.
        to: Region,
        /// The source.
        src: Source<'a, D>,
        /// The coverage masks.
        mask: Source<'a, M>,
    },
    /// Composites a region of an image at one opacity.
    ImageAlpha {
        /// The region of the destination.
        to: Region,
        /// The source.
        src: Source<'a, D>,
        /// The opacity, as a coverage mask.
        alpha: &'a M,
    },
}

/// What a drawing is read from.
pub trait ReadDraw<D, M> {
    /// The command.
    ghost command: { Self → Command D M };

    /// The condition under which it can be read.
    ghost can_read: { Self → Type 0 };

    /// Returns the drawing.
    fn read(&self) -> Draw<'_, D, M>
        requires { can_read self.now }
        ensures same { command_in (op_of (command self.now)) result ≡
            unplaced (command self.now) }
        ensures sound { IsSound result };
}

/// What a drawing and its operator are read from.
pub trait ReadCommand<D, M>: ReadDraw<D, M> {
    /// Returns the operator, which is `Src` for a command that does not composite.
    fn op(&self) -> Op
        requires { Self.can_read self.now }
        ensures { result ≡ op_of (Self.command self.now) };

    /// Returns the region of the destination. For a clear it has all points of any picture. Only
    /// speed depends on it.
    fn reach(&self) -> Region;
}

/// A single drawing, by the operator `O`.
#[derive(Drop)]
pub(crate) struct Single<'a, D, M, O> {
    /// The drawing.
    pub(crate) draw: Draw<'a, D, M>,
    /// The operator.
    pub(crate) op: PhantomData<O>,
}

impl<'a, D, M, O: Blend> ReadDraw<D, M> for Single<'a, D, M, O> {
    ghost command = { λ it. command_in O.op it.draw };

    ghost can_read = { λ it. IsSound it.draw };

    #[inline(always)]
    fn read(&self) -> Draw<'_, D, M> {
        match &self.draw {
            Draw::Clear => Draw::Clear,
            Draw::CopyColor { reg, clr } => Draw::CopyColor { reg: *reg, clr },
            Draw::CopyImage { to, src } => {
                let src = src.lent();
                Draw::CopyImage { to: *to, src }
            }
            Draw::Color { reg, clr } => Draw::Color { reg: *reg, clr },
            Draw::Image { to, src } => {
                let src = src.lent();
                Draw::Image { to: *to, src }
            }
            Draw::Matte { to, src, clr } => {
                let src = src.lent();
                Draw::Matte { to: *to, src, clr }
            }
            Draw::ImageMatte { to, src, mask } => {
                let (src, mask) = (src.lent(), mask.lent());
                Draw::ImageMatte { to: *to, src, mask }
            }
            Draw::ImageAlpha { to, src, alpha } => {
                let src = src.lent();
                Draw::ImageAlpha {
                    to: *to,
                    src,
                    alpha,
                }
            }
        }
    }
}

/// The mattes of a drawing that takes none.
#[derive(Clone, Copy)]
pub(crate) struct NoMattes {}

impl<C: Channel> Coverage<C> for NoMattes {
    ghost numbers = { λ _. [] };

    #[inline(always)]
    fn coverage(&self) -> C {
        C::MAX
    }

    ghost fits = { λ _ ch. fit_at C.max C.number [] ch C.numbered };
}
