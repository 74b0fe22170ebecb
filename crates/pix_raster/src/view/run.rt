//! The interpreter: drawings are run on a window of a picture.
ghost use Rattle.std.specs.Prelude.{◌≡◌, ◌≤◌, ◌+◌, ◌∷◌, [], map, All};
ghost use Rattle.pix_raster.specs.Region.{limit};
ghost use Rattle.pix_raster.specs.View.{IsWindow, ChangedIn, picture, largest, in_window};
ghost use Rattle.pix_raster.specs.Run.{run_at, op_of};
ghost use Rattle.pix_raster.specs.Draw.{command_in, IsSound};

use super::draw::{Draw, ReadCommand, ReadDraw};
use super::{Painting, Window, blit_masked, blit_window, fill_window, points_in};
use crate::region::Region;
use pix_chan::chan::{Linear, Premultiplied};
use pix_el::el::Pixel;
use pix_el::rows::{
    ClearedPixels, CompositedColor, CompositedPixels, CopiedColor, CopiedPixels, FadedPixels,
    MaskedPixels, MattedColor,
};
use pix_el::stored::{Coverage, Stored};
use pix_ops::ops::{Blend, SliceVisitor};
use std::marker::PhantomData;

/// A command on a window of a picture, in which pixels are of the format `P` and a matte lies as an
/// `M`. It is read when its operator is a type, so that the drawing never lies in memory.
#[derive(Drop)]
pub(crate) struct WindowCommand<'a, P, M, C> {
    /// The command.
    pub(crate) command: &'a C,
    /// The window.
    pub(crate) window: Window,
    /// The formats.
    pub(crate) formats: PhantomData<(P, M)>,
}

impl<
    'a,
    P: Pixel<Alpha = Premultiplied, Gamma = Linear>,
    D: Stored<P>,
    M: Coverage<P::Chan>,
    C: ReadDraw<D, M>,
> SliceVisitor<D> for WindowCommand<'a, P, M, C> {
    ghost can_visit = { λ it op count. (P.layout.count ≡ P.layout.alpha + 1)
        × IsWindow it.window count × C.can_read it.command.now
        × (op ≡ op_of (C.command it.command.now)) };

    ghost visits = { λ it _ old new. ChangedIn D.reads it.window.shape old new
        (in_window it.window (run_at P.layout D.reads M.numbers
        (picture it.window) (C.command it.command.now ∷ []))) };

    fn visit<O: Blend>(&self, pixels: &mut [D], op: O) {
        let window = self.window;
        let format = PhantomData;
        let draw = self.command.read();
        match &draw {
            Draw::Clear => {
                let all = picture_of(window);
                fill_window(pixels, window, all, &ClearedPixels::<P> { format });
            }
            Draw::CopyColor { reg, clr } => {
                let clr = **clr;
                fill_window(pixels, window, *reg, &CopiedColor::<P, D> { clr, format });
            }
            Draw::CopyImage { to, src } => {
                let blit = CopiedPixels::<P> { format };
                blit_window(pixels, window, *to, src.pixels, src.shape, src.from, &blit);
            }
            Draw::Color { reg, clr } => {
                let clr = (**clr).load();
                fill_window(pixels, window, *reg, &CompositedColor { clr, op });
            }
            Draw::Image { to, src } => {
                let blit = CompositedPixels::<P, O> { op, format };
                blit_window(pixels, window, *to, src.pixels, src.shape, src.from, &blit);
            }
            Draw::Matte { to, src, clr } => {
                let clr = (**clr).load();
                let blit = MattedColor { clr, op };
                blit_window(pixels, window, *to, src.pixels, src.shape, src.from, &blit);
            }
            Draw::ImageMatte { to, src, mask } => {
                let blit = MaskedPixels::<P, O> { op, format };
                blit_masked(pixels, window, *to, src, mask, &blit);
            }
            Draw::ImageAlpha { to, src, alpha } => {
                let alpha = (**alpha).coverage();
                let blit = FadedPixels::<P, P::Chan, O> { alpha, op, format };
                blit_window(pixels, window, *to, src.pixels, src.shape, src.from, &blit);
            }
        }
    }
}

/// Returns the region of all points of the smallest picture that has a window.
fn picture_of(window: Window) -> Region
    requires across { window.left + window.shape.width ≤ limit }
    requires down { window.top + window.shape.height ≤ limit }
    ensures { result ≡ picture window }
{
    let right = window.left + window.shape.width;
    let bottom = window.top + window.shape.height;
    Region::new(0, 0, right, bottom)
}

/// A list of commands. Pixels are of the format `P`, and a matte lies in memory as an `M`.
#[derive(Drop)]
pub struct Commands<'b, P, M, C> {
    /// The commands.
    pub commands: &'b [C],
    /// The formats.
    pub formats: PhantomData<(P, M)>,
}

impl<
    'b,
    P: Pixel<Alpha = Premultiplied, Gamma = Linear>,
    D: Stored<P>,
    M: Coverage<P::Chan>,
    C: ReadCommand<D, M>,
> Painting<D> for Commands<'b, P, M, C> {
    ghost can_paint = { λ it. (P.layout.count ≡ P.layout.alpha + 1)
        × All C.can_read it.commands.now };

    ghost reads = { D.reads };

    ghost makes = { λ it. run_at P.layout D.reads M.numbers largest
        (map C.command it.commands.now) };

    fn commands(&self) -> usize {
        self.commands.len()
    }

    fn reached(&self, window: Window) -> usize {
        let mut points: usize = 0;
        for command in self.commands {
            points = points.saturating_add(points_in(window, command.reach()));
        }
        points
    }

    fn paint(&self, pixels: &mut [D], window: Window) {
        for command in self.commands {
            let formats = PhantomData;
            let there = WindowCommand::<P, M, C> {
                command,
                window,
                formats,
            };
            command.op().visit_slice(&there, pixels);
        }
    }
}
