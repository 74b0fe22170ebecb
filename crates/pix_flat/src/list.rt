//! A list of commands as C lays them out, as what is painted on windows of a picture.
ghost use Rattle.std.specs.Prelude.{◌≡◌, map};
ghost use Rattle.pix_raster.specs.Run.{run_at};
ghost use Rattle.pix_raster.specs.View.{largest};
ghost use Rattle.pix_flat.specs.Command.{command_of};
ghost use Rattle.pix_flat.specs.Status.{first_fault};

use crate::flatten::Flatten;
use pix_el::el::Pixel;
use pix_el::stored::{Coverage, Stored};
use pix_raster::view::{Painting, Window, points_in};
use std::marker::PhantomData;

/// A list of commands on images of the format `P`, with mattes `M`.
#[derive(Drop)]
pub(crate) struct FlatList<'b, P, M, C> {
    /// The commands.
    pub(crate) commands: &'b [C],
    /// The formats.
    pub(crate) formats: PhantomData<(P, M)>,
}

impl<'b, P: Pixel, D: Stored<P>, M: Coverage<P::Chan>, C: Flatten<P, D, M>> Painting<D>
    for FlatList<'b, P, M, C> {
    ghost can_paint = { λ it. first_fault (map C.flat it.commands.now) ≡ 0 };

    ghost reads = { D.reads };

    ghost makes = { λ it. run_at P.layout D.reads M.numbers largest
        (map command_of (map C.flat it.commands.now)) };

    fn commands(&self) -> usize {
        self.commands.len()
    }

    fn reached(&self, window: Window) -> usize {
        let mut points: usize = 0;
        for command in self.commands {
            points = points.saturating_add(points_in(window, command.reach()));
        }
        points
    }

    fn paint(&self, pixels: &mut [D], window: Window) {
        for command in self.commands {
            command.paint(pixels, window);
        }
    }
}
