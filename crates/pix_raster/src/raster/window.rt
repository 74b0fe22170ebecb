//! Runs of commands on a window of a picture: on a part of it that lies in memory by itself.
ghost use Rattle.std.specs.Prelude.{◌≡◌, ℕ, ◌+◌, ◌≤◌, map};
ghost use Rattle.pix_el.specs.PixelComposite.{matte_numbers};
ghost use Rattle.pix_raster.specs.Region.{limit, whole};
ghost use Rattle.pix_raster.specs.Image.{Image, Changed, region_of};
ghost use Rattle.pix_raster.specs.Run.{run_at};
ghost use Rattle.pix_raster.specs.Claims.{IsImageRun};
ghost use Rattle.pix_raster.specs.Window.{IsPartOf, command_from};

use super::Raster;
use crate::command::Command;
use crate::view::{Commands, Window, paint_by_bands};
use pix_chan::chan::{Alpha, Linear, Premultiplied};
use pix_el::el::{Pix, Pixel};
use pix_el::matte::Matte;
use std::marker::PhantomData;

impl<P: Pixel<Alpha = Premultiplied, Gamma = Linear>> Raster<P> {
    /// Runs `commands` in order on this raster as a window of a picture. Its first pixel is the
    /// point (`left`, `top`) of the picture, and the regions of the commands are regions of the
    /// picture.
    ///
    /// **A picture painted tile by tile is the picture painted whole: whatever its size, each point
    /// of the window becomes what the same commands, run on the whole picture, make of it.**
    ///
    /// So a picture that is larger than memory can be painted a tile at a time, in any order. One
    /// in memory can be painted by several threads. All that [`Raster::run`] promises holds too,
    /// for the commands as seen from the window.
    ///
    /// Condition: the format has an alpha channel, and the window ends within the greatest
    /// coordinate: `left` plus the width and `top` plus the height are at most 2147483647.
    ///
    /// # Examples
    ///
    /// ```rust
    /// let (over_both, op) = (Region::new(60, 2, 8, 8), Op::SrcOver);
    /// let commands: [Command<'_, Rgba8p, Matte8>; 1] =
    ///     [Command::Color { reg: over_both, clr: sun, op }];
    /// let mut tile = Raster::with_color(alloc, 64, 48, sky)?; // the second of the page's tiles
    /// tile.run_window(64, 0, &commands); // the first one by run_window(0, 0, &commands)
    /// ```
    pub fn run_window<const N: usize, A: Alpha>(
        &mut self,
        left: u32,
        top: u32,
        commands: &[Command<'_, P, Pix<N, P::Chan, Matte, A, Linear>>],
    )
        requires has_alpha { P.layout.count ≡ P.layout.alpha + 1 }
        requires across { left + self.old.width ≤ limit }
        requires down { top + self.old.height ≤ limit }

        // On each picture that has the window: what the run on the whole picture makes of the
        // points of the window.
        ensures window { (width height : ℕ) → left + self.old.width ≤ width
            → top + self.old.height ≤ height → Changed P.numbers self.old self.new
            (λ x y. run_at P.layout P.numbers (matte_numbers P.Chan.number)
            (whole width height) commands.now (left + x) (top + y)) }

        // A part of a picture is, after it, that part of the picture after the run on the whole.
        ensures tile { (before after : Image P) → IsPartOf P.numbers self.old left top before
            → Changed P.numbers before after (run_at P.layout P.numbers
            (matte_numbers P.Chan.number) (region_of before) commands.now)
            → IsPartOf P.numbers self.new left top after }

        // All that is claimed of a run, of the commands as seen from the window.
        ensures run { IsImageRun P.layout P.numbers (matte_numbers P.Chan.number)
            (map (command_from left top) commands.now) self.old self.new }
    {
        let shape = self.shape();
        let window = Window { left, top, shape };
        let formats = PhantomData;
        let list = Commands::<
            P,
            Pix<N, P::Chan, Matte, A, Linear>,
            Command<'_, P, Pix<N, P::Chan, Matte, A, Linear>>,
        > { commands, formats };
        paint_by_bands(&mut self.pixels, window, &list);
    }
}
