//! Commands of each format as commands in the layout of all formats.
ghost use Rattle.std.specs.Prelude.{◌≡◌, ◌+◌, [], ◌∷◌, length};
ghost use Rattle.std.specs.Mem.{FitsInMemory};
ghost use Rattle.pix_raster.specs.Run.{run_at};
ghost use Rattle.pix_raster.specs.View.{IsWindow, ChangedIn, largest, in_window};
ghost use Rattle.pix_flat.specs.declared.command.FlatCommand.{FlatCommand};
ghost use Rattle.pix_flat.specs.Command.{command_of};
ghost use Rattle.pix_flat.specs.Command.{rgba8_command, rgba16_command, graya8_command};
ghost use Rattle.pix_flat.specs.Status.{fault_of};

use crate::command::{PixCommand, PixCommandGraya8, PixCommandRgba16};
use crate::format::{PixGraya8, PixMatte8, PixRgba8, PixRgba16};
use crate::read::reach_of;
use crate::status::fault_of;
use pix_chan::chan::{Linear, Premultiplied};
use pix_color::gray::Graya8p;
use pix_el::el::Pixel;
use pix_el::rgb::{Rgba8p, Rgba16p};
use pix_el::stored::{Coverage, Stored};
use pix_raster::Region;
use pix_raster::view::{Commands, Painting, ReadCommand, Window};
use std::marker::PhantomData;
use std::slice;

/// A command as C lays it out for images of the format `P`, which lie in memory as pixels `D`. A
/// matte is read as one of `M`.
pub trait Flatten<P: Pixel, D: Stored<P>, M: Coverage<P::Chan>> {
    /// The command in the layout of all formats.
    ghost flat: { Self → FlatCommand D M };

    /// Returns why the command is refused, or 0.
    fn fault(&self) -> u32
        ensures { result ≡ fault_of (flat self.now) };

    /// Returns the region of the destination. For a clear it has all points of any picture. Only
    /// speed depends on it.
    fn reach(&self) -> Region;

    /// Paints a window of a picture by the command. Condition: it is not refused, and the rows of
    /// the window lie in `pixels`.
    fn paint(&self, pixels: &mut [D], window: Window)
        requires sound { fault_of (flat self.now) ≡ 0 }
        requires fits { IsWindow window (length pixels.old) }
        ensures { ChangedIn D.reads window.shape pixels.old pixels.new
            (in_window window (run_at P.layout D.reads M.numbers largest
            (command_of (flat self.now) ∷ []))) };
}

/// Paints a window of a picture by one command that the interpreter reads. Condition: it can be
/// read, and the rows of the window lie in `pixels`.
#[inline(always)]
fn paint_command<
    P: Pixel<Alpha = Premultiplied, Gamma = Linear>,
    D: Stored<P>,
    M: Coverage<P::Chan>,
    C: ReadCommand<D, M>,
>(command: &C, pixels: &mut [D], window: Window)
    requires memory { FitsInMemory C.row }
    requires has_alpha { P.layout.count ≡ P.layout.alpha + 1 }
    requires sound { C.can_read command.now }
    requires fits { IsWindow window (length pixels.old) }
    ensures { ChangedIn D.reads window.shape pixels.old pixels.new
        (in_window window (run_at P.layout D.reads M.numbers largest
        (C.command command.now ∷ []))) }
{
    let one = Commands::<P, M, C> {
        commands: slice::from_ref(command),
        formats: PhantomData,
    };
    one.paint(pixels, window);
}

impl<'a> Flatten<Rgba8p, PixRgba8, u8> for PixCommand<'a> {
    ghost flat = { rgba8_command };

    #[inline(always)]
    fn fault(&self) -> u32 {
        fault_of(&self.flat())
    }

    #[inline(always)]
    fn reach(&self) -> Region {
        reach_of(self.kind, self.to)
    }

    #[inline(always)]
    fn paint(&self, pixels: &mut [PixRgba8], window: Window) {
        paint_command::<Rgba8p, PixRgba8, u8, PixCommand<'_>>(self, pixels, window);
    }
}

impl<'a> Flatten<Rgba16p, PixRgba16, u16> for PixCommandRgba16<'a> {
    ghost flat = { rgba16_command };

    #[inline(always)]
    fn fault(&self) -> u32 {
        if self.is_narrow() {
            fault_of(&self.narrow())
        } else {
            fault_of(&self.wide())
        }
    }

    #[inline(always)]
    fn reach(&self) -> Region {
        reach_of(self.kind, self.to)
    }

    #[inline(always)]
    fn paint(&self, pixels: &mut [PixRgba16], window: Window) {
        if self.is_narrow() {
            paint_command::<Rgba16p, PixRgba16, PixMatte8, PixCommandRgba16<'_>>(
                self, pixels, window,
            );
        } else {
            paint_command::<Rgba16p, PixRgba16, u16, PixCommandRgba16<'_>>(self, pixels, window);
        }
    }
}

impl<'a> Flatten<Graya8p, PixGraya8, u8> for PixCommandGraya8<'a> {
    ghost flat = { graya8_command };

    #[inline(always)]
    fn fault(&self) -> u32 {
        fault_of(&self.flat())
    }

    #[inline(always)]
    fn reach(&self) -> Region {
        reach_of(self.kind, self.to)
    }

    #[inline(always)]
    fn paint(&self, pixels: &mut [PixGraya8], window: Window) {
        paint_command::<Graya8p, PixGraya8, u8, PixCommandGraya8<'_>>(self, pixels, window);
    }
}
