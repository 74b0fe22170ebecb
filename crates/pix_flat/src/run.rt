//! The run of a list of commands on the caller's pixels, for any format.
ghost use Rattle.std.specs.Prelude.{◌≡◌, ◌≢◌, length, map};
ghost use Rattle.pix_flat.specs.Status.{window_status_of, window_done_of};
ghost use Rattle.pix_flat.specs.Run.{IsWindowRun};

use crate::flatten::Flatten;
use crate::format::FlatPixel;
use crate::list::FlatList;
use crate::size::is_window;
use crate::status::{BAD_SIZE, DONE, first_fault};
use pix_chan::chan::{Linear, Premultiplied};
use pix_el::el::Pixel;
use pix_el::stored::Coverage;
use pix_raster::view::{Shape, Window, paint_by_bands};
use std::marker::PhantomData;

/// Runs `commands` in order on the window of a picture in `pixels`, of that width, height and
/// stride. Its first pixel lies at the point (`left`, `top`) of the picture.
///
/// Returns 0 when all are done. Else nothing was painted. The status then says that the window ends
/// past the limit or is not in `pixels`, or why the first refused command is refused. `done` is the
/// number of commands before that one. It is 0 where the window is refused, and the number of all
/// commands when they are done.
#[inline(always)]
pub fn run_window<
    P: Pixel<Alpha = Premultiplied, Gamma = Linear>,
    D: FlatPixel<P>,
    M: Coverage<P::Chan>,
    C: Flatten<P, D, M>,
>(
    pixels: &mut [D],
    left: u32,
    top: u32,
    width: u32,
    height: u32,
    stride: u32,
    commands: &[C],
    done: &mut usize,
) -> u32
    ensures status { result ≡ window_status_of left top width height stride (length pixels.old)
        (map C.flat commands.now) }
    ensures done { done.new ≡ window_done_of left top width height stride (length pixels.old)
        (map C.flat commands.now) }
    ensures refused { result ≢ 0 → pixels.new ≡ pixels.old }
    ensures run { result ≡ 0 → IsWindowRun P.layout D.reads M.numbers left top width height stride
        (map C.flat commands.now) pixels.old pixels.new }
{
    if !is_window(left, top, width, height, stride, pixels.len()) {
        *done = 0;
        return BAD_SIZE;
    }
    let fault = first_fault::<P, D, M, C>(commands, done);
    if fault == DONE {
        let stride = stride as usize;
        let shape = Shape {
            width,
            height,
            stride,
        };
        let window = Window { left, top, shape };
        let formats = PhantomData;
        let list = FlatList::<P, M, C> { commands, formats };
        paint_by_bands(pixels, window, &list);
    }
    fault
}
