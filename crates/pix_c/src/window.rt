//! Lists of commands on a window of a picture, which is a part that lies in memory by itself.
ghost use Rattle.std.specs.Prelude.{◌≡◌, ◌≢◌, length, map};
ghost use Rattle.pix_flat.specs.Format.{rgba8, rgba8_numbers, rgba16, rgba16_numbers};
ghost use Rattle.pix_flat.specs.Format.{graya8, graya8_numbers};
ghost use Rattle.pix_flat.specs.Format.{matte8_numbers, matte16_numbers};
ghost use Rattle.pix_flat.specs.Command.{rgba8_command, rgba16_command, graya8_command};
ghost use Rattle.pix_flat.specs.Status.{window_status_of, window_done_of};
ghost use Rattle.pix_flat.specs.Run.{IsWindowRun};

use pix_color::gray::Graya8p;
use pix_el::rgb::{Rgba8p, Rgba16p};
use pix_flat::command::{PixCommand, PixCommandGraya8, PixCommandRgba16};
use pix_flat::format::{PixGraya8, PixRgba8, PixRgba16};
use pix_flat::run;

/// Runs `commands` in order on a window of a picture. The window is the image of `width` columns
/// and `height` rows, which start `stride` pixels apart in `pixels`. Its first pixel lies at the
/// point (`left`, `top`) of the picture.
///
/// The regions of the commands are regions of the picture. Each pixel becomes what it would become
/// if the whole picture were passed, which is the window at (0, 0) of itself. So windows of a
/// picture may be painted one by one, in any order.
///
/// Returns 0 when all commands are done. Else nothing was painted. The status is then 1 where the
/// window is not in `pixels`, or `left + width` or `top + height` is above 2147483647. Otherwise it
/// says why the first refused command is refused. `done` is the number of commands before that one.
/// It is 0 where the window is refused, and the number of all commands when they are done.
#[unsafe(no_mangle)]
pub extern "C" fn pix_raw_run_window(
    pixels: &mut [PixRgba8],
    left: u32,
    top: u32,
    width: u32,
    height: u32,
    stride: u32,
    commands: &[PixCommand<'_>],
    done: &mut usize,
) -> u32
    ensures status { result ≡ window_status_of left top width height stride (length pixels.old)
        (map rgba8_command commands.now) }
    ensures done { done.new ≡ window_done_of left top width height stride (length pixels.old)
        (map rgba8_command commands.now) }
    ensures refused { result ≢ 0 → pixels.new ≡ pixels.old }
    ensures run { result ≡ 0 → IsWindowRun rgba8 rgba8_numbers matte8_numbers left top width height
        stride (map rgba8_command commands.now) pixels.old pixels.new }
{
    run::run_window::<Rgba8p, PixRgba8, u8, PixCommand<'_>>(
        pixels, left, top, width, height, stride, commands, done,
    )
}

/// Runs `commands` in order on a window of a picture of 16-bit pixels of red, green, blue and
/// alpha. The window is the image of `width` columns and `height` rows, which start `stride` pixels
/// apart in `pixels`. Its first pixel lies at the point (`left`, `top`) of the picture, and the
/// regions of the commands are regions of the picture.
///
/// Returns 0 when all commands are done. Else nothing was painted. The status is then 1 where the
/// window is not in `pixels`, or `left + width` or `top + height` is above 2147483647. Otherwise it
/// says why the first refused command is refused. `done` is the number of commands before that one.
/// It is 0 where the window is refused, and the number of all commands when they are done.
#[unsafe(no_mangle)]
pub extern "C" fn pix_raw_run_window_rgba16(
    pixels: &mut [PixRgba16],
    left: u32,
    top: u32,
    width: u32,
    height: u32,
    stride: u32,
    commands: &[PixCommandRgba16<'_>],
    done: &mut usize,
) -> u32
    ensures status { result ≡ window_status_of left top width height stride (length pixels.old)
        (map rgba16_command commands.now) }
    ensures done { done.new ≡ window_done_of left top width height stride (length pixels.old)
        (map rgba16_command commands.now) }
    ensures refused { result ≢ 0 → pixels.new ≡ pixels.old }
    ensures run { result ≡ 0 → IsWindowRun rgba16 rgba16_numbers matte16_numbers left top width
        height stride (map rgba16_command commands.now) pixels.old pixels.new }
{
    run::run_window::<Rgba16p, PixRgba16, u16, PixCommandRgba16<'_>>(
        pixels, left, top, width, height, stride, commands, done,
    )
}

/// Runs `commands` in order on a window of a picture of 8-bit pixels of gray and alpha. The window
/// is the image of `width` columns and `height` rows, which start `stride` pixels apart in
/// `pixels`. Its first pixel lies at the point (`left`, `top`) of the picture, and the regions of
/// the commands are regions of the picture.
///
/// Returns 0 when all commands are done. Else nothing was painted. The status is then 1 where the
/// window is not in `pixels`, or `left + width` or `top + height` is above 2147483647. Otherwise it
/// says why the first refused command is refused. `done` is the number of commands before that one.
/// It is 0 where the window is refused, and the number of all commands when they are done.
#[unsafe(no_mangle)]
pub extern "C" fn pix_raw_run_window_graya8(
    pixels: &mut [PixGraya8],
    left: u32,
    top: u32,
    width: u32,
    height: u32,
    stride: u32,
    commands: &[PixCommandGraya8<'_>],
    done: &mut usize,
) -> u32
    ensures status { result ≡ window_status_of left top width height stride (length pixels.old)
        (map graya8_command commands.now) }
    ensures done { done.new ≡ window_done_of left top width height stride (length pixels.old)
        (map graya8_command commands.now) }
    ensures refused { result ≢ 0 → pixels.new ≡ pixels.old }
    ensures run { result ≡ 0 → IsWindowRun graya8 graya8_numbers matte8_numbers left top width
        height stride (map graya8_command commands.now) pixels.old pixels.new }
{
    run::run_window::<Graya8p, PixGraya8, u8, PixCommandGraya8<'_>>(
        pixels, left, top, width, height, stride, commands, done,
    )
}
