//! Statuses, and which commands are refused.
ghost use Rattle.std.specs.Prelude.{◌≡◌, map};
ghost use Rattle.pix_flat.specs.Status.{fits, has_pixels, has_mask, has_source, fault_of};
ghost use Rattle.pix_flat.specs.Status.{first_fault, count_before_fault};

use crate::command::{FlatCommand, PixRegion};
use crate::flatten::Flatten;
use crate::kind;
use crate::size::{LIMIT, is_sized};
use pix_el::el::Pixel;
use pix_el::stored::{Coverage, Stored};
use pix_ops::ops::Op;

/// All commands of the list are done.
pub const DONE: u32 = 0;

/// A side of the image is above 2147483647, its stride is below its width, or its pixels are too
/// few.
pub const BAD_SIZE: u32 = 1;

/// There is no such kind of command.
pub const BAD_KIND: u32 = 2;

/// A side of a region is above 2147483647.
pub const BAD_REGION: u32 = 3;

/// There is no such operator.
pub const BAD_OP: u32 = 4;

/// The source or the mask that the kind reads is refused, for the reasons that [`BAD_SIZE`] gives
/// for the image.
pub const BAD_SOURCE: u32 = 5;

/// Returns whether the sides of a region are within the limit.
fn fits(reg: PixRegion) -> bool
    ensures { result ≡ fits reg }
{
    reg.width <= LIMIT && reg.height <= LIMIT
}

/// Returns whether the rows of a command's image lie in its pixels.
fn has_pixels<D, M>(command: &FlatCommand<'_, D, M>) -> bool
    ensures { result ≡ has_pixels command.now }
{
    let (width, height, stride) = (command.width, command.height, command.stride);
    is_sized(width, height, stride, command.pixels.len())
}

/// Returns whether the rows of a command's mask lie in its mattes.
fn has_mask<D, M>(command: &FlatCommand<'_, D, M>) -> bool
    ensures { result ≡ has_mask command.now }
{
    let (width, height) = (command.mask_width, command.mask_height);
    is_sized(width, height, command.mask_stride, command.mattes.len())
}

/// Returns whether the source that the kind reads has a size that is accepted.
fn has_source<D, M>(command: &FlatCommand<'_, D, M>) -> bool
    ensures { result ≡ has_source command.now }
{
    match command.kind {
        kind::COPY_IMAGE | kind::COMPOSITE_IMAGE | kind::COMPOSITE_IMAGE_ALPHA => {
            has_pixels(command)
        }
        kind::COMPOSITE_MATTE => is_sized(
            command.width,
            command.height,
            command.stride,
            command.mattes.len(),
        ),
        kind::COMPOSITE_IMAGE_MATTE => has_pixels(command) && has_mask(command),
        _ => true,
    }
}

/// Returns why a command is refused, or 0.
// A call would be passed a copy of the command, by loads of what the caller has just written in
// parts.
#[inline(always)]
pub(crate) fn fault_of<D, M>(command: &FlatCommand<'_, D, M>) -> u32
    ensures { result ≡ fault_of command.now }
{
    if command.kind > kind::COMPOSITE_IMAGE_ALPHA {
        return BAD_KIND;
    }
    if !fits(command.to) || !fits(command.from) || !fits(command.mask) {
        return BAD_REGION;
    }
    if command.op as usize >= Op::ALL.len() {
        return BAD_OP;
    }
    if !has_source(command) {
        return BAD_SOURCE;
    }
    DONE
}

/// Returns why the first refused command is refused, or 0, and writes to `done` how many come
/// before it.
#[inline(always)]
pub(crate) fn first_fault<P: Pixel, D: Stored<P>, M: Coverage<P::Chan>, C: Flatten<P, D, M>>(
    commands: &[C],
    done: &mut usize,
) -> u32
    ensures fault { result ≡ first_fault (map C.flat commands.now) }
    ensures done { done.new ≡ count_before_fault (map C.flat commands.now) }
{
    for (index, command) in commands.iter().enumerate() {
        let fault = command.fault();
        if fault != DONE {
            *done = index;
            return fault;
        }
    }
    *done = commands.len();
    DONE
}
