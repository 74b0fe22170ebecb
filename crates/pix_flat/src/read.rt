//! Commands as the library's interpreter reads them.
ghost use Rattle.std.specs.Prelude.{◌≡◌, length, true, nat_lt, if◌then◌else◌};
ghost use Rattle.pix_ops.specs.declared.ops.Op.TheVariants.{Src};
ghost use Rattle.pix_raster.specs.Run.{op_of};
ghost use Rattle.pix_raster.specs.Draw.{image_of, image_in, command_in, unplaced, IsSource, IsSound};
ghost use Rattle.pix_flat.specs.Command.{op_at, rectangle, command_of};
ghost use Rattle.pix_flat.specs.Command.{rgba8_command, graya8_command};
ghost use Rattle.pix_flat.specs.Command.{is_narrow, narrow_command, wide_command};
ghost use Rattle.pix_flat.specs.Status.{is_sized, fits, has_pixels, fault_of};

use crate::command::{FlatCommand, PixCommand, PixCommandGraya8, PixCommandRgba16, PixRegion};
use crate::format::{PixGraya8, PixMatte8, PixRgba8, PixRgba16};
use crate::kind;
use crate::operator::op_at;
use crate::size::LIMIT;
use pix_ops::ops::Op;
use pix_raster::Region;
use pix_raster::view::{Draw, ReadCommand, ReadDraw, Shape, Source};

/// Returns the region of the library. Condition: its sides are within the limit.
#[inline(always)]
fn region_of(reg: PixRegion) -> Region
    requires { fits reg ≡ true }
    ensures { result ≡ rectangle reg }
{
    Region::new(reg.x, reg.y, reg.width, reg.height)
}

/// Returns the region of the destination of a command of a kind. For a clear it has all points of
/// any picture. A side above the limit counts as the limit.
#[inline(always)]
pub(crate) fn reach_of(kind: u32, to: PixRegion) -> Region {
    if kind == kind::CLEAR {
        return Region::new(0, 0, LIMIT, LIMIT);
    }
    Region::new(to.x, to.y, to.width.min(LIMIT), to.height.min(LIMIT))
}

/// Returns the operator of a command that composites, and `Src` for another.
#[inline(always)]
fn operator_of(kind: u32, op: u32) -> Op
    ensures { result ≡ if nat_lt kind 3 then Src else op_at op }
{
    if kind < kind::COMPOSITE_COLOR {
        return Op::Src;
    }
    op_at(op)
}

/// Returns a region of an image as a source of the library. Condition: the sides of the region are
/// within the limit, and the rows of the image lie in `pixels`.
#[inline(always)]
fn source_of<'a, S>(
    pixels: &'a [S],
    width: u32,
    height: u32,
    stride: u32,
    from: PixRegion,
) -> Source<'a, S>
    requires fits { fits from ≡ true }
    requires sized { is_sized width height stride (length pixels.now) ≡ true }
    ensures image { image_in result ≡ image_of width height stride pixels.now }
    ensures from { result.from ≡ rectangle from }
    ensures sound { IsSource result }
{
    let shape = Shape {
        width,
        height,
        stride: stride as usize,
    };
    let from = region_of(from);
    Source {
        pixels,
        shape,
        from,
    }
}

/// Returns the region of the source of a command that reads pixels.
#[inline(always)]
fn pixels_of<'a, D, M>(c: &FlatCommand<'a, D, M>) -> Source<'a, D>
    requires fits { fits c.now.from ≡ true }
    requires sized { has_pixels c.now ≡ true }
    ensures image { image_in result ≡
        image_of c.now.width c.now.height c.now.stride c.now.pixels.now }
    ensures from { result.from ≡ rectangle c.now.from }
    ensures sound { IsSource result }
{
    source_of(c.pixels, c.width, c.height, c.stride, c.from)
}

/// Returns the drawing of a command that composites a color through mattes and is not refused.
#[inline(always)]
fn matte_of<'a, D, M>(c: &FlatCommand<'a, D, M>, clr: &'a D) -> Draw<'a, D, M>
    requires kind { c.now.kind ≡ 5 }
    requires sound { fault_of c.now ≡ 0 }
    requires color { clr.now ≡ c.now.color }
    ensures same { command_in (op_of (command_of c.now)) result ≡ unplaced (command_of c.now) }
    ensures sound { IsSound result }
{
    let to = region_of(c.to);
    let src = source_of(c.mattes, c.width, c.height, c.stride, c.from);
    Draw::Matte { to, src, clr }
}

/// Returns the drawing of a command that composites an image through mattes and is not refused.
#[inline(always)]
fn masked_of<'a, D, M>(c: &FlatCommand<'a, D, M>) -> Draw<'a, D, M>
    requires kind { c.now.kind ≡ 6 }
    requires sound { fault_of c.now ≡ 0 }
    ensures same { command_in (op_of (command_of c.now)) result ≡ unplaced (command_of c.now) }
    ensures sound { IsSound result }
{
    let to = region_of(c.to);
    let src = pixels_of(c);
    let (width, height, stride) = (c.mask_width, c.mask_height, c.mask_stride);
    let mask = source_of(c.mattes, width, height, stride, c.mask);
    Draw::ImageMatte { to, src, mask }
}

/// Returns the drawing of a command that is not refused. Its color and its opacity are lent from
/// where they lie.
#[inline(always)]
fn draw_of<'a, D, M>(c: &FlatCommand<'a, D, M>, clr: &'a D, alpha: &'a M) -> Draw<'a, D, M>
    requires sound { fault_of c.now ≡ 0 }
    requires color { clr.now ≡ c.now.color }
    requires alpha { alpha.now ≡ c.now.alpha }
    ensures same { command_in (op_of (command_of c.now)) result ≡ unplaced (command_of c.now) }
    ensures sound { IsSound result }
{
    let to = region_of(c.to);
    match c.kind {
        kind::CLEAR => Draw::Clear,
        kind::COPY_COLOR => Draw::CopyColor { reg: to, clr },
        kind::COPY_IMAGE => {
            let src = pixels_of(c);
            Draw::CopyImage { to, src }
        }
        kind::COMPOSITE_COLOR => Draw::Color { reg: to, clr },
        kind::COMPOSITE_IMAGE => {
            let src = pixels_of(c);
            Draw::Image { to, src }
        }
        kind::COMPOSITE_MATTE => matte_of(c, clr),
        kind::COMPOSITE_IMAGE_MATTE => masked_of(c),
        _ => {
            let src = pixels_of(c);
            Draw::ImageAlpha { to, src, alpha }
        }
    }
}

impl<'a> ReadDraw<PixRgba8, u8> for PixCommand<'a> {
    ghost command = { λ c. command_of (rgba8_command c) };

    ghost can_read = { λ c. fault_of (rgba8_command c) ≡ 0 };

    #[inline(always)]
    fn read(&self) -> Draw<'_, PixRgba8, u8> {
        draw_of(&self.flat(), &self.color, &self.alpha)
    }
}

impl<'a> ReadCommand<PixRgba8, u8> for PixCommand<'a> {
    #[inline(always)]
    fn op(&self) -> Op {
        operator_of(self.kind, self.op)
    }

    #[inline(always)]
    fn reach(&self) -> Region {
        reach_of(self.kind, self.to)
    }
}

impl<'a> ReadDraw<PixRgba16, u16> for PixCommandRgba16<'a> {
    ghost command = { λ c. command_of (wide_command c) };

    ghost can_read = { λ c. fault_of (wide_command c) ≡ 0 };

    #[inline(always)]
    fn read(&self) -> Draw<'_, PixRgba16, u16> {
        draw_of(&self.wide(), &self.color, &self.alpha)
    }
}

impl<'a> ReadCommand<PixRgba16, u16> for PixCommandRgba16<'a> {
    #[inline(always)]
    fn op(&self) -> Op {
        operator_of(self.kind, self.op)
    }

    #[inline(always)]
    fn reach(&self) -> Region {
        reach_of(self.kind, self.to)
    }
}

/// The command with its mattes of 8 bits.
impl<'a> ReadDraw<PixRgba16, PixMatte8> for PixCommandRgba16<'a> {
    ghost command = { λ c. command_of (narrow_command c) };

    ghost can_read = { λ c. (is_narrow c ≡ true) × (fault_of (narrow_command c) ≡ 0) };

    #[inline(always)]
    fn read(&self) -> Draw<'_, PixRgba16, PixMatte8> {
        if self.kind == kind::COMPOSITE_MATTE {
            matte_of(&self.narrow(), &self.color)
        } else {
            masked_of(&self.narrow())
        }
    }
}

impl<'a> ReadCommand<PixRgba16, PixMatte8> for PixCommandRgba16<'a> {
    #[inline(always)]
    fn op(&self) -> Op {
        operator_of(self.kind, self.op)
    }

    #[inline(always)]
    fn reach(&self) -> Region {
        reach_of(self.kind, self.to)
    }
}

impl<'a> ReadDraw<PixGraya8, u8> for PixCommandGraya8<'a> {
    ghost command = { λ c. command_of (graya8_command c) };

    ghost can_read = { λ c. fault_of (graya8_command c) ≡ 0 };

    #[inline(always)]
    fn read(&self) -> Draw<'_, PixGraya8, u8> {
        draw_of(&self.flat(), &self.color, &self.alpha)
    }
}

impl<'a> ReadCommand<PixGraya8, u8> for PixCommandGraya8<'a> {
    #[inline(always)]
    fn op(&self) -> Op {
        operator_of(self.kind, self.op)
    }

    #[inline(always)]
    fn reach(&self) -> Region {
        reach_of(self.kind, self.to)
    }
}
