//! Commands as C lays them out.
ghost use Rattle.std.specs.Prelude.{◌≡◌};
ghost use Rattle.pix_flat.specs.Command.{rgba8_command, graya8_command};
ghost use Rattle.pix_flat.specs.Command.{is_narrow, narrow_command, wide_command};

use crate::format::{PixGraya8, PixMatte8, PixRgba8, PixRgba16};
use crate::kind;

/// A rectangle of points: its left and top coordinates, and its sides of at most 2147483647.
#[repr(C)]
#[derive(Clone, Copy, Debug, PartialEq, Eq)]
pub struct PixRegion {
    /// The left coordinate.
    pub x: i32,
    /// The top coordinate.
    pub y: i32,
    /// The width in columns.
    pub width: u32,
    /// The height in rows.
    pub height: u32,
}

/// A change of an image of 8-bit pixels of red, green, blue and alpha.
///
/// The operator and all regions are tested for every kind. A source is tested only where the kind
/// reads it.
#[repr(C)]
#[derive(Clone, Copy, Drop)]
pub struct PixCommand<'a> {
    /// What is done. 0 clears the image. 1 copies a color, and 2 copies an image. 3 composites a
    /// color, and 4 composites an image. 5 composites a color through mattes, and 6 an image
    /// through mattes. 7 composites an image at an opacity. The constants of `kind.rt` name them.
    pub kind: u32,
    /// The number of the operator, its index in `Op::ALL`.
    pub op: u32,
    /// The region of the destination, where the kind takes one.
    pub to: PixRegion,
    /// The region of the source, where the kind takes one.
    pub from: PixRegion,
    /// The color of kinds 1, 3 and 5.
    pub color: PixRgba8,
    /// The pixels of the source of kinds 2, 4, 6 and 7.
    pub pixels: &'a [PixRgba8],
    /// The mattes of kinds 5 and 6.
    pub mattes: &'a [u8],
    /// The width of the source in columns.
    pub width: u32,
    /// The height of the source in rows.
    pub height: u32,
    /// How many pixels or mattes lie from the start of a row of the source to the start of the
    /// next.
    pub stride: u32,
    /// The region of the mask of kind 6.
    pub mask: PixRegion,
    /// The width of that mask in columns.
    pub mask_width: u32,
    /// The height of that mask in rows.
    pub mask_height: u32,
    /// How many mattes lie from the start of a row of that mask to the start of the next.
    pub mask_stride: u32,
    /// The opacity of kind 7, as a matte.
    pub alpha: u8,
}

/// A change of an image of 16-bit pixels of red, green, blue and alpha. Its fields are those of
/// [`PixCommand`].
#[repr(C)]
#[derive(Clone, Copy, Drop)]
pub struct PixCommandRgba16<'a> {
    /// What is done.
    pub kind: u32,
    /// The number of the operator.
    pub op: u32,
    /// The region of the destination.
    pub to: PixRegion,
    /// The region of the source.
    pub from: PixRegion,
    /// The color.
    pub color: PixRgba16,
    /// The pixels of the source.
    pub pixels: &'a [PixRgba16],
    /// The mattes of 16 bits.
    pub mattes: &'a [u16],
    /// The width of the source.
    pub width: u32,
    /// The height of the source.
    pub height: u32,
    /// The stride of the source.
    pub stride: u32,
    /// The region of the mask.
    pub mask: PixRegion,
    /// The width of the mask.
    pub mask_width: u32,
    /// The height of the mask.
    pub mask_height: u32,
    /// The stride of the mask.
    pub mask_stride: u32,
    /// The opacity.
    pub alpha: u16,
    /// Mattes of 8 bits. Where there are any, kinds 5 and 6 read these and not `mattes`, each as
    /// 257 times its value.
    pub mattes8: &'a [PixMatte8],
}

/// A change of an image of 8-bit pixels of gray and alpha. Its fields are those of [`PixCommand`].
#[repr(C)]
#[derive(Clone, Copy, Drop)]
pub struct PixCommandGraya8<'a> {
    /// What is done.
    pub kind: u32,
    /// The number of the operator.
    pub op: u32,
    /// The region of the destination.
    pub to: PixRegion,
    /// The region of the source.
    pub from: PixRegion,
    /// The color.
    pub color: PixGraya8,
    /// The pixels of the source.
    pub pixels: &'a [PixGraya8],
    /// The mattes.
    pub mattes: &'a [u8],
    /// The width of the source.
    pub width: u32,
    /// The height of the source.
    pub height: u32,
    /// The stride of the source.
    pub stride: u32,
    /// The region of the mask.
    pub mask: PixRegion,
    /// The width of the mask.
    pub mask_width: u32,
    /// The height of the mask.
    pub mask_height: u32,
    /// The stride of the mask.
    pub mask_stride: u32,
    /// The opacity.
    pub alpha: u8,
}

/// A command on pixels `D`, with mattes `M`.
#[derive(Clone, Copy, Drop)]
pub struct FlatCommand<'a, D, M> {
    /// What is done.
    pub(crate) kind: u32,
    /// The number of the operator.
    pub(crate) op: u32,
    /// The region of the destination.
    pub(crate) to: PixRegion,
    /// The region of the source.
    pub(crate) from: PixRegion,
    /// The color.
    pub(crate) color: D,
    /// The pixels of the source.
    pub(crate) pixels: &'a [D],
    /// The mattes.
    pub(crate) mattes: &'a [M],
    /// The width of the source.
    pub(crate) width: u32,
    /// The height of the source.
    pub(crate) height: u32,
    /// The stride of the source.
    pub(crate) stride: u32,
    /// The region of the mask.
    pub(crate) mask: PixRegion,
    /// The width of the mask.
    pub(crate) mask_width: u32,
    /// The height of the mask.
    pub(crate) mask_height: u32,
    /// The stride of the mask.
    pub(crate) mask_stride: u32,
    /// The opacity.
    pub(crate) alpha: M,
}

/// Writes the command of the same fields in the layout of all formats, with these mattes and this
/// opacity.
macro_rules! flat_command {
    ($command:expr, $mattes:expr, $alpha:expr) => {
        FlatCommand {
            kind: $command.kind,
            op: $command.op,
            to: $command.to,
            from: $command.from,
            color: $command.color,
            pixels: $command.pixels,
            mattes: $mattes,
            width: $command.width,
            height: $command.height,
            stride: $command.stride,
            mask: $command.mask,
            mask_width: $command.mask_width,
            mask_height: $command.mask_height,
            mask_stride: $command.mask_stride,
            alpha: $alpha,
        }
    };
}

impl<'a> PixCommand<'a> {
    /// Returns the command in the layout of all formats.
    #[inline(always)]
    pub(crate) fn flat(&self) -> FlatCommand<'_, PixRgba8, u8>
        ensures { result ≡ rgba8_command self.now }
    {
        flat_command!(self, self.mattes, self.alpha)
    }
}

impl<'a> PixCommandRgba16<'a> {
    /// Returns whether the command reads mattes of 8 bits.
    #[inline(always)]
    pub(crate) fn is_narrow(&self) -> bool
        ensures { result ≡ is_narrow self.now }
    {
        let kind = self.kind;
        !self.mattes8.is_empty()
            && (kind == kind::COMPOSITE_MATTE || kind == kind::COMPOSITE_IMAGE_MATTE)
    }

    /// Returns the command with its mattes of 8 bits, in the layout of all formats. It is for kinds
    /// without an opacity.
    #[inline(always)]
    pub(crate) fn narrow(&self) -> FlatCommand<'_, PixRgba16, PixMatte8>
        ensures { result ≡ narrow_command self.now }
    {
        flat_command!(self, self.mattes8, PixMatte8 { value: 0 })
    }

    /// Returns the command with its mattes of 16 bits, in the layout of all formats.
    #[inline(always)]
    pub(crate) fn wide(&self) -> FlatCommand<'_, PixRgba16, u16>
        ensures { result ≡ wide_command self.now }
    {
        flat_command!(self, self.mattes, self.alpha)
    }
}

impl<'a> PixCommandGraya8<'a> {
    /// Returns the command in the layout of all formats.
    #[inline(always)]
    pub(crate) fn flat(&self) -> FlatCommand<'_, PixGraya8, u8>
        ensures { result ≡ graya8_command self.now }
    {
        flat_command!(self, self.mattes, self.alpha)
    }
}
