//! Pictures that are bytes before and after.
ghost use Rattle.std.specs.Prelude.{◌≡◌, ◌+◌, vec_len, IfOk, IfErr, Some, None, Err};
ghost use Rattle.pix_ops.specs.declared.ops.Op.{Op};
ghost use Rattle.pix.specs.Buffers.{channels_of, buffer_fault, IsOfChannels};
ghost use Rattle.pix.specs.Image.{Image, Changed, region_of};
ghost use Rattle.pix.specs.Run.{done_at};
ghost use Rattle.pix_raster.specs.declared.command.Command.{Command};
ghost use Rattle.pix_raster.specs.declared.fault.RasterFault.{RasterFault};
ghost use Rattle.pix_uses.specs.Rgba.{Rgba, rgba8, numbers};

use pix::ops::SrcOver;
use pix::rgb::Rgba8p;
use pix::{Raster, RasterFault, Region};
use std::alloc::Global;

/// Composites a color over a region of a picture of bytes: red, green, blue and alpha of each
/// pixel, row by row.
pub fn tint_bytes(
    alloc: Global,
    width: u32,
    height: u32,
    bytes: Vec<u8>,
    reg: Region,
    clr: Rgba8p,
) -> Result<Vec<u8>, RasterFault>
    ensures fault { (fault : RasterFault) → buffer_fault 4 width height (vec_len bytes) ≡ Some fault
        → result ≡ Err fault }
    ensures memory { buffer_fault 4 width height (vec_len bytes) ≡ None
        → IfErr result (λ fault. fault ≡ RasterFault.Memory) }
    ensures tinted { IfOk result (λ out. (before after : Image Rgba)
        × IsOfChannels numbers width height bytes.items before
        × Changed numbers before after
        (done_at rgba8 numbers (region_of before) (Command.Color reg clr Op.SrcOver))
        × (out.items ≡ channels_of numbers after)) }
{
    let mut picture: Raster<Rgba8p> = match Raster::with_u8_buffer(alloc, width, height, bytes) {
        Ok(picture) => picture,
        Err((fault, _)) => return Err(fault),
    };
    picture.composite_color(reg, clr, SrcOver);
    match picture.into_u8_vec(alloc) {
        Ok(bytes) => Ok(bytes),
        Err((fault, _)) => Err(fault),
    }
}
