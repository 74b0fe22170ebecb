//! The text of a raster.
ghost use Rattle.std.specs.Prelude.{◌≡◌, IfOk};
ghost use Rattle.pix_script.specs.Seen.{picture_of};
ghost use Rattle.pix_script.specs.Text.{picture_text};

use crate::pixel::push_rows;
use pix_el::rgb::Rgba8p;
use pix_raster::Raster;
use std::alloc::{AllocError, Global};

/// Returns the text of a raster: a line for each row. The line is empty where the width is 0.
pub(crate) fn raster_text(alloc: Global, raster: &Raster<Rgba8p>) -> Result<Vec<u8>, AllocError>
    ensures { IfOk result (λ text. text.items ≡ picture_text (picture_of raster.now)) }
{
    let width = raster.width() as usize;
    if width == 0 {
        let lines = Vec::from_elem(alloc, b'\n', raster.height() as usize)?;
        return Ok(lines);
    }
    // Eight digits for each pixel, and the byte that separates it from the next one or ends the
    // row.
    let mut out = Vec::with_capacity(alloc, raster.pixels().len().saturating_mul(9))?;
    push_rows(&mut out, raster.pixels(), width)?;
    Ok(out)
}
