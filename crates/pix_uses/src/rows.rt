//! Rows.
ghost use Rattle.std.specs.Prelude.{◌≡◌, ◌↔◌, IfOk, true, IsTrue};
ghost use Rattle.std.specs.List.{flat_map};
ghost use Rattle.pix.specs.Region.{has_row};
ghost use Rattle.pix.specs.Rows.{rows_of, clipped};

use pix::rgb::Rgba8p;
use pix::{Raster, Region};
use std::alloc::{AllocError, Global};

/// Copies the pixels of a region out of a picture, row by row.
pub fn crop(alloc: Global, picture: &Raster<Rgba8p>, reg: Region) -> Result<Vec<Rgba8p>, AllocError>
    ensures { IfOk result (λ pixels. pixels.items ≡
        flat_map (λ row. row) (rows_of picture.now reg)) }
{
    let mut pixels = Vec::new(alloc);
    for row in picture.rows(reg) {
        pixels.extend_from_slice(row)?;
    }
    Ok(pixels)
}

/// Writes one color over a row of a region, and says whether the region has that row.
pub fn underline(picture: &mut Raster<Rgba8p>, reg: Region, y: i32, clr: Rgba8p) -> bool
    ensures { IsTrue result ↔ (has_row (clipped picture.old reg) y ≡ true) }
{
    match picture.row_mut(y, reg) {
        None => false,
        Some(row) => {
            row.fill(clr);
            true
        }
    }
}
