//! Tables of colors and pictures without points: each call succeeds. The bodies are generic, since
//! each call at a concrete format costs the prover seconds.
use pix::chan::{Ch8, Gamma};
use pix::el::Pixel;
use pix::gray::Gray8;
use pix::rgb::{SRgb8, SRgba8};
use pix::{ColorTable, Raster, RasterFault, RgbaTable, ScanOrder};
use std::alloc::Global;
use std::process::Abort;
use std::test::Fail;

/// Sizes without a point. Memory for a row of the widest has no room.
const SIZES: [(u32, u32); 5] = [(0, 7), (7, 0), (0, 0), (2147483647, 0), (0, 2147483647)];

/// Whether an answer is an image that has the size of a picture, and no pixel.
fn is_image<S: Pixel, P: Pixel>(
    picture: &Raster<S>,
    answer: Result<Option<Raster<P>>, RasterFault>,
) -> bool {
    match answer {
        Ok(Some(image)) => {
            let is_wide = image.width() == picture.width();
            is_wide && image.height() == picture.height() && image.pixels().is_empty()
        }
        _ => false,
    }
}

/// Whether an answer is a table without an entry.
fn is_table(answer: Result<Option<ColorTable>, RasterFault>) -> bool {
    match answer {
        Ok(Some(table)) => table.is_empty(),
        _ => false,
    }
}

/// Whether an answer is a table with an alpha, without an entry.
fn is_rgba_table(answer: Result<Option<RgbaTable>, RasterFault>) -> bool {
    match answer {
        Ok(Some(table)) => table.is_empty(),
        _ => false,
    }
}

/// Asserts that each call of a table of colors succeeds.
fn assert_colors<S>(rt: &impl Abort, alloc: Global, picture: &Raster<S>) -> Result<(), RasterFault>
where
    S: Pixel,
    Ch8: From<S::Chan>,
    S::Gamma: Gamma<Ch8>,
{
    let mut table = ColorTable::new(alloc, 4, SRgb8::default())?;
    let indices = Raster::<Gray8>::with_clear(alloc, picture.width(), picture.height())?;
    let first = table.index_pixels(alloc, picture);
    table.set_entry(SRgb8::new::<u8>(200, 0, 0));
    let serpentine = ScanOrder::Serpentine;
    let succeed = [
        is_table(ColorTable::quantize(alloc, picture, 256, 0)),
        is_table(ColorTable::quantize_refined(alloc, picture, 256, 128, 4)),
        is_image(picture, first),
        is_image(picture, table.index_pixels(alloc, picture)),
        is_image(picture, table.map_indexed(alloc, picture)),
        is_image(picture, table.map_indexed_alpha(alloc, picture, 128, 255)),
        is_image(picture, table.diffuse_indexed(alloc, picture, 128, 255)),
        is_image(
            picture,
            table.diffuse_indexed_by(alloc, picture, 128, 255, 12, serpentine),
        ),
        is_image(picture, table.look_up(alloc, &indices)),
    ];
    assert_eq!(rt;
        succeed,
        [true; 9],
        "{} by {}",
        picture.width(),
        picture.height()
    );
    Ok(())
}

/// Asserts that each call of a table of colors with an alpha succeeds.
fn assert_rgbas<S>(rt: &impl Abort, alloc: Global, picture: &Raster<S>) -> Result<(), RasterFault>
where
    S: Pixel,
    Ch8: From<S::Chan>,
    S::Gamma: Gamma<Ch8>,
{
    let table = RgbaTable::with_colors(alloc, &[SRgba8::new::<u8>(200, 0, 0, 100)])?;
    let indices = Raster::<Gray8>::with_clear(alloc, picture.width(), picture.height())?;
    let (to_right, serpentine) = (ScanOrder::LeftToRight, ScanOrder::Serpentine);
    let succeed = [
        is_rgba_table(RgbaTable::quantize(alloc, picture, 256, 4)),
        is_image(picture, table.map_indexed(alloc, picture)),
        is_image(picture, table.diffuse_indexed(alloc, picture, 16, to_right)),
        is_image(
            picture,
            table.diffuse_indexed(alloc, picture, 12, serpentine),
        ),
        is_image(picture, table.look_up(alloc, &indices)),
    ];
    assert_eq!(rt;
        succeed,
        [true; 5],
        "{} by {}",
        picture.width(),
        picture.height()
    );
    Ok(())
}

#[test]
fn tables_and_pictures_without_points(rt: HostRuntime) -> Result<(), Fail> {
    for (width, height) in SIZES {
        let picture = Raster::<SRgba8>::with_clear(rt.alloc(), width, height)?;
        assert_colors(&rt, rt.alloc(), &picture)?;
    }
    Ok(())
}

#[test]
fn tables_with_alpha_and_pictures_without_points(rt: HostRuntime) -> Result<(), Fail> {
    for (width, height) in SIZES {
        let picture = Raster::<SRgba8>::with_clear(rt.alloc(), width, height)?;
        assert_rgbas(&rt, rt.alloc(), &picture)?;
    }
    Ok(())
}
