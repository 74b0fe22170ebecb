//! Rasters.
ghost use Rattle.std.specs.Prelude.{◌≡◌, ◌+◌, IfOk, IfErr};
ghost use Rattle.pix_raster.specs.declared.fault.RasterFault.{RasterFault};

use pix::bgr::Bgra16p;
use pix::chan::{Ch8, Linear, Premultiplied};
use pix::el::{Pix, Pixel};
use pix::filter::Filter;
use pix::gray::{Gray8, Gray16};
use pix::matte::Matte8;
use pix::ops::{Op, SrcOver};
use pix::rgb::{Rgba8, Rgba8p, Rgba16p};
use pix::scaled::{RasterScaleFault, scaled_raster};
use pix::shape::View;
use pix::{ColorModel, Command, Raster, RasterFault, Region};
use std::alloc::Global;

/// Makes a clear page, and asks for its size.
pub fn sizes(alloc: Global) -> Result<((u32, u32), Region, Region), RasterFault>
    ensures size { IfOk result (λ r. (r.0.0 ≡ 64) × (r.0.1 ≡ 48)) }
{
    let page = Raster::<Rgba8p>::with_clear(alloc, 64, 48)?;
    let size = (page.width(), page.height()); // (64, 48)
    let all = page.region(); // Region::new(0, 0, 64, 48)
    let part = page.intersection(Region::new(60, 40, 9, 9)); // Region::new(60, 40, 4, 8)
    Ok((size, all, part))
}

/// Makes a small picture of a photograph in light: each pixel is the mean of those under it.
pub fn thumbnail(
    alloc: Global,
    photo: &Raster<Rgba16p>,
) -> Result<Raster<Rgba16p>, RasterScaleFault>
    ensures size { IfOk result (λ r. (r.width ≡ 160) × (r.height ≡ 120)) }
{
    let view = View {
        left: 0,
        top: 0,
        across: 160,
        down: 120,
    };
    scaled_raster(alloc, photo, view, 160, 120, Filter::Area)
}

/// Makes rasters of other formats, one from another.
pub fn reformatted(alloc: Global, picture: &Raster<Rgba8>) -> Result<Raster<Bgra16p>, RasterFault> {
    let product = Raster::<Rgba8p>::with_raster(alloc, picture)?; // each color times the alpha
    let fine = Raster::<Rgba16p>::with_raster(alloc, &product)?; // 16 bits
    Raster::<Bgra16p>::with_raster(alloc, &fine) // blue first
}

/// Writes a pixel, and reads it again.
pub fn points(alloc: Global) -> Result<(Gray8, usize), RasterFault> {
    let mut page = Raster::with_color(alloc, 4, 3, Gray8::new(7))?;
    *page.pixel_mut(2, 1) = Gray8::new(255);
    let pixel = page.pixel(2, 1); // Gray8::new(255)

    page.pixels_mut().fill(Gray8::new(9));
    let first = page.pixels().first(); // Some(&Gray8::new(9))
    let count = page.pixels().len(); // 12
    Ok((*first.unwrap_or(&pixel), count))
}

/// Makes a raster of pixels, and takes them out again.
pub fn again<P: Pixel>(pixels: Vec<P>) -> Vec<P>
    ensures { result.items ≡ pixels.items }
{
    // Six pixels, or they are handed back.
    match Raster::with_pixels(3, 2, pixels) {
        Ok(picture) => picture.into_pixels(),
        Err((_, pixels)) => pixels,
    }
}

/// Makes a raster of bytes, and copies them out again.
pub fn bytes_again(alloc: Global, bytes: Vec<u8>) -> Result<Vec<u8>, RasterFault> {
    let picture = match Raster::<Gray8>::with_u8_buffer(alloc, 3, 2, bytes) {
        Ok(picture) => picture,
        Err((fault, _)) => return Err(fault),
    };
    match picture.into_u8_vec(alloc) {
        Ok(copied) => Ok(copied),
        Err((fault, _)) => Err(fault),
    }
}

/// Makes a raster of words, and copies them out again.
pub fn words_again(alloc: Global, words: Vec<u16>) -> Result<Vec<u16>, RasterFault> {
    let picture = match Raster::<Gray16>::with_u16_buffer(alloc, 3, 2, words) {
        Ok(picture) => picture,
        Err((fault, _)) => return Err(fault),
    };
    match picture.into_u16_vec(alloc) {
        Ok(copied) => Ok(copied),
        Err((fault, _)) => Err(fault),
    }
}

/// Draws rectangles on a page, and moves what stands on it.
pub fn moved(alloc: Global) -> Result<Raster<Rgba8p>, RasterFault> {
    let mut page = Raster::with_color(alloc, 64, 48, Rgba8p::new(255, 255, 255, 255))?;
    page.copy_color(Region::new(-8, 40, 16, 16), Rgba8p::new(255, 0, 0, 255));
    page.composite_color(
        Region::new(0, 0, 32, 48),
        Rgba8p::new(0, 0, 64, 64),
        SrcOver,
    );

    let copy = page.try_clone(alloc)?;
    page.clear();
    page.copy_raster(Region::from((8, 8)), &copy, copy.region()); // clipped to the page
    Ok(page)
}

/// Composites a sprite, and a color through a coverage mask.
pub fn composited(alloc: Global, page: &mut Raster<Rgba8p>) -> Result<(), RasterFault> {
    let sprite = Raster::with_color(alloc, 16, 16, Rgba8p::new(0, 0, 64, 64))?;
    let corner = Region::from((56, -8)); // partly outside of the page
    page.composite_raster(corner, &sprite, sprite.region(), SrcOver);

    let glyph = Raster::with_color(alloc, 5, 7, Matte8::new(128))?;
    let (at, ink) = (Region::from((10, 10)), Rgba8p::new(64, 0, 0, 255));
    page.composite_matte(at, &glyph, glyph.region(), ink, SrcOver);
    Ok(())
}

/// Composites a sprite through a mask.
pub fn masked<M: ColorModel>(
    alloc: Global,
    page: &mut Raster<Pix<4, Ch8, M, Premultiplied, Linear>>,
    sprite: &Raster<Pix<4, Ch8, M, Premultiplied, Linear>>,
) -> Result<(), RasterFault>
    requires has_alpha { 4 ≡ M.ALPHA + 1 }
{
    let at = Region::from((10, 10));
    let soft = Raster::with_color(alloc, 16, 16, Matte8::new(64))?;
    page.composite_raster_matte(at, sprite, sprite.region(), &soft, soft.region(), SrcOver);
    Ok(())
}

/// Composites a sprite at half opacity.
pub fn faded<M: ColorModel>(
    page: &mut Raster<Pix<4, Ch8, M, Premultiplied, Linear>>,
    sprite: &Raster<Pix<4, Ch8, M, Premultiplied, Linear>>,
)
    requires has_alpha { 4 ≡ M.ALPHA + 1 }
{
    let at = Region::from((10, 10));
    let half = Matte8::new(128);
    page.composite_raster_alpha(at, sprite, sprite.region(), half, SrcOver);
}

/// Runs a list of commands.
pub fn listed(page: &mut Raster<Rgba8p>) {
    let (reg, clr) = (Region::new(8, 8, 16, 16), Rgba8p::new(0, 0, 64, 64));
    let op = Op::SrcOver;
    let commands: [Command<'_, Rgba8p, Matte8>; 3] = [
        Command::Clear,
        Command::CopyColor { reg, clr },
        Command::Color { reg, clr, op },
    ];
    page.run(&commands);
}

/// Paints a page tile by tile: here the tile at its point (64, 0).
pub fn tiled(alloc: Global, sky: Rgba8p, sun: Rgba8p) -> Result<Raster<Rgba8p>, RasterFault> {
    let (over_both, op) = (Region::new(60, 2, 8, 8), Op::SrcOver);
    let commands: [Command<'_, Rgba8p, Matte8>; 1] = [Command::Color {
        reg: over_both,
        clr: sun,
        op,
    }];
    let mut tile = Raster::with_color(alloc, 64, 48, sky)?; // the second of the page's tiles
    tile.run_window(64, 0, &commands); // the first one by run_window(0, 0, &commands)
    Ok(tile)
}

/// Writes the rows of a region.
pub fn striped(page: &mut Raster<Gray8>) {
    let mut shade = 0_u8;
    for row in page.rows_mut(Region::new(8, 8, 16, 16)) {
        row.fill(Gray8::new(shade));
        shade = shade.wrapping_add(16);
    }
}
