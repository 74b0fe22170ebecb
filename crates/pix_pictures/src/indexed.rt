//! A picture of many colors, beside it the same picture indexed with a palette of few, and below
//! them that palette.
ghost use Rattle.std.specs.Prelude.{◌≤◌, ◌+◌};

use crate::{Shade, Veil, print_pixel};
use pix::chan::Channel;
use pix::el::Pixel;
use pix::gray::Gray8;
use pix::hsl::Hsl;
use pix::rgb::{Rgb, SRgb8};
use pix::{ColorModel, Palette, Raster, RasterFault, Region};
use std::alloc::Global;
use std::io;

/// The sides of the picture.
const SIDE: u32 = 32;

/// The most colors of the palette.
const LIMIT: usize = 256;

/// Prints the page, or why there is none.
pub(crate) fn print(rt: &HostRuntime) -> io::Result<()> {
    match page::<Hsl, Rgb>(rt.alloc()) {
        Ok(Some(page)) => print_rows(rt, &page),
        Ok(None) => println!(rt; "too many colors"),
        Err(fault) => println!(rt; "{fault}"),
    }
}

/// Makes the page that is printed, of a picture with a hue.
///
/// Condition: the second model has three colors.
fn page<H, M>(alloc: Global) -> Result<Option<Raster<Veil<M>>>, RasterFault>
where
    H: ColorModel,
    M: ColorModel,
    requires few { 4 ≤ M.ALPHA + 1 }
{
    let picture = picture::<H>(alloc)?;
    let mut page = Raster::<Veil<M>>::with_clear(alloc, 68, 68)?;
    let left = Raster::<Veil<M>>::with_raster(alloc, &picture)?;
    page.copy_raster(Region::new(0, 0, SIDE, SIDE), &left, Region::from(()));
    let Some((indices, table)) = indexed(alloc, picture)? else {
        return Ok(None);
    };
    let right = looked_up(alloc, &indices, &table)?;
    page.copy_raster(Region::new(36, 0, SIDE, SIDE), &right, Region::from(()));
    copy_table(&mut page, &table);
    Ok(Some(page))
}

/// Makes the picture: its hue turns from left to right, and it grows darker from top to bottom.
fn picture<H: ColorModel>(alloc: Global) -> Result<Raster<Shade<H>>, RasterFault> {
    let mut picture = Raster::<Shade<H>>::with_clear(alloc, SIDE, SIDE)?;
    let mut lightness = 255_u8;
    for row in picture.rows_mut(Region::from(())) {
        let mut hue = 0_u8;
        for pixel in row.iter_mut() {
            *pixel = Shade::<H>::new(hue, 128u8, lightness);
            hue = hue.wrapping_add(8);
        }
        lightness = lightness.wrapping_sub(4);
    }
    Ok(picture)
}

/// A color may stand for those that are at most 48 away in every channel, however many there are.
fn threshold(_size: usize) -> SRgb8 {
    SRgb8::new(48u8, 48u8, 48u8)
}

/// Returns the indices of the picture's pixels, and the palette's colors.
fn indexed<H: ColorModel>(
    alloc: Global,
    picture: Raster<Shade<H>>,
) -> Result<Option<(Raster<Gray8>, Vec<SRgb8>)>, RasterFault> {
    let mut palette = Palette::new(alloc, LIMIT)?;
    palette.set_threshold_fn(threshold);
    match palette.make_indexed(alloc, picture) {
        Err((fault, _)) => Err(fault),
        Ok(None) => Ok(None),
        Ok(Some(indices)) => {
            let Ok(table) = Vec::from_slice(alloc, palette.colors()) else {
                return Err(RasterFault::Memory);
            };
            Ok(Some((indices, table)))
        }
    }
}

/// Returns the color of each index.
///
/// Condition: the second model has three colors.
fn looked_up<S, M, I>(
    alloc: Global,
    indices: &Raster<I>,
    table: &[Shade<S>],
) -> Result<Raster<Veil<M>>, RasterFault>
where
    S: ColorModel,
    M: ColorModel,
    I: Pixel,
    requires few { 4 ≤ M.ALPHA + 1 }
{
    let mut shown = Raster::<Shade<S>>::with_clear(alloc, SIDE, SIDE)?;
    for (pixel, index) in shown.pixels_mut().iter_mut().zip(indices.pixels()) {
        if let Some(clr) = table.get(index.get(0).to_u32() as usize) {
            *pixel = *clr;
        }
    }
    Raster::<Veil<M>>::with_raster(alloc, &shown)
}

/// Copies the colors of a table to squares below the pictures, sixteen in a row.
///
/// Condition: the second model has three colors.
fn copy_table<S: ColorModel, M: ColorModel>(page: &mut Raster<Veil<M>>, table: &[Shade<S>])
    requires few { 4 ≤ M.ALPHA + 1 }
{
    let (mut x, mut y) = (0_i32, 36_i32);
    for clr in table {
        let clr = clr.convert::<Veil<M>>();
        page.copy_color(Region::new(x, y, 4, 4), clr);
        x = x.wrapping_add(4);
        if x == 64 {
            x = 0;
            y = y.wrapping_add(4);
        }
    }
}

/// Prints each row of pixels.
fn print_rows<P: Pixel>(rt: &HostRuntime, page: &Raster<P>) -> io::Result<()> {
    for row in page.rows(Region::from(())) {
        for (place, pixel) in row.iter().enumerate() {
            print_pixel(rt, place, *pixel)?;
        }
        println!(rt; "")?;
    }
    Ok(())
}
