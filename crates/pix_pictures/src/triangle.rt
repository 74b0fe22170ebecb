//! A triangle of pale and dark colors. Its hue turns from the upper left to the lower right. It
//! grows paler to the lower left and darker to the upper right.
ghost use Rattle.std.specs.Prelude.{◌≤◌, ◌+◌};

use crate::{Shade, Veil, print_pixel};
use pix::chan::Ch8;
use pix::el::Pixel;
use pix::hwb::Hwb;
use pix::rgb::Rgb;
use pix::{ColorModel, Raster, RasterFault, Region};
use std::alloc::Global;
use std::io;

/// The sides of the triangle's raster.
const SIDE: u32 = 256;

/// Prints the triangle, or why there is none.
pub(crate) fn print(rt: &HostRuntime) -> io::Result<()> {
    match triangle::<Hwb, Rgb>(rt.alloc()) {
        Ok(shown) => print_rows(rt, &shown),
        Err(fault) => println!(rt; "{fault}"),
    }
}

/// Makes the triangle of hue, whiteness and blackness, and converts it to red, green and blue.
///
/// Condition: the second model has three colors.
fn triangle<H: ColorModel, M: ColorModel>(alloc: Global) -> Result<Raster<Veil<M>>, RasterFault>
    requires few { 4 ≤ M.ALPHA + 1 }
{
    let mut triangle = Raster::<Shade<H>>::with_clear(alloc, SIDE, SIDE)?;
    let mut y = 0_usize;
    for row in triangle.rows_mut(Region::from(())) {
        for (x, pixel) in row.iter_mut().enumerate() {
            *pixel = color(x, y);
        }
        y = y.saturating_add(1);
    }
    Raster::<Veil<M>>::with_raster(alloc, &triangle)
}

/// The color at a point: half of `x` and `y` is the hue, and how far one passes the other is
/// whiteness or blackness.
fn color<H>(x: usize, y: usize) -> Shade<H> {
    let hue = x.saturating_add(y) / 2;
    let (whiteness, blackness) = (y.saturating_sub(x), x.saturating_sub(y));
    Shade::<H>::new(
        Ch8::new(hue.min(255) as u8),
        Ch8::new(whiteness.min(255) as u8),
        Ch8::new(blackness.min(255) as u8),
    )
}

/// Prints every fourth pixel of every fourth row.
fn print_rows<P: Pixel>(rt: &HostRuntime, shown: &Raster<P>) -> io::Result<()> {
    for row in shown.pixels().chunks(SIDE as usize).step_by(4) {
        for (place, pixel) in row.iter().step_by(4).enumerate() {
            print_pixel(rt, place, *pixel)?;
        }
        println!(rt; "")?;
    }
    Ok(())
}
