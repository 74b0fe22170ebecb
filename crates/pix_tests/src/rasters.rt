//! Rasters that are converted to another format, and composited with others.
ghost use Rattle.std.specs.Prelude.{◌≤◌, ◌+◌};

use crate::pictures::rgba;
use pix::chan::{Channel, Gamma};
use pix::el::Pixel;
use pix::gray::Gray16;
use pix::hwb::SHwb8;
use pix::ops::{Blend, Src, SrcOver};
use pix::rgb::{Rgba8p, SRgb8};
use pix::{Raster, RasterFault, Region};
use std::alloc::Global;
use std::process::Abort;
use std::test::Fail;

/// Composites a raster from its point on, at a point of another.
fn composite<O: Blend>(
    raster: &mut Raster<Rgba8p>,
    (x, y): (i32, i32),
    src: &Raster<Rgba8p>,
    from: (i32, i32),
    op: O,
) {
    raster.composite_raster(Region::from((x, y)), src, Region::from(from), op);
}

#[test]
fn a_converted_raster_is_composited(rt: HostRuntime) -> Result<(), Fail> {
    let gray = Raster::with_color(rt.alloc(), 3, 3, Gray16::new::<u16>(0x8000))?;
    let src = Raster::with_raster(rt.alloc(), &gray)?;
    let mut raster = Raster::with_clear(rt.alloc(), 3, 3)?;
    composite(&mut raster, (0, 0), &src, (0, 1), Src);
    let (full, none) = (rgba([0x80, 0x80, 0x80, 0xFF]), rgba([0; 4]));
    let want = [full, full, full, full, full, full, none, none, none];
    assert_eq!(rt; raster.pixels(), want.as_slice());
    Ok(())
}

#[test]
fn a_square_amid_a_large_raster(rt: HostRuntime) -> Result<(), Fail> {
    let color = rgba([0x50, 0x00, 0x50, 0xC8]);
    let square = Raster::with_color(rt.alloc(), 5, 5, color)?;
    let mut raster = Raster::with_clear(rt.alloc(), 100, 100)?;
    composite(&mut raster, (40, 40), &square, (0, 0), SrcOver);
    assert_eq!(rt; raster.pixels().len(), 10000);
    for (i, pixel) in raster.pixels().iter().enumerate() {
        let (x, y) = (i % 100, i / 100);
        let is_inside = (40..=44).contains(&x) && (40..=44).contains(&y);
        let want = if is_inside { color } else { rgba([0; 4]) };
        assert_eq!(rt; *pixel, want, "({x}, {y})");
    }
    Ok(())
}

/// The raster of this size whose first channel at (x, y) is (x + y) / 2 and whose next ones are y -
/// x and x - y, at least 0, converted to another format.
fn converted_triangle<S, D>(
    alloc: Global,
    width: u32,
    height: u32,
) -> Result<Raster<D>, RasterFault>
where
    S: Pixel,
    D: Pixel,
    D::Chan: From<S::Chan>,
    S::Gamma: Gamma<D::Chan>,
    requires few { D.layout.count ≤ D.layout.alpha + 1 }
{
    let mut triangle = Raster::<S>::with_clear(alloc, width, height)?;
    let mut y = 0_usize;
    for row in triangle.rows_mut(Region::from(())) {
        for (x, pixel) in row.iter_mut().enumerate() {
            let sides = [
                x.saturating_add(y) / 2,
                y.saturating_sub(x),
                x.saturating_sub(y),
            ];
            for (channel, side) in pixel.channels_mut().iter_mut().zip(sides) {
                *channel = S::Chan::from_ratio(i64::from(side.min(255) as u8), 1);
            }
        }
        y = y.saturating_add(1);
    }
    Raster::with_raster(alloc, &triangle)
}

/// Asserts that a raster has this size and, from the first to the last of its pixels, these
/// corners.
fn assert_corners<P: Pixel>(rt: &impl Abort, raster: &Raster<P>, side: u32, corners: &[P]) {
    assert_eq!(rt; (raster.width(), raster.height()), (side, side));
    let last = side.saturating_sub(1) as usize;
    let below = last.saturating_mul(side as usize);
    let places = [0, last, below, below.saturating_add(last)];
    for (place, corner) in places.iter().zip(corners.iter()) {
        let pixel = raster.pixels().get(*place);
        assert!(rt; pixel.is_some_and(|pixel| *pixel == *corner), "{place}");
    }
}

/// The hues run along the diagonal of a square, from red to red. One corner beside it is black, and
/// the other white.
#[test]
fn the_hwb_triangle(rt: HostRuntime) -> Result<(), Fail> {
    let shown = converted_triangle::<SHwb8, SRgb8>(rt.alloc(), 256, 256)?;
    let [red, black, white] = [[255, 0, 0], [0; 3], [255; 3]].map(srgb);
    assert_corners(&rt, &shown, 256, &[red, black, white, red]);
    Ok(())
}

/// Red, green and blue.
fn srgb([red, green, blue]: [u8; 3]) -> SRgb8 {
    SRgb8::new(red, green, blue)
}

#[test]
fn no_columns_are_converted(rt: HostRuntime) -> Result<(), Fail> {
    let shown = converted_triangle::<SHwb8, SRgb8>(rt.alloc(), 0, 7)?;
    assert_eq!(rt; (shown.width(), shown.height()), (0, 7));
    assert!(rt; shown.pixels().is_empty());
    Ok(())
}
