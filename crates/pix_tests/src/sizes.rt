//! Rasters of many sizes, made with ample memory. The bodies are generic, since each call at a
//! concrete format costs the prover seconds.
use crate::pictures::rgba;
use pix::el::Pixel;
use pix::{Raster, RasterFault};
use std::alloc::Global;
use std::process::Abort;
use std::test::Fail;

/// Asserts that a raster has this size, and this pixel at each point.
fn assert_plain<P: Pixel>(rt: &impl Abort, raster: &Raster<P>, width: u32, height: u32, clr: P) {
    assert_eq!(rt; (raster.width(), raster.height()), (width, height));
    let count = width as usize * height as usize;
    assert_eq!(rt; raster.pixels().len(), count, "{width} by {height}");
    assert!(rt; raster.pixels().iter().all(|pixel| *pixel == clr));
}

/// Makes a raster of clear pixels and one of a color, and compares all their pixels.
fn make<P: Pixel>(
    rt: &impl Abort,
    alloc: Global,
    width: u32,
    height: u32,
    clr: P,
) -> Result<(), RasterFault> {
    let clear = Raster::with_clear(alloc, width, height)?;
    assert_plain(rt, &clear, width, height, P::default());
    let colored = Raster::with_color(alloc, width, height, clr)?;
    assert_plain(rt, &colored, width, height, clr);
    Ok(())
}

/// Makes rasters of all small sizes, single rows and columns, and larger ones.
fn make_all<P: Pixel>(rt: &impl Abort, alloc: Global, clr: P) -> Result<(), RasterFault> {
    for width in 0..=18 {
        for height in 0..=18 {
            make(rt, alloc, width, height, clr)?;
        }
    }
    for side in 0..=530 {
        make(rt, alloc, side, 1, clr)?;
        make(rt, alloc, 1, side, clr)?;
    }
    for (width, height) in [(100, 100), (127, 129), (300, 60), (1000, 7), (5, 4096)] {
        make(rt, alloc, width, height, clr)?;
    }
    Ok(())
}

#[test]
fn sizes_with_ample_memory(rt: HostRuntime) -> Result<(), Fail> {
    make_all(&rt, rt.alloc(), rgba([7; 4]))?;
    Ok(())
}
