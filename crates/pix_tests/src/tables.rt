//! The examples of tables of colors, with ample memory.
use pix::el::Pixel;
use pix::gray::Gray8;
use pix::rgb::{SRgb8, SRgba8};
use pix::{Raster, RasterFault};
use pix_uses::examples::palettes;
use std::alloc::Global;
use std::process::Abort;
use std::test::Fail;

/// Three pixels, of which the second is faint.
fn pixels() -> [SRgba8; 3] {
    [
        SRgba8::new::<u8>(10, 20, 30, 255),
        SRgba8::new::<u8>(9, 9, 9, 100),
        SRgba8::new::<u8>(200, 100, 50, 255),
    ]
}

/// A picture of them.
fn picture(alloc: Global) -> Result<Raster<SRgba8>, RasterFault> {
    let mut picture = Raster::with_clear(alloc, 3, 1)?;
    SRgba8::copy_slice(picture.pixels_mut(), &pixels());
    Ok(picture)
}

/// Asserts that there is an image, of these indices.
fn assert_indices(rt: &impl Abort, image: Option<Raster<Gray8>>, want: [u8; 3]) {
    let want = want.map(|index: u8| Gray8::new(index));
    assert!(rt; image.is_some_and(|image| image.pixels() == want.as_slice()));
}

#[test]
fn examples_of_tables(rt: HostRuntime) -> Result<(), Fail> {
    let red = SRgb8::new::<u8>(200, 0, 0);
    assert_eq!(rt; palettes::table(rt.alloc())?, (1, Some(red), Some(0)));
    let picture = picture(rt.alloc())?;
    // Index 255 where the alpha is below 128.
    assert_indices(&rt, palettes::refined(rt.alloc(), &picture)?, [0, 255, 1]);
    assert_indices(&rt, palettes::diffused(rt.alloc(), &picture)?, [0, 255, 1]);
    assert_indices(
        &rt,
        palettes::diffused_by(rt.alloc(), &picture)?,
        [0, 255, 1],
    );
    Ok(())
}

#[test]
fn examples_of_tables_with_alpha(rt: HostRuntime) -> Result<(), Fail> {
    let [clear, veil, _] = pixels();
    let picture = picture(rt.alloc())?;
    assert_eq!(rt;
        palettes::given_colors(rt.alloc(), clear, veil)?,
        (2, Some(clear))
    );
    let shown = palettes::with_alpha(rt.alloc(), &picture)?;
    assert!(rt; shown.is_some_and(|shown| shown.pixels() == pixels().as_slice()));
    let indices = palettes::diffused_with_alpha(rt.alloc(), &picture)?;
    assert_indices(&rt, indices, [0, 1, 2]);
    Ok(())
}
