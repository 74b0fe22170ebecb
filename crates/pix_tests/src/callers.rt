//! Callers of `pix_uses` on a small picture.
use pix::gray::Gray8;
use pix::rgb::Rgba8p;
use pix::{Raster, RasterFault, Region};
use pix_uses::bounds::shown;
use pix_uses::colors::sunrise;
use pix_uses::rows::underline;
use pix_uses::sprites::paste;
use std::alloc::Global;
use std::test::Fail;

/// A pixel of full alpha.
fn opaque(red: u8, green: u8, blue: u8) -> Rgba8p {
    Rgba8p::new(red, green, blue, 255)
}

/// A picture of these pixels, row by row.
fn picture(
    alloc: Global,
    width: u32,
    height: u32,
    pixels: &[Rgba8p],
) -> Result<Raster<Rgba8p>, RasterFault> {
    let mut picture = Raster::with_clear(alloc, width, height)?;
    for (dst, src) in picture.pixels_mut().iter_mut().zip(pixels) {
        *dst = *src;
    }
    Ok(picture)
}

#[test]
fn a_sun_in_the_sky(rt: HostRuntime) -> Result<(), Fail> {
    let sky = Rgba8p::new(16, 32, 48, 255);
    let picture = sunrise(rt.alloc(), sky, Rgba8p::new(200, 160, 0, 255))?;
    assert_eq!(rt; picture.pixels().first(), Some(&sky));
    Ok(())
}

#[test]
fn a_sprite_over_the_edges(rt: HostRuntime) -> Result<(), Fail> {
    let [a, b, c, d] = [1, 2, 3, 4].map(|shade| opaque(shade, shade, shade));
    let sprite = picture(rt.alloc(), 2, 2, &[a, b, c, d])?;
    let sand = opaque(200, 100, 50);
    let mut ground = Raster::with_color(rt.alloc(), 3, 2, sand)?;
    paste(&mut ground, &sprite, -1, -1);
    paste(&mut ground, &sprite, 2, 0);
    paste(&mut ground, &sprite, 3, 0);
    paste(&mut ground, &sprite, -2147483648, 2147483647);
    assert_eq!(rt; ground.pixels(), [d, sand, a, sand, sand, c].as_slice());
    Ok(())
}

/// The contract of `underline` says only whether the region has the row.
#[test]
fn a_row_written_over(rt: HostRuntime) -> Result<(), Fail> {
    let (sand, ink) = (opaque(200, 100, 50), opaque(10, 20, 30));
    let mut page = picture(rt.alloc(), 3, 2, &[sand; 6])?;
    assert!(rt; underline(&mut page, Region::new(1, 0, 5, 5), 1, ink));
    assert!(rt; !underline(&mut page, Region::new(1, 0, 5, 1), 1, ink));
    assert!(rt; !underline(&mut page, Region::from(()), -1, ink));
    assert_eq!(rt;
        page.pixels(),
        [sand, sand, sand, sand, ink, ink].as_slice()
    );
    Ok(())
}

#[test]
fn a_pixel_as_text(rt: HostRuntime) -> Result<(), Fail> {
    let text = shown(rt.alloc(), Gray8::new(7))?;
    let channels = "Pix { channels: [Ch8 { value: 7 }], _model: PhantomData<_>, ";
    assert!(rt; text.as_str().starts_with(channels), "{text}");
    Ok(())
}
