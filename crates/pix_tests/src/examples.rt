//! The values that the examples of the docs say.
use pix::chan::{Ch8, Ch16};
use pix::gray::{Gray8, Graya8p};
use pix::ops::Op;
use pix::rgb::{Rgb8, Rgba8, Rgba8p, Rgba16p, SRgb8, SRgba8};
use pix::{Raster, Region};
use pix_uses::examples::{channels, models, palettes, pixels, rasters, regions};
use std::test::Fail;

#[test]
fn examples_of_channels(rt: HostRuntime) {
    assert_eq!(rt; channels::sums(), (Ch8::new(255), Ch8::new(0)));
    assert_eq!(rt; channels::parts(), (Ch8::new(64), Ch8::new(128)));
    assert_eq!(rt; channels::turns(), (Ch8::new(4), Ch8::new(250)));
    assert_eq!(rt; channels::fifth(), (Ch8::new(51), Ch8::new(120)));
    assert_eq!(rt; channels::widths(), (43947, Ch8::new(171)));
    let [light, shown, stored, straight] = [128, 188, 64, 128].map(Ch8::new);
    assert_eq!(rt; channels::modes(), (light, shown, stored, straight));
    let deep = (Ch16::new(32957), Ch8::new(188), Ch8::new(1));
    assert_eq!(rt; channels::deep_modes(), deep);
    assert_eq!(rt; channels::found(), (Some(Op::SrcOver), Some(Op::SrcOver)));
    assert_eq!(rt; channels::composited(), Ch8::new(200));
}

#[test]
fn examples_of_models(rt: HostRuntime) {
    let olive = Rgba8::new(128, 126, 0, 255);
    assert_eq!(rt; models::by_rgba(), (olive, Gray8::new(117)));
    assert_eq!(rt; models::hues(), [85, 128, 192, 255, 64, 64].map(Ch8::new));
    let others = [230, 90, 165, 95, 120, 255, 147, 87, 152, 229].map(Ch8::new);
    assert_eq!(rt; models::others(), others);
    assert_eq!(rt; models::coverage().1, Ch8::new(128));
    let [none, half, hue] = [0, 128, 85].map(Ch8::new);
    assert_eq!(rt; models::circle(), ((none, half, none), (hue, half, half)));
}

#[test]
fn examples_of_pixels(rt: HostRuntime) {
    assert_eq!(rt; pixels::made().2, Rgb8::new(0, 0, 64));
    assert_eq!(rt; pixels::written(), Rgba8p::new(30, 30, 30, 255));
    assert!(rt; pixels::compared());
    let (light, fine, row) = pixels::converted();
    assert_eq!(rt; light, Rgba8p::new(128, 0, 0, 255));
    assert_eq!(rt; fine, Rgba16p::new(32896u16, 0u16, 0u16, 65535u16));
    assert_eq!(rt; row, [light, Rgba8p::new(0, 128, 0, 255)]);
    let photo = [SRgba8::new(188, 0, 0, 255), SRgba8::new(0, 188, 0, 128)];
    let light = Rgba16p::new(32957, 0, 0, 65535);
    assert_eq!(rt; pixels::lit(), (light, photo[0], photo));
    assert_eq!(rt; pixels::over(), Graya8p::new(111, 255));
    assert_eq!(rt; pixels::masked(), [Rgba8p::new(0, 0, 0, 128); 4]);
}

#[test]
fn examples_of_regions(rt: HostRuntime) {
    assert_eq!(rt; regions::corners(), ((-3, 2), (7, 7), (10, 5)));
    assert_eq!(rt; regions::common(), (Region::new(5, 2, 2, 1), None));
    let whole = 2147483647;
    let large = (
        Region::new(0, 0, whole, whole),
        Region::new(4, 4, whole, whole),
        Region::new(4, 4, 10, whole),
    );
    assert_eq!(rt; regions::large(), large);
}

#[test]
fn examples_of_rasters(rt: HostRuntime) -> Result<(), Fail> {
    let (size, all, part) = rasters::sizes(rt.alloc())?;
    assert_eq!(rt; (size, all), ((64, 48), Region::new(0, 0, 64, 48)));
    assert_eq!(rt; part, Region::new(60, 40, 4, 8));
    assert_eq!(rt; rasters::points(rt.alloc())?, (Gray8::new(9), 12));
    let mut page = Raster::<Rgba8p>::with_clear(rt.alloc(), 64, 48)?;
    rasters::composited(rt.alloc(), &mut page)?;
    let glazed = page.pixels().get(60).copied();
    assert_eq!(rt; glazed, Some(Rgba8p::new(0, 0, 64, 64)));
    rasters::listed(&mut page);
    let twice = page.pixels().get(8 * 64 + 8).copied();
    assert_eq!(rt; twice, Some(Rgba8p::new(0, 0, 112, 112)));
    Ok(())
}

#[test]
fn examples_of_palettes(rt: HostRuntime) -> Result<(), Fail> {
    let blue = SRgb8::new::<u8>(0, 0, 200);
    assert_eq!(rt; palettes::entries(rt.alloc())?, (2, Some(blue)));
    assert_eq!(rt; palettes::many_entries(rt.alloc())?, (2, Some(0)));
    let counts = palettes::counted(rt.alloc())?;
    assert!(rt; counts.is_some_and(|counts| counts.as_slice() == [3usize].as_slice()));
    Ok(())
}
