//! Palettes. A palette is made and used up in one function.
use pix::chan::{Ch8, Gamma};
use pix::el::Pixel;
use pix::gray::Gray8;
use pix::rgb::{SRgb8, SRgba8};
use pix::{ColorTable, Palette, Raster, RasterFault, RgbaTable, ScanOrder};
use std::alloc::Global;

/// Sets colors, and asks for them.
pub fn entries(alloc: Global) -> Result<(usize, Option<SRgb8>), RasterFault> {
    let (red, blue) = (SRgb8::new::<u8>(200, 0, 0), SRgb8::new::<u8>(0, 0, 200));
    let mut palette = Palette::new(alloc, 16)?;
    palette.set_entry(red); // Some(0)
    palette.set_entry(blue); // Some(1)
    palette.set_entry(red); // Some(0): it stands there

    let size = palette.len(); // 2
    let second = palette.entry(1); // Some(blue)
    let none = palette.entry(2); // None
    palette.replace_entry(1, red); // Some(blue), which entry 1 was
    Ok((size, second.or(none)))
}

/// Sets many colors at once, and answers how many entries there are then, and which the last color
/// is.
pub fn many_entries(alloc: Global) -> Result<(usize, Option<usize>), RasterFault> {
    let (red, blue) = (SRgb8::new::<u8>(200, 0, 0), SRgb8::new::<u8>(0, 0, 200));
    let mut palette = Palette::new(alloc, 16)?;
    let mut answers = [None; 3];
    palette.set_entries(alloc, &[red, blue, red], &mut answers); // Some(0), Some(1) and Some(0)
    Ok((palette.len(), answers[2]))
}

/// Counts indices.
pub fn counted(alloc: Global) -> Result<Option<Vec<usize>>, RasterFault> {
    let mut palette = Palette::new(alloc, 16)?;
    palette.set_entry(SRgb8::new::<u8>(200, 0, 0));
    let counts = palette.histogram(alloc, &[0_u8, 0, 0])?; // Some of the list [3]
    Ok(counts)
}

/// Indexes a picture.
pub fn indexed<S>(alloc: Global, picture: Raster<S>) -> Result<Option<Raster<Gray8>>, RasterFault>
where
    S: Pixel,
    Ch8: From<S::Chan>,
    S::Gamma: Gamma<Ch8>,
{
    let mut palette = Palette::new(alloc, 256)?;
    match palette.make_indexed(alloc, picture) {
        Ok(indices) => Ok(indices), // None: the picture has more than 256 colors
        Err((fault, _)) => Err(fault),
    }
}

/// A color may stand for those at most 48 away in every channel, however many entries there are.
pub fn near(_entries: usize) -> SRgb8 {
    SRgb8::new::<u8>(48, 48, 48)
}

/// Indexes a picture by few colors, and answers how many.
pub fn few<S>(alloc: Global, picture: Raster<S>) -> Result<Option<usize>, RasterFault>
where
    S: Pixel,
    Ch8: From<S::Chan>,
    S::Gamma: Gamma<Ch8>,
{
    let mut palette = Palette::new(alloc, 99)?;
    palette.set_threshold_fn(near);
    let spare = palette.try_clone(alloc)?;
    match palette.make_indexed_wide(alloc, picture) {
        Ok(Some(_)) => Ok(Some(palette.len())),
        Ok(None) => Ok(Some(spare.len())),
        Err((fault, _)) => Err(fault),
    }
}

/// Sets a color in a table, and asks for it.
pub fn table(alloc: Global) -> Result<(usize, Option<SRgb8>, Option<usize>), RasterFault> {
    let red = SRgb8::new::<u8>(200, 0, 0);
    let mut table = ColorTable::new(alloc, 256, SRgb8::new::<u8>(8, 8, 8))?;
    table.set_entry(red); // Some(0)
    table.set_entry(SRgb8::new::<u8>(204, 0, 0)); // Some(0): it is near enough

    let size = table.len(); // 1, of at most table.limit()
    let first = table.entry(0); // Some(red), the first of table.colors()
    let nearest = table.nearest(SRgb8::new::<u8>(0, 0, 9)); // Some(0): there is no other
    Ok((size, first, nearest))
}

/// Indexes a picture in a table, and makes colors of the indices again.
pub fn looked_up<S>(
    alloc: Global,
    table: &mut ColorTable,
    picture: &Raster<S>,
) -> Result<Option<Raster<SRgb8>>, RasterFault>
where
    S: Pixel,
    Ch8: From<S::Chan>,
    S::Gamma: Gamma<Ch8>,
{
    let Some(indices) = table.index_pixels(alloc, picture)? else {
        return Ok(None); // the table has no room for all colors
    };
    table.look_up(alloc, &indices)
}

/// Indexes a picture by the nearest entries of a table.
pub fn mapped<S>(
    alloc: Global,
    table: &ColorTable,
    picture: &Raster<S>,
) -> Result<Option<Raster<Gray8>>, RasterFault>
where
    S: Pixel,
    Ch8: From<S::Chan>,
    S::Gamma: Gamma<Ch8>,
{
    let Some(indices) = table.map_indexed(alloc, picture)? else {
        return Ok(None); // the table has no entry, or more than 256
    };
    Ok(Some(indices))
}

/// Indexes a picture by the nearest entries of a table; where it is clear, its index is one that no
/// entry has.
pub fn mapped_alpha<S>(
    alloc: Global,
    table: &ColorTable,
    picture: &Raster<S>,
) -> Result<Option<Raster<Gray8>>, RasterFault>
where
    S: Pixel,
    Ch8: From<S::Chan>,
    S::Gamma: Gamma<Ch8>,
{
    let Some(indices) = table.map_indexed_alpha(alloc, picture, 128, 255)? else {
        return Ok(None); // the table has no entry, or more than 256
    };
    Ok(Some(indices)) // index 255 where the alpha is below 128
}

/// Indexes a picture by error diffusion in a table of its colors.
pub fn diffused(
    alloc: Global,
    picture: &Raster<SRgba8>,
) -> Result<Option<Raster<Gray8>>, RasterFault> {
    let Some(table) = ColorTable::quantize(alloc, picture, 255, 128)? else {
        return Ok(None); // not for 255 entries
    };
    table.diffuse_indexed(alloc, picture, 128, 255) // index 255 where the alpha is below 128
}

/// Indexes a picture by error diffusion that goes to and fro, with three quarters of each error.
pub fn diffused_by(
    alloc: Global,
    picture: &Raster<SRgba8>,
) -> Result<Option<Raster<Gray8>>, RasterFault> {
    let Some(table) = ColorTable::quantize(alloc, picture, 255, 128)? else {
        return Ok(None); // not for 255 entries
    };
    table.diffuse_indexed_by(alloc, picture, 128, 255, 12, ScanOrder::Serpentine)
}

/// Indexes a picture by the nearest entries of a table of its colors, which is refined.
pub fn refined(
    alloc: Global,
    picture: &Raster<SRgba8>,
) -> Result<Option<Raster<Gray8>>, RasterFault> {
    let Some(table) = ColorTable::quantize_refined(alloc, picture, 255, 128, 4)? else {
        return Ok(None); // not for 255 entries
    };
    table.map_indexed_alpha(alloc, picture, 128, 255) // index 255 where the alpha is below 128
}

/// Shows a picture in the colors of a table that keeps its alphas.
pub fn with_alpha(
    alloc: Global,
    picture: &Raster<SRgba8>,
) -> Result<Option<Raster<SRgba8>>, RasterFault> {
    let Some(table) = RgbaTable::quantize(alloc, picture, 256, 4)? else {
        return Ok(None); // not for 256 entries
    };
    let Some(indices) = table.map_indexed(alloc, picture)? else {
        return Ok(None); // the table has no entry
    };
    table.look_up(alloc, &indices)
}

/// Indexes a picture by error diffusion in a table that keeps its alphas.
pub fn diffused_with_alpha(
    alloc: Global,
    picture: &Raster<SRgba8>,
) -> Result<Option<Raster<Gray8>>, RasterFault> {
    let Some(table) = RgbaTable::quantize(alloc, picture, 256, 4)? else {
        return Ok(None); // not for 256 entries
    };
    table.diffuse_indexed(alloc, picture, 12, ScanOrder::Serpentine)
}

/// Makes a table of two colors, and asks for them.
pub fn given_colors(
    alloc: Global,
    clear: SRgba8,
    veil: SRgba8,
) -> Result<(usize, Option<SRgba8>), RasterFault> {
    let table = RgbaTable::with_colors(alloc, &[clear, veil])?;
    let size = table.len(); // 2
    let first = table.colors().first(); // Some(&clear)
    Ok((size, first.copied()))
}
