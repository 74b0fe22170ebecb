//! Raster images: channels, pixels, color models, regions, rasters, commands, runs, palettes and
//! tables of colors.
//!
//! This crate exports what the crates below it make, so a user names only `pix`.
//!
//! # Examples
//!
//! ```rust
//! let mut picture = Raster::with_color(alloc, 32, 16, sky)?;
//! picture.composite_color(Region::new(20, 2, 6, 6), sun, SrcOver);
//! Ok(picture)
//! ```
//!
//! In the examples `alloc` is the `Global` that the caller gets. Each example is in the crate
//! `pix_uses`, with its imports, and is proved there.
#![tactic(auto)]

pub use pix_color::{bgr, cmy, gray, hsl, hsv, hue, hwb, xyz, ycc};
pub use pix_el::model::ColorModel;
pub use pix_el::{chan, el, light, matte, ops, rgb};
pub use pix_palette::{ColorTable, Palette, RgbaTable, ScanOrder};
pub use pix_raster::{Command, Raster, RasterFault, Region, Rows, RowsMut, view};
pub use pix_scale::fault::ScaleFault;
pub use pix_scale::{filter, scale, scaled, shape, weighted};
