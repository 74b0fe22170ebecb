//! Squared errors of images in tables that were made of pictures. When tables are made in another
//! way, such images differ, and their digests do. Their errors tell which tables are better.

use crate::digest::Digest;
use crate::pictures::Shade;
use pix::chan::Ch8;
use pix::el::Pixel;
use pix::gray::Gray8;
use pix::rgb::SRgb8;
use pix::{ColorModel, ColorTable, Raster};
use std::alloc::Global;

/// Adds the squared error of an image of indices in a table, compared with the picture that it was
/// made of.
pub(crate) fn add<M: ColorModel>(
    alloc: Global,
    picture: &Raster<Shade<M>>,
    table: &ColorTable,
    image: &Raster<Gray8>,
    digest: &mut Digest,
) -> Option<()> {
    let shown = table.look_up(alloc, image).ok()??;
    digest.add_error(squared(picture, &shown));
    Some(())
}

/// Returns the sum of the squares of what the channels of two pictures differ by.
fn squared<M: ColorModel>(picture: &Raster<Shade<M>>, shown: &Raster<SRgb8>) -> u64 {
    let mut sum = 0_u64;
    for (wanted, found) in picture.pixels().iter().zip(shown.pixels()) {
        let (wanted, found) = (wanted.channels(), found.channels());
        sum = sum.wrapping_add(square(wanted[0], found[0]));
        sum = sum.wrapping_add(square(wanted[1], found[1]));
        sum = sum.wrapping_add(square(wanted[2], found[2]));
    }
    sum
}

/// Returns the square of what two channels differ by.
fn square(wanted: Ch8, found: Ch8) -> u64 {
    let apart = u64::from(u8::from(wanted).abs_diff(u8::from(found)));
    apart.wrapping_mul(apart)
}
