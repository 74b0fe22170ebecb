//! Pictures of scripts that are a few columns wide.

use crate::digest::Digest;
use crate::random::Random;
use crate::size::Size;
use pix_script::paint_text;
use std::alloc::Global;

/// Renders pictures of one width.
pub(crate) fn run(
    alloc: Global,
    width: u32,
    size: Size,
    random: &mut Random,
    digest: &mut Digest,
) -> Option<()> {
    for _ in 0..size.times(4000 / width.saturating_add(3)) {
        picture(alloc, width, size.of(1024), random, digest)?;
    }
    Some(())
}

/// Renders pictures of each width from 1 to 64.
pub(crate) fn any(
    alloc: Global,
    size: Size,
    random: &mut Random,
    digest: &mut Digest,
) -> Option<()> {
    for _ in 0..size.times(2) {
        for width in 1..65 {
            picture(alloc, width, size.of(1024), random, digest)?;
        }
    }
    Some(())
}

/// Renders a picture of a few shapes, and adds its text to the digest.
fn picture(
    alloc: Global,
    width: u32,
    height: u32,
    random: &mut Random,
    digest: &mut Digest,
) -> Option<()> {
    let mut script = format!(in alloc; "image {width} {height}\n").ok()?;
    for _ in 0..4 {
        let y = random.below(1000);
        let color = random.bits() >> 32;
        writeln!(script, "fill 0 {y} {width} 200 {color:08x}").ok()?;
    }
    let text = paint_text(alloc, script.as_bytes()).ok()?;
    digest.add_bytes(&text);
    Some(())
}
