//! Paint scripts, from their lines to the text of their pictures.

use crate::digest::Digest;
use crate::random::Random;
use crate::size::Size;
use pix_script::paint_text;
use std::alloc::Global;

/// Does the job.
pub(crate) fn run(
    alloc: Global,
    size: Size,
    random: &mut Random,
    digest: &mut Digest,
) -> Option<()> {
    let side = size.of(1024);
    for _ in 0..size.of(16) {
        let mut small = format!(in alloc; "image {side} {side}\n").ok()?;
        for _ in 0..size.of(25000) {
            shape(&mut small, 40, random)?;
        }
        render(alloc, small.as_str(), digest);
    }
    for _ in 0..size.of(16) {
        let mut large = format!(in alloc; "image {side} {side}\n").ok()?;
        for _ in 0..60 {
            shape(&mut large, 1100, random)?;
        }
        render(alloc, large.as_str(), digest);
    }
    let mut copies = format!(in alloc; "image {side} {side}\n").ok()?;
    for _ in 0..size.of(300) {
        shape(&mut copies, 300, random)?;
        copy(&mut copies, random)?;
    }
    render(alloc, copies.as_str(), digest);
    Some(())
}

/// Adds a line that draws a color on a region of sides below a bound, which may lie partly outside.
///
/// Condition: the bound is not 0.
fn shape(script: &mut String, bound: u32, random: &mut Random) -> Option<()> {
    let x = random.below(1060) as i32 - 36;
    let y = random.below(1060) as i32 - 36;
    let width = random.below(bound.max(1));
    let height = random.below(bound.max(1));
    let color = random.bits() >> 32;
    if random.below(4) == 0 {
        writeln!(script, "fill {x} {y} {width} {height} {color:08x}").ok()
    } else {
        writeln!(script, "paint SrcOver {x} {y} {width} {height} {color:08x}").ok()
    }
}

/// Adds lines that keep a picture and composite it with itself, moved by some way.
fn copy(script: &mut String, random: &mut Random) -> Option<()> {
    let x = random.below(600) as i32 - 300;
    let y = random.below(600) as i32 - 300;
    writeln!(script, "keep\ncomp SrcOver {x} {y} 0 0 1024 1024").ok()
}

/// Renders a script, and adds its text, or the number of its fault, to the digest.
fn render(alloc: Global, script: &str, digest: &mut Digest) {
    match paint_text(alloc, script.as_bytes()) {
        Ok(text) => digest.add_bytes(&text),
        Err(fault) => digest.add(u64::from(fault.number())),
    }
}
