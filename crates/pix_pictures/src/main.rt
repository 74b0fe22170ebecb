//! Prints pictures. Each argument names a part:
//!
//! - `examples`: whether each script of the folder `examples` paints what the file beside it has
//! - `triangle`: a triangle of colors
//! - `indexed`: a picture, the same picture indexed by a palette, and that palette
//!
//! A call at a concrete format costs the prover seconds. So bodies are for any color model.
#![tactic(auto)]

mod examples;
mod indexed;
mod triangle;

use pix::chan::{Ch8, Channel, Srgb, Straight};
use pix::el::{Pix, Pixel};
use std::io::ErrorKind;
use std::{env, io};

/// A pixel of three channels of sRGB.
type Shade<M> = Pix<3, Ch8, M, Straight, Srgb>;

/// The same with an alpha.
type Veil<M> = Pix<4, Ch8, M, Straight, Srgb>;

fn main(rt: HostRuntime) -> io::Result<()> {
    for name in env::args(&rt)?.skip(1) {
        match name.as_str() {
            "examples" => examples::print(&rt)?,
            "triangle" => triangle::print(&rt)?,
            "indexed" => indexed::print(&rt)?,
            _ => return Err(ErrorKind::InvalidInput.into()),
        }
    }
    Ok(())
}

/// Prints a pixel's channels of eight bits in hexadecimal, with a gap before it if it isn't the
/// first one of its row.
fn print_pixel<P: Pixel>(rt: &HostRuntime, place: usize, pixel: P) -> io::Result<()> {
    if place > 0 {
        print!(rt; " ")?;
    }
    for channel in pixel.channels() {
        print!(rt; "{:02x}", channel.to_u32())?;
    }
    Ok(())
}
