//! Makes each call that asks for memory, for runs in which a request is refused: each answer has to
//! be the right one or the refusal's.
//!
//! A call that answers otherwise is printed, and the exit status is 1 then.
#![tactic(auto)]

mod buffers;
mod palettes;
mod rasters;
mod scripts;

use pix::bgr::Bgr;
use pix::rgb::Rgb;
use std::process::ExitCode;

fn main(rt: HostRuntime) -> ExitCode {
    let alloc = rt.alloc();
    let mut status = ExitCode::SUCCESS;
    // A call that comes new has its line here, and its function beside those of its kind.
    for (name, right) in [
        ("with_clear", rasters::with_clear::<Rgb>(alloc)),
        ("with_color", rasters::with_color::<Rgb>(alloc)),
        ("paint_text", scripts::paint_text(alloc)),
        ("paint_io", scripts::paint_io(alloc)),
        ("try_clone", rasters::try_clone::<Rgb>(alloc)),
        ("with_raster", rasters::with_raster::<Rgb, Bgr>(alloc)),
        ("with_u8_buffer", buffers::with_u8_buffer::<Rgb>(alloc)),
        ("into_u8_vec", buffers::into_u8_vec::<Rgb>(alloc)),
        ("to_u8_vec", buffers::to_u8_vec::<Rgb>(alloc)),
        ("with_u16_buffer", buffers::with_u16_buffer::<Rgb>(alloc)),
        ("into_u16_vec", buffers::into_u16_vec::<Rgb>(alloc)),
        ("Palette::new", palettes::new(alloc)),
        ("Palette::try_clone", palettes::try_clone(alloc)),
        ("histogram", palettes::histogram(alloc)),
        ("make_indexed", palettes::make_indexed::<Rgb>(alloc)),
        (
            "make_indexed_wide",
            palettes::make_indexed_wide::<Rgb>(alloc),
        ),
        (
            "make_indexed_of_many",
            palettes::make_indexed_of_many::<Rgb>(alloc),
        ),
        ("set_entries", palettes::set_entries(alloc)),
    ] {
        if !right {
            let _ = println!(rt; "{name}: another answer");
            status = ExitCode::FAILURE;
        }
    }
    status
}
