//! What the benchmark in `bench/` times of rasters alone. The calls for C have no hues, no luma and
//! no palettes.
//!
//! [`pix_bench`] makes rasters of bytes, does a piece of work some number of times, and writes the
//! bytes of the outcome. The benchmark subtracts the time of a run without work, so that what is
//! made around the work does not count.
#![tactic(auto)]

mod rasters;

use pix::hsv::Hsv;
use pix::rgb::Rgb;
use pix::ycc::YCbCr;
use std::alloc::Global;

/// Does the work of number `work` over the bytes of `src`, `times` times. It writes the bytes of
/// the outcome to `out`, and returns whether it could.
///
/// The numbers are those that `bench/bench.c` has for its rows.
#[unsafe(no_mangle)]
pub extern "C" fn pix_bench(
    alloc: Global,
    work: u32,
    times: u32,
    src: &[u8],
    out: &mut [u8],
) -> bool {
    let done = match work {
        0 => rasters::composited::<Hsv>(alloc, times, src, out),
        1 => rasters::converted::<Rgb, Hsv>(alloc, times, src, out),
        2 => rasters::converted::<YCbCr, Rgb>(alloc, times, src, out),
        3 => rasters::indexed::<Rgb>(alloc, times, src, out),
        _ => rasters::mapped::<Rgb>(alloc, times, src, out),
    };
    done.is_some()
}
