//! The library for C and other languages. It runs a list of commands on the caller's own pixels, in
//! place, and converts buffers of pixels from one format to another.
//!
//! It takes no memory, keeps nothing between two calls, and reports every refusal with a status.
#![tactic(auto)]

mod bitmap;
mod convert;
mod diffuse;
mod layout;
mod refine;
mod rgba;
mod scale;
mod scale_by;
mod status;
mod table;
mod window;

pub use crate::bitmap::{pix_raw_convert_bitmap, pix_raw_format_size};
pub use crate::convert::pix_raw_convert;
pub use crate::diffuse::{
    BAD_STRENGTH, pix_raw_diffuse_indexed_by, pix_raw_diffuse_indexed_by_alpha,
};
pub use crate::layout::pix_layout;
pub use crate::rgba::{
    pix_raw_diffuse_indexed_rgba, pix_raw_look_up_rgba, pix_raw_map_indexed_rgba,
    pix_raw_quantize_rgba,
};
pub use crate::scale::{
    BAD_FILTER, BAD_WEIGHTS, NO_SIDE, OUTSIDE, SMALL_WORK, TOO_LARGE, pix_raw_scale,
    pix_raw_scale_graya8, pix_raw_scale_rgba16, pix_raw_scale_work,
};
pub use crate::scale_by::{
    pix_raw_scale_by, pix_raw_scale_by_graya8, pix_raw_scale_by_rgba16, pix_raw_scale_by_work,
};
pub use crate::status::{
    BAD_FORMAT, BAD_KIND, BAD_LENGTH, BAD_OP, BAD_REGION, BAD_SIZE, BAD_SOURCE, DONE,
};
pub use crate::table::{
    BAD_DEPTH, BAD_INDEX, BAD_TABLE, FULL_TABLE, pix_raw_count_indices, pix_raw_index_pixels,
    pix_raw_look_up, pix_raw_map_indexed, pix_raw_map_indexed_alpha, pix_raw_nearest,
    pix_raw_pack_row, pix_raw_unpack_row,
};
pub use crate::window::{pix_raw_run_window, pix_raw_run_window_graya8, pix_raw_run_window_rgba16};
pub use pix_flat::command::{PixCommand, PixCommandGraya8, PixCommandRgba16, PixRegion};
pub use pix_flat::format::{PixGraya8, PixRgba8, PixRgba16};
