//! Tables of colors: the nearest entry of a color, colors of indices, and indices packed into
//! bytes.
//!
//! The tables and the indices are slices that the caller owns, and nothing is allocated.
#![tactic(auto)]

mod color;
mod diffuse;
mod matching;
mod packing;
mod quantization;
mod rgba;
mod threshold;

pub use crate::color::{Color, TableColor, TablePixel};
pub use crate::diffuse::{Diffusion, ScanOrder, diffuse_indexed, diffuse_indexed_work};
pub use crate::matching::block_bounds::BlockBounds;
pub use crate::matching::matcher::{map_indexed, visit_nearest};
pub use crate::matching::nearest_search::{NearestSearch, SearchVisitor};
pub use crate::matching::search::nearest;
pub use crate::matching::transparent::map_transparent;
pub use crate::packing::look::{are_below, count_indices, look_up};
pub use crate::packing::row::{IndexDepth, RowFault, pack_row, unpack_row};
pub use crate::quantization::{quantize, quantize_refined, quantize_work};
pub use crate::rgba::{
    RgbaColor, RgbaDiffusion, SeenColor, diffuse_indexed_rgba, map_indexed_rgba, quantize_rgba,
};
pub use crate::threshold::color_block::ColorBlock;
pub use crate::threshold::color_cache::Cache;
pub use crate::threshold::in_blocks::{Closest, cells_near, closest_first, standing_in};
pub use crate::threshold::index::index_pixels;
pub use crate::threshold::set::{set_cached, set_entry};
pub use crate::threshold::table_blocks::TableCache;
pub use crate::threshold::{closest_between, is_within, standing};
