//! Tables of colors with an alpha.
pub(crate) mod color;
mod diffuse;
pub(crate) mod groups;
pub(crate) mod items;
pub(crate) mod lanes;
pub(crate) mod matched;
pub(crate) mod near_blocks;
pub(crate) mod opaque;
pub(crate) mod part_sums;
pub(crate) mod place;
pub(crate) mod quantization;
pub(crate) mod refine;
pub(crate) mod sums;
mod views;

pub use crate::rgba::color::{RgbaColor, SeenColor};
pub use crate::rgba::diffuse::{RgbaDiffusion, diffuse_indexed_rgba};
pub use crate::rgba::matched::map_indexed_rgba;
pub use crate::rgba::quantization::quantize_rgba;
