//! Palettes, and indexed images.
#![tactic(auto)]

mod palette;

pub use palette::{ColorTable, Palette, RgbaTable};
pub use pix_table::ScanOrder;
