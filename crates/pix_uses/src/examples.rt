//! The examples in the docs of the library's items. Each is a part of a function here, word for
//! word.
pub mod channels;
pub mod models;
pub mod palettes;
pub mod pixels;
pub mod rasters;
pub mod regions;
