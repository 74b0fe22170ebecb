//! Regions, rasters, commands and their runs.
#![tactic(auto)]

mod clip;
mod command;
mod fault;
mod filled;
mod raster;
mod region;
mod rows;
pub mod view;

pub use command::Command;
pub use fault::RasterFault;
pub use raster::Raster;
pub use region::Region;
pub use rows::{Rows, RowsMut};
