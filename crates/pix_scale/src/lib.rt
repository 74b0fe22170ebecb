//! Pictures at another size.
//!
//! Each channel of a new pixel is one rounding of an exact sum: the mean of the channels under it,
//! by the weights of a filter.
#![tactic(auto)]

mod draw;
pub mod fault;
pub mod filter;
mod lanes;
pub mod laws;
mod pixels;
mod points;
mod refuse;
mod rounding;
mod row;
mod rows;
pub mod scale;
pub mod scaled;
pub mod shape;
mod side;
pub mod signed;
mod signed_draw;
mod signed_pixels;
mod signed_rows;
mod signed_table;
mod signed_values;
mod signed_weights;
mod table;
pub mod weighted;
mod weighted_draw;
mod weighted_table;
mod weights;
