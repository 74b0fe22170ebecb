//! Pixels: channels of a color model, and how they are composited.
#![tactic(auto)]

pub use pix_chan::chan;
pub use pix_ops::ops;

mod conversion;
mod each;
pub mod el;
mod filled;
mod hue;
pub mod light;
pub mod matte;
pub mod model;
mod planes;
mod rest;
pub mod rgb;
pub mod rows;
pub mod stored;
