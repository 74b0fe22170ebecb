//! Pixels in bytes: all formats by number, and buffers and bitmaps of them, each written from
//! another.
#![tactic(auto)]

pub mod bitmap;
pub mod buffer;
