//! Callers of the library, as a user would write them: each is proved, and tests of `pix_tests` run
//! some of them.
#![tactic(auto)]

pub mod bounds;
pub mod bytes;
pub mod channels;
pub mod colors;
pub mod conversions;
pub mod encoder;
pub mod examples;
pub mod frames;
pub mod light;
pub mod lists;
pub mod models;
pub mod photos;
pub mod pixels;
pub mod rows;
pub mod sprites;
pub mod tables;
