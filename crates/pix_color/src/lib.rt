//! The color models beside those of red, green and blue and of mattes, and the hexcone.
//!
//! Each model is converted to red, green and blue and back in whole numbers, rounded to the
//! nearest, in the type of the pixel's channels. A color of `Bgr` or `Cmy` comes back from red,
//! green and blue as it was, and a color of red, green and blue comes back from them. A `Gray`
//! comes back from red, green and blue. That follows from their formulas and is not a clause. The
//! formulas of the other models round.
#![tactic(auto)]

pub mod bgr;
pub mod cmy;
pub mod gray;
pub mod hsl;
pub mod hsv;
pub mod hue;
pub mod hwb;
mod linear;
mod numbers;
pub mod xyz;
pub mod ycc;
