//! Channels: whole numbers of units, and their arithmetic.
#![tactic(auto)]

pub mod chan;
#[doc(hidden)]
pub mod quotients16;
#[doc(hidden)]
pub mod quotients8;
