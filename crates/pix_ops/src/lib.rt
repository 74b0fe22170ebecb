//! The operators of Porter and Duff, on one channel and on runs of channels.
#![tactic(auto)]

pub mod ops;
#[doc(hidden)]
pub mod sums;
