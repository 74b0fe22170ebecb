//! Indices in bytes, and from indices back to colors.

pub(crate) mod look;
pub(crate) mod row;
