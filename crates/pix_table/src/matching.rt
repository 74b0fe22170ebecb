//! The nearest entries of colors.

pub(crate) mod block_bounds;
pub(crate) mod candidates;
pub(crate) mod cell_place;
pub(crate) mod entry_lanes;
pub(crate) mod inverse_map;
pub(crate) mod lanes;
pub(crate) mod matcher;
pub(crate) mod nearest_search;
pub(crate) mod search;
pub(crate) mod transparent;
pub(crate) mod word;
