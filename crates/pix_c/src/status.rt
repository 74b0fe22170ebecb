//! Statuses, from the crates that return them.

pub use pix_bytes::bitmap::BAD_FORMAT;
pub use pix_bytes::buffer::BAD_LENGTH;
pub use pix_flat::status::{BAD_KIND, BAD_OP, BAD_REGION, BAD_SIZE, BAD_SOURCE, DONE};
