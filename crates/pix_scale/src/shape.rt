//! Rows of pixels in memory, and windows of a picture at another size.

/// Rows of pixels in memory.
#[derive(Clone, Copy, Debug, PartialEq, Eq)]
pub struct Rows {
    /// How many pixels a row has.
    pub width: u32,
    /// How many rows there are.
    pub height: u32,
    /// How many pixels lie from the start of a row to the start of the next, at least the width.
    pub stride: u32,
}

/// Which part of a picture at another size is drawn: the part whose first pixel lies at a point of
/// it.
#[derive(Clone, Copy, Debug, PartialEq, Eq)]
pub struct View {
    /// The column of the new picture where the part begins.
    pub left: u32,
    /// The row where it begins.
    pub top: u32,
    /// The width of the whole new picture.
    pub across: u32,
    /// Its height.
    pub down: u32,
}
