//! Filters: what the pixels of the old picture count for one of the new picture.

/// How a picture at another size is made.
#[derive(Clone, Copy, Debug, PartialEq, Eq)]
pub enum Filter {
    /// The pixel in which the middle of the new one lies, of two the later.
    Nearest,
    /// The mean of what the new pixel covers, by areas.
    Area,
    /// Where a side grows, the two nearest pixels, each the more the nearer it is. Where it
    /// shrinks, those under a triangle that is twice as wide as the new pixel.
    Linear,
}

/// What a side of a picture is weighed by.
#[derive(Clone, Copy, Debug, PartialEq, Eq)]
pub enum Kernel {
    /// One place.
    Point,
    /// Lengths of overlaps.
    Box,
    /// The two nearest middles.
    Line,
    /// All middles near enough.
    Triangle,
}

impl Filter {
    /// All filters, in the order of their numbers.
    pub const ALL: [Filter; 3] = [Filter::Nearest, Filter::Area, Filter::Linear];
}

/// How a picture at another size is made by weights of which some are negative. They keep edges
/// sharp.
#[derive(Clone, Copy, Debug, PartialEq, Eq)]
pub enum SignedFilter {
    /// The cubic of Catmull and Rom, which goes through the pixels.
    CatmullRom,
    /// The cubic of Mitchell and Netravali, with B and C 1/3: softer, with less of a rim.
    Mitchell,
    /// The sine of Lanczos, up to 3 pixels away.
    Lanczos,
}

impl SignedFilter {
    /// All of them, in the order of their numbers.
    pub const ALL: [SignedFilter; 3] = [
        SignedFilter::CatmullRom,
        SignedFilter::Mitchell,
        SignedFilter::Lanczos,
    ];
}
