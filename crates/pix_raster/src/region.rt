//! Regions: rectangles of points, anywhere in the coordinates of 32 bits.
ghost use Rattle.std.specs.Prelude.{◌≡◌, ℤ, pos, ◌<◌, ◌≤◌, ◌&&◌, min};
ghost use Rattle.pix_raster.specs.Region.{Rectangle, limit, right, bottom, covers, intersection_of, no_points};

use std::marker::Model;

/// The maximum width and height of a region.
pub(crate) const LIMIT: u32 = 2147483647;

/// A rectangle of points. It has a left and a top coordinate, and a width and a height of at most
/// 2147483647.
///
/// # Examples
///
/// ```rust
/// let window = Region::new(-3, 2, 10, 5);
/// let first = (window.left(), window.top()); // (-3, 2)
/// let after = (window.right(), window.bottom()); // (7, 7), the first point that lies beyond
/// let size = (window.width(), window.height()); // (10, 5)
/// ```
#[derive(Clone, Copy, Debug, PartialEq, Eq)]
pub struct Region {
    x: i32,
    y: i32,
    width: u32,
    height: u32,
}

impl Model for Region {
    ghost use Rattle.std.specs.Prelude.{◌≤◌};
    ghost use Rattle.pix_raster.specs.Region.{Rectangle, limit};

    ghost Value = { Rectangle };

    ghost view = { λ a. record { left = a.x; top = a.y; width = a.width; height = a.height } };

    ghost invariant = { λ a. (a.width ≤ limit) × (a.height ≤ limit) };

    ghost inverse = { λ r. record { x = r.left; y = r.top; width = r.width; height = r.height } };
}

impl Region {
    /// Creates the region of that left and top coordinate, width and height. Condition: width and
    /// height are at most 2147483647.
    ///
    /// # Examples
    ///
    /// ```rust
    /// let window = Region::new(-3, 2, 10, 5);
    /// let first = (window.left(), window.top()); // (-3, 2)
    /// let after = (window.right(), window.bottom()); // (7, 7), the first point that lies beyond
    /// ```
    pub fn new(x: i32, y: i32, width: u32, height: u32) -> Region
        requires wide { width ≤ limit }
        requires high { height ≤ limit }
        ensures { result ≡ record { left = x; top = y; width = width; height = height } }
    {
        Region {
            x,
            y,
            width,
            height,
        }
    }

    /// Creates the region of that left and top coordinate, width and height. Returns `None` where
    /// the width or the height is above 2147483647.
    ///
    /// # Examples
    ///
    /// ```rust
    /// let window = Region::new(-3, 2, 10, 5);
    /// let common = window.intersection(Region::new(5, 0, 9, 3)); // Region::new(5, 2, 2, 1)
    /// let too_wide = Region::try_new(0, 0, 2147483648, 1); // None
    /// ```
    pub fn try_new(x: i32, y: i32, width: u32, height: u32) -> Option<Region>
        ensures fits { width ≤ limit → height ≤ limit
            → result ≡ Some (record { left = x; top = y; width = width; height = height }) }
        ensures too_wide { limit < width → result ≡ None }
        ensures too_high { limit < height → result ≡ None }
    {
        if width <= LIMIT && height <= LIMIT {
            Some(Region::new(x, y, width, height))
        } else {
            None
        }
    }

    /// Returns the left coordinate, that of the first column.
    pub fn left(self) -> i32
        ensures { result ≡ self.left }
    {
        self.x
    }

    /// Returns the top coordinate, that of the first row.
    pub fn top(self) -> i32
        ensures { result ≡ self.top }
    {
        self.y
    }

    /// Returns the width in columns, at most 2147483647.
    pub fn width(self) -> u32
        ensures value { result ≡ self.width }
        ensures limited { result ≤ limit }
    {
        self.width
    }

    /// Returns the height in rows, at most 2147483647.
    pub fn height(self) -> u32
        ensures value { result ≡ self.height }
        ensures limited { result ≤ limit }
    {
        self.height
    }

    /// Returns the first column to the right of the region, saturating at 2147483647.
    ///
    /// # Examples
    ///
    /// ```rust
    /// let window = Region::new(-3, 2, 10, 5);
    /// let first = (window.left(), window.top()); // (-3, 2)
    /// let after = (window.right(), window.bottom()); // (7, 7), the first point that lies beyond
    /// ```
    pub fn right(self) -> i32
        ensures { result ≡ right self }
    {
        self.left().saturating_add_unsigned(self.width)
    }

    /// Returns the first row below the region, saturating at 2147483647.
    pub fn bottom(self) -> i32
        ensures { result ≡ bottom self }
    {
        self.top().saturating_add_unsigned(self.height)
    }

    /// Returns the region of the points that lie in both, or (0, 0, 0, 0) where there are none.
    ///
    /// # Examples
    ///
    /// ```rust
    /// let window = Region::new(-3, 2, 10, 5);
    /// let common = window.intersection(Region::new(5, 0, 9, 3)); // Region::new(5, 2, 2, 1)
    /// let too_wide = Region::try_new(0, 0, 2147483648, 1); // None
    /// ```
    pub fn intersection(self, rhs: Region) -> Region
        ensures value { result ≡ intersection_of self rhs }
        ensures points { (x y : ℤ) → covers result x y ≡ (covers self x y && covers rhs x y) }
        ensures commutative { (a b : Rectangle) → intersection_of a b ≡ intersection_of b a }
        ensures associative { (a b c : Rectangle)
            → intersection_of (intersection_of a b) c ≡ intersection_of a (intersection_of b c) }
    {
        let left = self.x.max(rhs.x);
        let top = self.y.max(rhs.y);
        let right = self.right().min(rhs.right());
        let bottom = self.bottom().min(rhs.bottom());
        if left < right && top < bottom {
            Region {
                x: left,
                y: top,
                width: right.abs_diff(left),
                height: bottom.abs_diff(top),
            }
        } else {
            Region::default()
        }
    }
}

impl Default for Region {
    ghost is_default = { λ r. r ≡ no_points };

    /// Returns the region (0, 0, 0, 0), which has no points.
    fn default() -> Region {
        Region {
            x: 0,
            y: 0,
            width: 0,
            height: 0,
        }
    }
}

/// Creates the region from (0, 0) on with the maximum width and height.
///
/// # Examples
///
/// ```rust
/// let all = Region::from(()); // from (0, 0) on, 2147483647 wide and high
/// let below = Region::from((4, 4)); // from (4, 4) on, as large
/// let cut = Region::from((4, 4, 10, u32::MAX)); // Region::new(4, 4, 10, 2147483647)
/// ```
impl From<()> for Region {
    ghost from_gives = { λ _ r. r ≡
        record { left = pos 0; top = pos 0; width = limit; height = limit } };

    fn from(_: ()) -> Region {
        Region::new(0, 0, LIMIT, LIMIT)
    }
}

/// Creates the region from that left and top coordinate on with the maximum width and height.
impl From<(i32, i32)> for Region {
    ghost from_gives = { λ p r. r ≡
        record { left = p.0; top = p.1; width = limit; height = limit } };

    fn from((x, y): (i32, i32)) -> Region {
        Region::new(x, y, LIMIT, LIMIT)
    }
}

/// Creates the region of that left and top coordinate, width and height, which saturate at
/// 2147483647.
impl From<(i32, i32, u32, u32)> for Region {
    ghost from_gives = { λ p r. r ≡
        record { left = p.0; top = p.1; width = min p.2 limit; height = min p.3 limit } };

    fn from((x, y, width, height): (i32, i32, u32, u32)) -> Region {
        Region::new(x, y, width.min(LIMIT), height.min(LIMIT))
    }
}
