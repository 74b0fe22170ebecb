//! Regions.
ghost use Rattle.std.specs.Prelude.{◌≡◌, None};

use pix::Region;

/// Returns the corners of a window.
pub fn corners() -> ((i32, i32), (i32, i32), (u32, u32)) {
    let window = Region::new(-3, 2, 10, 5);
    let first = (window.left(), window.top()); // (-3, 2)
    let after = (window.right(), window.bottom()); // (7, 7), the first point that lies beyond
    let size = (window.width(), window.height()); // (10, 5)
    (first, after, size)
}

/// Returns what two windows have in common, and a region that is too wide.
pub fn common() -> (Region, Option<Region>)
    ensures none { result.1 ≡ None }
{
    let window = Region::new(-3, 2, 10, 5);
    let common = window.intersection(Region::new(5, 0, 9, 3)); // Region::new(5, 2, 2, 1)
    let too_wide = Region::try_new(0, 0, 2147483648, 1); // None
    (common, too_wide)
}

/// Returns regions that go as far as they can.
pub fn large() -> (Region, Region, Region) {
    let all = Region::from(()); // from (0, 0) on, 2147483647 wide and high
    let below = Region::from((4, 4)); // from (4, 4) on, as large
    let cut = Region::from((4, 4, 10, u32::MAX)); // Region::new(4, 4, 10, 2147483647)
    (all, below, cut)
}
