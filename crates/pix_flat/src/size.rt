//! Whether the rows of an image lie in memory that was passed.
ghost use Rattle.std.specs.Prelude.{◌≡◌};
ghost use Rattle.pix_flat.specs.Status.{is_sized, is_placed, is_window};

/// The maximum width and height of an image or a region.
pub(crate) const LIMIT: u32 = 2147483647;

/// Returns whether the rows of an image of that width and height, `stride` apart, lie in `count`
/// elements.
pub(crate) fn is_sized(width: u32, height: u32, stride: u32, count: usize) -> bool
    ensures { result ≡ is_sized width height stride count }
{
    width <= LIMIT
        && height <= LIMIT
        && width <= stride
        && (height == 0
            || u64::from(height - 1) * u64::from(stride) + u64::from(width) <= count as u64)
}

/// Returns whether this many columns, or rows, from `first` on end within the limit.
fn is_placed(first: u32, count: u32) -> bool
    ensures { result ≡ is_placed first count }
{
    u64::from(first) + u64::from(count) <= u64::from(LIMIT)
}

/// Returns whether a window of a picture at the point (`left`, `top`) ends within the limit, and
/// its rows, `stride` apart, lie in `count` elements.
pub(crate) fn is_window(
    left: u32,
    top: u32,
    width: u32,
    height: u32,
    stride: u32,
    count: usize,
) -> bool
    ensures { result ≡ is_window left top width height stride count }
{
    is_placed(left, width) && is_placed(top, height) && is_sized(width, height, stride, count)
}
