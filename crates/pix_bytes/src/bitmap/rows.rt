//! The rows of a bitmap in its bytes.
ghost use Rattle.std.specs.Prelude.{◌≡◌, ◌≤◌, ◌<◌, ◌-◌, ◌*◌};
ghost use Rattle.pix_bytes.specs.Bitmap.{distance, is_upward, row_start, is_held};

/// The maximum width and height of a bitmap.
const LIMIT: u32 = 2147483647;

/// Where the rows of a bitmap lie.
#[derive(Clone, Copy)]
pub(crate) struct Lines {
    /// How many bytes they lie apart. It is below 0 where they go from bottom to top.
    pub stride: i64,
}

impl Lines {
    /// Returns how many bytes the rows lie apart.
    fn distance(self) -> u64
        ensures { result ≡ distance self.stride }
    {
        self.stride.unsigned_abs()
    }

    /// Returns whether the rows go from bottom to top.
    fn is_upward(self) -> bool
        ensures { result ≡ is_upward self.stride }
    {
        self.stride < 0
    }

    /// Returns whether the rows of a bitmap, of `wide` bytes each, lie in `count` bytes and share
    /// none.
    pub(crate) fn is_held(self, width: u32, height: u32, wide: usize, count: usize) -> bool
        ensures { result ≡ is_held width height wide self.stride count }
    {
        let apart = self.distance();
        if width > LIMIT || height > LIMIT || wide as u64 > apart {
            return false;
        }
        if height == 0 {
            return true;
        }
        match u64::from(height - 1).checked_mul(apart) {
            Some(last) => match last.checked_add(wide as u64) {
                Some(end) => end <= count as u64,
                None => false,
            },
            None => false,
        }
    }

    /// Returns where row `y` starts. Condition: there is such a row, and the last one starts in the
    /// bytes.
    pub(crate) fn row_start(self, height: usize, y: usize) -> usize
        requires there { y < height }
        requires fits { (height - 1) * distance self.stride ≤ usize.MAX }
        ensures { result ≡ row_start self.stride height y }
    {
        let row = if self.is_upward() { height - 1 - y } else { y };
        row * self.distance() as usize
    }
}
