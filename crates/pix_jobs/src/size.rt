//! How large a job is.

/// The size of a job: sides and counts are divided by a number.
#[derive(Clone, Copy)]
pub(crate) struct Size {
    divisor: u32,
}

impl Size {
    /// The size that is timed.
    pub(crate) fn whole() -> Size {
        Size { divisor: 1 }
    }

    /// A size for a quick run.
    pub(crate) fn small() -> Size {
        Size { divisor: 16 }
    }

    /// Returns a side or a count at this size.
    pub(crate) fn of(self, count: u32) -> u32 {
        count / self.divisor.max(1)
    }

    /// Returns how often something is done at this size: at least once.
    pub(crate) fn times(self, count: u32) -> u32 {
        self.of(count).max(1)
    }
}
