//! What can be wrong with a case, other than its answer.
use pix::RasterFault;
use std::alloc::{AllocError, AllocFailed};
use thiserror::Error;

/// Why a line has no answer.
#[derive(Debug, Drop, Error)]
pub(crate) enum Flaw {
    /// It isn't `class: words -> answer`.
    #[error("no case")]
    Line,
    /// No class has that name.
    #[error("no such class")]
    Class,
    /// There are too many words or too few.
    #[error("another count of words")]
    Count,
    /// A word isn't a number, or one that doesn't fit.
    #[error("no such number")]
    Number,
    /// A word isn't a name that the class knows, as of an operator or a format.
    #[error("no such name")]
    Name,
    /// The library refuses what the line asks.
    #[error("refused")]
    Refused,
    /// An allocation failed, or a raster was refused.
    #[error("out of memory")]
    Memory,
}

impl From<AllocError> for Flaw {
    fn from(_error: AllocError) -> Flaw {
        Flaw::Memory
    }
}

impl<T: Drop> From<AllocFailed<T>> for Flaw {
    fn from(_error: AllocFailed<T>) -> Flaw {
        Flaw::Memory
    }
}

impl From<RasterFault> for Flaw {
    fn from(_fault: RasterFault) -> Flaw {
        Flaw::Memory
    }
}

impl<T: Drop> From<(RasterFault, T)> for Flaw {
    fn from(_fault: (RasterFault, T)) -> Flaw {
        Flaw::Memory
    }
}
