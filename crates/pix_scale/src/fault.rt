//! Why a picture is not drawn at another size.

use thiserror::Error;

/// Why a call was refused: the first that applies, in this order. Nothing was written then.
#[derive(Clone, Copy, Debug, PartialEq, Eq, Error)]
pub enum ScaleFault {
    /// A side of the source or of the new picture is 0.
    #[error("Side is zero")]
    NoSide,
    /// A side of the source is above 65535, or the sides of the new picture are above what the sums
    /// allow.
    #[error("Picture too large")]
    TooLarge,
    /// The window does not lie in the new picture.
    #[error("Window outside the picture")]
    Outside,
    /// The rows of the window do not fit their pixels.
    #[error("Rows do not fit the pixels")]
    BadRows,
    /// The rows of the source do not fit its pixels.
    #[error("Source rows do not fit the pixels")]
    BadSource,
    /// A table of weights does not fit the rows, or a row of it does not lie in the source or does
    /// not add up.
    #[error("Table does not fit or does not add up")]
    BadWeights,
    /// There is too little work memory.
    #[error("Work memory too small")]
    SmallWork,
}
