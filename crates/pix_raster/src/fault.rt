//! Refusals of rasters.
ghost use Rattle.std.specs.Prelude.{◌≡◌, ℕ, ◌*◌, ◌≤◌, ◌↔◌, IfOk, IfErr, IsOk, Some, None};
ghost use Rattle.pix_raster.specs.Region.{limit};
ghost use Rattle.pix_raster.specs.Sizes.{size_fault};
ghost use Rattle.pix_raster.specs.declared.fault.RasterFault.TheVariants as fault;

use crate::region::LIMIT;
use std::alloc::AllocError;
use thiserror::Error;

/// The reason why a raster, a buffer or a palette was not made: the first that applies, in this
/// order.
#[derive(Clone, Copy, Debug, PartialEq, Eq, Error)]
pub enum RasterFault {
    /// The width is above 2147483647.
    #[error("Raster width too big")]
    WidthTooBig,
    /// The height is above 2147483647.
    #[error("Raster height too big")]
    HeightTooBig,
    /// Width times height is above 2147483647.
    #[error("Raster too big")]
    TooBig,
    /// A buffer of channels was passed for a raster without points.
    #[error("Raster buffer empty")]
    EmptyBuffer,
    /// The length of the buffer is not the one that the raster needs.
    #[error("Raster buffer has wrong length")]
    WrongLength,
    /// An allocation failed.
    #[error("out of memory")]
    Memory,
}

impl From<AllocError> for RasterFault {
    ghost from_gives = { λ _ answer. answer ≡ fault.Memory };

    fn from(_error: AllocError) -> RasterFault {
        RasterFault::Memory
    }
}

/// Returns the number of points of a size, which is at most 2147483647, or the first fault of the
/// size.
pub(crate) fn point_count(width: u32, height: u32) -> Result<usize, RasterFault>
    ensures ok { IfOk result (λ count. count ≡ height * width) }
    ensures small { IfOk result (λ count. count ≤ limit) }
    ensures fault { IfErr result (λ fault. size_fault width height ≡ Some fault) }
    ensures fits { IsOk result ↔ (size_fault width height ≡ None) }
{
    if width > LIMIT {
        return Err(RasterFault::WidthTooBig);
    }
    if height > LIMIT {
        return Err(RasterFault::HeightTooBig);
    }
    let count = u64::from(width) * u64::from(height);
    if count > u64::from(LIMIT) {
        return Err(RasterFault::TooBig);
    }
    Ok(count as usize)
}
