//! Lists of one value.
ghost use Rattle.std.specs.Prelude.{◌≡◌, IfErr, IfOk, IsOk, replicate};
ghost use Rattle.pix_raster.specs.declared.fault.RasterFault.{RasterFault};

use pix_raster::RasterFault;
use std::alloc::Global;

/// Returns a list of `count` copies of a value.
///
/// # Errors
///
/// `Memory` on allocation failure. There is no error for a count of 0.
pub(super) fn copies<T: Copy>(alloc: Global, value: T, count: usize) -> Result<Vec<T>, RasterFault>
    ensures items { IfOk result (λ list. list.items ≡ replicate count value) }
    ensures memory { IfErr result (λ fault. fault ≡ RasterFault.Memory) }
    ensures no_room { count ≡ 0 → IsOk result }
{
    let mut list = Vec::with_capacity(alloc, count)?;
    list.resize(count, value)?;
    Ok(list)
}
