//! Callers over any pixel and over any mode.
ghost use Rattle.std.specs.Prelude.{◌≡◌};

use pix::chan::Alpha;
use pix::el::Pixel;
use std::alloc::{AllocError, Global};

/// Returns a pixel as text, for a report.
pub fn shown<P: Pixel>(alloc: Global, pixel: P) -> Result<String, AllocError> {
    format!(in alloc; "{pixel:?}")
}

/// Returns an alpha mode, and whether it is the default one.
pub fn beside_default<A: Alpha>(mode: A) -> (A, bool)
    ensures same { result.0 ≡ mode }
    ensures equal { (d : A) × A.is_default d × (result.1 ≡ A.eq mode d) }
{
    (mode, mode == A::default())
}
