//! The pixels of a raster made of those of another, part by part.
//!
//! Each part is filled and then written while it is in the nearest cache. So the new memory is
//! walked only once.
ghost use Rattle.std.specs.Prelude.{◌≡◌, ◌<◌, ◌≤◌, ◌+◌, ◌^◌, ◌++◌, ℕ, List, vec_len, length, map, IfOk, IfErr, IsOk};
ghost use Rattle.pix_raster.specs.declared.fault.RasterFault.{RasterFault};

use crate::fault::RasterFault;
use pix_el::el::Pixel;
use std::alloc::Global;

/// How many pixels a part has.
const PART: usize = 512;

/// A way to make pixels of one format of as many of another.
pub(super) trait Making<S: Pixel, P: Pixel> {
    /// The numbers of the pixel that is made of one of these numbers.
    ghost made: { List ℕ → List ℕ };

    /// Makes a pixel of each pixel of `src`, and writes it to the same index of `dst`.
    ///
    /// Condition: there are as many of both, and the format of `dst` has no more channels than its
    /// model.
    fn make(dst: &mut [P], src: &[S])
        requires few { P.layout.count ≤ P.layout.alpha + 1 }
        requires as_many { length dst.old ≡ length src.now }
        ensures { map P.numbers dst.new ≡ map made (map S.numbers src.now) };
}

/// Adds the pixel that is made of each of `src`.
///
/// Condition: the format has no more channels than its model, and the pixels with them can be
/// counted.
///
/// # Errors
///
/// `Memory` on allocation failure.
fn push_made<S, P, M>(pixels: &mut Vec<P>, src: &[S]) -> Result<(), RasterFault>
where
    S: Pixel,
    P: Pixel,
    M: Making<S, P>,
    requires few { P.layout.count ≤ P.layout.alpha + 1 }
    requires counted { vec_len pixels.old + length src.now < 2 ^ 64 }
    ensures pixels { IfOk result (λ _. map P.numbers pixels.new.items ≡
        map P.numbers pixels.old.items ++ map M.made (map S.numbers src.now)) }
    ensures count { IfOk result (λ _. vec_len pixels.new ≡ vec_len pixels.old + length src.now) }
    ensures memory { IfErr result (λ fault. fault ≡ RasterFault.Memory) }
{
    let start = pixels.len();
    pixels.resize(start + src.len(), P::default())?;
    M::make(&mut pixels[start..], src);
    Ok(())
}

/// Makes a pixel of each of `src`, in memory that is allocated once.
///
/// Condition: the format has no more channels than its model.
///
/// # Errors
///
/// `Memory` on allocation failure. There is no error without pixels.
pub(super) fn pixels_made<S, P, M>(alloc: Global, src: &[S]) -> Result<Vec<P>, RasterFault>
where
    S: Pixel,
    P: Pixel,
    M: Making<S, P>,
    requires few { P.layout.count ≤ P.layout.alpha + 1 }
    ensures pixels { IfOk result (λ made. map P.numbers made.items ≡
        map M.made (map S.numbers src.now)) }
    ensures count { IfOk result (λ made. vec_len made ≡ length src.now) }
    ensures memory { IfErr result (λ fault. fault ≡ RasterFault.Memory) }
    ensures no_room { length src.now ≡ 0 → IsOk result }
{
    let mut pixels = Vec::with_capacity(alloc, src.len())?;
    let mut left = src;
    while !left.is_empty() {
        let (part, more) = left.split_at(left.len().min(PART));
        push_made::<S, P, M>(&mut pixels, part)?;
        left = more;
    }
    Ok(pixels)
}
