//! Rasters of one format made of those of another.
ghost use Rattle.std.specs.Prelude.{◌≡◌, ◌≤◌, ◌+◌, vec_len, length, map, IfOk, IfErr, IsOk};
ghost use Rattle.pix_el.specs.Conversion.{converted};
ghost use Rattle.pix_raster.specs.declared.fault.RasterFault.{RasterFault};

use super::Raster;
use super::making::{Making, pixels_made};
use crate::fault::RasterFault;
use pix_chan::chan::Gamma;
use pix_el::el::Pixel;
use std::alloc::Global;

impl<P: Pixel> Raster<P> {
    /// Makes a raster of the size of `src` with each of its pixels converted to this format.
    ///
    /// Condition: this format has no more channels than its model.
    ///
    /// # Errors
    ///
    /// `Memory` on allocation failure. There is no error for a raster without points.
    ///
    /// # Examples
    ///
    /// ```rust
    /// let product = Raster::<Rgba8p>::with_raster(alloc, picture)?; // each color times the alpha
    /// let fine = Raster::<Rgba16p>::with_raster(alloc, &product)?; // 16 bits
    /// Raster::<Bgra16p>::with_raster(alloc, &fine) // blue first
    /// ```
    pub fn with_raster<S>(alloc: Global, src: &Raster<S>) -> Result<Raster<P>, RasterFault>
    where
        S: Pixel,
        P::Chan: From<S::Chan>,
        S::Gamma: Gamma<P::Chan>,
        requires few { P.layout.count ≤ P.layout.alpha + 1 }
        ensures size { IfOk result (λ r. (r.width ≡ src.now.width) × (r.height ≡ src.now.height)) }
        ensures pixels { IfOk result (λ r. map P.numbers r.pixels ≡
            map (converted S.format ⟦<S::Gamma as Gamma<P::Chan>>⟧.mode P.format P.Gamma.mode)
            (map S.numbers src.now.pixels)) }
        ensures memory { IfErr result (λ fault. fault ≡ RasterFault.Memory) }
        ensures no_room { length src.now.pixels ≡ 0 → IsOk result }
    {
        let pixels = pixels_made::<S, P, Converting>(alloc, src.pixels())?;
        Ok(Raster {
            width: src.width,
            height: src.height,
            pixels,
        })
    }
}

/// Pixels that are converted.
pub(super) struct Converting {}

impl<S, P> Making<S, P> for Converting
where
    S: Pixel,
    P: Pixel,
    P::Chan: From<S::Chan>,
    S::Gamma: Gamma<P::Chan>,
{
    ghost made = { converted S.format ⟦<S::Gamma as Gamma<P::Chan>>⟧.mode P.format P.Gamma.mode };

    fn make(dst: &mut [P], src: &[S]) {
        S::convert_slice::<P>(dst, src);
    }
}
