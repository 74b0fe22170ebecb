//! Rasters of sRGB of 8 bits made of those of linear light of 16 bits, and back.
ghost use Rattle.std.specs.Prelude.{◌≡◌, ◌≤◌, ◌+◌, vec_len, length, map, IfOk, IfErr, IsOk};
ghost use Rattle.pix_el.specs.Light.{in_light, as_srgb};
ghost use Rattle.pix_raster.specs.declared.fault.RasterFault.{RasterFault};

use super::Raster;
use super::making::{Making, pixels_made};
use crate::fault::RasterFault;
use pix_chan::chan::Linear;
use pix_el::el::Pixel;
use pix_el::light::{Light, Transfer};
use std::alloc::Global;

impl<P: Pixel> Raster<P> {
    /// Makes a raster of this size with each of these sRGB pixels of 8 bits decoded into linear
    /// light of 16 bits.
    ///
    /// Condition: that format has no more channels than its model.
    ///
    /// # Errors
    ///
    /// `Memory` on allocation failure. There is no error for a raster without points.
    ///
    /// # Examples
    ///
    /// ```rust
    /// let mut light = photo.decode_srgb::<Rgba16p>(alloc)?;
    /// Rgba16p::composite_color(light.pixels_mut(), &clr, SrcOver);
    /// light.encode_srgb::<SRgb8>(alloc)
    /// ```
    pub fn decode_srgb<D>(&self, alloc: Global) -> Result<Raster<D>, RasterFault>
    where
        D: Pixel<Model = P::Model, Gamma = Linear>,
        P::Gamma: Transfer<P::Chan, D::Chan>,
        requires few { D.layout.count ≤ D.layout.alpha + 1 }
        ensures size { IfOk result
            (λ r. (r.width ≡ self.now.width) × (r.height ≡ self.now.height)) }
        ensures pixels { IfOk result (λ r. map D.numbers r.pixels ≡
            map (in_light P.format D.format) (map P.numbers self.now.pixels)) }
        ensures memory { IfErr result (λ fault. fault ≡ RasterFault.Memory) }
        ensures no_room { length self.now.pixels ≡ 0 → IsOk result }
    {
        let pixels = pixels_made::<P, D, Decoding>(alloc, self.pixels())?;
        Ok(Raster {
            width: self.width,
            height: self.height,
            pixels,
        })
    }

    /// Makes a raster of this size with each of these linear pixels of 16 bits encoded as sRGB of 8
    /// bits.
    ///
    /// Condition: that format has no more channels than its model.
    ///
    /// # Errors
    ///
    /// `Memory` on allocation failure. There is no error for a raster without points.
    ///
    /// # Examples
    ///
    /// ```rust
    /// let mut light = photo.decode_srgb::<Rgba16p>(alloc)?;
    /// Rgba16p::composite_color(light.pixels_mut(), &clr, SrcOver);
    /// light.encode_srgb::<SRgb8>(alloc)
    /// ```
    pub fn encode_srgb<D>(&self, alloc: Global) -> Result<Raster<D>, RasterFault>
    where
        P: Pixel<Gamma = Linear>,
        D: Pixel<Model = P::Model>,
        D::Gamma: Transfer<D::Chan, P::Chan>,
        requires few { D.layout.count ≤ D.layout.alpha + 1 }
        ensures size { IfOk result
            (λ r. (r.width ≡ self.now.width) × (r.height ≡ self.now.height)) }
        ensures pixels { IfOk result (λ r. map D.numbers r.pixels ≡
            map (as_srgb P.format D.format) (map P.numbers self.now.pixels)) }
        ensures memory { IfErr result (λ fault. fault ≡ RasterFault.Memory) }
        ensures no_room { length self.now.pixels ≡ 0 → IsOk result }
    {
        let pixels = pixels_made::<P, D, Encoding>(alloc, self.pixels())?;
        Ok(Raster {
            width: self.width,
            height: self.height,
            pixels,
        })
    }
}

/// Pixels that are decoded into light.
pub(super) struct Decoding {}

impl<S, P> Making<S, P> for Decoding
where
    S: Pixel,
    P: Pixel<Model = S::Model, Gamma = Linear>,
    S::Gamma: Transfer<S::Chan, P::Chan>,
{
    ghost made = { in_light S.format P.format };

    fn make(dst: &mut [P], src: &[S]) {
        S::decode_srgb_slice::<P>(dst, src);
    }
}

/// Pixels of light that are encoded.
pub(super) struct Encoding {}

impl<S, P> Making<S, P> for Encoding
where
    S: Pixel<Gamma = Linear>,
    P: Pixel<Model = S::Model>,
    P::Gamma: Transfer<P::Chan, S::Chan>,
{
    ghost made = { as_srgb S.format P.format };

    fn make(dst: &mut [P], src: &[S]) {
        S::encode_srgb_slice::<P>(dst, src);
    }
}
