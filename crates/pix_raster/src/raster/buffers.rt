//! Rasters from buffers of pixels, bytes or words, and back.
ghost use Rattle.std.specs.Prelude.{◌≡◌, ℕ, List, ◌*◌, vec_len, length, IfOk, IfErr, IsOk, Some, None, Err, map};
ghost use Rattle.pix_raster.specs.Buffers.{channels_of, IsOfChannels, IsOfPixels, pixels_fault, buffer_fault};
ghost use Rattle.pix_raster.specs.declared.fault.RasterFault.{RasterFault};

use super::Raster;
use super::samples::{Sample, channel_count, pixels_from, samples_from};
use crate::fault::{RasterFault, point_count};
use pix_chan::chan::{Alpha, Ch8, Ch16, Gamma};
use pix_el::el::{Pix, Pixel};
use pix_el::model::ColorModel;
use std::alloc::Global;

impl<P: Pixel> Raster<P> {
    /// Makes a raster of pixels, row by row from the top, as many as width times height. It takes
    /// no memory.
    ///
    /// # Errors
    ///
    /// The first of these that applies: `WidthTooBig`, `HeightTooBig`, `TooBig`, or `WrongLength`
    /// where there are more or fewer pixels. The pixels are handed back.
    ///
    /// # Examples
    ///
    /// ```rust
    /// // Six pixels, or they are handed back.
    /// match Raster::with_pixels(3, 2, pixels) {
    ///     Ok(picture) => picture.into_pixels(),
    ///     Err((_, pixels)) => pixels,
    /// }
    /// ```
    pub fn with_pixels(
        width: u32,
        height: u32,
        pixels: Vec<P>,
    ) -> Result<Raster<P>, (RasterFault, Vec<P>)>
        ensures ok { IfOk result (IsOfPixels width height pixels.items) }
        ensures accepted { pixels_fault width height (vec_len pixels) ≡ None → IsOk result }
        ensures refused { (fault : RasterFault)
            → pixels_fault width height (vec_len pixels) ≡ Some fault
            → result ≡ Err (fault, pixels) }
    {
        match point_count(width, height) {
            Err(fault) => Err((fault, pixels)),
            Ok(count) if count != pixels.len() => Err((RasterFault::WrongLength, pixels)),
            Ok(_) => Ok(Raster {
                width,
                height,
                pixels,
            }),
        }
    }

    /// Takes the pixels out, row by row from the top. It takes no memory.
    ///
    /// # Examples
    ///
    /// ```rust
    /// // Six pixels, or they are handed back.
    /// match Raster::with_pixels(3, 2, pixels) {
    ///     Ok(picture) => picture.into_pixels(),
    ///     Err((_, pixels)) => pixels,
    /// }
    /// ```
    pub fn into_pixels(self) -> Vec<P>
        ensures pixels { result.items ≡ self.pixels }
        ensures count { vec_len result ≡ self.height * self.width }

        // The pixels that the raster was made of come back.
        ensures back { (width height : ℕ) (given : List P) → IsOfPixels width height given self
            → result.items ≡ given }
    {
        self.pixels
    }

    /// Copies the raster.
    ///
    /// # Errors
    ///
    /// `Memory` on allocation failure.
    ///
    /// # Examples
    ///
    /// ```rust
    /// let copy = page.try_clone(alloc)?;
    /// page.clear();
    /// page.copy_raster(Region::from((8, 8)), &copy, copy.region()); // clipped to the page
    /// ```
    pub fn try_clone(&self, alloc: Global) -> Result<Raster<P>, RasterFault>
        ensures ok { IfOk result (λ copy. copy ≡ self.now) }
        ensures refused { IfErr result (λ fault. fault ≡ RasterFault.Memory) }
    {
        let pixels = Vec::from_slice(alloc, &self.pixels)?;
        Ok(Raster {
            width: self.width,
            height: self.height,
            pixels,
        })
    }

    /// Makes a raster of the channels that a buffer holds.
    fn with_samples<S: Sample<P::Chan>>(
        alloc: Global,
        width: u32,
        height: u32,
        samples: &[S],
    ) -> Result<Raster<P>, RasterFault>
        ensures ok { IfOk result (IsOfChannels P.numbers width height (map S.number samples.now)) }
        ensures refused { (fault : RasterFault)
            → buffer_fault P.layout.count width height (length samples.now) ≡ Some fault
            → result ≡ Err fault }
        ensures memory { buffer_fault P.layout.count width height (length samples.now) ≡ None
            → IfErr result (λ fault. fault ≡ RasterFault.Memory) }
    {
        let count = point_count(width, height)?;
        if count == 0 {
            return Err(RasterFault::EmptyBuffer);
        }
        if count.checked_mul(channel_count::<P>()) != Some(samples.len()) {
            return Err(RasterFault::WrongLength);
        }
        let pixels = pixels_from(alloc, count, samples)?;
        Ok(Raster {
            width,
            height,
            pixels,
        })
    }
}

impl<const N: usize, M, A, G> Raster<Pix<N, Ch8, M, A, G>>
where
    M: ColorModel,
    A: Alpha,
    G: Gamma<Ch8>,
{
    /// Makes a raster of bytes: the channels of each pixel in order, row by row from the top.
    ///
    /// # Errors
    ///
    /// The first of these that applies: `WidthTooBig`, `HeightTooBig`, `TooBig`, `EmptyBuffer`
    /// where width or height is 0, `WrongLength` where there are more or fewer bytes than channels,
    /// or `Memory` on allocation failure. The bytes are handed back.
    ///
    /// # Examples
    ///
    /// ```rust
    /// let picture = match Raster::<Gray8>::with_u8_buffer(alloc, 3, 2, bytes) {
    ///     Ok(picture) => picture,
    ///     Err((fault, _)) => return Err(fault),
    /// };
    /// ```
    pub fn with_u8_buffer(
        alloc: Global,
        width: u32,
        height: u32,
        bytes: Vec<u8>,
    ) -> Result<Self, (RasterFault, Vec<u8>)>
        ensures ok { IfOk result (IsOfChannels ⟦<Pix<N, Ch8, M, A, G> as Pixel>⟧.numbers
            width height bytes.items) }
        ensures refused { (fault : RasterFault)
            → buffer_fault N width height (vec_len bytes) ≡ Some fault
            → result ≡ Err (fault, bytes) }
        ensures memory { buffer_fault N width height (vec_len bytes) ≡ None
            → IfErr result (λ err. err ≡ (RasterFault.Memory, bytes)) }
    {
        match Raster::with_samples(alloc, width, height, &bytes) {
            Ok(raster) => Ok(raster),
            Err(fault) => Err((fault, bytes)),
        }
    }

    /// Copies the channels to bytes: those of each pixel in order, row by row from the top.
    ///
    /// # Errors
    ///
    /// `Memory` on allocation failure. The raster is handed back.
    ///
    /// # Examples
    ///
    /// ```rust
    /// match picture.into_u8_vec(alloc) {
    ///     Ok(copied) => Ok(copied),
    ///     Err((fault, _)) => Err(fault),
    /// }
    /// ```
    pub fn into_u8_vec(self, alloc: Global) -> Result<Vec<u8>, (RasterFault, Self)>
        ensures ok { IfOk result (λ bytes. bytes.items ≡
            channels_of ⟦<Pix<N, Ch8, M, A, G> as Pixel>⟧.numbers self) }

        // The bytes that the raster was made of come back.
        ensures back { (width height : ℕ) (given : List ℕ)
            → IsOfChannels ⟦<Pix<N, Ch8, M, A, G> as Pixel>⟧.numbers width height given self
            → IfOk result (λ bytes. bytes.items ≡ given) }
        ensures refused { IfErr result (λ err. err ≡ (RasterFault.Memory, self)) }
    {
        match samples_from(alloc, &self.pixels) {
            Ok(bytes) => Ok(bytes),
            Err(fault) => Err((fault, self)),
        }
    }

    /// Copies the channels to bytes: those of each pixel in order, row by row from the top.
    ///
    /// # Errors
    ///
    /// `Memory` on allocation failure.
    ///
    /// # Examples
    ///
    /// ```rust
    /// let Ok(table) = Vec::from_slice(alloc, palette.colors()) else {
    ///     return Err(RasterFault::Memory);
    /// };
    /// let bytes = image.to_u8_vec(alloc)?;
    /// Ok(Some((table, bytes)))
    /// ```
    pub fn to_u8_vec(&self, alloc: Global) -> Result<Vec<u8>, RasterFault>
        ensures ok { IfOk result (λ bytes. bytes.items ≡
            channels_of ⟦<Pix<N, Ch8, M, A, G> as Pixel>⟧.numbers self.now) }
        ensures refused { IfErr result (λ fault. fault ≡ RasterFault.Memory) }
    {
        samples_from(alloc, &self.pixels)
    }
}

impl<const N: usize, M, A, G> Raster<Pix<N, Ch16, M, A, G>>
where
    M: ColorModel,
    A: Alpha,
    G: Gamma<Ch16>,
{
    /// Makes a raster of words: the channels of each pixel in order, row by row from the top.
    ///
    /// # Errors
    ///
    /// The first of these that applies: `WidthTooBig`, `HeightTooBig`, `TooBig`, `EmptyBuffer`
    /// where width or height is 0, `WrongLength` where there are more or fewer words than channels,
    /// or `Memory` on allocation failure. The words are handed back.
    ///
    /// # Examples
    ///
    /// ```rust
    /// let picture = match Raster::<Gray16>::with_u16_buffer(alloc, 3, 2, words) {
    ///     Ok(picture) => picture,
    ///     Err((fault, _)) => return Err(fault),
    /// };
    /// ```
    pub fn with_u16_buffer(
        alloc: Global,
        width: u32,
        height: u32,
        words: Vec<u16>,
    ) -> Result<Self, (RasterFault, Vec<u16>)>
        ensures ok { IfOk result (IsOfChannels ⟦<Pix<N, Ch16, M, A, G> as Pixel>⟧.numbers
            width height words.items) }
        ensures refused { (fault : RasterFault)
            → buffer_fault N width height (vec_len words) ≡ Some fault
            → result ≡ Err (fault, words) }
        ensures memory { buffer_fault N width height (vec_len words) ≡ None
            → IfErr result (λ err. err ≡ (RasterFault.Memory, words)) }
    {
        match Raster::with_samples(alloc, width, height, &words) {
            Ok(raster) => Ok(raster),
            Err(fault) => Err((fault, words)),
        }
    }

    /// Copies the channels to words: those of each pixel in order, row by row from the top.
    ///
    /// # Errors
    ///
    /// `Memory` on allocation failure. The raster is handed back.
    ///
    /// # Examples
    ///
    /// ```rust
    /// match picture.into_u16_vec(alloc) {
    ///     Ok(copied) => Ok(copied),
    ///     Err((fault, _)) => Err(fault),
    /// }
    /// ```
    pub fn into_u16_vec(self, alloc: Global) -> Result<Vec<u16>, (RasterFault, Self)>
        ensures ok { IfOk result (λ words. words.items ≡
            channels_of ⟦<Pix<N, Ch16, M, A, G> as Pixel>⟧.numbers self) }

        // The words that the raster was made of come back.
        ensures back { (width height : ℕ) (given : List ℕ)
            → IsOfChannels ⟦<Pix<N, Ch16, M, A, G> as Pixel>⟧.numbers width height given self
            → IfOk result (λ words. words.items ≡ given) }
        ensures refused { IfErr result (λ err. err ≡ (RasterFault.Memory, self)) }
    {
        match samples_from(alloc, &self.pixels) {
            Ok(words) => Ok(words),
            Err(fault) => Err((fault, self)),
        }
    }
}
