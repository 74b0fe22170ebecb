//! Rasters: images in memory.
ghost use Rattle.std.specs.Prelude.{◌≡◌, ℕ, ◌+◌, ◌*◌, ◌<◌, ◌≤◌, ℤ, pos, ◌&&◌, vec_len, length, map, slice_index_or, slice_get, slice_range, replicate, [], ◌∷◌, IsOk, IfOk, IfErr, Some, None, Err, MatchOption, All, false};
ghost use Rattle.pix_raster.specs.Region.{limit, covers, has_row, intersection_of};
ghost use Rattle.pix_raster.specs.Sizes.{size_fault};
ghost use Rattle.pix_raster.specs.Image.{IsPoint, IsInside, region_of};
ghost use Rattle.pix_raster.specs.declared.fault.RasterFault.{RasterFault};
ghost use Rattle.std.specs.Borrow.{Lends, LendsIf, sem, Array};
ghost use Rattle.pix_raster.specs.Rows.{clipped, rows_of};
ghost use Rattle.pix_raster.specs.Written.{IsRow, place_of, with_pixel, with_pixels, with_run};
ghost use Rattle.pix_raster.specs.Clip.{row_start, row_end};
ghost use Rattle.pix_raster.specs.contracts.raster.Raster.{the_row};

use crate::clip::{ClippedRect, clip, row_places};
use crate::fault::{RasterFault, point_count};
use crate::filled::filled;
use crate::region::Region;
use crate::rows::{Rows, RowsMut};
use pix_el::el::Pixel;
use std::alloc::Global;
use std::marker::Model;

mod buffers;
mod change;
mod convert;
mod light;
mod making;
mod samples;
mod window;

/// An image: `width` times `height` pixels of the format `P`, row by row from the top.
///
/// # Examples
///
/// ```rust
/// let mut page = Raster::with_color(alloc, 64, 48, Rgba8p::new(255, 255, 255, 255))?;
/// page.copy_color(Region::new(-8, 40, 16, 16), Rgba8p::new(255, 0, 0, 255));
/// page.composite_color(Region::new(0, 0, 32, 48), Rgba8p::new(0, 0, 64, 64), SrcOver);
/// ```
#[derive(Drop)]
pub struct Raster<P> {
    width: u32,
    height: u32,
    pixels: Vec<P>,
}

impl<P> Model for Raster<P> {
    ghost use Rattle.std.specs.Prelude.{◌≡◌, ◌*◌, ◌≤◌, vec_len};
    ghost use Rattle.pix_raster.specs.Region.{limit};
    ghost use Rattle.pix_raster.specs.Image.{Image};

    ghost Value = { Image P };

    ghost view = { λ r. record { width = r.width; height = r.height; pixels = r.pixels.items } };

    ghost invariant = { λ r. (vec_len r.pixels ≡ r.height * r.width) × (r.width ≤ limit)
        × (r.height ≤ limit) × (r.height * r.width ≤ limit) };
}

impl<P: Pixel> Raster<P> {
    /// Makes a raster of default pixels, whose channels are all 0.
    ///
    /// # Errors
    ///
    /// The first of `WidthTooBig`, `HeightTooBig` and `TooBig` that applies, or `Memory` on
    /// allocation failure. A raster without points needs no memory.
    ///
    /// # Examples
    ///
    /// ```rust
    /// let page = Raster::<Rgba8p>::with_clear(alloc, 64, 48)?;
    /// let size = (page.width(), page.height()); // (64, 48)
    /// let all = page.region(); // Region::new(0, 0, 64, 48)
    /// ```
    pub fn with_clear(alloc: Global, width: u32, height: u32) -> Result<Raster<P>, RasterFault>
        ensures ok { IfOk result (λ r. (r.width ≡ width) × (r.height ≡ height)
            × (map P.numbers r.pixels ≡ replicate (height * width) (replicate P.layout.count 0))) }
        ensures refused { (fault : RasterFault) → size_fault width height ≡ Some fault
            → result ≡ Err fault }
        ensures memory { IfErr result (λ fault. size_fault width height ≡ None
            → fault ≡ RasterFault.Memory) }
        ensures no_room { size_fault width height ≡ None → height * width ≡ 0 → IsOk result }
    {
        Raster::with_color(alloc, width, height, P::default())
    }

    /// Makes a raster whose pixels are all `clr`.
    ///
    /// # Errors
    ///
    /// The first of `WidthTooBig`, `HeightTooBig` and `TooBig` that applies, or `Memory` on
    /// allocation failure. A raster without points needs no memory.
    ///
    /// # Examples
    ///
    /// ```rust
    /// let mut picture = Raster::with_color(alloc, 32, 16, sky)?;
    /// picture.composite_color(Region::new(20, 2, 6, 6), sun, SrcOver);
    /// Ok(picture)
    /// ```
    pub fn with_color(
        alloc: Global,
        width: u32,
        height: u32,
        clr: P,
    ) -> Result<Raster<P>, RasterFault>
        ensures ok { IfOk result (λ r. (r.width ≡ width) × (r.height ≡ height)
            × (r.pixels ≡ replicate (height * width) clr)) }
        ensures refused { (fault : RasterFault) → size_fault width height ≡ Some fault
            → result ≡ Err fault }
        ensures memory { IfErr result (λ fault. size_fault width height ≡ None
            → fault ≡ RasterFault.Memory) }
        ensures no_room { size_fault width height ≡ None → height * width ≡ 0 → IsOk result }
    {
        let count = point_count(width, height)?;
        let pixels = if count == 0 {
            Vec::new(alloc)
        } else {
            filled(alloc, clr, count)?
        };
        Ok(Raster {
            width,
            height,
            pixels,
        })
    }

    /// Returns the width in columns, at most 2147483647.
    ///
    /// # Examples
    ///
    /// ```rust
    /// let page = Raster::<Rgba8p>::with_clear(alloc, 64, 48)?;
    /// let size = (page.width(), page.height()); // (64, 48)
    /// let all = page.region(); // Region::new(0, 0, 64, 48)
    /// ```
    pub fn width(&self) -> u32
        ensures value { result ≡ self.now.width }
        ensures limited { result ≤ limit }
    {
        self.width
    }

    /// Returns the height in rows, at most 2147483647.
    pub fn height(&self) -> u32
        ensures value { result ≡ self.now.height }
        ensures limited { result ≤ limit }
    {
        self.height
    }

    /// Returns the region of all points. It starts at (0, 0), and is as wide and as high as the
    /// raster.
    ///
    /// # Examples
    ///
    /// ```rust
    /// let page = Raster::<Rgba8p>::with_clear(alloc, 64, 48)?;
    /// let size = (page.width(), page.height()); // (64, 48)
    /// let all = page.region(); // Region::new(0, 0, 64, 48)
    /// ```
    pub fn region(&self) -> Region
        ensures { result ≡ region_of self.now }
    {
        Region::new(0, 0, self.width, self.height)
    }

    /// Returns `reg` clipped to the raster, or (0, 0, 0, 0) where none of its points lies there.
    ///
    /// # Examples
    ///
    /// ```rust
    /// let page = Raster::<Rgba8p>::with_clear(alloc, 64, 48)?;
    /// let size = (page.width(), page.height()); // (64, 48)
    /// let all = page.region(); // Region::new(0, 0, 64, 48)
    /// let part = page.intersection(Region::new(60, 40, 9, 9)); // Region::new(60, 40, 4, 8)
    /// ```
    pub fn intersection(&self, reg: Region) -> Region
        ensures value { result ≡ intersection_of reg (region_of self.now) }
        ensures points { (x y : ℤ) → covers result x y ≡
            (covers reg x y && covers (region_of self.now) x y) }
        ensures inside { IsInside result self.now }
    {
        clip(reg, self.width, self.height)
    }

    /// Returns the pixel at (`x`, `y`). Condition: the point lies in the raster.
    ///
    /// # Examples
    ///
    /// ```rust
    /// let mut page = Raster::with_color(alloc, 4, 3, Gray8::new(7))?;
    /// *page.pixel_mut(2, 1) = Gray8::new(255);
    /// let pixel = page.pixel(2, 1); // Gray8::new(255)
    /// ```
    pub fn pixel(&self, x: i32, y: i32) -> P
        requires { IsPoint self.now x y }
        ensures { (column row : ℕ) → x ≡ pos column → y ≡ pos row →
            slice_get self.now.pixels (row * self.now.width + column) ≡ Some result }
    {
        self.pixels[y as usize * self.width as usize + x as usize]
    }

    /// Returns all pixels, row by row from the top.
    ///
    /// # Examples
    ///
    /// ```rust
    /// page.pixels_mut().fill(Gray8::new(9));
    /// let first = page.pixels().first(); // Some(&Gray8::new(9))
    /// let count = page.pixels().len(); // 12
    /// ```
    pub fn pixels(&self) -> &[P]
        ensures pixels { result.now ≡ self.now.pixels }
        ensures count { length result.now ≡ self.now.height * self.now.width }
    {
        self.pixels.as_slice()
    }
}

impl<P> Raster<P> {
    /// Returns the pixel at (`x`, `y`) as a mutable reference. A write to it changes the pixel at
    /// that point, and no other.
    ///
    /// Condition: the point lies in the raster.
    ///
    /// # Examples
    ///
    /// ```rust
    /// let mut page = Raster::with_color(alloc, 4, 3, Gray8::new(7))?;
    /// *page.pixel_mut(2, 1) = Gray8::new(255);
    /// let pixel = page.pixel(2, 1); // Gray8::new(255)
    /// ```
    pub fn pixel_mut(&mut self, x: i32, y: i32) -> &mut P
        requires { IsPoint self.old x y }
        ensures* lends { sem 𝓛 (Lends (the_row P.row) P.row self.entry result
            (with_pixel self.old (place_of self.old x y))) }
        ensures now { (column row : ℕ) → x ≡ pos column → y ≡ pos row →
            slice_get self.old.pixels (row * self.old.width + column) ≡ Some result.now }
    {
        let place = y as usize * self.width as usize + x as usize;
        &mut self.pixels[place]
    }

    /// Returns all pixels as a mutable slice, row by row from the top. A write changes the pixels
    /// at those points.
    ///
    /// # Examples
    ///
    /// ```rust
    /// page.pixels_mut().fill(Gray8::new(9));
    /// let first = page.pixels().first(); // Some(&Gray8::new(9))
    /// let count = page.pixels().len(); // 12
    /// ```
    pub fn pixels_mut(&mut self) -> &mut [P]
        ensures* lends { sem 𝓛 (Lends (the_row P.row) (Array P.row 0) self.entry result
            (with_pixels self.old)) }
        ensures now { result.now ≡ self.old.pixels }
        ensures count { length result.now ≡ self.old.height * self.old.width }
    {
        self.pixels.as_mut_slice()
    }

    /// Returns an iterator over the rows of `reg`, clipped to the raster, from top to bottom.
    ///
    /// # Examples
    ///
    /// ```rust
    /// let mut pixels = Vec::new(alloc);
    /// for row in picture.rows(reg) {
    ///     pixels.extend_from_slice(row)?;
    /// }
    /// ```
    pub fn rows(&self, reg: Region) -> Rows<'_, P>
        ensures rows { result ≡ rows_of self.now reg }
        ensures count { length result ≡ (clipped self.now reg).height }
        ensures wide { All (λ row. length row ≡ (clipped self.now reg).width) result }
    {
        let clipped = ClippedRect::new(reg, self.width, self.height);
        let width = self.width as usize;
        Rows {
            rest: &self.pixels[clipped.rows.start * width..],
            left: clipped.rows.end - clipped.rows.start,
            width,
            columns: clipped.columns,
        }
    }

    /// Returns an iterator over the rows of `reg`, clipped to the raster, from top to bottom, as
    /// mutable slices. Each has the pixels of its row.
    ///
    /// # Examples
    ///
    /// ```rust
    /// let mut shade = 0_u8;
    /// for row in page.rows_mut(Region::new(8, 8, 16, 16)) {
    ///     row.fill(Gray8::new(shade));
    ///     shade = shade.wrapping_add(16);
    /// }
    /// ```
    pub fn rows_mut(&mut self, reg: Region) -> RowsMut<'_, P>
        ensures rows { result ≡ rows_of self.old reg }
        ensures count { length result ≡ (clipped self.old reg).height }
        ensures wide { All (λ row. length row ≡ (clipped self.old reg).width) result }
    {
        let clipped = ClippedRect::new(reg, self.width, self.height);
        let width = self.width as usize;
        RowsMut {
            rest: &mut self.pixels[clipped.rows.start * width..],
            left: clipped.rows.end - clipped.rows.start,
            width,
            columns: clipped.columns,
        }
    }

    /// Returns the pixels of `reg` in row `y` of the raster as a mutable slice, or `None` where it
    /// has none there. Any `y` is allowed.
    ///
    /// A write changes the pixels at those points, and no others.
    ///
    /// # Examples
    ///
    /// ```rust
    /// match picture.row_mut(y, reg) {
    ///     None => false,
    ///     Some(row) => {
    ///         row.fill(clr);
    ///         true
    ///     }
    /// }
    /// ```
    pub fn row_mut(&mut self, y: i32, reg: Region) -> Option<&mut [P]>
        ensures* lends { sem 𝓛 (LendsIf (the_row P.row) (Array P.row 0) self.entry result
            (with_run self.old (place_of self.old (clipped self.old reg).left y)) self.old) }
        ensures cases { MatchOption result (has_row (clipped self.old reg) y ≡
            false) (λ row. IsRow self.old reg y row.now) }
    {
        let row = self.row_part_mut(y, reg);
        if row.len() == 0 { None } else { Some(row) }
    }

    /// Returns the pixels of `reg` in row `y` of the raster as a mutable slice, which is empty
    /// where there are none. Any `y` is allowed.
    fn row_part_mut(&mut self, y: i32, reg: Region) -> &mut [P]
        ensures* lends { sem 𝓛 (Lends (the_row P.row) (Array P.row 0) self.entry result
            (with_run self.old (row_start self.old.width (clipped self.old reg) y))) }
        ensures now { result.now ≡ slice_range self.old.pixels (row_start self.old.width
            (clipped self.old reg) y)
            (row_end self.old.width (clipped self.old reg) y) }
        ensures long { length result.now + row_start self.old.width (clipped self.old reg) y
            ≡ row_end self.old.width (clipped self.old reg) y }
    {
        let run = row_places(reg, self.width, self.height, y);
        self.pixels.slice_mut(run.start..run.end)
    }
}
