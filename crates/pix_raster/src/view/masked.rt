//! Changes of images in memory by a source and a mask: three regions are paired.
ghost use Rattle.std.specs.Prelude.{◌≡◌, ℕ, ◌+◌, ◌-◌, ◌*◌, ◌<◌, ◌≤◌, List, length, map};
ghost use Rattle.std.specs.List.{zip};
ghost use Rattle.pix_chan.specs.Runs.{over};
ghost use Rattle.pix_raster.specs.Region.{limit, whole};
ghost use Rattle.pix_raster.specs.View.{read_at, IsShaped, IsWindow, ChangedIn, where_masked, picture, in_window};
ghost use Rattle.pix_raster.specs.Clip.{where_in, IsOverlap, IsMaskedOverlap};
ghost use Rattle.pix_raster.specs.Draw.{image_in, IsSource};

use super::{MaskedBlit, Shape, Window};
use crate::clip::masked::{AxisRegion, masked_overlap};
use crate::clip::{Overlap, axis_overlap};
use crate::region::Region;

/// A region of an image in memory, from which a change takes its pixels or its mattes.
#[derive(Drop)]
pub struct Source<'a, S> {
    /// The pixels.
    pub pixels: &'a [S],
    /// The shape of the image, whose rows lie in `pixels`.
    pub shape: Shape,
    /// The region.
    pub from: Region,
}

impl<'a, S> Source<'a, S> {
    /// Returns a source of the same pixels, shape and region, borrowed for as long as this one is.
    #[inline(always)]
    pub(crate) fn lent(&self) -> Source<'_, S>
        requires { IsSource self.now }
        ensures image { image_in result ≡ image_in self.now }
        ensures from { result.from ≡ self.now.from }
        ensures sound { IsSource result }
    {
        Source {
            pixels: self.pixels,
            shape: self.shape,
            from: self.from,
        }
    }
}

/// Changes the region `to` of a picture by a region of a source and a region of a mask, in those
/// points that lie in the window. Each point is changed by the point of the source and the point of
/// the mask that it is paired with. No other pixel changes.
///
/// Condition: `window` and the shapes are as the docs of their fields say. The rows of the window
/// lie in `pixels`, and those of the source and of the mask in their own pixels. The change suits
/// the formats.
#[inline(always)]
pub fn blit_masked<D, S, M, B: MaskedBlit<D, S, M>>(
    pixels: &mut [D],
    window: Window,
    to: Region,
    src: &Source<'_, S>,
    mask: &Source<'_, M>,
    change: &B,
)
    requires can_blit { B.can_blit }
    requires fits { IsWindow window (length pixels.old) }
    requires src_fits { IsShaped src.now.shape (length src.now.pixels.now) }
    requires mask_fits { IsShaped mask.now.shape (length mask.now.pixels.now) }
    ensures { ChangedIn B.reads window.shape pixels.old pixels.new
        (in_window window (where_masked to (picture window)
        src.now.from (whole src.now.shape.width src.now.shape.height)
        mask.now.from (whole mask.now.shape.width mask.now.shape.height)
        (read_at B.source_reads src.now.shape.stride src.now.pixels.now)
        (read_at B.mask_reads mask.now.shape.stride mask.now.pixels.now)
        (B.makes change.now))) }
{
    if window.shape.width > 0 {
        let (both, starts) = masked_overlap_in(
            window, to, src.from, src.shape, mask.from, mask.shape,
        );
        blit_rows(pixels, window.shape.stride, src, mask, both, starts, change);
    }
}

/// Returns the overlap of the region `to` of a picture and the region `from` of a source, as seen
/// from a window.
#[inline(always)]
pub(super) fn overlap_in(window: Window, to: Region, from: Region, src: Shape) -> Overlap
    requires across { window.left + window.shape.width ≤ limit }
    requires down { window.top + window.shape.height ≤ limit }
    requires src_wide { src.width ≤ limit }
    requires src_high { src.height ≤ limit }
    ensures { IsOverlap window to from src result }
{
    let Window { left, top, shape } = window;
    Overlap {
        columns: axis_overlap(
            to.left(),
            to.width(),
            left,
            shape.width,
            from.left(),
            from.width(),
            src.width,
        ),
        rows: axis_overlap(
            to.top(),
            to.height(),
            top,
            shape.height,
            from.top(),
            from.height(),
            src.height,
        ),
    }
}

/// Returns the overlap of the region `to` of a picture with regions of a source and of a mask, as
/// seen from a window. Beside it are the column and the row of the mask for its first pixel.
#[inline(always)]
fn masked_overlap_in(
    window: Window,
    to: Region,
    from: Region,
    src: Shape,
    mask_from: Region,
    mask: Shape,
) -> (Overlap, (usize, usize))
    requires across { window.left + window.shape.width ≤ limit }
    requires down { window.top + window.shape.height ≤ limit }
    requires src_wide { src.width ≤ limit }
    requires src_high { src.height ≤ limit }
    requires mask_wide { mask.width ≤ limit }
    requires mask_high { mask.height ≤ limit }
    ensures { IsMaskedOverlap window to from src mask_from mask result.0 result.1 }
{
    let Window { left, top, shape } = window;
    let (columns, mask_column) = masked_overlap(
        to.left(),
        to.width(),
        left,
        shape.width,
        across(from, src),
        across(mask_from, mask),
    );
    let (rows, mask_row) = masked_overlap(
        to.top(),
        to.height(),
        top,
        shape.height,
        down(from, src),
        down(mask_from, mask),
    );
    (Overlap { columns, rows }, (mask_column, mask_row))
}

/// Returns the columns of a region of an image of that shape.
#[inline(always)]
fn across(reg: Region, shape: Shape) -> AxisRegion
    ensures start { result.start ≡ reg.left }
    ensures len { result.len ≡ reg.width }
    ensures count { result.count ≡ shape.width }
{
    AxisRegion {
        start: reg.left(),
        len: reg.width(),
        count: shape.width,
    }
}

/// Returns the rows of a region of an image of that shape.
#[inline(always)]
fn down(reg: Region, shape: Shape) -> AxisRegion
    ensures start { result.start ≡ reg.top }
    ensures len { result.len ≡ reg.height }
    ensures count { result.count ≡ shape.height }
{
    AxisRegion {
        start: reg.top(),
        len: reg.height(),
        count: shape.height,
    }
}

/// Changes the pixels of an overlap, in rows that lie `stride` pixels apart. Each is changed by its
/// pixel of a source and its matte of a mask. The matte for the first pixel is at the column and
/// row `mask_starts`.
#[inline(always)]
fn blit_rows<D, S, M, B: MaskedBlit<D, S, M>>(
    pixels: &mut [D],
    stride: usize,
    src: &Source<'_, S>,
    mask: &Source<'_, M>,
    overlap: Overlap,
    mask_starts: (usize, usize),
    change: &B,
)
    requires can_blit { B.can_blit }
    requires ordered { overlap.columns.dst.start ≤ overlap.columns.dst.end }
    requires from_top { overlap.rows.dst.start ≤ overlap.rows.dst.end }
    requires across { overlap.columns.dst.end ≤ stride }
    requires down { (y : ℕ) → y < overlap.rows.dst.end →
        y * stride + overlap.columns.dst.end ≤ length pixels.old }
    requires src_rows { overlap.rows.src_start
        + (overlap.rows.dst.end - overlap.rows.dst.start) ≤ limit }
    requires src_down { (y : ℕ) → y < overlap.rows.src_start
        + (overlap.rows.dst.end - overlap.rows.dst.start) →
        y * src.now.shape.stride + (overlap.columns.src_start
        + (overlap.columns.dst.end - overlap.columns.dst.start)) ≤ length src.now.pixels.now }
    requires mask_rows { mask_starts.1
        + (overlap.rows.dst.end - overlap.rows.dst.start) ≤ limit }
    requires mask_down { (y : ℕ) → y < mask_starts.1
        + (overlap.rows.dst.end - overlap.rows.dst.start) →
        y * mask.now.shape.stride + (mask_starts.0
        + (overlap.columns.dst.end - overlap.columns.dst.start)) ≤ length mask.now.pixels.now }
    ensures { (x y : ℕ) → x < stride → read_at B.reads stride pixels.new x y ≡
        where_in overlap.columns.dst overlap.rows.dst
        (λ a b. B.makes change.now
        (read_at B.mask_reads mask.now.shape.stride mask.now.pixels.now
        (mask_starts.0 + (a - overlap.columns.dst.start))
        (mask_starts.1 + (b - overlap.rows.dst.start)))
        (read_at B.source_reads src.now.shape.stride src.now.pixels.now
        (overlap.columns.src_start + (a - overlap.columns.dst.start))
        (overlap.rows.src_start + (b - overlap.rows.dst.start))))
        x y (read_at B.reads stride pixels.old x y) }
{
    // Read once: for all that is known in the loop, writing a row could change both sources.
    let (pixels_of_src, src_stride) = (src.pixels, src.shape.stride);
    let (pixels_of_mask, mask_stride) = (mask.pixels, mask.shape.stride);
    let (mask_column, mask_row) = mask_starts;
    let count = overlap.columns.dst.end - overlap.columns.dst.start;
    for y in overlap.rows.dst.start..overlap.rows.dst.end {
        let start = y * stride + overlap.columns.dst.start;
        let src_y = overlap.rows.src_start + (y - overlap.rows.dst.start);
        let src_start = src_y * src_stride + overlap.columns.src_start;
        let mask_y = mask_row + (y - overlap.rows.dst.start);
        let mask_start = mask_y * mask_stride + mask_column;
        change.blit(
            &mut pixels[start..start + count],
            &pixels_of_src[src_start..src_start + count],
            &pixels_of_mask[mask_start..mask_start + count],
        );
    }
}
