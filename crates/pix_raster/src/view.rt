//! Changes of images in memory that the caller owns, in pixels of the caller's own layout.
ghost use Rattle.std.specs.Prelude.{◌≡◌, ℕ, ◌+◌, ◌-◌, ◌*◌, ◌<◌, ◌≤◌, List, length, map};
ghost use Rattle.pix_chan.specs.Runs.{over};
ghost use Rattle.pix_raster.specs.Region.{limit, whole};
ghost use Rattle.pix_raster.specs.View.{read_at, IsShaped, IsWindow, ChangedIn, where_covered, where_paired, picture, in_window};
ghost use Rattle.pix_raster.specs.Clip.{where_in};

use crate::clip::{ClippedRect, Overlap};
use crate::region::Region;
use masked::overlap_in;

mod draw;
mod masked;
mod run;

pub(crate) use draw::{NoMattes, Single};
pub use draw::{Draw, ReadCommand, ReadDraw};
pub use masked::{Source, blit_masked};
pub use pix_el::rows::{Blit, Fill, MaskedBlit};
pub use run::Commands;
pub(crate) use run::WindowCommand;

/// The size of an image in points, and how many pixels its rows lie apart.
#[derive(Clone, Copy, Debug, PartialEq, Eq)]
pub struct Shape {
    /// The width in columns, at most 2147483647.
    pub width: u32,
    /// The height in rows, at most 2147483647.
    pub height: u32,
    /// How many pixels lie from the start of a row to the start of the next, at least the width.
    pub stride: usize,
}

/// A part of a picture: the shape of the part, and the point of the picture where its first pixel
/// lies.
///
/// What is done to a window is what is done to those points of the picture. So windows that are
/// painted one by one make up the picture.
#[derive(Clone, Copy, Debug, PartialEq, Eq)]
pub struct Window {
    /// The column of the picture where the first pixel lies. With the width it is at most
    /// 2147483647.
    pub left: u32,
    /// The row of the picture where the first pixel lies. With the height it is at most 2147483647.
    pub top: u32,
    /// The shape of the part.
    pub shape: Shape,
}

/// What is painted on windows of a picture, such as a list of commands.
///
/// The result at a point depends on where it lies in the picture and on what stood there. It
/// doesn't depend on the window that is painted.
pub trait Painting<D> {
    /// What it needs.
    ghost can_paint: { Self → Type 0 };

    /// How a pixel is read.
    ghost reads: { D → List ℕ };

    /// What it makes of the picture's point (x, y) and of what stood there.
    ghost makes: { Self → ℕ → ℕ → List ℕ → List ℕ };

    /// Returns how many commands it has. Only speed depends on it.
    fn commands(&self) -> usize;

    /// Returns how many points of a window its commands reach, each counted as often as a command
    /// reaches it. Only speed depends on it.
    fn reached(&self, window: Window) -> usize
        requires across { window.left + window.shape.width ≤ limit }
        requires down { window.top + window.shape.height ≤ limit };

    /// Paints a window. Pixels between its rows and after them stay as they are.
    fn paint(&self, pixels: &mut [D], window: Window)
        requires can_paint { can_paint self.now }
        requires fits { IsWindow window (length pixels.old) }
        ensures { ChangedIn reads window.shape pixels.old pixels.new
            (in_window window (makes self.now)) };
}

/// The most pixels that a band of [`paint_by_bands`] has. In any format of 8 or 16 bits that is at
/// most 256 KB.
const BAND: u32 = 32768;

/// The most pixels that a window of one band has. A cache holds it together with a source.
const SMALL: u64 = 131072;

/// How many points of a band a command has to reach, on the average of a list, for bands to take no
/// longer than the list done command by command. A command that reaches no point of a band takes
/// that long to find it out.
const POINTS: usize = 128;

/// Changes each point of `reg`, clipped to the image of that shape. No other pixel changes.
///
/// Condition: `shape` is as the docs of its fields say, its rows lie in `pixels`, and the change
/// suits the format.
pub fn fill_region<D, F: Fill<D>>(pixels: &mut [D], shape: Shape, reg: Region, change: &F)
    requires can_fill { F.can_fill }
    requires fits { IsShaped shape (length pixels.old) }
    ensures { ChangedIn F.reads shape pixels.old pixels.new
        (where_covered reg (F.makes change.now)) }
{
    let window = Window {
        left: 0,
        top: 0,
        shape,
    };
    fill_window(pixels, window, reg, change);
}

/// Changes each point of `reg`, a region of the picture, that lies in the window. No other pixel
/// changes.
///
/// Condition: `window` and its shape are as the docs of their fields say, its rows lie in `pixels`,
/// and the change suits the format.
#[inline(always)]
pub fn fill_window<D, F: Fill<D>>(pixels: &mut [D], window: Window, reg: Region, change: &F)
    requires can_fill { F.can_fill }
    requires fits { IsWindow window (length pixels.old) }
    ensures { ChangedIn F.reads window.shape pixels.old pixels.new
        (in_window window (where_covered reg (F.makes change.now))) }
{
    let shape = window.shape;
    if shape.width > 0 {
        let seen = ClippedRect::in_window(reg, window);
        for y in seen.rows.start..seen.rows.end {
            let start = y * shape.stride;
            change.fill(&mut pixels[start + seen.columns.start..start + seen.columns.end]);
        }
    }
}

/// Changes the region `to` of an image by the region `from` of a source. Each point is changed by
/// the point at its offset from the corners of both regions, where both regions have it and it lies
/// in the image and in the source. No other pixel changes.
///
/// Condition: both shapes are as the docs of their fields say. The rows of the image lie in
/// `pixels`, and those of the source in `src`. The change suits both formats.
pub fn blit_region<D, S, B: Blit<D, S>>(
    pixels: &mut [D],
    shape: Shape,
    to: Region,
    src: &[S],
    src_shape: Shape,
    from: Region,
    change: &B,
)
    requires can_blit { B.can_blit }
    requires fits { IsShaped shape (length pixels.old) }
    requires src_fits { IsShaped src_shape (length src.now) }
    ensures { ChangedIn B.reads shape pixels.old pixels.new
        (where_paired to (whole shape.width shape.height)
        from (whole src_shape.width src_shape.height)
        (read_at B.source_reads src_shape.stride src.now) (B.makes change.now)) }
{
    let window = Window {
        left: 0,
        top: 0,
        shape,
    };
    blit_window(pixels, window, to, src, src_shape, from, change);
}

/// Changes the region `to` of a picture by the region `from` of a source, in those points that lie
/// in the window. Each point is changed by the point at its offset from the corners of both
/// regions, where both regions have it and it lies in the picture and in the source. No other pixel
/// changes.
///
/// Condition: `window` and both shapes are as the docs of their fields say. The rows of the window
/// lie in `pixels`, and those of the source in `src`. The change suits both formats.
#[inline(always)]
pub fn blit_window<D, S, B: Blit<D, S>>(
    pixels: &mut [D],
    window: Window,
    to: Region,
    src: &[S],
    src_shape: Shape,
    from: Region,
    change: &B,
)
    requires can_blit { B.can_blit }
    requires fits { IsWindow window (length pixels.old) }
    requires src_fits { IsShaped src_shape (length src.now) }
    ensures { ChangedIn B.reads window.shape pixels.old pixels.new
        (in_window window (where_paired to (picture window)
        from (whole src_shape.width src_shape.height)
        (read_at B.source_reads src_shape.stride src.now) (B.makes change.now))) }
{
    if window.shape.width > 0 {
        let overlap = overlap_in(window, to, from, src_shape);
        blit_overlap(
            pixels,
            window.shape.stride,
            src,
            src_shape.stride,
            overlap,
            change,
        );
    }
}

/// Changes the pixels of an overlap, in rows that lie `stride` pixels apart, each by its pixel of a
/// source, in rows that lie `src_stride` pixels apart.
// Among the loops of other changes a row takes twice as many instructions. What a loop of its own
// takes are numbers: a region is copied by one load of what was written in parts, and a processor
// waits for that.
#[inline(never)]
fn blit_overlap<D, S, B: Blit<D, S>>(
    pixels: &mut [D],
    stride: usize,
    src: &[S],
    src_stride: usize,
    overlap: Overlap,
    change: &B,
)
    requires can_blit { B.can_blit }
    requires ordered { overlap.columns.dst.start ≤ overlap.columns.dst.end }
    requires from_top { overlap.rows.dst.start ≤ overlap.rows.dst.end }
    requires across { overlap.columns.dst.end ≤ stride }
    requires down { (y : ℕ) → y < overlap.rows.dst.end →
        y * stride + overlap.columns.dst.end ≤ length pixels.old }
    requires src_rows { overlap.rows.src_start
        + (overlap.rows.dst.end - overlap.rows.dst.start) ≤ limit }
    requires src_down { (y : ℕ) → y < overlap.rows.src_start
        + (overlap.rows.dst.end - overlap.rows.dst.start) →
        y * src_stride + (overlap.columns.src_start
        + (overlap.columns.dst.end - overlap.columns.dst.start)) ≤ length src.now }
    ensures { (x y : ℕ) → x < stride → read_at B.reads stride pixels.new x y ≡
        where_in overlap.columns.dst overlap.rows.dst
        (λ a b. B.makes change.now (read_at B.source_reads src_stride src.now
        (overlap.columns.src_start + (a - overlap.columns.dst.start))
        (overlap.rows.src_start + (b - overlap.rows.dst.start))))
        x y (read_at B.reads stride pixels.old x y) }
{
    let count = overlap.columns.dst.end - overlap.columns.dst.start;
    for y in overlap.rows.dst.start..overlap.rows.dst.end {
        let start = y * stride + overlap.columns.dst.start;
        let src_y = overlap.rows.src_start + (y - overlap.rows.dst.start);
        let src_start = src_y * src_stride + overlap.columns.src_start;
        change.blit(
            &mut pixels[start..start + count],
            &src[src_start..src_start + count],
        );
    }
}

/// Paints a window band by band. A band has as many whole rows as the nearest cache holds, and is
/// painted by all commands before the next band. The result is that of painting the whole window at
/// once. It takes less time where the window is larger than the cache.
///
/// Condition: `window` and its shape are as the docs of their fields say, its rows lie in `pixels`,
/// and `work` can be painted.
#[inline(always)]
pub fn paint_by_bands<D, W: Painting<D>>(pixels: &mut [D], window: Window, work: &W)
    requires can_paint { W.can_paint work.now }
    requires fits { IsWindow window (length pixels.old) }
    ensures { ChangedIn W.reads window.shape pixels.old pixels.new
        (in_window window (W.makes work.now)) }
{
    let Shape {
        width,
        height,
        stride,
    } = window.shape;
    let rows = band_rows(window, work);
    if rows >= height {
        work.paint(pixels, window);
        return;
    }
    let mut first = 0;
    while first < height {
        let height = rows.min(height - first);
        let band = Window {
            left: window.left,
            top: window.top + first,
            shape: Shape {
                width,
                height,
                stride,
            },
        };
        work.paint(&mut pixels[first as usize * stride..], band);
        first += height;
    }
}

/// Returns how many rows of a window are painted at a time, at least one.
fn band_rows<D, W: Painting<D>>(window: Window, work: &W) -> u32
    requires across { window.left + window.shape.width ≤ limit }
    requires down { window.top + window.shape.height ≤ limit }
    ensures { 0 < result }
{
    let shape = window.shape;
    let commands = work.commands();
    if commands > 1 && u64::from(shape.width) * u64::from(shape.height) > SMALL {
        let rows = (BAND / shape.width).max(1);
        let bands = (shape.height / rows) as usize;
        if work.reached(window) / POINTS >= commands.saturating_mul(bands) {
            return rows;
        }
    }
    shape.height.max(1)
}

/// Returns how many points of `reg`, a region of the picture, lie in the window.
///
/// Condition: `window` and its shape are as the docs of their fields say.
pub fn points_in(window: Window, reg: Region) -> usize
    requires across { window.left + window.shape.width ≤ limit }
    requires down { window.top + window.shape.height ≤ limit }
{
    let there = ClippedRect::in_window(reg, window);
    let columns = there.columns.end - there.columns.start;
    columns.saturating_mul(there.rows.end - there.rows.start)
}
