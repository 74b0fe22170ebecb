//! Clipping: the points of a region that lie in a raster, and the overlap of two regions.
//!
//! Columns, rows and offsets are half-open ranges.
ghost use Rattle.std.specs.Prelude.{◌≡◌, ℕ, pos, ◌+ℤ◌, ◌-ℤ◌, ◌≤ℤ◌, ◌+◌, ◌-◌, ◌*◌, ◌<◌, ◌≤◌, ◌&&◌, true};
ghost use Rattle.pix_el.specs.Pixel.{lies_in};
ghost use Rattle.pix_raster.specs.Region.{limit, right, bottom, has_column, has_row, covers, intersection_of, whole};
ghost use Rattle.pix_raster.specs.Reach.{natural, is_paired};
ghost use Rattle.pix_raster.specs.Clip.{in_box, is_between, is_offset, row_start, row_end};

pub(crate) mod masked;

use crate::region::Region;
use crate::view::Window;
use std::ops::Range;

/// The clipped rectangle of a region in a raster: the columns and rows of its points that lie
/// there.
#[derive(Drop)]
pub(crate) struct ClippedRect {
    /// The columns.
    pub(crate) columns: Range<usize>,
    /// The rows.
    pub(crate) rows: Range<usize>,
}

/// The overlap of two regions along one axis.
#[derive(Drop)]
pub(crate) struct AxisOverlap {
    /// The columns, or rows, of the destination.
    pub(crate) dst: Range<usize>,
    /// The column, or row, of the source for the first of them; those for the others follow it.
    pub(crate) src_start: usize,
}

/// The overlap of a region of a destination and a region of a source, with their corners at one
/// point.
#[derive(Drop)]
pub(crate) struct Overlap {
    /// The overlap of their columns.
    pub(crate) columns: AxisOverlap,
    /// The overlap of their rows.
    pub(crate) rows: AxisOverlap,
}

/// Clips `reg` to a raster of that width and height. The answer is (0, 0, 0, 0) where no point of
/// `reg` lies there.
pub(crate) fn clip(reg: Region, width: u32, height: u32) -> Region
    requires wide { width ≤ limit }
    requires high { height ≤ limit }
    ensures { result ≡ intersection_of reg (whole width height) }
{
    reg.intersection(Region::new(0, 0, width, height))
}

impl ClippedRect {
    /// Clips `reg` to a raster of that width and height. Both ranges are empty where no point of
    /// `reg` lies there.
    pub(crate) fn new(reg: Region, width: u32, height: u32) -> ClippedRect
        requires wide { width ≤ limit }
        requires high { height ≤ limit }
        ensures left { result.columns.start ≡
            natural (intersection_of reg (whole width height)).left }
        ensures right { result.columns.end ≡
            natural (intersection_of reg (whole width height)).left
            + (intersection_of reg (whole width height)).width }
        ensures top { result.rows.start ≡ natural (intersection_of reg (whole width height)).top }
        ensures bottom { result.rows.end ≡
            natural (intersection_of reg (whole width height)).top
            + (intersection_of reg (whole width height)).height }
        ensures ordered { result.columns.start ≤ result.columns.end }
        ensures from_top { result.rows.start ≤ result.rows.end }
        ensures in_width { result.columns.end ≤ width }
        ensures in_height { result.rows.end ≤ height }
        ensures points { (x y : ℕ) → in_box result.columns result.rows x y ≡
            covers (intersection_of reg (whole width height)) (pos x) (pos y) }
    {
        let clipped = clip(reg, width, height);
        ClippedRect {
            columns: columns_of(clipped),
            rows: rows_of(clipped),
        }
    }
}

impl ClippedRect {
    /// Returns the points of `reg`, a region of the picture, that lie in a window. They are given
    /// by their distances from its first column and its first row.
    #[inline(always)]
    pub(crate) fn in_window(reg: Region, window: Window) -> ClippedRect
        requires across { window.left + window.shape.width ≤ limit }
        requires down { window.top + window.shape.height ≤ limit }
        ensures ordered { result.columns.start ≤ result.columns.end }
        ensures from_top { result.rows.start ≤ result.rows.end }
        ensures in_width { result.columns.end ≤ window.shape.width }
        ensures in_height { result.rows.end ≤ window.shape.height }
        ensures points { (x y : ℕ) → x < window.shape.width → y < window.shape.height →
            in_box result.columns result.rows x y ≡
            covers reg (pos (window.left + x)) (pos (window.top + y)) }
    {
        let shape = window.shape;
        ClippedRect {
            columns: axis_seen(reg.left(), reg.width(), window.left, shape.width),
            rows: axis_seen(reg.top(), reg.height(), window.top, shape.height),
        }
    }
}

/// The place of the first column, or row, of a window.
const ORIGIN: usize = 4294967296;

/// Returns the place of a coordinate as seen from `first`: its distance from there, counted from
/// [`ORIGIN`]. So a place is never negative, and one comparison clips it.
fn place(coordinate: i32, first: u32) -> usize
    requires { first ≤ limit }
    ensures { pos (first + result) ≡ coordinate +ℤ pos 4294967296 }
{
    (4294967296 + i64::from(coordinate) - i64::from(first)) as usize
}

/// Returns which of `count` columns, or rows, from `first` on are among the `len` from `start` on.
/// They are given by their distances from `first`.
fn axis_seen(start: i32, len: u32, first: u32, count: u32) -> Range<usize>
    requires { first + count ≤ limit }
    ensures ordered { result.start ≤ result.end }
    ensures within { result.end ≤ count }
    ensures points { (x : ℕ) → x < count → lies_in result x ≡ is_between start len (first + x) }
{
    let near = place(start, first);
    let from = near.max(ORIGIN);
    let to = (near + len as usize).min(ORIGIN + count as usize);
    if to <= from {
        return 0..0;
    }
    from - ORIGIN..to - ORIGIN
}

/// Returns the columns of a region. Condition: its left coordinate is at least 0.
fn columns_of(reg: Region) -> Range<usize>
    requires { pos 0 ≤ℤ reg.left }
    ensures start { pos result.start ≡ reg.left }
    ensures end { pos result.end ≡ right reg }
    ensures ordered { result.start ≤ result.end }
    ensures columns { (x : ℕ) → lies_in result x ≡ has_column reg (pos x) }
{
    coordinate(reg.left(), 0)..coordinate(reg.right(), 0)
}

/// Returns the rows of a region. Condition: its top coordinate is at least 0.
fn rows_of(reg: Region) -> Range<usize>
    requires { pos 0 ≤ℤ reg.top }
    ensures start { pos result.start ≡ reg.top }
    ensures end { pos result.end ≡ bottom reg }
    ensures ordered { result.start ≤ result.end }
    ensures rows { (y : ℕ) → lies_in result y ≡ has_row reg (pos y) }
{
    coordinate(reg.top(), 0)..coordinate(reg.bottom(), 0)
}

/// Returns where the pixels of `reg` in row `y` are in the pixels of a raster of that width and
/// height. The range is empty where it has none there.
pub(crate) fn row_places(reg: Region, width: u32, height: u32, y: i32) -> Range<usize>
    requires wide { width ≤ limit }
    requires high { height ≤ limit }
    ensures start { result.start ≡ row_start width (intersection_of reg (whole width height)) y }
    ensures end { result.end ≡ row_end width (intersection_of reg (whole width height)) y }
    ensures ordered { result.start ≤ result.end }
    ensures within { result.end ≤ height * width }
{
    let clipped = ClippedRect::new(reg, width, height);
    if y < 0 {
        return 0..0;
    }
    let row = y as usize;
    if row < clipped.rows.start || clipped.rows.end <= row {
        return 0..0;
    }
    let start = row * width as usize;
    start + clipped.columns.start..start + clipped.columns.end
}

/// Returns the overlap along one axis: the columns, or rows, at the offsets that lie in both. The
/// window has `count` columns or rows from `first` on, and those of the destination are given by
/// their distances from `first`. The region has `to_len` from `to` on. The source has `src_count`,
/// of which `from_len` from `from` on count.
pub(crate) fn axis_overlap(
    to: i32,
    to_len: u32,
    first: u32,
    count: u32,
    from: i32,
    from_len: u32,
    src_count: u32,
) -> AxisOverlap
    requires { first + count ≤ limit }
    ensures ordered { result.dst.start ≤ result.dst.end }
    ensures in_dst { result.dst.end ≤ count }
    ensures in_src { result.src_start + (result.dst.end - result.dst.start) ≤ src_count }
    ensures points { (x : ℕ) → lies_in result.dst x ≡
        (is_offset to to_len (first + count) (pos (first + x) -ℤ to)
        && is_offset from from_len src_count (pos (first + x) -ℤ to)) }
    ensures sources { (x : ℕ) → lies_in result.dst x ≡ true →
        result.src_start + (x - result.dst.start) ≡ natural (from +ℤ (pos (first + x) -ℤ to)) }
{
    let near = place(to, first);
    let src_near = place(from, 0);
    let start = ORIGIN.saturating_sub(near.min(src_near));
    let there = (ORIGIN + count as usize).saturating_sub(near);
    let src_there = (ORIGIN + src_count as usize).saturating_sub(src_near);
    let end = (to_len.min(from_len) as usize).min(there).min(src_there);
    if end <= start {
        return AxisOverlap {
            dst: 0..0,
            src_start: 0,
        };
    }
    let dst_start = near + start - ORIGIN;
    AxisOverlap {
        dst: dst_start..dst_start + (end - start),
        src_start: src_near + start - ORIGIN,
    }
}

/// Returns the coordinate at an offset from `start`. Condition: it is at least 0.
fn coordinate(start: i32, offset: usize) -> usize
    requires visible { pos 0 ≤ℤ (start +ℤ pos offset) }
    requires short { offset ≤ 4294967295 }
    ensures { pos result ≡ start +ℤ pos offset }
{
    let distance = start.unsigned_abs() as usize;
    if start < 0 {
        offset - distance
    } else {
        distance + offset
    }
}
