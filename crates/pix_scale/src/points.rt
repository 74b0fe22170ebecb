//! Pictures at another size by the nearest pixels: each is copied.
ghost use Rattle.std.specs.Prelude.{◌≡◌, ℕ, ◌+◌, ◌*◌, ◌/◌, ◌<◌, ◌≤◌, List, [], length, map, slice_index, slice_index_or};
ghost use Rattle.pix_scale.specs.Axis.{axis_of};
ghost use Rattle.pix_scale.specs.Table.{side_axis, AreSides, IsSide};
ghost use Rattle.pix_scale.specs.Call.{IsScaled};
ghost use Rattle.pix_scale.specs.declared.filter.Kernel.TheVariants.{Point};

use crate::shape::{Rows, View};
use crate::side::Side;
use pix_el::el::Pixel;
use pix_el::stored::Stored;

/// Returns the place in which the middle of place `i` lies, of two the later.
#[inline(always)]
fn middle(side: Side, size: u64, i: u64) -> u64
    requires side { IsSide Point side.places size side.n side.m }
    requires i { i < size }
    requires size { size < 4294967296 }
    ensures value { result ≡ (2 * i + 1) * side.n / (2 * side.m) }
    ensures inside { result < side.places }
{
    (2 * i + 1) * u64::from(side.n) / (2 * u64::from(side.m))
}

/// Writes the places in which the middles of places from `at` on lie, of two the later.
fn middles(side: Side, size: u64, at: u64, firsts: &mut [u32])
    requires side { IsSide Point side.places size side.n side.m }
    requires inside { at + length firsts.old ≤ size }
    requires size { size < 4294967296 }
    ensures places { (i : ℕ) → i < length firsts.old
        → slice_index firsts.new i ≡ (2 * (at + i) + 1) * side.n / (2 * side.m) }
    ensures inside { (i : ℕ) → i < length firsts.old → slice_index firsts.new i < side.places }
{
    for i in 0..firsts.len() {
        firsts[i] = middle(side, size, at + i as u64) as u32;
    }
}

/// Copies the pixel of each place. Condition: there is one, and a place for each.
fn copy_pixels<P: Pixel, D: Stored<P>>(to: &mut [D], from: &[D], places: &[u32])
    requires long { length to.old ≡ length places.now }
    requires inside { (i : ℕ) → i < length places.now
        → slice_index places.now i < length from.now }
    ensures { (i : ℕ) → i < length places.now → slice_index_or (map D.reads to.new) i []
        ≡ slice_index_or (map D.reads from.now) (slice_index places.now i) [] }
{
    for i in 0..places.len() {
        to[i] = from[places[i] as usize];
    }
}

/// Writes the rows of a window of a picture at another size by the nearest pixels. The last slice
/// is memory to work in.
pub(crate) fn draw_points<P: Pixel, D: Stored<P>>(
    to: &mut [D],
    rows: Rows,
    view: View,
    from: &[D],
    source: Rows,
    across: Side,
    down: Side,
    firsts: &mut [u32],
)
    requires sides { AreSides P.Chan.max across down view source.stride (length from.now) }
    requires across { across.kernel ≡ Point }
    requires down { down.kernel ≡ Point }
    requires apart { rows.width ≤ rows.stride }
    requires fit { (y : ℕ) → y < rows.height → y * rows.stride + rows.width ≤ length to.old }
    requires left { view.left + rows.width ≤ view.across }
    requires top { view.top + rows.height ≤ view.down }
    requires firsts { length firsts.old ≡ rows.width }
    ensures { IsScaled D.reads P.Chan.max P.layout.count (side_axis across) (side_axis down) view
        rows source from.now to.old to.new }
{
    let (width, stride) = (rows.width as usize, source.stride as usize);
    middles(across, u64::from(view.across), u64::from(view.left), firsts);
    for y in 0..rows.height {
        let at = y as usize * rows.stride as usize;
        let line = middle(
            down,
            u64::from(view.down),
            u64::from(view.top) + u64::from(y),
        );
        let start = line as usize * stride;
        copy_pixels::<P, D>(&mut to[at..at + width], &from[start..], firsts);
    }
}
