//! The overlap of three regions: one of a destination, one of a source and one of a mask.
ghost use Rattle.std.specs.Prelude.{◌≡◌, ℕ, pos, ◌+ℤ◌, ◌-ℤ◌, ◌+◌, ◌-◌, ◌≤◌, ◌&&◌, true};
ghost use Rattle.pix_el.specs.Pixel.{lies_in};
ghost use Rattle.pix_raster.specs.Region.{limit};
ghost use Rattle.pix_raster.specs.Reach.{natural};
ghost use Rattle.pix_raster.specs.Clip.{is_offset};

use super::{AxisOverlap, ORIGIN, place};

/// A region of an image along one axis.
#[derive(Drop)]
pub(crate) struct AxisRegion {
    /// Its first column, or row.
    pub(crate) start: i32,
    /// How many it has.
    pub(crate) len: u32,
    /// How many the image has.
    pub(crate) count: u32,
}

/// Returns the overlap along one axis of a region and those of a source and of a mask: the columns,
/// or rows, at the offsets that lie in all three. The window has `count` columns or rows from
/// `first` on, and those of the destination are given by their distances from `first`. The region
/// has `to_len` from `to` on. Beside the overlap is the column, or row, of the mask for the first
/// of them.
#[inline(always)]
pub(crate) fn masked_overlap(
    to: i32,
    to_len: u32,
    first: u32,
    count: u32,
    from: AxisRegion,
    mask: AxisRegion,
) -> (AxisOverlap, usize)
    requires { first + count ≤ limit }
    ensures ordered { result.0.dst.start ≤ result.0.dst.end }
    ensures in_dst { result.0.dst.end ≤ count }
    ensures in_src { result.0.src_start + (result.0.dst.end - result.0.dst.start) ≤ from.count }
    ensures in_mask { result.1 + (result.0.dst.end - result.0.dst.start) ≤ mask.count }
    ensures points { (x : ℕ) → lies_in result.0.dst x ≡
        ((is_offset to to_len (first + count) (pos (first + x) -ℤ to)
        && is_offset from.start from.len from.count (pos (first + x) -ℤ to))
        && is_offset mask.start mask.len mask.count (pos (first + x) -ℤ to)) }
    ensures sources { (x : ℕ) → lies_in result.0.dst x ≡ true →
        result.0.src_start + (x - result.0.dst.start)
        ≡ natural (from.start +ℤ (pos (first + x) -ℤ to)) }
    ensures masks { (x : ℕ) → lies_in result.0.dst x ≡ true →
        result.1 + (x - result.0.dst.start)
        ≡ natural (mask.start +ℤ (pos (first + x) -ℤ to)) }
{
    let near = place(to, first);
    let src_near = place(from.start, 0);
    let mask_near = place(mask.start, 0);
    let start = ORIGIN.saturating_sub(near.min(src_near).min(mask_near));
    let there = (ORIGIN + count as usize).saturating_sub(near);
    let src_there = (ORIGIN + from.count as usize).saturating_sub(src_near);
    let mask_there = (ORIGIN + mask.count as usize).saturating_sub(mask_near);
    let len = to_len.min(from.len).min(mask.len) as usize;
    let end = len.min(there).min(src_there).min(mask_there);
    if end <= start {
        let none = AxisOverlap {
            dst: 0..0,
            src_start: 0,
        };
        return (none, 0);
    }
    let dst_start = near + start - ORIGIN;
    let overlap = AxisOverlap {
        dst: dst_start..dst_start + (end - start),
        src_start: src_near + start - ORIGIN,
    };
    (overlap, mask_near + start - ORIGIN)
}
