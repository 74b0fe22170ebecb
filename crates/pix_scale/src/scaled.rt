//! Rasters at another size.
ghost use Rattle.std.specs.Prelude.{◌≡◌, ◌+◌, ◌<◌, ◌≤◌, ℕ, vec_len, map, IfOk, IfErr, Some, None, Err};
ghost use Rattle.pix_raster.specs.Sizes as sizes;
ghost use Rattle.pix_raster.specs.declared.fault.RasterFault.{RasterFault};
ghost use Rattle.pix_raster.specs.declared.fault.RasterFault.TheVariants as causes;
ghost use Rattle.pix_scale.specs.Axis.{axis, channel_at, scaled};
ghost use Rattle.pix_scale.specs.Call.{whole_rows, window_fault};
ghost use Rattle.pix_scale.specs.declared.fault.ScaleFault.{ScaleFault};
ghost use Rattle.pix_scale.specs.declared.scaled.RasterScaleFault.TheVariants as faults;

use crate::draw::draw;
use crate::fault::ScaleFault;
use crate::filter::Filter;
use crate::refuse::{window_fault, words};
use crate::shape::{Rows, View};
use pix_chan::chan::{Linear, Premultiplied};
use pix_el::el::Pixel;
use pix_raster::{Raster, RasterFault};
use std::alloc::Global;
use thiserror::Error;

/// Why no raster at another size was made: the first that applies, in this order.
#[derive(Clone, Copy, Debug, PartialEq, Eq, Error)]
pub enum RasterScaleFault {
    /// A side is 0, the sides are above what the sums allow, or the window does not lie in the new
    /// picture.
    #[error(transparent)]
    Scale(ScaleFault),
    /// The new raster is too large, or an allocation failed.
    #[error(transparent)]
    Raster(RasterFault),
}

/// Makes a raster of `width` by `height` pixels: the window that `view` names of `picture` at
/// another size.
///
/// Each channel of a new pixel is the mean of those of the picture, by the weights of the filter.
/// It is rounded once, to the nearest, ties up. Condition: a pixel has one to eight channels.
///
/// # Errors
///
/// `Scale` with `NoSide`, `TooLarge` or `Outside`, and otherwise `Raster` with `WidthTooBig`,
/// `HeightTooBig`, `TooBig`, or `Memory` on allocation failure.
///
/// # Examples
///
/// ```rust
/// let view = View {
///     left: 0,
///     top: 0,
///     across: 160,
///     down: 120,
/// };
/// scaled_raster(alloc, photo, view, 160, 120, Filter::Area)
/// ```
pub fn scaled_raster<P>(
    alloc: Global,
    picture: &Raster<P>,
    view: View,
    width: u32,
    height: u32,
    filter: Filter,
) -> Result<Raster<P>, RasterScaleFault>
where
    P: Pixel<Alpha = Premultiplied, Gamma = Linear>,
    requires some { 0 < P.layout.count }
    requires few { P.layout.count ≤ 8 }
    ensures size { IfOk result (λ r. (r.width ≡ width) × (r.height ≡ height)) }
    ensures pixels { IfOk result (λ r. (x y c : ℕ) → x < width → y < height → c < P.layout.count
        → channel_at (map P.numbers r.pixels) width c x y
        ≡ scaled P.Chan.max (axis filter picture.now.width view.across)
        (axis filter picture.now.height view.down)
        (channel_at (map P.numbers picture.now.pixels) picture.now.width c)
        (view.left + x) (view.top + y)) }
    ensures scale { (fault : ScaleFault) → window_fault P.Chan.max filter view
        (whole_rows width height) (whole_rows picture.now.width picture.now.height) ≡ Some fault
        → result ≡ Err (faults.Scale fault) }
    ensures raster { (fault : RasterFault) → window_fault P.Chan.max filter view
        (whole_rows width height) (whole_rows picture.now.width picture.now.height) ≡ None
        → sizes.size_fault width height ≡ Some fault → result ≡ Err (faults.Raster fault) }
    ensures memory { IfErr result (λ fault. window_fault P.Chan.max filter view
        (whole_rows width height) (whole_rows picture.now.width picture.now.height) ≡ None
        → sizes.size_fault width height ≡ None → fault ≡ faults.Raster causes.Memory) }
{
    let rows = whole_rows(width, height);
    let source = whole_rows(picture.width(), picture.height());
    if let Some(fault) = window_fault::<P::Chan>(filter, view, rows, source) {
        return Err(RasterScaleFault::Scale(fault));
    }
    let mut made = Raster::<P>::with_clear(alloc, width, height).map_err(RasterScaleFault::Raster)?;
    let count = P::default().channels().len();
    let mut work = zeros(alloc, words::<P::Chan>(count, filter, view, rows, source))?;
    draw::<P, P>(
        made.pixels_mut(),
        rows,
        view,
        picture.pixels(),
        source,
        filter,
        &mut work,
    );
    Ok(made)
}

/// Returns rows that lie one after the other.
fn whole_rows(width: u32, height: u32) -> Rows
    ensures { result ≡ whole_rows width height }
{
    Rows {
        width,
        height,
        stride: width,
    }
}

/// Returns so many words of memory.
///
/// # Errors
///
/// `Memory` on allocation failure.
fn zeros(alloc: Global, count: u64) -> Result<Vec<u32>, RasterScaleFault>
    ensures count { IfOk result (λ made. vec_len made ≡ count) }
    ensures memory { IfErr result (λ fault. fault ≡ faults.Raster causes.Memory) }
{
    match vec![in alloc; 0u32; count as usize] {
        Ok(made) => Ok(made),
        Err(_) => Err(RasterScaleFault::Raster(RasterFault::Memory)),
    }
}
