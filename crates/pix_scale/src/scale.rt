//! Windows of a picture at another size, in memory that the caller owns.
ghost use Rattle.std.specs.Prelude.{◌≡◌, ◌<◌, ◌≤◌, length, IfOk, IfErr, Some, None};
ghost use Rattle.pix_scale.specs.Axis.{axis};
ghost use Rattle.pix_scale.specs.Call.{size_fault, words, scale_fault, IsScaled};

use crate::draw::draw;
use crate::fault::ScaleFault;
use crate::filter::Filter;
use crate::refuse::{memory_fault, size_fault, words};
use crate::shape::{Rows, View};
use pix_chan::chan::{Channel, Linear, Premultiplied};
use pix_el::el::Pixel;
use pix_el::stored::Stored;

/// Returns how many words of work memory [`scale`] takes for a window of that size.
///
/// It is refused for the sizes for which `scale` is refused. Condition: a pixel has at most eight
/// channels.
pub fn scale_work<P>(
    rows: Rows,
    view: View,
    source: Rows,
    filter: Filter,
) -> Result<u64, ScaleFault>
where
    P: Pixel<Alpha = Premultiplied, Gamma = Linear>,
    requires few { P.layout.count ≤ 8 }
    ensures ok { IfOk result (λ count. count ≡ words P.layout.count filter view rows source) }
    ensures sizes { IfOk result (λ count. size_fault P.Chan.max filter view source ≡ None) }
    ensures fault { IfErr result (λ fault.
        size_fault P.Chan.max filter view source ≡ Some fault) }
{
    if let Some(fault) = size_fault::<P::Chan>(filter, view, source) {
        return Err(fault);
    }
    let count = P::default().channels().len();
    Ok(words::<P::Chan>(count, filter, view, rows, source))
}

/// Draws the window `rows` of a picture at another size, the one that `view` names, into `to`. Its
/// source is the picture in `from`.
///
/// Each channel of a new pixel is the mean of those of the source, by the weights of the filter. It
/// is rounded once, to the nearest, ties up. A window is that part of the whole new picture, so a
/// picture can be drawn in tiles. Pixels between the rows and after them stay as they are.
///
/// `work` is memory to work in: as many words as [`scale_work`] returns. On a refusal nothing is
/// written to `to`. Condition: a pixel has one to eight channels.
pub fn scale<P, D>(
    to: &mut [D],
    rows: Rows,
    view: View,
    from: &[D],
    source: Rows,
    filter: Filter,
    work: &mut [u32],
) -> Result<(), ScaleFault>
where
    P: Pixel<Alpha = Premultiplied, Gamma = Linear>,
    D: Stored<P>,
    requires some { 0 < P.layout.count }
    requires few { P.layout.count ≤ 8 }
    ensures ok { IfOk result (λ _. scale_fault P.Chan.max P.layout.count filter view rows source
        (length to.old) (length from.now) (length work.old) ≡ None) }
    ensures fault { IfErr result (λ fault. scale_fault P.Chan.max P.layout.count filter view rows
        source (length to.old) (length from.now) (length work.old) ≡ Some fault) }
    ensures refused { IfErr result (λ _. to.new ≡ to.old) }
    ensures scaled { IfOk result (λ _. IsScaled D.reads P.Chan.max P.layout.count
        (axis filter source.width view.across) (axis filter source.height view.down) view rows
        source from.now to.old to.new) }
{
    if let Some(fault) = size_fault::<P::Chan>(filter, view, source) {
        return Err(fault);
    }
    let count = P::default().channels().len();
    let lengths = (to.len(), from.len(), work.len());
    let fault = memory_fault::<P::Chan>(
        count, filter, view, rows, source, lengths.0, lengths.1, lengths.2,
    );
    if let Some(fault) = fault {
        return Err(fault);
    }
    draw::<P, D>(to, rows, view, from, source, filter, work);
    Ok(())
}
