//! The version and the layout of what is passed to C, so that a caller can compare them with its
//! own.
ghost use Rattle.std.specs.Prelude.{◌≡◌, slice_get, unwrap_or};
ghost use Rattle.pix_flat.specs.Layout.{facts, no_fact};

use pix_flat::layout;

/// Returns a number from the list of the version, the sizes and the offsets, or 4294967295 past its
/// end.
#[unsafe(no_mangle)]
pub extern "C" fn pix_layout(index: usize) -> u32
    ensures { result ≡ unwrap_or (slice_get facts index) no_fact }
{
    layout::fact(index)
}
