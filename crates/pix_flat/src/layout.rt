//! The version and the layout of what is passed to C, so that a caller can compare them with its
//! own.
ghost use Rattle.std.specs.Prelude.{◌≡◌, slice_get, unwrap_or};
ghost use Rattle.pix_flat.specs.Layout.{facts, no_fact};

/// The version of the calls, the sizes of the three pixels, the size and the offsets of a region,
/// and those of the three commands.
const FACTS: [u32; 65] = [
    4, 4, 8, 2, 16, 0, 4, 8, 12, 128, 0, 4, 8, 24, 40, 48, 56, 64, 72, 80, 84, 88, 92, 108, 112,
    116, 120, 144, 0, 4, 8, 24, 40, 48, 56, 64, 72, 80, 84, 88, 92, 108, 112, 116, 120, 128, 136,
    128, 0, 4, 8, 24, 40, 48, 56, 64, 72, 80, 84, 88, 92, 108, 112, 116, 120,
];

/// Returns a number from the list of the version, the sizes and the offsets, or 4294967295 past its
/// end.
pub fn fact(index: usize) -> u32
    ensures { result ≡ unwrap_or (slice_get facts index) no_fact }
{
    FACTS.get(index).copied().unwrap_or(4294967295)
}
