//! Gray pixels of 8 bits as opaque ones of four bytes whose colors a table maps.
ghost use Rattle.std.specs.Prelude.{◌≡◌, ◌*◌, [], ◌∷◌, length};
ghost use Rattle.pix_bytes.specs.Recolored.{gray_recolored};
ghost use Rattle.pix_bytes.specs.Rows.{IsEach};

use crate::bitmap::eights::Table;

/// Writes an opaque pixel whose colors are the entry for a gray value. Condition: there is room for
/// four bytes.
#[inline(always)]
fn map_gray<T: Table>(gray: u8, dst: &mut [u8])
    requires { length dst.old ≡ 4 }
    ensures { dst.new ≡ T.curve gray ∷ T.curve gray ∷ T.curve gray ∷ 255 ∷ [] }
{
    if let Some(whole) = dst.as_mut_array::<4>() {
        let color = T::entry(gray);
        *whole = [color, color, color, 255];
    }
}

/// Writes each gray pixel as an opaque one of four bytes whose colors the table maps.
///
/// Condition: there are `count` of both.
#[inline(always)]
pub(crate) fn map_grays<T: Table>(src: &[u8], dst: &mut [u8], count: usize)
    requires src { length src.now ≡ count }
    requires dst { length dst.old ≡ count * 4 }
    ensures { IsEach 255 255 1 4 1 4 (gray_recolored T.curve) src.now dst.new count }
{
    for i in 0..count {
        map_gray::<T>(src[i], &mut dst[4 * i..4 * i + 4]);
    }
}
