//! Pixels of weights that may be negative.
ghost use Rattle.std.specs.Prelude.{◌≡◌, ℕ, pos, ◌-ℤ◌, ◌+◌, ◌*◌, ◌^◌, ◌<◌, ◌≤◌, List, [], length, map, slice_index, slice_index_or};
ghost use Rattle.pix_chan.specs.Nearest.{nearest};
ghost use Rattle.pix_scale.specs.Axis.{total};
ghost use Rattle.pix_scale.specs.Table.{row_term, pixel_term, tap};
ghost use Rattle.pix_scale.specs.Signed.{top_by, cut_by};
ghost use Rattle.pix_scale.specs.SignedTable.{left, left_at};

use crate::lanes::sum_both;
use crate::pixels::pixel_sums;
use pix_chan::chan::Channel;
use pix_el::el::Pixel;
use pix_el::model::ColorModel;
use pix_el::stored::Stored;

/// Returns the channel nearest to what one sum is above another and 2^45, in 2^28ths, ties up, from
/// 0 up to a channel. Condition: the sums fit.
#[inline(always)]
fn cut<C: Channel>(plus: u64, minus: u64, top: C) -> C
    requires plus { plus < 2 ^ 48 }
    requires minus { minus < 2 ^ 48 }
    ensures { C.number result
        ≡ nearest (C.number top) (pos plus -ℤ pos (minus + 2 ^ 45)) (pos (2 ^ 28)) }
{
    let channel = C::from_ratio(plus.saturating_sub(minus + (1 << 45)) as i64, 1 << 28);
    if channel.to_u32() <= top.to_u32() {
        channel
    } else {
        top
    }
}

/// Returns the sums of pixels of `n` channels that follow each other, each pixel times its weight,
/// by two rows of weights.
///
/// Condition: there is a pixel for each weight, and the weights of a row add up to less than 2^31.
#[inline(always)]
fn both_sums(n: usize, sums: &[u32], plus: &[u32], minus: &[u32]) -> ([u64; 8], [u64; 8])
    requires few { n ≤ 8 }
    requires same { length minus.now ≡ length plus.now }
    requires inside { (k : ℕ) → k < length plus.now → k * n + n ≤ length sums.now }
    requires plus_fits { total (length plus.now) (slice_index plus.now) < 2 ^ 31 }
    requires minus_fits { total (length minus.now) (slice_index minus.now) < 2 ^ 31 }
    ensures added { (c : ℕ) → c < n → slice_index result.0 c
        ≡ total (length plus.now) (row_term plus.now (slice_index sums.now) n c) }
    ensures taken { (c : ℕ) → c < n → slice_index result.1 c
        ≡ total (length minus.now) (row_term minus.now (slice_index sums.now) n c) }
{
    if n == 4 {
        let both = sum_both(sums, plus, minus);
        let (added, taken) = (both.0.to_array(), both.1.to_array());
        return (
            [added[0], added[1], added[2], added[3], 0, 0, 0, 0],
            [taken[0], taken[1], taken[2], taken[3], 0, 0, 0, 0],
        );
    }
    (pixel_sums(n, sums, plus), pixel_sums(n, sums, minus))
}

/// Returns where a pixel is cut: at the new alpha, or else at the maximum. Condition: the sums fit.
#[inline(always)]
fn top_of<P: Pixel>(plus: &[u64; 8], minus: &[u64; 8]) -> P::Chan
    requires few { P.layout.count ≤ 8 }
    requires plus { (c : ℕ) → c < P.layout.count → slice_index plus.now c < 2 ^ 48 }
    requires minus { (c : ℕ) → c < P.layout.count → slice_index minus.now c < 2 ^ 48 }
    ensures { P.Chan.number result ≡ top_by P.layout
        (λ c. pos (slice_index plus.now c) -ℤ pos (slice_index minus.now c + 2 ^ 45)) }
{
    let alpha = <P::Model as ColorModel>::ALPHA;
    if alpha < P::default().channels().len() {
        cut(plus[alpha], minus[alpha], P::Chan::MAX)
    } else {
        P::Chan::MAX
    }
}

/// Returns the pixel of weighted sums, each 2^31 too high, of pixels that follow each other.
///
/// Condition: there is a pixel for each weight, and the weights are small.
#[inline(always)]
pub(crate) fn cut_pixel<P: Pixel, D: Stored<P>>(sums: &[u32], plus: &[u32], minus: &[u32]) -> D
    requires few { P.layout.count ≤ 8 }
    requires same { length minus.now ≡ length plus.now }
    requires inside { (k : ℕ) → k < length plus.now
        → k * P.layout.count + P.layout.count ≤ length sums.now }
    requires plus_fits { total (length plus.now) (slice_index plus.now) < 2 ^ 15 }
    requires minus_fits { total (length minus.now) (slice_index minus.now) < 2 ^ 15 }
    ensures { (c : ℕ) → c < P.layout.count → slice_index (D.reads result) c
        ≡ cut_by P.layout (left plus.now minus.now sums.now P.layout.count) c }
{
    let mut own = [P::Chan::MIN; 8];
    let n = P::default().channels().len();
    let (added, taken) = both_sums(n, sums, plus, minus);
    let top = top_of::<P>(&added, &taken);
    for c in 0..n {
        own[c] = cut(added[c], taken[c], top);
    }
    D::store(&P::from_channels(&own[..n]))
}
