//! Planes of pixels of 16 bits, cut out and put together.
ghost use Rattle.std.specs.Prelude.{◌≡◌, ◌++◌, map, length};
ghost use Rattle.std.specs.Simd.Lanes.{pick_l};
ghost use Rattle.pix_chan.specs.Planes.{both_in_turn};
ghost use Rattle.pix_chan.specs.Lanes.{even_lanes, odd_lanes};

use crate::chan::bits16::Ch16;

/// Returns the channels of even index of both slices.
#[inline(always)]
pub(super) fn evens(a: &[Ch16], b: &[Ch16]) -> [Ch16; 16]
    requires a_whole { length a.now ≡ 16 }
    requires b_whole { length b.now ≡ 16 }
    ensures { map (λ x. x.value) result ≡
        pick_l 0 (map (λ x. x.value) a.now ++ map (λ x. x.value) b.now) even_lanes }
{
    [
        Ch16 { value: a[0].value },
        Ch16 { value: a[2].value },
        Ch16 { value: a[4].value },
        Ch16 { value: a[6].value },
        Ch16 { value: a[8].value },
        Ch16 { value: a[10].value },
        Ch16 { value: a[12].value },
        Ch16 { value: a[14].value },
        Ch16 { value: b[0].value },
        Ch16 { value: b[2].value },
        Ch16 { value: b[4].value },
        Ch16 { value: b[6].value },
        Ch16 { value: b[8].value },
        Ch16 { value: b[10].value },
        Ch16 { value: b[12].value },
        Ch16 { value: b[14].value },
    ]
}

/// Returns the channels of odd index of both slices.
#[inline(always)]
pub(super) fn odds(a: &[Ch16], b: &[Ch16]) -> [Ch16; 16]
    requires a_whole { length a.now ≡ 16 }
    requires b_whole { length b.now ≡ 16 }
    ensures { map (λ x. x.value) result ≡
        pick_l 0 (map (λ x. x.value) a.now ++ map (λ x. x.value) b.now) odd_lanes }
{
    [
        Ch16 { value: a[1].value },
        Ch16 { value: a[3].value },
        Ch16 { value: a[5].value },
        Ch16 { value: a[7].value },
        Ch16 { value: a[9].value },
        Ch16 { value: a[11].value },
        Ch16 { value: a[13].value },
        Ch16 { value: a[15].value },
        Ch16 { value: b[1].value },
        Ch16 { value: b[3].value },
        Ch16 { value: b[5].value },
        Ch16 { value: b[7].value },
        Ch16 { value: b[9].value },
        Ch16 { value: b[11].value },
        Ch16 { value: b[13].value },
        Ch16 { value: b[15].value },
    ]
}

/// Returns the channels of both slices in turn.
#[inline(always)]
pub(super) fn both(a: &[Ch16], b: &[Ch16]) -> [Ch16; 16]
    requires a_whole { length a.now ≡ 8 }
    requires b_whole { length b.now ≡ 8 }
    ensures { map (λ x. x.value) result ≡
        both_in_turn (map (λ x. x.value) a.now) (map (λ x. x.value) b.now) }
{
    [
        Ch16 { value: a[0].value },
        Ch16 { value: b[0].value },
        Ch16 { value: a[1].value },
        Ch16 { value: b[1].value },
        Ch16 { value: a[2].value },
        Ch16 { value: b[2].value },
        Ch16 { value: a[3].value },
        Ch16 { value: b[3].value },
        Ch16 { value: a[4].value },
        Ch16 { value: b[4].value },
        Ch16 { value: a[5].value },
        Ch16 { value: b[5].value },
        Ch16 { value: a[6].value },
        Ch16 { value: b[6].value },
        Ch16 { value: a[7].value },
        Ch16 { value: b[7].value },
    ]
}
