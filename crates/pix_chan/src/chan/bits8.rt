//! Channels of 8 bits.
//!
//! `bits16.rt` is the twin of this file. A change here belongs there too.
ghost use Rattle.std.specs.Prelude.{◌≡◌, ◌+◌, ◌-◌, ◌*◌, ◌/◌, ◌<◌, ◌++◌, map};
ghost use Rattle.std.specs.Simd.Lanes.{zip2};
ghost use Rattle.pix_chan.specs.Number.{saturating_sum, saturating_difference};
ghost use Rattle.pix_chan.specs.Product.{channel_product, channel_quotient};
ghost use Rattle.pix_chan.specs.Channel.{AnswersFrom};
ghost use Rattle.pix_chan.specs.Depth.{to_16_bit, from_16_bit};
ghost use Rattle.pix_chan.specs.Planes.{in_turn, both_in_turn, last_of_four, last_of_two, with_alphas};
ghost use Rattle.pix_chan.specs.Seal.{seal};

use crate::chan::bits8::lanes::{channels, units, unmultiplied};
use crate::chan::{Ch16, Channel, whole};
use crate::quotients8::quotient;
use std::ops::{Add, Div, Mul, Sub};

mod lanes;
mod pairs;
mod planes;

/// A channel of 8 bits: a whole number of units from 0 to 255.
///
/// # Examples
///
/// ```rust
/// let half = Ch8::new(128);
/// let quarter = half * half; // 64: 128 * 128 / 255 is 64.25
/// let again = quarter / half; // 128: 256 * 64 / 128
/// ```
#[repr(C)]
#[derive(Clone, Copy, Debug, PartialEq, Eq, PartialOrd, Ord)]
pub struct Ch8 {
    value: u8,
    ghost fits: { value < 256 },
}

impl Ch8 {
    /// Creates the channel of `value` units.
    pub const fn new(value: u8) -> Ch8
        ensures { result.value ≡ value }
    {
        Ch8 { value }
    }
}

impl Default for Ch8 {
    ghost is_default = { λ c. c.value ≡ 0 };

    fn default() -> Ch8 {
        Ch8::MIN
    }
}

impl From<u8> for Ch8 {
    ghost from_gives = { λ n c. c.value ≡ n };

    fn from(value: u8) -> Ch8 {
        Ch8::new(value)
    }
}

impl From<Ch8> for u8 {
    ghost from_gives = { λ c n. n ≡ c.value };

    fn from(channel: Ch8) -> u8 {
        channel.value
    }
}

impl From<Ch16> for Ch8 {
    ghost from_gives = { λ c r. r.value ≡ from_16_bit 255 c.value };

    fn from(channel: Ch16) -> Ch8 {
        Ch8 {
            value: (u16::from(channel) / 256) as u8,
        }
    }
}

impl<R> Add<R> for Ch8
where
    Ch8: From<R>,
{
    type Output = Ch8;

    ghost add_gives = { AnswersFrom
        ⟦<Ch8 as From<R>>⟧.from_gives (λ c. c.value) (saturating_sum 255) };

    fn add(self, rhs: R) -> Ch8 {
        let rhs = Ch8::from(rhs);
        Ch8 {
            value: self.value.saturating_add(rhs.value),
        }
    }
}

impl<R> Sub<R> for Ch8
where
    Ch8: From<R>,
{
    type Output = Ch8;

    ghost sub_gives = { AnswersFrom
        ⟦<Ch8 as From<R>>⟧.from_gives (λ c. c.value) saturating_difference };

    fn sub(self, rhs: R) -> Ch8 {
        let rhs = Ch8::from(rhs);
        Ch8 {
            value: self.value.saturating_sub(rhs.value),
        }
    }
}

impl<R> Mul<R> for Ch8
where
    Ch8: From<R>,
{
    type Output = Ch8;

    ghost mul_gives = { AnswersFrom
        ⟦<Ch8 as From<R>>⟧.from_gives (λ c. c.value) (channel_product 255) };

    fn mul(self, rhs: R) -> Ch8 {
        let rhs = Ch8::from(rhs);
        let sum = u16::from(self.value) * u16::from(rhs.value) + 128;
        Ch8 {
            value: ((sum + (sum >> 8)) >> 8) as u8,
        }
    }
}

impl<R> Div<R> for Ch8
where
    Ch8: From<R>,
{
    type Output = Ch8;

    ghost div_gives = { AnswersFrom
        ⟦<Ch8 as From<R>>⟧.from_gives (λ c. c.value) (channel_quotient 255) };

    fn div(self, rhs: R) -> Ch8 {
        let rhs = Ch8::from(rhs);
        Ch8 {
            value: quotient(self.value, rhs.value),
        }
    }
}

impl Channel for Ch8 {
    ghost use Rattle.std.specs.Prelude.{refl};
    ghost use Rattle.std.proofs.Common.{lit<, rules};
    ghost use Rattle.pix_chan.specs.Channel.{answers_itself};
    ghost use Rattle.pix_chan.specs.ProductLaws.{product_laws};
    ghost use Rattle.pix_chan.specs.ChannelLaws.{channel_laws};
    ghost use Rattle.pix_chan.specs.DepthLaws.{depth_of_eight};
    ghost use Rattle.pix_chan.specs.Bits8.{ch8_numbered};

    ghost number = { λ c. c.value };

    ghost max = { 255 };

    ghost MIN = { record { value = 0; fits = lit< tt } };

    const MIN: Ch8 = Ch8 { value: 0 };

    ghost MID = { record { value = 128; fits = lit< tt } };

    const MID: Ch8 = Ch8 { value: 128 };

    ghost MAX = { record { value = 255; fits = lit< tt } };

    const MAX: Ch8 = Ch8 { value: 255 };

    fn to_u32(self) -> u32 {
        self.value.into()
    }

    fn to_16_bit(self) -> u16 {
        u16::from(self.value) * 257
    }

    fn from_16_bit(units: u16) -> Ch8 {
        Ch8 {
            value: (units / 256) as u8,
        }
    }

    fn wrapping_add(self, rhs: Ch8) -> Ch8 {
        Ch8 {
            value: self.value.wrapping_add(rhs.value),
        }
    }

    fn wrapping_sub(self, rhs: Ch8) -> Ch8 {
        Ch8 {
            value: self.value.wrapping_sub(rhs.value),
        }
    }

    fn lerp(self, rhs: Ch8, t: Ch8) -> Ch8 {
        let (start, end, t) = (
            u64::from(self.value),
            u64::from(rhs.value),
            u64::from(t.value),
        );
        let value = whole::lerp(start, end, t, 255);
        Ch8 { value: value as u8 }
    }

    fn from_ratio(n: i64, d: i64) -> Ch8 {
        Ch8 {
            value: whole::nearest(n, d, 255) as u8,
        }
    }

    #[inline(always)]
    fn mul_run(dst: &mut [Ch8], by: &[Ch8]) {
        let count = dst.len().min(by.len());
        for k in 0..count / 32 {
            pairs::mul_block(&mut dst[32 * k..32 * k + 32], &by[32 * k..32 * k + 32]);
        }
        for j in count / 32 * 2..count / 16 {
            lanes::mul_block(&mut dst[16 * j..16 * j + 16], &by[16 * j..16 * j + 16]);
        }
        for i in count / 16 * 16..count {
            dst[i] = dst[i] * by[i];
        }
    }

    #[inline(always)]
    fn add_run(dst: &mut [Ch8], by: &[Ch8]) {
        let count = dst.len().min(by.len());
        for k in 0..count / 32 {
            pairs::add_block(&mut dst[32 * k..32 * k + 32], &by[32 * k..32 * k + 32]);
        }
        for j in count / 32 * 2..count / 16 {
            lanes::add_block(&mut dst[16 * j..16 * j + 16], &by[16 * j..16 * j + 16]);
        }
        for i in count / 16 * 16..count {
            dst[i] = dst[i] + by[i];
        }
    }

    #[inline(always)]
    fn complement16(plane: [Ch8; 16]) -> [Ch8; 16]
        ensures { map (λ x. x.value) result ≡ map (λ x. 255 - x) (map (λ x. x.value) plane) }
    {
        channels(!units(&plane))
    }

    #[inline(always)]
    fn complement32(plane: [Ch8; 32]) -> [Ch8; 32]
        ensures { map (λ x. x.value) result ≡ map (λ x. 255 - x) (map (λ x. x.value) plane) }
    {
        pairs::channels(!pairs::units(&plane))
    }

    #[inline(always)]
    fn alphas4(pixels: [Ch8; 16]) -> [Ch8; 16]
        ensures { map (λ x. x.value) result ≡ last_of_four (map (λ x. x.value) pixels) }
    {
        channels(planes::spread(units(&pixels)))
    }

    #[inline(always)]
    fn unmultiplied4(pixels: [Ch8; 16]) -> [Ch8; 16]
        ensures { map (λ x. x.value) result ≡ with_alphas
            (zip2 (channel_quotient 255) (map (λ x. x.value) pixels)
            (last_of_four (map (λ x. x.value) pixels))) (map (λ x. x.value) pixels) }
    {
        channels(unmultiplied(units(&pixels)))
    }

    #[inline(always)]
    fn alphas8(pixels: [Ch8; 32]) -> [Ch8; 32]
        ensures { map (λ x. x.value) result ≡ last_of_four (map (λ x. x.value) pixels) }
    {
        pairs::channels(pairs::spread(pairs::units(&pixels)))
    }

    #[inline(always)]
    fn alphas16(pixels: [Ch8; 32]) -> [Ch8; 32]
        ensures { map (λ x. x.value) result ≡ last_of_two (map (λ x. x.value) pixels) }
    {
        pairs::channels(pairs::twice_last(pairs::units(&pixels)))
    }

    #[inline(always)]
    fn split4(
        a: [Ch8; 16],
        b: [Ch8; 16],
        c: [Ch8; 16],
        d: [Ch8; 16],
    ) -> ([Ch8; 16], [Ch8; 16], [Ch8; 16], [Ch8; 16])
        ensures { in_turn (map (λ x. x.value) result.0) (map (λ x. x.value) result.1)
            (map (λ x. x.value) result.2) (map (λ x. x.value) result.3)
            ≡ (map (λ x. x.value) a ++ map (λ x. x.value) b)
            ++ (map (λ x. x.value) c ++ map (λ x. x.value) d) }
    {
        let (one, two, three, four) = planes::split_four(
            units(&a),
            units(&b),
            units(&c),
            units(&d),
        );
        (
            channels(one),
            channels(two),
            channels(three),
            channels(four),
        )
    }

    #[inline(always)]
    fn join4(
        one: [Ch8; 16],
        two: [Ch8; 16],
        three: [Ch8; 16],
        four: [Ch8; 16],
    ) -> ([Ch8; 16], [Ch8; 16], [Ch8; 16], [Ch8; 16])
        ensures { (map (λ x. x.value) result.0 ++ map (λ x. x.value) result.1)
            ++ (map (λ x. x.value) result.2 ++ map (λ x. x.value) result.3)
            ≡ in_turn (map (λ x. x.value) one) (map (λ x. x.value) two)
            (map (λ x. x.value) three) (map (λ x. x.value) four) }
    {
        let (a, b, c, d) = planes::join_four(units(&one), units(&two), units(&three), units(&four));
        (channels(a), channels(b), channels(c), channels(d))
    }

    #[inline(always)]
    fn split2(a: [Ch8; 16], b: [Ch8; 16]) -> ([Ch8; 16], [Ch8; 16])
        ensures { both_in_turn (map (λ x. x.value) result.0) (map (λ x. x.value) result.1)
            ≡ map (λ x. x.value) a ++ map (λ x. x.value) b }
    {
        let (one, two) = planes::cut(units(&a), units(&b));
        (channels(one), channels(two))
    }

    #[inline(always)]
    fn join2(one: [Ch8; 16], two: [Ch8; 16]) -> ([Ch8; 16], [Ch8; 16])
        ensures { map (λ x. x.value) result.0 ++ map (λ x. x.value) result.1
            ≡ both_in_turn (map (λ x. x.value) one) (map (λ x. x.value) two) }
    {
        let (a, b) = planes::join_two(units(&one), units(&two));
        (channels(a), channels(b))
    }

    ghost wide = { lit< tt };

    ghost numbered = { ch8_numbered };

    ghost min_is_zero = { refl };

    ghost mid_is_half = { refl };

    ghost max_is_maximum = { refl };

    ghost default_is_min = { λ x h. h };

    ghost orders = { λ x y. refl };

    ghost clones = { λ x y h. h };

    ghost clones_always = { λ x. tt };

    ghost equals = { λ x y. refl };

    ghost can_sum = { λ _ _. tt };

    ghost sums = { answers_itself (λ c. c.value) (saturating_sum 255) };

    ghost can_differ = { λ _ _. tt };

    ghost differs = { answers_itself (λ c. c.value) saturating_difference };

    ghost can_multiply = { λ _ _. tt };

    ghost multiplies = { answers_itself (λ c. c.value) (channel_product 255) };

    ghost can_divide = { λ _ _. tt };

    ghost divides = { answers_itself (λ c. c.value) (channel_quotient 255) };

    ghost product_law = { product_laws 255 (lit< tt) };

    ghost small = { Prim.search rules };

    ghost laws = { channel_laws 255 (lit< tt) depth_of_eight };

    ghost sealed = { seal };
}
