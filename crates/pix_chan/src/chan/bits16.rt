//! Channels of 16 bits.
//!
//! `bits8.rt` is the twin of this file. A change here belongs there too.
ghost use Rattle.std.specs.Prelude.{◌≡◌, ◌+◌, ◌-◌, ◌*◌, ◌/◌, ◌<◌, ◌++◌, map};
ghost use Rattle.std.specs.Simd.Lanes.{zip2};
ghost use Rattle.pix_chan.specs.Number.{saturating_sum, saturating_difference};
ghost use Rattle.pix_chan.specs.Product.{channel_product, channel_quotient};
ghost use Rattle.pix_chan.specs.Channel.{AnswersFrom};
ghost use Rattle.pix_chan.specs.Depth.{to_16_bit, from_16_bit};
ghost use Rattle.pix_chan.specs.Planes.{in_turn, both_in_turn, last_of_four, last_of_two, with_alphas};
ghost use Rattle.pix_chan.specs.Seal.{seal};

use crate::chan::{Ch8, Channel, whole};
use crate::quotients16::lanes::unmultiplied;
use crate::quotients16::quotient;
use std::ops::{Add, Div, Mul, Sub};

mod lanes;
mod planes;

/// A channel of 16 bits: a whole number of units from 0 to 65535.
///
/// # Examples
///
/// ```rust
/// let fine = Ch16::from(Ch8::new(171));
/// let units = fine.to_u32(); // 43947: 171 * 257
/// let coarse = Ch8::from(fine); // 171
/// ```
#[repr(C)]
#[derive(Clone, Copy, Debug, PartialEq, Eq, PartialOrd, Ord)]
pub struct Ch16 {
    value: u16,
    ghost fits: { value < 65536 },
}

impl Ch16 {
    /// Creates the channel of `value` units.
    pub const fn new(value: u16) -> Ch16
        ensures { result.value ≡ value }
    {
        Ch16 { value }
    }
}

impl Default for Ch16 {
    ghost is_default = { λ c. c.value ≡ 0 };

    fn default() -> Ch16 {
        Ch16::MIN
    }
}

impl From<u16> for Ch16 {
    ghost from_gives = { λ n c. c.value ≡ n };

    fn from(value: u16) -> Ch16 {
        Ch16::new(value)
    }
}

impl From<Ch16> for u16 {
    ghost from_gives = { λ c n. n ≡ c.value };

    fn from(channel: Ch16) -> u16 {
        channel.value
    }
}

impl From<Ch8> for Ch16 {
    ghost from_gives = { λ c r. r.value ≡ to_16_bit 255 c.value };

    fn from(channel: Ch8) -> Ch16 {
        Ch16 {
            value: u16::from(u8::from(channel)) * 257,
        }
    }
}

impl<R> Add<R> for Ch16
where
    Ch16: From<R>,
{
    type Output = Ch16;

    ghost add_gives = { AnswersFrom
        ⟦<Ch16 as From<R>>⟧.from_gives (λ c. c.value) (saturating_sum 65535) };

    fn add(self, rhs: R) -> Ch16 {
        let rhs = Ch16::from(rhs);
        Ch16 {
            value: self.value.saturating_add(rhs.value),
        }
    }
}

impl<R> Sub<R> for Ch16
where
    Ch16: From<R>,
{
    type Output = Ch16;

    ghost sub_gives = { AnswersFrom
        ⟦<Ch16 as From<R>>⟧.from_gives (λ c. c.value) saturating_difference };

    fn sub(self, rhs: R) -> Ch16 {
        let rhs = Ch16::from(rhs);
        Ch16 {
            value: self.value.saturating_sub(rhs.value),
        }
    }
}

impl<R> Mul<R> for Ch16
where
    Ch16: From<R>,
{
    type Output = Ch16;

    ghost mul_gives = { AnswersFrom
        ⟦<Ch16 as From<R>>⟧.from_gives (λ c. c.value) (channel_product 65535) };

    fn mul(self, rhs: R) -> Ch16 {
        let rhs = Ch16::from(rhs);
        let sum = u32::from(self.value) * u32::from(rhs.value) + 32768;
        Ch16 {
            value: ((sum + (sum >> 16)) >> 16) as u16,
        }
    }
}

impl<R> Div<R> for Ch16
where
    Ch16: From<R>,
{
    type Output = Ch16;

    ghost div_gives = { AnswersFrom
        ⟦<Ch16 as From<R>>⟧.from_gives (λ c. c.value) (channel_quotient 65535) };

    #[inline(always)]
    fn div(self, rhs: R) -> Ch16 {
        let rhs = Ch16::from(rhs);
        Ch16 {
            value: quotient(self.value, rhs.value),
        }
    }
}

impl Channel for Ch16 {
    ghost use Rattle.std.specs.Prelude.{refl};
    ghost use Rattle.std.proofs.Common.{lit<, rules};
    ghost use Rattle.pix_chan.specs.Channel.{answers_itself};
    ghost use Rattle.pix_chan.specs.ProductLaws.{product_laws};
    ghost use Rattle.pix_chan.specs.ChannelLaws.{channel_laws};
    ghost use Rattle.pix_chan.specs.DepthLaws.{depth_of_sixteen};
    ghost use Rattle.pix_chan.specs.Bits16.{ch16_numbered};

    ghost number = { λ c. c.value };

    ghost max = { 65535 };

    ghost MIN = { record { value = 0; fits = lit< tt } };

    const MIN: Ch16 = Ch16 { value: 0 };

    ghost MID = { record { value = 32768; fits = lit< tt } };

    const MID: Ch16 = Ch16 { value: 32768 };

    ghost MAX = { record { value = 65535; fits = lit< tt } };

    const MAX: Ch16 = Ch16 { value: 65535 };

    fn to_u32(self) -> u32 {
        self.value.into()
    }

    fn to_16_bit(self) -> u16 {
        self.value
    }

    fn from_16_bit(units: u16) -> Ch16 {
        Ch16 { value: units }
    }

    fn wrapping_add(self, rhs: Ch16) -> Ch16 {
        Ch16 {
            value: self.value.wrapping_add(rhs.value),
        }
    }

    fn wrapping_sub(self, rhs: Ch16) -> Ch16 {
        Ch16 {
            value: self.value.wrapping_sub(rhs.value),
        }
    }

    fn lerp(self, rhs: Ch16, t: Ch16) -> Ch16 {
        let (start, end, t) = (
            u64::from(self.value),
            u64::from(rhs.value),
            u64::from(t.value),
        );
        let value = whole::lerp(start, end, t, 65535);
        Ch16 {
            value: value as u16,
        }
    }

    fn from_ratio(n: i64, d: i64) -> Ch16 {
        Ch16 {
            value: whole::nearest(n, d, 65535) as u16,
        }
    }

    #[inline(always)]
    fn mul_run(dst: &mut [Ch16], by: &[Ch16]) {
        let count = dst.len().min(by.len());
        for k in 0..count / 16 {
            lanes::mul_block(&mut dst[16 * k..16 * k + 16], &by[16 * k..16 * k + 16]);
        }
        for i in count / 16 * 16..count {
            dst[i] = dst[i] * by[i];
        }
    }

    #[inline(always)]
    fn add_run(dst: &mut [Ch16], by: &[Ch16]) {
        let count = dst.len().min(by.len());
        for k in 0..count / 16 {
            lanes::add_block(&mut dst[16 * k..16 * k + 16], &by[16 * k..16 * k + 16]);
        }
        for i in count / 16 * 16..count {
            dst[i] = dst[i] + by[i];
        }
    }

    #[inline(always)]
    fn complement16(plane: [Ch16; 16]) -> [Ch16; 16]
        ensures { map (λ x. x.value) result ≡ map (λ x. 65535 - x) (map (λ x. x.value) plane) }
    {
        let p = &plane[..];
        [
            Ch16 { value: !p[0].value },
            Ch16 { value: !p[1].value },
            Ch16 { value: !p[2].value },
            Ch16 { value: !p[3].value },
            Ch16 { value: !p[4].value },
            Ch16 { value: !p[5].value },
            Ch16 { value: !p[6].value },
            Ch16 { value: !p[7].value },
            Ch16 { value: !p[8].value },
            Ch16 { value: !p[9].value },
            Ch16 {
                value: !p[10].value,
            },
            Ch16 {
                value: !p[11].value,
            },
            Ch16 {
                value: !p[12].value,
            },
            Ch16 {
                value: !p[13].value,
            },
            Ch16 {
                value: !p[14].value,
            },
            Ch16 {
                value: !p[15].value,
            },
        ]
    }

    #[inline(always)]
    fn complement32(plane: [Ch16; 32]) -> [Ch16; 32]
        ensures { map (λ x. x.value) result ≡ map (λ x. 65535 - x) (map (λ x. x.value) plane) }
    {
        let mut own = plane;
        for i in 0..32 {
            own[i] = Ch16 {
                value: !plane[i].value,
            };
        }
        own
    }

    #[inline(always)]
    fn alphas4(pixels: [Ch16; 16]) -> [Ch16; 16]
        ensures { map (λ x. x.value) result ≡ last_of_four (map (λ x. x.value) pixels) }
    {
        lanes::channels(lanes::spread(lanes::units(&pixels)))
    }

    #[inline(always)]
    fn unmultiplied4(pixels: [Ch16; 16]) -> [Ch16; 16]
        ensures { map (λ x. x.value) result ≡ with_alphas
            (zip2 (channel_quotient 65535) (map (λ x. x.value) pixels)
            (last_of_four (map (λ x. x.value) pixels))) (map (λ x. x.value) pixels) }
    {
        lanes::channels(unmultiplied(lanes::units(&pixels)))
    }

    #[inline(always)]
    fn alphas8(pixels: [Ch16; 32]) -> [Ch16; 32]
        ensures { map (λ x. x.value) result ≡ last_of_four (map (λ x. x.value) pixels) }
    {
        let p = &pixels[..];
        let first = lanes::channels(lanes::spread(lanes::units(&p[..16])));
        let second = lanes::channels(lanes::spread(lanes::units(&p[16..32])));
        let mut own = pixels;
        let to = &mut own[..];
        lanes::store(&mut to[..16], first);
        lanes::store(&mut to[16..32], second);
        own
    }

    #[inline(always)]
    fn alphas16(pixels: [Ch16; 32]) -> [Ch16; 32]
        ensures { map (λ x. x.value) result ≡ last_of_two (map (λ x. x.value) pixels) }
    {
        let p = &pixels[..];
        let first = lanes::channels(lanes::twice_last(lanes::units(&p[..16])));
        let second = lanes::channels(lanes::twice_last(lanes::units(&p[16..32])));
        let mut own = pixels;
        let to = &mut own[..];
        lanes::store(&mut to[..16], first);
        lanes::store(&mut to[16..32], second);
        own
    }

    #[inline(always)]
    fn split4(
        a: [Ch16; 16],
        b: [Ch16; 16],
        c: [Ch16; 16],
        d: [Ch16; 16],
    ) -> ([Ch16; 16], [Ch16; 16], [Ch16; 16], [Ch16; 16])
        ensures { in_turn (map (λ x. x.value) result.0) (map (λ x. x.value) result.1)
            (map (λ x. x.value) result.2) (map (λ x. x.value) result.3)
            ≡ (map (λ x. x.value) a ++ map (λ x. x.value) b)
            ++ (map (λ x. x.value) c ++ map (λ x. x.value) d) }
    {
        let (first_low, second_low) = Ch16::split2(a, b);
        let (first_high, second_high) = Ch16::split2(c, d);
        let (one, three) = Ch16::split2(first_low, first_high);
        let (two, four) = Ch16::split2(second_low, second_high);
        (one, two, three, four)
    }

    #[inline(always)]
    fn join4(
        one: [Ch16; 16],
        two: [Ch16; 16],
        three: [Ch16; 16],
        four: [Ch16; 16],
    ) -> ([Ch16; 16], [Ch16; 16], [Ch16; 16], [Ch16; 16])
        ensures { (map (λ x. x.value) result.0 ++ map (λ x. x.value) result.1)
            ++ (map (λ x. x.value) result.2 ++ map (λ x. x.value) result.3)
            ≡ in_turn (map (λ x. x.value) one) (map (λ x. x.value) two)
            (map (λ x. x.value) three) (map (λ x. x.value) four) }
    {
        let (first_low, first_high) = Ch16::join2(one, three);
        let (second_low, second_high) = Ch16::join2(two, four);
        let (a, b) = Ch16::join2(first_low, second_low);
        let (c, d) = Ch16::join2(first_high, second_high);
        (a, b, c, d)
    }

    #[inline(always)]
    fn split2(a: [Ch16; 16], b: [Ch16; 16]) -> ([Ch16; 16], [Ch16; 16])
        ensures { both_in_turn (map (λ x. x.value) result.0) (map (λ x. x.value) result.1)
            ≡ map (λ x. x.value) a ++ map (λ x. x.value) b }
    {
        (planes::evens(&a, &b), planes::odds(&a, &b))
    }

    #[inline(always)]
    fn join2(one: [Ch16; 16], two: [Ch16; 16]) -> ([Ch16; 16], [Ch16; 16])
        ensures { map (λ x. x.value) result.0 ++ map (λ x. x.value) result.1
            ≡ both_in_turn (map (λ x. x.value) one) (map (λ x. x.value) two) }
    {
        let one = &one[..];
        let two = &two[..];
        (
            planes::both(&one[..8], &two[..8]),
            planes::both(&one[8..16], &two[8..16]),
        )
    }

    ghost wide = { lit< tt };

    ghost numbered = { ch16_numbered };

    ghost min_is_zero = { refl };

    ghost mid_is_half = { refl };

    ghost max_is_maximum = { refl };

    ghost default_is_min = { λ x h. h };

    ghost orders = { λ x y. refl };

    ghost clones = { λ x y h. h };

    ghost clones_always = { λ x. tt };

    ghost equals = { λ x y. refl };

    ghost can_sum = { λ _ _. tt };

    ghost sums = { answers_itself (λ c. c.value) (saturating_sum 65535) };

    ghost can_differ = { λ _ _. tt };

    ghost differs = { answers_itself (λ c. c.value) saturating_difference };

    ghost can_multiply = { λ _ _. tt };

    ghost multiplies = { answers_itself (λ c. c.value) (channel_product 65535) };

    ghost can_divide = { λ _ _. tt };

    ghost divides = { answers_itself (λ c. c.value) (channel_quotient 65535) };

    ghost product_law = { product_laws 65535 (lit< tt) };

    ghost small = { Prim.search rules };

    ghost laws = { channel_laws 65535 (lit< tt) depth_of_sixteen };

    ghost sealed = { seal };
}
