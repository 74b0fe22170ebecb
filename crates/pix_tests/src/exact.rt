//! The exact run of a pixel in fractions, never rounded, with the rounding budgets that go with it.
//!
//! The exact run of six commands needs fewer than 128 bits, so that no operation on `u128` below
//! saturates.
ghost use Rattle.std.specs.Prelude.{◌<◌};

use crate::operators::{Coefficient, TABLE};
use pix::chan::Channel;
use pix::el::Pixel;
use pix::ops::Op;
use pix::rgb::Rgba8p;
use std::process::Abort;

/// The maximum of a channel.
const MAX: u128 = 255;

/// One channel and the alpha of its pixel as exact fractions: `channel` / `weight` and `alpha` /
/// `weight` units.
#[derive(Clone, Copy, Debug, PartialEq, Eq)]
pub(crate) struct Exact {
    pub(crate) channel: u128,
    pub(crate) alpha: u128,
    pub(crate) weight: u128,
}

/// The rounding budgets of a channel and of the alpha, in half units. `premultiplied` is the bound
/// of any channel where no source passes its alpha.
#[derive(Clone, Copy, Debug, PartialEq, Eq)]
pub(crate) struct Budget {
    pub(crate) channel: u128,
    pub(crate) alpha: u128,
    pub(crate) premultiplied: u128,
}

/// The exact run of a pixel so far, with its budgets.
#[derive(Clone, Copy, Debug)]
pub(crate) struct Point {
    pub(crate) channels: [Exact; 4],
    pub(crate) budget: Budget,
}

/// A coefficient as a part of `whole`, where the other side's alpha is `part` of it.
fn weighted(coefficient: Coefficient, whole: u128, part: u128) -> u128 {
    match coefficient {
        Coefficient::Zero => 0,
        Coefficient::One => whole,
        Coefficient::Alpha => part,
        Coefficient::OneMinusAlpha => whole.saturating_sub(part),
    }
}

/// The coefficients of source and destination of an operator.
fn coefficients(op: Op) -> (Coefficient, Coefficient) {
    for (row, source, dest) in TABLE {
        if row == op {
            return (source, dest);
        }
    }
    (Coefficient::Zero, Coefficient::Zero)
}

/// The product count of one composite by an operator, without a matte and through one.
fn count(op: Op, matted: bool) -> u128
    ensures { result < 5 }
{
    let (unmatted, through_matte) = match op {
        Op::Dest | Op::Clear => (0, 0),
        Op::Src | Op::Plus => (0, 1),
        Op::DestOver | Op::SrcOut | Op::SrcIn | Op::DestOut | Op::DestIn => (1, 2),
        Op::SrcOver => (1, 3),
        Op::SrcAtop | Op::DestAtop | Op::Xor => (2, 4),
    };
    if matted { through_matte } else { unmatted }
}

impl Exact {
    /// The channel of a pixel before any command.
    pub(crate) fn of(channel: u8, alpha: u8) -> Exact {
        Exact {
            channel: u128::from(channel),
            alpha: u128::from(alpha),
            weight: 1,
        }
    }

    /// The fractions after a composite with a channel of a color, perhaps through a matte.
    fn composited(self, op: Op, channel: u8, alpha: u8, matte: Option<u8>) -> Exact {
        let (source_part, dest_part) = coefficients(op);
        let unit = u128::from(matte.unwrap_or(1));
        let source = u128::from(channel).saturating_mul(unit);
        let source_alpha = u128::from(alpha).saturating_mul(unit);
        let whole = if matte.is_some() { MAX * MAX } else { MAX };
        let full = MAX.saturating_mul(self.weight);
        let p = weighted(source_part, full, self.alpha);
        let q = weighted(dest_part, whole, source_alpha);
        let sum = |s: u128, d: u128| -> u128 {
            let both = s.saturating_mul(p).saturating_add(d.saturating_mul(q));
            both.min(whole.saturating_mul(full))
        };
        Exact {
            channel: sum(source, self.channel),
            alpha: sum(source_alpha, self.alpha),
            weight: whole.saturating_mul(self.weight),
        }
    }

    /// Twice the distance of a number of units from the exact channel, in units of 1 / `weight`.
    pub(crate) fn twice_distance(self, number: u128) -> u128 {
        let distance = number.saturating_mul(self.weight).abs_diff(self.channel);
        distance.saturating_mul(2)
    }

    /// Whether twice the distance of a number of units is within a budget.
    pub(crate) fn is_within(self, number: u128, budget: u128) -> bool {
        self.twice_distance(number) <= budget.saturating_mul(self.weight)
    }
}

impl Budget {
    /// The budget after a composite.
    fn spent(self, op: Op, matted: bool) -> Budget {
        let count = count(op, matted);
        let (source_part, dest_part) = coefficients(op);
        let of_channel = match dest_part {
            Coefficient::Zero => 0,
            Coefficient::One | Coefficient::Alpha | Coefficient::OneMinusAlpha => self.channel,
        };
        let of_alpha = match source_part {
            Coefficient::Zero | Coefficient::One => 0,
            Coefficient::Alpha | Coefficient::OneMinusAlpha => self.alpha,
        };
        let (channel, alpha) = match op {
            Op::Src | Op::Clear => (count, count),
            _ => (
                count.saturating_add(of_channel).saturating_add(of_alpha),
                count.saturating_add(self.alpha),
            ),
        };
        Budget {
            channel,
            alpha,
            premultiplied: self.premultiplied.saturating_add(2 * count),
        }
    }
}

impl Point {
    /// A pixel before any command: exact, with budgets of 0.
    pub(crate) fn of(pixel: [u8; 4]) -> Point {
        Point {
            channels: pixel.map(|channel| Exact::of(channel, pixel[3])),
            budget: Budget {
                channel: 0,
                alpha: 0,
                premultiplied: 0,
            },
        }
    }

    /// The point after a clear or a copy.
    pub(crate) fn copied(self, pixel: [u8; 4]) -> Point {
        let mut point = Point::of(pixel);
        point.budget.premultiplied = self.budget.premultiplied;
        point
    }

    /// The point after a composite with a color, perhaps through a matte.
    pub(crate) fn composited(self, op: Op, color: [u8; 4], matte: Option<u8>) -> Point {
        let mut point = self;
        for i in 0..4 {
            point.channels[i] = self.channels[i].composited(op, color[i], color[3], matte);
        }
        point.budget = self.budget.spent(op, matte.is_some());
        point
    }

    /// Asserts that each channel of a pixel is within its budget, and within the premultiplied
    /// bound where that is asked.
    pub(crate) fn assert_within(self, rt: &impl Abort, pixel: Rgba8p, premultiplied: bool) {
        for i in 0..4 {
            let number = u128::from(pixel.get(i).to_u32());
            let budget = if i == 3 {
                self.budget.alpha
            } else {
                self.budget.channel
            };
            assert!(rt;
                self.channels[i].is_within(number, budget),
                "{i}: {number} and {self:?}"
            );
            if premultiplied {
                let bound = self.budget.premultiplied;
                assert!(rt;
                    self.channels[i].is_within(number, bound),
                    "{i}: {number} and {self:?}"
                );
            }
        }
    }
}
