//! Every operator on every channel of a grid.
ghost use Rattle.std.specs.Prelude.{◌<◌};

use pix::chan::{Ch8, Channel};
use pix::ops::Op;

/// The coefficient of one side of a composite: `Alpha` and `OneMinusAlpha` use the other side's
/// alpha.
#[derive(Clone, Copy)]
pub(crate) enum Coefficient {
    Zero,
    One,
    Alpha,
    OneMinusAlpha,
}

/// Each operator with the coefficients of its source and of its destination.
pub(crate) const TABLE: [(Op, Coefficient, Coefficient); 13] = [
    (Op::Src, Coefficient::One, Coefficient::Zero),
    (Op::Dest, Coefficient::Zero, Coefficient::One),
    (Op::SrcOver, Coefficient::One, Coefficient::OneMinusAlpha),
    (Op::DestOver, Coefficient::OneMinusAlpha, Coefficient::One),
    (Op::SrcOut, Coefficient::OneMinusAlpha, Coefficient::Zero),
    (Op::DestOut, Coefficient::Zero, Coefficient::OneMinusAlpha),
    (Op::SrcIn, Coefficient::Alpha, Coefficient::Zero),
    (Op::DestIn, Coefficient::Zero, Coefficient::Alpha),
    (Op::SrcAtop, Coefficient::Alpha, Coefficient::OneMinusAlpha),
    (Op::DestAtop, Coefficient::OneMinusAlpha, Coefficient::Alpha),
    (
        Op::Xor,
        Coefficient::OneMinusAlpha,
        Coefficient::OneMinusAlpha,
    ),
    (Op::Clear, Coefficient::Zero, Coefficient::Zero),
    (Op::Plus, Coefficient::One, Coefficient::One),
];

/// The product of two channels: `channel * alpha / 255`, rounded to the nearest.
fn product(channel: u8, alpha: u8) -> u32
    ensures { result < 256 }
{
    (2 * u32::from(channel) * u32::from(alpha) + 255) / 510
}

/// A channel times its coefficient, where `alpha` is the other side's.
fn term(coefficient: Coefficient, channel: u8, alpha: u8) -> u32
    ensures { result < 256 }
{
    match coefficient {
        Coefficient::Zero => 0,
        Coefficient::One => u32::from(channel),
        Coefficient::Alpha => product(channel, alpha),
        Coefficient::OneMinusAlpha => product(channel, 255 - alpha),
    }
}

#[test]
fn every_operator_on_a_grid(rt: HostRuntime) {
    let grid = [0, 1, 15, 16, 17, 127, 128, 254, 255];
    for (op, source, dest) in TABLE {
        for s in grid {
            for sa in grid {
                for d in grid {
                    for da in grid {
                        let mut channel = Ch8::new(d);
                        let da1 = Ch8::new(255 - da);
                        let sa1 = Ch8::new(255 - sa);
                        op.composite(&mut channel, da1, &Ch8::new(s), sa1);
                        let sum = term(source, s, da) + term(dest, d, sa);
                        let want = sum.min(255);
                        assert_eq!(rt; channel.to_u32(), want, "{op:?} {s} {sa} {d} {da}");
                    }
                }
            }
        }
    }
}
