//! Lists worked out by hand, with their exact fractions and their rounding budgets.
ghost use Rattle.std.specs.Prelude.{◌≤◌};

use crate::exact::{Budget, Exact, Point};
use crate::lists::{Kind, Sources, Step, run_list};
use crate::pictures::rgba;
use pix::RasterFault;
use pix::ops::Op;
use std::alloc::Global;
use std::process::Abort;
use std::test::Fail;

/// A command on both points of a raster of one row.
fn step(kind: Kind, op: Op, color: [u8; 4]) -> Step {
    Step {
        kind,
        op,
        color,
        to: 0,
        to_width: 2,
        from: 0,
        from_width: 2,
    }
}

/// The command that composites a color.
fn paint(op: Op, color: [u8; 4]) -> Step {
    step(Kind::Color, op, color)
}

/// The first commands of a list on one color, perhaps through a matte value, and what it makes: a
/// pixel, its exact fractions, and the budgets of a channel, of the alpha, and of premultiplied
/// sources.
#[derive(Clone, Copy)]
struct Worked {
    before: [u8; 4],
    matte: u8,
    steps: [Step; 6],
    count: usize,
    after: [u8; 4],
    channels: [u128; 4],
    weight: u128,
    budget: (u128, u128, u128),
}

/// Asserts that a list makes what it has to, and returns its exact run.
fn assert_worked(rt: &impl Abort, alloc: Global, list: Worked) -> Result<Point, RasterFault>
    requires { list.count ≤ 6 }
{
    let sources = Sources {
        pixels: [[0; 4]; 2],
        mattes: [list.matte; 2],
    };
    let [(pixel, point), _] = run_list(
        rt,
        alloc,
        [list.before; 2],
        &sources,
        list.steps,
        list.count,
        true,
    )?;
    assert_eq!(rt; pixel, rgba(list.after));
    let (alpha, weight) = (list.channels[3], list.weight);
    let exact = list.channels.map(|channel: u128| Exact {
        channel,
        alpha,
        weight,
    });
    assert_eq!(rt; point.channels, exact);
    let (channel, alpha, premultiplied) = list.budget;
    let budget = Budget {
        channel,
        alpha,
        premultiplied,
    };
    assert_eq!(rt; point.budget, budget);
    Ok(point)
}

/// Four errors of nearly half a unit, all downwards: 128 * 254 / 255 is 127 + 127/255, which is
/// rounded to 127, and 1 is added. In fractions each step leaves 254/255 of the distance to the
/// maximum, so that 255 - 127 * (254/255)^4 units remain, which is 549589998863 / 4228250625. Twice
/// the distance is then 99.02 percent of the budget of 4.
#[test]
fn errors_that_nearly_reach_their_budget(rt: HostRuntime) -> Result<(), Fail> {
    let list = Worked {
        before: [128; 4],
        matte: 0,
        steps: [paint(Op::SrcOver, [1; 4]); 6],
        count: 4,
        after: [128; 4],
        channels: [549589998863; 4],
        weight: 4228250625,
        budget: (4, 4, 8),
    };
    let point = assert_worked(&rt, rt.alloc(), list)?;
    let twice = point.channels[0].twice_distance(128);
    assert_eq!(rt; twice, 16747837726);
    let whole = 4 * 4228250625_u128;
    assert!(rt; twice.saturating_mul(100) >= whole.saturating_mul(99));
    assert!(rt; twice < whole);
    Ok(())
}

/// Three transparent colors leave a faint one: 5 is 82906875 / 16581375.
#[test]
fn a_faint_color_under_three(rt: HostRuntime) -> Result<(), Fail> {
    let list = Worked {
        before: [5; 4],
        matte: 0,
        steps: [paint(Op::SrcOver, [0; 4]); 6],
        count: 3,
        after: [5; 4],
        channels: [82906875; 4],
        weight: 16581375,
        budget: (3, 3, 6),
    };
    let point = assert_worked(&rt, rt.alloc(), list)?;
    assert_eq!(rt; point.channels[0].twice_distance(5), 0);
    Ok(())
}

/// Transparent colors leave a faint one, and an opaque one within it is as faint.
#[test]
fn a_faint_color_stays(rt: HostRuntime) -> Result<(), Fail> {
    let clear = paint(Op::SrcOver, [0; 4]);
    let within = paint(Op::SrcIn, [255; 4]);
    let list = Worked {
        before: [5; 4],
        matte: 0,
        steps: [clear, clear, clear, within, within, within],
        count: 4,
        after: [5; 4],
        channels: [5 * 255 * 255 * 255 * 255; 4],
        weight: 255 * 255 * 255 * 255,
        budget: (4, 4, 8),
    };
    let point = assert_worked(&rt, rt.alloc(), list)?;
    assert_eq!(rt; point.channels[3].twice_distance(5), 0);
    Ok(())
}

/// The bound of premultiplied sources holds whatever the destination is: here a channel of it
/// passes the alpha. With four operators that read the destination's alpha this bound of 16 is the
/// smaller one: the budget of the channels is 20.
#[test]
fn premultiplied_sources_over_a_destination_that_is_not(rt: HostRuntime) -> Result<(), Fail> {
    let last = paint(Op::DestAtop, [180, 0, 195, 195]);
    let list = Worked {
        before: [182, 0, 40, 79],
        matte: 0,
        steps: [
            paint(Op::DestAtop, [142, 10, 188, 188]),
            paint(Op::Xor, [6, 0, 17, 17]),
            paint(Op::Xor, [69, 75, 1, 75]),
            last,
            last,
            last,
        ],
        count: 4,
        after: [211, 21, 164, 195],
        channels: [879990003450, 86090384250, 692822949975, 824508871875],
        weight: 4228250625,
        budget: (20, 8, 16),
    };
    assert_worked(&rt, rt.alloc(), list)?;
    Ok(())
}

/// Through a matte three products are rounded. A copy is exact and sets the budgets to 0; the bound
/// of premultiplied sources keeps what it was.
#[test]
fn a_matted_and_a_copied_color(rt: HostRuntime) -> Result<(), Fail> {
    let matted = step(Kind::Matte, Op::SrcOver, [0, 0x80, 0, 0x80]);
    let copied = step(Kind::CopyColor, Op::Src, [1, 2, 3, 4]);
    let list = Worked {
        before: [0x80, 0, 0, 0x80],
        matte: 0x80,
        steps: [matted, copied, copied, copied, copied, copied],
        count: 1,
        after: [96, 64, 0, 160],
        channels: [6226048, 4177920, 0, 10403968],
        weight: 255 * 255,
        budget: (3, 3, 6),
    };
    assert_worked(&rt, rt.alloc(), list)?;
    let copy = Worked {
        count: 2,
        after: [1, 2, 3, 4],
        channels: [1, 2, 3, 4],
        weight: 1,
        budget: (0, 0, 6),
        ..list
    };
    assert_worked(&rt, rt.alloc(), copy)?;
    Ok(())
}

/// `Src` through a matte rounds one product of each channel: 128 * 128 / 255 is 64 + 64/255. After
/// a copy of a color the budgets are 0, and the bound of premultiplied sources stays 2.
#[test]
fn a_matted_source_and_a_copied_color(rt: HostRuntime) -> Result<(), Fail> {
    let matted = step(Kind::Matte, Op::Src, [0, 0x80, 0, 0x80]);
    let copied = step(Kind::CopyColor, Op::Src, [1, 2, 3, 4]);
    let list = Worked {
        before: [9, 8, 7, 10],
        matte: 0x80,
        steps: [matted, copied, copied, copied, copied, copied],
        count: 1,
        after: [0, 64, 0, 64],
        channels: [0, 4177920, 0, 4177920],
        weight: 65025,
        budget: (1, 1, 2),
    };
    assert_worked(&rt, rt.alloc(), list)?;
    let copy = Worked {
        count: 2,
        after: [1, 2, 3, 4],
        channels: [1, 2, 3, 4],
        weight: 1,
        budget: (0, 0, 2),
        ..list
    };
    assert_worked(&rt, rt.alloc(), copy)?;
    Ok(())
}
