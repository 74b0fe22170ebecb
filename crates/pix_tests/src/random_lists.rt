//! Pseudorandom lists of commands, run on rasters and compared with their exact runs.
ghost use Rattle.std.specs.Prelude.{◌<◌};

use crate::lists::{Kind, Sources, Step, run_list};
use crate::operators::TABLE;
use pix::RasterFault;
use pix::el::Pixel;
use pix::rgb::Rgba8p;
use std::alloc::Global;
use std::process::Abort;
use std::test::Fail;

/// Pseudorandom numbers, the same in each run of the tests.
#[derive(Drop)]
struct Random {
    state: u64,
}

impl Random {
    /// The next number below a bound.
    fn below(&mut self, bound: u32) -> u32
        requires { 0 < bound }
        ensures { result < bound }
    {
        self.state = self
            .state
            .wrapping_mul(6364136223846793005)
            .wrapping_add(1442695040888963407);
        (self.state >> 33) as u32 % bound
    }

    /// A channel, every other time 0, the maximum or a number near them or the middle.
    fn channel(&mut self) -> u8 {
        match self.below(16) {
            0 => 0,
            1 => 1,
            2 => 127,
            3 => 128,
            4 => 254,
            5 | 6 | 7 => 255,
            _ => self.below(256) as u8,
        }
    }

    /// A pixel, premultiplied where that is asked: then no channel passes the alpha.
    fn pixel(&mut self, premultiplied: bool) -> [u8; 4] {
        let pixel = [
            self.channel(),
            self.channel(),
            self.channel(),
            self.channel(),
        ];
        if premultiplied {
            pixel.map(|channel| channel.min(pixel[3]))
        } else {
            pixel
        }
    }

    /// A command.
    fn step(&mut self, premultiplied: bool) -> Step {
        let kind = match self.below(16) {
            0 => Kind::Clear,
            1 => Kind::CopyColor,
            2 => Kind::CopyRaster,
            3 | 4 | 5 | 6 => Kind::Color,
            7 | 8 | 9 | 10 => Kind::Raster,
            _ => Kind::Matte,
        };
        let (op, _, _) = TABLE[self.below(13) as usize];
        Step {
            kind,
            op,
            color: self.pixel(premultiplied),
            to: self.below(3) as i32 - 1,
            to_width: self.below(4),
            from: self.below(3) as i32 - 1,
            from_width: self.below(4),
        }
    }

    /// Six commands.
    fn steps(&mut self, premultiplied: bool) -> [Step; 6] {
        [
            self.step(premultiplied),
            self.step(premultiplied),
            self.step(premultiplied),
            self.step(premultiplied),
            self.step(premultiplied),
            self.step(premultiplied),
        ]
    }
}

/// Asserts that no channel of a pixel passes its alpha.
fn assert_premultiplied(rt: &impl Abort, pixel: Rgba8p) {
    for channel in pixel.channels().iter() {
        assert!(rt; *channel <= pixel.alpha(), "{pixel:?}");
    }
}

/// Runs a list of up to six commands on a raster of two points, and compares each with its exact
/// run. The pixels of the raster and those of the sources are premultiplied where that is asked.
fn run_a_list(
    rt: &impl Abort,
    alloc: Global,
    random: &mut Random,
    is_raster_premultiplied: bool,
    are_sources_premultiplied: bool,
) -> Result<(), RasterFault> {
    let before = [
        random.pixel(is_raster_premultiplied),
        random.pixel(is_raster_premultiplied),
    ];
    let sources = Sources {
        pixels: [
            random.pixel(are_sources_premultiplied),
            random.pixel(are_sources_premultiplied),
        ],
        mattes: [random.channel(), random.channel()],
    };
    let steps = random.steps(are_sources_premultiplied);
    let count = random.below(7) as usize;
    let made = run_list(
        rt,
        alloc,
        before,
        &sources,
        steps,
        count,
        are_sources_premultiplied,
    )?;
    if is_raster_premultiplied && are_sources_premultiplied {
        for (pixel, _) in made {
            assert_premultiplied(rt, pixel);
        }
    }
    Ok(())
}

#[test]
fn random_lists_stay_within_their_budgets(rt: HostRuntime) -> Result<(), Fail> {
    let mut random = Random { state: 1 };
    for _ in 0..3500 {
        run_a_list(&rt, rt.alloc(), &mut random, true, true)?;
        run_a_list(&rt, rt.alloc(), &mut random, false, true)?;
        run_a_list(&rt, rt.alloc(), &mut random, false, false)?;
    }
    Ok(())
}
