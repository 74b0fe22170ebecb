//! Lists of up to six commands on rasters of one row, in plain numbers, run and compared with their
//! exact runs.
ghost use Rattle.std.specs.Prelude.{◌≤◌};

use crate::exact::Point;
use crate::pictures::{matte, picture, rgba};
use pix::matte::Matte8;
use pix::ops::Op;
use pix::rgb::Rgba8p;
use pix::{Command, Raster, RasterFault, Region};
use std::alloc::Global;
use std::process::Abort;

/// The kinds of commands.
#[derive(Clone, Copy)]
pub(crate) enum Kind {
    Clear,
    CopyColor,
    CopyRaster,
    Color,
    Raster,
    Matte,
}

/// A command on a raster of one row, in plain numbers: its regions are columns of that row.
#[derive(Clone, Copy)]
pub(crate) struct Step {
    pub(crate) kind: Kind,
    pub(crate) op: Op,
    pub(crate) color: [u8; 4],
    pub(crate) to: i32,
    pub(crate) to_width: u32,
    pub(crate) from: i32,
    pub(crate) from_width: u32,
}

/// The pixels and matte values that the commands of a list read.
#[derive(Clone, Copy)]
pub(crate) struct Sources {
    pub(crate) pixels: [[u8; 4]; 2],
    pub(crate) mattes: [u8; 2],
}

impl Step {
    /// The command itself.
    fn command<'a>(
        self,
        pixels: &'a Raster<Rgba8p>,
        mattes: &'a Raster<Matte8>,
    ) -> Command<'a, Rgba8p, Matte8> {
        let to = Region::from((self.to, 0, self.to_width, 1));
        let from = Region::from((self.from, 0, self.from_width, 1));
        let clr = rgba(self.color);
        let op = self.op;
        match self.kind {
            Kind::Clear => Command::Clear,
            Kind::CopyColor => Command::CopyColor { reg: to, clr },
            Kind::CopyRaster => Command::CopyRaster {
                to,
                src: pixels,
                from,
            },
            Kind::Color => Command::Color { reg: to, clr, op },
            Kind::Raster => Command::Raster {
                to,
                src: pixels,
                from,
                op,
            },
            Kind::Matte => Command::Matte {
                to,
                src: mattes,
                from,
                clr,
                op,
            },
        }
    }

    /// The offset of a column in the destination region, or `None` outside.
    fn offset(self, column: i32) -> Option<i32> {
        let offset = column.wrapping_sub(self.to);
        if 0 <= offset && i64::from(offset) < i64::from(self.to_width) {
            Some(offset)
        } else {
            None
        }
    }

    /// The column of the source that is paired with a column, or `None` where there is none.
    fn paired(self, column: i32) -> Option<usize> {
        let offset = self.offset(column)?;
        let source = self.from.wrapping_add(offset);
        if i64::from(offset) < i64::from(self.from_width) && 0 <= source {
            Some(source as usize)
        } else {
            None
        }
    }

    /// The point of a column after the command.
    fn applied(self, point: Point, column: i32, sources: &Sources) -> Point {
        let pixel = match self.kind {
            Kind::CopyRaster | Kind::Raster => self
                .paired(column)
                .and_then(|i| sources.pixels.get(i).copied()),
            Kind::Clear => Some([0; 4]),
            Kind::CopyColor | Kind::Color | Kind::Matte => self.offset(column).map(|_| self.color),
        };
        let Some(pixel) = pixel else {
            return point;
        };
        match self.kind {
            Kind::Clear | Kind::CopyColor | Kind::CopyRaster => point.copied(pixel),
            Kind::Color | Kind::Raster => point.composited(self.op, pixel, None),
            Kind::Matte => match self
                .paired(column)
                .and_then(|i| sources.mattes.get(i).copied())
            {
                Some(matte) => point.composited(self.op, pixel, Some(matte)),
                None => point,
            },
        }
    }
}

/// Runs the first commands of a list on a raster of two points, and asserts that each is within the
/// budgets of its exact run. Returns the pixels and the exact runs.
pub(crate) fn run_list(
    rt: &impl Abort,
    alloc: Global,
    before: [[u8; 4]; 2],
    sources: &Sources,
    steps: [Step; 6],
    count: usize,
    are_sources_premultiplied: bool,
) -> Result<[(Rgba8p, Point); 2], RasterFault>
    requires { count ≤ 6 }
{
    let [mut left, mut right] = before.map(Point::of);
    for step in &steps[..count] {
        left = step.applied(left, 0, sources);
        right = step.applied(right, 1, sources);
    }
    let pixels = picture(alloc, 2, 1, &sources.pixels.map(rgba))?;
    let mattes = picture(alloc, 2, 1, &sources.mattes.map(matte))?;
    let mut raster = picture(alloc, 2, 1, &before.map(rgba))?;
    let commands = steps.map(|step| step.command(&pixels, &mattes));
    raster.run(&commands[..count]);
    let (first, second) = (raster.pixel(0, 0), raster.pixel(1, 0));
    left.assert_within(rt, first, are_sources_premultiplied);
    right.assert_within(rt, second, are_sources_premultiplied);
    Ok([(first, left), (second, right)])
}
