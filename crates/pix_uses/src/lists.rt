//! Lists of commands.
ghost use Rattle.std.specs.Prelude.{◌≡◌, ◌+◌, ◌<◌, ◌≤◌, ℕ, pos, true};
ghost use Rattle.std.specs.Prelude.{[], ◌∷◌, length, All};
ghost use Rattle.pix_ops.specs.declared.ops.Op.{Op};
ghost use Rattle.pix_ops.specs.ExactRun.{exact_run, AreWithin, IsUnmatted, HasConstantSource};
ghost use Rattle.pix.specs.Image.{point};
ghost use Rattle.pix.specs.Region.{covers, limit};
ghost use Rattle.pix.specs.Run.{Composited};
ghost use Rattle.pix.specs.Window.{IsPartOf};
ghost use Rattle.pix.specs.Bounds.{OfEachChannel, channel_effects, with_alpha};
ghost use Rattle.pix_uses.specs.Rgba.{rgba8, numbers, mattes};

use pix::matte::Matte8;
use pix::ops::Op;
use pix::rgb::Rgba8p;
use pix::{Command, Raster, Region};

/// Draws a list of commands.
pub fn draw(picture: &mut Raster<Rgba8p>, commands: &[Command<'_, Rgba8p, Matte8>])
    ensures { OfEachChannel rgba8 numbers mattes commands.now picture.old picture.new
        (λ start effects made. All IsUnmatted effects → All HasConstantSource effects
        → AreWithin (length effects) (length effects) made (exact_run 255 start effects)) }
{
    picture.run(commands);
}

/// Draws a list of commands on a picture, and on a tile of it that lies in memory by itself: it
/// stays that part of the picture.
pub fn draw_with_tile(
    picture: &mut Raster<Rgba8p>,
    tile: &mut Raster<Rgba8p>,
    left: u32,
    top: u32,
    commands: &[Command<'_, Rgba8p, Matte8>],
)
    requires across { left + tile.old.width ≤ limit }
    requires down { top + tile.old.height ≤ limit }
    ensures { IsPartOf numbers tile.old left top picture.old
        → IsPartOf numbers tile.new left top picture.new }
{
    picture.run(commands);
    tile.run_window(left, top, commands);
}

/// Composites two colors over a region, one after the other.
pub fn glaze_twice(picture: &mut Raster<Rgba8p>, reg: Region, first: Rgba8p, second: Rgba8p)
    ensures { (x y ch : ℕ) → x < picture.old.width → y < picture.old.height → ch < 4
        → covers reg (pos x) (pos y) ≡ true
        → AreWithin 2 2 (with_alpha rgba8 ch (point numbers picture.new x y))
        (exact_run 255 (with_alpha rgba8 ch (point numbers picture.old x y))
        (channel_effects rgba8 ch
        (Composited Op.SrcOver (numbers first) ∷ Composited Op.SrcOver (numbers second) ∷ []))) }
{
    let commands: [Command<'_, Rgba8p, Matte8>; 2] = [
        Command::Color {
            reg,
            clr: first,
            op: Op::SrcOver,
        },
        Command::Color {
            reg,
            clr: second,
            op: Op::SrcOver,
        },
    ];
    picture.run(&commands);
}
