//! Colors on a picture.
ghost use Rattle.std.specs.Prelude.{◌≡◌, ◌<◌, ◌≤◌, ◌+◌, ℕ, pos};
ghost use Rattle.std.specs.Prelude.{true, false, IfOk, IfErr};
ghost use Rattle.pix_ops.specs.declared.ops.Op.{Op};
ghost use Rattle.pix_el.specs.PixelComposite.{pixel_composite};
ghost use Rattle.pix.specs.Image.{point};
ghost use Rattle.pix.specs.Region.{limit, covers};
ghost use Rattle.pix_raster.specs.declared.fault.RasterFault.{RasterFault};
ghost use Rattle.pix_uses.specs.Rgba.{rgba8, numbers};

use pix::chan::{Linear, Premultiplied};
use pix::el::Pixel;
use pix::ops::SrcOver;
use pix::rgb::Rgba8p;
use pix::{Raster, RasterFault, Region};
use std::alloc::Global;

/// Makes a sky with a sun in it.
pub fn sunrise(alloc: Global, sky: Rgba8p, sun: Rgba8p) -> Result<Raster<Rgba8p>, RasterFault>
    ensures size { IfOk result (λ picture. (picture.width ≡ 32) × (picture.height ≡ 16)) }
    ensures memory { IfErr result (λ fault. fault ≡ RasterFault.Memory) }
{
    let mut picture = Raster::with_color(alloc, 32, 16, sky)?;
    picture.composite_color(Region::new(20, 2, 6, 6), sun, SrcOver);
    Ok(picture)
}

/// Composites a color over a region.
///
/// Condition: the format has an alpha channel.
pub fn tint<P: Pixel<Alpha = Premultiplied, Gamma = Linear>>(
    picture: &mut Raster<P>,
    reg: Region,
    clr: P,
)
    requires has_alpha { P.layout.count ≡ P.layout.alpha + 1 }
    ensures width { picture.new.width ≡ picture.old.width }
    ensures height { picture.new.height ≡ picture.old.height }
    ensures inside { (x y : ℕ) → x < picture.old.width → y < picture.old.height
        → covers reg (pos x) (pos y) ≡ true
        → point P.numbers picture.new x y
        ≡ pixel_composite P.layout Op.SrcOver (P.numbers clr) (point P.numbers picture.old x y) }
    ensures outside { (x y : ℕ) → x < picture.old.width → y < picture.old.height
        → covers reg (pos x) (pos y) ≡ false
        → point P.numbers picture.new x y ≡ point P.numbers picture.old x y }
{
    picture.composite_color(reg, clr, SrcOver);
}

/// Makes a small picture of one color, composites another over a part, and reads a pixel of it.
pub fn glazed(alloc: Global, ground: Rgba8p, glaze: Rgba8p) -> Result<Rgba8p, RasterFault>
    ensures memory { IfErr result (λ fault. fault ≡ RasterFault.Memory) }
    ensures pixel { IfOk result (λ pixel. numbers pixel
        ≡ pixel_composite rgba8 Op.SrcOver (numbers glaze) (numbers ground)) }
{
    let mut picture = Raster::with_color(alloc, 4, 3, ground)?;
    picture.composite_color(Region::new(1, 1, 2, 1), glaze, SrcOver);
    Ok(picture.pixel(2, 1))
}

/// Composites a color over the rows above row `end`.
pub fn tint_top(picture: &mut Raster<Rgba8p>, end: u32, clr: Rgba8p)
    requires { end ≤ limit }
    ensures width { picture.new.width ≡ picture.old.width }
    ensures height { picture.new.height ≡ picture.old.height }
    ensures above { (x y : ℕ) → x < picture.old.width → y < picture.old.height → y < end →
        point numbers picture.new x y
        ≡ pixel_composite rgba8 Op.SrcOver (numbers clr) (point numbers picture.old x y) }
    ensures below { (x y : ℕ) → x < picture.old.width →
        y < picture.old.height → end ≤ y →
        point numbers picture.new x y ≡ point numbers picture.old x y }
{
    let width = picture.width();
    tint(picture, Region::new(0, 0, width, end), clr);
}
