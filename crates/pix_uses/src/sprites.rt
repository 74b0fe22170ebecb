//! Sprites and glyphs.
ghost use Rattle.std.specs.Prelude.{◌≡◌, ℕ, pos, ◌+ℤ◌, true, false};
ghost use Rattle.pix_ops.specs.declared.ops.Op.{Op};
ghost use Rattle.pix_el.specs.PixelComposite.{pixel_composite, matted_composite, matte_value};
ghost use Rattle.pix.specs.Image.{point};
ghost use Rattle.pix.specs.Region.{covers};
ghost use Rattle.pix_uses.specs.Pictures.{has_point, placed_at};
ghost use Rattle.pix_uses.specs.Rgba.{rgba8, numbers, mattes};

use pix::matte::Matte8;
use pix::ops::SrcOver;
use pix::rgb::Rgba8p;
use pix::{Raster, Region};

/// Composites a sprite over a picture, with its corner at (x, y); any part of it may lie outside.
pub fn paste(picture: &mut Raster<Rgba8p>, sprite: &Raster<Rgba8p>, x: i32, y: i32)
    ensures width { picture.new.width ≡ picture.old.width }
    ensures height { picture.new.height ≡ picture.old.height }
    ensures pasted { (column row i j : ℕ) → has_point picture.old column row ≡ true
        → has_point sprite.now i j ≡ true
        → pos column ≡ x +ℤ pos i → pos row ≡ y +ℤ pos j
        → point numbers picture.new column row ≡ pixel_composite rgba8 Op.SrcOver
        (point numbers sprite.now i j) (point numbers picture.old column row) }
    ensures stays { (column row : ℕ) → has_point picture.old column row ≡ true
        → covers (placed_at x y sprite.now) (pos column) (pos row) ≡ false
        → point numbers picture.new column row ≡ point numbers picture.old column row }
{
    picture.composite_raster(Region::from((x, y)), sprite, Region::from(()), SrcOver);
}

/// Composites a sprite at one opacity over a picture, with its corner at (x, y): so a sprite fades.
pub fn fade(picture: &mut Raster<Rgba8p>, sprite: &Raster<Rgba8p>, x: i32, y: i32, opacity: Matte8)
    ensures width { picture.new.width ≡ picture.old.width }
    ensures height { picture.new.height ≡ picture.old.height }
    ensures faded { (column row i j : ℕ) → has_point picture.old column row ≡ true
        → has_point sprite.now i j ≡ true
        → pos column ≡ x +ℤ pos i → pos row ≡ y +ℤ pos j
        → point numbers picture.new column row ≡ matted_composite rgba8 Op.SrcOver
        (matte_value rgba8 (mattes opacity)) (point numbers sprite.now i j)
        (point numbers picture.old column row) }
    ensures stays { (column row : ℕ) → has_point picture.old column row ≡ true
        → covers (placed_at x y sprite.now) (pos column) (pos row) ≡ false
        → point numbers picture.new column row ≡ point numbers picture.old column row }
{
    let (to, all) = (Region::from((x, y)), Region::from(()));
    picture.composite_raster_alpha(to, sprite, all, opacity, SrcOver);
}

/// Draws a glyph in one color, with its corner at (x, y): its coverage mask is a raster of mattes.
pub fn draw_glyph(picture: &mut Raster<Rgba8p>, glyph: &Raster<Matte8>, x: i32, y: i32, ink: Rgba8p)
    ensures width { picture.new.width ≡ picture.old.width }
    ensures height { picture.new.height ≡ picture.old.height }
    ensures drawn { (column row i j : ℕ) → has_point picture.old column row ≡ true
        → has_point glyph.now i j ≡ true
        → pos column ≡ x +ℤ pos i → pos row ≡ y +ℤ pos j
        → point numbers picture.new column row ≡ matted_composite rgba8 Op.SrcOver
        (matte_value rgba8 (point mattes glyph.now i j)) (numbers ink)
        (point numbers picture.old column row) }
    ensures stays { (column row : ℕ) → has_point picture.old column row ≡ true
        → covers (placed_at x y glyph.now) (pos column) (pos row) ≡ false
        → point numbers picture.new column row ≡ point numbers picture.old column row }
{
    picture.composite_matte(Region::from((x, y)), glyph, Region::from(()), ink, SrcOver);
}
