//! Single pixels.
ghost use Rattle.std.specs.Prelude.{◌≡◌, ◌<◌, ℕ, pos, true, false};
ghost use Rattle.pix_el.specs.Pixel.{alpha_of};
ghost use Rattle.pix.specs.Image.{point, region_of};
ghost use Rattle.pix.specs.Region.{covers};
ghost use Rattle.pix_uses.specs.Rgba.{rgba8, numbers};

use pix::Raster;
use pix::el::Pixel;
use pix::rgb::Rgba8p;

/// Returns the alpha of the pixel at a point, or 0 for a point outside of the picture.
pub fn opacity(picture: &Raster<Rgba8p>, x: i32, y: i32) -> u8
    ensures inside { (column row : ℕ) → x ≡ pos column → y ≡ pos row
        → covers (region_of picture.now) x y ≡ true
        → result ≡ alpha_of rgba8 (point numbers picture.now column row) }
    ensures outside { covers (region_of picture.now) x y ≡ false → result ≡ 0 }
{
    let area = picture.region();
    if x < 0 || area.right() <= x || y < 0 || area.bottom() <= y {
        return 0;
    }
    u8::from(picture.pixel(x, y).alpha())
}

/// Fills a picture with one color, pixel by pixel.
pub fn fill(picture: &mut Raster<Rgba8p>, clr: Rgba8p)
    ensures width { picture.new.width ≡ picture.old.width }
    ensures height { picture.new.height ≡ picture.old.height }
    ensures filled { (x y : ℕ) → x < picture.old.width → y < picture.old.height →
        point numbers picture.new x y ≡ numbers clr }
{
    let area = picture.region();
    for y in 0..area.height() {
        for x in 0..area.width() {
            *picture.pixel_mut(x as i32, y as i32) = clr;
        }
    }
}
