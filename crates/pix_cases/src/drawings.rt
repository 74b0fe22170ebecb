//! Commands on rasters: clears, copies and composites, in single calls and in lists.
ghost use Rattle.std.specs.Prelude.{◌≡◌, ◌≤◌, ◌+◌, ⊤};

use crate::flaw::Flaw;
use crate::images::{image, picture, pixel};
use crate::regions::region;
use crate::words::operator;
use pix::chan::{Ch8, Linear, Premultiplied};
use pix::el::{Pix, Pixel};
use pix::gray::Gray;
use pix::matte::Matte8;
use pix::ops::{Blend, Op, OpVisitor};
use pix::rgb::Rgb;
use pix::{ColorModel, Command, Raster, Region};
use std::alloc::{AllocError, Global};

/// A premultiplied pixel of eight bits, of `N` channels.
type Color<const N: usize, M> = Pix<N, Ch8, M, Premultiplied, Linear>;

/// A command, without the images that it may read.
#[derive(Drop)]
enum Order<P> {
    /// Clears the raster.
    Clear,
    /// Copies a color.
    Fill(Region, P),
    /// Copies the source.
    Copy(Region, Region),
    /// Composites a color.
    Paint(Op, Region, P),
    /// Composites the source.
    Comp(Op, Region, Region),
    /// Composites a color through the mattes.
    Matte(Op, Region, Region, P),
    /// Composites the source through the mattes.
    Mask(Op, Region, Region, Region),
    /// Composites the source at an opacity.
    Fade(Op, Region, Region, Matte8),
}

/// The images that commands read.
#[derive(Drop)]
struct Images<P> {
    source: Raster<P>,
    mattes: Raster<Matte8>,
}

/// `list 2x1 - ; paint SrcOver 0,0,1,1 40806080`: `list` for one list of all commands or `calls`
/// for a call of each. The size and the pixels of a raster of premultiplied red, green, blue and
/// alpha follow. After each `;` there is an image that the commands read, or a command:
///
/// - `source SIZE PIXELS`
/// - `mattes SIZE PIXELS`
/// - `clear`
/// - `fill REGION COLOR`
/// - `copy REGION REGION`
/// - `paint OPERATOR REGION COLOR`
/// - `comp OPERATOR REGION REGION`
/// - `matte OPERATOR REGION REGION COLOR`
/// - `mask OPERATOR REGION REGION REGION`, the last one that of the mattes
/// - `fade OPERATOR REGION REGION MATTE`
///
/// The answer is the size and the pixels of the raster after them.
pub(crate) fn draw(words: &[&str], alloc: Global) -> Result<String, Flaw> {
    drawn::<4, Rgb>(words, alloc)
}

/// `list 2x1 - ; paint SrcOver 0,0,1,1 4080`: as [`draw`], on a raster of premultiplied gray and
/// alpha.
pub(crate) fn draw_gray(words: &[&str], alloc: Global) -> Result<String, Flaw> {
    drawn::<2, Gray>(words, alloc)
}

/// The answer of [`draw`] for a format of `N` channels.
///
/// Condition: these are all channels of the model.
fn drawn<const N: usize, M: ColorModel>(words: &[&str], alloc: Global) -> Result<String, Flaw>
    requires few { N ≤ 4 }
    requires has_alpha { N ≡ M.ALPHA + 1 }
{
    let [way, size, pixels, words @ ..] = words else {
        return Err(Flaw::Count);
    };
    let mut raster: Raster<Color<N, M>> = image(size, pixels, alloc)?;
    let source = named_image("source", words, alloc)?;
    let mattes = named_image("mattes", words, alloc)?;
    let images = Images { source, mattes };
    let orders = orders::<Color<N, M>>(words, alloc)?;
    match *way {
        "list" => raster.run(&commands_of(&images, &orders, alloc)?),
        "calls" => {
            for order in &orders {
                call(&mut raster, &images, order);
            }
        }
        _ => return Err(Flaw::Name),
    }
    picture(&raster, alloc)
}

/// The one image of that name among the words, or one without points.
fn named_image<P: Pixel>(name: &str, words: &[&str], alloc: Global) -> Result<Raster<P>, Flaw> {
    let mut named = None;
    for part in words.split(|word| *word == ";") {
        match part {
            [first, size, pixels] if *first == name && named.is_none() => {
                named = Some((*size, *pixels));
            }
            [first, ..] if *first == name => return Err(Flaw::Count),
            _ => {}
        }
    }
    let (size, pixels) = named.unwrap_or(("0x0", "-"));
    image(size, pixels, alloc)
}

/// The commands among the words.
fn orders<P: Pixel>(words: &[&str], alloc: Global) -> Result<Vec<Order<P>>, Flaw> {
    let mut all = Vec::new(alloc);
    for part in words.split(|word| *word == ";") {
        if !matches!(part, [] | ["source", ..] | ["mattes", ..]) {
            all.push(order_of(part, alloc)?)?;
        }
    }
    Ok(all)
}

/// The command of these words.
fn order_of<P: Pixel>(words: &[&str], alloc: Global) -> Result<Order<P>, Flaw> {
    match words {
        ["clear"] => Ok(Order::Clear),
        ["fill", reg, clr] => Ok(Order::Fill(region(reg, alloc)?, pixel(clr, alloc)?)),
        ["copy", to, from] => Ok(Order::Copy(region(to, alloc)?, region(from, alloc)?)),
        ["paint", op, reg, clr] => {
            let (reg, clr) = (region(reg, alloc)?, pixel(clr, alloc)?);
            Ok(Order::Paint(operator(op)?, reg, clr))
        }
        ["comp", op, to, from] => {
            let (to, from) = (region(to, alloc)?, region(from, alloc)?);
            Ok(Order::Comp(operator(op)?, to, from))
        }
        ["matte", op, to, from, clr] => {
            let (to, from) = (region(to, alloc)?, region(from, alloc)?);
            Ok(Order::Matte(operator(op)?, to, from, pixel(clr, alloc)?))
        }
        ["mask", op, to, from, mask_from] => {
            let (to, from) = (region(to, alloc)?, region(from, alloc)?);
            Ok(Order::Mask(operator(op)?, to, from, region(mask_from, alloc)?))
        }
        ["fade", op, to, from, alpha] => {
            let (to, from) = (region(to, alloc)?, region(from, alloc)?);
            Ok(Order::Fade(operator(op)?, to, from, pixel(alpha, alloc)?))
        }
        _ => Err(Flaw::Name),
    }
}

/// The commands with the images that they read.
fn commands_of<'a, P: Pixel>(
    images: &'a Images<P>,
    orders: &[Order<P>],
    alloc: Global,
) -> Result<Vec<Command<'a, P, Matte8>>, AllocError> {
    orders
        .iter()
        .map(|order| command(images, order))
        .collect(alloc)
}

/// A command with the image that it reads.
fn command<'a, P: Pixel>(images: &'a Images<P>, order: &Order<P>) -> Command<'a, P, Matte8> {
    match *order {
        Order::Clear => Command::Clear,
        Order::Fill(reg, clr) => Command::CopyColor { reg, clr },
        Order::Copy(to, from) => {
            let src = &images.source;
            Command::CopyRaster { to, src, from }
        }
        Order::Paint(op, reg, clr) => Command::Color { reg, clr, op },
        Order::Comp(op, to, from) => {
            let src = &images.source;
            Command::Raster { to, src, from, op }
        }
        Order::Matte(op, to, from, clr) => {
            let src = &images.mattes;
            Command::Matte {
                to,
                src,
                from,
                clr,
                op,
            }
        }
        Order::Mask(op, to, from, mask_from) => masked(images, op, to, from, mask_from),
        Order::Fade(op, to, from, alpha) => faded(images, op, to, from, alpha),
    }
}

/// A composite of the source through the mattes.
fn masked<'a, P: Pixel>(
    images: &'a Images<P>,
    op: Op,
    to: Region,
    from: Region,
    mask_from: Region,
) -> Command<'a, P, Matte8> {
    let (src, mask) = (&images.source, &images.mattes);
    Command::RasterMatte {
        to,
        src,
        from,
        mask,
        mask_from,
        op,
    }
}

/// A composite of the source at an opacity.
fn faded<'a, P: Pixel>(
    images: &'a Images<P>,
    op: Op,
    to: Region,
    from: Region,
    alpha: Matte8,
) -> Command<'a, P, Matte8> {
    let src = &images.source;
    Command::RasterAlpha {
        to,
        src,
        from,
        alpha,
        op,
    }
}

/// Does a command by a call of its own.
///
/// Condition: the format has all channels of the model.
fn call<const N: usize, M: ColorModel>(
    raster: &mut Raster<Color<N, M>>,
    images: &Images<Color<N, M>>,
    order: &Order<Color<N, M>>,
)
    requires few { N ≤ 4 }
    requires has_alpha { N ≡ M.ALPHA + 1 }
{
    match *order {
        Order::Clear => raster.clear(),
        Order::Fill(reg, clr) => raster.copy_color(reg, clr),
        Order::Copy(to, from) => raster.copy_raster(to, &images.source, from),
        Order::Paint(op, ..)
        | Order::Comp(op, ..)
        | Order::Matte(op, ..)
        | Order::Mask(op, ..)
        | Order::Fade(op, ..) => op.visit(&Composite { images, order }, raster),
    }
}

/// A command that composites, as a call by an operator that is a type.
#[derive(Drop)]
struct Composite<'a, P> {
    images: &'a Images<P>,
    order: &'a Order<P>,
}

impl<const N: usize, M: ColorModel> OpVisitor<Raster<Color<N, M>>> for Composite<'_, Color<N, M>> {
    ghost can_visit = { λ _ _. N ≡ M.ALPHA + 1 };

    ghost visits = { λ _ _ _ _. ⊤ };

    fn visit<O: Blend>(&self, raster: &mut Raster<Color<N, M>>, op: O) {
        let (source, mattes) = (&self.images.source, &self.images.mattes);
        match *self.order {
            Order::Paint(_, reg, clr) => raster.composite_color(reg, clr, op),
            Order::Comp(_, to, from) => raster.composite_raster(to, source, from, op),
            Order::Matte(_, to, from, clr) => raster.composite_matte(to, mattes, from, clr, op),
            Order::Mask(_, to, from, mask_from) => {
                raster.composite_raster_matte(to, source, from, mattes, mask_from, op);
            }
            Order::Fade(_, to, from, alpha) => {
                raster.composite_raster_alpha(to, source, from, alpha, op);
            }
            _ => {}
        }
    }
}
