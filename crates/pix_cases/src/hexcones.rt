//! The hexcone, and differences of colors of red, green and blue.
use crate::flaw::Flaw;
use crate::pixels::{channel, pixel, word_of};
use pix::chan::{Ch8, Ch16, Channel};
use pix::el::Pixel;
use pix::hue::{Hexcone, rgb_to_hue_chroma_value};
use pix::rgb::{Rgb, Rgb8, Rgba16};
use std::alloc::Global;

/// `of_hue 8 255`: the width of a hue, and the hue. `rgb Red 51 128`: a side of the cone with its
/// weight, and a chroma. `of_rgb 0 255 0`: red, green and blue, from which hue, chroma and value
/// are made.
pub(crate) fn computed(words: &[&str], alloc: Global) -> Result<String, Flaw> {
    match words {
        ["of_hue", "8", hue] => named(Hexcone::from_hue(channel::<Ch8>(hue)?), alloc),
        ["of_hue", "16", hue] => named(Hexcone::from_hue(channel::<Ch16>(hue)?), alloc),
        ["rgb", name, weight, chroma] => {
            let (red, green, blue) = side(name, channel(weight)?)?.rgb(channel(chroma)?);
            word_of(&[red, green, blue], alloc)
        }
        ["of_rgb", red, green, blue] => {
            let (red, green, blue) = (channel(red)?, channel(green)?, channel(blue)?);
            let (hue, chroma, value) = rgb_to_hue_chroma_value::<Ch8>(red, green, blue);
            word_of(&[hue, chroma, value], alloc)
        }
        _ => Err(Flaw::Name),
    }
}

/// The side of a name, at a weight.
fn side(name: &str, weight: Ch8) -> Result<Hexcone<Ch8>, Flaw> {
    match name {
        "Red" => Ok(Hexcone::Red(weight)),
        "Yellow" => Ok(Hexcone::Yellow(weight)),
        "Green" => Ok(Hexcone::Green(weight)),
        "Cyan" => Ok(Hexcone::Cyan(weight)),
        "Blue" => Ok(Hexcone::Blue(weight)),
        "Magenta" => Ok(Hexcone::Magenta(weight)),
        _ => Err(Flaw::Name),
    }
}

/// The name of a side with its weight.
fn named<C: Channel>(cone: Hexcone<C>, alloc: Global) -> Result<String, Flaw> {
    let (name, weight) = match cone {
        Hexcone::Red(weight) => ("Red", weight),
        Hexcone::Yellow(weight) => ("Yellow", weight),
        Hexcone::Green(weight) => ("Green", weight),
        Hexcone::Cyan(weight) => ("Cyan", weight),
        Hexcone::Blue(weight) => ("Blue", weight),
        Hexcone::Magenta(weight) => ("Magenta", weight),
    };
    let weight = weight.to_u32();
    Ok(format!(in alloc; "{name} {weight}")?)
}

/// `Rgb8 difference 1,9,5 4,2,5`: a format, and two pixels; or `within`, and a threshold as the
/// second.
pub(crate) fn compared(words: &[&str], alloc: Global) -> Result<String, Flaw> {
    let &[format, name, one, other] = words else {
        return Err(Flaw::Count);
    };
    match format {
        "Rgb8" => by_format::<Rgb8>(name, one, other, alloc),
        "Rgba16" => by_format::<Rgba16>(name, one, other, alloc),
        _ => Err(Flaw::Name),
    }
}

/// The difference of two pixels, or whether one is within the other.
fn by_format<P>(name: &str, one: &str, other: &str, alloc: Global) -> Result<String, Flaw>
where
    P: Pixel<Model = Rgb>,
{
    let (one, other) = (pixel::<P>(one, alloc)?, pixel::<P>(other, alloc)?);
    match name {
        "difference" if P::default().channels().len() <= 4 => {
            word_of(Rgb::difference(one, other).channels(), alloc)
        }
        "within" => {
            let is_within = Rgb::within_threshold(one, other);
            Ok(format!(in alloc; "{is_within}")?)
        }
        _ => Err(Flaw::Name),
    }
}
