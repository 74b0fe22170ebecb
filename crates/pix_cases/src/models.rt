//! Colors between a model and red, green and blue.
ghost use Rattle.std.specs.Prelude.{◌≤◌, ◌+◌};

use crate::flaw::Flaw;
use crate::formats::{Format, Task};
use crate::pixels::{channels, pixel, word_of};
use pix::ColorModel;
use pix::el::Pixel;
use std::alloc::Global;

/// `Hsv8 255,0,0,255`: a format, and red, green, blue and alpha.
pub(crate) fn from_rgba(words: &[&str], alloc: Global) -> Result<String, Flaw> {
    let &[format, word] = words else {
        return Err(Flaw::Count);
    };
    Format::of(format)?.answer(Task::FromRgba(word), alloc)
}

/// `Hsv8 0,255,255`: a format, and a color of it.
pub(crate) fn into_rgba(words: &[&str], alloc: Global) -> Result<String, Flaw> {
    let &[format, word] = words else {
        return Err(Flaw::Count);
    };
    Format::of(format)?.answer(Task::IntoRgba(word), alloc)
}

/// `Hsv8 255,0,0,255`: a format, and red, green, blue and alpha, which come back in the end.
pub(crate) fn corner(words: &[&str], alloc: Global) -> Result<String, Flaw> {
    let &[format, _] = words else {
        return Err(Flaw::Count);
    };
    let made = from_rgba(words, alloc)?;
    let back = into_rgba(&[format, made.as_str()], alloc)?;
    Ok(format!(in alloc; "{made} {back}")?)
}

/// The color of a format that is made of red, green, blue and alpha.
pub(crate) fn made_of_rgba<P: Pixel>(word: &str, alloc: Global) -> Result<String, Flaw> {
    let channels = channels::<P::Chan>(word, alloc)?;
    let &[red, green, blue, alpha] = channels.as_slice() else {
        return Err(Flaw::Count);
    };
    if P::default().channels().len() > <P::Model as ColorModel>::ALPHA + 1 {
        return Err(Flaw::Refused);
    }
    let color = <P::Model as ColorModel>::from_four::<P>(red, green, blue, alpha);
    word_of(color.channels(), alloc)
}

/// Red, green, blue and alpha of a color of a format.
pub(crate) fn rgba_of<P: Pixel>(word: &str, alloc: Global) -> Result<String, Flaw> {
    let color = pixel::<P>(word, alloc)?;
    let (red, green, blue, alpha) = <P::Model as ColorModel>::into_four(color);
    word_of(&[red, green, blue, alpha], alloc)
}
