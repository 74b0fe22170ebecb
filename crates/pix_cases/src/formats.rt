//! The formats by name.
//!
//! A call at a concrete format costs the prover seconds. So a format is passed on in parts: the
//! count of its channels, its color model, its alpha mode and its gamma mode.
ghost use Rattle.std.specs.Prelude.{◌≤◌};

use crate::conversions::{of_eight, to_format};
use crate::flaw::Flaw;
use crate::models::{made_of_rgba, rgba_of};
use pix::ColorModel;
use pix::bgr::Bgr;
use pix::chan::{Alpha, Ch8, Ch16, Channel, Gamma, Linear, Premultiplied, Srgb, Straight};
use pix::cmy::Cmy;
use pix::el::{Pix, Pixel};
use pix::gray::Gray;
use pix::hsl::Hsl;
use pix::hsv::Hsv;
use pix::hwb::Hwb;
use pix::matte::Matte;
use pix::rgb::Rgb;
use pix::xyz::Xyz;
use pix::ycc::YCbCr;
use std::alloc::Global;
use std::fmt::Debug;

/// What is done with a format.
#[derive(Clone, Copy)]
pub(crate) enum Task<'a> {
    /// Describes it.
    Describe,
    /// Makes a color of it of red, green, blue and alpha.
    FromRgba(&'a str),
    /// Makes red, green, blue and alpha of a color of it.
    IntoRgba(&'a str),
    /// Converts a pixel of `Rgba8` to it.
    OfRgba8(&'a str),
    /// Converts a pixel of `Rgb8` to it.
    OfRgb8(&'a str),
    /// Converts a pixel of it to the format of a name.
    Into(&'a str, &'a str),
    /// Converts a pixel of it, of eight bits, to straight linear channels.
    MakeStraight(&'a str),
}

/// A color model.
#[derive(Clone, Copy)]
pub(crate) enum Model {
    Rgb,
    Bgr,
    Cmy,
    Gray,
    Hsv,
    Hsl,
    Hwb,
    YCbCr,
    Xyz,
    Matte,
}

/// A format, as its name spells it.
#[derive(Clone, Copy)]
pub(crate) struct Format {
    pub model: Model,
    pub is_wide: bool,
    pub is_srgb: bool,
    pub has_alpha: bool,
    pub is_premultiplied: bool,
}

impl Format {
    /// The format of a name, as `SRgba8p`.
    pub(crate) fn of(name: &str) -> Result<Format, Flaw> {
        let (is_srgb, name) = without(name, name.strip_prefix("S"));
        let (is_premultiplied, name) = without(name, name.strip_suffix("p"));
        let (is_wide, name) = without(name, name.strip_suffix("16"));
        let (is_narrow, name) = without(name, name.strip_suffix("8"));
        let (has_alpha, name) = without(name, name.strip_suffix("a"));
        let model = model_of(name)?;
        let has_srgb = !is_wide && !matches!(model, Model::YCbCr | Model::Xyz | Model::Matte);
        let is_matte = matches!(model, Model::Matte);
        if is_wide == is_narrow || is_srgb && !has_srgb || is_premultiplied && !has_alpha {
            return Err(Flaw::Name);
        }
        if is_matte && has_alpha {
            return Err(Flaw::Name);
        }
        Ok(Format {
            model,
            is_wide,
            is_srgb,
            has_alpha,
            is_premultiplied,
        })
    }

    /// Does a task for this format.
    pub(crate) fn answer(self, task: Task, alloc: Global) -> Result<String, Flaw> {
        match self.model {
            Model::Rgb => self.of_model::<3, 4, Rgb>(task, alloc),
            Model::Bgr => self.of_model::<3, 4, Bgr>(task, alloc),
            Model::Cmy => self.of_model::<3, 4, Cmy>(task, alloc),
            Model::Gray => self.of_model::<1, 2, Gray>(task, alloc),
            Model::Hsv => self.of_model::<3, 4, Hsv>(task, alloc),
            Model::Hsl => self.of_model::<3, 4, Hsl>(task, alloc),
            Model::Hwb => self.of_model::<3, 4, Hwb>(task, alloc),
            Model::YCbCr => self.of_model::<3, 4, YCbCr>(task, alloc),
            Model::Xyz => self.of_model::<3, 4, Xyz>(task, alloc),
            Model::Matte => self.of_mode::<1, Matte, Premultiplied>(task, alloc),
        }
    }

    /// Does a task for this format of a model, which has `N` channels without an alpha and `K` with
    /// one.
    fn of_model<const N: usize, const K: usize, M>(
        self,
        task: Task,
        alloc: Global,
    ) -> Result<String, Flaw>
    where
        M: ColorModel,
        requires plain { N ≤ 4 }
        requires alpha { K ≤ 4 }
    {
        if self.is_premultiplied {
            self.of_mode::<K, M, Premultiplied>(task, alloc)
        } else if self.has_alpha {
            self.of_mode::<K, M, Straight>(task, alloc)
        } else {
            self.of_mode::<N, M, Straight>(task, alloc)
        }
    }

    /// Does a task for this format of a model and an alpha mode, which has `N` channels.
    fn of_mode<const N: usize, M, A>(self, task: Task, alloc: Global) -> Result<String, Flaw>
    where
        M: ColorModel,
        A: Alpha,
        requires { N ≤ 4 }
    {
        if self.is_wide {
            sixteen::<N, M, A>(task, alloc)
        } else if self.is_srgb {
            eight::<N, M, A, Srgb>(task, alloc)
        } else {
            eight::<N, M, A, Linear>(task, alloc)
        }
    }
}

/// Does a task for a format of eight bits.
fn eight<const N: usize, M, A, G>(task: Task, alloc: Global) -> Result<String, Flaw>
where
    M: ColorModel,
    A: Alpha,
    G: Gamma<Ch8>,
    requires { N ≤ 4 }
{
    match task {
        Task::MakeStraight(word) => {
            of_eight::<N, M, A, G, Pix<N, Ch8, M, Straight, Linear>>(word, alloc)
        },
        _ => done::<Pix<N, Ch8, M, A, G>>(task, alloc),
    }
}

/// Does a task for a linear format of sixteen bits.
fn sixteen<const N: usize, M, A>(task: Task, alloc: Global) -> Result<String, Flaw>
where
    M: ColorModel,
    A: Alpha,
    requires { N ≤ 4 }
{
    done::<Pix<N, Ch16, M, A, Linear>>(task, alloc)
}

/// Does a task for a format.
fn done<P>(task: Task, alloc: Global) -> Result<String, Flaw>
where
    P: Pixel,
    P::Chan: From<Ch8>,
    Ch8: From<P::Chan>,
    P::Gamma: Gamma<Ch8>,
    Linear: Gamma<P::Chan>,
{
    match task {
        Task::Describe => description::<P>(alloc),
        Task::FromRgba(word) => made_of_rgba::<P>(word, alloc),
        Task::IntoRgba(word) => rgba_of::<P>(word, alloc),
        Task::OfRgba8(word) => of_eight::<4, Rgb, Straight, Linear, P>(word, alloc),
        Task::OfRgb8(word) => of_eight::<3, Rgb, Straight, Linear, P>(word, alloc),
        Task::Into(word, to) => to_format::<P>(word, to, alloc),
        Task::MakeStraight(_) => Err(Flaw::Name),
    }
}

/// Whether a part of a name is there, and the name without it.
fn without<'a>(name: &'a str, rest: Option<&'a str>) -> (bool, &'a str) {
    match rest {
        Some(rest) => (true, rest),
        None => (false, name),
    }
}

/// The color model of a name.
fn model_of(name: &str) -> Result<Model, Flaw> {
    match name {
        "Rgb" => Ok(Model::Rgb),
        "Bgr" => Ok(Model::Bgr),
        "Cmy" => Ok(Model::Cmy),
        "Gray" => Ok(Model::Gray),
        "Hsv" => Ok(Model::Hsv),
        "Hsl" => Ok(Model::Hsl),
        "Hwb" => Ok(Model::Hwb),
        "YCbCr" => Ok(Model::YCbCr),
        "Xyz" => Ok(Model::Xyz),
        "Matte" => Ok(Model::Matte),
        _ => Err(Flaw::Name),
    }
}

/// `Rgb8`: a format, which is described by its count of channels, their maximum, its color model,
/// its alpha mode and its gamma mode.
pub(crate) fn described(words: &[&str], alloc: Global) -> Result<String, Flaw> {
    let &[format] = words else {
        return Err(Flaw::Count);
    };
    Format::of(format)?.answer(Task::Describe, alloc)
}

/// The description of a format.
fn description<P: Pixel>(alloc: Global) -> Result<String, Flaw> {
    let count = P::default().channels().len();
    let max = P::Chan::MAX.to_u32();
    let model = name::<P::Model>(alloc)?;
    let alpha = name::<P::Alpha>(alloc)?;
    let gamma = name::<P::Gamma>(alloc)?;
    Ok(format!(in alloc; "{count} {max} {model} {alpha} {gamma}")?)
}

/// The name that a model or a mode prints.
fn name<T: Default + Debug + Copy>(alloc: Global) -> Result<String, Flaw> {
    let value = T::default();
    Ok(format!(in alloc; "{value:?}")?)
}
