//! Arithmetic of channels.
ghost use Rattle.std.specs.Prelude.{◌<◌, ⊤};

use crate::flaw::Flaw;
use crate::pixels::{channel, channels, word_of};
use crate::words::{number, operator};
use pix::chan::{Ch8, Ch16, Channel};
use pix::ops::{Blend, OpVisitor};
use std::alloc::Global;

/// `8 mul 16 255`: the width of channels, what is computed, and the operands.
pub(crate) fn arithmetic(words: &[&str], alloc: Global) -> Result<String, Flaw> {
    let made = match words {
        ["8", "decode_srgb", x] => channel::<Ch8>(x)?.decode_srgb().to_u32(),
        ["8", "encode_srgb", x] => channel::<Ch8>(x)?.encode_srgb().to_u32(),
        ["8", "decode_srgb16", x] => channel::<Ch8>(x)?.decode_srgb16().to_u32(),
        ["16", "encode_srgb8", x] => channel::<Ch16>(x)?.encode_srgb8().to_u32(),
        ["8", "deepened", x] => Ch16::from(channel::<Ch8>(x)?).to_u32(),
        ["16", "shallowed", x] => Ch8::from(channel::<Ch16>(x)?).to_u32(),
        ["8", name, operands @ ..] => computed::<Ch8>(name, operands)?,
        ["16", name, operands @ ..] => computed::<Ch16>(name, operands)?,
        _ => return Err(Flaw::Name),
    };
    Ok(format!(in alloc; "{made}")?)
}

/// The number of the result of an operation on channels.
fn computed<C: Channel>(name: &str, operands: &[&str]) -> Result<u32, Flaw> {
    let made = match operands {
        [n, d] if name == "ratio" => ratio::<C>(number(n)?, number(d)?)?,
        [x, y] => {
            let (x, y) = (channel::<C>(x)?, channel::<C>(y)?);
            match name {
                "mul" => x * y,
                "div" => x / y,
                "add" => x + y,
                "sub" => x - y,
                "wrapping_add" => x.wrapping_add(y),
                "wrapping_sub" => x.wrapping_sub(y),
                _ => return Err(Flaw::Name),
            }
        }
        [x, y, t] if name == "lerp" => { channel::<C>(x)?.lerp(channel::<C>(y)?, channel::<C>(t)?) }
        _ => return Err(Flaw::Count),
    };
    Ok(made.to_u32())
}

/// The channel nearest to a ratio. Twice the sum of its two numbers has to fit.
fn ratio<C: Channel>(n: i64, d: i64) -> Result<C, Flaw> {
    if n < 1 << 61 && 0 < d && d < 1 << 61 {
        Ok(C::from_ratio(n, d))
    } else {
        Err(Flaw::Number)
    }
}

/// `mul 1,16,248 255,255`: a run of channels of eight bits times another, or their sums.
pub(crate) fn runs(words: &[&str], alloc: Global) -> Result<String, Flaw> {
    let &[name, run, by] = words else {
        return Err(Flaw::Count);
    };
    let mut run = channels::<Ch8>(run, alloc)?;
    let by = channels::<Ch8>(by, alloc)?;
    match name {
        "mul" => Ch8::mul_run(&mut run, &by),
        "add" => Ch8::add_run(&mut run, &by),
        _ => return Err(Flaw::Name),
    }
    word_of(&run, alloc)
}

/// `8 SrcOver 100,200 64,128`: a source channel and its alpha, composited with those of a
/// destination channel by channel.
pub(crate) fn operated(words: &[&str], alloc: Global) -> Result<String, Flaw> {
    match words {
        ["8", op, src, dst] => composited::<Ch8>(op, src, dst, alloc),
        ["16", op, src, dst] => composited::<Ch16>(op, src, dst, alloc),
        _ => Err(Flaw::Name),
    }
}

/// The channel and the alpha that an operator makes.
fn composited<C: Channel>(op: &str, src: &str, dst: &str, alloc: Global) -> Result<String, Flaw> {
    let op = operator(op)?;
    let (src, mut dst) = (channels::<C>(src, alloc)?, channels::<C>(dst, alloc)?);
    let (&[gray, sa], [below, da]) = (src.as_slice(), dst.as_mut_slice()) else {
        return Err(Flaw::Count);
    };
    let (da1, sa1) = (C::MAX - *da, C::MAX - sa);
    op.composite(below, da1, &gray, sa1);
    op.composite(da, da1, &sa, sa1);
    word_of(&dst, alloc)
}

/// Runs of channels that are composited with a run: one minus its alphas, the source, and one minus
/// the alphas of the source.
#[derive(Drop)]
struct ChannelRuns<C: Channel> {
    da1: Vec<C>,
    src: Vec<C>,
    sa1: Vec<C>,
}

impl<C: Channel> OpVisitor<Vec<C>> for ChannelRuns<C> {
    ghost can_visit = { λ _ _. ⊤ };

    ghost visits = { λ _ _ _ _. ⊤ };

    fn visit<O: Blend>(&self, dst: &mut Vec<C>, _op: O) {
        O::composite_run(dst, &self.da1, &self.src, &self.sa1);
    }
}

/// `8 SrcOver 155 100,200 55,5 64,128`: the width of channels, an operator, one minus the alphas of
/// the destination, the source, one minus the alphas of the source, and the destination. They are
/// runs of channels, and `-` is one without a channel. The answer is the destination afterwards.
pub(crate) fn blended(words: &[&str], alloc: Global) -> Result<String, Flaw> {
    match words {
        ["8", op, runs @ ..] => blended_runs::<Ch8>(op, runs, alloc),
        ["16", op, runs @ ..] => blended_runs::<Ch16>(op, runs, alloc),
        _ => Err(Flaw::Name),
    }
}

/// The run that an operator makes.
fn blended_runs<C: Channel>(op: &str, runs: &[&str], alloc: Global) -> Result<String, Flaw> {
    let [da1, src, sa1, dst] = runs else {
        return Err(Flaw::Count);
    };
    let mut dst = run_of::<C>(dst, alloc)?;
    let runs = ChannelRuns {
        da1: run_of::<C>(da1, alloc)?,
        src: run_of::<C>(src, alloc)?,
        sa1: run_of::<C>(sa1, alloc)?,
    };
    operator(op)?.visit(&runs, &mut dst);
    if dst.is_empty() {
        return Ok(String::from_str(alloc, "-")?);
    }
    word_of(&dst, alloc)
}

/// The channels of a word, or none where it is `-`.
fn run_of<C: Channel>(word: &str, alloc: Global) -> Result<Vec<C>, Flaw> {
    if word == "-" {
        return Ok(Vec::new(alloc));
    }
    channels::<C>(word, alloc)
}
