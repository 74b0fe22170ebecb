//! Channels as the bytes or words of a buffer, and back: pixel after pixel, of each its channels in
//! order.
ghost use Rattle.std.specs.Prelude.{◌≡◌, ℕ, ◌*◌, ◌^◌, ◌<◌, length, map, IfOk, IfErr};
ghost use prog.Memory.{size};
ghost use denote.Memory.{lone};
ghost use Rattle.std.specs.List.{flat_map};
ghost use Rattle.pix_raster.specs.declared.fault.RasterFault.{RasterFault};

use crate::fault::RasterFault;
use crate::filled::filled;
use pix_chan::chan::{Ch8, Ch16, Channel};
use pix_el::el::Pixel;
use std::alloc::Global;

/// How many pixels a block has.
const BLOCK: usize = 16;

/// How many channels a block's array has room for: pixels have at most four.
const ROOM: usize = 64;

/// A number as it stands in a buffer: a byte for a channel of eight bits, a word for one of
/// sixteen.
pub(crate) trait Sample<C: Channel>: Clone + Copy {
    /// The number.
    ghost number: { Self → ℕ };

    /// The channel of that number.
    fn channel(self) -> C
        ensures { C.number result ≡ number self };

    /// The number of a channel.
    fn of(channel: C) -> Self
        ensures { number result ≡ C.number channel };

    /// The numbers of a block fit in memory.
    ghost small: { 64 * size (lone Self.row.mir) < 2 ^ 63 };
}

impl Sample<Ch8> for u8 {
    ghost use Rattle.std.proofs.Common.{rules};

    ghost number = { λ n. n };

    ghost small = { Prim.search rules };

    fn channel(self) -> Ch8 {
        Ch8::new(self)
    }

    fn of(channel: Ch8) -> u8 {
        channel.into()
    }
}

impl Sample<Ch16> for u16 {
    ghost use Rattle.std.proofs.Common.{rules};

    ghost number = { λ n. n };

    ghost small = { Prim.search rules };

    fn channel(self) -> Ch16 {
        Ch16::new(self)
    }

    fn of(channel: Ch16) -> u16 {
        channel.into()
    }
}

/// The number of channels of a pixel.
pub(crate) fn channel_count<P: Pixel>() -> usize
    ensures { result ≡ P.layout.count }
{
    P::default().channels().len()
}

/// Sets each channel to the number at the same place.
fn write_channels<C: Channel, S: Sample<C>>(channels: &mut [C], samples: &[S])
    requires { length channels.old ≡ length samples.now }
    ensures { map C.number channels.new ≡ map S.number samples.now }
{
    for i in 0..channels.len() {
        channels[i] = samples[i].channel();
    }
}

/// Sets each number to that of the channel at the same place.
fn write_samples<C: Channel, S: Sample<C>>(samples: &mut [S], channels: &[C])
    requires { length samples.old ≡ length channels.now }
    ensures { map S.number samples.new ≡ map C.number channels.now }
{
    for i in 0..samples.len() {
        samples[i] = S::of(channels[i]);
    }
}

/// Sets the pixel to that whose channels have these numbers.
#[inline(always)]
fn write_pixel<P: Pixel, S: Sample<P::Chan>>(pixel: &mut P, samples: &[S])
    requires { length samples.now ≡ P.layout.count }
    ensures { P.numbers pixel.new ≡ map S.number samples.now }
{
    write_channels(pixel.channels_mut(), samples);
}

/// Sets each pixel to the next numbers, one by one.
#[inline(always)]
fn unpack_each<P: Pixel, S: Sample<P::Chan>>(pixels: &mut [P], samples: &[S])
    requires { length samples.now ≡ length pixels.old * P.layout.count }
    ensures { flat_map P.numbers pixels.new ≡ map S.number samples.now }
{
    let count = channel_count::<P>();
    for i in 0..pixels.len() {
        let start = i * count;
        write_pixel(&mut pixels[i], &samples[start..start + count]);
    }
}

/// Sets each pixel of a block to the next numbers.
///
/// They come by way of an array, which no pixel can share: so LLVM makes a few moves of it all.
#[inline(always)]
fn unpack_block<P: Pixel, S: Sample<P::Chan>>(pixels: &mut [P], samples: &[S])
    requires { length samples.now ≡ length pixels.old * P.layout.count }
    ensures { flat_map P.numbers pixels.new ≡ map S.number samples.now }
{
    let len = samples.len();
    if len > ROOM {
        unpack_each(pixels, samples);
        return;
    }
    let mut array = [S::of(P::Chan::MIN); ROOM];
    let whole = &mut array[..];
    let block = &mut whole[..len];
    block.copy_from_slice(samples);
    unpack_each(pixels, block);
}

/// Sets each pixel to the next numbers, by whole blocks and then one by one.
fn unpack<P: Pixel, S: Sample<P::Chan>>(pixels: &mut [P], samples: &[S])
    requires { length samples.now ≡ length pixels.old * P.layout.count }
    ensures { flat_map P.numbers pixels.new ≡ map S.number samples.now }
{
    let count = channel_count::<P>();
    let blocks = pixels.len() / BLOCK;
    for k in 0..blocks {
        let i = BLOCK * k;
        let start = i * count;
        let block = &samples[start..start + BLOCK * count];
        unpack_block(&mut pixels[i..i + BLOCK], block);
    }
    let i = BLOCK * blocks;
    unpack_each(&mut pixels[i..], &samples[i * count..]);
}

/// Sets the numbers to those of each pixel in turn, one by one.
#[inline(always)]
fn pack_each<P: Pixel, S: Sample<P::Chan>>(samples: &mut [S], pixels: &[P])
    requires { length samples.old ≡ length pixels.now * P.layout.count }
    ensures { map S.number samples.new ≡ flat_map P.numbers pixels.now }
{
    let count = channel_count::<P>();
    for i in 0..pixels.len() {
        let start = i * count;
        let pixel = &pixels[i];
        write_samples(&mut samples[start..start + count], pixel.channels());
    }
}

/// Sets the numbers to those of each pixel of a block.
///
/// They go by way of an array, which no pixel can share: so LLVM makes a few moves of it all.
#[inline(always)]
fn pack_block<P: Pixel, S: Sample<P::Chan>>(samples: &mut [S], pixels: &[P])
    requires { length samples.old ≡ length pixels.now * P.layout.count }
    ensures { map S.number samples.new ≡ flat_map P.numbers pixels.now }
{
    let len = samples.len();
    if len > ROOM {
        pack_each(samples, pixels);
        return;
    }
    let mut array = [S::of(P::Chan::MIN); ROOM];
    let whole = &mut array[..];
    let block = &mut whole[..len];
    pack_each(block, pixels);
    samples.copy_from_slice(block);
}

/// Sets the numbers to those of each pixel in turn, by whole blocks and then one by one.
fn pack<P: Pixel, S: Sample<P::Chan>>(samples: &mut [S], pixels: &[P])
    requires { length samples.old ≡ length pixels.now * P.layout.count }
    ensures { map S.number samples.new ≡ flat_map P.numbers pixels.now }
{
    let count = channel_count::<P>();
    let blocks = pixels.len() / BLOCK;
    for k in 0..blocks {
        let i = BLOCK * k;
        let start = i * count;
        let block = &pixels[i..i + BLOCK];
        pack_block(&mut samples[start..start + BLOCK * count], block);
    }
    let i = BLOCK * blocks;
    pack_each(&mut samples[i * count..], &pixels[i..]);
}

/// The pixels of these numbers, `count` of them, or `Memory`.
pub(crate) fn pixels_from<P: Pixel, S: Sample<P::Chan>>(
    alloc: Global,
    count: usize,
    samples: &[S],
) -> Result<Vec<P>, RasterFault>
    requires { length samples.now ≡ count * P.layout.count }
    ensures ok { IfOk result (λ pixels. (length pixels.items ≡ count)
        × (flat_map P.numbers pixels.items ≡ map S.number samples.now)) }
    ensures refused { IfErr result (λ fault. fault ≡ RasterFault.Memory) }
{
    let mut pixels = filled(alloc, P::default(), count)?;
    unpack(&mut pixels, samples);
    Ok(pixels)
}

/// The numbers of these pixels, or `Memory`.
pub(crate) fn samples_from<P: Pixel, S: Sample<P::Chan>>(
    alloc: Global,
    pixels: &[P],
) -> Result<Vec<S>, RasterFault>
    ensures ok { IfOk result (λ samples. map S.number samples.items ≡
        flat_map P.numbers pixels.now) }
    ensures refused { IfErr result (λ fault. fault ≡ RasterFault.Memory) }
{
    let len = pixels
        .len()
        .checked_mul(channel_count::<P>())
        .ok_or(RasterFault::Memory)?;
    let mut samples = filled(alloc, S::of(P::Chan::MIN), len)?;
    pack(&mut samples, pixels);
    Ok(samples)
}
