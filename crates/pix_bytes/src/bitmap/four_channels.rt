//! Pixels of any format as four channels.
ghost use Rattle.std.specs.Prelude.{◌≡◌, ◌≢◌, ◌≤◌, ◌<◌, ◌+◌, ◌*◌, ℕ, length, take, nat_lt, if◌then◌else◌};
ghost use Rattle.pix_el.specs.Pixel.{channel};
ghost use Rattle.pix_bytes.specs.FourChannels.{as_list};
ghost use Rattle.pix_bytes.specs.BitmapFormats.{sample_at, samples, sample_size, padded};

use crate::bitmap::sample::Sample;
use pix_chan::chan::Channel;

/// The channels of a pixel in order. Those after the last one of its format count as the maximum,
/// or not at all.
#[derive(Clone, Copy)]
pub(crate) struct FourChannels<C> {
    /// Channel 0.
    pub one: C,
    /// Channel 1.
    pub two: C,
    /// Channel 2.
    pub three: C,
    /// Channel 3.
    pub four: C,
}

impl<C: Channel> FourChannels<C> {
    /// Returns the channel of a number, and the maximum where there is none.
    #[inline(always)]
    pub(crate) fn at(self, ch: usize) -> C
        ensures { C.number result ≡ channel C.max (as_list C.number self) ch }
    {
        match ch {
            0 => self.one,
            1 => self.two,
            2 => self.three,
            3 => self.four,
            _ => C::MAX,
        }
    }
}

/// Returns the sample of that number, or the maximum where it is not one of the first samples that
/// count.
#[inline(always)]
fn sample_or_max<C: Sample>(bytes: &[u8], count: usize, number: usize) -> C
    requires { count * sample_size C.max ≤ length bytes.now }
    ensures { C.number result ≡ channel C.max (samples C.max count bytes.now) number }
{
    if number < count {
        C::read(bytes, number)
    } else {
        C::MAX
    }
}

/// Returns the pixel of this many channels in these bytes. The other channels are the maximum.
#[inline(always)]
pub(crate) fn read_four<C: Sample>(bytes: &[u8], count: usize) -> FourChannels<C>
    requires fits { count * sample_size C.max ≤ length bytes.now }
    requires few { count ≤ 4 }
    ensures { (ch : ℕ) → channel C.max (as_list C.number result) ch
        ≡ channel C.max (samples C.max count bytes.now) ch }
{
    FourChannels {
        one: sample_or_max::<C>(bytes, count, 0),
        two: sample_or_max::<C>(bytes, count, 1),
        three: sample_or_max::<C>(bytes, count, 2),
        four: sample_or_max::<C>(bytes, count, 3),
    }
}

/// Writes a sample, if there is one of that number. A sample after the channels is the maximum.
#[inline(always)]
fn write_sample<C: Sample>(c: C, bytes: &mut [u8], count: usize, all: usize, number: usize)
    requires { all * sample_size C.max ≤ length bytes.old }
    ensures own { number < all → sample_at C.max bytes.new number
        ≡ (if nat_lt number count then C.number c else C.max) }
    ensures others { (other : ℕ) → other ≢ number
        → sample_at C.max bytes.new other ≡ sample_at C.max bytes.old other }
{
    if number < all {
        let sample = if number < count { c } else { C::MAX };
        sample.write(bytes, number);
    }
}

/// Writes the first `count` channels of a pixel as samples, and after them `spare` samples of the
/// maximum.
#[inline(always)]
pub(crate) fn write_four<C: Sample>(
    pixel: FourChannels<C>,
    bytes: &mut [u8],
    count: usize,
    spare: usize,
)
    requires fits { length bytes.old ≡ (count + spare) * sample_size C.max }
    requires few { count + spare ≤ 4 }
    ensures { samples C.max (count + spare) bytes.new ≡
        padded C.max (count + spare) (take count (as_list C.number pixel)) }
{
    let all = count + spare;
    write_sample(pixel.one, bytes, count, all, 0);
    write_sample(pixel.two, bytes, count, all, 1);
    write_sample(pixel.three, bytes, count, all, 2);
    write_sample(pixel.four, bytes, count, all, 3);
}
