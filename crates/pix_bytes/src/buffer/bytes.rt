//! Pixels as bytes, one a channel.
ghost use Rattle.std.specs.Prelude.{◌≡◌, ◌≤◌, length, slice_index};

use pix_chan::chan::{Alpha, Ch8, Channel, Gamma};
use pix_el::el::{Pix, Pixel};
use pix_el::model::ColorModel;

/// A format of pixels whose channels are bytes.
pub(crate) trait Bytes: Pixel {
    /// Returns the pixel of these channels. Condition: there are as many as the format has, at most
    /// four.
    fn of_bytes(bytes: &[u8]) -> Self
        requires few { Self.layout.count ≤ 4 }
        requires count { length bytes.now ≡ Self.layout.count }
        ensures { Self.numbers result ≡ bytes.now };

    /// Sets the bytes to the channels. Condition: there are as many.
    fn write(&self, bytes: &mut [u8])
        requires { length bytes.old ≡ Self.layout.count }
        ensures { bytes.new ≡ Self.numbers self.now };
}

impl<const N: usize, M, A, G> Bytes for Pix<N, Ch8, M, A, G>
where
    M: ColorModel,
    A: Alpha,
    G: Gamma<Ch8>,
{
    fn of_bytes(bytes: &[u8]) -> Self {
        Self::from_four(
            channel_at(bytes, 0),
            channel_at(bytes, 1),
            channel_at(bytes, 2),
            channel_at(bytes, 3),
        )
    }

    fn write(&self, bytes: &mut [u8]) {
        let channels = self.channels();
        let mut own = [0; N];
        for ch in 0..N {
            own[ch] = channels[ch].into();
        }
        bytes.copy_from_slice(&own);
    }
}

/// Returns the channel of a number, and 0 where there is no byte for it.
fn channel_at(bytes: &[u8], ch: usize) -> Ch8
    ensures { ⟦<Ch8 as Channel>⟧.number result ≡ slice_index bytes.now ch }
{
    Ch8::new(*bytes.get(ch).unwrap_or(&0))
}
