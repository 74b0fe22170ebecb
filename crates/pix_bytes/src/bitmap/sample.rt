//! Samples: channels in bytes.
ghost use Rattle.std.specs.Prelude.{◌≡◌, ◌≢◌, ℕ, ◌+◌, ◌*◌, ◌≤◌, length};
ghost use Rattle.pix_bytes.specs.BitmapFormats.{sample_at, sample_size};

use pix_chan::chan::{Ch8, Ch16, Channel};

/// A channel in bytes. A channel of 8 bits has one byte, and one of 16 bits has two, the lower
/// first.
pub(crate) trait Sample: Channel {
    /// Returns how many bytes it has.
    fn size() -> usize
        ensures { result ≡ sample_size Self.max };

    /// Returns the sample of that number in the bytes of a pixel. Condition: there is one.
    fn read(bytes: &[u8], number: usize) -> Self
        requires { (number + 1) * sample_size Self.max ≤ length bytes.now }
        ensures { Self.number result ≡ sample_at Self.max bytes.now number };

    /// Sets the sample of that number in the bytes of a pixel, and no other. Condition: there is
    /// one.
    fn write(self, bytes: &mut [u8], number: usize)
        requires { (number + 1) * sample_size Self.max ≤ length bytes.old }
        ensures own { sample_at Self.max bytes.new number ≡ Self.number self }
        ensures others { (other : ℕ) → other ≢ number
            → sample_at Self.max bytes.new other ≡ sample_at Self.max bytes.old other };
}

impl Sample for Ch8 {
    #[inline(always)]
    fn size() -> usize {
        1
    }

    #[inline(always)]
    fn read(bytes: &[u8], number: usize) -> Ch8 {
        Ch8::new(bytes[number])
    }

    #[inline(always)]
    fn write(self, bytes: &mut [u8], number: usize) {
        bytes[number] = u8::from(self);
    }
}

impl Sample for Ch16 {
    #[inline(always)]
    fn size() -> usize {
        2
    }

    #[inline(always)]
    fn read(bytes: &[u8], number: usize) -> Ch16 {
        let (low, high) = (bytes[2 * number], bytes[2 * number + 1]);
        Ch16::new(u16::from(low) + 256 * u16::from(high))
    }

    #[inline(always)]
    fn write(self, bytes: &mut [u8], number: usize) {
        let units = u16::from(self);
        bytes[2 * number] = (units % 256) as u8;
        bytes[2 * number + 1] = (units / 256) as u8;
    }
}
