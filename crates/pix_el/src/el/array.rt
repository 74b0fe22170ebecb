//! A [`Pix`], which is an array of channels, as a [`Pixel`].
ghost use Rattle.std.specs.Prelude.{map, refl};
ghost use Rattle.std.proofs.Common.{ap};
ghost use Rattle.pix_el.specs.Seal.{seal};
ghost use Rattle.pix_el.specs.PixelLaws.{numbers_of_replicate, equal_lists, equal_by_numbers};

use crate::el::{Pix, Pixel};
use crate::model::ColorModel;
use pix_chan::chan::{Alpha, Channel, Gamma};

impl<const N: usize, C, M, A, G> Pixel for Pix<N, C, M, A, G>
where
    C: Channel,
    M: ColorModel,
    A: Alpha,
    G: Gamma<C>,
{
    type Chan = C;

    type Model = M;

    type Alpha = A;

    type Gamma = G;

    ghost layout = { record { max = C.max; count = N; hues = M.CIRCULAR; alpha = M.ALPHA } };

    ghost channel_list = { λ p. p.channels };

    ghost numbers = { λ p. map C.number p.channels };

    ghost format = { record {
      layout = record { max = C.max; count = N; hues = M.CIRCULAR; alpha = M.ALPHA };
      kind = M.KIND;
      colors = M.LINEAR;
      to_rgb = M.to_rgb;
      of_rgb = M.of_rgb;
      alpha_mode = A.mode;
    } };

    ghost with_channel_list = { λ p w. record p { channels = w } };

    fn channels(&self) -> &[C] {
        &self.channels
    }

    fn channels_mut(&mut self) -> &mut [C] {
        self.items_mut()
    }

    fn get_mut(&mut self, ch: usize) -> &mut C {
        self.item_at_mut(ch)
    }

    fn from_channels(channels: &[C]) -> Self {
        let mut own = [C::MIN; N];
        own.copy_from_slice(&channels[..N]);
        Self::with_channels(own)
    }

    fn from_four(one: C, two: C, three: C, four: C) -> Self {
        let mut own = [one; N];
        if N <= 1 {
            return Self::with_channels(own);
        }
        own[1] = two;
        if N == 2 {
            return Self::with_channels(own);
        }
        own[2] = three;
        if N == 3 {
            return Self::with_channels(own);
        }
        own[3] = four;
        Self::with_channels(own)
    }

    ghost laid_out = { refl };

    ghost formatted = { refl };

    ghost numbered = { λ p. refl };

    ghost with_list = { λ p w. refl };

    ghost clones = { λ p q h. h };

    ghost clones_always = { λ p. tt };

    ghost equals = { λ p q. equal_lists C.eq C.number C.equals p.channels q.channels };

    ghost injective = { λ p q e. ap (λ w. record p { channels = w })
        (equal_by_numbers C.number C.numbered.injective p.channels q.channels e) };

    ghost sealed = { seal };

    ghost default_is_clear = { λ p h.
        numbers_of_replicate C.number C.MIN N p.channels h C.min_is_zero };
}
