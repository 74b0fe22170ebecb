//! Frames: pixels of a layout of the program's own, in memory that the program owns.
ghost use Rattle.std.specs.Prelude.{◌≡◌, ◌∷◌, [], List, ℕ, length, ⊤};
ghost use Rattle.pix.specs.View.{IsShaped, ChangedIn, where_covered};

use pix::Region;
use pix::view::{Fill, Shape, fill_region};

/// Sets words to one word.
#[derive(Clone, Copy)]
pub struct OneWord {
    word: u32,
}

impl Fill<u32> for OneWord {
    ghost can_fill = { ⊤ };

    ghost reads = { λ word. word ∷ [] };

    ghost makes = { λ it _. it.word ∷ [] };

    fn fill(&self, row: &mut [u32]) {
        for word in row.iter_mut() {
            *word = self.word;
        }
    }
}

/// Sets each word of a region of a frame, clipped to the frame.
///
/// Condition: the rows of the frame lie in `words`.
pub fn flood(words: &mut [u32], frame: Shape, reg: Region, word: u32)
    requires { IsShaped frame (length words.old) }
    ensures { ChangedIn (λ w. w ∷ []) frame words.old words.new
        (where_covered reg (λ _. word ∷ [])) }
{
    fill_region(words, frame, reg, &OneWord { word });
}
