//! The lines of a script, and their words.
ghost use Rattle.std.specs.Prelude.{◌≡◌, OnOk, map};
ghost use Rattle.std.specs.Str.Lines.{strip_carriage_return};
ghost use Rattle.pix_script.specs.Lines.{words_of};

use std::alloc::AllocError;

/// The line without the one CR at its end, if it has one.
pub(crate) fn without_return(line: &[u8]) -> &[u8]
    ensures { result.now ≡ strip_carriage_return line.now }
{
    match line {
        [front @ .., b'\r'] => front,
        _ => line,
    }
}

/// Sets `words` to the words of a line, which are separated by spaces.
#[tactic(auto, unfolding(crate::specs::Lines::words_of))]
pub(crate) fn read_words<'a>(words: &mut Vec<&'a [u8]>, line: &'a [u8]) -> Result<(), AllocError>
    ensures { OnOk result (map (λ word. word.now) words.new.items ≡ words_of line.now) }
{
    words.clear();
    words.extend(
        line.split(|byte| *byte == b' ')
            .filter(|part| !part.is_empty()),
    )
}
