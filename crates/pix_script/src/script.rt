//! What a script paints.
ghost use Rattle.std.specs.Prelude.{◌≡◌, ℕ, ◌<◌, ◌∷◌, length, IfOk, IfErr, OnOk, Err, fold};
ghost use Rattle.std.specs.Str.Lines.{strip_carriage_return};
ghost use Rattle.pix_script.specs.Lines.{words_of, lines_of};
ghost use Rattle.pix_script.specs.Picture.{Images, after, clear_picture, drawn};
ghost use Rattle.pix_script.specs.Seen.{Shows};
ghost use Rattle.pix_script.specs.Reading.{ReadsLine, ReadsLines, held};
ghost use Rattle.pix_script.specs.Script.{Gives, IsFirstFault, outcome_of, text_of};

use crate::command::{Earlier, Line};
use crate::fault::{PaintFault, Problem};
use crate::lines::{read_words, without_return};
use crate::parse::parse;
use crate::picture::raster_text;
use pix_el::rgb::Rgba8p;
use pix_raster::Raster;
use std::alloc::Global;

/// The most bytes that a script may have.
pub const MAX_SCRIPT: usize = 1_048_576;

/// Renders a script. Returns the text of its image, with a line for each row. A script without
/// commands has no text. All lines are checked before the first pixel changes.
///
/// # Errors
///
/// The first faulty line with its problem, `TooLong` for more than [`MAX_SCRIPT`] bytes, or
/// `OutOfMemory` after an allocation failure.
pub fn paint_text(alloc: Global, script: &[u8]) -> Result<Vec<u8>, PaintFault>
    ensures outcome { Gives (λ text. text.items) result (outcome_of script.now) }
    ensures long { MAX_SCRIPT < length script.now → result ≡ Err PaintFault.TooLong }
    ensures first { (number : ℕ) (problem : Problem)
        → result ≡ Err (PaintFault.Line number problem)
        → IsFirstFault (lines_of script.now) number problem }
{
    if script.len() > MAX_SCRIPT {
        return Err(PaintFault::TooLong);
    }
    let read = read_lines(alloc, script)?;
    render(alloc, &read.commands)
}

/// A script that was read.
#[derive(Drop)]
struct Script {
    /// The commands of its lines.
    commands: Vec<Line>,
    /// Which of them there are.
    earlier: Earlier,
}

/// Reads all lines.
fn read_lines(alloc: Global, script: &[u8]) -> Result<Script, PaintFault>
    ensures { ReadsLines (λ read. read.commands.items) (lines_of script.now) result }
{
    let mut read = Script {
        commands: Vec::new(alloc),
        earlier: Earlier {
            image: false,
            keep: false,
        },
    };
    // The next line uses the same memory for its words.
    let mut words = Vec::new(alloc);
    for (index, line) in script.split(|byte| *byte == b'\n').enumerate() {
        read.read_line(&mut words, index + 1, line)?;
    }
    Ok(read)
}

impl Script {
    /// Reads the line of this number, into `words` first. A comment has no words to read.
    fn read_line<'a>(
        &mut self,
        words: &mut Vec<&'a [u8]>,
        number: usize,
        line: &'a [u8],
    ) -> Result<(), PaintFault>
        ensures { ReadsLine (held self.old) (held self.new) number
            (words_of (strip_carriage_return line.now)) result }
    {
        let line = without_return(line);
        if line.first() == Some(&b'#') {
            return Ok(());
        }
        read_words(words, line)?;
        match parse(words, self.earlier) {
            Err(problem) => return Err(PaintFault::Line(number, problem)),
            Ok(None) => {}
            Ok(Some(command)) => {
                self.commands
                    .push(command)
                    .map_err(|_| PaintFault::OutOfMemory)?;
            }
        }
        self.earlier = self.earlier.with(words);
        Ok(())
    }
}

/// Renders commands, of which `image` is the first.
fn render(alloc: Global, commands: &[Line]) -> Result<Vec<u8>, PaintFault>
    ensures text { IfOk result (λ text. text.items ≡ text_of commands.now) }
    ensures memory { IfErr result (λ fault. fault ≡ PaintFault.OutOfMemory) }
{
    match commands {
        [] => Ok(Vec::new(alloc)),
        [first, others @ ..] => render_from(alloc, *first, others),
    }
}

/// Renders commands, given the first, which makes the image, and the others.
fn render_from(alloc: Global, first: Line, others: &[Line]) -> Result<Vec<u8>, PaintFault>
    ensures text { IfOk result (λ text. text.items ≡ text_of (first ∷ others.now)) }
    ensures memory { IfErr result (λ fault. fault ≡ PaintFault.OutOfMemory) }
{
    let Line::Image { width, height } = first else {
        return Ok(Vec::new(alloc));
    };
    // Both sides are at most 1024, so only an allocation failure can stop it.
    let Ok(mut image) = Raster::<Rgba8p>::with_clear(alloc, width, height) else {
        return Err(PaintFault::OutOfMemory);
    };
    draw(alloc, &mut image, others)?;
    Ok(raster_text(alloc, &image)?)
}

/// Draws on an image, before anything is kept.
fn draw(alloc: Global, image: &mut Raster<Rgba8p>, commands: &[Line]) -> Result<(), PaintFault>
    ensures drawn { (images : Images) → images.kept ≡ clear_picture 0 0
        → Shows image.old images.image
        → OnOk result (Shows image.new (fold after images commands.now).image) }
    ensures memory { IfErr result (λ fault. fault ≡ PaintFault.OutOfMemory) }
{
    let Ok(mut kept) = Raster::<Rgba8p>::with_clear(alloc, 0, 0) else {
        return Err(PaintFault::OutOfMemory);
    };
    // A copy is made only where something was drawn since the last one. A clear image is not
    // cleared again.
    let mut is_kept = false;
    let mut is_clear = false;
    for line in commands {
        if line.keeps() {
            if !is_kept {
                keep(alloc, image, &mut kept)?;
                is_kept = true;
            }
        } else if line.changes(is_clear) {
            draw_line(image, &kept, line);
            is_kept = false;
            is_clear = line.clears();
        }
    }
    Ok(())
}

/// Makes `kept` a copy of an image. Where `kept` has the same width and height, its memory is used
/// again.
fn keep(alloc: Global, image: &Raster<Rgba8p>, kept: &mut Raster<Rgba8p>) -> Result<(), PaintFault>
    ensures kept { OnOk result (kept.new ≡ image.now) }
    ensures memory { IfErr result (λ fault. fault ≡ PaintFault.OutOfMemory) }
{
    if kept.width() == image.width() && kept.height() == image.height() {
        kept.pixels_mut().copy_from_slice(image.pixels());
        return Ok(());
    }
    let Ok(copy) = image.try_clone(alloc) else {
        return Err(PaintFault::OutOfMemory);
    };
    *kept = copy;
    Ok(())
}

/// Draws what one command draws, where `kept` is the kept image.
fn draw_line(image: &mut Raster<Rgba8p>, kept: &Raster<Rgba8p>, line: &Line)
    ensures { (images : Images) → Shows image.old images.image → Shows kept.now images.kept →
        Shows image.new (drawn images.kept images.image line.now) }
{
    match line.drawing(kept) {
        Some(command) => image.run(&[command]),
        None => {}
    }
}
