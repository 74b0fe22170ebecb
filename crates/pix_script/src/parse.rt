//! The words of a line as its command.
ghost use Rattle.std.specs.Prelude.{◌≡◌, ◌∷◌, ◌||◌, map, Some};
ghost use Rattle.std.specs.Option.{option_map};
ghost use Rattle.pix_script.specs.Commands.{new_image, on_image, from_kept, named, commands};
ghost use Rattle.pix_script.specs.Commands.{problem_of, meaning_of, problem_of_shape, any_fails};
ghost use Rattle.pix_script.specs.Commands.{is_bad_operator, is_bad_number, is_bad_color, is_above};
ghost use Rattle.pix_script.specs.Commands.{any_side_above};
ghost use Rattle.pix_script.specs.Meaning.{rectangle_of, image_of, fill_of, paint_of, copy_of};
ghost use Rattle.pix_script.specs.Meaning.{comp_of};
ghost use Rattle.pix_script.specs.Numbers.{side_of};
ghost use Rattle.pix_script.specs.Reading.{Reads, Checks, IsRowOf, AreBad, shape_of};

use crate::command::Kind::{Color, Coordinate, Operator, Side};
use crate::command::{Earlier, Kind, Line};
use crate::fault::Problem;
use crate::number::{color, coordinate, side};
use pix_el::ops::Op;
use pix_raster::Region;

/// The greatest side of an image.
const MAX_IMAGE_SIDE: u32 = 1024;

/// The row of a command. It says what the words after the name have to be, whether the command
/// makes the image, and whether it reads the kept image. It also says what valid words mean.
#[derive(Clone, Copy)]
struct Row {
    words: &'static [Kind],
    makes_image: bool,
    reads_kept: bool,
    line: Option<Line>,
}

/// Returns the command of a line of these words, or `None` for a comment and a line without words.
///
/// # Errors
///
/// The line's problem.
pub(crate) fn parse(words: &[&[u8]], earlier: Earlier) -> Result<Option<Line>, Problem>
    ensures { let all = map (λ word. word.now) words.now in
        Reads (problem_of earlier all) (meaning_of all) result }
{
    match words {
        [] => Ok(None),
        [name, arguments @ ..] => parse_words(name, arguments, earlier),
    }
}

/// Returns the command of a line, given its first word and those after it, or `None` for a comment.
///
/// # Errors
///
/// The line's problem.
#[tactic(auto, unfolding(crate::specs::Commands::problem_of, crate::specs::Commands::meaning_of))]
fn parse_words(name: &[u8], arguments: &[&[u8]], earlier: Earlier) -> Result<Option<Line>, Problem>
    ensures { let all = name.now ∷ map (λ word. word.now) arguments.now in
        Reads (problem_of earlier all) (meaning_of all) result }
{
    if name.first() == Some(&b'#') {
        return Ok(None);
    }
    let Some(row) = row_of(name, arguments) else {
        return Err(Problem::UnknownWord);
    };
    check(&row, arguments, earlier)?;
    Ok(row.line)
}

/// Returns the row of the command of a name, where these words follow the name. It is the table of
/// all commands.
fn row_of(name: &[u8], words: &[&[u8]]) -> Option<Row>
    ensures shape { option_map shape_of result
        ≡ option_map (λ c. c.shape) (named name.now commands) }
    ensures line { let all = map (λ word. word.now) words.now in
        option_map (λ r. r.line) result
        ≡ option_map (λ c. c.reading all) (named name.now commands) }
{
    if name == b"image".as_slice() {
        return Some(new_image(&[Side, Side], image(words)));
    }
    if name == b"clear".as_slice() {
        return Some(on_image(&[], Some(Line::Clear)));
    }
    if name == b"fill".as_slice() {
        return Some(on_image(&[Coordinate, Coordinate, Side, Side, Color], fill(words)));
    }
    if name == b"paint".as_slice() {
        return Some(on_image(
            &[Operator, Coordinate, Coordinate, Side, Side, Color],
            paint(words),
        ));
    }
    if name == b"keep".as_slice() {
        return Some(on_image(&[], Some(Line::Keep)));
    }
    if name == b"copy".as_slice() {
        return Some(from_kept(
            &[Coordinate, Coordinate, Coordinate, Coordinate, Side, Side],
            copy(words),
        ));
    }
    if name == b"comp".as_slice() {
        return Some(from_kept(
            &[
                Operator, Coordinate, Coordinate, Coordinate, Coordinate, Side, Side,
            ],
            comp(words),
        ));
    }
    None
}

/// The row of a command that makes the image.
fn new_image(words: &'static [Kind], line: Option<Line>) -> Row
    ensures shape { shape_of result ≡ new_image words.now }
    ensures line { result.line ≡ line }
{
    Row {
        words,
        makes_image: true,
        reads_kept: false,
        line,
    }
}

/// The row of a command that works on the image alone.
fn on_image(words: &'static [Kind], line: Option<Line>) -> Row
    ensures shape { shape_of result ≡ on_image words.now }
    ensures line { result.line ≡ line }
{
    Row {
        words,
        makes_image: false,
        reads_kept: false,
        line,
    }
}

/// The row of a command that works on the image and reads the kept one.
fn from_kept(words: &'static [Kind], line: Option<Line>) -> Row
    ensures shape { shape_of result ≡ from_kept words.now }
    ensures line { result.line ≡ line }
{
    Row {
        words,
        makes_image: false,
        reads_kept: true,
        line,
    }
}

/// Reads the words after `image`: width and height.
#[tactic(auto, unfolding(crate::specs::Meaning::image_of))]
fn image(arguments: &[&[u8]]) -> Option<Line>
    ensures { result ≡ image_of (map (λ word. word.now) arguments.now) }
{
    let [width, height] = arguments else {
        return None;
    };
    let width = side(width)?;
    let height = side(height)?;
    Some(Line::Image { width, height })
}

/// Reads the words after `fill`: left, top, width, height and color.
#[tactic(auto, unfolding(crate::specs::Meaning::fill_of))]
fn fill(arguments: &[&[u8]]) -> Option<Line>
    ensures { result ≡ fill_of (map (λ word. word.now) arguments.now) }
{
    let [x, y, width, height, clr] = arguments else {
        return None;
    };
    let reg = region(x, y, width, height)?;
    let color = color(clr)?;
    Some(Line::Fill { reg, color })
}

/// Reads the words after `paint`: operator, left, top, width, height and color.
#[tactic(auto, unfolding(crate::specs::Meaning::paint_of))]
fn paint(arguments: &[&[u8]]) -> Option<Line>
    ensures { result ≡ paint_of (map (λ word. word.now) arguments.now) }
{
    let [op, x, y, width, height, clr] = arguments else {
        return None;
    };
    let op = Op::from_name(op)?;
    let reg = region(x, y, width, height)?;
    let color = color(clr)?;
    Some(Line::Paint { op, reg, color })
}

/// Reads the words after `copy`: left and top of the destination, left and top of the source, width
/// and height.
#[tactic(auto, unfolding(crate::specs::Meaning::copy_of))]
fn copy(arguments: &[&[u8]]) -> Option<Line>
    ensures { result ≡ copy_of (map (λ word. word.now) arguments.now) }
{
    let [to_x, to_y, from_x, from_y, width, height] = arguments else {
        return None;
    };
    let to = region(to_x, to_y, width, height)?;
    let from = region(from_x, from_y, width, height)?;
    Some(Line::Copy { to, from })
}

/// Reads the words after `comp`: an operator, and then those of `copy`.
#[tactic(auto, unfolding(crate::specs::Meaning::comp_of))]
fn comp(arguments: &[&[u8]]) -> Option<Line>
    ensures { result ≡ comp_of (map (λ word. word.now) arguments.now) }
{
    let [op, to_x, to_y, from_x, from_y, width, height] = arguments else {
        return None;
    };
    let op = Op::from_name(op)?;
    let to = region(to_x, to_y, width, height)?;
    let from = region(from_x, from_y, width, height)?;
    Some(Line::Comp { op, to, from })
}

/// Checks the words after a command's name, from which its row was made.
fn check(row: &Row, arguments: &[&[u8]], earlier: Earlier) -> Result<(), Problem>
    ensures { let all = map (λ word. word.now) arguments.now in
        IsRowOf row.now all
        → Checks (problem_of_shape earlier all (Some (shape_of row.now))) result }
{
    let bad = bad_words_of(row, arguments);
    if bad.operator {
        return Err(Problem::UnknownWord);
    }
    if arguments.len() != row.words.len() {
        return Err(Problem::WrongCount);
    }
    if !row.makes_image && !earlier.image {
        return Err(Problem::NoImage);
    }
    if row.makes_image && earlier.image {
        return Err(Problem::SecondImage);
    }
    if bad.number {
        return Err(Problem::BadNumber);
    }
    if bad.color {
        return Err(Problem::BadColor);
    }
    if row.makes_image && has_side_above(arguments) {
        return Err(Problem::TooBig);
    }
    if row.reads_kept && !earlier.keep {
        return Err(Problem::NothingKept);
    }
    Ok(())
}

/// Returns which of the words are bad in their places. Words that the row's line was read from are
/// not bad, and aren't read again.
fn bad_words_of(row: &Row, arguments: &[&[u8]]) -> Bad
    ensures { let all = map (λ word. word.now) arguments.now in
        IsRowOf row.now all → AreBad row.now.words.now all result }
{
    match row.line {
        Some(_) => Bad {
            operator: false,
            number: false,
            color: false,
        },
        None => bad_words(row.words, arguments),
    }
}

/// Which words do not spell what they have to.
#[derive(Clone, Copy)]
struct Bad {
    operator: bool,
    number: bool,
    color: bool,
}

impl Bad {
    /// Returns what is bad in either of the two.
    fn or(self, other: Bad) -> Bad
        ensures operator { result.operator ≡ (self.operator || other.operator) }
        ensures number { result.number ≡ (self.number || other.number) }
        ensures color { result.color ≡ (self.color || other.color) }
    {
        Bad {
            operator: self.operator || other.operator,
            number: self.number || other.number,
            color: self.color || other.color,
        }
    }
}

/// Returns which of the words are bad in their places.
fn bad_words(kinds: &[Kind], arguments: &[&[u8]]) -> Bad
    ensures operator { result.operator
        ≡ any_fails is_bad_operator kinds.now (map (λ word. word.now) arguments.now) }
    ensures number { result.number
        ≡ any_fails is_bad_number kinds.now (map (λ word. word.now) arguments.now) }
    ensures color { result.color
        ≡ any_fails is_bad_color kinds.now (map (λ word. word.now) arguments.now) }
{
    let mut bad = Bad {
        operator: false,
        number: false,
        color: false,
    };
    for (place, kind) in kinds.iter().enumerate() {
        if let Some(word) = arguments.get(place) {
            bad = bad.or(bad_word(*kind, word));
        }
    }
    bad
}

/// Returns whether the word is bad in the place of a kind.
fn bad_word(kind: Kind, word: &[u8]) -> Bad
    ensures operator { result.operator ≡ is_bad_operator kind word.now }
    ensures number { result.number ≡ is_bad_number kind word.now }
    ensures color { result.color ≡ is_bad_color kind word.now }
{
    let none = Bad {
        operator: false,
        number: false,
        color: false,
    };
    match kind {
        Operator => Bad {
            operator: Op::from_name(word).is_none(),
            ..none
        },
        Coordinate => Bad {
            number: coordinate(word).is_none(),
            ..none
        },
        Side => Bad {
            number: side(word).is_none(),
            ..none
        },
        Color => Bad {
            color: color(word).is_none(),
            ..none
        },
    }
}

/// Returns whether some word spells a side that no image has.
fn has_side_above(arguments: &[&[u8]]) -> bool
    ensures { result ≡ any_side_above MAX_IMAGE_SIDE (map (λ word. word.now) arguments.now) }
{
    for word in arguments {
        if is_above(word) {
            return true;
        }
    }
    false
}

/// Returns whether the word spells a side that no image has.
fn is_above(word: &[u8]) -> bool
    ensures { result ≡ is_above MAX_IMAGE_SIDE (side_of word.now) }
{
    match side(word) {
        Some(side) => side > MAX_IMAGE_SIDE,
        None => false,
    }
}

/// Returns the region of four words: left, top, width and height.
#[tactic(auto, unfolding(crate::specs::Meaning::rectangle_of))]
fn region(x: &[u8], y: &[u8], width: &[u8], height: &[u8]) -> Option<Region>
    ensures { result ≡ rectangle_of x.now y.now width.now height.now }
{
    let x = coordinate(x)?;
    let y = coordinate(y)?;
    let width = side(width)?;
    let height = side(height)?;
    Some(Region::new(x, y, width, height))
}
