//! Pixels from bytes and as text.
ghost use Rattle.std.specs.Prelude.{◌≡◌, ℕ, List, [], ◌∷◌, ◌++◌, ◌+◌, OnOk, map, take, length, ◌<◌, ◌≤◌};
ghost use Rattle.std.specs.List.{flat_map};
ghost use Rattle.pix_script.specs.Pixels.{color_numbers};
ghost use Rattle.pix_script.specs.Text.{pixel_text};
ghost use Rattle.pix_script.specs.Rows.{text_from};

use crate::text::byte_digits;
use pix_el::chan::Ch8;
use pix_el::el::Pixel;
use pix_el::rgb::Rgba8p;
use std::alloc::AllocError;

/// The pixel of these bytes: red, green, blue and alpha.
#[tactic(auto, unfolding(crate::specs::Pixels::color_numbers))]
pub(crate) fn pixel_of(bytes: [u8; 4]) -> Rgba8p
    ensures { color_numbers result ≡ bytes }
{
    let [red, green, blue, alpha] = bytes;
    Rgba8p::with_channels([
        Ch8::new(red),
        Ch8::new(green),
        Ch8::new(blue),
        Ch8::new(alpha),
    ])
}

/// The digits of a pixel's bytes, red, green, blue and alpha, and the byte after them.
#[tactic(auto, unfolding(crate::specs::Text::pixel_text, crate::specs::Pixels::color_numbers))]
fn pixel_cell(pixel: &Rgba8p, after: u8) -> [u8; 9]
    ensures { result ≡ pixel_text (color_numbers pixel.now) ++ after ∷ [] }
{
    let channels = pixel.channels();
    let [a, b] = byte_digits(channels[0].into());
    let [c, d] = byte_digits(channels[1].into());
    let [e, f] = byte_digits(channels[2].into());
    let [g, h] = byte_digits(channels[3].into());
    [a, b, c, d, e, f, g, h, after]
}

/// Adds the cells, one after the other, with one test for room.
// Out of line, so that one cell, whose length is known, is not copied letter by letter.
#[inline(never)]
fn push_cells(out: &mut Vec<u8>, cells: &[[u8; 9]]) -> Result<(), AllocError>
    ensures { OnOk result (out.new.items ≡ out.old.items ++ flat_map (λ cell. cell) cells.now) }
{
    out.extend_from_slice(cells.as_flattened())
}

/// Returns what comes after the pixel of a column, a space or a line feed, and the next column.
#[inline(always)]
fn after(column: usize, width: usize) -> (u8, usize)
    requires { column < width }
    ensures text { (pixel : List ℕ) (rest : List (List ℕ))
        → text_from width column (pixel ∷ rest)
        ≡ (pixel_text pixel ++ result.0 ∷ []) ++ text_from width result.1 rest }
    ensures column { result.1 < width }
{
    if column + 1 < width {
        (b' ', column + 1)
    } else {
        (b'\n', 0)
    }
}

/// Returns the text of a pixel and the space after it. Condition: it isn't the last of its row.
#[inline(always)]
fn spaced_cell(pixel: &Rgba8p, column: usize, width: usize) -> [u8; 9]
    requires { column + 1 < width }
    ensures { (rest : List (List ℕ)) → text_from width column (color_numbers pixel.now ∷ rest)
        ≡ result ++ text_from width (column + 1) rest }
{
    pixel_cell(pixel, b' ')
}

/// Writes the text of each pixel, and what comes after it, into a cell, from the first cell on. The
/// first pixel is in the column `start`. Returns the column after the last one.
fn write_cells(cells: &mut [[u8; 9]], pixels: &[Rgba8p], start: usize, width: usize) -> usize
    requires room { length pixels.now ≤ length cells.old }
    requires start { start < width }
    ensures text { (rest : List (List ℕ))
        → text_from width start (map color_numbers pixels.now ++ rest)
        ≡ flat_map (λ cell. cell) (take (length pixels.now) cells.new)
        ++ text_from width result rest }
    ensures column { result < width }
{
    let spaced = pixels.len().min(width - 1 - start);
    for i in 0..spaced {
        cells[i] = spaced_cell(&pixels[i], start + i, width);
    }
    let mut column = start + spaced;
    for k in spaced..pixels.len() {
        let (byte, next) = after(column, width);
        cells[k] = pixel_cell(&pixels[k], byte);
        column = next;
    }
    column
}

/// Adds the text of rows of pixels, up to 32 pixels at once. So the rows of a picture a few columns
/// wide take no longer than others.
///
/// Condition: a row has a pixel.
pub(crate) fn push_rows(
    out: &mut Vec<u8>,
    pixels: &[Rgba8p],
    width: usize,
) -> Result<(), AllocError>
    requires { 0 < width }
    ensures { OnOk result (out.new.items
        ≡ out.old.items ++ text_from width 0 (map color_numbers pixels.now)) }
{
    let mut cells = [[0; 9]; 32];
    let mut column = 0;
    let mut left = pixels;
    while !left.is_empty() {
        let (part, more) = left.split_at(left.len().min(32));
        column = write_cells(&mut cells, part, column, width);
        push_cells(out, &cells[..part.len()])?;
        left = more;
    }
    Ok(())
}
