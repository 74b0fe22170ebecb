//! The places of cells of colors: the number of each, where it lies, and the cells around it.
//!
//! Small cells have eight reds, eight greens and eight blues. The larger ones have sixteen,
//! thirty-two and sixty-four of each. Small cells are numbered first, and then the larger ones by
//! size.
ghost use Rattle.std.specs.Prelude.{◌≡◌, ◌<◌, ◌≤◌, ◌+◌, ℕ, List, true};
ghost use Rattle.pix_table.specs.matching.Nearest.{distance, numbers};
ghost use Rattle.pix_table.specs.matching.InverseMap.{IsInside, IsLow, end, low_at, reach_at};

use crate::color::Color;
use crate::matching::search::distance;

/// The number of small cells.
const SMALL: usize = 32768;

/// The number of the first cell of sixteen. After the small cells come the larger ones, by size.
const SIXTEENS: usize = SMALL;

/// The number of the first cell of thirty-two.
const THIRTY_TWOS: usize = 36864;

/// The number of the first cell of sixty-four.
const SIXTY_FOURS: usize = 37376;

/// Returns the number of a color's small cell.
#[inline(always)]
pub(crate) fn place_of(clr: Color) -> usize
    ensures below { result < 32768 }
    ensures inside { IsInside (reach_at result) (low_at result) (numbers clr) }
{
    usize::from(clr.red) / 8 * 1024 + usize::from(clr.green) / 8 * 32 + usize::from(clr.blue) / 8
}

/// Returns the number of the cell of sixteen around a small one.
pub(crate) fn sixteen_around(place: usize) -> usize
    requires { place < 32768 }
    ensures sixteen { 32768 ≤ result }
    ensures below { result < 36864 }
    ensures inside { (color : List ℕ) → IsInside (reach_at place) (low_at place) color
        → IsInside (reach_at result) (low_at result) color }
{
    SIXTEENS + place / 2048 * 256 + place / 64 % 16 * 16 + place / 2 % 16
}

/// Returns the number of the cell of thirty-two around one of sixteen.
pub(crate) fn thirty_two_around(place: usize) -> usize
    requires sixteen { 32768 ≤ place }
    requires few { place < 36864 }
    ensures thirty_two { 36864 ≤ result }
    ensures below { result < 37376 }
    ensures inside { (color : List ℕ) → IsInside (reach_at place) (low_at place) color
        → IsInside (reach_at result) (low_at result) color }
{
    let at = place - SIXTEENS;
    THIRTY_TWOS + at / 512 * 64 + at / 32 % 8 * 8 + at / 2 % 8
}

/// Returns the number of the cell of sixty-four around one of thirty-two.
pub(crate) fn sixty_four_around(place: usize) -> usize
    requires thirty_two { 36864 ≤ place }
    requires few { place < 37376 }
    ensures sixty_four { 37376 ≤ result }
    ensures below { result < 37440 }
    ensures inside { (color : List ℕ) → IsInside (reach_at place) (low_at place) color
        → IsInside (reach_at result) (low_at result) color }
{
    let at = place - THIRTY_TWOS;
    SIXTY_FOURS + at / 128 * 16 + at / 16 % 4 * 4 + at / 2 % 4
}

/// Returns how far a cell reaches from its least color in each channel.
pub(crate) fn reach_of(place: usize) -> u8
    ensures { result ≡ reach_at place }
{
    if place < SIXTEENS {
        7
    } else if place < THIRTY_TWOS {
        15
    } else if place < SIXTY_FOURS {
        31
    } else {
        63
    }
}

/// Returns the color of a cell that is least in each channel.
pub(crate) fn low_of(place: usize) -> Color
    requires { place < 37440 }
    ensures low { numbers result ≡ low_at place }
    ensures is_low { IsLow (reach_at place) (numbers result) }
{
    let (red, green, blue) = if place < SIXTEENS {
        (place / 1024 * 8, place / 32 % 32 * 8, place % 32 * 8)
    } else if place < THIRTY_TWOS {
        let at = place - SIXTEENS;
        (at / 256 * 16, at / 16 % 16 * 16, at % 16 * 16)
    } else if place < SIXTY_FOURS {
        let at = place - THIRTY_TWOS;
        (at / 64 * 32, at / 8 % 8 * 32, at % 8 * 32)
    } else {
        let at = place - SIXTY_FOURS;
        (at / 16 * 64, at / 4 % 4 * 64, at % 4 * 64)
    };
    Color {
        red: red as u8,
        green: green as u8,
        blue: blue as u8,
    }
}

/// Returns a color near the middle of a cell.
pub(crate) fn middle(low: Color, reach: u8) -> Color
    requires { IsLow reach (numbers low) }
    ensures { IsInside reach (numbers low) (numbers result) }
{
    Color {
        red: low.red + reach / 2,
        green: low.green + reach / 2,
        blue: low.blue + reach / 2,
    }
}

/// Returns the end of a cell in one channel, from `low` on, that is on the side of `y` as seen from
/// `x`. It has no branch, since a processor couldn't predict one.
#[inline(always)]
fn end(low: u8, reach: u8, x: u8, y: u8) -> u8
    requires { low + reach ≤ 255 }
    ensures { result ≡ end reach low x y }
{
    let past = (255 + u32::from(y) - u32::from(x)) / 256;
    (u32::from(low) + u32::from(reach) * past) as u8
}

/// Returns whether `near` is nearer than `far` to the corner of a cell on the side of `far`. Then
/// it is nearer to each color of the cell.
#[inline(always)]
pub(crate) fn is_nearer(near: Color, far: Color, low: Color, reach: u8) -> bool
    requires { IsLow reach (numbers low) }
    ensures { result ≡ true → (color : List ℕ) → IsInside reach (numbers low) color
        → distance (numbers near) color < distance (numbers far) color }
{
    let corner = Color {
        red: end(low.red, reach, near.red, far.red),
        green: end(low.green, reach, near.green, far.green),
        blue: end(low.blue, reach, near.blue, far.blue),
    };
    distance(near, corner) < distance(far, corner)
}
