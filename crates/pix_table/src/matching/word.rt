//! Entries as numbers. Each number has the color and the index of an entry.
ghost use Rattle.std.specs.Prelude.{◌≡◌, ◌<◌, ◌≤◌, ◌+◌, ◌%◌, ℕ, List, min, length, slice_index};
ghost use Rattle.pix_table.specs.matching.Nearest.{IsNearest, numbers};
ghost use Rattle.pix_table.specs.matching.InverseMap.{AreEnough, AreWords, word_color, word_key};

use crate::color::Color;
use crate::matching::inverse_map::ShortList;
use crate::matching::search::distance;

/// Returns a color and an index as one number.
pub fn word_of(clr: Color, index: u8) -> u32
    ensures color { word_color result ≡ numbers clr }
    ensures index { result % 256 ≡ index }
{
    u32::from(clr.red) * 16777216
        + u32::from(clr.green) * 65536
        + u32::from(clr.blue) * 256
        + u32::from(index)
}

/// Returns the color of such a number.
#[inline(always)]
pub fn color_of(word: u32) -> Color
    ensures { numbers result ≡ word_color word }
{
    Color {
        red: (word / 16777216) as u8,
        green: (word / 65536 % 256) as u8,
        blue: (word / 256 % 256) as u8,
    }
}

/// Returns a key: 256 times the distance of a number's color from a color, plus the index. The
/// least key is that of the nearest entry.
#[inline(always)]
fn key(word: u32, clr: Color) -> u32
    ensures { result ≡ word_key (numbers clr) word }
{
    distance(color_of(word), clr) * 256 + word % 256
}

/// Returns the least key of four entries that stand in a list from a place on.
#[inline(always)]
fn least_of_four(words: &[u32], lists: &[u8], at: usize, clr: Color) -> u32
    requires words { length words.now ≡ 256 }
    requires room { at + 4 ≤ length lists.now }
    ensures { result ≡ min
        (min (word_key (numbers clr) (slice_index words.now (slice_index lists.now (at + 0))))
        (word_key (numbers clr) (slice_index words.now (slice_index lists.now (at + 1)))))
        (min (word_key (numbers clr) (slice_index words.now (slice_index lists.now (at + 2))))
        (word_key (numbers clr) (slice_index words.now (slice_index lists.now (at + 3))))) }
{
    let first = key(words[usize::from(lists[at])], clr);
    let second = key(words[usize::from(lists[at + 1])], clr);
    let third = key(words[usize::from(lists[at + 2])], clr);
    let fourth = key(words[usize::from(lists[at + 3])], clr);
    first.min(second).min(third.min(fourth))
}

/// Returns the nearest of the entries of a short list. They are looked at in fours, so up to three
/// entries after the list are looked at too.
#[inline(always)]
pub fn nearest_in_list(words: &[u32], lists: &[u8], known: ShortList, clr: Color) -> u8
    requires words { length words.now ≡ 256 }
    requires some { 0 < known.count }
    requires room { known.start + known.count + 3 ≤ length lists.now }
    ensures { (entries : List (List ℕ)) → AreWords entries words.now
        → AreEnough entries (numbers clr) (λ p. slice_index lists.now (known.start + p)) known.count
        → IsNearest entries (numbers clr) result }
{
    let start = usize::from(known.start);
    let mut least = least_of_four(words, lists, start, clr);
    for q in 1..(usize::from(known.count) + 3) / 4 {
        least = least.min(least_of_four(words, lists, start + 4 * q, clr));
    }
    (least % 256) as u8
}
