//! The words of a script as numbers and colors.
ghost use Rattle.std.specs.Prelude.{◌≡◌, ◌<◌, ◌≤◌, IfSome};
ghost use Rattle.pix_script.specs.Numbers.{number_up_to, side_of, coordinate_of, hex_digit_of};
ghost use Rattle.pix_script.specs.Numbers.{hex_byte_of, color_of};

/// The greatest side.
const MAX_SIDE: u32 = 2_147_483_647;

/// The greatest coordinate.
const MAX_COORDINATE: u32 = 2_147_483_647;

/// The least coordinate, without its minus.
const MAX_BELOW_ZERO: u32 = 2_147_483_648;

/// The number of a word of only decimal digits, where it isn't above the limit.
fn number(word: &[u8], limit: u32) -> Option<u32>
    ensures value { result ≡ number_up_to limit word.now }
    ensures bound { IfSome result (λ number. number ≤ limit) }
{
    if word.is_empty() {
        return None;
    }
    let mut value = 0u64;
    for byte in word {
        if !byte.is_ascii_digit() {
            return None;
        }
        value = 10 * value + u64::from(*byte - b'0');
        if value > u64::from(limit) {
            return None;
        }
    }
    Some(value as u32)
}

/// The word as a width or a height.
#[tactic(auto, unfolding(crate::specs::Numbers::side_of))]
pub(crate) fn side(word: &[u8]) -> Option<u32>
    ensures value { result ≡ side_of word.now }
    ensures bound { IfSome result (λ side. side ≤ 2147483647) }
{
    number(word, MAX_SIDE)
}

/// The word as a place across or down, which may start with one minus.
#[tactic(auto, unfolding(crate::specs::Numbers::coordinate_of))]
pub(crate) fn coordinate(word: &[u8]) -> Option<i32>
    ensures { result ≡ coordinate_of word.now }
{
    match word {
        [b'-', digits @ ..] => {
            let distance = number(digits, MAX_BELOW_ZERO)?;
            Some((-i64::from(distance)) as i32)
        }
        _ => {
            let place = number(word, MAX_COORDINATE)?;
            Some(place as i32)
        }
    }
}

/// The value of a hexadecimal digit, in either case.
#[tactic(auto, unfolding(crate::specs::Numbers::hex_digit_of))]
fn hex_digit(letter: u8) -> Option<u8>
    ensures value { result ≡ hex_digit_of letter }
    ensures bound { IfSome result (λ digit. digit < 16) }
{
    match letter {
        b'0'..=b'9' => Some(letter - b'0'),
        b'a'..=b'f' => Some(letter - b'a' + 10),
        b'A'..=b'F' => Some(letter - b'A' + 10),
        _ => None,
    }
}

/// The byte that two hexadecimal digits spell, with the higher digit first.
#[tactic(auto, unfolding(crate::specs::Numbers::hex_byte_of))]
fn hex_byte(high: u8, low: u8) -> Option<u8>
    ensures { result ≡ hex_byte_of high low }
{
    let high = hex_digit(high)?;
    let low = hex_digit(low)?;
    Some(16 * high + low)
}

/// The word as a color: the bytes of red, green, blue and alpha.
#[tactic(auto, unfolding(crate::specs::Numbers::color_of))]
pub(crate) fn color(word: &[u8]) -> Option<[u8; 4]>
    ensures { result ≡ color_of word.now }
{
    let &[r, r2, g, g2, b, b2, a, a2] = word else {
        return None;
    };
    let red = hex_byte(r, r2)?;
    let green = hex_byte(g, g2)?;
    let blue = hex_byte(b, b2)?;
    let alpha = hex_byte(a, a2)?;
    Some([red, green, blue, alpha])
}
