//! Hues: the circle of colors that a chroma and a value leave open.
ghost use Rattle.std.specs.Prelude.{◌≡◌, ◌+◌, ◌*◌, ◌-◌, ◌<◌, ◌≤◌, [], ◌∷◌};
ghost use Rattle.pix_color.specs.Hexcone.{numbered, hexcone_of, rgb_of_hexcone, lifted_rgb, turn};
ghost use Rattle.pix_color.specs.Hexcone.{red_share, green_share, blue_share};
ghost use Rattle.pix_color.specs.Hexcone.{hue_at, hue_after, hue_of, chroma_of, value_of};

use crate::numbers::{complement, divided_short, exact, max, nearest, number, product, sum, units};
use pix_chan::quotients8::quotient_by_byte;
use pix_el::chan::Channel;

/// A sixth of the hexcone, the circle of hues (A. R. Smith, *Color Gamut Transform Pairs*, SIGGRAPH
/// 1978), from the color that it is named for on. Its weight says how far on.
///
/// # Examples
///
/// ```rust
/// let part = Hexcone::from_hue(Ch8::new(85)); // Hexcone::Green, with the weight 0
/// let green = part.rgb(Ch8::new(128)); // (0, 128, 0)
/// let (hue, chroma, value) = rgb_to_hue_chroma_value(green.0, green.1, green.2);
/// ```
#[derive(Clone, Copy, Debug, PartialEq, Eq)]
pub enum Hexcone<C> {
    /// From red to yellow.
    Red(C),
    /// From yellow to green.
    Yellow(C),
    /// From green to cyan.
    Green(C),
    /// From cyan to blue.
    Cyan(C),
    /// From blue to magenta.
    Blue(C),
    /// From magenta to red.
    Magenta(C),
}

impl<C: Channel> Hexcone<C> {
    /// Returns the sixth in which a hue lies. The maximum is the start of red, as 0 is.
    pub fn from_hue(hue: C) -> Self
        ensures { numbered C.number result ≡ hexcone_of C.max (C.number hue) }
    {
        let sixths = 6 * number(hue);
        let weight = exact(sixths % max::<C>());
        match sixths / max::<C>() {
            0 => Hexcone::Red(weight),
            1 => Hexcone::Yellow(weight),
            2 => Hexcone::Green(weight),
            3 => Hexcone::Cyan(weight),
            4 => Hexcone::Blue(weight),
            5 => Hexcone::Magenta(weight),
            _ => Hexcone::Red(weight),
        }
    }

    /// Returns red, green and blue at a chroma. The least of them is 0, and the greatest is the
    /// chroma.
    pub fn rgb(self, chroma: C) -> (C, C, C)
        ensures red { C.number result.0 ≡ (rgb_of_hexcone C.max (numbered C.number self)
            (C.number chroma)).0 }
        ensures green { C.number result.1 ≡ (rgb_of_hexcone C.max (numbered C.number self)
            (C.number chroma)).1 }
        ensures blue { C.number result.2 ≡ (rgb_of_hexcone C.max (numbered C.number self)
            (C.number chroma)).2 }
    {
        match self {
            Hexcone::Red(weight) => (chroma, product(chroma, weight), C::MIN),
            Hexcone::Yellow(weight) => (product(chroma, complement(weight)), chroma, C::MIN),
            Hexcone::Green(weight) => (C::MIN, chroma, product(chroma, weight)),
            Hexcone::Cyan(weight) => (C::MIN, product(chroma, complement(weight)), chroma),
            Hexcone::Blue(weight) => (product(chroma, weight), C::MIN, chroma),
            Hexcone::Magenta(weight) => (chroma, C::MIN, product(chroma, complement(weight))),
        }
    }
}

/// Returns how much of its chroma each of red, green and blue has at a hue.
///
/// It looks for no sixth, because a processor could not predict a branch on it. Numbers of 32 bits
/// let LLVM convert several pixels at once.
#[inline(always)]
fn shares<C: Channel>(hue: C) -> (C, C, C)
    ensures red { C.number result.0 ≡ red_share C.max (6 * C.number hue) }
    ensures green { C.number result.1 ≡ green_share C.max (6 * C.number hue) }
    ensures blue { C.number result.2 ≡ blue_share C.max (6 * C.number hue) }
{
    let place = 6 * units(hue);
    let top = units(C::MAX);
    let red = (2 * top)
        .saturating_sub(place)
        .max(place.saturating_sub(4 * top));
    let green = place.min((4 * top).saturating_sub(place));
    let blue = place
        .saturating_sub(2 * top)
        .min((6 * top).saturating_sub(place));
    (
        exact(u64::from(red.min(top))),
        exact(u64::from(green.min(top))),
        exact(u64::from(blue.min(top))),
    )
}

/// Returns red, green and blue of a hue at a chroma, with `lift` added to each.
#[inline(always)]
pub(crate) fn lifted_rgb<C: Channel>(hue: C, chroma: C, lift: C) -> (C, C, C)
    ensures { C.number result.0 ∷ C.number result.1 ∷ C.number result.2 ∷ []
        ≡ lifted_rgb C.max (C.number hue) (C.number chroma) (C.number lift) }
{
    let (red, green, blue) = shares(hue);
    (
        sum(product(chroma, red), lift),
        sum(product(chroma, green), lift),
        sum(product(chroma, blue), lift),
    )
}

/// Returns the hue that is `n` / (6 * `chroma`) of the circle. Condition: the chroma is a
/// channel's, not 0, and that part is at most 1.
fn hue_at<C: Channel>(n: u64, chroma: u64) -> C
    requires positive { 0 < chroma }
    requires small { chroma < 65536 }
    requires within { n ≤ 6 * chroma }
    ensures { C.number result ≡ hue_at C.max n chroma }
{
    nearest(max::<C>() * n, 6 * chroma)
}

/// Returns the hue after a turn of `n` / (6 * `chroma`) of the circle, 0 where the chroma is 0. At
/// eight bits it multiplies by a reciprocal instead of dividing. At sixteen it divides numbers of
/// 32 bits: a third of the maximum times `n`, and half of that, fit.
///
/// Condition: the chroma is a channel's, and that part is at most 1.
#[inline(always)]
fn hue_after<C: Channel>(n: u64, chroma: u64) -> C
    requires fits { chroma ≤ C.max }
    requires within { n ≤ 6 * chroma }
    ensures { C.number result ≡ hue_after C.max n chroma }
{
    if max::<C>() == 255 {
        exact(quotient_by_byte(85 * n + chroma, chroma) / 2)
    } else if chroma == 0 {
        C::MIN
    } else if max::<C>() == 65535 {
        exact(divided_short((21845 * n + chroma) / 2, chroma))
    } else {
        hue_at(n, chroma)
    }
}

/// Returns how far round the circle a color of this chroma and value is, where each sixth is as
/// long as the chroma.
///
/// All three cases are computed and one is taken, so that the code need not branch.
#[inline(always)]
fn turn(r: u64, g: u64, b: u64, chroma: u64, value: u64) -> u64
    requires small { value < 65536 }
    requires value { value ≡ value_of r g b }
    requires chroma { chroma ≡ chroma_of r g b }
    ensures value { result ≡ turn r g b chroma value }
    ensures within { result ≤ 6 * chroma }
{
    let whole = 6 * chroma;
    let start = if g < b { whole } else { 0 };
    let from_red = start + g - b;
    let from_green = 2 * chroma + b - r;
    let from_blue = 4 * chroma + r - g;
    if value == r {
        from_red
    } else if value == g {
        from_green
    } else {
        from_blue
    }
}

/// Returns the hue, the chroma and the value of red, green and blue. The hue of a gray is 0.
pub fn rgb_to_hue_chroma_value<C: Channel>(red: C, green: C, blue: C) -> (C, C, C)
    ensures hue { C.number result.0 ≡ hue_of C.max (C.number red) (C.number green) (C.number blue) }
    ensures chroma { C.number result.1 ≡ chroma_of (C.number red) (C.number green) (C.number blue) }
    ensures value { C.number result.2 ≡ value_of (C.number red) (C.number green) (C.number blue) }
{
    let r = number(red);
    let g = number(green);
    let b = number(blue);
    let value = r.max(g).max(b);
    let chroma = value - r.min(g).min(b);
    let hue = hue_after(turn(r, g, b, chroma, value), chroma);
    (hue, exact(chroma), exact(value))
}
