//! Sums of colors: of a box, and of its colors of each value of a channel.
ghost use Rattle.std.specs.Prelude.{◌≡◌, ℕ, ◌+◌, ◌-◌, ◌*◌, ◌/◌, ◌^◌, ◌<◌, ◌≤◌, All, List, [], ◌++◌, length, map, true};
ghost use Rattle.pix_table.specs.matching.Nearest.{numbers};
ghost use Rattle.pix_table.specs.quantization.BestPlaces.{AreBlockWords, AreByValue, AreBytes, ArePart, AreSums, AreWords};
ghost use Rattle.pix_table.specs.quantization.BestPlaces.{is_at, sum_of, weight_by, word_of};

use crate::color::{Color, channel};
use crate::quantization::weight::{square, weight, weight_of_few};

/// The most colors whose words may be added: their count has 16 bits, and each of two sums 24.
pub(crate) const BLOCK: usize = 65535;

/// What counts a color in its word, above the numbers of two channels.
const ONE: u64 = 1 << 48;

/// What the number of one channel is multiplied by in a word. That of the other is below it.
const HIGH: u64 = 1 << 24;

/// Fewer colors than these have sums of at most 30 bits.
pub(crate) const FEW: usize = 1 << 22;

/// More than few colors weigh.
pub(crate) const LITTLE: u128 = 1 << 41;

/// More than a cut of a block gains.
const MUCH: u128 = 1 << 62;

/// Fewer colors than these have sums whose mean is found in 64 bits.
const MANY: u128 = 1 << 54;

/// How many colors there are, and the sums of their numbers in each channel.
#[derive(Clone, Copy)]
pub(crate) struct Sums {
    /// How many colors there are.
    pub(crate) count: usize,
    /// The sum of their reds.
    pub(crate) red: u128,
    /// The sum of their greens.
    pub(crate) green: u128,
    /// The sum of their blues.
    pub(crate) blue: u128,
}

impl Sums {
    /// Returns the sums of no colors.
    pub(crate) fn none() -> Sums
        ensures count { result.count ≡ 0 }
        ensures red { result.red ≡ 0 }
        ensures green { result.green ≡ 0 }
        ensures blue { result.blue ≡ 0 }
    {
        Sums {
            count: 0,
            red: 0,
            green: 0,
            blue: 0,
        }
    }

    /// Returns the sums of the colors that have a value in a channel, of the sum of their words.
    pub(crate) fn of_word(word: u64, k: usize, value: usize) -> Sums
        requires channel { k < 3 }
        requires value { value < 256 }
        ensures { (box : List (List ℕ)) → length box ≤ 65535 → All AreBytes box
            → word ≡ sum_of (is_at k value) (word_of k) box
            → AreSums (is_at k value) box result }
    {
        if word == 0 {
            return Sums::none();
        }
        let count = (word / ONE) as usize;
        let own = (value * count) as u128;
        let (high, low) = (u128::from(word / HIGH % HIGH), u128::from(word % HIGH));
        let (red, green, blue) = match k {
            0 => (own, high, low),
            1 => (high, own, low),
            _ => (high, low, own),
        };
        Sums {
            count,
            red,
            green,
            blue,
        }
    }

    /// Returns the sums with a color more.
    pub(crate) fn with(self, clr: Color) -> Sums
        requires few { self.count < 18446744073709551615 }
        requires red { self.red ≤ 255 * self.count }
        requires green { self.green ≤ 255 * self.count }
        requires blue { self.blue ≤ 255 * self.count }
        ensures count { result.count ≡ self.count + 1 }
        ensures red { result.red ≡ self.red + clr.red }
        ensures green { result.green ≡ self.green + clr.green }
        ensures blue { result.blue ≡ self.blue + clr.blue }
        ensures bytes { AreBytes (numbers clr) }
    {
        Sums {
            count: self.count + 1,
            red: self.red + u128::from(clr.red),
            green: self.green + u128::from(clr.green),
            blue: self.blue + u128::from(clr.blue),
        }
    }

    /// Returns the sums of a color that stands so often.
    pub(crate) fn of_times(clr: Color, times: u16) -> Sums
        ensures count { result.count ≡ times }
        ensures red { result.red ≡ times * clr.red }
        ensures green { result.green ≡ times * clr.green }
        ensures blue { result.blue ≡ times * clr.blue }
        ensures bytes { AreBytes (numbers clr) }
    {
        let count = u32::from(times);
        Sums {
            count: usize::from(times),
            red: u128::from(count * u32::from(clr.red)),
            green: u128::from(count * u32::from(clr.green)),
            blue: u128::from(count * u32::from(clr.blue)),
        }
    }

    /// Returns the sums of these colors and of others.
    pub(crate) fn and(self, more: Sums) -> Sums
        requires few { self.count + more.count < 18446744073709551616 }
        requires red { self.red + more.red ≤ 255 * (self.count + more.count) }
        requires green { self.green + more.green ≤ 255 * (self.count + more.count) }
        requires blue { self.blue + more.blue ≤ 255 * (self.count + more.count) }
        ensures count { result.count ≡ self.count + more.count }
        ensures red { result.red ≡ self.red + more.red }
        ensures green { result.green ≡ self.green + more.green }
        ensures blue { result.blue ≡ self.blue + more.blue }
    {
        Sums {
            count: self.count + more.count,
            red: self.red + more.red,
            green: self.green + more.green,
            blue: self.blue + more.blue,
        }
    }

    /// Returns the sums of these colors without some of them.
    fn without(self, part: Sums) -> Sums
        requires few { part.count ≤ self.count }
        requires red { part.red ≤ self.red }
        requires green { part.green ≤ self.green }
        requires blue { part.blue ≤ self.blue }
        ensures count { result.count ≡ self.count - part.count }
        ensures red { result.red ≡ self.red - part.red }
        ensures green { result.green ≡ self.green - part.green }
        ensures blue { result.blue ≡ self.blue - part.blue }
    {
        Sums {
            count: self.count - part.count,
            red: self.red - part.red,
            green: self.green - part.green,
            blue: self.blue - part.blue,
        }
    }

    /// Returns what they weigh. Condition: there is a color.
    pub(crate) fn weight(self) -> u128
        requires some { 0 < self.count }
        requires red { self.red ≤ 255 * self.count }
        requires green { self.green ≤ 255 * self.count }
        requires blue { self.blue ≤ 255 * self.count }
        ensures weight { result ≡ weight_by self.count self.red self.green self.blue }
        ensures few { result ≤ 195075 * self.count }
    {
        weight(self.count, [self.red, self.green, self.blue])
    }

    /// Returns the mean of the colors, to the nearest whole number in each channel, ties up.
    ///
    /// Condition: there is a color.
    pub(crate) fn mean(self) -> Color
        requires some { 0 < self.count }
        requires red { self.red ≤ 255 * self.count }
        requires green { self.green ≤ 255 * self.count }
        requires blue { self.blue ≤ 255 * self.count }
        ensures red { result.red ≡ (2 * self.red + self.count) / (2 * self.count) }
        ensures green { result.green ≡ (2 * self.green + self.count) / (2 * self.count) }
        ensures blue { result.blue ≡ (2 * self.blue + self.count) / (2 * self.count) }
    {
        let count = self.count as u128;
        Color {
            red: quotient(2 * self.red + count, 2 * count),
            green: quotient(2 * self.green + count, 2 * count),
            blue: quotient(2 * self.blue + count, 2 * count),
        }
    }

    /// Returns what a cut gains, where `low` are the sums of the colors below it.
    ///
    /// All colors weigh `whole`.
    pub(crate) fn gain(self, low: Sums, whole: u128) -> u128
        requires { ArePart low self }
        ensures { result ≡ weight_by low.count low.red low.green low.blue
            + weight_by (self.count - low.count) (self.red - low.red) (self.green - low.green)
            (self.blue - low.blue)
            - whole }
    {
        (low.weight() + self.without(low).weight()).saturating_sub(whole)
    }

    /// Returns what a cut of a block of colors gains, where `low` are the sums of the colors below
    /// it. It adds in 64 bits.
    ///
    /// All colors weigh `whole`.
    #[inline(always)]
    pub(crate) fn gain_of_few(self, low: Sums, whole: u128) -> u128
        requires few { self.count ≤ 65535 }
        requires part { ArePart low self }
        requires whole { whole ≤ 195075 * self.count }
        ensures { result ≡ weight_by low.count low.red low.green low.blue
            + weight_by (self.count - low.count) (self.red - low.red) (self.green - low.green)
            (self.blue - low.blue)
            - whole }
    {
        let high = self.without(low);
        u128::from((low.weight_of_few() + high.weight_of_few()).saturating_sub(whole as u64))
    }

    /// Returns whether it tells, without a division, that a cut of a block of colors gains at most
    /// `most`, where `low` are the sums of the colors below it.
    ///
    /// All colors weigh `whole`.
    #[inline(always)]
    pub(crate) fn gains_little(self, low: Sums, whole: u128, most: u128) -> bool
        requires few { self.count ≤ 65535 }
        requires part { ArePart low self }
        requires whole { whole ≤ 195075 * self.count }
        ensures { result ≡ true → weight_by low.count low.red low.green low.blue
            + weight_by (self.count - low.count) (self.red - low.red) (self.green - low.green)
            (self.blue - low.blue)
            - whole ≤ most }
    {
        let high = self.without(low);
        let (count, others) = (low.count as u64, high.count as u64);
        let squares = u128::from(low.squares_of_few()) * u128::from(others);
        let other_squares = u128::from(high.squares_of_few()) * u128::from(count);
        most < MUCH
            && squares + other_squares
                < u128::from(most as u64 + whole as u64 + 1) * u128::from(count * others)
    }

    /// Returns the squares of the sums of few colors, added.
    #[inline(always)]
    fn squares_of_few(self) -> u64
        requires few { self.count < 4194304 }
        requires red { self.red ≤ 255 * self.count }
        requires green { self.green ≤ 255 * self.count }
        requires blue { self.blue ≤ 255 * self.count }
        ensures { result ≡ self.red * self.red + self.green * self.green + self.blue * self.blue }
    {
        square(self.red as u64) + square(self.green as u64) + square(self.blue as u64)
    }

    /// Returns whether it tells, without a division, that they weigh at most so much.
    #[inline(always)]
    pub(crate) fn weighs_at_most(self, most: u128) -> bool
        requires some { 0 < self.count }
        requires red { self.red ≤ 255 * self.count }
        requires green { self.green ≤ 255 * self.count }
        requires blue { self.blue ≤ 255 * self.count }
        ensures { result ≡ true → weight_by self.count self.red self.green self.blue ≤ most }
    {
        self.count < FEW
            && most < LITTLE
            && self.squares_of_few() < (most as u64 + 1) * self.count as u64
    }

    /// Returns what the colors of a block weigh, in 64 bits. Condition: there is a color.
    #[inline(always)]
    fn weight_of_few(self) -> u64
        requires some { 0 < self.count }
        requires few { self.count ≤ 65535 }
        requires red { self.red ≤ 255 * self.count }
        requires green { self.green ≤ 255 * self.count }
        requires blue { self.blue ≤ 255 * self.count }
        ensures weight { result ≡ weight_by self.count self.red self.green self.blue }
        ensures few { result ≤ 195075 * self.count }
    {
        let (red, green, blue) = (self.red as u64, self.green as u64, self.blue as u64);
        weight_of_few(self.count as u64, red, green, blue)
    }
}

/// Returns the sums of some colors.
pub(crate) fn sums_of(colors: &[Color]) -> Sums
    ensures sums { AreSums (λ color. true) (map numbers colors.now) result }
    ensures bytes { All AreBytes (map numbers colors.now) }
{
    let mut sums = Sums::none();
    for i in 0..colors.len() {
        sums = sums.with(colors[i]);
    }
    sums
}

/// Returns the whole part of a quotient that is below 256. Numbers of 128 bits are divided by
/// differences, since no processor divides them.
pub(crate) fn quotient(n: u128, d: u128) -> u8
    requires some { 0 < d }
    requires few { n < 256 * d }
    ensures { result ≡ n / d }
{
    if d < 2 * MANY {
        return (n as u64 / d as u64) as u8;
    }
    let mut rest = n;
    for q in 0..255 {
        if rest < d {
            return q;
        }
        rest -= d;
    }
    255
}

/// Adds a block of colors to the words of no colors, in one turn.
///
/// The words of each value of each channel are those of the colors that have it.
#[inline(always)]
pub(crate) fn add_words(
    colors: &[Color],
    reds: &mut [u64; 256],
    greens: &mut [u64; 256],
    blues: &mut [u64; 256],
)
    requires few { length colors.now ≤ 65535 }
    requires red_none { AreWords 0 [] reds.old }
    requires green_none { AreWords 1 [] greens.old }
    requires blue_none { AreWords 2 [] blues.old }
    ensures reds { AreWords 0 (map numbers colors.now) reds.new }
    ensures greens { AreWords 1 (map numbers colors.now) greens.new }
    ensures blues { AreWords 2 (map numbers colors.now) blues.new }
    ensures bytes { All AreBytes (map numbers colors.now) }
{
    for i in 0..colors.len() {
        let clr = colors[i];
        reds[usize::from(channel(clr, 0))] += word(clr, 0);
        greens[usize::from(channel(clr, 1))] += word(clr, 1);
        blues[usize::from(channel(clr, 2))] += word(clr, 2);
    }
}

/// Returns the sums of a block of colors, of the words of the values of two channels.
pub(crate) fn total_of_words(reds: &[u64; 256], greens: &[u64; 256]) -> Sums
    requires { (box : List (List ℕ)) × AreBlockWords reds.now 0 box
        × AreBlockWords greens.now 1 box }
    ensures { (box : List (List ℕ)) → AreBlockWords reds.now 0 box
        → AreBlockWords greens.now 1 box → AreSums (λ color. true) box result }
{
    let beside_red = word_sum(0, reds);
    let beside_green = word_sum(1, greens);
    Sums {
        count: (beside_red / ONE) as usize,
        red: u128::from(beside_green / HIGH % HIGH),
        green: u128::from(beside_red / HIGH % HIGH),
        blue: u128::from(beside_red % HIGH),
    }
}

/// Returns the sum of the words of a block of colors for one channel.
fn word_sum(k: usize, words: &[u64; 256]) -> u64
    requires { (box : List (List ℕ)) × AreBlockWords words.now k box }
    ensures { (box : List (List ℕ)) → AreBlockWords words.now k box
        → result ≡ sum_of (λ color. true) (word_of k) box }
{
    let mut sum = 0;
    for value in 0..256 {
        sum += words[value];
    }
    sum
}

/// Adds a box of colors to the sums of no colors, block by block, in one turn.
pub(crate) fn add_blocks(
    colors: &[Color],
    reds: &mut [Sums; 256],
    greens: &mut [Sums; 256],
    blues: &mut [Sums; 256],
)
    requires red_none { AreByValue 0 [] reds.old }
    requires green_none { AreByValue 1 [] greens.old }
    requires blue_none { AreByValue 2 [] blues.old }
    ensures reds { AreByValue 0 (map numbers colors.now) reds.new }
    ensures greens { AreByValue 1 (map numbers colors.now) greens.new }
    ensures blues { AreByValue 2 (map numbers colors.now) blues.new }
    ensures bytes { All AreBytes (map numbers colors.now) }
{
    for i in 0..colors.len() / BLOCK + 1 {
        let start = i * BLOCK;
        let end = colors.len().min(start + BLOCK);
        let block = &colors[start..end];
        let (mut red_words, mut green_words, mut blue_words) = ([0; 256], [0; 256], [0; 256]);
        add_words(block, &mut red_words, &mut green_words, &mut blue_words);
        add_block(0, &red_words, reds);
        add_block(1, &green_words, greens);
        add_block(2, &blue_words, blues);
    }
}

/// Adds a block of colors to the sums of those before it, by its words.
pub(crate) fn add_block(k: usize, words: &[u64; 256], parts: &mut [Sums; 256])
    requires channel { k < 3 }
    requires boxes { (before block : List (List ℕ)) × AreBlockWords words.now k block
        × AreByValue k before parts.old × All AreBytes before
        × (length before + length block < 2 ^ 64) }
    ensures { (before block : List (List ℕ)) → AreBlockWords words.now k block
        → AreByValue k before parts.old → AreByValue k (before ++ block) parts.new }
{
    for value in 0..256 {
        if words[value] == 0 {
            continue;
        }
        parts[value] = parts[value].and(Sums::of_word(words[value], k, value));
    }
}

/// Returns the word of a color: a one, and the numbers of the channels beside one.
#[inline(always)]
pub(crate) fn word(clr: Color, k: usize) -> u64
    ensures word { result ≡ word_of k (numbers clr) }
    ensures bytes { AreBytes (numbers clr) }
{
    let high = channel(clr, if k == 0 { 1 } else { 0 });
    let low = channel(clr, if k < 2 { 2 } else { 1 });
    ONE + u64::from(high) * HIGH + u64::from(low)
}

/// Returns the sums of a box, of those of its colors of each value of a channel.
pub(crate) fn total(k: usize, parts: &[Sums; 256]) -> Sums
    requires { (box : List (List ℕ)) × AreByValue k box parts.now × All AreBytes box
        × (length box < 2 ^ 64) }
    ensures { (box : List (List ℕ)) → AreByValue k box parts.now → All AreBytes box
        → AreSums (λ color. true) box result }
{
    let mut sums = Sums::none();
    for value in 0..256 {
        sums = sums.and(parts[value]);
    }
    sums
}
