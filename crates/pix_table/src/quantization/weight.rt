//! The weight of a box of colors: the part of the sum of its squares that its mean accounts for.
//!
//! No processor divides numbers of 128 bits, so they are divided here, bit by bit.
ghost use Rattle.std.specs.Prelude.{◌≡◌, ◌+◌, ◌*◌, ◌/◌, ◌%◌, ◌^◌, ◌<◌, ◌≤◌, slice_index};

/// Fewer colors than these have sums of at most 31 bits, so that three squares fit 64 bits.
const MANY: usize = 1 << 23;

/// A number divided by another one: how often it goes in, and the rest.
#[derive(Clone, Copy)]
struct Quotient {
    whole: u128,
    rest: u128,
}

/// Returns the squares of three sums, added, over a count, rounded down.
///
/// Condition: the count is positive, and no sum is above 255 times it.
pub(crate) fn weight(count: usize, sums: [u128; 3]) -> u128
    requires some { 0 < count }
    requires red { slice_index sums 0 ≤ 255 * count }
    requires green { slice_index sums 1 ≤ 255 * count }
    requires blue { slice_index sums 2 ≤ 255 * count }
    ensures { result ≡ (slice_index sums 0 * slice_index sums 0
        + slice_index sums 1 * slice_index sums 1
        + slice_index sums 2 * slice_index sums 2) / count }
{
    let [red, green, blue] = sums;
    if count < MANY {
        u128::from(weight_of_few(count as u64, red as u64, green as u64, blue as u64))
    } else {
        weight_of_many(count as u128, red, green, blue)
    }
}

/// Returns the squares of three sums, added, over a count, rounded down, in 64 bits.
///
/// Condition: the count is positive, and the sums have at most 31 bits.
#[inline(always)]
pub(crate) fn weight_of_few(count: u64, red: u64, green: u64, blue: u64) -> u64
    requires some { 0 < count }
    requires red { red < 2147483648 }
    requires green { green < 2147483648 }
    requires blue { blue < 2147483648 }
    ensures { result ≡ (red * red + green * green + blue * blue) / count }
{
    (square(red) + square(green) + square(blue)) / count
}

/// Returns the square of a number of at most 31 bits.
#[inline(always)]
pub(crate) fn square(n: u64) -> u64
    requires { n < 2147483648 }
    ensures square { result ≡ n * n }
    ensures few { result < 4611686018427387904 }
{
    n * n
}

/// Returns the squares of three sums, added, over a count, rounded down. The squares may need more
/// than 128 bits.
///
/// Condition: the count is positive and has at most 64 bits, and no sum is above 255 times it.
fn weight_of_many(count: u128, red: u128, green: u128, blue: u128) -> u128
    requires some { 0 < count }
    requires few { count < 18446744073709551616 }
    requires red { red ≤ 255 * count }
    requires green { green ≤ 255 * count }
    requires blue { blue ≤ 255 * count }
    ensures { result ≡ (red * red + green * green + blue * blue) / count }
{
    let red = square_over(red, count);
    let green = square_over(green, count);
    let blue = square_over(blue, count);
    let rests = divided(red.rest + green.rest + blue.rest, count);
    red.whole + green.whole + blue.whole + rests.whole
}

/// Returns the square of a sum over a count: the square itself may need more than 128 bits.
fn square_over(sum: u128, count: u128) -> Quotient
    requires some { 0 < count }
    requires few { count < 18446744073709551616 }
    requires sum { sum ≤ 255 * count }
    ensures whole { result.whole * count + result.rest ≡ sum * sum }
    ensures rest { result.rest < count }
    ensures few { result.whole ≤ 65025 * count }
{
    let mean = divided(sum, count);
    let part = divided(mean.rest * mean.rest, count);
    Quotient {
        whole: mean.whole * (sum + mean.rest) + part.whole,
        rest: part.rest,
    }
}

/// Returns a number divided by another one.
fn divided(n: u128, by: u128) -> Quotient
    requires { 0 < by }
    ensures whole { result.whole * by + result.rest ≡ n }
    ensures rest { result.rest < by }
{
    let (mut whole, mut rest) = (0, 0);
    for i in 0..128 {
        whole *= 2;
        rest = 2 * rest + bit(n, 127 - i);
        if by <= rest {
            whole += 1;
            rest -= by;
        }
    }
    Quotient { whole, rest }
}

/// Returns a bit of a number.
fn bit(n: u128, place: u32) -> u128
    requires { place < 128 }
    ensures { result ≡ n / 2 ^ place % 2 }
{
    n >> place & 1
}
