//! Channels: operands of other types, and all pairs of eight bits.
use pix::chan::{Ch8, Ch16, Channel};

#[test]
fn operands_of_other_types_are_channels_first(rt: HostRuntime) {
    let half = Ch8::new(128);
    let eight = [half + 1_u8, half * Ch16::new(65535)];
    assert_eq!(rt; eight.map(|channel| channel.to_u32()), [129, 128]);
    let half = Ch16::new(32768);
    let sixteen = [half - 1_u16, half / Ch8::new(255)];
    assert_eq!(rt; sixteen.map(|channel| channel.to_u32()), [32767, 32768]);
}

/// `c` / 255 rounded down, but -k where `c` is -(255 * k + 1) and k isn't 0.
pub(crate) fn plain_step(c: i64) -> i64 {
    if c < -1 && (c + 1) % 255 == 0 {
        (c + 1) / 255
    } else {
        c.div_euclid(255)
    }
}

/// The lerp in plain whole numbers.
fn plain_lerp(start: u8, end: u8, t: u8) -> i64 {
    let difference = i64::from(end) - i64::from(start);
    i64::from(start).wrapping_add(plain_step(i64::from(t).wrapping_mul(difference)))
}

/// The quotient in plain whole numbers: 256 * `x` / `y` rounded down, at most 255, and 0 where `y`
/// is 0.
fn plain_quotient(x: u8, y: u8) -> u32 {
    match u32::from(y) {
        0 => 0,
        y => (256 * u32::from(x) / y).min(255),
    }
}

/// The product in plain whole numbers: (2 * `x` * `y` + 255) / 510 rounded down.
fn plain_product(x: u8, y: u8) -> u32 {
    (2 * u32::from(x) * u32::from(y) + 255) / 510
}

#[test]
fn all_pairs_of_eight_bits(rt: HostRuntime) {
    for x in 0..=255_u8 {
        for y in 0..=255_u8 {
            let (a, b) = (Ch8::new(x), Ch8::new(y));
            assert_eq!(rt; (a * b).to_u32(), plain_product(x, y), "{x} * {y}");
            assert_eq!(rt; (a / b).to_u32(), plain_quotient(x, y), "{x} / {y}");
            for t in [0_u8, 1, 2, 16, 64, 127, 128, 129, 200, 253, 254, 255] {
                let lerp = i64::from(a.lerp(b, Ch8::new(t)).to_u32());
                assert_eq!(rt; lerp, plain_lerp(x, y, t), "{x} to {y} at {t}");
            }
        }
    }
}
