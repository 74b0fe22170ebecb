//! Channels, alpha modes, gamma modes and operators.
ghost use Rattle.std.specs.Prelude.{◌≡◌, Some};
ghost use Rattle.pix_ops.specs.declared.ops.Op.{Op};

use pix::chan::{Alpha, Ch8, Ch16, Channel, Gamma, Premultiplied, Srgb};
use pix::ops::{Blend, Op, SrcOver};

/// Returns a sum and a difference that stop at the ends.
pub fn sums() -> (Ch8, Ch8)
    ensures whole { result.0.value ≡ 255 }
    ensures none { result.1.value ≡ 0 }
{
    let half = Ch8::new(128);
    let whole = half + half; // 255: a sum stops at the maximum
    let none = half - whole; // 0: a difference stops at 0
    (whole, none)
}

/// Returns a product and a quotient.
pub fn parts() -> (Ch8, Ch8) {
    let half = Ch8::new(128);
    let quarter = half * half; // 64: 128 * 128 / 255 is 64.25
    let again = quarter / half; // 128: 256 * 64 / 128
    (quarter, again)
}

/// Turns a hue past the end of its circle, and back.
pub fn turns() -> (Ch8, Ch8)
    ensures forth { result.0.value ≡ 4 }
    ensures back { result.1.value ≡ 250 }
{
    let hue = Ch8::new(250);
    let forth = hue.wrapping_add(Ch8::new(10)); // 4
    let back = forth.wrapping_sub(Ch8::new(10)); // 250
    (forth, back)
}

/// Returns a fifth of the maximum, and what lies a fifth of the way between two channels.
pub fn fifth() -> (Ch8, Ch8) {
    let fifth = Ch8::from_ratio(255, 5); // 51
    let (start, end) = (Ch8::new(100), Ch8::new(200));
    let between = start.lerp(end, fifth); // 120
    (fifth, between)
}

/// Takes a channel to sixteen bits and back.
pub fn widths() -> (u32, Ch8)
    ensures units { result.0 ≡ 43947 }
    ensures coarse { result.1.value ≡ 171 }
{
    let fine = Ch16::from(Ch8::new(171));
    let units = fine.to_u32(); // 43947: 171 * 257
    let coarse = Ch8::from(fine); // 171
    (units, coarse)
}

/// Takes a channel through the sRGB curve, and through the premultiplied form.
pub fn modes() -> (Ch8, Ch8, Ch8, Ch8) {
    let light = Ch8::new(188).decode_srgb(); // 128
    let shown = light.encode_srgb(); // 188
    let same = <Srgb as Gamma<Ch8>>::to_linear(shown); // 128
    let stored = Premultiplied::encode(same, light); // 64
    let straight = Premultiplied::decode(stored, light); // 128
    (light, shown, stored, straight)
}

/// Takes a channel through the sRGB curve to sixteen bits of linear light, and back.
pub fn deep_modes() -> (Ch16, Ch8, Ch8)
    ensures same { result.1.value ≡ 188 }
{
    let light = Ch8::new(188).decode_srgb16(); // 32957
    let shown = light.encode_srgb8(); // 188
    let dim = Ch16::new(10).encode_srgb8(); // 1
    (light, shown, dim)
}

/// Finds an operator by its name, and by its number.
pub fn found() -> (Option<Op>, Option<Op>)
    ensures number { result.1 ≡ Some Op.SrcOver }
{
    let by_name = Op::from_name(Op::SrcOver.name().as_bytes()); // Some(Op::SrcOver)
    let by_number = Op::from_number(2); // Some(Op::SrcOver), which is Op::ALL[2]
    let none = Op::from_name(b"srcover"); // None: exact in case
    (by_name.or(none), by_number)
}

/// Composites one channel, by an operator as a type and by one as a value.
pub fn composited() -> Ch8 {
    let (src, sa) = (Ch8::new(50), Ch8::new(128));
    let (mut dst, da) = (Ch8::new(200), Ch8::MAX);
    SrcOver::composite(&mut dst, Ch8::MAX - da, &src, Ch8::MAX - sa); // 50 + 200 * 127/255
    Op::Plus.composite(&mut dst, Ch8::MAX - da, &src, Ch8::MAX - sa); // 50 more
    dst
}
