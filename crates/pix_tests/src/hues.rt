//! Hues, which are composited along the shorter arc.
use crate::channels::plain_step;
use pix::chan::Channel;
use pix::el::Pixel;
use pix::hsv::Hsva8p;
use pix::ops::Src;

/// The shorter arc from a hue to another on the circle of 256 hues, upwards where it is positive.
/// Where the numbers differ by at most half the circle, it is their difference, and doesn't pass 0.
fn shorter_arc(start: u8, end: u8) -> i64 {
    let difference = i64::from(end).wrapping_sub(i64::from(start));
    if difference.wrapping_abs() <= 128 {
        difference
    } else if 0 < difference {
        difference.wrapping_sub(256)
    } else {
        difference.wrapping_add(256)
    }
}

/// The hue at weight `t` on the shorter arc from a hue to another.
fn plain_hue(start: u8, end: u8, t: u8) -> i64 {
    let way = plain_step(i64::from(t).wrapping_mul(shorter_arc(start, end)));
    i64::from(start).wrapping_add(way).rem_euclid(256)
}

/// A hue composited with another at an alpha.
fn composited(before: u8, source: u8, t: u8) -> u32 {
    let mut pixel = Hsva8p::new(before, 0, 0, 0);
    pixel.composite_channels(&Hsva8p::new(source, 0, 0, t), Src);
    pixel.get(0).to_u32()
}

#[test]
fn all_pairs_of_hues(rt: HostRuntime) {
    for before in 0..=255_u8 {
        for source in 0..=255_u8 {
            for t in [0_u8, 1, 127, 128, 254, 255] {
                assert_eq!(rt;
                    i64::from(composited(before, source, t)),
                    plain_hue(before, source, t),
                    "{before} to {source} at {t}"
                );
            }
        }
    }
}
