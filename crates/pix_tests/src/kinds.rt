//! The numbers by which color models, alpha modes and gamma modes are told from one another.
use pix::ColorModel;
use pix::bgr::Bgr;
use pix::chan::{Alpha, Ch8, Ch16, Channel, Gamma, Linear, Premultiplied, Srgb, Straight};
use pix::cmy::Cmy;
use pix::gray::Gray;
use pix::hsl::Hsl;
use pix::hsv::Hsv;
use pix::hwb::Hwb;
use pix::matte::Matte;
use pix::rgb::Rgb;
use pix::xyz::Xyz;
use pix::ycc::YCbCr;

/// The number of a color model.
fn model<M: ColorModel>() -> u8 {
    M::KIND
}

/// The number of an alpha mode.
fn alpha_mode<A: Alpha>() -> u8 {
    A::KIND
}

/// The number of a gamma mode.
fn gamma_mode<C: Channel, G: Gamma<C>>() -> u8 {
    G::KIND
}

#[test]
fn kinds_are_distinct(rt: HostRuntime) {
    let models = [
        model::<Rgb>(),
        model::<Bgr>(),
        model::<Cmy>(),
        model::<Gray>(),
        model::<Matte>(),
        model::<Hsv>(),
        model::<Hsl>(),
        model::<Hwb>(),
        model::<YCbCr>(),
        model::<Xyz>(),
    ];
    for kind in models {
        let count = models.iter().filter(|other| **other == kind).count();
        assert_eq!(rt; count, 1, "{kind}");
    }
    assert_ne!(rt; alpha_mode::<Straight>(), alpha_mode::<Premultiplied>());
    assert_ne!(rt; gamma_mode::<Ch8, Linear>(), gamma_mode::<Ch8, Srgb>());
    assert_eq!(rt; gamma_mode::<Ch8, Linear>(), gamma_mode::<Ch16, Linear>());
}
