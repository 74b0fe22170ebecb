//! Checks that the name of each format is that of its parts. The cases of formats tell what the
//! parts are. Any other name does not compile.
use pix::bgr::{Bgr, Bgr8, Bgr16, Bgra8, Bgra8p, Bgra16, Bgra16p, SBgr8, SBgra8, SBgra8p};
use pix::chan::{Ch8, Ch16, Linear, Premultiplied, Srgb, Straight};
use pix::cmy::{Cmy, Cmy8, Cmy16, Cmya8, Cmya8p, Cmya16, Cmya16p, SCmy8, SCmya8, SCmya8p};
use pix::el::Pix;
use pix::gray::{
    Gray, Gray8, Gray16, Graya8, Graya8p, Graya16, Graya16p, SGray8, SGraya8, SGraya8p,
};
use pix::hsl::{Hsl, Hsl8, Hsl16, Hsla8, Hsla8p, Hsla16, Hsla16p, SHsl8, SHsla8, SHsla8p};
use pix::hsv::{Hsv, Hsv8, Hsv16, Hsva8, Hsva8p, Hsva16, Hsva16p, SHsv8, SHsva8, SHsva8p};
use pix::hwb::{Hwb, Hwb8, Hwb16, Hwba8, Hwba8p, Hwba16, Hwba16p, SHwb8, SHwba8, SHwba8p};
use pix::matte::{Matte, Matte8, Matte16};
use pix::rgb::{Rgb, Rgb8, Rgb16, Rgba8, Rgba8p, Rgba16, Rgba16p, SRgb8, SRgba8, SRgba8p};
use pix::xyz::{Xyz, Xyz8, Xyz16, Xyza8, Xyza8p, Xyza16, Xyza16p};
use pix::ycc::{YCbCr, YCbCr8, YCbCr16, YCbCra8, YCbCra8p, YCbCra16, YCbCra16p};
use std::marker::PhantomData;

/// The formats of linear channels of a model with `N` channels, and `A` with an alpha.
type LinearFormats<const N: usize, const A: usize, M> = (
    Pix<N, Ch8, M, Straight, Linear>,
    Pix<N, Ch16, M, Straight, Linear>,
    Pix<A, Ch8, M, Straight, Linear>,
    Pix<A, Ch8, M, Premultiplied, Linear>,
    Pix<A, Ch16, M, Straight, Linear>,
    Pix<A, Ch16, M, Premultiplied, Linear>,
);

/// The formats of sRGB.
type SrgbFormats<const N: usize, const A: usize, M> = (
    Pix<N, Ch8, M, Straight, Srgb>,
    Pix<A, Ch8, M, Straight, Srgb>,
    Pix<A, Ch8, M, Premultiplied, Srgb>,
);

/// The formats of a model that has both.
type Formats<const N: usize, const A: usize, M> = (LinearFormats<N, A, M>, SrgbFormats<N, A, M>);

/// The names of the formats of these models.
type Colors = (
    (
        (Rgb8, Rgb16, Rgba8, Rgba8p, Rgba16, Rgba16p),
        (SRgb8, SRgba8, SRgba8p),
    ),
    (
        (Bgr8, Bgr16, Bgra8, Bgra8p, Bgra16, Bgra16p),
        (SBgr8, SBgra8, SBgra8p),
    ),
    (
        (Cmy8, Cmy16, Cmya8, Cmya8p, Cmya16, Cmya16p),
        (SCmy8, SCmya8, SCmya8p),
    ),
);

/// The names of the formats of the models with a hue.
type Hues = (
    (
        (Hsv8, Hsv16, Hsva8, Hsva8p, Hsva16, Hsva16p),
        (SHsv8, SHsva8, SHsva8p),
    ),
    (
        (Hsl8, Hsl16, Hsla8, Hsla8p, Hsla16, Hsla16p),
        (SHsl8, SHsla8, SHsla8p),
    ),
    (
        (Hwb8, Hwb16, Hwba8, Hwba8p, Hwba16, Hwba16p),
        (SHwb8, SHwba8, SHwba8p),
    ),
);

/// The names of the other formats.
type Others = (
    (
        (Gray8, Gray16, Graya8, Graya8p, Graya16, Graya16p),
        (SGray8, SGraya8, SGraya8p),
    ),
    (Xyz8, Xyz16, Xyza8, Xyza8p, Xyza16, Xyza16p),
    (YCbCr8, YCbCr16, YCbCra8, YCbCra8p, YCbCra16, YCbCra16p),
    (Matte8, Matte16),
);

/// Takes the names of all formats for their parts.
pub(crate) fn compare() {
    colors();
    hues();
    others();
}

fn colors() {
    let _parts: PhantomData<(Formats<3, 4, Rgb>, Formats<3, 4, Bgr>, Formats<3, 4, Cmy>)> =
        PhantomData::<Colors>;
}

fn hues() {
    let _parts: PhantomData<(Formats<3, 4, Hsv>, Formats<3, 4, Hsl>, Formats<3, 4, Hwb>)> =
        PhantomData::<Hues>;
}

fn others() {
    let _parts: PhantomData<
        (
            Formats<1, 2, Gray>,
            LinearFormats<3, 4, Xyz>,
            LinearFormats<3, 4, YCbCr>,
            (
                Pix<1, Ch8, Matte, Premultiplied, Linear>,
                Pix<1, Ch16, Matte, Premultiplied, Linear>,
            ),
        ),
    > = PhantomData::<Others>;
}
