//! The formats of bitmaps, by number.
ghost use Rattle.std.specs.Prelude.{◌≡◌, slice_get, unwrap_or, Some, true};
ghost use Rattle.std.specs.Option.{option_map};
ghost use Rattle.pix_bytes.specs.BitmapFormats.{stored_formats, sample_size, pixel_size};
ghost use Rattle.pix_bytes.specs.Rows.{max_of, stored_of, is_sound};
ghost use Rattle.pix_bytes.specs.Table.{first_line};

use crate::bitmap::model::ModelName::{
    self, Bgr, Cmy, Gray, Hsl, Hsv, Hwb, Matte, Rgb, Xyz, YCbCr,
};
use Depth::{Linear8, Linear16, Srgb8};

/// How a channel is stored: of 8 bits, encoded by the sRGB curve or linear, or linear of 16 bits.
#[derive(Clone, Copy)]
pub(crate) enum Depth {
    /// In 8 bits, encoded by the sRGB curve.
    Srgb8,
    /// In 8 bits, linear.
    Linear8,
    /// In 16 bits, linear.
    Linear16,
}

/// A format of pixels in bytes.
#[derive(Clone, Copy)]
pub(crate) struct FormatParts {
    /// The color model.
    pub model: ModelName,
    /// How many channels a pixel has.
    pub count: usize,
    /// Whether the colors are multiplied by the alpha.
    pub is_premultiplied: bool,
    /// How a channel is stored.
    pub depth: Depth,
    /// How many samples come after the channels.
    pub spare: usize,
}

/// A line of the table of formats: the fields of [`FormatParts`] in their order.
#[derive(Clone, Copy)]
struct Line(ModelName, usize, bool, Depth, usize);

/// The formats in the order of their numbers.
const FORMATS: [Line; 81] = [
    Line(Rgb, 4, false, Srgb8, 0),
    Line(Rgb, 4, true, Srgb8, 0),
    Line(Rgb, 4, false, Linear8, 0),
    Line(Rgb, 4, true, Linear8, 0),
    Line(Bgr, 4, false, Linear8, 0),
    Line(Bgr, 4, true, Linear8, 0),
    Line(Rgb, 3, false, Linear8, 0),
    Line(Gray, 1, false, Linear8, 0),
    Line(Bgr, 4, false, Srgb8, 0),
    Line(Bgr, 4, true, Srgb8, 0),
    Line(Rgb, 3, false, Srgb8, 0),
    Line(Gray, 1, false, Srgb8, 0),
    Line(Rgb, 4, false, Linear16, 0),
    Line(Rgb, 4, true, Linear16, 0),
    Line(Rgb, 3, false, Linear16, 0),
    Line(Bgr, 4, false, Linear16, 0),
    Line(Bgr, 4, true, Linear16, 0),
    Line(Bgr, 3, false, Linear16, 0),
    Line(Bgr, 3, false, Linear8, 0),
    Line(Bgr, 3, false, Srgb8, 0),
    Line(Gray, 2, false, Linear8, 0),
    Line(Gray, 2, true, Linear8, 0),
    Line(Gray, 2, false, Srgb8, 0),
    Line(Gray, 2, true, Srgb8, 0),
    Line(Gray, 1, false, Linear16, 0),
    Line(Gray, 2, false, Linear16, 0),
    Line(Gray, 2, true, Linear16, 0),
    Line(Matte, 1, true, Linear8, 0),
    Line(Matte, 1, true, Linear16, 0),
    Line(Cmy, 3, false, Linear8, 0),
    Line(Cmy, 4, false, Linear8, 0),
    Line(Cmy, 4, true, Linear8, 0),
    Line(Cmy, 3, false, Linear16, 0),
    Line(Cmy, 4, false, Linear16, 0),
    Line(Cmy, 4, true, Linear16, 0),
    Line(Cmy, 3, false, Srgb8, 0),
    Line(Cmy, 4, false, Srgb8, 0),
    Line(Cmy, 4, true, Srgb8, 0),
    Line(Hsv, 3, false, Linear8, 0),
    Line(Hsv, 4, false, Linear8, 0),
    Line(Hsv, 4, true, Linear8, 0),
    Line(Hsv, 3, false, Linear16, 0),
    Line(Hsv, 4, false, Linear16, 0),
    Line(Hsv, 4, true, Linear16, 0),
    Line(Hsv, 3, false, Srgb8, 0),
    Line(Hsv, 4, false, Srgb8, 0),
    Line(Hsv, 4, true, Srgb8, 0),
    Line(Hsl, 3, false, Linear8, 0),
    Line(Hsl, 4, false, Linear8, 0),
    Line(Hsl, 4, true, Linear8, 0),
    Line(Hsl, 3, false, Linear16, 0),
    Line(Hsl, 4, false, Linear16, 0),
    Line(Hsl, 4, true, Linear16, 0),
    Line(Hsl, 3, false, Srgb8, 0),
    Line(Hsl, 4, false, Srgb8, 0),
    Line(Hsl, 4, true, Srgb8, 0),
    Line(Hwb, 3, false, Linear8, 0),
    Line(Hwb, 4, false, Linear8, 0),
    Line(Hwb, 4, true, Linear8, 0),
    Line(Hwb, 3, false, Linear16, 0),
    Line(Hwb, 4, false, Linear16, 0),
    Line(Hwb, 4, true, Linear16, 0),
    Line(Hwb, 3, false, Srgb8, 0),
    Line(Hwb, 4, false, Srgb8, 0),
    Line(Hwb, 4, true, Srgb8, 0),
    Line(YCbCr, 3, false, Linear8, 0),
    Line(YCbCr, 4, false, Linear8, 0),
    Line(YCbCr, 4, true, Linear8, 0),
    Line(YCbCr, 3, false, Linear16, 0),
    Line(YCbCr, 4, false, Linear16, 0),
    Line(YCbCr, 4, true, Linear16, 0),
    Line(Xyz, 3, false, Linear8, 0),
    Line(Xyz, 4, false, Linear8, 0),
    Line(Xyz, 4, true, Linear8, 0),
    Line(Xyz, 3, false, Linear16, 0),
    Line(Xyz, 4, false, Linear16, 0),
    Line(Xyz, 4, true, Linear16, 0),
    Line(Rgb, 3, false, Srgb8, 1),
    Line(Bgr, 3, false, Srgb8, 1),
    Line(Rgb, 3, false, Linear8, 1),
    Line(Bgr, 3, false, Linear8, 1),
];

/// Returns the line of the table for a number, and the first one where there is none.
fn line_or_first(number: u32) -> Line
    ensures { result ≡ unwrap_or (slice_get FORMATS number) first_line }
{
    let first = Line(Rgb, 4, false, Srgb8, 0);
    FORMATS.get(number as usize).copied().unwrap_or(first)
}

impl Depth {
    /// Returns how many bytes a sample has.
    fn size(self) -> usize
        ensures { result ≡ sample_size (max_of self) }
    {
        match self {
            Srgb8 | Linear8 => 1,
            Linear16 => 2,
        }
    }
}

impl FormatParts {
    /// Returns the format of a number, if there is one.
    pub(crate) fn from_number(number: u32) -> Option<FormatParts>
        ensures value { option_map stored_of result ≡ slice_get stored_formats number }
        ensures sound { (stored : FormatParts) → result ≡ Some stored → is_sound stored ≡ true }
    {
        if number < 81 {
            let row = line_or_first(number);
            Some(FormatParts {
                model: row.0,
                count: row.1,
                is_premultiplied: row.2,
                depth: row.3,
                spare: row.4,
            })
        } else {
            None
        }
    }

    /// Returns this format, if it has this model, number of channels, alpha mode and number of
    /// spare samples. Then the compiler knows them.
    #[inline(always)]
    pub(crate) fn known(
        self,
        model: ModelName,
        count: usize,
        is_premultiplied: bool,
        spare: usize,
    ) -> Option<FormatParts>
        ensures { (known : FormatParts) → result ≡ Some known → known ≡ self }
    {
        if self.model.is(model)
            && self.count == count
            && self.is_premultiplied == is_premultiplied
            && self.spare == spare
        {
            Some(FormatParts {
                model,
                count,
                is_premultiplied,
                depth: self.depth,
                spare,
            })
        } else {
            None
        }
    }

    /// Returns whether this format has this model, number of channels, alpha mode and number of
    /// spare samples.
    #[inline(always)]
    pub(crate) fn has(
        self,
        model: ModelName,
        count: usize,
        is_premultiplied: bool,
        spare: usize,
    ) -> bool
        ensures { result ≡ true → self ≡ record {
          model = model;
          count = count;
          is_premultiplied = is_premultiplied;
          depth = self.depth;
          spare = spare;
        } }
    {
        self.model.is(model)
            && self.count == count
            && self.is_premultiplied == is_premultiplied
            && self.spare == spare
    }

    /// Returns how many bytes a pixel has. Condition: it has at most four samples.
    pub(crate) fn size(self) -> usize
        requires { is_sound self ≡ true }
        ensures { result ≡ pixel_size (stored_of self) }
    {
        (self.count + self.spare) * self.depth.size()
    }
}
