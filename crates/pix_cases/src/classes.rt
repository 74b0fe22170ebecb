//! The list of classes.
use crate::flaw::Flaw;
use crate::{
    buffers, channels, composites, conversions, drawings, formats, grays, hexcones, images,
    indices, lengths, models, palettes, regions, scripts,
};
use std::alloc::Global;

/// The answer of a class to the words of a case.
pub(crate) fn answer(class: &str, words: &[&str], alloc: Global) -> Result<String, Flaw> {
    match class {
        "format" => formats::described(words, alloc),
        "channel" => channels::arithmetic(words, alloc),
        "run" => channels::runs(words, alloc),
        "blend" => channels::blended(words, alloc),
        "operator" => channels::operated(words, alloc),
        "composite" => composites::composited(words, alloc),
        "convert" => conversions::converted(words, alloc),
        "deepen" => conversions::deepened(words, alloc),
        "from_rgba" => models::from_rgba(words, alloc),
        "into_rgba" => models::into_rgba(words, alloc),
        "corner" => models::corner(words, alloc),
        "hexcone" => hexcones::computed(words, alloc),
        "rgb" => hexcones::compared(words, alloc),
        "script" => scripts::script(words, alloc),
        "sides" => regions::sides(words, alloc),
        "cut" => regions::cut(words, alloc),
        "meet" => regions::meet(words, alloc),
        "clip" => regions::clip(words, alloc),
        "make" => images::make(words, alloc),
        "draw" => drawings::draw(words, alloc),
        "draw_gray" => drawings::draw_gray(words, alloc),
        "gray" | "sgray" | "srgb" | "matte" => grays::walked(class, words, alloc),
        "bytes" => buffers::of_bytes(words, alloc),
        "words" => buffers::of_words(words, alloc),
        "pixels" => buffers::of_pixels(words, alloc),
        "palette" => palettes::palette(words, alloc),
        "indexed" => palettes::indexed(words, alloc),
        "pack" => indices::pack(words, alloc),
        "unpack" => indices::unpack(words, alloc),
        "row" => lengths::row(words, alloc),
        "table" => lengths::table(words, alloc),
        "drawings" => lengths::drawings(words, alloc),
        _ => Err(Flaw::Class),
    }
}
